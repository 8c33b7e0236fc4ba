//! The bytes of a layout while they are put together.

ghost use Rattle.std.specs.Prelude.{◌≡◌, ◌+◌, ◌≤◌, [], ◌++◌, length};
ghost use Rattle.std.specs.Int.{w64, to_le_bytes};

use std::marker::Model;

/// How many bytes the longest layout has, that of a seccomp stop.
pub(crate) const LONGEST: usize = 84;

/// The bytes so far, no more than the longest layout has.
#[derive(Drop)]
pub(crate) struct InfoDraft {
    bytes: [u8; LONGEST],
    len: usize,
}

impl Model for InfoDraft {
    ghost use Rattle.std.specs.Prelude.{ℕ, ◌≤◌, List, take};
    ghost use Rattle.trace_status.specs.declared.draft.TheConstants.{LONGEST};

    ghost Value = { List ℕ };

    ghost view = { λ d. take d.len d.bytes };

    ghost invariant = { λ d. d.len ≤ LONGEST };
}

impl InfoDraft {
    /// No bytes.
    pub(crate) fn new() -> InfoDraft
        ensures { result ≡ [] }
    {
        InfoDraft {
            bytes: [0; LONGEST],
            len: 0,
        }
    }

    /// Puts a piece behind the bytes.
    pub(crate) fn push(&mut self, piece: &[u8])
        requires { length self.old + length piece.now ≤ LONGEST }
        ensures { self.new ≡ self.old ++ piece.now }
    {
        let end = self.len + piece.len();
        self.bytes[self.len..end].copy_from_slice(piece);
        self.len = end;
    }

    /// Puts the bytes of a word behind the bytes.
    pub(crate) fn push_word(&mut self, word: u64)
        requires { length self.old + 8 ≤ LONGEST }
        ensures { self.new ≡ self.old ++ to_le_bytes w64 word }
    {
        self.push(&word.to_le_bytes());
    }

    /// The bytes.
    pub(crate) fn as_slice(&self) -> &[u8]
        ensures { result.now ≡ self.now }
    {
        &self.bytes[..self.len]
    }
}
