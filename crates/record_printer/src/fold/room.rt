//! How many bytes notes add to the texts of a row at most.

ghost use Rattle.std.specs.Prelude.{◌≡◌, ◌+◌, IfSome, length};
ghost use Rattle.record_printer.specs.KeptFold.{behind_len, end_len, note_len, start_len, text_len};
ghost use Rattle.record_printer.specs.NoteOf.{note_of};
ghost use Rattle.std.specs.Prelude.{option_map};

use crate::call::parts::{CallEnd, CallStart};
use crate::piece::note::Note;
use std::alloc::Allocator;

/// Room for a part of a line that may be long, as one with 32 bytes in quotes. Few are longer, and those grow.
pub(crate) const LINE_ROOM: usize = 192;

/// Room for a part of a line that is short, as an address or a result.
pub(crate) const REST_ROOM: usize = 24;

/// Room for the text of a row, and for the lines that follow that of its pending call.
#[derive(Clone, Copy)]
pub(crate) struct TextRoom {
    pub(crate) lines: usize,
    pub(crate) behind: usize,
}

impl TextRoom {
    /// The room for no note.
    pub(crate) fn none() -> TextRoom
        ensures lines { result.lines ≡ 0 }
        ensures behind { result.behind ≡ 0 }
    {
        TextRoom {
            lines: 0,
            behind: 0,
        }
    }

    /// The room for one more note, or None where it is no `usize`.
    pub(crate) fn with<A: Allocator>(self, note: &Note<A>) -> Option<TextRoom>
        ensures lines { IfSome result (λ room. room.lines ≡ self.lines + note_len (note_of note.now)) }
        ensures behind { IfSome result (λ room. room.behind ≡ self.behind + behind_len (note_of note.now)) }
    {
        let lines = with_note(self.lines, note)?;
        let behind = with_behind(self.behind, note)?;
        Some(TextRoom { lines, behind })
    }
}

fn with_note<A: Allocator>(lines: usize, note: &Note<A>) -> Option<usize>
    ensures { IfSome result (λ more. more ≡ lines + note_len (note_of note.now)) }
{
    match note {
        Note::Enter(start) | Note::Seccomp(start) => with_start(lines, start),
        Note::Exit(end) => with_end(lines, end),
        Note::Signal(line) => lines.checked_add(line.as_slice().len()),
        Note::Birth(_) | Note::Quiet => Some(lines),
    }
}

fn with_behind<A: Allocator>(behind: usize, note: &Note<A>) -> Option<usize>
    ensures { IfSome result (λ more. more ≡ behind + behind_len (note_of note.now)) }
{
    match note {
        Note::Signal(line) => behind.checked_add(line.as_slice().len()),
        _ => Some(behind),
    }
}

/// The room for the parts of the line of a call that its start has.
pub(crate) fn with_start<A: Allocator>(lines: usize, start: &CallStart<A>) -> Option<usize>
    ensures { IfSome result (λ more. more ≡ lines + start_len start.now) }
{
    let before = lines.checked_add(start.before().len())?;
    let out = with_text(before, start.out())?;
    out.checked_add(start.after().len())
}

fn with_end<A: Allocator>(lines: usize, end: &CallEnd<A>) -> Option<usize>
    ensures { IfSome result (λ more. more ≡ lines + end_len end.now) }
{
    let out = with_text(lines, end.out())?;
    let result = out.checked_add(end.result().len())?;
    result.checked_add(1)
}

fn with_text(lines: usize, text: Option<&[u8]>) -> Option<usize>
    ensures { IfSome result (λ more. more ≡ lines + text_len (option_map (λ t. t.now) text.entry)) }
{
    match text {
        Some(text) => lines.checked_add(text.len()),
        None => Some(lines),
    }
}
