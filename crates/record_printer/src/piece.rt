//! What a stop or a death of a row gives to the text of a trace.

ghost use Rattle.std.specs.Prelude.{◌≡◌};
ghost use Rattle.record_printer.specs.NoteOf.{note_of};
ghost use Rattle.record_printer.specs.Piece.{Died, Stopped};
ghost use Rattle.record_printer.specs.PieceOf.{piece_of};

pub(crate) mod note;
pub(crate) mod stop_note;
pub(crate) mod stop_piece;

use crate::piece::note::Note;
use std::alloc::{Allocator, Global};
use std::marker::Model;
use trace_record::Death;

/// The piece of a stop, or of a death, for a `Folder`.
#[derive(Drop)]
pub struct Piece<A: Allocator = Global> {
    tid: u32,
    number: u32,
    given: Given<A>,
    /// Where a folder looks first for the row of the thread id.
    row: u32,
}

/// What gives a piece.
#[derive(Drop)]
pub(crate) enum Given<A: Allocator = Global> {
    Stop(Note<A>),
    Death(Death),
}

impl<A: Allocator> Model for Piece<A> {
    ghost use Rattle.record_printer.specs.Piece.{Piece};
    ghost use Rattle.record_printer.specs.PieceOf.{piece_of};

    ghost Value = { Piece };

    ghost view = { λ p. piece_of p.tid p.number p.given };
}

impl<A: Allocator> Piece<A> {
    /// The piece of a stop of the row with this thread id, from 1 on in its number. It takes no memory.
    pub(crate) fn stopped(tid: u32, number: u32, note: Note<A>) -> Piece<A>
        ensures { result ≡ Stopped tid number (note_of note) }
    {
        Piece {
            tid,
            number,
            given: Given::Stop(note),
            row: 0,
        }
    }

    /// The same piece. A folder looks for its row at this place of the roster first, and searches where that row has
    /// another thread id.
    #[inline(always)]
    pub fn with_row(mut self, row: u32) -> Piece<A>
        ensures { result ≡ self }
    {
        self.row = row;
        self
    }

    /// The thread id, the number, what gave the piece, and where to look for its row first.
    pub(crate) fn into_parts(self) -> (u32, u32, Given<A>, u32)
        ensures { self ≡ piece_of result.0 result.1 result.2 }
    {
        (self.tid, self.number, self.given, self.row)
    }
}

/// The piece of the death of the row with this thread id, whose last stop has this number, or 0 where it has made
/// none. It takes no memory.
pub fn death_piece<A: Allocator>(tid: u32, number: u32, death: Death) -> Piece<A>
    ensures { result ≡ Died tid number death }
{
    Piece {
        tid,
        number,
        given: Given::Death(death),
        row: 0,
    }
}
