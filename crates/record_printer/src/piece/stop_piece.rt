//! The piece of a stop.

ghost use Rattle.std.specs.Prelude.{◌≡◌, IfOk};
ghost use Rattle.record_printer.specs.Piece.{Stopped};
ghost use Rattle.record_printer.specs.StopNote.{stop_note};

use crate::call::show::Show;
use crate::piece::Piece;
use crate::piece::stop_note::stop_note;
use std::alloc::Allocator;
use trace_options::NoMemory;
use trace_record::StopRecord;

/// The piece of a stop: the thread id and the number of its record, and what is printed of it. It fails where memory
/// runs out.
#[inline(always)]
pub fn piece_of<A: Allocator + Copy, B: Allocator>(
    alloc: A,
    stop: &StopRecord<B>,
    show: &Show,
) -> Result<Piece<A>, NoMemory>
    ensures { IfOk result (λ piece. piece ≡ Stopped stop.now.tid stop.now.number (stop_note show.now stop.now)) }
{
    let note = stop_note(alloc, stop, show)?;
    Ok(Piece::stopped(stop.tid, stop.number, note))
}
