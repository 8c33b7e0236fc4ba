//! What is noted of a stop (strace(1)).

ghost use Rattle.std.specs.Prelude.{◌≡◌, ◌++◌, ◌∷◌, IfOk};
ghost use Rattle.record_printer.specs.NoteOf.{note_of};
ghost use Rattle.record_printer.specs.StopNote.{signal_line, stop_note};

use crate::call::end::call_end;
use crate::call::show::Show;
use crate::call::start::call_start;
use crate::piece::note::Note;
use crate::text::numbers::write_decimal;
use crate::text::signal::write_signal;
use std::alloc::Allocator;
use trace_options::NoMemory;
use trace_record::{Stop, StopRecord};

/// What is noted of a stop.
#[inline(always)]
pub(crate) fn stop_note<A: Allocator + Copy, B: Allocator>(
    alloc: A,
    stop: &StopRecord<B>,
    show: &Show,
) -> Result<Note<A>, NoMemory>
    ensures { IfOk result (λ note. note_of note ≡ stop_note show.now stop.now) }
{
    match stop.stop {
        Stop::Enter => Ok(Note::Enter(call_start(alloc, stop, show)?)),
        Stop::Seccomp(_) => Ok(Note::Seccomp(call_start(alloc, stop, show)?)),
        Stop::Exit => Ok(Note::Exit(call_end(alloc, stop, show)?)),
        Stop::Signal(signal) => Ok(Note::Signal(signal_line(alloc, stop.tid, signal)?)),
        Stop::Fork(child) | Stop::Clone(child) => Ok(Note::Birth(child)),
        Stop::Start | Stop::Exec(_) | Stop::Ending(_) => Ok(Note::Quiet),
    }
}

/// The line of a signal, with its line feed.
fn signal_line<A: Allocator>(alloc: A, tid: u32, signal: u8) -> Result<Vec<u8, A>, NoMemory>
    ensures { IfOk result (λ line. line.items ≡ signal_line tid signal) }
{
    let mut line = Vec::new(alloc);
    write_decimal(&mut line, u64::from(tid))?;
    line.extend_from_slice(b" --- ".as_slice())?;
    write_signal(&mut line, signal)?;
    line.extend_from_slice(b" ---\n".as_slice())?;
    Ok(line)
}
