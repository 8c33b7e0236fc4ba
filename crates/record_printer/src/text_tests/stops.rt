//! The notes of stops that are no whole call.

use super::{Call, stopped};
use crate::call::parts::CallStart;
use crate::piece::note::Note;
use crate::piece::stop_note::stop_note;
use crate::tests::compare::same;
use crate::{Show, piece_of};
use std::alloc::Global;
use std::test::Fail;
use trace_options::{CallSet, NoMemory};
use trace_pages::Memory;
use trace_record::{Death, Stop};

/// The note of a stop of thread 100 with no memory.
fn note_at(alloc: Global, stop: Stop, calls: CallSet) -> Result<Note, NoMemory> {
    let show = Show { limit: 32, calls };
    let call = Call(60, [3, 0, 0], 0, "");
    stop_note(alloc, &stopped(stop, &call, Memory::new(alloc)), &show)
}

#[test]
fn a_signal_has_its_line(rt: HostRuntime) -> Result<(), Fail> {
    for (signal, line) in [
        (15, "100 --- SIGTERM ---\n"),
        (1, "100 --- SIGHUP ---\n"),
        (31, "100 --- SIGSYS ---\n"),
        (32, "100 --- SIG_32 ---\n"),
        (64, "100 --- SIG_64 ---\n"),
    ] {
        let note = note_at(rt.alloc(), Stop::Signal(signal), CallSet::none())?;
        same(
            &rt,
            &(signal, is_signal(&note, line.as_bytes())),
            &(signal, true),
        );
    }
    Ok(())
}

/// Whether this is the note of a signal with this line.
fn is_signal(note: &Note, line: &[u8]) -> bool {
    match note {
        Note::Signal(text) => text.as_slice() == line,
        _ => false,
    }
}

#[test]
fn a_birth_names_its_child(rt: HostRuntime) -> Result<(), Fail> {
    for stop in [Stop::Fork(101), Stop::Clone(101)] {
        let note = note_at(rt.alloc(), stop, CallSet::none())?;
        assert!(rt; matches!(&note, Note::Birth(101)));
    }
    for stop in [Stop::Start, Stop::Exec(100), Stop::Ending(Death::Exited(3))] {
        let note = note_at(rt.alloc(), stop, CallSet::all())?;
        assert!(rt; matches!(&note, Note::Quiet));
    }
    Ok(())
}

/// A call starts at both of its stops alike. One that is not printed starts too, without a text.
#[test]
fn a_call_starts_at_its_entry(rt: HostRuntime) -> Result<(), Fail> {
    let entered = note_at(rt.alloc(), Stop::Enter, CallSet::all())?;
    assert!(rt; matches!(&entered, Note::Enter(start) if is_exit(start)));
    let told = note_at(rt.alloc(), Stop::Seccomp(7), CallSet::all())?;
    assert!(rt; matches!(&told, Note::Seccomp(start) if is_exit(start)));
    let hidden = note_at(rt.alloc(), Stop::Enter, CallSet::none())?;
    assert!(rt; matches!(&hidden, Note::Enter(start) if is_hidden(start)));
    Ok(())
}

/// Whether this is the start of `exit(3)`.
fn is_exit(start: &CallStart) -> bool {
    start.is_shown()
        && start.number() == 60
        && start.before() == b"100 exit(3".as_slice()
        && start.out().is_none()
        && start.after() == b") = ".as_slice()
}

/// Whether this is the start of an `exit` that is not printed.
fn is_hidden(start: &CallStart) -> bool {
    !start.is_shown()
        && start.number() == 60
        && start.before().is_empty()
        && start.after().is_empty()
}

#[test]
fn a_stop_gives_a_piece(rt: HostRuntime) -> Result<(), Fail> {
    let show = Show {
        limit: 32,
        calls: CallSet::all(),
    };
    let call = Call(60, [3, 0, 0], 0, "");
    let record = stopped(Stop::Enter, &call, Memory::new(rt.alloc()));
    let _piece = piece_of(rt.alloc(), &record, &show)?;
    Ok(())
}
