//! The loop of a debugger that changes a call, as docs/calls.md has it.

use crate::compare::same;
use crate::waits::caller::{end, root_and_waiter};
use record_printer::{Folder, Piece, Show, Text, death_piece, piece_of};
use std::alloc::{Allocator, Global};
use std::sync::Wait;
use std::test::Fail;
use stop_history::Roster;
use test_support::{AtRest, ROOT, Running};
use trace_calls::Calls;
use trace_options::{CallSet, Errno, Filter, Options, WaitFlags, check};
use trace_record::{Death, Stop};
use trace_script::{Case, Machine, Next};

/// Serves a stop of a tracee: where it is one of write(2), the call is to write this many bytes.
fn shorten<A: Allocator>(calls: &mut Calls<A>, pid: i32, len: u64) -> Result<(), Errno> {
    let mut regs = calls.getregs(pid)?;
    match calls.claimed(pid).map(|record| record.stop) {
        // The third argument, and the result.
        Some(Stop::Enter) if regs.orig_rax == 1 => regs.rdx = len,
        Some(Stop::Exit) if regs.orig_rax == 1 => regs.rax = len,
        _ => return Ok(()),
    }
    calls.setregs(pid, regs)
}

/// A script that writes three bytes.
const WRITE: &[u8] = b"tracee 100 100 77 0\npage 0x10000\ndata 0x10000 68690a\n\
    call write 1 0x10000 3 = 3\nend\n";

/// A script of a call whose number and result it has.
const GETPID: &[u8] = b"tracee 100 100 77 0\ncall getpid = 100\nend\n";

/// The machine of the one row of a case.
fn machine_of(alloc: Global, file: &[u8]) -> Option<Machine> {
    let case = Case::read(alloc, file).ok()?;
    let options = Options::TRACESYSGOOD;
    if check(options).is_err() || case.roster().len() == 0 {
        return None;
    }
    let filter = Filter {
        calls: CallSet::none(),
        ret_data: 0,
    };
    Machine::new(alloc, &case, 0, options, &filter).ok()
}

/// The piece of the claimed stop of the root.
fn piece(alloc: Global, calls: &Calls) -> Option<Piece> {
    let stop = calls.claimed(100)?;
    let show = Show {
        limit: 32,
        calls: CallSet::all(),
    };
    piece_of(alloc, stop, &show).ok()
}

/// Runs a script on, and publishes the stop that comes next. None where that is a death, or the row cannot make it.
fn next_of(running: Running, machine: &mut Machine) -> Option<AtRest> {
    let Running {
        tracee,
        roster,
        row,
        births,
        how,
        mut record,
    } = running;
    let (tid, number) = (record.tid, record.number);
    if machine.next(how, &mut record) != Next::Stop {
        return None;
    }
    let (stop, mark) = (record.stop, record.regs.rax);
    // Both are the row's, whatever the machine makes of them.
    record.tid = tid;
    record.number = number;
    let running = Running {
        tracee,
        roster,
        row,
        births,
        how,
        record,
    };
    running.publish(stop, mark)
}

/// Runs the script through its call, and serves its three stops. What the last of them has in `orig_rax`, `rbx` and
/// `rax`.
fn run_through(
    alloc: Global,
    root: AtRest,
    calls: &mut Calls,
    machine: &mut Machine,
    folder: &mut Folder,
    serve: Serve,
) -> Option<[u64; 3]> {
    let mut root = root;
    let mut last = [0; 3];
    for _ in 0..3 {
        root = next_of(root.take_up().ok()?, machine)?;
        let _status = calls.waitpid(100, WaitFlags::WALL).ok()?;
        folder.add(serve.piece_of_stop(alloc, calls)?).ok()?;
        let regs = calls.getregs(100).ok()?;
        last = [regs.orig_rax, regs.rbx, regs.rax];
        calls.syscall(100, None).ok()?;
    }
    Some(last)
}

/// What a tracer does at each stop.
#[derive(Clone, Copy)]
enum Serve {
    /// It shortens the call, and then makes the piece.
    Shorten,
    /// It makes the piece, and then changes the number of the call at its entry, and `rbx`.
    Renumber,
}

impl Serve {
    fn piece_of_stop(self, alloc: Global, calls: &mut Calls) -> Option<Piece> {
        match self {
            Serve::Shorten => {
                shorten(calls, 100, 2).ok()?;
                piece(alloc, calls)
            }
            Serve::Renumber => {
                let made = piece(alloc, calls)?;
                renumber(calls).ok()?;
                Some(made)
            }
        }
    }
}

/// At the entry of a call: another number, and 7 in `rbx`.
fn renumber(calls: &mut Calls) -> Result<(), Errno> {
    let Some(Stop::Enter) = calls.claimed(100).map(|record| record.stop) else {
        return Ok(());
    };
    let mut regs = calls.getregs(100)?;
    regs.orig_rax = 0;
    regs.rbx = 7;
    calls.setregs(100, regs)
}

/// What the last stop of a script's call has, and the text, of a tracer that serves the stops so.
fn traced<R: Wait>(
    rt: &R,
    alloc: Global,
    file: &[u8],
    serve: Serve,
) -> Result<(Option<[u64; 3]>, Text), Fail> {
    let roster = Roster::new(alloc, &[ROOT])?;
    let mut folder = Folder::new(alloc, &roster)?;
    let Some(mut machine) = machine_of(alloc, file) else {
        return Err(Fail::new("the script has a machine"));
    };
    let (root, waiter) = root_and_waiter(alloc)?;
    let mut calls = waiter.ready(alloc)?;
    let last = run_through(alloc, root, &mut calls, &mut machine, &mut folder, serve);
    let _tracer = end(rt, calls, &[100]);
    folder.add(death_piece(100, 3, Death::Exited(0)))?;
    Ok((last, folder.finish()?))
}

#[test]
fn a_shortened_call_is_printed(rt: HostRuntime) -> Result<(), Fail> {
    let (last, text) = traced(&rt, rt.alloc(), WRITE, Serve::Shorten)?;
    same(&rt, &last, &Some([1, 0, 2]));
    let wanted = b"100 write(1, \"hi\", 2) = 2\n100 +++ exited with 0 +++\n";
    same(&rt, &text.as_bytes(), &wanted.as_slice());
    Ok(())
}

#[test]
fn a_call_is_printed_as_it_was_entered(rt: HostRuntime) -> Result<(), Fail> {
    let (last, text) = traced(&rt, rt.alloc(), GETPID, Serve::Renumber)?;
    same(&rt, &last, &Some([0, 7, 100]));
    let wanted = b"100 getpid() = 100\n100 +++ exited with 0 +++\n";
    same(&rt, &text.as_bytes(), &wanted.as_slice());
    Ok(())
}
