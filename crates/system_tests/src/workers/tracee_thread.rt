//! The thread of a tracee by itself, with options and filters that no `Config` asks for. A tracer claims each of its stops
//! and restarts it as the test says.

ghost use Rattle.std.specs.Prelude.{◌<◌, length};
ghost use Rattle.trace_record.specs.Resume.{IsResume};
ghost use Rattle.tracer_workers.specs.Threaded.{CanRun};

use crate::compare::same;
use crate::workers::cases::EXEC;
use crate::workers::party::{Scripted, new_party};
use std::alloc::Allocator;
use std::sync::Wait;
use std::test::Fail;
use std::thread;
use std::thread::Threads;
use std::time::Clock;
use stop_table::{Taken, Tracer};
use trace_options::{CallSet, Filter, Options};
use trace_record::{Death, Kind, Resume, Stop, StopRecord};
use trace_script::Case;
use tracer_workers::run_tracee;

/// A root that writes, asks for its id, handles a signal and exits.
const WRITER: &str = "tracee 100 100 77 0\npage 0x10000\ndata 0x10000 68690a\n\
                      call write 1 0x10000 3 = 3\ncall getpid = 100\nsignal 15\nexit 3\nend\n";

const SIGTERM: u8 = 15;

/// The numbers of system calls (syscalls(2)).
const WRITE: u64 = 1;

const GETPID: u64 = 39;

const EXECVE: u64 = 59;

const EXIT: u64 = 60;

const UNLINK: u64 = 87;

/// `orig_rax` before any call: -1.
const NO_CALL: u64 = 0xffff_ffff_ffff_ffff;

/// `rax` at the entry to a call: -ENOSYS, which is -38.
const ENOSYS: u64 = 0xffff_ffff_ffff_ffda;

const CONT: Resume = Resume {
    kind: Kind::Cont,
    signal: 0,
};

/// A stop that a tracee is to make: what it is, its `orig_rax` and its `rax`; and how the tracee is restarted there.
#[derive(Clone, Copy)]
struct Expected {
    stop: Stop,
    nr: u64,
    rax: u64,
    kind: Kind,
}

/// How a tracee is restarted at a stop, and whether that is the one that is expected at this place. A signal is handed
/// over.
fn restart_at<A: Allocator>(
    record: &StopRecord<A>,
    place: usize,
    expected: &[Expected],
) -> (Resume, bool)
    ensures { IsResume result.0 }
{
    let Some(next) = expected.get(place) else {
        return (CONT, false);
    };
    let signal = if record.stop == Stop::Signal(SIGTERM) {
        SIGTERM
    } else {
        0
    };
    let is_next = record.stop == next.stop
        && record.number as usize == place.wrapping_add(1)
        && record.regs.orig_rax == next.nr
        && record.regs.rax == next.rax;
    let how = Resume {
        kind: next.kind,
        signal,
    };
    (how, is_next)
}

/// Claims each stop of a tracee and restarts it, until it has died: whether its stops were these, and its death this one.
fn serve<A: Allocator, R: Wait>(
    rt: &R,
    mut tracer: Tracer<A>,
    expected: &[Expected],
    death: Death,
) -> bool
    requires { 0 < length tracer.view.roster }
{
    let mut place = 0usize;
    let mut is_right = true;
    for _ in rt.forever() {
        match tracer.claim(0) {
            Taken::Stop(claim) => {
                let (how, is_next) = restart_at(claim.record(), place, expected);
                tracer.resume(claim, how);
                is_right = is_right && is_next;
                place = place.wrapping_add(1);
            }
            Taken::Ended { death: own, number } => {
                return is_right
                    && own == death
                    && number as usize == place
                    && place == expected.len();
            }
            Taken::Nothing(_shown) => thread::yield_now(),
        }
    }
    unreachable!()
}

/// What the tracee's thread does.
fn run<A: Allocator, R: Wait + Clock>(rt: &R, scripted: Scripted<A>)
    requires { CanRun scripted.tracee scripted.machine }
{
    let Scripted {
        mut tracee,
        machine,
    } = scripted;
    run_tracee(rt, &mut tracee, machine);
}

/// Whether the tracee of a file, with these options and this filter, makes these stops and dies this death.
fn makes<R: Threads + Wait + Clock + AllocGlobal + Sync>(
    rt: &R,
    file: &str,
    options: Options,
    filter: &Filter,
    expected: &[Expected],
    death: Death,
) -> Result<bool, Fail> {
    let case = Case::read(rt.alloc(), file.as_bytes())?;
    let Some((scripted, tracer)) = new_party(rt.alloc(), &case, options, filter) else {
        return Ok(false);
    };
    let ((), is_right) = thread::join(
        rt,
        move ||
            requires { CanRun scripted.tracee scripted.machine }
        { run(rt, scripted) },
        move || -> bool
            requires { 0 < length tracer.view.roster }
        { serve(rt, tracer, expected, death) },
    );
    Ok(is_right)
}

/// A filter of write(2) that hands the tracer this number.
fn write_filter(ret_data: u16) -> Filter {
    let mut calls = CallSet::none();
    calls.add(WRITE);
    Filter { calls, ret_data }
}

/// A stop from which the tracee runs on to its next syscall-stop.
fn to_syscall(stop: Stop, nr: u64, rax: u64) -> Expected {
    Expected {
        stop,
        nr,
        rax,
        kind: Kind::Syscall,
    }
}

/// A stop from which it runs on to its next other stop.
fn to_other(stop: Stop, nr: u64, rax: u64) -> Expected {
    Expected {
        stop,
        nr,
        rax,
        kind: Kind::Cont,
    }
}

#[test]
fn an_exec_does_not_stop_without_its_option(rt: HostRuntime) -> Result<(), Fail> {
    let expected = [
        to_syscall(Stop::Start, NO_CALL, 0),
        to_syscall(Stop::Enter, EXECVE, ENOSYS),
        to_syscall(Stop::Exit, EXECVE, 0),
        to_syscall(Stop::Enter, UNLINK, ENOSYS),
        to_syscall(Stop::Exit, UNLINK, 0),
        to_syscall(Stop::Enter, EXIT, ENOSYS),
    ];
    let options = Options::TRACESYSGOOD;
    same(&rt, &options.bits(), &0x1);
    let is_right = makes(
        &rt,
        EXEC,
        options,
        &write_filter(0),
        &expected,
        Death::Exited(0),
    )?;
    assert!(rt; is_right);
    Ok(())
}

#[test]
fn a_filter_hands_its_number_to_the_tracer(rt: HostRuntime) -> Result<(), Fail> {
    let expected = [
        to_other(Stop::Start, NO_CALL, 0),
        to_syscall(Stop::Seccomp(7), WRITE, ENOSYS),
        to_other(Stop::Exit, WRITE, 3),
        to_other(Stop::Signal(SIGTERM), GETPID, 100),
    ];
    let mut options = Options::TRACESYSGOOD;
    options.insert(Options::TRACESECCOMP);
    same(&rt, &options.bits(), &0x81);
    let is_right = makes(
        &rt,
        WRITER,
        options,
        &write_filter(7),
        &expected,
        Death::Exited(3),
    )?;
    assert!(rt; is_right);
    Ok(())
}

#[test]
fn a_tracee_stops_before_its_death(rt: HostRuntime) -> Result<(), Fail> {
    let expected = [
        to_other(Stop::Start, NO_CALL, 0),
        to_other(Stop::Signal(SIGTERM), GETPID, 100),
        to_other(Stop::Ending(Death::Exited(3)), EXIT, ENOSYS),
    ];
    let mut options = Options::TRACESYSGOOD;
    options.insert(Options::TRACEEXIT);
    same(&rt, &options.bits(), &0x41);
    let is_right = makes(
        &rt,
        WRITER,
        options,
        &write_filter(0),
        &expected,
        Death::Exited(3),
    )?;
    assert!(rt; is_right);
    Ok(())
}
