//! The machine of a scripted tracee: what comes next, worked out by hand from the script.

use crate::compare::{holds, same};
use std::alloc::Allocator;
use std::test::Fail;
use trace_options::{CallSet, Filter, Options, check};
use trace_pages::Memory;
use trace_record::{Death, Kind, Resume, Stop, StopRecord};
use trace_script::{Case, Machine, Next};

/// A write, a fork and an exit; the child exits at once.
pub(crate) const FORK: &[u8] = b"tracee 100 100 77 0\npage 0x10000\ndata 0x10000 68690a\n\
    call write 1 0x10000 3 = 3\nfork 101\nexit 3\nend\ntracee 101 101 77 100\nexit 0\nend\n";

pub(crate) const SYSCALL: Resume = Resume {
    kind: Kind::Syscall,
    signal: 0,
};

pub(crate) const CONT: Resume = Resume {
    kind: Kind::Cont,
    signal: 0,
};

/// A thread, and a signal that is the last one; the thread does nothing.
const THREAD: &[u8] = b"tracee 5 5 5 0\nthread 6\nsignal 31\nend\ntracee 6 5 5 5\nend\n";

/// What `rax` holds until a call has an answer.
const NO_ANSWER: u64 = 18_446_744_073_709_551_578;

/// The machine of a row, if there is one and the options are ones that a tracer takes.
pub(crate) fn machine_of<A: Allocator + Copy>(
    alloc: A,
    case: &Case<A>,
    row: u32,
    bits: u32,
    filter: &Filter,
) -> Option<Machine<A>> {
    let options = Options::from_bits(bits)?;
    if row >= case.roster().len() || check(options).is_err() {
        return None;
    }
    Machine::new(alloc, case, row, options, filter).ok()
}

/// A filter that stops no call.
pub(crate) fn no_calls() -> Filter {
    Filter {
        calls: CallSet::none(),
        ret_data: 0,
    }
}

/// How many of these stops the machine makes, in order and with the next numbers, each after its restart.
pub(crate) fn stops_made<A: Allocator>(
    machine: &mut Machine<A>,
    record: &mut StopRecord<A>,
    turns: &[(Resume, Stop)],
) -> usize {
    let mut made = 0;
    for (how, stop) in turns {
        let number = record.number;
        if machine.next(*how, record) != Next::Stop
            || record.stop != *stop
            || record.number != number.saturating_add(1)
        {
            return made;
        }
        made = made.saturating_add(1);
    }
    made
}

#[test]
fn every_call_stops_twice_and_a_fork_once_more(rt: HostRuntime) -> Result<(), Fail> {
    let case = Case::read(rt.alloc(), FORK)?;
    let Some(mut machine) = machine_of(rt.alloc(), &case, 0, 0x1b, &no_calls()) else {
        return Ok(holds(&rt, false, "there is a machine"));
    };
    let mut record = StopRecord::empty(rt.alloc(), 100);
    let stops = [(CONT, Stop::Start), (SYSCALL, Stop::Enter)];
    same(&rt, &stops_made(&mut machine, &mut record, &stops), &2);
    let regs = record.regs;
    same(
        &rt,
        &(regs.orig_rax, regs.rdi, regs.rsi, regs.rdx),
        &(1, 1, 0x10000, 3),
    );
    same(&rt, &(regs.rax, regs.rip), &(NO_ANSWER, 2));
    same(&rt, &record.memory.byte(0x10001), &Some(0x69));
    same(
        &rt,
        &stops_made(&mut machine, &mut record, &[(SYSCALL, Stop::Exit)]),
        &1,
    );
    same(&rt, &record.regs.rax, &3);
    let stops = [(SYSCALL, Stop::Enter), (SYSCALL, Stop::Fork(101))];
    same(&rt, &stops_made(&mut machine, &mut record, &stops), &2);
    same(&rt, &(record.tid, record.number), &(100, 5));
    same(&rt, &(record.regs.orig_rax, record.regs.rip), &(57, 4));
    let stops = [(SYSCALL, Stop::Exit), (SYSCALL, Stop::Enter)];
    same(&rt, &stops_made(&mut machine, &mut record, &stops), &2);
    same(&rt, &record.number, &7);
    let death = Next::Death(Death::Exited(3));
    same(&rt, &machine.next(SYSCALL, &mut record), &death);
    // A death is answered again.
    same(&rt, &machine.next(CONT, &mut record), &death);
    Ok(())
}

#[test]
fn a_filter_stops_its_calls_alone(rt: HostRuntime) -> Result<(), Fail> {
    let case = Case::read(rt.alloc(), FORK)?;
    let mut filter = no_calls();
    filter.calls.add(1);
    let Some(mut machine) = machine_of(rt.alloc(), &case, 0, 0x9b, &filter) else {
        return Ok(holds(&rt, false, "there is a machine"));
    };
    let mut record = StopRecord::empty(rt.alloc(), 100);
    let stops = [
        (SYSCALL, Stop::Start),
        (CONT, Stop::Seccomp(0)),
        (SYSCALL, Stop::Exit),
        (CONT, Stop::Fork(101)),
    ];
    same(&rt, &stops_made(&mut machine, &mut record, &stops), &4);
    same(
        &rt,
        &machine.next(CONT, &mut record),
        &Next::Death(Death::Exited(3)),
    );
    Ok(())
}

#[test]
fn a_fault_changes_nothing(rt: HostRuntime) -> Result<(), Fail> {
    let text =
        b"tracee 100 100 77 0\npage 0x10000\ncall read 0 0x10000 1 = 1 fill 0x10000 61\nend\n";
    let case = Case::read(rt.alloc(), text)?;
    let Some(mut machine) = machine_of(rt.alloc(), &case, 0, 0x1, &no_calls()) else {
        return Ok(holds(&rt, false, "there is a machine"));
    };
    let mut record = StopRecord::empty(rt.alloc(), 100);
    let stops = [(CONT, Stop::Start), (SYSCALL, Stop::Enter)];
    same(&rt, &stops_made(&mut machine, &mut record, &stops), &2);
    let mut empty = Memory::new(rt.alloc());
    std::mem::swap(&mut record.memory, &mut empty);
    same(
        &rt,
        &machine.next(SYSCALL, &mut record),
        &Next::Fault(0x10000),
    );
    same(&rt, &machine.next(CONT, &mut record), &Next::Fault(0x10000));
    same(&rt, &(record.stop, record.number), &(Stop::Enter, 2));
    std::mem::swap(&mut record.memory, &mut empty);
    same(&rt, &record.memory.byte(0x10000), &Some(0));
    same(
        &rt,
        &stops_made(&mut machine, &mut record, &[(SYSCALL, Stop::Exit)]),
        &1,
    );
    same(
        &rt,
        &(record.memory.byte(0x10000), record.regs.rax),
        &(Some(0x61), 1),
    );
    // The script runs out.
    same(
        &rt,
        &machine.next(CONT, &mut record),
        &Next::Death(Death::Exited(0)),
    );
    Ok(())
}

#[test]
fn an_exec_puts_another_program_in(rt: HostRuntime) -> Result<(), Fail> {
    let text =
        b"tracee 400 400 400 0\npage 0x10000\nat 1 2\nexec 0x10000\npage 0x20000\nat 0x20000 0x20ff0\n\
        call read 0 0x20000 1 = 1 fill 0x20000 62\nexit 0\nend\n";
    let case = Case::read(rt.alloc(), text)?;
    let Some(mut machine) = machine_of(rt.alloc(), &case, 0, 0x11, &no_calls()) else {
        return Ok(holds(&rt, false, "there is a machine"));
    };
    let mut record = StopRecord::empty(rt.alloc(), 400);
    let stops = [(CONT, Stop::Start), (SYSCALL, Stop::Enter)];
    same(&rt, &stops_made(&mut machine, &mut record, &stops), &2);
    same(
        &rt,
        &(record.regs.rip, record.regs.rsp, record.regs.rdi),
        &(3, 2, 0x10000),
    );
    same(
        &rt,
        &stops_made(&mut machine, &mut record, &[(SYSCALL, Stop::Exec(400))]),
        &1,
    );
    same(
        &rt,
        &(record.regs.rip, record.regs.rsp),
        &(0x20000, 0x20ff0),
    );
    same(
        &rt,
        &(record.regs.rdi, record.regs.rax),
        &(0x10000, NO_ANSWER),
    );
    same(
        &rt,
        &(record.memory.byte(0x10000), record.memory.byte(0x20000)),
        &(None, Some(0)),
    );
    let stops = [
        (SYSCALL, Stop::Exit),
        (SYSCALL, Stop::Enter),
        (SYSCALL, Stop::Exit),
    ];
    same(&rt, &stops_made(&mut machine, &mut record, &stops), &3);
    same(
        &rt,
        &(record.regs.orig_rax, record.regs.rax, record.regs.rip),
        &(0, 1, 0x20002),
    );
    // The fill is in the new program.
    same(&rt, &record.memory.byte(0x20000), &Some(0x62));
    Ok(())
}

#[test]
fn a_deadly_signal_kills_by_the_signal_of_the_restart(rt: HostRuntime) -> Result<(), Fail> {
    let text = b"tracee 200 200 200 0\nsignal 15 deadly\nexit 5\nend\n";
    let case = Case::read(rt.alloc(), text)?;
    let deaths = [
        (0, Death::Exited(5)),
        (
            15,
            Death::Signaled {
                signal: 15,
                core: false,
            },
        ),
        (
            9,
            Death::Signaled {
                signal: 9,
                core: false,
            },
        ),
    ];
    for (signal, death) in &deaths {
        let Some(mut machine) = machine_of(rt.alloc(), &case, 0, 0x1, &no_calls()) else {
            return Ok(holds(&rt, false, "there is a machine"));
        };
        let mut record = StopRecord::empty(rt.alloc(), 200);
        let stops = [(CONT, Stop::Start), (CONT, Stop::Signal(15))];
        same(&rt, &stops_made(&mut machine, &mut record, &stops), &2);
        let how = Resume {
            kind: Kind::Cont,
            signal: *signal,
        };
        same(&rt, &machine.next(how, &mut record), &Next::Death(*death));
    }
    Ok(())
}

#[test]
fn a_thread_is_a_clone_with_its_flags(rt: HostRuntime) -> Result<(), Fail> {
    let case = Case::read(rt.alloc(), THREAD)?;
    let Some(mut machine) = machine_of(rt.alloc(), &case, 0, 0xb, &no_calls()) else {
        return Ok(holds(&rt, false, "there is a machine"));
    };
    let mut record = StopRecord::empty(rt.alloc(), 5);
    let stops = [(CONT, Stop::Start), (SYSCALL, Stop::Enter)];
    same(&rt, &stops_made(&mut machine, &mut record, &stops), &2);
    same(
        &rt,
        &(record.regs.orig_rax, record.regs.rdi),
        &(56, 0x10900),
    );
    let stops = [
        (CONT, Stop::Clone(6)),
        (SYSCALL, Stop::Exit),
        (CONT, Stop::Signal(31)),
    ];
    same(&rt, &stops_made(&mut machine, &mut record, &stops), &3);
    same(&rt, &record.regs.rax, &6);
    same(
        &rt,
        &machine.next(CONT, &mut record),
        &Next::Death(Death::Exited(0)),
    );
    Ok(())
}

#[test]
fn a_script_of_no_steps_stops_once(rt: HostRuntime) -> Result<(), Fail> {
    let case = Case::read(rt.alloc(), b"tracee 7 7 7 0\nend\n")?;
    let Some(mut machine) = machine_of(rt.alloc(), &case, 0, 0x1, &no_calls()) else {
        return Ok(holds(&rt, false, "there is a machine"));
    };
    let mut record = StopRecord::empty(rt.alloc(), 7);
    same(
        &rt,
        &stops_made(&mut machine, &mut record, &[(SYSCALL, Stop::Start)]),
        &1,
    );
    same(
        &rt,
        &machine.next(SYSCALL, &mut record),
        &Next::Death(Death::Exited(0)),
    );
    Ok(())
}

#[test]
fn a_child_has_a_script_of_its_own(rt: HostRuntime) -> Result<(), Fail> {
    let case = Case::read(rt.alloc(), FORK)?;
    let Some(mut machine) = machine_of(rt.alloc(), &case, 1, 0x1b, &no_calls()) else {
        return Ok(holds(&rt, false, "there is a machine"));
    };
    let mut record = StopRecord::empty(rt.alloc(), 101);
    let stops = [(CONT, Stop::Start), (SYSCALL, Stop::Enter)];
    same(&rt, &stops_made(&mut machine, &mut record, &stops), &2);
    same(
        &rt,
        &(record.tid, record.regs.orig_rax, record.regs.rdi),
        &(101, 60, 0),
    );
    same(&rt, &record.memory.byte(0x10000), &None);
    same(
        &rt,
        &machine.next(SYSCALL, &mut record),
        &Next::Death(Death::Exited(0)),
    );
    Ok(())
}

/// The stops of the root of `FORK` before the last one, each after its restart.
const STOPS: [(Resume, Stop); 7] = [
    (CONT, Stop::Start),
    (SYSCALL, Stop::Enter),
    (SYSCALL, Stop::Exit),
    (SYSCALL, Stop::Enter),
    (SYSCALL, Stop::Fork(101)),
    (SYSCALL, Stop::Exit),
    (SYSCALL, Stop::Enter),
];

/// Killed by SIGTERM.
const TERMINATED: Death = Death::Signaled {
    signal: 15,
    core: false,
};

/// A restart that hands SIGTERM over.
const TERMINATE: Resume = Resume {
    kind: Kind::Cont,
    signal: 15,
};

#[test]
fn an_exit_stops_before_the_death(rt: HostRuntime) -> Result<(), Fail> {
    let case = Case::read(rt.alloc(), FORK)?;
    let Some(mut machine) = machine_of(rt.alloc(), &case, 0, 0x5b, &no_calls()) else {
        return Ok(holds(&rt, false, "there is a machine"));
    };
    let mut record = StopRecord::empty(rt.alloc(), 100);
    same(&rt, &stops_made(&mut machine, &mut record, &STOPS), &7);
    let regs = record.regs;
    let ending = Stop::Ending(Death::Exited(3));
    same(
        &rt,
        &stops_made(&mut machine, &mut record, &[(SYSCALL, ending)]),
        &1,
    );
    same(&rt, &(record.tid, record.number), &(100, 8));
    same(&rt, &record.event_message(), &768);
    same(&rt, &record.regs, &regs);
    same(&rt, &record.memory.byte(0x10001), &Some(0x69));
    // Its restart changes nothing.
    same(
        &rt,
        &machine.next(TERMINATE, &mut record),
        &Next::Death(Death::Exited(3)),
    );
    same(&rt, &record.number, &8);
    Ok(())
}

#[test]
fn a_deadly_signal_stops_before_the_death(rt: HostRuntime) -> Result<(), Fail> {
    let text = b"tracee 200 200 200 0\nsignal 15 deadly\nexit 0\nend\n";
    let case = Case::read(rt.alloc(), text)?;
    let Some(mut machine) = machine_of(rt.alloc(), &case, 0, 0x41, &no_calls()) else {
        return Ok(holds(&rt, false, "there is a machine"));
    };
    let mut record = StopRecord::empty(rt.alloc(), 200);
    let stops = [
        (CONT, Stop::Start),
        (CONT, Stop::Signal(15)),
        (TERMINATE, Stop::Ending(TERMINATED)),
    ];
    same(&rt, &stops_made(&mut machine, &mut record, &stops), &3);
    same(&rt, &record.event_message(), &15);
    let death = Next::Death(TERMINATED);
    same(&rt, &machine.next(CONT, &mut record), &death);
    same(&rt, &record.number, &3);
    let Some(mut saved) = machine_of(rt.alloc(), &case, 0, 0x41, &no_calls()) else {
        return Ok(holds(&rt, false, "there is a machine"));
    };
    let mut record = StopRecord::empty(rt.alloc(), 200);
    let stops = [
        (CONT, Stop::Start),
        (CONT, Stop::Signal(15)),
        (CONT, Stop::Ending(Death::Exited(0))),
    ];
    // A signal that is not handed over does not kill.
    same(&rt, &stops_made(&mut saved, &mut record, &stops), &3);
    Ok(())
}

#[test]
fn a_script_that_runs_out_stops_before_the_death(rt: HostRuntime) -> Result<(), Fail> {
    let case = Case::read(rt.alloc(), b"tracee 7 7 7 0\nend\n")?;
    let Some(mut machine) = machine_of(rt.alloc(), &case, 0, 0x41, &no_calls()) else {
        return Ok(holds(&rt, false, "there is a machine"));
    };
    let mut record = StopRecord::empty(rt.alloc(), 7);
    let ending = Stop::Ending(Death::Exited(0));
    let stops = [(CONT, Stop::Start), (SYSCALL, ending)];
    same(&rt, &stops_made(&mut machine, &mut record, &stops), &2);
    same(&rt, &record.event_message(), &0);
    let death = Next::Death(Death::Exited(0));
    same(&rt, &machine.next(SYSCALL, &mut record), &death);
    same(&rt, &machine.next(CONT, &mut record), &death);
    same(&rt, &(record.stop, record.number), &(ending, 2));
    Ok(())
}

#[test]
fn a_fault_stops_before_no_death(rt: HostRuntime) -> Result<(), Fail> {
    let text =
        b"tracee 100 100 77 0\npage 0x10000\ncall read 0 0x10000 1 = 1 fill 0x10000 61\nend\n";
    let case = Case::read(rt.alloc(), text)?;
    let Some(mut machine) = machine_of(rt.alloc(), &case, 0, 0x41, &no_calls()) else {
        return Ok(holds(&rt, false, "there is a machine"));
    };
    let mut record = StopRecord::empty(rt.alloc(), 100);
    let stops = [(CONT, Stop::Start), (SYSCALL, Stop::Enter)];
    same(&rt, &stops_made(&mut machine, &mut record, &stops), &2);
    record.memory = Memory::new(rt.alloc());
    same(
        &rt,
        &machine.next(SYSCALL, &mut record),
        &Next::Fault(0x10000),
    );
    same(&rt, &machine.next(CONT, &mut record), &Next::Fault(0x10000));
    same(&rt, &(record.stop, record.number), &(Stop::Enter, 2));
    Ok(())
}
