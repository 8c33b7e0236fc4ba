//! What a tracer changes of a machine between two stops, and how many births are left.

use crate::compare::{holds, same};
use crate::scripts::machine::{CONT, FORK, SYSCALL, machine_of, no_calls, stops_made};
use std::alloc::Allocator;
use std::test::Fail;
use trace_options::{Filter, NAMED_CALLS, Options, check};
use trace_record::{Death, Stop, StopRecord};
use trace_script::{Case, Machine, Next};

/// A thread and a process, one after the other; neither does anything.
const TWO_BIRTHS: &[u8] = b"tracee 100 100 77 0\nthread 101\nfork 102\nexit 0\nend\n\
    tracee 101 100 77 100\nend\ntracee 102 102 77 100\nend\n";

/// Sets options that a tracer takes; whether they are such.
fn set_options<A: Allocator>(machine: &mut Machine<A>, bits: u32) -> bool {
    let Some(options) = Options::from_bits(bits) else {
        return false;
    };
    if check(options).is_err() {
        return false;
    }
    machine.set_options(options);
    true
}

/// A filter that stops one call, if it has a name.
fn one_call(nr: u64, ret_data: u16) -> Filter {
    let mut filter = no_calls();
    if nr < NAMED_CALLS {
        filter.calls.add(nr);
    }
    filter.ret_data = ret_data;
    filter
}

#[test]
fn other_options_count_from_the_next_stop_on(rt: HostRuntime) -> Result<(), Fail> {
    let case = Case::read(rt.alloc(), FORK)?;
    let Some(mut machine) = machine_of(rt.alloc(), &case, 0, 0x1, &no_calls()) else {
        return Ok(holds(&rt, false, "there is a machine"));
    };
    let mut record = StopRecord::empty(rt.alloc(), 100);
    let stops = [
        (CONT, Stop::Start),
        (SYSCALL, Stop::Enter),
        (SYSCALL, Stop::Exit),
        (SYSCALL, Stop::Enter),
    ];
    same(&rt, &stops_made(&mut machine, &mut record, &stops), &4);
    // With TRACEFORK from the fork's syscall-enter-stop on, and from its event on with TRACEEXIT alone.
    same(&rt, &set_options(&mut machine, 0xb), &true);
    let fork = [(CONT, Stop::Fork(101))];
    same(&rt, &stops_made(&mut machine, &mut record, &fork), &1);
    same(&rt, &set_options(&mut machine, 0x41), &true);
    let ending = [(CONT, Stop::Ending(Death::Exited(3)))];
    same(&rt, &stops_made(&mut machine, &mut record, &ending), &1);
    same(&rt, &(record.tid, record.number), &(100, 6));
    let death = Next::Death(Death::Exited(3));
    same(&rt, &machine.next(CONT, &mut record), &death);
    Ok(())
}

#[test]
fn a_fork_that_is_past_makes_no_stop(rt: HostRuntime) -> Result<(), Fail> {
    let case = Case::read(rt.alloc(), FORK)?;
    let Some(mut machine) = machine_of(rt.alloc(), &case, 0, 0x1, &no_calls()) else {
        return Ok(holds(&rt, false, "there is a machine"));
    };
    let mut record = StopRecord::empty(rt.alloc(), 100);
    let stops = [
        (CONT, Stop::Start),
        (SYSCALL, Stop::Enter),
        (SYSCALL, Stop::Exit),
        (SYSCALL, Stop::Enter),
    ];
    same(&rt, &stops_made(&mut machine, &mut record, &stops), &4);
    same(&rt, &machine.births_left(), &1);
    // The fork has no event without TRACEFORK, and none later.
    let exit = [(SYSCALL, Stop::Exit)];
    same(&rt, &stops_made(&mut machine, &mut record, &exit), &1);
    same(&rt, &machine.births_left(), &0);
    same(&rt, &set_options(&mut machine, 0xb), &true);
    let death = Next::Death(Death::Exited(3));
    same(&rt, &machine.next(CONT, &mut record), &death);
    Ok(())
}

#[test]
fn births_are_left_until_their_events(rt: HostRuntime) -> Result<(), Fail> {
    let case = Case::read(rt.alloc(), TWO_BIRTHS)?;
    let Some(mut machine) = machine_of(rt.alloc(), &case, 0, 0xb, &no_calls()) else {
        return Ok(holds(&rt, false, "there is a machine"));
    };
    let mut record = StopRecord::empty(rt.alloc(), 100);
    same(&rt, &machine.births_left(), &2);
    let turns = [
        (CONT, Stop::Start, 2),
        (SYSCALL, Stop::Enter, 2),
        (SYSCALL, Stop::Clone(101), 1),
        (SYSCALL, Stop::Exit, 1),
        (SYSCALL, Stop::Enter, 1),
        (SYSCALL, Stop::Fork(102), 0),
        (SYSCALL, Stop::Exit, 0),
        (SYSCALL, Stop::Enter, 0),
    ];
    for (how, stop, births) in turns {
        same(
            &rt,
            &stops_made(&mut machine, &mut record, &[(how, stop)]),
            &1,
        );
        same(&rt, &machine.births_left(), &births);
    }
    let death = Next::Death(Death::Exited(0));
    same(&rt, &machine.next(CONT, &mut record), &death);
    same(&rt, &machine.births_left(), &0);
    Ok(())
}

#[test]
fn another_filter_stops_other_calls_with_its_data(rt: HostRuntime) -> Result<(), Fail> {
    let case = Case::read(rt.alloc(), FORK)?;
    let Some(mut machine) = machine_of(rt.alloc(), &case, 0, 0x8b, &one_call(1, 7)) else {
        return Ok(holds(&rt, false, "there is a machine"));
    };
    let mut record = StopRecord::empty(rt.alloc(), 100);
    let start = [(CONT, Stop::Start)];
    same(&rt, &stops_made(&mut machine, &mut record, &start), &1);
    machine.set_filter(&one_call(1, 9));
    let write = [(CONT, Stop::Seccomp(9))];
    same(&rt, &stops_made(&mut machine, &mut record, &write), &1);
    // The fork in place of the write, which is underway, and other data.
    machine.set_filter(&one_call(57, 5));
    let fork = [(CONT, Stop::Seccomp(5)), (CONT, Stop::Fork(101))];
    same(&rt, &stops_made(&mut machine, &mut record, &fork), &2);
    same(&rt, &(record.tid, record.number), &(100, 4));
    // No call stops now: not the exit either.
    machine.set_filter(&no_calls());
    let death = Next::Death(Death::Exited(3));
    same(&rt, &machine.next(CONT, &mut record), &death);
    Ok(())
}
