//! Where a thread is in its commands, by what it was answered.

use crate::compare::same;
use crate::explored::programs::of_three;
use std::test::Fail;
use stop_board::Got;
use stop_program::{Answer, Turn, command_after, commands_of, index_after};

/// The turn of a thread that claims the first stop of the row.
fn claims(thread: u32) -> Turn {
    Turn {
        thread,
        row: 0,
        answer: Answer::Got(Got::Stop(1, 0x80057f)),
    }
}

#[test]
fn each_thread_has_its_own_commands_in_their_order(rt: HostRuntime) -> Result<(), Fail> {
    let program = of_three();
    let lists = commands_of(rt.alloc(), 3, &program)?;
    let mut place = 0usize;
    for (thread, count) in [(0usize, 2usize), (1, 5), (2, 3)] {
        let own = lists.get(thread).map(|list| list.len());
        same(&rt, &(thread, own), &(thread, Some(count)));
        for at in 0..count {
            let found = lists.get(thread).and_then(|list| list.get(at).copied());
            let wanted = program.get(place).map(|line| line.command);
            same(&rt, &(thread, at, found), &(thread, at, wanted));
            place = place.wrapping_add(1);
        }
    }
    same(&rt, &lists.len(), &3);
    Ok(())
}

#[test]
fn a_thread_goes_on_by_its_own_turns(rt: HostRuntime) -> Result<(), Fail> {
    let lists = commands_of(rt.alloc(), 3, &of_three())?;
    let waiter = lists.get(1).map(|list| list.as_slice()).unwrap_or(&[]);
    let done = [claims(1); 5];
    for (count, place) in [(0usize, 0usize), (1, 1), (3, 3), (4, 4), (5, 5)] {
        let next = command_after(waiter, &done[..count], 1);
        same(&rt, &(count, next), &(count, waiter.get(place).copied()));
    }
    let next = command_after(waiter, &[claims(0), claims(2)], 1);
    same(&rt, &next, &waiter.first().copied());
    Ok(())
}

#[test]
fn without_a_child_it_leaves_to_the_place_that_its_command_names(
    rt: HostRuntime,
) -> Result<(), Fail> {
    let lists = commands_of(rt.alloc(), 3, &of_three())?;
    let first = lists.first().and_then(|list| list.first().copied());
    let mut leaving = first.expect(&rt, "the tracee's publish");
    leaving.leave_to = 7;
    same(&rt, &index_after(&[leaving], 0, &Answer::NoChild), &7);
    same(&rt, &index_after(&[leaving], 0, &Answer::Nothing), &1);
    same(&rt, &index_after(&[leaving], 5, &Answer::NoChild), &5);
    Ok(())
}
