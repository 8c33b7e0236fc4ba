//! Whether a tracee may begin to run.

use crate::compare::{holds, same};
use std::alloc::Allocator;
use std::test::Fail;
use stop_table::{Shown, Start};
use test_support::{Answer, AtRest, CHILD, Desk, ROOT, THREAD, family, open_for};
use trace_record::Stop;

/// A parent, and its child, which is not born yet.
fn open_family<A: Allocator + Copy>(alloc: A) -> Result<(AtRest<A>, AtRest<A>), Fail> {
    let mut cast = open_for(alloc, &[ROOT, CHILD], 1)?;
    let child = cast.tracee(alloc)?;
    let parent = cast.tracee(alloc)?;
    Ok((parent, child))
}

#[test]
fn a_child_is_born_by_its_fork(rt: HostRuntime) -> Result<(), Fail> {
    let (parent, mut child) = open_family(rt.alloc())?;
    same(&rt, &child.start(), &Start::NotYet);
    let parent = parent.take_up().ok().expect(&rt, "a root runs");
    same(&rt, &child.start(), &Start::NotYet);
    let _parent = parent.publish(Stop::Fork(101), 0).expect(&rt, "its child");
    same(&rt, &child.start(), &Start::Born);
    holds(&rt, child.take_up().is_ok(), "it may run");
    Ok(())
}

#[test]
fn a_child_of_a_parent_that_ended_without_a_fork_is_never_born(
    rt: HostRuntime,
) -> Result<(), Fail> {
    let (parent, mut child) = open_family(rt.alloc())?;
    same(&rt, &child.start(), &Start::NotYet);
    holds(&rt, parent.ends(0), "its child is of another group");
    same(&rt, &child.start(), &Start::Never);
    holds(&rt, child.take_up().is_err(), "it never runs");
    Ok(())
}

/// A thread that is not born yet, and a tracer.
fn open_thread<A: Allocator + Copy>(alloc: A) -> Result<(AtRest<A>, Desk<A>), Fail> {
    let mut cast = open_for(alloc, &[ROOT, THREAD], 1)?;
    let thread = cast.tracee(alloc)?;
    Ok((thread, cast.desk()?))
}

#[test]
fn a_thread_is_not_born_before_its_clone(rt: HostRuntime) -> Result<(), Fail> {
    let (thread, mut desk) = open_thread(rt.alloc())?;
    holds(
        &rt,
        thread.take_up().is_err(),
        "its leader has made no clone",
    );
    same(&rt, &desk.look(1), &Shown::Unborn);
    Ok(())
}

/// A root of thread id 1, the last of its 255 children, and a tracer.
fn open_largest<A: Allocator + Copy>(alloc: A) -> Result<(AtRest<A>, AtRest<A>, Desk<A>), Fail> {
    let rows = family(alloc, 255)?;
    let mut cast = open_for(alloc, rows.as_slice(), 1)?;
    let last = cast.tracee(alloc)?;
    for _ in 0..254 {
        let _between = cast.tracee(alloc)?;
    }
    let root = cast.tracee(alloc)?;
    Ok((root, last, cast.desk()?))
}

#[test]
fn the_255th_child_is_born_by_the_255th_fork(rt: HostRuntime) -> Result<(), Fail> {
    let (mut root, mut last, mut desk) = open_largest(rt.alloc())?;
    for fork in 1..256 {
        same(&rt, &(fork, last.start()), &(fork, Start::NotYet));
        same(&rt, &(fork, desk.look(255)), &(fork, Shown::Unborn));
        root = root.stop(Stop::Fork(fork + 1), 0)?;
        let stop = Answer::Stop {
            tid: 1,
            number: fork,
            mark: 0,
        };
        same(&rt, &desk.try_claim(0), &stop);
    }
    same(&rt, &last.start(), &Start::Born);
    same(&rt, &desk.look(255), &Shown::Running);
    let Ok(running) = root.take_up() else {
        return Err(Fail::new("the root was resumed"));
    };
    let more = running.publish(Stop::Fork(257), 0);
    holds(&rt, more.is_none(), "it has no 256th child");
    Ok(())
}
