//! What waits answer while one thread plays every actor.

use crate::compare::same;
use crate::waits::caller::{
    Waiter, both, end, over_running_root, over_stopped_root, root_and_waiter,
};
use std::alloc::Allocator;
use std::test::Fail;
use test_support::{Cast, open_for, row};
use trace_calls::{Calls, Id};
use trace_options::{Errno, WaitFlags};
use trace_record::{Death, Stop};
use trace_status::WaitStatus;

/// The answer for a tracee at `Stop::Start`: SIGTRAP (5), and `PTRACE_EVENT_STOP` (128).
pub(crate) fn started(pid: u32) -> Result<WaitStatus, Errno> {
    Ok(WaitStatus::PtraceEvent(pid, 5, 128))
}

/// The calls over no tracee.
fn over_nobody<A: Allocator + Copy>(alloc: A) -> Result<Calls<A>, Fail> {
    let mut cast = open_for(alloc, &[], 1)?;
    Waiter::of(&mut cast, alloc)?.ready(alloc)
}

#[test]
fn without_tracees_there_is_no_child(rt: HostRuntime) -> Result<(), Fail> {
    let mut calls = over_nobody(rt.alloc())?;
    same(
        &rt,
        &calls.waitid(Id::All, WaitFlags::WEXITED),
        &Err(Errno::ECHILD),
    );
    same(
        &rt,
        &calls.waitpid(-1, WaitFlags::WNOHANG),
        &Err(Errno::ECHILD),
    );
    let _tracer = end(&rt, calls, &[]);
    Ok(())
}

#[test]
fn arguments_are_tested_before_tracees(rt: HostRuntime) -> Result<(), Fail> {
    let mut calls = over_running_root(rt.alloc())?;
    let continued = both(WaitFlags::WEXITED, WaitFlags::WCONTINUED);
    for (id, flags) in [
        (Id::Pid(999), WaitFlags::WNOHANG),
        (Id::All, WaitFlags::WNOHANG),
        (Id::All, WaitFlags::WCONTINUED),
        (Id::All, continued),
        (Id::Pid(0), WaitFlags::WEXITED),
        (Id::PGid(0), WaitFlags::WEXITED),
        (Id::PGid(-77), WaitFlags::WEXITED),
    ] {
        same(&rt, &calls.waitid(id, flags), &Err(Errno::EINVAL));
    }
    for (pid, flags) in [
        (100, WaitFlags::WNOWAIT),
        (100, WaitFlags::WEXITED),
        (0, WaitFlags::WNOHANG),
        (i32::MIN, WaitFlags::WNOHANG),
    ] {
        same(&rt, &calls.waitpid(pid, flags), &Err(Errno::EINVAL));
    }
    let gone = calls.waitid(Id::Pid(999), WaitFlags::WEXITED);
    same(&rt, &gone, &Err(Errno::ECHILD));
    let found = waits(&mut calls, [999, 100]);
    same(
        &rt,
        &found,
        &[Err(Errno::ECHILD), Ok(WaitStatus::StillAlive)],
    );
    let _tracer = end(&rt, calls, &[]);
    Ok(())
}

/// What two waits answer, one after the other.
fn waits<A: Allocator>(calls: &mut Calls<A>, pids: [i32; 2]) -> [Result<WaitStatus, Errno>; 2] {
    pids.map(|pid| calls.waitpid(pid, WaitFlags::WNOHANG))
}

/// What a wait with WNOWAIT answers, and the number of stops and whether there is a claim after it.
pub(crate) fn looked<A: Allocator>(
    calls: &mut Calls<A>,
    more: WaitFlags,
) -> (Result<WaitStatus, Errno>, Option<u32>, bool) {
    let answer = calls.waitid(Id::All, both(WaitFlags::WSTOPPED, more));
    (answer, calls.count(100), calls.claimed(100).is_some())
}

#[test]
fn wnowait_leaves_the_stop_to_the_next_wait(rt: HostRuntime) -> Result<(), Fail> {
    let mut calls = over_stopped_root(rt.alloc(), Stop::Start)?;
    same(&rt, &(calls.count(100), calls.count(999)), &(Some(0), None));
    for _ in 0..2 {
        let peeked = looked(&mut calls, WaitFlags::WNOWAIT);
        same(&rt, &peeked, &(started(100), Some(1), false));
    }
    let claimed = looked(&mut calls, WaitFlags::WSTOPPED);
    same(&rt, &claimed, &(started(100), Some(1), true));
    let nothing = looked(&mut calls, WaitFlags::WSTOPPED);
    same(&rt, &nothing, &(Ok(WaitStatus::StillAlive), Some(1), true));
    let _tracer = end(&rt, calls, &[100]);
    Ok(())
}

/// Two roots stop at `Stop::Start`. The last row's tracee does not run.
fn start_two<A: Allocator + Copy>(cast: &mut Cast<A>, alloc: A) -> Result<(), Fail> {
    let _child = cast.tracee(alloc)?;
    for _ in 0..2 {
        let _root = cast.tracee(alloc)?.stop(Stop::Start, 0)?;
    }
    Ok(())
}

/// The calls over two roots at `Stop::Start`, of the process groups 77 and 78, and an unborn child of the first.
fn over_two_starts<A: Allocator + Copy>(alloc: A) -> Result<Calls<A>, Fail> {
    let rows = [
        row(100, 100, 77, 0),
        row(200, 200, 78, 0),
        row(101, 101, 77, 100),
    ];
    let mut cast = open_for(alloc, &rows, 1)?;
    start_two(&mut cast, alloc)?;
    Waiter::of(&mut cast, alloc)?.ready(alloc)
}

#[test]
fn rows_are_tried_in_the_order_of_the_roster(rt: HostRuntime) -> Result<(), Fail> {
    let mut calls = over_two_starts(rt.alloc())?;
    let nothing = Ok(WaitStatus::StillAlive);
    let of_group = waits(&mut calls, [-77, -77]);
    same(&rt, &of_group, &[started(100), nothing]);
    same(
        &rt,
        &calls.waitid(Id::Pid(101), WaitFlags::WEXITED),
        &Err(Errno::ECHILD),
    );
    let of_all = waits(&mut calls, [-1, -1]);
    same(&rt, &of_all, &[started(200), nothing]);
    let _tracer = end(&rt, calls, &[100, 200]);
    Ok(())
}

/// A parent stops at its fork, and its child at `Stop::Start`.
fn fork<A: Allocator + Copy>(cast: &mut Cast<A>, alloc: A) -> Result<(), Fail> {
    let child = cast.tracee(alloc)?;
    let _parent = cast.tracee(alloc)?.stop(Stop::Fork(101), 0)?;
    let _child = child.stop(Stop::Start, 0)?;
    Ok(())
}

/// The calls over a parent at its fork and its child at `Stop::Start`.
pub(crate) fn over_a_fork<A: Allocator + Copy>(alloc: A) -> Result<Calls<A>, Fail> {
    let rows = [row(100, 100, 77, 0), row(101, 101, 77, 100)];
    let mut cast = open_for(alloc, &rows, 1)?;
    fork(&mut cast, alloc)?;
    Waiter::of(&mut cast, alloc)?.ready(alloc)
}

#[test]
fn a_parent_comes_before_its_child(rt: HostRuntime) -> Result<(), Fail> {
    let mut calls = over_a_fork(rt.alloc())?;
    // PTRACE_EVENT_FORK is 1.
    let forked = Ok(WaitStatus::PtraceEvent(100, 5, 1));
    let found = waits(&mut calls, [-1, -1]);
    same(&rt, &found, &[forked, started(101)]);
    same(&rt, &calls.getevent(100), &Ok(101));
    let _tracer = end(&rt, calls, &[100, 101]);
    Ok(())
}

#[test]
fn an_exit_is_reported_before_the_death(rt: HostRuntime) -> Result<(), Fail> {
    let mut calls = over_stopped_root(rt.alloc(), Stop::Ending(Death::Exited(3)))?;
    // PTRACE_EVENT_EXIT is 6; the message is the raw wait status of the death.
    let exits = Ok(WaitStatus::PtraceEvent(100, 5, 6));
    let found = waits(&mut calls, [-1, -1]);
    same(&rt, &found, &[exits, Ok(WaitStatus::StillAlive)]);
    same(&rt, &calls.getevent(100), &Ok(0x300));
    same(&rt, &calls.count(100), &Some(1));
    let _tracer = end(&rt, calls, &[100]);
    Ok(())
}

/// The calls over a root that exited with code 3.
pub(crate) fn over_a_death<A: Allocator + Copy>(alloc: A) -> Result<Calls<A>, Fail> {
    let (root, waiter) = root_and_waiter(alloc)?;
    if !root.ends(3) {
        return Err(Fail::new("a root that is alone in its group ends"));
    }
    waiter.ready(alloc)
}

#[test]
fn a_death_is_reaped_once(rt: HostRuntime) -> Result<(), Fail> {
    let mut calls = over_a_death(rt.alloc())?;
    let peek = both(WaitFlags::WEXITED, WaitFlags::WNOWAIT);
    let gone = Err(Errno::ECHILD);
    let died = Ok(WaitStatus::Exited(100, 3));
    same(&rt, &calls.waitid(Id::Pid(100), WaitFlags::WSTOPPED), &gone);
    same(&rt, &calls.waitid(Id::Pid(100), peek), &died);
    let found = waits(&mut calls, [100, 100]);
    same(&rt, &found, &[died, gone]);
    same(&rt, &calls.waitid(Id::Pid(100), peek), &gone);
    same(&rt, &calls.count(100), &Some(0));
    let _tracer = end(&rt, calls, &[]);
    Ok(())
}

#[test]
fn with_wnohang_a_blocking_wait_answers_at_once(rt: HostRuntime) -> Result<(), Fail> {
    let mut calls = over_running_root(rt.alloc())?;
    let flags = both(WaitFlags::WEXITED, WaitFlags::WNOHANG);
    // The root runs, and nothing will ever be reported of it.
    let nothing = Ok(WaitStatus::StillAlive);
    same(&rt, &calls.waitid_blocking(&rt, Id::All, flags), &nothing);
    same(
        &rt,
        &calls.waitpid_blocking(&rt, -1, WaitFlags::WNOHANG),
        &nothing,
    );
    let _tracer = end(&rt, calls, &[]);
    Ok(())
}
