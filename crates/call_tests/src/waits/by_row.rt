//! Waits and calls by row.

use crate::compare::{holds, same};
use crate::waits::answers::{over_a_death, over_a_fork, started};
use crate::waits::by_pid::restart_of;
use crate::waits::caller::{
    Waiter, both, end, over_running_root, root_and_waiter, with_stopped_root,
};
use crate::waits::threads::publish_start;
use std::alloc::{Allocator, Global};
use std::sync::Wait;
use std::test::Fail;
use std::thread;
use std::time::Clock;
use stop_table::Shown;
use test_support::START;
use trace_calls::{Calls, Id, Patience, RowStatus};
use trace_options::{Errno, WaitFlags};
use trace_record::{Death, Kind, Resume, Stop};
use trace_status::WaitStatus;

/// The report of this row at `Stop::Start`, which is its first stop.
fn start_of(row: u32, pid: u32) -> Result<Option<RowStatus>, Errno> {
    started(pid).map(|status| {
        Some(RowStatus {
            row,
            number: 1,
            status,
            death: None,
        })
    })
}

/// The restart by `PTRACE_CONT` with this signal.
fn cont(signal: u8) -> Resume {
    Resume {
        kind: Kind::Cont,
        signal,
    }
}

/// The thread id and the number of the stop that is claimed, for each of three rows.
fn claims<A: Allocator>(calls: &Calls<A>) -> [Option<(u32, u32)>; 3] {
    [0, 1, 2].map(|row| {
        calls
            .claimed_row(row)
            .map(|record| (record.tid, record.number))
    })
}

/// What restarts of rows answer, one after the other.
fn restarts<A: Allocator>(calls: &mut Calls<A>, rows: [(u32, u8); 5]) -> [Result<(), Errno>; 5] {
    rows.map(|(row, signal)| calls.restart_row(row, cont(signal)))
}

#[test]
fn a_wait_by_row_reports_the_row_and_claims_it(rt: HostRuntime) -> Result<(), Fail> {
    // Row 0 is the parent, 100, at its fork; row 1 its child, 101, at its start.
    let mut calls = over_a_fork(rt.alloc())?;
    let stops = WaitFlags::WSTOPPED;
    same(&rt, &calls.wait_row(Id::Pid(101), stops), &start_of(1, 101));
    same(&rt, &calls.count(101), &Some(1));
    let held = claims(&calls);
    same(&rt, &held, &[None, Some((101, 1)), None]);
    same(&rt, &calls.wait_row(Id::Pid(101), stops), &Ok(None));
    let _tracer = end(&rt, calls, &[101]);
    Ok(())
}

/// What a look at a row shows, or None if the roster has no such row.
fn shown<A: Allocator>(calls: &mut Calls<A>, row: u32) -> Option<Shown> {
    if row >= calls.rows() {
        return None;
    }
    Some(calls.look(row))
}

#[test]
fn a_look_shows_a_row_and_claims_nothing(rt: HostRuntime) -> Result<(), Fail> {
    // Row 0 is the parent, 100, at its fork; row 1 its child, 101, at its start.
    let mut calls = over_a_fork(rt.alloc())?;
    // PTRACE_EVENT_FORK is 1, above SIGTRAP above 0x7f.
    let forked = Shown::Stopped {
        number: 1,
        status: 0x1057f,
    };
    let started = Shown::Stopped {
        number: 1,
        status: START,
    };
    same(&rt, &shown(&mut calls, 0), &Some(forked));
    same(&rt, &shown(&mut calls, 1), &Some(started));
    same(&rt, &shown(&mut calls, 2), &None);
    same(&rt, &claims(&calls), &[None; 3]);
    same(&rt, &calls.count(101), &Some(0));
    let stops = WaitFlags::WSTOPPED;
    same(&rt, &calls.wait_row(Id::Pid(101), stops), &start_of(1, 101));
    let claimed = Shown::Claimed { number: 1 };
    same(&rt, &shown(&mut calls, 1), &Some(claimed));
    same(&rt, &claims(&calls), &[None, Some((101, 1)), None]);
    let _tracer = end(&rt, calls, &[101]);
    Ok(())
}

/// The answer of a wait for one row, or None if the roster has no such row.
fn waited_for<A: Allocator>(
    calls: &mut Calls<A>,
    row: u32,
) -> Option<Result<Option<RowStatus>, Errno>> {
    if row >= calls.rows() {
        return None;
    }
    Some(calls.wait_one(row))
}

#[test]
fn a_wait_for_one_row_claims_that_row_alone(rt: HostRuntime) -> Result<(), Fail> {
    // Row 0 is the parent, 100, at its fork; row 1 its child, 101, at its start.
    let mut calls = over_a_fork(rt.alloc())?;
    same(&rt, &calls.rows(), &2);
    same(&rt, &waited_for(&mut calls, 1), &Some(start_of(1, 101)));
    let held = claims(&calls);
    same(&rt, &held, &[None, Some((101, 1)), None]);
    // It is claimed.
    same(&rt, &waited_for(&mut calls, 1), &Some(Ok(None)));
    // There are two rows.
    same(&rt, &waited_for(&mut calls, 2), &None);
    let _tracer = end(&rt, calls, &[101]);
    Ok(())
}

/// The answer of a wait for one row with these flags, or None if the roster has no such row.
fn waited_at<A: Allocator>(
    calls: &mut Calls<A>,
    row: u32,
    flags: WaitFlags,
) -> Option<Result<Option<RowStatus>, Errno>> {
    if row >= calls.rows() {
        return None;
    }
    Some(calls.wait_at(row, flags))
}

#[test]
fn a_wait_for_one_row_takes_flags(rt: HostRuntime) -> Result<(), Fail> {
    // Row 0 is the parent, 100, at its fork; row 1 its child, 101, at its start.
    let mut calls = over_a_fork(rt.alloc())?;
    let stops = WaitFlags::WSTOPPED;
    let mut peek = stops;
    peek.insert(WaitFlags::WNOWAIT);
    for _ in 0..2 {
        same(
            &rt,
            &waited_at(&mut calls, 1, peek),
            &Some(start_of(1, 101)),
        );
    }
    same(&rt, &claims(&calls), &[None; 3]);
    same(
        &rt,
        &waited_at(&mut calls, 1, stops),
        &Some(start_of(1, 101)),
    );
    same(&rt, &claims(&calls), &[None, Some((101, 1)), None]);
    let nohang = waited_at(&mut calls, 0, WaitFlags::WNOHANG);
    same(&rt, &nohang, &Some(Err(Errno::EINVAL)));
    let _tracer = end(&rt, calls, &[101]);
    Ok(())
}

#[test]
fn a_wait_for_one_row_reaps_its_death(rt: HostRuntime) -> Result<(), Fail> {
    let mut calls = over_a_death(rt.alloc())?;
    // The root has made no stop.
    let died = Ok(Some(RowStatus {
        row: 0,
        number: 0,
        status: WaitStatus::Exited(100, 3),
        death: Some(Death::Exited(3)),
    }));
    same(&rt, &waited_for(&mut calls, 0), &Some(died));
    same(&rt, &waited_for(&mut calls, 0), &Some(Err(Errno::ECHILD)));
    let _tracer = end(&rt, calls, &[]);
    Ok(())
}

#[test]
fn a_row_that_is_not_claimed_is_not_restarted(rt: HostRuntime) -> Result<(), Fail> {
    let mut calls = over_a_fork(rt.alloc())?;
    let found = calls.wait_row(Id::Pid(101), WaitFlags::WSTOPPED);
    same(&rt, &found, &start_of(1, 101));
    // Row 0 is not claimed, there is no row 2, and a signal of 65 is none.
    let answers = restarts(&mut calls, [(0, 0), (2, 65), (1, 65), (1, 64), (1, 0)]);
    let (esrch, eio) = (Err(Errno::ESRCH), Err(Errno::EIO));
    same(&rt, &answers, &[esrch, esrch, eio, Ok(()), esrch]);
    let _tracer = end(&rt, calls, &[]);
    Ok(())
}

#[test]
fn a_row_runs_on_by_the_restart_that_was_asked_for(rt: HostRuntime) -> Result<(), Fail> {
    let (root, mut calls) = with_stopped_root(rt.alloc(), Stop::Start)?;
    let found = calls.wait_row(Id::All, WaitFlags::WSTOPPED);
    same(&rt, &found, &start_of(0, 100));
    let how = Resume {
        kind: Kind::Syscall,
        signal: 10,
    };
    same(&rt, &calls.restart_row(0, how), &Ok(()));
    same(&rt, &restart_of(root), &Some((Kind::Syscall, 10)));
    let _tracer = end(&rt, calls, &[]);
    Ok(())
}

#[test]
fn a_death_is_reported_with_its_row(rt: HostRuntime) -> Result<(), Fail> {
    let mut calls = over_a_death(rt.alloc())?;
    // The root has made no stop.
    let died = Ok(Some(RowStatus {
        row: 0,
        number: 0,
        status: WaitStatus::Exited(100, 3),
        death: Some(Death::Exited(3)),
    }));
    let peek = both(WaitFlags::WEXITED, WaitFlags::WNOWAIT);
    same(
        &rt,
        &calls.wait_row(Id::All, WaitFlags::WNOHANG),
        &Err(Errno::EINVAL),
    );
    same(&rt, &calls.wait_row(Id::All, peek), &died);
    same(&rt, &calls.wait_row(Id::All, WaitFlags::WEXITED), &died);
    let held = claims(&calls);
    same(&rt, &held, &[None; 3]);
    same(
        &rt,
        &calls.wait_row(Id::All, WaitFlags::WEXITED),
        &Err(Errno::ECHILD),
    );
    let _tracer = end(&rt, calls, &[]);
    Ok(())
}

#[test]
fn with_wnohang_a_blocking_wait_by_row_answers_at_once(rt: HostRuntime) -> Result<(), Fail> {
    let mut calls = over_running_root(rt.alloc())?;
    let flags = both(WaitFlags::WEXITED, WaitFlags::WNOHANG);
    // The root runs, and nothing will ever be reported of it.
    same(
        &rt,
        &calls.wait_row_blocking(&rt, Id::All, flags, Patience::new()),
        &Ok(None),
    );
    let _tracer = end(&rt, calls, &[]);
    Ok(())
}

/// What a blocking wait by row answers; None where there was no memory.
fn wait_for_a_row<R: Wait + Clock>(
    rt: &R,
    waiter: Waiter,
    alloc: Global,
) -> Option<Result<Option<RowStatus>, Errno>> {
    let mut calls = waiter.calls(alloc)?;
    let patience = Patience::with_looks(1);
    let answer = calls.wait_row_blocking(rt, Id::All, WaitFlags::WSTOPPED, patience);
    let _tracer = end(rt, calls, &[100]);
    Some(answer)
}

#[test]
fn a_blocking_wait_by_row_sees_a_stop_that_comes_later(rt: HostRuntime) -> Result<(), Fail> {
    let alloc = rt.alloc();
    let (root, waiter) = root_and_waiter(alloc)?;
    let (answer, published) = thread::join(
        &rt,
        || wait_for_a_row(&rt, waiter, alloc),
        || publish_start(root),
    );
    holds(&rt, published, "a root runs");
    same(&rt, &answer, &Some(start_of(0, 100)));
    Ok(())
}
