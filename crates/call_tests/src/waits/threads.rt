//! Waits on threads of their own.

use crate::compare::{holds, same};
use crate::waits::answers::started;
use crate::waits::caller::{Waiter, end, root_and_waiter};
use std::alloc::Global;
use std::sync::Wait;
use std::test::Fail;
use std::thread;
use std::thread::{JoinHandle, Threads};
use std::time::Clock;
use test_support::{AtRest, Cast, have_lived, open_for, roots, runs_on};
use trace_calls::Id;
use trace_options::{Errno, WaitFlags};
use trace_record::Stop;
use trace_status::WaitStatus;

/// How many tracees the tracers share.
const TRACEES: usize = 20;

/// How many threads wait for them.
const WAITERS: usize = 8;

pub(crate) fn publish_start(tracee: AtRest) -> bool {
    match tracee.take_up() {
        Ok(running) => running.publish(Stop::Start, 0).is_some(),
        Err(_) => false,
    }
}

fn wait_for_a_stop<R: Wait + Clock>(
    rt: &R,
    waiter: Waiter,
    alloc: Global,
) -> Option<Result<WaitStatus, Errno>> {
    let mut calls = waiter.calls(alloc)?;
    let answer = calls.waitid_blocking(rt, Id::All, WaitFlags::WSTOPPED);
    let _tracer = end(rt, calls, &[100]);
    Some(answer)
}

#[test]
fn a_blocking_wait_sees_a_stop_that_comes_later(rt: HostRuntime) -> Result<(), Fail> {
    let alloc = rt.alloc();
    let (root, waiter) = root_and_waiter(alloc)?;
    let (answer, published) = thread::join(
        &rt,
        || wait_for_a_stop(&rt, waiter, alloc),
        || publish_start(root),
    );
    holds(&rt, published, "a root runs");
    same(&rt, &answer, &Some(started(100)));
    Ok(())
}

/// A tracee's thread: three stops, and its exit.
fn live<R: Wait>(rt: &R, tracee: AtRest) -> bool {
    let mut tracee = tracee;
    for mark in 0..3u64 {
        let Some(stopped) = runs_on(rt, tracee).publish(Stop::Enter, mark) else {
            return false;
        };
        tracee = stopped;
    }
    runs_on(rt, tracee).exit(7).is_ok()
}

/// A tracer's thread: it lets every stop run on, and counts the deaths that it was told of, by pid; None where there
/// was no memory.
fn reap<R: Wait + Clock>(rt: &R, waiter: Waiter, alloc: Global) -> Option<[u8; TRACEES]> {
    let mut deaths = [0u8; TRACEES];
    let mut calls = waiter.calls(alloc)?;
    for _ in rt.forever() {
        match calls.waitid_blocking(rt, Id::All, WaitFlags::WEXITED) {
            Ok(WaitStatus::PtraceSyscall(pid)) => {
                if let Ok(pid) = i32::try_from(pid) {
                    let _ = calls.cont(pid, None);
                }
            }
            Ok(WaitStatus::Exited(pid, 7)) => {
                // The thread ids are 1 to 20.
                if let Some(count) = deaths.get_mut(pid.wrapping_sub(1) as usize) {
                    *count = count.saturating_add(1);
                }
            }
            Ok(_) => {}
            Err(_) => {
                let _tracer = end(rt, calls, &[]);
                return Some(deaths);
            }
        }
    }
    unreachable!()
}

/// Starts a thread for each tracee.
fn start_tracees<R: Threads + Wait + AllocGlobal + Copy + Send + 'static>(
    rt: R,
    cast: &mut Cast,
) -> Result<Vec<JoinHandle<bool>>, Fail> {
    let alloc = rt.alloc();
    let mut tracees = Vec::with_capacity(alloc, TRACEES)?;
    for _ in 0..TRACEES {
        let tracee = cast.tracee(alloc)?;
        let Ok(thread) = thread::spawn(&rt, move || live(&rt, tracee)) else {
            return Err(Fail::new("there is no thread for a tracee"));
        };
        tracees.push(thread)?;
    }
    Ok(tracees)
}

/// Starts the threads that wait for them.
fn start_waiters<R: Threads + Wait + Clock + AllocGlobal + Copy + Send + 'static>(
    rt: R,
    cast: &mut Cast,
) -> Result<Vec<JoinHandle<Option<[u8; TRACEES]>>>, Fail> {
    let alloc = rt.alloc();
    let mut waiters = Vec::with_capacity(alloc, WAITERS)?;
    for _ in 0..WAITERS {
        let waiter = Waiter::of(cast, alloc)?;
        let Ok(thread) = thread::spawn(&rt, move || reap(&rt, waiter, alloc)) else {
            return Err(Fail::new("there is no thread for a tracer"));
        };
        waiters.push(thread)?;
    }
    Ok(waiters)
}

/// How often each death was answered; None where a thread had no memory.
fn count_answers<R: Threads + Wait>(
    rt: &R,
    waiters: Vec<JoinHandle<Option<[u8; TRACEES]>>>,
) -> Option<[u8; TRACEES]> {
    let mut answered = [0u8; TRACEES];
    let mut has_memory = true;
    for waiter in waiters {
        match waiter.join(rt) {
            Some(deaths) => {
                for (count, more) in answered.iter_mut().zip(deaths.iter()) {
                    *count = count.saturating_add(*more);
                }
            }
            None => has_memory = false,
        }
    }
    has_memory.then_some(answered)
}

/// New cells of the tracees, with the tracers.
fn open_crowd(alloc: Global) -> Result<Cast, Fail> {
    let rows = roots(alloc, TRACEES as u32)?;
    open_for(alloc, rows.as_slice(), WAITERS as u32)
}

#[test]
fn each_death_is_answered_once(rt: HostRuntime) -> Result<(), Fail> {
    let mut cast = open_crowd(rt.alloc())?;
    let tracees = start_tracees(rt, &mut cast)?;
    let waiters = start_waiters(rt, &mut cast)?;
    let answered = count_answers(&rt, waiters).expect(&rt, "memory");
    holds(
        &rt,
        have_lived(&rt, tracees),
        "a tracee's calls did what they should",
    );
    holds(
        &rt,
        answered.iter().all(|count| *count == 1),
        "each death once",
    );
    Ok(())
}
