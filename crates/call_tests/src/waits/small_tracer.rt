//! The loop of a small tracer, as docs/calls.md has it.

use crate::compare::{holds, same};
use crate::waits::caller::{Waiter, end, root_and_waiter};
use std::alloc::Allocator;
use std::sync::Wait;
use std::test::Fail;
use std::thread;
use std::time::Clock;
use test_support::{AtRest, runs_on};
use trace_calls::Calls;
use trace_options::WaitFlags;
use trace_record::Stop;
use trace_status::WaitStatus;

fn trace<R: Wait + Clock, A: Allocator>(rt: &R, calls: &mut Calls<A>) -> u64 {
    let mut syscall_stops = 0u64;
    for _ in rt.forever() {
        let (pid, signal) = match calls.waitpid_blocking(rt, -1, WaitFlags::WALL) {
            Ok(WaitStatus::PtraceSyscall(pid)) => {
                syscall_stops = syscall_stops.wrapping_add(1);
                (pid, None)
            }
            Ok(WaitStatus::PtraceEvent(pid, _, _)) => (pid, None),
            // The signal is handed on.
            Ok(WaitStatus::Stopped(pid, signal)) => (pid, Some(signal)),
            // A death is reaped by the wait itself: there is nobody to restart.
            Ok(_) => continue,
            // ECHILD: there is nobody left to wait for.
            Err(_) => return syscall_stops,
        };
        // A status has the pid as a u32, a call takes an i32. No pid is above 4,194,303.
        if let Ok(pid) = i32::try_from(pid) {
            let _ = calls.syscall(pid, signal);
        }
    }
    unreachable!()
}

/// A tracee's thread: its start, a call, and its exit.
fn live<R: Wait>(rt: &R, tracee: AtRest) -> bool {
    let mut tracee = tracee;
    for stop in [Stop::Start, Stop::Enter, Stop::Exit] {
        let Some(stopped) = runs_on(rt, tracee).publish(stop, 0) else {
            return false;
        };
        tracee = stopped;
    }
    runs_on(rt, tracee).exit(0).is_ok()
}

/// The syscall-stops that a tracer's thread counts; None where there was no memory.
fn count<R: Wait + Clock>(rt: &R, waiter: Waiter, alloc: std::alloc::Global) -> Option<u64> {
    let mut calls = waiter.calls(alloc)?;
    let count = trace(rt, &mut calls);
    let _tracer = end(rt, calls, &[]);
    Some(count)
}

#[test]
fn the_small_tracer_counts_the_stops_of_a_call(rt: HostRuntime) -> Result<(), Fail> {
    let alloc = rt.alloc();
    let (root, waiter) = root_and_waiter(alloc)?;
    let (counted, lived) = thread::join(&rt, || count(&rt, waiter, alloc), || live(&rt, root));
    holds(&rt, lived, "its stops were made");
    same(&rt, &counted, &Some(2));
    Ok(())
}
