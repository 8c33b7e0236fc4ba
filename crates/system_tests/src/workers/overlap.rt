//! Two workers at work at the same time: each has claimed a stop of another tracee before either restarts its own.

use crate::workers::cases::all;
use std::sync::Wait;
use std::sync::atomic::{AtomicBool, AtomicU32, Ordering};
use std::test::Fail;
use std::thread;
use std::thread::Threads;
use std::time::{Clock, Duration};
use trace_script::Case;
use tracer_workers::{Config, Gate, run_case};

/// Two roots that exit at once. Each stops when it starts and when it calls exit(2).
const ROOTS: &str = "tracee 100 100 77 0\nexit 0\nend\ntracee 200 200 77 0\nexit 3\nend\n";

const ROOTS_TEXT: &str = "100 exit(0) = ?\n100 +++ exited with 0 +++\n\
                          200 exit(3) = ?\n200 +++ exited with 3 +++\n";

/// How many stops each of the roots has.
const STOPS: u32 = 2;

/// How many they have together.
const ALL_STOPS: u64 = 4;

/// How often a worker that is held looks for the other, before it goes on alone.
const TURNS: u32 = 10_000;

/// A gate that holds two workers at their first calls: one of them until the other has called for each stop of a root,
/// and the other until the first has called. So each claims a stop of another root.
#[derive(Drop)]
struct Meeting<'a, R> {
    rt: &'a R,
    /// The worker that is held longer.
    held: u32,
    held_calls: AtomicU32,
    other_calls: AtomicU32,
    /// Whether a worker went on alone.
    is_missed: AtomicBool,
}

impl<'a, R: Clock> Meeting<'a, R> {
    fn new(rt: &'a R, held: u32) -> Meeting<'a, R> {
        Meeting {
            rt,
            held,
            held_calls: AtomicU32::new(0),
            other_calls: AtomicU32::new(0),
            is_missed: AtomicBool::new(false),
        }
    }

    /// Waits until there are this many calls.
    fn await_calls(&self, calls: &AtomicU32, many: u32) {
        for _ in 0..TURNS {
            if calls.load(Ordering::SeqCst) >= many {
                return;
            }
            thread::sleep(self.rt, Duration::from_millis(1));
        }
        self.is_missed.store(true, Ordering::SeqCst);
    }
}

impl<'a, R: Clock> Gate for Meeting<'a, R> {
    fn between(&self, worker: u32, _tid: u32, _number: u32) {
        if worker == self.held {
            if self.held_calls.fetch_add(1, Ordering::SeqCst) == 0 {
                self.await_calls(&self.other_calls, STOPS);
            }
        } else if self.other_calls.fetch_add(1, Ordering::SeqCst) == 0 {
            self.await_calls(&self.held_calls, 1);
        }
    }
}

/// Whether two workers, of which one is held longer, meet, serve each stop of the roots once, and print the worked
/// text.
fn meet<R: Threads + Wait + Clock + AllocGlobal + Sync>(
    rt: &R,
    held: u32,
    seccomp: bool,
) -> Result<bool, Fail> {
    let case = Case::read(rt.alloc(), ROOTS.as_bytes())?;
    let config = Config {
        seccomp,
        workers: 2,
        ..all()
    };
    let meeting = Meeting::new(rt, held);
    let printed = run_case(rt, rt.alloc(), &case, &config, &meeting)?;
    let held_calls = meeting.held_calls.load(Ordering::SeqCst);
    let other_calls = meeting.other_calls.load(Ordering::SeqCst);
    let is_missed = meeting.is_missed.load(Ordering::SeqCst);
    let is_right = printed.as_bytes() == ROOTS_TEXT.as_bytes();
    // Once both have gone on, either may claim the last stop.
    let calls = u64::from(held_calls) + u64::from(other_calls);
    Ok(is_right && !is_missed && held_calls >= 1 && other_calls >= STOPS && calls == ALL_STOPS)
}

#[test]
fn a_worker_serves_a_tracee_while_another_is_held(rt: HostRuntime) -> Result<(), Fail> {
    for seccomp in [false, true] {
        assert!(rt; meet(&rt, 0, seccomp)?);
        assert!(rt; meet(&rt, 1, seccomp)?);
    }
    Ok(())
}
