//! What a gate is told, and when: between the claim of a stop and its restart. However long it holds a worker, the text
//! is the same.

use crate::compare::same;
use crate::workers::cases::{THREAD, THREAD_TEXT, all};
use crate::workers::counting::Counting;
use std::sync::Wait;
use std::sync::atomic::{AtomicBool, AtomicU32, Ordering};
use std::test::Fail;
use std::thread;
use std::thread::Threads;
use std::time::{Clock, Duration};
use trace_script::Case;
use tracer_workers::{Config, Gate, run_case};

/// A root that exits at once. It stops when it starts and when it calls exit(2).
const ROOT: &str = "tracee 100 100 77 0\nexit 0\nend\n";

const ROOT_TEXT: &str = "100 exit(0) = ?\n100 +++ exited with 0 +++\n";

const STOPS: u32 = 2;

/// How many workers serve it.
const WORKERS: u32 = 2;

/// For how many milliseconds its first stop is held.
const TURNS: u32 = 50;

/// For how many milliseconds each call of worker 1 is held.
const LONG: u32 = 1_000;

/// How often the root runs at most until worker 1 serves one of its stops: they are served by whoever comes first.
const RUNS: u32 = 20;

/// Waits for this many turns of a millisecond.
fn hold<R: Clock>(rt: &R, turns: u32) {
    for _ in 0..turns {
        thread::sleep(rt, Duration::from_millis(1));
    }
}

/// A gate that holds each call of worker 1, and counts them.
#[derive(Drop)]
struct Late<'a, R> {
    rt: &'a R,
    calls: AtomicU32,
}

impl<'a, R: Clock> Gate for Late<'a, R> {
    fn between(&self, worker: u32, _tid: u32, _number: u32) {
        if worker == 1 {
            let _before = self.calls.fetch_add(1, Ordering::SeqCst);
            hold(self.rt, LONG);
        }
    }
}

/// A gate that holds the first stop of the root. No other stop may come meanwhile.
#[derive(Drop)]
struct Holding<'a, R> {
    rt: &'a R,
    calls: AtomicU32,
    /// Whether a stop came while the first one was held.
    is_overtaken: AtomicBool,
    /// Whether the gate was told another worker, thread id or number than it may be.
    is_strange: AtomicBool,
}

impl<'a, R: Clock> Gate for Holding<'a, R> {
    fn between(&self, worker: u32, tid: u32, number: u32) {
        let before = self.calls.fetch_add(1, Ordering::SeqCst);
        if worker >= WORKERS || tid != 100 || number != before.wrapping_add(1) {
            self.is_strange.store(true, Ordering::SeqCst);
        }
        if before != 0 {
            return;
        }
        hold(self.rt, TURNS);
        if self.calls.load(Ordering::SeqCst) != 1 {
            self.is_overtaken.store(true, Ordering::SeqCst);
        }
    }
}

/// Whether the root stays at a stop that is held, and the gate is called once for each of its stops.
fn holds<R: Threads + Wait + Clock + AllocGlobal + Sync>(
    rt: &R,
    seccomp: bool,
) -> Result<bool, Fail> {
    let case = Case::read(rt.alloc(), ROOT.as_bytes())?;
    let config = Config {
        seccomp,
        workers: WORKERS,
        ..all()
    };
    let gate = Holding {
        rt,
        calls: AtomicU32::new(0),
        is_overtaken: AtomicBool::new(false),
        is_strange: AtomicBool::new(false),
    };
    let printed = run_case(rt, rt.alloc(), &case, &config, &gate)?;
    let calls = gate.calls.load(Ordering::SeqCst);
    let is_overtaken = gate.is_overtaken.load(Ordering::SeqCst);
    let is_strange = gate.is_strange.load(Ordering::SeqCst);
    let is_right = printed.as_bytes() == ROOT_TEXT.as_bytes();
    Ok(is_right && calls == STOPS && !is_overtaken && !is_strange)
}

#[test]
fn a_tracee_stays_at_a_stop_that_a_gate_holds(rt: HostRuntime) -> Result<(), Fail> {
    for seccomp in [false, true] {
        assert!(rt; holds(&rt, seccomp)?);
    }
    Ok(())
}

/// A run of the root by two workers of which the second is held at each of its calls: whether it prints the root's
/// text, and how often the second was held.
fn prints_late<R: Threads + Wait + Clock + AllocGlobal + Sync>(
    rt: &R,
    seccomp: bool,
) -> Result<(bool, u32), Fail> {
    let case = Case::read(rt.alloc(), ROOT.as_bytes())?;
    let config = Config {
        seccomp,
        workers: WORKERS,
        ..all()
    };
    let gate = Late {
        rt,
        calls: AtomicU32::new(0),
    };
    let printed = run_case(rt, rt.alloc(), &case, &config, &gate)?;
    Ok((
        printed.as_bytes() == ROOT_TEXT.as_bytes(),
        gate.calls.load(Ordering::SeqCst),
    ))
}

/// Runs the root until the second worker was held, at most `RUNS` times. Whether it was, in a run that printed the
/// root's text as each run before it did.
fn prints_held<R: Threads + Wait + Clock + AllocGlobal + Sync>(
    rt: &R,
    seccomp: bool,
) -> Result<bool, Fail> {
    for _ in 0..RUNS {
        let (is_right, calls) = prints_late(rt, seccomp)?;
        if !is_right || calls > 0 {
            return Ok(is_right);
        }
    }
    Ok(false)
}

#[test]
fn a_worker_that_is_held_for_a_second_changes_no_byte(rt: HostRuntime) -> Result<(), Fail> {
    for seccomp in [false, true] {
        assert!(rt; prints_held(&rt, seccomp)?);
    }
    Ok(())
}

/// A gate that counts stops, and holds the first one of the thread 101: its leader's exit is refused meanwhile.
#[derive(Drop)]
struct Lingering<'a, R> {
    rt: &'a R,
    counting: Counting,
}

impl<'a, R: Clock> Gate for Lingering<'a, R> {
    fn between(&self, worker: u32, tid: u32, number: u32) {
        self.counting.between(worker, tid, number);
        if tid == 101 && number == 1 {
            hold(self.rt, TURNS);
        }
    }
}

/// The leader stops when it starts, at the entry to clone(2), at the clone, at the exit from clone(2), and when it calls
/// exit(2). Its thread stops when it starts, at the two ends of getpid(2), and when it calls exit(2).
const GROUP_STOPS: u32 = 9;

/// A run of a leader and its thread: whether it prints their text, and how many stops they make.
fn lingers<R: Threads + Wait + Clock + AllocGlobal + Sync>(
    rt: &R,
    exits: bool,
) -> Result<(bool, u32), Fail> {
    let case = Case::read(rt.alloc(), THREAD.as_bytes())?;
    let config = Config {
        exits,
        workers: WORKERS,
        ..all()
    };
    let gate = Lingering {
        rt,
        counting: Counting::new(),
    };
    let printed = run_case(rt, rt.alloc(), &case, &config, &gate)?;
    Ok((
        printed.as_bytes() == THREAD_TEXT.as_bytes(),
        gate.counting.stops(),
    ))
}

/// Both stop once more before their deaths, though the leader's exit is refused again and again.
#[test]
fn a_leader_stops_once_before_its_death(rt: HostRuntime) -> Result<(), Fail> {
    same(&rt, &lingers(&rt, false)?, &(true, GROUP_STOPS));
    same(&rt, &lingers(&rt, true)?, &(true, 11));
    Ok(())
}
