//! What the threads of a worker and of its tracees do where a test starts them itself, and the word by which the
//! worker tells the tracees to begin.

ghost use Rattle.std.specs.Prelude.{◌≡◌, [], IfSome, List};
ghost use Rattle.stop_history.specs.declared.roster.Row.{Row};
ghost use Rattle.stop_table.specs.Tracer.{held_rows};
ghost use Rattle.tracer_workers.specs.Gathering.{IsFreeTracee, IsFreeTracer};
ghost use Rattle.tracer_workers.specs.Threaded.{CanRun};

use crate::workers::cases::all;
use crate::workers::counting::Counting;
use crate::workers::party::Scripted;
use std::alloc::Allocator;
use std::sync::Wait;
use std::sync::atomic::{AtomicU32, Ordering};
use std::thread;
use std::time::Clock;
use stop_history::Roster;
use stop_table::{Tracee, Tracer};
use trace_calls::Calls;
use tracer_workers::{KeptPieces, run_tracee, run_worker};

/// What the worker says to the tracees: nothing yet.
const WAIT: u32 = 0;

/// That it begins to serve.
const GO: u32 = 1;

/// That it has no calls, and leaves.
const LEAVE: u32 = 2;

/// What a worker says to its tracees. It says it once.
#[derive(Drop)]
pub(crate) struct StartWord {
    said: AtomicU32,
}

impl StartWord {
    /// Nothing is said yet.
    pub(crate) fn new() -> StartWord {
        StartWord {
            said: AtomicU32::new(WAIT),
        }
    }

    /// Says whether the worker begins to serve.
    fn say(&self, is_go: bool) {
        let said = if is_go { GO } else { LEAVE };
        self.said.store(said, Ordering::SeqCst);
    }

    /// Waits until the worker says whether it begins to serve, and returns that.
    fn wait_for_go<R: Wait>(&self, rt: &R) -> bool {
        for _ in rt.forever() {
            match self.said.load(Ordering::SeqCst) {
                WAIT => thread::yield_now(),
                said => return said == GO,
            }
        }
        unreachable!()
    }
}

/// What a tracee's thread does: it runs its row once the worker begins to serve, and leaves it where the worker
/// leaves.
pub(crate) fn run_when_told<A: Allocator, R: Wait + Clock>(
    rt: &R,
    word: &StartWord,
    scripted: Scripted<A>,
) -> Tracee<A>
    requires { CanRun scripted.tracee scripted.machine }
    ensures { (id : _) (rows : List Row) → IsFreeTracee id rows scripted.tracee → IsFreeTracee id rows result }
{
    let Scripted {
        mut tracee,
        machine,
    } = scripted;
    if !word.wait_for_go(rt) {
        return tracee;
    }
    run_tracee(rt, &mut tracee, machine);
    tracee
}

/// What a worker's thread does: it makes its calls, tells the tracees, and serves them. Its tracer, and what it has
/// kept; None where it is refused the calls.
pub(crate) fn serve<A: Allocator + Copy, R: Wait + Clock>(
    rt: &R,
    alloc: A,
    word: &StartWord,
    tracer: Tracer<A>,
    roster: &Roster<A>,
    gate: &Counting,
) -> Option<(Tracer<A>, KeptPieces<A>)>
    requires { (roster.now ≡ tracer.view.roster) × (held_rows tracer.view ≡ []) }
    ensures { (id : _) (rows : List Row) → IsFreeTracer id rows tracer →
        IfSome result (λ s. IsFreeTracer id rows s.0) }
{
    let Ok(mut calls) = Calls::new(alloc, tracer, roster) else {
        word.say(false);
        return None;
    };
    word.say(true);
    let worked = run_worker(rt, alloc, &mut calls, &all(), 0, gate);
    match calls.into_tracer() {
        Ok(tracer) => Some((tracer, worked)),
        Err(_) => unreachable!(),
    }
}
