//! A worker over an allocator that refuses one growth: it serves all stops all the same.

ghost use Rattle.std.specs.Prelude.{◌≡◌, []};
ghost use Rattle.stop_table.specs.Tracer.{held_rows};
ghost use Rattle.tracer_workers.specs.Threaded.{CanRun};

use crate::compare::{holds, same};
use crate::workers::cases::all;
use crate::workers::counting::Counting;
use crate::workers::party::new_party;
use crate::workers::start_word::{StartWord, run_when_told, serve};
use refusing_allocator::RefusingAllocator;
use std::alloc::Allocator;
use std::sync::Wait;
use std::test::Fail;
use std::thread;
use std::thread::Threads;
use std::time::Clock;
use stop_table::{Tracee, Tracer};
use trace_script::Case;
use tracer_workers::KeptPieces;

/// A root that makes one call and exits.
const ROOT: &str = "tracee 100 100 77 0\ncall getpid = 100\nexit 0\nend\n";

/// It stops when it starts, at the two ends of getpid(2), and when it calls exit(2).
const STOPS: u32 = 4;

/// A piece for each stop, and one for the death.
const PIECES: usize = 5;

/// More than a run of it has growths.
const MOST: u64 = 1000;

/// What has come of a worker: whether it says that pieces are missing, how many it has, and how many stops it served.
#[derive(Clone, Copy)]
struct Outcome {
    short: bool,
    pieces: usize,
    stops: u32,
}

/// What comes of a worker that serves a case of one row; None where a growth is refused before it begins. The tracee
/// runs in a thread, and both have come to their ends.
fn outcome_of<A: Allocator + Copy + Send + Sync, R: Threads + Wait + Clock + Sync>(
    rt: &R,
    alloc: A,
    case: &Case<A>,
) -> Option<Outcome> {
    let config = all();
    let (scripted, tracer) = new_party(alloc, case, config.options(), &config.filter())?;
    let counting = Counting::new();
    let word = StartWord::new();
    let (gate, word, roster) = (&counting, &word, case.roster());
    let (_tracee, served) = thread::join(
        rt,
        move || -> Tracee<A>
            requires { CanRun scripted.tracee scripted.machine }
        { run_when_told(rt, word, scripted) },
        move || -> Option<(Tracer<A>, KeptPieces<A>)>
            requires { (roster.now ≡ tracer.view.roster) × (held_rows tracer.view ≡ []) }
        { serve(rt, alloc, word, tracer, roster, gate) },
    );
    let (_tracer, worked) = served?;
    Some(Outcome {
        short: worked.short,
        pieces: worked.pieces.len(),
        stops: counting.stops(),
    })
}

/// How many workers are refused a growth, where each has one growth more than the last, until one is granted all. None
/// where one does not serve all stops, or does not say that pieces are missing.
fn count_short<R: Threads + Wait + Clock + AllocGlobal + Sync>(rt: &R) -> Option<u64> {
    let mut refusals = 0u64;
    for granted in 0..MOST {
        let heap = RefusingAllocator::new(rt.alloc(), granted);
        let Ok(case) = Case::read(&heap, ROOT.as_bytes()) else {
            continue;
        };
        let Some(outcome) = outcome_of(rt, &heap, &case) else {
            continue;
        };
        if !heap.has_refused() {
            let is_whole = !outcome.short && outcome.pieces == PIECES && outcome.stops == STOPS;
            return is_whole.then_some(refusals);
        }
        if !outcome.short || outcome.pieces >= PIECES || outcome.stops != STOPS {
            return None;
        }
        refusals = refusals.wrapping_add(1);
    }
    None
}

#[test]
fn a_worker_that_is_refused_a_growth_serves_on(rt: HostRuntime) -> Result<(), Fail> {
    let Some(refusals) = count_short(&rt) else {
        return Ok(holds(&rt, false, "a worker did not serve all"));
    };
    same(&rt, &(refusals, refusals >= 1), &(refusals, true));
    Ok(())
}
