//! What the threads of a run wait for: no tracee runs before each worker has what it needs. A worker's first three growths
//! are those of its calls: a copy of the roster, the counts of the rows' stops, and its claims.

ghost use Rattle.std.specs.Prelude.{◌≤◌};
ghost use Rattle.stop_history.specs.declared.limits.TheConstants.{TRACERS};

use crate::compare::{holds, same};
use crate::workers::cases::all;
use crate::workers::counting::Counting;
use refusing_allocator::RefusingAllocator;
use std::sync::Wait;
use std::test::Fail;
use std::thread::Threads;
use std::time::Clock;
use trace_script::Case;
use tracer_workers::{Config, run_case};

/// A root that exits at once.
const ROOT: &str = "tracee 100 100 77 0\nexit 0\nend\n";

/// More than its run by one worker has growths.
const MOST: u64 = 1000;

const WORKERS: u32 = 16;

/// The growths of all workers' calls but those of one worker.
const OTHER_GROWTHS: u64 = 15 * 3;

/// How often each growth is refused. What a starter hears of its workers depends on how the threads take turns.
const RUNS: u32 = 4;

/// Whether a tracee runs where these growths are granted and the next one is refused. None where that one is refused
/// before the run.
fn has_run<R: Threads + Wait + Clock + AllocGlobal + Sync>(
    rt: &R,
    granted: u64,
    workers: u32,
) -> Option<bool>
    requires { (1 ≤ workers) × (workers ≤ TRACERS) }
{
    let heap = RefusingAllocator::new(rt.alloc(), granted);
    let Ok(case) = Case::read(&heap, ROOT.as_bytes()) else {
        return None;
    };
    let config = Config { workers, ..all() };
    let gate = Counting::new();
    let _ = run_case(rt, &heap, &case, &config, &gate);
    Some(gate.stops() != 0)
}

/// The growths before the tracee runs, with one worker.
fn growths_before<R: Threads + Wait + Clock + AllocGlobal + Sync>(rt: &R) -> Option<u64> {
    for granted in 0..MOST {
        if has_run(rt, granted, 1) == Some(true) {
            return Some(granted);
        }
    }
    None
}

#[test]
fn no_tracee_runs_where_one_of_16_workers_has_no_memory(rt: HostRuntime) -> Result<(), Fail> {
    let Some(before) = growths_before(&rt) else {
        return Ok(holds(&rt, false, "no tracee ran"));
    };
    for more in 0..OTHER_GROWTHS {
        for _ in 0..RUNS {
            let has_run = has_run(&rt, before.wrapping_add(more), WORKERS);
            same(&rt, &has_run, &Some(false));
        }
    }
    let has_run = has_run(&rt, before.wrapping_add(OTHER_GROWTHS), WORKERS);
    same(&rt, &has_run, &Some(true));
    Ok(())
}
