//! Runs on threads whose allocator refuses one growth: each growth in turn.

ghost use Rattle.std.specs.Prelude.{◌≤◌};
ghost use Rattle.stop_history.specs.declared.limits.TheConstants.{TRACERS};

use crate::compare::{holds, same};
use crate::workers::cases::{FORK, FORK_TEXT, all};
use crate::workers::threaded::Open;
use refusing_allocator::RefusingAllocator;
use std::sync::Wait;
use std::test::Fail;
use std::thread::Threads;
use std::time::Clock;
use trace_script::Case;
use tracer_workers::{Config, RunError, run_case};

/// A root that exits at once.
const ROOT: &str = "tracee 100 100 77 0\nexit 0\nend\n";

const ROOT_TEXT: &str = "100 exit(0) = ?\n100 +++ exited with 0 +++\n";

/// More than a run of a small case has growths.
const MOST: u64 = 1000;

/// A run of one row by one worker has at least this many growths: its cells, two lists of handles, its list of
/// machines, the list of spare tracers, four lists of threads, the worker's calls and its pieces, and the text.
const GROWTHS: u64 = 12;

/// How many runs of a case are refused a growth, where each run has one growth more than the last, until one is
/// granted all. None where a run does what it must not: one that is refused a growth answers `NoMemory`, and the last
/// prints the text.
fn count_refusals<R: Threads + Wait + Clock + AllocGlobal + Sync>(
    rt: &R,
    file: &str,
    config: &Config,
    text: &str,
) -> Option<u64>
    requires { (1 ≤ config.now.workers) × (config.now.workers ≤ TRACERS) }
{
    let mut refusals = 0u64;
    for granted in 0..MOST {
        let heap = RefusingAllocator::new(rt.alloc(), granted);
        let Ok(case) = Case::read(&heap, file.as_bytes()) else {
            if !heap.has_refused() {
                return None;
            }
            continue;
        };
        if heap.has_refused() {
            return None;
        }
        match run_case(rt, &heap, &case, config, &Open) {
            Ok(printed) => {
                let is_right = printed.as_bytes() == text.as_bytes() && !heap.has_refused();
                return is_right.then_some(refusals);
            }
            Err(error) => {
                if error != RunError::NoMemory || !heap.has_refused() {
                    return None;
                }
                refusals = refusals.wrapping_add(1);
            }
        }
    }
    None
}

#[test]
fn a_run_by_one_worker_reports_each_refused_growth(rt: HostRuntime) -> Result<(), Fail> {
    let config = Config {
        workers: 1,
        ..all()
    };
    let Some(refusals) = count_refusals(&rt, ROOT, &config, ROOT_TEXT) else {
        return Ok(holds(&rt, false, "a run did not report a refusal"));
    };
    same(&rt, &(refusals, refusals >= GROWTHS), &(refusals, true));
    Ok(())
}

#[test]
fn a_run_by_two_workers_reports_each_refused_growth(rt: HostRuntime) -> Result<(), Fail> {
    let config = Config {
        workers: 2,
        ..all()
    };
    let Some(refusals) = count_refusals(&rt, FORK, &config, FORK_TEXT) else {
        return Ok(holds(&rt, false, "a run did not report a refusal"));
    };
    same(&rt, &(refusals, refusals > GROWTHS), &(refusals, true));
    Ok(())
}
