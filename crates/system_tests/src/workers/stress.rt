//! A run of the most tracees by the most workers, in which each tracee has a thousand stops, again and again.
//!
//! The compiled test takes seconds. `rt try --test` runs code slowly and needs minutes for it: give it
//! `--seconds 300`.

use crate::compare::same;
use crate::workers::cases::all;
use crate::workers::threaded::Open;
use std::sync::Wait;
use std::test::Fail;
use std::thread::Threads;
use std::time::Clock;
use trace_script::Case;
use tracer_workers::{Config, run_case};

/// How many calls of getpid(2) each tracee makes. Each stops it twice; with the stop at its start and the one at its
/// exit(2) there are a thousand stops.
const CALLS: u32 = 499;

/// How often the case is run.
const RUNS: u32 = 10;

/// A case of 64 roots.
fn file_of<R: AllocGlobal>(rt: &R) -> Result<String, Fail> {
    let mut file = String::new(rt.alloc());
    for root in 100..164 {
        file.push_str(format!(in rt.alloc(); "tracee {root} {root} 77 0\n")?.as_str())?;
        for _ in 0..CALLS {
            file.push_str("call getpid = 100\n")?;
        }
        file.push_str("exit 0\nend\n")?;
    }
    Ok(file)
}

/// The lines of that case, root by root.
fn text_of<R: AllocGlobal>(rt: &R) -> Result<String, Fail> {
    let mut text = String::new(rt.alloc());
    for root in 100..164 {
        let line = format!(in rt.alloc(); "{root} getpid() = 100\n")?;
        for _ in 0..CALLS {
            text.push_str(line.as_str())?;
        }
        let end = format!(in rt.alloc(); "{root} exit(0) = ?\n{root} +++ exited with 0 +++\n")?;
        text.push_str(end.as_str())?;
    }
    Ok(text)
}

#[test]
fn sixteen_workers_serve_64_tracees_of_a_thousand_stops(rt: HostRuntime) -> Result<(), Fail> {
    let file = file_of(&rt)?;
    let text = text_of(&rt)?;
    let case = Case::read(rt.alloc(), file.as_bytes())?;
    let config = Config {
        workers: 16,
        ..all()
    };
    for run in 0..RUNS {
        let printed = run_case(&rt, rt.alloc(), &case, &config, &Open)?;
        same(
            &rt,
            &(run, printed.as_bytes() == text.as_bytes()),
            &(run, true),
        );
    }
    Ok(())
}
