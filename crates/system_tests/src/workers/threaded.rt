//! Runs of cases on threads: their texts, worked out by hand, whatever the workers, the filter, the stops before
//! deaths and the gate are.

use crate::workers::cases::{FORK, FORK_TEXT, MODES, WORKED, all, writes_alone};
use std::sync::Wait;
use std::test::Fail;
use std::thread;
use std::thread::Threads;
use std::time::Clock;
use trace_script::Case;
use tracer_workers::{Config, Gate, run_case};

/// A gate that returns at once.
pub(crate) struct Open;

impl Gate for Open {
    fn between(&self, _worker: u32, _tid: u32, _number: u32) {}
}

/// A gate that holds each call of one worker for some turns of the others.
struct Slow {
    worker: u32,
}

impl Gate for Slow {
    fn between(&self, worker: u32, _tid: u32, _number: u32) {
        if worker == self.worker {
            for _ in 0..50 {
                thread::yield_now();
            }
        }
    }
}

/// How many workers run each case.
const WORKERS: [u32; 3] = [1, 2, 16];

/// Whether a case prints a text on threads, with and without a filter and stops before deaths, by one worker, by two,
/// and by 16.
fn prints<R: Threads + Wait + Clock + AllocGlobal + Sync, G: Gate + Sync>(
    rt: &R,
    file: &str,
    config: &Config,
    gate: &G,
    text: &str,
) -> Result<bool, Fail> {
    let case = Case::read(rt.alloc(), file.as_bytes())?;
    for (seccomp, exits) in MODES {
        for workers in WORKERS {
            let config = Config {
                seccomp,
                exits,
                workers,
                ..*config
            };
            let printed = run_case(rt, rt.alloc(), &case, &config, gate)?;
            if printed.as_bytes() != text.as_bytes() {
                return Ok(false);
            }
        }
    }
    Ok(true)
}

#[test]
fn threads_print_the_worked_case(rt: HostRuntime) -> Result<(), Fail> {
    assert!(rt; prints(&rt, "", &all(), &Open, "")?);
    assert!(rt; prints(&rt, FORK, &all(), &Open, FORK_TEXT)?);
    let alone =
        "100 write(1, \"hi\\n\", 3) = 3\n100 fork() = 101\n100 exit(3) = ?\n100 +++ exited with 3 +++\n";
    let config = Config {
        follow: false,
        ..all()
    };
    assert!(rt; prints(&rt, FORK, &config, &Open, alone)?);
    let short = "100 write(1, \"hi\"..., 3) = 3\n100 fork() = 101\n100 exit(3) = ?\n\
                 100 +++ exited with 3 +++\n101 exit(0) = ?\n101 +++ exited with 0 +++\n";
    let config = Config { limit: 2, ..all() };
    assert!(rt; prints(&rt, FORK, &config, &Open, short)?);
    Ok(())
}

/// Whether threads print each worked case, every call of it and write(2) alone.
fn print_all<R: Threads + Wait + Clock + AllocGlobal + Sync, G: Gate + Sync>(
    rt: &R,
    gate: &G,
) -> Result<bool, Fail> {
    for case in WORKED {
        let prints_all = prints(rt, case.file, &all(), gate, case.text)?;
        let prints_writes = prints(rt, case.file, &writes_alone(), gate, case.writes)?;
        if !prints_all || !prints_writes {
            return Ok(false);
        }
    }
    Ok(true)
}

#[test]
fn threads_print_each_kind_of_case(rt: HostRuntime) -> Result<(), Fail> {
    assert!(rt; print_all(&rt, &Open)?);
    assert!(rt; print_all(&rt, &Slow { worker: 1 })?);
    Ok(())
}
