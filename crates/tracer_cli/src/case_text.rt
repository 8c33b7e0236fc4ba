//! A case file from bytes to text.

ghost use Rattle.std.specs.Prelude.{◌≡◌, ◌≤◌, IfErr, IfOk, None, Ok};
ghost use Rattle.stop_history.specs.declared.limits.TheConstants.{TRACERS};
ghost use Rattle.tracer_cli.specs.CaseText.{HasConfig, IsTextFailure, case_text_of};
ghost use Rattle.tracer_cli.specs.Shown.{IsNamesFailure, unknown_name};

use crate::arguments::RunOptions;
use crate::failure::Failure;
use crate::shown::shown_calls;
use record_printer::Text;
use std::alloc::Global;
use std::sync::Wait;
use std::thread::Threads;
use std::time::Clock;
use trace_script::Case;
use tracer_workers::{Config, Gate, run_case};

/// A gate that returns at once: a worker restarts a tracee as soon as it has claimed its stop.
struct Open;

impl Gate for Open {
    fn between(&self, _worker: u32, _tid: u32, _number: u32) {}
}

/// How a case is traced and printed by the options of a run. An unknown name is a failure.
pub(crate) fn run_config(alloc: Global, options: &RunOptions) -> Result<Config, Failure>
    ensures config { IfOk result (HasConfig options.now) }
    ensures known { IfOk result (λ config. unknown_name options.now.names ≡ None) }
    ensures failure { IfErr result (IsNamesFailure (unknown_name options.now.names)) }
{
    let shown = shown_calls(alloc, options.names)?;
    Ok(Config {
        follow: options.follow,
        seccomp: options.seccomp,
        exits: false,
        workers: options.workers,
        limit: options.limit,
        shown,
    })
}

/// The text of a case file, or why the file is refused. The file's bytes are given back before the case is run, by a
/// thread for each of its tracees and as many workers as the configuration says.
pub(crate) fn case_text<H: AllocGlobal + Threads + Wait + Clock + Sync>(
    rt: &H,
    mut file: Vec<u8>,
    config: &Config,
) -> Result<Text, Failure>
    requires { (1 ≤ config.now.workers) × (config.now.workers ≤ TRACERS) }
    ensures ok { IfOk result (λ text. case_text_of config.now file.items ≡ Ok text) }
    ensures err { IfErr result (IsTextFailure file.items) }
{
    let alloc = rt.alloc();
    let case = Case::read(alloc, file.as_slice())?;
    // It is made small before it is dropped: after a free of a large block, malloc maps no smaller one by itself, and
    // keeps what is freed (mallopt(3), M_MMAP_THRESHOLD).
    file.truncate(1);
    file.shrink_to_fit();
    drop(file);
    Ok(run_case(rt, alloc, &case, config, &Open)?)
}
