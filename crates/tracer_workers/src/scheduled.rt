//! Runs a case on a schedule, on one thread.
//!
//! An entry of the schedule is an actor: a row's tracee, or a worker after the tracees. A tracee's turn is its run from
//! a restart to the next stop or the death; a worker's turn is a wait and the restart.

ghost use Rattle.tracer_workers.specs.declared.run_error.RunError.TheVariants as run_error;
ghost use Rattle.std.specs.Prelude.{◌≡◌, ◌≤◌, IfOk, IsOkUnless};
ghost use Rattle.stop_history.specs.declared.limits.TheConstants.{TRACERS};
ghost use Rattle.tracer_workers.specs.Config.{plain, text_of};

mod events;
mod rounds;
mod run;
mod traced_row;
mod tracee;
mod turns;

use crate::config::Config;
use crate::laws::the_mode_changes_no_text;
use crate::run_error::RunError;
use crate::scheduled::run::Run;
use record_printer::Text;
use std::alloc::Allocator;
use trace_script::Case;

/// Runs a case on one thread and prints it, first by the turns of a schedule, then by rounds of turns until each row has
/// been reaped or will never be born. The text does not depend on the schedule, the number of workers, the filter or
/// the stops before deaths.
/// `NoMemory` where a growth is refused; no other error comes.
pub fn run_scheduled<A: Allocator + Copy>(
    alloc: A,
    case: &Case<A>,
    config: &Config,
    schedule: &[u32],
) -> Result<Text<A>, RunError>
    requires { (1 ≤ config.now.workers) × (config.now.workers ≤ TRACERS) }
    ensures text { IfOk result (λ text. text ≡ text_of (plain config.now) case.now) }
    ensures accepted { IsOkUnless result run_error.NoMemory }
{
    the_mode_changes_no_text();
    let mut run = Run::new(alloc, case, config)?;
    for actor in schedule {
        run.turn(*actor)?;
    }
    run.rounds()?;
    Ok(run.finish()?)
}
