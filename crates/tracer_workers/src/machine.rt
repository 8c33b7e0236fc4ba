//! The machine of a row under a configuration.

ghost use Rattle.std.specs.Prelude.{◌≡◌, ◌<◌, IfOk, length};
ghost use Rattle.tracer_workers.specs.Config.{plan_of};
ghost use Rattle.tracer_workers.specs.Plan.{opening_of};

use crate::config::Config;
use std::alloc::Allocator;
use trace_options::NoMemory;
use trace_script::{Case, Machine};

/// The machine of a row of a case, before its first stop.
pub(crate) fn new_machine<A: Allocator + Copy>(
    alloc: A,
    case: &Case<A>,
    row: u32,
    config: &Config,
) -> Result<Machine<A>, NoMemory>
    requires { row < length case.now.rows }
    ensures { IfOk result (λ machine. machine ≡ opening_of (plan_of config.now case.now) row) }
{
    let (options, filter) = (config.options(), config.filter());
    let machine = Machine::new(alloc, case, row, options, &filter)?;
    Ok(machine)
}
