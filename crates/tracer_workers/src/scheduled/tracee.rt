//! The tracee of a row, which contracts see as its position in its script.
//!
//! Its machine copies the script, and so is made at the tracee's first turn.

ghost use Rattle.std.specs.Prelude.{◌≡◌, ◌<◌, IfOk, OnOk, Some, length};
ghost use Rattle.trace_script.specs.Machine.{IsAnswer};
ghost use Rattle.trace_script.specs.StopTrace.{context_of, next_element, next_position};
ghost use Rattle.tracer_workers.specs.Config.{plan_of};
ghost use Rattle.tracer_workers.specs.Plan.{opening_of};

use crate::config::Config;
use crate::machine::new_machine;
use std::alloc::{Allocator, Global};
use std::marker::Model;
use trace_options::NoMemory;
use trace_record::{Resume, StopRecord};
use trace_script::{Case, Machine, Next};

/// The tracee of a row of a case.
#[derive(Drop)]
pub(crate) struct ScheduledTracee<'a, A: Allocator = Global> {
    case: &'a Case<A>,
    row: u32,
    config: Config,
    /// None before its first turn.
    machine: Option<Machine<A>>,
}

impl<'a, A: Allocator> Model for ScheduledTracee<'a, A> {
    ghost use Rattle.std.specs.Coded.{codes};
    ghost use Rattle.std.specs.Prelude.{◌<◌, length};
    ghost use Rattle.trace_pages.specs.FlatMemory.{flat_code};
    ghost use Rattle.trace_script.specs.StopTrace.{Position};
    ghost use Rattle.tracer_workers.specs.Config.{plan_of};
    ghost use Rattle.tracer_workers.specs.Plan.{opening_of};
    ghost use Rattle.tracer_workers.specs.Scheduled.{position_of};

    ghost Value = { Position };

    ghost coded = { Prim.hlevel (codes, flat_code) };

    ghost view = { λ t. position_of (opening_of (plan_of t.config t.case.now) t.row) t.machine };

    ghost invariant = { λ t. t.row < length t.case.now.rows };
}

impl<'a, A: Allocator + Copy> ScheduledTracee<'a, A> {
    /// The tracee of a row before its first turn. It takes no memory.
    pub(crate) fn new(case: &'a Case<A>, row: u32, config: &Config) -> ScheduledTracee<'a, A>
        requires { row < length case.now.rows }
        ensures { result ≡ opening_of (plan_of config.now case.now) row }
    {
        ScheduledTracee {
            case,
            row,
            config: *config,
            machine: None,
        }
    }

    /// Runs on, to the next stop or the death. It takes memory at the first turn alone.
    pub(crate) fn next(
        &mut self,
        alloc: A,
        how: Resume,
        held: &mut StopRecord<A>,
    ) -> Result<Next, NoMemory>
        ensures element { IfOk result (λ next.
            IsAnswer (next_element self.old how (context_of held.old)) next held.old held.new) }
        ensures position { IfOk result (λ next. self.new ≡ next_position self.old how (context_of held.old)) }
    {
        if self.machine.is_none() {
            start(alloc, self.case, self.row, &self.config, &mut self.machine)?;
        }
        match &mut self.machine {
            Some(machine) => Ok(machine.next(how, held)),
            None => unreachable!(),
        }
    }
}

/// Puts the machine of a row in, before its first stop. It is not compiled into its caller, which needs it once for each
/// row and else has no use for a machine of its own.
#[inline(never)]
fn start<A: Allocator + Copy>(
    alloc: A,
    case: &Case<A>,
    row: u32,
    config: &Config,
    machine: &mut Option<Machine<A>>,
) -> Result<(), NoMemory>
    requires { row < length case.now.rows }
    ensures { OnOk result (machine.new ≡ Some (opening_of (plan_of config.now case.now) row)) }
{
    *machine = Some(new_machine(alloc, case, row, config)?);
    Ok(())
}
