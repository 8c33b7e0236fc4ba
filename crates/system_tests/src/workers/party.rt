//! The handles of new cells of a case, with the machines of its rows.

ghost use Rattle.std.specs.Prelude.{◌≡◌, ◌<◌, ◌≤◌, [], IfOk, IfSome, length};
ghost use Rattle.std.specs.Vec.{vec_len};
ghost use Rattle.stop_table.specs.Opening.{AreTracees};
ghost use Rattle.stop_table.specs.Tracer.{held_rows};
ghost use Rattle.trace_options.specs.Options.{AreValidOptions, option_bits};
ghost use Rattle.tracer_workers.specs.Gathering.{IsFreeTracee};
ghost use Rattle.tracer_workers.specs.Plan.{case_plan, opening_of};
ghost use Rattle.tracer_workers.specs.Policy.{plain_policy};
ghost use Rattle.tracer_workers.specs.Threaded.{CanRun};

use std::alloc::Allocator;
use stop_table::{Tracee, Tracer, open};
use trace_options::{Filter, NoMemory, Options, check};
use trace_script::{Case, Machine};

/// A tracee, and the machine of its row before its first stop.
#[derive(Drop)]
pub(crate) struct Scripted<A: Allocator> {
    pub(crate) tracee: Tracee<A>,
    pub(crate) machine: Machine<A>,
}

/// The machine of a row, before its first stop.
fn new_machine<A: Allocator + Copy>(
    alloc: A,
    case: &Case<A>,
    row: u32,
    options: Options,
    filter: &Filter,
) -> Result<Machine<A>, NoMemory>
    requires row { row < length case.now.rows }
    requires options { AreValidOptions (option_bits options) }
    ensures { IfOk result (λ machine. machine ≡ opening_of (case_plan case.now options filter.now plain_policy) row) }
{
    let machine = Machine::new(alloc, case, row, options, filter)?;
    Ok(machine)
}

/// Takes the last tracee off a list, and makes its machine with these options and this filter. The list is that of the
/// first rows' tracees of new cells, before and after. None for an empty list, and where a growth is refused.
pub(crate) fn pop_scripted<A: Allocator + Copy>(
    alloc: A,
    tracees: &mut Vec<Tracee<A>, A>,
    case: &Case<A>,
    options: Options,
    filter: &Filter,
) -> Option<Scripted<A>>
    requires cells { (id : _) × AreTracees id case.now.rows tracees.old.items }
    requires rows { vec_len tracees.old ≤ length case.now.rows }
    requires options { AreValidOptions (option_bits options) }
    ensures cells { (id : _) → AreTracees id case.now.rows tracees.old.items →
        AreTracees id case.now.rows tracees.new.items }
    ensures rows { vec_len tracees.new ≤ length case.now.rows }
    ensures runs { IfSome result (λ s. CanRun s.tracee s.machine) }
    ensures free { (id : _) → AreTracees id case.now.rows tracees.old.items →
        IfSome result (λ s. IsFreeTracee id case.now.rows s.tracee) }
{
    let _rows = case.roster().len();
    let Some(tracee) = tracees.pop() else {
        return None;
    };
    let row = tracees.len() as u32;
    let Ok(machine) = new_machine(alloc, case, row, options, filter) else {
        return None;
    };
    Some(Scripted { tracee, machine })
}

/// The tracee of a case of one row, its machine with these options and this filter, and a tracer; None where no tracer
/// takes the options, and where a growth is refused.
pub(crate) fn new_party<A: Allocator + Copy>(
    alloc: A,
    case: &Case<A>,
    options: Options,
    filter: &Filter,
) -> Option<(Scripted<A>, Tracer<A>)>
    ensures tracee { IfSome result (λ p. CanRun p.0.tracee p.0.machine) }
    ensures tracer { IfSome result (λ p. (case.now.rows ≡ p.1.view.roster) × (held_rows p.1.view ≡ [])) }
    ensures row { IfSome result (λ p. 0 < length p.1.view.roster) }
{
    if case.roster().len() != 1 {
        return None;
    }
    let Ok(()) = check(options) else {
        return None;
    };
    let Ok(mut ends) = open(alloc, case.roster(), 1) else {
        return None;
    };
    let Some(scripted) = pop_scripted(alloc, &mut ends.tracees, case, options, filter) else {
        return None;
    };
    let Some(tracer) = ends.tracers.pop() else {
        return None;
    };
    Some((scripted, tracer))
}
