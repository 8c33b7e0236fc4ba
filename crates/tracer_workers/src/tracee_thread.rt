//! A tracee's thread.

ghost use Rattle.std.specs.Prelude.{◌≡◌, IfNone, IfSome, false, true, [], List};
ghost use Rattle.stop_history.specs.Event as event;
ghost use Rattle.stop_table.specs.declared.start.Start.TheVariants as start;
ghost use Rattle.stop_table.specs.Entry.{bare};
ghost use Rattle.stop_table.specs.Handle.{EndsWith, Grows};
ghost use Rattle.stop_table.specs.Start.{IsFinal};
ghost use Rattle.stop_table.specs.Tracee.{IsTraceeHandle};
ghost use Rattle.stop_table.specs.View.{actors_of};
ghost use Rattle.trace_record.specs.Death.{IsDeath};
ghost use Rattle.tracer_workers.specs.DrivenBy.{AreDrivenBy};
ghost use Rattle.tracer_workers.specs.Plan.{Plan};
ghost use Rattle.tracer_workers.specs.TraceeThread.{HasLooked, HasTaken, IsDue, IsOnScript, IsSameTracee, IsThrough};
ghost use Rattle.tracer_workers.specs.TraceeThread.{IsToStart};

use crate::fault::FAULT_DEATH;
use crate::invariants;
use std::alloc::Allocator;
use std::sync::Wait;
use std::time::Clock;
use stop_table::{GroupAlive, Start, Tracee};
use trace_calls::Patience;
use trace_record::{Death, Resume, StopRecord};
use trace_script::{Machine, Next};

/// Runs a tracee's row from its birth to its death: each stop that it publishes is the next one of its script for the
/// restart and the content that it took up, and it dies as its script says, or by SIGSEGV where a store of the script
/// faults. It returns when the row has ended, or when the row can be born no more; then it has made no event. It waits
/// for its row's birth, for each restart, and, where the row leads a thread group, for the others of the group.
///
/// The tracee has made no event, and the machine is new, of the tracee's row and of a case with the rows of the tracee's
/// table, whatever its options and its filter are.
pub fn run_tracee<A: Allocator, R: Wait + Clock>(
    rt: &R,
    tracee: &mut Tracee<A>,
    machine: Machine<A>,
)
    requires idle { tracee.old.view.taken ≡ false }
    requires new { (plan : Plan) × IsToStart plan tracee.old machine }
    ensures handle { IsSameTracee tracee.old tracee.new × (tracee.new.view.taken ≡ false) }
    ensures driven { (plan : Plan) → IsToStart plan tracee.old machine →
        AreDrivenBy (actors_of tracee.new.view) plan tracee.new.view.seen }
    ensures through { IsThrough tracee.new }
{
    invariants::of_tracee(tracee);
    if !await_birth(rt, tracee) {
        return;
    }
    run_row(rt, tracee, machine);
}

/// Waits for the row's birth; false where it is never born. A row may be born late or never, so its thread sleeps between
/// two looks: with all rows but a few unborn, looks without sleep would have the processors.
fn await_birth<A: Allocator, R: Wait + Clock>(rt: &R, tracee: &mut Tracee<A>) -> bool
    requires { IsTraceeHandle tracee.old }
    ensures handle { HasLooked tracee.old tracee.new }
    ensures never { result ≡ false → IsFinal tracee.old.view.roster tracee.new.view.seen tracee.old.row start.Never }
{
    let mut patience = Patience::with_looks(1);
    for _ in rt.forever() {
        match tracee.start() {
            Start::Born => return true,
            Start::Never => return false,
            Start::NotYet => patience.wait(rt),
        }
    }
    unreachable!()
}

/// Runs a born row to its death.
fn run_row<A: Allocator, R: Wait + Clock>(rt: &R, tracee: &mut Tracee<A>, mut machine: Machine<A>)
    requires handle { IsTraceeHandle tracee.old × (tracee.old.view.taken ≡ false) }
    requires script { (plan : Plan) × IsOnScript plan tracee.old machine }
    ensures handle { IsSameTracee tracee.old tracee.new × (tracee.new.view.taken ≡ false) }
    ensures driven { (plan : Plan) → IsOnScript plan tracee.old machine →
        AreDrivenBy (actors_of tracee.new.view) plan tracee.new.view.seen }
    ensures through { IsThrough tracee.new }
{
    for _ in rt.forever() {
        let (how, stop) = await_restart(rt, tracee);
        if let Some((held, death)) = run_on(tracee, &mut machine, how, stop) {
            end_row(rt, tracee, held, death);
            return;
        }
    }
    unreachable!()
}

/// Waits until the row is to run, and takes it up: with its restart, and the record of its last stop.
fn await_restart<A: Allocator, R: Wait + Clock>(
    rt: &R,
    tracee: &mut Tracee<A>,
) -> (Resume, StopRecord<A>)
    requires { IsTraceeHandle tracee.old × (tracee.old.view.taken ≡ false) }
    ensures handle { (tracee.new.table_id ≡ tracee.old.table_id) × (tracee.new.row ≡ tracee.old.row)
        × Grows tracee.old.view tracee.new.view }
    ensures taken { HasTaken tracee.new result.0 result.1 }
{
    let mut patience = Patience::new();
    for _ in rt.forever() {
        if let Some(taken) = tracee.take_up() {
            return taken;
        }
        patience.wait(rt);
    }
    unreachable!()
}

/// Runs the row on to its next stop, which it publishes, or to its death, which it returns with the row's record.
fn run_on<A: Allocator>(
    tracee: &mut Tracee<A>,
    machine: &mut Machine<A>,
    how: Resume,
    stop: StopRecord<A>,
) -> Option<(StopRecord<A>, Death)>
    requires handle { IsTraceeHandle tracee.old }
    requires taken { HasTaken tracee.old how stop }
    requires script { (plan : Plan) × IsOnScript plan tracee.old machine.old }
    ensures handle { IsSameTracee tracee.old tracee.new }
    ensures none { IfNone result (IsTraceeHandle tracee.new × (tracee.new.view.taken ≡ false)
        × ((plan : Plan) → IsOnScript plan tracee.old machine.old → IsOnScript plan tracee.new machine.new)) }
    ensures some { IfSome result (λ r. (tracee.new ≡ tracee.old) × IsDeath r.1
        × ((plan : Plan) → IsOnScript plan tracee.old machine.old → IsDue plan tracee.old r.1)) }
{
    let mut held = stop;
    match machine.next(how, &mut held) {
        Next::Stop => {
            tracee.publish(held);
            None
        }
        Next::Death(death) => Some((held, death)),
        Next::Fault(_) => Some((held, FAULT_DEATH)),
    }
}

/// Ends the row, once no other row of its thread group is alive where it leads one.
fn end_row<A: Allocator, R: Wait + Clock>(
    rt: &R,
    tracee: &mut Tracee<A>,
    stop: StopRecord<A>,
    death: Death,
)
    requires handle { IsTraceeHandle tracee.old × (tracee.old.view.taken ≡ true) }
    requires death { IsDeath death }
    ensures handle { (tracee.new.table_id ≡ tracee.old.table_id) × (tracee.new.row ≡ tracee.old.row)
        × (tracee.new.view.taken ≡ false) }
    ensures made { (before : _) × EndsWith tracee.old.view tracee.new.view before (bare (event.Exit tracee.old.row death)) }
{
    let mut patience = Patience::new();
    let mut held = stop;
    for _ in rt.forever() {
        match tracee.exit(held, death) {
            Ok(()) => return,
            Err(GroupAlive { row: _, content }) => held = content,
        }
        patience.wait(rt);
    }
    unreachable!()
}
