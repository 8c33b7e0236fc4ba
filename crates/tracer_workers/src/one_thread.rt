//! The calls of one thread on a World of all tracers, told by the history to which the World has come.

ghost use Rattle.std.specs.Prelude.{◌≡◌, ◌+◌, ◌∷◌, Ok, IsErr, true, false};
ghost use Rattle.stop_history.specs.Event as event;
ghost use Rattle.stop_history.specs.Event.{History};
ghost use Rattle.stop_history.specs.Sequential.{claim_answer, exit_answer, goes_on, publish_answer, resume_answer};
ghost use Rattle.stop_history.specs.State.{last_number, state_after};
ghost use Rattle.stop_history.specs.declared.limits.TheConstants.{TRACERS};
ghost use Rattle.trace_record.specs.Death.{IsDeath};
ghost use Rattle.trace_record.specs.Resume.{IsResume};
ghost use Rattle.trace_record.specs.Stop.{IsStop};
ghost use Rattle.tracer_workers.specs.Scheduled.{CameTo};

use std::alloc::Allocator;
use stop_board::World;
use stop_history::{Got, Refused, State};
use trace_record::{Death, Resume, Stop};

/// The state of a row.
pub(crate) fn state<A: Allocator>(world: &World<A>, row: u32) -> State
    ensures { (h : History) → CameTo world.now h → result ≡ state_after world.now.rows h row }
{
    world.state(row)
}

/// Takes a running row up and publishes its next stop: its number.
pub(crate) fn publish<A: Allocator>(world: &mut World<A>, row: u32, stop: Stop) -> u32
    requires stop { IsStop stop }
    requires answer { (h : History) × CameTo world.old h
        × (publish_answer world.old.rows h row stop ≡ Ok (last_number h row + 1)) }
    ensures number { (h : History) → CameTo world.old h →
        publish_answer world.old.rows h row stop ≡ Ok (last_number h row + 1) → result ≡ last_number h row + 1 }
    ensures stands { (h : History) → CameTo world.old h →
        publish_answer world.old.rows h row stop ≡ Ok (last_number h row + 1) →
        CameTo world.new (event.Publish row (last_number h row + 1) stop ∷ h) }
    ensures rows { world.new.rows ≡ world.old.rows }
{
    let Ok(number) = world.publish(row, stop) else {
        unreachable!()
    };
    number
}

/// Takes a row up and lets it exit, unless another row of its group holds it back; whether it has exited.
pub(crate) fn exit<A: Allocator>(world: &mut World<A>, row: u32, death: Death) -> bool
    requires { IsDeath death }
    ensures ended { (h : History) → CameTo world.old h → result ≡ true →
        (exit_answer world.old.rows h row ≡ Ok tt) × CameTo world.new (event.Exit row death ∷ h) }
    ensures held { (h : History) → CameTo world.old h → result ≡ false →
        IsErr (exit_answer world.old.rows h row) × CameTo world.new h }
    ensures rows { world.new.rows ≡ world.old.rows }
{
    match world.exit(row, death) {
        Ok(()) => true,
        Err(_) => false,
    }
}

/// Looks at a row and claims it for a tracer.
pub(crate) fn claim<A: Allocator>(
    world: &mut World<A>,
    row: u32,
    tracer: u8,
) -> Result<Got, Refused>
    requires { world.old.tracers ≡ TRACERS }
    ensures answer { (h : History) → CameTo world.old h → result ≡ claim_answer world.old.rows h row tracer }
    ensures stands { (h : History) → CameTo world.old h →
        CameTo world.new (goes_on result (event.Claim row (last_number h row) tracer) h) }
    ensures rows { world.new.rows ≡ world.old.rows }
{
    world.claim(row, tracer)
}

/// Resumes a row that the tracer has claimed.
pub(crate) fn resume<A: Allocator>(world: &mut World<A>, row: u32, tracer: u8, how: Resume)
    requires how { IsResume how }
    requires answer { (h : History) × CameTo world.old h × (resume_answer world.old.rows h row tracer ≡ Ok tt) }
    ensures stands { (h : History) → CameTo world.old h → resume_answer world.old.rows h row tracer ≡ Ok tt →
        CameTo world.new (event.Resume row (last_number h row) how tracer ∷ h) }
    ensures rows { world.new.rows ≡ world.old.rows }
{
    let Ok(()) = world.resume(row, tracer, how) else {
        unreachable!()
    };
}
