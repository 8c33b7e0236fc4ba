//! The steps that are tested after the last line of a file: births and execs depend on rows that come later.

ghost use Rattle.std.specs.Option.{ForSome};
ghost use Rattle.std.specs.Prelude.{◌≡◌, ◌<◌, All, Some, length};
ghost use Rattle.stop_history.specs.History.{is_next_child};
ghost use Rattle.trace_script.specs.CaseFile.{fork_fault, is_alone, late_cause, late_fault, thread_fault};
ghost use Rattle.trace_script.specs.CaseFile.{unless};
ghost use Rattle.trace_script.specs.declared.cause.Cause.TheVariants as cause;

use crate::cause::{CaseError, Cause};
use std::alloc::Allocator;
use stop_history::{Roster, is_leader, place_of};

/// What a late step does.
#[derive(Clone, Copy, Debug, PartialEq, Eq)]
pub(crate) enum LateStep {
    /// It creates the process of this thread id.
    Fork(u32),
    /// It creates the thread of this id.
    Thread(u32),
    Exec,
}

/// A step that is tested late.
#[derive(Clone, Copy, Debug, PartialEq, Eq)]
pub(crate) struct Late {
    pub(crate) line: u32,
    /// The place of its row in the roster.
    pub(crate) row: u32,
    /// How many births come before it in its block.
    pub(crate) births: u32,
    pub(crate) step: LateStep,
}

/// The first fault of the late steps, with its line.
pub(crate) fn late_fault<A: Allocator>(roster: &Roster<A>, late: &[Late]) -> Option<CaseError>
    requires { All (λ l. l.row < length roster.now) late.now }
    ensures { result ≡ late_fault roster.now late.now }
{
    for step in late {
        if let Some(cause) = late_cause(roster, *step) {
            return Some(CaseError {
                line: step.line,
                cause,
            });
        }
    }
    None
}

/// Why a late step cannot be.
fn late_cause<A: Allocator>(roster: &Roster<A>, late: Late) -> Option<Cause>
    requires { late.row < length roster.now }
    ensures { result ≡ late_cause roster.now late }
{
    let row = late.row as usize;
    let births = late.births as usize;
    match late.step {
        LateStep::Fork(child) => fork_fault(roster, row, births, place_of(roster.rows(), child)),
        LateStep::Thread(child) => thread_fault(
            roster,
            row,
            births,
            place_of(roster.rows(), child),
        ),
        LateStep::Exec => {
            if is_alone(roster, row) {
                None
            } else {
                Some(Cause::SharedExec)
            }
        }
    }
}

/// Why a fork cannot create the row at a place, as the next child of a parent that has this many.
fn fork_fault<A: Allocator>(
    roster: &Roster<A>,
    parent: usize,
    births: usize,
    child: Option<usize>,
) -> Option<Cause>
    requires parent { parent < length roster.now }
    requires child { ForSome child (λ i. i < length roster.now) }
    ensures { result ≡ fork_fault roster.now parent births child }
{
    let Some(at) = child else {
        return Some(Cause::NoSuchTracee);
    };
    if !is_leader(roster.rows()[at]) {
        return Some(Cause::GroupMismatch);
    }
    order_fault(roster, parent, births, at)
}

/// Why the clone of a thread cannot create the row at a place.
fn thread_fault<A: Allocator>(
    roster: &Roster<A>,
    parent: usize,
    births: usize,
    child: Option<usize>,
) -> Option<Cause>
    requires parent { parent < length roster.now }
    requires child { ForSome child (λ i. i < length roster.now) }
    ensures { result ≡ thread_fault roster.now parent births child }
{
    let Some(at) = child else {
        return Some(Cause::NoSuchTracee);
    };
    if is_leader(roster.rows()[at]) {
        return Some(Cause::GroupMismatch);
    }
    order_fault(roster, parent, births, at)
}

/// The row at a place has to be the next child.
fn order_fault<A: Allocator>(
    roster: &Roster<A>,
    parent: usize,
    births: usize,
    child: usize,
) -> Option<Cause>
    requires parent { parent < length roster.now }
    requires child { child < length roster.now }
    ensures { result ≡ unless (is_next_child roster.now parent births (Some child)) cause.ChildOrder }
{
    if roster.is_next_child(parent, births, Some(child)) {
        None
    } else {
        Some(Cause::ChildOrder)
    }
}

/// Whether a row's thread group has no other row.
fn is_alone<A: Allocator>(roster: &Roster<A>, row: usize) -> bool
    requires { row < length roster.now }
    ensures { result ≡ is_alone roster.now row }
{
    let rows = roster.rows();
    let tgid = rows[row].tgid;
    rows.iter().filter(|q| q.tgid == tgid).count() <= 1
}
