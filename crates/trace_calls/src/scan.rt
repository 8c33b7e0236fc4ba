//! The scan of a wait: the selected rows are tried in the order of the roster, so that a parent is tried before its
//! children, until one has a status to report.

ghost use Rattle.std.specs.Prelude.{◌≡◌, ◌<◌, false, length, true};
ghost use Rattle.stop_table.specs.Claiming.{IsTaken};
ghost use Rattle.stop_table.specs.Handle.{IsRowOrParent, LooksOnce, TriesOnce};
ghost use Rattle.stop_table.specs.Tracer.{IsTracerHandle, KeepsHandle};
ghost use Rattle.trace_calls.specs.Scan.{IsFinding, IsTried, IsTurn, is_pending_shown, report_in};
ghost use Rattle.stop_history.specs.Selection.{IsOnly, IsSelected, has_parents};
ghost use Rattle.trace_calls.specs.Waiting.{IsOneTry};

use crate::handle::handle_is_legal;
use std::alloc::Allocator;
use stop_history::{Roster, WaitRequest};
use stop_table::{Claim, Shown, Taken, Tracer};
use trace_record::Death;

/// What came of an attempt at one row.
pub(crate) enum Try<A: Allocator> {
    /// Its stop is claimed.
    Stop(Claim<A>),
    /// Its death is claimed.
    Ended { death: Death, number: u32 },
    /// It has a status, and was left as it is.
    Shows { number: u32, status: u32 },
    /// It has no status for the wait; whether it runs or is claimed.
    Passes { pending: bool },
}

/// What a scan found.
pub(crate) enum Finding<A: Allocator> {
    Stop(Claim<A>),
    Ended { row: u32, death: Death, number: u32 },
    Shows { row: u32, number: u32, status: u32 },
    NothingYet,
    NoChild,
}

/// Tries the selected rows one after the other, each once, and stops at the first that has a status.
pub(crate) fn scan<A: Allocator>(
    tracer: &mut Tracer<A>,
    roster: &Roster<A>,
    request: WaitRequest,
) -> Finding<A>
    requires { roster.now ≡ tracer.old.view.roster }
    ensures handle { KeepsHandle tracer.old tracer.new }
    ensures finding { IsFinding request tracer.old.view tracer.new.view result }
    ensures once { IsOneTry request tracer.old.view tracer.new.view }
{
    handle_is_legal(tracer);
    let mut pending = false;
    for row in 0..roster.len() {
        match turn(tracer, roster, row, request) {
            Try::Stop(claim) => return Finding::Stop(claim),
            Try::Ended { death, number } => return Finding::Ended { row, death, number },
            Try::Shows { number, status } => {
                return Finding::Shows {
                    row,
                    number,
                    status,
                };
            }
            Try::Passes { pending: more } => pending |= more,
        }
    }
    if pending {
        return Finding::NothingYet;
    }
    Finding::NoChild
}

/// Tries the only row that is selected.
pub(crate) fn scan_one<A: Allocator>(
    tracer: &mut Tracer<A>,
    row: u32,
    request: WaitRequest,
) -> Finding<A>
    requires one { IsOnly tracer.old.view.roster request.selection row }
    requires alone { has_parents request.selection ≡ false }
    requires claims { request.keeps ≡ false }
    ensures handle { KeepsHandle tracer.old tracer.new }
    ensures finding { IsFinding request tracer.old.view tracer.new.view result }
    ensures once { TriesOnce tracer.old.view tracer.new.view row }
{
    handle_is_legal(tracer);
    match take(tracer, row, request) {
        Try::Stop(claim) => Finding::Stop(claim),
        Try::Ended { death, number } => Finding::Ended { row, death, number },
        Try::Shows { number, status } => Finding::Shows {
            row,
            number,
            status,
        },
        Try::Passes { pending } => {
            if pending {
                return Finding::NothingYet;
            }
            Finding::NoChild
        }
    }
}

/// Tries a row, if it is selected.
fn turn<A: Allocator>(
    tracer: &mut Tracer<A>,
    roster: &Roster<A>,
    row: u32,
    request: WaitRequest,
) -> Try<A>
    requires { (roster.now ≡ tracer.old.view.roster) × (row < length roster.now) }
    ensures handle { KeepsHandle tracer.old tracer.new }
    ensures turn { IsTurn request tracer.old.view tracer.new.view row result }
    ensures once { TriesOnce tracer.old.view tracer.new.view row }
{
    if !request.selection.has(roster.row(row)) {
        return Try::Passes { pending: false };
    }
    if request.keeps {
        return peek(tracer, row, request);
    }
    take(tracer, row, request)
}

/// Looks at a row (`WNOWAIT`).
fn peek<A: Allocator>(tracer: &mut Tracer<A>, row: u32, request: WaitRequest) -> Try<A>
    requires { (row < length tracer.old.view.roster) × (request.keeps ≡ true) }
    ensures handle { KeepsHandle tracer.old tracer.new }
    ensures tried { IsTried request tracer.old.view tracer.new.view row result }
    ensures once { LooksOnce (IsRowOrParent tracer.old.view.roster row) tracer.old.view tracer.new.view }
{
    let shown = tracer.look(row);
    match report_in(shown, request.deaths) {
        Some((number, status)) => Try::Shows { number, status },
        None => Try::Passes {
            pending: is_pending(shown),
        },
    }
}

/// Claims a row's stop, or its death where deaths are asked for.
fn take<A: Allocator>(tracer: &mut Tracer<A>, row: u32, request: WaitRequest) -> Try<A>
    requires { (row < length tracer.old.view.roster) × (request.keeps ≡ false) }
    ensures handle { KeepsHandle tracer.old tracer.new }
    ensures tried { IsTried request tracer.old.view tracer.new.view row result }
    ensures once { TriesOnce tracer.old.view tracer.new.view row }
{
    match claim(tracer, row, request.deaths) {
        Taken::Stop(claim) => Try::Stop(claim),
        Taken::Ended { death, number } => Try::Ended { death, number },
        Taken::Nothing(shown) => Try::Passes {
            pending: is_pending(shown),
        },
    }
}

/// The claim that goes with what is asked for. A wait without `WEXITED` leaves a death to others, also where the row
/// dies between a look and the claim.
fn claim<A: Allocator>(tracer: &mut Tracer<A>, row: u32, deaths: bool) -> Taken<A>
    requires { row < length tracer.old.view.roster }
    ensures handle { KeepsHandle tracer.old tracer.new }
    ensures taken { IsTaken deaths tracer.old.view tracer.new.view row result }
    ensures once { TriesOnce tracer.old.view tracer.new.view row }
{
    if deaths {
        return tracer.claim(row);
    }
    tracer.claim_stop(row)
}

/// The number and the raw status that are shown, if they are waitable for the wait.
fn report_in(shown: Shown, deaths: bool) -> Option<(u32, u32)>
    ensures { result ≡ report_in deaths shown }
{
    match shown {
        Shown::Stopped { number, status } => Some((number, status)),
        Shown::Dead { number, status } => { if deaths { Some((number, status)) } else { None } }
        Shown::Unborn | Shown::Running | Shown::Claimed { .. } | Shown::Reaped => None,
    }
}

/// Whether what is shown may have a status later.
fn is_pending(shown: Shown) -> bool
    ensures { result ≡ is_pending_shown shown }
{
    match shown {
        Shown::Running | Shown::Claimed { .. } => true,
        Shown::Unborn | Shown::Stopped { .. } | Shown::Dead { .. } | Shown::Reaped => false,
    }
}
