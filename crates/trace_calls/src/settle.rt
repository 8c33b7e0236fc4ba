//! How what a scan found is answered and kept.

ghost use Rattle.std.specs.Prelude.{◌≡◌, ◌<◌, None, Some, length, slice_get, slice_set};
ghost use Rattle.trace_calls.specs.Answer.{IsStatusOf};
ghost use Rattle.trace_calls.specs.RowStatus.{ReportsDeath};
ghost use Rattle.trace_calls.specs.Settling.{CanSettle, IsReportable, Settles};

use crate::row_status::RowStatus;
use crate::scan::Finding;
use std::alloc::Allocator;
use stop_history::Roster;
use stop_table::Claim;
use trace_options::Errno;
use trace_record::Death;
use trace_record::laws::statuses_are_encoded;
use trace_status::{WaitStatus, decode};

/// Answers what was found, keeps the claim of a stop at the place of its row, and counts the row that is answered.
pub(crate) fn settle<A: Allocator>(
    found: Finding<A>,
    roster: &Roster<A>,
    held: &mut Vec<Option<Claim<A>>, A>,
    counts: &mut Vec<u32, A>,
) -> Result<Option<RowStatus>, Errno>
    requires placed { CanSettle roster.now held.old.items found }
    requires held { length held.old.items ≡ length roster.now }
    requires counts { length counts.old.items ≡ length roster.now }
    ensures { Settles roster.now held.old.items held.new.items counts.old.items counts.new.items found result }
{
    let (row, number, raw, death) = match found {
        Finding::Stop(claim) => {
            let (row, number) = (claim.row(), claim.record().number);
            let raw = claim.record().status();
            put(held, claim);
            (row, number, raw, None)
        }
        Finding::Ended { row, death, number } => (row, number, death.status(), Some(death)),
        Finding::Shows {
            row,
            number,
            status,
        } => (row, number, status, death_in(status)),
        Finding::NothingYet => return Ok(None),
        Finding::NoChild => return Err(Errno::ECHILD),
    };
    counts[row as usize] = number;
    let status = report(roster, row, raw);
    Ok(Some(RowStatus {
        row,
        number,
        status,
        death,
    }))
}

/// The death that a raw status reports, if it reports one.
fn death_in(raw: u32) -> Option<Death>
    ensures { ReportsDeath raw result }
{
    Death::from_status(raw)
}

/// The wait status of a row with this raw status.
fn report<A: Allocator>(roster: &Roster<A>, row: u32, raw: u32) -> WaitStatus
    requires { (row < length roster.now) × IsReportable raw }
    ensures { IsStatusOf roster.now row raw result }
{
    statuses_are_encoded();
    let Some(status) = decode(roster.row(row).tid, raw) else {
        unreachable!()
    };
    status
}

/// Puts a claim at the place of its row, which is free.
fn put<A: Allocator>(held: &mut Vec<Option<Claim<A>>, A>, claim: Claim<A>)
    requires { slice_get held.old.items claim.row ≡ Some None }
    ensures { held.new.items ≡ slice_set held.old.items claim.row (Some claim) }
{
    let row = claim.row() as usize;
    match std::mem::replace(&mut held[row], Some(claim)) {
        None => {}
        Some(_) => unreachable!(),
    }
}
