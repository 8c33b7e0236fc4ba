//! Why rows are no roster, and why a row cannot be added to one.

ghost use Rattle.std.specs.Prelude.{◌≡◌, ◌≤◌, length};
ghost use Rattle.stop_history.specs.Roster.{family_fault, fault_after, has_ids, is_child_of, is_id, parent_in};
ghost use Rattle.stop_history.specs.Roster.{push_fault, roster_fault, with_tid};

use super::families::{is_leader, is_root};
use super::{RosterError, Row};
use crate::limits::{LAST_ID, MOST_ROWS};

/// The first fault of rows that are to be a roster.
pub(super) fn fault_of(rows: &[Row]) -> Option<RosterError>
    ensures { result ≡ roster_fault rows.now }
{
    if rows.len() > MOST_ROWS {
        return Some(RosterError::TooMany);
    }
    for (i, row) in rows.iter().enumerate() {
        let fault = fault_after(&rows[..i], *row);
        if fault.is_some() {
            return fault;
        }
    }
    None
}

/// The fault of a row that comes after others, if it has one. There are at most `MOST_ROWS` others.
pub fn fault_after(before: &[Row], row: Row) -> Option<RosterError>
    requires { length before.now ≤ MOST_ROWS }
    ensures { result ≡ fault_after before.now row }
{
    let at = before.len() as u32;
    if !has_ids(row) {
        return Some(RosterError::Number(at));
    }
    if with_tid(before, row.tid).is_some() {
        return Some(RosterError::Twice(at));
    }
    family_fault(at, row, parent_in(before, row))
}

/// Why a row cannot be added to a roster: its own first fault, or else `TooMany` where the roster is full.
pub(super) fn push_fault(rows: &[Row], row: Row) -> Option<RosterError>
    requires { length rows.now ≤ MOST_ROWS }
    ensures { result ≡ push_fault rows.now row }
{
    let fault = fault_after(rows, row);
    if fault.is_none() && rows.len() >= MOST_ROWS {
        return Some(RosterError::TooMany);
    }
    fault
}

/// The fault of a row beside its parent, if it has one.
fn family_fault(at: u32, row: Row, parent: Option<Row>) -> Option<RosterError>
    ensures { result ≡ family_fault at row parent }
{
    match parent {
        None if !is_root(row) => Some(RosterError::ParentLater(at)),
        None if is_leader(row) => None,
        Some(parent) if is_child_of(parent, row) => None,
        _ => Some(RosterError::GroupMismatch(at)),
    }
}

/// The row's parent among those before it.
fn parent_in(before: &[Row], row: Row) -> Option<Row>
    ensures { result ≡ parent_in before.now row }
{
    if is_root(row) {
        None
    } else {
        with_tid(before, row.parent)
    }
}

/// The first row of a thread id.
fn with_tid(rows: &[Row], tid: u32) -> Option<Row>
    ensures { result ≡ with_tid rows.now tid }
{
    rows.iter().copied().find(|q| q.tid == tid)
}

/// Whether each id is in range.
fn has_ids(row: Row) -> bool
    ensures { result ≡ has_ids row }
{
    is_id(row.tid) && is_id(row.tgid) && is_id(row.pgid) && (is_root(row) || is_id(row.parent))
}

/// Whether a number is an id.
fn is_id(number: u32) -> bool
    ensures { result ≡ is_id number }
{
    1 <= number && number <= LAST_ID
}

/// Whether a row's groups are those that a child of this parent has.
fn is_child_of(parent: Row, row: Row) -> bool
    ensures { result ≡ is_child_of parent row }
{
    (is_leader(row) || row.tgid == parent.tgid) && row.pgid == parent.pgid
}
