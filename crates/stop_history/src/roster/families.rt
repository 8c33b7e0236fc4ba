//! What the rows of a roster are to each other: a row's parent, its rank among its parent's rows, its group's leader.

ghost use Rattle.std.specs.Prelude.{◌≡◌, ◌<◌, ◌≤◌, IfSome, length};
ghost use Rattle.stop_history.specs.declared.limits.TheConstants.{MOST_ROWS};
ghost use Rattle.stop_history.specs.Roster.{HasFamilies, family_of, is_leader, is_root, parent_of, rank_of, row_of};

use super::Row;
use crate::limits::MOST_ROWS;

/// What a row is to the rows before it.
#[derive(Clone, Copy)]
pub(super) struct Family {
    /// The place of its parent; a root has none.
    pub(super) parent: Option<u8>,
    /// How many rows before it have the same parent.
    pub(super) rank: u8,
}

/// The families of no rows.
pub(super) const NO_FAMILIES: [Family; MOST_ROWS] = [Family {
    parent: None,
    rank: 0,
}; MOST_ROWS];

/// Whether a row has no parent.
pub(super) fn is_root(row: Row) -> bool
    ensures { result ≡ is_root row }
{
    row.parent == 0
}

/// Whether a row leads its thread group.
pub fn is_leader(row: Row) -> bool
    ensures { result ≡ is_leader row }
{
    row.tgid == row.tid
}

/// The place of the first row of a thread id, in rows that may not be a roster yet.
pub fn place_of(rows: &[Row], tid: u32) -> Option<usize>
    ensures place { result ≡ row_of rows.now tid }
    ensures within { IfSome result (λ i. i < length rows.now) }
{
    rows.iter().position(|q| q.tid == tid)
}

/// What each of these rows is to the others.
pub(super) fn families_of(rows: &[Row]) -> [Family; MOST_ROWS]
    requires { length rows.now ≤ MOST_ROWS }
    ensures { HasFamilies rows.now result }
{
    let mut families = NO_FAMILIES;
    for at in 0..rows.len() {
        families[at] = family_of(rows, at);
    }
    families
}

/// What a row is to the rows before it.
pub(super) fn family_of(rows: &[Row], at: usize) -> Family
    requires few { length rows.now ≤ MOST_ROWS }
    requires row { at < length rows.now }
    ensures { result ≡ family_of rows.now at }
{
    Family {
        parent: parent_of(rows, at),
        rank: rank_of(rows, at) as u8,
    }
}

/// The place of a row's parent.
fn parent_of(rows: &[Row], at: usize) -> Option<u8>
    requires few { length rows.now ≤ MOST_ROWS }
    requires row { at < length rows.now }
    ensures { result ≡ parent_of rows.now at }
{
    let row = rows[at];
    if is_root(row) {
        return None;
    }
    Some(place_of(rows, row.parent)? as u8)
}

/// A row's place among the rows of its parent.
fn rank_of(rows: &[Row], at: usize) -> usize
    requires row { at < length rows.now }
    ensures rank { result ≡ rank_of rows.now at }
    ensures few { result ≤ at }
{
    let parent = rows[at].parent;
    rows[..at].iter().filter(|q| q.parent == parent).count()
}
