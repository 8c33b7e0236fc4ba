//! What the rows of a roster are to each other, and rosters that grow row by row.

use crate::tests::compare::same;
use crate::tests::rows::{ROOT, THREAD, family as children, roots, row};
use std::alloc::Allocator;
use std::test::Fail;
use stop_history::{Roster, RosterError, Row, is_leader};

/// A root with two threads, a forked child of the first of them, and another root.
fn family() -> [Row; 5] {
    [
        ROOT,
        THREAD,
        row(102, 102, 77, 101),
        row(200, 200, 78, 0),
        row(103, 100, 77, 100),
    ]
}

#[test]
fn each_row_has_its_parent_its_rank_and_its_leader(rt: HostRuntime) -> Result<(), Fail> {
    let made = Roster::new(rt.alloc(), &family())?;
    let mut grown = Roster::empty(rt.alloc());
    for row in family() {
        grown.push(row)?;
    }
    let copied = Roster::copy(rt.alloc(), &grown)?;
    same(&rt, &copied.rows(), &family().as_slice());
    for (at, parent, place, leads) in [
        (0usize, None, 0usize, true),
        (1, Some(0usize), 0, false),
        (2, Some(1), 0, true),
        (3, None, 1, true),
        (4, Some(0), 1, false),
    ] {
        for roster in [&made, &grown, &copied] {
            if at < roster.rows().len() {
                same(&rt, &(at, roster.parent_place(at)), &(at, parent));
                same(&rt, &(at, roster.rank(at)), &(at, place));
                same(&rt, &(at, is_leader(roster.rows()[at])), &(at, leads));
            }
        }
    }
    Ok(())
}

/// Whether a roster has a row at this place, with this parent and this rank.
fn has_family<A: Allocator>(
    roster: &Roster<A>,
    at: usize,
    parent: Option<usize>,
    rank: usize,
) -> bool {
    at < roster.rows().len() && roster.parent_place(at) == parent && roster.rank(at) == rank
}

#[test]
fn parents_and_ranks_go_up_to_255(rt: HostRuntime) -> Result<(), Fail> {
    // The last of 256 roots has 255 before it.
    let rows = roots(rt.alloc(), 256)?;
    let roster = Roster::new(rt.alloc(), rows.as_slice())?;
    let copied = Roster::copy(rt.alloc(), &roster)?;
    for at in [0usize, 63, 64, 254, 255] {
        same(&rt, &(at, has_family(&roster, at, None, at)), &(at, true));
        same(&rt, &(at, has_family(&copied, at, None, at)), &(at, true));
    }
    // The last of a root's 255 children has 254 before it.
    let rows = children(rt.alloc(), 255)?;
    let roster = Roster::new(rt.alloc(), rows.as_slice())?;
    for (at, rank) in [(1usize, 0usize), (64, 63), (65, 64), (255, 254)] {
        same(
            &rt,
            &(at, has_family(&roster, at, Some(0), rank)),
            &(at, true),
        );
    }
    // The last row may be a child of the one before it.
    let mut rows = roots(rt.alloc(), 255)?;
    rows.push(row(256, 256, 77, 255))?;
    let roster = Roster::new(rt.alloc(), rows.as_slice())?;
    assert!(rt; has_family(&roster, 255, Some(254), 0));
    Ok(())
}

#[test]
fn a_roster_grows_row_by_row(rt: HostRuntime) -> Result<(), Fail> {
    let mut roster = Roster::empty(rt.alloc());
    same(&rt, &roster.len(), &0);
    for row in family() {
        roster.push(row)?;
    }
    same(&rt, &roster.len(), &5);
    same(&rt, &roster.rows(), &family().as_slice());
    Ok(())
}

#[test]
fn a_refused_row_leaves_the_roster_as_it_was(rt: HostRuntime) -> Result<(), Fail> {
    let mut roster = Roster::empty(rt.alloc());
    roster.push(ROOT)?;
    for (row, fault) in [
        (row(0, 100, 77, 100), RosterError::Number(1)),
        (ROOT, RosterError::Twice(1)),
        (row(101, 101, 77, 102), RosterError::ParentLater(1)),
        (row(101, 100, 78, 100), RosterError::GroupMismatch(1)),
    ] {
        same(&rt, &(row, roster.push(row)), &(row, Err(fault)));
        same(&rt, &roster.rows(), &[ROOT].as_slice());
    }
    Ok(())
}

#[test]
fn a_257th_row_has_its_own_fault_first(rt: HostRuntime) -> Result<(), Fail> {
    let mut rows = roots(rt.alloc(), 255)?;
    let mut roster = Roster::new(rt.alloc(), rows.as_slice())?;
    rows.push(row(256, 256, 77, 0))?;
    roster.push(row(256, 256, 77, 0))?;
    same(&rt, &roster.rows(), &rows.as_slice());
    same(
        &rt,
        &roster.push(row(1, 1, 77, 0)),
        &Err(RosterError::Twice(256)),
    );
    same(
        &rt,
        &roster.push(row(257, 257, 77, 0)),
        &Err(RosterError::TooMany),
    );
    same(&rt, &roster.len(), &256);
    // All at once there are too many before any row is looked at.
    rows.push(row(1, 1, 77, 0))?;
    let all = Roster::new(rt.alloc(), rows.as_slice());
    assert!(rt; matches!(all, Err(RosterError::TooMany)));
    Ok(())
}
