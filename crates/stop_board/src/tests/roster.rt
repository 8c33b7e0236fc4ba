//! Rosters that are accepted, and each fault at its place.

use crate::tests::compare::{holds, same};
use crate::tests::rows::{ROOT, THREAD, roots, row};
use crate::{Roster, RosterError, fault_after, place_of};
use std::test::Fail;

#[test]
fn a_roster_gives_its_rows_back(rt: HostRuntime) -> Result<(), Fail> {
    let roster = Roster::new(rt.alloc(), &[ROOT, THREAD, row(4194303, 4194303, 77, 101)])?;
    same(&rt, &roster.len(), &3);
    same(&rt, &roster.rows().len(), &3);
    same(&rt, &roster.row_of(101), &Some(1));
    same(&rt, &roster.row_of(4194303), &Some(2));
    same(&rt, &roster.row_of(77), &None);
    same(&rt, &roster.row_of(0), &None);
    same(&rt, &roster.rows().first().copied(), &Some(ROOT));
    Ok(())
}

#[test]
fn a_row_is_read_at_its_place(rt: HostRuntime) -> Result<(), Fail> {
    let roster = Roster::new(rt.alloc(), &[ROOT, THREAD])?;
    if 1 < roster.len() {
        same(&rt, &roster.row(0), &ROOT);
        same(&rt, &roster.row(1), &THREAD);
        return Ok(());
    }
    holds(&rt, false, "there are two rows");
    Ok(())
}

#[test]
fn each_fault_is_reported_at_its_place(rt: HostRuntime) {
    for (second, fault) in [
        (row(0, 100, 77, 100), RosterError::Number(1)),
        (row(4194304, 100, 77, 100), RosterError::Number(1)),
        (row(101, 0, 77, 100), RosterError::Number(1)),
        (row(101, 100, 0, 100), RosterError::Number(1)),
        (row(101, 100, 77, 4194304), RosterError::Number(1)),
        (row(100, 100, 77, 100), RosterError::Twice(1)),
        (row(101, 101, 77, 102), RosterError::ParentLater(1)),
        (row(101, 101, 77, 101), RosterError::ParentLater(1)),
        (row(101, 100, 77, 0), RosterError::GroupMismatch(1)),
        (row(101, 102, 77, 100), RosterError::GroupMismatch(1)),
        (row(101, 101, 78, 100), RosterError::GroupMismatch(1)),
        // Two faults at once: the first in the order above.
        (row(100, 0, 77, 102), RosterError::Number(1)),
        (row(100, 102, 78, 102), RosterError::Twice(1)),
        (row(101, 102, 78, 103), RosterError::ParentLater(1)),
    ] {
        match Roster::new(rt.alloc(), &[ROOT, second]) {
            Ok(_) => same(&rt, &None, &Some((second, fault))),
            Err(told) => same(&rt, &(second, told), &(second, fault)),
        }
    }
}

#[test]
fn the_first_row_with_a_fault_is_reported(rt: HostRuntime) {
    let told = Roster::new(rt.alloc(), &[ROOT, ROOT, row(0, 0, 0, 0)]);
    assert!(rt; matches!(told, Err(RosterError::Twice(1))));
    let told = Roster::new(rt.alloc(), &[row(101, 101, 77, 100), ROOT]);
    assert!(rt; matches!(told, Err(RosterError::ParentLater(0))));
}

#[test]
fn no_more_than_256_rows_are_accepted(rt: HostRuntime) -> Result<(), Fail> {
    for (count, last, next) in [(255, 254, 256), (256, 255, 257)] {
        let rows = roots(rt.alloc(), count)?;
        let roster = Roster::new(rt.alloc(), rows.as_slice())?;
        same(&rt, &roster.len(), &count);
        same(&rt, &roster.row_of(count), &Some(last));
        same(&rt, &roster.row_of(next), &None);
    }
    let rows = roots(rt.alloc(), 257)?;
    assert!(rt;
        matches!(
            Roster::new(rt.alloc(), rows.as_slice()),
            Err(RosterError::TooMany)
        )
    );
    Ok(())
}

#[test]
fn one_more_row_is_tested_behind_others(rt: HostRuntime) {
    let rows = [ROOT, THREAD];
    same(&rt, &fault_after(&rows, row(102, 100, 77, 101)), &None);
    same(
        &rt,
        &fault_after(&rows, row(101, 101, 77, 100)),
        &Some(RosterError::Twice(2)),
    );
    same(
        &rt,
        &fault_after(&[], row(101, 101, 77, 100)),
        &Some(RosterError::ParentLater(0)),
    );
    same(&rt, &place_of(&rows, 101), &Some(1));
    same(&rt, &place_of(&rows, 102), &None);
}
