//! Each growth of a roster and of a board refused in turn, over the rows of two replays that were worked out by hand.

use crate::tests::compare::same;
use crate::tests::rows::{ROOT, THREAD, roots};
use crate::{Board, Got, NoMemory, Refused, Roster, RosterError, Row, State};
use refusing_allocator::RefusingAllocator;
use std::alloc::Allocator;
use std::test::Fail;
use trace_record::Stop;

/// A root, and a root with a thread.
const REPLAYED: [&[Row]; 2] = [&[ROOT], &[ROOT, THREAD]];

/// More than any call here has growths.
const MOST: u64 = 20;

#[test]
fn a_roster_wants_memory_once(rt: HostRuntime) {
    for rows in REPLAYED {
        let mut refusals = 0u32;
        for granted in 0..MOST {
            let heap = RefusingAllocator::new(rt.alloc(), granted);
            match Roster::new(&heap, rows) {
                Ok(roster) => {
                    same(&rt, &roster.rows(), &rows);
                    assert!(rt; !heap.has_refused());
                    break;
                }
                Err(fault) => {
                    same(&rt, &fault, &RosterError::NoMemory);
                    assert!(rt; heap.has_refused());
                    refusals = refusals.wrapping_add(1);
                }
            }
        }
        same(&rt, &refusals, &1);
    }
}

#[test]
fn a_fault_of_the_rows_is_found_before_a_growth(rt: HostRuntime) -> Result<(), Fail> {
    let many = roots(rt.alloc(), 257)?;
    for (rows, fault) in [
        ([ROOT, ROOT].as_slice(), RosterError::Twice(1)),
        (&[THREAD], RosterError::ParentLater(0)),
        (many.as_slice(), RosterError::TooMany),
    ] {
        let heap = RefusingAllocator::new(rt.alloc(), 0);
        match Roster::new(&heap, rows) {
            Ok(_) => same(&rt, &None, &Some(fault)),
            Err(found) => same(&rt, &found, &fault),
        }
        assert!(rt; !heap.has_refused());
    }
    Ok(())
}

/// Whether the first stop of a new board's root is claimed by the first of two tracers alone.
fn is_claimed_once<A: Allocator + Copy, B: Allocator>(
    alloc: A,
    roster: &Roster<B>,
) -> Result<bool, NoMemory> {
    let mut board = Board::new(alloc, roster)?;
    Ok(
        board.publish(0, Stop::Start) == Ok(1)
            && board.claim(0, 0) == Ok(Got::Stop(1, 0x80057f))
            && board.claim(0, 1) == Err(Refused::NotWaitable)
            && board.state(0) == State::Claimed(1, 0),
    )
}

#[test]
fn a_board_wants_memory_twice(rt: HostRuntime) -> Result<(), Fail> {
    for rows in REPLAYED {
        let roster = Roster::new(rt.alloc(), rows)?;
        let mut refusals = 0u32;
        for granted in 0..MOST {
            let heap = RefusingAllocator::new(rt.alloc(), granted);
            match is_claimed_once(&heap, &roster) {
                Ok(is_right) => {
                    assert!(rt; is_right && !heap.has_refused());
                    break;
                }
                Err(NoMemory) => {
                    assert!(rt; heap.has_refused());
                    refusals = refusals.wrapping_add(1);
                }
            }
        }
        same(&rt, &refusals, &2);
    }
    Ok(())
}
