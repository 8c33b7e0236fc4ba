//! The one-thread stop board, on lives worked out by hand from ptrace(2) and waitid(2), up to its greatest sizes.

use crate::tests::compare::same;
use crate::tests::rows::{ROOT, THREAD, family, roots};
use crate::{Board, Got, Refused, Roster, State};
use std::test::Fail;
use trace_record::{Death, Kind, Resume, Stop};

const SYSCALL: Resume = Resume {
    kind: Kind::Syscall,
    signal: 0,
};

const CONT: Resume = Resume {
    kind: Kind::Cont,
    signal: 0,
};

#[test]
fn a_second_claim_gets_nothing(rt: HostRuntime) -> Result<(), Fail> {
    let roster = Roster::new(rt.alloc(), &[ROOT])?;
    let mut board = Board::new(rt.alloc(), &roster)?;
    same(&rt, &board.state(0), &State::Running);
    same(&rt, &board.publish(0, Stop::Start), &Ok(1));
    same(&rt, &board.state(0), &State::Stopped(1, 0x80057f));
    same(&rt, &board.claim(0, 0), &Ok(Got::Stop(1, 0x80057f)));
    same(&rt, &board.claim(0, 1), &Err(Refused::NotWaitable));
    same(&rt, &board.state(0), &State::Claimed(1, 0));
    Ok(())
}

#[test]
fn a_thread_is_created_and_its_leader_exits_last(rt: HostRuntime) -> Result<(), Fail> {
    let roster = Roster::new(rt.alloc(), &[ROOT, THREAD])?;
    let mut board = Board::new(rt.alloc(), &roster)?;
    same(&rt, &board.publish(1, Stop::Start), &Err(Refused::Unborn));
    same(&rt, &board.publish(0, Stop::Start), &Ok(1));
    same(&rt, &board.claim(0, 0), &Ok(Got::Stop(1, 0x80057f)));
    same(&rt, &board.resumable(0, 1), &Err(Refused::NotHolder));
    same(&rt, &board.resume(0, 1, SYSCALL), &Err(Refused::NotHolder));
    same(&rt, &board.resumable(0, 0), &Ok(()));
    same(&rt, &board.resume(0, 0, SYSCALL), &Ok(()));
    same(&rt, &board.resumable(0, 0), &Err(Refused::NotClaimed));
    same(&rt, &board.publish(0, Stop::Clone(101)), &Ok(2));
    same(&rt, &board.state(1), &State::Running);
    same(&rt, &board.claim(0, 0), &Ok(Got::Stop(2, 0x03057f)));
    same(&rt, &board.resume(0, 0, CONT), &Ok(()));
    same(
        &rt,
        &board.publish(0, Stop::Clone(101)),
        &Err(Refused::NotNext),
    );
    same(
        &rt,
        &board.exit(0, Death::Exited(3)),
        &Err(Refused::GroupAlive(1)),
    );
    same(&rt, &board.exit(1, Death::Exited(0)), &Ok(()));
    same(&rt, &board.exit(0, Death::Exited(3)), &Ok(()));
    same(&rt, &board.claim(0, 2), &Ok(Got::Ended(2, 0x000300)));
    same(&rt, &board.state(0), &State::Reaped);
    same(&rt, &board.claim(0, 0), &Err(Refused::NotWaitable));
    Ok(())
}

#[test]
fn what_is_not_there_is_refused_first(rt: HostRuntime) -> Result<(), Fail> {
    let roster = Roster::new(rt.alloc(), &[ROOT, THREAD])?;
    let mut board = Board::new(rt.alloc(), &roster)?;
    same(&rt, &board.state(2), &State::Absent);
    same(&rt, &board.publish(2, Stop::Start), &Err(Refused::NoRow));
    same(&rt, &board.exit(2, Death::Exited(0)), &Err(Refused::NoRow));
    same(&rt, &board.claim(2, 0), &Err(Refused::NoRow));
    same(&rt, &board.claim(1, 16), &Err(Refused::NoRow));
    same(&rt, &board.resume(1, 16, CONT), &Err(Refused::NoRow));
    same(&rt, &board.state(1), &State::Unborn);
    same(&rt, &board.claim(1, 15), &Err(Refused::Unborn));
    same(&rt, &board.resume(1, 15, CONT), &Err(Refused::Unborn));
    same(&rt, &board.exit(1, Death::Exited(0)), &Err(Refused::Unborn));
    same(&rt, &board.resume(0, 0, CONT), &Err(Refused::NotClaimed));
    Ok(())
}

#[test]
fn a_row_that_never_stopped_dies_with_number_0(rt: HostRuntime) -> Result<(), Fail> {
    let roster = Roster::new(rt.alloc(), &[ROOT])?;
    let mut board = Board::new(rt.alloc(), &roster)?;
    let killed = Death::Signaled {
        signal: 11,
        core: true,
    };
    same(&rt, &board.exit(0, killed), &Ok(()));
    same(&rt, &board.state(0), &State::Dead(0, 0x00008b));
    same(&rt, &board.exit(0, killed), &Err(Refused::NotRunning));
    same(
        &rt,
        &board.publish(0, Stop::Start),
        &Err(Refused::NotRunning),
    );
    same(&rt, &board.claim(0, 15), &Ok(Got::Ended(0, 0x00008b)));
    same(&rt, &board.state(0), &State::Reaped);
    Ok(())
}

#[test]
fn a_board_keeps_256_rows(rt: HostRuntime) -> Result<(), Fail> {
    let rows = roots(rt.alloc(), 256)?;
    let roster = Roster::new(rt.alloc(), rows.as_slice())?;
    let mut board = Board::new(rt.alloc(), &roster)?;
    for row in 0..256 {
        same(&rt, &board.publish(row, Stop::Start), &Ok(1));
        same(
            &rt,
            &board.claim(row, row % 16),
            &Ok(Got::Stop(1, 0x80057f)),
        );
    }
    for row in 0..256 {
        same(&rt, &board.state(row), &State::Claimed(1, row % 16));
        same(&rt, &board.resume(row, row % 16, SYSCALL), &Ok(()));
        same(&rt, &board.exit(row, Death::Exited(255)), &Ok(()));
        same(&rt, &board.claim(row, 15), &Ok(Got::Ended(1, 0x00ff00)));
    }
    same(&rt, &board.state(255), &State::Reaped);
    same(&rt, &board.state(256), &State::Absent);
    Ok(())
}

#[test]
fn a_row_creates_255_children(rt: HostRuntime) -> Result<(), Fail> {
    let rows = family(rt.alloc(), 255)?;
    let roster = Roster::new(rt.alloc(), rows.as_slice())?;
    let mut board = Board::new(rt.alloc(), &roster)?;
    for child in 1..256 {
        same(&rt, &board.state(child), &State::Unborn);
        same(&rt, &board.publish(0, Stop::Fork(child + 1)), &Ok(child));
        same(&rt, &board.state(child), &State::Running);
        same(&rt, &board.claim(0, 0), &Ok(Got::Stop(child, 0x01057f)));
        same(&rt, &board.resume(0, 0, CONT), &Ok(()));
    }
    same(
        &rt,
        &board.publish(0, Stop::Fork(256)),
        &Err(Refused::NotNext),
    );
    same(
        &rt,
        &board.publish(0, Stop::Fork(257)),
        &Err(Refused::NotNext),
    );
    same(&rt, &board.publish(0, Stop::Enter), &Ok(256));
    Ok(())
}

#[test]
fn a_row_stops_100000_times(rt: HostRuntime) -> Result<(), Fail> {
    let roster = Roster::new(rt.alloc(), &[ROOT])?;
    let mut board = Board::new(rt.alloc(), &roster)?;
    for number in 1..100_001 {
        same(&rt, &board.publish(0, Stop::Exit), &Ok(number));
        same(&rt, &board.claim(0, 0), &Ok(Got::Stop(number, 0x00857f)));
        same(&rt, &board.resume(0, 0, CONT), &Ok(()));
    }
    same(&rt, &board.exit(0, Death::Exited(0)), &Ok(()));
    same(&rt, &board.state(0), &State::Dead(100_000, 0x000000));
    Ok(())
}

#[test]
fn the_laws_are_there() {
    crate::laws::a_stop_is_claimed_once();
    crate::laws::births_are_counted();
    crate::laws::children_are_born_in_order();
    crate::laws::no_child_is_final();
    crate::laws::older_histories_are_legal();
    crate::laws::rows_are_placed();
    crate::laws::settled_rows_stay_settled();
    stop_history::laws::limits_are_fixed();
    stop_history::laws::widths_are_fixed();
}
