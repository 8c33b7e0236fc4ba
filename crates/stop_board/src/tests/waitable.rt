//! The rows that a wait may be answered on a board, worked out by hand from waitid(2) and waitpid(2).

use crate::tests::compare::same;
use crate::tests::rows::row;
use crate::{Board, Got, Id, Roster, WaitRequest, waitid_request, waitpid_request};
use std::alloc::Allocator;
use std::test::Fail;
use trace_options::{Errno, WaitFlags};
use trace_record::{Death, Kind, Resume, Stop};

/// What a board answers, and a buffer of three numbers that were 9.
type Asked = (Option<Result<u32, Errno>>, [u32; 3]);

/// Asks a board for the rows that a wait may be answered; None where the wait's arguments are EINVAL.
fn asked<A: Allocator>(board: &Board<A>, request: Option<WaitRequest>) -> Asked {
    let mut to = [9; 3];
    match request {
        None => (None, to),
        Some(request) => {
            let answer = board.waitable(request, &mut to);
            (Some(answer), to)
        }
    }
}

/// A wait for stops alone.
fn stops(id: Id) -> Option<WaitRequest> {
    waitid_request(id, WaitFlags::WSTOPPED)
}

/// A wait for stops and deaths.
fn deaths(id: Id) -> Option<WaitRequest> {
    waitid_request(id, WaitFlags::WEXITED)
}

/// Nobody is to be answered: each selected row is gone.
const GONE: Asked = (Some(Err(Errno::ECHILD)), [9, 9, 9]);

/// There is nothing to report yet.
const NOTHING_YET: Asked = (Some(Ok(0)), [9, 9, 9]);

#[test]
fn stopped_rows_are_waitable_in_the_order_of_the_roster(rt: HostRuntime) -> Result<(), Fail> {
    let rows = [
        row(100, 100, 77, 0),
        row(101, 101, 77, 100),
        row(200, 200, 78, 0),
    ];
    let roster = Roster::new(rt.alloc(), &rows)?;
    let mut board = Board::new(rt.alloc(), &roster)?;
    same(&rt, &asked(&board, stops(Id::All)), &NOTHING_YET);
    same(&rt, &board.publish(2, Stop::Start), &Ok(1));
    same(&rt, &board.publish(0, Stop::Start), &Ok(1));
    for (request, wanted) in [
        (stops(Id::All), (Some(Ok(2)), [0, 2, 9])),
        (deaths(Id::PGid(77)), (Some(Ok(1)), [0, 9, 9])),
        (deaths(Id::Pid(200)), (Some(Ok(1)), [2, 9, 9])),
        (deaths(Id::Pid(101)), GONE),
        (deaths(Id::Pid(999)), GONE),
        (stops(Id::PGid(0)), (None, [9, 9, 9])),
        (
            waitid_request(Id::All, WaitFlags::WNOHANG),
            (None, [9, 9, 9]),
        ),
        (
            waitpid_request(-1, WaitFlags::WNOHANG),
            (Some(Ok(2)), [0, 2, 9]),
        ),
    ] {
        same(&rt, &asked(&board, request), &wanted);
    }
    Ok(())
}

#[test]
fn a_buffer_that_is_too_short_gets_the_first_rows(rt: HostRuntime) -> Result<(), Fail> {
    let roster = Roster::new(rt.alloc(), &[row(100, 100, 77, 0), row(200, 200, 78, 0)])?;
    let mut board = Board::new(rt.alloc(), &roster)?;
    same(&rt, &board.publish(0, Stop::Start), &Ok(1));
    same(&rt, &board.publish(1, Stop::Start), &Ok(1));
    let Some(request) = stops(Id::All) else {
        return Ok(());
    };
    let mut to = [9];
    same(&rt, &board.waitable(request, &mut to), &Ok(2));
    same(&rt, &to, &[0]);
    same(&rt, &board.waitable(request, &mut []), &Ok(2));
    Ok(())
}

#[test]
fn a_death_is_waitable_where_it_is_asked_for(rt: HostRuntime) -> Result<(), Fail> {
    let roster = Roster::new(rt.alloc(), &[row(100, 100, 77, 0), row(101, 101, 77, 100)])?;
    let mut board = Board::new(rt.alloc(), &roster)?;
    let cont = Resume {
        kind: Kind::Cont,
        signal: 0,
    };
    same(&rt, &board.publish(0, Stop::Start), &Ok(1));
    same(&rt, &board.claim(0, 0), &Ok(Got::Stop(1, 0x80057f)));
    same(&rt, &asked(&board, stops(Id::PGid(77))), &NOTHING_YET);
    same(&rt, &board.resume(0, 0, cont), &Ok(()));
    same(&rt, &board.exit(0, Death::Exited(3)), &Ok(()));
    same(&rt, &asked(&board, stops(Id::PGid(77))), &GONE);
    let death = (Some(Ok(1)), [0, 9, 9]);
    same(&rt, &asked(&board, deaths(Id::PGid(77))), &death);
    let any = waitpid_request(-77, WaitFlags::WUNTRACED);
    same(&rt, &asked(&board, any), &death);
    same(&rt, &board.claim(0, 1), &Ok(Got::Ended(1, 0x000300)));
    same(&rt, &asked(&board, any), &GONE);
    Ok(())
}
