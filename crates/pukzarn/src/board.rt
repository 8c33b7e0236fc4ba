//! The calls on a board of one thread.

ghost use Rattle.std.specs.Prelude.{◌≡◌, Ok, map};
ghost use Rattle.stop_board.specs.Board.{StandsAfter};
ghost use Rattle.stop_history.specs.Event.{History};
ghost use Rattle.stop_history.specs.State.{state_after};
ghost use Rattle.c_interface.specs.Board.{IsClaimFor, IsExitFor, IsPublishFor, IsResumeFor, IsWaitableFor};
ghost use Rattle.c_interface.specs.Opening.{row_of_ids};
ghost use Rattle.c_interface.specs.State.{state_in_numbers};
ghost use Rattle.pukzarn.specs.Call.{HoldsNo, IsCallOn, IsClose, IsInt, IsStatus, IsStatusInto};
ghost use Rattle.pukzarn.specs.Opening.{IsBoardOpening};
ghost use Rattle.pukzarn.specs.declared.handle_value.HandleValue.TheVariants as ends;

use crate::call::{negative, number_of, status, told};
use crate::handle::Handle;
use crate::handle_value::HandleValue;
use crate::opening::open_fault;
use c_interface::{
    CGot, CRestart, CRow, CState, CStop, Error, board_claim, board_exit, board_publish,
    board_resume, board_state, board_waitable, roster_of,
};
use std::alloc::Global;
use stop_board::Board;

/// Closes a board. EBADF: the handle holds none, as for each call below.
#[unsafe(no_mangle)]
pub extern "C" fn pukzarn_board_close(alloc: Global, handle: &mut Handle) -> i32
    ensures { IsClose ends.Board handle.old handle.new result }
{
    let Some(end) = handle.take(alloc) else {
        return negative(Error::EBADF);
    };
    if let HandleValue::Board(_) = &*end {
        return 0;
    }
    handle.fill(end);
    negative(Error::EBADF)
}

/// Writes the state of a row, `ABSENT` out of range: `board_state`.
#[unsafe(no_mangle)]
pub extern "C" fn pukzarn_board_state(
    alloc: Global,
    handle: &mut Handle,
    row: u32,
    state: &mut CState,
) -> i32
    ensures { IsCallOn ends.Board handle.old handle.new (IsStatusInto result state.old state.new)
        (λ a b done. (b ≡ a) × (done ≡ Ok state.new)
        × ((h : History) → StandsAfter a h → state.new ≡ state_in_numbers (state_after a.rows h row))) }
{
    let Some(mut end) = handle.take(alloc) else {
        return negative(Error::EBADF);
    };
    let answer = match &mut *end {
        HandleValue::Board(board) => {
            *state = board_state(board, row);
            0
        },
        _ => negative(Error::EBADF),
    };
    handle.fill(end);
    answer
}

/// Publishes a running row's next stop, and writes its number: `board_publish`.
#[unsafe(no_mangle)]
pub extern "C" fn pukzarn_board_publish(
    alloc: Global,
    handle: &mut Handle,
    row: u32,
    stop: &CStop,
    number: &mut u32,
) -> i32
    ensures { IsCallOn ends.Board handle.old handle.new (IsStatusInto result number.old number.new)
        (λ a b. IsPublishFor a b row stop.now) }
{
    let Some(mut end) = handle.take(alloc) else {
        return negative(Error::EBADF);
    };
    let answer = match &mut *end {
        HandleValue::Board(board) => told(board_publish(board, row, *stop), number),
        _ => negative(Error::EBADF),
    };
    handle.fill(end);
    answer
}

/// Claims a row's stop, or its death, for a tracer: `board_claim`.
#[unsafe(no_mangle)]
pub extern "C" fn pukzarn_board_claim(
    alloc: Global,
    handle: &mut Handle,
    row: u32,
    tracer: u32,
    got: &mut CGot,
) -> i32
    ensures { IsCallOn ends.Board handle.old handle.new (IsStatusInto result got.old got.new)
        (λ a b. IsClaimFor a b row tracer) }
{
    let Some(mut end) = handle.take(alloc) else {
        return negative(Error::EBADF);
    };
    let answer = match &mut *end {
        HandleValue::Board(board) => told(board_claim(board, row, tracer), got),
        _ => negative(Error::EBADF),
    };
    handle.fill(end);
    answer
}

/// Resumes a row that the tracer has claimed: `board_resume`.
#[unsafe(no_mangle)]
pub extern "C" fn pukzarn_board_resume(
    alloc: Global,
    handle: &mut Handle,
    row: u32,
    tracer: u32,
    how: &CRestart,
) -> i32
    ensures { IsCallOn ends.Board handle.old handle.new (IsStatus result)
        (λ a b. IsResumeFor a b row tracer how.now) }
{
    let Some(mut end) = handle.take(alloc) else {
        return negative(Error::EBADF);
    };
    let answer = match &mut *end {
        HandleValue::Board(board) => status(board_resume(board, row, tracer, *how)),
        _ => negative(Error::EBADF),
    };
    handle.fill(end);
    answer
}

/// Lets a running row exit, with the raw wait status of its death: `board_exit`.
#[unsafe(no_mangle)]
pub extern "C" fn pukzarn_board_exit(alloc: Global, handle: &mut Handle, row: u32, raw: u32) -> i32
    ensures { IsCallOn ends.Board handle.old handle.new (IsStatus result)
        (λ a b. IsExitFor a b row raw) }
{
    let Some(mut end) = handle.take(alloc) else {
        return negative(Error::EBADF);
    };
    let answer = match &mut *end {
        HandleValue::Board(board) => status(board_exit(board, row, raw)),
        _ => negative(Error::EBADF),
    };
    handle.fill(end);
    answer
}

/// Writes the rows that a wait may be answered now, and answers how many they are: `board_waitable`.
#[unsafe(no_mangle)]
pub extern "C" fn pukzarn_board_waitable(
    alloc: Global,
    handle: &mut Handle,
    idtype: u32,
    id: i32,
    options: u32,
    rows: &mut [u32],
) -> i32
    ensures none { HoldsNo ends.Board handle.old → rows.new ≡ rows.old }
    ensures call { IsCallOn ends.Board handle.old handle.new (IsInt result)
        (λ a b done. (b ≡ a) × IsWaitableFor idtype id options a rows.old rows.new done) }
{
    let Some(mut end) = handle.take(alloc) else {
        return negative(Error::EBADF);
    };
    let answer = match &mut *end {
        HandleValue::Board(board) => number_of(board_waitable(board, idtype, id, options, rows)),
        _ => negative(Error::EBADF),
    };
    handle.fill(end);
    answer
}

/// Opens a board over rows, before any event. EBUSY: the handle is open; EINVAL: more than 256 rows, or a row that has
/// a fault, and then `faulty` is the place of the first; ENOMEM.
#[unsafe(no_mangle)]
pub extern "C" fn pukzarn_board_open(
    alloc: Global,
    handle: &mut Handle,
    rows: &[CRow],
    faulty: &mut u32,
) -> i32
    ensures { IsBoardOpening (map row_of_ids rows.now) handle.old handle.new faulty.old faulty.new result }
{
    if handle.is_open() {
        return negative(Error::EBUSY);
    }
    let roster = match roster_of(alloc, rows) {
        Ok(roster) => roster,
        Err(fault) => return open_fault(fault, faulty),
    };
    let Ok(board) = Board::new(alloc, &roster) else {
        return negative(Error::ENOMEM);
    };
    handle.keep(alloc, Ok(HandleValue::Board(board)))
}
