//! Random replies that commands need: such that a command may be so answered, and such that it may not.

use crate::explorer::all_orders::ROWS;
use crate::explorer::all_orders::random_numbers::RandomNumbers;
use stop_board::Refused;
use stop_program::{BoardCall, WantedAnswer, WantedGot, WantedReply, WantedState};

/// The status of a syscall-enter-stop: SIGTRAP with `PTRACE_O_TRACESYSGOOD` (ptrace(2), "Syscall-stops").
const ENTERED: u32 = 0x857f;

/// The status of `PTRACE_EVENT_FORK` (ptrace(2), "PTRACE_EVENT stops").
const FORKED: u32 = 0x1057f;

/// The number of a stop. None: any.
fn random_number(numbers: &mut RandomNumbers) -> Option<u32> {
    match numbers.below(4) {
        0 => Some(1),
        1 => Some(2),
        _ => None,
    }
}

/// The status of a stop. None: any.
fn random_status(numbers: &mut RandomNumbers) -> Option<u32> {
    match numbers.below(4) {
        0 => Some(ENTERED),
        1 => Some(FORKED),
        _ => None,
    }
}

/// The number of a death, which is that of the row's last stop, 0 before any. None: any.
fn random_last(numbers: &mut RandomNumbers) -> Option<u32> {
    match numbers.below(4) {
        0 => Some(0),
        1 => Some(1),
        _ => None,
    }
}

/// The status of an exit with status 0, of a death by SIGKILL, or of an exit with status 1, which nobody makes. None:
/// any.
fn random_death(numbers: &mut RandomNumbers) -> Option<u32> {
    match numbers.below(6) {
        0 => Some(0x0000),
        1 => Some(0x0100),
        2 => Some(0x0009),
        _ => None,
    }
}

/// A tracer. None: any.
fn random_tracer(numbers: &mut RandomNumbers) -> Option<u32> {
    match numbers.below(4) {
        0 => Some(0),
        1 => Some(1),
        _ => None,
    }
}

/// A stop, or a death.
fn random_got(numbers: &mut RandomNumbers) -> WantedGot {
    if numbers.below(4) == 0 {
        WantedGot::Ended(random_last(numbers), random_death(numbers))
    } else {
        WantedGot::Stop(random_number(numbers), random_status(numbers))
    }
}

fn random_state(numbers: &mut RandomNumbers) -> WantedState {
    match numbers.below(6) {
        0 => WantedState::Unborn,
        1 => WantedState::Running,
        2 => WantedState::Stopped(random_number(numbers), random_status(numbers)),
        3 => WantedState::Claimed(random_number(numbers), random_tracer(numbers)),
        4 => WantedState::Dead(random_last(numbers), random_death(numbers)),
        _ => WantedState::Reaped,
    }
}

/// An answer that a call may have, in most cases not a refusal.
fn random_answer(numbers: &mut RandomNumbers, call: BoardCall) -> WantedAnswer {
    let choice = numbers.below(8);
    match (call, choice) {
        (BoardCall::State, _) => WantedAnswer::State(random_state(numbers)),
        (_, 4) => WantedAnswer::Refused(None),
        (BoardCall::Publish(_), 0) => WantedAnswer::Refused(Some(Refused::NotNext)),
        (BoardCall::Publish(_) | BoardCall::Exit(_) | BoardCall::ExitGroup(_), 1) => {
            WantedAnswer::Refused(Some(Refused::NotRunning))
        }
        (BoardCall::Kill, 0) => WantedAnswer::Dead,
        (BoardCall::Kill, 1) => WantedAnswer::Refused(Some(Refused::Unborn)),
        (BoardCall::Publish(_), 2) => WantedAnswer::Refused(Some(Refused::Unborn)),
        (BoardCall::Publish(_), _) => WantedAnswer::Number(random_number(numbers)),
        (BoardCall::Look(_) | BoardCall::Claim(_), 0) => WantedAnswer::NoChild,
        (BoardCall::Look(_) | BoardCall::Claim(_) | BoardCall::Resume(..), 1) => {
            WantedAnswer::Nothing
        }
        (BoardCall::Claim(_), 2) => WantedAnswer::Refused(Some(Refused::NotWaitable)),
        (BoardCall::Look(_), _) => WantedAnswer::Saw(random_got(numbers)),
        (BoardCall::Claim(_), _) => WantedAnswer::Got(random_got(numbers)),
        (BoardCall::Resume(..), 2) => WantedAnswer::Refused(Some(Refused::NotClaimed)),
        (BoardCall::Resume(..), 3) => WantedAnswer::Refused(Some(Refused::NotHolder)),
        (BoardCall::Exit(_), 2) => WantedAnswer::Refused(Some(Refused::GroupAlive(1))),
        (
            BoardCall::Resume(..) | BoardCall::Exit(_) | BoardCall::Kill | BoardCall::ExitGroup(_),
            _,
        ) => WantedAnswer::Done,
    }
}

/// A reply to this call: about either row, about the number past the last row, which an answer about no row has, or
/// about any of these.
pub(crate) fn random_reply(numbers: &mut RandomNumbers, call: BoardCall) -> WantedReply {
    let row = numbers.below(8);
    WantedReply {
        row: if row <= ROWS { Some(row) } else { None },
        answer: random_answer(numbers, call),
    }
}
