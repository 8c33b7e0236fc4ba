//! The calls of the board of one thread.

ghost use Rattle.std.specs.Prelude.{◌≡◌};
ghost use Rattle.stop_board.specs.Board.{StandsAfter};
ghost use Rattle.stop_history.specs.Event.{History};
ghost use Rattle.stop_history.specs.State.{state_after};
ghost use Rattle.c_interface.specs.Board.{IsClaimFor, IsExitFor, IsPublishFor, IsResumeFor, IsWaitableFor};
ghost use Rattle.c_interface.specs.State.{state_in_numbers};

use crate::error::{Error, error_of};
use crate::got::CGot;
use crate::restart::CRestart;
use crate::state::CState;
use crate::stop::CStop;
use crate::waited::{error_in, id_in};
use std::alloc::Global;
use stop_board::Board;
use stop_history::waitid_request;
use trace_options::{LAST_SIGNAL, WaitFlags};
use trace_record::{Death, Resume};

/// The state of a row, `ABSENT` out of range.
pub fn board_state(board: &Board<Global>, row: u32) -> CState
    ensures { (h : History) → StandsAfter board.now h → result ≡ state_in_numbers (state_after board.now.rows h row) }
{
    CState::of(board.state(row))
}

/// Publishes a running row's next stop, and answers its number. EINVAL: no row, numbers of no stop, or a child that is
/// not the row's next one; ECHILD: the row is not born; EALREADY: it does not run; EOVERFLOW: it has made its last
/// stop.
pub fn board_publish(board: &mut Board<Global>, row: u32, stop: CStop) -> Result<u32, Error>
    ensures { IsPublishFor board.old board.new row stop result }
{
    let Some(stop) = stop.stop() else {
        return Err(Error::EINVAL);
    };
    board.publish(row, stop).map_err(error_of)
}

/// Claims a row's stop, or its death, for a tracer. EINVAL: no row, or a tracer above 15; ECHILD: the row is not born;
/// EAGAIN: it has neither a stop nor a death.
pub fn board_claim(board: &mut Board<Global>, row: u32, tracer: u32) -> Result<CGot, Error>
    ensures { IsClaimFor board.old board.new row tracer result }
{
    match board.claim(row, tracer) {
        Ok(got) => Ok(CGot::of(got)),
        Err(refused) => Err(error_of(refused)),
    }
}

/// Resumes a row that the tracer has claimed. EINVAL: no kind of restart, no row, or a tracer above 15; ECHILD: the row
/// is not born; ESRCH: nobody has claimed it; EPERM: another tracer has; EIO: the signal is above 64.
pub fn board_resume(
    board: &mut Board<Global>,
    row: u32,
    tracer: u32,
    how: CRestart,
) -> Result<(), Error>
    ensures { IsResumeFor board.old board.new row tracer how result }
{
    let Some(kind) = how.kind() else {
        return Err(Error::EINVAL);
    };
    if how.signal > u32::from(LAST_SIGNAL) {
        return match board.resumable(row, tracer) {
            Ok(()) => Err(Error::EIO),
            Err(refused) => Err(error_of(refused)),
        };
    }
    let signal = how.signal as u8;
    board
        .resume(row, tracer, Resume { kind, signal })
        .map_err(error_of)
}

/// Lets a running row exit, with the raw wait status of its death. EINVAL: no row, or a status of no death; ECHILD: the
/// row is not born; EALREADY: it does not run; EBUSY: it leads a thread group of which another row is alive.
pub fn board_exit(board: &mut Board<Global>, row: u32, status: u32) -> Result<(), Error>
    ensures { IsExitFor board.old board.new row status result }
{
    let Some(death) = Death::from_status(status) else {
        return Err(Error::EINVAL);
    };
    board.exit(row, death).map_err(error_of)
}

/// Writes the rows that a waitid(2) of these arguments may be answered now, in the order of the roster, as many as the
/// buffer has room for, and answers how many they are: 0 where there is nothing yet. EINVAL: numbers that name nobody,
/// or no set of flags, and what waitid(2) refuses; ECHILD: every selected row is gone now, and stays so unless it is a
/// row that is still to be born.
pub fn board_waitable(
    board: &Board<Global>,
    idtype: u32,
    id: i32,
    options: u32,
    to: &mut [u32],
) -> Result<u32, Error>
    ensures { IsWaitableFor idtype id options board.now to.old to.new result }
{
    let Some(who) = id_in(idtype, id) else {
        return Err(Error::EINVAL);
    };
    let Some(flags) = WaitFlags::from_bits(options) else {
        return Err(Error::EINVAL);
    };
    let Some(request) = waitid_request(who, flags) else {
        return Err(Error::EINVAL);
    };
    board.waitable(request, to).map_err(error_in)
}
