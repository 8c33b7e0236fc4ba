//! What a call of a row is answered where the row has some state: the board and the interleaving model go by these
//! rules, and so may whoever has the states of rows alone (ptrace(2); waitid(2)).

ghost use Rattle.std.specs.Prelude.{◌≡◌};
ghost use Rattle.stop_history.specs.Sequential.{claim_by, claim_state, resume_by, resume_state, running_by};
ghost use Rattle.stop_history.specs.State.{is_alive};

use stop_history::{Got, Refused, State, TRACERS};

/// Whether a row of this state may still act: it runs, or is at a stop.
pub fn is_alive(state: State) -> bool
    ensures { result ≡ is_alive state }
{
    matches!(
        state,
        State::Running | State::Stopped(..) | State::Claimed(..)
    )
}

/// Whether a row of this state runs, or why it can neither publish nor exit: `NoRow`, `Unborn`, `NotRunning`.
pub fn running(state: State) -> Result<(), Refused>
    ensures { result ≡ running_by state }
{
    match state {
        State::Running => Ok(()),
        State::Absent => Err(Refused::NoRow),
        State::Unborn => Err(Refused::Unborn),
        State::Stopped(..) | State::Claimed(..) | State::Dead(..) | State::Reaped => {
            Err(Refused::NotRunning)
        }
    }
}

/// What a tracer's claim of a row of this state gets, or why it is refused: `NoRow` (also for a tracer past the last),
/// `Unborn`, `NotWaitable`.
pub fn claimable(tracer: u32, state: State) -> Result<Got, Refused>
    ensures { result ≡ claim_by tracer state }
{
    if tracer >= TRACERS {
        return Err(Refused::NoRow);
    }
    waitable(state)
}

/// What a claim of a row of this state gets, or why it gets nothing.
fn waitable(state: State) -> Result<Got, Refused>
    ensures { result ≡ claim_state state }
{
    match state {
        State::Absent => Err(Refused::NoRow),
        State::Unborn => Err(Refused::Unborn),
        State::Stopped(number, status) => Ok(Got::Stop(number, status)),
        State::Dead(number, status) => Ok(Got::Ended(number, status)),
        State::Running | State::Claimed(..) | State::Reaped => Err(Refused::NotWaitable),
    }
}

/// Whether a tracer may resume a row of this state, or why it is refused: `NoRow` (also for a tracer past the last),
/// `Unborn`, `NotHolder`, `NotClaimed`.
pub fn resumable(tracer: u32, state: State) -> Result<(), Refused>
    ensures { result ≡ resume_by tracer state }
{
    if tracer >= TRACERS {
        return Err(Refused::NoRow);
    }
    held_by(tracer, state)
}

/// Whether a tracer has claimed a row of this state, or why it cannot resume it.
fn held_by(tracer: u32, state: State) -> Result<(), Refused>
    ensures { result ≡ resume_state tracer state }
{
    match state {
        State::Absent => Err(Refused::NoRow),
        State::Unborn => Err(Refused::Unborn),
        State::Claimed(_, holder) if holder == tracer => Ok(()),
        State::Claimed(..) => Err(Refused::NotHolder),
        State::Running | State::Stopped(..) | State::Dead(..) | State::Reaped => {
            Err(Refused::NotClaimed)
        }
    }
}
