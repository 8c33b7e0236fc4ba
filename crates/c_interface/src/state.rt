//! The state of a row, in numbers.

ghost use Rattle.std.specs.Prelude.{◌≡◌};
ghost use Rattle.c_interface.specs.State.{shown_in_numbers, state_in_numbers};

use stop_board::State;
use stop_table::Shown;

/// `struct pukzarn_state`: the state of a row. What a phase has not is 0.
#[repr(C)]
#[derive(Clone, Copy, Debug, PartialEq, Eq)]
pub struct CState {
    /// One of the constants below.
    pub phase: u32,
    /// The number of the stop, for a death that of the last stop.
    pub number: u32,
    /// The tracer that has claimed the stop.
    pub tracer: u32,
    /// The raw wait status of the stop or of the death.
    pub status: u32,
}

impl CState {
    /// There is no such row.
    pub const ABSENT: u32 = 0;
    /// Its parent has not created it yet.
    pub const UNBORN: u32 = 1;
    /// It runs.
    pub const RUNNING: u32 = 2;
    /// It is at a stop that nobody has claimed.
    pub const STOPPED: u32 = 3;
    /// A tracer has claimed its stop.
    pub const CLAIMED: u32 = 4;
    /// It has ended, and nobody has claimed its death.
    pub const DEAD: u32 = 5;
    /// It has ended, and its death was claimed.
    pub const REAPED: u32 = 6;

    /// The numbers of a state.
    pub fn of(state: State) -> CState
        ensures { result ≡ state_in_numbers state }
    {
        let (phase, number, tracer, status) = match state {
            State::Absent => (CState::ABSENT, 0, 0, 0),
            State::Unborn => (CState::UNBORN, 0, 0, 0),
            State::Running => (CState::RUNNING, 0, 0, 0),
            State::Stopped(number, status) => (CState::STOPPED, number, 0, status),
            State::Claimed(number, tracer) => (CState::CLAIMED, number, tracer, 0),
            State::Dead(number, status) => (CState::DEAD, number, 0, status),
            State::Reaped => (CState::REAPED, 0, 0, 0),
        };
        CState {
            phase,
            number,
            tracer,
            status,
        }
    }

    /// The numbers of what a look showed. It does not tell who has claimed a stop.
    pub fn shown(shown: Shown) -> CState
        ensures { result ≡ shown_in_numbers shown }
    {
        let (phase, number, status) = match shown {
            Shown::Unborn => (CState::UNBORN, 0, 0),
            Shown::Running => (CState::RUNNING, 0, 0),
            Shown::Stopped { number, status } => (CState::STOPPED, number, status),
            Shown::Claimed { number } => (CState::CLAIMED, number, 0),
            Shown::Dead { number, status } => (CState::DEAD, number, status),
            Shown::Reaped => (CState::REAPED, 0, 0),
        };
        CState {
            phase,
            number,
            tracer: 0,
            status,
        }
    }
}
