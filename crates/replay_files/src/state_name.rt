//! The names of states: what a reply, an outcome and a condition call them.

ghost use Rattle.std.specs.Prelude.{◌≡◌};
ghost use Rattle.replay_files.specs.StateName.{has_name, state_word};

use stop_board::State;

/// A state of a tracee, without its number, status or tracer.
#[derive(Clone, Copy, Debug, PartialEq, Eq)]
pub enum StateName {
    Unborn,
    Running,
    Stopped,
    Claimed,
    Dead,
    Reaped,
}

/// The names that a file may ask for. No tracee of a file is absent.
pub const STATE_NAMES: [(&str, StateName); 6] = [
    ("unborn", StateName::Unborn),
    ("running", StateName::Running),
    ("stopped", StateName::Stopped),
    ("claimed", StateName::Claimed),
    ("dead", StateName::Dead),
    ("reaped", StateName::Reaped),
];

/// The word of a state, without what follows it.
pub fn state_word(state: State) -> &'static str
    ensures { result.now ≡ state_word state }
{
    match state {
        State::Absent => "absent",
        State::Unborn => "unborn",
        State::Running => "running",
        State::Stopped(..) => "stopped",
        State::Claimed(..) => "claimed",
        State::Dead(..) => "dead",
        State::Reaped => "reaped",
    }
}

/// Whether a state is of this name.
pub fn has_name(name: StateName, state: State) -> bool
    ensures { result ≡ has_name name state }
{
    match name {
        StateName::Unborn => matches!(state, State::Unborn),
        StateName::Running => matches!(state, State::Running),
        StateName::Stopped => matches!(state, State::Stopped(..)),
        StateName::Claimed => matches!(state, State::Claimed(..)),
        StateName::Dead => matches!(state, State::Dead(..)),
        StateName::Reaped => matches!(state, State::Reaped),
    }
}
