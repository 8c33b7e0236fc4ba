//! The refusals of a board and of a World.

/// Why a board or a World refused. A refused call of a board changes nothing, and neither does a refused step of a
/// World. A World's `publish`, `exit` and `claim` are two steps each: where the second is refused, the first is done.
#[derive(Clone, Copy, Debug, PartialEq, Eq, Hash)]
pub enum Refused {
    /// The row, or the tracer, is out of range.
    NoRow,
    /// The row is not born yet.
    Unborn,
    /// The row does not run, so it can neither publish nor exit.
    NotRunning,
    /// The row runs, but its tracee has not taken it up. A board has no such step, and never answers this.
    NotTaken,
    /// The fork or clone does not name the row's next child.
    NotNext,
    /// The row has made its last possible stop, 16,777,215.
    Full,
    /// The row has neither a stop nor a death to report.
    NotWaitable,
    /// No tracer has claimed the row's stop.
    NotClaimed,
    /// Another tracer has claimed it.
    NotHolder,
    /// The leader of a thread group cannot exit yet: this row is the first other one of its group that is alive.
    GroupAlive(u32),
}
