//! The state of a row: what its history has come to, as a caller sees it.
//!
//! A row's word has a phase; the state says the same with the words of the other rows in view: a fresh row is unborn or
//! running by its parent's births.

/// What a row's history has come to. Numbers are those of the row's last stop, 0 before any; statuses are raw
/// wait statuses.
#[derive(Clone, Copy, Debug, PartialEq, Eq, Hash)]
pub enum State {
    /// There is no such row.
    Absent,
    /// Its parent has not created it yet.
    Unborn,
    /// It runs.
    Running,
    /// It is at a stop that nobody has claimed: number and status.
    Stopped(u32, u32),
    /// A tracer has claimed its stop: number and tracer.
    Claimed(u32, u32),
    /// It has ended, and nobody has claimed its death: number and status.
    Dead(u32, u32),
    /// It has ended, and a tracer has claimed its death.
    Reaped,
}
