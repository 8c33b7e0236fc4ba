//! What acts lead to.

use trace_record::Death;

/// What one act does.
#[derive(Clone, Copy, Debug, PartialEq, Eq)]
pub(crate) enum Effect {
    /// The tracee stops.
    Stops,
    /// It goes on.
    GoesOn,
    /// It exits, or a signal kills it: where `PTRACE_O_TRACEEXIT` is set, it stops before it dies.
    Exits(Death),
    /// It stores to this address, which is not mapped, or past the last address (then this is 2^64 - 1).
    Faults(u64),
}

/// Where steps were left.
#[derive(Clone, Copy, Debug, PartialEq, Eq)]
pub(crate) enum Reached {
    /// At a stop: before the act at this place of the step at this index.
    Stopped(usize, u32),
    /// At the tracee's exit, as in `Effect::Exits`; also where no step is left.
    AtExit(Death),
    /// At a store to this address, as in `Effect::Faults`.
    Faulted(u64),
}
