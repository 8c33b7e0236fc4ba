//! The acts of a step. What the step itself has, as its call and its program, is not repeated in its acts.

use crate::script::Fill;
use trace_options::Options;
use trace_record::{Death, Stop};

/// When a tracee stops at a place.
#[derive(Clone, Copy, Debug, PartialEq, Eq)]
pub(crate) enum When {
    Always,
    /// Where the last restart before the place was `PTRACE_SYSCALL`.
    Traced,
    /// Where `PTRACE_O_TRACESECCOMP` is set and the filter has the step's call.
    Filtered,
    /// Where the option is set.
    ByOption(Options),
}

/// One thing that is done in a step.
#[derive(Clone, Copy, Debug, PartialEq, Eq)]
pub(crate) enum Act {
    /// The tracee stops, if it does at this place.
    Halts(When, Stop),
    /// The registers are set as at the entry to the step's call.
    Calls,
    /// The program of the step, an exec, is put in.
    Becomes,
    /// The bytes that a call writes are stored.
    Stores(Fill),
    /// A call gets its answer.
    Answers(u64),
    /// The signal of the restart kills, where it is not 0.
    Delivers,
    /// The tracee exits: where `PTRACE_O_TRACEEXIT` is set, it stops before it dies.
    Exits(Death),
}
