//! What a machine answers.

use trace_record::Death;

/// What a tracee does next.
#[derive(Clone, Copy, Debug, PartialEq, Eq, Hash)]
pub enum Next {
    /// A stop; the record has its content.
    Stop,
    /// Its death.
    Death(Death),
    /// A store to this address, which is not mapped, or past the last address (then this is 2^64 - 1). Machine and
    /// record are as they were.
    Fault(u64),
}
