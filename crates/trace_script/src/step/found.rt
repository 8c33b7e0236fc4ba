//! What a look ahead finds.

/// What a look ahead finds first.
#[derive(Clone, Copy, Debug, PartialEq, Eq)]
pub(crate) enum Found {
    /// It stops or dies.
    Halt,
    /// It stores to this address, which is not mapped, or past the last address (then this is 2^64 - 1).
    Fault(u64),
}
