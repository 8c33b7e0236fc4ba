//! An access to an address that is not mapped.

/// A store met an address that is not mapped, or the end of the address space.
#[derive(Clone, Copy, Debug, PartialEq, Eq, Hash)]
pub struct Fault {
    /// The first address that is not mapped, or 2^64 - 1 where all up to it are and bytes remain.
    pub addr: u64,
}
