//! Where a byte view ends.

/// Why a byte view has no further byte.
#[derive(Clone, Copy, Debug, PartialEq, Eq, Hash)]
pub enum End {
    /// It has all the bytes that were asked for.
    Full,
    /// A zero follows its last byte: it is a whole string.
    Nul,
    /// None of the bytes that were examined for a string is zero, and all are there.
    Limit,
    /// The byte at this address, the first one that is missing, is not mapped.
    Fault(u64),
    /// The address space ended.
    Top,
}
