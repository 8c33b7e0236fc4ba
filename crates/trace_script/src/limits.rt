//! The limits of files and scripts.

/// How many bytes a file has at most.
pub const MOST_BYTES: usize = 16_777_216;

/// How many steps a script has at most.
pub const MOST_STEPS: usize = 65_536;
