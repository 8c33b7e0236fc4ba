//! The outcome of a system call.

/// What a system call answered (syscall(2), errno(3)).
#[derive(Clone, Copy, Debug, PartialEq, Eq, Hash)]
pub enum Outcome {
    /// It failed with this error number, 1 to 4095.
    Errno(u16),
    /// It answered this value.
    Value(i64),
}
