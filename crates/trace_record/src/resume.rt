//! The restarts of a tracee.

/// How far a restarted tracee runs.
#[derive(Clone, Copy, Debug, PartialEq, Eq, Hash)]
pub enum Kind {
    /// To the next stop, syscall-stops among them (`PTRACE_SYSCALL`).
    Syscall,
    /// To the next stop that is not a syscall-stop (`PTRACE_CONT`).
    Cont,
}

/// A restart of a stopped tracee (ptrace(2), `PTRACE_SYSCALL` and `PTRACE_CONT`).
#[derive(Clone, Copy, Debug, PartialEq, Eq, Hash)]
pub struct Resume {
    pub kind: Kind,
    /// The signal to hand over, 1 to 64, or 0 for none.
    pub signal: u8,
}
