//! Whom waitid waits for.

/// Whom waitid waits for (waitid(2), `idtype_t`).
#[derive(Clone, Copy, Debug, PartialEq, Eq, Hash)]
pub enum Id {
    /// Any tracee (`P_ALL`).
    All,
    /// The tracee of this pid (`P_PID`).
    Pid(i32),
    /// Any tracee of this process group (`P_PGID`).
    PGid(i32),
}
