//! The errors of the calls.

/// Why a call of a tracer failed (errno(3)).
#[derive(Clone, Copy, Debug, PartialEq, Eq, Hash)]
pub enum Errno {
    /// An argument that the call does not take.
    EINVAL,
    /// There is no child to wait for.
    ECHILD,
    /// The tracee is not stopped by this tracer, or there is none.
    ESRCH,
    /// An address or a signal that the call does not take.
    EIO,
}
