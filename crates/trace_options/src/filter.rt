//! The seccomp filter of a trace.

use crate::call_set::CallSet;

/// A filter of system calls (seccomp(2), `SECCOMP_RET_TRACE`): each call of the set stops its caller at
/// `PTRACE_EVENT_SECCOMP`.
#[derive(Clone, Copy, Debug, PartialEq, Eq, Hash)]
pub struct Filter {
    pub calls: CallSet,
    /// The 16 bits that the filter hands to the tracer (`SECCOMP_RET_DATA`).
    pub ret_data: u16,
}
