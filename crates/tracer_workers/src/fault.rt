//! How a tracee ends whose script cannot go on.

use trace_record::Death;

/// A tracee whose store faults dies by SIGSEGV (signal(7)).
pub(crate) const FAULT_DEATH: Death = Death::Signaled {
    signal: 11,
    core: false,
};
