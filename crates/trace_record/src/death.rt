//! The deaths of a tracee.

ghost use Rattle.std.specs.Prelude.{◌≡◌, IfSome, Some};

use trace_status::{CORE_DUMPED, WaitStatus, decode};

/// How a tracee ended (wait(2)).
#[derive(Clone, Copy, Debug, PartialEq, Eq, Hash)]
pub enum Death {
    /// It exited with this code (`WIFEXITED`).
    Exited(u8),
    /// A signal, 1 to 64, killed it; whether it dumped core (`WIFSIGNALED`, `WCOREDUMP`).
    Signaled { signal: u8, core: bool },
}

impl Death {
    ghost use Rattle.trace_record.specs.Death.{IsDeath, death_status};
    ghost use Rattle.trace_record.specs.declared.death.Death.{Death};

    /// The raw wait status that reports the death (wait(2)).
    pub fn status(&self) -> u32
        ensures { result ≡ death_status self.now }
    {
        match *self {
            Death::Exited(code) => u32::from(code) << 8,
            Death::Signaled { signal, core } => {
                u32::from(signal) + u32::from(if core { CORE_DUMPED } else { 0 })
            }
        }
    }

    /// The death that a raw wait status reports, or None where it reports none: a stop, a signal above 64, or no
    /// status at all (wait(2), `WIFEXITED`, `WIFSIGNALED`, `WCOREDUMP`).
    pub fn from_status(status: u32) -> Option<Death>
        ensures reported { IfSome result (λ death. IsDeath death × (death_status death ≡ status)) }
        ensures each { (death : Death) → IsDeath death → death_status death ≡ status → result ≡ Some death }
    {
        match decode(0, status) {
            Some(WaitStatus::Exited(_, code)) => Some(Death::Exited(code)),
            Some(WaitStatus::Signaled(_, signal, core)) => Some(Death::Signaled { signal, core }),
            _ => None,
        }
    }
}
