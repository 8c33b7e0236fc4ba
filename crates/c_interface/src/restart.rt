//! A restart, in numbers.

ghost use Rattle.std.specs.Prelude.{◌≡◌, MatchOption};
ghost use Rattle.c_interface.specs.Restart.{IsOfNoKind, restart_kind, restart_numbers};

use trace_record::{Kind, Resume};

/// `struct pukzarn_restart`: how a tracee is restarted, and the signal that it is handed, 0 for none.
#[repr(C)]
#[derive(Clone, Copy, Debug, PartialEq, Eq)]
pub struct CRestart {
    /// One of the constants below.
    pub kind: u32,
    /// 0 to 64.
    pub signal: u32,
}

impl CRestart {
    /// `PTRACE_CONT`.
    pub const CONT: u32 = 0;
    /// `PTRACE_SYSCALL`.
    pub const SYSCALL: u32 = 1;

    /// The numbers of a restart.
    pub fn of(how: Resume) -> CRestart
        ensures { result ≡ restart_numbers how }
    {
        let kind = match how.kind {
            Kind::Cont => CRestart::CONT,
            Kind::Syscall => CRestart::SYSCALL,
        };
        CRestart {
            kind,
            signal: u32::from(how.signal),
        }
    }

    /// Its kind, or None where no kind has the number.
    pub(crate) fn kind(self) -> Option<Kind>
        ensures { MatchOption result (IsOfNoKind self.kind) (λ kind. restart_kind kind ≡ self.kind) }
    {
        match self.kind {
            CRestart::CONT => Some(Kind::Cont),
            CRestart::SYSCALL => Some(Kind::Syscall),
            _ => None,
        }
    }
}
