//! A stop, in numbers.

ghost use Rattle.std.specs.Prelude.{◌≡◌, IfSome, Some};
ghost use Rattle.c_interface.specs.Stop.{IsMade, numbers_of};
ghost use Rattle.trace_record.specs.declared.stop.Stop.{Stop};

use trace_options::LAST_SIGNAL;
use trace_record::{Death, Stop};

/// `struct pukzarn_stop`: which stop, and the number that it has with it. A stop with no number has 0.
#[repr(C)]
#[derive(Clone, Copy, Debug, PartialEq, Eq)]
pub struct CStop {
    /// One of the constants below.
    pub kind: u32,
    /// The filter's data, the child's id, the former thread id, the signal, or the raw wait status of the death.
    pub value: u32,
}

impl CStop {
    /// `PTRACE_EVENT_STOP`, the first stop of a tracee.
    pub const START: u32 = 0;
    /// A syscall-enter-stop.
    pub const ENTER: u32 = 1;
    /// A syscall-exit-stop.
    pub const EXIT: u32 = 2;
    /// `PTRACE_EVENT_SECCOMP`, with the filter's data.
    pub const SECCOMP: u32 = 3;
    /// `PTRACE_EVENT_FORK`, with the child's id.
    pub const FORK: u32 = 4;
    /// `PTRACE_EVENT_CLONE`, with the child's id.
    pub const CLONE: u32 = 5;
    /// `PTRACE_EVENT_EXEC`, with the former thread id.
    pub const EXEC: u32 = 6;
    /// A signal-delivery-stop, with the signal.
    pub const SIGNAL: u32 = 7;
    /// `PTRACE_EVENT_EXIT`, with the raw wait status of the death.
    pub const ENDING: u32 = 8;

    /// The numbers of a stop.
    pub fn of(stop: Stop) -> CStop
        ensures { result ≡ numbers_of stop }
    {
        let (kind, value) = match stop {
            Stop::Start => (CStop::START, 0),
            Stop::Enter => (CStop::ENTER, 0),
            Stop::Exit => (CStop::EXIT, 0),
            Stop::Seccomp(data) => (CStop::SECCOMP, u32::from(data)),
            Stop::Fork(child) => (CStop::FORK, child),
            Stop::Clone(child) => (CStop::CLONE, child),
            Stop::Exec(former) => (CStop::EXEC, former),
            Stop::Signal(signal) => (CStop::SIGNAL, u32::from(signal)),
            Stop::Ending(death) => (CStop::ENDING, death.status()),
        };
        CStop { kind, value }
    }

    /// The stop of these numbers, or None where no stop has them: another kind, a number beside a stop that has none,
    /// data above 65535, a signal that is not 1 to 64, a raw status of no death.
    pub fn stop(self) -> Option<Stop>
        ensures told { IfSome result (λ stop. IsMade stop × (numbers_of stop ≡ self)) }
        ensures each { (stop : Stop) → IsMade stop → numbers_of stop ≡ self → result ≡ Some stop }
    {
        let value = self.value;
        match self.kind {
            CStop::START if value == 0 => Some(Stop::Start),
            CStop::ENTER if value == 0 => Some(Stop::Enter),
            CStop::EXIT if value == 0 => Some(Stop::Exit),
            CStop::SECCOMP => Some(Stop::Seccomp(u16::try_from(value).ok()?)),
            CStop::FORK => Some(Stop::Fork(value)),
            CStop::CLONE => Some(Stop::Clone(value)),
            CStop::EXEC => Some(Stop::Exec(value)),
            CStop::SIGNAL if value != 0 && value <= u32::from(LAST_SIGNAL) => Some(Stop::Signal(
                value as u8,
            )),
            CStop::ENDING => Some(Stop::Ending(Death::from_status(value)?)),
            _ => None,
        }
    }
}
