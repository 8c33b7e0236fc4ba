//! The wait status and its raw value.
//!
//! wait(2) reports a status in one word. Its low byte says which kind it is: 0 for an exit, with the code in
//! the second byte; [`STOPPED`] for a stop, with the signal in the second byte; otherwise the signal that killed
//! the tracee, with [`CORE_DUMPED`] added where it dumped core. Of ptrace(2)'s stops, a syscall-stop is reported
//! with the signal [`SYSCALL_TRAP`], an event stop with [`SIGTRAP`] and the event's number in the third byte.
//!
//! Not here: WIFCONTINUED, and system-call stops without PTRACE_O_TRACESYSGOOD, which wait(2) reports like any
//! SIGTRAP.

ghost use Rattle.std.specs.Prelude.{◌≡◌, ◌↔◌, ℕ, IfSome, IsTrue};
ghost use Rattle.trace_status.specs.WaitStatus.{Encodes, IsEvent, IsSignal, pid_of};
ghost use Rattle.trace_status.specs.declared.wait_status.WaitStatus.{WaitStatus};

use trace_options::{Event, LAST_SIGNAL};

/// SIGTRAP, the signal of an event stop (signal(7)).
pub const SIGTRAP: u8 = 5;

/// The signal of a syscall-stop: SIGTRAP with the bit that PTRACE_O_TRACESYSGOOD adds (ptrace(2)).
pub const SYSCALL_TRAP: u8 = SIGTRAP | 0x80;

/// The low byte of a stop's raw value (wait(2), `WIFSTOPPED`).
pub const STOPPED: u8 = 0x7f;

/// The bit of a core dump beside the signal that killed (wait(2), `WCOREDUMP`).
pub const CORE_DUMPED: u8 = 0x80;

/// What a wait reports of a tracee; the first number is its pid. The variants are those of nix's
/// `sys::wait::WaitStatus`.
#[derive(Clone, Copy, Debug, PartialEq, Eq, Hash)]
pub enum WaitStatus {
    /// It exited with this code (`WIFEXITED`).
    Exited(u32, u8),
    /// This signal, 1 to 64, killed it; whether it dumped core (`WIFSIGNALED`).
    Signaled(u32, u8, bool),
    /// It is stopped by this signal, 1 to 64 (`WIFSTOPPED`): a signal-delivery-stop.
    Stopped(u32, u8),
    /// It is at an event stop, by SIGTRAP (5) and the event's number, 1 to 7 or 128 (`PTRACE_EVENT_*`).
    PtraceEvent(u32, u8, u8),
    /// It is at a syscall-enter-stop or a syscall-exit-stop.
    PtraceSyscall(u32),
    /// There is nothing to report yet (`WNOHANG`). It has no raw value.
    StillAlive,
}

/// The status of the tracee `pid` that a raw value reports, or None where no status has this value
/// (wait(2), ptrace(2), "Syscall-stops" and "PTRACE_EVENT stops").
pub fn decode(pid: u32, raw: u32) -> Option<WaitStatus>
    ensures told { IfSome result (λ status. (pid_of status ≡ Some pid) × Encodes status raw) }
    ensures each { (status : WaitStatus) → pid_of status ≡ Some pid → Encodes status raw → result ≡ Some status }
{
    match raw.to_be_bytes() {
        [0, 0, code, 0] => Some(WaitStatus::Exited(pid, code)),
        [0, 0, SYSCALL_TRAP, STOPPED] => Some(WaitStatus::PtraceSyscall(pid)),
        [0, 0, signal, STOPPED] if is_signal(signal) => Some(WaitStatus::Stopped(pid, signal)),
        [0, event, SIGTRAP, STOPPED] if is_event(event) => {
            Some(WaitStatus::PtraceEvent(pid, SIGTRAP, event))
        }
        [0, 0, 0, killed] if is_signal(killed & !CORE_DUMPED) => Some(WaitStatus::Signaled(
            pid,
            killed & !CORE_DUMPED,
            killed & CORE_DUMPED != 0,
        )),
        _ => None,
    }
}

/// The raw value that reports a status, or None where none does: for `StillAlive`, a signal outside 1 to 64,
/// an event stop whose signal is not SIGTRAP or whose event is none of ptrace(2)'s.
pub fn encode(status: &WaitStatus) -> Option<u32>
    ensures told { IfSome result (λ raw. Encodes status.now raw) }
    ensures each { (raw : ℕ) → Encodes status.now raw → result ≡ Some raw }
{
    let bytes = match *status {
        WaitStatus::Exited(_, code) => [0, 0, code, 0],
        WaitStatus::Signaled(_, signal, core) if is_signal(signal) => {
            [0, 0, 0, if core { signal | CORE_DUMPED } else { signal }]
        }
        WaitStatus::Stopped(_, signal) if is_signal(signal) => [0, 0, signal, STOPPED],
        WaitStatus::PtraceEvent(_, SIGTRAP, event) if is_event(event) => {
            [0, event, SIGTRAP, STOPPED]
        }
        WaitStatus::PtraceSyscall(_) => [0, 0, SYSCALL_TRAP, STOPPED],
        _ => return None,
    };
    Some(u32::from_be_bytes(bytes))
}

/// Whether a number is a signal's, real-time signals among them (signal(7)).
fn is_signal(number: u8) -> bool
    ensures { IsTrue result ↔ IsSignal number }
{
    (1..=LAST_SIGNAL).contains(&number)
}

/// Whether a number is an event's (ptrace(2), `PTRACE_EVENT_*`).
fn is_event(number: u8) -> bool
    ensures { IsTrue result ↔ IsEvent number }
{
    Event::from_code(number).is_some()
}
