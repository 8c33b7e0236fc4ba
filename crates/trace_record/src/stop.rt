//! The stops of a tracee.

ghost use Rattle.std.specs.Prelude.{◌≡◌};
ghost use Rattle.trace_options.specs.Event.{code_of};
ghost use Rattle.trace_status.specs.WaitStatus.{raw_event, raw_stop};

use crate::death::Death;
use trace_options::Event;
use trace_status::{SIGTRAP, STOPPED, SYSCALL_TRAP};

/// A stop at which a tracee waits for its tracer (ptrace(2), "Stopped states"). A signal is 1 to 64.
#[derive(Clone, Copy, Debug, PartialEq, Eq, Hash)]
pub enum Stop {
    /// The first stop of a tracee (`PTRACE_EVENT_STOP`, 128).
    Start,
    /// A syscall-enter-stop.
    Enter,
    /// A syscall-exit-stop.
    Exit,
    /// `PTRACE_EVENT_SECCOMP`, with the 16 bits of return data that the filter gave.
    Seccomp(u16),
    /// `PTRACE_EVENT_FORK`, with the new tracee's id.
    Fork(u32),
    /// `PTRACE_EVENT_CLONE`, with the new tracee's id.
    Clone(u32),
    /// `PTRACE_EVENT_EXEC`, with the former thread id.
    Exec(u32),
    /// A signal-delivery-stop, with the signal that arrives.
    Signal(u8),
    /// `PTRACE_EVENT_EXIT`, with the death that comes.
    Ending(Death),
}

impl Stop {
    ghost use Rattle.trace_record.specs.Stop.{child_of, stop_status};

    /// The raw wait status that reports the stop (ptrace(2), "Syscall-stops", "PTRACE_EVENT stops").
    pub fn status(&self) -> u32
        ensures { result ≡ stop_status self.now }
    {
        match *self {
            Stop::Start => event_stop(Event::Stop),
            Stop::Enter | Stop::Exit => signal_stop(SYSCALL_TRAP),
            Stop::Seccomp(_) => event_stop(Event::Seccomp),
            Stop::Fork(_) => event_stop(Event::Fork),
            Stop::Clone(_) => event_stop(Event::Clone),
            Stop::Exec(_) => event_stop(Event::Exec),
            Stop::Signal(signal) => signal_stop(signal),
            Stop::Ending(_) => event_stop(Event::Exit),
        }
    }

    /// The id of the new tracee at a fork or a clone, and None at any other stop (ptrace(2), `PTRACE_GETEVENTMSG`).
    pub fn child(&self) -> Option<u32>
        ensures { result ≡ child_of self.now }
    {
        match *self {
            Stop::Fork(child) | Stop::Clone(child) => Some(child),
            _ => None,
        }
    }
}

/// The raw wait status of a stop by a signal.
fn signal_stop(signal: u8) -> u32
    ensures { result ≡ raw_stop signal }
{
    (u32::from(signal) << 8) + u32::from(STOPPED)
}

/// The raw wait status of an event stop.
fn event_stop(event: Event) -> u32
    ensures { result ≡ raw_event (code_of event) }
{
    (u32::from(event.code()) << 16) + signal_stop(SIGTRAP)
}
