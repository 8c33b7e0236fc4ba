//! The events of ptrace(2).

ghost use Rattle.std.specs.Prelude.{◌≡◌, ℕ, Some, IfSome};

/// An event at which a tracee stops (ptrace(2), "PTRACE_EVENT stops").
#[derive(Clone, Copy, Debug, PartialEq, Eq, Hash)]
pub enum Event {
    /// `PTRACE_EVENT_FORK`, 1.
    Fork,
    /// `PTRACE_EVENT_VFORK`, 2.
    Vfork,
    /// `PTRACE_EVENT_CLONE`, 3.
    Clone,
    /// `PTRACE_EVENT_EXEC`, 4.
    Exec,
    /// `PTRACE_EVENT_VFORK_DONE`, 5.
    VforkDone,
    /// `PTRACE_EVENT_EXIT`, 6.
    Exit,
    /// `PTRACE_EVENT_SECCOMP`, 7.
    Seccomp,
    /// `PTRACE_EVENT_STOP`, 128.
    Stop,
}

impl Event {
    ghost use Rattle.trace_options.specs.Event.{code_of};
    ghost use Rattle.trace_options.specs.declared.event.Event.{Event};

    /// The number of the event (ptrace(2), `<sys/ptrace.h>`).
    pub fn code(self) -> u8
        ensures { result ≡ code_of self }
    {
        match self {
            Event::Fork => 1,
            Event::Vfork => 2,
            Event::Clone => 3,
            Event::Exec => 4,
            Event::VforkDone => 5,
            Event::Exit => 6,
            Event::Seccomp => 7,
            Event::Stop => 128,
        }
    }

    /// The event of a number, or None where no event has it.
    pub fn from_code(code: u8) -> Option<Event>
        ensures told { IfSome result (λ event. code_of event ≡ code) }
        ensures each { (event : Event) → code_of event ≡ code → result ≡ Some event }
    {
        match code {
            1 => Some(Event::Fork),
            2 => Some(Event::Vfork),
            3 => Some(Event::Clone),
            4 => Some(Event::Exec),
            5 => Some(Event::VforkDone),
            6 => Some(Event::Exit),
            7 => Some(Event::Seccomp),
            128 => Some(Event::Stop),
            _ => None,
        }
    }
}
