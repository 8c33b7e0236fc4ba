//! The signals that may arrive at a tracee of a case.

ghost use Rattle.std.specs.Prelude.{◌≡◌, ◌<◌, true};
ghost use Rattle.trace_script.specs.Signals.{can_arrive, kills_or_stops};

/// The last standard signal (signal(7)).
pub(crate) const LAST_STANDARD: u64 = 31;

/// It kills, and a tracer never sees it (signal(7)).
pub(crate) const SIGKILL: u64 = 9;

/// It and the three after it stop the thread group (signal(7)).
pub(crate) const SIGSTOP: u64 = 19;

pub(crate) const SIGTSTP: u64 = 20;

pub(crate) const SIGTTIN: u64 = 21;

pub(crate) const SIGTTOU: u64 = 22;

/// Whether a signal may arrive at a tracee of a case: a standard signal that neither kills outright nor stops.
pub(crate) fn can_arrive(signal: u64) -> bool
    ensures arrives { result ≡ can_arrive signal }
    ensures small { result ≡ true → signal < 256 }
{
    signal >= 1 && signal <= LAST_STANDARD && !kills_or_stops(signal)
}

fn kills_or_stops(signal: u64) -> bool
    ensures { result ≡ kills_or_stops signal }
{
    signal == SIGKILL
        || signal == SIGSTOP
        || signal == SIGTSTP
        || signal == SIGTTIN
        || signal == SIGTTOU
}
