//! The signals of signal(7).

ghost use Rattle.std.specs.Prelude.{◌≡◌};
ghost use Rattle.std.specs.Option.{option_copied};
ghost use Rattle.trace_options.specs.SignalNames.{signal_name};

use crate::names::name_in;

/// The highest number of a signal: the standard signals are 1 to 31, and the real-time ones go on to 64 (signal(7)).
pub const LAST_SIGNAL: u8 = 64;

/// The standard signals by number, with their names (signal(7), "Signal numbering for standard signals", x86).
pub(crate) const SIGNALS: [(u16, &[u8]); 31] = [
    (1, b"SIGHUP"),
    (2, b"SIGINT"),
    (3, b"SIGQUIT"),
    (4, b"SIGILL"),
    (5, b"SIGTRAP"),
    (6, b"SIGABRT"),
    (7, b"SIGBUS"),
    (8, b"SIGFPE"),
    (9, b"SIGKILL"),
    (10, b"SIGUSR1"),
    (11, b"SIGSEGV"),
    (12, b"SIGUSR2"),
    (13, b"SIGPIPE"),
    (14, b"SIGALRM"),
    (15, b"SIGTERM"),
    (16, b"SIGSTKFLT"),
    (17, b"SIGCHLD"),
    (18, b"SIGCONT"),
    (19, b"SIGSTOP"),
    (20, b"SIGTSTP"),
    (21, b"SIGTTIN"),
    (22, b"SIGTTOU"),
    (23, b"SIGURG"),
    (24, b"SIGXCPU"),
    (25, b"SIGXFSZ"),
    (26, b"SIGVTALRM"),
    (27, b"SIGPROF"),
    (28, b"SIGWINCH"),
    (29, b"SIGIO"),
    (30, b"SIGPWR"),
    (31, b"SIGSYS"),
];

/// The name of a standard signal, `SIG` included (signal(7)), or None where the number is 0 or above 31: a real-time
/// signal has no name of its own.
#[tactic(auto, unfolding(crate::specs::SignalNames::signal_table))]
pub fn signal_name(number: u8) -> Option<&'static [u8]>
    ensures { option_copied result ≡ signal_name number }
{
    name_in(&SIGNALS, u16::from(number))
}
