//! How a case is traced and printed.

ghost use Rattle.std.specs.Prelude.{◌≡◌};
ghost use Rattle.tracer_workers.specs.Config.{filter_of, options_of, policy_of, show_of};
ghost use Rattle.tracer_workers.specs.Policy.{filtered_kind};

use record_printer::Show;
use std::alloc::Allocator;
use trace_options::{CallSet, Filter, Options};
use trace_record::{Kind, Resume, Stop, StopRecord};

/// How a case is traced and printed (strace(1), `-f`, `--seccomp-bpf`, `-s`, `-e`). The printed text depends on
/// `follow`, `limit` and `shown` alone.
#[derive(Clone, Copy, Debug, PartialEq, Eq, Hash)]
pub struct Config {
    /// Trace the children that forks and clones create.
    pub follow: bool,
    /// Stop at the system calls that are shown by a filter, and at no others.
    pub seccomp: bool,
    /// Stop each tracee before its death (ptrace(2), `PTRACE_EVENT_EXIT`).
    pub exits: bool,
    /// How many tracers share the tracees, 1 to 16.
    pub workers: u32,
    /// How many bytes of a string or of a buffer, and how many entries of an array, are printed at most.
    pub limit: u32,
    /// The system calls that are printed.
    pub shown: CallSet,
}

impl Config {
    /// The options of its tracees (ptrace(2), `PTRACE_SETOPTIONS`): TRACESYSGOOD and TRACEEXEC, TRACEFORK and TRACECLONE
    /// where children are followed, TRACESECCOMP where there is a filter, TRACEEXIT where tracees stop before their
    /// deaths.
    pub fn options(&self) -> Options
        ensures { result ≡ options_of self.now }
    {
        let mut options = Options::TRACESYSGOOD;
        options.insert(Options::TRACEEXEC);
        if self.follow {
            options.insert(Options::TRACEFORK);
            options.insert(Options::TRACECLONE);
        }
        if self.seccomp {
            options.insert(Options::TRACESECCOMP);
        }
        if self.exits {
            options.insert(Options::TRACEEXIT);
        }
        options
    }

    /// The filter of its tracees, which stops the calls that are shown and hands the tracer 0 (seccomp(2)).
    pub fn filter(&self) -> Filter
        ensures { result ≡ filter_of self.now }
    {
        let calls = self.shown;
        Filter { calls, ret_data: 0 }
    }

    /// What is printed.
    pub fn show(&self) -> Show
        ensures { result ≡ show_of self.now }
    {
        Show {
            limit: self.limit,
            calls: self.shown,
        }
    }
}

/// How a tracer restarts a tracee at a stop (ptrace(2), `PTRACE_SYSCALL`, `PTRACE_CONT`). Without a filter the tracee
/// runs on to its next syscall-stop. With one it does so only in a call that is shown; otherwise it runs on to its next
/// other stop. A signal-delivery-stop's signal is handed over; at the stop before a death no signal is.
pub fn policy<A: Allocator>(stop: &StopRecord<A>, config: &Config) -> Resume
    ensures { result ≡ policy_of config.now stop.now }
{
    let signal = match stop.stop {
        Stop::Signal(signal) => signal,
        _ => 0,
    };
    let kind = if config.seccomp {
        filtered_kind(stop.stop, config.shown.contains(stop.regs.nr()))
    } else {
        Kind::Syscall
    };
    Resume { kind, signal }
}

/// The kind of a restart with a filter; whether the call is shown.
fn filtered_kind(stop: Stop, shown: bool) -> Kind
    ensures { result ≡ filtered_kind shown stop }
{
    match stop {
        Stop::Seccomp(_) => Kind::Syscall,
        Stop::Fork(_) | Stop::Clone(_) | Stop::Exec(_) if shown => Kind::Syscall,
        _ => Kind::Cont,
    }
}
