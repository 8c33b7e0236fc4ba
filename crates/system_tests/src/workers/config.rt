//! How cases are traced, by values worked out by hand.

use crate::compare::same;
use trace_options::CallSet;
use trace_record::{Death, Kind, Resume, Stop, StopRecord};
use tracer_workers::{Config, policy};

/// The number of write(2).
const WRITE: u64 = 1;

/// Killed by SIGTERM.
const TERMINATED: Death = Death::Signaled {
    signal: 15,
    core: false,
};

/// A configuration that shows write(2) alone.
fn writes(follow: bool, seccomp: bool) -> Config {
    let mut shown = CallSet::none();
    shown.add(WRITE);
    Config {
        follow,
        seccomp,
        exits: false,
        workers: 4,
        limit: 32,
        shown,
    }
}

/// The same, with a stop before each death.
fn with_exits(follow: bool, seccomp: bool) -> Config {
    Config {
        exits: true,
        ..writes(follow, seccomp)
    }
}

#[test]
fn options_are_those_of_the_manual(rt: HostRuntime) {
    // TRACESYSGOOD 0x1, TRACEFORK 0x2, TRACECLONE 0x8, TRACEEXEC 0x10, TRACEEXIT 0x40, TRACESECCOMP 0x80.
    same(&rt, &writes(false, false).options().bits(), &0x11);
    same(&rt, &writes(true, false).options().bits(), &0x1b);
    same(&rt, &writes(false, true).options().bits(), &0x91);
    same(&rt, &writes(true, true).options().bits(), &0x9b);
    same(&rt, &with_exits(false, false).options().bits(), &0x51);
    same(&rt, &with_exits(true, false).options().bits(), &0x5b);
    same(&rt, &with_exits(true, true).options().bits(), &0xdb);
}

#[test]
fn the_filter_stops_what_is_shown(rt: HostRuntime) {
    let filter = writes(true, true).filter();
    assert!(rt; filter.calls.contains(WRITE) && !filter.calls.contains(0));
    same(&rt, &filter.ret_data, &0);
    let show = writes(true, true).show();
    assert!(rt; show.calls.contains(WRITE) && !show.calls.contains(0));
    same(&rt, &show.limit, &32);
}

/// The restart at a stop in a call of this number.
fn restart_at(rt: &HostRuntime, stop: Stop, nr: u64, config: &Config) -> Resume {
    let mut record = StopRecord::empty(rt.alloc(), 100);
    record.stop = stop;
    record.regs.orig_rax = nr;
    policy(&record, config)
}

#[test]
fn restarts_are_those_of_the_mode(rt: HostRuntime) {
    let (plain, filtered) = (writes(true, false), writes(true, true));
    let stops = [
        (Stop::Start, Kind::Cont, Kind::Cont),
        (Stop::Seccomp(0), Kind::Syscall, Kind::Syscall),
        (Stop::Enter, Kind::Cont, Kind::Cont),
        (Stop::Exit, Kind::Cont, Kind::Cont),
        (Stop::Fork(101), Kind::Syscall, Kind::Cont),
        (Stop::Clone(101), Kind::Syscall, Kind::Cont),
        (Stop::Exec(100), Kind::Syscall, Kind::Cont),
        (Stop::Signal(15), Kind::Cont, Kind::Cont),
        (Stop::Ending(Death::Exited(3)), Kind::Cont, Kind::Cont),
        (Stop::Ending(TERMINATED), Kind::Cont, Kind::Cont),
    ];
    for (stop, shown, hidden) in stops {
        let signal = if stop == Stop::Signal(15) { 15 } else { 0 };
        let plainly = Resume {
            kind: Kind::Syscall,
            signal,
        };
        same(&rt, &restart_at(&rt, stop, WRITE, &plain), &plainly);
        let in_shown = Resume {
            kind: shown,
            signal,
        };
        same(&rt, &restart_at(&rt, stop, WRITE, &filtered), &in_shown);
        let in_hidden = Resume {
            kind: hidden,
            signal,
        };
        same(&rt, &restart_at(&rt, stop, 0, &filtered), &in_hidden);
    }
}
