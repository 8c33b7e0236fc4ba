use super::ArgumentKind::{
    Address, CString, Hexadecimal, InBuffer, InIovecs, Int, Mode, OutBuffer, OutIovecs, Unsigned,
};
use super::laws::{errors_rise, numbers_are_fixed, signals_have_names, syscalls_are_one_to_one};
use super::*;
use std::fmt::Debug;
use std::process::Abort;

/// Ends a test where two values differ, and says both. An `assert_eq!` is written out, and proved, wherever it stands,
/// which takes most of the time of a test's proof.
fn same<R: Abort, T: PartialEq + Debug>(rt: &R, found: &T, wanted: &T) {
    assert_eq!(rt; found, wanted);
}

/// Ends a test where something does not hold, and says what should.
fn holds<R: Abort>(rt: &R, is_so: bool, what: &str) {
    assert!(rt; is_so, "{what}");
}

/// The events and their numbers, from ptrace(2) and `<sys/ptrace.h>`.
const EVENTS: [(u8, Event); 8] = [
    (1, Event::Fork),
    (2, Event::Vfork),
    (3, Event::Clone),
    (4, Event::Exec),
    (5, Event::VforkDone),
    (6, Event::Exit),
    (7, Event::Seccomp),
    (128, Event::Stop),
];

#[test]
fn options_are_their_bits(rt: HostRuntime) {
    for (bits, option) in [
        (0x1, Options::TRACESYSGOOD),
        (0x2, Options::TRACEFORK),
        (0x4, Options::TRACEVFORK),
        (0x8, Options::TRACECLONE),
        (0x10, Options::TRACEEXEC),
        (0x20, Options::TRACEVFORKDONE),
        (0x40, Options::TRACEEXIT),
        (0x80, Options::TRACESECCOMP),
    ] {
        same(
            &rt,
            &(bits, Options::from_bits(bits)),
            &(bits, Some(option)),
        );
        same(&rt, &option.bits(), &bits);
    }
    same(
        &rt,
        &Options::from_bits(0).map(|options| options.bits()),
        &Some(0),
    );
    same(
        &rt,
        &Options::from_bits(0xff).map(|options| options.bits()),
        &Some(0xff),
    );
    same(&rt, &Options::from_bits(0x100), &None);
    same(&rt, &Options::from_bits(0x8000_0001), &None);
}

#[test]
fn options_are_added(rt: HostRuntime) {
    let mut options = Options::TRACESYSGOOD;
    assert!(rt; !options.contains(Options::TRACEFORK));
    options.insert(Options::TRACEFORK);
    options.insert(Options::TRACECLONE);
    options.insert(Options::TRACEFORK);
    same(&rt, &options.bits(), &0xb);
    assert!(rt; options.contains(Options::TRACEFORK));
    let mut more = Options::TRACEFORK;
    more.insert(Options::TRACEEXEC);
    holds(&rt, !options.contains(more), "one of the two is not there");
}

#[test]
fn wait_flags_are_their_bits(rt: HostRuntime) {
    for (bits, flag) in [
        (1, WaitFlags::WNOHANG),
        (2, WaitFlags::WUNTRACED),
        (2, WaitFlags::WSTOPPED),
        (4, WaitFlags::WEXITED),
        (8, WaitFlags::WCONTINUED),
        (0x0100_0000, WaitFlags::WNOWAIT),
        (0x4000_0000, WaitFlags::WALL),
    ] {
        same(
            &rt,
            &(bits, WaitFlags::from_bits(bits)),
            &(bits, Some(flag)),
        );
        same(&rt, &flag.bits(), &bits);
    }
    same(&rt, &WaitFlags::from_bits(0x10), &None);
    same(&rt, &WaitFlags::from_bits(0x8000_0000), &None);
    let mut flags = WaitFlags::WEXITED;
    flags.insert(WaitFlags::WNOHANG);
    same(&rt, &flags.bits(), &5);
    assert!(rt; flags.contains(WaitFlags::WNOHANG));
    assert!(rt; !flags.contains(WaitFlags::WSTOPPED));
}

#[test]
fn an_event_is_its_number(rt: HostRuntime) {
    for (code, event) in EVENTS {
        same(&rt, &(event, event.code()), &(event, code));
        same(&rt, &Event::from_code(code), &Some(event));
    }
    for code in [0, 8, 127, 129, 255] {
        same(&rt, &(code, Event::from_code(code)), &(code, None));
    }
}

#[test]
fn a_tracer_takes_some_options(rt: HostRuntime) {
    for (bits, answer) in [
        (0x1, Ok(())),
        (0x1b, Ok(())),
        (0x9b, Ok(())),
        (0x41, Ok(())),
        (0x5b, Ok(())),
        (0x0, Err(Errno::EINVAL)),
        (0x1a, Err(Errno::EINVAL)),
        (0x3, Err(Errno::EINVAL)),
        (0x9, Err(Errno::EINVAL)),
        (0x5, Err(Errno::EINVAL)),
        (0x21, Err(Errno::EINVAL)),
        (0x65, Err(Errno::EINVAL)),
    ] {
        same(
            &rt,
            &(bits, Options::from_bits(bits).map(check)),
            &(bits, Some(answer)),
        );
    }
}

#[test]
fn the_set_of_all_calls_has_the_highest_too(rt: HostRuntime) {
    for nr in [0, 127, 128, u64::MAX] {
        same(&rt, &(nr, CallSet::all().contains(nr)), &(nr, true));
        same(&rt, &(nr, !CallSet::none().contains(nr)), &(nr, true));
    }
}

#[test]
fn calls_are_added_one_by_one(rt: HostRuntime) {
    let mut some = CallSet::none();
    some.add(0);
    some.add(59);
    some.add(127);
    for (nr, is_in) in [
        (0, true),
        (1, false),
        (59, true),
        (127, true),
        (128, false),
        (187, false),
    ] {
        same(&rt, &(nr, some.contains(nr)), &(nr, is_in));
    }
    let mut every = CallSet::none();
    for nr in 0..128 {
        every.add(nr);
    }
    assert!(rt; every.contains(127));
    assert!(rt; !every.contains(128));
    assert!(rt; every != CallSet::all());
    let filter = Filter {
        calls: some,
        ret_data: 0xffff,
    };
    assert!(rt; filter.calls.contains(59));
}

/// The system calls and their numbers, from `<asm/unistd_64.h>`, and the types of their parameters, from section 2 of
/// the manual. Of clone(2) the flags alone are printed, of execve(2) the two arrays by their addresses.
const CALLS: [(u64, &[u8], &[ArgumentKind]); 15] = [
    (0, b"read", &[Int, OutBuffer, Unsigned]),
    (1, b"write", &[Int, InBuffer, Unsigned]),
    (3, b"close", &[Int]),
    (19, b"readv", &[Int, OutIovecs, Unsigned]),
    (20, b"writev", &[Int, InIovecs, Unsigned]),
    (39, b"getpid", &[]),
    (56, b"clone", &[Hexadecimal]),
    (57, b"fork", &[]),
    (59, b"execve", &[CString, Address, Address]),
    (60, b"exit", &[Int]),
    (80, b"chdir", &[CString]),
    (82, b"rename", &[CString, CString]),
    (83, b"mkdir", &[CString, Mode]),
    (84, b"rmdir", &[CString]),
    (87, b"unlink", &[CString]),
];

#[test]
fn a_system_call_is_found_by_number_and_by_name(rt: HostRuntime) {
    for (number, name, arguments) in CALLS {
        let call = Some(Syscall {
            number,
            name,
            arguments,
        });
        same(
            &rt,
            &(number, Syscall::from_number(number)),
            &(number, call),
        );
        same(&rt, &(number, Syscall::from_name(name)), &(number, call));
    }
}

#[test]
fn what_is_no_known_call_is_not_found(rt: HostRuntime) {
    for number in (0..512).chain([u64::MAX]) {
        let known = CALLS.iter().any(|call| call.0 == number);
        same(
            &rt,
            &(number, Syscall::from_number(number).is_some()),
            &(number, known),
        );
    }
    let names: [&[u8]; 6] = [b"", b"rea", b"reads", b"READ", b"open", b"syscall_2"];
    for name in names {
        same(&rt, &(name, Syscall::from_name(name)), &(name, None));
    }
}

/// The errors that are printed by name, with the numbers that errno(1) prints.
const NAMED_ERRORS: [(u16, &[u8]); 24] = [
    (1, b"EPERM"),
    (2, b"ENOENT"),
    (3, b"ESRCH"),
    (4, b"EINTR"),
    (5, b"EIO"),
    (7, b"E2BIG"),
    (8, b"ENOEXEC"),
    (9, b"EBADF"),
    (10, b"ECHILD"),
    (11, b"EAGAIN"),
    (12, b"ENOMEM"),
    (13, b"EACCES"),
    (14, b"EFAULT"),
    (16, b"EBUSY"),
    (17, b"EEXIST"),
    (20, b"ENOTDIR"),
    (21, b"EISDIR"),
    (22, b"EINVAL"),
    (24, b"EMFILE"),
    (28, b"ENOSPC"),
    (30, b"EROFS"),
    (32, b"EPIPE"),
    (38, b"ENOSYS"),
    (39, b"ENOTEMPTY"),
];

#[test]
fn an_error_has_the_name_of_its_number(rt: HostRuntime) {
    for (number, name) in NAMED_ERRORS {
        same(&rt, &(number, error_name(number)), &(number, Some(name)));
    }
    for number in 0..4096 {
        let known = NAMED_ERRORS.iter().any(|error| error.0 == number);
        same(
            &rt,
            &(number, error_name(number).is_some()),
            &(number, known),
        );
    }
}

/// The standard signals and their numbers on x86, from signal(7).
const NAMED_SIGNALS: [(u8, &[u8]); 31] = [
    (1, b"SIGHUP"),
    (2, b"SIGINT"),
    (3, b"SIGQUIT"),
    (4, b"SIGILL"),
    (5, b"SIGTRAP"),
    (6, b"SIGABRT"),
    (7, b"SIGBUS"),
    (8, b"SIGFPE"),
    (9, b"SIGKILL"),
    (10, b"SIGUSR1"),
    (11, b"SIGSEGV"),
    (12, b"SIGUSR2"),
    (13, b"SIGPIPE"),
    (14, b"SIGALRM"),
    (15, b"SIGTERM"),
    (16, b"SIGSTKFLT"),
    (17, b"SIGCHLD"),
    (18, b"SIGCONT"),
    (19, b"SIGSTOP"),
    (20, b"SIGTSTP"),
    (21, b"SIGTTIN"),
    (22, b"SIGTTOU"),
    (23, b"SIGURG"),
    (24, b"SIGXCPU"),
    (25, b"SIGXFSZ"),
    (26, b"SIGVTALRM"),
    (27, b"SIGPROF"),
    (28, b"SIGWINCH"),
    (29, b"SIGIO"),
    (30, b"SIGPWR"),
    (31, b"SIGSYS"),
];

#[test]
fn a_standard_signal_has_a_name(rt: HostRuntime) {
    for (number, name) in NAMED_SIGNALS {
        same(&rt, &(number, signal_name(number)), &(number, Some(name)));
    }
    for number in [0, 32, LAST_SIGNAL, 65, 255] {
        same(&rt, &(number, signal_name(number)), &(number, None));
    }
}

#[test]
fn the_laws_hold() {
    syscalls_are_one_to_one();
    errors_rise();
    signals_have_names();
    numbers_are_fixed();
}
