use super::laws::{a_status_reports_one_death, numbers_are_fixed, statuses_are_encoded};
use super::*;
use std::fmt::Debug;
use std::process::Abort;
use trace_regs::Regs;
use trace_status::{Part, SyscallInfo, WaitStatus, decode};

/// Ends a test where two values differ, and says both. An `assert_eq!` is written out, and proved, wherever it stands,
/// which takes most of the time of a test's proof.
fn same<R: Abort, T: PartialEq + Debug>(rt: &R, found: &T, wanted: &T) {
    assert_eq!(rt; found, wanted);
}

/// Killed by SIGTERM.
const TERMINATED: Death = Death::Signaled {
    signal: 15,
    core: false,
};

/// Killed by SIGSEGV, with a core dump.
const DUMPED: Death = Death::Signaled {
    signal: 11,
    core: true,
};

#[test]
fn a_stop_decodes_as_its_name_says(rt: HostRuntime) {
    for (stop, raw, status) in [
        (Stop::Start, 0x80057f, WaitStatus::PtraceEvent(9, 5, 128)),
        (Stop::Enter, 0x857f, WaitStatus::PtraceSyscall(9)),
        (Stop::Exit, 0x857f, WaitStatus::PtraceSyscall(9)),
        (
            Stop::Seccomp(0xffff),
            0x7057f,
            WaitStatus::PtraceEvent(9, 5, 7),
        ),
        (Stop::Fork(10), 0x1057f, WaitStatus::PtraceEvent(9, 5, 1)),
        (Stop::Clone(10), 0x3057f, WaitStatus::PtraceEvent(9, 5, 3)),
        (Stop::Exec(8), 0x4057f, WaitStatus::PtraceEvent(9, 5, 4)),
        (Stop::Signal(15), 0x0f7f, WaitStatus::Stopped(9, 15)),
        (Stop::Signal(64), 0x407f, WaitStatus::Stopped(9, 64)),
        (
            Stop::Ending(Death::Exited(3)),
            0x6057f,
            WaitStatus::PtraceEvent(9, 5, 6),
        ),
        (
            Stop::Ending(TERMINATED),
            0x6057f,
            WaitStatus::PtraceEvent(9, 5, 6),
        ),
    ] {
        same(&rt, &(stop, stop.status()), &(stop, raw));
        same(&rt, &(stop, decode(9, raw)), &(stop, Some(status)));
    }
}

#[test]
fn a_birth_names_its_child(rt: HostRuntime) {
    same(&rt, &Stop::Fork(10).child(), &Some(10));
    same(&rt, &Stop::Clone(11).child(), &Some(11));
    same(&rt, &Stop::Exec(12).child(), &None);
    same(&rt, &Stop::Start.child(), &None);
    same(&rt, &Stop::Ending(Death::Exited(13)).child(), &None);
}

#[test]
fn a_death_decodes_as_its_name_says(rt: HostRuntime) {
    let exited = Death::Exited(3);
    same(&rt, &exited.status(), &0x0300);
    same(&rt, &decode(9, 0x0300), &Some(WaitStatus::Exited(9, 3)));
    let killed = Death::Signaled {
        signal: 15,
        core: false,
    };
    same(&rt, &killed.status(), &0x000f);
    same(
        &rt,
        &decode(9, 0x000f),
        &Some(WaitStatus::Signaled(9, 15, false)),
    );
    let dumped = Death::Signaled {
        signal: 11,
        core: true,
    };
    same(&rt, &dumped.status(), &0x008b);
    same(
        &rt,
        &decode(9, 0x008b),
        &Some(WaitStatus::Signaled(9, 11, true)),
    );
}

#[test]
fn a_death_is_read_from_its_raw_status(rt: HostRuntime) {
    let killed = Death::Signaled {
        signal: 15,
        core: false,
    };
    let dumped = Death::Signaled {
        signal: 11,
        core: true,
    };
    let last = Death::Signaled {
        signal: 64,
        core: true,
    };
    for (raw, death) in [
        (0x0000, Some(Death::Exited(0))),
        (0x0100, Some(Death::Exited(1))),
        (0xff00, Some(Death::Exited(255))),
        (0x000f, Some(killed)),
        (0x008b, Some(dumped)),
        (0x00c0, Some(last)),
        // No signal killed, with and without a core dump; signal 65; a byte too many.
        (0x0080, None),
        (0x0041, None),
        (0x00c1, None),
        (0x10000, None),
        (0x010f, None),
        // A stop without a signal, and stops: by SIGTERM, at a system call, at an event.
        (0x007f, None),
        (0x0f7f, None),
        (0x857f, None),
        (0x80057f, None),
    ] {
        same(&rt, &(raw, Death::from_status(raw)), &(raw, death));
    }
}

#[test]
fn a_death_out_of_range_has_a_status_that_reports_none(rt: HostRuntime) {
    let none = Death::Signaled {
        signal: 255,
        core: true,
    };
    same(&rt, &none.status(), &0x17f);
    same(&rt, &Death::from_status(0x17f), &None);
}

#[test]
fn the_laws_are_there() {
    a_status_reports_one_death();
    statuses_are_encoded();
    numbers_are_fixed();
}

/// The registers of a call with its number and its arguments.
const CALL: Regs = Regs {
    r15: 0,
    r14: 0,
    r13: 0,
    r12: 0,
    rbp: 0,
    rbx: 0,
    r11: 0,
    r10: 4,
    r9: 6,
    r8: 5,
    rax: 3,
    rcx: 99,
    rdx: 3,
    rsi: 2,
    rdi: 1,
    orig_rax: 60,
    rip: 0x401002,
    cs: 0,
    eflags: 0,
    rsp: 0x7ff000,
    ss: 0,
    fs_base: 0,
    gs_base: 0,
    ds: 0,
    es: 0,
    fs: 0,
    gs: 0,
};

#[test]
fn a_record_shows_its_stop(rt: HostRuntime) {
    let args = [1, 2, 3, 4, 5, 6];
    let entry = Part::Entry { nr: 60, args };
    let seccomp = Part::Seccomp {
        nr: 60,
        args,
        ret_data: 0xffff,
    };
    let exit = Part::Exit {
        rval: 3,
        is_error: false,
    };
    let mut record = StopRecord::empty(rt.alloc(), 9);
    record.regs = CALL;
    for (stop, raw, part, message) in [
        (Stop::Start, 0x80057f, Part::Quiet, 0),
        (Stop::Enter, 0x857f, entry, 0),
        (Stop::Exit, 0x857f, exit, 0),
        (Stop::Seccomp(0xffff), 0x7057f, seccomp, 0xffff),
        (Stop::Fork(10), 0x1057f, Part::Quiet, 10),
        (Stop::Clone(11), 0x3057f, Part::Quiet, 11),
        (Stop::Exec(8), 0x4057f, Part::Quiet, 8),
        (Stop::Signal(15), 0x0f7f, Part::Quiet, 0),
        (Stop::Ending(Death::Exited(3)), 0x6057f, Part::Quiet, 768),
        (Stop::Ending(TERMINATED), 0x6057f, Part::Quiet, 15),
        (Stop::Ending(DUMPED), 0x6057f, Part::Quiet, 139),
    ] {
        record.stop = stop;
        same(&rt, &(stop, record.status()), &(stop, raw));
        same(&rt, &(stop, record.event_message()), &(stop, message));
        let info = SyscallInfo {
            arch: 0xC000003E,
            ip: 0x401002,
            sp: 0x7ff000,
            part,
        };
        same(&rt, &(stop, record.info()), &(stop, info));
    }
}

#[test]
fn the_last_4095_answers_are_errors(rt: HostRuntime) {
    let mut record = StopRecord::empty(rt.alloc(), 9);
    record.stop = Stop::Exit;
    for (rax, rval, is_error) in [
        (u64::MAX, -1, true),
        (u64::MAX - 4094, -4095, true),
        (u64::MAX - 4095, -4096, false),
        (0, 0, false),
    ] {
        record.regs.rax = rax;
        let part = Part::Exit { rval, is_error };
        same(&rt, &(rax, record.info().part), &(rax, part));
    }
}

#[test]
fn an_exit_stop_has_the_bytes_of_its_layout(rt: HostRuntime) {
    let mut record = StopRecord::empty(rt.alloc(), 9);
    record.stop = Stop::Exit;
    record.regs = CALL;
    let mut buffer = [0xaa; 33];
    same(&rt, &record.info().write_to(&mut buffer), &33);
    let bytes = [
        2, 0, 0, 0, 0x3e, 0, 0, 0xc0, 0x02, 0x10, 0x40, 0, 0, 0, 0, 0, 0, 0xf0, 0x7f, 0, 0, 0, 0,
        0, 3, 0, 0, 0, 0, 0, 0, 0, 0,
    ];
    same(&rt, &buffer, &bytes);
}

#[test]
fn an_empty_record_has_no_memory(rt: HostRuntime) {
    let record = StopRecord::empty(rt.alloc(), 9);
    same(&rt, &record.tid, &9);
    same(&rt, &record.number, &0);
    same(&rt, &record.stop, &Stop::Start);
    same(&rt, &record.regs, &Regs::default());
    same(&rt, &record.memory.byte(0), &None);
}
