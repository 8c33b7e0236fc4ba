use super::laws::{fields_are_in_place, numbers_are_fixed, one_to_one};
use super::*;
use std::fmt::Debug;
use std::process::Abort;

/// Ends a test where two values differ, and says both. An `assert_eq!` is written out, and proved, wherever it stands,
/// which takes most of the time of a test's proof.
fn same<R: Abort, T: PartialEq + Debug>(rt: &R, found: &T, wanted: &T) {
    assert_eq!(rt; found, wanted);
}

/// Raw values of pid 9, worked out by hand from wait(2) and ptrace(2).
const TABLE: [(u32, WaitStatus); 7] = [
    (0x857f, WaitStatus::PtraceSyscall(9)),
    (0x3057f, WaitStatus::PtraceEvent(9, 5, 3)),
    (0x80057f, WaitStatus::PtraceEvent(9, 5, 128)),
    (0x0f7f, WaitStatus::Stopped(9, 15)),
    (0x0100, WaitStatus::Exited(9, 1)),
    (0x000f, WaitStatus::Signaled(9, 15, false)),
    (0x008b, WaitStatus::Signaled(9, 11, true)),
];

#[test]
fn a_raw_value_tells_its_status(rt: HostRuntime) {
    for (raw, status) in TABLE {
        same(&rt, &(raw, decode(9, raw)), &(raw, Some(status)));
    }
}

#[test]
fn a_value_of_no_status_is_refused(rt: HostRuntime) {
    for raw in [
        0xffff, 0x0080, 0x9057f, 0x007f, 0x417f, 0x10000, 0x0041, 0x1057f00,
    ] {
        same(&rt, &(raw, decode(9, raw)), &(raw, None));
    }
}

#[test]
fn a_status_has_its_raw_value(rt: HostRuntime) {
    for (raw, status) in TABLE {
        same(&rt, &(status, encode(&status)), &(status, Some(raw)));
    }
}

#[test]
fn what_has_no_raw_value_is_refused(rt: HostRuntime) {
    for status in [
        WaitStatus::StillAlive,
        WaitStatus::Stopped(9, 65),
        WaitStatus::Stopped(9, 0),
        WaitStatus::Signaled(9, 0, true),
        WaitStatus::PtraceEvent(9, 15, 3),
        WaitStatus::PtraceEvent(9, 5, 8),
    ] {
        same(&rt, &(status, encode(&status)), &(status, None));
    }
}

#[test]
fn the_laws_are_there() {
    one_to_one();
    numbers_are_fixed();
    fields_are_in_place();
}

/// The information of a syscall-exit-stop whose call answered 3.
const EXIT: SyscallInfo = SyscallInfo {
    arch: 0xc000003e,
    ip: 0x401002,
    sp: 0x7ff000,
    part: Part::Exit {
        rval: 3,
        is_error: false,
    },
};

/// Its bytes, worked out by hand from the table of ptrace(2), `struct ptrace_syscall_info`.
const EXIT_BYTES: [u8; 33] = [
    2, 0, 0, 0, 0x3e, 0, 0, 0xc0, 0x02, 0x10, 0x40, 0, 0, 0, 0, 0, 0, 0xf0, 0x7f, 0, 0, 0, 0, 0, 3,
    0, 0, 0, 0, 0, 0, 0, 0,
];

#[test]
fn the_layout_is_cut_to_the_buffer(rt: HostRuntime) {
    for long in [0, 24, 32, 33, 84] {
        let mut buffer = [0xaa; 84];
        same(
            &rt,
            &(long, EXIT.write_to(&mut buffer[..long])),
            &(long, 33),
        );
        let cut = long.min(33);
        same(&rt, &(long, &buffer[..cut]), &(long, &EXIT_BYTES[..cut]));
        for at in cut..84 {
            same(&rt, &(long, at, buffer[at]), &(long, at, 0xaa));
        }
    }
}

#[test]
fn a_whole_layout_is_read(rt: HostRuntime) {
    same(&rt, &SyscallInfo::read(&EXIT_BYTES), &Some(EXIT));
}

#[test]
fn what_is_no_whole_layout_is_refused(rt: HostRuntime) {
    same(&rt, &SyscallInfo::read(&EXIT_BYTES[..32]), &None);
    let mut longer = [0; 34];
    longer[..33].copy_from_slice(&EXIT_BYTES);
    same(&rt, &SyscallInfo::read(&longer), &None);
    let mut padded = EXIT_BYTES;
    padded[1] = 1;
    same(&rt, &SyscallInfo::read(&padded), &None);
    let mut other = EXIT_BYTES;
    other[32] = 2;
    same(&rt, &SyscallInfo::read(&other), &None);
    let mut entry = EXIT_BYTES;
    entry[0] = 1;
    same(&rt, &SyscallInfo::read(&entry), &None);
}

#[test]
fn each_part_has_its_length(rt: HostRuntime) {
    let args = [1, 2, 3, 4, 5, u64::MAX];
    for (part, op, long) in [
        (Part::Quiet, 0, 24),
        (Part::Entry { nr: 60, args }, 1, 80),
        (
            Part::Exit {
                rval: -1,
                is_error: true,
            },
            2,
            33,
        ),
        (
            Part::Seccomp {
                nr: 60,
                args,
                ret_data: 0x12345,
            },
            3,
            84,
        ),
    ] {
        let info = SyscallInfo { part, ..EXIT };
        let mut buffer = [0; 84];
        same(&rt, &(part, info.write_to(&mut buffer)), &(part, long));
        same(&rt, &(part, buffer[0]), &(part, op));
        same(
            &rt,
            &(part, SyscallInfo::read(&buffer[..long])),
            &(part, Some(info)),
        );
    }
}

#[test]
fn a_seccomp_stop_fills_a_short_buffer(rt: HostRuntime) {
    let info = SyscallInfo {
        part: Part::Seccomp {
            nr: 0x3c,
            args: [7, 0, 0, 0, 0, 0],
            ret_data: 9,
        },
        ..EXIT
    };
    let mut buffer = [0xaa; 33];
    same(&rt, &info.write_to(&mut buffer), &84);
    same(&rt, &&buffer[..4], &[3, 0, 0, 0].as_slice());
    same(
        &rt,
        &&buffer[24..33],
        &[0x3c, 0, 0, 0, 0, 0, 0, 0, 7].as_slice(),
    );
}
