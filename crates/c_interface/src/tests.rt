//! Each call for C once, with an answer worked out by hand from ptrace(2), waitid(2) and errno(3), and each refusal.

mod cells;
mod machines;
mod scripts;
mod waits;

use super::*;
use std::fmt::Debug;
use std::process::Abort;
use std::test::Fail;
use stop_board::{Board, Roster, Row};
use trace_record::{Death, Kind, Resume, Stop};

/// Ends a test where two values differ, and says both.
fn same<R: Abort, T: PartialEq + Debug>(rt: &R, found: &T, wanted: &T) {
    assert_eq!(rt; found, wanted);
}

/// A stop in numbers.
fn stop(kind: u32, value: u32) -> CStop {
    CStop { kind, value }
}

/// A state in numbers.
fn state(phase: u32, number: u32, tracer: u32, status: u32) -> CState {
    CState {
        phase,
        number,
        tracer,
        status,
    }
}

#[test]
fn a_stop_is_two_numbers(rt: HostRuntime) {
    let killed = Death::Signaled {
        signal: 11,
        core: true,
    };
    for (at, kind, value) in [
        (Stop::Start, 0, 0),
        (Stop::Enter, 1, 0),
        (Stop::Exit, 2, 0),
        (Stop::Seccomp(65535), 3, 65535),
        (Stop::Fork(101), 4, 101),
        (Stop::Clone(102), 5, 102),
        (Stop::Exec(100), 6, 100),
        (Stop::Signal(64), 7, 64),
        (Stop::Ending(killed), 8, 0x8b),
    ] {
        same(&rt, &CStop::of(at), &stop(kind, value));
        same(&rt, &stop(kind, value).stop(), &Some(at));
    }
    for (kind, value) in [(0, 1), (3, 65536), (7, 0), (7, 65), (8, 0x7f), (9, 0)] {
        same(&rt, &(kind, stop(kind, value).stop()), &(kind, None));
    }
}

#[test]
fn errors_have_their_numbers(rt: HostRuntime) {
    for (error, number) in [
        (Error::EPERM, 1),
        (Error::ESRCH, 3),
        (Error::EIO, 5),
        (Error::EBADF, 9),
        (Error::ECHILD, 10),
        (Error::EAGAIN, 11),
        (Error::ENOMEM, 12),
        (Error::EFAULT, 14),
        (Error::EBUSY, 16),
        (Error::EEXIST, 17),
        (Error::EINVAL, 22),
        (Error::ENOSPC, 28),
        (Error::EOVERFLOW, 75),
        (Error::EALREADY, 114),
    ] {
        same(&rt, &(error, error.number()), &(error, number));
    }
}

/// A root, and a thread of its group.
const ROWS: [Row; 2] = [
    Row {
        tid: 100,
        tgid: 100,
        pgid: 77,
        parent: 0,
    },
    Row {
        tid: 101,
        tgid: 100,
        pgid: 77,
        parent: 100,
    },
];

#[test]
fn a_board_answers_in_numbers(rt: HostRuntime) -> Result<(), Fail> {
    let roster = Roster::new(rt.alloc(), &ROWS)?;
    let mut board = Board::new(rt.alloc(), &roster)?;
    let cont = CRestart::of(Resume {
        kind: Kind::Cont,
        signal: 0,
    });
    same(&rt, &board_state(&board, 1), &state(1, 0, 0, 0));
    same(&rt, &board_state(&board, 2), &state(0, 0, 0, 0));
    same(&rt, &board_publish(&mut board, 0, stop(0, 0)), &Ok(1));
    same(&rt, &board_state(&board, 0), &state(3, 1, 0, 0x80057f));
    let got = CGot {
        number: 1,
        status: 0x80057f,
        death: 0,
    };
    same(&rt, &board_claim(&mut board, 0, 3), &Ok(got));
    same(&rt, &board_state(&board, 0), &state(4, 1, 3, 0));
    same(&rt, &board_resume(&mut board, 0, 3, cont), &Ok(()));
    same(&rt, &board_publish(&mut board, 0, stop(5, 101)), &Ok(2));
    same(&rt, &board_exit(&mut board, 1, 0x0f), &Ok(()));
    let reaped = CGot {
        number: 0,
        status: 0x0f,
        death: 1,
    };
    same(&rt, &board_claim(&mut board, 1, 0), &Ok(reaped));
    Ok(())
}

#[test]
fn a_board_refuses_by_errors(rt: HostRuntime) -> Result<(), Fail> {
    let roster = Roster::new(rt.alloc(), &ROWS)?;
    let mut board = Board::new(rt.alloc(), &roster)?;
    let with = |kind, signal| CRestart { kind, signal };
    same(
        &rt,
        &board_publish(&mut board, 2, stop(0, 0)),
        &Err(Error::EINVAL),
    );
    same(
        &rt,
        &board_publish(&mut board, 0, stop(9, 0)),
        &Err(Error::EINVAL),
    );
    same(
        &rt,
        &board_publish(&mut board, 0, stop(5, 999)),
        &Err(Error::EINVAL),
    );
    same(
        &rt,
        &board_publish(&mut board, 1, stop(0, 0)),
        &Err(Error::ECHILD),
    );
    same(&rt, &board_claim(&mut board, 0, 0), &Err(Error::EAGAIN));
    same(&rt, &board_claim(&mut board, 0, 16), &Err(Error::EINVAL));
    same(
        &rt,
        &board_resume(&mut board, 0, 0, with(0, 65)),
        &Err(Error::ESRCH),
    );
    same(&rt, &board_publish(&mut board, 0, stop(5, 101)), &Ok(1));
    same(
        &rt,
        &board_publish(&mut board, 0, stop(0, 0)),
        &Err(Error::EALREADY),
    );
    assert!(rt; board_claim(&mut board, 0, 0).is_ok());
    same(
        &rt,
        &board_resume(&mut board, 0, 1, with(0, 0)),
        &Err(Error::EPERM),
    );
    same(
        &rt,
        &board_resume(&mut board, 0, 0, with(2, 0)),
        &Err(Error::EINVAL),
    );
    same(
        &rt,
        &board_resume(&mut board, 0, 0, with(0, 65)),
        &Err(Error::EIO),
    );
    same(&rt, &board_resume(&mut board, 0, 0, with(1, 64)), &Ok(()));
    same(&rt, &board_exit(&mut board, 0, 0x7f), &Err(Error::EINVAL));
    same(&rt, &board_exit(&mut board, 0, 0), &Err(Error::EBUSY));
    Ok(())
}

#[test]
fn a_record_is_read_and_written(rt: HostRuntime) {
    let Ok(mut held) = record_open(rt.alloc(), 4_194_303) else {
        return same(&rt, &false, &true);
    };
    same(&rt, &record_open(rt.alloc(), 0).is_err(), &true);
    same(&rt, &record_open(rt.alloc(), 4_194_304).is_err(), &true);
    same(&rt, &record_set_stop(&mut held, 2, stop(4, 101)), &Ok(()));
    same(&rt, &record_stop(&held), &(2, stop(4, 101)));
    same(&rt, &record_message(&held), &101);
    same(
        &rt,
        &record_set_stop(&mut held, 3, stop(9, 0)),
        &Err(Error::EINVAL),
    );
    same(
        &rt,
        &record_set_stop(&mut held, 0x100_0000, stop(2, 0)),
        &Err(Error::EINVAL),
    );
    same(&rt, &record_map(&mut held, 0x10000), &Ok(()));
    same(&rt, &record_map(&mut held, 0x10000), &Err(Error::EEXIST));
    same(&rt, &record_map(&mut held, 0x10001), &Err(Error::EINVAL));
    same(&rt, &record_write(&mut held, 0x10ffe, &[1, 2]), &Ok(()));
    same(
        &rt,
        &record_write(&mut held, 0x10ffe, &[3, 4, 5]),
        &Err(Error::EIO),
    );
    let mut to = [9; 3];
    same(&rt, &record_read(&held, 0x10ffe, &mut to), &2);
    same(&rt, &to, &[1, 2, 9]);
}

/// The information of a syscall-exit-stop at 0x401002, whose call answered 3 (ptrace(2), `struct ptrace_syscall_info`).
const EXIT_INFO: [u8; 33] = [
    2, 0, 0, 0, 0x3e, 0, 0, 0xc0, 0x02, 0x10, 0x40, 0, 0, 0, 0, 0, 0, 0xf0, 0x7f, 0, 0, 0, 0, 0, 3,
    0, 0, 0, 0, 0, 0, 0, 0,
];

#[test]
fn registers_cross_one_by_one(rt: HostRuntime) {
    let Ok(mut held) = record_open(rt.alloc(), 100) else {
        return same(&rt, &false, &true);
    };
    let mut regs = record_getregs(&held);
    same(&rt, &(regs.rip, regs.rax), &(0, 0));
    regs.rip = 0x401002;
    regs.rsp = 0x7ff000;
    regs.rax = 3;
    record_setregs(&mut held, &regs);
    let read = record_getregs(&held);
    same(
        &rt,
        &(read.rip, read.rsp, read.rax),
        &(0x401002, 0x7ff000, 3),
    );
    same(&rt, &record_set_stop(&mut held, 1, stop(2, 0)), &Ok(()));
    let mut info = [0xff; 33];
    same(&rt, &record_syscall_info(&held, &mut info), &33);
    assert!(rt; info == EXIT_INFO);
    let mut short = [0xff; 2];
    same(&rt, &record_syscall_info(&held, &mut short), &33);
    same(&rt, &short, &[2, 0]);
}
