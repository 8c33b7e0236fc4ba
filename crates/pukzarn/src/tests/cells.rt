//! The cells that threads share, all on one thread.

use super::records::no_registers;
use super::*;
use crate::opening::pukzarn_open;
use crate::tracee::{
    pukzarn_tracee_close, pukzarn_tracee_exit, pukzarn_tracee_getregs, pukzarn_tracee_map,
    pukzarn_tracee_publish, pukzarn_tracee_read, pukzarn_tracee_setregs, pukzarn_tracee_take_up,
    pukzarn_tracee_write,
};
use crate::tracer::{
    pukzarn_tracer_close, pukzarn_tracer_getregs, pukzarn_tracer_look, pukzarn_tracer_message,
    pukzarn_tracer_read, pukzarn_tracer_resume, pukzarn_tracer_setregs, pukzarn_tracer_stop,
    pukzarn_tracer_syscall_info, pukzarn_tracer_wait_row, pukzarn_tracer_waitid,
    pukzarn_tracer_waitpid, pukzarn_tracer_write,
};
use std::alloc::Global;

/// `WSTOPPED` (`<sys/wait.h>`).
const STOPS: u32 = 2;

/// The handles of a root and of a tracer, of new cells.
fn opened_row(alloc: Global) -> ([Handle; 1], [Handle; 1]) {
    let (mut tracees, mut tracers, mut faulty) = ([Handle::closed()], [Handle::closed()], 0);
    let _ = pukzarn_open(alloc, &ROWS[..1], &mut tracees, &mut tracers, &mut faulty);
    (tracees, tracers)
}

#[test]
fn a_faulty_opening_leaves_all_closed(rt: HostRuntime) {
    let alloc = rt.alloc();
    let mut tracees = [Handle::closed(), Handle::closed()];
    let mut tracers = [Handle::closed()];
    let mut faulty = 9;
    let twice = [ROWS[0], ROWS[0]];
    gives(
        &rt,
        pukzarn_open(alloc, &twice, &mut tracees, &mut tracers, &mut faulty),
        -22,
    );
    same(&rt, &faulty, &1);
    gives(
        &rt,
        pukzarn_open(alloc, &ROWS[..1], &mut tracees, &mut tracers, &mut faulty),
        -22,
    );
    gives(
        &rt,
        pukzarn_open(alloc, &ROWS, &mut tracees, &mut [], &mut faulty),
        -22,
    );
    assert!(rt; !tracees[0].is_open() && !tracees[1].is_open() && !tracers[0].is_open());
    gives(
        &rt,
        pukzarn_open(alloc, &ROWS, &mut tracees, &mut tracers, &mut faulty),
        0,
    );
    assert!(rt; tracees[0].is_open() && tracees[1].is_open() && tracers[0].is_open());
    let mut others = [Handle::closed()];
    gives(
        &rt,
        pukzarn_open(alloc, &ROWS, &mut tracees, &mut others, &mut faulty),
        -16,
    );
    assert!(rt; !others[0].is_open());
}

#[test]
fn a_tracee_is_run_by_its_handle(rt: HostRuntime) {
    let alloc = rt.alloc();
    let (mut tracees, mut tracers) = opened_row(alloc);
    let (mut how, mut number, mut to) = (CONT, 9, [9; 3]);
    let mut regs = no_registers(alloc);
    let root = &mut tracees[0];
    gives(&rt, pukzarn_tracee_getregs(alloc, root, &mut regs), -3);
    gives(&rt, pukzarn_tracee_take_up(alloc, root, &mut how), 0);
    gives(&rt, pukzarn_tracee_take_up(alloc, root, &mut how), -114);
    gives(&rt, pukzarn_tracee_map(alloc, root, 0x1000), 0);
    gives(&rt, pukzarn_tracee_write(alloc, root, 0x1ffe, &[1, 2]), 0);
    gives(&rt, pukzarn_tracee_read(alloc, root, 0x1ffe, &mut to), 2);
    same(&rt, &to, &[1, 2, 9]);
    regs.rax = 7;
    gives(&rt, pukzarn_tracee_setregs(alloc, root, &regs), 0);
    regs.rax = 9;
    gives(&rt, pukzarn_tracee_getregs(alloc, root, &mut regs), 0);
    same(&rt, &regs.rax, &7);
    gives(
        &rt,
        pukzarn_tracee_publish(alloc, root, &stop(9, 0), &mut number),
        -22,
    );
    gives(
        &rt,
        pukzarn_tracee_publish(alloc, root, &stop(0, 0), &mut number),
        0,
    );
    same(&rt, &number, &1);
    gives(&rt, pukzarn_tracee_exit(alloc, root, 0), -114);
    gives(&rt, pukzarn_tracee_close(alloc, root), 0);
    gives(&rt, pukzarn_tracee_close(alloc, root), EBADF);
    gives(&rt, pukzarn_tracee_close(alloc, &mut tracers[0]), EBADF);
}

#[test]
fn a_tracer_is_run_by_its_handle(rt: HostRuntime) {
    let alloc = rt.alloc();
    let (mut tracees, mut tracers) = opened_row(alloc);
    let (mut how, mut number) = (CONT, 9);
    let (mut shown, mut waited, mut at) = (state(9, 9, 9, 9), no_report(), stop(9, 9));
    let (root, tracer) = (&mut tracees[0], &mut tracers[0]);
    gives(
        &rt,
        pukzarn_tracer_waitid(alloc, tracer, 0, 0, STOPS, &mut waited),
        0,
    );
    same(&rt, &waited, &no_report());
    gives(&rt, pukzarn_tracee_take_up(alloc, root, &mut how), 0);
    gives(
        &rt,
        pukzarn_tracee_publish(alloc, root, &stop(7, 11), &mut number),
        0,
    );
    gives(&rt, pukzarn_tracer_look(alloc, tracer, 0, &mut shown), 0);
    same(&rt, &shown, &state(3, 1, 0, 0x0b7f));
    gives(
        &rt,
        pukzarn_tracer_stop(alloc, tracer, 100, &mut number, &mut at),
        -3,
    );
    gives(
        &rt,
        pukzarn_tracer_waitid(alloc, tracer, 1, 100, STOPS, &mut waited),
        1,
    );
    same(
        &rt,
        &(
            waited.row,
            waited.tid,
            waited.number,
            waited.status,
            waited.death,
        ),
        &(0, 100, 1, 0x0b7f, 0),
    );
    gives(
        &rt,
        pukzarn_tracer_stop(alloc, tracer, 100, &mut number, &mut at),
        0,
    );
    same(&rt, &(number, at), &(1, stop(7, 11)));
}

#[test]
fn a_tracer_restarts_and_waits_by_row_and_by_pid(rt: HostRuntime) {
    let alloc = rt.alloc();
    let (mut tracees, mut tracers) = opened_row(alloc);
    let (mut how, mut number, mut raw) = (CONT, 9, 9);
    let mut waited = no_report();
    let (root, tracer) = (&mut tracees[0], &mut tracers[0]);
    gives(&rt, pukzarn_tracee_take_up(alloc, root, &mut how), 0);
    gives(
        &rt,
        pukzarn_tracee_publish(alloc, root, &stop(7, 11), &mut number),
        0,
    );
    gives(
        &rt,
        pukzarn_tracer_waitid(alloc, tracer, 0, 0, STOPS, &mut waited),
        1,
    );
    gives(&rt, pukzarn_tracer_resume(alloc, tracer, 101, &CONT), -3);
    gives(&rt, pukzarn_tracer_resume(alloc, tracer, 100, &CONT), 0);
    gives(&rt, pukzarn_tracee_take_up(alloc, root, &mut how), 0);
    gives(
        &rt,
        pukzarn_tracee_publish(alloc, root, &stop(1, 0), &mut number),
        0,
    );
    gives(
        &rt,
        pukzarn_tracer_wait_row(alloc, tracer, 0, STOPS, &mut waited),
        1,
    );
    same(&rt, &waited.number, &2);
    gives(&rt, pukzarn_tracer_resume(alloc, tracer, 100, &CONT), 0);
    gives(&rt, pukzarn_tracee_take_up(alloc, root, &mut how), 0);
    gives(&rt, pukzarn_tracee_exit(alloc, root, 0x300), 0);
    gives(
        &rt,
        pukzarn_tracer_waitpid(alloc, tracer, -1, &mut raw, 0),
        100,
    );
    same(&rt, &raw, &0x300);
    gives(
        &rt,
        pukzarn_tracer_waitpid(alloc, tracer, -1, &mut raw, 0),
        -10,
    );
    gives(&rt, pukzarn_tracer_close(alloc, tracer), 0);
}

#[test]
fn a_claimed_record_is_read_and_written(rt: HostRuntime) {
    let alloc = rt.alloc();
    let (mut tracees, mut tracers) = opened_row(alloc);
    let (mut how, mut number, mut message) = (CONT, 9, 9);
    let (mut waited, mut to) = (no_report(), [9; 3]);
    let (root, tracer) = (&mut tracees[0], &mut tracers[0]);
    gives(&rt, pukzarn_tracee_take_up(alloc, root, &mut how), 0);
    gives(&rt, pukzarn_tracee_map(alloc, root, 0x1000), 0);
    gives(
        &rt,
        pukzarn_tracee_publish(alloc, root, &stop(3, 12), &mut number),
        0,
    );
    gives(
        &rt,
        pukzarn_tracer_message(alloc, tracer, 100, &mut message),
        -3,
    );
    gives(
        &rt,
        pukzarn_tracer_waitid(alloc, tracer, 2, 77, STOPS, &mut waited),
        1,
    );
    gives(
        &rt,
        pukzarn_tracer_message(alloc, tracer, 100, &mut message),
        0,
    );
    same(&rt, &message, &12);
    gives(
        &rt,
        pukzarn_tracer_write(alloc, tracer, 100, 0x1ffe, &[3, 4, 5]),
        -5,
    );
    gives(
        &rt,
        pukzarn_tracer_write(alloc, tracer, 100, 0x1ffe, &[3, 4]),
        0,
    );
    gives(
        &rt,
        pukzarn_tracer_read(alloc, tracer, 100, 0x1ffe, &mut to),
        2,
    );
    same(&rt, &to, &[3, 4, 9]);
}

#[test]
fn the_registers_of_a_claim_are_set_and_read(rt: HostRuntime) {
    let alloc = rt.alloc();
    let (mut tracees, mut tracers) = opened_row(alloc);
    let (mut how, mut number) = (CONT, 9);
    let (mut waited, mut to, mut regs) = (no_report(), [9; 3], no_registers(alloc));
    let (root, tracer) = (&mut tracees[0], &mut tracers[0]);
    gives(&rt, pukzarn_tracee_take_up(alloc, root, &mut how), 0);
    gives(
        &rt,
        pukzarn_tracee_publish(alloc, root, &stop(3, 12), &mut number),
        0,
    );
    gives(
        &rt,
        pukzarn_tracer_waitid(alloc, tracer, 2, 77, STOPS, &mut waited),
        1,
    );
    regs.rax = 7;
    gives(&rt, pukzarn_tracer_setregs(alloc, tracer, 100, &regs), 0);
    regs.rax = 9;
    gives(
        &rt,
        pukzarn_tracer_getregs(alloc, tracer, 100, &mut regs),
        0,
    );
    same(&rt, &regs.rax, &7);
    // PTRACE_SYSCALL_INFO_SECCOMP has 84 bytes: the filter's data is behind the arguments.
    gives(
        &rt,
        pukzarn_tracer_syscall_info(alloc, tracer, 101, &mut to),
        -3,
    );
    gives(
        &rt,
        pukzarn_tracer_syscall_info(alloc, tracer, 100, &mut to),
        84,
    );
}
