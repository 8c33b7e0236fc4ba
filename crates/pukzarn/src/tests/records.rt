//! A record.

use super::*;
use crate::handle_value::HandleValue;
use crate::record::{
    pukzarn_record_close, pukzarn_record_getregs, pukzarn_record_map, pukzarn_record_message,
    pukzarn_record_open, pukzarn_record_read, pukzarn_record_set_stop, pukzarn_record_setregs,
    pukzarn_record_stop, pukzarn_record_syscall_info, pukzarn_record_write,
};
use crate::version::pukzarn_version;
use c_interface::{CRegs, record_getregs};
use std::alloc::Global;
use trace_record::StopRecord;

#[test]
fn a_record_is_opened_read_and_closed(rt: HostRuntime) {
    let alloc = rt.alloc();
    let mut handle = Handle::closed();
    let mut message = 9;
    gives(&rt, pukzarn_record_open(alloc, &mut handle, 7), 0);
    assert!(rt; handle.is_open());
    gives(
        &rt,
        pukzarn_record_message(alloc, &mut handle, &mut message),
        0,
    );
    same(&rt, &message, &0);
    gives(&rt, pukzarn_record_close(alloc, &mut handle), 0);
    assert!(rt; !handle.is_open());
}

#[test]
fn a_closed_handle_is_no_handle(rt: HostRuntime) {
    let alloc = rt.alloc();
    let mut handle = Handle::closed();
    let mut message = 9;
    gives(
        &rt,
        pukzarn_record_message(alloc, &mut handle, &mut message),
        EBADF,
    );
    same(&rt, &message, &9);
    gives(&rt, pukzarn_record_close(alloc, &mut handle), EBADF);
}

#[test]
fn a_refused_opening_changes_nothing(rt: HostRuntime) {
    let alloc = rt.alloc();
    let mut handle = Handle::closed();
    gives(&rt, pukzarn_record_open(alloc, &mut handle, 0), -22);
    assert!(rt; !handle.is_open());
    gives(&rt, pukzarn_record_open(alloc, &mut handle, 7), 0);
    gives(&rt, pukzarn_record_open(alloc, &mut handle, 8), -16);
    let Some(end) = handle.take(alloc) else {
        return assert!(rt; false, "closed");
    };
    assert!(rt; matches!(&*end, HandleValue::Stopped(stopped) if stopped.tid == 7));
}

#[test]
fn a_record_is_written_and_read(rt: HostRuntime) {
    let alloc = rt.alloc();
    let mut handle = Handle::closed();
    let (mut number, mut shown, mut message) = (9, stop(9, 9), 9);
    gives(&rt, pukzarn_record_open(alloc, &mut handle, 7), 0);
    gives(
        &rt,
        pukzarn_record_set_stop(alloc, &mut handle, 3, &stop(4, 101)),
        0,
    );
    gives(
        &rt,
        pukzarn_record_set_stop(alloc, &mut handle, 4, &stop(9, 0)),
        -22,
    );
    gives(
        &rt,
        pukzarn_record_stop(alloc, &mut handle, &mut number, &mut shown),
        0,
    );
    same(&rt, &(number, shown), &(3, stop(4, 101)));
    gives(
        &rt,
        pukzarn_record_message(alloc, &mut handle, &mut message),
        0,
    );
    same(&rt, &message, &101);
}

#[test]
fn the_memory_of_a_record_is_written_and_read(rt: HostRuntime) {
    let alloc = rt.alloc();
    let mut handle = Handle::closed();
    gives(&rt, pukzarn_record_open(alloc, &mut handle, 7), 0);
    gives(&rt, pukzarn_record_map(alloc, &mut handle, 0x1000), 0);
    gives(&rt, pukzarn_record_map(alloc, &mut handle, 0x1000), -17);
    gives(
        &rt,
        pukzarn_record_write(alloc, &mut handle, 0x1ffe, &[1, 2]),
        0,
    );
    gives(
        &rt,
        pukzarn_record_write(alloc, &mut handle, 0x1fff, &[3, 4]),
        -5,
    );
    let mut to = [9; 3];
    gives(
        &rt,
        pukzarn_record_read(alloc, &mut handle, 0x1ffe, &mut to),
        2,
    );
    same(&rt, &to, &[1, 2, 9]);
    // A stop that is no syscall-stop has the 24 bytes that all have (ptrace(2), `PTRACE_SYSCALL_INFO_NONE`).
    gives(
        &rt,
        pukzarn_record_syscall_info(alloc, &mut handle, &mut to),
        24,
    );
}

#[test]
fn registers_are_set_and_read(rt: HostRuntime) {
    let alloc = rt.alloc();
    let mut handle = Handle::closed();
    let mut regs = no_registers(alloc);
    regs.rax = 7;
    gives(&rt, pukzarn_record_open(alloc, &mut handle, 7), 0);
    gives(&rt, pukzarn_record_setregs(alloc, &mut handle, &regs), 0);
    regs.rax = 9;
    gives(
        &rt,
        pukzarn_record_getregs(alloc, &mut handle, &mut regs),
        0,
    );
    same(&rt, &regs.rax, &7);
}

/// Registers that are 0.
pub(super) fn no_registers(alloc: Global) -> CRegs {
    record_getregs(&StopRecord::empty(alloc, 1))
}

#[test]
fn the_version_is_a_text(rt: HostRuntime) {
    let mut text = [9; 4];
    gives(&rt, pukzarn_version(&mut text), 5);
    same(&rt, &text, b"0.1\0");
}
