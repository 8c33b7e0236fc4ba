//! Case files and machines.

use super::*;
use crate::opening::pukzarn_open;
use crate::record::pukzarn_record_open;
use crate::scripts::{
    pukzarn_case_close, pukzarn_case_open, pukzarn_case_rows, pukzarn_machine_close,
    pukzarn_machine_filter, pukzarn_machine_next, pukzarn_machine_open, pukzarn_machine_options,
    pukzarn_tracee_next,
};
use crate::tracee::pukzarn_tracee_take_up;

/// A root that calls `getpid` (syscalls(2), number 39) and exits with code 3.
const CASE: &[u8] = b"tracee 100 100 77 0\ncall getpid = 100\nexit 3\nend\n";

#[test]
fn a_case_is_opened_and_shown(rt: HostRuntime) {
    let alloc = rt.alloc();
    let mut handle = Handle::closed();
    let (mut line, mut cause, mut rows) = (9, [9; 2], [ROWS[1]; 2]);
    let text = b"tracee 100 100 77 0\nhop\nend\n";
    gives(
        &rt,
        pukzarn_case_open(alloc, &mut handle, text, &mut line, &mut cause),
        -22,
    );
    same(&rt, &(line, cause[1]), &(2, 0));
    assert!(rt; !handle.is_open());
    gives(
        &rt,
        pukzarn_case_open(alloc, &mut handle, CASE, &mut line, &mut cause),
        0,
    );
    gives(
        &rt,
        pukzarn_case_open(alloc, &mut handle, CASE, &mut line, &mut cause),
        -16,
    );
    gives(&rt, pukzarn_case_rows(alloc, &mut handle, &mut rows), 1);
    same(&rt, &rows, &[ROWS[0], ROWS[1]]);
    gives(&rt, pukzarn_case_close(alloc, &mut handle), 0);
    gives(&rt, pukzarn_case_close(alloc, &mut handle), EBADF);
}

#[test]
fn a_machine_is_opened_and_set(rt: HostRuntime) {
    let alloc = rt.alloc();
    let (mut case, mut machine, mut record) = (
        Handle::closed(),
        Handle::closed(),
        Handle::closed(),
    );
    let (mut line, mut at) = (9, stop(9, 9));
    gives(
        &rt,
        pukzarn_case_open(alloc, &mut case, CASE, &mut line, &mut []),
        0,
    );
    gives(
        &rt,
        pukzarn_machine_open(alloc, &mut machine, &mut case, 1),
        -22,
    );
    gives(
        &rt,
        pukzarn_machine_open(alloc, &mut machine, &mut case, 0),
        0,
    );
    gives(
        &rt,
        pukzarn_machine_open(alloc, &mut machine, &mut case, 0),
        -16,
    );
    gives(
        &rt,
        pukzarn_machine_next(alloc, &mut machine, &CONT, &mut record, &mut at),
        EBADF,
    );
    gives(&rt, pukzarn_record_open(alloc, &mut record, 100), 0);
    gives(&rt, pukzarn_machine_options(alloc, &mut machine, 0x3), -22);
    gives(&rt, pukzarn_machine_options(alloc, &mut machine, 0x81), 0);
}

#[test]
fn a_machine_runs_into_a_record_under_its_filter(rt: HostRuntime) {
    let alloc = rt.alloc();
    let (mut case, mut machine, mut record) = (
        Handle::closed(),
        Handle::closed(),
        Handle::closed(),
    );
    let (mut line, mut at) = (9, stop(9, 9));
    gives(
        &rt,
        pukzarn_case_open(alloc, &mut case, CASE, &mut line, &mut []),
        0,
    );
    gives(
        &rt,
        pukzarn_machine_open(alloc, &mut machine, &mut case, 0),
        0,
    );
    gives(&rt, pukzarn_record_open(alloc, &mut record, 100), 0);
    gives(&rt, pukzarn_machine_options(alloc, &mut machine, 0x81), 0);
    gives(
        &rt,
        pukzarn_machine_filter(alloc, &mut machine, &[1 << 39, 0], 12),
        0,
    );
    gives(
        &rt,
        pukzarn_machine_next(alloc, &mut machine, &CONT, &mut record, &mut at),
        0,
    );
    same(&rt, &at, &stop(0, 0));
    gives(
        &rt,
        pukzarn_machine_next(alloc, &mut machine, &CONT, &mut record, &mut at),
        0,
    );
    same(&rt, &at, &stop(3, 12));
    gives(
        &rt,
        pukzarn_machine_next(alloc, &mut machine, &CONT, &mut record, &mut at),
        1,
    );
    same(&rt, &at, &stop(8, 0x300));
    gives(&rt, pukzarn_machine_close(alloc, &mut machine), 0);
    gives(&rt, pukzarn_machine_close(alloc, &mut record), EBADF);
}

#[test]
fn a_tracee_runs_a_script(rt: HostRuntime) {
    let alloc = rt.alloc();
    let (mut case, mut machine) = (Handle::closed(), Handle::closed());
    let (mut tracees, mut tracers) = ([Handle::closed()], [Handle::closed()]);
    let (mut line, mut faulty, mut how, mut at) = (9, 9, CONT, stop(9, 9));
    gives(
        &rt,
        pukzarn_open(alloc, &ROWS[..1], &mut tracees, &mut tracers, &mut faulty),
        0,
    );
    gives(
        &rt,
        pukzarn_case_open(alloc, &mut case, CASE, &mut line, &mut []),
        0,
    );
    gives(
        &rt,
        pukzarn_machine_open(alloc, &mut machine, &mut case, 0),
        0,
    );
    let root = &mut tracees[0];
    gives(
        &rt,
        pukzarn_tracee_next(alloc, root, &mut machine, &mut at),
        -3,
    );
    gives(&rt, pukzarn_tracee_take_up(alloc, root, &mut how), 0);
    gives(
        &rt,
        pukzarn_tracee_next(alloc, root, &mut case, &mut at),
        EBADF,
    );
    gives(
        &rt,
        pukzarn_tracee_next(alloc, root, &mut machine, &mut at),
        0,
    );
    same(&rt, &at, &stop(0, 0));
}
