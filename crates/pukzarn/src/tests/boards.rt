//! A board.

use super::*;
use crate::board::{
    pukzarn_board_claim, pukzarn_board_close, pukzarn_board_exit, pukzarn_board_open,
    pukzarn_board_publish, pukzarn_board_resume, pukzarn_board_state, pukzarn_board_waitable,
};
use crate::record::pukzarn_record_open;
use c_interface::CGot;

#[test]
fn a_board_is_run_by_its_handle(rt: HostRuntime) {
    let alloc = rt.alloc();
    let mut handle = Handle::closed();
    let (mut faulty, mut number, mut shown) = (9, 9, state(9, 9, 9, 9));
    let mut rows = [9; 2];
    gives(
        &rt,
        pukzarn_board_open(alloc, &mut handle, &ROWS, &mut faulty),
        0,
    );
    gives(
        &rt,
        pukzarn_board_publish(alloc, &mut handle, 0, &stop(0, 0), &mut number),
        0,
    );
    same(&rt, &number, &1);
    gives(
        &rt,
        pukzarn_board_state(alloc, &mut handle, 0, &mut shown),
        0,
    );
    same(&rt, &shown, &state(3, 1, 0, 0x80057f));
    // P_ALL with WSTOPPED (waitid(2)); and P_PID of the thread, which is not born.
    gives(
        &rt,
        pukzarn_board_waitable(alloc, &mut handle, 0, 0, 2, &mut rows),
        1,
    );
    same(&rt, &rows, &[0, 9]);
    gives(
        &rt,
        pukzarn_board_waitable(alloc, &mut handle, 1, 101, 2, &mut rows),
        -10,
    );
}

#[test]
fn a_claim_on_a_board_is_resumed(rt: HostRuntime) {
    let alloc = rt.alloc();
    let mut handle = Handle::closed();
    let (mut faulty, mut number) = (9, 9);
    let mut got = CGot {
        number: 9,
        status: 9,
        death: 9,
    };
    gives(
        &rt,
        pukzarn_board_open(alloc, &mut handle, &ROWS, &mut faulty),
        0,
    );
    gives(
        &rt,
        pukzarn_board_publish(alloc, &mut handle, 0, &stop(0, 0), &mut number),
        0,
    );
    gives(
        &rt,
        pukzarn_board_claim(alloc, &mut handle, 0, 3, &mut got),
        0,
    );
    same(&rt, &(got.number, got.status, got.death), &(1, 0x80057f, 0));
    gives(
        &rt,
        pukzarn_board_resume(alloc, &mut handle, 0, 2, &CONT),
        -1,
    );
    gives(
        &rt,
        pukzarn_board_resume(alloc, &mut handle, 0, 3, &CONT),
        0,
    );
    gives(&rt, pukzarn_board_exit(alloc, &mut handle, 0, 0x300), 0);
    gives(&rt, pukzarn_board_exit(alloc, &mut handle, 0, 0x300), -114);
    gives(&rt, pukzarn_board_close(alloc, &mut handle), 0);
    gives(&rt, pukzarn_board_close(alloc, &mut handle), EBADF);
}

#[test]
fn a_faulty_board_is_not_opened(rt: HostRuntime) {
    let alloc = rt.alloc();
    let (mut handle, mut faulty) = (Handle::closed(), 9);
    let twice = [ROWS[0], ROWS[0]];
    gives(
        &rt,
        pukzarn_board_open(alloc, &mut handle, &twice, &mut faulty),
        -22,
    );
    same(&rt, &faulty, &1);
    assert!(rt; !handle.is_open());
    gives(&rt, pukzarn_record_open(alloc, &mut handle, 7), 0);
    gives(
        &rt,
        pukzarn_board_open(alloc, &mut handle, &ROWS, &mut faulty),
        -16,
    );
    gives(&rt, pukzarn_board_close(alloc, &mut handle), EBADF);
}
