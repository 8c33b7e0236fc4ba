//! Each call once, with an answer worked out by hand from ptrace(2), waitid(2) and errno(3).

mod boards;
mod cells;
mod records;
mod scripts;

use crate::handle::Handle;
use c_interface::{CRestart, CRow, CState, CStop, CWaited};
use std::fmt::Debug;
use std::process::Abort;

const EBADF: i64 = -9;

const CONT: CRestart = CRestart { kind: 0, signal: 0 };

/// A root, and a thread of its group.
const ROWS: [CRow; 2] = [
    CRow {
        tid: 100,
        tgid: 100,
        pgid: 77,
        parent: 0,
    },
    CRow {
        tid: 101,
        tgid: 100,
        pgid: 77,
        parent: 100,
    },
];

/// Ends a test where two values differ, and says both.
fn same<R: Abort, T: PartialEq + Debug>(rt: &R, found: &T, wanted: &T) {
    assert_eq!(rt; found, wanted);
}

/// Ends a test where a call answers something else.
fn gives<R: Abort, T: Into<i64>>(rt: &R, answer: T, wanted: i64) {
    same(rt, &answer.into(), &wanted);
}

/// A stop in numbers.
fn stop(kind: u32, value: u32) -> CStop {
    CStop { kind, value }
}

/// A state in numbers.
fn state(phase: u32, number: u32, tracer: u32, status: u32) -> CState {
    CState {
        phase,
        number,
        tracer,
        status,
    }
}

/// What no wait has written.
fn no_report() -> CWaited {
    CWaited {
        row: 9,
        tid: 9,
        number: 9,
        status: 9,
        death: 9,
    }
}
