//! The end of a tracer. Where it is let go, the tracees that it has claimed run on.

ghost use Rattle.std.specs.Prelude.{◌≡◌, ◌<◌, [], ℕ, false, length};
ghost use Rattle.stop_table.specs.Tracer.{IsTracerHandle, held_rows, is_held};
ghost use Rattle.trace_calls.specs.ByRow.{IsRowRestart};
ghost use Rattle.trace_calls.specs.Handle.{tracer_of};
ghost use Rattle.c_interface.specs.Restart.{cont_without_signal};

use std::alloc::Global;
use stop_table::Tracer;
use trace_calls::Calls;
use trace_record::{Kind, Resume};

/// The end of a tracer. Where it is let go, each tracee that it has claimed is restarted by `PTRACE_CONT` without a
/// signal, so that a signal which was to be delivered is lost.
pub struct TracerEnd {
    pub calls: Calls<Global>,
}

impl Drop for TracerEnd {
    fn drop(self) {
        let TracerEnd { calls } = self;
        drop(ended(calls));
    }
}

/// The tracer's handle, once the tracees that it has claimed run on.
fn ended(mut calls: Calls<Global>) -> Tracer<Global> {
    restart_all(&mut calls);
    match calls.into_tracer() {
        Ok(tracer) => tracer,
        Err(_) => unreachable!(),
    }
}

/// Restarts each tracee that the tracer has claimed, by `PTRACE_CONT` without a signal.
fn restart_all(calls: &mut Calls<Global>)
    ensures { held_rows calls.new.view ≡ [] }
{
    let _number = calls.number();
    for row in 0..calls.rows() {
        restart(calls, row);
    }
}

/// Restarts the tracee of a row, if the tracer has claimed it.
fn restart(calls: &mut Calls<Global>, row: u32)
    requires handle { IsTracerHandle (tracer_of calls.old) }
    ensures handle { IsTracerHandle (tracer_of calls.new) }
    ensures restarted { (done : _) × IsRowRestart calls.old calls.new row cont_without_signal done }
    ensures rows { length calls.new.view.roster ≡ length calls.old.view.roster }
    ensures freed { row < length calls.old.view.roster → is_held calls.new.view row ≡ false }
    ensures others { (other : ℕ) → is_held calls.old.view other ≡ false → is_held calls.new.view other ≡ false }
{
    // It is refused where the row is not claimed.
    let _ = calls.restart_row(
        row,
        Resume {
            kind: Kind::Cont,
            signal: 0,
        },
    );
    let _number = calls.number();
}
