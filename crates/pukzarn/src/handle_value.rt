//! What C holds.

use c_interface::{MachineEnd, TraceeEnd, TracerEnd};
use std::alloc::Global;
use stop_board::Board;
use trace_record::StopRecord;
use trace_script::Case;

/// What a handle holds while it is open: one of the ends that C works with.
#[derive(Drop)]
pub enum HandleValue {
    /// A stop's record, by itself.
    Stopped(StopRecord<Global>),
    /// A board of one thread.
    Board(Board<Global>),
    /// A tracee of the cells that threads share.
    Tracee(TraceeEnd),
    /// A tracer of theirs.
    Tracer(TracerEnd),
    /// A case file.
    Case(Case<Global>),
    /// The machine of a script.
    Machine(MachineEnd),
}

/// What C hands to another thread may go there.
fn may_move<T: Send>() {}

/// What a handle holds may go to another thread, as a handle may: its slot is `Send` only because this is.
pub fn handle_values_may_move() {
    may_move::<HandleValue>();
}
