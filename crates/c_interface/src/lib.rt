//! The calls that C makes on simulated tracees, as functions over Rattle's types: what crosses in numbers, what each
//! call refuses by which error of errno(3), and the calls of each end that C holds. Handles and exported names are in
//! the crate above, which adds nothing to what is answered.
//!
//! Each call answers a `Result`, whose error is that of errno(3) which C gets as a negative number. What is refused has
//! changed nothing.
#![tactic(auto)]

mod births;
mod board;
mod error;
mod got;
mod hand;
mod machine_end;
mod opened;
mod opening;
mod record;
mod regs;
mod restart;
mod scripts;
mod state;
mod stop;
mod tracee;
mod tracee_end;
mod tracee_memory;
mod tracer;
mod tracer_end;
mod waited;

pub use births::{Births, MachineEnd};
pub use board::{
    board_claim, board_exit, board_publish, board_resume, board_state, board_waitable,
};
pub use error::Error;
pub use got::CGot;
pub use hand::{Hand, InHand};
pub use machine_end::{machine_end_open, machine_filter, machine_options};
pub use opened::Opened;
pub use opening::{CRow, OpenFault, open_cells, roster_of};
pub use record::{
    record_getregs, record_map, record_message, record_open, record_read, record_set_stop,
    record_setregs, record_stop, record_syscall_info, record_write,
};
pub use regs::CRegs;
pub use restart::CRestart;
pub use scripts::{NextStep, machine_next, machine_open, rows_into, text_into};
pub use state::CState;
pub use stop::CStop;
pub use tracee::{tracee_exit, tracee_publish, tracee_take_up};
pub use tracee_end::TraceeEnd;
pub use tracee_memory::{
    tracee_getregs, tracee_map, tracee_next, tracee_read, tracee_setregs, tracee_write,
};
pub use tracer::{
    tracer_getregs, tracer_look, tracer_message, tracer_read, tracer_resume, tracer_setregs,
    tracer_stop, tracer_syscall_info, tracer_wait_row, tracer_waitid, tracer_waitpid, tracer_write,
};
pub use tracer_end::TracerEnd;
pub use waited::{CWaited, CWaitpid, P_ALL, P_PGID, P_PID};

#[cfg(test)]
mod tests;
