//! Waits and calls by pid over the cells that threads share.

mod answers;
mod by_pid;
mod by_row;
pub(crate) mod caller;
mod growth;
mod small_debugger;
mod small_tracer;
mod threads;
mod two_tracers;
mod writes;
