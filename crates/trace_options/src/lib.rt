//! What a tracer asks for: the options of a trace, the flags of a wait, the events of ptrace(2), the system calls
//! that a filter names, and the errors that a call answers; and the tables of system calls, errors and signals.
#![tactic(auto)]

mod argument_kind;
mod call_set;
mod errno;
mod error_names;
mod event;
mod filter;
pub mod laws;
mod names;
mod no_memory;
mod options;
mod signal;
mod syscall;
mod wait_flags;

pub use argument_kind::ArgumentKind;
pub use call_set::{CallSet, NAMED_CALLS};
pub use errno::Errno;
pub use error_names::error_name;
pub use event::Event;
pub use filter::Filter;
pub use no_memory::NoMemory;
pub use options::{Options, check};
pub use signal::{LAST_SIGNAL, signal_name};
pub use syscall::Syscall;
pub use wait_flags::WaitFlags;

#[cfg(test)]
mod tests;
