//! Wait statuses of traced threads: what wait(2) reports of a tracee, and the word that it reports it in.
#![tactic(auto)]

mod draft;
pub mod laws;
mod syscall_info;
mod wait_status;

pub use syscall_info::{Part, SyscallInfo};
pub use wait_status::{CORE_DUMPED, SIGTRAP, STOPPED, SYSCALL_TRAP, WaitStatus, decode, encode};

#[cfg(test)]
mod tests;
