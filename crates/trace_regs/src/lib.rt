//! The registers of a tracee: the system call that it makes, its arguments and its outcome, and the bytes in which
//! ptrace(2) hands the registers over.
#![tactic(auto)]

mod layout;
mod outcome;
mod regs;

pub use outcome::Outcome;
pub use regs::Regs;

#[cfg(test)]
mod tests;
