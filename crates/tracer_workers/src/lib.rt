//! Runs of a case: what its tracees' scripts and the tracers' policy make of it, and the text that it prints.
#![tactic(auto)]

mod config;
mod fault;
mod gate;
mod gathering;
mod invariants;
pub mod laws;
mod machine;
mod one_thread;
mod run_error;
mod scheduled;
mod threaded;
mod tracee_thread;
mod worker_thread;

pub use config::{Config, policy};
pub use gate::Gate;
pub use gathering::gather;
pub use run_error::RunError;
pub use scheduled::run_scheduled;
pub use threaded::run_case;
pub use tracee_thread::run_tracee;
pub use worker_thread::{KeptPieces, run_worker};
