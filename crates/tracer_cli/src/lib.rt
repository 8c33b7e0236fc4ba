//! The program `tracer` as a library: what it reads, and what it answers.
#![tactic(auto)]

mod arguments;
mod case_text;
mod entry;
mod explored;
mod failure;
mod job;
pub mod laws;
mod print;
mod shown;

pub use entry::{process, program};
pub use failure::Failure;
pub use outcome_text::CutOff;
pub use replay_files::replay_text;
pub use trace_script::{CaseError, Cause};
