//! Litmus files: a small program of threads that call the stop board, over the rows of a roster.
//!
//! A file is read whole, up to its first fault, into the rows, the threads with their commands, repeats written out,
//! and what it requires: the replies of commands, and conditions on where an outcome ends.
#![tactic(auto)]

mod command;
mod condition;
mod copies;
mod draft;
mod file;
mod grammar;
mod keyword;
pub mod laws;
mod line;
mod reply;
mod required;

pub use condition::Sense;
pub use file::{LitmusFile, read_litmus};
pub use required::{Condition, NumberedCondition, NumberedLine, conditions_with, program_with};
