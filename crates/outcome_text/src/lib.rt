//! The outcomes of a litmus file as text: what each thread did and what it waits for, how the tracees end, how many
//! outcomes end alike, and the order of one of them as a replay file.
//!
//! Only those outcomes are printed that have all that the file requires. Where none has, halving finds the line of the
//! first requirement with which those down to it cannot all be met.
#![tactic(auto)]

mod answer_text;
mod chosen;
mod command_text;
mod condition;
mod end_tallies;
mod ends;
mod forbidden;
mod kept_lines;
pub mod laws;
mod listed;
mod parts;
mod print_error;
mod printed;
mod replay_order;
mod replay_text;
mod searched;
mod text;
mod tracees_text;
mod turn_texts;
mod waiting;

pub use forbidden::explain;
pub use listed::{ends_of, print_listed};
pub use parts::{CutOff, write_part, write_parts};
pub use print_error::PrintError;
pub use replay_order::outcome_replay;
pub use searched::{Searched, is_forbidden, search};
