//! Replay files: commands to the tracees of a roster, a line each, and the replies of a board of one thread to them.
//!
//! A file is read whole before any command of it is run, up to its first fault. Litmus files and the text of outcomes
//! use its words too: those of commands, of what a call got or was refused, and of states.
#![tactic(auto)]

mod command;
mod grammar;
pub mod laws;
mod order;
mod reading;
mod replay;
mod replies;
mod state_name;

pub use command::Command;
pub use grammar::{KINDS, Line, ReplayKeyword, replay_rest_of, tracer_of};
pub use order::Order;
pub use reading::{GUESSES, row_of};
pub use replay::replay_text;
pub use replies::{
    tid_at, write_done, write_got, write_number, write_published, write_refusal,
    write_refusal_name, write_state,
};
pub use state_name::{STATE_NAMES, StateName, has_name, state_word};
