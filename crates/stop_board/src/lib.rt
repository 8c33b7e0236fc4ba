//! The stop cells of all tracees as plain data, for those who test a tracer without threads: the one-thread stop board,
//! and the model of the cells under any interleaving of atomic steps. The board answers what one thread alone is
//! answered; a World runs any interleaving of tracee and tracer steps. Both use the definitions of `stop_history`;
//! what a user of the board or the World needs of it is exported here too. `BoardWords` is a board that borrows its
//! roster.
#![tactic(auto)]

mod board;
mod board_words;
pub mod laws;
pub mod rules;
mod waitable;
mod words;
mod world;

pub use board::Board;
pub use board_words::BoardWords;
pub use stop_history::{
    Actor, Got, Id, LAST_ID, LAST_NUMBER, MOST_ROWS, NoMemory, Phase, Refused, Roster, RosterError,
    Row, Selection, State, TRACERS, WaitRequest, Word, fault_after, place_of, selection_of_id,
    selection_of_pid, waitid_request, waitpid_request,
};
pub use world::{Action, Reply, World};

#[cfg(test)]
mod tests;
