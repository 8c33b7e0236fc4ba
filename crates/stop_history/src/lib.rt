//! The history of stop cells, for whoever keeps them: what every layer above is specified by (roster, event, history,
//! legal history, state, sequential answer), the packed word of a cell, and what an event makes of a word. A one-thread
//! board and cells that threads share without locks both stand on this crate.
#![tactic(auto)]

mod actor;
mod got;
mod id;
pub mod laws;
mod limits;
mod phase;
mod refused;
mod roster;
mod selection;
mod state;
mod wait_request;
mod word;

pub use actor::Actor;
pub use got::Got;
pub use id::Id;
pub use limits::{LAST_ID, LAST_NUMBER, MOST_ROWS, TRACERS};
pub use phase::{Phase, restart_in};
pub use refused::Refused;
pub use roster::{Roster, RosterError, Row, fault_after, is_leader, place_of};
pub use selection::{Selection, selection_of_id, selection_of_pid};
pub use state::State;
pub use trace_options::NoMemory;
pub use wait_request::{WaitRequest, waitid_request, waitpid_request};
pub use word::{Word, claimed, died, published, restarted, taken_up};
