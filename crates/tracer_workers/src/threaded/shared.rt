//! What all threads of a run share.

use crate::config::Config;
use crate::threaded::starting_line::StartingLine;
use std::alloc::Allocator;
use stop_history::Roster;

/// What all threads of a run share: the allocator, the line that they wait behind, the rows of the case, how it is
/// traced and printed, and the gate that workers call.
#[derive(Drop)]
pub(crate) struct Shared<'e, A: Allocator, G> {
    pub(crate) alloc: A,
    pub(crate) line: &'e StartingLine,
    pub(crate) roster: &'e Roster<A>,
    pub(crate) config: &'e Config,
    pub(crate) gate: &'e G,
}
