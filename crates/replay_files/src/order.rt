//! A command of a replay file and the row that it is of.

use crate::command::Command;

/// A command to the row at this place of the roster.
#[derive(Clone, Copy, Debug, PartialEq, Eq)]
pub struct Order {
    pub row: u32,
    pub command: Command,
}
