//! The commands of a replay file.

use trace_record::{Death, Resume, Stop};

/// What is asked of one row.
#[derive(Clone, Copy, Debug, PartialEq, Eq, Hash)]
pub enum Command {
    Publish(Stop),
    /// By this tracer, 0 to 15.
    Claim(u8),
    /// By this tracer, 0 to 15.
    Resume(u8, Resume),
    Exit(Death),
    State,
}
