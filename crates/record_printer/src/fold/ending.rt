//! How a row ended.

use trace_record::Death;

/// The death of a row, with the number of its last stop, 0 where it made none.
#[derive(Clone, Copy)]
pub(crate) struct Ending {
    pub(crate) number: u32,
    pub(crate) death: Death,
}
