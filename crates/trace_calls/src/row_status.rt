//! What a wait reports of a row.

use trace_record::Death;
use trace_status::WaitStatus;

/// What a wait reports of a row of the roster.
#[derive(Clone, Copy, Debug, PartialEq, Eq, Hash)]
pub struct RowStatus {
    /// The row, from 0.
    pub row: u32,
    /// The number of its stop, for a death that of its last stop, or 0 where it has made none.
    pub number: u32,
    /// Its status, with its thread id.
    pub status: WaitStatus,
    /// Its death, where the status reports one.
    pub death: Option<Death>,
}
