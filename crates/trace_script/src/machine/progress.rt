//! How far a machine is.

use trace_record::Death;

/// What a machine does next.
#[derive(Clone, Copy, Debug, PartialEq, Eq)]
pub(crate) enum Progress {
    /// It loads its program.
    New,
    /// It goes on with the step at this index, from this place in the step on.
    Going { index: usize, place: u32 },
    /// It answers its tracee's death.
    Ended(Death),
}
