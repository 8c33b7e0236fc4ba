//! Why a folder refuses a piece, or has no text.

ghost use Rattle.std.specs.Prelude.{◌≡◌};

use std::alloc::{AllocError, AllocFailed};
use trace_options::NoMemory;

/// Why a folder refuses a piece, or has no text.
#[derive(Clone, Copy, Debug, PartialEq, Eq, Hash)]
pub enum FoldError {
    /// The piece is of no row, or it is a stop of number 0, or a stop whose number is above that of the row's death,
    /// whichever of the two came first.
    Stranger,
    /// There is a stop of this number already, or a death.
    Twice,
    /// The row with this place in the roster lacks a stop or its death: the least number of a stop that it lacks, or
    /// one more than its last stop has, where it lacks its death alone: 2^32 where that stop has the greatest number
    /// that there is.
    Lost { row: u32, number: u64 },
    /// A growth was refused.
    NoMemory,
}

impl From<NoMemory> for FoldError {
    ghost use Rattle.record_printer.specs.declared.fold.error.FoldError.TheVariants as error;

    ghost from_gives = { λ _ e. e ≡ error.NoMemory };

    fn from(_error: NoMemory) -> FoldError {
        FoldError::NoMemory
    }
}

impl From<AllocError> for FoldError {
    ghost use Rattle.record_printer.specs.declared.fold.error.FoldError.TheVariants as error;

    ghost from_gives = { λ _ e. e ≡ error.NoMemory };

    fn from(_error: AllocError) -> FoldError {
        FoldError::NoMemory
    }
}

impl<T: Drop> From<AllocFailed<T>> for FoldError {
    ghost use Rattle.record_printer.specs.declared.fold.error.FoldError.TheVariants as error;

    ghost from_gives = { λ _ e. e ≡ error.NoMemory };

    fn from(_error: AllocFailed<T>) -> FoldError {
        FoldError::NoMemory
    }
}
