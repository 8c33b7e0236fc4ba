//! Why outcomes were not printed whole.

ghost use Rattle.std.specs.Prelude.{◌≡◌};

use std::alloc::AllocError;
use stop_board::NoMemory;

/// Why outcomes were not printed whole.
#[derive(Clone, Copy, Debug, PartialEq, Eq)]
pub enum PrintError {
    /// Out of memory, before the first byte was written.
    NoMemory,
    /// A write failed, or took no byte.
    CutOff,
}

impl From<NoMemory> for PrintError {
    ghost use Rattle.outcome_text.specs.declared.print_error.PrintError.TheVariants as print_error;

    ghost from_gives = { λ _ e. e ≡ print_error.NoMemory };

    fn from(_error: NoMemory) -> PrintError {
        PrintError::NoMemory
    }
}

impl From<AllocError> for PrintError {
    ghost use Rattle.outcome_text.specs.declared.print_error.PrintError.TheVariants as print_error;

    ghost from_gives = { λ _ e. e ≡ print_error.NoMemory };

    fn from(_error: AllocError) -> PrintError {
        PrintError::NoMemory
    }
}
