//! Why a run has no text.

use thiserror::Error;
use trace_options::NoMemory;

/// Why a run of a case has no text. It is displayed as the program says it on standard error.
#[derive(Clone, Copy, Debug, Drop, Error, PartialEq, Eq)]
pub enum RunError {
    /// A growth was refused.
    #[error("tracer: no memory")]
    NoMemory,
    /// A row that was born was not reaped, or a piece of it is missing, is there twice, or is a stranger's.
    #[error("tracer: lost stop")]
    Lost,
    /// A thread could not be started; then no tracee has run.
    #[error("tracer: cannot start threads")]
    Threads,
}

impl From<NoMemory> for RunError {
    ghost use Rattle.std.specs.Prelude.{◌≡◌};
    ghost use Rattle.tracer_workers.specs.declared.run_error.RunError.TheVariants as run_error;

    ghost from_gives = { λ _ e. e ≡ run_error.NoMemory };

    fn from(_error: NoMemory) -> RunError {
        RunError::NoMemory
    }
}
