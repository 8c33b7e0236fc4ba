//! The phase of a row: where it is in its life, and who changes its word next.
//!
//! | Phase | What it holds | Who changes it next |
//! |---|---|---|
//! | `Fresh` | nothing: no event yet | its tracee takes it up, once its parent has created it |
//! | `Resumed` | the restart | its tracee takes it up |
//! | `Active` | nothing | its tracee publishes a stop, or exits |
//! | `Stopped` | the status of the stop | any tracer claims it |
//! | `Claimed` | the tracer | that tracer resumes it |
//! | `Dead` | the status of the death | any tracer claims it |
//! | `Reaped` | nothing | nobody |

ghost use Rattle.std.specs.Prelude.{◌≡◌};
ghost use Rattle.stop_history.specs.Change.{restart_in};

use crate::refused::Refused;
use trace_record::{Kind, Resume};

/// Where a row is in its life. Statuses are raw wait statuses (wait(2)).
#[derive(Clone, Copy, Debug, PartialEq, Eq, Hash)]
pub enum Phase {
    /// No event yet: the row is unborn, or runs to its first stop.
    Fresh,
    /// A tracer has resumed it with this restart.
    Resumed(Resume),
    /// Its tracee has taken it up and runs.
    Active,
    /// It is stopped, with this status (`WIFSTOPPED`).
    Stopped { status: u32 },
    /// This tracer, 0 to 15, has claimed its stop.
    Claimed { tracer: u8 },
    /// It has ended with this status (`WIFEXITED`, `WIFSIGNALED`).
    Dead { status: u32 },
    /// A tracer has claimed its death.
    Reaped,
}

/// The restart that a row of this phase has to take up: that of its last resume, or of a fresh row, a `Cont` that hands
/// over no signal. `NotRunning` in every other phase.
pub fn restart_in(phase: Phase) -> Result<Resume, Refused>
    ensures { result ≡ restart_in phase }
{
    match phase {
        Phase::Fresh => Ok(Resume {
            kind: Kind::Cont,
            signal: 0,
        }),
        Phase::Resumed(how) => Ok(how),
        Phase::Active
        | Phase::Stopped { .. }
        | Phase::Claimed { .. }
        | Phase::Dead { .. }
        | Phase::Reaped => Err(Refused::NotRunning),
    }
}
