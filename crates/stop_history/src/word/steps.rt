//! What each step on a row makes of its word: the word after an event of the row, and after a take-up.
//!
//! A tracee publishes a stop, exits, and takes its restart up; a tracer claims and resumes. None of these looks at
//! another row. Whether the step is allowed is the caller's to know.

ghost use Rattle.std.specs.Prelude.{◌≡◌, ◌+◌, ◌<◌, IsSome, is_some, if◌then◌else◌};
ghost use Rattle.stop_history.specs.Change.{taken_up};
ghost use Rattle.stop_history.specs.declared.limits.TheConstants.{LAST_NUMBER, MOST_ROWS, TRACERS};
ghost use Rattle.stop_history.specs.Step.{claimed, died, published, restarted};
ghost use Rattle.trace_record.specs.Death.{IsDeath};
ghost use Rattle.trace_record.specs.Resume.{IsResume};
ghost use Rattle.trace_record.specs.Stop.{IsStop, child_of};

use crate::phase::Phase;
use crate::word::Word;
use trace_record::{Death, Resume, Stop};

/// The word after a row's next stop (`Stopped`): its number is one higher, and a fork or a clone counts one more child.
/// The row runs, and a child that the stop names is the row's next one.
pub fn published(word: Word, stop: Stop) -> Word
    requires stop { IsStop stop }
    requires next { word.number < LAST_NUMBER }
    requires birth { IsSome (child_of stop) → word.births + 1 < MOST_ROWS }
    ensures { result ≡ published word stop }
{
    Word {
        phase: Phase::Stopped {
            status: stop.status(),
        },
        births: births_with(word.births, stop),
        number: word.number + 1,
    }
}

/// How many children a row has after a stop, from how many it had.
fn births_with(births: u8, stop: Stop) -> u8
    requires few { births < MOST_ROWS }
    requires birth { IsSome (child_of stop) → births + 1 < MOST_ROWS }
    ensures births { result ≡ (if is_some (child_of stop) then births + 1 else births) }
    ensures few { result < MOST_ROWS }
{
    match stop.child() {
        Some(_) => births + 1,
        None => births,
    }
}

/// The word after a take-up (`Active`): the tracee has its restart, and runs.
pub fn taken_up(word: Word) -> Word
    ensures { result ≡ taken_up word }
{
    Word {
        phase: Phase::Active,
        births: word.births,
        number: word.number,
    }
}

/// The word after a claim: a stop is claimed by this tracer (`Claimed`), a death is reaped (`Reaped`).
pub fn claimed(word: Word, tracer: u8) -> Word
    requires { tracer < TRACERS }
    ensures { result ≡ claimed word tracer }
{
    let phase = match word.phase {
        Phase::Dead { .. } => Phase::Reaped,
        _ => Phase::Claimed { tracer },
    };
    Word {
        phase,
        births: word.births,
        number: word.number,
    }
}

/// The word after a tracer has resumed the row (`Resumed`): it keeps the restart for the tracee to take up.
pub fn restarted(word: Word, how: Resume) -> Word
    requires { IsResume how }
    ensures { result ≡ restarted word how }
{
    Word {
        phase: Phase::Resumed(how),
        births: word.births,
        number: word.number,
    }
}

/// The word after an exit (`Dead`), with the status that reports the death.
pub fn died(word: Word, death: Death) -> Word
    requires { IsDeath death }
    ensures { result ≡ died word death }
{
    Word {
        phase: Phase::Dead {
            status: death.status(),
        },
        births: word.births,
        number: word.number,
    }
}
