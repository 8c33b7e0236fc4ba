//! What an actor asks of the cells in one atomic step, and the reply. Beside the refusals of a board there are two
//! outcomes that only interleaving can cause: a row that its tracee has not taken up, and a claim that misses.

use stop_history::{Refused, Word};
use trace_record::{Death, Resume, Stop};

/// One atomic step on a stop cell. Each is refused as `NoRow` to the wrong kind of actor, and where the row is out of
/// range; the other refusals are listed here in the order of their tests.
#[derive(Clone, Copy, Debug, PartialEq, Eq, Hash)]
pub enum Action {
    /// Reads a row's word. Any actor may look.
    Look(u32),
    /// A tracee takes its row up: it takes its restart, and runs. Refused: `Unborn`, `NotRunning` (also where it has
    /// taken it up already).
    TakeUp,
    /// A tracee publishes its next stop. Refused: `Unborn`, `NotRunning`, `NotTaken`, `NotNext`, `Full`.
    Publish(Stop),
    /// A tracer claims a row's stop or its death, if the row's word is still the one that it last saw there. Refused:
    /// `Unborn`, `NotWaitable` (by the word last seen).
    Claim(u32),
    /// A tracer resumes a row that it has claimed. Refused: `Unborn`, `NotClaimed`, `NotHolder`.
    Resume(u32, Resume),
    /// A tracee exits. Refused: `Unborn`, `NotRunning`, `NotTaken`, `GroupAlive`.
    Exit(Death),
}

/// The reply to an action.
#[derive(Clone, Copy, Debug, PartialEq, Eq, Hash)]
pub enum Reply {
    /// The word that was looked at.
    Word(Word),
    /// The restart that was taken up. That to a tracee's first stop is by `Cont`, with signal 0.
    Took(Resume),
    /// The number of the stop that was published.
    Number(u32),
    /// The claimed word, as it was: the stop or the death.
    Got(Word),
    /// Another word than the one last seen was found, and nothing is claimed.
    Missed(Word),
    /// The row is resumed, or it has exited.
    Done,
    /// Nothing has changed.
    Refused(Refused),
}
