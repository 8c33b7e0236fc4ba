//! The atomic steps of a tracee on the words of all rows: it takes its row up, publishes and exits. Each changes the
//! word of its own row alone, and only while the row is the tracee's to move.

ghost use Rattle.std.specs.Prelude.{◌≡◌, ℕ, Result, length};
ghost use Rattle.stop_board.specs.Action.{IsAction, TraceeReplies, taken_by, tracee_change};
ghost use Rattle.stop_history.specs.Change.{restart_in, taken_up, words_with};
ghost use Rattle.stop_history.specs.History.{creates_next, holding_back};
ghost use Rattle.stop_history.specs.Roster.{IsRoster};
ghost use Rattle.stop_history.specs.Sequential.{and_then, next_number, running_by, unless_held};
ghost use Rattle.stop_history.specs.Step.{died, published, with_word};
ghost use Rattle.stop_history.specs.Word.{state_by, word_at};
ghost use Rattle.stop_board.specs.World.{is_active, sight_by};
ghost use Rattle.trace_record.specs.Death.{IsDeath};
ghost use Rattle.trace_record.specs.Stop.{IsStop};

use super::action::{Action, Reply};
use super::look_at;
use crate::rules::running;
use crate::words::{exit_running, publish_running, state_of};
use std::alloc::Allocator;
use stop_history::{Phase, Refused, Roster, Word, restart_in, taken_up};
use trace_record::{Death, Resume, Stop};

/// A step of the tracee of a row.
#[inline(always)]
pub(crate) fn tracee_step<A: Allocator>(
    roster: &Roster<A>,
    words: &mut [Word],
    row: u32,
    action: Action,
) -> Reply
    requires words { length words.old ≡ length roster.now }
    requires roster { IsRoster roster.now }
    requires action { IsAction action }
    ensures reply { TraceeReplies roster.now (sight_by roster.now words.old) row action result }
    ensures words { words.new ≡ words_with (tracee_change row action result) words.old }
{
    match action {
        Action::Look(other) => look_at(roster, words, other),
        Action::TakeUp => match take_up_at(roster, words, row) {
            Ok(how) => Reply::Took(how),
            Err(refusal) => Reply::Refused(refusal),
        },
        Action::Publish(stop) => match publish_taken(roster, words, row, stop) {
            Ok(number) => Reply::Number(number),
            Err(refusal) => Reply::Refused(refusal),
        },
        Action::Exit(death) => match exit_taken(roster, words, row, death) {
            Ok(()) => Reply::Done,
            Err(refusal) => Reply::Refused(refusal),
        },
        Action::Claim(_) | Action::Resume(..) => Reply::Refused(Refused::NoRow),
    }
}

/// Takes a running row up: its tracee runs on by the restart that it is given.
fn take_up_at<A: Allocator>(
    roster: &Roster<A>,
    words: &mut [Word],
    row: u32,
) -> Result<Resume, Refused>
    requires { length words.old ≡ length roster.now }
    ensures answer { result
        ≡ and_then (running_by (state_by roster.now words.old row)) (restart_in (word_at words.old row).phase) }
    ensures words { words.new ≡ with_word result words.old row (taken_up (word_at words.old row)) }
{
    running(state_of(roster, words, row))?;
    let at = row as usize;
    let word = words[at];
    let how = restart_in(word.phase)?;
    // The restart is the tracee's now: no later step can take it up again.
    words[at] = taken_up(word);
    Ok(how)
}

/// Publishes the next stop of a row that its tracee has taken up.
fn publish_taken<A: Allocator>(
    roster: &Roster<A>,
    words: &mut [Word],
    row: u32,
    stop: Stop,
) -> Result<u32, Refused>
    requires words { length words.old ≡ length roster.now }
    requires stop { IsStop stop }
    requires roster { IsRoster roster.now }
    ensures answer { result
        ≡ and_then (taken_by (state_by roster.now words.old row) (is_active (word_at words.old row).phase))
        (next_number (creates_next roster.now row (word_at words.old row).births stop) (word_at words.old row).number) }
    ensures words { words.new ≡ with_word result words.old row (published (word_at words.old row) stop) }
{
    taken(roster, words, row)?;
    publish_running(roster, words, row, stop)
}

/// Lets a row exit that its tracee has taken up.
fn exit_taken<A: Allocator>(
    roster: &Roster<A>,
    words: &mut [Word],
    row: u32,
    death: Death,
) -> Result<(), Refused>
    requires words { length words.old ≡ length roster.now }
    requires roster { IsRoster roster.now }
    requires death { IsDeath death }
    ensures answer { result
        ≡ and_then (taken_by (state_by roster.now words.old row) (is_active (word_at words.old row).phase))
        (unless_held (holding_back roster.now (state_by roster.now words.old) row)) }
    ensures words { words.new ≡ with_word result words.old row (died (word_at words.old row) death) }
{
    taken(roster, words, row)?;
    exit_running(roster, words, row, death)
}

/// Whether a row runs and its tracee has taken it up, or why not.
fn taken<A: Allocator>(roster: &Roster<A>, words: &[Word], row: u32) -> Result<(), Refused>
    requires { length words.now ≡ length roster.now }
    ensures { result ≡ taken_by (state_by roster.now words.now row) (is_active (word_at words.now row).phase) }
{
    running(state_of(roster, words, row))?;
    let word = words[row as usize];
    match word.phase {
        Phase::Active => Ok(()),
        _ => Err(Refused::NotTaken),
    }
}
