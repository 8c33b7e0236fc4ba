//! The atomic steps of a tracer on the words of all rows: it looks, claims and resumes. A claim compares the word that
//! the tracer last saw with the word that is there, as a compare-exchange does, and misses where they differ.

ghost use Rattle.std.specs.Prelude.{◌≡◌, ◌+◌, ◌*◌, ◌<◌, ◌≤◌, ℕ, length};
ghost use Rattle.std.specs.Option.{ForSome};
ghost use Rattle.stop_board.specs.Action.{ClaimReplies, Exchanges, IsAction, TracerReplies, row_seen, tracer_change};
ghost use Rattle.stop_board.specs.Action.{waits};
ghost use Rattle.stop_board.specs.declared.world.action.Action.TheVariants as action;
ghost use Rattle.stop_history.specs.Change.{words_with};
ghost use Rattle.stop_history.specs.declared.limits.TheConstants.{MOST_ROWS, TRACERS};
ghost use Rattle.stop_history.specs.Word.{state_by, word_at};
ghost use Rattle.stop_board.specs.World.{last_seen, seen_place, sight_by};

use super::action::{Action, Reply};
use super::look_at;
use crate::words::{resume_at, state_of};
use std::alloc::Allocator;
use stop_history::{Phase, Refused, Roster, State, Word, claimed};

/// A step of a tracer, by the words that each tracer last saw in each row.
#[inline(always)]
pub(crate) fn tracer_step<A: Allocator>(
    roster: &Roster<A>,
    words: &mut [Word],
    seen: &[Word],
    tracer: u32,
    action: Action,
) -> Reply
    requires words { length words.old ≡ length roster.now }
    requires few { length roster.now ≤ MOST_ROWS }
    requires tracer { tracer < TRACERS }
    requires seen { tracer * length roster.now + length roster.now ≤ length seen.now }
    requires action { IsAction action }
    ensures reply { TracerReplies roster.now (sight_by roster.now words.old)
        (last_seen roster.now seen.now tracer) tracer action result }
    ensures words { words.new ≡ words_with (tracer_change (word_at words.old) tracer action result) words.old }
    ensures row { ForSome (row_seen action result) (λ row. row < length roster.now) }
{
    match action {
        Action::Look(row) => look_at(roster, words, row),
        Action::Claim(row) => claim_seen(roster, words, seen, row, tracer),
        Action::Resume(row, how) => match resume_at(roster, words, row, tracer, how) {
            Ok(()) => Reply::Done,
            Err(refusal) => Reply::Refused(refusal),
        },
        Action::TakeUp | Action::Publish(_) | Action::Exit(_) => Reply::Refused(Refused::NoRow),
    }
}

/// Claims a row for a tracer, if its word is still the one that the tracer last saw there.
fn claim_seen<A: Allocator>(
    roster: &Roster<A>,
    words: &mut [Word],
    seen: &[Word],
    row: u32,
    tracer: u32,
) -> Reply
    requires words { length words.old ≡ length roster.now }
    requires few { length roster.now ≤ MOST_ROWS }
    requires tracer { tracer < TRACERS }
    requires seen { tracer * length roster.now + length roster.now ≤ length seen.now }
    ensures reply { ClaimReplies (state_by roster.now words.old row) (last_seen roster.now seen.now tracer row)
        (word_at words.old row) result }
    ensures words { words.new
        ≡ words_with (tracer_change (word_at words.old) tracer (action.Claim row) result) words.old }
{
    if row >= roster.len() {
        return Reply::Refused(Refused::NoRow);
    }
    if state_of(roster, words, row) == State::Unborn {
        return Reply::Refused(Refused::Unborn);
    }
    let at = row as usize;
    let now = words[at];
    let reply = exchange(seen[seen_place(roster, tracer, row)], now);
    if let Reply::Got(_) = reply {
        // The claim happens here: the word is the one that the tracer saw, so nobody has claimed it since.
        words[at] = claimed(now, tracer as u8);
    }
    reply
}

/// The place of the word that a tracer last saw in a row: tracer by tracer, and row by row.
pub(crate) fn seen_place<A: Allocator>(roster: &Roster<A>, tracer: u32, row: u32) -> usize
    requires few { length roster.now ≤ MOST_ROWS }
    requires tracer { tracer < TRACERS }
    ensures { result ≡ seen_place roster.now tracer row }
{
    tracer as usize * roster.rows().len() + row as usize
}

/// What a claim that expects the word last seen says where it finds another one, or the same.
fn exchange(last: Word, now: Word) -> Reply
    ensures { Exchanges last now result }
{
    if !waits(last.phase) {
        Reply::Refused(Refused::NotWaitable)
    } else if last == now {
        Reply::Got(now)
    } else {
        Reply::Missed(now)
    }
}

/// Whether a row of this phase has a stop or a death to report.
fn waits(phase: Phase) -> bool
    ensures { result ≡ waits phase }
{
    matches!(phase, Phase::Stopped { .. } | Phase::Dead { .. })
}

/// The row whose word a tracer has seen by its action and the reply: it looked at it, missed it, or put it there.
pub(crate) fn row_seen(action: Action, reply: &Reply) -> Option<u32>
    ensures { result ≡ row_seen action reply.now }
{
    match (action, reply) {
        (Action::Look(row), Reply::Word(_)) => Some(row),
        (Action::Claim(row), Reply::Got(_) | Reply::Missed(_)) => Some(row),
        (Action::Resume(row, _), Reply::Done) => Some(row),
        _ => None,
    }
}
