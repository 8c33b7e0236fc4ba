//! The words of all rows: what they show, and what each call makes of them. The board and the interleaving model are
//! both made of these functions.

ghost use Rattle.std.specs.Prelude.{◌≡◌, ◌+◌, ◌<◌, ◌≤◌, ℕ, true, length, IfOk, IsSome, replicate};
ghost use Rattle.stop_history.specs.Roster.{IsRoster, parent_of};
ghost use Rattle.stop_history.specs.declared.limits.TheConstants.{MOST_ROWS};
ghost use Rattle.stop_history.specs.History.{creates_next, holding_back, holds_back};
ghost use Rattle.stop_history.specs.Sequential.{claim_by, exit_by, next_number, publish_by, resume_by, unless_held};
ghost use Rattle.stop_history.specs.Word.{shows_created, opening, state_by, word_at};
ghost use Rattle.stop_history.specs.Step.{claimed, died, published, restarted, with_word};
ghost use Rattle.trace_record.specs.Stop.{IsStop, child_of};
ghost use Rattle.trace_record.specs.Death.{IsDeath};
ghost use Rattle.trace_record.specs.Resume.{IsResume};

use crate::rules;
use std::alloc::Allocator;
use stop_history::{
    Got, LAST_NUMBER, NoMemory, Phase, Refused, Roster, State, Word, claimed, died, is_leader,
    place_of, published, restarted,
};
use trace_record::{Death, Resume, Stop};

/// The words of this many rows before any event.
pub(crate) fn opening_words<A: Allocator>(alloc: A, count: usize) -> Result<Vec<Word, A>, NoMemory>
    ensures { IfOk result (λ words. words.items ≡ replicate count opening) }
{
    let opening = Word {
        phase: Phase::Fresh,
        births: 0,
        number: 0,
    };
    let words = vec![in alloc; opening; count]?;
    Ok(words)
}

/// Whether a row is a root, or its parent has created it.
fn was_created<A: Allocator>(roster: &Roster<A>, words: &[Word], at: usize) -> bool
    requires row { at < length roster.now }
    requires words { length words.now ≡ length roster.now }
    ensures { result ≡ shows_created roster.now words.now at (parent_of roster.now at) }
{
    match roster.parent_place(at) {
        None => true,
        Some(parent) => {
            let parent = words[parent];
            roster.rank(at) < usize::from(parent.births)
        }
    }
}

/// The state that a row's word shows, among the words of all rows.
pub(crate) fn state_of<A: Allocator>(roster: &Roster<A>, words: &[Word], row: u32) -> State
    requires { length words.now ≡ length roster.now }
    ensures { result ≡ state_by roster.now words.now row }
{
    if row >= roster.len() {
        return State::Absent;
    }
    let at = row as usize;
    let word = words[at];
    let number = word.number;
    match word.phase {
        Phase::Fresh if was_created(roster, words, at) => State::Running,
        Phase::Fresh => State::Unborn,
        Phase::Resumed(_) | Phase::Active => State::Running,
        Phase::Stopped { status } => State::Stopped(number, status),
        Phase::Claimed { tracer } => State::Claimed(number, u32::from(tracer)),
        Phase::Dead { status } => State::Dead(number, status),
        Phase::Reaped => State::Reaped,
    }
}

/// Whether a stop creates no child, or the next one of a parent that has this many.
fn creates_next<A: Allocator>(roster: &Roster<A>, at: usize, births: u8, stop: Stop) -> bool
    requires row { at < length roster.now }
    requires roster { IsRoster roster.now }
    ensures next { result ≡ creates_next roster.now at births stop }
    ensures few { result ≡ true → IsSome (child_of stop) → births + 1 < MOST_ROWS }
{
    match stop.child() {
        None => true,
        Some(tid) => {
            let child = place_of(roster.rows(), tid);
            roster.is_next_child(at, usize::from(births), child)
        }
    }
}

/// The first other row of a leader's thread group that is alive.
#[tactic(auto, using(crate::proofs::Search::search_steps))]
fn holding_back<A: Allocator>(roster: &Roster<A>, words: &[Word], at: usize) -> Option<u32>
    requires row { at < length roster.now }
    requires words { length words.now ≡ length roster.now }
    requires few { length roster.now ≤ MOST_ROWS }
    ensures { result ≡ holding_back roster.now (state_by roster.now words.now) at }
{
    let rows = roster.rows();
    if !is_leader(rows[at]) {
        return None;
    }
    for other in 0..rows.len() {
        if holds_back(roster, words, at, other) {
            return Some(other as u32);
        }
    }
    None
}

/// Whether a row is an alive one of another's thread group, and not that row itself.
fn holds_back<A: Allocator>(roster: &Roster<A>, words: &[Word], at: usize, other: usize) -> bool
    requires row { at < length roster.now }
    requires other { other < length roster.now }
    requires words { length words.now ≡ length roster.now }
    requires few { length roster.now ≤ MOST_ROWS }
    ensures { result ≡ holds_back roster.now (state_by roster.now words.now) at other }
{
    let rows = roster.rows();
    other != at
        && rows[other].tgid == rows[at].tgid
        && rules::is_alive(state_of(roster, words, other as u32))
}

/// Publishes a row's next stop: its number, or why not.
pub(crate) fn publish_at<A: Allocator>(
    roster: &Roster<A>,
    words: &mut [Word],
    row: u32,
    stop: Stop,
) -> Result<u32, Refused>
    requires words { length words.old ≡ length roster.now }
    requires stop { IsStop stop }
    requires roster { IsRoster roster.now }
    ensures answer { result
        ≡ publish_by (state_by roster.now words.old row) (creates_next roster.now row (word_at words.old row).births stop)
        (word_at words.old row).number }
    ensures words { words.new ≡ with_word result words.old row (published (word_at words.old row) stop) }
{
    rules::running(state_of(roster, words, row))?;
    publish_running(roster, words, row, stop)
}

/// Publishes the next stop of a row that runs: its number, or why not.
pub(crate) fn publish_running<A: Allocator>(
    roster: &Roster<A>,
    words: &mut [Word],
    row: u32,
    stop: Stop,
) -> Result<u32, Refused>
    requires row { row < length roster.now }
    requires words { length words.old ≡ length roster.now }
    requires stop { IsStop stop }
    requires roster { IsRoster roster.now }
    ensures answer { result
        ≡ next_number (creates_next roster.now row (word_at words.old row).births stop) (word_at words.old row).number }
    ensures words { words.new ≡ with_word result words.old row (published (word_at words.old row) stop) }
{
    let at = row as usize;
    let word = words[at];
    if !creates_next(roster, at, word.births, stop) {
        return Err(Refused::NotNext);
    }
    if word.number >= LAST_NUMBER {
        return Err(Refused::Full);
    }
    // The publish happens here; a fork or a clone creates the child in the same change.
    words[at] = published(word, stop);
    Ok(word.number + 1)
}

/// Claims a row's stop or its death for a tracer: its number and status, or why not.
pub(crate) fn claim_at<A: Allocator>(
    roster: &Roster<A>,
    words: &mut [Word],
    row: u32,
    tracer: u32,
) -> Result<Got, Refused>
    requires { length words.old ≡ length roster.now }
    ensures answer { result ≡ claim_by tracer (state_by roster.now words.old row) }
    ensures words { words.new ≡ with_word result words.old row (claimed (word_at words.old row) tracer) }
{
    let got = claimable(roster, words, row, tracer)?;
    let at = row as usize;
    // The claim happens here.
    words[at] = claimed(words[at], tracer as u8);
    Ok(got)
}

/// What a claim of a row by a tracer would get, or why it would get nothing.
pub(crate) fn claimable<A: Allocator>(
    roster: &Roster<A>,
    words: &[Word],
    row: u32,
    tracer: u32,
) -> Result<Got, Refused>
    requires { length words.now ≡ length roster.now }
    ensures { result ≡ claim_by tracer (state_by roster.now words.now row) }
{
    rules::claimable(tracer, state_of(roster, words, row))
}

/// Resumes a row that the tracer has claimed, or says why not.
pub(crate) fn resume_at<A: Allocator>(
    roster: &Roster<A>,
    words: &mut [Word],
    row: u32,
    tracer: u32,
    how: Resume,
) -> Result<(), Refused>
    requires words { length words.old ≡ length roster.now }
    requires how { IsResume how }
    ensures answer { result ≡ resume_by tracer (state_by roster.now words.old row) }
    ensures words { words.new ≡ with_word result words.old row (restarted (word_at words.old row) how) }
{
    resumable(roster, words, row, tracer)?;
    let at = row as usize;
    // The resume happens here: the word keeps the restart.
    words[at] = restarted(words[at], how);
    Ok(())
}

/// Whether a tracer may resume a row, or why not.
pub(crate) fn resumable<A: Allocator>(
    roster: &Roster<A>,
    words: &[Word],
    row: u32,
    tracer: u32,
) -> Result<(), Refused>
    requires { length words.now ≡ length roster.now }
    ensures { result ≡ resume_by tracer (state_by roster.now words.now row) }
{
    rules::resumable(tracer, state_of(roster, words, row))
}

/// Lets a running row exit, or says why not: a leader waits for the other rows of its thread group.
pub(crate) fn exit_at<A: Allocator>(
    roster: &Roster<A>,
    words: &mut [Word],
    row: u32,
    death: Death,
) -> Result<(), Refused>
    requires words { length words.old ≡ length roster.now }
    requires roster { IsRoster roster.now }
    requires death { IsDeath death }
    ensures answer { result
        ≡ exit_by (holding_back roster.now (state_by roster.now words.old) row) (state_by roster.now words.old row) }
    ensures words { words.new ≡ with_word result words.old row (died (word_at words.old row) death) }
{
    rules::running(state_of(roster, words, row))?;
    exit_running(roster, words, row, death)
}

/// Lets a row that runs exit, or says which row holds it back.
pub(crate) fn exit_running<A: Allocator>(
    roster: &Roster<A>,
    words: &mut [Word],
    row: u32,
    death: Death,
) -> Result<(), Refused>
    requires row { row < length roster.now }
    requires words { length words.old ≡ length roster.now }
    requires roster { IsRoster roster.now }
    requires death { IsDeath death }
    ensures answer { result ≡ unless_held (holding_back roster.now (state_by roster.now words.old) row) }
    ensures words { words.new ≡ with_word result words.old row (died (word_at words.old row) death) }
{
    let at = row as usize;
    if let Some(other) = holding_back(roster, words, at) {
        return Err(Refused::GroupAlive(other));
    }
    // The exit happens here.
    words[at] = died(words[at], death);
    Ok(())
}
