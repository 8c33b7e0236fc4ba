//! The interleaving model: the stop cells of all rows under any interleaving of atomic steps.
//!
//! 1. A tracee takes its row up, and then publishes or exits: two steps, between which others may act.
//! 2. A tracer looks at a row, and claims it by comparing the word that it last saw with the word that is there: it
//!    gets the row, or misses it because somebody has changed the word since.
//! 3. The tracer that has claimed a row resumes it.
//!
//! A list of turns, each an actor and its action, is an interleaving. What the model does not have is memory and
//! registers: those go with the records of the cells that threads share.

ghost use Rattle.std.specs.Prelude.{◌≡◌, All, ◌+◌, ◌*◌, ◌<◌, ◌≤◌, ℕ, IfOk, OnErr, Option, length};
ghost use Rattle.std.specs.Option.{ForSome};
ghost use Rattle.stop_board.specs.Action.{IsAction, look_reply, row_seen};
ghost use Rattle.stop_history.specs.Actor.{numbered_actor};
ghost use Rattle.stop_history.specs.Change.{words_with};
ghost use Rattle.stop_history.specs.Roster.{IsRoster};
ghost use Rattle.stop_history.specs.declared.limits.TheConstants.{MOST_ROWS, TRACERS};
ghost use Rattle.stop_history.specs.Word.{word_at};
ghost use Rattle.stop_board.specs.World.{ActorReplies, IsActorWithPlaces, actor_change, last_seen, sight_by};
ghost use Rattle.stop_board.specs.World.{words_seen, words_seen_by};

mod action;
mod one_thread;
mod tracee;
mod tracer;

use crate::words::{opening_words, state_of};
pub use action::{Action, Reply};
use std::alloc::{Allocator, Global};
use std::marker::Model;
use stop_history::{Actor, NoMemory, Refused, Roster, State, Word};
use tracee::tracee_step;
use tracer::{row_seen, seen_place, tracer_step};

/// The stop cells of all rows of a roster, changed by one atomic step of one actor at a time. It represents a moment:
/// a legal history, the rows that are taken up, and the word that each tracer last saw in each row. Each step that is
/// not refused goes on to the next moment.
///
/// The actors are the tracees, by their rows, and then the tracers 0, 1, ..
#[derive(Drop)]
pub struct World<A: Allocator = Global> {
    roster: Roster<A>,
    tracers: u32,
    words: Vec<Word, A>,
    seen: Vec<Word, A>,
}

impl<A: Allocator> Model for World<A> {
    ghost use Rattle.stop_board.specs.World.{IsContents, Contents};

    ghost Value = { Contents };

    ghost view = { λ w. record {
      rows = w.roster;
      tracers = w.tracers;
      words = w.words.items;
      seen = w.seen.items;
    } };

    ghost invariant = { λ w. IsContents w.roster w.tracers w.words.items w.seen.items };
}

impl<A: Allocator + Copy> World<A> {
    ghost use Rattle.stop_board.specs.World.{StandsAt, first_moment};

    /// A World of this many tracers, at most 16, before any event. No tracer has looked yet: what each last saw in
    /// each row is the opening word.
    pub fn new<B: Allocator>(
        alloc: A,
        roster: &Roster<B>,
        tracers: u32,
    ) -> Result<World<A>, NoMemory>
        requires { tracers ≤ TRACERS }
        ensures rows { IfOk result (λ world. world.rows ≡ roster.now) }
        ensures tracers { IfOk result (λ world. world.tracers ≡ tracers) }
        ensures stands { IfOk result (λ world. StandsAt world first_moment) }
    {
        let roster = Roster::copy(alloc, roster)?;
        let rows = roster.rows().len();
        let words = opening_words(alloc, rows)?;
        let seen = opening_words(alloc, tracers as usize * rows)?;
        Ok(World {
            roster,
            tracers,
            words,
            seen,
        })
    }
}

impl<A: Allocator> World<A> {
    ghost use Rattle.stop_history.specs.Standing.{AreAt};
    ghost use Rattle.stop_history.specs.State.{state_after};
    ghost use Rattle.stop_history.specs.declared.refused.Refused.{Refused};
    ghost use Rattle.stop_board.specs.World.{HasSeen, Moment, Replies, StandsAt, moment_after_step};

    /// The state of a row, `Absent` out of range.
    pub fn state(&self, row: u32) -> State
        ensures { (m : Moment) → StandsAt self.now m → result ≡ state_after self.now.rows m.history row }
    {
        state_of(&self.roster, self.words.as_slice(), row)
    }

    /// One atomic step of an actor, by its number. Refusals are those of `Action`; `NoRow` too where no actor has the
    /// number. What is refused, looked at or missed changes no word. A tracer has seen the word that it looked at or
    /// that made it miss, and the one that its own claim or resume put there.
    #[inline(always)]
    pub fn step(&mut self, actor: u32, action: Action) -> Reply
        requires { IsAction action }
        ensures reply { (m : Moment) → StandsAt self.old m
            → Replies self.old.rows self.old.tracers m actor action result }
        ensures stands { (m : Moment) → StandsAt self.old m →
            AreAt self.new.rows self.new.words
            (moment_after_step self.old.rows self.old.tracers m actor action result).taken
            (moment_after_step self.old.rows self.old.tracers m actor action result).history }
        ensures seen { (m : Moment) → StandsAt self.old m →
            HasSeen self.new (moment_after_step self.old.rows self.old.tracers m actor action result).seen }
        ensures refused { (refusal : Refused) → result ≡ Reply.Refused refusal → self.new ≡ self.old }
        ensures rows { self.new.rows ≡ self.old.rows }
        ensures tracers { self.new.tracers ≡ self.old.tracers }
    {
        let actor = actor_of(&self.roster, self.tracers, actor);
        step_of(
            &self.roster,
            self.words.as_mut_slice(),
            self.seen.as_mut_slice(),
            actor,
            action,
        )
    }
}

impl<A: Allocator + Copy> World<A> {
    ghost use Rattle.stop_board.specs.World.{AreReplies, Moment, StandsAt, moment_after_run};

    /// The replies to turns of actors, in order. Room for them is made first, so a run that is refused for want of
    /// memory has done nothing.
    pub fn run(&mut self, turns: &[(u32, Action)]) -> Result<Vec<Reply, A>, NoMemory>
        requires { All (λ turn. IsAction turn.1) turns.now }
        ensures replies { (m : Moment) → StandsAt self.old m →
            IfOk result (λ replies. AreReplies self.old.rows self.old.tracers m turns.now replies.items) }
        ensures stands { (m : Moment) → StandsAt self.old m →
            IfOk result (λ replies. StandsAt self.new
            (moment_after_run self.old.rows self.old.tracers m turns.now replies.items)) }
        ensures refused { OnErr result (self.new ≡ self.old) }
        ensures rows { self.new.rows ≡ self.old.rows }
        ensures tracers { self.new.tracers ≡ self.old.tracers }
    {
        let mut replies = Vec::with_capacity(*self.words.allocator(), turns.len())?;
        for turn in turns {
            if replies.push(self.step(turn.0, turn.1)).is_err() {
                unreachable!();
            }
        }
        Ok(replies)
    }
}

/// The actor of a number, if there is one.
#[inline(always)]
fn actor_of<A: Allocator>(roster: &Roster<A>, tracers: u32, number: u32) -> Option<Actor>
    requires few { length roster.now ≤ MOST_ROWS }
    requires tracers { tracers ≤ TRACERS }
    ensures { result ≡ numbered_actor (length roster.now) tracers number }
{
    let rows = roster.len();
    if number < rows {
        Some(Actor::Tracee(number))
    } else if number < rows + tracers {
        Some(Actor::Tracer(number - rows))
    } else {
        None
    }
}

/// A step of an actor, if there is one of its number.
#[inline(always)]
fn step_of<A: Allocator>(
    roster: &Roster<A>,
    words: &mut [Word],
    seen: &mut [Word],
    actor: Option<Actor>,
    action: Action,
) -> Reply
    requires words { length words.old ≡ length roster.now }
    requires roster { IsRoster roster.now }
    requires actor { IsActorWithPlaces (length roster.now) (length seen.old) actor }
    requires action { IsAction action }
    ensures reply { ActorReplies roster.now (sight_by roster.now words.old)
        (last_seen roster.now seen.old) actor action result }
    ensures row { ForSome (row_seen action result) (λ row. row < length roster.now) }
    ensures words { words.new ≡ words_with (actor_change (word_at words.old) actor action result) words.old }
    ensures seen { seen.new ≡ words_seen_by roster.now (word_at words.new) actor action result seen.old }
{
    match actor {
        None => Reply::Refused(Refused::NoRow),
        Some(Actor::Tracee(row)) => tracee_step(roster, words, row, action),
        Some(Actor::Tracer(tracer)) => {
            let reply = tracer_step(roster, words, seen, tracer, action);
            note(roster, words, seen, tracer, row_seen(action, &reply));
            reply
        }
    }
}

/// Notes that a tracer has seen the word that a row has now.
#[inline(always)]
fn note<A: Allocator>(
    roster: &Roster<A>,
    words: &[Word],
    seen: &mut [Word],
    tracer: u32,
    row: Option<u32>,
)
    requires words { length words.now ≡ length roster.now }
    requires few { length roster.now ≤ MOST_ROWS }
    requires tracer { tracer < TRACERS }
    requires row { ForSome row (λ at. at < length roster.now) }
    requires seen { tracer * length roster.now + length roster.now ≤ length seen.old }
    ensures { seen.new ≡ words_seen roster.now (word_at words.now) tracer row seen.old }
{
    if let Some(row) = row {
        seen[seen_place(roster, tracer, row)] = words[row as usize];
    }
}

/// Reads a row's word.
fn look_at<A: Allocator>(roster: &Roster<A>, words: &[Word], row: u32) -> Reply
    requires { length words.now ≡ length roster.now }
    ensures { result ≡ look_reply roster.now (sight_by roster.now words.now) row }
{
    match words.get(row as usize) {
        Some(word) => Reply::Word(*word),
        None => Reply::Refused(Refused::NoRow),
    }
}
