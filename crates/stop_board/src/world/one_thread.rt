//! One thread that plays every actor of a World, one call after the other: it is answered as by the one-thread board.
//!
//! A tracee's call first takes its row up, which is refused where it has been taken up already or does not run, and
//! then changes nothing. A claim first looks, so that it compares with the row's word now and never misses.

ghost use Rattle.std.specs.Prelude.{◌≡◌, Result};
ghost use Rattle.stop_board.specs.OneThread.{done_in, got_in, got_of, published_in};

use super::World;
use super::action::{Action, Reply};
use std::alloc::Allocator;
use stop_history::{Got, Phase, Refused, Word};
use trace_record::{Death, Resume, Stop};

impl<A: Allocator> World<A> {
    ghost use Rattle.std.specs.Prelude.{◌+◌, length};
    ghost use Rattle.stop_board.specs.OneThread.{HasHistory};
    ghost use Rattle.stop_board.specs.World.{Moment, StandsAt};
    ghost use Rattle.stop_history.specs.Event as event;
    ghost use Rattle.stop_history.specs.Sequential.{claim_answer, exit_answer, goes_on, publish_answer, resume_answer};
    ghost use Rattle.stop_history.specs.State.{last_number};
    ghost use Rattle.stop_history.specs.declared.limits.TheConstants.{TRACERS};
    ghost use Rattle.trace_record.specs.Death.{IsDeath};
    ghost use Rattle.trace_record.specs.Resume.{IsResume};
    ghost use Rattle.trace_record.specs.Stop.{IsStop};

    /// Takes a row up and publishes its next stop: its number, or why not (as `Board::publish`).
    pub fn publish(&mut self, row: u32, stop: Stop) -> Result<u32, Refused>
        requires { IsStop stop }
        ensures answer { (m : Moment) → StandsAt self.old m → result ≡ publish_answer self.old.rows m.history row stop }
        ensures stands { (m : Moment) → StandsAt self.old m →
            HasHistory self.new (goes_on result (event.Publish row (last_number m.history row + 1) stop) m.history) }
        ensures rows { self.new.rows ≡ self.old.rows }
        ensures tracers { self.new.tracers ≡ self.old.tracers }
    {
        let _ = self.step(row, Action::TakeUp);
        published_in(self.step(row, Action::Publish(stop)))
    }

    /// Takes a row up and lets it exit, or says why not (as `Board::exit`).
    pub fn exit(&mut self, row: u32, death: Death) -> Result<(), Refused>
        requires { IsDeath death }
        ensures answer { (m : Moment) → StandsAt self.old m → result ≡ exit_answer self.old.rows m.history row }
        ensures stands { (m : Moment) → StandsAt self.old m →
            HasHistory self.new (goes_on result (event.Exit row death) m.history) }
        ensures rows { self.new.rows ≡ self.old.rows }
        ensures tracers { self.new.tracers ≡ self.old.tracers }
    {
        let _ = self.step(row, Action::TakeUp);
        done_in(self.step(row, Action::Exit(death)))
    }

    /// Looks at a row and claims it for a tracer: what it got, or why not (as `Board::claim`). The World has all 16
    /// tracers, as a board has.
    pub fn claim(&mut self, row: u32, tracer: u8) -> Result<Got, Refused>
        requires { self.old.tracers ≡ TRACERS }
        ensures answer { (m : Moment) → StandsAt self.old m → result ≡ claim_answer self.old.rows m.history row tracer }
        ensures stands { (m : Moment) → StandsAt self.old m →
            HasHistory self.new (goes_on result (event.Claim row (last_number m.history row) tracer) m.history) }
        ensures rows { self.new.rows ≡ self.old.rows }
        ensures tracers { self.new.tracers ≡ self.old.tracers }
    {
        let actor = self.actor_of_tracer(tracer);
        let _ = self.step(actor, Action::Look(row));
        got_in(self.step(actor, Action::Claim(row)))
    }

    /// Resumes a row that a tracer has claimed, or says why not (as `Board::resume`). The World has all 16 tracers,
    /// as a board has.
    pub fn resume(&mut self, row: u32, tracer: u8, how: Resume) -> Result<(), Refused>
        requires tracers { self.old.tracers ≡ TRACERS }
        requires how { IsResume how }
        ensures answer { (m : Moment) → StandsAt self.old m
            → result ≡ resume_answer self.old.rows m.history row tracer }
        ensures stands { (m : Moment) → StandsAt self.old m →
            HasHistory self.new (goes_on result (event.Resume row (last_number m.history row) how tracer) m.history) }
        ensures rows { self.new.rows ≡ self.old.rows }
        ensures tracers { self.new.tracers ≡ self.old.tracers }
    {
        let actor = self.actor_of_tracer(tracer);
        done_in(self.step(actor, Action::Resume(row, how)))
    }

    /// The number of a tracer among all actors: the tracees come first.
    fn actor_of_tracer(&self, tracer: u8) -> u32
        ensures { result ≡ length self.now.rows + tracer }
    {
        self.roster.len() + u32::from(tracer)
    }
}

/// The number of the stop that was published.
fn published_in(reply: Reply) -> Result<u32, Refused>
    ensures { result ≡ published_in reply }
{
    match reply {
        Reply::Number(number) => Ok(number),
        Reply::Refused(refusal) => Err(refusal),
        _ => Err(Refused::NotRunning),
    }
}

/// That it is done.
fn done_in(reply: Reply) -> Result<(), Refused>
    ensures { result ≡ done_in reply }
{
    match reply {
        Reply::Done => Ok(()),
        Reply::Refused(refusal) => Err(refusal),
        _ => Err(Refused::NotRunning),
    }
}

/// What was claimed.
fn got_in(reply: Reply) -> Result<Got, Refused>
    ensures { result ≡ got_in reply }
{
    match reply {
        Reply::Got(word) => got_of(word),
        Reply::Refused(refusal) => Err(refusal),
        _ => Err(Refused::NotWaitable),
    }
}

/// The stop or the death that a word shows.
fn got_of(word: Word) -> Result<Got, Refused>
    ensures { result ≡ got_of word.number word.phase }
{
    let number = word.number;
    match word.phase {
        Phase::Stopped { status } => Ok(Got::Stop(number, status)),
        Phase::Dead { status } => Ok(Got::Ended(number, status)),
        _ => Err(Refused::NotWaitable),
    }
}
