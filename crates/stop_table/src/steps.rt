//! One function for each kind of atomic step, over the cells and a seat. Each does its step and moves the record that
//! goes with it; what it says of the history is said of the seat's view.

ghost use Rattle.std.specs.Prelude.{◌≡◌, ◌≢◌, ◌∷◌, ◌+◌, ◌<◌, ◌≤◌, [], true, false, length, MatchBool, MatchResult, None, Ok, Some};
ghost use Rattle.atomic_table.specs.Table.{rest};
ghost use Rattle.trace_record.specs.Death.{IsDeath};
ghost use Rattle.trace_record.specs.Resume.{IsResume};
ghost use Rattle.trace_record.specs.Stop.{IsStop};
ghost use Rattle.stop_history.specs.declared.actor.Actor.TheVariants as actor;
ghost use Rattle.stop_history.specs.declared.limits.TheConstants.{LAST_NUMBER, TRACERS};
ghost use Rattle.stop_history.specs.declared.phase.Phase.TheVariants.{Dead, Stopped};
ghost use Rattle.stop_history.specs.Actor.{mover_of};
ghost use Rattle.stop_history.specs.Change.{restart_in};
ghost use Rattle.stop_history.specs.History.{creates_next};
ghost use Rattle.stop_history.specs.Roster.{IsRoster, parent_of, row_at};
ghost use Rattle.stop_history.specs.State.{is_born};
ghost use Rattle.stop_history.specs.Step.{published};
ghost use Rattle.stop_table.specs.Entry.{AreLegal, cell_after, history_of, word_of};
ghost use Rattle.stop_table.specs.Group.{IsGroupSettled};
ghost use Rattle.stop_table.specs.Handle.{Looked, LooksOnce, SawUnborn};
ghost use Rattle.stop_table.specs.Place.{place};
ghost use Rattle.stop_table.specs.Seat.{HasEnded, HoldsAtHand, IsSameSeat, IsSeatOf, LetRun, Met, MissedAt, Published, ReapedAt};
ghost use Rattle.stop_table.specs.Seat.{Saw, TookStop, TookUp};
ghost use Rattle.stop_table.specs.View.{is_among};

use crate::boxed::BoxedRecord;
use crate::cells::{Cells, Seat};
use crate::rule::{Claims, Compares, Exits, Looks, Meets, Publishes, Reaps, Resumes, TakesUp};
use std::alloc::Allocator;
use std::marker::Model;
use stop_history::{Phase, Word, claimed, died, restarted, taken_up};
use trace_record::{Death, Resume};

/// A word that a look found in a row, with its bits, so that an exchange that looks for them need not pack them again.
#[derive(Drop)]
pub(crate) struct SeenWord {
    pub(crate) bits: u64,
    pub(crate) word: Word,
}

impl Model for SeenWord {
    ghost use Rattle.std.specs.Prelude.{◌≡◌};
    ghost use Rattle.stop_history.specs.Layout.{raw_of};
    ghost use Rattle.stop_history.specs.Word as words;

    ghost Value = { words.Word };

    ghost view = { λ f. f.word };

    ghost invariant = { λ f. (f.bits ≡ raw_of f.word) × words.IsWord f.word };
}

impl<A: Allocator> Cells<A> {
    /// One look at a row's word.
    #[inline(always)]
    pub(crate) fn see_bits(&self, seat: &mut Seat<A>, row: usize) -> SeenWord
        requires { IsSeatOf self.now seat.old × (row < length seat.old.me.0.roster) }
        ensures { IsSameSeat seat.old seat.new × Saw seat.old.me seat.new.me row result }
    {
        // A load changes nothing, whoever the row belongs to.
        let at = self.place(row);
        let bits = self.table.shared.load::<Looks>(seat, at);
        let word = Word::unpack_known(bits);
        SeenWord { bits, word }
    }

    /// The same, where the word alone is asked for.
    #[inline(always)]
    pub(crate) fn see(&self, seat: &mut Seat<A>, row: usize) -> Word
        requires { IsSeatOf self.now seat.old × (row < length seat.old.me.0.roster) }
        ensures { IsSameSeat seat.old seat.new × Saw seat.old.me seat.new.me row result }
    {
        self.see_bits(seat, row).word
    }

    /// Whether a row is born, by a look at its parent's word if it has one.
    pub(crate) fn sees_born(&self, seat: &mut Seat<A>, row: usize) -> bool
        requires { IsSeatOf self.now seat.old × (row < length seat.old.me.0.roster)
            × AreLegal seat.old.me.0.roster seat.old.me.0.seen × IsRoster seat.old.me.0.roster }
        ensures seat { IsSameSeat seat.old seat.new × (seat.new.me.1 ≡ seat.old.me.1) × Looked seat.old.me.0 seat.new.me.0 }
        ensures born { MatchBool result
            (is_born seat.old.me.0.roster (history_of seat.new.me.0.seen) row ≡ true)
            (SawUnborn seat.old.me.0 seat.new.me.0 row) }
        ensures once { LooksOnce (λ at. parent_of seat.old.me.0.roster row ≡ Some at) seat.old.me.0 seat.new.me.0 }
    {
        let Some(parent) = self.roster.parent_place(row) else {
            return true;
        };
        let births = self.see(seat, parent).births;
        self.roster.rank(row) < usize::from(births)
    }

    /// Whether a row is born, whose word was seen: a row that is not fresh is, and of a fresh one its parent tells.
    #[inline(always)]
    pub(crate) fn sees_running(&self, seat: &mut Seat<A>, row: usize, seen: Word) -> bool
        requires seat { IsSeatOf self.now seat.old × (row < length seat.old.me.0.roster)
            × AreLegal seat.old.me.0.roster seat.old.me.0.seen × IsRoster seat.old.me.0.roster }
        requires seen { seen.phase ≡ (cell_after seat.old.me.0.roster seat.old.me.0.seen row).phase }
        ensures seat { IsSameSeat seat.old seat.new × (seat.new.me.1 ≡ seat.old.me.1)
            × Looked seat.old.me.0 seat.new.me.0 }
        ensures born { MatchBool result
            (is_born seat.old.me.0.roster (history_of seat.new.me.0.seen) row ≡ true)
            (SawUnborn seat.old.me.0 seat.new.me.0 row) }
        ensures once { LooksOnce (λ at. parent_of seat.old.me.0.roster row ≡ Some at) seat.old.me.0 seat.new.me.0 }
    {
        if let Phase::Fresh = seen.phase {
            return self.sees_born(seat, row);
        }
        true
    }

    /// Takes a row up, whose word was seen, with its record.
    #[inline(always)]
    pub(crate) fn take_record(
        &self,
        seat: &mut Seat<A>,
        row: usize,
        seen: SeenWord,
    ) -> BoxedRecord<A>
        requires seat { IsSeatOf self.now seat.old × (row < length seat.old.me.0.roster) }
        requires tracee { (seat.old.me.0.tracees ≡ row ∷ []) × (seat.old.me.0.taken ≡ false)
            × (is_born seat.old.me.0.roster (history_of seat.old.me.0.seen) row ≡ true) }
        requires seen { (seen ≡ word_of false (cell_after seat.old.me.0.roster seat.old.me.0.seen row))
            × ((how : _) × (restart_in seen.phase ≡ Ok how)) }
        ensures { IsSameSeat seat.old seat.new × TookUp seat.old.me seat.new.me row result }
    {
        let old = seen.bits;
        let new = taken_up(seen.word).pack();
        let at = self.place(row);
        let shared = &self.table.shared;
        // The row is its tracee's alone: nobody can have changed the word since it was seen.
        shared.compare_exchange::<TakesUp>(seat, at, old, new);
        let Some(record) = shared.exchange(seat, at, None) else {
            unreachable!()
        };
        record
    }

    /// Publishes the next stop of a row that is taken up, with the word that the row has from then on.
    #[inline(always)]
    pub(crate) fn put_publish(
        &self,
        seat: &mut Seat<A>,
        row: usize,
        old: Word,
        new: Word,
        stop: BoxedRecord<A>,
    )
        requires seat { IsSeatOf self.now seat.old × (row < length seat.old.me.0.roster)
            × IsRoster seat.old.me.0.roster }
        requires tracee { (seat.old.me.0.tracees ≡ row ∷ []) × (seat.old.me.0.taken ≡ true)
            × (mover_of row (cell_after seat.old.me.0.roster seat.old.me.0.seen row).phase ≡ Some (actor.Tracee row))
            × (seat.old.me.1 ≡ (place row, None) ∷ rest seat.old.me.1) }
        requires word { (old ≡ word_of true (cell_after seat.old.me.0.roster seat.old.me.0.seen row))
            × (new ≡ published old stop.stop) }
        requires stop { (stop.tid ≡ (row_at seat.old.me.0.roster row).tid) × (stop.number ≡ old.number + 1)
            × (stop.number ≤ LAST_NUMBER) × IsStop stop.stop
            × (creates_next seat.old.me.0.roster row old.births stop.stop ≡ true) }
        ensures { IsSameSeat seat.old seat.new × Published seat.old.me seat.new.me row stop }
    {
        let at = self.place(row);
        let shared = &self.table.shared;
        // The record is in the slot before the word says so, and nobody looks there until then.
        let None = shared.exchange(seat, at, Some(stop)) else {
            unreachable!()
        };
        shared.compare_exchange::<Publishes>(seat, at, old.pack(), new.pack());
    }

    /// Claims the stop that was seen, or finds another word.
    #[inline(always)]
    pub(crate) fn try_claim(
        &self,
        seat: &mut Seat<A>,
        row: usize,
        seen: SeenWord,
        tracer: u8,
    ) -> Result<BoxedRecord<A>, Word>
        requires seat { IsSeatOf self.now seat.old × (row < length seat.old.me.0.roster) }
        requires tracer { (seat.old.me.0.number ≡ tracer)
            × (is_among seat.old.me.0.number seat.old.me.0.tracers ≡ true) × (tracer < TRACERS) }
        requires seen { (status : _) × (seen.phase ≡ Stopped status) }
        ensures seat { IsSameSeat seat.old seat.new }
        ensures claimed { MatchResult result
            (λ r. TookStop seat.old.me seat.new.me row seen r)
            (λ w. MissedAt seat.old.me seat.new.me row w × (w ≢ seen)) }
    {
        let old = seen.bits;
        let new = claimed(seen.word, tracer).pack();
        let at = self.place(row);
        let shared = &self.table.shared;
        // Where the word is still the one seen, the stop is this tracer's, and with it the slot.
        let found = shared.compare_exchange::<Claims>(seat, at, old, new);
        if found != old {
            return Err(Word::unpack_known(found));
        }
        let Some(record) = shared.exchange(seat, at, None) else {
            unreachable!()
        };
        Ok(record)
    }

    /// Claims the death that was seen, or finds another word.
    pub(crate) fn try_reap(
        &self,
        seat: &mut Seat<A>,
        row: usize,
        seen: SeenWord,
        tracer: u8,
    ) -> Result<(), Word>
        requires seat { IsSeatOf self.now seat.old × (row < length seat.old.me.0.roster) }
        requires tracer { (seat.old.me.0.number ≡ tracer)
            × (is_among seat.old.me.0.number seat.old.me.0.tracers ≡ true) × (tracer < TRACERS) }
        requires seen { (status : _) × (seen.phase ≡ Dead status) }
        ensures seat { IsSameSeat seat.old seat.new }
        ensures reaped { MatchResult result
            (λ _. ReapedAt seat.old.me seat.new.me row seen)
            (λ w. MissedAt seat.old.me seat.new.me row w × (w ≢ seen)) }
    {
        let old = seen.bits;
        let new = claimed(seen.word, tracer).pack();
        let at = self.place(row);
        let shared = &self.table.shared;
        // The record of a dead row stays in its slot: nobody asks for it.
        let found = shared.compare_exchange::<Reaps>(seat, at, old, new);
        if found != old {
            return Err(Word::unpack_known(found));
        }
        Ok(())
    }

    /// Puts the record of a claimed stop back, and lets the row run on.
    #[inline(always)]
    pub(crate) fn let_run(
        &self,
        seat: &mut Seat<A>,
        row: usize,
        word: Word,
        stop: BoxedRecord<A>,
        how: Resume,
    )
        requires seat { IsSeatOf self.now seat.old × (row < length seat.old.me.0.roster) }
        requires tracer { (is_among seat.old.me.0.number seat.old.me.0.tracers ≡ true)
            × (seat.old.me.0.number < TRACERS) }
        requires held { HoldsAtHand seat.old.me row word stop }
        requires how { IsResume how }
        ensures { IsSameSeat seat.old seat.new × LetRun seat.old.me seat.new.me row word.number how stop }
    {
        let new = restarted(word, how).pack();
        let at = self.place(row);
        let shared = &self.table.shared;
        // The record is home before the word lets its tracee take it.
        let None = shared.exchange(seat, at, Some(stop)) else {
            unreachable!()
        };
        shared.compare_exchange::<Resumes>(seat, at, word.pack(), new);
    }

    /// Ends a row that is taken up.
    #[inline(always)]
    pub(crate) fn put_exit(
        &self,
        seat: &mut Seat<A>,
        row: usize,
        old: Word,
        death: Death,
        stop: BoxedRecord<A>,
    )
        requires seat { IsSeatOf self.now seat.old × (row < length seat.old.me.0.roster)
            × IsRoster seat.old.me.0.roster }
        requires tracee { (seat.old.me.0.tracees ≡ row ∷ []) × (seat.old.me.0.taken ≡ true)
            × (mover_of row (cell_after seat.old.me.0.roster seat.old.me.0.seen row).phase ≡ Some (actor.Tracee row))
            × (seat.old.me.1 ≡ (place row, None) ∷ rest seat.old.me.1) }
        requires word { old ≡ word_of true (cell_after seat.old.me.0.roster seat.old.me.0.seen row) }
        requires death { IsDeath death }
        requires group { IsGroupSettled seat.old.me.0.roster row seat.old.me.0.seen }
        ensures { IsSameSeat seat.old seat.new × HasEnded seat.old.me seat.new.me row death }
    {
        let new = died(old, death).pack();
        let at = self.place(row);
        let shared = &self.table.shared;
        // Nobody asks for the record of a dead row. It goes back so that this handle has no slot out any more.
        let None = shared.exchange(seat, at, Some(stop)) else {
            unreachable!()
        };
        shared.compare_exchange::<Exits>(seat, at, old.pack(), new);
    }

    /// Takes another seat in.
    pub(crate) fn join(&self, seat: &mut Seat<A>, other: Seat<A>)
        requires seat { IsSeatOf self.now seat.old × (seat.old.me.0.taken ≡ false) }
        requires other { (other.table_id ≡ self.now.table.shared.table_id) × (other.me.0.taken ≡ false)
            × (other.me.1 ≡ []) }
        ensures { IsSameSeat seat.old seat.new × Met seat.old.me other.me.0 seat.new.me }
    {
        let shared = &self.table.shared;
        shared.join_seat::<Meets>(seat, other);
        // What the two had seen are both beginnings of one history, so that the longer begins with the shorter.
        shared.load::<Compares>(seat, 0);
    }
}
