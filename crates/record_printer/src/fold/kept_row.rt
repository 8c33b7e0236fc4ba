//! What a folder keeps of a row.

ghost use Rattle.std.specs.Option.{is_some};
ghost use Rattle.std.specs.Prelude.{◌≡◌, ◌||◌, ◌<◌, ◌≤◌, ◌+◌, ◌^◌, false, true, None, Some};
ghost use Rattle.std.specs.Prelude.{IfOk, IsOk, IsOkUnless, OnErr, OnOk};
ghost use Rattle.record_printer.specs.Kept.{AddsStop, KeepsStops, empty_row, has_any, stops_with};
ghost use Rattle.record_printer.specs.Note.{Stops};
ghost use Rattle.record_printer.specs.NoteOf.{note_of};
ghost use Rattle.record_printer.specs.RowAnswers.{death_fault, due, is_past, missing_in, stop_fault, text_in};
ghost use Rattle.record_printer.specs.declared.fold.ending.Ending.{Ending};
ghost use Rattle.record_printer.specs.declared.fold.error.FoldError.{FoldError};

use crate::fold::chain::{chain_from, fold_chain};
use crate::fold::ending::Ending;
use crate::fold::error::FoldError;
use crate::fold::room::TextRoom;
use crate::fold::row_fold::RowFold;
use crate::piece::note::Note;
use std::alloc::{Allocator, Global};
use std::collections::BTreeMap;
use std::marker::Model;
use trace_options::NoMemory;
use trace_record::Death;

/// A row: its stops up to a number are folded, and those that came before their turn wait.
#[derive(Drop)]
pub(crate) struct KeptRow<A: Allocator = Global> {
    /// Whether the creation of a child names the row.
    named: bool,
    ending: Option<Ending>,
    /// The greatest number of a stop that came, 0 without one.
    last: u32,
    /// The stops from 1 to this number are folded.
    done: u32,
    fold: RowFold<A>,
    early: BTreeMap<u32, Note<A>, A>,
}

impl<A: Allocator> Model for KeptRow<A> {
    ghost use Rattle.record_printer.specs.Kept.{Kept};

    ghost Value = { Kept };

    ghost use Rattle.record_printer.specs.KeptRow.{IsKept, kept_of};

    ghost view = { kept_of };

    ghost invariant = { IsKept };
}

impl<A: Allocator + Copy> KeptRow<A> {
    /// A row of which nothing has come. It takes no memory.
    pub(crate) fn new(alloc: A) -> KeptRow<A>
        ensures { result ≡ empty_row }
    {
        KeptRow {
            named: false,
            ending: None,
            last: 0,
            done: 0,
            fold: RowFold::new(alloc),
            early: BTreeMap::new(alloc),
        }
    }

    /// Adds a stop. One with the next number is folded at once, and those that wait for it after it; another waits.
    pub(crate) fn add_stop(&mut self, number: u32, note: Note<A>) -> Result<(), FoldError>
        ensures refused { (stops : Stops) → KeepsStops self.old stops → (error : FoldError)
            → stop_fault self.old.ending (is_some (stops number)) number ≡ Some error → result ≡ Err error }
        ensures accepted { (stops : Stops) → KeepsStops self.old stops
            → stop_fault self.old.ending (is_some (stops number)) number ≡ None
            → IsOkUnless result FoldError.NoMemory }
        ensures ok { OnOk result (AddsStop self.old self.new number (note_of note)) }
        ensures positive { OnOk result (1 ≤ number) }
        ensures err { OnErr result (self.new ≡ self.old) }
    {
        if let Some(fault) = self.stop_fault(number) {
            return Err(fault);
        }
        if number == self.done + 1 {
            self.fold_on(note)?;
        } else {
            self.wait(number, note)?;
        }
        Ok(())
    }

    /// Folds the next stop, and those that wait for it, once there is room for all of them.
    fn fold_on(&mut self, note: Note<A>) -> Result<(), NoMemory>
        requires next { self.old.done + 1 < 2 ^ 32 }
        requires within { (ending : Ending) → self.old.ending ≡ Some ending → self.old.done < ending.number }
        ensures ok { OnOk result (AddsStop self.old self.new (self.old.done + 1) (note_of note)) }
        ensures err { OnErr result (self.new ≡ self.old) }
    {
        let number = self.done + 1;
        let last = self.last.max(number);
        let room = TextRoom::none().with(&note).ok_or(NoMemory)?;
        let chain = chain_from(&self.early, number, last, room).ok_or(NoMemory)?;
        self.fold.reserve(chain.room)?;
        self.fold.take(note);
        fold_chain(&mut self.fold, &mut self.early, number, chain.last);
        self.last = last;
        self.done = chain.last;
        Ok(())
    }

    /// Keeps a stop until its turn.
    fn wait(&mut self, number: u32, note: Note<A>) -> Result<(), NoMemory>
        requires later { self.old.done + 1 < number }
        requires within { (ending : Ending) → self.old.ending ≡ Some ending → number ≤ ending.number }
        ensures ok { OnOk result (AddsStop self.old self.new number (note_of note)) }
        ensures err { OnErr result (self.new ≡ self.old) }
    {
        self.early.insert(number, note)?;
        self.last = self.last.max(number);
        Ok(())
    }
}

impl<A: Allocator> KeptRow<A> {
    /// Why a stop of this number is refused where there is memory.
    fn stop_fault(&self, number: u32) -> Option<FoldError>
        ensures fault { (stops : Stops) → KeepsStops self.now stops
            → result ≡ stop_fault self.now.ending (is_some (stops number)) number }
        ensures new { result ≡ None → self.now.done < number }
        ensures within { result ≡ None → (ending : Ending) → self.now.ending ≡ Some ending
            → number ≤ ending.number }
    {
        if number == 0 || self.is_past(number) {
            Some(FoldError::Stranger)
        } else if self.is_held(number) {
            Some(FoldError::Twice)
        } else {
            None
        }
    }

    /// Whether the number is above that of the row's death.
    fn is_past(&self, number: u32) -> bool
        ensures { result ≡ is_past self.now.ending number }
    {
        match self.ending {
            Some(ending) => ending.number < number,
            None => false,
        }
    }

    /// Whether the stop of this number has come.
    fn is_held(&self, number: u32) -> bool
        requires { 1 ≤ number }
        ensures held { (stops : Stops) → KeepsStops self.now stops → result ≡ is_some (stops number) }
        ensures new { result ≡ false → self.now.done < number }
    {
        number <= self.done || self.early.contains_key(&number)
    }

    /// Adds the death. It takes no memory.
    pub(crate) fn add_death(&mut self, number: u32, death: Death) -> Result<(), FoldError>
        ensures refused { (error : FoldError) → death_fault self.old.ending self.old.last number ≡ Some error
            → result ≡ Err error }
        ensures accepted { death_fault self.old.ending self.old.last number ≡ None → IsOk result }
        ensures ok { OnOk result (self.new
            ≡ record self.old { ending = Some (record { number = number; death = death }) }) }
        ensures err { OnErr result (self.new ≡ self.old) }
    {
        if number < self.last {
            return Err(FoldError::Stranger);
        }
        if self.ending.is_some() {
            return Err(FoldError::Twice);
        }
        self.ending = Some(Ending { number, death });
        Ok(())
    }

    /// Notes that the creation of a child names the row.
    pub(crate) fn set_named(&mut self)
        ensures { self.new ≡ record self.old { named = true } }
    {
        self.named = true;
    }

    /// Whether the creation of a child names the row, or a piece of it has come.
    pub(crate) fn is_known(&self) -> bool
        ensures { result ≡ (self.now.named || has_any self.now) }
    {
        self.named || self.last > 0 || self.ending.is_some()
    }

    /// The least number of a stop that has not come and must come, or one more than the last where the death alone is
    /// missing.
    pub(crate) fn missing(&self) -> Option<u64>
        ensures { (stops : Stops) → KeepsStops self.now stops
            → result ≡ missing_in stops self.now.ending self.now.last }
    {
        let done = u64::from(self.done);
        if done < self.due() {
            Some(done + 1)
        } else {
            None
        }
    }

    /// The last number that must have a stop: that of the death, or else one more than the last has.
    fn due(&self) -> u64
        ensures { result ≡ due self.now.ending self.now.last }
    {
        match self.ending {
            Some(ending) => u64::from(ending.number),
            None => u64::from(self.last) + 1,
        }
    }

    /// About how long the text of the row is.
    pub(crate) fn text_len(&self) -> usize {
        self.fold.text_len()
    }

    /// The text of a row that lacks no stop, if it has died; one that has not has none.
    pub(crate) fn into_text(self, tid: u32) -> Result<Vec<u8, A>, NoMemory>
        ensures { (stops : Stops) → KeepsStops self stops
            → ((ending : Ending) → self.ending ≡ Some ending → missing_in stops self.ending self.last ≡ None)
            → IfOk result (λ text. text.items ≡ text_in tid stops self.ending) }
    {
        let ending = self.ending;
        let fold = self.fold;
        match ending {
            Some(ending) => fold.finish(tid, ending.death),
            None => Ok(fold.into_empty()),
        }
    }
}
