//! Rounds of turns, which run each row out until nothing happens any more.

ghost use Rattle.std.specs.Prelude.{◌≡◌, ◌<◌, List, IfOk, OnOk, length};
ghost use Rattle.stop_table.specs.Entry.{Entry};
ghost use Rattle.trace_script.specs.CaseFile.{CaseContent};
ghost use Rattle.tracer_workers.specs.Scheduled.{IsRunOver, Stands};
ghost use Rattle.tracer_workers.specs.Turn.{HasGone, HasRunOut};

use crate::scheduled::run::Run;
use std::alloc::Allocator;
use trace_options::NoMemory;

impl<'a, A: Allocator + Copy> Run<'a, A> {
    /// Turns of a row's tracee and of worker 0 in that row, until no event comes of them; whether one did.
    fn run_out(&mut self, row: u32) -> Result<bool, NoMemory>
        requires { (content : CaseContent) × (h : List Entry) × Stands content self.old h
            × (row < length content.rows) }
        ensures gone { (content : CaseContent) (h : List Entry) → Stands content self.old h →
            row < length content.rows → IfOk result (λ moved. HasRunOut content self.old self.new h row moved) }
        ensures config { self.new.config ≡ self.old.config }
    {
        let mut moved = false;
        'pairs: while self.pair(row)? {
            moved = true;
        }
        Ok(moved)
    }

    /// A turn of a row's tracee and then one of worker 0 in that row; whether an event came of them.
    fn pair(&mut self, row: u32) -> Result<bool, NoMemory>
        requires { (content : CaseContent) × (h : List Entry) × Stands content self.old h
            × (row < length content.rows) }
        ensures gone { (content : CaseContent) (h : List Entry) → Stands content self.old h →
            row < length content.rows → IfOk result (λ moved. HasRunOut content self.old self.new h row moved) }
        ensures config { self.new.config ≡ self.old.config }
    {
        let turned = self.tracee_turn(row)?;
        let claimed = self.claim(row, 0);
        Ok(turned | claimed)
    }

    /// Runs out each row in turn; whether an event came of one.
    fn round(&mut self) -> Result<bool, NoMemory>
        requires { (content : CaseContent) × (h : List Entry) × Stands content self.old h }
        ensures gone { (content : CaseContent) (h : List Entry) → Stands content self.old h →
            IfOk result (λ moved. HasGone content self.old self.new h moved) }
        ensures config { self.new.config ≡ self.old.config }
    {
        let mut moved = false;
        for row in 0..self.rows.len() as u32 {
            moved |= self.run_out(row)?;
        }
        Ok(moved)
    }

    /// Rounds, until no event comes of one.
    pub(crate) fn rounds(&mut self) -> Result<(), NoMemory>
        requires { (content : CaseContent) × (h : List Entry) × Stands content self.old h }
        ensures over { (content : CaseContent) (h : List Entry) → Stands content self.old h →
            OnOk result ((later : List Entry) × Stands content self.new later × IsRunOver content later) }
        ensures config { self.new.config ≡ self.old.config }
    {
        let mut moved = true;
        while moved {
            moved = self.round()?;
        }
        Ok(())
    }
}
