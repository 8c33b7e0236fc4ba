//! The turns of actors in a run: a tracee's, from a restart to the next stop or the death, and a worker's, a wait and
//! the restart.

ghost use Rattle.stop_history.specs.declared.actor.Actor.TheVariants as actors;
ghost use Rattle.std.specs.Prelude.{◌≡◌, ◌<◌, ◌≤◌, List, IfOk, OnOk, length, ◌+◌, ◌-◌, Bool};
ghost use Rattle.stop_history.specs.declared.limits.TheConstants.{TRACERS};
ghost use Rattle.stop_table.specs.Entry.{Entry};
ghost use Rattle.trace_record.specs.Content.{Content};
ghost use Rattle.trace_script.specs.CaseFile.{CaseContent};
ghost use Rattle.tracer_workers.specs.Scheduled.{MovedBy, Stands};
ghost use Rattle.tracer_workers.specs.Turn.{HasDied, HasHeld, HasRunOn, HasServedAll, HasServedRow, HasStopped};
ghost use Rattle.tracer_workers.specs.Turn.{HasTurned, IsToRun};

use crate::config::policy;
use crate::fault::FAULT_DEATH;
use crate::one_thread;
use crate::scheduled::events::{end_row, publish_stop};
use crate::scheduled::run::Run;
use std::alloc::Allocator;
use stop_history::{Got, State};
use trace_options::NoMemory;
use trace_record::Death;
use trace_script::Next;

impl<'a, A: Allocator + Copy> Run<'a, A> {
    /// Runs the tracee of a row on.
    fn run_on(&mut self, row: u32) -> Result<Next, NoMemory>
        requires { row < length self.old.rows }
        ensures ran { IfOk result (λ next. HasRunOn self.old self.new row next) }
        ensures config { self.new.config ≡ self.old.config }
    {
        let traced = &mut self.rows[row as usize];
        let next = traced.run_on(self.alloc)?;
        Ok(next)
    }

    /// Publishes the stop to which a row has come.
    fn publish(&mut self, row: u32) -> Result<(), NoMemory>
        requires { (content : CaseContent) × (h : List Entry) × (c : Content) × HasStopped content self.old h row c }
        ensures moved { (content : CaseContent) (h : List Entry) (c : Content) → HasStopped content self.old h row c →
            OnOk result (MovedBy (actors.Tracee row) content self.old self.new h) }
        ensures config { self.new.config ≡ self.old.config }
    {
        let traced = &mut self.rows[row as usize];
        let piece = traced.piece(self.alloc, &self.show)?;
        publish_stop(&mut self.world, &mut self.folder, traced, row, piece)?;
        Ok(())
    }

    /// Ends a row that has come to its death, unless another row of its group holds it back; whether it has ended.
    fn exit(&mut self, row: u32, death: Death) -> Result<bool, NoMemory>
        requires { (content : CaseContent) × (h : List Entry) × HasDied content self.old h row death }
        ensures turned { (content : CaseContent) (h : List Entry) → HasDied content self.old h row death →
            IfOk result (λ ended. HasTurned content self.old self.new h row ended) }
        ensures config { self.new.config ≡ self.old.config }
    {
        let traced = &self.rows[row as usize];
        let ended = end_row(&mut self.world, &mut self.folder, traced, row, death)?;
        Ok(ended)
    }

    /// Runs the tracee of a running row to its next stop, or to its death. The death of a leader waits for its threads.
    fn running_turn(&mut self, row: u32) -> Result<bool, NoMemory>
        requires { (content : CaseContent) × (h : List Entry) × IsToRun content self.old h row }
        ensures turned { (content : CaseContent) (h : List Entry) → IsToRun content self.old h row →
            IfOk result (λ moved. HasTurned content self.old self.new h row moved) }
        ensures config { self.new.config ≡ self.old.config }
    {
        let told = self.run_on(row)?;
        match told {
            Next::Stop => {
                self.publish(row)?;
                Ok(true)
            }
            Next::Death(death) => self.exit(row, death),
            Next::Fault(_) => self.exit(row, FAULT_DEATH),
        }
    }

    /// The turn of a tracee, which does nothing where its row does not run; whether an event came of it.
    pub(crate) fn tracee_turn(&mut self, row: u32) -> Result<bool, NoMemory>
        requires { (content : CaseContent) × (h : List Entry) × Stands content self.old h
            × (row < length content.rows) }
        ensures turned { (content : CaseContent) (h : List Entry) → Stands content self.old h →
            row < length content.rows → IfOk result (λ moved. HasTurned content self.old self.new h row moved) }
        ensures config { self.new.config ≡ self.old.config }
    {
        match one_thread::state(&self.world, row) {
            State::Running => self.running_turn(row),
            _ => Ok(false),
        }
    }

    /// Claims what waits in a row, and restarts the row where it is a stop; whether something waited.
    pub(crate) fn claim(&mut self, row: u32, tracer: u8) -> bool
        requires low { tracer < TRACERS }
        requires stands { (content : CaseContent) × (h : List Entry) × Stands content self.old h
            × (row < length content.rows) }
        ensures claimed { (content : CaseContent) (h : List Entry) → Stands content self.old h →
            row < length content.rows → HasServedRow content self.old self.new h row tracer result }
        ensures config { self.new.config ≡ self.old.config }
    {
        match one_thread::claim(&mut self.world, row, tracer) {
            Err(_) => false,
            Ok(Got::Ended(_, _)) => true,
            Ok(Got::Stop(_, _)) => {
                self.restart(row, tracer);
                true
            }
        }
    }

    /// Restarts a row that a tracer has claimed.
    fn restart(&mut self, row: u32, tracer: u8)
        requires { (content : CaseContent) × (h : List Entry) × HasHeld content self.old h row tracer }
        ensures restarted { (content : CaseContent) (h : List Entry) → HasHeld content self.old h row tracer →
            MovedBy (actors.Tracer tracer) content self.old self.new h }
        ensures config { self.new.config ≡ self.old.config }
    {
        let traced = &mut self.rows[row as usize];
        let how = policy(&traced.content, &self.config);
        one_thread::resume(&mut self.world, row, tracer, how);
        traced.how = how;
    }

    /// The turn of a worker: it claims what waits in the first row in which something does; whether something did.
    pub(crate) fn worker_turn(&mut self, tracer: u8) -> bool
        requires low { tracer < TRACERS }
        requires stands { (content : CaseContent) × (h : List Entry) × Stands content self.old h }
        ensures worked { (content : CaseContent) (h : List Entry) → Stands content self.old h →
            HasServedAll content self.old self.new h tracer result }
        ensures config { self.new.config ≡ self.old.config }
    {
        for row in 0..self.rows.len() as u32 {
            if self.claim(row, tracer) {
                return true;
            }
        }
        false
    }

    /// The turn of an actor: of a row's tracee, or of a worker, which come after the tracees. Others have no turn.
    pub(crate) fn turn(&mut self, actor: u32) -> Result<(), NoMemory>
        requires workers { self.old.config.workers ≤ TRACERS }
        requires stands { (content : CaseContent) × (h : List Entry) × Stands content self.old h }
        ensures tracee { (content : CaseContent) (h : List Entry) → Stands content self.old h →
            actor < length content.rows →
            OnOk result ((moved : Bool) × HasTurned content self.old self.new h actor moved) }
        ensures worker { (content : CaseContent) (h : List Entry) → Stands content self.old h →
            length content.rows ≤ actor → actor < length content.rows + self.old.config.workers →
            OnOk result ((found : Bool)
            × HasServedAll content self.old self.new h (actor - length content.rows) found) }
        ensures nobody { (content : CaseContent) (h : List Entry) → Stands content self.old h →
            length content.rows + self.old.config.workers ≤ actor → OnOk result (self.new ≡ self.old) }
        ensures gone { (content : CaseContent) (h : List Entry) → Stands content self.old h →
            OnOk result ((later : List Entry) × Stands content self.new later) }
        ensures config { self.new.config ≡ self.old.config }
    {
        let rows = self.rows.len() as u32;
        if actor < rows {
            let _moved = self.tracee_turn(actor)?;
        } else if actor - rows < self.config.workers {
            let _worked = self.worker_turn((actor - rows) as u8);
        }
        Ok(())
    }
}
