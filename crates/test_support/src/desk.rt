//! A tracer as a test uses it: a row is checked to be one of the roster before a call.

ghost use Rattle.std.specs.Prelude.{◌≡◌, ◌≢◌, ◌<◌, ℕ, Bool, IfSome, length};
ghost use Rattle.trace_record.specs.Content.{Content};
ghost use Rattle.trace_record.specs.Resume.{IsResume};
ghost use Rattle.stop_history.specs.Word.{Word};
ghost use Rattle.stop_table.specs.Claiming.{IsTaken};
ghost use Rattle.stop_table.specs.Handle.{IsHolding};
ghost use Rattle.stop_table.specs.View.{View};

use crate::runner::AtRest;
use std::alloc::{Allocator, Global};
use stop_table::laws::claims_stay_in_hand;
use stop_table::{Claim, Shown, Taken, Tracer};
use trace_record::{Death, Kind, Resume};

/// How the tests resume what they have claimed, if they say nothing else.
pub const CONT: Resume = Resume {
    kind: Kind::Cont,
    signal: 0,
};

/// The status of `Stop::Start`: `PTRACE_EVENT_STOP` above `SIGTRAP` above 0x7f.
pub const START: u32 = 0x80057f;

/// What an attempt to claim a row answered, in a plain value.
#[derive(Clone, Copy, Debug, PartialEq, Eq)]
pub enum Answer {
    /// The stop of this number was claimed, and resumed at once.
    Stop { tid: u32, number: u32, mark: u64 },
    Ended { death: Death, number: u32 },
    Nothing(Shown),
}

/// A tracer's handle, with the number of rows.
#[derive(Drop)]
pub struct Desk<A: Allocator = Global> {
    pub tracer: Tracer<A>,
    pub rows: u32,
    pub ghost counted: { length tracer.view.roster ≡ rows },
}

impl<A: Allocator> Desk<A> {
    /// What a row shows; a row that is not there shows as unborn.
    pub fn look(&mut self, row: u32) -> Shown
        ensures table { self.new.tracer.table_id ≡ self.old.tracer.table_id }
        ensures others { (other : ℕ) (word : Word) (content : Content) →
            IsHolding self.old.tracer.view other word content → IsHolding self.new.tracer.view other word content }
    {
        claims_stay_in_hand();
        let _ = self.tracer.number();
        if row < self.rows {
            self.tracer.look(row)
        } else {
            Shown::Unborn
        }
    }

    /// Claims the stop of a row, to be resumed later.
    pub fn claim(&mut self, row: u32) -> Option<Claim<A>>
        ensures table { self.new.tracer.table_id ≡ self.old.tracer.table_id }
        ensures holding { IfSome result (λ c. (c.row ≡ row) × IsHolding self.new.tracer.view row c.word c.stop) }
        ensures others { (other : ℕ) (word : Word) (content : Content) → other ≢ row →
            IsHolding self.old.tracer.view other word content → IsHolding self.new.tracer.view other word content }
    {
        claims_stay_in_hand();
        let _ = self.tracer.number();
        if row >= self.rows {
            return None;
        }
        match self.tracer.claim(row) {
            Taken::Stop(claim) => Some(claim),
            Taken::Ended {
                death: _death,
                number: _number,
            } => None,
            Taken::Nothing(_shown) => None,
        }
    }

    /// Lets the row of a claim run on.
    pub fn resume(&mut self, claim: Claim<A>, how: Resume)
        requires { IsHolding self.old.tracer.view claim.row claim.word claim.stop × IsResume how }
        ensures table { self.new.tracer.table_id ≡ self.old.tracer.table_id }
        ensures others { (other : ℕ) (word : Word) (content : Content) → other ≢ claim.row →
            IsHolding self.old.tracer.view other word content → IsHolding self.new.tracer.view other word content }
    {
        claims_stay_in_hand();
        let _ = self.tracer.number();
        self.tracer.resume(claim, how);
    }

    /// What `claim` answers. A stop that it claims is resumed at once.
    pub fn try_claim(&mut self, row: u32) -> Answer
        ensures { self.new.tracer.table_id ≡ self.old.tracer.table_id }
    {
        if row >= self.rows {
            return Answer::Nothing(Shown::Unborn);
        }
        let taken = self.tracer.claim(row);
        self.settle(taken)
    }

    /// What `claim_stop` answers. A stop that it claims is resumed at once.
    pub fn try_claim_stop(&mut self, row: u32) -> Answer
        ensures { self.new.tracer.table_id ≡ self.old.tracer.table_id }
    {
        if row >= self.rows {
            return Answer::Nothing(Shown::Unborn);
        }
        let taken = self.tracer.claim_stop(row);
        self.settle(taken)
    }

    /// The plain value of an answer. A stop that was claimed is resumed.
    fn settle(&mut self, taken: Taken<A>) -> Answer
        requires { (deaths : Bool) × (before : View) × (row : ℕ)
            × IsTaken deaths before self.old.tracer.view row taken }
        ensures { self.new.tracer.table_id ≡ self.old.tracer.table_id }
    {
        match taken {
            Taken::Stop(claim) => {
                let stop = claim.record();
                let answer = Answer::Stop {
                    tid: stop.tid,
                    number: stop.number,
                    mark: stop.regs.rax,
                };
                self.tracer.resume(claim, CONT);
                answer
            }
            Taken::Ended { death, number } => Answer::Ended { death, number },
            Taken::Nothing(shown) => Answer::Nothing(shown),
        }
    }

    /// Takes another tracer in, unless that one has claims left.
    pub fn meet(self, other: Desk<A>) -> Option<Desk<A>>
        requires { other.tracer.table_id ≡ self.tracer.table_id }
        ensures { IfSome result (λ d. d.tracer.table_id ≡ self.tracer.table_id) }
    {
        let Desk { tracer, rows } = self;
        if other.tracer.held() != 0 {
            return None;
        }
        let tracer = tracer.meet(other.tracer);
        Some(Desk { tracer, rows })
    }

    /// Takes a tracee in.
    pub fn meet_tracee(self, other: AtRest<A>) -> Desk<A>
        requires { other.tracee.table_id ≡ self.tracer.table_id }
    {
        let Desk { tracer, rows } = self;
        let tracer = tracer.meet_tracee(other.tracee);
        Desk { tracer, rows }
    }
}
