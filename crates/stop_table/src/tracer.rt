//! The handle of a tracer.

ghost use Rattle.std.specs.Prelude.{◌≡◌, ◌∷◌, ◌<◌, [], true, false, length};
ghost use Rattle.std.specs.Arc.{arc_value};
ghost use Rattle.trace_record.specs.Resume.{IsResume};
ghost use Rattle.stop_history.specs.declared.limits.TheConstants.{TRACERS};
ghost use Rattle.stop_history.specs.declared.phase.Phase.TheVariants.{Dead, Stopped};
ghost use Rattle.stop_history.specs.Roster.{IsRoster};
ghost use Rattle.stop_history.specs.State.{is_born};
ghost use Rattle.stop_table.specs.Claiming.{IsTaken, IsTakenOrLost};
ghost use Rattle.stop_table.specs.Entry.{cell_after, history_of, resume_of, word_of};
ghost use Rattle.stop_table.specs.Handle.{EndsWith, IsHolding, IsRowOrParent, LooksAt, LooksOnce, Meets};
ghost use Rattle.stop_table.specs.Handle.{OnlyExchanges, TriesOnce};
ghost use Rattle.stop_table.specs.Opening.{new_view};
ghost use Rattle.stop_table.specs.Tracer.{IsTracerHandle, KeepsHandle, held_rows};

use crate::cells::{Cells, Seat};
use crate::claim::{Claim, Taken};
use crate::held::Held;
use crate::shown::{Shown, is_claimable, show};
use crate::steps::SeenWord;
use crate::tracee::Tracee;
use std::alloc::{Allocator, Global};
use std::marker::Model;
use std::sync::Arc;
use stop_history::{Phase, Word, claimed};
use trace_record::{Death, Resume};

/// What a tracer's thread holds: it looks at rows, claims their stops and deaths, and resumes what it has claimed. No
/// call takes memory or waits. A row argument is a row of the roster. It may be dropped at any time; what it has claimed
/// and not resumed then stays claimed.
#[derive(Drop)]
pub struct Tracer<A: Allocator = Global> {
    cells: Arc<Cells<A>, A>,
    seat: Seat<A>,
    number: u8,
    /// The rows that it has claimed, in the order in which their slots are out with the seat.
    held: Held<A>,
}

impl<A: Allocator> Model for Tracer<A> {
    ghost use Rattle.std.specs.Prelude.{◌≡◌};
    ghost use Rattle.std.specs.Arc.{arc_value};
    ghost use Rattle.std.specs.Coded.{codes};
    ghost use Rattle.trace_pages.specs.FlatMemory.{flat_code};
    ghost use Rattle.stop_table.specs.Tracer.{IsTracer, TracerHandle};

    ghost Value = { TracerHandle };

    ghost coded = { Prim.hlevel (codes, flat_code) };

    ghost view = { λ t. record { table_id = t.seat.table_id; view = t.seat.me.0 } };

    ghost invariant = { λ t. (t.seat.table_id ≡ (arc_value t.cells).table.shared.table_id)
        × IsTracer (arc_value t.cells).table.shared.key t.seat.me t.number t.held };
}

impl<A: Allocator> Tracer<A> {
    /// The handle of a tracer that has claimed nothing.
    pub(crate) fn new(
        cells: Arc<Cells<A>, A>,
        seat: Seat<A>,
        number: u8,
        held: Held<A>,
    ) -> Tracer<A>
        requires table { seat.table_id ≡ (arc_value cells).table.shared.table_id }
        requires roster { IsRoster (arc_value cells).table.shared.key }
        requires number { number < TRACERS }
        requires seat { seat.me ≡ (new_view (arc_value cells).table.shared.key [] number (number ∷ []), []) }
        requires held { held ≡ [] }
        ensures { (result.table_id ≡ seat.table_id) × (result.view ≡ seat.me.0) }
    {
        Tracer {
            cells,
            seat,
            number,
            held,
        }
    }

    /// The tracer's number, 0 to 15.
    pub fn number(&self) -> u32
        ensures number { result ≡ self.now.view.number }
        ensures handle { IsTracerHandle self.now }
    {
        u32::from(self.number)
    }

    /// How many rows it has claimed and not resumed.
    pub fn held(&self) -> u32
        ensures { result ≡ length (held_rows self.now.view) }
    {
        self.held.len() as u32
    }

    /// The state of a row at a point of this call. It looks at the parent's word first, then at the row's, once each at
    /// most.
    pub fn look(&mut self, row: u32) -> Shown
        requires { row < length self.old.view.roster }
        ensures handle { KeepsHandle self.old self.new }
        ensures shown { LooksAt self.old.view self.new.view row result }
        ensures once { LooksOnce (IsRowOrParent self.old.view.roster row) self.old.view self.new.view }
    {
        let row = row as usize;
        if !self.cells.sees_born(&mut self.seat, row) {
            return Shown::Unborn;
        }
        show(self.cells.see(&mut self.seat, row))
    }

    /// Claims a row's stop, or its death (waitid(2), `WSTOPPED`, `WEXITED`). A claim that another tracer wins answers
    /// the state that the other left: `Claimed` with the number of the stop, or `Reaped`. It neither looks nor tries
    /// again.
    #[inline(always)]
    pub fn claim(&mut self, row: u32) -> Taken<A>
        requires { row < length self.old.view.roster }
        ensures handle { KeepsHandle self.old self.new }
        ensures taken { IsTaken true self.old.view self.new.view row result }
        ensures once { TriesOnce self.old.view self.new.view row }
    {
        self.try_row(row, true)
    }

    /// Claims a row's stop, and leaves its death as it is: `Nothing(Dead)` (waitid(2), `WSTOPPED` without `WEXITED`).
    #[inline(always)]
    pub fn claim_stop(&mut self, row: u32) -> Taken<A>
        requires { row < length self.old.view.roster }
        ensures handle { KeepsHandle self.old self.new }
        ensures taken { IsTaken false self.old.view self.new.view row result }
        ensures once { TriesOnce self.old.view self.new.view row }
    {
        self.try_row(row, false)
    }

    /// Looks at a row, and claims its stop, or its death where deaths are asked for.
    #[inline(always)]
    fn try_row(&mut self, row: u32, deaths: bool) -> Taken<A>
        requires { row < length self.old.view.roster }
        ensures handle { KeepsHandle self.old self.new }
        ensures taken { IsTaken deaths self.old.view self.new.view row result }
        ensures once { TriesOnce self.old.view self.new.view row }
    {
        let at = row as usize;
        if !self.cells.sees_born(&mut self.seat, at) {
            return Taken::Nothing(Shown::Unborn);
        }
        let seen = self.cells.see_bits(&mut self.seat, at);
        let word = seen.word;
        let shown = show(word);
        if !is_claimable(shown, deaths) {
            return Taken::Nothing(shown);
        }
        match word.phase {
            Phase::Dead { status } => self.reap_seen(row, seen, status),
            _ => self.claim_seen(row, seen, deaths),
        }
    }

    /// Claims a stop that was seen.
    #[inline(always)]
    fn claim_seen(&mut self, row: u32, seen: SeenWord, deaths: bool) -> Taken<A>
        requires row { row < length self.old.view.roster }
        requires born { is_born self.old.view.roster (history_of self.old.view.seen) row ≡ true }
        requires word { (seen ≡ word_of false (cell_after self.old.view.roster self.old.view.seen row))
            × ((status : _) × (seen.phase ≡ Stopped status)) }
        ensures handle { KeepsHandle self.old self.new }
        ensures taken { IsTakenOrLost deaths self.old.view self.new.view row result }
        ensures step { OnlyExchanges self.old.view self.new.view row }
    {
        let word = seen.word;
        match self
            .cells
            .try_claim(&mut self.seat, row as usize, seen, self.number)
        {
            Ok(stop) => {
                self.held.put_first(row);
                Taken::Stop(Claim {
                    stop,
                    row,
                    word: claimed(word, self.number),
                    tracer: self.number,
                })
            }
            Err(_) => Taken::Nothing(Shown::Claimed {
                number: word.number,
            }),
        }
    }

    /// Claims a death that was seen.
    fn reap_seen(&mut self, row: u32, seen: SeenWord, status: u32) -> Taken<A>
        requires row { row < length self.old.view.roster }
        requires born { is_born self.old.view.roster (history_of self.old.view.seen) row ≡ true }
        requires word { (seen ≡ word_of false (cell_after self.old.view.roster self.old.view.seen row))
            × (seen.phase ≡ Dead status) }
        ensures handle { KeepsHandle self.old self.new }
        ensures taken { IsTakenOrLost true self.old.view self.new.view row result }
        ensures step { OnlyExchanges self.old.view self.new.view row }
    {
        let word = seen.word;
        if let Err(_) = self
            .cells
            .try_reap(&mut self.seat, row as usize, seen, self.number)
        {
            return Taken::Nothing(Shown::Reaped);
        }
        let Some(death) = Death::from_status(status) else {
            unreachable!()
        };
        Taken::Ended {
            death,
            number: word.number,
        }
    }

    /// Lets the row of a claim run on, by one exchange, with a signal of at most 64 or 0 for none (ptrace(2),
    /// `PTRACE_SYSCALL`, `PTRACE_CONT`). Its tracee takes up the claim's record, as it is now. The claim is one of this
    /// tracer's.
    #[inline(always)]
    pub fn resume(&mut self, claim: Claim<A>, how: Resume)
        requires claim { IsHolding self.old.view claim.row claim.word claim.stop }
        requires how { IsResume how }
        ensures handle { KeepsHandle self.old self.new }
        ensures made { (before : _) × EndsWith self.old.view self.new.view before
            (resume_of claim.row claim.word.number how self.old.view.number claim.stop) }
        ensures once { OnlyExchanges self.old.view self.new.view claim.row }
    {
        let Claim {
            stop,
            row,
            word,
            tracer: _,
        } = claim;
        self.held.bring(&mut self.seat, row);
        self.cells
            .let_run(&mut self.seat, row as usize, word, stop, how);
        self.held.take_first();
    }

    /// Takes in another tracer's handle, which has claimed nothing. From then on it acts for both, and knows what
    /// either had seen.
    pub fn meet(mut self, other: Tracer<A>) -> Tracer<A>
        requires { (other.table_id ≡ self.table_id) × (held_rows other.view ≡ []) }
        ensures handle { KeepsHandle self result }
        ensures met { Meets self.view other.view result.view }
    {
        self.cells.join(&mut self.seat, other.into_seat());
        self
    }

    /// Takes in a tracee's handle, which does not have its row taken up. From then on it acts for that tracee too.
    pub fn meet_tracee(mut self, other: Tracee<A>) -> Tracer<A>
        requires { (other.table_id ≡ self.table_id) × (other.view.taken ≡ false) }
        ensures handle { KeepsHandle self result }
        ensures met { Meets self.view other.view result.view }
    {
        self.cells.join(&mut self.seat, other.into_seat());
        self
    }

    /// Its seat, which has no slot out.
    fn into_seat(self) -> Seat<A>
        requires { held_rows self.view ≡ [] }
        ensures { (result.table_id ≡ self.table_id) × (result.me ≡ (self.view, [])) × (self.view.taken ≡ false) }
    {
        let Tracer { seat, .. } = self;
        seat
    }
}
