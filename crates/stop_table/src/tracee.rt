//! The handle of a tracee.

ghost use Rattle.std.specs.Prelude.{◌≡◌, ◌≢◌, ◌∷◌, ◌+◌, ◌<◌, ◌≤◌, [], true, false, IfErr, IfNone, IfSome, IsNone};
ghost use Rattle.std.specs.Prelude.{MatchOption, MatchResult, OnOk, length};
ghost use Rattle.std.specs.Arc.{arc_value};
ghost use Rattle.trace_record.specs.Death.{IsDeath};
ghost use Rattle.trace_record.specs.Stop.{IsStop};
ghost use Rattle.stop_history.specs.declared.limits.TheConstants.{LAST_NUMBER};
ghost use Rattle.stop_history.specs.Event as event;
ghost use Rattle.stop_history.specs.History.{creates_next};
ghost use Rattle.stop_history.specs.Roster.{IsRoster, row_at};
ghost use Rattle.stop_table.specs.declared.shown.Shown.TheVariants as shows;
ghost use Rattle.stop_table.specs.Entry.{bare, cell_after, publish_of};
ghost use Rattle.stop_table.specs.Group.{IsBeside, SawHeldBack};
ghost use Rattle.stop_table.specs.Handle.{EndsWith, IsRowOrParent, Looked, LooksAt, LooksOnce, OnlyExchanges};
ghost use Rattle.stop_table.specs.Handle.{StepsOnce, TakesUp, TriesOnce};
ghost use Rattle.stop_table.specs.Opening.{new_view};
ghost use Rattle.stop_table.specs.Start.{IsAncestor, IsFinal, StartsAt};
ghost use Rattle.stop_table.specs.Tracee.{IsTraceeHandle};

use crate::boxed::BoxHolder;
use crate::cells::{Cells, Seat};
use crate::start::Start;
use std::alloc::{Allocator, Global};
use std::marker::Model;
use std::sync::Arc;
use stop_history::{Phase, Word, published, restart_in, taken_up};
use trace_pages::Memory;
use trace_record::{Death, Resume, StopRecord};

/// What a tracee's thread holds: it takes its row up, publishes the row's stops, and ends the row. No call takes memory
/// or waits. It may be dropped at any time; nobody else can then move the row while it runs.
#[derive(Drop)]
pub struct Tracee<A: Allocator = Global> {
    cells: Arc<Cells<A>, A>,
    seat: Seat<A>,
    row: u32,
    /// While it has its row taken up, the word that the row had before.
    word: Word,
    /// Then also the box that its record lay in.
    holder: BoxHolder<A>,
}

impl<A: Allocator> Model for Tracee<A> {
    ghost use Rattle.std.specs.Prelude.{◌≡◌};
    ghost use Rattle.std.specs.Arc.{arc_value};
    ghost use Rattle.std.specs.Coded.{codes};
    ghost use Rattle.trace_pages.specs.FlatMemory.{flat_code};
    ghost use Rattle.stop_table.specs.Tracee.{IsTracee, TraceeHandle};

    ghost Value = { TraceeHandle };

    ghost coded = { Prim.hlevel (codes, flat_code) };

    ghost view = { λ t. record { table_id = t.seat.table_id; row = t.row; view = t.seat.me.0 } };

    ghost invariant = { λ t. (t.seat.table_id ≡ (arc_value t.cells).table.shared.table_id)
        × IsTracee (arc_value t.cells).table.shared.key t.seat.me t.row t.word t.holder };
}

/// The leader of a thread group cannot end: this other row of its group is alive. The record comes back.
#[derive(Drop)]
pub struct GroupAlive<A: Allocator = Global> {
    pub row: u32,
    pub content: StopRecord<A>,
}

impl<A: Allocator> Tracee<A> {
    /// The handle of a row that has not run yet.
    pub(crate) fn new(
        cells: Arc<Cells<A>, A>,
        seat: Seat<A>,
        row: u32,
        spare: Memory<A>,
    ) -> Tracee<A>
        requires table { seat.table_id ≡ (arc_value cells).table.shared.table_id }
        requires roster { IsRoster (arc_value cells).table.shared.key }
        requires row { row < length (arc_value cells).table.shared.key }
        requires seat { seat.me ≡ (new_view (arc_value cells).table.shared.key (row ∷ []) 0 [], []) }
        ensures { (result.table_id ≡ seat.table_id) × (result.row ≡ row) × (result.view ≡ seat.me.0) }
    {
        let word = Word {
            phase: Phase::Fresh,
            births: 0,
            number: 0,
        };
        Tracee {
            cells,
            seat,
            row,
            word,
            holder: BoxHolder::new(spare),
        }
    }

    /// Whether it has its row taken up. A `publish` ends this, and so does an `exit`, unless it is refused.
    pub fn holds(&self) -> bool
        ensures holds { result ≡ self.now.view.taken }
        ensures handle { IsTraceeHandle self.now }
    {
        self.holder.has_box()
    }

    /// Whether its row is born, not yet, or never, by a look at each of the row's ancestors from the root down, once at
    /// most (ptrace(2), `PTRACE_EVENT_FORK`, `PTRACE_EVENT_CLONE`). Born and never hold for good.
    pub fn start(&mut self) -> Start
        ensures handle { (self.new.table_id ≡ self.old.table_id) × (self.new.row ≡ self.old.row)
            × Looked self.old.view self.new.view }
        ensures answer { StartsAt self.old.view self.new.view self.old.row result }
        ensures for_good { IsFinal self.old.view.roster self.new.view.seen self.old.row result }
        ensures once { LooksOnce (IsAncestor self.old.view.roster self.old.row) self.old.view self.new.view }
    {
        self.cells.start_of(&mut self.seat, self.row as usize)
    }

    /// Takes the row up, once it is born and is to run: how it runs on, and the record of its last stop, which is the
    /// caller's until the next `publish` or `exit`. A row that has not run yet has the restart `Cont` without a signal
    /// and an empty record (ptrace(2), "Restarting"). `None` where the row does not run, and where the handle has it
    /// taken up already, which then changes nothing.
    #[inline(always)]
    pub fn take_up(&mut self) -> Option<(Resume, StopRecord<A>)>
        ensures handle { (self.new.table_id ≡ self.old.table_id) × (self.new.row ≡ self.old.row) }
        ensures held { self.old.view.taken ≡ true → IsNone result × (self.new ≡ self.old) }
        ensures some { IfSome result (λ r. TakesUp self.old.view self.new.view self.old.row r.0 r.1
            × (self.new.view.taken ≡ true)) }
        ensures none { self.old.view.taken ≡ false → IfNone result ((a : _)
            × LooksAt self.old.view self.new.view self.old.row a × (a ≢ shows.Running)) }
        ensures once { MatchOption result
            (LooksOnce (IsRowOrParent self.old.view.roster self.old.row) self.old.view self.new.view)
            (λ _. TriesOnce self.old.view self.new.view self.old.row) }
    {
        if self.holder.has_box() {
            return None;
        }
        let row = self.row as usize;
        let seen = self.cells.see_bits(&mut self.seat, row);
        let word = seen.word;
        let Ok(how) = restart_in(word.phase) else {
            return None;
        };
        if !self.cells.sees_running(&mut self.seat, row, word) {
            return None;
        }
        let boxed = self.cells.take_record(&mut self.seat, row, seen);
        self.word = word;
        let record = self.holder.take(boxed);
        Some((how, record))
    }

    /// Publishes the row's next stop, for a tracer to claim, by one exchange. The record is that of the stop: the row's
    /// thread id, the number after that of its last stop, at most 16,777,215, and where it announces a child, the row's
    /// next one.
    #[inline(always)]
    pub fn publish(&mut self, stop: StopRecord<A>)
        requires holds { self.old.view.taken ≡ true }
        requires stop { (stop.tid ≡ (row_at self.old.view.roster self.old.row).tid)
            × (stop.number ≡ (cell_after self.old.view.roster self.old.view.seen self.old.row).number + 1)
            × (stop.number ≤ LAST_NUMBER) × IsStop stop.stop }
        requires birth { creates_next self.old.view.roster self.old.row
            (cell_after self.old.view.roster self.old.view.seen self.old.row).births stop.stop ≡ true }
        ensures handle { (self.new.table_id ≡ self.old.table_id) × (self.new.row ≡ self.old.row)
            × (self.new.view.taken ≡ false) }
        ensures made { (before : _) × EndsWith self.old.view self.new.view before (publish_of self.old.row stop) }
        ensures once { OnlyExchanges self.old.view self.new.view self.old.row }
    {
        let word = taken_up(self.word);
        let new = published(word, stop.stop);
        let boxed = self.holder.give(stop);
        self.cells
            .put_publish(&mut self.seat, self.row as usize, word, new, boxed);
    }

    /// Ends the row, by one exchange. A leader looks at each other row of its thread group first, once at most, and is
    /// refused while one of them is alive: it gets the first such row and its record back, and still has its row taken
    /// up.
    pub fn exit(&mut self, stop: StopRecord<A>, death: Death) -> Result<(), GroupAlive<A>>
        requires { (self.old.view.taken ≡ true) × IsDeath death }
        ensures handle { (self.new.table_id ≡ self.old.table_id) × (self.new.row ≡ self.old.row) }
        ensures ok { OnOk result ((before : _)
            × EndsWith self.old.view self.new.view before (bare (event.Exit self.old.row death))
            × (self.new.view.taken ≡ false)) }
        ensures err { IfErr result (λ e. (e.content ≡ stop) × Looked self.old.view self.new.view
            × (e.row < length self.old.view.roster)
            × SawHeldBack self.old.view self.new.view self.old.row e.row) }
        ensures once { MatchResult result
            (λ _. StepsOnce (IsBeside self.old.view.roster self.old.row) (λ at. at ≡ self.old.row)
            self.old.view self.new.view)
            (λ _. LooksOnce (IsBeside self.old.view.roster self.old.row) self.old.view self.new.view) }
    {
        let row = self.row as usize;
        let word = taken_up(self.word);
        if let Some(other) = self.cells.held_back_by(&mut self.seat, row, word.births) {
            return Err(GroupAlive {
                row: other as u32,
                content: stop,
            });
        }
        let boxed = self.holder.give(stop);
        self.cells.put_exit(&mut self.seat, row, word, death, boxed);
        Ok(())
    }

    /// Its seat, which has no slot out.
    pub(crate) fn into_seat(self) -> Seat<A>
        requires { self.view.taken ≡ false }
        ensures { (result.table_id ≡ self.table_id) × (result.me ≡ (self.view, [])) }
    {
        let Tracee { seat, .. } = self;
        seat
    }
}
