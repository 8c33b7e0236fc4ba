//! A leader's look at its thread group: it exits last (ptrace(2), "Death under ptrace").

ghost use Rattle.std.specs.Prelude.{◌≡◌, ◌∷◌, ◌<◌, [], true, IfNone, IfSome, length, Some};
ghost use Rattle.stop_history.specs.declared.actor.Actor.TheVariants as actor;
ghost use Rattle.stop_history.specs.Actor.{mover_of};
ghost use Rattle.stop_history.specs.Roster.{IsRoster, is_leader, row_at};
ghost use Rattle.stop_history.specs.State.{is_alive};
ghost use Rattle.stop_history.specs.Word.{shown};
ghost use Rattle.stop_table.specs.Entry.{AreLegal, cell_after};
ghost use Rattle.stop_table.specs.Group.{AreCounted, AreSettled, IsBeside, IsGroupSettled, IsResting, SawAlive};
ghost use Rattle.stop_table.specs.Group.{SawHeldBack};
ghost use Rattle.stop_table.specs.Handle.{Looked, LooksOnce};
ghost use Rattle.stop_table.specs.Seat.{IsSameSeat, IsSeatOf};

use crate::cells::{Cells, Seat};
use std::alloc::Allocator;
use stop_history::{MOST_ROWS, Phase, Word, is_leader};

/// Whether the word of a born row shows that it may still act.
pub(crate) fn is_alive(word: Word) -> bool
    ensures { result ≡ is_alive (shown true word.number word.phase) }
{
    match word.phase {
        Phase::Fresh
        | Phase::Resumed(_)
        | Phase::Active
        | Phase::Stopped { .. }
        | Phase::Claimed { .. } => true,
        Phase::Dead { .. } | Phase::Reaped => false,
    }
}

impl<A: Allocator> Cells<A> {
    /// A look at another row of a leader's group, if what was seen of its parent says that it is born. None if it is
    /// alive; if it rests, how many children it has.
    fn sees_at_rest(
        &self,
        seat: &mut Seat<A>,
        row: usize,
        other: usize,
        births: &[u8; MOST_ROWS],
    ) -> Option<u8>
        requires seat { IsSeatOf self.now seat.old × (row < length seat.old.me.0.roster)
            × (other < length seat.old.me.0.roster)
            × AreLegal seat.old.me.0.roster seat.old.me.0.seen × IsRoster seat.old.me.0.roster }
        requires beside { IsBeside seat.old.me.0.roster row other }
        requires births { AreCounted seat.old.me.0.roster row other births.now seat.old.me.0.seen }
        ensures seat { IsSameSeat seat.old seat.new × (seat.new.me.1 ≡ seat.old.me.1)
            × Looked seat.old.me.0 seat.new.me.0 }
        ensures none { IfNone result (SawAlive seat.old.me.0 seat.new.me.0 other) }
        ensures some { IfSome result (λ count. IsResting seat.old.me.0.roster other seat.new.me.0.seen
            × (count ≡ (cell_after seat.old.me.0.roster seat.new.me.0.seen other).births)) }
        ensures once { LooksOnce (λ at. at ≡ other) seat.old.me.0 seat.new.me.0 }
    {
        let Some(parent) = self.roster.parent_place(other) else {
            unreachable!()
        };
        if self.roster.rank(other) >= usize::from(births[parent]) {
            return Some(0);
        }
        let word = self.see(seat, other);
        if is_alive(word) {
            return None;
        }
        Some(word.births)
    }

    /// The first other row of a leader's group that is alive, by one look at each, in the order of the rows. The leader
    /// itself says how many children it has.
    // A row's parent is in the group too, and comes before it: so what was seen there tells whether the row is born.
    fn finds_alive(&self, seat: &mut Seat<A>, row: usize, own: u8) -> Option<usize>
        requires seat { IsSeatOf self.now seat.old × (row < length seat.old.me.0.roster)
            × AreLegal seat.old.me.0.roster seat.old.me.0.seen × IsRoster seat.old.me.0.roster }
        requires leads { is_leader (row_at seat.old.me.0.roster row) ≡ true }
        requires held { (seat.old.me.0.tracees ≡ row ∷ [])
            × (mover_of row (cell_after seat.old.me.0.roster seat.old.me.0.seen row).phase ≡ Some (actor.Tracee row)) }
        requires own { own ≡ (cell_after seat.old.me.0.roster seat.old.me.0.seen row).births }
        ensures seat { IsSameSeat seat.old seat.new × (seat.new.me.1 ≡ seat.old.me.1)
            × Looked seat.old.me.0 seat.new.me.0 }
        ensures some { IfSome result (λ other. (other < length seat.old.me.0.roster)
            × SawHeldBack seat.old.me.0 seat.new.me.0 row other) }
        ensures none { IfNone result
            (AreSettled seat.old.me.0.roster row (length seat.old.me.0.roster) seat.new.me.0.seen) }
        ensures once { LooksOnce (IsBeside seat.old.me.0.roster row) seat.old.me.0 seat.new.me.0 }
    {
        let rows = self.roster.rows();
        let mut births = [0; MOST_ROWS];
        for other in 0..rows.len() {
            if rows[other].tgid != rows[row].tgid {
                continue;
            }
            if other == row {
                births[other] = own;
                continue;
            }
            let Some(count) = self.sees_at_rest(seat, row, other, &births) else {
                return Some(other);
            };
            births[other] = count;
        }
        None
    }

    /// The row that holds the exit of a row back, if one does: only a leader waits for its group.
    pub(crate) fn held_back_by(&self, seat: &mut Seat<A>, row: usize, own: u8) -> Option<usize>
        requires seat { IsSeatOf self.now seat.old × (row < length seat.old.me.0.roster)
            × AreLegal seat.old.me.0.roster seat.old.me.0.seen × IsRoster seat.old.me.0.roster }
        requires held { (seat.old.me.0.tracees ≡ row ∷ [])
            × (mover_of row (cell_after seat.old.me.0.roster seat.old.me.0.seen row).phase ≡ Some (actor.Tracee row)) }
        requires own { own ≡ (cell_after seat.old.me.0.roster seat.old.me.0.seen row).births }
        ensures seat { IsSameSeat seat.old seat.new × (seat.new.me.1 ≡ seat.old.me.1)
            × Looked seat.old.me.0 seat.new.me.0 }
        ensures some { IfSome result (λ other. (other < length seat.old.me.0.roster)
            × SawHeldBack seat.old.me.0 seat.new.me.0 row other) }
        ensures none { IfNone result (IsGroupSettled seat.old.me.0.roster row seat.new.me.0.seen) }
        ensures once { LooksOnce (IsBeside seat.old.me.0.roster row) seat.old.me.0 seat.new.me.0 }
    {
        if is_leader(self.roster.rows()[row]) {
            self.finds_alive(seat, row, own)
        } else {
            None
        }
    }
}
