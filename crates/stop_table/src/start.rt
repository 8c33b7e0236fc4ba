//! Whether a tracee may begin to run.

ghost use Rattle.std.specs.Prelude.{◌≡◌, ◌<◌, length};
ghost use Rattle.stop_history.specs.Roster.{IsRoster};
ghost use Rattle.stop_table.specs.Entry.{AreLegal};
ghost use Rattle.stop_table.specs.Handle.{Looked, LooksOnce};
ghost use Rattle.stop_table.specs.Seat.{IsSameSeat, IsSeatOf};
ghost use Rattle.stop_table.specs.Start.{IsAncestor, IsFinal, StartsAt};

use crate::cells::{Cells, Seat};
use crate::group::is_alive;
use std::alloc::Allocator;

/// Whether a row's tracee may begin to run.
#[derive(Clone, Copy, Debug, PartialEq, Eq, Hash)]
pub enum Start {
    /// The row is born.
    Born,
    /// It is not born yet, and may still be.
    NotYet,
    /// It is never born: the last born row on its path has ended without creating the next one.
    Never,
}

impl<A: Allocator> Cells<A> {
    /// Whether a row is born, by looks at its ancestors from the root down. Each call goes up one parent first.
    pub(crate) fn start_of(&self, seat: &mut Seat<A>, row: usize) -> Start
        requires { IsSeatOf self.now seat.old × (row < length seat.old.me.0.roster)
            × AreLegal seat.old.me.0.roster seat.old.me.0.seen × IsRoster seat.old.me.0.roster }
        ensures seat { IsSameSeat seat.old seat.new × (seat.new.me.1 ≡ seat.old.me.1)
            × Looked seat.old.me.0 seat.new.me.0 }
        ensures answer { StartsAt seat.old.me.0 seat.new.me.0 row result }
        ensures for_good { IsFinal seat.old.me.0.roster seat.new.me.0.seen row result }
        ensures once { LooksOnce (IsAncestor seat.old.me.0.roster row) seat.old.me.0 seat.new.me.0 }
    {
        let Some(parent) = self.roster.parent_place(row) else {
            return Start::Born;
        };
        match self.start_of(seat, parent) {
            Start::NotYet => return Start::NotYet,
            Start::Never => return Start::Never,
            Start::Born => {}
        }
        let word = self.see(seat, parent);
        if self.roster.rank(row) < usize::from(word.births) {
            Start::Born
        } else if is_alive(word) {
            Start::NotYet
        } else {
            Start::Never
        }
    }
}
