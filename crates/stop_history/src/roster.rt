//! The roster: the rows of all tracees, fixed before any of them runs.
//!
//! A row has the ids of a Linux thread and its parent's. Each parent comes before its children, so that whoever goes
//! through the rows in order has seen the parent of each. A roster is made of rows at once (`new`) or row by row
//! (`push`), and the first fault is reported.

ghost use Rattle.std.specs.Prelude.{◌≡◌, ◌<◌, ◌++◌, ◌∷◌, [], ℕ, length, IfOk, IsOkUnless, OnErr, OnOk, slice_get};

mod families;
mod faults;

use crate::limits::MOST_ROWS;
pub use families::{is_leader, place_of};
use families::{Family, NO_FAMILIES, families_of, family_of};
pub use faults::fault_after;
use faults::{fault_of, push_fault};
use std::alloc::{AllocError, AllocFailed, Allocator, Global};
use std::marker::Model;
use trace_options::NoMemory;

/// A tracee: its thread id, thread-group id and process-group id, each 1 to 4,194,303, and its parent's thread
/// id, or 0 for a root.
#[derive(Clone, Copy, Debug, PartialEq, Eq, Hash)]
pub struct Row {
    pub tid: u32,
    pub tgid: u32,
    pub pgid: u32,
    pub parent: u32,
}

/// Why rows are no roster. A number is the place of the first row that has a fault.
#[derive(Clone, Copy, Debug, PartialEq, Eq, Hash)]
pub enum RosterError {
    /// There are more than `MOST_ROWS` rows.
    TooMany,
    /// An id of the row is out of range.
    Number(u32),
    /// An earlier row has its thread id.
    Twice(u32),
    /// No earlier row is its parent.
    ParentLater(u32),
    /// A root leads no thread group of its own, or a child neither leads one nor is in its parent's, or it is
    /// not in its parent's process group.
    GroupMismatch(u32),
    /// A growth was refused.
    NoMemory,
}

impl From<AllocError> for RosterError {
    ghost use Rattle.stop_history.specs.declared.roster.RosterError.TheVariants as fault;

    ghost from_gives = { λ _ e. e ≡ fault.NoMemory };

    fn from(_error: AllocError) -> RosterError {
        RosterError::NoMemory
    }
}

impl<T: Drop> From<AllocFailed<T>> for RosterError {
    ghost use Rattle.stop_history.specs.declared.roster.RosterError.TheVariants as fault;

    ghost from_gives = { λ _ e. e ≡ fault.NoMemory };

    fn from(_error: AllocFailed<T>) -> RosterError {
        RosterError::NoMemory
    }
}

/// So that one call may make a roster and a board of it by `?`.
impl From<NoMemory> for RosterError {
    ghost use Rattle.stop_history.specs.declared.roster.RosterError.TheVariants as fault;

    ghost from_gives = { λ _ e. e ≡ fault.NoMemory };

    fn from(_error: NoMemory) -> RosterError {
        RosterError::NoMemory
    }
}

/// The rows of all tracees, each parent before its children. A row is named by its place, from 0.
#[derive(Drop)]
pub struct Roster<A: Allocator = Global> {
    rows: Vec<Row, A>,
    /// The parent and the rank of each row, found once, when the row is added. Entries past the last row are unused.
    families: [Family; MOST_ROWS],
}

impl<A: Allocator> Model for Roster<A> {
    ghost use Rattle.std.specs.Prelude.{List};
    ghost use Rattle.stop_history.specs.declared.roster.Row.{Row};

    ghost Value = { List Row };

    ghost use Rattle.stop_history.specs.Roster.{HasFamilies, IsRoster};

    ghost view = { λ r. r.rows.items };

    ghost invariant = { λ r. IsRoster r.rows.items × HasFamilies r.rows.items r.families };
}

impl<A: Allocator + Copy> Roster<A> {
    ghost use Rattle.stop_history.specs.Roster.{roster_fault};

    /// The roster of these rows, or the first fault: too many rows, or of the first row that has one, the
    /// first in the order of `RosterError`.
    pub fn new(alloc: A, rows: &[Row]) -> Result<Roster<A>, RosterError>
        ensures ok { IfOk result (λ roster. roster ≡ rows.now) }
        ensures fault { (fault : RosterError) → roster_fault rows.now ≡ Some fault → result ≡ Err fault }
        ensures accepted { roster_fault rows.now ≡ None → IsOkUnless result RosterError.NoMemory }
    {
        if let Some(fault) = fault_of(rows) {
            return Err(fault);
        }
        let families = families_of(rows);
        let rows = Vec::from_slice(alloc, rows)?;
        Ok(Roster { rows, families })
    }

    /// The same roster, in memory of this allocator.
    pub fn copy<B: Allocator>(alloc: A, roster: &Roster<B>) -> Result<Roster<A>, NoMemory>
        ensures { IfOk result (λ roster'. roster' ≡ roster.now) }
    {
        let rows = Vec::from_slice(alloc, roster.rows())?;
        let families = roster.families;
        Ok(Roster { rows, families })
    }
}

impl<A: Allocator> Roster<A> {
    ghost use Rattle.std.specs.Option.{ForSome};
    ghost use Rattle.stop_history.specs.History.{is_next_child};
    ghost use Rattle.stop_history.specs.Roster.{IsRoster, parent_of, push_fault, rank_of, row_of};
    ghost use Rattle.stop_history.specs.declared.roster.RosterError.{RosterError};

    /// A roster of no rows. It takes no memory.
    pub fn empty(alloc: A) -> Roster<A>
        ensures { result ≡ [] }
    {
        Roster {
            rows: Vec::new(alloc),
            families: NO_FAMILIES,
        }
    }

    /// Adds a row after the others, or answers its first fault and leaves the roster as it was. The faults of the row
    /// itself come before `TooMany`; in `new`, which is handed all rows at once, `TooMany` comes first.
    pub fn push(&mut self, row: Row) -> Result<(), RosterError>
        ensures ok { OnOk result (self.new ≡ self.old ++ row ∷ []) }
        ensures fault { (fault : RosterError) → push_fault self.old row ≡ Some fault → result ≡ Err fault }
        ensures accepted { push_fault self.old row ≡ None → IsOkUnless result RosterError.NoMemory }
        ensures err { OnErr result (self.new ≡ self.old) }
    {
        if let Some(fault) = push_fault(self.rows.as_slice(), row) {
            return Err(fault);
        }
        self.rows.push(row)?;
        let at = self.rows.len() - 1;
        self.families[at] = family_of(self.rows.as_slice(), at);
        Ok(())
    }

    /// How many rows there are, at most `MOST_ROWS`.
    pub fn len(&self) -> u32
        ensures { result ≡ length self.now }
    {
        self.rows.len() as u32
    }

    /// The row at a place.
    pub fn row(&self, i: u32) -> Row
        requires { i < length self.now }
        ensures { slice_get self.now i ≡ Some result }
    {
        self.rows[i as usize]
    }

    /// The place of the row of a thread id.
    pub fn row_of(&self, tid: u32) -> Option<u32>
        ensures { result ≡ row_of self.now tid }
    {
        Some(place_of(self.rows(), tid)? as u32)
    }

    /// The place of a row's parent; a root has none.
    #[inline(always)]
    pub fn parent_place(&self, row: usize) -> Option<usize>
        requires { row < length self.now }
        ensures { result ≡ parent_of self.now row }
    {
        let families = &self.families;
        Some(usize::from(families[row].parent?))
    }

    /// A row's place among the rows of its parent, from 0.
    #[inline(always)]
    pub fn rank(&self, row: usize) -> usize
        requires { row < length self.now }
        ensures { result ≡ rank_of self.now row }
    {
        let families = &self.families;
        usize::from(families[row].rank)
    }

    /// Whether the row at a place, if there is one, is the next child of a parent that has this many.
    pub fn is_next_child(&self, parent: usize, births: usize, child: Option<usize>) -> bool
        requires parent { parent < length self.now }
        requires child { ForSome child (λ i. i < length self.now) }
        ensures { result ≡ is_next_child self.now parent births child }
    {
        match child {
            None => false,
            Some(child) => {
                self.rows[child].parent == self.rows[parent].tid && self.rank(child) == births
            }
        }
    }

    /// All rows.
    pub fn rows(&self) -> &[Row]
        ensures rows { result.now ≡ self.now }
        ensures roster { IsRoster self.now }
    {
        self.rows.as_slice()
    }
}
