//! The rows that a tracer has claimed, in the order in which their slots are out with its seat: the table moves the
//! record of the slot taken last, so the slot of a claim that is to be resumed is brought to the front first.

ghost use Rattle.std.specs.Prelude.{◌≡◌, ◌∷◌, ◌++◌, ◌<◌, ◌≤◌, [], ℕ, List, length, get_or, drop, take, true};
ghost use Rattle.std.specs.Vec.{vec_capacity};
ghost use Rattle.stop_history.specs.declared.limits.TheConstants.{MOST_ROWS};
ghost use Rattle.stop_table.specs.Tracer.{AreApart, emptied};
ghost use Rattle.stop_table.specs.View.{is_among};

use crate::cells::Seat;
use std::alloc::Allocator;
use std::marker::Model;

/// The rows that a tracer has claimed and not resumed, with room for all rows. Contracts see the one claimed last first.
#[derive(Drop)]
pub(crate) struct Held<A: Allocator> {
    /// The one claimed last stands last.
    rows: Vec<u32, A>,
}

impl<A: Allocator> Model for Held<A> {
    ghost use Rattle.std.specs.Prelude.{◌≤◌, ℕ, List, reverse};
    ghost use Rattle.std.specs.Vec.{vec_capacity};
    ghost use Rattle.stop_history.specs.declared.limits.TheConstants.{MOST_ROWS};

    ghost Value = { List ℕ };

    ghost view = { λ h. reverse h.rows.items };

    ghost invariant = { λ h. MOST_ROWS ≤ vec_capacity h.rows };
}

impl<A: Allocator> Held<A> {
    /// No rows, in this room.
    pub(crate) fn new(rows: Vec<u32, A>) -> Held<A>
        requires { (rows.items ≡ []) × (MOST_ROWS ≤ vec_capacity rows) }
        ensures { result ≡ [] }
    {
        Held { rows }
    }

    pub(crate) fn len(&self) -> usize
        ensures { result ≡ length self.now }
    {
        self.rows.len()
    }

    /// Puts a row in front of the others.
    #[inline(always)]
    pub(crate) fn put_first(&mut self, row: u32)
        requires { length self.old < MOST_ROWS }
        ensures { self.new ≡ row ∷ self.old }
    {
        self.rows.push_reserved(row);
    }

    /// Takes the first row out, if there is one.
    #[inline(always)]
    pub(crate) fn take_first(&mut self)
        ensures { self.new ≡ drop 1 self.old }
    {
        let _ = self.rows.pop();
    }

    /// Brings the slot of a row to the front of those that are out with a seat, and the row to the front of its rows.
    #[inline(always)]
    pub(crate) fn bring(&mut self, seat: &mut Seat<A>, row: u32)
        requires slots { seat.old.me.1 ≡ emptied self.old }
        requires rows { AreApart self.old × (is_among row self.old ≡ true) }
        ensures seat { (seat.new.table_id ≡ seat.old.table_id) × (seat.new.id ≡ seat.old.id)
            × (seat.new.me.0 ≡ seat.old.me.0) }
        ensures slots { seat.new.me.1 ≡ emptied self.new }
        ensures front { (others : List ℕ) × (self.new ≡ row ∷ others) }
        ensures rows { AreApart self.new × ((other : ℕ) → is_among other self.new ≡ is_among other self.old) }
    {
        if let Some(last) = self.rows.last()
            && *last == row
        {
            return;
        }
        let before = self.before(row);
        self.turn(seat, before);
    }

    /// How many rows are before a row.
    // This and the turns are functions of their own, so that a tracer with one claim has nothing of them in its `resume`.
    #[inline(never)]
    fn before(&self, row: u32) -> usize
        requires { is_among row self.now ≡ true }
        ensures { (result < length self.now) × (get_or self.now result 0 ≡ row) }
    {
        let Some(place) = self.rows.iter().position(|held| *held == row) else {
            unreachable!()
        };
        self.rows.len() - 1 - place
    }

    /// Turns the slots and the rows this many times: each time the first becomes the last.
    #[inline(never)]
    fn turn(&mut self, seat: &mut Seat<A>, turns: usize)
        requires slots { seat.old.me.1 ≡ emptied self.old }
        requires turns { turns < length self.old }
        ensures seat { (seat.new.table_id ≡ seat.old.table_id) × (seat.new.id ≡ seat.old.id)
            × (seat.new.me.0 ≡ seat.old.me.0) }
        ensures slots { seat.new.me.1 ≡ emptied self.new }
        ensures rows { self.new ≡ drop turns self.old ++ take turns self.old }
    {
        for _ in 0..turns {
            seat.turn();
        }
        self.rows.rotate_right(turns);
    }
}
