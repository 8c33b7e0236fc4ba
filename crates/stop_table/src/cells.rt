//! The table of the cells.

ghost use Rattle.std.specs.Prelude.{◌≡◌, ◌+◌, ◌<◌, length};
ghost use Rattle.stop_table.specs.Place.{place};

use crate::boxed::BoxedRecord;
use crate::rule::{Kept, View};
use atomic_table::Table;
use std::alloc::Allocator;
use stop_history::Roster;

/// What a thread steps with.
pub(crate) type Seat<A> = atomic_table::Seat<Option<BoxedRecord<A>>, View>;

/// How many words, and slots, a row has, of which it uses the first. A word is 8 bytes: so no two rows share one of the
/// lines of 64 bytes that processors hand to and fro, nor a pair of lines that they fetch together.
pub(crate) const PLACES: usize = 16;

/// The cells: the word of each row and a further one, the slot of each row, and the roster.
#[derive(Drop)]
pub(crate) struct Cells<A: Allocator> {
    pub(crate) table: Table<Option<BoxedRecord<A>>, View, Roster<A>, Kept, A>,
    pub(crate) roster: Roster<A>,
    pub ghost same: { table.shared.key ≡ roster },
    pub ghost sized: { (table.shared.table_id.words ≡ place (length table.shared.key) + 1)
        × (table.shared.table_id.slots ≡ place (length table.shared.key)) },
}

impl<A: Allocator> Cells<A> {
    /// Where the word and the slot of a row stand in the table.
    #[inline(always)]
    pub(crate) fn place(&self, row: usize) -> usize
        requires { row < length self.now.table.shared.key }
        ensures { result ≡ place row }
    {
        // The roster says that there are few rows, so that the product is no large number.
        let _few = self.roster.rows();
        row * PLACES
    }
}
