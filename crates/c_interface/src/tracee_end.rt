//! The end of a tracee: its handle, what its row has created, and the record of its last stop while the row is taken
//! up.

ghost use Rattle.std.specs.Prelude.{◌≡◌};
ghost use Rattle.stop_history.specs.Roster.{row_at};
ghost use Rattle.stop_table.specs.Entry.{cell_after};
ghost use Rattle.c_interface.specs.Hand.{is_taken, number_in_hand, tid_in_hand};

use crate::hand::Hand;
use std::alloc::Global;
use stop_board::Roster;
use stop_table::Tracee;

/// The end of a tracee.
#[derive(Drop)]
pub struct TraceeEnd {
    pub(crate) tracee: Tracee<Global>,
    pub(crate) roster: Roster<Global>,
    pub(crate) row: u32,
    /// How many children the row has created.
    pub(crate) births: usize,
    pub(crate) hand: Hand,
    pub ghost same_roster: { tracee.view.roster ≡ roster },
    pub ghost same_row: { tracee.row ≡ row },
    pub ghost counted: { (cell_after tracee.view.roster tracee.view.seen tracee.row).births ≡ births },
    pub ghost taken: { tracee.view.taken ≡ is_taken hand },
    pub ghost tid: { tid_in_hand hand (row_at tracee.view.roster tracee.row).tid
        ≡ (row_at tracee.view.roster tracee.row).tid },
    pub ghost number: { number_in_hand hand (cell_after tracee.view.roster tracee.view.seen tracee.row).number
        ≡ (cell_after tracee.view.roster tracee.view.seen tracee.row).number },
}
