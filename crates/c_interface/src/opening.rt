//! Opening the cells that threads share: a roster from C, and the ends of its rows and tracers.

ghost use Rattle.std.specs.Prelude.{◌≡◌, map};
ghost use Rattle.c_interface.specs.Opening.{IsNextTracee, IsNextTracer, IsOpening, IsRosterOf, ids_of_row, row_of_ids};

use crate::error::Error;
use crate::hand::Hand;
use crate::opened::Opened;
use crate::tracee_end::TraceeEnd;
use crate::tracer_end::TracerEnd;
use std::alloc::Global;
use stop_board::{MOST_ROWS, Roster, RosterError, Row, TRACERS};
use stop_table::{Ends, open};
use trace_calls::Calls;

/// `struct pukzarn_row`: the ids of a tracee, and its parent's thread id, or 0 for a root.
#[repr(C)]
#[derive(Clone, Copy, Debug, PartialEq, Eq)]
pub struct CRow {
    pub tid: u32,
    pub tgid: u32,
    pub pgid: u32,
    pub parent: u32,
}

impl CRow {
    /// The row of a roster.
    fn row(self) -> Row
        ensures { result ≡ row_of_ids self }
    {
        Row {
            tid: self.tid,
            tgid: self.tgid,
            pgid: self.pgid,
            parent: self.parent,
        }
    }

    /// The ids of a row.
    pub fn of(row: Row) -> CRow
        ensures { result ≡ ids_of_row row }
    {
        CRow {
            tid: row.tid,
            tgid: row.tgid,
            pgid: row.pgid,
            parent: row.parent,
        }
    }
}

/// Why rows are no roster, or cells could not be opened.
#[derive(Clone, Copy, Debug, PartialEq, Eq)]
pub enum OpenFault {
    /// There are more than 256 rows: EINVAL.
    TooMany,
    /// This row, the first that has a fault: EINVAL.
    Row(u32),
    /// A number of tracers that is not 1 to 16: EINVAL.
    Tracers,
    /// A growth was refused: ENOMEM.
    NoMemory,
}

/// The roster of at most 256 rows, or the first row that has a fault: an id that is not 1 to 4,194,303, a thread id
/// that an earlier row has, no earlier row that is the parent, or groups that are not its parent's or its own.
pub fn roster_of(alloc: Global, rows: &[CRow]) -> Result<Roster<Global>, OpenFault>
    ensures { IsRosterOf (map row_of_ids rows.now) result }
{
    if rows.len() > MOST_ROWS {
        return Err(OpenFault::TooMany);
    }
    let mut roster = Roster::empty(alloc);
    for (at, row) in rows.iter().enumerate() {
        let _ = roster.rows();
        match roster.push(row.row()) {
            Ok(()) => {}
            Err(RosterError::NoMemory) => return Err(OpenFault::NoMemory),
            Err(_) => return Err(OpenFault::Row(at as u32)),
        }
    }
    Ok(roster)
}

/// Opens the cells of these rows for 1 to 16 tracers, before any event.
pub fn open_cells(alloc: Global, rows: &[CRow], tracers: u32) -> Result<Opened, OpenFault>
    ensures { IsOpening (map row_of_ids rows.now) tracers result }
{
    let roster = roster_of(alloc, rows)?;
    let _ = roster.rows();
    if tracers == 0 || tracers > TRACERS {
        return Err(OpenFault::Tracers);
    }
    let Ok(Ends { tracees, tracers }) = open(alloc, &roster, tracers) else {
        return Err(OpenFault::NoMemory);
    };
    Ok(Opened {
        roster,
        tracees,
        tracers,
    })
}

impl Opened {
    /// The end of the last row that is left, None where none is. ENOMEM: a growth was refused, and it is still left.
    pub fn next_tracee(&mut self, alloc: Global) -> Result<Option<TraceeEnd>, Error>
        ensures { IsNextTracee self.old self.new result }
    {
        let Ok(roster) = Roster::copy(alloc, &self.roster) else {
            return Err(Error::ENOMEM);
        };
        let Some(tracee) = self.tracees.pop() else {
            return Ok(None);
        };
        let row = self.tracees.len() as u32;
        Ok(Some(TraceeEnd {
            tracee,
            roster,
            row,
            births: 0,
            hand: Hand::AtRest,
        }))
    }

    /// The end of the last tracer that is left, None where none is. ENOMEM: a growth was refused, and it is still left.
    pub fn next_tracer(&mut self, alloc: Global) -> Result<Option<TracerEnd>, Error>
        ensures { IsNextTracer self.old self.new result }
    {
        let Some(tracer) = self.tracers.pop() else {
            return Ok(None);
        };
        match Calls::new(alloc, tracer, &self.roster) {
            Ok(calls) => Ok(Some(TracerEnd { calls })),
            Err(tracer) => {
                // The place that it left is still there.
                self.tracers.push_reserved(tracer);
                Err(Error::ENOMEM)
            }
        }
    }
}
