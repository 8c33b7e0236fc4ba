//! Who acts in a test: the tracees and tracers of new cells.

ghost use Rattle.std.specs.Prelude.{◌≡◌, ◌<◌, IfOk};
ghost use Rattle.std.specs.Coded.{codes};
ghost use Rattle.trace_pages.specs.FlatMemory.{flat_code};
ghost use Rattle.stop_history.specs.declared.limits.TheConstants.{TRACERS};
ghost use Rattle.stop_table.specs.Opening.{AreTracees, AreTracers};

use crate::desk::Desk;
use crate::runner::AtRest;
use std::alloc::{Allocator, Global};
use std::test::Fail;
use stop_history::{Roster, Row};
use stop_table::{Ends, OpenError, Tracer, open};

/// The handles of new cells that are still to be given out, the last first. All are of the table of a tracer that no test
/// uses.
#[derive(Drop)]
pub struct Cast<A: Allocator = Global> {
    pub ends: Ends<A>,
    pub roster: Roster<A>,
    pub unused: Tracer<A>,
    pub ghost tracees: { AreTracees unused.table_id roster ends.tracees.items } by { Prim.hlevel (codes, flat_code) },
    pub ghost tracers: { AreTracers unused.table_id roster ends.tracers.items } by { Prim.hlevel (codes, flat_code) },
}

/// New cells of these rows.
pub fn open_for<A: Allocator + Copy>(alloc: A, rows: &[Row], tracers: u32) -> Result<Cast<A>, Fail>
    requires { tracers < TRACERS }
{
    let roster = Roster::new(alloc, rows)?;
    let cast = open_over(alloc, roster, tracers)?;
    Ok(cast)
}

/// New cells over a roster. The opening's refusal comes back as it is.
pub fn open_over<A: Allocator + Copy>(
    alloc: A,
    roster: Roster<A>,
    tracers: u32,
) -> Result<Cast<A>, OpenError>
    requires { tracers < TRACERS }
{
    let mut ends = open(alloc, &roster, tracers + 1)?;
    let Some(unused) = ends.tracers.pop() else {
        unreachable!()
    };
    Ok(Cast {
        ends,
        roster,
        unused,
    })
}

impl<A: Allocator + Copy> Cast<A> {
    /// The tracee of the last row that is left.
    pub fn tracee(&mut self, alloc: A) -> Result<AtRest<A>, Fail>
        ensures table { IfOk result (λ t. t.tracee.table_id ≡ self.old.unused.table_id) }
        ensures same { self.new.unused.table_id ≡ self.old.unused.table_id }
    {
        let roster = Roster::copy(alloc, &self.roster)?;
        let Some(tracee) = self.ends.tracees.pop() else {
            return Err(Fail::new("no tracee is left"));
        };
        let Ok(row) = u32::try_from(self.ends.tracees.len()) else {
            return Err(Fail::new("no roster has so many rows"));
        };
        Ok(AtRest {
            tracee,
            roster,
            row,
            births: 0,
        })
    }

    /// The last tracer that is left.
    pub fn desk(&mut self) -> Result<Desk<A>, Fail>
        ensures table { IfOk result (λ d. d.tracer.table_id ≡ self.old.unused.table_id) }
        ensures same { self.new.unused.table_id ≡ self.old.unused.table_id }
    {
        let Some(tracer) = self.ends.tracers.pop() else {
            return Err(Fail::new("no tracer is left"));
        };
        Ok(Desk {
            tracer,
            rows: self.roster.len(),
        })
    }
}
