//! New cells, of which not all ends are given out.

ghost use Rattle.std.specs.Coded.{codes};
ghost use Rattle.trace_pages.specs.FlatMemory.{flat_code};
ghost use Rattle.c_interface.specs.Opened.{AreNewTracees, AreNewTracers};

use std::alloc::Global;
use stop_board::Roster;
use stop_table::{Tracee, Tracer};

/// The ends of new cells that are still to be given out, the last first.
#[derive(Drop)]
pub struct Opened {
    pub(crate) roster: Roster<Global>,
    pub(crate) tracees: Vec<Tracee<Global>, Global>,
    pub(crate) tracers: Vec<Tracer<Global>, Global>,
    pub ghost of_rows: { AreNewTracees roster tracees.items } by { Prim.hlevel (codes, flat_code) },
    pub ghost of_tracers: { AreNewTracers roster tracers.items } by { Prim.hlevel (codes, flat_code) },
}
