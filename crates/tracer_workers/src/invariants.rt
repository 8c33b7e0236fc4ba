//! What holds of each handle and of each case. The functions of this module are for the prover alone, and do nothing
//! when they run: a proof sees the invariant of a type of another crate only where a method's contract states it, so
//! each of them calls such a method.

ghost use Rattle.std.specs.Prelude.{◌<◌, ◌^◌, length};
ghost use Rattle.stop_table.specs.Tracee.{IsTraceeHandle};
ghost use Rattle.stop_table.specs.Tracer.{IsTracerHandle};
ghost use Rattle.trace_calls.specs.Handle.{HasRecords, tracer_of};
ghost use Rattle.trace_script.specs.CaseFacts.{IsCase};

use std::alloc::Allocator;
use stop_table::{Tracee, Tracer};
use trace_calls::Calls;
use trace_script::Case;

/// A tracer's handle has a roster, and what it has seen is legal there.
pub(crate) fn of_tracer<A: Allocator>(tracer: &Tracer<A>)
    ensures { IsTracerHandle tracer.now }
{
    let _number = tracer.number();
}

/// A tracee's handle has a roster with its row, and what it has seen is legal there.
pub(crate) fn of_tracee<A: Allocator>(tracee: &Tracee<A>)
    ensures { IsTraceeHandle tracee.now }
{
    let _holds = tracee.holds();
}

/// The tracer of calls has a roster, and what it has seen is legal there; the record of a claimed row is the one that was
/// published, with what has been written.
pub(crate) fn of_calls<A: Allocator>(calls: &Calls<A>)
    ensures handle { IsTracerHandle (tracer_of calls.now) }
    ensures records { HasRecords calls.now }
{
    let _number = calls.number();
}

/// A case has a script for each row, and a `u32` counts its rows.
pub(crate) fn of_case<A: Allocator>(case: &Case<A>)
    ensures case { IsCase case.now }
    ensures few { length case.now.rows < 2 ^ 32 }
{
    let _rows = case.roster().len();
}
