//! What holds of a tracer's handle, whatever was done by it.

ghost use Rattle.stop_table.specs.Tracer.{IsTracerHandle};

use std::alloc::Allocator;
use stop_table::Tracer;

/// A tracer's handle acts for one of its table's tracers, and what it has seen is a legal history. It does nothing when
/// it runs: `Tracer::number` ensures this of each handle, and so this brings it into view where a proof needs it.
pub(crate) fn handle_is_legal<A: Allocator>(tracer: &Tracer<A>)
    ensures { IsTracerHandle tracer.now }
{
    let _number = tracer.number();
}
