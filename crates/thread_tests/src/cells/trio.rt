//! A tracee and two tracers, who act in many of the tests.

ghost use Rattle.std.specs.Prelude.{◌≡◌};

use std::alloc::{Allocator, Global};
use std::test::Fail;
use test_support::{AtRest, Desk, ROOT, open_for};
use trace_record::Stop;

/// A tracee and two tracers of one table.
#[derive(Drop)]
pub(crate) struct Trio<A: Allocator = Global> {
    pub(crate) tracee: AtRest<A>,
    pub(crate) first: Desk<A>,
    pub(crate) second: Desk<A>,
    pub ghost one_table: { (first.tracer.table_id ≡ tracee.tracee.table_id)
        × (second.tracer.table_id ≡ tracee.tracee.table_id) },
}

/// The tracee of the one row, and tracers 0 and 1.
pub(crate) fn open_trio<A: Allocator + Copy>(alloc: A) -> Result<Trio<A>, Fail> {
    let mut cast = open_for(alloc, &[ROOT], 2)?;
    let tracee = cast.tracee(alloc)?;
    let second = cast.desk()?;
    let first = cast.desk()?;
    Ok(Trio {
        tracee,
        first,
        second,
    })
}

/// The same, with the tracee at this stop.
pub(crate) fn stopped_trio<A: Allocator + Copy>(
    alloc: A,
    stop: Stop,
    mark: u64,
) -> Result<Trio<A>, Fail> {
    let Trio {
        tracee,
        first,
        second,
    } = open_trio(alloc)?;
    let tracee = tracee.stop(stop, mark)?;
    Ok(Trio {
        tracee,
        first,
        second,
    })
}
