//! The rule of the cells, and the kinds of step under it. None of these types has a value: they name definitions for the
//! prover.

ghost use Rattle.stop_table.specs.Opening.{everyone, first_row, first_tracer, later_rows, later_tracers};
ghost use Rattle.stop_table.specs.Rule.{KeepsRule};
ghost use Rattle.stop_table.specs.Steps.{claims_stop, compared, exited, looked, met, publishes, reaped, resumed};
ghost use Rattle.stop_table.specs.Steps.{takes_up};
ghost use Rattle.stop_table.specs.View.{view_of_nobody};

use crate::boxed::BoxedRecord;
use atomic_table::{Join, Play, Split, TableRule};
use std::alloc::Allocator;
use std::marker::Model;
use stop_history::Roster;

/// What a handle knows.
pub(crate) struct View {}

impl Model for View {
    ghost use Rattle.stop_table.specs.View.{View, view_of_nobody};
    ghost use Rattle.std.specs.Coded.{codes};
    ghost use Rattle.trace_pages.specs.FlatMemory.{flat_code};

    ghost Value = { View };

    ghost coded = { Prim.hlevel (codes, flat_code) };

    ghost view = { λ v. view_of_nobody };
}

/// What holds between any two steps.
pub(crate) struct Kept;

impl<A: Allocator> TableRule<Option<BoxedRecord<A>>, View, Roster<A>> for Kept {
    ghost holds = { λ rows. KeepsRule rows };

    ghost first = { λ rows. everyone rows };
}

/// A row's word is read.
pub(crate) struct Looks;

impl<A: Allocator> Play<Option<BoxedRecord<A>>, View> for Looks {
    ghost then = { looked };
}

/// A tracee takes its row up.
pub(crate) struct TakesUp;

impl<A: Allocator> Play<Option<BoxedRecord<A>>, View> for TakesUp {
    ghost then = { takes_up };
}

/// A tracee publishes a stop.
pub(crate) struct Publishes;

impl<A: Allocator> Play<Option<BoxedRecord<A>>, View> for Publishes {
    ghost then = { publishes };
}

/// A tracer claims a stop, or finds another word.
pub(crate) struct Claims;

impl<A: Allocator> Play<Option<BoxedRecord<A>>, View> for Claims {
    ghost then = { claims_stop };
}

/// A tracer claims a death, or finds another word.
pub(crate) struct Reaps;

impl<A: Allocator> Play<Option<BoxedRecord<A>>, View> for Reaps {
    ghost then = { reaped };
}

/// A tracer resumes a row that it has claimed.
pub(crate) struct Resumes;

impl<A: Allocator> Play<Option<BoxedRecord<A>>, View> for Resumes {
    ghost then = { resumed };
}

/// A tracee's row ends.
pub(crate) struct Exits;

impl<A: Allocator> Play<Option<BoxedRecord<A>>, View> for Exits {
    ghost then = { exited };
}

/// A handle that has taken in another compares what the two had seen.
pub(crate) struct Compares;

impl<A: Allocator> Play<Option<BoxedRecord<A>>, View> for Compares {
    ghost then = { compared };
}

/// A handle takes in another.
pub(crate) struct Meets;

impl Join<View> for Meets {
    ghost both = { met };

    ghost spent = { view_of_nobody };
}

/// A seat gives its first row away.
pub(crate) struct OneRow;

impl Split<View> for OneRow {
    ghost left = { later_rows };

    ghost right = { first_row };
}

/// A seat gives its first tracer away.
pub(crate) struct OneTracer;

impl Split<View> for OneTracer {
    ghost left = { later_tracers };

    ghost right = { first_tracer };
}
