//! A tracer that is still to get its calls, and how a test ends them.

ghost use Rattle.std.specs.Prelude.{◌≡◌, []};
ghost use Rattle.stop_table.specs.Tracer.{held_rows};

use std::alloc::{Allocator, Global};
use std::sync::Wait;
use std::test::Fail;
use stop_history::Roster;
use stop_table::Tracer;
use test_support::{AtRest, Cast, ROOT, open_for};
use trace_calls::Calls;
use trace_options::WaitFlags;
use trace_record::Stop;

/// A tracer that has claimed nothing, with the roster of its table.
#[derive(Drop)]
pub(crate) struct Waiter<A: Allocator = Global> {
    pub(crate) tracer: Tracer<A>,
    pub(crate) roster: Roster<A>,
    pub ghost same: { roster ≡ tracer.view.roster },
    pub ghost idle: { held_rows tracer.view ≡ [] },
}

impl<A: Allocator + Copy> Waiter<A> {
    /// The last tracer that is left.
    pub(crate) fn of(cast: &mut Cast<A>, alloc: A) -> Result<Waiter<A>, Fail> {
        let roster = Roster::new(alloc, cast.roster.rows())?;
        let Some(tracer) = cast.ends.tracers.pop() else {
            return Err(Fail::new("no tracer is left"));
        };
        Ok(Waiter { tracer, roster })
    }

    /// Its calls, or None where there is no memory.
    pub(crate) fn calls(self, alloc: A) -> Option<Calls<A>> {
        let Waiter { tracer, roster } = self;
        Calls::new(alloc, tracer, &roster).ok()
    }

    /// Its calls, where there has to be memory.
    pub(crate) fn ready(self, alloc: A) -> Result<Calls<A>, Fail> {
        match self.calls(alloc) {
            Some(calls) => Ok(calls),
            None => Err(Fail::new("there is no memory for calls")),
        }
    }
}

/// The one root, which runs, and a tracer that is still to get its calls.
pub(crate) fn root_and_waiter<A: Allocator + Copy>(
    alloc: A,
) -> Result<(AtRest<A>, Waiter<A>), Fail> {
    let mut cast = open_for(alloc, &[ROOT], 1)?;
    let root = cast.tracee(alloc)?;
    let waiter = Waiter::of(&mut cast, alloc)?;
    Ok((root, waiter))
}

/// The calls over the one root, which runs.
pub(crate) fn over_running_root<A: Allocator + Copy>(alloc: A) -> Result<Calls<A>, Fail> {
    let (_root, waiter) = root_and_waiter(alloc)?;
    waiter.ready(alloc)
}

/// The one root, at this stop, and a tracer's calls.
pub(crate) fn with_stopped_root<A: Allocator + Copy>(
    alloc: A,
    stop: Stop,
) -> Result<(AtRest<A>, Calls<A>), Fail> {
    let (root, waiter) = root_and_waiter(alloc)?;
    let root = root.stop(stop, 0)?;
    Ok((root, waiter.ready(alloc)?))
}

/// The calls over the one root, at this stop.
pub(crate) fn over_stopped_root<A: Allocator + Copy>(
    alloc: A,
    stop: Stop,
) -> Result<Calls<A>, Fail> {
    let (_root, calls) = with_stopped_root(alloc, stop)?;
    Ok(calls)
}

/// Lets the tracees of these pids that are claimed run on, and ends the calls.
pub(crate) fn end<R: Wait, A: Allocator>(rt: &R, mut calls: Calls<A>, pids: &[i32]) -> Tracer<A> {
    for _ in rt.forever() {
        match calls.into_tracer() {
            Ok(tracer) => return tracer,
            Err(back) => calls = back,
        }
        for pid in pids {
            // ESRCH for one that is not claimed.
            let _ = calls.cont(*pid, None);
        }
    }
    unreachable!()
}

/// The flags of both.
pub(crate) fn both(one: WaitFlags, other: WaitFlags) -> WaitFlags {
    let mut flags = one;
    flags.insert(other);
    flags
}
