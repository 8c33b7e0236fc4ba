//! Each growth of a new caller refused in turn, until it is granted: a refused one gives its tracer back, which works,
//! and the granted one waits.

use crate::compare::same;
use crate::waits::answers::{looked, started};
use crate::waits::caller::{Waiter, end, root_and_waiter};
use refusing_allocator::RefusingAllocator;
use std::alloc::Allocator;
use std::test::Fail;
use stop_table::Shown;
use test_support::START;
use trace_calls::Calls;
use trace_options::WaitFlags;
use trace_record::Stop;

/// The growths before: the roster, the opening for one row and two tracers (cells/growth.rt of `thread_tests`), and a
/// copy of the roster for the tracee and one for the tracer.
const BEFORE: u64 = 1 + 11 + 2;

/// More than new calls have growths.
const MOST: u64 = 10;

/// A tracer that is still to get its calls. The one root is at its first stop.
fn waiter_at_a_stop<A: Allocator + Copy>(alloc: A) -> Result<Waiter<A>, Fail> {
    let (root, waiter) = root_and_waiter(alloc)?;
    let _root = root.stop(Stop::Start, 0)?;
    Ok(waiter)
}

/// The calls of a tracer. Where they are refused, what the tracer that came back shows of row 0.
fn calls_or_look<A: Allocator + Copy>(alloc: A, waiter: Waiter<A>) -> Result<Calls<A>, Shown> {
    let Waiter { tracer, roster } = waiter;
    match Calls::new(alloc, tracer, &roster) {
        Ok(calls) => Ok(calls),
        Err(mut tracer) => {
            if roster.len() == 0 {
                return Err(Shown::Unborn);
            }
            Err(tracer.look(0))
        }
    }
}

#[test]
fn a_refused_caller_gives_its_tracer_back(rt: HostRuntime) -> Result<(), Fail> {
    let stopped = Shown::Stopped {
        number: 1,
        status: START,
    };
    let mut refusals = 0u32;
    for growth in 0..MOST {
        let heap = RefusingAllocator::new(rt.alloc(), BEFORE + growth);
        let waiter = waiter_at_a_stop(&heap)?;
        assert!(rt; !heap.has_refused());
        match calls_or_look(&heap, waiter) {
            Ok(mut calls) => {
                for _ in 0..2 {
                    let shown = looked(&mut calls, WaitFlags::WNOWAIT);
                    same(&rt, &shown, &(started(100), Some(1), false));
                }
                let taken = looked(&mut calls, WaitFlags::WSTOPPED);
                same(&rt, &taken, &(started(100), Some(1), true));
                let _tracer = end(&rt, calls, &[100]);
                assert!(rt; !heap.has_refused());
                break;
            }
            Err(shown) => {
                same(&rt, &shown, &stopped);
                assert!(rt; heap.has_refused());
                refusals = refusals.wrapping_add(1);
            }
        }
    }
    // The copy of the roster, the counts, and the claims.
    same(&rt, &refusals, &3);
    Ok(())
}
