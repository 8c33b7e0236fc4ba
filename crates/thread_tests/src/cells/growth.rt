//! Each growth of the opening refused in turn, until it is granted, and then the cells are used.

use crate::compare::same;
use refusing_allocator::RefusingAllocator;
use std::alloc::Allocator;
use std::test::Fail;
use stop_history::Roster;
use stop_table::OpenError;
use test_support::{Answer, Cast, ROOT, THREAD, open_over};
use trace_record::Stop;

/// More than the opening has growths.
const MOST: u64 = 40;

/// The growth before: the roster.
const BEFORE: u64 = 1;

/// The root publishes its first stop, and is met by a tracer. What that tracer's claim of it answers.
fn read_back<A: Allocator + Copy>(cast: Cast<A>, alloc: A) -> Result<Answer, Fail> {
    let mut cast = cast;
    let _thread = cast.tracee(alloc)?;
    let root = cast.tracee(alloc)?;
    let desk = cast.desk()?;
    let root = root.stop(Stop::Start, 7)?;
    let mut both = desk.meet_tracee(root);
    Ok(both.try_claim(0))
}

#[test]
fn an_opening_wants_memory_for_the_table_and_for_each_tracer(rt: HostRuntime) -> Result<(), Fail> {
    let ample = RefusingAllocator::new(rt.alloc(), u64::MAX);
    let mut refusals = 0u32;
    for growth in 0..MOST {
        let heap = RefusingAllocator::new(rt.alloc(), BEFORE + growth);
        let roster = Roster::new(&heap, &[ROOT, THREAD])?;
        match open_over(&heap, roster, 2) {
            Ok(cast) => {
                let opened = (cast.ends.tracees.len(), cast.ends.tracers.len());
                same(&rt, &opened, &(2, 2));
                let claimed = Answer::Stop {
                    tid: 100,
                    number: 1,
                    mark: 7,
                };
                same(&rt, &read_back(cast, &ample)?, &claimed);
                assert!(rt; !heap.has_refused());
                break;
            }
            Err(fault) => {
                same(&rt, &fault, &OpenError::NoMemory);
                assert!(rt; heap.has_refused());
                refusals = refusals.wrapping_add(1);
            }
        }
    }
    // The roster, the words and the slots; the record of each row; the table has a block for the words and one for the
    // slots; what the handles share; the list of the tracees, that of the tracers, and for each tracer its list of claims.
    same(&rt, &refusals, &(3 + 2 + 2 + 1 + 1 + 1 + 3));
    Ok(())
}
