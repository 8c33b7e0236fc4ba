//! Each growth of a machine refused in turn.

use crate::compare::same;
use crate::scripts::machine::{CONT, FORK, machine_of, no_calls, stops_made};
use refusing_allocator::RefusingAllocator;
use std::alloc::Allocator;
use trace_record::{Stop, StopRecord};
use trace_script::{Case, Machine};

/// A block with an image, a fill, an exec and its image.
const EXEC: &[u8] =
    b"tracee 1 1 1 0\npage 0\ndata 0 00\ncall read 0 0 1 = 1 fill 0 61\nexec 0\npage 0\nexit 0\nend\n";

/// Files, the row whose machine is made, and how often that grows: for an image of one page the page and the lists of
/// addresses and of pages, then the steps, with the images of execs, the bytes of fills, and the memories of no page.
const MACHINES: [(&[u8], u32, u32); 3] = [(FORK, 0, 5), (FORK, 1, 2), (EXEC, 0, 9)];

/// Whether a machine makes the first stop, which needs no memory.
fn starts<A: Allocator + Copy>(alloc: A, machine: Machine<A>) -> bool {
    let mut machine = machine;
    let mut record = StopRecord::empty(alloc, 100);
    stops_made(&mut machine, &mut record, &[(CONT, Stop::Start)]) == 1
}

/// Whether a machine can be made and makes the first stop.
fn is_made<A: Allocator + Copy>(alloc: A, case: &Case<A>, row: u32) -> bool {
    match machine_of(alloc, case, row, 0x1b, &no_calls()) {
        Some(machine) => starts(alloc, machine),
        None => false,
    }
}

#[test]
fn a_machine_that_is_refused_a_growth_is_not_made(rt: HostRuntime) {
    for (file, row, growths) in MACHINES {
        let mut refused = 0u32;
        for granted in 0..64 {
            let heap = RefusingAllocator::new(rt.alloc(), granted);
            let Ok(case) = Case::read(&heap, file) else {
                same(&rt, &(granted, heap.has_refused()), &(granted, true));
                continue;
            };
            same(&rt, &(granted, !heap.has_refused()), &(granted, true));
            let made = is_made(&heap, &case, row);
            same(&rt, &(granted, heap.has_refused()), &(granted, !made));
            if made {
                break;
            }
            // It is granted the next time.
            same(
                &rt,
                &(granted, is_made(&heap, &case, row)),
                &(granted, true),
            );
            refused = refused.saturating_add(1);
        }
        same(&rt, &refused, &growths);
    }
}
