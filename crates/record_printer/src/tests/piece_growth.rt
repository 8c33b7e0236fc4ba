//! Each growth of the piece of a stop refused in turn.

use crate::tests::compare::same;
use crate::{Show, piece_of};
use refusing_allocator::RefusingAllocator;
use std::test::Fail;
use trace_options::CallSet;
use trace_pages::MapError;
use trace_record::{Stop, StopRecord};

/// The stops of a tracee that a signal kills, then the starts and the end of a call, and a call that is not known by name.
#[test]
fn a_piece_that_is_refused_a_growth_is_not_made(rt: HostRuntime) -> Result<(), Fail> {
    let show = Show {
        limit: 32,
        calls: CallSet::all(),
    };
    let mut record = StopRecord::empty(rt.alloc(), 200);
    same(&rt, &record.memory.map(0x10000), &Ok::<(), MapError>(()));
    assert!(rt; record.memory.store(0x10000, b"hi\n").is_ok());
    record.number = 2;
    record.regs.rsi = 0x10000;
    record.regs.rdx = 3;
    record.regs.rax = 3;
    for (stop, number, grows) in [
        (Stop::Start, 0, false),
        (Stop::Signal(15), 0, true),
        (Stop::Enter, 1, true),
        (Stop::Seccomp(0), 1, true),
        (Stop::Enter, 0, true),
        (Stop::Exit, 0, true),
        (Stop::Exit, 300, true),
    ] {
        record.stop = stop;
        record.regs.orig_rax = number;
        let mut refused = 0u32;
        for granted in 0..64 {
            let heap = RefusingAllocator::new(rt.alloc(), granted);
            let made = piece_of(&heap, &record, &show).is_ok();
            same(
                &rt,
                &(stop, granted, heap.has_refused()),
                &(stop, granted, !made),
            );
            if made {
                break;
            }
            let again = piece_of(&heap, &record, &show);
            // It is granted the next time.
            same(&rt, &(stop, granted, again.is_ok()), &(stop, granted, true));
            refused = refused.saturating_add(1);
        }
        same(&rt, &(stop, refused, refused < 64), &(stop, refused, true));
        same(&rt, &(stop, refused, refused > 0), &(stop, refused, grows));
    }
    Ok(())
}
