//! Runs of bytes in paged memory: their ends, their lengths and their first pieces.

ghost use Rattle.std.specs.Prelude.{◌≡◌, ◌≤◌, ◌<◌, ◌+◌, ◌-◌, ◌%◌, ◌^◌, ◌++◌, ℕ, Err, length};
ghost use Rattle.trace_pages.specs.FlatMemory as flat;
ghost use Rattle.trace_pages.specs.FlatMemory.{FlatMemory, run, run_end};
ghost use Rattle.trace_pages.specs.declared.pages.TheConstants.{PAGE_SIZE};
ghost use Rattle.trace_pages.specs.Memory.{store_answer};
ghost use Rattle.mem_views.specs.ByteView.{bytes_end};

use crate::end::End;
use std::alloc::Allocator;
use trace_pages::{Fault, Memory};

/// How a run of at most `count` bytes ends.
pub(crate) fn end_of_run<A: Allocator>(memory: &Memory<A>, addr: u64, count: u64) -> End
    ensures { result ≡ bytes_end (run_end memory.now addr count) }
{
    match memory.check_run(addr, count as usize) {
        Ok(()) => End::Full,
        Err(fault) => end_at(memory, fault),
    }
}

/// A fault at the last address is of that address, or of the one after it where the last one is mapped.
fn end_at<A: Allocator>(memory: &Memory<A>, fault: Fault) -> End
    ensures { (addr count : ℕ) → addr < 2 ^ 64 → store_answer (run_end memory.now addr count) ≡ Err fault
        → result ≡ bytes_end (run_end memory.now addr count) }
{
    if fault.addr == u64::MAX && memory.byte(fault.addr).is_some() {
        End::Top
    } else {
        End::Fault(fault.addr)
    }
}

/// The length of a run of at most `count` bytes, by its end.
pub(crate) fn length_of_run(addr: u64, count: u64, end: End) -> u64
    ensures { (memory : FlatMemory) → end ≡ bytes_end (run_end memory addr count)
        → result ≡ length (run memory addr count) }
{
    match end {
        End::Fault(first) => first.wrapping_sub(addr),
        End::Top => 0u64.wrapping_sub(addr),
        _ => count,
    }
}

/// The first piece of a run that has all its `left` bytes: up to the end of its page, or of the run.
pub(crate) fn front_of_run<'a, A: Allocator>(memory: &'a Memory<A>, at: u64, left: u64) -> &'a [u8]
    requires some { 0 < left }
    requires full { run_end memory.now at left ≡ flat.Full }
    ensures run { run memory.now at left
        ≡ result.now ++ run memory.now (at + length result.now) (left - length result.now) }
    ensures full { run_end memory.now (at + length result.now) (left - length result.now) ≡ flat.Full }
    ensures some { 0 < length result.now }
    ensures within { length result.now ≤ left }
    ensures in_page { at % PAGE_SIZE + length result.now ≤ PAGE_SIZE }
    ensures page_end { length result.now < left → at % PAGE_SIZE + length result.now ≡ PAGE_SIZE }
{
    let Some(piece) = memory.piece(at) else {
        unreachable!()
    };
    &piece[..piece.len().min(left as usize)]
}
