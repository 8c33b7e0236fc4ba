//! A tracee's memory at its greatest size.

use crate::tests::compare::same;
use std::alloc::Allocator;
use std::test::Fail;
use trace_pages::{MapError, Memory};

/// The most pages that a memory has.
const PAGES: u64 = 256;

/// Maps the pages from address 0 on, and marks the last byte of each; whether all of that was accepted.
pub(crate) fn fill<A: Allocator + Copy>(memory: &mut Memory<A>) -> bool {
    for page in 0..PAGES {
        let mapped = memory.map(page * 4096).is_ok();
        if !mapped || memory.store(page * 4096 + 4095, &[page as u8]).is_err() {
            return false;
        }
    }
    true
}

/// Whether a memory has all pages as they were filled, and none after them.
fn is_full<A: Allocator>(memory: &Memory<A>) -> bool {
    for page in 0..PAGES {
        let first = memory.byte(page * 4096);
        let last = memory.byte(page * 4096 + 4095);
        if first != Some(0) || last != Some(page as u8) {
            return false;
        }
    }
    memory.byte(PAGES * 4096).is_none()
}

#[test]
fn a_copy_has_256_pages(rt: HostRuntime) -> Result<(), Fail> {
    let mut memory = Memory::new(rt.alloc());
    assert!(rt; fill(&mut memory));
    same(&rt, &memory.map(PAGES * 4096), &Err(MapError::TooMany));
    same(&rt, &memory.map(0), &Err(MapError::Mapped));
    let copy = memory.copy()?;
    assert!(rt; is_full(&memory));
    assert!(rt; is_full(&copy));
    Ok(())
}
