//! The allocator. It passes each call on to an inner one, except the one allocation that it refuses.
//!
//! A test hands `&RefusingAllocator` to the code that it tests: a reference to an allocator is an allocator, and is
//! `Copy`, `Send` and `Sync`. A block that grows counts as one more allocation, and so does one that shrinks.

use crate::grants::Grants;
use std::alloc::{AllocError, Allocator};

/// Grants a number of allocations, refuses the next one, and grants again.
#[derive(Drop)]
pub struct RefusingAllocator<B: Allocator> {
    inner: B,
    grants: Grants,
}

impl<B: Allocator> RefusingAllocator<B> {
    /// An allocator over `inner` that refuses the allocation after `granted` others.
    pub fn new(inner: B, granted: u64) -> RefusingAllocator<B> {
        RefusingAllocator {
            inner,
            grants: Grants::new(granted),
        }
    }

    /// Whether it has refused its one allocation.
    pub fn has_refused(&self) -> bool {
        self.grants.has_refused()
    }
}

unsafe impl<B: Allocator> Allocator for RefusingAllocator<B> {
    ghost use Rattle.refusing_allocator.specs.RefusingAllocator.{inner_of};

    ghost dealloc_token = { λ heap ty ptr. B.dealloc_token (inner_of heap) ty ptr };

    fn allocate(&self, size: usize, align: usize) -> Result<*mut u8, AllocError> {
        if self.grants.is_next_granted() {
            return self.inner.allocate(size, align);
        }
        Err(AllocError)
    }

    unsafe fn deallocate(&self, ptr: *mut u8, size: usize, align: usize) {
        self.inner.deallocate(ptr, size, align);
    }
}
