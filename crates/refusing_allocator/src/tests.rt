use super::*;
use std::alloc::{AllocError, Allocator};

/// Asks for `count` lists of one byte each, and says how many were granted before the first refusal.
fn granted_of<A: Allocator + Copy>(heap: A, count: u32) -> u32 {
    for at in 0..count {
        if Vec::from_slice(heap, &[7u8]).is_err() {
            return at;
        }
    }
    count
}

/// What threads share has to be `Copy`, `Send` and `Sync`.
fn first_of_shared<A: Allocator + Copy + Send + Sync>(heap: A) -> Result<u8, AllocError> {
    let list = Vec::from_slice(heap, &[7u8])?;
    Ok(list.first().copied().unwrap_or(0))
}

#[test]
fn with_none_granted_the_first_growth_fails_and_the_next_succeeds(rt: HostRuntime) {
    let heap = RefusingAllocator::new(rt.alloc(), 0);
    let mut list = Vec::new(&heap);
    assert!(rt; !heap.has_refused());
    assert!(rt; list.push(7u8).is_err());
    assert!(rt; heap.has_refused());
    assert!(rt; list.is_empty());
    assert!(rt; list.push(8).is_ok());
    assert_eq!(rt; list.as_slice(), [8].as_slice());
}

#[test]
fn with_one_granted_the_growth_of_a_full_list_fails(rt: HostRuntime) {
    let heap = RefusingAllocator::new(rt.alloc(), 1);
    let Ok(mut list) = Vec::with_capacity(&heap, 2) else {
        return assert!(rt; false, "the first was granted");
    };
    assert!(rt; list.push(7u8).is_ok());
    assert!(rt; list.push(8).is_ok());
    assert!(rt; !heap.has_refused());
    assert!(rt; list.push(9).is_err());
    assert!(rt; heap.has_refused());
    assert_eq!(rt; list.as_slice(), [7, 8].as_slice());
    assert!(rt; list.push(10).is_ok());
    assert_eq!(rt; list.as_slice(), [7, 8, 10].as_slice());
}

#[test]
fn as_many_are_granted_as_were_named(rt: HostRuntime) {
    for granted in 0..5 {
        let heap = RefusingAllocator::new(rt.alloc(), granted);
        assert_eq!(rt; u64::from(granted_of(&heap, 9)), granted);
        assert_eq!(rt; granted_of(&heap, 9), 9, "one alone is refused");
        assert!(rt; heap.has_refused());
    }
}

#[test]
fn threads_can_share_it(rt: HostRuntime) {
    let heap = RefusingAllocator::new(rt.alloc(), 1);
    assert_eq!(rt; first_of_shared(&heap), Ok(7));
    assert_eq!(rt; first_of_shared(&heap), Err(AllocError));
}
