//! The growths of a tracee's memory.

ghost use Rattle.std.specs.Prelude.{◌≡◌, ◌%◌};

use crate::tests::compare::{holds, same};
use crate::tests::greatest::fill;
use crate::{Cut, End, Views};
use refusing_allocator::RefusingAllocator;
use std::alloc::{Allocator, Global};
use std::test::Fail;
use trace_options::NoMemory;
use trace_pages::{MapError, Memory};
use trace_record::StopRecord;

/// Maps the pages 0 to 63, and answers the first that was refused for lack of memory, or 64.
fn map_pages<A: Allocator + Copy>(memory: &mut Memory<A>) -> u64 {
    for page in 0..64 {
        if memory.map(page * 4096) == Err(MapError::NoMemory) {
            return page;
        }
    }
    64
}

/// Whether these pages, of zeros except the last byte of each, are all that is mapped of the first 64.
fn has_pages<A: Allocator>(memory: &Memory<A>, pages: u64) -> bool {
    for page in 0..64 {
        let zero = memory.byte(page * 4096);
        let marked = memory.byte(page * 4096 + 4095);
        if page < pages && (zero != Some(0) || marked != Some(7)) {
            return false;
        }
        if page >= pages && (zero.is_some() || marked.is_some()) {
            return false;
        }
    }
    true
}

/// Marks the last byte of each of the first pages.
fn mark_pages<A: Allocator>(memory: &mut Memory<A>, pages: u64) -> bool {
    for page in 0..pages.min(64) {
        if memory.store(page * 4096 + 4095, &[7]).is_err() {
            return false;
        }
    }
    true
}

/// More than all growths of a memory of 64 pages and of its copy: each page has a box of its own.
const GROWTHS: u64 = 256;

#[test]
fn a_map_that_is_refused_leaves_the_memory_as_it_was(rt: HostRuntime) {
    let mut refused = 0u32;
    for granted in 0..GROWTHS {
        let heap = RefusingAllocator::new(rt.alloc(), granted);
        let mut memory = Memory::new(&heap);
        let pages = map_pages(&mut memory);
        same(&rt, &(granted, heap.has_refused()), &(granted, pages < 64));
        assert!(rt; mark_pages(&mut memory, pages));
        same(&rt, &(granted, has_pages(&memory, pages)), &(granted, true));
        if pages == 64 {
            break;
        }
        refused = refused.wrapping_add(1);
        // It is granted the next time.
        same(&rt, &memory.map(pages.min(63) * 4096), &Ok(()));
    }
    // 64 boxes, and each of two lists grows more than once.
    same(&rt, &(refused, refused > 64 + 2), &(refused, true));
    assert!(rt; refused < 128);
}

/// Maps a page, and once more where it is refused. Whether a growth that is refused, and nothing else, is reported, and
/// leaves the page unmapped.
fn maps<'a>(
    heap: &'a RefusingAllocator<Global>,
    memory: &mut Memory<&'a RefusingAllocator<Global>>,
    page: u64,
) -> bool
    requires { page % 4096 ≡ 0 }
{
    let was_refused = heap.has_refused();
    let mapped = memory.map(page);
    if heap.has_refused() == was_refused {
        return mapped == Ok(());
    }
    mapped == Err(MapError::NoMemory) && memory.byte(page).is_none() && memory.map(page) == Ok(())
}

/// Whether a view has the two letters before the end of a page and the one after it.
fn has_letters<A: Allocator>(mut cut: Cut<'_, A>, end: End) -> bool {
    let whole = cut.len() == 3 && cut.end() == end;
    whole
        && cut.next() == Some(b"ab".as_slice())
        && cut.next() == Some(b"c".as_slice())
        && cut.next().is_none()
}

/// Whether the string that goes over two pages is shown up to its zero, and up to a limit before that.
fn shows_string<A: Allocator>(record: &StopRecord<A>) -> bool {
    let views = Views::of(record);
    has_letters(views.c_string(0x10ffe, 33), End::Nul)
        && has_letters(views.c_string(0x10ffe, 4), End::Nul)
        && has_letters(views.c_string(0x10ffe, 3), End::Limit)
}

#[test]
fn a_string_over_two_pages_is_mapped_and_copied(rt: HostRuntime) -> Result<(), Fail> {
    let mut copies = 0u32;
    let mut refused = 0u32;
    for granted in 0..GROWTHS {
        let heap = RefusingAllocator::new(rt.alloc(), granted);
        let mut record = StopRecord::empty(&heap, 100);
        same(
            &rt,
            &(granted, maps(&heap, &mut record.memory, 0x10000)),
            &(granted, true),
        );
        same(
            &rt,
            &(granted, maps(&heap, &mut record.memory, 0x11000)),
            &(granted, true),
        );
        assert!(rt; record.memory.store(0x10ffe, b"ab").is_ok());
        assert!(rt; record.memory.store(0x11000, b"c\0").is_ok());
        let was_refused = heap.has_refused();
        let first = record.memory.copy();
        same(&rt, &(granted, shows_string(&record)), &(granted, true));
        same(
            &rt,
            &(granted, first.is_err()),
            &(granted, heap.has_refused() != was_refused),
        );
        record.memory = match first {
            Ok(copy) => copy,
            Err(NoMemory) => {
                copies = copies.wrapping_add(1);
                record.memory.copy()?
            }
        };
        same(&rt, &(granted, shows_string(&record)), &(granted, true));
        if !heap.has_refused() {
            break;
        }
        refused = refused.wrapping_add(1);
    }
    // A copy has two lists and two boxes.
    same(&rt, &copies, &4);
    // And so have the two pages.
    same(&rt, &refused, &8);
    Ok(())
}

#[test]
fn a_page_that_cannot_be_mapped_needs_no_growth(rt: HostRuntime) {
    let mut spent = false;
    for granted in 256..512 {
        let heap = RefusingAllocator::new(rt.alloc(), granted);
        let mut memory = Memory::new(&heap);
        if !fill(&mut memory) {
            assert!(rt; heap.has_refused());
            continue;
        }
        // What is granted is spent, and the next growth is the one that is refused.
        same(&rt, &memory.map(0), &Err(MapError::Mapped));
        same(&rt, &memory.map(256 * 4096), &Err(MapError::TooMany));
        assert!(rt; !heap.has_refused());
        assert!(rt; memory.copy().is_err());
        assert!(rt; heap.has_refused());
        spent = true;
        break;
    }
    holds(&rt, spent, "256 pages were never granted");
}
