//! What the views of a stop's memory show, at the ends of pages, of strings and of the address space.

mod compare;
mod greatest;
mod growth;

use crate::laws::{numbers_are_fixed, pieces_join_to_the_bytes};
use crate::tests::compare::{holds, same};
use crate::{Cut, End, IOV_MAX, Iovecs, Item, Views};
use std::alloc::Global;
use std::test::Fail;
use trace_options::Errno;
use trace_pages::Memory;
use trace_record::{Stop, StopRecord};

/// The last page of the address space.
const TOP: u64 = 0xffff_ffff_ffff_f000;

/// The record of a stop with these pages and bytes, or None where a page or a byte was refused.
fn stopped(alloc: Global, pages: &[u64], stores: &[(u64, &[u8])]) -> Option<StopRecord> {
    let mut record = StopRecord::empty(alloc, 100);
    for page in pages {
        if *page % 4096 != 0 || record.memory.map(*page).is_err() {
            return None;
        }
    }
    for (addr, bytes) in stores {
        if record.memory.store(*addr, bytes).is_err() {
            return None;
        }
    }
    Some(record)
}

/// Whether a view has these pieces, and this length and this end before, between and after them.
fn shows(mut cut: Cut<'_>, pieces: &[&[u8]], len: u64, end: End) -> bool {
    for piece in pieces {
        if cut.len() != len || cut.end() != end || cut.next() != Some(*piece) {
            return false;
        }
    }
    cut.next().is_none() && cut.next().is_none() && cut.len() == len && cut.end() == end
}

/// Whether an array has these items.
fn has_items(mut iovecs: Iovecs<'_>, items: &[Item]) -> bool {
    for item in items {
        if iovecs.next() != Some(*item) {
            return false;
        }
    }
    iovecs.next().is_none()
}

#[test]
fn a_string_goes_over_two_pages(rt: HostRuntime) -> Result<(), Fail> {
    let stores = [(0x10ffe, b"ab".as_slice()), (0x11000, b"c\0".as_slice())];
    let Some(record) = stopped(rt.alloc(), &[0x10000, 0x11000], &stores) else {
        return Ok(assert!(rt; false));
    };
    let copied = StopRecord {
        tid: 100,
        number: 1,
        stop: Stop::Start,
        regs: record.regs,
        memory: record.memory.copy()?,
    };
    let pieces = [b"ab".as_slice(), b"c".as_slice()];
    for stop in [&record, &copied] {
        let views = Views::of(stop);
        assert!(rt; shows(views.c_string(0x10ffe, 33), &pieces, 3, End::Nul));
        assert!(rt; shows(views.c_string(0x10ffe, 4), &pieces, 3, End::Nul));
        assert!(rt; shows(views.c_string(0x10ffe, 3), &pieces, 3, End::Limit));
        assert!(rt; shows(views.c_string(0x10ffe, 1), &[b"a"], 1, End::Limit));
    }
    Ok(())
}

#[test]
fn a_view_ends_before_an_absent_page(rt: HostRuntime) {
    let stores = [(0x10ffe, b"ab".as_slice())];
    let record = stopped(rt.alloc(), &[0x10000], &stores);
    assert!(rt; record.is_some());
    if let Some(record) = &record {
        let views = Views::of(record);
        let ab = [b"ab".as_slice()];
        assert!(rt; shows(views.c_string(0x10ffe, 33), &ab, 2, End::Fault(0x11000)));
        assert!(rt; shows(views.bytes(0x10ffe, 33), &ab, 2, End::Fault(0x11000)));
        assert!(rt; shows(views.bytes(0x10ffe, 2), &ab, 2, End::Full));
        assert!(rt; shows(views.c_string(0x10ffe, 2), &ab, 2, End::Limit));
        assert!(rt; shows(views.bytes(0x50000, 0), &[], 0, End::Full));
        assert!(rt; shows(views.bytes(0x50000, 1), &[], 0, End::Fault(0x50000)));
        assert!(rt; shows(views.bytes(u64::MAX, 1), &[], 0, End::Fault(u64::MAX)));
        assert!(rt; shows(views.c_string(0x50000, 0), &[], 0, End::Limit));
        assert!(rt; shows(views.c_string(0x10ffe, 0), &[], 0, End::Limit));
        assert!(rt; shows(views.c_string(0x10000, 33), &[], 0, End::Nul));
        assert!(rt; shows(views.c_string(0x50000, 33), &[], 0, End::Fault(0x50000)));
    }
}

#[test]
fn a_view_ends_with_the_address_space(rt: HostRuntime) {
    let stores = [(u64::MAX - 1, b"yz".as_slice())];
    for pages in [[TOP].as_slice(), [TOP, 0].as_slice()] {
        let record = stopped(rt.alloc(), pages, &stores);
        assert!(rt; record.is_some());
        if let Some(record) = &record {
            let views = Views::of(record);
            let yz = [b"yz".as_slice()];
            assert!(rt; shows(views.bytes(u64::MAX - 1, 4), &yz, 2, End::Top));
            assert!(rt; shows(views.bytes(u64::MAX - 1, u64::MAX), &yz, 2, End::Top));
            assert!(rt; shows(views.bytes(u64::MAX - 1, 2), &yz, 2, End::Full));
            assert!(rt; shows(views.c_string(u64::MAX - 1, 4), &yz, 2, End::Top));
            assert!(rt; shows(views.c_string(u64::MAX - 1, 2), &yz, 2, End::Limit));
        }
    }
}

#[test]
fn a_string_ends_where_its_page_ends(rt: HostRuntime) {
    let stores = [(0x10ffd, b"ab\0".as_slice()), (0x20ffe, b"cd".as_slice())];
    let record = stopped(rt.alloc(), &[0x21000, 0x10000, 0x20000], &stores);
    assert!(rt; record.is_some());
    if let Some(record) = &record {
        let views = Views::of(record);
        assert!(rt; shows(views.c_string(0x10ffd, 33), &[b"ab"], 2, End::Nul));
        assert!(rt; shows(views.c_string(0x10ffd, 3), &[b"ab"], 2, End::Nul));
        holds(
            &rt,
            shows(views.c_string(0x20ffe, 33), &[b"cd"], 2, End::Nul),
            "zero on the next page",
        );
    }
}

#[test]
fn each_piece_but_the_last_ends_with_its_page(rt: HostRuntime) {
    let page = [b'a'; 4096];
    let stores = [
        (0x10000, page.as_slice()),
        (0x11000, page.as_slice()),
        (0x12000, page.as_slice()),
    ];
    let record = stopped(rt.alloc(), &[0x12000, 0x10000, 0x11000], &stores);
    assert!(rt; record.is_some());
    if let Some(record) = &record {
        let views = Views::of(record);
        let some = [&page[..4095], page.as_slice(), &page[..1]];
        assert!(rt; shows(views.bytes(0x10001, 8192), &some, 8192, End::Full));
        let all = [&page[..4095], page.as_slice(), page.as_slice()];
        let absent = End::Fault(0x13000);
        assert!(rt; shows(views.bytes(0x10001, 12288), &all, 12287, absent));
        assert!(rt; shows(views.c_string(0x10001, 12288), &all, 12287, absent));
    }
}

#[test]
fn a_string_goes_over_three_pages(rt: HostRuntime) {
    let page = [b'b'; 4096];
    let stores = [
        (0x10fff, b"a".as_slice()),
        (0x11000, page.as_slice()),
        (0x12000, b"c\0".as_slice()),
    ];
    let record = stopped(rt.alloc(), &[0x10000, 0x11000, 0x12000], &stores);
    assert!(rt; record.is_some());
    if let Some(record) = &record {
        let views = Views::of(record);
        let pieces = [b"a".as_slice(), page.as_slice(), b"c".as_slice()];
        assert!(rt; shows(views.c_string(0x10fff, 5000), &pieces, 4098, End::Nul));
        assert!(rt;
            shows(
                views.c_string(0x10fff, 4097),
                &pieces[..2],
                4097,
                End::Limit
            )
        );
    }
}

#[test]
fn an_array_is_read_up_to_an_absent_entry(rt: HostRuntime) {
    let stores = [
        (0x10ff8, [0u8, 0, 1, 0, 0, 0, 0, 0].as_slice()),
        (0x11000, [2u8, 0, 0, 0, 0, 0, 0, 0].as_slice()),
    ];
    let record = stopped(rt.alloc(), &[0x10000, 0x11000], &stores);
    assert!(rt; record.is_some());
    if let Some(record) = &record {
        let views = Views::of(record);
        let first = Item::Iov {
            base: 0x10000,
            len: 2,
        };
        let mut items = [Item::Iov { base: 0, len: 0 }; 257];
        items[0] = first;
        items[256] = Item::Broken(End::Fault(0x12000));
        for (count, wanted) in [(1, &items[..1]), (1024, items.as_slice()), (0, &items[..0])] {
            let iovecs = views.iovecs(0x10ff8, count);
            same(
                &rt,
                &(count, iovecs.is_ok_and(|iovecs| has_items(iovecs, wanted))),
                &(count, true),
            );
        }
        for count in [IOV_MAX + 1, u64::MAX] {
            same(
                &rt,
                &(
                    count,
                    views.iovecs(0x10ff8, count).err() == Some(Errno::EINVAL),
                ),
                &(count, true),
            );
        }
        let none = views.iovecs(0x50000, 0);
        assert!(rt; none.is_ok_and(|iovecs| has_items(iovecs, &[])));
        let absent = views.iovecs(0x50000, 1024);
        let broken = [Item::Broken(End::Fault(0x50000))];
        assert!(rt; absent.is_ok_and(|iovecs| has_items(iovecs, &broken)));
    }
}

#[test]
fn an_array_ends_with_the_address_space(rt: HostRuntime) {
    let stores = [(u64::MAX - 15, [1u8; 16].as_slice())];
    let record = stopped(rt.alloc(), &[TOP, 0], &stores);
    assert!(rt; record.is_some());
    if let Some(record) = &record {
        let views = Views::of(record);
        let ones = Item::Iov {
            base: 0x0101_0101_0101_0101,
            len: 0x0101_0101_0101_0101,
        };
        let top = Item::Broken(End::Top);
        let whole = views.iovecs(u64::MAX - 15, 3);
        assert!(rt; whole.is_ok_and(|iovecs| has_items(iovecs, &[ones, top])));
        let half = views.iovecs(u64::MAX - 7, 3);
        assert!(rt; half.is_ok_and(|iovecs| has_items(iovecs, &[top])));
    }
}

#[test]
fn the_laws_are_there() {
    pieces_join_to_the_bytes();
    numbers_are_fixed();
}
