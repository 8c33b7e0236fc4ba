use super::laws::{
    changes_determine_memory, runs_are_made_of_pieces, runs_end_where_they_say,
    stores_keep_addresses,
};
use super::*;
use std::fmt::Debug;
use std::process::Abort;
use std::test::Fail;

/// Ends a test where two values differ, and says both. An `assert_eq!` is written out, and proved, wherever it stands,
/// which takes most of the time of a test's proof.
fn same<R: Abort, T: PartialEq + Debug>(rt: &R, found: &T, wanted: &T) {
    assert_eq!(rt; found, wanted);
}

/// The last page of the address space.
const TOP: u64 = 0xffff_ffff_ffff_f000;

#[test]
fn a_page_is_mapped_once(rt: HostRuntime) {
    let mut memory = Memory::new(rt.alloc());
    same(&rt, &memory.byte(0x10000), &None);
    same(&rt, &memory.map(0x10000), &Ok(()));
    same(&rt, &memory.map(0x10000), &Err(MapError::Mapped));
    for (addr, byte) in [
        (0xffff, None),
        (0x10000, Some(0)),
        (0x10fff, Some(0)),
        (0x11000, None),
    ] {
        same(&rt, &(addr, memory.byte(addr)), &(addr, byte));
    }
}

#[test]
fn there_are_at_most_256_pages(rt: HostRuntime) {
    let mut memory = Memory::new(rt.alloc());
    for at in 0..256u64 {
        same(&rt, &(at, memory.map(at * 4096)), &(at, Ok(())));
    }
    same(&rt, &memory.map(0x100000), &Err(MapError::TooMany));
    same(&rt, &memory.map(0xff000), &Err(MapError::Mapped));
    same(&rt, &memory.byte(0xfffff), &Some(0));
    same(&rt, &memory.byte(0x100000), &None);
}

#[test]
fn a_store_that_meets_an_absent_page_changes_nothing(rt: HostRuntime) {
    let mut memory = Memory::new(rt.alloc());
    assert!(rt; memory.map(0x10000).is_ok());
    same(
        &rt,
        &memory.store(0x10ffe, &[1, 2, 3, 4]),
        &Err(Fault { addr: 0x11000 }),
    );
    same(&rt, &memory.byte(0x10ffe), &Some(0));
    same(&rt, &memory.byte(0x10fff), &Some(0));
    same(
        &rt,
        &memory.store(0xfffe, &[1, 2, 3, 4]),
        &Err(Fault { addr: 0xfffe }),
    );
    same(&rt, &memory.byte(0x10000), &Some(0));
    same(&rt, &memory.store(0x10ffe, &[1, 2]), &Ok(()));
    same(&rt, &memory.byte(0x10fff), &Some(2));
}

#[test]
fn a_store_goes_over_two_pages(rt: HostRuntime) {
    let mut memory = Memory::new(rt.alloc());
    assert!(rt; memory.map(0x11000).is_ok());
    assert!(rt; memory.map(0x20000).is_ok());
    assert!(rt; memory.map(0x10000).is_ok());
    same(&rt, &memory.store(0x10ffe, &[1, 2, 3, 4]), &Ok(()));
    for (addr, byte) in [
        (0x10ffd, 0),
        (0x10ffe, 1),
        (0x10fff, 2),
        (0x11000, 3),
        (0x11001, 4),
        (0x11002, 0),
        (0x20000, 0),
        (0x20001, 0),
    ] {
        same(&rt, &(addr, memory.byte(addr)), &(addr, Some(byte)));
    }
}

#[test]
fn a_store_ends_at_the_last_address(rt: HostRuntime) {
    let mut memory = Memory::new(rt.alloc());
    assert!(rt; memory.map(TOP).is_ok());
    assert!(rt; memory.map(0).is_ok());
    let end = Err(Fault { addr: u64::MAX });
    same(&rt, &memory.store(u64::MAX - 1, &[7, 8, 9]), &end);
    same(&rt, &memory.byte(u64::MAX - 1), &Some(0));
    // It does not go on at address 0.
    same(&rt, &memory.byte(0), &Some(0));
    same(&rt, &memory.store(u64::MAX - 1, &[7, 8]), &Ok(()));
    same(&rt, &memory.byte(u64::MAX), &Some(8));
}

#[test]
fn a_store_of_no_bytes_is_done_anywhere(rt: HostRuntime) {
    let mut memory = Memory::new(rt.alloc());
    same(&rt, &memory.store(0x12345, &[]), &Ok(()));
    same(&rt, &memory.store(u64::MAX, &[]), &Ok(()));
}

#[test]
fn a_piece_ends_with_its_page(rt: HostRuntime) {
    let mut memory = Memory::new(rt.alloc());
    assert!(rt; memory.map(0x10000).is_ok());
    assert!(rt; memory.map(0x20000).is_ok());
    assert!(rt; memory.store(0x10ffd, &[1, 2, 3]).is_ok());
    same(&rt, &memory.piece(0x10ffd), &Some([1, 2, 3].as_slice()));
    same(
        &rt,
        &memory.piece(0x10000).map(|piece| piece.len()),
        &Some(4096),
    );
    same(&rt, &memory.piece(0x11000), &None);
    same(&rt, &memory.piece(0xffff), &None);
}

#[test]
fn a_read_goes_on_to_the_first_absent_byte(rt: HostRuntime) {
    let mut memory = Memory::new(rt.alloc());
    for page in [0x10000, 0x11000, TOP] {
        assert!(rt; memory.map(page).is_ok());
    }
    same(&rt, &memory.store(0x10ffe, &[1, 2, 3, 4]), &Ok(()));
    same(&rt, &memory.store(0x11ffe, &[5, 6]), &Ok(()));
    same(&rt, &memory.store(TOP + 0xfff, &[7]), &Ok(()));
    for (addr, read, bytes) in [
        (0x10ffe, 4, [1, 2, 3, 4]),
        (0x10ffd, 4, [0, 1, 2, 3]),
        (0x11ffe, 2, [5, 6, 9, 9]),
        (0x12000, 0, [9, 9, 9, 9]),
        (0xffff, 0, [9, 9, 9, 9]),
        (u64::MAX, 1, [7, 9, 9, 9]),
    ] {
        let mut to = [9; 4];
        same(&rt, &(addr, memory.read(addr, &mut to)), &(addr, read));
        same(&rt, &(addr, to), &(addr, bytes));
    }
    same(&rt, &memory.read(0x10000, &mut []), &0);
}

#[test]
fn a_copy_has_the_same_bytes_and_its_own(rt: HostRuntime) -> Result<(), Fail> {
    let mut memory = Memory::new(rt.alloc());
    assert!(rt; memory.map(0x10000).is_ok());
    assert!(rt; memory.map(TOP).is_ok());
    assert!(rt; memory.store(0x10010, b"hello").is_ok());
    let mut copy = memory.copy()?;
    for addr in [
        0,
        0xffff,
        0x10000,
        0x10010,
        0x10014,
        0x10fff,
        0x11000,
        TOP,
        u64::MAX,
    ] {
        same(&rt, &(addr, copy.byte(addr)), &(addr, memory.byte(addr)));
    }
    assert!(rt; copy.store(0x10010, b"J").is_ok());
    assert!(rt; memory.store(0x10014, b"!").is_ok());
    assert!(rt; memory.map(0x11000).is_ok());
    same(&rt, &memory.byte(0x10010), &Some(b'h'));
    same(&rt, &copy.byte(0x10014), &Some(b'o'));
    same(&rt, &copy.byte(0x11000), &None);
    Ok(())
}

#[test]
fn a_look_ahead_answers_as_the_store_would(rt: HostRuntime) {
    let mut memory = Memory::new(rt.alloc());
    assert!(rt; memory.map(0x10000).is_ok());
    assert!(rt; memory.map(0x11000).is_ok());
    assert!(rt; memory.map(TOP).is_ok());
    for (addr, len, answer) in [
        (0x10ffe, 4, Ok(())),
        (0x10000, 8192, Ok(())),
        (0x10000, 8193, Err(Fault { addr: 0x12000 })),
        (0xffff, 1, Err(Fault { addr: 0xffff })),
        (0x12000, 0, Ok(())),
        (u64::MAX, 1, Ok(())),
        (u64::MAX, 2, Err(Fault { addr: u64::MAX })),
    ] {
        same(
            &rt,
            &(addr, len, memory.check_run(addr, len)),
            &(addr, len, answer),
        );
    }
    same(&rt, &memory.byte(0x10ffe), &Some(0));
}

#[test]
fn the_laws_are_there() {
    runs_end_where_they_say();
    runs_are_made_of_pieces();
    changes_determine_memory();
    stores_keep_addresses();
}
