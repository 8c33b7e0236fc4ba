//! Arguments that are arrays of iovecs.

use super::{Call, Scene, TOP, line_of};
use crate::tests::compare::same;
use std::test::Fail;

/// Two entries, of "ab" at 0x10ffe and of "c" at 0x10002 by their bytes before the exit.
const TWO: [u8; 32] = [
    0xfe, 0x0f, 1, 0, 0, 0, 0, 0, 2, 0, 0, 0, 0, 0, 0, 0, // 0x10ffe, 2
    2, 0, 1, 0, 0, 0, 0, 0, 1, 0, 0, 0, 0, 0, 0, 0, // 0x10002, 1
];

/// Three entries, of 2, 4 and 1 bytes, and one whose base is absent.
const FOUR: [u8; 64] = [
    0, 0, 1, 0, 0, 0, 0, 0, 2, 0, 0, 0, 0, 0, 0, 0, // 0x10000, 2
    2, 0, 1, 0, 0, 0, 0, 0, 4, 0, 0, 0, 0, 0, 0, 0, // 0x10002, 4
    4, 0, 1, 0, 0, 0, 0, 0, 1, 0, 0, 0, 0, 0, 0, 0, // 0x10004, 1
    0, 0, 5, 0, 0, 0, 0, 0, 9, 0, 0, 0, 0, 0, 0, 0, // 0x50000, 9
];

#[test]
fn an_array_is_printed_by_its_entries(rt: HostRuntime) -> Result<(), Fail> {
    let scene = Scene {
        pages: &[0x10000, TOP],
        stores: &[
            (0x10ffe, b"ab"),
            (0x10000, b"abc"),
            (0x10100, &TWO),
            (0x10200, &FOUR),
        ],
        filled: &[],
    };
    for (limit, args, line) in [
        (
            32,
            [1, 0x10100, 2],
            "100 writev(1, [{iov_base=\"ab\", iov_len=2}, {iov_base=\"c\", iov_len=1}], 2) = 3",
        ),
        (
            2,
            [1, 0x10100, 1],
            "100 writev(1, [{iov_base=\"ab\", iov_len=2}], 1) = 3",
        ),
        (
            1,
            [1, 0x10100, 2],
            "100 writev(1, [{iov_base=\"a\"..., iov_len=2}, ...], 2) = 3",
        ),
        (0, [1, 0x10100, 2], "100 writev(1, [...], 2) = 3"),
        (0, [1, 0x10100, 0], "100 writev(1, [], 0) = 3"),
        (32, [1, 0x10100, 0], "100 writev(1, [], 0) = 3"),
        (0, [1, 0x50000, 5], "100 writev(1, [...], 5) = 3"),
        (32, [1, 0x50000, 1], "100 writev(1, 0x50000, 1) = 3"),
        (32, [1, 0, 1], "100 writev(1, NULL, 1) = 3"),
        (
            32,
            [1, 0x10230, 1],
            "100 writev(1, [{iov_base=0x50000, iov_len=9}], 1) = 3",
        ),
        (
            32,
            [1, 0x10400, 1],
            "100 writev(1, [{iov_base=\"\", iov_len=0}], 1) = 3",
        ),
        (
            32,
            [1, u64::MAX - 7, 1],
            "100 writev(1, 0xfffffffffffffff8, 1) = 3",
        ),
        (
            32,
            [1, u64::MAX - 15, 2],
            "100 writev(1, 0xfffffffffffffff0, 2) = 3",
        ),
        (
            1,
            [1, u64::MAX - 15, 2],
            "100 writev(1, [{iov_base=\"\", iov_len=0}, ...], 2) = 3",
        ),
        (32, [1, 0x10ff8, 1], "100 writev(1, 0x10ff8, 1) = 3"),
        (0, [1, 0x10ff8, 1], "100 writev(1, [...], 1) = 3"),
        (0, [1, 0x10100, 1024], "100 writev(1, [...], 1024) = 3"),
        (0, [1, 0x10100, 1025], "100 writev(1, 0x10100, 1025) = 3"),
        (
            32,
            [1, 0x10100, 4294967297],
            "100 writev(1, 0x10100, 4294967297) = 3",
        ),
        (
            32,
            [1, u64::MAX, 1],
            "100 writev(1, 0xffffffffffffffff, 1) = 3",
        ),
    ] {
        let made = line_of(rt.alloc(), &scene, limit, &Call(20, args, 3, line))?;
        same(&rt, &made.as_slice(), &line.as_bytes());
    }
    Ok(())
}

/// The entries share the result, and each of them keeps its own length.
#[test]
fn entries_share_the_bytes_that_come_out(rt: HostRuntime) -> Result<(), Fail> {
    let scene = Scene {
        pages: &[0x10000],
        stores: &[(0x10000, b"abcde"), (0x10200, &FOUR)],
        filled: &[(0x10000, b"hi\n")],
    };
    for (limit, count, answer, line) in [
        (
            32,
            3,
            3,
            "100 readv(0, [{iov_base=\"hi\", iov_len=2}, {iov_base=\"\\n\", iov_len=4}, \
             {iov_base=\"\", iov_len=1}], 3) = 3",
        ),
        (
            2,
            3,
            5,
            "100 readv(0, [{iov_base=\"hi\", iov_len=2}, {iov_base=\"\\nd\"..., iov_len=4}, ...], 3) = 5",
        ),
        (
            32,
            4,
            2,
            "100 readv(0, [{iov_base=\"hi\", iov_len=2}, {iov_base=\"\", iov_len=4}, \
             {iov_base=\"\", iov_len=1}, {iov_base=\"\", iov_len=9}], 4) = 2",
        ),
        (
            32,
            1,
            9,
            "100 readv(0, [{iov_base=\"hi\", iov_len=2}], 1) = 9",
        ),
        (32, 0, 0, "100 readv(0, [], 0) = 0"),
        (32, 0, -22, "100 readv(0, 0x10200, 0) = -1 EINVAL"),
        (32, 1, -5000, "100 readv(0, 0x10200, 1) = -5000"),
        (32, 1025, 0, "100 readv(0, 0x10200, 1025) = 0"),
    ] {
        let call = Call(19, [0, 0x10200, count], answer, line);
        let made = line_of(rt.alloc(), &scene, limit, &call)?;
        same(&rt, &made.as_slice(), &line.as_bytes());
    }
    Ok(())
}

/// A path, an array and a buffer that go on over two pages; a call that replaces the memory is printed by its first stop.
#[test]
fn what_goes_over_two_pages_is_printed(rt: HostRuntime) -> Result<(), Fail> {
    let scene = Scene {
        pages: &[0x11000, 0x10000],
        stores: &[
            (0x10000, b"/x\0"),
            (0x10ff8, &[0, 0, 1, 0, 0, 0, 0, 0]),
            (0x11000, &[2, 0, 0, 0, 0, 0, 0, 0]),
            (0x11ffe, b"ab"),
        ],
        filled: &[(0x10000, b"cd\0"), (0x10ffe, b"ef")],
    };
    for call in [
        Call(59, [0x10000, 0, 0], 0, "100 execve(\"/x\", NULL, NULL) = 0"),
        Call(80, [0x11ffe, 0, 0], -36, "100 chdir(0x11ffe) = -1 ERR_36"),
        Call(80, [0x10ffa, 0, 0], 0, "100 chdir(\"\\001\") = 0"),
        Call(
            20,
            [1, 0x10ff8, 1],
            2,
            "100 writev(1, [{iov_base=\"/x\", iov_len=2}], 1) = 2",
        ),
        Call(
            20,
            [1, 0x10ff8, 1024],
            2,
            "100 writev(1, 0x10ff8, 1024) = 2",
        ),
        Call(
            0,
            [0, 0x10ffe, 4],
            4,
            "100 read(0, \"ef\\002\\000\", 4) = 4",
        ),
        Call(1, [1, 0x10fff, 2], 2, "100 write(1, \"\\000\\002\", 2) = 2"),
    ] {
        let line = line_of(rt.alloc(), &scene, 300, &call)?;
        same(&rt, &line.as_slice(), &call.3.as_bytes());
    }
    Ok(())
}
