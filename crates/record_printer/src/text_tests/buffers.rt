//! Arguments that show memory: strings and buffers.

use super::{Call, Scene, TOP, line_of};
use crate::tests::compare::same;
use std::test::Fail;

/// Strings before an absent page, at the last page, and at page 0, which a string that ends with the address space
/// does not go on at.
#[test]
fn a_path_is_printed_where_it_is_all_there(rt: HostRuntime) -> Result<(), Fail> {
    let scene = Scene {
        pages: &[0x10000, TOP, 0],
        stores: &[
            (0x10000, b"ab\0"),
            (0x10ffe, b"ab"),
            (u64::MAX - 1, b"yz"),
            (0, b"!\0"),
        ],
        filled: &[],
    };
    for (limit, call) in [
        (
            32,
            Call(80, [0x10000, 0, 0], -2, "100 chdir(\"ab\") = -1 ENOENT"),
        ),
        (3, Call(80, [0x10000, 0, 0], 0, "100 chdir(\"ab\") = 0")),
        (2, Call(80, [0x10000, 0, 0], 0, "100 chdir(\"ab\") = 0")),
        (1, Call(80, [0x10000, 0, 0], 0, "100 chdir(\"a\"...) = 0")),
        (0, Call(80, [0x10000, 0, 0], 0, "100 chdir(\"\"...) = 0")),
        (0, Call(80, [0x10002, 0, 0], 0, "100 chdir(\"\") = 0")),
        (0, Call(80, [0x50000, 0, 0], 0, "100 chdir(0x50000) = 0")),
        (32, Call(80, [0x10002, 0, 0], 0, "100 chdir(\"\") = 0")),
        (1, Call(80, [0x10ffe, 0, 0], 0, "100 chdir(\"a\"...) = 0")),
        (2, Call(80, [0x10ffe, 0, 0], 0, "100 chdir(0x10ffe) = 0")),
        (3, Call(80, [0x10ffe, 0, 0], 0, "100 chdir(0x10ffe) = 0")),
        (
            32,
            Call(
                80,
                [u64::MAX - 1, 0, 0],
                0,
                "100 chdir(0xfffffffffffffffe) = 0",
            ),
        ),
        (
            1,
            Call(80, [u64::MAX - 1, 0, 0], 0, "100 chdir(\"y\"...) = 0"),
        ),
        (32, Call(80, [0, 0, 0], 0, "100 chdir(\"!\") = 0")),
        (
            32,
            Call(
                82,
                [0x10000, 0x50000, 0],
                0,
                "100 rename(\"ab\", 0x50000) = 0",
            ),
        ),
        (32, Call(87, [0x10002, 0, 0], 0, "100 unlink(\"\") = 0")),
        (32, Call(84, [0x10000, 0, 0], 0, "100 rmdir(\"ab\") = 0")),
    ] {
        let line = line_of(rt.alloc(), &scene, limit, &call)?;
        same(&rt, &line.as_slice(), &call.3.as_bytes());
    }
    Ok(())
}

#[test]
fn an_absent_path_at_address_0_is_null(rt: HostRuntime) -> Result<(), Fail> {
    let scene = Scene {
        pages: &[],
        stores: &[],
        filled: &[],
    };
    for call in [
        Call(80, [0, 0, 0], -14, "100 chdir(NULL) = -1 EFAULT"),
        Call(1, [1, 0, 1], -14, "100 write(1, NULL, 1) = -1 EFAULT"),
        Call(1, [1, 0, 0], 0, "100 write(1, \"\", 0) = 0"),
        Call(0, [0, 0, 1], -14, "100 read(0, NULL, 1) = -1 EFAULT"),
    ] {
        let line = line_of(rt.alloc(), &scene, 32, &call)?;
        same(&rt, &line.as_slice(), &call.3.as_bytes());
    }
    Ok(())
}

#[test]
fn a_buffer_is_printed_where_its_first_bytes_are_there(rt: HostRuntime) -> Result<(), Fail> {
    let scene = Scene {
        pages: &[0x10000],
        stores: &[(0x10000, b"hi\n"), (0x10ffe, b"ab")],
        filled: &[],
    };
    for (limit, call) in [
        (
            32,
            Call(1, [1, 0x10000, 3], 3, "100 write(1, \"hi\\n\", 3) = 3"),
        ),
        (
            3,
            Call(1, [1, 0x10000, 3], 3, "100 write(1, \"hi\\n\", 3) = 3"),
        ),
        (
            2,
            Call(1, [1, 0x10000, 3], 3, "100 write(1, \"hi\"..., 3) = 3"),
        ),
        (
            0,
            Call(1, [1, 0x10000, 3], 3, "100 write(1, \"\"..., 3) = 3"),
        ),
        (0, Call(1, [1, 0x10000, 0], 0, "100 write(1, \"\", 0) = 0")),
        (
            2,
            Call(1, [1, 0x10ffe, 3], 3, "100 write(1, \"ab\"..., 3) = 3"),
        ),
        (
            3,
            Call(1, [1, 0x10ffe, 3], 3, "100 write(1, 0x10ffe, 3) = 3"),
        ),
        (32, Call(1, [1, 0x50000, 0], 0, "100 write(1, \"\", 0) = 0")),
        (
            0,
            Call(1, [1, 0x50000, 9], 9, "100 write(1, \"\"..., 9) = 9"),
        ),
        (
            32,
            Call(
                1,
                [1, u64::MAX, 5],
                5,
                "100 write(1, 0xffffffffffffffff, 5) = 5",
            ),
        ),
        (
            32,
            Call(
                1,
                [1, 0x10fff, u64::MAX],
                0,
                "100 write(1, 0x10fff, 18446744073709551615) = 0",
            ),
        ),
    ] {
        let line = line_of(rt.alloc(), &scene, limit, &call)?;
        same(&rt, &line.as_slice(), &call.3.as_bytes());
    }
    Ok(())
}

/// The bytes that come out are those at the exit, as many as the result says.
#[test]
fn a_buffer_that_comes_out_is_that_of_the_exit(rt: HostRuntime) -> Result<(), Fail> {
    let scene = Scene {
        pages: &[0x10000],
        stores: &[(0x10000, b"abc")],
        filled: &[(0x10000, b"hi\t\n\xff")],
    };
    for (limit, call) in [
        (
            32,
            Call(
                0,
                [0, 0x10000, 16],
                5,
                "100 read(0, \"hi\\t\\n\\377\", 16) = 5",
            ),
        ),
        (
            5,
            Call(
                0,
                [0, 0x10000, 16],
                5,
                "100 read(0, \"hi\\t\\n\\377\", 16) = 5",
            ),
        ),
        (
            4,
            Call(
                0,
                [0, 0x10000, 16],
                5,
                "100 read(0, \"hi\\t\\n\"..., 16) = 5",
            ),
        ),
        (
            32,
            Call(0, [0, 0x10000, 16], 0, "100 read(0, \"\", 16) = 0"),
        ),
        (
            32,
            Call(0, [0, 0x10000, 1], 2, "100 read(0, \"hi\", 1) = 2"),
        ),
        (
            32,
            Call(
                0,
                [0, 0x10000, 16],
                -11,
                "100 read(0, 0x10000, 16) = -1 EAGAIN",
            ),
        ),
        (
            32,
            Call(
                0,
                [0, 0x10000, 16],
                -4096,
                "100 read(0, 0x10000, 16) = -4096",
            ),
        ),
        (
            32,
            Call(0, [0, 0x10fff, 16], 2, "100 read(0, 0x10fff, 16) = 2"),
        ),
        (
            1,
            Call(0, [0, 0x10fff, 16], 2, "100 read(0, \"\\000\"..., 16) = 2"),
        ),
    ] {
        let line = line_of(rt.alloc(), &scene, limit, &call)?;
        same(&rt, &line.as_slice(), &call.3.as_bytes());
    }
    Ok(())
}
