//! Arguments that are numbers, and results.

use super::{Call, Scene, line_of};
use crate::tests::compare::same;
use std::test::Fail;

#[test]
fn numbers_are_printed_by_their_kinds(rt: HostRuntime) -> Result<(), Fail> {
    let scene = Scene {
        pages: &[0x10000],
        stores: &[(0x10000, b"/x\0")],
        filled: &[],
    };
    for call in [
        Call(3, [0, 0, 0], 0, "100 close(0) = 0"),
        Call(3, [0xffff_ffff, 0, 0], -9, "100 close(-1) = -1 EBADF"),
        Call(3, [0x1_0000_0002, 0, 0], 0, "100 close(2) = 0"),
        Call(3, [0x8000_0000, 0, 0], 0, "100 close(-2147483648) = 0"),
        Call(39, [0, 0, 0], 100, "100 getpid() = 100"),
        Call(56, [0x10900, 0, 0], 101, "100 clone(0x10900) = 101"),
        Call(56, [0, 0, 0], 101, "100 clone(0x0) = 101"),
        Call(57, [0, 0, 0], 101, "100 fork() = 101"),
        Call(83, [0x10000, 0, 0], 0, "100 mkdir(\"/x\", 000) = 0"),
        Call(83, [0x10000, 6, 0], 0, "100 mkdir(\"/x\", 006) = 0"),
        Call(83, [0x10000, 8, 0], 0, "100 mkdir(\"/x\", 010) = 0"),
        Call(83, [0x10000, 493, 0], 0, "100 mkdir(\"/x\", 0755) = 0"),
        Call(83, [0x10000, 65535, 0], 0, "100 mkdir(\"/x\", 0177777) = 0"),
        Call(83, [0x10000, 65536, 0], 0, "100 mkdir(\"/x\", 000) = 0"),
        Call(
            59,
            [0x10000, 0, 0xabc],
            0,
            "100 execve(\"/x\", NULL, 0xabc) = 0",
        ),
        Call(
            0,
            [3, 0, u64::MAX],
            0,
            "100 read(3, \"\", 18446744073709551615) = 0",
        ),
    ] {
        let line = line_of(rt.alloc(), &scene, 32, &call)?;
        same(&rt, &line.as_slice(), &call.3.as_bytes());
    }
    Ok(())
}

#[test]
fn results_are_values_or_errors(rt: HostRuntime) -> Result<(), Fail> {
    let scene = Scene {
        pages: &[],
        stores: &[],
        filled: &[],
    };
    for call in [
        Call(
            39,
            [0, 0, 0],
            i64::MAX,
            "100 getpid() = 9223372036854775807",
        ),
        Call(
            39,
            [0, 0, 0],
            i64::MIN,
            "100 getpid() = -9223372036854775808",
        ),
        Call(39, [0, 0, 0], -1, "100 getpid() = -1 EPERM"),
        Call(39, [0, 0, 0], -39, "100 getpid() = -1 ENOTEMPTY"),
        Call(39, [0, 0, 0], -133, "100 getpid() = -1 ERR_133"),
        Call(39, [0, 0, 0], -4095, "100 getpid() = -1 ERR_4095"),
        Call(39, [0, 0, 0], -4096, "100 getpid() = -4096"),
        Call(
            2,
            [1, 2, 3],
            0,
            "100 syscall_0x2(0x1, 0x2, 0x3, 0x0, 0x0, 0x0) = 0",
        ),
        Call(
            u64::MAX,
            [0, 0, u64::MAX],
            -38,
            "100 syscall_0xffffffffffffffff(0x0, 0x0, 0xffffffffffffffff, 0x0, 0x0, 0x0) = -1 ENOSYS",
        ),
    ] {
        let line = line_of(rt.alloc(), &scene, 32, &call)?;
        same(&rt, &line.as_slice(), &call.3.as_bytes());
    }
    Ok(())
}
