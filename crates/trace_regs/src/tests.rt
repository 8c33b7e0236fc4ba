use super::*;

/// Registers of which each is its place in `user_regs_struct`, counted from 1.
const COUNTED: Regs = Regs {
    r15: 1,
    r14: 2,
    r13: 3,
    r12: 4,
    rbp: 5,
    rbx: 6,
    r11: 7,
    r10: 8,
    r9: 9,
    r8: 10,
    rax: 11,
    rcx: 12,
    rdx: 13,
    rsi: 14,
    rdi: 15,
    orig_rax: 16,
    rip: 17,
    cs: 18,
    eflags: 19,
    rsp: 20,
    ss: 21,
    fs_base: 22,
    gs_base: 23,
    ds: 24,
    es: 25,
    fs: 26,
    gs: 27,
};

#[test]
fn a_system_call_is_in_its_registers(rt: HostRuntime) {
    assert_eq!(rt; COUNTED.nr(), 16);
    assert_eq!(rt; COUNTED.args(), [15, 14, 13, 8, 10, 9]);
}

#[test]
fn the_last_4095_numbers_are_errors(rt: HostRuntime) {
    for (rax, outcome) in [
        (0, Outcome::Value(0)),
        (7, Outcome::Value(7)),
        (0x7fff_ffff_ffff_ffff, Outcome::Value(i64::MAX)),
        (0x8000_0000_0000_0000, Outcome::Value(i64::MIN)),
        (u64::MAX - 4095, Outcome::Value(-4096)),
        (u64::MAX - 4094, Outcome::Errno(4095)),
        (u64::MAX - 1, Outcome::Errno(2)),
        (u64::MAX, Outcome::Errno(1)),
    ] {
        let regs = Regs { rax, ..COUNTED };
        assert_eq!(rt; regs.result(), outcome, "{rax:#x}");
    }
}

#[test]
fn the_bytes_are_those_of_user_regs_struct(rt: HostRuntime) {
    let bytes = COUNTED.to_bytes();
    for (at, place) in [(0, 1), (80, 11), (120, 16), (128, 17), (152, 20), (208, 27)] {
        assert_eq!(rt; bytes[at], place, "{at}");
        assert_eq!(rt; bytes[at + 1], 0, "{at}");
    }
    let wide = Regs {
        orig_rax: 0x0807_0605_0403_0201,
        ..COUNTED
    };
    let bytes = wide.to_bytes();
    assert_eq!(rt; &bytes[120..128], [1, 2, 3, 4, 5, 6, 7, 8].as_slice());
}

#[test]
fn the_registers_are_read_from_their_bytes(rt: HostRuntime) {
    let mut bytes = [0; 216];
    bytes[120] = 0x3c;
    bytes[128] = 0x10;
    bytes[129] = 0x40;
    bytes[159] = 0x7f;
    let told = Regs {
        orig_rax: 0x3c,
        rip: 0x4010,
        rsp: 0x7f00_0000_0000_0000,
        ..Regs::default()
    };
    assert_eq!(rt; Regs::from_bytes(&bytes), told);
    assert_eq!(rt; Regs::from_bytes(&COUNTED.to_bytes()), COUNTED);
}
