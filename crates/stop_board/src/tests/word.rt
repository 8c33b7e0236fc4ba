//! The packed word, by values worked out by hand from its table of bits.

use crate::tests::compare::same;
use crate::tests::expected_words::{OPENING, dead, stopped_at_start};
use crate::{Phase, Word};
use std::test::Fail;
use trace_record::{Kind, Resume};

/// Stop 1, claimed by tracer 2.
const CLAIMED: Word = Word {
    phase: Phase::Claimed { tracer: 2 },
    births: 0,
    number: 1,
};

/// Resumed by `PTRACE_CONT` with signal 15 from stop 4.
const RESUMED: Word = Word {
    phase: Phase::Resumed(Resume {
        kind: Kind::Cont,
        signal: 15,
    }),
    births: 0,
    number: 4,
};

/// The word with every field of its state at the greatest value.
const GREATEST: Word = Word {
    phase: Phase::Claimed { tracer: 15 },
    births: 255,
    number: 16_777_215,
};

/// A row that runs, which has made a stop at the birth of each of this many children and none besides.
fn after_births(births: u8) -> Word {
    Word {
        phase: Phase::Active,
        births,
        number: u32::from(births),
    }
}

#[test]
fn a_word_has_the_bits_of_its_table(rt: HostRuntime) -> Result<(), Fail> {
    let table = [
        (stopped_at_start(), 0x0004002800000803u64),
        (CLAIMED, 0x1000000000000804),
        (RESUMED, 0x00f8000000002001),
        (dead(), 0x000018000000100d),
        (GREATEST, 0x78000007fffffffc),
        (after_births(63), 0x000000000001f9fa),
        (after_births(64), 0x0000000000020202),
        (after_births(255), 0x000000000007fffa),
    ];
    for (word, raw) in table {
        same(&rt, &word.pack(), &raw);
        same(&rt, &Word::unpack(raw), &Some(word));
    }
    Ok(())
}

#[test]
fn the_bits_of_a_word_are_taken_apart(rt: HostRuntime) -> Result<(), Fail> {
    for word in [OPENING, CLAIMED, RESUMED, GREATEST] {
        same(&rt, &Word::unpack_known(word.pack()), &word);
    }
    Ok(())
}

#[test]
fn the_opening_word_is_zero(rt: HostRuntime) -> Result<(), Fail> {
    same(&rt, &OPENING.pack(), &0);
    same(&rt, &Word::unpack(0), &Some(OPENING));
    Ok(())
}

#[test]
fn bits_of_no_word_are_refused(rt: HostRuntime) -> Result<(), Fail> {
    let table = [
        // State 7.
        7u64,
        // Fresh with a birth, and with a number.
        0x8,
        0x800,
        // Claimed with a status.
        0x0004002800000804,
        // Active and Reaped with bit 63 set.
        0x8000000000000002,
        0x8000000000000006,
        // Resumed with signal 65.
        0x0410000000000001,
        // Active with a tracer, and Stopped by SIGTRAP (5) with the kind that is Resumed's.
        0x0800000000000002,
        0x0008002800000803,
        // Stopped by signal 0, by signal 65, and by event 8.
        0x0000000000000003,
        0x0000020800000003,
        0x0000402800000003,
        // Dead by a raw value of a stop (0x057f), and by signal 65.
        0x00002bf800000005,
        0x0000020800000005,
    ];
    for raw in table {
        same(&rt, &Word::unpack(raw), &None);
    }
    Ok(())
}
