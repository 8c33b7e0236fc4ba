//! The word of a row: what its stop cell keeps of it, in 64 bits.
//!
//! Each event of a row is one change of its word (`steps`), and each change is one atomic step on a cell that threads
//! share. What a reader sees in one load is therefore a whole state: phase, births and number belong together.

mod layout;
mod steps;

use crate::phase::Phase;
use std::marker::Model;
pub use steps::{claimed, died, published, restarted, taken_up};

/// A row's phase, the number of its children that are born, below `MOST_ROWS`, and the number of its last stop, 0
/// before any and at most 16,777,215. The opening word alone is fresh. The type keeps these ranges, and those of the
/// phase: a word is written as a literal, and the literal is proved to be in range.
///
/// Its 64 bits (`pack`, `unpack`), with 0 in the fields that a phase does not use:
///
/// | Bits | Field | Used in |
/// |---|---|---|
/// | 0 to 2 | the phase: 0 to 6 in the order of `Phase` | |
/// | 3 to 10 | births | every phase |
/// | 11 to 34 | number | every phase |
/// | 35 to 50 | status: that of a stop without its low byte, that of a death | `Stopped`, `Dead` |
/// | 51 | kind of the restart: 0 `Syscall`, 1 `Cont` | `Resumed` |
/// | 52 to 58 | signal of the restart | `Resumed` |
/// | 59 to 62 | tracer | `Claimed` |
/// | 63 | 0 | |
#[derive(Clone, Copy, Debug, PartialEq, Eq, Hash)]
pub struct Word {
    pub phase: Phase,
    pub births: u8,
    pub number: u32,
}

impl Model for Word {
    ghost use Rattle.stop_history.specs.Word as word;

    ghost Value = { word.Word };

    ghost view = { λ w. record { phase = w.phase; births = w.births; number = w.number } };

    ghost invariant = { λ w. word.IsWord (record { phase = w.phase; births = w.births; number = w.number }) };

    ghost inverse = { λ w. record { phase = w.phase; births = w.births; number = w.number } };
}
