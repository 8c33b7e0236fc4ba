//! Words that the tests expect. That their statuses are of the right kind is proved where they are written.

use crate::{Phase, Word};

/// The word of a row before any event: 0.
pub(crate) const OPENING: Word = Word {
    phase: Phase::Fresh,
    births: 0,
    number: 0,
};

/// Stopped at number 1, by the first stop of a tracee: 0x0004002800000803.
pub(crate) fn stopped_at_start() -> Word {
    Word {
        phase: Phase::Stopped { status: 0x80057f },
        births: 0,
        number: 1,
    }
}

/// Stopped at number 1, by the birth of a first child.
pub(crate) fn stopped_at_fork() -> Word {
    Word {
        phase: Phase::Stopped { status: 0x01057f },
        births: 1,
        number: 1,
    }
}

/// Dead by exit code 3 after stop 2, with one child created: 0x000018000000100d.
pub(crate) fn dead() -> Word {
    Word {
        phase: Phase::Dead { status: 0x300 },
        births: 1,
        number: 2,
    }
}

/// Dead by exit code 3 without any stop.
pub(crate) fn dead_before_any_stop() -> Word {
    Word {
        phase: Phase::Dead { status: 0x300 },
        births: 0,
        number: 0,
    }
}
