//! What a look shows of a row.

ghost use Rattle.std.specs.Prelude.{◌≡◌, true};
ghost use Rattle.stop_history.specs.Word.{shown};
ghost use Rattle.stop_table.specs.Handle.{is_claimable, shown_of};

use stop_history::{Phase, Word};

/// The state of a row, as a tracer sees it (waitid(2)). Numbers are those of the row's last stop, 0 before any;
/// statuses are raw wait statuses.
#[derive(Clone, Copy, Debug, PartialEq, Eq, Hash)]
pub enum Shown {
    /// Its parent has not created it yet.
    Unborn,
    /// It runs.
    Running,
    /// It is at a stop that nobody has claimed.
    Stopped { number: u32, status: u32 },
    /// A tracer has claimed its stop.
    Claimed { number: u32 },
    /// It has ended, and nobody has claimed its death.
    Dead { number: u32, status: u32 },
    /// It has ended, and a tracer has claimed its death.
    Reaped,
}

/// What the word of a born row shows.
pub(crate) fn show(word: Word) -> Shown
    ensures { result ≡ shown_of (shown true word.number word.phase) }
{
    let number = word.number;
    match word.phase {
        Phase::Fresh => Shown::Running,
        Phase::Resumed(_) => Shown::Running,
        Phase::Active => Shown::Running,
        Phase::Stopped { status } => Shown::Stopped { number, status },
        Phase::Claimed { .. } => Shown::Claimed { number },
        Phase::Dead { status } => Shown::Dead { number, status },
        Phase::Reaped => Shown::Reaped,
    }
}

/// Whether what is shown can be claimed: a stop, and a death where deaths are asked for (waitid(2), `WEXITED`).
pub(crate) fn is_claimable(shown: Shown, deaths: bool) -> bool
    ensures { result ≡ is_claimable deaths shown }
{
    match shown {
        Shown::Stopped { .. } => true,
        Shown::Dead { .. } => deaths,
        Shown::Unborn | Shown::Running | Shown::Claimed { .. } | Shown::Reaped => false,
    }
}
