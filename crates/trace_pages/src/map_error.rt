//! Why a page was not mapped.

ghost use Rattle.std.specs.Prelude.{◌≡◌};

use trace_options::NoMemory;

/// Why a page was not mapped.
#[derive(Clone, Copy, Debug, PartialEq, Eq, Hash)]
pub enum MapError {
    /// The page is there already.
    Mapped,
    /// There are 256 pages already.
    TooMany,
    /// There was no memory.
    NoMemory,
}

impl From<NoMemory> for MapError {
    ghost use Rattle.trace_pages.specs.declared.map_error.MapError.TheVariants as error;

    ghost from_gives = { λ _ e. e ≡ error.NoMemory };

    fn from(_error: NoMemory) -> MapError {
        MapError::NoMemory
    }
}
