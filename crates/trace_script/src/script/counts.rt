//! Counts as a script keeps them.

ghost use Rattle.std.specs.Prelude.{◌≡◌, ◌≤◌, ◌^◌, IfErr, IfOk};

use trace_options::NoMemory;

/// A count of bytes as it is kept. No file is long enough for a count that 32 bits do not hold; it would be refused
/// because memory ran out.
pub(crate) fn kept_count(count: usize) -> Result<u32, NoMemory>
    ensures kept { IfOk result (λ kept. kept ≡ count) }
    ensures refused { IfErr result (λ e. 2 ^ 32 ≤ count) }
{
    match u32::try_from(count) {
        Ok(kept) => Ok(kept),
        Err(_) => Err(NoMemory),
    }
}
