//! Words that have a meaning, in tables.

ghost use Rattle.std.specs.Prelude.{◌≡◌, map};
ghost use Rattle.text_lines.specs.Keywords.{value_beside};

use crate::fault::LineFault;

/// The value beside the first name of a table that is the word, byte for byte. UnknownWord where none is.
pub fn keyword<T: Copy>(table: &[(&str, T)], word: &[u8]) -> Result<T, LineFault>
    ensures { result ≡ value_beside (map (λ row. (row.0.now, row.1)) table.now) word.now }
{
    for (name, value) in table {
        if word == name.as_bytes() {
            return Ok(*value);
        }
    }
    Err(LineFault::UnknownWord)
}
