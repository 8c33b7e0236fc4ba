//! Names by number, as the tables of errors and of signals have them.

ghost use Rattle.std.specs.Prelude.{◌≡◌, map};
ghost use Rattle.std.specs.Option.{option_copied};
ghost use Rattle.trace_options.specs.Names.{name_in, named};

/// The name of a number in a table, or None where no row has the number.
pub(crate) fn name_in(mut table: &[(u16, &'static [u8])], number: u16) -> Option<&'static [u8]>
    ensures { option_copied result ≡ name_in (map named table.entry.now) number }
{
    while let [row, rest @ ..] = table {
        if row.0 == number {
            return Some(row.1);
        }
        table = rest;
    }
    None
}
