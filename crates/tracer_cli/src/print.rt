//! Printing a text.

ghost use Rattle.tracer_cli.specs.Run.{Writes};

use crate::failure::Failure;
use record_printer::write_bytes;
use std::io::Write;

/// Writes a text on standard output.
pub(crate) fn print<W: Write>(text: &[u8], output: &mut W) -> Result<(), Failure>
    ensures { Writes text.now (W.contents output.old) (W.contents output.new) result }
{
    match write_bytes(text, output) {
        Ok(()) => Ok(()),
        Err(_) => Err(Failure::CannotWrite),
    }
}
