//! Writing texts, whole and in parts.

ghost use Rattle.std.specs.Io.KnownBytes.{Appends};
ghost use Rattle.std.specs.Prelude.{IfErr, OnOk};
ghost use Rattle.outcome_text.specs.CutOff.{IsCutOff, text_of_parts};

use record_printer::write_bytes;
use std::io::Write;

/// A text was not written whole: a write failed, or took no byte.
#[derive(Clone, Copy, Debug, PartialEq, Eq)]
pub struct CutOff;

/// Writes a text with as many writes as the writer needs (write(2)). The first write that fails, or that takes no byte,
/// ends it.
pub fn write_part<W: Write>(part: &str, writer: &mut W) -> Result<(), CutOff>
    ensures ok { OnOk result (Appends (W.contents writer.old) (W.contents writer.new) part.now) }
    ensures cut_off { IfErr result (λ _. IsCutOff (W.contents writer.old) (W.contents writer.new) part.now) }
{
    match write_bytes(part.as_bytes(), writer) {
        Ok(()) => Ok(()),
        Err(_) => Err(CutOff),
    }
}

/// Writes parts one after another. The first that is cut off ends it.
pub fn write_parts<W: Write>(parts: &[&str], writer: &mut W) -> Result<(), CutOff>
    ensures ok { OnOk result (Appends (W.contents writer.old) (W.contents writer.new) (text_of_parts parts.now)) }
    ensures cut_off { IfErr result (λ _.
        IsCutOff (W.contents writer.old) (W.contents writer.new) (text_of_parts parts.now)) }
{
    for part in parts {
        write_part(part, writer)?;
    }
    Ok(())
}
