//! Bytes in quotes, as strace(1) prints a string.

ghost use Rattle.std.specs.Prelude.{◌≡◌, ◌++◌, ◌∷◌, [], OnOk, true};
ghost use Rattle.std.specs.List.{flat_map};
ghost use Rattle.record_printer.specs.Quote.{escaped, octal, quoted, shortened};

use mem_views::Cut;
use std::alloc::Allocator;
use trace_options::NoMemory;

/// How many bytes are looked at at once.
const BLOCK: usize = 32;

/// Writes the bytes that are left of a view in quotes, and dots after them where there are more bytes than the view
/// has.
pub(crate) fn write_shortened<A: Allocator, B: Allocator>(
    text: &mut Vec<u8, A>,
    cut: Cut<'_, B>,
    more: bool,
) -> Result<(), NoMemory>
    ensures { OnOk result (text.new.items ≡ text.old.items ++ shortened more cut.entry.rest) }
{
    write_quoted(text, cut)?;
    if more {
        text.extend_from_slice(b"...".as_slice())?;
    }
    Ok(())
}

/// Writes the bytes that are left of a view in quotes.
pub(crate) fn write_quoted<A: Allocator, B: Allocator>(
    text: &mut Vec<u8, A>,
    cut: Cut<'_, B>,
) -> Result<(), NoMemory>
    ensures { OnOk result (text.new.items ≡ text.old.items ++ quoted cut.entry.rest) }
{
    text.push(b'"')?;
    write_cut(text, cut)?;
    text.push(b'"')?;
    Ok(())
}

fn write_cut<A: Allocator, B: Allocator>(
    text: &mut Vec<u8, A>,
    cut: Cut<'_, B>,
) -> Result<(), NoMemory>
    ensures { OnOk result (text.new.items ≡ text.old.items ++ flat_map escaped cut.entry.rest) }
{
    for piece in cut {
        write_piece(text, piece)?;
    }
    Ok(())
}

/// Writes bytes, a block of them after the other.
fn write_piece<A: Allocator>(text: &mut Vec<u8, A>, piece: &[u8]) -> Result<(), NoMemory>
    ensures { OnOk result (text.new.items ≡ text.old.items ++ flat_map escaped piece.now) }
{
    let mut rest = piece;
    while !rest.is_empty() {
        let (block, after) = rest.split_at(rest.len().min(BLOCK));
        write_block(text, block)?;
        rest = after;
    }
    Ok(())
}

/// Writes bytes: as they are, where each stands for itself.
fn write_block<A: Allocator>(text: &mut Vec<u8, A>, block: &[u8]) -> Result<(), NoMemory>
    ensures { OnOk result (text.new.items ≡ text.old.items ++ flat_map escaped block.now) }
{
    if are_plain(block) {
        text.extend_from_slice(block)?;
        return Ok(());
    }
    for byte in block {
        write_escaped(text, *byte)?;
    }
    Ok(())
}

/// Whether each byte stands for itself. It looks at all of them, so that several are looked at at once.
fn are_plain(bytes: &[u8]) -> bool
    ensures { result ≡ true → flat_map escaped bytes.now ≡ bytes.now }
{
    let mut plain = true;
    for byte in bytes {
        plain &= is_plain(*byte);
    }
    plain
}

/// Whether a byte stands for itself.
#[tactic(auto, unfolding(crate::specs::Quote::escaped))]
fn is_plain(byte: u8) -> bool
    ensures { result ≡ true → escaped byte ≡ byte ∷ [] }
{
    matches!(byte, b' ' | b'!' | b'#'..=b'[' | b']'..=b'~')
}

#[tactic(auto, unfolding(crate::specs::Quote::escaped))]
fn write_escaped<A: Allocator>(text: &mut Vec<u8, A>, byte: u8) -> Result<(), NoMemory>
    ensures { OnOk result (text.new.items ≡ text.old.items ++ escaped byte) }
{
    match byte {
        b'\n' => text.extend_from_slice(b"\\n".as_slice())?,
        b'\t' => text.extend_from_slice(b"\\t".as_slice())?,
        0x0b => text.extend_from_slice(b"\\v".as_slice())?,
        0x0c => text.extend_from_slice(b"\\f".as_slice())?,
        b'\r' => text.extend_from_slice(b"\\r".as_slice())?,
        b'"' => text.extend_from_slice(b"\\\"".as_slice())?,
        b'\\' => text.extend_from_slice(b"\\\\".as_slice())?,
        0x20..=0x7e => text.push(byte)?,
        _ => write_octal(text, byte)?,
    }
    Ok(())
}

/// Writes a backslash and the three octal digits of a byte.
fn write_octal<A: Allocator>(text: &mut Vec<u8, A>, byte: u8) -> Result<(), NoMemory>
    ensures { OnOk result (text.new.items ≡ text.old.items ++ octal byte) }
{
    let digits = [
        b'\\',
        b'0' + byte / 64,
        b'0' + byte / 8 % 8,
        b'0' + byte % 8,
    ];
    text.extend_from_slice(&digits)?;
    Ok(())
}
