//! The texts of numbers: arguments of a system call, its result and errors (strace(1)).

ghost use Rattle.std.specs.Prelude.{◌≡◌, ◌++◌, OnOk, decimal, false};
ghost use Rattle.std.specs.Fmt.{digits, signed_decimal};
ghost use Rattle.std.specs.Int.{w64, cast_signed};
ghost use Rattle.record_printer.specs.Numbers.{address_text, error_text, hexadecimal, int_text, mode_by, mode_text};
ghost use Rattle.record_printer.specs.Numbers.{result_text};

use itoa::Buffer;
use std::alloc::Allocator;
use std::io::Write;
use trace_options::{NoMemory, error_name};
use trace_regs::{Outcome, Regs};

/// Writes a number in decimal.
pub(crate) fn write_decimal<A: Allocator>(
    text: &mut Vec<u8, A>,
    number: u64,
) -> Result<(), NoMemory>
    ensures { OnOk result (text.new.items ≡ text.old.items ++ decimal number) }
{
    let mut buffer = Buffer::new();
    text.extend_from_slice(buffer.format(number).as_bytes())?;
    Ok(())
}

/// Writes a signed number in decimal.
fn write_signed<A: Allocator>(text: &mut Vec<u8, A>, number: i64) -> Result<(), NoMemory>
    ensures { OnOk result (text.new.items ≡ text.old.items ++ signed_decimal number) }
{
    let mut buffer = Buffer::new();
    text.extend_from_slice(buffer.format(number).as_bytes())?;
    Ok(())
}

/// Writes the low 32 bits of a register as a C `int`, in signed decimal.
pub(crate) fn write_int<A: Allocator>(text: &mut Vec<u8, A>, word: u64) -> Result<(), NoMemory>
    ensures { OnOk result (text.new.items ≡ text.old.items ++ int_text word) }
{
    let low = (word % (1 << 32)) as u32;
    let mut buffer = Buffer::new();
    text.extend_from_slice(buffer.format(low.cast_signed()).as_bytes())?;
    Ok(())
}

/// Writes a number in hexadecimal after `0x`, in lower case and without leading zeros.
pub(crate) fn write_hexadecimal<A: Allocator>(
    text: &mut Vec<u8, A>,
    word: u64,
) -> Result<(), NoMemory>
    ensures { OnOk result (text.new.items ≡ text.old.items ++ hexadecimal word) }
{
    // The sixteen digits come after room for `0x`, which then takes the place of the last two leading zeros.
    let mut digits = [0; 18];
    hex::encode_to_slice(word.to_be_bytes(), &mut digits[2..]).unwrap();
    // Each digit has four bits. The number 0 has one digit, as 1 has.
    let start = (word.max(1).leading_zeros() / 4) as usize;
    digits[start] = b'0';
    digits[start + 1] = b'x';
    text.extend_from_slice(&digits[start..])?;
    Ok(())
}

/// Writes an address: `NULL`, or in hexadecimal.
pub(crate) fn write_address<A: Allocator>(text: &mut Vec<u8, A>, word: u64) -> Result<(), NoMemory>
    ensures { OnOk result (text.new.items ≡ text.old.items ++ address_text word) }
{
    if word == 0 {
        text.extend_from_slice(b"NULL".as_slice())?;
        Ok(())
    } else {
        write_hexadecimal(text, word)
    }
}

/// Writes the low 16 bits of a register as the permissions of a file (`mode_t`), in octal.
pub(crate) fn write_mode<A: Allocator>(text: &mut Vec<u8, A>, word: u64) -> Result<(), NoMemory>
    ensures { OnOk result (text.new.items ≡ text.old.items ++ mode_text word) }
{
    let mode = word % (1 << 16);
    let zeros = if mode < 8 {
        b"00".as_slice()
    } else {
        b"0".as_slice()
    };
    text.extend_from_slice(zeros)?;
    write_octal_digits(text, mode)
}

/// Writes a number in octal, without leading zeros. A vector refuses a write only where memory runs out.
fn write_octal_digits<A: Allocator>(text: &mut Vec<u8, A>, number: u64) -> Result<(), NoMemory>
    ensures { OnOk result (text.new.items ≡ text.old.items ++ digits 8 false number) }
{
    match write!(text, "{number:o}") {
        Ok(()) => Ok(()),
        Err(_) => Err(NoMemory),
    }
}

/// Writes an error by its name, or by its number.
fn write_error<A: Allocator>(text: &mut Vec<u8, A>, number: u16) -> Result<(), NoMemory>
    ensures { OnOk result (text.new.items ≡ text.old.items ++ error_text number) }
{
    match error_name(number) {
        Some(name) => text.extend_from_slice(name)?,
        None => {
            text.extend_from_slice(b"ERR_".as_slice())?;
            write_decimal(text, u64::from(number))?;
        }
    }
    Ok(())
}

/// Writes the result of a system call: -1 and the error, or the value.
pub(crate) fn write_result<A: Allocator>(text: &mut Vec<u8, A>, regs: &Regs) -> Result<(), NoMemory>
    ensures { OnOk result (text.new.items ≡ text.old.items ++ result_text (cast_signed w64 regs.now.rax)) }
{
    match regs.result() {
        Outcome::Errno(number) => {
            text.extend_from_slice(b"-1 ".as_slice())?;
            write_error(text, number)
        }
        Outcome::Value(value) => write_signed(text, value),
    }
}
