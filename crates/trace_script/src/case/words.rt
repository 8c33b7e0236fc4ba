//! Numbers and bytes as words of a case file.

ghost use Rattle.std.specs.Prelude.{◌≡◌, ◌+◌, ◌%◌, true, IfOk};
ghost use Rattle.std.specs.List.{list_all};
ghost use Rattle.hex.specs.Hex.{is_hex_digit};
ghost use Rattle.trace_script.specs.CaseLine.{any_number, bytes_of_word, bytes_written, is_byte_word, page_address};
ghost use Rattle.trace_script.specs.RawLine.{if_said};

use text_lines::{LineFault, number};
use trace_pages::PAGE_SIZE;

/// A number of 64 bits.
pub(crate) fn any_number(word: &[u8]) -> Result<u64, LineFault>
    ensures { result ≡ any_number word.now }
{
    number(word).ok_or(LineFault::BadNumber)
}

/// The address of a page: a multiple of its size.
pub(crate) fn page_address(word: &[u8]) -> Result<u64, LineFault>
    ensures page { result ≡ page_address word.now }
    ensures whole { IfOk result (λ page. page % PAGE_SIZE ≡ 0) }
{
    let addr = any_number(word)?;
    if addr % PAGE_SIZE == 0 {
        Ok(addr)
    } else {
        Err(LineFault::BadNumber)
    }
}

/// The word itself, if it is an even number of hexadecimal digits, at least two.
pub(crate) fn byte_word<'a>(word: &'a [u8]) -> Result<&'a [u8], LineFault>
    ensures bytes { if_said (λ w. bytes_written w.now) result ≡ bytes_of_word word.now }
    ensures range { IfOk result (λ w. is_byte_word w.now ≡ true) }
{
    if is_byte_word(word) {
        Ok(word)
    } else {
        Err(LineFault::BadHex)
    }
}

fn is_byte_word(word: &[u8]) -> bool
    ensures { result ≡ is_byte_word word.now }
{
    word.len() >= 2 && word.len() % 2 == 0 && are_hex_digits(word)
}

/// No digit ends the loop early, so that it is compiled to steps of many digits at once.
#[inline(never)]
fn are_hex_digits(word: &[u8]) -> bool
    ensures { result ≡ list_all is_hex_digit word.now }
{
    let mut all = true;
    for c in word {
        all &= is_hex_digit(*c);
    }
    all
}

/// Without branches, since digits and letters come in any order.
fn is_hex_digit(c: u8) -> bool
    ensures { result ≡ is_hex_digit c }
{
    let is_decimal = c.wrapping_sub(b'0') < 10;
    let is_lower = c.wrapping_sub(b'a') < 6;
    let is_upper = c.wrapping_sub(b'A') < 6;
    is_decimal | is_lower | is_upper
}
