//! Numbers as words: without a sign and with one.

ghost use Rattle.std.specs.Prelude.{◌≡◌, ◌+◌, ◌*◌, ◌≤◌, ◌∷◌, [], length, nat_lt, if◌then◌else◌, IfOk};
ghost use Rattle.std.specs.Char.{digit_value};
ghost use Rattle.text_lines.specs.Numbers.{digits_after, integer_of, negated_integer, number_of, numeral, plain_integer};
ghost use Rattle.text_lines.specs.Numbers.{within_u64};
ghost use Rattle.text_lines.specs.Ranges.{number_between};

use crate::fault::LineFault;

/// How many decimal digits fit 64 bits, whatever they are.
const SHORT: usize = 19;

/// How many hexadecimal digits fit 64 bits.
const SHORT_HEX: usize = 16;

/// The entry of `DIGITS` for a byte that is not a digit.
const NO_DIGIT: u8 = 16;

/// The value of each byte as a hexadecimal digit in either case, or NO_DIGIT.
static DIGITS: [u8; 256] = [
    NO_DIGIT, NO_DIGIT, NO_DIGIT, NO_DIGIT, NO_DIGIT, NO_DIGIT, NO_DIGIT, NO_DIGIT, NO_DIGIT,
    NO_DIGIT, NO_DIGIT, NO_DIGIT, NO_DIGIT, NO_DIGIT, NO_DIGIT, NO_DIGIT, NO_DIGIT, NO_DIGIT,
    NO_DIGIT, NO_DIGIT, NO_DIGIT, NO_DIGIT, NO_DIGIT, NO_DIGIT, NO_DIGIT, NO_DIGIT, NO_DIGIT,
    NO_DIGIT, NO_DIGIT, NO_DIGIT, NO_DIGIT, NO_DIGIT, NO_DIGIT, NO_DIGIT, NO_DIGIT, NO_DIGIT,
    NO_DIGIT, NO_DIGIT, NO_DIGIT, NO_DIGIT, NO_DIGIT, NO_DIGIT, NO_DIGIT, NO_DIGIT, NO_DIGIT,
    NO_DIGIT, NO_DIGIT, NO_DIGIT, 0, 1, 2, 3, 4, 5, 6, 7, 8, 9, NO_DIGIT, NO_DIGIT, NO_DIGIT,
    NO_DIGIT, NO_DIGIT, NO_DIGIT, NO_DIGIT, 10, 11, 12, 13, 14, 15, NO_DIGIT, NO_DIGIT, NO_DIGIT,
    NO_DIGIT, NO_DIGIT, NO_DIGIT, NO_DIGIT, NO_DIGIT, NO_DIGIT, NO_DIGIT, NO_DIGIT, NO_DIGIT,
    NO_DIGIT, NO_DIGIT, NO_DIGIT, NO_DIGIT, NO_DIGIT, NO_DIGIT, NO_DIGIT, NO_DIGIT, NO_DIGIT,
    NO_DIGIT, NO_DIGIT, NO_DIGIT, NO_DIGIT, NO_DIGIT, 10, 11, 12, 13, 14, 15, NO_DIGIT, NO_DIGIT,
    NO_DIGIT, NO_DIGIT, NO_DIGIT, NO_DIGIT, NO_DIGIT, NO_DIGIT, NO_DIGIT, NO_DIGIT, NO_DIGIT,
    NO_DIGIT, NO_DIGIT, NO_DIGIT, NO_DIGIT, NO_DIGIT, NO_DIGIT, NO_DIGIT, NO_DIGIT, NO_DIGIT,
    NO_DIGIT, NO_DIGIT, NO_DIGIT, NO_DIGIT, NO_DIGIT, NO_DIGIT, NO_DIGIT, NO_DIGIT, NO_DIGIT,
    NO_DIGIT, NO_DIGIT, NO_DIGIT, NO_DIGIT, NO_DIGIT, NO_DIGIT, NO_DIGIT, NO_DIGIT, NO_DIGIT,
    NO_DIGIT, NO_DIGIT, NO_DIGIT, NO_DIGIT, NO_DIGIT, NO_DIGIT, NO_DIGIT, NO_DIGIT, NO_DIGIT,
    NO_DIGIT, NO_DIGIT, NO_DIGIT, NO_DIGIT, NO_DIGIT, NO_DIGIT, NO_DIGIT, NO_DIGIT, NO_DIGIT,
    NO_DIGIT, NO_DIGIT, NO_DIGIT, NO_DIGIT, NO_DIGIT, NO_DIGIT, NO_DIGIT, NO_DIGIT, NO_DIGIT,
    NO_DIGIT, NO_DIGIT, NO_DIGIT, NO_DIGIT, NO_DIGIT, NO_DIGIT, NO_DIGIT, NO_DIGIT, NO_DIGIT,
    NO_DIGIT, NO_DIGIT, NO_DIGIT, NO_DIGIT, NO_DIGIT, NO_DIGIT, NO_DIGIT, NO_DIGIT, NO_DIGIT,
    NO_DIGIT, NO_DIGIT, NO_DIGIT, NO_DIGIT, NO_DIGIT, NO_DIGIT, NO_DIGIT, NO_DIGIT, NO_DIGIT,
    NO_DIGIT, NO_DIGIT, NO_DIGIT, NO_DIGIT, NO_DIGIT, NO_DIGIT, NO_DIGIT, NO_DIGIT, NO_DIGIT,
    NO_DIGIT, NO_DIGIT, NO_DIGIT, NO_DIGIT, NO_DIGIT, NO_DIGIT, NO_DIGIT, NO_DIGIT, NO_DIGIT,
    NO_DIGIT, NO_DIGIT, NO_DIGIT, NO_DIGIT, NO_DIGIT, NO_DIGIT, NO_DIGIT, NO_DIGIT, NO_DIGIT,
    NO_DIGIT, NO_DIGIT, NO_DIGIT, NO_DIGIT, NO_DIGIT, NO_DIGIT, NO_DIGIT, NO_DIGIT, NO_DIGIT,
    NO_DIGIT, NO_DIGIT, NO_DIGIT, NO_DIGIT, NO_DIGIT, NO_DIGIT, NO_DIGIT, NO_DIGIT, NO_DIGIT,
    NO_DIGIT, NO_DIGIT, NO_DIGIT, NO_DIGIT, NO_DIGIT, NO_DIGIT, NO_DIGIT, NO_DIGIT, NO_DIGIT,
    NO_DIGIT, NO_DIGIT, NO_DIGIT, NO_DIGIT, NO_DIGIT, NO_DIGIT, NO_DIGIT,
];

/// The number that a word writes: decimal digits, or `0x` and hexadecimal digits in either case, below 2^64.
pub fn number(word: &[u8]) -> Option<u64>
    ensures { result ≡ number_of word.now }
{
    match word {
        [b'0', b'x', digits @ ..] => hexadecimal(digits),
        _ => decimal(word),
    }
}

/// The number that a word writes, with its sign: decimal digits, or `-` and decimal digits, from -2^63 to 2^63 - 1. It
/// is never hexadecimal, and has no `+`.
pub fn integer(word: &[u8]) -> Option<i64>
    ensures { result ≡ integer_of word.now }
{
    match word {
        [b'-', digits @ ..] => negated(decimal(digits)?),
        _ => plain(decimal(word)?),
    }
}

fn plain(n: u64) -> Option<i64>
    ensures { result ≡ plain_integer (Some n) }
{
    0i64.checked_add_unsigned(n)
}

fn negated(n: u64) -> Option<i64>
    ensures { result ≡ negated_integer (Some n) }
{
    0i64.checked_sub_unsigned(n)
}

/// The number that a word writes, if it is from `low` to `high`. BadNumber where the word is not a number, or the
/// number is out of range.
pub fn number_between(low: u64, high: u64, word: &[u8]) -> Result<u64, LineFault>
    ensures number { result ≡ number_between low high word.now }
    ensures range { IfOk result (λ n. (low ≤ n) × (n ≤ high)) }
{
    match number(word) {
        Some(n) if low <= n && n <= high => Ok(n),
        _ => Err(LineFault::BadNumber),
    }
}

/// The number that decimal digits write, if there are any and all are digits.
fn decimal(digits: &[u8]) -> Option<u64>
    ensures { result ≡ within_u64 (numeral 10 digits.now) }
{
    if digits.len() <= SHORT {
        short_decimal(digits)
    } else {
        number_in(10, digits)
    }
}

/// The same of few digits. They are too few to overflow, so that no sum is tested: most numbers are short, and reading
/// them takes much of the time of a file.
fn short_decimal(digits: &[u8]) -> Option<u64>
    requires { length digits.now ≤ SHORT }
    ensures { result ≡ within_u64 (numeral 10 digits.now) }
{
    if digits.is_empty() {
        return None;
    }
    let mut n = 0u64;
    for c in digits {
        n = n * 10 + digit(10, *c)?;
    }
    Some(n)
}

/// The number that hexadecimal digits write, if there are any and all are digits.
fn hexadecimal(digits: &[u8]) -> Option<u64>
    ensures { result ≡ within_u64 (numeral 16 digits.now) }
{
    if digits.len() <= SHORT_HEX {
        short_hexadecimal(digits)
    } else {
        number_in(16, digits)
    }
}

/// The same of few digits, which cannot overflow. They are read two at a time, since addresses have many.
fn short_hexadecimal(digits: &[u8]) -> Option<u64>
    requires { length digits.now ≤ SHORT_HEX }
    ensures { result ≡ within_u64 (numeral 16 digits.now) }
{
    if digits.is_empty() {
        return None;
    }
    let mut n = 0u64;
    let mut rest = digits;
    'pairs: while let [high, low, after @ ..] = rest {
        n = n * 256 + two_digits(*high, *low)?;
        rest = after;
    }
    match rest {
        [last] => Some(n * 16 + digit(16, *last)?),
        _ => Some(n),
    }
}

/// The number that two hexadecimal digits write.
fn two_digits(high: u8, low: u8) -> Option<u64>
    ensures { result ≡ digits_after 16 0 (high ∷ low ∷ []) }
{
    let high = DIGITS[usize::from(high)];
    let low = DIGITS[usize::from(low)];
    if high < NO_DIGIT && low < NO_DIGIT {
        Some(u64::from(high) * 16 + u64::from(low))
    } else {
        None
    }
}

/// The number that digits of a base write, if there are any and all are digits.
fn number_in(base: u64, digits: &[u8]) -> Option<u64>
    requires some { 1 ≤ base }
    requires few { base ≤ 16 }
    ensures { result ≡ within_u64 (numeral base digits.now) }
{
    if digits.is_empty() {
        return None;
    }
    let mut n = 0u64;
    for c in digits {
        let digit = digit(base, *c)?;
        n = shifted(base, n, digit)?;
    }
    Some(n)
}

/// The value of a digit of a base.
fn digit(base: u64, c: u8) -> Option<u64>
    requires { base ≤ 16 }
    ensures { result ≡ (if nat_lt (digit_value c) base then Some (digit_value c) else None) }
{
    let value = u64::from(DIGITS[usize::from(c)]);
    if value < base { Some(value) } else { None }
}

/// The number with one more digit after it, if it fits 64 bits.
fn shifted(base: u64, n: u64, digit: u64) -> Option<u64>
    ensures { result ≡ within_u64 (Some (n * base + digit)) }
{
    n.checked_mul(base)?.checked_add(digit)
}
