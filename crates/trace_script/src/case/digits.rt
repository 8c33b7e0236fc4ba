//! The values of hexadecimal digits, as the kit's decoder gives them.

ghost use Rattle.hex.specs.Hex.{hex_digit_value, is_hex_digit, pair_value};
ghost use Rattle.std.specs.Prelude.{◌≡◌, ℕ, Ok, Some, true};
ghost use Rattle.trace_script.specs.DigitValues.{AreDigitValues};

use hex::FromHex;

/// How many values a byte has.
const BYTES: usize = 256;

/// The value of each hexadecimal digit, at the place that its byte says. The other places are never looked up. The kit
/// decodes each digit once, and the bytes of a file, which may have millions of digits, are put together from their values.
#[derive(Drop)]
pub(crate) struct DigitValues {
    values: [u8; BYTES],
    ghost known: { AreDigitValues values },
}

impl DigitValues {
    /// The table, as the kit decodes each digit.
    pub(crate) fn new() -> DigitValues {
        let mut values = [0u8; BYTES];
        for i in 0..BYTES {
            values[i] = value_of(i as u8);
        }
        DigitValues { values }
    }

    /// The byte that two digits write.
    #[inline(always)]
    pub(crate) fn byte_of(&self, high: u8, low: u8) -> u8
        requires high { is_hex_digit high ≡ true }
        requires low { is_hex_digit low ≡ true }
        ensures { (i : ℕ) → pair_value high low i ≡ Ok result }
    {
        self.values[usize::from(high)] * 16 + self.values[usize::from(low)]
    }
}

/// The value of a digit: that of the byte that it writes after a 0. Of a byte that is no digit any number serves.
fn value_of(byte: u8) -> u8
    ensures { is_hex_digit byte ≡ true → hex_digit_value byte ≡ Some result }
{
    let digits = [b'0', byte];
    match <[u8; 1]>::from_hex(digits.as_slice()) {
        Ok(value) => value[0],
        Err(_) => 0,
    }
}
