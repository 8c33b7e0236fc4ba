//! The version of the library.

ghost use Rattle.std.specs.Prelude.{◌≡◌, Ok, codes, length};
ghost use Rattle.pukzarn.specs.Call.{IsLong};
ghost use Rattle.pukzarn.specs.Scripts.{with_text};

use crate::call::count;
use c_interface::text_into;

/// Writes the library's version, cut to the buffer and ended by a zero, and answers the length of the whole text.
#[unsafe(no_mangle)]
pub extern "C" fn pukzarn_version(to: &mut [u8]) -> i64
    ensures length { IsLong result (Ok (length (codes "0.1.0"))) }
    ensures text { to.new ≡ with_text (codes "0.1.0") to.old }
{
    count(Ok(text_into("0.1.0".as_bytes(), to)))
}
