//! The text of a trace, and writing it. Its modules write numbers, bytes in quotes, signals and deaths.

ghost use Rattle.std.specs.Io.KnownBytes.{Appends};
ghost use Rattle.std.specs.Prelude.{◌≡◌, ◌<◌, IfErr, OnOk, length, take};

pub(crate) mod death;
pub(crate) mod numbers;
pub(crate) mod quote;
pub(crate) mod signal;

use std::alloc::{Allocator, Global};
use std::io::Write;
use std::marker::Model;

/// The text of a trace: the lines of each row, in the roster's order (strace(1)).
#[derive(Drop)]
pub struct Text<A: Allocator = Global> {
    bytes: Vec<u8, A>,
}

impl<A: Allocator> Model for Text<A> {
    ghost use Rattle.std.specs.Prelude.{ℕ, List};

    ghost Value = { List ℕ };

    ghost view = { λ t. t.bytes.items };
}

impl<A: Allocator> Text<A> {
    /// A text of these bytes.
    pub(crate) fn new(bytes: Vec<u8, A>) -> Text<A>
        ensures { result ≡ bytes.items }
    {
        Text { bytes }
    }

    /// The bytes of the text. Each line ends with a line feed.
    pub fn as_bytes(&self) -> &[u8]
        ensures { result.now ≡ self.now }
    {
        self.bytes.as_slice()
    }
}

/// Bytes were not written whole: the writer failed, or took no byte.
#[derive(Clone, Copy, Debug, PartialEq, Eq, Hash)]
pub struct WriteFault {
    /// How many of the first bytes were written.
    pub written: u64,
}

/// Writes a text, as `write_bytes` writes its bytes.
pub fn write_text<A: Allocator, W: Write>(text: &Text<A>, writer: &mut W) -> Result<(), WriteFault>
    ensures ok { OnOk result (Appends (W.contents writer.old) (W.contents writer.new) text.now) }
    ensures within { IfErr result (λ fault. fault.written < length text.now) }
    ensures fault { IfErr result (λ fault.
        Appends (W.contents writer.old) (W.contents writer.new) (take fault.written text.now)) }
{
    write_bytes(text.as_bytes(), writer)
}

/// Writes bytes with as many writes as the writer needs (write(2)). The first write that fails, or that takes no byte,
/// ends it; no write is tried again.
pub fn write_bytes<W: Write>(bytes: &[u8], writer: &mut W) -> Result<(), WriteFault>
    ensures ok { OnOk result (Appends (W.contents writer.old) (W.contents writer.new) bytes.now) }
    ensures within { IfErr result (λ fault. fault.written < length bytes.now) }
    ensures fault { IfErr result (λ fault.
        Appends (W.contents writer.old) (W.contents writer.new) (take fault.written bytes.now)) }
{
    let mut written = 0;
    while written < bytes.len() {
        match writer.write(&bytes[written..]) {
            Ok(0) | Err(_) => {
                return Err(WriteFault {
                    written: written as u64,
                });
            }
            Ok(count) => written += count,
        }
    }
    Ok(())
}
