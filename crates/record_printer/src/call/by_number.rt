//! What is known of a system call by its number (syscalls(2)).

ghost use Rattle.std.specs.Prelude.{◌≡◌, ◌++◌, ◌<◌, IfSome, OnOk, length};
ghost use Rattle.record_printer.specs.Arguments.{is_out};
ghost use Rattle.record_printer.specs.StopNote.{call_name, kinds_of, out_place};

use crate::text::numbers::write_hexadecimal;
use std::alloc::Allocator;
use trace_options::{ArgumentKind, NoMemory, Syscall};

/// The arguments of a call that is not known by name.
const UNKNOWN: [ArgumentKind; 6] = [ArgumentKind::Hexadecimal; 6];

/// Writes the name of a call, or its number where it is not known by name.
pub(crate) fn write_name<A: Allocator>(text: &mut Vec<u8, A>, number: u64) -> Result<(), NoMemory>
    ensures { OnOk result (text.new.items ≡ text.old.items ++ call_name number) }
{
    match Syscall::from_number(number) {
        Some(call) => text.extend_from_slice(call.name)?,
        None => {
            text.extend_from_slice(b"syscall_".as_slice())?;
            write_hexadecimal(text, number)?;
        }
    }
    Ok(())
}

/// How the arguments of a call are printed.
pub(crate) fn kinds_of(number: u64) -> &'static [ArgumentKind]
    ensures { result.now ≡ kinds_of number }
{
    match Syscall::from_number(number) {
        Some(call) => call.arguments,
        None => &UNKNOWN,
    }
}

/// The place of the argument whose bytes come out of a call.
pub(crate) fn out_place(kinds: &[ArgumentKind]) -> Option<usize>
    ensures place { result ≡ out_place kinds.now }
    ensures within { IfSome result (λ place. place < length kinds.now) }
{
    kinds.iter().position(is_out)
}

/// Whether the bytes of an argument come out of the call.
fn is_out(kind: &ArgumentKind) -> bool
    ensures { result ≡ is_out kind.now }
{
    matches!(kind, ArgumentKind::OutBuffer | ArgumentKind::OutIovecs)
}
