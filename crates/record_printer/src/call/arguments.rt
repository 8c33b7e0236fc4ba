//! The arguments of a system call, as strace(1) prints them.

ghost use Rattle.std.specs.Option.{is_some, unwrap_or};
ghost use Rattle.std.specs.Prelude.{◌≡◌, ◌++◌, ◌+◌, ◌≤◌, [], IfOk, OnOk, length};
ghost use Rattle.record_printer.specs.Arguments.{argument_at, argument_text, arguments_text, bytes_out};
ghost use Rattle.record_printer.specs.StopNote.{argument_word};

use crate::call::buffers::{write_buffer, write_string, write_whole};
use crate::call::iovecs::{write_array, write_separator, write_whole_array};
use crate::call::printed::PrintedCall;
use crate::text::numbers::{
    write_address, write_decimal, write_hexadecimal, write_int, write_mode,
};
use std::alloc::Allocator;
use trace_options::{ArgumentKind, NoMemory};
use trace_record::StopRecord;

/// Writes `count` arguments from the one at `start` on, each but the first argument of the call after a comma.
pub(crate) fn write_arguments<A: Allocator, B: Allocator>(
    text: &mut Vec<u8, A>,
    call: &PrintedCall<'_, B>,
    start: usize,
    count: usize,
) -> Result<(), NoMemory>
    requires { start + count ≤ length call.now.kinds.now }
    ensures { OnOk result (text.new.items
        ≡ text.old.items ++ arguments_text call.now.limit call.now.stop.now call.now.kinds.now start count) }
{
    for index in start..start + count {
        write_argument_at(text, call, index)?;
    }
    Ok(())
}

/// Writes the argument at an index, from 0.
fn write_argument_at<A: Allocator, B: Allocator>(
    text: &mut Vec<u8, A>,
    call: &PrintedCall<'_, B>,
    index: usize,
) -> Result<(), NoMemory>
    requires { index + 1 ≤ length call.now.kinds.now }
    ensures { OnOk result (text.new.items
        ≡ text.old.items ++ argument_at call.now.limit call.now.stop.now call.now.kinds.now index) }
{
    write_separator(text, index == 0)?;
    write_argument(
        text,
        call,
        call.kinds[index],
        argument_word(call.stop, index),
    )
}

/// The register of an argument.
pub(crate) fn argument_word<B: Allocator>(stop: &StopRecord<B>, index: usize) -> u64
    ensures { result ≡ argument_word stop.now index }
{
    match stop.regs.args().get(index) {
        Some(word) => *word,
        None => 0,
    }
}

/// Writes the argument in a register by its kind.
fn write_argument<A: Allocator, B: Allocator>(
    text: &mut Vec<u8, A>,
    call: &PrintedCall<'_, B>,
    kind: ArgumentKind,
    word: u64,
) -> Result<(), NoMemory>
    ensures { OnOk result (text.new.items
        ≡ text.old.items ++ argument_text call.now.limit call.now.stop.now kind word) }
{
    let stop = call.stop;
    match kind {
        ArgumentKind::Int => write_int(text, word),
        ArgumentKind::Unsigned => write_decimal(text, word),
        ArgumentKind::Hexadecimal => write_hexadecimal(text, word),
        ArgumentKind::Mode => write_mode(text, word),
        ArgumentKind::CString => write_string(text, call, word),
        ArgumentKind::InBuffer => write_buffer(text, call, word, stop.regs.rdx),
        ArgumentKind::InIovecs => write_array(text, call, word, stop.regs.rdx),
        ArgumentKind::Address | ArgumentKind::OutBuffer | ArgumentKind::OutIovecs => {
            write_address(text, word)
        }
    }
}

/// Writes the bytes that came out of a call that answered `count`, or nothing where they are not all there; whether
/// they are.
pub(crate) fn write_bytes_out<A: Allocator, B: Allocator>(
    text: &mut Vec<u8, A>,
    call: &PrintedCall<'_, B>,
    kind: ArgumentKind,
    word: u64,
    count: u64,
) -> Result<bool, NoMemory>
    ensures text { OnOk result (text.new.items
        ≡ text.old.items ++ unwrap_or (bytes_out call.now.limit call.now.stop.now kind word count) []) }
    ensures whole { IfOk result (λ whole.
        whole ≡ is_some (bytes_out call.now.limit call.now.stop.now kind word count)) }
{
    let stop = call.stop;
    match kind {
        ArgumentKind::OutBuffer => write_whole(text, call, word, count),
        ArgumentKind::OutIovecs => {
            write_whole_array(text, call, Some(count), word, stop.regs.rdx)
        }
        _ => Ok(false),
    }
}
