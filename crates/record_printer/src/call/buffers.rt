//! Buffers and strings in memory, as strace(1) prints them.

ghost use Rattle.std.specs.Option.{is_some, unwrap_or};
ghost use Rattle.std.specs.Prelude.{◌≡◌, ◌++◌, [], IfOk, OnOk};
ghost use Rattle.record_printer.specs.Arguments.{buffer, or_address, string};

use crate::call::printed::PrintedCall;
use crate::text::numbers::write_address;
use crate::text::quote::{write_quoted, write_shortened};
use mem_views::{End, Views};
use std::alloc::Allocator;
use trace_options::NoMemory;

/// Writes the first bytes of a buffer in quotes, with dots after them where it has more, or its address where one of
/// them is absent.
pub(crate) fn write_buffer<A: Allocator, B: Allocator>(
    text: &mut Vec<u8, A>,
    call: &PrintedCall<'_, B>,
    addr: u64,
    len: u64,
) -> Result<(), NoMemory>
    ensures { OnOk result (text.new.items
        ≡ text.old.items ++ or_address addr (buffer call.now.limit call.now.stop.now.memory addr len)) }
{
    if write_whole(text, call, addr, len)? {
        Ok(())
    } else {
        write_address(text, addr)
    }
}

/// Writes the first bytes of a buffer in quotes, with dots after them where it has more, or nothing where one of them
/// is absent; whether they are all there.
pub(crate) fn write_whole<A: Allocator, B: Allocator>(
    text: &mut Vec<u8, A>,
    call: &PrintedCall<'_, B>,
    addr: u64,
    len: u64,
) -> Result<bool, NoMemory>
    ensures text { OnOk result (text.new.items
        ≡ text.old.items ++ unwrap_or (buffer call.now.limit call.now.stop.now.memory addr len) []) }
    ensures whole { IfOk result (λ whole.
        whole ≡ is_some (buffer call.now.limit call.now.stop.now.memory addr len)) }
{
    let limit = u64::from(call.limit);
    let cut = Views::of(call.stop).bytes(addr, limit.min(len));
    match cut.end() {
        End::Full => {
            write_shortened(text, cut, limit < len)?;
            Ok(true)
        }
        _ => Ok(false),
    }
}

/// Writes the string at an address in quotes, or its first bytes with dots after them where it is longer, or its
/// address where the bytes that have to be examined are not all there.
pub(crate) fn write_string<A: Allocator, B: Allocator>(
    text: &mut Vec<u8, A>,
    call: &PrintedCall<'_, B>,
    addr: u64,
) -> Result<(), NoMemory>
    ensures { OnOk result (text.new.items
        ≡ text.old.items ++ or_address addr (string call.now.limit call.now.stop.now.memory addr)) }
{
    let limit = u64::from(call.limit);
    let views = Views::of(call.stop);
    let cut = views.c_string(addr, limit + 1);
    match cut.end() {
        End::Nul => write_quoted(text, cut),
        End::Limit => write_shortened(text, views.bytes(addr, limit), true),
        _ => write_address(text, addr),
    }
}
