//! Arrays of iovecs, as strace(1) prints them.

ghost use Rattle.std.specs.Option.{is_some, unwrap_or};
ghost use Rattle.std.specs.Prelude.{◌≡◌, ◌++◌, [], IfOk, OnOk, true};
ghost use Rattle.std.specs.List.{list_any};
ghost use Rattle.record_printer.specs.Arguments.{array, array_text, entries_text, entry_text, is_array, is_broken};
ghost use Rattle.record_printer.specs.Arguments.{left_after, more_entries, or_address, separator, share};

use crate::call::buffers::write_buffer;
use crate::call::printed::PrintedCall;
use crate::text::numbers::{write_address, write_decimal};
use mem_views::{IOV_MAX, Iovecs, Item, Views};
use std::alloc::Allocator;
use trace_options::NoMemory;

/// Writes the first entries of an array whose bytes go into a call, with dots after them where it has more, or its
/// address where the array cannot be shown.
pub(crate) fn write_array<A: Allocator, B: Allocator>(
    text: &mut Vec<u8, A>,
    call: &PrintedCall<'_, B>,
    addr: u64,
    count: u64,
) -> Result<(), NoMemory>
    ensures { OnOk result (text.new.items
        ≡ text.old.items ++ or_address addr (array call.now.limit call.now.stop.now.memory None addr count)) }
{
    if write_whole_array(text, call, None, addr, count)? {
        Ok(())
    } else {
        write_address(text, addr)
    }
}

/// Writes the first entries of an array, with dots after them where it has more, or nothing where the array cannot be
/// shown; whether it can. Where its bytes came out of a call they share its result in order.
pub(crate) fn write_whole_array<A: Allocator, B: Allocator>(
    text: &mut Vec<u8, A>,
    call: &PrintedCall<'_, B>,
    left: Option<u64>,
    addr: u64,
    count: u64,
) -> Result<bool, NoMemory>
    ensures text { OnOk result (text.new.items
        ≡ text.old.items ++ unwrap_or (array call.now.limit call.now.stop.now.memory left addr count) []) }
    ensures whole { IfOk result (λ whole.
        whole ≡ is_some (array call.now.limit call.now.stop.now.memory left addr count)) }
{
    if !is_array(call, addr, count) {
        return Ok(false);
    }
    write_in_brackets(text, call, left, addr, count)?;
    Ok(true)
}

/// Whether there are no more entries than a call takes, and those that are printed are wholly there.
fn is_array<B: Allocator>(call: &PrintedCall<'_, B>, addr: u64, count: u64) -> bool
    ensures { result ≡ is_array call.now.limit call.now.stop.now.memory addr count }
{
    if count > IOV_MAX {
        return false;
    }
    match Views::of(call.stop).iovecs(addr, u64::from(call.limit).min(count)) {
        Ok(items) => !has_broken(items),
        Err(_) => false,
    }
}

/// Whether an entry is not wholly there.
fn has_broken<B: Allocator>(items: Iovecs<'_, B>) -> bool
    ensures { result ≡ list_any is_broken items.entry }
{
    for item in items {
        if let Item::Broken(_) = item {
            return true;
        }
    }
    false
}

/// Writes an array in brackets.
fn write_in_brackets<A: Allocator, B: Allocator>(
    text: &mut Vec<u8, A>,
    call: &PrintedCall<'_, B>,
    left: Option<u64>,
    addr: u64,
    count: u64,
) -> Result<(), NoMemory>
    requires { is_array call.now.limit call.now.stop.now.memory addr count ≡ true }
    ensures { OnOk result (text.new.items
        ≡ text.old.items ++ array_text call.now.limit call.now.stop.now.memory left addr count) }
{
    let views = Views::of(call.stop);
    let Ok(items) = views.iovecs(addr, u64::from(call.limit).min(count)) else {
        unreachable!()
    };
    text.push(b'[')?;
    write_entries(text, call, left, items)?;
    write_more(text, call.limit, count)?;
    text.push(b']')?;
    Ok(())
}

/// Writes entries, each but the first after a comma, up to one that is not wholly there.
fn write_entries<A: Allocator, B: Allocator>(
    text: &mut Vec<u8, A>,
    call: &PrintedCall<'_, B>,
    mut left: Option<u64>,
    items: Iovecs<'_, B>,
) -> Result<(), NoMemory>
    ensures { OnOk result (text.new.items
        ≡ text.old.items ++ entries_text call.now.limit call.now.stop.now.memory true left items.entry) }
{
    let mut is_first = true;
    for item in items {
        let Item::Iov { base, len } = item else {
            return Ok(());
        };
        write_separator(text, is_first)?;
        write_entry(text, call, base, len, share(left, len))?;
        left = left_after(left, len);
        is_first = false;
    }
    Ok(())
}

/// Writes an entry of which this many bytes are printed at most.
fn write_entry<A: Allocator, B: Allocator>(
    text: &mut Vec<u8, A>,
    call: &PrintedCall<'_, B>,
    base: u64,
    len: u64,
    printed: u64,
) -> Result<(), NoMemory>
    ensures { OnOk result (text.new.items
        ≡ text.old.items ++ entry_text call.now.limit call.now.stop.now.memory base len printed) }
{
    text.extend_from_slice(b"{iov_base=".as_slice())?;
    write_buffer(text, call, base, printed)?;
    text.extend_from_slice(b", iov_len=".as_slice())?;
    write_decimal(text, len)?;
    text.push(b'}')?;
    Ok(())
}

/// Writes dots where there are more entries than are printed.
fn write_more<A: Allocator>(text: &mut Vec<u8, A>, limit: u32, count: u64) -> Result<(), NoMemory>
    ensures { OnOk result (text.new.items ≡ text.old.items ++ more_entries limit count) }
{
    if u64::from(limit) < count {
        write_separator(text, limit == 0)?;
        text.extend_from_slice(b"...".as_slice())?;
    }
    Ok(())
}

/// Writes a comma and a space before an item that is not the first.
pub(crate) fn write_separator<A: Allocator>(
    text: &mut Vec<u8, A>,
    is_first: bool,
) -> Result<(), NoMemory>
    ensures { OnOk result (text.new.items ≡ text.old.items ++ separator is_first) }
{
    if !is_first {
        text.extend_from_slice(b", ".as_slice())?;
    }
    Ok(())
}

/// How many bytes of an entry are printed: all of them, or at most what remains of a result.
fn share(left: Option<u64>, len: u64) -> u64
    ensures { result ≡ share left len }
{
    match left {
        Some(left) => left.min(len),
        None => len,
    }
}

/// What remains of a result for the entries after one.
fn left_after(left: Option<u64>, len: u64) -> Option<u64>
    ensures { result ≡ left_after left len }
{
    match left {
        Some(left) => Some(left.saturating_sub(len)),
        None => None,
    }
}
