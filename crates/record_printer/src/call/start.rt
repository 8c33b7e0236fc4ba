//! The start of a call: its line up to the result.

ghost use Rattle.std.specs.Option.{is_some, unwrap_or};
ghost use Rattle.std.specs.Prelude.{◌≡◌, ◌++◌, ◌<◌, [], IfOk, IfSome, OnOk, length};
ghost use Rattle.record_printer.specs.StopNote.{arguments_after, arguments_before, call_start, line_head, out_address};
ghost use Rattle.record_printer.specs.StopNote.{printed_start};

use crate::call::arguments::{argument_word, write_arguments};
use crate::call::by_number::{kinds_of, out_place, write_name};
use crate::call::iovecs::write_separator;
use crate::call::parts::CallStart;
use crate::call::printed::PrintedCall;
use crate::call::show::Show;
use crate::fold::room::LINE_ROOM;
use crate::text::numbers::{write_address, write_decimal};
use std::alloc::Allocator;
use trace_options::NoMemory;
use trace_record::StopRecord;

/// The start of a call: its line up to the result, where it is printed.
pub(crate) fn call_start<A: Allocator + Copy, B: Allocator>(
    alloc: A,
    stop: &StopRecord<B>,
    show: &Show,
) -> Result<CallStart<A>, NoMemory>
    ensures { IfOk result (λ start. start ≡ call_start show.now stop.now) }
{
    let number = stop.regs.nr();
    if show.calls.contains(number) {
        let call = PrintedCall {
            stop,
            kinds: kinds_of(number),
            limit: show.limit,
        };
        printed_start(alloc, &call)
    } else {
        Ok(CallStart::hidden(alloc, number))
    }
}

/// The start of a call that is printed, by the kinds of its arguments.
fn printed_start<A: Allocator + Copy, B: Allocator>(
    alloc: A,
    call: &PrintedCall<'_, B>,
) -> Result<CallStart<A>, NoMemory>
    ensures { IfOk result (λ start.
        start ≡ printed_start call.now.limit call.now.stop.now call.now.kinds.now) }
{
    let stop = call.stop;
    let place = out_place(call.kinds);
    let mut text = Vec::with_capacity(alloc, LINE_ROOM)?;
    write_head(&mut text, stop)?;
    write_before(&mut text, call, place)?;
    let gap = text.len();
    write_after(&mut text, call, place)?;
    text.extend_from_slice(b") = ".as_slice())?;
    let end = text.len();
    let has_address = write_out_address(&mut text, stop, place)?;
    Ok(CallStart::printed(stop.regs.nr(), text, gap, has_address.then_some(end)))
}

/// Writes the thread and the name of its call.
fn write_head<A: Allocator, B: Allocator>(
    text: &mut Vec<u8, A>,
    stop: &StopRecord<B>,
) -> Result<(), NoMemory>
    ensures { OnOk result (text.new.items ≡ text.old.items ++ line_head stop.now) }
{
    write_decimal(text, u64::from(stop.tid))?;
    text.push(b' ')?;
    write_name(text, stop.regs.nr())?;
    text.push(b'(')?;
    Ok(())
}

/// Writes the arguments before the one whose bytes come out, or all of them.
fn write_before<A: Allocator, B: Allocator>(
    text: &mut Vec<u8, A>,
    call: &PrintedCall<'_, B>,
    place: Option<usize>,
) -> Result<(), NoMemory>
    requires { IfSome place (λ place. place < length call.now.kinds.now) }
    ensures { OnOk result (text.new.items
        ≡ text.old.items ++ arguments_before call.now.limit call.now.stop.now call.now.kinds.now place) }
{
    match place {
        Some(place) => {
            write_arguments(text, call, 0, place)?;
            write_separator(text, place == 0)
        }
        None => write_arguments(text, call, 0, call.kinds.len()),
    }
}

/// Writes the arguments after the one whose bytes come out.
fn write_after<A: Allocator, B: Allocator>(
    text: &mut Vec<u8, A>,
    call: &PrintedCall<'_, B>,
    place: Option<usize>,
) -> Result<(), NoMemory>
    requires { IfSome place (λ place. place < length call.now.kinds.now) }
    ensures { OnOk result (text.new.items
        ≡ text.old.items ++ arguments_after call.now.limit call.now.stop.now call.now.kinds.now place) }
{
    match place {
        Some(place) => {
            let next = place + 1;
            write_arguments(text, call, next, call.kinds.len() - next)
        }
        None => Ok(()),
    }
}

/// Writes the address of the argument whose bytes come out, if there is one; whether there is.
fn write_out_address<A: Allocator, B: Allocator>(
    text: &mut Vec<u8, A>,
    stop: &StopRecord<B>,
    place: Option<usize>,
) -> Result<bool, NoMemory>
    ensures text { OnOk result (text.new.items ≡ text.old.items ++ unwrap_or (out_address stop.now place) []) }
    ensures there { IfOk result (λ there. there ≡ is_some (out_address stop.now place)) }
{
    match place {
        Some(place) => {
            write_address(text, argument_word(stop, place))?;
            Ok(true)
        }
        None => Ok(false),
    }
}
