//! The end of a call: the bytes that came out of it, and its result.

ghost use Rattle.std.specs.Int.{w64, cast_signed};
ghost use Rattle.std.specs.Option.{is_some, unwrap_or};
ghost use Rattle.std.specs.Prelude.{◌≡◌, ◌++◌, ◌<◌, [], IfOk, IfSome, OnOk, int_lt, length, pos, if◌then◌else◌};
ghost use Rattle.record_printer.specs.StopNote.{call_end, out_at};

use crate::call::arguments::{argument_word, write_bytes_out};
use crate::call::by_number::{kinds_of, out_place};
use crate::call::parts::CallEnd;
use crate::call::printed::PrintedCall;
use crate::call::show::Show;
use crate::fold::room::{LINE_ROOM, REST_ROOM};
use crate::text::numbers::write_result;
use std::alloc::Allocator;
use trace_options::NoMemory;
use trace_record::StopRecord;

/// The end of a call: the bytes that came out of it, and its result.
pub(crate) fn call_end<A: Allocator + Copy, B: Allocator>(
    alloc: A,
    stop: &StopRecord<B>,
    show: &Show,
) -> Result<CallEnd<A>, NoMemory>
    ensures { IfOk result (λ end. end ≡ call_end show.now stop.now) }
{
    let number = stop.regs.nr();
    let kinds = kinds_of(number);
    let place = out_place(kinds);
    let room = match place {
        Some(_) => LINE_ROOM,
        None => REST_ROOM,
    };
    let mut text = Vec::with_capacity(alloc, room)?;
    write_result(&mut text, &stop.regs)?;
    let end = text.len();
    let call = PrintedCall {
        stop,
        kinds,
        limit: show.limit,
    };
    let is_whole = write_out_bytes(&mut text, &call, place)?;
    Ok(CallEnd::new(number, text, is_whole.then_some(end)))
}

/// Writes the bytes that came out of a call, or nothing where it failed or they are not all there; whether they are.
fn write_out_bytes<A: Allocator, B: Allocator>(
    text: &mut Vec<u8, A>,
    call: &PrintedCall<'_, B>,
    place: Option<usize>,
) -> Result<bool, NoMemory>
    requires { IfSome place (λ place. place < length call.now.kinds.now) }
    ensures text { OnOk result (text.new.items ≡ text.old.items ++ unwrap_or
        (if int_lt (cast_signed w64 call.now.stop.now.regs.rax) (pos 0) then None
        else out_at call.now.limit call.now.stop.now call.now.kinds.now place) []) }
    ensures whole { IfOk result (λ whole. whole ≡ is_some
        (if int_lt (cast_signed w64 call.now.stop.now.regs.rax) (pos 0) then None
        else out_at call.now.limit call.now.stop.now call.now.kinds.now place)) }
{
    let stop = call.stop;
    if stop.regs.rax.cast_signed() < 0 {
        return Ok(false);
    }
    match place {
        Some(place) => {
            let word = argument_word(stop, place);
            write_bytes_out(text, call, call.kinds[place], word, stop.regs.rax)
        }
        None => Ok(false),
    }
}
