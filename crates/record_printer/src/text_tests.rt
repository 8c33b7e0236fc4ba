//! The texts of single stops, each worked out by hand.

use crate::Show;
use crate::call::parts::{CallEnd, CallStart};
use crate::piece::note::Note;
use crate::piece::stop_note::stop_note;
use std::alloc::Global;
use trace_options::{CallSet, NoMemory};
use trace_pages::Memory;
use trace_record::{Stop, StopRecord};

mod arrays;
mod buffers;
mod numbers;
mod quotes;
pub(crate) mod rows;
mod stops;

/// The last page of the address space.
const TOP: u64 = 0xffff_ffff_ffff_f000;

/// The memory at the entry of a call, and the bytes that are stored before its exit.
#[derive(Clone, Copy)]
struct Scene<'a> {
    pages: &'a [u64],
    stores: &'a [(u64, &'a [u8])],
    filled: &'a [(u64, &'a [u8])],
}

/// A call: its number, its first three arguments, its answer, and its line.
#[derive(Clone, Copy)]
struct Call<'a>(u64, [u64; 3], i64, &'a str);

/// A memory with these pages and bytes, or None where one was refused.
fn memory(alloc: Global, scene: &Scene<'_>) -> Option<Memory> {
    let mut memory = Memory::new(alloc);
    for page in scene.pages {
        if *page % 4096 != 0 || memory.map(*page).is_err() {
            return None;
        }
    }
    for (addr, bytes) in scene.stores {
        if memory.store(*addr, bytes).is_err() {
            return None;
        }
    }
    Some(memory)
}

/// The record of a stop of thread 100 at a call, with this memory.
fn stopped(stop: Stop, call: &Call<'_>, memory: Memory) -> StopRecord {
    let Call(number, args, answer, _) = call;
    let mut record = StopRecord {
        tid: 100,
        number: 2,
        stop,
        regs: Default::default(),
        memory,
    };
    record.regs.orig_rax = *number;
    record.regs.rdi = args[0];
    record.regs.rsi = args[1];
    record.regs.rdx = args[2];
    record.regs.rax = answer.cast_unsigned();
    record
}

/// The notes of the two stops of a call, joined to its line.
fn line_of(
    alloc: Global,
    scene: &Scene<'_>,
    limit: u32,
    call: &Call<'_>,
) -> Result<Vec<u8>, NoMemory> {
    let show = Show {
        limit,
        calls: CallSet::all(),
    };
    let mut line = Vec::new(alloc);
    let Some(before) = memory(alloc, scene) else {
        return Ok(line);
    };
    let mut after = before.copy()?;
    for (addr, bytes) in scene.filled {
        let _ = after.store(*addr, bytes);
    }
    if let Note::Enter(start) = stop_note(alloc, &stopped(Stop::Enter, call, before), &show)? {
        if let Note::Exit(end) = stop_note(alloc, &stopped(Stop::Exit, call, after), &show)? {
            write_line(&mut line, &start, &end)?;
        }
    }
    Ok(line)
}

/// Writes the line of a call without its line feed.
fn write_line(line: &mut Vec<u8>, start: &CallStart, end: &CallEnd) -> Result<(), NoMemory> {
    line.extend_from_slice(start.before())?;
    if let Some(address) = start.out() {
        match end.out() {
            Some(bytes) => line.extend_from_slice(bytes)?,
            None => line.extend_from_slice(address)?,
        }
    }
    line.extend_from_slice(start.after())?;
    line.extend_from_slice(end.result())?;
    Ok(())
}
