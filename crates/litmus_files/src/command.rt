//! Commands and conditions of litmus files, with the rows of a roster in place of thread ids.

ghost use Rattle.std.specs.Prelude.{◌≡◌, ◌<◌, ◌^◌, length, slice_index_or, None};
ghost use Rattle.litmus_files.specs.LitmusCondition.{condition_asked};
ghost use Rattle.litmus_files.specs.LitmusDraft.{names_kept};
ghost use Rattle.litmus_files.specs.LitmusFile.{condition_of, is_printed_as, row_named, thread_command};
ghost use Rattle.litmus_files.specs.LitmusFile.{thread_printed_as, wanted_of, wanted_row, which_of};

use crate::condition::LitmusCondition;
use crate::line::{Aim, LitmusCommand, LitmusReply};
use crate::required::Condition;
use itoa::Buffer;
use replay_files::{GUESSES, row_of};
use std::alloc::Allocator;
use stop_board::Roster;
use stop_program::{ThreadCommand, WantedReply, Which};
use trace_script::Cause;

/// A line's command. Its `leave_to` is 0 until its place in the thread is known.
pub(crate) fn thread_command<A: Allocator>(
    rows: &Roster<A>,
    guesses: &mut [u32; GUESSES],
    command: LitmusCommand,
) -> Result<ThreadCommand, Cause>
    ensures { result ≡ thread_command rows.now command }
{
    let which = which_of(rows, guesses, command.aim)?;
    let wanted = wanted_of(rows, guesses, command.reply)?;
    Ok(ThreadCommand {
        which,
        call: command.call,
        waits: command.waits,
        wanted,
        leave_to: 0,
    })
}

/// The row that a command is about.
fn which_of<A: Allocator>(
    rows: &Roster<A>,
    guesses: &mut [u32; GUESSES],
    aim: Aim,
) -> Result<Which, Cause>
    ensures { result ≡ which_of rows.now aim }
{
    match aim {
        Aim::Tid(tid) => Ok(Which::Row(row_named(rows, guesses, tid)?)),
        Aim::Any => Ok(Which::Any),
        Aim::Group(pgid) => Ok(Which::Group(pgid)),
        Aim::It => Ok(Which::Last),
    }
}

/// The reply that a command needs.
fn wanted_of<A: Allocator>(
    rows: &Roster<A>,
    guesses: &mut [u32; GUESSES],
    reply: Option<LitmusReply>,
) -> Result<Option<WantedReply>, Cause>
    ensures { result ≡ wanted_of rows.now reply }
{
    let Some(reply) = reply else {
        return Ok(None);
    };
    let row = wanted_row(rows, guesses, reply.tid)?;
    Ok(Some(WantedReply {
        row,
        answer: reply.answer,
    }))
}

/// The row that a reply is about, if it names one.
fn wanted_row<A: Allocator>(
    rows: &Roster<A>,
    guesses: &mut [u32; GUESSES],
    tid: Option<u32>,
) -> Result<Option<u32>, Cause>
    ensures { result ≡ wanted_row rows.now tid }
{
    match tid {
        None => Ok(None),
        Some(tid) => Ok(Some(row_named(rows, guesses, tid)?)),
    }
}

/// A line's condition, where the threads that have begun have these names.
pub(crate) fn condition_of<A: Allocator>(
    rows: &Roster<A>,
    guesses: &mut [u32; GUESSES],
    names: &[Option<&[u8]>],
    condition: LitmusCondition<'_>,
) -> Result<Condition, Cause>
    requires { length names.now < 2 ^ 32 }
    ensures { result ≡ condition_of rows.now (names_kept names.now) (condition_asked condition.entry) }
{
    match condition {
        LitmusCondition::Tid(tid, sense, state) => {
            Ok(Condition::Tracee(row_named(rows, guesses, tid)?, sense, state))
        }
        LitmusCondition::Any(sense, state) => Ok(Condition::SomeTracee(sense, state)),
        LitmusCondition::Thread(name, sense) => match thread_printed_as(names, name) {
            Some(thread) => Ok(Condition::Thread(thread, sense)),
            None => Err(Cause::UnknownWord),
        },
    }
}

/// The thread that is printed as this word, by its place among all threads: the first of that name, or the one without
/// a name that has this number.
#[tactic(auto, using(crate::proofs::FirstOf::first_steps))]
fn thread_printed_as(names: &[Option<&[u8]>], word: &[u8]) -> Option<u32>
    requires { length names.now < 2 ^ 32 }
    ensures { result ≡ thread_printed_as (names_kept names.now) word.now }
{
    for thread in 0..names.len() {
        if is_printed_as(names, thread, word) {
            return Some(thread as u32);
        }
    }
    None
}

/// Whether the thread of this place is printed as a word: by its name, or by its number where it has none.
fn is_printed_as(names: &[Option<&[u8]>], thread: usize, word: &[u8]) -> bool
    requires { thread < 2 ^ 32 }
    ensures { result ≡ is_printed_as thread (slice_index_or (names_kept names.now) thread None) word.now }
{
    match names.get(thread) {
        Some(Some(name)) => *name == word,
        _ => {
            let mut buffer = Buffer::new();
            buffer.format(thread + 1).as_bytes() == word
        }
    }
}

/// The row of a thread id.
fn row_named<A: Allocator>(
    rows: &Roster<A>,
    guesses: &mut [u32; GUESSES],
    tid: u32,
) -> Result<u32, Cause>
    ensures { result ≡ row_named rows.now tid }
{
    match row_of(rows, guesses, tid) {
        Some(row) => Ok(row),
        None => Err(Cause::NoSuchTracee),
    }
}
