//! What was read of a litmus file so far, and what one more line makes of it.

ghost use Rattle.std.specs.Prelude.{◌≡◌, ◌*◌, ◌∷◌, [], IfErr, IfOk, OnOk, option_map};
ghost use Rattle.trace_script.specs.Reading.{TakesLine};
ghost use Rattle.litmus_files.specs.LitmusDraft.{litmus_reading_of};
ghost use Rattle.litmus_files.specs.LitmusFile.{IsLitmusReading, commands_added, condition_added, current_thread};
ghost use Rattle.litmus_files.specs.LitmusFile.{litmus_command_added, litmus_line_added, litmus_line_read};
ghost use Rattle.litmus_files.specs.LitmusFile.{litmus_row_added, no_lines, numbered_command, place_past, repeat_ended};
ghost use Rattle.litmus_files.specs.LitmusFile.{repeat_opened, reply_required, thread_added, within_of};
ghost use Rattle.litmus_files.specs.LitmusCondition.{condition_asked};
ghost use Rattle.litmus_files.specs.LitmusGrammar.{IsLitmusLine};
ghost use Rattle.litmus_files.specs.LitmusLine.{litmus_said};

use crate::command::{condition_of, thread_command};
use crate::condition::LitmusCondition;
use crate::copies::{add_copies, leaving_line};
use crate::grammar::read_words;
use crate::line::{LitmusCommand, LitmusLine, Within};
use crate::required::{NumberedCommand, NumberedCondition, NumberedLine};
use replay_files::GUESSES;
use std::alloc::Allocator;
use stop_board::{Roster, Row};
use stop_program::{ThreadCommand, Voice};
use text_lines::Words;
use trace_script::Cause;

/// How many threads a file has at most.
pub(crate) const MOST_THREADS: u32 = 64;

/// How many commands all threads of a file have at most, repeats written out.
pub(crate) const MOST_COMMANDS: usize = 4096;

/// What was read so far.
#[derive(Drop)]
pub(crate) struct LitmusDraft<'t, A: Allocator> {
    pub(crate) rows: Roster<A>,
    /// The name of each thread that has begun, if it has one.
    pub(crate) names: Vec<Option<&'t [u8]>, A>,
    /// Whether each of these threads is loud or quiet.
    pub(crate) voices: Vec<Voice, A>,
    /// The commands, those of the repeat that is open left out.
    pub(crate) lines: Vec<NumberedLine, A>,
    /// How many of the lines are of threads before the last one.
    pub(crate) before: usize,
    /// How many times the commands of the repeat that is open are done. None: no repeat is open.
    pub(crate) times: Option<u32>,
    /// The commands of the repeat that is open. They mean nothing where none is.
    pub(crate) body: Vec<NumberedCommand, A>,
    /// The number of the line of each reply and each condition.
    pub(crate) requirements: Vec<u32, A>,
    pub(crate) conditions: Vec<NumberedCondition, A>,
    /// The rows that were found last.
    pub(crate) guesses: [u32; GUESSES],
}

/// A draft of no lines.
pub(crate) fn new_draft<'t, A: Allocator + Copy>(alloc: A) -> LitmusDraft<'t, A>
    ensures { litmus_reading_of result ≡ no_lines }
{
    LitmusDraft {
        rows: Roster::empty(alloc),
        names: Vec::new(alloc),
        voices: Vec::new(alloc),
        lines: Vec::new(alloc),
        before: 0,
        times: None,
        body: Vec::new(alloc),
        requirements: Vec::new(alloc),
        conditions: Vec::new(alloc),
        guesses: [0; GUESSES],
    }
}

/// Takes one more line, which has this number, or returns its first fault.
pub(crate) fn take_line<'t, A: Allocator>(
    draft: &mut LitmusDraft<'t, A>,
    number: u32,
    line: &'t [u8],
) -> Result<(), Cause>
    requires { IsLitmusReading (litmus_reading_of draft.old) }
    ensures line { TakesLine result (litmus_reading_of draft.new)
        (litmus_line_read number (litmus_reading_of draft.old) line.now) }
    ensures range { OnOk result (IsLitmusReading (litmus_reading_of draft.new)) }
{
    let said = read_words(within(draft), Words::of(line))?;
    take_said(draft, number, said)
}

/// Where the next line is.
fn within<A: Allocator>(draft: &LitmusDraft<'_, A>) -> Within
    ensures { result ≡ within_of (litmus_reading_of draft.now) }
{
    match draft.times {
        Some(_) => Within::Repeat,
        None if !draft.conditions.is_empty() => Within::Conditions,
        None if draft.names.is_empty() => Within::Rows,
        None => Within::Thread,
    }
}

/// Takes what one more line says.
fn take_said<'t, A: Allocator>(
    draft: &mut LitmusDraft<'t, A>,
    number: u32,
    said: LitmusLine<'t>,
) -> Result<(), Cause>
    requires draft { IsLitmusReading (litmus_reading_of draft.old) }
    requires said { IsLitmusLine (litmus_said said) }
    ensures line { TakesLine result (litmus_reading_of draft.new)
        (litmus_line_added number (litmus_reading_of draft.old) (litmus_said said.entry)) }
    ensures range { OnOk result (IsLitmusReading (litmus_reading_of draft.new)) }
{
    match said {
        LitmusLine::Nothing => Ok(()),
        LitmusLine::Row(row) => take_row(draft, row),
        LitmusLine::Thread(voice, name) => take_thread(draft, voice, name),
        LitmusLine::Repeat(times) => {
            open_repeat(draft, times);
            Ok(())
        }
        LitmusLine::End => end_repeat(draft),
        LitmusLine::Only(condition) => take_condition(draft, number, condition),
        LitmusLine::Command(command) => take_command(draft, number, command),
    }
}

/// Takes one more row.
fn take_row<A: Allocator>(draft: &mut LitmusDraft<'_, A>, row: Row) -> Result<(), Cause>
    ensures { TakesLine result (litmus_reading_of draft.new) (litmus_row_added (litmus_reading_of draft.old) row) }
{
    draft.rows.push(row)?;
    Ok(())
}

/// Begins the next thread.
fn take_thread<'t, A: Allocator>(
    draft: &mut LitmusDraft<'t, A>,
    voice: Voice,
    name: Option<&'t [u8]>,
) -> Result<(), Cause>
    ensures { TakesLine result (litmus_reading_of draft.new)
        (thread_added (litmus_reading_of draft.old) voice (option_map (λ n. n.now) name.entry)) }
{
    if draft.names.len() >= MOST_THREADS as usize {
        return Err(Cause::TooMany);
    }
    if draft.times.is_some() {
        return Err(Cause::NoEnd);
    }
    if draft.names.push(name).is_err() {
        return Err(Cause::NoMemory);
    }
    if draft.voices.push(voice).is_err() {
        return Err(Cause::NoMemory);
    }
    draft.before = draft.lines.len();
    Ok(())
}

/// Opens a repeat.
fn open_repeat<A: Allocator>(draft: &mut LitmusDraft<'_, A>, times: u32)
    ensures { litmus_reading_of draft.new ≡ repeat_opened (litmus_reading_of draft.old) times }
{
    draft.times = Some(times);
    draft.body.clear();
}

/// Ends the repeat that is open: its commands are done as often as it says.
fn end_repeat<A: Allocator>(draft: &mut LitmusDraft<'_, A>) -> Result<(), Cause>
    requires { IsLitmusReading (litmus_reading_of draft.old) }
    ensures { TakesLine result (litmus_reading_of draft.new)
        (repeat_ended (litmus_reading_of draft.old) (litmus_reading_of draft.old).repeat) }
{
    let Some(times) = draft.times else {
        return Err(Cause::UnknownWord);
    };
    let thread = current_thread(draft)?;
    let leave_to = place_past(draft, times, draft.body.len())?;
    let body = draft.body.as_slice();
    if add_copies(&mut draft.lines, thread, leave_to, times, body).is_err() {
        return Err(Cause::NoMemory);
    }
    draft.times = None;
    Ok(())
}

/// Takes one more command: of the repeat that is open, or else of the thread.
fn take_command<A: Allocator>(
    draft: &mut LitmusDraft<'_, A>,
    number: u32,
    command: LitmusCommand,
) -> Result<(), Cause>
    requires { IsLitmusReading (litmus_reading_of draft.old) }
    ensures { TakesLine result (litmus_reading_of draft.new)
        (litmus_command_added number (litmus_reading_of draft.old) command) }
{
    let command = thread_command(&draft.rows, &mut draft.guesses, command)?;
    match draft.times {
        None => take_once(draft, number, command),
        Some(_) => {
            let Ok(command) = require_reply(draft, number, command) else {
                return Err(Cause::NoMemory);
            };
            if draft.body.push(command).is_err() {
                return Err(Cause::NoMemory);
            }
            Ok(())
        }
    }
}

/// Notes the line of a command's reply, if it has one, and numbers the command by it.
fn require_reply<A: Allocator>(
    draft: &mut LitmusDraft<'_, A>,
    number: u32,
    command: ThreadCommand,
) -> Result<NumberedCommand, Cause>
    ensures ok { IfOk result (λ numbered.
        (numbered ≡ numbered_command (litmus_reading_of draft.old) command)
        × (litmus_reading_of draft.new ≡ reply_required number (litmus_reading_of draft.old) command)) }
    ensures err { IfErr result (λ cause. cause ≡ Cause.NoMemory) }
{
    if command.wanted.is_none() {
        return Ok(NumberedCommand { command, number: 0 });
    }
    if draft.requirements.push(number).is_err() {
        return Err(Cause::NoMemory);
    }
    Ok(NumberedCommand {
        command,
        number: draft.requirements.len(),
    })
}

/// Takes one more condition.
fn take_condition<A: Allocator>(
    draft: &mut LitmusDraft<'_, A>,
    number: u32,
    condition: LitmusCondition<'_>,
) -> Result<(), Cause>
    requires { IsLitmusReading (litmus_reading_of draft.old) }
    ensures { TakesLine result (litmus_reading_of draft.new)
        (condition_added number (litmus_reading_of draft.old) (condition_asked condition.entry)) }
{
    let names = draft.names.as_slice();
    let condition = condition_of(&draft.rows, &mut draft.guesses, names, condition)?;
    if draft.requirements.push(number).is_err() {
        return Err(Cause::NoMemory);
    }
    let numbered = NumberedCondition {
        condition,
        number: draft.requirements.len(),
    };
    if draft.conditions.push(numbered).is_err() {
        return Err(Cause::NoMemory);
    }
    Ok(())
}

/// Takes a command that is done once. Its faults come before a want of memory.
fn take_once<A: Allocator>(
    draft: &mut LitmusDraft<'_, A>,
    number: u32,
    command: ThreadCommand,
) -> Result<(), Cause>
    requires { IsLitmusReading (litmus_reading_of draft.old) }
    ensures { TakesLine result (litmus_reading_of draft.new)
        (commands_added (reply_required number (litmus_reading_of draft.old) command)
        (numbered_command (litmus_reading_of draft.old) command ∷ [])) }
{
    let thread = current_thread(draft)?;
    let leave_to = place_past(draft, 1, 1)?;
    let Ok(numbered) = require_reply(draft, number, command) else {
        return Err(Cause::NoMemory);
    };
    let line = leaving_line(thread, leave_to, numbered);
    if draft.lines.push(line).is_err() {
        return Err(Cause::NoMemory);
    }
    Ok(())
}

/// The thread that began last. A command before any thread is out of place.
fn current_thread<A: Allocator>(draft: &LitmusDraft<'_, A>) -> Result<u32, Cause>
    requires { IsLitmusReading (litmus_reading_of draft.now) }
    ensures { result ≡ current_thread (litmus_reading_of draft.now) }
{
    if draft.names.is_empty() {
        return Err(Cause::UnknownWord);
    }
    Ok((draft.names.len() - 1) as u32)
}

/// The place after this many more commands of the last thread, each of them repeated; or that they are too many.
fn place_past<A: Allocator>(
    draft: &LitmusDraft<'_, A>,
    times: u32,
    commands: usize,
) -> Result<u32, Cause>
    ensures { result ≡ place_past (litmus_reading_of draft.now) (times * commands) }
{
    let count = commands.saturating_mul(times as usize);
    if draft.lines.len().saturating_add(count) > MOST_COMMANDS {
        return Err(Cause::TooMany);
    }
    Ok((draft.lines.len().saturating_sub(draft.before) + count) as u32)
}
