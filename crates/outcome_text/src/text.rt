//! The text of outcomes: what each thread was answered, the states of the tracees, and one order that leads there.

ghost use Rattle.std.specs.Prelude.{◌≡◌, ◌++◌, IfOk, IfSome, IsUtf8, OnOk, Some, decimal};
ghost use Rattle.std.specs.Prelude.{option_copied, option_map, string_bytes};
ghost use Rattle.stop_program.specs.Program.{own_turns};
ghost use Rattle.stop_program.specs.Run.{EndedRun};
ghost use Rattle.stop_program.specs.Threads.{commands_in};
ghost use Rattle.litmus_files.specs.LitmusDraft.{AreTexts, names_kept};
ghost use Rattle.outcome_text.specs.OutcomeText.{allowed_line, counts_line, forbidden_line, name_at};
ghost use Rattle.outcome_text.specs.OutcomeText.{outcome_line, outcome_text, thread_head, thread_text, thread_word};
ghost use Rattle.outcome_text.specs.OutcomeText.{threads_text, tracee_line, tracees_text, waiting_line};
ghost use Rattle.outcome_text.specs.TurnTexts.{AreTextsOf, closing_line, text_source, thread_so_far, turns_written};

use crate::answer_text::write_waits;
use crate::chosen::{is_quiet, thread_commands};
use crate::command_text::write_command;
use crate::turn_texts::{ThreadSoFar, TurnTexts};
use itoa::Buffer;
use replay_files::write_state;
use std::alloc::Allocator;
use stop_board::{NoMemory, Row, State};
use stop_explorer::FoundRun;
use stop_program::{ThreadCommand, Voice};

/// A program, as the texts of its outcomes tell of it: the rows of its board, the names and the voices of its threads,
/// and their commands.
#[derive(Drop)]
pub(crate) struct ToldProgram<'a, 't, A: Allocator> {
    pub(crate) rows: &'a [Row],
    pub(crate) names: &'a [Option<&'t [u8]>],
    pub(crate) voices: &'a [Voice],
    pub(crate) commands: &'a [Vec<ThreadCommand, A>],
}

// ---- commands

/// Writes a command that a thread waits at.
#[tactic(auto, using(replay_files::proofs::Written::in_three))]
fn write_waiting<A: Allocator>(
    out: &mut String<A>,
    rows: &[Row],
    states: &[State],
    command: &ThreadCommand,
) -> Result<(), NoMemory>
    ensures { OnOk result (string_bytes out.new
        ≡ string_bytes out.old ++ waiting_line rows.now states.now (Some command.now)) }
{
    write_command(out, rows, command)?;
    out.push_str(": ")?;
    write_waits(out, rows, states, command)
}

// ---- threads

/// Writes the line that a thread begins with.
#[tactic(auto, using(replay_files::proofs::Written::in_three))]
pub(crate) fn write_thread_head<A: Allocator>(
    out: &mut String<A>,
    number: usize,
    name: Option<&[u8]>,
) -> Result<(), NoMemory>
    requires { IfSome name (λ bytes. IsUtf8 bytes.now) }
    ensures { OnOk result (string_bytes out.new
        ≡ string_bytes out.old ++ thread_head number (option_map (λ bytes. bytes.now) name.entry)) }
{
    out.push_str("thread ")?;
    write_thread_word(out, number, name)?;
    out.push_str("\n")?;
    Ok(())
}

/// Writes a thread's name, or its number where it has none.
pub(crate) fn write_thread_word<A: Allocator>(
    out: &mut String<A>,
    number: usize,
    name: Option<&[u8]>,
) -> Result<(), NoMemory>
    requires { IfSome name (λ bytes. IsUtf8 bytes.now) }
    ensures { OnOk result (string_bytes out.new
        ≡ string_bytes out.old ++ thread_word number (option_map (λ bytes. bytes.now) name.entry)) }
{
    match name {
        None => write_decimal(out, number),
        Some(name) => write_name(out, name),
    }
}

fn write_decimal<A: Allocator>(out: &mut String<A>, number: usize) -> Result<(), NoMemory>
    ensures { OnOk result (string_bytes out.new ≡ string_bytes out.old ++ decimal number) }
{
    let mut buffer = Buffer::new();
    out.push_str(buffer.format(number))?;
    Ok(())
}

fn write_name<A: Allocator>(out: &mut String<A>, name: &[u8]) -> Result<(), NoMemory>
    requires { IsUtf8 name.now }
    ensures { OnOk result (string_bytes out.new ≡ string_bytes out.old ++ name.now) }
{
    if let Ok(text) = std::str::from_utf8(name) {
        out.push_str(text)?;
    }
    Ok(())
}

/// Writes the last line of a thread: the command that it waits at. If there is none, a quiet thread has the line
/// `done`, and another thread has no line.
fn write_closing_line<A: Allocator>(
    out: &mut String<A>,
    rows: &[Row],
    states: &[State],
    quiet: bool,
    next: Option<&ThreadCommand>,
) -> Result<(), NoMemory>
    ensures { OnOk result (string_bytes out.new ≡ string_bytes out.old
        ++ closing_line rows.now states.now quiet (option_copied next.entry)) }
{
    match next {
        None => {
            if quiet {
                out.push_str("done\n")?;
            }
            Ok(())
        }
        Some(command) => write_waiting(out, rows, states, command),
    }
}

/// Writes a thread: its text so far, and its last line.
fn write_thread<A: Allocator>(
    out: &mut String<A>,
    program: &ToldProgram<'_, '_, A>,
    thread: usize,
    states: &[State],
    so_far: &ThreadSoFar<A>,
) -> Result<(), NoMemory>
    ensures { (ending : EndedRun) → states.now ≡ ending.states →
        so_far.now ≡ thread_so_far (text_source program.now) thread (own_turns thread ending.turns) →
        OnOk result (string_bytes out.new ≡ string_bytes out.old
        ++ thread_text program.now.rows.now program.now.voices.now (commands_in program.now.commands.now) ending thread
        (name_at (names_kept program.now.names.now) thread)) }
{
    out.push_str(so_far.text())?;
    let next = so_far.next_of(thread_commands(program.commands, thread));
    write_closing_line(
        out,
        program.rows,
        states,
        is_quiet(program.voices, thread),
        next,
    )
}

/// Writes each thread.
fn write_threads<A: Allocator>(
    out: &mut String<A>,
    program: &ToldProgram<'_, '_, A>,
    run: &FoundRun<A>,
    texts: &TurnTexts<A>,
) -> Result<(), NoMemory>
    requires texts { AreTextsOf (text_source program.now) texts.now }
    requires turns { turns_written texts.now.turns ≡ run.now.turns }
    ensures { OnOk result (string_bytes out.new ≡ string_bytes out.old
        ++ threads_text program.now.rows.now program.now.voices.now (commands_in program.now.commands.now) run.now 0
        (names_kept program.now.names.now)) }
{
    for thread in 0..program.names.len() {
        write_thread(out, program, thread, run.states(), texts.thread(thread))?;
    }
    Ok(())
}

// ---- tracees

/// Writes a tracee and its state.
#[tactic(auto, using(replay_files::proofs::Written::in_three))]
fn write_tracee<A: Allocator>(out: &mut String<A>, row: &Row, state: State) -> Result<(), NoMemory>
    ensures { OnOk result (string_bytes out.new ≡ string_bytes out.old ++ tracee_line (row.now, state)) }
{
    write_decimal(out, row.tid as usize)?;
    out.push_str(" ")?;
    write_state(out, state)
}

/// Writes the tracees and their states.
pub(crate) fn write_tracees<A: Allocator>(
    out: &mut String<A>,
    rows: &[Row],
    states: &[State],
) -> Result<(), NoMemory>
    ensures { OnOk result (string_bytes out.new ≡ string_bytes out.old ++ tracees_text rows.now states.now) }
{
    out.push_str("tracees\n")?;
    for (row, state) in rows.iter().zip(states) {
        write_tracee(out, row, *state)?;
    }
    Ok(())
}

// ---- the order

/// The name of a thread, by its place among all threads, if it has one.
pub(crate) fn name_at<'t>(names: &[Option<&'t [u8]>], thread: usize) -> Option<&'t [u8]>
    requires { AreTexts names.now }
    ensures name { option_map (λ bytes. bytes.now) result ≡ name_at (names_kept names.now) thread }
    ensures text { IfSome result (λ bytes. IsUtf8 bytes.now) }
{
    match names.get(thread) {
        Some(name) => *name,
        None => None,
    }
}

// ---- outcomes

/// Writes the line that an outcome begins with.
fn write_outcome_line<A: Allocator>(
    out: &mut String<A>,
    number: usize,
    count: usize,
) -> Result<(), NoMemory>
    ensures { OnOk result (string_bytes out.new ≡ string_bytes out.old ++ outcome_line number count) }
{
    out.push_str("outcome ")?;
    write_decimal(out, number)?;
    out.push_str(" of ")?;
    write_decimal(out, count)?;
    out.push_str("\n")?;
    Ok(())
}

/// Writes an outcome, with its number and how many there are, and an empty line after it. `tracees` is the text of the
/// states of its rows.
#[tactic(auto, using(replay_files::proofs::Written::in_five))]
pub(crate) fn write_outcome<A: Allocator>(
    out: &mut String<A>,
    program: &ToldProgram<'_, '_, A>,
    number: usize,
    count: usize,
    run: &FoundRun<A>,
    texts: &TurnTexts<A>,
    tracees: &str,
) -> Result<(), NoMemory>
    requires texts { AreTextsOf (text_source program.now) texts.now }
    requires turns { turns_written texts.now.turns ≡ run.now.turns }
    requires tracees { tracees.now ≡ tracees_text program.now.rows.now run.now.states }
    ensures { OnOk result (string_bytes out.new ≡ string_bytes out.old
        ++ outcome_text program.now.rows.now (names_kept program.now.names.now) program.now.voices.now
        (commands_in program.now.commands.now) number count run.now) }
{
    write_outcome_line(out, number, count)?;
    write_threads(out, program, run, texts)?;
    out.push_str(tracees)?;
    out.push_str(texts.order())?;
    out.push_str("\n")?;
    Ok(())
}

/// Writes how many outcomes and places there are, and that the outcomes are allowed, where the file requires anything.
#[tactic(auto, using(replay_files::proofs::Written::in_two))]
pub(crate) fn write_end<A: Allocator>(
    out: &mut String<A>,
    count: usize,
    places: usize,
    required: bool,
) -> Result<(), NoMemory>
    ensures { OnOk result (string_bytes out.new
        ≡ string_bytes out.old ++ (counts_line count places ++ allowed_line required)) }
{
    write_counts(out, count, places)?;
    write_allowed(out, required)
}

/// Writes how many outcomes and places there are.
fn write_counts<A: Allocator>(
    out: &mut String<A>,
    count: usize,
    places: usize,
) -> Result<(), NoMemory>
    ensures { OnOk result (string_bytes out.new ≡ string_bytes out.old ++ counts_line count places) }
{
    write!(out, "outcomes {count}, places {places}\n")?;
    Ok(())
}

/// Writes that the outcomes are allowed, where the file requires anything.
fn write_allowed<A: Allocator>(out: &mut String<A>, required: bool) -> Result<(), NoMemory>
    ensures { OnOk result (string_bytes out.new ≡ string_bytes out.old ++ allowed_line required) }
{
    if required {
        out.push_str("allowed\n")?;
    }
    Ok(())
}

/// What is written where an order does not have all that a file requires: the number of a line, if there is one.
pub(crate) fn forbidden_text<A: Allocator>(
    alloc: A,
    line: Option<u32>,
) -> Result<String<A>, NoMemory>
    ensures { IfOk result (λ text. string_bytes text ≡ forbidden_line line) }
{
    let mut out = String::new(alloc);
    match line {
        None => out.push_str("forbidden\n")?,
        Some(line) => write!(out, "forbidden: line {line}\n")?,
    }
    Ok(out)
}
