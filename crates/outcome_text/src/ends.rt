//! How outcomes end, those that end alike on one line: the last states of the tracees, by their names alone, and the
//! threads that wait.

ghost use Rattle.std.specs.Prelude.{◌≡◌, ◌<◌, ◌+◌, ◌^◌, ◌++◌, length, IfOk, OnOk, codes, map, string_bytes, zip};
ghost use Rattle.stop_program.specs.Threads.{commands_in};
ghost use Rattle.outcome_text.specs.Chosen.{chosen_of};
ghost use Rattle.litmus_files.specs.LitmusDraft.{AreTexts, names_kept};
ghost use Rattle.outcome_text.specs.OutcomeEnds.{AreTallied, ends_text, last_state, last_states, listed, more_listed};
ghost use Rattle.outcome_text.specs.OutcomeEnds.{outcome_end, waiting_words, who_waits};
ghost use Rattle.outcome_text.specs.OutcomeText.{name_at, thread_word};

use crate::chosen::{asks_nothing, is_printed};
use crate::condition::waits_at_end;
use crate::end_tallies::EndTallies;
use crate::text::{ToldProgram, name_at, write_end, write_thread_word};
use litmus_files::Condition;
use replay_files::{state_word, write_number};
use std::alloc::Allocator;
use stop_board::{NoMemory, Row, State};
use stop_explorer::{Explored, FoundRun};
use stop_program::{ThreadCommand, Turn};

// ---- one end

/// A tracee and the name of its state.
#[tactic(auto, using(replay_files::proofs::Written::in_two))]
fn last_state<A: Allocator>(alloc: A, row: &Row, state: State) -> Result<String<A>, NoMemory>
    ensures { IfOk result (λ text. string_bytes text ≡ last_state (row.now, state)) }
{
    let mut text = String::new(alloc);
    write_number(&mut text, "", row.tid, " ")?;
    text.push_str(state_word(state))?;
    Ok(text)
}

/// Each tracee and the name of its state.
fn each_state<A: Allocator + Copy>(
    alloc: A,
    rows: &[Row],
    states: &[State],
) -> Result<Vec<String<A>, A>, NoMemory>
    ensures { IfOk result (λ words. map string_bytes words.items ≡ map last_state (zip rows.now states.now)) }
{
    let mut words = Vec::new(alloc);
    for (row, state) in rows.iter().zip(states) {
        words.push(last_state(alloc, row, *state)?)?;
    }
    Ok(words)
}

/// The name of a thread, or its number where it has none.
fn waiting_word<A: Allocator>(
    alloc: A,
    names: &[Option<&[u8]>],
    thread: u32,
) -> Result<String<A>, NoMemory>
    requires { AreTexts names.now }
    ensures { IfOk result (λ text. string_bytes text
        ≡ thread_word (thread + 1) (name_at (names_kept names.now) thread)) }
{
    let mut text = String::new(alloc);
    write_thread_word(
        &mut text,
        thread as usize + 1,
        name_at(names, thread as usize),
    )?;
    Ok(text)
}

/// Each thread that waits.
fn who_waits<A: Allocator + Copy>(
    alloc: A,
    names: &[Option<&[u8]>],
    commands: &[Vec<ThreadCommand, A>],
    turns: &[Turn],
) -> Result<Vec<String<A>, A>, NoMemory>
    requires names { AreTexts names.now }
    requires few { length names.now < 2 ^ 32 }
    ensures { IfOk result (λ words. map string_bytes words.items
        ≡ waiting_words (names_kept names.now) (commands_in commands.now) turns.now) }
{
    let mut words = Vec::new(alloc);
    for thread in 0..names.len() {
        if waits_at_end(commands, turns, thread as u32) {
            words.push(waiting_word(alloc, names, thread as u32)?)?;
        }
    }
    Ok(words)
}

/// Writes words with a comma between them.
fn write_listed<A: Allocator, B: Allocator>(
    out: &mut String<A>,
    words: &[String<B>],
) -> Result<(), NoMemory>
    ensures { OnOk result (string_bytes out.new ≡ string_bytes out.old ++ listed (map string_bytes words.now)) }
{
    match words {
        [] => Ok(()),
        [word, more @ ..] => {
            out.push_str(word.as_str())?;
            write_more(out, more)
        }
    }
}

/// Writes a word with a comma before it.
#[tactic(auto, using(replay_files::proofs::Written::in_two))]
fn write_next<A: Allocator>(out: &mut String<A>, word: &str) -> Result<(), NoMemory>
    ensures { OnOk result (string_bytes out.new ≡ string_bytes out.old ++ (codes ", " ++ word.now)) }
{
    out.push_str(", ")?;
    out.push_str(word)?;
    Ok(())
}

/// Writes words with a comma before each of them.
fn write_more<A: Allocator, B: Allocator>(
    out: &mut String<A>,
    words: &[String<B>],
) -> Result<(), NoMemory>
    ensures { OnOk result (string_bytes out.new ≡ string_bytes out.old ++ more_listed (map string_bytes words.now)) }
{
    for word in words {
        write_next(out, word.as_str())?;
    }
    Ok(())
}

/// Writes each tracee and the name of its state.
fn write_last_states<A: Allocator + Copy>(
    out: &mut String<A>,
    alloc: A,
    rows: &[Row],
    states: &[State],
) -> Result<(), NoMemory>
    ensures { OnOk result (string_bytes out.new ≡ string_bytes out.old ++ last_states rows.now states.now) }
{
    if rows.is_empty() {
        out.push_str("no tracees")?;
        return Ok(());
    }
    let words = each_state(alloc, rows, states)?;
    write_listed(out, words.as_slice())
}

/// Writes which threads wait.
#[tactic(auto, using(replay_files::proofs::Written::in_two))]
fn write_who_waits<A: Allocator, B: Allocator>(
    out: &mut String<A>,
    words: &[String<B>],
) -> Result<(), NoMemory>
    ensures { OnOk result (string_bytes out.new ≡ string_bytes out.old ++ who_waits (map string_bytes words.now)) }
{
    match words {
        [] => {
            out.push_str("nobody waits")?;
            Ok(())
        }
        [word] => {
            out.push_str(word.as_str())?;
            out.push_str(" waits")?;
            Ok(())
        }
        _ => {
            write_listed(out, words)?;
            out.push_str(" wait")?;
            Ok(())
        }
    }
}

/// How a run ends.
fn outcome_end<A: Allocator + Copy>(
    alloc: A,
    rows: &[Row],
    names: &[Option<&[u8]>],
    commands: &[Vec<ThreadCommand, A>],
    run: &FoundRun<A>,
) -> Result<String<A>, NoMemory>
    requires names { AreTexts names.now }
    requires few { length names.now < 2 ^ 32 }
    ensures { IfOk result (λ text. string_bytes text
        ≡ outcome_end rows.now (names_kept names.now) (commands_in commands.now) run.now) }
{
    let mut out = String::new(alloc);
    write_last_states(&mut out, alloc, rows, run.states())?;
    out.push_str("; ")?;
    let waiting = who_waits(alloc, names, commands, run.turns())?;
    write_who_waits(&mut out, waiting.as_slice())?;
    Ok(out)
}

/// Counts how the outcomes end that are printed.
fn end_tallies<A: Allocator + Copy>(
    alloc: A,
    program: &ToldProgram<'_, '_, A>,
    conditions: &[Condition],
    explored: &Explored<A>,
) -> Result<EndTallies<A>, NoMemory>
    requires names { AreTexts program.now.names.now }
    requires few { length program.now.names.now < 2 ^ 32 }
    ensures tallied { IfOk result (λ found. AreTallied found.tallies.entries found.outcomes
        (map (outcome_end program.now.rows.now (names_kept program.now.names.now)
        (commands_in program.now.commands.now)) (chosen_of (length program.now.commands.now)
        (commands_in program.now.commands.now) conditions.now explored.now.runs))) }
    ensures few { IfOk result (λ found. found.outcomes < 2 ^ 64) }
{
    let rows = program.rows;
    let commands = program.commands;
    let all = asks_nothing(commands, conditions);
    let mut run = FoundRun::new(alloc);
    let mut found = EndTallies::new(alloc);
    for number in 0..explored.len() {
        explored.read(number, &mut run)?;
        if is_printed(all, commands, conditions, &run) {
            found.add(outcome_end(alloc, rows, program.names, commands, &run)?)?;
        }
    }
    Ok(found)
}

/// The text of how the outcomes end that have each reply, and in which each condition holds. `required`: the file has
/// replies or conditions.
pub(crate) fn ends_text<A: Allocator + Copy>(
    alloc: A,
    program: &ToldProgram<'_, '_, A>,
    conditions: &[Condition],
    required: bool,
    explored: &Explored<A>,
) -> Result<String<A>, NoMemory>
    requires names { AreTexts program.now.names.now }
    requires few { length program.now.names.now < 2 ^ 32 }
    ensures { IfOk result (λ text. string_bytes text
        ≡ ends_text program.now.rows.now (names_kept program.now.names.now) (commands_in program.now.commands.now)
        required explored.now.places (chosen_of (length program.now.commands.now)
        (commands_in program.now.commands.now) conditions.now explored.now.runs)) }
{
    let mut ends = end_tallies(alloc, program, conditions, explored)?;
    let mut out = String::new(alloc);
    ends.put_most_first()?;
    ends.write_lines(&mut out)?;
    write_end(&mut out, ends.outcomes, explored.places(), required)?;
    Ok(out)
}
