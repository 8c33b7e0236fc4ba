//! Outcomes that are printed as their texts are made, through one buffer.

ghost use Rattle.std.specs.Io.KnownBytes.{Appends};
ghost use Rattle.std.specs.Prelude.{◌≡◌, ◌<◌, ◌≤◌, ◌++◌, [], IfErr, IfOk, OnOk, Some, length, slice_get, string_bytes};
ghost use Rattle.stop_program.specs.Threads.{commands_in};
ghost use Rattle.stop_explorer.specs.OutcomeReader.{BeginAlike};
ghost use Rattle.outcome_text.specs.Chosen.{chosen_of};
ghost use Rattle.outcome_text.specs.CutOff.{IsCollected, IsCutOff};
ghost use Rattle.litmus_files.specs.LitmusDraft.{AreTexts, names_kept};
ghost use Rattle.outcome_text.specs.OutcomeText.{IsTextOfStates, allowed_line, chosen_text, counts_line};
ghost use Rattle.outcome_text.specs.OutcomeText.{outcome_text, outcome_texts};
ghost use Rattle.outcome_text.specs.Printed.{IsPrintedIfMemory, IsUnprinted};
ghost use Rattle.outcome_text.specs.TurnTexts.{AreTextsOf, text_source, turns_written};

use crate::chosen::{asks_nothing, count_chosen, is_printed};
use crate::parts::{CutOff, write_part};
use crate::print_error::PrintError;
use crate::text::{ToldProgram, write_end, write_outcome};
use crate::tracees_text::TraceesText;
use crate::turn_texts::{LINE, TurnTexts};
use litmus_files::Condition;
use std::alloc::Allocator;
use std::io::Write;
use stop_board::NoMemory;
use stop_explorer::{Explored, FoundRun, OutcomeReader};

/// From how many bytes on what is collected is written.
const ENOUGH: usize = 65_536;

/// What outcomes are printed by: the text that is not written yet, and, kept from the outcome before, the texts of its
/// turns and that of its tracees' states.
#[derive(Drop)]
struct Printer<A: Allocator> {
    text: String<A>,
    texts: TurnTexts<A>,
    tracees: TraceesText<A>,
}

/// What is printed: of the outcomes that were found those that are chosen, by these conditions too, and their number.
#[derive(Clone, Copy)]
struct Printed<'a, A: Allocator> {
    conditions: &'a [Condition],
    explored: &'a Explored<A>,
    count: usize,
}

/// How many turns an outcome may have: a thread has no more turns than commands.
fn most_turns<A: Allocator>(program: &ToldProgram<'_, '_, A>) -> usize {
    let mut turns = 0usize;
    for own in program.commands {
        turns = turns.saturating_add(own.len());
    }
    turns
}

/// Room for less than is written at once, and an outcome of this many turns more, and the last two lines.
fn room<A: Allocator>(program: &ToldProgram<'_, '_, A>, turns: usize) -> usize {
    let threads = program.names.len();
    let lines = turns.saturating_add(threads).saturating_mul(2);
    lines
        .saturating_add(program.rows.len())
        .saturating_add(8)
        .saturating_mul(LINE)
        .saturating_add(ENOUGH)
}

/// Writes what is collected, if it is enough.
fn write_enough<A: Allocator, W: Write>(out: &mut String<A>, output: &mut W) -> Result<(), CutOff>
    ensures ok { OnOk result (IsCollected (W.contents output.old) (W.contents output.new) (string_bytes out.old) []
        (string_bytes out.new)) }
    ensures cut_off { IfErr result (λ _.
        IsCutOff (W.contents output.old) (W.contents output.new) (string_bytes out.old)) }
{
    if out.len() >= ENOUGH {
        write_part(out.as_str(), output)?;
        out.clear();
    }
    Ok(())
}

/// Adds the text of an outcome to what is collected. As many of its turns at the beginning as `same` are those of the
/// outcome before.
fn collect_outcome<A: Allocator + Copy>(
    printer: &mut Printer<A>,
    program: &ToldProgram<'_, '_, A>,
    number: usize,
    count: usize,
    run: &FoundRun<A>,
    same: usize,
) -> Result<(), NoMemory>
    requires names { AreTexts program.now.names.now }
    requires texts { AreTextsOf (text_source program.now) printer.old.texts }
    requires tracees { IsTextOfStates program.now.rows.now printer.old.tracees }
    requires same { BeginAlike same (turns_written printer.old.texts.turns) run.now.turns }
    ensures text { OnOk result (string_bytes printer.new.text ≡ string_bytes printer.old.text
        ++ outcome_text program.now.rows.now (names_kept program.now.names.now) program.now.voices.now
        (commands_in program.now.commands.now) number count run.now) }
    ensures texts { OnOk result (AreTextsOf (text_source program.now) printer.new.texts) }
    ensures turns { OnOk result (turns_written printer.new.texts.turns ≡ run.now.turns) }
    ensures tracees { OnOk result (IsTextOfStates program.now.rows.now printer.new.tracees) }
{
    printer.texts.set_turns(program, run.turns(), same)?;
    printer.tracees.set_states(program.rows, run.states())?;
    write_outcome(
        &mut printer.text,
        program,
        number,
        count,
        run,
        &printer.texts,
        printer.tracees.text(),
    )
}

/// Prints an outcome. Its text fits what there is room for (`room`, `most_turns`); if memory were refused all the same,
/// nothing would be written.
fn print_outcome<A: Allocator + Copy, W: Write>(
    printer: &mut Printer<A>,
    output: &mut W,
    program: &ToldProgram<'_, '_, A>,
    number: usize,
    count: usize,
    run: &FoundRun<A>,
    same: usize,
) -> Result<(), CutOff>
    requires names { AreTexts program.now.names.now }
    requires texts { AreTextsOf (text_source program.now) printer.old.texts }
    requires tracees { IsTextOfStates program.now.rows.now printer.old.tracees }
    requires same { BeginAlike same (turns_written printer.old.texts.turns) run.now.turns }
    ensures ok { OnOk result (IsCollected (W.contents output.old) (W.contents output.new)
        (string_bytes printer.old.text)
        (outcome_text program.now.rows.now (names_kept program.now.names.now) program.now.voices.now
        (commands_in program.now.commands.now) number count run.now) (string_bytes printer.new.text)) }
    ensures texts { OnOk result (AreTextsOf (text_source program.now) printer.new.texts) }
    ensures turns { OnOk result (turns_written printer.new.texts.turns ≡ run.now.turns) }
    ensures tracees { OnOk result (IsTextOfStates program.now.rows.now printer.new.tracees) }
    ensures cut_off { IfErr result (λ _. IsCutOff (W.contents output.old) (W.contents output.new)
        (string_bytes printer.old.text
        ++ outcome_text program.now.rows.now (names_kept program.now.names.now) program.now.voices.now
        (commands_in program.now.commands.now) number count run.now)) }
{
    match collect_outcome(printer, program, number, count, run, same) {
        Ok(()) => write_enough(&mut printer.text, output),
        Err(_) => Err(CutOff),
    }
}

/// A reader of the outcomes, with room for each of them: all have as many rows, and the last one has the most turns, by
/// the order of outcomes, which is only tested.
fn reader_with_room<A: Allocator + Copy>(
    alloc: A,
    explored: &Explored<A>,
) -> Result<OutcomeReader<'_, A>, NoMemory>
    ensures { IfOk result (λ reader. reader.runs ≡ explored.now.runs) }
{
    let mut reader = explored.reader(alloc);
    if !explored.is_empty() {
        reader.read(explored.len() - 1)?;
    }
    Ok(reader)
}

/// Reads the outcome of a number. If memory were refused, in spite of the room, what is printed would end there, and
/// the program would say that it cannot write.
fn read_outcome<A: Allocator>(
    reader: &mut OutcomeReader<'_, A>,
    number: usize,
) -> Result<usize, CutOff>
    requires { number < length reader.old.runs }
    ensures runs { reader.new.runs ≡ reader.old.runs }
    ensures run { OnOk result (slice_get reader.old.runs number ≡ Some reader.new.run) }
    ensures kept { IfOk result (λ kept. BeginAlike kept reader.old.run.turns reader.new.run.turns) }
{
    match reader.read(number) {
        Ok(kept) => Ok(kept),
        Err(_) => Err(CutOff),
    }
}

/// The lesser of two numbers of turns.
fn lesser(one: usize, other: usize) -> usize
    ensures first { result ≤ one }
    ensures second { result ≤ other }
{
    one.min(other)
}

/// Prints the outcomes that are chosen, numbered from 1. Nothing is read after the last one. `same` is the number of
/// turns at the beginning that the outcome which is read has in common with the one that was printed before.
fn print_chosen<A: Allocator + Copy, W: Write>(
    printer: &mut Printer<A>,
    output: &mut W,
    program: &ToldProgram<'_, '_, A>,
    printed: &Printed<'_, A>,
    reader: &mut OutcomeReader<'_, A>,
) -> Result<(), CutOff>
    requires names { AreTexts program.now.names.now }
    requires texts { AreTextsOf (text_source program.now) printer.old.texts }
    requires tracees { IsTextOfStates program.now.rows.now printer.old.tracees }
    requires runs { reader.old.runs ≡ printed.now.explored.now.runs }
    requires counted { printed.now.count ≡ length (chosen_of (length program.now.commands.now)
        (commands_in program.now.commands.now) printed.now.conditions.now printed.now.explored.now.runs) }
    ensures ok { OnOk result (IsCollected (W.contents output.old) (W.contents output.new)
        (string_bytes printer.old.text)
        (outcome_texts program.now.rows.now (names_kept program.now.names.now) program.now.voices.now
        (commands_in program.now.commands.now) 1 printed.now.count (chosen_of (length program.now.commands.now)
        (commands_in program.now.commands.now) printed.now.conditions.now printed.now.explored.now.runs))
        (string_bytes printer.new.text)) }
    ensures cut_off { IfErr result (λ _. IsCutOff (W.contents output.old) (W.contents output.new)
        (string_bytes printer.old.text ++ outcome_texts program.now.rows.now (names_kept program.now.names.now)
        program.now.voices.now (commands_in program.now.commands.now) 1 printed.now.count
        (chosen_of (length program.now.commands.now) (commands_in program.now.commands.now)
        printed.now.conditions.now printed.now.explored.now.runs))) }
{
    let all = asks_nothing(program.commands, printed.conditions);
    let mut before = 0;
    let mut same = 0;
    for number in 0..printed.explored.len() {
        if before == printed.count {
            return Ok(());
        }
        let kept = read_outcome(reader, number)?;
        same = lesser(same, kept);
        let run = reader.run();
        if is_printed(all, program.commands, printed.conditions, run) {
            print_outcome(
                printer,
                output,
                program,
                before + 1,
                printed.count,
                run,
                same,
            )?;
            same = run.turns().len();
            before += 1;
        }
    }
    Ok(())
}

/// Prints how many outcomes and places there are, and that the outcomes are allowed, where the file requires anything;
/// and all that is collected before it.
fn print_end<A: Allocator, W: Write>(
    out: &mut String<A>,
    output: &mut W,
    count: usize,
    places: usize,
    required: bool,
) -> Result<(), CutOff>
    ensures ok { OnOk result (Appends (W.contents output.old) (W.contents output.new)
        (string_bytes out.old ++ (counts_line count places ++ allowed_line required))) }
    ensures cut_off { IfErr result (λ _. IsCutOff (W.contents output.old) (W.contents output.new)
        (string_bytes out.old ++ (counts_line count places ++ allowed_line required))) }
{
    match write_end(out, count, places, required) {
        Ok(()) => write_part(out.as_str(), output),
        Err(_) => Err(CutOff),
    }
}

/// Prints the outcomes that are chosen, and how many they and the places are.
fn print_all<A: Allocator + Copy, W: Write>(
    printer: &mut Printer<A>,
    output: &mut W,
    program: &ToldProgram<'_, '_, A>,
    printed: &Printed<'_, A>,
    required: bool,
    reader: &mut OutcomeReader<'_, A>,
) -> Result<(), CutOff>
    requires names { AreTexts program.now.names.now }
    requires texts { AreTextsOf (text_source program.now) printer.old.texts }
    requires tracees { IsTextOfStates program.now.rows.now printer.old.tracees }
    requires begin { string_bytes printer.old.text ≡ [] }
    requires runs { reader.old.runs ≡ printed.now.explored.now.runs }
    requires counted { printed.now.count ≡ length (chosen_of (length program.now.commands.now)
        (commands_in program.now.commands.now) printed.now.conditions.now printed.now.explored.now.runs) }
    ensures ok { OnOk result (Appends (W.contents output.old) (W.contents output.new)
        (chosen_text program.now.rows.now (names_kept program.now.names.now) program.now.voices.now
        (commands_in program.now.commands.now) required printed.now.explored.now.places
        (chosen_of (length program.now.commands.now) (commands_in program.now.commands.now)
        printed.now.conditions.now printed.now.explored.now.runs))) }
    ensures cut_off { IfErr result (λ _. IsCutOff (W.contents output.old) (W.contents output.new)
        (chosen_text program.now.rows.now (names_kept program.now.names.now) program.now.voices.now
        (commands_in program.now.commands.now) required printed.now.explored.now.places
        (chosen_of (length program.now.commands.now) (commands_in program.now.commands.now)
        printed.now.conditions.now printed.now.explored.now.runs))) }
{
    print_chosen(printer, output, program, printed, reader)?;
    let places = printed.explored.places();
    print_end(&mut printer.text, output, printed.count, places, required)
}

/// Prints what was explored: the outcomes that have each reply, and in which each condition holds, and how many they
/// and the places are. `required`: the file has replies or conditions. Each thread has a name, or none. The room for
/// the text, and for the outcome that is read, is made before the first byte is written.
pub(crate) fn print_outcomes<A: Allocator + Copy, W: Write>(
    alloc: A,
    program: &ToldProgram<'_, '_, A>,
    conditions: &[Condition],
    required: bool,
    explored: &Explored<A>,
    output: &mut W,
) -> Result<(), PrintError>
    requires names { AreTexts program.now.names.now }
    ensures written { IsPrintedIfMemory (chosen_text program.now.rows.now (names_kept program.now.names.now)
        program.now.voices.now (commands_in program.now.commands.now) required explored.now.places
        (chosen_of (length program.now.commands.now) (commands_in program.now.commands.now) conditions.now
        explored.now.runs)) (W.contents output.old) (W.contents output.new) result }
    ensures unwritten { IsUnprinted output.old output.new result }
{
    let turns = most_turns(program);
    let text = String::with_capacity(alloc, room(program, turns))?;
    let texts = TurnTexts::new(alloc, program, turns)?;
    let mut reader = reader_with_room(alloc, explored)?;
    let count = count_chosen(alloc, program.commands, conditions, explored)?;
    let tracees = TraceesText::new(alloc, program.rows)?;
    let mut printer = Printer {
        text,
        texts,
        tracees,
    };
    let printed = Printed {
        conditions,
        explored,
        count,
    };
    match print_all(
        &mut printer,
        output,
        program,
        &printed,
        required,
        &mut reader,
    ) {
        Ok(()) => Ok(()),
        Err(CutOff) => Err(PrintError::CutOff),
    }
}
