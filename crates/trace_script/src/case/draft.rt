//! What was read of a case file so far.

ghost use Rattle.std.specs.Prelude.{◌≡◌, ◌++◌, OnOk, option_to_list};
ghost use Rattle.trace_script.specs.CaseFile as file;
ghost use Rattle.trace_script.specs.CaseFile.{nothing_read, with_line};
ghost use Rattle.trace_script.specs.CaseLine as line;
ghost use Rattle.trace_script.specs.Draft.{reading_of};
ghost use Rattle.trace_script.specs.OpenBlock.{IsCounted};
ghost use Rattle.trace_script.specs.RawLine.{IsTested, IsTestedPart, IsTestedStep, line_said, part_said, step_said};
ghost use Rattle.trace_script.specs.Reading.{TakesLine};

use crate::case::block::{Block, add_step, late_of, new_block, next_step_fault, place_after};
use crate::case::digits::DigitValues;
use crate::case::image::load_part;
use crate::case::keyword::Place;
use crate::case::late::Late;
use crate::case::line::read_words;
use crate::case::raw_line::{RawLine, RawPart, RawStep};
use crate::cause::Cause;
use crate::reading::TakesLines;
use crate::script::Script;
use std::alloc::Allocator;
use std::mem;
use stop_history::{Roster, Row};
use text_lines::Words;
use trace_options::NoMemory;

/// What was read so far.
#[derive(Drop)]
pub(crate) struct Draft<A: Allocator> {
    alloc: A,
    /// Where the next line is.
    pub(crate) place: Place,
    /// The rows of all blocks.
    pub(crate) rows: Roster<A>,
    /// The scripts of the blocks that are closed.
    pub(crate) scripts: Vec<Script<A>, A>,
    /// The block that is open.
    pub(crate) block: Block<A>,
    /// The steps that are tested after the last line, in the order of lines.
    pub(crate) late: Vec<Late, A>,
    /// The values of the digits in byte words.
    pub(crate) digits: DigitValues,
}

/// A draft of nothing.
pub(crate) fn new_draft<A: Allocator + Copy>(alloc: A) -> Draft<A>
    ensures reading { reading_of result ≡ nothing_read }
    ensures counted { IsCounted result.block }
{
    Draft {
        alloc,
        place: Place::Outside,
        rows: Roster::empty(alloc),
        scripts: Vec::new(alloc),
        block: new_block(alloc),
        late: Vec::new(alloc),
        digits: DigitValues::new(),
    }
}

impl<'t, A: Allocator + Copy> TakesLines<'t> for Draft<A> {
    ghost Content = { file.Reading };

    ghost content = { reading_of };

    ghost line_read = { file.line_read };

    ghost IsSound = { λ draft. IsCounted draft.block };

    fn take_line(&mut self, number: u32, line: &'t [u8]) -> Result<(), Cause> {
        let said = read_words(self.place, Words::of(line))?;
        take_said(self, number, said)
    }
}

/// Takes what one more line says.
fn take_said<A: Allocator + Copy>(
    draft: &mut Draft<A>,
    number: u32,
    line: RawLine,
) -> Result<(), Cause>
    requires counted { IsCounted draft.old.block }
    requires tested { IsTested line }
    ensures line { TakesLine result (reading_of draft.new)
        (with_line number (reading_of draft.old) (line_said line.entry)) }
    ensures counted { OnOk result (IsCounted draft.new.block) }
{
    match line {
        RawLine::Nothing => Ok(()),
        RawLine::Opens(row) => open_block(draft, row),
        RawLine::Loads(part) => load_in_block(draft, part),
        RawLine::Does(step) => take_step(draft, number, step),
        RawLine::Closes => close_block(draft),
    }
}

/// Opens the block of a row.
fn open_block<A: Allocator + Copy>(draft: &mut Draft<A>, row: Row) -> Result<(), Cause>
    ensures line { TakesLine result (reading_of draft.new) (with_line 0 (reading_of draft.old) (line.Opens row)) }
    ensures counted { OnOk result (IsCounted draft.new.block) }
{
    draft.rows.push(row)?;
    draft.place = Place::Loading;
    draft.block = new_block(draft.alloc);
    Ok(())
}

/// Loads one more part of an image.
fn load_in_block<A: Allocator + Copy>(draft: &mut Draft<A>, part: RawPart) -> Result<(), Cause>
    requires counted { IsCounted draft.old.block }
    requires tested { IsTestedPart part }
    ensures line { TakesLine result (reading_of draft.new)
        (with_line 0 (reading_of draft.old) (line.Loads (part_said part.entry))) }
    ensures counted { OnOk result (IsCounted draft.new.block) }
{
    load_part(
        draft.alloc,
        &draft.digits,
        &mut draft.block.script,
        &mut draft.block.memory,
        part,
    )
}

/// Takes one more step.
fn take_step<A: Allocator + Copy>(
    draft: &mut Draft<A>,
    number: u32,
    step: RawStep,
) -> Result<(), Cause>
    requires counted { IsCounted draft.old.block }
    requires tested { IsTestedStep step }
    ensures line { TakesLine result (reading_of draft.new)
        (with_line number (reading_of draft.old) (line.Does (step_said step.entry))) }
    ensures counted { OnOk result (IsCounted draft.new.block) }
{
    if let Some(fault) = next_step_fault(&draft.block, step) {
        return Err(fault);
    }
    let row = draft.rows.len().saturating_sub(1);
    let late = late_of(number, row, draft.block.births, step);
    if push_late(&mut draft.late, late).is_err() {
        return Err(Cause::NoMemory);
    }
    if add_step(draft.alloc, &draft.digits, &mut draft.block, step).is_err() {
        return Err(Cause::NoMemory);
    }
    draft.place = place_after(step);
    Ok(())
}

/// Adds what is tested late, if the step is.
fn push_late<A: Allocator>(all: &mut Vec<Late, A>, late: Option<Late>) -> Result<(), NoMemory>
    ensures { OnOk result (all.new.items ≡ all.old.items ++ option_to_list late) }
{
    if let Some(late) = late {
        all.push(late)?;
    }
    Ok(())
}

/// Closes the block.
fn close_block<A: Allocator + Copy>(draft: &mut Draft<A>) -> Result<(), Cause>
    ensures line { TakesLine result (reading_of draft.new) (with_line 0 (reading_of draft.old) line.Closes) }
    ensures counted { OnOk result (IsCounted draft.new.block) }
{
    let Block { script, .. } = mem::replace(&mut draft.block, new_block(draft.alloc));
    if draft.scripts.push(script).is_err() {
        return Err(Cause::NoMemory);
    }
    draft.place = Place::Outside;
    Ok(())
}
