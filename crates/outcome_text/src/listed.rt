//! The outcomes that have all that a litmus file requires, and how they end.

ghost use Rattle.std.specs.Prelude.{◌≡◌, IfOk, false, length, string_bytes, true};
ghost use Rattle.litmus_files.specs.LitmusDraft.{IsLitmusFile, content_in};
ghost use Rattle.outcome_text.specs.Printed.{IsPrintedIfMemory, IsUnprinted};
ghost use Rattle.outcome_text.specs.Searched.{IsSearched, all_text, chosen_with};

use crate::ends::ends_text;
use crate::print_error::PrintError;
use crate::printed::print_outcomes;
use crate::searched::{Searched, has_requirements};
use crate::text::ToldProgram;
use litmus_files::LitmusFile;
use std::alloc::Global;
use std::io::Write;
use stop_board::NoMemory;

/// How the outcomes end that have all that the file requires.
pub fn ends_of(
    alloc: Global,
    file: &LitmusFile<'_, Global>,
    budget: u32,
    whole: &Searched,
) -> Result<String, NoMemory>
    requires file { IsLitmusFile file.now }
    requires whole { IsSearched (content_in file.now) budget (length file.now.requirements.items) whole.now }
    ensures { IfOk result (λ text. string_bytes text ≡ all_text true (content_in file.now)
        whole.now.explored.places (chosen_with (content_in file.now) (length file.now.requirements.items)
        whole.now.explored.runs)) }
{
    let program = told_program(file, whole);
    let required = has_requirements(file);
    ends_text(
        alloc,
        &program,
        whole.conditions.as_slice(),
        required,
        &whole.explored,
    )
}

/// Prints each outcome that has all that the file requires.
pub fn print_listed<W: Write>(
    alloc: Global,
    file: &LitmusFile<'_, Global>,
    budget: u32,
    whole: &Searched,
    output: &mut W,
) -> Result<(), PrintError>
    requires file { IsLitmusFile file.now }
    requires whole { IsSearched (content_in file.now) budget (length file.now.requirements.items) whole.now }
    ensures printed { IsPrintedIfMemory (all_text false (content_in file.now) whole.now.explored.places
        (chosen_with (content_in file.now) (length file.now.requirements.items) whole.now.explored.runs))
        (W.contents output.old) (W.contents output.new) result }
    ensures unwritten { IsUnprinted output.old output.new result }
{
    let program = told_program(file, whole);
    let required = has_requirements(file);
    let conditions = whole.conditions.as_slice();
    print_outcomes(
        alloc,
        &program,
        conditions,
        required,
        &whole.explored,
        output,
    )
}

/// The program of a file, as the texts of its outcomes tell of it.
fn told_program<'a, 't>(
    file: &'a LitmusFile<'t, Global>,
    whole: &'a Searched,
) -> ToldProgram<'a, 't, Global>
    ensures rows { result.rows.now ≡ file.now.rows }
    ensures names { result.names.now ≡ file.now.names.items }
    ensures voices { result.voices.now ≡ file.now.voices.items }
    ensures commands { result.commands.now ≡ whole.now.commands.items }
{
    ToldProgram {
        rows: file.rows.rows(),
        names: file.names.as_slice(),
        voices: file.voices.as_slice(),
        commands: whole.commands.as_slice(),
    }
}
