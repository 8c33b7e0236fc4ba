//! A litmus file from bytes to what is printed.

ghost use Rattle.std.specs.Prelude.{◌≡◌, IfErr, IfOk, Ok, None, Some};
ghost use Rattle.std.specs.Prelude.{false, length, string_bytes, true};
ghost use Rattle.litmus_files.specs.LitmusDraft.{IsLitmusFile, content_in};
ghost use Rattle.litmus_files.specs.LitmusFile.{litmus_content_of};
ghost use Rattle.outcome_text.specs.Searched.{HasMorePlacesWith, IsSearched, all_text, chosen_with};
ghost use Rattle.tracer_cli.specs.Explored.{IsShown, IsUnshown, PrintsOutcomes, WritesShown, number_asked, shows_ends};
ghost use Rattle.tracer_cli.specs.Run.{IsUnwritten, WritesIfMemory};

use crate::arguments::{ExploreOptions, Listing};
use crate::failure::Failure;
use crate::print::print;
use litmus_files::{LitmusFile, read_litmus};
use outcome_text::{
    PrintError, Searched, ends_of, explain, is_forbidden, outcome_replay, print_listed, search,
};
use std::alloc::Global;
use std::io::Write;

/// Prints the outcomes of the program of a litmus file, how they end, or the order of one of them as a replay file.
pub(crate) fn explore_file<W: Write>(
    alloc: Global,
    text: &[u8],
    options: ExploreOptions,
    output: &mut W,
) -> Result<(), Failure>
    ensures printed { PrintsOutcomes options (litmus_content_of text.now) (W.contents output.old)
        (W.contents output.new) result }
    ensures unwritten { IsUnwritten output.old output.new result }
{
    let file = read_litmus(alloc, text)?;
    explore_content(alloc, &file, options, output)
}

/// Prints the outcomes of a program, how they end, or the order of one of them.
fn explore_content<W: Write>(
    alloc: Global,
    file: &LitmusFile<'_, Global>,
    options: ExploreOptions,
    output: &mut W,
) -> Result<(), Failure>
    requires { IsLitmusFile file.now }
    ensures printed { PrintsOutcomes options (Ok (content_in file.now)) (W.contents output.old)
        (W.contents output.new) result }
    ensures unwritten { IsUnwritten output.old output.new result }
{
    let whole = search(alloc, file, options.budget, file.requirements.len())?;
    match number_asked(options.listing) {
        Some(number) => {
            let order = order_text(alloc, file, options, &whole, number)?;
            print(order.as_bytes(), output)
        }
        None => print_found(alloc, file, options, &whole, output),
    }
}

/// The number of the one outcome that is asked for, if one is.
fn number_asked(listing: Listing) -> Option<u32>
    ensures { result ≡ number_asked listing }
{
    match listing {
        Listing::Replay(number) => Some(number),
        Listing::Outcomes | Listing::Ends => None,
    }
}

/// Whether it is asked for how the outcomes end.
fn shows_ends(listing: Listing) -> bool
    ensures { result ≡ shows_ends listing }
{
    matches!(listing, Listing::Ends)
}

/// Prints all outcomes, or how they end; or that none has all that the file requires.
fn print_found<W: Write>(
    alloc: Global,
    file: &LitmusFile<'_, Global>,
    options: ExploreOptions,
    whole: &Searched,
    output: &mut W,
) -> Result<(), Failure>
    requires file { IsLitmusFile file.now }
    requires whole { IsSearched (content_in file.now) options.budget (length file.now.requirements.items) whole.now }
    requires few { ¬ HasMorePlacesWith (content_in file.now) (length file.now.requirements.items) options.budget }
    requires all { number_asked options.listing ≡ None }
    ensures printed { PrintsOutcomes options (Ok (content_in file.now)) (W.contents output.old)
        (W.contents output.new) result }
    ensures unwritten { IsUnwritten output.old output.new result }
{
    if is_forbidden(alloc, file, options.budget, whole)? {
        let text = explain(alloc, file, options.budget, whole)?;
        return print_forbidden(text.as_str(), output);
    }
    let ends = shows_ends(options.listing);
    print_chosen(alloc, file, options.budget, whole, ends, output)
}

/// Prints what is said of a program none of whose outcomes has all that its file requires.
fn print_forbidden<W: Write>(text: &str, output: &mut W) -> Result<(), Failure>
    ensures printed { WritesShown text.now true (W.contents output.old) (W.contents output.new) result }
    ensures unwritten { IsUnwritten output.old output.new result }
{
    print(text.as_bytes(), output)?;
    Err(Failure::Forbidden)
}

/// Prints all outcomes that have all that the file requires, or how they end.
fn print_chosen<W: Write>(
    alloc: Global,
    file: &LitmusFile<'_, Global>,
    budget: u32,
    whole: &Searched,
    ends: bool,
    output: &mut W,
) -> Result<(), Failure>
    requires file { IsLitmusFile file.now }
    requires whole { IsSearched (content_in file.now) budget (length file.now.requirements.items) whole.now }
    ensures printed { WritesIfMemory (all_text ends (content_in file.now) whole.now.explored.places
        (chosen_with (content_in file.now) (length file.now.requirements.items) whole.now.explored.runs))
        (W.contents output.old) (W.contents output.new) result }
    ensures unwritten { IsUnwritten output.old output.new result }
{
    if ends {
        let text = ends_of(alloc, file, budget, whole)?;
        return print(text.as_bytes(), output);
    }
    print_each(alloc, file, budget, whole, output)
}

/// Prints each outcome that has all that the file requires.
fn print_each<W: Write>(
    alloc: Global,
    file: &LitmusFile<'_, Global>,
    budget: u32,
    whole: &Searched,
    output: &mut W,
) -> Result<(), Failure>
    requires file { IsLitmusFile file.now }
    requires whole { IsSearched (content_in file.now) budget (length file.now.requirements.items) whole.now }
    ensures printed { WritesIfMemory (all_text false (content_in file.now) whole.now.explored.places
        (chosen_with (content_in file.now) (length file.now.requirements.items) whole.now.explored.runs))
        (W.contents output.old) (W.contents output.new) result }
    ensures unwritten { IsUnwritten output.old output.new result }
{
    match print_listed(alloc, file, budget, whole, output) {
        Ok(()) => Ok(()),
        Err(PrintError::CutOff) => Err(Failure::CannotWrite),
        Err(PrintError::NoMemory) => Err(Failure::NoMemory),
    }
}

/// The order of one outcome as a replay file.
fn order_text(
    alloc: Global,
    file: &LitmusFile<'_, Global>,
    options: ExploreOptions,
    whole: &Searched,
    number: u32,
) -> Result<String, Failure>
    requires file { IsLitmusFile file.now }
    requires whole { IsSearched (content_in file.now) options.budget (length file.now.requirements.items) whole.now }
    requires asked { number_asked options.listing ≡ Some number }
    ensures shown { IfOk result (λ text. IsShown options (content_in file.now) (string_bytes text) false) }
    ensures unshown { IfErr result (IsUnshown options (Ok (content_in file.now))) }
{
    let commands = whole.commands.as_slice();
    let conditions = whole.conditions.as_slice();
    let explored = &whole.explored;
    match outcome_replay(
        alloc,
        &file.rows,
        commands,
        conditions,
        explored,
        number as usize,
    )? {
        Some(text) => Ok(text),
        None => Err(Failure::NoOutcome(number)),
    }
}
