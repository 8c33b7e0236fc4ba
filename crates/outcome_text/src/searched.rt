//! What is found of the program of a litmus file, with some or all of what the file requires.

ghost use Rattle.std.specs.Prelude.{◌≡◌, ◌==◌, Err, IfOk, length, not};
ghost use Rattle.std.specs.List.{list_any};
ghost use Rattle.stop_program.specs.Threads.{commands_in};
ghost use Rattle.litmus_files.specs.LitmusDraft.{IsLitmusFile, content_in};
ghost use Rattle.outcome_text.specs.Chosen.{is_chosen};
ghost use Rattle.outcome_text.specs.Searched.{HasMorePlacesWith, IsSearched, chosen_with, forbids};

use crate::chosen::is_chosen;
use litmus_files::{Condition, LitmusFile, conditions_with, program_with};
use std::alloc::Global;
use stop_board::NoMemory;
use stop_explorer::{ExploreError, Explored, FoundRun, explore};
use stop_program::laws::places_have_one_number;
use stop_program::{ThreadCommand, commands_of};

/// What a search found: the outcomes of the program with the first n of the replies and conditions of its file, beside
/// that program and these conditions.
#[derive(Drop)]
pub struct Searched {
    pub commands: Vec<Vec<ThreadCommand>>,
    pub conditions: Vec<Condition>,
    pub explored: Explored,
}

/// Searches the program with the first `count` of the replies and conditions of its file.
pub fn search(
    alloc: Global,
    file: &LitmusFile<'_, Global>,
    budget: u32,
    count: usize,
) -> Result<Searched, ExploreError>
    requires { IsLitmusFile file.now }
    ensures found { IfOk result (IsSearched (content_in file.now) budget count) }
    ensures few { IfOk result (λ _. ¬ HasMorePlacesWith (content_in file.now) count budget) }
    ensures too_many { result ≡ Err ExploreError.TooMany →
        HasMorePlacesWith (content_in file.now) count budget }
{
    // What is counted says how many places there are, and so that they are not more than the budget.
    places_have_one_number();
    let program = program_with(alloc, count, file.lines.as_slice())?;
    let commands = commands_of(alloc, file.names.len() as u32, program.as_slice())?;
    let voices = file.voices.as_slice();
    let own = commands.as_slice();
    let explored = explore(alloc, &file.rows, voices, own, budget as usize)?;
    let conditions = conditions_with(alloc, count, file.conditions.as_slice())?;
    Ok(Searched {
        commands,
        conditions,
        explored,
    })
}

/// Whether some outcome has each reply, and each of these conditions holds where it ends. None is read after the first.
pub(crate) fn is_some_chosen(
    alloc: Global,
    commands: &[Vec<ThreadCommand>],
    conditions: &[Condition],
    explored: &Explored,
) -> Result<bool, NoMemory>
    ensures { IfOk result (λ is. is ≡ list_any
        (is_chosen (length commands.now) (commands_in commands.now) conditions.now) explored.now.runs) }
{
    let mut run = FoundRun::new(alloc);
    for number in 0..explored.len() {
        explored.read(number, &mut run)?;
        if is_chosen(commands, conditions, &run) {
            return Ok(true);
        }
    }
    Ok(false)
}

/// Whether the file requires something, and no outcome has all of it.
pub fn is_forbidden(
    alloc: Global,
    file: &LitmusFile<'_, Global>,
    budget: u32,
    whole: &Searched,
) -> Result<bool, NoMemory>
    requires file { IsLitmusFile file.now }
    requires whole { IsSearched (content_in file.now) budget (length file.now.requirements.items) whole.now }
    ensures { IfOk result (λ is. is ≡ forbids file.now.requirements.items (chosen_with (content_in file.now)
        (length file.now.requirements.items) whole.now.explored.runs)) }
{
    if !has_requirements(file) {
        return Ok(false);
    }
    let commands = whole.commands.as_slice();
    let conditions = whole.conditions.as_slice();
    let chosen = is_some_chosen(alloc, commands, conditions, &whole.explored)?;
    Ok(!chosen)
}

/// Whether a file has replies or conditions.
pub(crate) fn has_requirements(file: &LitmusFile<'_, Global>) -> bool
    ensures { result ≡ not (length file.now.requirements.items == 0) }
{
    !file.requirements.is_empty()
}
