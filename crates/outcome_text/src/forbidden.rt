//! The first requirement of a litmus file with which those down to it cannot all be met, by halving.

ghost use Rattle.std.specs.Prelude.{◌≡◌, ◌≤◌, ◌<◌, ◌-◌, ◌⊎◌, ℕ, Decides, Err, IfOk, false, length};
ghost use Rattle.std.specs.Prelude.{slice_get, string_bytes};
ghost use Rattle.litmus_files.specs.LitmusDraft.{IsLitmusFile, content_in};
ghost use Rattle.outcome_text.specs.Halving.{IsAskedFrom, IsFirstUnmet, IsForbiddenText};
ghost use Rattle.outcome_text.specs.Searched.{CanMeet, HasMorePlacesWith, IsSearched, have_numbers_to};

use crate::searched::{Searched, is_some_chosen, search};
use crate::text::forbidden_text;
use litmus_files::{LitmusFile, NumberedLine, conditions_with};
use std::alloc::Global;
use stop_board::NoMemory;
use stop_explorer::ExploreError;

/// What is said of a program whose requirements cannot all be met: the line of the first one with which those down to
/// it cannot.
pub fn explain(
    alloc: Global,
    file: &LitmusFile<'_, Global>,
    budget: u32,
    whole: &Searched,
) -> Result<String, NoMemory>
    requires file { IsLitmusFile file.now }
    requires whole { IsSearched (content_in file.now) budget (length file.now.requirements.items) whole.now }
    requires some { 1 ≤ length file.now.requirements.items }
    requires unmet { ¬ CanMeet (content_in file.now) (length file.now.requirements.items) }
    ensures { IfOk result (λ text. IsForbiddenText budget (content_in file.now) (string_bytes text)) }
{
    match first_unmet(alloc, file, budget, whole, 0, file.requirements.len()) {
        Ok(count) => forbidden_text(alloc, line_of(file, count)),
        Err(ExploreError::TooMany) => forbidden_text(alloc, None),
        Err(ExploreError::NoMemory) => Err(NoMemory),
    }
}

/// The line of a requirement, which are numbered from 1.
fn line_of(file: &LitmusFile<'_, Global>, number: usize) -> Option<u32>
    requires { 1 ≤ number }
    ensures { result ≡ slice_get file.now.requirements.items (number - 1) }
{
    file.requirements.get(number - 1).copied()
}

/// The number of the first requirement with which those down to it cannot all be met, by halving: those down to `low`
/// can be met, or that is 0, and those down to `high` cannot. It fails where a search that it asks for does.
fn first_unmet(
    alloc: Global,
    file: &LitmusFile<'_, Global>,
    budget: u32,
    whole: &Searched,
    low: usize,
    high: usize,
) -> Result<usize, ExploreError>
    requires file { IsLitmusFile file.now }
    requires whole { IsSearched (content_in file.now) budget (length file.now.requirements.items) whole.now }
    requires between { low < high }
    requires within { high ≤ length file.now.requirements.items }
    requires met { (low ≡ 0) ⊎ CanMeet (content_in file.now) low }
    requires unmet { ¬ CanMeet (content_in file.now) high }
    ensures found { IfOk result (IsFirstUnmet (content_in file.now)) }
    ensures few { IfOk result (λ _. (count : ℕ) → IsAskedFrom (content_in file.now) low high count →
        ¬ HasMorePlacesWith (content_in file.now) count budget) }
    ensures too_many { result ≡ Err ExploreError.TooMany → (count : ℕ)
        × IsAskedFrom (content_in file.now) low high count × HasMorePlacesWith (content_in file.now) count budget }
{
    if high - low <= 1 {
        return Ok(high);
    }
    let middle = low + (high - low) / 2;
    if can_meet(alloc, file, budget, whole, middle)? {
        first_unmet(alloc, file, budget, whole, middle, high)
    } else {
        first_unmet(alloc, file, budget, whole, low, middle)
    }
}

/// Whether the first `count` requirements can all be met. Where each reply is among these, the outcomes that were found
/// with all requirements decide, without another search.
fn can_meet(
    alloc: Global,
    file: &LitmusFile<'_, Global>,
    budget: u32,
    whole: &Searched,
    count: usize,
) -> Result<bool, ExploreError>
    requires file { IsLitmusFile file.now }
    requires whole { IsSearched (content_in file.now) budget (length file.now.requirements.items) whole.now }
    requires few { count ≤ length file.now.requirements.items }
    ensures met { IfOk result (λ can. Decides can (CanMeet (content_in file.now) count)) }
    ensures few { IfOk result (λ _. have_numbers_to count file.now.lines.items ≡ false →
        ¬ HasMorePlacesWith (content_in file.now) count budget) }
    ensures too_many { result ≡ Err ExploreError.TooMany → (have_numbers_to count file.now.lines.items ≡ false)
        × HasMorePlacesWith (content_in file.now) count budget }
{
    if have_numbers_to(count, file.lines.as_slice()) {
        let conditions = conditions_with(alloc, count, file.conditions.as_slice())?;
        let commands = whole.commands.as_slice();
        let can = is_some_chosen(alloc, commands, conditions.as_slice(), &whole.explored)?;
        return Ok(can);
    }
    let part = search(alloc, file, budget, count)?;
    let commands = part.commands.as_slice();
    let can = is_some_chosen(alloc, commands, part.conditions.as_slice(), &part.explored)?;
    Ok(can)
}

/// Whether the replies of all commands are among the first `count` requirements.
fn have_numbers_to(count: usize, lines: &[NumberedLine]) -> bool
    ensures { result ≡ have_numbers_to count lines.now }
{
    lines.iter().all(|numbered| numbered.number <= count)
}
