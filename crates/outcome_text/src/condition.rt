//! Whether conditions hold where an outcome ends.

ghost use Rattle.std.specs.Prelude.{◌≡◌, ◌<◌, ◌^◌, is_some};
ghost use Rattle.std.specs.List.{list_all, list_any};
ghost use Rattle.stop_program.specs.Threads.{commands_in};
ghost use Rattle.outcome_text.specs.Conditions.{agrees, condition_holds, conditions_hold, waits_at_end};
ghost use Rattle.replay_files.specs.StateName.{has_name};

use crate::chosen::thread_commands;
use crate::waiting::state_at;
use litmus_files::{Condition, Sense};
use replay_files::{StateName, has_name};
use std::alloc::Allocator;
use stop_board::State;
use stop_explorer::FoundRun;
use stop_program::{ThreadCommand, Turn, command_after};

/// Whether all of these conditions hold.
pub(crate) fn conditions_hold<A: Allocator>(
    commands: &[Vec<ThreadCommand, A>],
    conditions: &[Condition],
    run: &FoundRun<A>,
) -> bool
    ensures { result ≡ conditions_hold (commands_in commands.now) conditions.now run.now }
{
    conditions
        .iter()
        .all(|condition| condition_holds(commands, condition, run))
}

/// Whether a condition holds.
fn condition_holds<A: Allocator>(
    commands: &[Vec<ThreadCommand, A>],
    condition: &Condition,
    run: &FoundRun<A>,
) -> bool
    ensures { result ≡ condition_holds (commands_in commands.now) run.now condition.now }
{
    match *condition {
        Condition::Tracee(row, sense, name) => {
            agrees(sense, has_name(name, state_at(run.states(), row as usize)))
        }
        Condition::SomeTracee(sense, name) => some_agrees(sense, name, run.states()),
        Condition::Thread(thread, sense) => {
            agrees(sense, waits_at_end(commands, run.turns(), thread))
        }
    }
}

/// Whether some state is of this name, or some is not.
fn some_agrees(sense: Sense, name: StateName, states: &[State]) -> bool
    ensures { result ≡ list_any (λ state. agrees sense (has_name name state)) states.now }
{
    states
        .iter()
        .any(|state| agrees(sense, has_name(name, *state)))
}

/// Whether something is so, where that is asked for, or is not so.
fn agrees(sense: Sense, is: bool) -> bool
    ensures { result ≡ agrees sense is }
{
    match sense {
        Sense::Is => is,
        Sense::IsNot => !is,
    }
}

/// Whether a thread has a command left after these turns, at which it waits.
pub(crate) fn waits_at_end<A: Allocator>(
    commands: &[Vec<ThreadCommand, A>],
    turns: &[Turn],
    thread: u32,
) -> bool
    ensures { result ≡ waits_at_end (commands_in commands.now) turns.now thread }
{
    let own = thread_commands(commands, thread as usize);
    command_after(own, turns, thread).is_some()
}
