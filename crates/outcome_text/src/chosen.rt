//! The outcomes that are printed: those in which every command with a reply was done, and every condition holds.

ghost use Rattle.std.specs.Prelude.{◌≡◌, IfOk, is_none, length, slice_get};
ghost use Rattle.std.specs.List.{list_all};
ghost use Rattle.stop_program.specs.Program.{own_turns};
ghost use Rattle.stop_program.specs.Progress.{has_reply, is_quiet};
ghost use Rattle.stop_program.specs.Replies.{done_from};
ghost use Rattle.stop_program.specs.Threads.{commands_in};
ghost use Rattle.outcome_text.specs.Chosen.{asks_nothing, chosen_of, ending_numbered, has_come_true, has_no_reply};
ghost use Rattle.outcome_text.specs.Chosen.{has_thread_come_true, have_come_true, is_chosen, lacks_replies, was_done};

use crate::condition::conditions_hold;
use litmus_files::Condition;
use std::alloc::Allocator;
use stop_board::NoMemory;
use stop_explorer::{Explored, FoundRun};
use stop_program::{ThreadCommand, Turn, Voice, index_after};

/// The commands of a thread. There are none past the last thread.
pub(crate) fn thread_commands<A: Allocator>(
    commands: &[Vec<ThreadCommand, A>],
    thread: usize,
) -> &[ThreadCommand]
    ensures { result.now ≡ commands_in commands.now thread }
{
    match commands.get(thread) {
        Some(own) => own.as_slice(),
        None => &[],
    }
}

/// Whether what a thread is answered does not tell outcomes apart. A thread past the last one is loud.
pub(crate) fn is_quiet(voices: &[Voice], thread: usize) -> bool
    ensures { result ≡ is_quiet voices.now thread }
{
    match voices.get(thread) {
        Some(voice) => *voice == Voice::Quiet,
        None => false,
    }
}

// ---- replies

/// Whether a thread's command at a place has a reply.
fn has_reply(commands: &[ThreadCommand], at: usize) -> bool
    ensures { result ≡ has_reply (slice_get commands.now at) }
{
    match commands.get(at) {
        None => false,
        Some(command) => command.wanted.is_some(),
    }
}

// ---- replies that came true

/// Whether each command that has a reply was done by these turns.
#[tactic(auto, using(crate::proofs::AllOf::all_steps), unfolding(crate::specs::Chosen::have_come_true))]
fn have_come_true<A: Allocator>(commands: &[Vec<ThreadCommand, A>], turns: &[Turn]) -> bool
    ensures { result ≡ have_come_true (length commands.now) (commands_in commands.now) turns.now }
{
    for thread in 0..commands.len() {
        if !has_thread_come_true(thread_commands(commands, thread), turns, thread) {
            return false;
        }
    }
    true
}

/// Whether each command of a thread that has a reply was done.
#[tactic(auto, using(crate::proofs::AllOf::all_steps), unfolding(crate::specs::Chosen::has_thread_come_true))]
fn has_thread_come_true(commands: &[ThreadCommand], turns: &[Turn], thread: usize) -> bool
    ensures { result
        ≡ has_thread_come_true commands.now (done_from commands.now 0 (own_turns thread turns.now)) }
{
    for at in 0..commands.len() {
        if !has_come_true(commands, turns, thread, at) {
            return false;
        }
    }
    true
}

/// Whether a thread's command at a place has no reply, or was done.
fn has_come_true(commands: &[ThreadCommand], turns: &[Turn], thread: usize, at: usize) -> bool
    ensures { result ≡ has_come_true commands.now (done_from commands.now 0 (own_turns thread turns.now)) at }
{
    !has_reply(commands, at) || was_done(commands, turns, thread, at)
}

/// Whether a thread's command at a place was done. The one that a thread waits at was not.
fn was_done(commands: &[ThreadCommand], turns: &[Turn], thread: usize, at: usize) -> bool
    ensures { result ≡ was_done at (done_from commands.now 0 (own_turns thread turns.now)) }
{
    let mut next = 0;
    for turn in turns {
        if turn.thread as usize == thread {
            if next == at {
                return true;
            }
            next = index_after(commands, next, &turn.answer);
        }
    }
    false
}

// ---- the outcomes

/// Whether a run has each reply, and each of these conditions holds where it ends.
#[tactic(auto, unfolding(crate::specs::Chosen::is_chosen))]
pub(crate) fn is_chosen<A: Allocator>(
    commands: &[Vec<ThreadCommand, A>],
    conditions: &[Condition],
    run: &FoundRun<A>,
) -> bool
    ensures { result ≡ is_chosen (length commands.now) (commands_in commands.now) conditions.now run.now }
{
    have_come_true(commands, run.turns()) && conditions_hold(commands, conditions, run)
}

/// Whether no command has a reply and there is no condition. Every outcome is printed then, so outcomes need not be
/// read to be counted.
pub(crate) fn asks_nothing<A: Allocator>(
    commands: &[Vec<ThreadCommand, A>],
    conditions: &[Condition],
) -> bool
    ensures { result ≡ asks_nothing commands.now conditions.now }
{
    conditions.is_empty() && lacks_replies(commands)
}

/// Whether no command of any thread has a reply.
fn lacks_replies<A: Allocator>(commands: &[Vec<ThreadCommand, A>]) -> bool
    ensures { result ≡ lacks_replies commands.now }
{
    commands.iter().all(|own| has_no_reply(own.as_slice()))
}

/// Whether no command of a thread has a reply.
fn has_no_reply(commands: &[ThreadCommand]) -> bool
    ensures { result ≡ has_no_reply commands.now }
{
    commands.iter().all(|command| command.wanted.is_none())
}

/// Whether an outcome is printed. `all` is what `asks_nothing` answers.
pub(crate) fn is_printed<A: Allocator>(
    all: bool,
    commands: &[Vec<ThreadCommand, A>],
    conditions: &[Condition],
    run: &FoundRun<A>,
) -> bool
    requires { all ≡ asks_nothing commands.now conditions.now }
    ensures { result ≡ is_chosen (length commands.now) (commands_in commands.now) conditions.now run.now }
{
    all || is_chosen(commands, conditions, run)
}

/// How many outcomes are printed.
pub(crate) fn count_chosen<A: Allocator + Copy>(
    alloc: A,
    commands: &[Vec<ThreadCommand, A>],
    conditions: &[Condition],
    explored: &Explored<A>,
) -> Result<usize, NoMemory>
    ensures { IfOk result (λ count. count
        ≡ length (chosen_of (length commands.now) (commands_in commands.now) conditions.now explored.now.runs)) }
{
    if asks_nothing(commands, conditions) {
        return Ok(explored.len());
    }
    let mut run = FoundRun::new(alloc);
    let mut count = 0;
    for number in 0..explored.len() {
        explored.read(number, &mut run)?;
        if is_chosen(commands, conditions, &run) {
            count += 1;
        }
    }
    Ok(count)
}

/// The outcome that is printed with this number, from 1 on, if there is one.
pub(crate) fn chosen_run<A: Allocator + Copy>(
    alloc: A,
    commands: &[Vec<ThreadCommand, A>],
    conditions: &[Condition],
    explored: &Explored<A>,
    number: usize,
) -> Result<Option<FoundRun<A>>, NoMemory>
    ensures { IfOk result (λ found. found ≡ ending_numbered number
        (chosen_of (length commands.now) (commands_in commands.now) conditions.now explored.now.runs)) }
{
    if asks_nothing(commands, conditions) {
        return numbered_run(alloc, explored, number);
    }
    let mut run = FoundRun::new(alloc);
    let mut count = 0;
    for at in 0..explored.len() {
        explored.read(at, &mut run)?;
        if is_chosen(commands, conditions, &run) {
            count += 1;
            if count == number {
                return Ok(Some(run));
            }
        }
    }
    Ok(None)
}

/// The outcome of this number, from 1 on, if there is one.
fn numbered_run<A: Allocator + Copy>(
    alloc: A,
    explored: &Explored<A>,
    number: usize,
) -> Result<Option<FoundRun<A>>, NoMemory>
    ensures { IfOk result (λ found. found ≡ ending_numbered number explored.now.runs) }
{
    if number == 0 || number > explored.len() {
        return Ok(None);
    }
    let mut run = FoundRun::new(alloc);
    explored.read(number - 1, &mut run)?;
    Ok(Some(run))
}
