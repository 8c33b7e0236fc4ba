//! Conditions: what has to hold where an outcome ends. Each is a line after the last command.

ghost use Rattle.std.specs.Prelude.{◌≡◌, Err, Ok, if◌then◌else◌};
ghost use Rattle.text_lines.specs.declared.fault.LineFault.TheVariants.{UnknownWord};
ghost use Rattle.text_lines.specs.Ranges.{if_said};
ghost use Rattle.text_lines.specs.Words.{words_left};
ghost use Rattle.litmus_files.specs.LitmusCondition.{condition_asked, condition_of_words, is_not_word, is_thread_word};
ghost use Rattle.litmus_files.specs.LitmusCondition.{is_waits_word, thread_condition, tracee_aim, tracee_condition};
ghost use Rattle.litmus_files.specs.LitmusCondition.{Thread, tracee_in_state};

use crate::keyword::is_any_word;
use replay_files::{STATE_NAMES, StateName};
use text_lines::{LineFault, Words, keyword};
use trace_script::id;

/// Whether a condition asks that something is so, or that it is not.
#[derive(Clone, Copy, Debug, PartialEq, Eq)]
pub enum Sense {
    Is,
    IsNot,
}

/// A condition, as its line says it.
#[derive(Clone, Copy)]
pub(crate) enum LitmusCondition<'t> {
    /// The tracee of this thread id is in this state at the end, or is not.
    Tid(u32, Sense, StateName),
    /// Some tracee is, or some is not.
    Any(Sense, StateName),
    /// The thread of this name waits at the end, or does not.
    Thread(&'t [u8], Sense),
}

/// A condition, by the words after `only`. All words are looked at before any number.
pub(crate) fn condition_of<'t>(words: Words<'t>) -> Result<LitmusCondition<'t>, LineFault>
    ensures { if_said condition_asked result ≡ condition_of_words (words_left words.entry) }
{
    let mut rest = words;
    match rest.next_word() {
        Some(first) if is_thread_word(first) => thread_condition(words),
        _ => tracee_condition(words),
    }
}

/// `thread NAME waits`, `thread NAME not waits`. Which thread has this name is for the file to find.
fn thread_condition<'t>(words: Words<'t>) -> Result<LitmusCondition<'t>, LineFault>
    ensures { if_said condition_asked result ≡ thread_condition (words_left words.entry) }
{
    if let Ok((_, name, waits)) = words.three() {
        return thread_sense(name, Sense::Is, is_waits_word(waits));
    }
    let (_, name, not, waits) = words.four()?;
    thread_sense(name, Sense::IsNot, is_not_word(not) && is_waits_word(waits))
}

/// What is asked of a thread, where the other words of the line are known.
fn thread_sense<'t>(
    name: &'t [u8],
    sense: Sense,
    known: bool,
) -> Result<LitmusCondition<'t>, LineFault>
    ensures { if_said condition_asked result ≡ (if known then Ok (Thread name.now sense) else Err UnknownWord) }
{
    if known {
        Ok(LitmusCondition::Thread(name, sense))
    } else {
        Err(LineFault::UnknownWord)
    }
}

/// `TID STATE`, `TID not STATE`, and so of `any`.
fn tracee_condition<'t>(words: Words<'_>) -> Result<LitmusCondition<'t>, LineFault>
    ensures { if_said condition_asked result ≡ tracee_condition (words_left words.entry) }
{
    if let Ok((named, state)) = words.two() {
        return tracee_in_state(named, Sense::Is, state);
    }
    let (named, not, state) = words.three()?;
    if !is_not_word(not) {
        return Err(LineFault::UnknownWord);
    }
    tracee_in_state(named, Sense::IsNot, state)
}

fn tracee_in_state<'t>(
    named: &[u8],
    sense: Sense,
    state: &[u8],
) -> Result<LitmusCondition<'t>, LineFault>
    ensures { if_said condition_asked result ≡ tracee_in_state named.now sense state.now }
{
    let state = keyword(&STATE_NAMES, state)?;
    tracee_aim(named, sense, state)
}

/// Some tracee, or that of a thread id.
fn tracee_aim<'t>(
    named: &[u8],
    sense: Sense,
    state: StateName,
) -> Result<LitmusCondition<'t>, LineFault>
    ensures { if_said condition_asked result ≡ tracee_aim named.now sense state }
{
    if is_any_word(named) {
        return Ok(LitmusCondition::Any(sense, state));
    }
    Ok(LitmusCondition::Tid(id(named)?, sense, state))
}

/// Whether a condition is about a thread.
fn is_thread_word(word: &[u8]) -> bool
    ensures { result ≡ is_thread_word word.now }
{
    word == b"thread".as_slice()
}

/// Whether a condition asks that something is not so.
fn is_not_word(word: &[u8]) -> bool
    ensures { result ≡ is_not_word word.now }
{
    word == b"not".as_slice()
}

/// What a condition asks of a thread.
fn is_waits_word(word: &[u8]) -> bool
    ensures { result ≡ is_waits_word word.now }
{
    word == b"waits".as_slice()
}
