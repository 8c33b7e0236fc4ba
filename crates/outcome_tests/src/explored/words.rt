//! How outcomes of rounds are printed: by the words of litmus files.

use crate::explored::programs::Round;
use std::alloc::{AllocError, Global};
use stop_board::Got;
use stop_program::Answer;

/// What a thread was answered. `done` is the word for a command that was simply done.
fn word_of(alloc: Global, answer: Answer, done: &str) -> Result<String, AllocError> {
    match answer {
        Answer::Number(number) => format!(in alloc; "published {number}"),
        Answer::State(state) => format!(in alloc; "{state:?}"),
        Answer::Got(got) => got_word(alloc, got),
        Answer::Saw(got) => got_word(alloc, got),
        Answer::Done => format!(in alloc; "{done}"),
        Answer::Dead => format!(in alloc; "dead"),
        Answer::Nothing => format!(in alloc; "nothing"),
        Answer::NoChild => format!(in alloc; "no child"),
        Answer::Refused(refusal) => format!(in alloc; "refused {refusal:?}"),
    }
}

fn got_word(alloc: Global, got: Got) -> Result<String, AllocError> {
    match got {
        Got::Stop(number, status) => format!(in alloc; "stop {number} {status:#08x}"),
        Got::Ended(number, status) => format!(in alloc; "ended {number} {status:#08x}"),
    }
}

/// Adds a thread's name and its answers to a line.
fn add_thread(
    text: &mut String,
    alloc: Global,
    name: &str,
    answers: &[Answer],
    done: &str,
) -> Result<(), AllocError> {
    let mut before = if text.is_empty() { "" } else { "; " };
    text.push_str(before)?;
    text.push_str(name)?;
    before = " ";
    for answer in answers {
        text.push_str(before)?;
        text.push_str(word_of(alloc, *answer, done)?.as_str())?;
        before = ", ";
    }
    Ok(())
}

/// What each thread of a round was answered, in one line.
pub(crate) fn words_of(
    alloc: Global,
    round: &Round,
    has_looker: bool,
) -> Result<String, AllocError> {
    let mut text = String::new(alloc);
    add_thread(&mut text, alloc, "tracee", &round.tracee, "exited")?;
    add_thread(&mut text, alloc, "waiter", &round.waiter, "resumed")?;
    if has_looker {
        add_thread(&mut text, alloc, "looker", &round.looker, "resumed")?;
    }
    Ok(text)
}
