//! The reply after a command's `=`, by its words and by the command. All words are looked at before any number.

ghost use Rattle.std.specs.Prelude.{◌≡◌, map};
ghost use Rattle.text_lines.specs.Words.{words_left};
ghost use Rattle.litmus_files.specs.LitmusReply.{bare_reply, claim_row_reply, exit_reply, got_of_words, got_reply};
ghost use Rattle.litmus_files.specs.LitmusReply.{got_told, got_with_numbers, is_star, names_several, no_child_reply};
ghost use Rattle.litmus_files.specs.LitmusReply.{none_reply, nothing_reply, numbered_state, or_else, plain_state};
ghost use Rattle.litmus_files.specs.LitmusReply.{kill_reply, publish_reply};
ghost use Rattle.litmus_files.specs.LitmusReply.{refused_reply, reply_of_words, resume_reply, row_reply, scan_reply};
ghost use Rattle.litmus_files.specs.LitmusReply.{state_of_words, state_reply, status_number};
ghost use Rattle.litmus_files.specs.LitmusReply.{stop_number, tid_reply, wanted_refusal, wanted_status, wanted_stop};
ghost use Rattle.litmus_files.specs.LitmusReply.{tid_before, wanted_tracer, without_tid};

use crate::keyword::{CommandKeyword, is_any_word, is_group_word, is_it_word};
use crate::line::LitmusReply;
use replay_files::{STATE_NAMES, StateName, tracer_of};
use stop_board::{LAST_NUMBER, Refused};
use stop_program::{WantedAnswer, WantedGot, WantedState};
use text_lines::{LineFault, Words, keyword, number_between};
use trace_script::id;

/// The word of what a claim got.
#[derive(Clone, Copy, Debug, PartialEq, Eq)]
pub(crate) enum GotWord {
    Stop,
    Ended,
}

/// What a claim can get.
const GOT_WORDS: [(&str, GotWord); 2] = [("stop", GotWord::Stop), ("ended", GotWord::Ended)];

/// The refusals that a publish does not wait out.
const PUBLISH_REFUSALS: [(&str, Refused); 2] = [
    ("NotNext", Refused::NotNext),
    ("Full", Refused::Full),
];

/// The refusals of a claim or a look at once.
const CLAIM_REFUSALS: [(&str, Refused); 2] = [
    ("Unborn", Refused::Unborn),
    ("NotWaitable", Refused::NotWaitable),
];

/// The refusals of a resume.
const RESUME_REFUSALS: [(&str, Refused); 3] = [
    ("Unborn", Refused::Unborn),
    ("NotClaimed", Refused::NotClaimed),
    ("NotHolder", Refused::NotHolder),
];

/// The reply to a command, by the reply's words. `named` is the word in the place of the command's TID.
pub(crate) fn reply_of(
    keyword: CommandKeyword,
    named: &[u8],
    words: Words<'_>,
) -> Result<LitmusReply, LineFault>
    ensures { result ≡ reply_of_words keyword named.now (words_left words.entry) }
{
    let none = without_tid(none_reply(keyword, named, words));
    let bare = without_tid(bare_reply(keyword, named, words));
    or_else(none, or_else(bare, tid_reply(keyword, named, words)))
}

/// What is read, or something else where its words are not known.
fn or_else(
    read: Result<LitmusReply, LineFault>,
    other: Result<LitmusReply, LineFault>,
) -> Result<LitmusReply, LineFault>
    ensures { result ≡ or_else read other }
{
    match read {
        Err(LineFault::UnknownWord) => other,
        read => read,
    }
}

/// A reply that has no thread id.
fn without_tid(answer: Result<WantedAnswer, LineFault>) -> Result<LitmusReply, LineFault>
    ensures { result ≡ without_tid answer }
{
    Ok(LitmusReply {
        tid: None,
        answer: answer?,
    })
}

/// A reply with a thread id before it.
fn tid_before(tid: &[u8], answer: Result<WantedAnswer, LineFault>) -> Result<LitmusReply, LineFault>
    ensures { result ≡ tid_before tid.now answer }
{
    let answer = answer?;
    let tid = id(tid)?;
    Ok(LitmusReply {
        tid: Some(tid),
        answer,
    })
}

// ---- with a thread id, and without

/// A reply about a tracee, without its thread id. A command that takes any of several tracees has none.
fn bare_reply(
    keyword: CommandKeyword,
    named: &[u8],
    words: Words<'_>,
) -> Result<WantedAnswer, LineFault>
    ensures { result ≡ bare_reply keyword named.now (words_left words.entry) }
{
    if names_several(keyword, named) {
        return Err(LineFault::UnknownWord);
    }
    row_reply(keyword, named, words)
}

/// A reply about a tracee, with its thread id as its first word.
fn tid_reply(
    keyword: CommandKeyword,
    named: &[u8],
    words: Words<'_>,
) -> Result<LitmusReply, LineFault>
    ensures { result ≡ tid_reply keyword named.now (words_left words.entry) }
{
    let mut rest = words;
    let tid = rest.word()?;
    tid_before(tid, row_reply(keyword, named, rest))
}

/// Whether a command takes any of several tracees, by the word in the place of its TID.
fn names_several(keyword: CommandKeyword, named: &[u8]) -> bool
    ensures { result ≡ names_several keyword named.now }
{
    match keyword {
        CommandKeyword::Publish => false,
        CommandKeyword::Exit => false,
        CommandKeyword::State => false,
        CommandKeyword::Claim => is_any_word(named) || is_group_word(named),
        CommandKeyword::Wait => is_any_word(named) || is_group_word(named),
        CommandKeyword::Look => is_any_word(named) || is_group_word(named),
        CommandKeyword::Peek => is_any_word(named) || is_group_word(named),
        CommandKeyword::Resume => false,
        CommandKeyword::Kill => false,
        CommandKeyword::ExitGroup => false,
    }
}

// ---- about a tracee

/// What a command may be answered about a tracee.
fn row_reply(
    keyword: CommandKeyword,
    named: &[u8],
    words: Words<'_>,
) -> Result<WantedAnswer, LineFault>
    ensures { result ≡ row_reply keyword named.now (words_left words.entry) }
{
    match keyword {
        CommandKeyword::Publish => publish_reply(words),
        CommandKeyword::Exit => exit_reply(words),
        CommandKeyword::State => state_reply(words),
        CommandKeyword::Claim => claim_row_reply(keyword, named, words),
        CommandKeyword::Wait => got_reply(keyword, words),
        CommandKeyword::Look => got_reply(keyword, words),
        CommandKeyword::Peek => claim_row_reply(keyword, named, words),
        CommandKeyword::Resume => resume_reply(words),
        CommandKeyword::Kill => kill_reply(words),
        CommandKeyword::ExitGroup => exit_reply(words),
    }
}

fn publish_reply(words: Words<'_>) -> Result<WantedAnswer, LineFault>
    ensures { result ≡ publish_reply (words_left words.entry) }
{
    match words.two() {
        Ok((word, number)) if word == b"published".as_slice() => {
            Ok(WantedAnswer::Number(wanted_stop(number)?))
        }
        _ => refused_reply(&PUBLISH_REFUSALS, words),
    }
}

fn exit_reply(words: Words<'_>) -> Result<WantedAnswer, LineFault>
    ensures { result ≡ exit_reply (words_left words.entry) }
{
    match words.one() {
        Ok(word) if word == b"exited".as_slice() => Ok(WantedAnswer::Done),
        _ => Err(LineFault::UnknownWord),
    }
}

fn state_reply(words: Words<'_>) -> Result<WantedAnswer, LineFault>
    ensures { result ≡ state_reply (words_left words.entry) }
{
    Ok(WantedAnswer::State(state_of(words)?))
}

/// The reply to a claim at once, or a look at once. Of several tracees none is refused.
fn claim_row_reply(
    keyword: CommandKeyword,
    named: &[u8],
    words: Words<'_>,
) -> Result<WantedAnswer, LineFault>
    ensures { result ≡ claim_row_reply keyword named.now (words_left words.entry) }
{
    if words.three().is_ok() {
        return got_reply(keyword, words);
    }
    if names_several(keyword, named) {
        return Err(LineFault::UnknownWord);
    }
    refused_reply(&CLAIM_REFUSALS, words)
}

/// A stop or a death.
fn got_reply(keyword: CommandKeyword, words: Words<'_>) -> Result<WantedAnswer, LineFault>
    ensures { result ≡ got_reply keyword (words_left words.entry) }
{
    let (name, number, status) = words.three()?;
    Ok(got_told(keyword, got_of(name, number, status)?))
}

fn resume_reply(words: Words<'_>) -> Result<WantedAnswer, LineFault>
    ensures { result ≡ resume_reply (words_left words.entry) }
{
    match words.one() {
        Ok(word) if word == b"resumed".as_slice() => Ok(WantedAnswer::Done),
        _ => refused_reply(&RESUME_REFUSALS, words),
    }
}

fn kill_reply(words: Words<'_>) -> Result<WantedAnswer, LineFault>
    ensures { result ≡ kill_reply (words_left words.entry) }
{
    match words.one() {
        Ok(word) if word == b"killed".as_slice() => Ok(WantedAnswer::Done),
        Ok(word) if word == b"dead".as_slice() => Ok(WantedAnswer::Dead),
        _ => Err(LineFault::UnknownWord),
    }
}

/// A refusal that is one of these, or any.
fn refused_reply(refusals: &[(&str, Refused)], words: Words<'_>) -> Result<WantedAnswer, LineFault>
    ensures { result
        ≡ refused_reply (map (λ row. (row.0.now, row.1)) refusals.now) (words_left words.entry) }
{
    match words.two() {
        Ok((word, name)) if word == b"refused".as_slice() => {
            Ok(WantedAnswer::Refused(wanted_refusal(refusals, name)?))
        }
        _ => Err(LineFault::UnknownWord),
    }
}

/// The refusal that is asked for, if one is.
fn wanted_refusal(refusals: &[(&str, Refused)], word: &[u8]) -> Result<Option<Refused>, LineFault>
    ensures { result ≡ wanted_refusal (map (λ row. (row.0.now, row.1)) refusals.now) word.now }
{
    if is_star(word) {
        return Ok(None);
    }
    Ok(Some(keyword(refusals, word)?))
}

// ---- about no tracee

/// What a command may be answered about no tracee.
fn none_reply(
    keyword: CommandKeyword,
    named: &[u8],
    words: Words<'_>,
) -> Result<WantedAnswer, LineFault>
    ensures { result ≡ none_reply keyword named.now (words_left words.entry) }
{
    match keyword {
        CommandKeyword::Publish => Err(LineFault::UnknownWord),
        CommandKeyword::Exit => Err(LineFault::UnknownWord),
        CommandKeyword::State => Err(LineFault::UnknownWord),
        CommandKeyword::Claim => scan_reply(keyword, named, words),
        CommandKeyword::Wait => no_child_reply(words),
        CommandKeyword::Look => no_child_reply(words),
        CommandKeyword::Peek => scan_reply(keyword, named, words),
        CommandKeyword::Resume if is_it_word(named) => nothing_reply(words),
        CommandKeyword::Resume => Err(LineFault::UnknownWord),
        CommandKeyword::Kill => Err(LineFault::UnknownWord),
        CommandKeyword::ExitGroup => Err(LineFault::UnknownWord),
    }
}

/// What a claim at once, or a look at once, is answered where none of several tracees has anything.
fn scan_reply(
    keyword: CommandKeyword,
    named: &[u8],
    words: Words<'_>,
) -> Result<WantedAnswer, LineFault>
    ensures { result ≡ scan_reply keyword named.now (words_left words.entry) }
{
    if !names_several(keyword, named) {
        return Err(LineFault::UnknownWord);
    }
    if words.one().is_ok() {
        return nothing_reply(words);
    }
    no_child_reply(words)
}

fn nothing_reply(words: Words<'_>) -> Result<WantedAnswer, LineFault>
    ensures { result ≡ nothing_reply (words_left words.entry) }
{
    match words.one() {
        Ok(word) if word == b"nothing".as_slice() => Ok(WantedAnswer::Nothing),
        _ => Err(LineFault::UnknownWord),
    }
}

fn no_child_reply(words: Words<'_>) -> Result<WantedAnswer, LineFault>
    ensures { result ≡ no_child_reply (words_left words.entry) }
{
    match words.two() {
        Ok((first, second)) if first == b"no".as_slice() && second == b"child".as_slice() => {
            Ok(WantedAnswer::NoChild)
        }
        _ => Err(LineFault::UnknownWord),
    }
}

// ---- stops, deaths and states

/// What a claim takes, and a look leaves there.
fn got_told(keyword: CommandKeyword, got: WantedGot) -> WantedAnswer
    ensures { result ≡ got_told keyword got }
{
    match keyword {
        CommandKeyword::Look | CommandKeyword::Peek => WantedAnswer::Saw(got),
        _ => WantedAnswer::Got(got),
    }
}

fn got_of(name: &[u8], number: &[u8], status: &[u8]) -> Result<WantedGot, LineFault>
    ensures { result ≡ got_of_words name.now number.now status.now }
{
    let word = keyword(&GOT_WORDS, name)?;
    let number = wanted_stop(number)?;
    let status = wanted_status(status)?;
    Ok(got_with_numbers(word, number, status))
}

fn got_with_numbers(word: GotWord, number: Option<u32>, status: Option<u32>) -> WantedGot
    ensures { result ≡ got_with_numbers word number status }
{
    match word {
        GotWord::Stop => WantedGot::Stop(number, status),
        GotWord::Ended => WantedGot::Ended(number, status),
    }
}

fn state_of(words: Words<'_>) -> Result<WantedState, LineFault>
    ensures { result ≡ state_of_words (words_left words.entry) }
{
    if let Ok(name) = words.one() {
        return plain_state(keyword(&STATE_NAMES, name)?);
    }
    let (name, number, last) = words.three()?;
    numbered_state(keyword(&STATE_NAMES, name)?, number, last)
}

/// A state that is one word.
fn plain_state(name: StateName) -> Result<WantedState, LineFault>
    ensures { result ≡ plain_state name }
{
    match name {
        StateName::Unborn => Ok(WantedState::Unborn),
        StateName::Running => Ok(WantedState::Running),
        StateName::Reaped => Ok(WantedState::Reaped),
        StateName::Stopped | StateName::Claimed | StateName::Dead => Err(LineFault::UnknownWord),
    }
}

/// A state that is a word and two numbers.
fn numbered_state(name: StateName, number: &[u8], last: &[u8]) -> Result<WantedState, LineFault>
    ensures { result ≡ numbered_state name number.now last.now }
{
    match name {
        StateName::Stopped => Ok(WantedState::Stopped(wanted_stop(number)?, wanted_status(last)?)),
        StateName::Claimed => Ok(WantedState::Claimed(wanted_stop(number)?, wanted_tracer(last)?)),
        StateName::Dead => Ok(WantedState::Dead(wanted_stop(number)?, wanted_status(last)?)),
        StateName::Unborn | StateName::Running | StateName::Reaped => Err(LineFault::UnknownWord),
    }
}

// ---- numbers

/// Whether a word stands for any number, or any refusal.
fn is_star(word: &[u8]) -> bool
    ensures { result ≡ is_star word.now }
{
    word == b"*".as_slice()
}

/// The number of a stop that is asked for, if one is.
fn wanted_stop(word: &[u8]) -> Result<Option<u32>, LineFault>
    ensures { result ≡ wanted_stop word.now }
{
    if is_star(word) {
        return Ok(None);
    }
    Ok(Some(stop_number(word)?))
}

/// The status that is asked for, if one is.
fn wanted_status(word: &[u8]) -> Result<Option<u32>, LineFault>
    ensures { result ≡ wanted_status word.now }
{
    if is_star(word) {
        return Ok(None);
    }
    Ok(Some(status_number(word)?))
}

/// The tracer that is asked for, if one is.
fn wanted_tracer(word: &[u8]) -> Result<Option<u32>, LineFault>
    ensures { result ≡ wanted_tracer word.now }
{
    if is_star(word) {
        return Ok(None);
    }
    Ok(Some(u32::from(tracer_of(word)?)))
}

/// The number of a stop; 0 of a row that has made none.
fn stop_number(word: &[u8]) -> Result<u32, LineFault>
    ensures { result ≡ stop_number word.now }
{
    Ok(number_between(0, u64::from(LAST_NUMBER), word)? as u32)
}

/// A raw wait status.
fn status_number(word: &[u8]) -> Result<u32, LineFault>
    ensures { result ≡ status_number word.now }
{
    Ok(number_between(0, u64::from(u32::MAX), word)? as u32)
}
