//! The line of a system call: `call NAME A1 .. An = R`, and the same with `fill ADDR BYTES` after it.

ghost use Rattle.std.specs.Prelude.{◌≡◌, ◌+◌, ◌≤◌, IfOk, drop, map, take};
ghost use Rattle.text_lines.specs.Words.{words_left};
ghost use Rattle.trace_script.specs.CaseLine.{answer_of, answered_call, argument, argument_count, argument_numbers};
ghost use Rattle.trace_script.specs.CaseLine.{call_of, filled_call, has_own_line, is_equals, named_call, nr_named};
ghost use Rattle.trace_script.specs.CaseLine.{plain_call};
ghost use Rattle.trace_script.specs.RawLine.{IsTestedCall, call_said, if_said};

use crate::calls::{CLONE, EXECVE, EXIT, FORK};
use crate::case::raw_line::{RawCall, RawFill};
use crate::case::words::{any_number, byte_word};
use text_lines::{LineFault, Words, integer};
use trace_options::Syscall;

/// How many arguments a call has at most.
const MOST_ARGUMENTS: usize = 6;

/// The call that the words after `call` say.
pub(crate) fn read_call<'a>(words: Words<'a>) -> Result<RawCall<'a>, LineFault>
    ensures call { if_said call_said result ≡ call_of (words_left words.entry) }
    ensures range { IfOk result IsTestedCall }
{
    let mut rest = words;
    let nr = number_of_name(rest.word()?)?;
    named_call(nr, rest)
}

/// The number of a call by its name. A call that has a line of its own is not named.
fn number_of_name(name: &[u8]) -> Result<u64, LineFault>
    ensures { result ≡ nr_named name.now }
{
    match Syscall::from_name(name) {
        Some(call) if !has_own_line(call.number) => Ok(call.number),
        _ => Err(LineFault::UnknownWord),
    }
}

fn has_own_line(nr: u64) -> bool
    ensures { result ≡ has_own_line nr }
{
    nr == CLONE || nr == FORK || nr == EXECVE || nr == EXIT
}

/// The call of this number, by the words after its name.
fn named_call<'a>(nr: u64, words: Words<'a>) -> Result<RawCall<'a>, LineFault>
    ensures call { if_said call_said result ≡ named_call nr (words_left words.entry) }
    ensures range { IfOk result IsTestedCall }
{
    let mut rest = words;
    let mut arguments: [&'a [u8]; MOST_ARGUMENTS] = [&[]; MOST_ARGUMENTS];
    let count = take_arguments(&mut rest, &mut arguments)?;
    answered_call(nr, &arguments[..count], rest)
}

/// Takes the arguments of a call and the `=` after them, and returns how many arguments there are. UnknownWord where
/// they are too many, or there is no `=`.
fn take_arguments<'a>(
    words: &mut Words<'a>,
    arguments: &mut [&'a [u8]; MOST_ARGUMENTS],
) -> Result<usize, LineFault>
    ensures count { result ≡ argument_count (words_left words.old) }
    ensures arguments { IfOk result (λ count.
        map (λ w. w.now) (take count arguments.new) ≡ take count (words_left words.old)) }
    ensures after { IfOk result (λ count. words_left words.new ≡ drop (count + 1) (words_left words.old)) }
    ensures within { IfOk result (λ count. count ≤ MOST_ARGUMENTS) }
{
    let mut count = 0;
    while let Some(word) = words.next_word() {
        if is_equals(word) {
            return Ok(count);
        }
        if count == MOST_ARGUMENTS {
            return Err(LineFault::UnknownWord);
        }
        arguments[count] = word;
        count += 1;
    }
    Err(LineFault::UnknownWord)
}

/// Whether a word stands before the answer of a call.
fn is_equals(word: &[u8]) -> bool
    ensures { result ≡ is_equals word.now }
{
    word == b"=".as_slice()
}

/// The call by its arguments and the words after the `=`.
fn answered_call<'a>(
    nr: u64,
    arguments: &[&'a [u8]],
    after: Words<'a>,
) -> Result<RawCall<'a>, LineFault>
    ensures call { if_said call_said result
        ≡ answered_call nr (map (λ w. w.now) arguments.now) (words_left after.entry) }
    ensures range { IfOk result IsTestedCall }
{
    if let Ok(answer) = after.one() {
        return plain_call(nr, arguments, answer);
    }
    let (answer, word, address, bytes) = after.four()?;
    if word != b"fill".as_slice() {
        return Err(LineFault::UnknownWord);
    }
    filled_call(nr, arguments, answer, address, bytes)
}

fn plain_call<'a>(nr: u64, arguments: &[&'a [u8]], answer: &[u8]) -> Result<RawCall<'a>, LineFault>
    ensures call { if_said call_said result ≡ plain_call nr (map (λ w. w.now) arguments.now) answer.now }
    ensures range { IfOk result IsTestedCall }
{
    let args = arguments_of(arguments)?;
    let answer = answer_of(answer)?;
    Ok(RawCall {
        nr,
        args,
        answer,
        fill: None,
    })
}

fn filled_call<'a>(
    nr: u64,
    arguments: &[&'a [u8]],
    answer: &[u8],
    address: &[u8],
    bytes: &'a [u8],
) -> Result<RawCall<'a>, LineFault>
    ensures call { if_said call_said result
        ≡ filled_call nr (map (λ w. w.now) arguments.now) answer.now address.now bytes.now }
    ensures range { IfOk result IsTestedCall }
{
    let args = arguments_of(arguments)?;
    let answer = answer_of(answer)?;
    let addr = any_number(address)?;
    let bytes = byte_word(bytes)?;
    Ok(RawCall {
        nr,
        args,
        answer,
        fill: Some(RawFill { addr, bytes }),
    })
}

/// Six arguments; those that are missing are 0.
fn arguments_of(words: &[&[u8]]) -> Result<[u64; 6], LineFault>
    ensures { result ≡ argument_numbers (map (λ w. w.now) words.now) }
{
    Ok([
        argument(words, 0)?,
        argument(words, 1)?,
        argument(words, 2)?,
        argument(words, 3)?,
        argument(words, 4)?,
        argument(words, 5)?,
    ])
}

fn argument(words: &[&[u8]], i: usize) -> Result<u64, LineFault>
    ensures { result ≡ argument (map (λ w. w.now) words.now) i }
{
    if i < words.len() {
        any_number(words[i])
    } else {
        Ok(0)
    }
}

/// The word that an answer is in `rax`.
fn answer_of(word: &[u8]) -> Result<u64, LineFault>
    ensures { result ≡ answer_of word.now }
{
    match integer(word) {
        None => Err(LineFault::BadNumber),
        Some(n) => Ok(n.cast_unsigned()),
    }
}
