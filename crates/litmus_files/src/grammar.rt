//! What a line of a litmus file says, by its words and by where it is. All words are looked at before any number.

ghost use Rattle.std.specs.Prelude.{◌≡◌, ◌<◌, IfOk};
ghost use Rattle.std.specs.List.{list_all};
ghost use Rattle.stop_history.specs.declared.limits.TheConstants.{TRACERS};
ghost use Rattle.text_lines.specs.Lines.{nth_word};
ghost use Rattle.text_lines.specs.Ranges.{if_said};
ghost use Rattle.text_lines.specs.Words.{words_left};
ghost use Rattle.replay_files.specs.Command.{IsCommand};
ghost use Rattle.replay_files.specs.Grammar.{IsLine};
ghost use Rattle.litmus_files.specs.LitmusGrammar.{IsLitmusCall, IsLitmusCommand, IsLitmusLine, any_or_tid};
ghost use Rattle.litmus_files.specs.LitmusGrammar.{as_in_replay, asking, bare_command_of, claim_call, claim_command};
ghost use Rattle.litmus_files.specs.LitmusGrammar.{claim_of_words, command_of_words, does_wait, group_aim};
ghost use Rattle.litmus_files.specs.LitmusGrammar.{exit_group_of_words, kill_of_words};
ghost use Rattle.litmus_files.specs.LitmusGrammar.{is_name_byte, is_thread_name, it_or_tid, litmus_line_of};
ghost use Rattle.litmus_files.specs.LitmusGrammar.{litmus_rest_of, repeat_line, replied_command};
ghost use Rattle.litmus_files.specs.LitmusGrammar.{resume_command, resume_of_words, thread_line};
ghost use Rattle.litmus_files.specs.LitmusLine.{litmus_said};

use crate::condition::condition_of;
use crate::keyword::{
    CommandKeyword, LitmusKeyword, is_any_word, is_group_word, is_it_word, keyword_in,
};
use crate::line::{Aim, LitmusCommand, LitmusLine, Within};
use crate::reply::reply_of;
use replay_files::{Command, KINDS, Line, ReplayKeyword, replay_rest_of, tracer_of};
use stop_program::{BoardCall, Voice};
use text_lines::{LineFault, Words, keyword, number_between};
use trace_options::LAST_SIGNAL;
use trace_record::Resume;
use trace_script::{id, row_of_words};

/// How many bytes the name of a thread has at most.
const LONGEST_NAME: usize = 32;

/// How many times the commands of a repeat are done at most.
const MOST_REPEATS: u32 = 64;

/// What the words of a line say, by where it is, or its first fault.
pub(crate) fn read_words<'t>(within: Within, words: Words<'t>) -> Result<LitmusLine<'t>, LineFault>
    ensures line { if_said litmus_said result ≡ litmus_line_of within (words_left words.entry) }
    ensures range { IfOk result (λ said. IsLitmusLine (litmus_said said)) }
{
    let mut rest = words;
    let Some(first) = rest.next_word() else {
        return Ok(LitmusLine::Nothing);
    };
    if first.first() == Some(&b'#') {
        return Ok(LitmusLine::Nothing);
    }
    let keyword = keyword_in(within, first)?;
    litmus_rest_of(keyword, rest)
}

/// What a line says, by the words after its first one.
fn litmus_rest_of<'t>(keyword: LitmusKeyword, words: Words<'t>) -> Result<LitmusLine<'t>, LineFault>
    ensures line { if_said litmus_said result ≡ litmus_rest_of keyword (words_left words.entry) }
    ensures range { IfOk result (λ said. IsLitmusLine (litmus_said said)) }
{
    match keyword {
        LitmusKeyword::Row => {
            let (tid, tgid, pgid, parent) = words.four()?;
            Ok(LitmusLine::Row(row_of_words(tid, tgid, pgid, parent)?))
        }
        LitmusKeyword::Thread(voice) => thread_line(voice, words),
        LitmusKeyword::Repeat => repeat_line(words.one()?),
        LitmusKeyword::End => {
            words.end()?;
            Ok(LitmusLine::End)
        }
        LitmusKeyword::Only => Ok(LitmusLine::Only(condition_of(words)?)),
        LitmusKeyword::Command(keyword) => Ok(LitmusLine::Command(command_of(keyword, words)?)),
    }
}

#[tactic(auto, using(crate::proofs::ThreadNames::name_is_text))]
fn thread_line<'t>(voice: Voice, words: Words<'t>) -> Result<LitmusLine<'t>, LineFault>
    ensures line { if_said litmus_said result ≡ thread_line voice (words_left words.entry) }
    ensures range { IfOk result (λ said. IsLitmusLine (litmus_said said)) }
{
    if words.is_empty() {
        return Ok(LitmusLine::Thread(voice, None));
    }
    let name = words.one()?;
    if !is_thread_name(name) {
        return Err(LineFault::UnknownWord);
    }
    Ok(LitmusLine::Thread(voice, Some(name)))
}

/// Whether a word can name a thread: a letter, then letters, digits, `_` and `-`.
fn is_thread_name(word: &[u8]) -> bool
    ensures { result ≡ is_thread_name word.now }
{
    word.first().is_some_and(|c| c.is_ascii_alphabetic())
        && word.len() <= LONGEST_NAME
        && are_name_bytes(word)
}

fn are_name_bytes(word: &[u8]) -> bool
    ensures { result ≡ list_all is_name_byte word.now }
{
    word.iter().all(|c| is_name_byte(*c))
}

fn is_name_byte(c: u8) -> bool
    ensures { result ≡ is_name_byte c }
{
    c.is_ascii_alphanumeric() || c == b'_' || c == b'-'
}

fn repeat_line<'t>(count: &[u8]) -> Result<LitmusLine<'t>, LineFault>
    ensures line { if_said litmus_said result ≡ repeat_line count.now }
    ensures range { IfOk result (λ said. IsLitmusLine (litmus_said said)) }
{
    let count = number_between(1, u64::from(MOST_REPEATS), count)? as u32;
    Ok(LitmusLine::Repeat(count))
}

/// A command, by the words after its first one. Its reply comes after the first `=`.
fn command_of(keyword: CommandKeyword, words: Words<'_>) -> Result<LitmusCommand, LineFault>
    ensures command { result ≡ command_of_words keyword (words_left words.entry) }
    ensures range { IfOk result IsLitmusCommand }
{
    match words.split_at(b"=") {
        None => bare_command(keyword, words),
        Some((asked, reply)) => replied_command(keyword, asked, reply),
    }
}

/// A command with its reply. An unknown word of the reply comes before a wrong number of the command.
fn replied_command(
    keyword: CommandKeyword,
    words: Words<'_>,
    reply: Words<'_>,
) -> Result<LitmusCommand, LineFault>
    ensures command { result ≡ replied_command keyword (words_left words.entry) (words_left reply.entry) }
    ensures range { IfOk result IsLitmusCommand }
{
    match reply_of(keyword, first_of(words), reply) {
        Err(LineFault::UnknownWord) => Err(LineFault::UnknownWord),
        reply => {
            let command = bare_command(keyword, words)?;
            Ok(LitmusCommand {
                reply: Some(reply?),
                ..command
            })
        }
    }
}

/// The first of some words; without letters where there is none.
fn first_of<'t>(words: Words<'t>) -> &'t [u8]
    ensures { result.now ≡ nth_word (words_left words.entry) 0 }
{
    let mut rest = words;
    match rest.next_word() {
        Some(first) => first,
        None => &[],
    }
}

/// A command without a reply.
fn bare_command(keyword: CommandKeyword, words: Words<'_>) -> Result<LitmusCommand, LineFault>
    ensures command { result ≡ bare_command_of keyword (words_left words.entry) }
    ensures range { IfOk result IsLitmusCommand }
{
    match keyword {
        CommandKeyword::Publish => as_in_replay(
            keyword,
            replay_rest_of(ReplayKeyword::Publish, words)?,
        ),
        CommandKeyword::Exit => as_in_replay(keyword, replay_rest_of(ReplayKeyword::Exit, words)?),
        CommandKeyword::State => as_in_replay(
            keyword,
            replay_rest_of(ReplayKeyword::State, words)?,
        ),
        CommandKeyword::Claim => claim_of(keyword, words),
        CommandKeyword::Wait => claim_of(keyword, words),
        CommandKeyword::Look => claim_of(keyword, words),
        CommandKeyword::Peek => claim_of(keyword, words),
        CommandKeyword::Resume => resume_of(words),
        CommandKeyword::Kill => kill_of(words),
        CommandKeyword::ExitGroup => exit_group_of(words),
    }
}

/// A command of a replay file that has the same words here.
fn as_in_replay(keyword: CommandKeyword, line: Line) -> Result<LitmusCommand, LineFault>
    ensures command { result ≡ as_in_replay keyword line }
    ensures range { IsLine line → IfOk result IsLitmusCommand }
{
    let Line::Command(tid, command) = line else {
        return Err(LineFault::UnknownWord);
    };
    let call = match command {
        Command::Publish(stop) => BoardCall::Publish(stop),
        Command::Exit(death) => BoardCall::Exit(death),
        Command::State => BoardCall::State,
        Command::Claim(_) | Command::Resume(..) => return Err(LineFault::UnknownWord),
    };
    Ok(asking(keyword, Aim::Tid(tid), call))
}

/// A command that makes this call, without a reply.
fn asking(keyword: CommandKeyword, aim: Aim, call: BoardCall) -> LitmusCommand
    ensures { result ≡ asking keyword aim call }
{
    LitmusCommand {
        aim,
        call,
        waits: does_wait(keyword),
        reply: None,
    }
}

/// Whether a command waits while its call would be refused by a refusal that may pass.
fn does_wait(keyword: CommandKeyword) -> bool
    ensures { result ≡ does_wait keyword }
{
    match keyword {
        CommandKeyword::Publish => true,
        CommandKeyword::Exit => true,
        CommandKeyword::State => false,
        CommandKeyword::Claim => false,
        CommandKeyword::Wait => true,
        CommandKeyword::Look => true,
        CommandKeyword::Peek => false,
        CommandKeyword::Resume => false,
        CommandKeyword::Kill => true,
        CommandKeyword::ExitGroup => true,
    }
}

/// A claim, a wait, a look or a peek, by the words after its first one.
fn claim_of(keyword: CommandKeyword, words: Words<'_>) -> Result<LitmusCommand, LineFault>
    ensures command { result ≡ claim_of_words keyword (words_left words.entry) }
    ensures range { IfOk result IsLitmusCommand }
{
    if let Ok((named, tracer)) = words.two() {
        return claim_command(keyword, any_or_tid(named), tracer);
    }
    let (word, pgid, tracer) = words.three()?;
    if !is_group_word(word) {
        return Err(LineFault::UnknownWord);
    }
    claim_command(keyword, group_aim(pgid), tracer)
}

fn claim_command(
    keyword: CommandKeyword,
    aim: Result<Aim, LineFault>,
    tracer: &[u8],
) -> Result<LitmusCommand, LineFault>
    ensures command { result ≡ claim_command keyword aim tracer.now }
    ensures range { IfOk result IsLitmusCommand }
{
    let aim = aim?;
    let tracer = u32::from(tracer_of(tracer)?);
    Ok(asking(keyword, aim, claim_call(keyword, tracer)))
}

/// The call of a claim or a wait, which take what is there, and of a look or a peek, which leave it.
fn claim_call(keyword: CommandKeyword, tracer: u32) -> BoardCall
    ensures call { result ≡ claim_call keyword tracer }
    ensures range { tracer < TRACERS → IsLitmusCall result }
{
    match keyword {
        CommandKeyword::Look | CommandKeyword::Peek => BoardCall::Look(tracer),
        _ => BoardCall::Claim(tracer),
    }
}

/// Whichever tracee has something, or that of a thread id.
fn any_or_tid(word: &[u8]) -> Result<Aim, LineFault>
    ensures { result ≡ any_or_tid word.now }
{
    if is_any_word(word) {
        return Ok(Aim::Any);
    }
    Ok(Aim::Tid(id(word)?))
}

/// Whichever tracee of a process group has something.
fn group_aim(pgid: &[u8]) -> Result<Aim, LineFault>
    ensures { result ≡ group_aim pgid.now }
{
    Ok(Aim::Group(id(pgid)?))
}

/// A resume, by the words after its first one.
fn resume_of(words: Words<'_>) -> Result<LitmusCommand, LineFault>
    ensures command { result ≡ resume_of_words (words_left words.entry) }
    ensures range { IfOk result IsLitmusCommand }
{
    let (named, tracer, kind, signal) = words.four()?;
    resume_command(named, tracer, kind, signal)
}

fn resume_command(
    named: &[u8],
    tracer: &[u8],
    kind: &[u8],
    signal: &[u8],
) -> Result<LitmusCommand, LineFault>
    ensures command { result ≡ resume_command named.now tracer.now kind.now signal.now }
    ensures range { IfOk result IsLitmusCommand }
{
    let kind = keyword(&KINDS, kind)?;
    let aim = it_or_tid(named)?;
    let tracer = u32::from(tracer_of(tracer)?);
    let signal = number_between(0, u64::from(LAST_SIGNAL), signal)? as u8;
    let call = BoardCall::Resume(tracer, Resume { kind, signal });
    Ok(asking(CommandKeyword::Resume, aim, call))
}

/// A kill, by the words after its first one.
fn kill_of(words: Words<'_>) -> Result<LitmusCommand, LineFault>
    ensures command { result ≡ kill_of_words (words_left words.entry) }
    ensures range { IfOk result IsLitmusCommand }
{
    let tid = id(words.one()?)?;
    Ok(asking(CommandKeyword::Kill, Aim::Tid(tid), BoardCall::Kill))
}

/// The end of a thread group by one of its threads, by the words after the first one.
fn exit_group_of(words: Words<'_>) -> Result<LitmusCommand, LineFault>
    ensures command { result ≡ exit_group_of_words (words_left words.entry) }
    ensures range { IfOk result IsLitmusCommand }
{
    let (named, code) = words.two()?;
    let tid = id(named)?;
    let code = number_between(0, u64::from(u8::MAX), code)? as u8;
    Ok(asking(
        CommandKeyword::ExitGroup,
        Aim::Tid(tid),
        BoardCall::ExitGroup(code),
    ))
}

/// The tracee that the thread claimed last, or that of a thread id.
fn it_or_tid(word: &[u8]) -> Result<Aim, LineFault>
    ensures { result ≡ it_or_tid word.now }
{
    if is_it_word(word) {
        return Ok(Aim::It);
    }
    Ok(Aim::Tid(id(word)?))
}
