//! What a line of a replay file says, by its words. All words are looked at before any number.

ghost use Rattle.std.specs.Prelude.{◌≡◌, ◌<◌, IfOk};
ghost use Rattle.stop_history.specs.declared.limits.TheConstants.{TRACERS};
ghost use Rattle.text_lines.specs.Words.{words_left};
ghost use Rattle.trace_record.specs.Death.{IsDeath};
ghost use Rattle.trace_record.specs.Stop.{IsStop};
ghost use Rattle.replay_files.specs.Grammar.{IsLine, claim_line, death_with_number, exit_line, publish_line};
ghost use Rattle.replay_files.specs.Grammar.{publish_ending, publish_numbered, publish_plain, replay_in_place};
ghost use Rattle.replay_files.specs.Grammar.{replay_line_of};
ghost use Rattle.replay_files.specs.Grammar.{replay_rest_of, resume_line, row_line, state_line, stop_with_number};
ghost use Rattle.replay_files.specs.Grammar.{tracer_number};

use crate::command::Command;
use stop_board::{Row, TRACERS};
use text_lines::{LineFault, Words, keyword, number_between};
use trace_options::LAST_SIGNAL;
use trace_record::{Death, Kind, Resume, Stop};
use trace_script::{id, row_of_words};

/// What a line says.
#[derive(Clone, Copy, Debug, PartialEq, Eq)]
pub enum Line {
    /// It is empty or a comment.
    Nothing,
    /// A row of the roster.
    Row(Row),
    /// A command to the row of this thread id.
    Command(u32, Command),
}

/// The first word of a line.
#[derive(Clone, Copy, Debug, PartialEq, Eq)]
pub enum ReplayKeyword {
    Row,
    Publish,
    Claim,
    Resume,
    Exit,
    State,
}

/// A stop's word that a number follows.
#[derive(Clone, Copy, Debug, PartialEq, Eq)]
pub(crate) enum Numbered {
    Seccomp,
    Fork,
    Clone,
    Exec,
    Signal,
}

/// A death's word.
#[derive(Clone, Copy, Debug, PartialEq, Eq)]
pub(crate) enum DeathWord {
    Exited,
    Killed,
}

/// The first words of lines.
const KEYWORDS: [(&str, ReplayKeyword); 6] = [
    ("row", ReplayKeyword::Row),
    ("publish", ReplayKeyword::Publish),
    ("claim", ReplayKeyword::Claim),
    ("resume", ReplayKeyword::Resume),
    ("exit", ReplayKeyword::Exit),
    ("state", ReplayKeyword::State),
];

/// The stops that are one word.
const PLAIN_STOPS: [(&str, Stop); 3] = [
    ("start", Stop::Start),
    ("enter", Stop::Enter),
    ("exit", Stop::Exit),
];

/// The stops that are a word and a number.
const NUMBERED_STOPS: [(&str, Numbered); 5] = [
    ("seccomp", Numbered::Seccomp),
    ("fork", Numbered::Fork),
    ("clone", Numbered::Clone),
    ("exec", Numbered::Exec),
    ("signal", Numbered::Signal),
];

/// The stops that are a word and a death: there is one.
const DEATH_STOPS: [(&str, ()); 1] = [("ending", ())];

/// The kinds of restart.
pub const KINDS: [(&str, Kind); 2] = [("syscall", Kind::Syscall), ("cont", Kind::Cont)];

/// The words of deaths.
const ENDINGS: [(&str, DeathWord); 2] = [
    ("exited", DeathWord::Exited),
    ("killed", DeathWord::Killed),
];

/// What the words of a line say, where commands have begun or not, or its first fault.
pub(crate) fn read_words(begun: bool, words: Words<'_>) -> Result<Line, LineFault>
    ensures line { result ≡ replay_line_of begun (words_left words.entry) }
    ensures range { IfOk result IsLine }
{
    let mut rest = words;
    let Some(first) = rest.next_word() else {
        return Ok(Line::Nothing);
    };
    if first.first() == Some(&b'#') {
        return Ok(Line::Nothing);
    }
    let keyword = in_place(begun, keyword(&KEYWORDS, first)?)?;
    replay_rest_of(keyword, rest)
}

/// Rows come before the first command.
fn in_place(begun: bool, keyword: ReplayKeyword) -> Result<ReplayKeyword, LineFault>
    ensures { result ≡ replay_in_place begun keyword }
{
    match keyword {
        ReplayKeyword::Row if begun => Err(LineFault::UnknownWord),
        keyword => Ok(keyword),
    }
}

/// What a line says, by the words after its first one.
pub fn replay_rest_of(keyword: ReplayKeyword, words: Words<'_>) -> Result<Line, LineFault>
    ensures line { result ≡ replay_rest_of keyword (words_left words.entry) }
    ensures range { IfOk result IsLine }
{
    match keyword {
        ReplayKeyword::Row => {
            let (tid, tgid, pgid, parent) = words.four()?;
            row_line(tid, tgid, pgid, parent)
        }
        ReplayKeyword::Publish => publish_line(words),
        ReplayKeyword::Claim => {
            let (tid, tracer) = words.two()?;
            claim_line(tid, tracer)
        }
        ReplayKeyword::Resume => {
            let (tid, tracer, kind, signal) = words.four()?;
            resume_line(tid, tracer, kind, signal)
        }
        ReplayKeyword::Exit => {
            let (tid, how, number) = words.three()?;
            exit_line(tid, how, number)
        }
        ReplayKeyword::State => state_line(words.one()?),
    }
}

fn publish_line(words: Words<'_>) -> Result<Line, LineFault>
    ensures line { result ≡ publish_line (words_left words.entry) }
    ensures range { IfOk result IsLine }
{
    let mut rest = words;
    let tid = rest.word()?;
    let name = rest.word()?;
    if rest.is_empty() {
        return publish_plain(tid, name);
    }
    if let Ok(number) = rest.one() {
        return publish_numbered(tid, name, number);
    }
    let (how, number) = rest.two()?;
    publish_ending(tid, name, how, number)
}

fn row_line(tid: &[u8], tgid: &[u8], pgid: &[u8], parent: &[u8]) -> Result<Line, LineFault>
    ensures line { result ≡ row_line tid.now tgid.now pgid.now parent.now }
    ensures range { IfOk result IsLine }
{
    Ok(Line::Row(row_of_words(tid, tgid, pgid, parent)?))
}

#[tactic(auto, using(crate::proofs::Tables::plain_range))]
fn publish_plain(tid: &[u8], name: &[u8]) -> Result<Line, LineFault>
    ensures line { result ≡ publish_plain tid.now name.now }
    ensures range { IfOk result IsLine }
{
    let stop = keyword(&PLAIN_STOPS, name)?;
    let tid = id(tid)?;
    Ok(Line::Command(tid, Command::Publish(stop)))
}

fn publish_numbered(tid: &[u8], name: &[u8], number: &[u8]) -> Result<Line, LineFault>
    ensures line { result ≡ publish_numbered tid.now name.now number.now }
    ensures range { IfOk result IsLine }
{
    let name = keyword(&NUMBERED_STOPS, name)?;
    let tid = id(tid)?;
    let stop = stop_of(name, number)?;
    Ok(Line::Command(tid, Command::Publish(stop)))
}

fn publish_ending(tid: &[u8], name: &[u8], how: &[u8], number: &[u8]) -> Result<Line, LineFault>
    ensures line { result ≡ publish_ending tid.now name.now how.now number.now }
    ensures range { IfOk result IsLine }
{
    keyword(&DEATH_STOPS, name)?;
    let how = keyword(&ENDINGS, how)?;
    let tid = id(tid)?;
    let death = death_of(how, number)?;
    Ok(Line::Command(tid, Command::Publish(Stop::Ending(death))))
}

fn claim_line(tid: &[u8], tracer: &[u8]) -> Result<Line, LineFault>
    ensures line { result ≡ claim_line tid.now tracer.now }
    ensures range { IfOk result IsLine }
{
    let tid = id(tid)?;
    let tracer = tracer_of(tracer)?;
    Ok(Line::Command(tid, Command::Claim(tracer)))
}

fn resume_line(tid: &[u8], tracer: &[u8], kind: &[u8], signal: &[u8]) -> Result<Line, LineFault>
    ensures line { result ≡ resume_line tid.now tracer.now kind.now signal.now }
    ensures range { IfOk result IsLine }
{
    let kind = keyword(&KINDS, kind)?;
    let tid = id(tid)?;
    let tracer = tracer_of(tracer)?;
    let signal = number_between(0, u64::from(LAST_SIGNAL), signal)? as u8;
    Ok(Line::Command(tid, Command::Resume(tracer, Resume { kind, signal })))
}

fn exit_line(tid: &[u8], how: &[u8], number: &[u8]) -> Result<Line, LineFault>
    ensures line { result ≡ exit_line tid.now how.now number.now }
    ensures range { IfOk result IsLine }
{
    let how = keyword(&ENDINGS, how)?;
    let tid = id(tid)?;
    let death = death_of(how, number)?;
    Ok(Line::Command(tid, Command::Exit(death)))
}

fn state_line(tid: &[u8]) -> Result<Line, LineFault>
    ensures line { result ≡ state_line tid.now }
    ensures range { IfOk result IsLine }
{
    let tid = id(tid)?;
    Ok(Line::Command(tid, Command::State))
}

fn stop_of(name: Numbered, number: &[u8]) -> Result<Stop, LineFault>
    ensures value { result ≡ stop_with_number name number.now }
    ensures range { IfOk result IsStop }
{
    match name {
        Numbered::Seccomp => Ok(Stop::Seccomp(number_between(0, 65535, number)? as u16)),
        Numbered::Fork => Ok(Stop::Fork(id(number)?)),
        Numbered::Clone => Ok(Stop::Clone(id(number)?)),
        Numbered::Exec => Ok(Stop::Exec(id(number)?)),
        Numbered::Signal => Ok(Stop::Signal(
            number_between(1, u64::from(LAST_SIGNAL), number)? as u8,
        )),
    }
}

fn death_of(how: DeathWord, number: &[u8]) -> Result<Death, LineFault>
    ensures value { result ≡ death_with_number how number.now }
    ensures range { IfOk result IsDeath }
{
    match how {
        DeathWord::Exited => Ok(Death::Exited(number_between(0, 255, number)? as u8)),
        DeathWord::Killed => {
            let signal = number_between(1, u64::from(LAST_SIGNAL), number)? as u8;
            Ok(Death::Signaled {
                signal,
                core: false,
            })
        }
    }
}

/// The number of one of the board's tracers.
pub fn tracer_of(word: &[u8]) -> Result<u8, LineFault>
    ensures value { result ≡ tracer_number word.now }
    ensures range { IfOk result (λ tracer. tracer < TRACERS) }
{
    Ok(number_between(0, u64::from(TRACERS) - 1, word)? as u8)
}
