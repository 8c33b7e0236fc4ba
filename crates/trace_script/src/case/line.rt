//! What a line of a case file says, by its words. All words are looked at before any number, and numbers before bytes.

ghost use Rattle.std.specs.Prelude.{◌≡◌, IfOk};
ghost use Rattle.text_lines.specs.Words.{words_left};
ghost use Rattle.trace_script.specs.CaseLine.{data_part, line_of, page_part, case_rest_of, signal_of, signal_step};
ghost use Rattle.trace_script.specs.CaseLine.{start_part};
ghost use Rattle.trace_script.specs.RawLine.{IsTested, IsTestedPart, IsTestedStep, if_said, line_said, part_said};
ghost use Rattle.trace_script.specs.RawLine.{step_said};

use crate::case::call::read_call;
use crate::case::keyword::{Keyword, Place, keyword_at};
use crate::case::raw_line::{RawLine, RawPart, RawStep};
use crate::case::row_words::{id, row_of_words};
use crate::case::words::{any_number, byte_word, page_address};
use text_lines::{LineFault, Words};

/// What the words of a line at this place say, or its first fault.
pub(crate) fn read_words<'a>(place: Place, words: Words<'a>) -> Result<RawLine<'a>, LineFault>
    ensures line { if_said line_said result ≡ line_of place (words_left words.entry) }
    ensures range { IfOk result IsTested }
{
    let mut rest = words;
    let Some(first) = rest.next_word() else {
        return Ok(RawLine::Nothing);
    };
    if first.first() == Some(&b'#') {
        return Ok(RawLine::Nothing);
    }
    let keyword = keyword_at(place, first)?;
    case_rest_of(keyword, rest)
}

/// What the words after the first one say.
fn case_rest_of<'a>(keyword: Keyword, words: Words<'a>) -> Result<RawLine<'a>, LineFault>
    ensures line { if_said line_said result ≡ case_rest_of keyword (words_left words.entry) }
    ensures range { IfOk result IsTested }
{
    match keyword {
        Keyword::Tracee => {
            let (tid, tgid, pgid, parent) = words.four()?;
            Ok(RawLine::Opens(row_of_words(tid, tgid, pgid, parent)?))
        }
        Keyword::Page => Ok(RawLine::Loads(page_part(words.one()?)?)),
        Keyword::Data => {
            let (address, bytes) = words.two()?;
            Ok(RawLine::Loads(data_part(address, bytes)?))
        }
        Keyword::At => {
            let (rip, rsp) = words.two()?;
            Ok(RawLine::Loads(start_part(rip, rsp)?))
        }
        Keyword::Call => Ok(RawLine::Does(RawStep::Call(read_call(words)?))),
        Keyword::Fork => Ok(RawLine::Does(RawStep::Fork(id(words.one()?)?))),
        Keyword::Thread => Ok(RawLine::Does(RawStep::Thread(id(words.one()?)?))),
        Keyword::Exec => Ok(RawLine::Does(RawStep::Exec(any_number(words.one()?)?))),
        Keyword::Signal => Ok(RawLine::Does(signal_of(words)?)),
        Keyword::Exit => Ok(RawLine::Does(RawStep::Exit(any_number(words.one()?)?))),
        Keyword::End => {
            words.end()?;
            Ok(RawLine::Closes)
        }
    }
}

/// A page of zeros.
fn page_part<'a>(address: &[u8]) -> Result<RawPart<'a>, LineFault>
    ensures line { if_said part_said result ≡ page_part address.now }
    ensures range { IfOk result IsTestedPart }
{
    Ok(RawPart::Page(page_address(address)?))
}

/// Bytes from an address on.
fn data_part<'a>(address: &[u8], bytes: &'a [u8]) -> Result<RawPart<'a>, LineFault>
    ensures line { if_said part_said result ≡ data_part address.now bytes.now }
    ensures range { IfOk result IsTestedPart }
{
    let addr = any_number(address)?;
    let bytes = byte_word(bytes)?;
    Ok(RawPart::Data(addr, bytes))
}

/// The two registers that a program starts with.
fn start_part<'a>(rip: &[u8], rsp: &[u8]) -> Result<RawPart<'a>, LineFault>
    ensures line { if_said part_said result ≡ start_part rip.now rsp.now }
    ensures range { IfOk result IsTestedPart }
{
    let rip = any_number(rip)?;
    let rsp = any_number(rsp)?;
    Ok(RawPart::Start(rip, rsp))
}

/// A signal, and whether it is deadly.
fn signal_of<'a>(words: Words<'_>) -> Result<RawStep<'a>, LineFault>
    ensures line { if_said step_said result ≡ signal_of (words_left words.entry) }
    ensures range { IfOk result IsTestedStep }
{
    if let Ok(signal) = words.one() {
        return signal_step(signal, false);
    }
    let (signal, word) = words.two()?;
    if word != b"deadly".as_slice() {
        return Err(LineFault::UnknownWord);
    }
    signal_step(signal, true)
}

fn signal_step<'a>(signal: &[u8], deadly: bool) -> Result<RawStep<'a>, LineFault>
    ensures line { if_said step_said result ≡ signal_step signal.now deadly }
    ensures range { IfOk result IsTestedStep }
{
    Ok(RawStep::Signal(any_number(signal)?, deadly))
}
