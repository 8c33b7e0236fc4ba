//! A litmus file read whole, before any of its commands is tried: no fault of a file depends on the board.

ghost use Rattle.std.specs.Prelude.{◌≡◌, ◌<◌, ◌≤◌, ◌^◌, IfErr, IfOk, Ok, length};
ghost use Rattle.text_lines.specs.Lines.{lines_of};
ghost use Rattle.trace_script.specs.Reading.{Refuses, most_bytes};
ghost use Rattle.litmus_files.specs.LitmusDraft.{IsLitmusFile, content_in, litmus_reading_of};
ghost use Rattle.litmus_files.specs.LitmusFile.{IsLitmusReading, litmus_content_of, litmus_lines_after};
ghost use Rattle.litmus_files.specs.LitmusFile.{litmus_lines_read, no_lines};
ghost use Rattle.litmus_files.specs.declared.draft.TheConstants.{MOST_THREADS};

use crate::draft::{LitmusDraft, new_draft, take_line};
use crate::required::{NumberedCondition, NumberedLine};
use std::alloc::Allocator;
use stop_board::Roster;
use stop_program::Voice;
use text_lines::{cut_line, last_line};
use trace_script::{CaseError, Cause, MOST_BYTES};

/// What a file says: its rows, the names and the voices of its threads, their commands with
/// repeats written out, and its conditions, each in the order of the file; and the number of the line of each reply and
/// each condition.
#[derive(Drop)]
pub struct LitmusFile<'t, A: Allocator> {
    pub rows: Roster<A>,
    pub names: Vec<Option<&'t [u8]>, A>,
    pub voices: Vec<Voice, A>,
    pub lines: Vec<NumberedLine, A>,
    pub requirements: Vec<u32, A>,
    pub conditions: Vec<NumberedCondition, A>,
}

/// What a file says, or its first fault. Out of memory is reported on a line that has no fault and before which no line
/// has one.
pub fn read_litmus<'t, A: Allocator + Copy>(
    alloc: A,
    text: &'t [u8],
) -> Result<LitmusFile<'t, A>, CaseError>
    ensures ok { IfOk result (λ file. litmus_content_of text.now ≡ Ok (content_in file)) }
    ensures err { IfErr result (λ error.
        Refuses text.now error.cause error.line (litmus_lines_read text.now) (litmus_content_of text.now)) }
    ensures range { IfOk result IsLitmusFile }
    ensures few { IfOk result (λ file. length file.names.items ≤ MOST_THREADS) }
{
    if text.len() > MOST_BYTES {
        return Err(CaseError {
            line: 1,
            cause: Cause::TooMany,
        });
    }
    match read_lines(alloc, text) {
        Ok(draft) => finish(draft, text),
        Err(error) => Err(error),
    }
}

/// What the lines of a file say, up to its first fault.
#[tactic(auto, using(crate::proofs::LitmusRanges::nothing_read))]
fn read_lines<'t, A: Allocator + Copy>(
    alloc: A,
    text: &'t [u8],
) -> Result<LitmusDraft<'t, A>, CaseError>
    requires { length text.now ≤ most_bytes }
    ensures ok { IfOk result (λ draft.
        litmus_lines_after 1 no_lines (lines_of text.now) ≡ Ok (litmus_reading_of draft)) }
    ensures err { let read = litmus_lines_after 1 no_lines (lines_of text.now) in
        IfErr result (λ error. Refuses text.now error.cause error.line read read) }
    ensures range { IfOk result (λ draft. IsLitmusReading (litmus_reading_of draft)) }
{
    let mut draft = new_draft(alloc);
    let mut rest = text;
    let mut number = 1u32;
    while !rest.is_empty() {
        let (line, after) = cut_line(rest);
        if let Err(cause) = take_line(&mut draft, number, line) {
            return Err(CaseError {
                line: number,
                cause,
            });
        }
        rest = after;
        number += 1;
    }
    Ok(draft)
}

/// What was read, unless a repeat is open after the last line.
fn finish<'t, A: Allocator>(
    draft: LitmusDraft<'t, A>,
    text: &[u8],
) -> Result<LitmusFile<'t, A>, CaseError>
    requires size { length text.now < 2 ^ 32 }
    requires lines { litmus_lines_read text.now ≡ Ok (litmus_reading_of draft) }
    requires range { IsLitmusReading (litmus_reading_of draft) }
    ensures ok { IfOk result (λ file. litmus_content_of text.now ≡ Ok (content_in file)) }
    ensures err { IfErr result (λ error.
        Refuses text.now error.cause error.line (litmus_lines_read text.now) (litmus_content_of text.now)) }
    ensures range { IfOk result IsLitmusFile }
    ensures few { IfOk result (λ file. length file.names.items ≤ MOST_THREADS) }
{
    if draft.times.is_some() {
        return Err(CaseError {
            line: last_line(text),
            cause: Cause::NoEnd,
        });
    }
    let LitmusDraft {
        rows,
        names,
        voices,
        lines,
        requirements,
        conditions,
        ..
    } = draft;
    Ok(LitmusFile {
        rows,
        names,
        voices,
        lines,
        requirements,
        conditions,
    })
}
