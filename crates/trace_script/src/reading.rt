//! A file that is read line by line, whatever its lines say.

ghost use Rattle.std.specs.Prelude.{◌≡◌, ◌≤◌, ℕ, IfErr, IfOk, List, Ok, OnOk, Result, length};
ghost use Rattle.text_lines.specs.Lines.{lines_of};
ghost use Rattle.trace_script.specs.Reading.{Refuses, TakesLine, most_bytes, read_after, read_file};
ghost use Rattle.trace_script.specs.declared.cause.Cause.{Cause};

use crate::cause::{CaseError, Cause};
use crate::limits::MOST_BYTES;
use text_lines::cut_line;

/// What was read of a file so far, and takes its next line. Each format has one.
pub trait TakesLines<'t> {
    /// What was read, as the definitions of the format say it.
    ghost Content: { Type 0 };

    ghost content: { Self → Content };

    /// What the line of this number makes of what was read before it, or its first fault.
    ghost line_read: { ℕ → Content → List ℕ → Result Content Cause };

    /// What is known of what was read.
    ghost IsSound: { Self → Type 0 };

    /// Takes the line of this number, without its line feed, or returns its first fault. NoMemory only where it has no
    /// fault.
    fn take_line(&mut self, number: u32, line: &'t [u8]) -> Result<(), Cause>
        requires { IsSound self.old }
        ensures line { TakesLine result (content self.new) (line_read number (content self.old) line.now) }
        ensures sound { OnOk result (IsSound self.new) };
}

/// What the lines of a file make of what was read before them, or the file's first fault. Lines count from 1; a file
/// of too many bytes is refused on line 1. NoMemory is reported on a line that has no fault and before which no line
/// has one.
pub fn read_file<'t, D: TakesLines<'t> + Drop>(nothing: D, text: &'t [u8]) -> Result<D, CaseError>
    requires { D.IsSound nothing }
    ensures ok { IfOk result (λ read. read_file D.line_read (D.content nothing) text.now ≡ Ok (D.content read)) }
    ensures err { let read = read_file D.line_read (D.content nothing) text.now in
        IfErr result (λ error. Refuses text.now error.cause error.line read read) }
    ensures sound { IfOk result D.IsSound }
    ensures small { IfOk result (λ read. length text.now ≤ most_bytes) }
{
    if text.len() > MOST_BYTES {
        return Err(CaseError {
            line: 1,
            cause: Cause::TooMany,
        });
    }
    read_lines(nothing, text)
}

/// What the lines of a text of not too many bytes make of what was read before them, or the first fault.
fn read_lines<'t, D: TakesLines<'t> + Drop>(nothing: D, text: &'t [u8]) -> Result<D, CaseError>
    requires small { length text.now ≤ most_bytes }
    requires sound { D.IsSound nothing }
    ensures ok { IfOk result (λ read.
        read_after D.line_read 1 (D.content nothing) (lines_of text.now) ≡ Ok (D.content read)) }
    ensures err { let read = read_after D.line_read 1 (D.content nothing) (lines_of text.now) in
        IfErr result (λ error. Refuses text.now error.cause error.line read read) }
    ensures sound { IfOk result D.IsSound }
{
    let mut so_far = nothing;
    let mut rest = text;
    let mut number = 1u32;
    while !rest.is_empty() {
        let (line, after) = cut_line(rest);
        if let Err(cause) = so_far.take_line(number, line) {
            return Err(CaseError {
                line: number,
                cause,
            });
        }
        rest = after;
        number += 1;
    }
    Ok(so_far)
}
