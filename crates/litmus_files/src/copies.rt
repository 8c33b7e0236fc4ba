//! Commands as lines of a program, and the copies that a repeat is made of.

ghost use Rattle.std.specs.Prelude.{◌≡◌, ◌++◌, OnOk, map};
ghost use Rattle.litmus_files.specs.LitmusFile.{copies_of, leaving_line};

use crate::required::{NumberedCommand, NumberedLine};
use std::alloc::Allocator;
use stop_board::NoMemory;
use stop_program::{ProgramLine, ThreadCommand};

/// A command as a line of a thread, which goes on at a place after "no child".
pub(crate) fn leaving_line(thread: u32, leave_to: u32, numbered: NumberedCommand) -> NumberedLine
    ensures { result ≡ leaving_line thread leave_to numbered }
{
    NumberedLine {
        line: ProgramLine {
            thread,
            command: ThreadCommand {
                leave_to,
                ..numbered.command
            },
        },
        number: numbered.number,
    }
}

/// Adds copies of commands as lines of a thread, all commands of one copy before those of the next. Each of them goes
/// on at the same place after "no child".
pub(crate) fn add_copies<A: Allocator>(
    lines: &mut Vec<NumberedLine, A>,
    thread: u32,
    leave_to: u32,
    times: u32,
    body: &[NumberedCommand],
) -> Result<(), NoMemory>
    ensures { OnOk result (lines.new.items
        ≡ lines.old.items ++ map (leaving_line thread leave_to) (copies_of times body.now)) }
{
    for _ in 0..times {
        copy_body(lines, thread, leave_to, body)?;
    }
    Ok(())
}

/// Adds commands as lines of a thread.
fn copy_body<A: Allocator>(
    lines: &mut Vec<NumberedLine, A>,
    thread: u32,
    leave_to: u32,
    body: &[NumberedCommand],
) -> Result<(), NoMemory>
    ensures { OnOk result (lines.new.items ≡ lines.old.items ++ map (leaving_line thread leave_to) body.now) }
{
    for command in body {
        lines.push(leaving_line(thread, leave_to, *command))?;
    }
    Ok(())
}
