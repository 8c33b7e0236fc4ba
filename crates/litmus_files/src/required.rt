//! What a file requires: its replies and its conditions, numbered from 1 in the order of its lines. A reply that is in
//! a repeat is one of them, and each copy has its number. Between the program with all of them and the one with none
//! are the programs with the first n.

ghost use Rattle.std.specs.Prelude.{◌≡◌, IfOk};
ghost use Rattle.litmus_files.specs.Required.{conditions_with, required_line, program_with};

use crate::condition::Sense;
use replay_files::StateName;
use std::alloc::Allocator;
use stop_board::NoMemory;
use stop_program::{ProgramLine, ThreadCommand};

/// What has to hold where an outcome ends.
#[derive(Clone, Copy, Debug, PartialEq, Eq)]
pub enum Condition {
    /// The tracee of this row is in this state, or is not.
    Tracee(u32, Sense, StateName),
    /// Some tracee is, or some is not.
    SomeTracee(Sense, StateName),
    /// This thread, from 0, waits, or does not.
    Thread(u32, Sense),
}

/// A command, and the number of its reply; 0 without a reply.
#[derive(Clone, Copy, Debug)]
pub(crate) struct NumberedCommand {
    pub(crate) command: ThreadCommand,
    pub(crate) number: usize,
}

/// A command of a thread, and the number of its reply.
#[derive(Clone, Copy, Debug)]
pub struct NumberedLine {
    pub line: ProgramLine,
    pub number: usize,
}

/// A condition with its number.
#[derive(Clone, Copy, Debug)]
pub struct NumberedCondition {
    pub condition: Condition,
    pub number: usize,
}

/// A command, without its reply where that is not among the first `count`.
fn required_line(count: usize, numbered: &NumberedLine) -> ProgramLine
    ensures { result ≡ required_line count numbered.now }
{
    let line = numbered.line;
    if numbered.number <= count {
        return line;
    }
    ProgramLine {
        thread: line.thread,
        command: ThreadCommand {
            wanted: None,
            ..line.command
        },
    }
}

/// The program with the first `count` of the replies and conditions of its file.
pub fn program_with<A: Allocator>(
    alloc: A,
    count: usize,
    lines: &[NumberedLine],
) -> Result<Vec<ProgramLine, A>, NoMemory>
    ensures { IfOk result (λ program. program.items ≡ program_with count lines.now) }
{
    let mut program = Vec::new(alloc);
    for line in lines {
        program.push(required_line(count, line))?;
    }
    Ok(program)
}

/// The conditions among the first `count` of the replies and conditions of a file.
pub fn conditions_with<A: Allocator>(
    alloc: A,
    count: usize,
    conditions: &[NumberedCondition],
) -> Result<Vec<Condition, A>, NoMemory>
    ensures { IfOk result (λ some. some.items ≡ conditions_with count conditions.now) }
{
    let mut some = Vec::new(alloc);
    for numbered in conditions {
        if numbered.number <= count {
            some.push(numbered.condition)?;
        }
    }
    Ok(some)
}
