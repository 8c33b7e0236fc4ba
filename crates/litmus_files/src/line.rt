//! What the lines of a litmus file say.

use crate::condition::LitmusCondition;
use stop_board::Row;
use stop_program::{BoardCall, Voice, WantedAnswer};

/// Where a line is in its file.
#[derive(Clone, Copy, Debug, PartialEq, Eq)]
pub(crate) enum Within {
    /// Before the first thread.
    Rows,
    /// In a thread, and in no repeat.
    Thread,
    /// In a repeat of a thread.
    Repeat,
    /// After the first condition.
    Conditions,
}

/// The tracee that a command is about, as its line names it.
#[derive(Clone, Copy, Debug, PartialEq, Eq)]
pub(crate) enum Aim {
    /// That of this thread id.
    Tid(u32),
    /// Whichever has something to claim.
    Any,
    /// Whichever of this process group has something to claim.
    Group(u32),
    /// The one that the thread claimed last.
    It,
}

/// The reply after a command's `=`.
#[derive(Clone, Copy, Debug, PartialEq, Eq)]
pub(crate) struct LitmusReply {
    /// The thread id before it, if there is one.
    pub(crate) tid: Option<u32>,
    pub(crate) answer: WantedAnswer,
}

/// A command, as its line says it.
#[derive(Clone, Copy, Debug, PartialEq, Eq)]
pub(crate) struct LitmusCommand {
    pub(crate) aim: Aim,
    pub(crate) call: BoardCall,
    pub(crate) waits: bool,
    pub(crate) reply: Option<LitmusReply>,
}

/// What a line says.
#[derive(Clone, Copy)]
pub(crate) enum LitmusLine<'t> {
    /// It is empty or a comment.
    Nothing,
    /// A row of the roster.
    Row(Row),
    /// A thread begins, which is loud or quiet, with its name, if it has one.
    Thread(Voice, Option<&'t [u8]>),
    /// The commands to the next `end` are done this many times, 1 to 64.
    Repeat(u32),
    /// The end of a repeat.
    End,
    /// A condition.
    Only(LitmusCondition<'t>),
    Command(LitmusCommand),
}
