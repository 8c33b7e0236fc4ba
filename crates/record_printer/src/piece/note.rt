//! What each stop of a row gives to the printed text (strace(1)).

ghost use Rattle.std.specs.Prelude.{◌≡◌};
ghost use Rattle.record_printer.specs.Came.{child_noted};
ghost use Rattle.record_printer.specs.NoteOf.{note_of};

use crate::call::parts::{CallEnd, CallStart};
use std::alloc::{Allocator, Global};

/// What is noted of a stop.
#[derive(Drop)]
pub(crate) enum Note<A: Allocator = Global> {
    /// A call starts at a syscall-enter-stop (ptrace(2), "Syscall-stops").
    Enter(CallStart<A>),
    /// A call starts at a seccomp stop, unless it has stopped at its entry (ptrace(2), "PTRACE_EVENT stops").
    Seccomp(CallStart<A>),
    /// A call ends at a syscall-exit-stop.
    Exit(CallEnd<A>),
    /// The line of a signal, with its line feed.
    Signal(Vec<u8, A>),
    /// A child with this thread id was created.
    Birth(u32),
    /// Another stop, of which nothing is printed.
    Quiet,
}

impl<A: Allocator> Note<A> {
    /// The child that the stop creates.
    pub(crate) fn child(&self) -> Option<u32>
        ensures { result ≡ child_noted (note_of self.now) }
    {
        match self {
            Note::Birth(child) => Some(*child),
            _ => None,
        }
    }
}
