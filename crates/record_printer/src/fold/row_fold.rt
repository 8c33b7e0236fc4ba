//! The lines of a row while its stops are folded one by one (strace(1)).

ghost use Rattle.std.specs.Prelude.{◌≡◌, ◌+◌, ◌++◌, ◌≤◌, ℕ, [], None, Some, IfOk, IfSome, OnOk, length, option_map};
ghost use Rattle.std.specs.Prelude.{vec_capacity, vec_len};
ghost use Rattle.std.specs.Option.{option_copied};
ghost use Rattle.record_printer.specs.DeathLine.{death_text};
ghost use Rattle.record_printer.specs.KeptFold.{HasRoom, behind_len, end_len, fold_of, held_len, note_len};
ghost use Rattle.record_printer.specs.KeptFold.{start_len, text_len};
ghost use Rattle.record_printer.specs.Note.{ended_line, line_with, out_text, came_out, unfinished_line};
ghost use Rattle.record_printer.specs.NoteOf.{note_of};
ghost use Rattle.record_printer.specs.RowFold.{empty_fold, ended_fold, fold_after, fold_text, pending_line, started};

use crate::call::parts::{CallEnd, CallStart};
use crate::fold::room::{LINE_ROOM, TextRoom, with_start};
use crate::piece::note::Note;
use crate::text::death::write_death;
use std::alloc::{Allocator, Global};
use trace_options::NoMemory;
use trace_record::Death;

/// The lines of the stops so far: the text that is fixed, the call that is pending, the lines that follow that call's
/// line, and whether a syscall-enter-stop has no syscall-exit-stop after it.
#[derive(Drop)]
pub(crate) struct RowFold<A: Allocator = Global> {
    pub(crate) text: Vec<u8, A>,
    pub(crate) pending: Option<CallStart<A>>,
    pub(crate) behind: Vec<u8, A>,
    pub(crate) entered: bool,
}

impl<A: Allocator + Copy> RowFold<A> {
    /// No stop yet. It takes no memory.
    pub(crate) fn new(alloc: A) -> RowFold<A>
        ensures { fold_of result ≡ empty_fold }
    {
        RowFold {
            text: Vec::new(alloc),
            pending: None,
            behind: Vec::new(alloc),
            entered: false,
        }
    }
}

impl<A: Allocator> RowFold<A> {
    /// Makes the texts so long that notes of this room are folded without a growth.
    pub(crate) fn reserve(&mut self, room: TextRoom) -> Result<(), NoMemory>
        ensures same { fold_of self.new ≡ fold_of self.old }
        ensures room { OnOk result (HasRoom self.new room.lines room.behind) }
    {
        let lines = self.with_held(room.lines).ok_or(NoMemory)?;
        self.text.reserve(lines)?;
        self.behind.reserve(room.behind)?;
        Ok(())
    }

    /// This many bytes and those that the text may still take in, or None where they are no `usize`.
    fn with_held(&self, lines: usize) -> Option<usize>
        ensures { IfSome result (λ more. more ≡ held_len (fold_of self.now) + lines) }
    {
        let behind = lines.checked_add(self.behind.as_slice().len())?;
        match &self.pending {
            Some(start) => with_start(behind, start),
            None => Some(behind),
        }
    }

    /// Folds the next stop. It is compiled into its callers, so that a note is moved less often.
    #[inline(always)]
    pub(crate) fn take(&mut self, note: Note<A>)
        requires { HasRoom self.old (note_len (note_of note)) (behind_len (note_of note)) }
        ensures fold { fold_of self.new ≡ fold_after (fold_of self.old) (note_of note) }
        ensures room { (lines behind : ℕ) →
            HasRoom self.old (note_len (note_of note) + lines) (behind_len (note_of note) + behind)
            → HasRoom self.new lines behind }
    {
        match note {
            Note::Enter(start) => self.start(true, start),
            Note::Seccomp(start) => {
                if !self.entered {
                    self.start(false, start);
                }
            }
            Note::Exit(end) => self.end(end),
            Note::Signal(line) => put(&mut self.behind, line.as_slice()),
            Note::Birth(_) | Note::Quiet => {}
        }
    }

    /// The text once the thread with this id has died. A call that is pending is unfinished.
    pub(crate) fn finish(mut self, tid: u32, death: Death) -> Result<Vec<u8, A>, NoMemory>
        ensures { IfOk result (λ text. text.items ≡ fold_text (fold_of self) (Some (death_text tid death))) }
    {
        if let Some(start) = &self.pending {
            write_unfinished(&mut self.text, start)?;
        }
        self.text.append(&mut self.behind)?;
        write_death(&mut self.text, tid, death)?;
        Ok(self.text)
    }

    /// About how long the text is once the thread has died.
    pub(crate) fn text_len(&self) -> usize {
        let lines = self.text.len().saturating_add(self.behind.len());
        lines.saturating_add(LINE_ROOM)
    }

    /// The text of a row that has none.
    pub(crate) fn into_empty(self) -> Vec<u8, A>
        ensures { result.items ≡ [] }
    {
        let mut text = self.text;
        text.clear();
        text
    }

    /// A call starts: one that is pending has no line.
    #[inline(always)]
    fn start(&mut self, entered: bool, start: CallStart<A>)
        requires { HasRoom self.old 0 0 }
        ensures fold { fold_of self.new ≡ started (fold_of self.old) entered start }
        ensures room { (lines behind : ℕ) → HasRoom self.old (start_len start + lines) behind
            → HasRoom self.new lines behind }
    {
        put(&mut self.text, self.behind.as_slice());
        self.behind.clear();
        self.pending = Some(start);
        self.entered = entered;
    }

    /// The pending call ends, if there is one.
    #[inline(always)]
    fn end(&mut self, end: CallEnd<A>)
        requires { HasRoom self.old (end_len end) 0 }
        ensures fold { fold_of self.new ≡ ended_fold (fold_of self.old) end }
        ensures room { (lines behind : ℕ) → HasRoom self.old (end_len end + lines) behind
            → HasRoom self.new lines behind }
    {
        if let Some(start) = self.pending.take() {
            put_ended(&mut self.text, &start, &end);
        }
        put(&mut self.text, self.behind.as_slice());
        self.behind.clear();
        self.entered = false;
    }
}

/// Writes the line of a call that has ended, where there is room for its parts.
fn put_ended<A: Allocator>(text: &mut Vec<u8, A>, start: &CallStart<A>, end: &CallEnd<A>)
    requires { vec_len text.old + (start_len start.now + end_len end.now) ≤ vec_capacity text.old }
    ensures items { text.new.items ≡ text.old.items ++ ended_line start.now end.now }
    ensures len { vec_len text.new ≤ vec_len text.old + (start_len start.now + end_len end.now) }
    ensures capacity { vec_capacity text.old ≤ vec_capacity text.new }
{
    if start.is_shown() {
        put(text, start.before());
        put(text, out_of(start, end));
        put(text, start.after());
        put(text, end.result());
        put(text, b"\n");
    }
}

/// What is printed of the argument whose bytes come out of a call.
fn out_of<'a, A: Allocator>(start: &'a CallStart<A>, end: &'a CallEnd<A>) -> &'a [u8]
    ensures out { result.now ≡ out_text start.now.out (came_out start.now end.now) }
    ensures len { length result.now ≤ text_len start.now.out + text_len end.now.out }
{
    match (start.out(), end.out()) {
        (Some(_), Some(bytes)) if start.number() == end.number() => bytes,
        (Some(address), _) => address,
        (None, _) => &[],
    }
}

/// Writes bytes for which there is room.
#[inline(always)]
fn put<A: Allocator>(text: &mut Vec<u8, A>, bytes: &[u8])
    requires { vec_len text.old + length bytes.now ≤ vec_capacity text.old }
    ensures items { text.new.items ≡ text.old.items ++ bytes.now }
    ensures len { vec_len text.new ≡ vec_len text.old + length bytes.now }
    ensures capacity { vec_capacity text.old ≤ vec_capacity text.new }
{
    if text.extend_from_slice(bytes).is_err() {
        unreachable!()
    }
}

/// Writes the line of a call in which its thread died.
fn write_unfinished<A: Allocator>(
    text: &mut Vec<u8, A>,
    start: &CallStart<A>,
) -> Result<(), NoMemory>
    ensures { OnOk result (text.new.items ≡ text.old.items ++ unfinished_line start.now) }
{
    if start.is_shown() {
        text.extend_from_slice(start.before())?;
        if let Some(address) = start.out() {
            text.extend_from_slice(address)?;
        }
        text.extend_from_slice(start.after())?;
        text.extend_from_slice(b"?\n")?;
    }
    Ok(())
}
