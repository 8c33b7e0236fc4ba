//! The texts of an outcome's turns, kept from one outcome to the next: the text of each thread without its last line,
//! and the order.

ghost use Rattle.std.specs.Prelude.{◌≡◌, ◌+◌, ◌++◌, ◌-◌, ◌∷◌, ◌<◌, ◌≤◌, [], IfOk, OnOk, Some, codes, length};
ghost use Rattle.std.specs.Prelude.{option_copied, slice_get, string_bytes, take};
ghost use Rattle.stop_explorer.specs.OutcomeReader.{BeginAlike};
ghost use Rattle.litmus_files.specs.LitmusDraft.{AreTexts, names_kept};
ghost use Rattle.outcome_text.specs.OutcomeText.{name_at, thread_word};
ghost use Rattle.outcome_text.specs.TurnTexts.{AreBeforeTurns, AreTextsOf, AreTextsOfAny, EndsLine, TextSource};
ghost use Rattle.outcome_text.specs.TurnTexts.{text_source, thread_after_turn, turns_written};

use crate::chosen::{is_quiet, thread_commands};
use crate::kept_lines::KeptLines;
use crate::text::{ToldProgram, name_at, write_thread_head};
use std::alloc::Allocator;
use std::marker::Model;
use stop_board::{NoMemory, Row};
use stop_program::{ThreadCommand, Turn, index_after};

/// At least the bytes of each line of an outcome: 32 of a name, 50 of a command and 35 of an answer.
pub(crate) const LINE: usize = 128;

/// The text of a thread without its last line: its head and, unless it is quiet, a line for each command that it did.
/// `next` is the index of its next command; there may be none at it.
#[derive(Drop)]
pub(crate) struct ThreadSoFar<A: Allocator> {
    text: String<A>,
    next: usize,
}

impl<A: Allocator> Model for ThreadSoFar<A> {
    ghost use Rattle.std.specs.Prelude.{string_bytes};
    ghost use Rattle.outcome_text.specs.TurnTexts.{ThreadText};

    ghost Value = { ThreadText };

    ghost view = { λ t. record { text = string_bytes t.text; next = t.next } };
}

impl<A: Allocator> ThreadSoFar<A> {
    /// The text, without the last line of the thread.
    pub(crate) fn text(&self) -> &str
        ensures { result.now ≡ self.now.text }
    {
        self.text.as_str()
    }

    /// The thread's next command, if it has one. `own` are the commands of the thread.
    pub(crate) fn next_of<'c>(&self, own: &'c [ThreadCommand]) -> Option<&'c ThreadCommand>
        ensures { option_copied result ≡ slice_get own.now self.now.next }
    {
        own.get(self.next)
    }

    /// Adds a turn of the thread: its line, unless the thread is quiet. The next command is then the one at which the
    /// thread goes on after the answer.
    fn add(
        &mut self,
        quiet: bool,
        own: &[ThreadCommand],
        turn: &Turn,
        line: &str,
    ) -> Result<(), NoMemory>
        ensures { OnOk result (self.new ≡ thread_after_turn quiet own.now turn.now line.now self.old) }
    {
        self.next = index_after(own, self.next, &turn.answer);
        if !quiet {
            self.text.push_str(line)?;
        }
        Ok(())
    }

    /// Cuts the text to this length, at which a line ends, and sets the index of the next command.
    fn take_back(&mut self, text_len: usize, next: usize)
        requires { EndsLine self.old.text text_len }
        ensures { self.new ≡ record { text = take text_len self.old.text; next = next } }
    {
        cut_after_line(&mut self.text, text_len);
        self.next = next;
    }
}

/// A turn whose line is written, with what is needed to take it back: before it, `next` was the index of its thread's
/// next command, and the thread's text and the order had `text_len` and `order_len` bytes. For a thread that the
/// program does not have, `next` and `text_len` are 0, and not used.
#[derive(Clone, Copy)]
pub(crate) struct WrittenTurn {
    pub(crate) turn: Turn,
    pub(crate) next: usize,
    pub(crate) text_len: usize,
    pub(crate) order_len: usize,
}

/// The texts of the turns of the outcome that was written before; at first, of no turns. Outcomes that follow one
/// another often begin with the same turns: then only the turns after these are taken back, which saves time. `lines`
/// are lines of turns that were written before.
#[derive(Drop)]
pub(crate) struct TurnTexts<A: Allocator> {
    turns: Vec<WrittenTurn, A>,
    threads: Vec<ThreadSoFar<A>, A>,
    order: String<A>,
    lines: KeptLines<A>,
}

impl<A: Allocator> Model for TurnTexts<A> {
    ghost use Rattle.std.specs.Prelude.{string_bytes};
    ghost use Rattle.outcome_text.specs.TurnTexts.{TextsOfTurns};

    ghost Value = { TextsOfTurns };

    ghost view = { λ t. record {
      turns = t.turns.items;
      threads = t.threads.items;
      order = string_bytes t.order;
      lines = t.lines;
    } };
}

impl<A: Allocator + Copy> TurnTexts<A> {
    /// The texts before any turn: the heads of the threads, and the line `order`. Room is made for this many turns.
    pub(crate) fn new(
        alloc: A,
        program: &ToldProgram<'_, '_, A>,
        turns: usize,
    ) -> Result<TurnTexts<A>, NoMemory>
        requires { AreTexts program.now.names.now }
        ensures texts { IfOk result (λ texts. AreTextsOf (text_source program.now) texts) }
        ensures turns { IfOk result (λ texts. turns_written texts.turns ≡ []) }
    {
        let count = program.names.len().max(program.commands.len());
        let threads = threads_before_turns(alloc, program, count)?;
        let lines = KeptLines::new(alloc)?;
        let mut order = String::with_capacity(alloc, turns.saturating_add(1).saturating_mul(LINE))?;
        order.push_str("order\n")?;
        Ok(TurnTexts {
            turns: Vec::with_capacity(alloc, turns)?,
            threads,
            order,
            lines,
        })
    }
}

impl<A: Allocator> TurnTexts<A> {
    /// Takes back turns, and adds others, so that the turns are these. As many turns at the beginning as `same` are the
    /// same already, and stay.
    pub(crate) fn set_turns(
        &mut self,
        program: &ToldProgram<'_, '_, A>,
        turns: &[Turn],
        same: usize,
    ) -> Result<(), NoMemory>
        requires names { AreTexts program.now.names.now }
        requires texts { AreTextsOf (text_source program.now) self.old }
        requires same { BeginAlike same (turns_written self.old.turns) turns.now }
        ensures texts { OnOk result (AreTextsOf (text_source program.now) self.new) }
        ensures turns { OnOk result (turns_written self.new.turns ≡ turns.now) }
    {
        self.keep(same);
        for at in same..turns.len() {
            self.add(program, &turns[at])?;
        }
        Ok(())
    }

    /// A thread's text, and the index of its next command.
    pub(crate) fn thread(&self, thread: usize) -> &ThreadSoFar<A>
        requires { thread < length self.now.threads }
        ensures { slice_get self.now.threads thread ≡ Some result.now }
    {
        &self.threads[thread]
    }

    /// The text of the order.
    pub(crate) fn order(&self) -> &str
        ensures { result.now ≡ self.now.order }
    {
        self.order.as_str()
    }

    /// Adds a turn. If its thread has no next command, no line is written.
    fn add(&mut self, program: &ToldProgram<'_, '_, A>, turn: &Turn) -> Result<(), NoMemory>
        requires names { AreTexts program.now.names.now }
        requires texts { AreTextsOf (text_source program.now) self.old }
        ensures texts { OnOk result (AreTextsOf (text_source program.now) self.new) }
        ensures turns { OnOk result (turns_written self.new.turns ≡ turns_written self.old.turns ++ turn.now ∷ []) }
    {
        let thread = turn.thread as usize;
        let order_len = self.order.len();
        let Some(so_far) = self.threads.get_mut(thread) else {
            // A thread that the program does not have has no text.
            self.turns.push(WrittenTurn {
                turn: *turn,
                next: 0,
                text_len: 0,
                order_len,
            })?;
            return Ok(());
        };
        self.turns.push(WrittenTurn {
            turn: *turn,
            next: so_far.next,
            text_len: so_far.text.len(),
            order_len,
        })?;
        let own = thread_commands(program.commands, thread);
        if let Some(command) = so_far.next_of(own) {
            let slot = self
                .lines
                .find(program.rows, program.names, turn, so_far.next, command)?;
            let kept = self.lines.kept(slot);
            let quiet = is_quiet(program.voices, thread);
            so_far.add(quiet, own, turn, kept.line())?;
            self.order.push_str(kept.named())?;
        }
        Ok(())
    }

    /// The turns that are written.
    fn written(&self) -> &[WrittenTurn]
        ensures { result.now ≡ self.now.turns }
    {
        self.turns.as_slice()
    }

    /// Takes back turns until only the first `count` are left.
    fn keep(&mut self, count: usize)
        requires count { count ≤ length self.old.turns }
        requires texts { AreTextsOfAny self.old }
        ensures texts { (source : TextSource) → AreTextsOf source self.old → AreTextsOf source self.new }
        ensures turns { self.new.turns ≡ take count self.old.turns }
    {
        'turns: while self.written().len() > count {
            self.take_back();
        }
    }

    /// Takes back the last turn, if there is one.
    fn take_back(&mut self)
        requires texts { AreTextsOfAny self.old }
        ensures texts { (source : TextSource) → AreTextsOf source self.old → AreTextsOf source self.new }
        ensures turns { self.new.turns ≡ take (length self.old.turns - 1) self.old.turns }
    {
        let Some(last) = self.turns.pop() else {
            return;
        };
        cut_after_line(&mut self.order, last.order_len);
        if let Some(so_far) = self.threads.get_mut(last.turn.thread as usize) {
            so_far.take_back(last.text_len, last.next);
        }
    }
}

/// Cuts a text to its first `end` bytes, the last of which is a line feed: so no character is cut in two.
fn cut_after_line<A: Allocator>(text: &mut String<A>, end: usize)
    requires { EndsLine (string_bytes text.old) end }
    ensures { string_bytes text.new ≡ take end (string_bytes text.old) }
{
    if end < text.as_str().len() {
        text.truncate(end);
    }
}

/// The texts of the threads before any turn: their heads.
fn threads_before_turns<A: Allocator + Copy>(
    alloc: A,
    program: &ToldProgram<'_, '_, A>,
    count: usize,
) -> Result<Vec<ThreadSoFar<A>, A>, NoMemory>
    requires { AreTexts program.now.names.now }
    ensures long { IfOk result (λ threads. length threads.items ≡ count) }
    ensures each { IfOk result (λ threads. AreBeforeTurns (text_source program.now) threads.items) }
{
    let mut threads = Vec::with_capacity(alloc, count)?;
    for thread in 0..count {
        let own = thread_commands(program.commands, thread);
        let lines = own.len().saturating_add(1);
        let mut text = String::with_capacity(alloc, lines.saturating_mul(LINE))?;
        write_thread_head(&mut text, thread + 1, name_at(program.names, thread))?;
        threads.push(ThreadSoFar { text, next: 0 })?;
    }
    Ok(threads)
}
