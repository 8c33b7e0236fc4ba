//! The lines of turns, kept for turns that come again: the outcomes of a program have few different ones.

ghost use Rattle.std.specs.Prelude.{◌≡◌, ◌++◌, ◌+◌, ◌<◌, ℕ, IfOk, List, OnOk, Some, codes, length, slice_get};
ghost use Rattle.std.specs.Prelude.{string_bytes};
ghost use Rattle.std.specs.Bool.{OnTrue};
ghost use Rattle.std.specs.List.{All};
ghost use Rattle.stop_program.specs.declared.command.ThreadCommand.{ThreadCommand};
ghost use Rattle.outcome_text.specs.KeptLines.{AreLinesKept, IsEmptyLine, IsLineKept, kept_text};
ghost use Rattle.litmus_files.specs.LitmusDraft.{AreTexts, names_kept};
ghost use Rattle.outcome_text.specs.OutcomeText.{done_line, name_at, thread_word};

use crate::answer_text::write_answer;
use crate::command_text::write_command;
use crate::text::{name_at, write_thread_word};
use crate::turn_texts::LINE;
use std::alloc::Allocator;
use std::marker::Model;
use stop_board::{Got, NoMemory, Row};
use stop_program::{Answer, ThreadCommand, Turn};

/// How many lines are kept.
const SLOTS: usize = 512;

/// A turn, and the index of the command that it did among those of its thread.
#[derive(Clone, Copy)]
pub(crate) struct DoneAt {
    pub(crate) turn: Turn,
    pub(crate) at: usize,
}

/// The line of a turn, and the same as the order has it, with its thread; and the turn that they were made of, if there
/// is one yet.
#[derive(Drop)]
pub(crate) struct KeptLine<A: Allocator> {
    made: Option<DoneAt>,
    line: String<A>,
    named: String<A>,
}

impl<A: Allocator> Model for KeptLine<A> {
    ghost use Rattle.std.specs.Prelude.{string_bytes};
    ghost use Rattle.outcome_text.specs.KeptLines.{LineText};

    ghost Value = { LineText };

    ghost view = { λ k. record { made = k.made; line = string_bytes k.line; named = string_bytes k.named } };
}

impl<A: Allocator> KeptLine<A> {
    /// Whether it was made of a turn that did the command at an index.
    fn is_of(&self, turn: &Turn, at: usize) -> bool
        ensures { OnTrue result (self.now.made ≡ Some (record { turn = turn.now; at = at })) }
    {
        match self.made {
            None => false,
            Some(done) => done.at == at && done.turn == *turn,
        }
    }

    /// The line.
    pub(crate) fn line(&self) -> &str
        ensures { result.now ≡ self.now.line }
    {
        self.line.as_str()
    }

    /// The line with its thread.
    pub(crate) fn named(&self) -> &str
        ensures { result.now ≡ self.now.named }
    {
        self.named.as_str()
    }

    /// Sets it to the line of a turn that did the command at an index, which is this one. If it has that line already,
    /// it stays.
    fn set(
        &mut self,
        rows: &[Row],
        names: &[Option<&[u8]>],
        turn: &Turn,
        at: usize,
        command: &ThreadCommand,
    ) -> Result<(), NoMemory>
        requires { AreTexts names.now }
        ensures { OnOk result ((commands : ℕ → List ThreadCommand) →
            slice_get (commands turn.now.thread) at ≡ Some command.now →
            IsLineKept rows.now (names_kept names.now) commands self.old →
            self.new ≡ kept_text rows.now (names_kept names.now) (record { turn = turn.now; at = at }) command.now) }
    {
        if self.is_of(turn, at) {
            return Ok(());
        }
        self.make(rows, names, turn, at, command)
    }

    /// Makes it the line of a turn that did the command at an index, which is this one. It is not inlined, since few
    /// lines are made, and most are there.
    #[cold]
    #[inline(never)]
    fn make(
        &mut self,
        rows: &[Row],
        names: &[Option<&[u8]>],
        turn: &Turn,
        at: usize,
        command: &ThreadCommand,
    ) -> Result<(), NoMemory>
        requires { AreTexts names.now }
        ensures { OnOk result (self.new
            ≡ kept_text rows.now (names_kept names.now) (record { turn = turn.now; at = at }) command.now) }
    {
        self.made = None;
        set_line(&mut self.line, rows, turn, command)?;
        set_named(&mut self.named, names, turn.thread, self.line.as_str())?;
        self.made = Some(DoneAt { turn: *turn, at });
        Ok(())
    }
}

/// Lines of turns, each in a slot that the numbers of its turn lead to. A line takes the place of another one that has
/// the same slot.
#[derive(Drop)]
pub(crate) struct KeptLines<A: Allocator> {
    slots: Vec<KeptLine<A>, A>,
}

impl<A: Allocator> Model for KeptLines<A> {
    ghost use Rattle.std.specs.Prelude.{◌<◌, List, length};
    ghost use Rattle.outcome_text.specs.KeptLines.{LineText};

    ghost Value = { List LineText };

    ghost view = { λ k. k.slots.items };

    ghost invariant = { λ k. 0 < length k.slots.items };
}

impl<A: Allocator + Copy> KeptLines<A> {
    /// Lines of no turn, with room for one turn each.
    pub(crate) fn new(alloc: A) -> Result<KeptLines<A>, NoMemory>
        ensures { IfOk result (λ lines. All IsEmptyLine lines) }
    {
        let mut slots = Vec::with_capacity(alloc, SLOTS)?;
        for _slot in 0..SLOTS {
            slots.push(KeptLine {
                made: None,
                line: String::with_capacity(alloc, LINE)?,
                named: String::with_capacity(alloc, LINE)?,
            })?;
        }
        Ok(KeptLines { slots })
    }
}

impl<A: Allocator> KeptLines<A> {
    /// The slot that has the line of a turn, which did the command at an index. It is made if it is not there.
    /// `command` is the one that the turn did.
    pub(crate) fn find(
        &mut self,
        rows: &[Row],
        names: &[Option<&[u8]>],
        turn: &Turn,
        at: usize,
        command: &ThreadCommand,
    ) -> Result<usize, NoMemory>
        requires { AreTexts names.now }
        ensures kept { IfOk result (λ _. (commands : ℕ → List ThreadCommand) →
            slice_get (commands turn.now.thread) at ≡ Some command.now →
            AreLinesKept rows.now (names_kept names.now) commands self.old →
            AreLinesKept rows.now (names_kept names.now) commands self.new) }
        ensures line { IfOk result (λ slot. (commands : ℕ → List ThreadCommand) →
            slice_get (commands turn.now.thread) at ≡ Some command.now →
            AreLinesKept rows.now (names_kept names.now) commands self.old →
            slice_get self.new slot ≡ Some (kept_text rows.now (names_kept names.now)
            (record { turn = turn.now; at = at }) command.now)) }
        ensures within { IfOk result (λ slot. slot < length self.new) }
    {
        let slot = slot_of(turn, at, self.slots.len());
        self.slots[slot].set(rows, names, turn, at, command)?;
        Ok(slot)
    }

    /// The line in a slot.
    pub(crate) fn kept(&self, slot: usize) -> &KeptLine<A>
        requires { slot < length self.now }
        ensures { slice_get self.now slot ≡ Some result.now }
    {
        &self.slots[slot]
    }
}

/// A slot for the line of a turn that did the command at an index.
fn slot_of(turn: &Turn, at: usize, slots: usize) -> usize
    requires { 0 < slots }
    ensures { result < slots }
{
    mix_of(turn, at) & (slots - 1)
}

/// A mix of the numbers of a turn and of its command's index: those of a small program have mixes of their own.
fn mix_of(turn: &Turn, at: usize) -> usize {
    (turn.thread as usize)
        .wrapping_mul(4)
        .wrapping_add(told_number(&turn.answer) as usize)
        .wrapping_mul(4)
        .wrapping_add(turn.row as usize)
        .wrapping_mul(16)
        .wrapping_add(at)
}

/// A number of an answer: answers of one kind that follow one another have different ones.
fn told_number(answer: &Answer) -> u32 {
    match *answer {
        Answer::Number(number) => number,
        Answer::Got(Got::Stop(number, _)) | Answer::Saw(Got::Stop(number, _)) => number,
        _ => 0,
    }
}

/// Writes a command that was done, and its answer.
#[tactic(auto, using(replay_files::proofs::Written::in_three))]
fn write_turn<A: Allocator>(
    out: &mut String<A>,
    rows: &[Row],
    turn: &Turn,
    command: &ThreadCommand,
) -> Result<(), NoMemory>
    ensures { OnOk result (string_bytes out.new
        ≡ string_bytes out.old ++ done_line rows.now turn.now (Some command.now)) }
{
    write_command(out, rows, command)?;
    out.push_str(": ")?;
    write_answer(out, rows, command, turn)
}

/// Sets `line` to the line of a turn that did this command.
fn set_line<A: Allocator>(
    line: &mut String<A>,
    rows: &[Row],
    turn: &Turn,
    command: &ThreadCommand,
) -> Result<(), NoMemory>
    ensures { OnOk result (string_bytes line.new ≡ done_line rows.now turn.now (Some command.now)) }
{
    line.clear();
    write_turn(line, rows, turn, command)
}

/// Sets `named` to a line of the order: the thread's name, or its number if it has none, a space, and the line of the
/// turn.
#[tactic(auto, using(replay_files::proofs::Written::in_three))]
fn set_named<A: Allocator>(
    named: &mut String<A>,
    names: &[Option<&[u8]>],
    thread: u32,
    line: &str,
) -> Result<(), NoMemory>
    requires { AreTexts names.now }
    ensures { OnOk result (string_bytes named.new
        ≡ thread_word (thread + 1) (name_at (names_kept names.now) thread) ++ codes " " ++ line.now) }
{
    named.clear();
    write_thread_word(named, thread as usize + 1, name_at(names, thread as usize))?;
    named.push_str(" ")?;
    named.push_str(line)?;
    Ok(())
}
