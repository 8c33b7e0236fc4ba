//! The pieces of a trace, put together to its text as they come.
//!
//! A folder keeps of each row the text of the stops up to a number, and the stops that came before their turn. It does
//! not matter in which order the pieces come.

ghost use Rattle.std.specs.Option.{IfSome, is_some};
ghost use Rattle.std.specs.Prelude.{◌≡◌, ◌<◌, ◌≤◌, ◌||◌, ◌++◌, ℕ, [], ◌∷◌, List, None, Some, length};
ghost use Rattle.std.specs.Prelude.{IfOk, IsOkUnless, OnErr, OnOk};
ghost use Rattle.record_printer.specs.Came.{child_noted, is_child};
ghost use Rattle.record_printer.specs.FolderAnswers.{lost, lost_if, pieces_text, refusal};
ghost use Rattle.record_printer.specs.Kept.{KeepsStops, empty_row, has_any};
ghost use Rattle.record_printer.specs.Note.{Stops};
ghost use Rattle.record_printer.specs.NoteOf.{note_of};
ghost use Rattle.record_printer.specs.Piece as pieces;
ghost use Rattle.record_printer.specs.Represents.{AddsStopAt, Represents, kept_at, with_name};
ghost use Rattle.record_printer.specs.RowAnswers.{missing_in, stop_fault};
ghost use Rattle.record_printer.specs.declared.fold.error.FoldError.{FoldError};
ghost use Rattle.stop_history.specs.Roster.{IsRoster, is_root, row_at, row_of};
ghost use Rattle.stop_history.specs.declared.limits.TheConstants.{MOST_ROWS};

use crate::fold::error::FoldError;
use crate::fold::kept_row::KeptRow;
use crate::piece::note::Note;
use crate::piece::{Given, Piece};
use crate::text::Text;
use std::alloc::{Allocator, Global};
use std::marker::Model;
use std::mem;
use stop_history::{Roster, Row, place_of};
use trace_options::NoMemory;

/// The pieces of the stops and deaths of a roster's rows.
#[derive(Drop)]
pub struct Folder<A: Allocator = Global> {
    rows: Vec<Row, A>,
    kept: Vec<KeptRow<A>, A>,
}

impl<A: Allocator> Model for Folder<A> {
    ghost use Rattle.std.specs.Prelude.{◌≡◌, length};
    ghost use Rattle.record_printer.specs.Represents.{Folded};
    ghost use Rattle.stop_history.specs.Roster.{IsRoster};

    ghost Value = { Folded };

    ghost view = { λ f. record { rows = f.rows.items; kept = f.kept.items } };

    ghost invariant = { λ f. IsRoster f.rows.items × (length f.kept.items ≡ length f.rows.items) };
}

impl<A: Allocator + Copy> Folder<A> {
    /// A folder for the rows of a roster, to which no piece was added.
    pub fn new<B: Allocator>(alloc: A, roster: &Roster<B>) -> Result<Folder<A>, NoMemory>
        ensures rows { IfOk result (λ folder. folder.rows ≡ roster.now) }
        ensures empty { IfOk result (λ folder. Represents folder []) }
    {
        let rows = Vec::from_slice(alloc, roster.rows())?;
        let kept = new_rows(alloc, rows.len())?;
        Ok(Folder { rows, kept })
    }

    /// Adds a piece, or answers why not and leaves the folder as it was, the first reason first: `Stranger` for a piece
    /// of no row, for a stop of number 0, and where the number of a stop is above that of its row's death, `Twice` for a
    /// stop whose number was added already and for a second death, then `NoMemory`. It never answers `Lost`.
    pub fn add(&mut self, piece: Piece<A>) -> Result<(), FoldError>
        ensures refused { (came : List pieces.Piece) → Represents self.old came → (error : FoldError)
            → refusal self.old.rows came piece ≡ Some error → result ≡ Err error }
        ensures accepted { (came : List pieces.Piece) → Represents self.old came
            → refusal self.old.rows came piece ≡ None → IsOkUnless result FoldError.NoMemory }
        ensures ok { (came : List pieces.Piece) → Represents self.old came
            → OnOk result (Represents self.new (piece ∷ came)) }
        ensures rows { self.new.rows ≡ self.old.rows }
        ensures err { OnErr result (self.new ≡ self.old) }
    {
        add_piece(self.rows.as_slice(), self.kept.as_mut_slice(), piece)
    }

    /// The text of the pieces that were added: `Lost` with the first row in the roster's order that must be whole and
    /// is not, else `NoMemory` where a growth is refused. A row must be whole if it is a root, if the creation of a
    /// child names it, or if a piece of it was added.
    pub fn finish(self) -> Result<Text<A>, FoldError>
        ensures refused { (came : List pieces.Piece) → Represents self came → (error : FoldError)
            → lost self.rows came ≡ Some error → result ≡ Err error }
        ensures accepted { (came : List pieces.Piece) → Represents self came → lost self.rows came ≡ None
            → IsOkUnless result FoldError.NoMemory }
        ensures text { (came : List pieces.Piece) → Represents self came
            → IfOk result (λ text. text ≡ pieces_text self.rows came) }
    {
        if let Some(fault) = lost_in(self.rows.as_slice(), self.kept.as_slice()) {
            return Err(fault);
        }
        let rows = self.rows;
        let kept = self.kept;
        let text = join_texts(rows.as_slice(), kept)?;
        Ok(Text::new(text))
    }
}

/// What is lost, of the first row of which something is.
fn lost_in<A: Allocator>(rows: &[Row], kept: &[KeptRow<A>]) -> Option<FoldError>
    requires few { length rows.now ≤ MOST_ROWS }
    requires paired { length kept.now ≡ length rows.now }
    ensures { (came : List pieces.Piece) → Represents (record { rows = rows.now; kept = kept.now }) came
        → result ≡ lost rows.now came }
{
    for place in 0..rows.len() {
        let fault = lost_at(rows[place], &kept[place], place as u32);
        if fault.is_some() {
            return fault;
        }
    }
    None
}

/// What is lost of a row.
fn lost_at<A: Allocator>(row: Row, kept: &KeptRow<A>, place: u32) -> Option<FoldError>
    ensures { (stops : Stops) → KeepsStops kept.now stops
        → result ≡ lost_if (is_root row || (kept.now.named || has_any kept.now)) place
        (missing_in stops kept.now.ending kept.now.last) }
{
    if row.parent != 0 && !kept.is_known() {
        return None;
    }
    match kept.missing() {
        Some(number) => Some(FoldError::Lost { row: place, number }),
        None => None,
    }
}

/// The texts of all rows, one after the other.
fn join_texts<A: Allocator + Copy>(
    rows: &[Row],
    mut kept: Vec<KeptRow<A>, A>,
) -> Result<Vec<u8, A>, NoMemory>
    requires paired { length kept.items ≡ length rows.now }
    ensures { (came : List pieces.Piece) → Represents (record { rows = rows.now; kept = kept.items }) came
        → lost rows.now came ≡ None → IfOk result (λ text. text.items ≡ pieces_text rows.now came) }
{
    let alloc = *kept.allocator();
    let len = texts_len(kept.as_slice());
    let mut text = Vec::new(alloc);
    for place in 0..rows.len() {
        let row = mem::replace(&mut kept[place], KeptRow::new(alloc));
        text = join(text, row.into_text(rows[place].tid)?, len)?;
    }
    Ok(text)
}

/// About how long the texts of these rows are together.
fn texts_len<A: Allocator>(kept: &[KeptRow<A>]) -> usize {
    let mut len = 0usize;
    for row in kept {
        len = len.saturating_add(row.text_len());
    }
    len
}

/// Two texts, one after the other, with room for this many bytes. The memory of the second is kept where the first has
/// none.
fn join<A: Allocator>(
    mut text: Vec<u8, A>,
    mut more: Vec<u8, A>,
    len: usize,
) -> Result<Vec<u8, A>, NoMemory>
    ensures { IfOk result (λ joined. joined.items ≡ text.items ++ more.items) }
{
    if text.is_empty() {
        return Ok(more);
    }
    // The room is made once, so that a long text is not moved as it grows.
    text.reserve(len.saturating_sub(text.len()))?;
    text.append(&mut more)?;
    Ok(text)
}

/// Adds a piece to the rows that are kept.
fn add_piece<A: Allocator + Copy>(
    rows: &[Row],
    kept: &mut [KeptRow<A>],
    piece: Piece<A>,
) -> Result<(), FoldError>
    requires roster { IsRoster rows.now }
    requires paired { length kept.old ≡ length rows.now }
    ensures refused { (came : List pieces.Piece) → Represents (record { rows = rows.now; kept = kept.old }) came
        → (error : FoldError) → refusal rows.now came piece ≡ Some error → result ≡ Err error }
    ensures accepted { (came : List pieces.Piece) → Represents (record { rows = rows.now; kept = kept.old }) came
        → refusal rows.now came piece ≡ None → IsOkUnless result FoldError.NoMemory }
    ensures ok { (came : List pieces.Piece) → Represents (record { rows = rows.now; kept = kept.old }) came
        → OnOk result (Represents (record { rows = rows.now; kept = kept.new }) (piece ∷ came)) }
    ensures err { OnErr result (kept.new ≡ kept.old) }
{
    let (tid, number, given, near) = piece.into_parts();
    let Some(row) = place_near(rows, tid, near as usize) else {
        return Err(FoldError::Stranger);
    };
    match given {
        Given::Stop(note) => add_stop(rows, kept, row, number, note),
        Given::Death(death) => kept[row].add_death(number, death),
    }
}

/// The place of the row of a thread id. It looks at one place first.
fn place_near(rows: &[Row], tid: u32, near: usize) -> Option<usize>
    requires { IsRoster rows.now }
    ensures place { result ≡ row_of rows.now tid }
    ensures within { IfSome result (λ place. place < length rows.now) }
{
    match rows.get(near) {
        Some(row) if row.tid == tid => Some(near),
        _ => place_of(rows, tid),
    }
}

/// `count` rows to which no piece was added.
fn new_rows<A: Allocator + Copy>(alloc: A, count: usize) -> Result<Vec<KeptRow<A>, A>, NoMemory>
    ensures length { IfOk result (λ kept. length kept.items ≡ count) }
    ensures new { IfOk result (λ kept. (row : ℕ) → kept_at kept.items row ≡ empty_row) }
{
    let mut kept = Vec::with_capacity(alloc, count)?;
    for _row in 0..count {
        kept.push(KeptRow::new(alloc))?;
    }
    Ok(kept)
}

/// Adds a stop to a row, and names the row of the child that it creates.
fn add_stop<A: Allocator + Copy>(
    rows: &[Row],
    kept: &mut [KeptRow<A>],
    row: usize,
    number: u32,
    note: Note<A>,
) -> Result<(), FoldError>
    requires roster { IsRoster rows.now }
    requires paired { length kept.old ≡ length rows.now }
    requires row { row < length rows.now }
    ensures refused { (stops : Stops) → KeepsStops (kept_at kept.old row) stops → (error : FoldError)
        → stop_fault (kept_at kept.old row).ending (is_some (stops number)) number ≡ Some error
        → result ≡ Err error }
    ensures accepted { (stops : Stops) → KeepsStops (kept_at kept.old row) stops
        → stop_fault (kept_at kept.old row).ending (is_some (stops number)) number ≡ None
        → IsOkUnless result FoldError.NoMemory }
    ensures ok { OnOk result (AddsStopAt rows.now kept.old kept.new row number (note_of note)) }
    ensures positive { OnOk result (1 ≤ number) }
    ensures err { OnErr result (kept.new ≡ kept.old) }
{
    let child = note.child();
    kept[row].add_stop(number, note)?;
    name_child(rows, kept, child);
    Ok(())
}

/// Names the row of a child that was created, if there is one.
fn name_child<A: Allocator>(rows: &[Row], kept: &mut [KeptRow<A>], child: Option<u32>)
    requires roster { IsRoster rows.now }
    requires paired { length kept.old ≡ length rows.now }
    ensures { (r : ℕ) → r < length rows.now
        → kept_at kept.new r ≡ with_name (is_child (row_at rows.now r).tid child) (kept_at kept.old r) }
{
    if let Some(child) = child {
        if let Some(row) = place_of(rows, child) {
            kept[row].set_named();
        }
    }
}
