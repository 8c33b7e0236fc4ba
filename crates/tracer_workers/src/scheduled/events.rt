//! The events of tracees, each with its piece: the World has the event, and the folder takes the piece.

ghost use Rattle.record_printer.specs.Piece as pieces;
ghost use Rattle.stop_history.specs.Event as event;
ghost use Rattle.std.specs.Prelude.{◌≡◌, ◌∷◌, List, None, true, false, IfOk, OnOk, ◌+◌, IsErr, Ok};
ghost use Rattle.record_printer.specs.FolderAnswers.{lost, pieces_text, refusal};
ghost use Rattle.record_printer.specs.Represents.{Represents};
ghost use Rattle.stop_history.specs.Event.{History};
ghost use Rattle.stop_history.specs.Sequential.{exit_answer, publish_answer};
ghost use Rattle.stop_history.specs.State.{last_number};
ghost use Rattle.trace_record.specs.Death.{IsDeath};
ghost use Rattle.trace_record.specs.Stop.{IsStop};
ghost use Rattle.tracer_workers.specs.Scheduled.{CameTo};
ghost use Rattle.tracer_workers.specs.Turn.{with_number};

use crate::one_thread;
use crate::scheduled::traced_row::TracedRow;
use record_printer::{FoldError, Folder, Piece, Text, death_piece};
use std::alloc::Allocator;
use stop_board::World;
use trace_options::NoMemory;
use trace_record::Death;

/// Adds a piece that no folder refuses. It is compiled into its callers, so that a piece is moved less often.
#[inline(always)]
fn add<A: Allocator + Copy>(folder: &mut Folder<A>, piece: Piece<A>) -> Result<(), NoMemory>
    requires { (came : List pieces.Piece) × Represents folder.old came
        × (refusal folder.old.rows came piece ≡ None) }
    ensures came { (came : List pieces.Piece) → Represents folder.old came
        → OnOk result (Represents folder.new (piece ∷ came)) }
    ensures rows { folder.new.rows ≡ folder.old.rows }
{
    match folder.add(piece) {
        Ok(()) => Ok(()),
        Err(FoldError::NoMemory) => Err(NoMemory),
        Err(_) => unreachable!(),
    }
}

/// The text of a folder in which nothing is lost.
pub(crate) fn finish<A: Allocator + Copy>(folder: Folder<A>) -> Result<Text<A>, NoMemory>
    requires { (came : List pieces.Piece) × Represents folder came × (lost folder.rows came ≡ None) }
    ensures { (came : List pieces.Piece) → Represents folder came
        → IfOk result (λ text. text ≡ pieces_text folder.rows came) }
{
    match folder.finish() {
        Ok(text) => Ok(text),
        Err(FoldError::NoMemory) => Err(NoMemory),
        Err(_) => unreachable!(),
    }
}

/// Publishes the stop in the record of a row, and adds its piece. It is compiled into its caller, as `add` is.
#[inline(always)]
pub(crate) fn publish_stop<A: Allocator + Copy>(
    world: &mut World<A>,
    folder: &mut Folder<A>,
    traced: &mut TracedRow<'_, A>,
    row: u32,
    piece: Piece<A>,
) -> Result<(), NoMemory>
    requires stop { IsStop traced.old.content.stop }
    requires answer { (h : History) × CameTo world.old h
        × (publish_answer world.old.rows h row traced.old.content.stop ≡ Ok (last_number h row + 1)) }
    requires taken { (came : List pieces.Piece) × Represents folder.old came
        × (refusal folder.old.rows came piece ≡ None) }
    ensures made { (h : History) → CameTo world.old h →
        publish_answer world.old.rows h row traced.old.content.stop ≡ Ok (last_number h row + 1) →
        OnOk result (CameTo world.new (event.Publish row (last_number h row + 1) traced.old.content.stop ∷ h)
        × (traced.new ≡ with_number traced.old (last_number h row + 1))) }
    ensures came { (came : List pieces.Piece) → Represents folder.old came →
        OnOk result (Represents folder.new (piece ∷ came)) }
    ensures rows { (world.new.rows ≡ world.old.rows) × (folder.new.rows ≡ folder.old.rows) }
{
    let number = one_thread::publish(world, row, traced.content.stop);
    traced.number = number;
    add(folder, piece.with_row(row))
}

/// Ends a row and adds the piece of its death, unless another row of its group holds it back; whether it has ended.
pub(crate) fn end_row<A: Allocator + Copy>(
    world: &mut World<A>,
    folder: &mut Folder<A>,
    traced: &TracedRow<'_, A>,
    row: u32,
    death: Death,
) -> Result<bool, NoMemory>
    requires death { IsDeath death }
    requires taken { (came : List pieces.Piece) × Represents folder.old came
        × (refusal folder.old.rows came (pieces.Died traced.now.tid traced.now.number death) ≡ None) }
    ensures ended { (h : History) → CameTo world.old h → IfOk result (λ ended. ended ≡ true →
        (exit_answer world.old.rows h row ≡ Ok tt) × CameTo world.new (event.Exit row death ∷ h)) }
    ensures came { (came : List pieces.Piece) → Represents folder.old came → IfOk result (λ ended. ended ≡ true →
        Represents folder.new (pieces.Died traced.now.tid traced.now.number death ∷ came)) }
    ensures held { (h : History) → CameTo world.old h → IfOk result (λ ended. ended ≡ false →
        (IsErr (exit_answer world.old.rows h row)) × (CameTo world.new h) × (folder.new ≡ folder.old)) }
    ensures rows { (world.new.rows ≡ world.old.rows) × (folder.new.rows ≡ folder.old.rows) }
{
    if !one_thread::exit(world, row, death) {
        return Ok(false);
    }
    let piece = death_piece(traced.tid, traced.number, death).with_row(row);
    add(folder, piece)?;
    Ok(true)
}
