//! Gathers what the threads of a run hand back: the handles of the cells, and the pieces of what was claimed.
//!
//! All handles meet, and the one that is left looks at each row. Where each has been reaped or will never be born, the
//! pieces are put together to the text, in whatever order they come.

ghost use Rattle.std.specs.Prelude.{◌≡◌, ◌≢◌, ◌<◌, All, IfOk, List, OnOk, length, reverse};
ghost use Rattle.std.specs.Vec.{vec_len};
ghost use Rattle.atomic_table.specs.Seated.{TableId};
ghost use Rattle.stop_history.specs.Roster.{IsRoster};
ghost use Rattle.stop_history.specs.declared.roster.Row.{Row};
ghost use Rattle.stop_table.specs.Handle.{Looked};
ghost use Rattle.stop_table.specs.Entry.{AreLegal};
ghost use Rattle.record_printer.specs.FolderAnswers.{pieces_text};
ghost use Rattle.record_printer.specs.declared.call.show.Show.{Show};
ghost use Rattle.tracer_workers.specs.CaseText.{history_text};
ghost use Rattle.tracer_workers.specs.Driven.{AreReaped};
ghost use Rattle.tracer_workers.specs.Gathering.{AreSeen, AreWhole, HasLookedForUnreaped, HasLostStop, IsAllReaped};
ghost use Rattle.tracer_workers.specs.Gathering.{IsFreeTracee, IsFreeTracer, TakesIn, is_over, run_error_of, views_of};
ghost use Rattle.tracer_workers.specs.Printing.{printed_lines};

use crate::invariants;
use crate::run_error::RunError;
use record_printer::{FoldError, Folder, Piece, Text};
use std::alloc::Allocator;
use stop_history::Roster;
use stop_table::{Shown, Tracee, Tracer};

impl From<FoldError> for RunError {
    ghost from_gives = { λ fault error. error ≡ run_error_of fault };

    fn from(fault: FoldError) -> RunError {
        match fault {
            FoldError::NoMemory => RunError::NoMemory,
            FoldError::Stranger | FoldError::Twice | FoldError::Lost { .. } => RunError::Lost,
        }
    }
}

/// Puts together what the threads of a run hand back: handles of one `open` of this roster, at least one of them a
/// tracer's, and the pieces of what was claimed, in any order. No tracer may hold a claim, and no tracee may have its row
/// taken up. The tracer's handle that comes back acts for all of them and has seen what each had seen, and the text is
/// that of what it has seen, where the pieces were made with one `Show` of stops and deaths that one of them had seen.
///
/// `Lost` where a row that was born has not been reaped (waitid(2)), and where a piece is missing, is there twice, or is
/// a stranger's, as a `Folder` tells it; `NoMemory` where a growth is refused, which it asks for only once each row that
/// was born is seen reaped; never `Threads`. An error drops all that was handed in.
pub fn gather<A: Allocator + Copy, B: Allocator>(
    alloc: A,
    roster: &Roster<B>,
    tracers: Vec<Tracer<A>, A>,
    tracees: Vec<Tracee<A>, A>,
    pieces: Vec<Piece<A>, A>,
) -> Result<(Tracer<A>, Text<A>), RunError>
    requires at_least_one { 0 < vec_len tracers }
    requires handles { (id : TableId) × All (IsFreeTracer id roster.now) tracers.items
        × All (IsFreeTracee id roster.now) tracees.items }
    ensures free { (id : TableId) → All (IsFreeTracer id roster.now) tracers.items →
        IfOk result (λ r. IsFreeTracer id roster.now r.0) }
    ensures taken_in { IfOk result (λ r. All (λ v. TakesIn v r.0.view) (views_of tracers.items tracees.items)) }
    ensures legal { IfOk result (λ r. AreLegal roster.now r.0.view.seen) }
    ensures reaped { IfOk result (λ r. AreReaped roster.now r.0.view.seen) }
    ensures whole { IfOk result (λ r. AreWhole roster.now pieces.items) }
    ensures text { (show : Show) →
        AreSeen show roster.now (views_of tracers.items tracees.items) pieces.items →
        IfOk result (λ r. r.1 ≡ history_text (printed_lines show) roster.now r.0.view.seen) }
    ensures lost { result ≡ Err RunError.Lost →
        HasLostStop roster.now (views_of tracers.items tracees.items) pieces.items }
    ensures no_memory { result ≡ Err RunError.NoMemory →
        IsAllReaped roster.now (views_of tracers.items tracees.items) }
    ensures threads { result ≢ Err RunError.Threads }
{
    let mut tracer = meet_tracees(meet_tracers(tracers), tracees);
    if !are_reaped(&mut tracer, roster.len()) {
        return Err(RunError::Lost);
    }
    let text = join_pieces(alloc, roster, pieces)?;
    Ok((tracer, text))
}

/// The handle of a tracer that is left when all tracers' have met.
fn meet_tracers<A: Allocator>(mut tracers: Vec<Tracer<A>, A>) -> Tracer<A>
    requires some { 0 < vec_len tracers }
    requires handles { (id : TableId) × (rows : List Row) × All (IsFreeTracer id rows) tracers.items }
    ensures table { (id : TableId) (rows : List Row) → All (IsFreeTracer id rows) tracers.items →
        (result.table_id ≡ id) × (result.view.roster ≡ rows) }
    ensures taken_in { All (λ e. TakesIn e.view result.view) tracers.items }
{
    let Some(mut tracer) = tracers.pop() else {
        unreachable!()
    };
    for other in tracers {
        tracer = tracer.meet(other);
    }
    tracer
}

/// The same handle once it has met those of tracees.
fn meet_tracees<A: Allocator>(mut tracer: Tracer<A>, tracees: Vec<Tracee<A>, A>) -> Tracer<A>
    requires { (rows : List Row) × All (IsFreeTracee tracer.table_id rows) tracees.items }
    ensures table { (result.table_id ≡ tracer.table_id) × (result.view.roster ≡ tracer.view.roster) }
    ensures taken_in { TakesIn tracer.view result.view × All (λ e. TakesIn e.view result.view) tracees.items }
{
    for other in tracees {
        tracer = tracer.meet_tracee(other);
    }
    tracer
}

/// Whether a look shows a row that has been reaped, or that is unborn.
fn is_over(shown: Shown) -> bool
    ensures { result ≡ is_over shown }
{
    matches!(shown, Shown::Unborn | Shown::Reaped)
}

/// Whether each row that was born has been reaped, by a look at each. A row whose parent has been reaped, or will never
/// be born, is not born after the look.
fn are_reaped<A: Allocator>(tracer: &mut Tracer<A>, rows: u32) -> bool
    requires { rows ≡ length tracer.old.view.roster }
    ensures roster { IsRoster tracer.old.view.roster }
    ensures handle { (tracer.new.table_id ≡ tracer.old.table_id) × Looked tracer.old.view tracer.new.view }
    ensures looked { HasLookedForUnreaped tracer.old.view tracer.new.view result }
{
    invariants::of_tracer(tracer);
    for row in 0..rows {
        if !is_over(tracer.look(row)) {
            return false;
        }
    }
    true
}

/// The text of pieces, none of which is missing, there twice or a stranger's.
fn join_pieces<A: Allocator + Copy, B: Allocator>(
    alloc: A,
    roster: &Roster<B>,
    pieces: Vec<Piece<A>, A>,
) -> Result<Text<A>, RunError>
    ensures whole { OnOk result (AreWhole roster.now pieces.items) }
    ensures text { IfOk result (λ text. text ≡ pieces_text roster.now (reverse pieces.items)) }
    ensures lost { result ≡ Err RunError.Lost → ¬ AreWhole roster.now pieces.items }
    ensures threads { result ≢ Err RunError.Threads }
{
    let mut folder = Folder::new(alloc, roster)?;
    for piece in pieces {
        folder.add(piece)?;
    }
    Ok(folder.finish()?)
}
