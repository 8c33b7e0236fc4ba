//! What is kept of a row beside its stop cell.

ghost use Rattle.std.specs.Prelude.{◌≡◌, ◌<◌, ℕ, Some, IfOk, length, slice_get};
ghost use Rattle.trace_record.specs.Content.{Content};
ghost use Rattle.trace_script.specs.Machine.{IsAnswer};
ghost use Rattle.trace_script.specs.StopTrace.{Position, context_of, next_element, next_position};
ghost use Rattle.tracer_workers.specs.HistoryPieces.{stop_piece};
ghost use Rattle.tracer_workers.specs.Scheduled.{KeptRow};
ghost use Rattle.tracer_workers.specs.Turn.{new_row, with_next};

use crate::config::Config;
use crate::scheduled::tracee::ScheduledTracee;
use record_printer::{Piece, Show, piece_of};
use std::alloc::{Allocator, Global};
use std::marker::Model;
use trace_options::NoMemory;
use trace_record::{Kind, Resume, StopRecord};
use trace_script::{Case, Next};

/// What is kept of a row beside its stop cell: its thread id, the restart that it takes up next, the number and the
/// record of its last stop, and its tracee.
#[derive(Drop)]
pub(crate) struct TracedRow<'a, A: Allocator = Global> {
    pub(crate) tid: u32,
    pub(crate) how: Resume,
    pub(crate) number: u32,
    pub(crate) content: StopRecord<A>,
    pub(crate) tracee: ScheduledTracee<'a, A>,
}

impl<'a, A: Allocator> Model for TracedRow<'a, A> {
    ghost use Rattle.std.specs.Coded.{codes};
    ghost use Rattle.trace_pages.specs.FlatMemory.{flat_code};
    ghost use Rattle.tracer_workers.specs.Scheduled.{KeptRow};

    ghost Value = { KeptRow };

    ghost coded = { Prim.hlevel (codes, flat_code) };

    ghost view = { λ t. record {
      tid = t.tid;
      how = t.how;
      number = t.number;
      content = t.content;
      position = t.tracee;
    } };
}

impl<'a, A: Allocator + Copy> TracedRow<'a, A> {
    /// A row before its first stop.
    pub(crate) fn new(alloc: A, case: &'a Case<A>, row: u32, config: &Config) -> TracedRow<'a, A>
        requires { row < length case.now.rows }
        ensures { result ≡ new_row config.now case.now row }
    {
        let tid = case.roster().row(row).tid;
        TracedRow {
            tid,
            how: Resume {
                kind: Kind::Cont,
                signal: 0,
            },
            number: 0,
            content: StopRecord::empty(alloc, tid),
            tracee: ScheduledTracee::new(case, row, config),
        }
    }

    /// Runs the tracee on, to its next stop or its death.
    pub(crate) fn run_on(&mut self, alloc: A) -> Result<Next, NoMemory>
        ensures { IfOk result (λ next. (content : Content) × (at : Position)
            × IsAnswer (next_element self.old.position self.old.how (context_of self.old.content)) next
            self.old.content content
            × (at ≡ next_position self.old.position self.old.how (context_of self.old.content))
            × (self.new ≡ with_next self.old content at)) }
    {
        let next = self.tracee.next(alloc, self.how, &mut self.content)?;
        Ok(next)
    }

    /// The piece of the stop in its record. It is compiled into its caller, so that the piece is moved less often.
    #[inline(always)]
    pub(crate) fn piece(&self, alloc: A, show: &Show) -> Result<Piece<A>, NoMemory>
        ensures { IfOk result (λ piece. piece ≡ stop_piece show.now self.now.content) }
    {
        let piece = piece_of(alloc, &self.content, show)?;
        Ok(piece)
    }
}

/// What is kept of the rows of a case before any stop.
pub(crate) fn new_rows<'a, A: Allocator + Copy>(
    alloc: A,
    case: &'a Case<A>,
    config: &Config,
) -> Result<Vec<TracedRow<'a, A>, A>, NoMemory>
    ensures long { IfOk result (λ rows. length rows.items ≡ length case.now.rows) }
    ensures each { IfOk result (λ rows. (row : ℕ) (k : KeptRow) → slice_get rows.items row ≡ Some k →
        k ≡ new_row config.now case.now row) }
{
    let mut rows = Vec::new(alloc);
    for row in 0..case.roster().len() {
        rows.push(TracedRow::new(alloc, case, row, config))?;
    }
    Ok(rows)
}
