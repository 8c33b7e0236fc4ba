//! Waits and calls by row, which need no search of the roster. Those by pid stand on them.

ghost use Rattle.std.specs.Prelude.{◌≡◌, ◌<◌, IfNone, IfSome, length};
ghost use Rattle.stop_table.specs.Handle.{IsRowOrParent, LooksAt, LooksOnce, TriesOnce};
ghost use Rattle.trace_calls.specs.Answer.{IsRowAnswer, IsWaitRowAnswer, without_row};
ghost use Rattle.trace_calls.specs.ByRow.{HasClaimedRow, HasNotClaimedRow, IsRowRestart, row_request};
ghost use Rattle.trace_calls.specs.Handle.{KeepsRows, KeepsTable, claimed_record};
ghost use Rattle.stop_history.specs.Roster.{row_at};
ghost use Rattle.stop_history.specs.WaitRequest.{one_row, waitid_request};
ghost use Rattle.trace_calls.specs.Waiting.{IsOneTry};

use crate::calls::Calls;
use crate::handle::handle_is_legal;
use crate::row_status::RowStatus;
use crate::scan::scan_one;
use crate::settle::settle;
use std::alloc::Allocator;
use stop_history::{Id, Selection, WaitRequest, waitid_request};
use stop_table::Shown;
use trace_options::{Errno, LAST_SIGNAL, WaitFlags};
use trace_record::{Resume, StopRecord};
use trace_status::WaitStatus;

impl<A: Allocator> Calls<A> {
    /// The thread id of a row.
    pub fn tid(&self, row: u32) -> u32
        requires { row < length self.now.view.roster }
        ensures { result ≡ (row_at self.now.view.roster row).tid }
    {
        self.roster.row(row).tid
    }

    /// `waitid` that reports the row, the number and the death beside the status. None where there is nothing to report
    /// yet.
    pub fn wait_row(&mut self, id: Id, flags: WaitFlags) -> Result<Option<RowStatus>, Errno>
        ensures table { KeepsTable self.old self.new }
        ensures answer { IsWaitRowAnswer (waitid_request id flags) self.old self.new result }
        ensures once { IfSome (waitid_request id flags) (λ request. IsOneTry request self.old.view self.new.view) }
    {
        let Some(request) = waitid_request(id, flags) else {
            return Err(Errno::EINVAL);
        };
        self.wait(request)
    }

    /// `wait_row` for the tracee of one row, which needs no thread id. EINVAL: neither WEXITED nor WSTOPPED, or WCONTINUED.
    /// ECHILD: the row is unborn or reaped, or dead and WEXITED is not given.
    pub fn wait_at(&mut self, row: u32, flags: WaitFlags) -> Result<Option<RowStatus>, Errno>
        requires { row < length self.old.view.roster }
        ensures table { KeepsTable self.old self.new }
        ensures answer { IsWaitRowAnswer (row_request self.old.view.roster row flags) self.old self.new result }
        ensures once { IfSome (row_request self.old.view.roster row flags) (λ request.
            IsOneTry request self.old.view self.new.view) }
    {
        let Some(request) = waitid_request(Id::All, flags) else {
            return Err(Errno::EINVAL);
        };
        let selection = Selection::Tracee(self.roster.row(row).tid);
        self.wait(WaitRequest {
            selection,
            deaths: request.deaths,
            keeps: request.keeps,
        })
    }

    /// `wait_row` for the tracee of one row, with WEXITED and WNOHANG, without a search: its stop is claimed, or its death
    /// is reaped. None where there is nothing to report yet. ECHILD: it is unborn or reaped.
    pub fn wait_one(&mut self, row: u32) -> Result<Option<RowStatus>, Errno>
        requires { row < length self.old.view.roster }
        ensures table { KeepsTable self.old self.new }
        ensures answer { IsRowAnswer (one_row self.old.view.roster row) self.old self.new result }
        ensures once { TriesOnce self.old.view self.new.view row }
    {
        handle_is_legal(&self.tracer);
        let request = WaitRequest {
            selection: Selection::Tracee(self.roster.row(row).tid),
            deaths: true,
            keeps: false,
        };
        let found = scan_one(&mut self.tracer, row, request);
        settle(found, &self.roster, &mut self.held, &mut self.counts)
    }

    /// The state of a row at a point of this call, as the tracer's handle shows it (`Tracer::look`). It claims nothing, and
    /// it looks at the parent's word first, then at the row's, once each at most.
    pub fn look(&mut self, row: u32) -> Shown
        requires { row < length self.old.view.roster }
        ensures table { KeepsTable self.old self.new }
        ensures rows { KeepsRows self.old self.new }
        ensures shown { LooksAt self.old.view self.new.view row result }
        ensures once { LooksOnce (IsRowOrParent self.old.view.roster row) self.old.view self.new.view }
    {
        handle_is_legal(&self.tracer);
        self.tracer.look(row)
    }

    /// `claimed` by row: the record of the stop that this caller has claimed of a row, with what the caller has written
    /// into it. None if this caller does not hold the row's stop, or if the roster has no such row.
    pub fn claimed_row(&self, row: u32) -> Option<&StopRecord<A>>
        ensures none { IfNone result (HasNotClaimedRow self.now row) }
        ensures some { IfSome result (λ r. HasClaimedRow self.now row × (r.now ≡ claimed_record self.now row)) }
    {
        if row >= self.roster.len() {
            return None;
        }
        match &self.held[row as usize] {
            None => None,
            Some(claim) => Some(claim.record()),
        }
    }

    /// `syscall` or `cont` by row: resumes a claimed row with its record as it is now. Fails with ESRCH if this caller does
    /// not hold the row's stop or the roster has no such row, and with EIO if the signal is above 64.
    pub fn restart_row(&mut self, row: u32, how: Resume) -> Result<(), Errno>
        ensures table { KeepsTable self.old self.new }
        ensures answer { IsRowRestart self.old self.new row how result }
    {
        let Some(_stop) = self.claimed_row(row) else {
            return Err(Errno::ESRCH);
        };
        if how.signal > LAST_SIGNAL {
            return Err(Errno::EIO);
        }
        handle_is_legal(&self.tracer);
        let Some(claim) = self.held[row as usize].take() else {
            unreachable!()
        };
        self.tracer.resume(claim, how);
        Ok(())
    }
}

/// An answer without the row, the number and the death.
pub(crate) fn without_row(answer: Result<Option<RowStatus>, Errno>) -> Result<WaitStatus, Errno>
    ensures { result ≡ without_row answer }
{
    match answer {
        Ok(Some(found)) => Ok(found.status),
        Ok(None) => Ok(WaitStatus::StillAlive),
        Err(error) => Err(error),
    }
}
