//! The calls of one tracer.

ghost use Rattle.std.specs.Prelude.{◌≡◌, ◌≢◌, [], IfOk, IfSome, MatchResult, None, false, is_some, length, replicate};
ghost use Rattle.std.specs.List.{list_any};
ghost use Rattle.stop_table.specs.Tracer.{IsTracerHandle, held_rows};
ghost use Rattle.trace_calls.specs.Answer.{IsRowAnswer, IsWaitAnswer};
ghost use Rattle.trace_calls.specs.Handle.{HasRecords, KeepsTable, handle_of, tracer_of};
ghost use Rattle.stop_history.specs.WaitRequest.{waitid_request, waitpid_request};
ghost use Rattle.trace_calls.specs.Waiting.{IsOneTry};

use crate::by_row::without_row;
use crate::handle::handle_is_legal;
use crate::row_status::RowStatus;
use crate::scan::scan;
use crate::settle::settle;
use std::alloc::{AllocError, Allocator, Global};
use std::marker::Model;
use stop_history::{Id, Roster, WaitRequest, waitpid_request};
use stop_table::{Claim, Tracer};
use trace_options::{Errno, WaitFlags};
use trace_status::WaitStatus;

/// The calls of one tracer, which keep what it has claimed. It cannot be dropped: end it by `into_tracer`.
pub struct Calls<A: Allocator = Global> {
    pub(crate) tracer: Tracer<A>,
    pub(crate) roster: Roster<A>,
    /// The claim of each row that the tracer has claimed, by row.
    pub(crate) held: Vec<Option<Claim<A>>, A>,
    /// The number that was answered last of each row, by row; 0 before any.
    pub(crate) counts: Vec<u32, A>,
}

impl<A: Allocator> Model for Calls<A> {
    ghost use Rattle.std.specs.Coded.{codes};
    ghost use Rattle.trace_pages.specs.FlatMemory.{flat_code};
    ghost use Rattle.trace_calls.specs.Handle.{CallsHandle, IsCalls, handle_of, records_of};

    ghost Value = { CallsHandle };

    ghost coded = { Prim.hlevel (codes, flat_code) };

    ghost view = { λ c. handle_of c.tracer c.counts.items (records_of c.held.items) };

    ghost invariant = { λ c. IsCalls c.tracer c.roster c.held.items c.counts.items };
}

impl<A: Allocator + Copy> Calls<A> {
    /// The calls of a tracer that has claimed nothing, over the roster with which its table was opened. Where a growth
    /// is refused the tracer is given back as it was.
    pub fn new<B: Allocator>(
        alloc: A,
        tracer: Tracer<A>,
        roster: &Roster<B>,
    ) -> Result<Calls<A>, Tracer<A>>
        requires roster { roster.now ≡ tracer.view.roster }
        requires idle { held_rows tracer.view ≡ [] }
        ensures { MatchResult result
            (λ c. c ≡ handle_of tracer (replicate (length roster.now) 0) (replicate (length roster.now) None))
            (λ t. t ≡ tracer) }
    {
        let Ok(copy) = Roster::copy(alloc, roster) else {
            return Err(tracer);
        };
        let count = roster.len() as usize;
        let Ok(counts) = vec![in alloc; 0_u32; count] else {
            return Err(tracer);
        };
        let Ok(held) = nothing_held(alloc, count) else {
            return Err(tracer);
        };
        Ok(Calls {
            tracer,
            roster: copy,
            held,
            counts,
        })
    }
}

impl<A: Allocator> Calls<A> {
    /// The tracer's number, 0 to 15.
    pub fn number(&self) -> u32
        ensures number { result ≡ self.now.view.number }
        ensures handle { IsTracerHandle (tracer_of self.now) }
        ensures records { HasRecords self.now }
    {
        self.tracer.number()
    }

    /// How many rows the roster has, 0 to 256.
    pub fn rows(&self) -> u32
        ensures { result ≡ length self.now.view.roster }
    {
        self.roster.len()
    }

    /// Gives the tracer's handle back, or the calls as they are while they hold a claim.
    pub fn into_tracer(self) -> Result<Tracer<A>, Calls<A>>
        ensures { MatchResult result
            (λ t. (t.table_id ≡ self.table_id) × (t.view ≡ self.view) × (held_rows self.view ≡ []))
            (λ c. (c ≡ self) × (held_rows self.view ≢ [])) }
    {
        if self.tracer.held() > 0 {
            return Err(self);
        }
        let Calls {
            tracer,
            roster: _,
            held,
            counts: _,
        } = self;
        discard(held);
        Ok(tracer)
    }

    /// Reports the first selected tracee, in the order of the roster, that has a stop, or a death with WEXITED (waitid(2)).
    /// It acts as with WNOHANG, whether that is given or not: where there is nothing to report yet the answer is
    /// `StillAlive`. A tracee at a stop is reported whether WSTOPPED is given or not. Without WNOWAIT a stop is claimed, and
    /// a death is reaped.
    ///
    /// EINVAL: neither WEXITED nor WSTOPPED, or WCONTINUED, or an id of 0 or less. ECHILD: each selected tracee is unborn or
    /// reaped, or dead and WEXITED is not given; also where none is selected.
    pub fn waitid(&mut self, id: Id, flags: WaitFlags) -> Result<WaitStatus, Errno>
        ensures table { KeepsTable self.old self.new }
        ensures answer { IsWaitAnswer (waitid_request id flags) self.old self.new result }
        ensures once { IfSome (waitid_request id flags) (λ request. IsOneTry request self.old.view self.new.view) }
    {
        without_row(self.wait_row(id, flags))
    }

    /// Reports the first selected tracee that has a stop or a death, and claims it (waitpid(2)): above 0 the one of this
    /// pid, -1 any, below -1 those of the process group of the absolute value. It acts as with WNOHANG, whether that is
    /// given or not.
    ///
    /// EINVAL: a flag other than WNOHANG, WUNTRACED and WALL, pid 0, or the least pid. ECHILD: each selected tracee is
    /// unborn or reaped; also where none is selected.
    pub fn waitpid(&mut self, pid: i32, flags: WaitFlags) -> Result<WaitStatus, Errno>
        ensures table { KeepsTable self.old self.new }
        ensures answer { IsWaitAnswer (waitpid_request pid flags) self.old self.new result }
        ensures once { IfSome (waitpid_request pid flags) (λ request. IsOneTry request self.old.view self.new.view) }
    {
        let Some(request) = waitpid_request(pid, flags) else {
            return Err(Errno::EINVAL);
        };
        without_row(self.wait(request))
    }

    /// One try of a wait.
    pub(crate) fn wait(&mut self, request: WaitRequest) -> Result<Option<RowStatus>, Errno>
        ensures table { KeepsTable self.old self.new }
        ensures answer { IsRowAnswer request self.old self.new result }
        ensures once { IsOneTry request self.old.view self.new.view }
    {
        handle_is_legal(&self.tracer);
        let found = scan(&mut self.tracer, &self.roster, request);
        settle(found, &self.roster, &mut self.held, &mut self.counts)
    }
}

/// No claim, for each of this many rows.
fn nothing_held<A: Allocator>(
    alloc: A,
    count: usize,
) -> Result<Vec<Option<Claim<A>>, A>, AllocError>
    ensures { IfOk result (λ held. held.items ≡ replicate count None) }
{
    let mut held = Vec::with_capacity(alloc, count)?;
    for _ in 0..count {
        held.push_reserved(None);
    }
    Ok(held)
}

/// Lets a list go that holds no claim.
fn discard<A: Allocator>(mut held: Vec<Option<Claim<A>>, A>)
    requires { list_any is_some held.items ≡ false }
{
    while let Some(last) = held.pop() {
        match last {
            None => {}
            Some(_) => unreachable!(),
        }
    }
    held.destroy_empty();
}
