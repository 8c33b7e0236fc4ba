//! The waits that block.

ghost use Rattle.std.specs.Prelude.{◌≡◌, ◌≢◌, ◌↔◌, IfSome, IsTrue, None, Ok, false, true};
ghost use Rattle.trace_options.specs.declared.wait_flags.TheConstants.WaitFlags as flag;
ghost use Rattle.trace_status.specs.declared.wait_status.WaitStatus.TheVariants.{StillAlive};
ghost use Rattle.trace_calls.specs.Answer.{IsRowAnswer, IsWaitAnswer, IsWaitRowAnswer};
ghost use Rattle.trace_calls.specs.Handle.{KeepsTable};
ghost use Rattle.stop_history.specs.WaitRequest.{has, waitid_request, waitpid_request};
ghost use Rattle.trace_calls.specs.Waiting.{IsOneTry};

use crate::by_row::without_row;
use crate::calls::Calls;
use crate::handle::handle_is_legal;
use crate::patience::Patience;
use crate::row_status::RowStatus;
use std::alloc::Allocator;
use std::sync::Wait;
use std::time::Clock;
use stop_history::{Id, WaitRequest, waitid_request, waitpid_request};
use trace_options::{Errno, WaitFlags};
use trace_status::WaitStatus;

impl<A: Allocator> Calls<A> {
    /// `waitid` that tries again while the answer is `StillAlive`; with WNOHANG it tries once. Between two tries it
    /// lets other threads run, and after each 256 tries it sleeps a millisecond. It may never return.
    pub fn waitid_blocking<R: Wait + Clock>(
        &mut self,
        rt: &R,
        id: Id,
        flags: WaitFlags,
    ) -> Result<WaitStatus, Errno>
        ensures table { KeepsTable self.old self.new }
        ensures answer { IsWaitAnswer (waitid_request id flags) self.old self.new result }
        ensures waits { has flags flag.WNOHANG ≡ false → result ≢ Ok StillAlive }
        ensures once { has flags flag.WNOHANG ≡ true →
            IfSome (waitid_request id flags) (λ request. IsOneTry request self.old.view self.new.view) }
    {
        without_row(self.wait_row_blocking(rt, id, flags, Patience::new()))
    }

    /// `waitpid` that tries again while the answer is `StillAlive`; with WNOHANG it tries once. Between two tries it
    /// lets other threads run, and after each 256 tries it sleeps a millisecond. It may never return.
    pub fn waitpid_blocking<R: Wait + Clock>(
        &mut self,
        rt: &R,
        pid: i32,
        flags: WaitFlags,
    ) -> Result<WaitStatus, Errno>
        ensures table { KeepsTable self.old self.new }
        ensures answer { IsWaitAnswer (waitpid_request pid flags) self.old self.new result }
        ensures waits { has flags flag.WNOHANG ≡ false → result ≢ Ok StillAlive }
        ensures once { has flags flag.WNOHANG ≡ true →
            IfSome (waitpid_request pid flags) (λ request. IsOneTry request self.old.view self.new.view) }
    {
        let Some(request) = waitpid_request(pid, flags) else {
            return Err(Errno::EINVAL);
        };
        without_row(self.wait_by(rt, request, flags, Patience::new()))
    }

    /// `wait_row` that tries again while the answer is None; with WNOHANG it tries once. Between two tries it waits as
    /// `patience` says. It may never return.
    pub fn wait_row_blocking<R: Wait + Clock>(
        &mut self,
        rt: &R,
        id: Id,
        flags: WaitFlags,
        patience: Patience,
    ) -> Result<Option<RowStatus>, Errno>
        ensures table { KeepsTable self.old self.new }
        ensures answer { IsWaitRowAnswer (waitid_request id flags) self.old self.new result }
        ensures waits { has flags flag.WNOHANG ≡ false → result ≢ Ok None }
        ensures once { has flags flag.WNOHANG ≡ true →
            IfSome (waitid_request id flags) (λ request. IsOneTry request self.old.view self.new.view) }
    {
        let Some(request) = waitid_request(id, flags) else {
            return Err(Errno::EINVAL);
        };
        self.wait_by(rt, request, flags, patience)
    }

    /// Tries once with WNOHANG, and without it until there is something to report.
    fn wait_by<R: Wait + Clock>(
        &mut self,
        rt: &R,
        request: WaitRequest,
        flags: WaitFlags,
        patience: Patience,
    ) -> Result<Option<RowStatus>, Errno>
        ensures table { KeepsTable self.old self.new }
        ensures answer { IsRowAnswer request self.old self.new result }
        ensures waits { has flags flag.WNOHANG ≡ false → result ≢ Ok None }
        ensures once { has flags flag.WNOHANG ≡ true → IsOneTry request self.old.view self.new.view }
    {
        if flags.contains(WaitFlags::WNOHANG) {
            return self.wait(request);
        }
        self.wait_until(rt, request, patience)
    }

    /// Tries until there is something to report.
    fn wait_until<R: Wait + Clock>(
        &mut self,
        rt: &R,
        request: WaitRequest,
        mut patience: Patience,
    ) -> Result<Option<RowStatus>, Errno>
        ensures table { KeepsTable self.old self.new }
        ensures answer { IsRowAnswer request self.old self.new result }
        ensures waits { result ≢ Ok None }
    {
        handle_is_legal(&self.tracer);
        for _ in rt.forever() {
            let answer = self.wait(request);
            if !is_nothing_yet(answer) {
                return answer;
            }
            patience.wait(rt);
        }
        unreachable!()
    }
}

fn is_nothing_yet(answer: Result<Option<RowStatus>, Errno>) -> bool
    ensures { IsTrue result ↔ (answer ≡ Ok None) }
{
    match answer {
        Ok(None) => true,
        _ => false,
    }
}
