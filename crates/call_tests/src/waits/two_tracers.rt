//! The second example of RATTLE.md, as printed there.

use crate::waits::answers::started;
use crate::waits::caller::{Waiter, end};
use std::alloc::Global;
use std::sync::Wait;
use std::test::Fail;
use std::thread;
use test_support::{ROOT, open_for};
use trace_options::{Errno, WaitFlags};
use trace_record::Stop;
use trace_status::WaitStatus;

/// A tracer's thread: what one wait for tracee 100 answers. A stop that it claimed is resumed at once. None if memory
/// runs out.
fn wait_once<R: Wait>(rt: &R, waiter: Waiter, alloc: Global) -> Option<Result<WaitStatus, Errno>> {
    let mut calls = waiter.calls(alloc)?;
    let answer = calls.waitpid(100, WaitFlags::WNOHANG);
    let _tracer = end(rt, calls, &[100]);
    Some(answer)
}

#[test]
fn of_two_threads_that_wait_one_gets_the_stop(rt: HostRuntime) -> Result<(), Fail> {
    let alloc = rt.alloc();
    let mut cast = open_for(alloc, &[ROOT], 2)?;
    let _root = cast.tracee(alloc)?.stop(Stop::Start, 0)?;
    let (one, other) = (Waiter::of(&mut cast, alloc)?, Waiter::of(&mut cast, alloc)?);
    let (one, other) = thread::join(
        &rt,
        || wait_once(&rt, one, alloc),
        || wait_once(&rt, other, alloc),
    );
    let (got, missed) = (Some(started(100)), Some(Ok(WaitStatus::StillAlive)));
    if one == got {
        assert_eq!(rt; other, missed);
    } else {
        assert_eq!(rt; (one, other), (missed, got));
    }
    Ok(())
}
