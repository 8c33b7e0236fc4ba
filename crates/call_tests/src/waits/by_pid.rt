//! The calls by pid on a tracee that is claimed, and on one that is not.

use crate::compare::{holds, same};
use crate::waits::answers::started;
use crate::waits::caller::{Waiter, end, over_stopped_root, root_and_waiter, with_stopped_root};
use std::alloc::{Allocator, Global};
use std::sync::Wait;
use std::test::Fail;
use test_support::{AtRest, Running};
use trace_calls::{Calls, Id};
use trace_options::{Errno, WaitFlags};
use trace_record::{Kind, Stop};
use trace_status::WaitStatus;

/// Publishes `Stop::Start` with 5 in `rax`, and with a page whose first bytes are 0x61 to 0x68.
fn start_with_a_page(running: Running) -> Option<AtRest> {
    let mut running = running;
    let memory = &mut running.record.memory;
    if memory.map(0x10000).is_err() || memory.store(0x10000, b"abcdefgh").is_err() {
        return None;
    }
    running.publish(Stop::Start, 5)
}

/// The words at an address on a page, at its last word, and at two that do not lie on it.
fn words<A: Allocator>(calls: &mut Calls<A>) -> [Result<i64, Errno>; 4] {
    [0x10000, 0x10ff8, 0x10ffc, 0xffff_ffff_ffff_fffc].map(|at| calls.read(100, at))
}

/// What restarts answer that are refused: a signal that there is none of, and tracees that are not there.
fn refusals<A: Allocator>(calls: &mut Calls<A>) -> [Result<(), Errno>; 3] {
    [(100, Some(65)), (999, Some(65)), (-100, None)].map(|(pid, signal)| calls.cont(pid, signal))
}

/// The root with its page, at `Stop::Start`, and a tracer that is still to get its calls.
pub(crate) fn with_a_page(alloc: Global) -> Result<(AtRest, Waiter), Fail> {
    let (root, waiter) = root_and_waiter(alloc)?;
    let Ok(running) = root.take_up() else {
        return Err(Fail::new("a root runs"));
    };
    let Some(root) = start_with_a_page(running) else {
        return Err(Fail::new("there is no memory for a page"));
    };
    Ok((root, waiter))
}

/// The calls over the root with its page, at `Stop::Start`.
fn over_a_page(alloc: Global) -> Result<Calls, Fail> {
    let (_root, waiter) = with_a_page(alloc)?;
    waiter.ready(alloc)
}

#[test]
fn what_is_claimed_is_read(rt: HostRuntime) -> Result<(), Fail> {
    let mut calls = over_a_page(rt.alloc())?;
    same(&rt, &calls.read(100, 0x10000), &Err(Errno::ESRCH));
    same(
        &rt,
        &calls.waitid(Id::All, WaitFlags::WSTOPPED),
        &started(100),
    );
    let found = words(&mut calls);
    let eio = Err(Errno::EIO);
    same(&rt, &found, &[Ok(0x6867_6665_6463_6261), Ok(0), eio, eio]);
    same(&rt, &calls.getevent(100), &Ok(0));
    let rax = calls.getregs(100).ok().map(|regs| regs.rax);
    same(&rt, &rax, &Some(5));
    let seen = calls
        .claimed(100)
        .map(|record| (record.tid, record.number, record.stop));
    same(&rt, &seen, &Some((100, 1, Stop::Start)));
    let _tracer = end(&rt, calls, &[100]);
    Ok(())
}

#[test]
fn what_is_claimed_is_resumed(rt: HostRuntime) -> Result<(), Fail> {
    let (root, mut calls) = with_stopped_root(rt.alloc(), Stop::Start)?;
    let esrch = Err(Errno::ESRCH);
    same(
        &rt,
        &calls.waitid(Id::All, WaitFlags::WSTOPPED),
        &started(100),
    );
    let refused = refusals(&mut calls);
    same(&rt, &refused, &[Err(Errno::EIO), esrch, esrch]);
    holds(&rt, calls.claimed(100).is_some(), "it is still claimed");
    same(&rt, &calls.syscall(100, None), &Ok(()));
    same(&rt, &calls.syscall(100, None), &esrch);
    same(&rt, &calls.getregs(100).err(), &Some(Errno::ESRCH));
    same(&rt, &restart_of(root), &Some((Kind::Syscall, 0)));
    let _tracer = end(&rt, calls, &[]);
    Ok(())
}

/// The restart by which a row runs on.
pub(crate) fn restart_of<A: Allocator>(tracee: AtRest<A>) -> Option<(Kind, u8)> {
    let running = tracee.take_up().ok()?;
    Some((running.how.kind, running.how.signal))
}

#[test]
fn a_signal_is_handed_over(rt: HostRuntime) -> Result<(), Fail> {
    let (root, mut calls) = with_stopped_root(rt.alloc(), Stop::Enter)?;
    same(
        &rt,
        &calls.waitpid(100, WaitFlags::WALL),
        &Ok(WaitStatus::PtraceSyscall(100)),
    );
    same(&rt, &calls.cont(100, Some(64)), &Ok(()));
    same(&rt, &restart_of(root), &Some((Kind::Cont, 64)));
    let _tracer = end(&rt, calls, &[]);
    Ok(())
}

/// The calls over the root at the entry of call 39.
fn at_call_39(alloc: Global) -> Result<Calls, Fail> {
    let (root, waiter) = root_and_waiter(alloc)?;
    let Ok(mut running) = root.take_up() else {
        return Err(Fail::new("a root runs"));
    };
    running.record.regs.orig_rax = 39;
    let _root = running.publish(Stop::Enter, 0);
    waiter.ready(alloc)
}

#[test]
fn the_information_of_a_syscall_stop_has_its_layout(rt: HostRuntime) -> Result<(), Fail> {
    let mut calls = at_call_39(rt.alloc())?;
    let mut buffer = [0xee; 81];
    same(
        &rt,
        &calls.syscall_info(100, &mut buffer),
        &Err(Errno::ESRCH),
    );
    same(&rt, &buffer[0], &0xee);
    same(
        &rt,
        &calls.waitpid(-1, WaitFlags::WALL),
        &Ok(WaitStatus::PtraceSyscall(100)),
    );
    same(&rt, &calls.syscall_info(100, &mut buffer), &Ok(80));
    // The op of an entry; the number of the call; the last byte is behind the layout.
    same(
        &rt,
        &(buffer[0], buffer[24], buffer[79], buffer[80]),
        &(1, 39, 0, 0xee),
    );
    let _tracer = end(&rt, calls, &[100]);
    Ok(())
}

/// Whether the calls can be ended as they are.
fn ends<R: Wait>(rt: &R, calls: Calls) -> bool {
    match calls.into_tracer() {
        Ok(tracer) => tracer.held() == 0,
        Err(calls) => {
            let _tracer = end(rt, calls, &[100]);
            false
        }
    }
}

#[test]
fn calls_end_once_nothing_is_claimed(rt: HostRuntime) -> Result<(), Fail> {
    let mut calls = over_stopped_root(rt.alloc(), Stop::Start)?;
    same(&rt, &calls.count(100), &Some(0));
    same(
        &rt,
        &calls.waitid(Id::PGid(77), WaitFlags::WSTOPPED),
        &started(100),
    );
    same(&rt, &calls.count(100), &Some(1));
    match calls.into_tracer() {
        Ok(_tracer) => Ok(holds(&rt, false, "a claim is held")),
        Err(mut calls) => {
            same(&rt, &calls.cont(100, None), &Ok(()));
            Ok(holds(&rt, ends(&rt, calls), "no claim is held"))
        }
    }
}
