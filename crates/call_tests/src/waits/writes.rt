//! Writes to a claimed tracee: what is read back, and what the tracee runs on with.

use crate::compare::same;
use crate::waits::answers::started;
use crate::waits::by_pid::with_a_page;
use crate::waits::caller::{Waiter, end};
use std::alloc::Global;
use std::sync::Wait;
use std::test::Fail;
use std::thread;
use std::time::Clock;
use test_support::{AtRest, ROOT, open_for, runs_on};
use trace_calls::{Calls, Id};
use trace_options::{Errno, WaitFlags};
use trace_pages::Memory;
use trace_record::Stop;

/// Sets `rbx` of a claimed tracee, and no other register.
fn set_rbx(calls: &mut Calls, rbx: u64) -> Result<(), Errno> {
    let mut regs = calls.getregs(100)?;
    regs.rbx = rbx;
    calls.setregs(100, regs)
}

/// The same of a tracee that there is none of, by the registers of the one that is claimed.
fn set_regs_of_nobody(calls: &mut Calls) -> Result<(), Errno> {
    let regs = calls.getregs(100)?;
    calls.setregs(999, regs)
}

/// The first byte of the page at 0x10000, and `rbx`, which a tracee runs on with.
fn runs_with(tracee: AtRest) -> Option<(Option<u8>, u64)> {
    let running = tracee.take_up().ok()?;
    Some((running.record.memory.byte(0x10000), running.record.regs.rbx))
}

#[test]
fn a_tracee_runs_on_with_what_was_written(rt: HostRuntime) -> Result<(), Fail> {
    let (root, waiter) = with_a_page(rt.alloc())?;
    let mut calls = waiter.ready(rt.alloc())?;
    let (eio, esrch) = (Err(Errno::EIO), Err(Errno::ESRCH));
    same(&rt, &calls.write(100, 0x10000, 0), &esrch);
    same(
        &rt,
        &calls.waitid(Id::All, WaitFlags::WSTOPPED),
        &started(100),
    );
    same(
        &rt,
        &calls.write(100, 0x10000, 0x6867_6665_6463_6200),
        &Ok(()),
    );
    same(&rt, &calls.read(100, 0x10000), &Ok(0x6867_6665_6463_6200));
    same(&rt, &calls.write(100, 0x10ffc, 0), &eio);
    same(&rt, &calls.write(999, 0, 0), &esrch);
    same(&rt, &calls.read(100, 0x10000), &Ok(0x6867_6665_6463_6200));
    same(&rt, &set_regs_of_nobody(&mut calls), &esrch);
    same(&rt, &set_rbx(&mut calls, 7), &Ok(()));
    same(&rt, &calls.getregs(100).ok().map(|regs| regs.rbx), &Some(7));
    let regs = calls.getregs(100);
    same(&rt, &calls.syscall(100, None), &Ok(()));
    same(&rt, &runs_with(root), &Some((Some(0), 7)));
    same(&rt, &regs.and_then(|regs| calls.setregs(100, regs)), &esrch);
    same(&rt, &calls.write(100, 0x10000, 0), &esrch);
    let _tracer = end(&rt, calls, &[]);
    Ok(())
}

#[test]
fn a_later_write_is_put_over_an_earlier_one(rt: HostRuntime) -> Result<(), Fail> {
    let (_root, waiter) = with_a_page(rt.alloc())?;
    let mut calls = waiter.ready(rt.alloc())?;
    same(
        &rt,
        &calls.waitid(Id::All, WaitFlags::WSTOPPED),
        &started(100),
    );
    same(
        &rt,
        &calls.write(100, 0x10000, 0x0807_0605_0403_0201),
        &Ok(()),
    );
    same(&rt, &calls.write(100, 0x10004, -1), &Ok(()));
    same(&rt, &calls.read(100, 0x10000), &Ok(-0xfbfc_fdff));
    same(&rt, &calls.read(100, 0x10008), &Ok(0xffff_ffff));
    let _tracer = end(&rt, calls, &[100]);
    Ok(())
}

/// Two pages side by side, and the last one.
fn map_pages(memory: &mut Memory) -> bool {
    memory.map(0x10000).is_ok()
        && memory.map(0x11000).is_ok()
        && memory.map(0xffff_ffff_ffff_f000).is_ok()
}

/// The calls over the root with these pages, which it has claimed.
fn over_pages(alloc: Global) -> Result<Calls, Fail> {
    let mut cast = open_for(alloc, &[ROOT], 1)?;
    let root = cast.tracee(alloc)?;
    let Ok(mut running) = root.take_up() else {
        return Err(Fail::new("a root runs"));
    };
    if !map_pages(&mut running.record.memory) {
        return Err(Fail::new("there is no memory for three pages"));
    }
    let _root = running.publish(Stop::Start, 0);
    let mut calls = Waiter::of(&mut cast, alloc)?.ready(alloc)?;
    let _started = calls.waitid(Id::All, WaitFlags::WSTOPPED);
    Ok(calls)
}

#[test]
fn a_write_is_whole_or_not_done(rt: HostRuntime) -> Result<(), Fail> {
    let mut calls = over_pages(rt.alloc())?;
    let eio = Err(Errno::EIO);
    // Over a page's end into the next page, into a hole, at the last word of all, and beyond.
    let places = [
        0x10ffc,
        0x11ffc,
        0xfffc,
        0xffff_ffff_ffff_fff8,
        0xffff_ffff_ffff_fff9,
    ];
    let written = places.map(|at| calls.write(100, at, 0x0807_0605_0403_0201));
    same(&rt, &written, &[Ok(()), eio, eio, Ok(()), eio]);
    same(&rt, &calls.read(100, 0x10ff8), &Ok(0x0403_0201_0000_0000));
    same(&rt, &calls.read(100, 0x11000), &Ok(0x0807_0605));
    same(&rt, &calls.read(100, 0x11ff8), &Ok(0));
    same(&rt, &calls.read(100, 0x10000), &Ok(0));
    same(
        &rt,
        &calls.read(100, 0xffff_ffff_ffff_fff8),
        &Ok(0x0807_0605_0403_0201),
    );
    let _tracer = end(&rt, calls, &[100]);
    Ok(())
}

#[test]
fn bytes_are_stored_all_or_none(rt: HostRuntime) -> Result<(), Fail> {
    let mut calls = over_pages(rt.alloc())?;
    let (eio, esrch) = (Err(Errno::EIO), Err(Errno::ESRCH));
    // Over a page's end into the next page, into a hole, at the last three bytes of all, and beyond.
    let places = [
        0x10fff,
        0x11ffe,
        0xffff_ffff_ffff_fffd,
        0xffff_ffff_ffff_fffe,
    ];
    let stored = places.map(|at| calls.store(100, at, &[1, 2, 3]));
    same(&rt, &stored, &[Ok(()), eio, Ok(()), eio]);
    // No byte has no address that may be missing.
    same(&rt, &calls.store(100, 0, &[]), &Ok(()));
    same(&rt, &calls.store(999, 0x10000, &[]), &esrch);
    same(&rt, &calls.read(100, 0x10ff8), &Ok(0x0100_0000_0000_0000));
    same(&rt, &calls.read(100, 0x11000), &Ok(0x0302));
    same(&rt, &calls.read(100, 0x11ff8), &Ok(0));
    same(
        &rt,
        &calls.read(100, 0xffff_ffff_ffff_fff8),
        &Ok(0x0302_0100_0000_0000),
    );
    let _tracer = end(&rt, calls, &[100]);
    Ok(())
}

/// A tracer's thread: it waits for the start of the root, writes, and lets it run on. Then it answers what `rbx` and the
/// first word of the page are at the next stop; None where there was no memory.
fn write_and_read<R: Wait + Clock>(
    rt: &R,
    alloc: Global,
    waiter: Waiter,
) -> Option<(Option<u64>, Result<i64, Errno>)> {
    let mut calls = waiter.calls(alloc)?;
    let _started = calls.waitid_blocking(rt, Id::All, WaitFlags::WSTOPPED);
    let _ = set_rbx(&mut calls, 7);
    let _ = calls.write(100, 0x10000, 5);
    let _ = calls.syscall(100, None);
    let _entered = calls.waitid_blocking(rt, Id::All, WaitFlags::WSTOPPED);
    let rbx = calls.getregs(100).ok().map(|regs| regs.rbx);
    let word = calls.read(100, 0x10000);
    let _tracer = end(rt, calls, &[100]);
    Some((rbx, word))
}

/// The root's thread: it runs on with what was written, and publishes its next stop with that.
fn run_on<R: Wait>(rt: &R, root: AtRest) -> (u64, Option<u8>) {
    let running = runs_on(rt, root);
    let seen = (running.record.regs.rbx, running.record.memory.byte(0x10000));
    let _root = running.publish(Stop::Enter, 0);
    seen
}

#[test]
fn what_one_thread_writes_the_other_runs_on_with(rt: HostRuntime) -> Result<(), Fail> {
    let alloc = rt.alloc();
    let (root, waiter) = with_a_page(alloc)?;
    let (read, seen) = thread::join(
        &rt,
        || write_and_read(&rt, alloc, waiter),
        || run_on(&rt, root),
    );
    same(&rt, &seen, &(7, Some(5)));
    same(&rt, &read, &Some((Some(7), Ok(5))));
    Ok(())
}
