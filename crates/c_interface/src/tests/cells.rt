//! The ends of the cells that threads share, all on one thread.

use super::*;
use std::alloc::Global;

/// `WSTOPPED`, `WEXITED`, `WNOWAIT` (`<sys/wait.h>`).
const STOPS: u32 = 2;

const ANY: u32 = 6;

const NOWAIT: u32 = 0x0100_0000;

const CONT: CRestart = CRestart { kind: 0, signal: 0 };

/// The ends of a root, of a thread of its group, and of a tracer.
#[derive(Drop)]
struct Ends {
    root: TraceeEnd,
    thread: TraceeEnd,
    tracer: TracerEnd,
}

/// The ids of `ROWS`.
fn ids() -> [CRow; 2] {
    [CRow::of(ROWS[0]), CRow::of(ROWS[1])]
}

fn opened_ends(alloc: Global) -> Option<Ends> {
    let mut opened = open_cells(alloc, &ids(), 1).ok()?;
    let thread = opened.next_tracee(alloc).ok()??;
    let root = opened.next_tracee(alloc).ok()??;
    let tracer = opened.next_tracer(alloc).ok()??;
    Some(Ends {
        root,
        thread,
        tracer,
    })
}

#[test]
fn an_opening_gives_each_end_out_once(rt: HostRuntime) {
    let alloc = rt.alloc();
    let Ok(mut opened) = open_cells(alloc, &ids(), 2) else {
        return same(&rt, &false, &true);
    };
    for _ in 0..2 {
        assert!(rt; matches!(opened.next_tracee(alloc), Ok(Some(_))));
        assert!(rt; matches!(opened.next_tracer(alloc), Ok(Some(_))));
    }
    assert!(rt; matches!(opened.next_tracee(alloc), Ok(None)));
    assert!(rt; matches!(opened.next_tracer(alloc), Ok(None)));
}

#[test]
fn a_faulty_opening_is_refused(rt: HostRuntime) {
    let alloc = rt.alloc();
    let refused = |rows: &[CRow], tracers| open_cells(alloc, rows, tracers).err();
    let [root, thread] = ids();
    let orphan = CRow {
        parent: 99,
        ..thread
    };
    same(&rt, &refused(&[root, orphan], 1), &Some(OpenFault::Row(1)));
    same(&rt, &refused(&[root, root], 1), &Some(OpenFault::Row(1)));
    same(&rt, &refused(&[root], 0), &Some(OpenFault::Tracers));
    same(&rt, &refused(&[root], 17), &Some(OpenFault::Tracers));
    same(&rt, &refused(&[], 16), &None);
}

#[test]
fn a_tracee_is_taken_up_and_stops(rt: HostRuntime) {
    let Some(mut ends) = opened_ends(rt.alloc()) else {
        return same(&rt, &false, &true);
    };
    same(
        &rt,
        &tracee_publish(&mut ends.root, stop(0, 0)),
        &Err(Error::EALREADY),
    );
    same(&rt, &tracee_exit(&mut ends.root, 0), &Err(Error::EALREADY));
    same(&rt, &tracee_take_up(&mut ends.thread), &Err(Error::EAGAIN));
    same(&rt, &tracee_take_up(&mut ends.root), &Ok(CONT));
    same(&rt, &tracee_take_up(&mut ends.root), &Err(Error::EALREADY));
    same(
        &rt,
        &tracee_publish(&mut ends.root, stop(9, 0)),
        &Err(Error::EINVAL),
    );
    same(
        &rt,
        &tracee_publish(&mut ends.root, stop(5, 102)),
        &Err(Error::EINVAL),
    );
    same(&rt, &tracee_publish(&mut ends.root, stop(5, 101)), &Ok(1));
    same(&rt, &tracee_take_up(&mut ends.root), &Err(Error::EAGAIN));
    same(&rt, &tracee_take_up(&mut ends.thread), &Ok(CONT));
    same(
        &rt,
        &tracee_exit(&mut ends.thread, 0x7f),
        &Err(Error::EINVAL),
    );
    same(&rt, &tracee_exit(&mut ends.thread, 0x300), &Ok(()));
    same(
        &rt,
        &tracee_take_up(&mut ends.thread),
        &Err(Error::EALREADY),
    );
}

#[test]
fn a_child_that_nobody_creates_is_never_born(rt: HostRuntime) {
    let Some(mut ends) = opened_ends(rt.alloc()) else {
        return same(&rt, &false, &true);
    };
    same(&rt, &tracee_take_up(&mut ends.root), &Ok(CONT));
    same(&rt, &tracee_exit(&mut ends.root, 0), &Ok(()));
    same(&rt, &tracee_take_up(&mut ends.thread), &Err(Error::ECHILD));
}

#[test]
fn a_leader_waits_for_its_group(rt: HostRuntime) {
    let Some(mut ends) = opened_ends(rt.alloc()) else {
        return same(&rt, &false, &true);
    };
    same(&rt, &tracee_take_up(&mut ends.root), &Ok(CONT));
    same(&rt, &tracee_publish(&mut ends.root, stop(5, 101)), &Ok(1));
    let all = tracer_waitid(&mut ends.tracer.calls, P_ALL, 0, STOPS);
    assert!(rt; matches!(all, Ok(Some(_))));
    same(
        &rt,
        &tracer_resume(&mut ends.tracer.calls, 100, CONT),
        &Ok(()),
    );
    same(&rt, &tracee_take_up(&mut ends.root), &Ok(CONT));
    same(&rt, &tracee_exit(&mut ends.root, 0), &Err(Error::EBUSY));
    same(&rt, &tracee_publish(&mut ends.root, stop(1, 0)), &Ok(2));
}

#[test]
fn the_record_in_hand_is_read_and_written(rt: HostRuntime) {
    let Some(mut ends) = opened_ends(rt.alloc()) else {
        return same(&rt, &false, &true);
    };
    let root = &mut ends.root;
    let mut to = [9; 3];
    assert!(rt; tracee_getregs(root).is_err());
    same(&rt, &tracee_map(root, 0x1000), &Err(Error::ESRCH));
    same(&rt, &tracee_read(root, 0x1ffe, &mut to), &Err(Error::ESRCH));
    same(&rt, &tracee_take_up(root), &Ok(CONT));
    same(&rt, &tracee_map(root, 0x1000), &Ok(()));
    same(&rt, &tracee_map(root, 0x1001), &Err(Error::EINVAL));
    same(&rt, &tracee_write(root, 0x1ffe, &[1, 2]), &Ok(()));
    same(
        &rt,
        &tracee_write(root, 0x1ffe, &[1, 2, 3]),
        &Err(Error::EIO),
    );
    same(&rt, &tracee_read(root, 0x1ffe, &mut to), &Ok(2));
    same(&rt, &to, &[1, 2, 9]);
    let Ok(mut regs) = tracee_getregs(root) else {
        return same(&rt, &false, &true);
    };
    regs.rax = 7;
    same(&rt, &tracee_setregs(root, &regs), &Ok(()));
    same(&rt, &tracee_getregs(root).map(|regs| regs.rax), &Ok(7));
}

#[test]
fn a_tracer_waits_and_restarts(rt: HostRuntime) {
    let Some(mut ends) = opened_ends(rt.alloc()) else {
        return same(&rt, &false, &true);
    };
    let calls = &mut ends.tracer.calls;
    same(&rt, &tracer_waitid(calls, P_ALL, 0, STOPS), &Ok(None));
    same(&rt, &tracer_look(calls, 0), &state(2, 0, 0, 0));
    same(&rt, &tracer_look(calls, 1), &state(1, 0, 0, 0));
    same(&rt, &tracer_look(calls, 2), &state(0, 0, 0, 0));
    same(&rt, &tracee_take_up(&mut ends.root), &Ok(CONT));
    same(&rt, &tracee_publish(&mut ends.root, stop(7, 11)), &Ok(1));
    same(&rt, &tracer_look(calls, 0), &state(3, 1, 0, 0x0b7f));
    let stopped = CWaited {
        row: 0,
        tid: 100,
        number: 1,
        status: 0x0b7f,
        death: 0,
    };
    same(
        &rt,
        &tracer_waitid(calls, P_PID, 100, STOPS | NOWAIT),
        &Ok(Some(stopped)),
    );
    same(&rt, &tracer_stop(calls, 100), &Err(Error::ESRCH));
    same(&rt, &tracer_wait_row(calls, 0, STOPS), &Ok(Some(stopped)));
    same(&rt, &tracer_stop(calls, 100), &Ok((1, stop(7, 11))));
    same(&rt, &tracer_message(calls, 100), &Ok(0));
    same(&rt, &tracer_waitpid(calls, 100, 0), &Ok(None));
    let with = |kind, signal| CRestart { kind, signal };
    same(&rt, &tracer_resume(calls, 101, CONT), &Err(Error::ESRCH));
    same(
        &rt,
        &tracer_resume(calls, 100, with(2, 0)),
        &Err(Error::EINVAL),
    );
    same(
        &rt,
        &tracer_resume(calls, 100, with(0, 65)),
        &Err(Error::EIO),
    );
    same(
        &rt,
        &tracer_resume(calls, 100, with(0, 0x10b)),
        &Err(Error::EIO),
    );
    same(&rt, &tracer_resume(calls, 100, with(1, 11)), &Ok(()));
    same(&rt, &tracee_take_up(&mut ends.root), &Ok(with(1, 11)));
    same(&rt, &tracee_exit(&mut ends.root, 0x8b), &Ok(()));
    let died = CWaitpid {
        pid: 100,
        status: 0x8b,
    };
    same(&rt, &tracer_waitpid(calls, -1, 0), &Ok(Some(died)));
    same(&rt, &tracer_waitpid(calls, -1, 0), &Err(Error::ECHILD));
}

#[test]
fn a_wait_of_no_arguments_is_refused(rt: HostRuntime) {
    let Some(mut ends) = opened_ends(rt.alloc()) else {
        return same(&rt, &false, &true);
    };
    let calls = &mut ends.tracer.calls;
    same(&rt, &tracer_waitid(calls, 3, 0, STOPS), &Err(Error::EINVAL));
    same(
        &rt,
        &tracer_waitid(calls, P_ALL, 0, 16),
        &Err(Error::EINVAL),
    );
    same(&rt, &tracer_waitid(calls, P_ALL, 0, 0), &Err(Error::EINVAL));
    same(&rt, &tracer_wait_row(calls, 2, STOPS), &Err(Error::EINVAL));
    same(&rt, &tracer_wait_row(calls, 0, 8), &Err(Error::EINVAL));
    same(&rt, &tracer_wait_row(calls, 1, ANY), &Err(Error::ECHILD));
    same(&rt, &tracer_waitpid(calls, 0, 0), &Err(Error::EINVAL));
    same(&rt, &tracer_waitpid(calls, -1, 4), &Err(Error::EINVAL));
}

#[test]
fn what_is_claimed_is_read_and_written(rt: HostRuntime) {
    let Some(mut ends) = opened_ends(rt.alloc()) else {
        return same(&rt, &false, &true);
    };
    let calls = &mut ends.tracer.calls;
    let mut to = [9; 3];
    same(&rt, &tracee_take_up(&mut ends.root), &Ok(CONT));
    same(&rt, &tracee_map(&mut ends.root, 0x1000), &Ok(()));
    same(&rt, &tracee_write(&mut ends.root, 0x1ffe, &[1, 2]), &Ok(()));
    same(&rt, &tracee_publish(&mut ends.root, stop(5, 101)), &Ok(1));
    same(
        &rt,
        &tracer_read(calls, 100, 0x1ffe, &mut to),
        &Err(Error::ESRCH),
    );
    same(
        &rt,
        &tracer_syscall_info(calls, 100, &mut to),
        &Err(Error::ESRCH),
    );
    assert!(rt; tracer_getregs(calls, 100).is_err());
    assert!(rt; matches!(tracer_waitid(calls, P_ALL, 0, STOPS), Ok(Some(_))));
    same(&rt, &tracer_message(calls, 100), &Ok(101));
    same(&rt, &tracer_read(calls, 100, 0x1ffe, &mut to), &Ok(2));
    same(&rt, &to, &[1, 2, 9]);
    same(
        &rt,
        &tracer_write(calls, 101, 0x1ffe, &[3, 4]),
        &Err(Error::ESRCH),
    );
    same(
        &rt,
        &tracer_write(calls, 100, 0x1ffe, &[3, 4, 5]),
        &Err(Error::EIO),
    );
    same(&rt, &tracer_write(calls, 100, 0x1ffe, &[3, 4]), &Ok(()));
    same(&rt, &tracer_read(calls, 100, 0x1ffe, &mut to), &Ok(2));
    same(&rt, &to, &[3, 4, 9]);
    // A stop that is no syscall-stop has the 24 bytes that all have (ptrace(2), `PTRACE_SYSCALL_INFO_NONE`).
    same(&rt, &tracer_syscall_info(calls, 100, &mut to), &Ok(24));
    let Ok(mut regs) = tracer_getregs(calls, 100) else {
        return same(&rt, &false, &true);
    };
    regs.rax = 7;
    same(&rt, &tracer_setregs(calls, 101, &regs), &Err(Error::ESRCH));
    same(&rt, &tracer_setregs(calls, 100, &regs), &Ok(()));
    same(&rt, &tracer_resume(calls, 100, CONT), &Ok(()));
    same(&rt, &tracee_take_up(&mut ends.root), &Ok(CONT));
    same(
        &rt,
        &tracee_getregs(&ends.root).map(|regs| regs.rax),
        &Ok(7),
    );
}

#[test]
fn a_tracer_that_is_let_go_restarts_what_it_has_claimed(rt: HostRuntime) {
    let Some(ends) = opened_ends(rt.alloc()) else {
        return same(&rt, &false, &true);
    };
    let Ends {
        mut root,
        thread: _,
        mut tracer,
    } = ends;
    same(&rt, &tracee_take_up(&mut root), &Ok(CONT));
    same(&rt, &tracee_publish(&mut root, stop(7, 15)), &Ok(1));
    assert!(rt;
        matches!(
            tracer_waitid(&mut tracer.calls, P_ALL, 0, STOPS),
            Ok(Some(_))
        )
    );
    same(&rt, &tracee_take_up(&mut root), &Err(Error::EAGAIN));
    drop(tracer);
    same(&rt, &tracee_take_up(&mut root), &Ok(CONT));
}
