//! Case files, and the machines of their scripts.

use super::*;
use trace_script::Case;

/// A root that makes one call, `getpid` (syscalls(2), number 39), gets a signal, and exits with code 3; and a root of which
/// a call writes to its one page.
const CASE: &[u8] = b"tracee 100 100 77 0\ncall getpid = 100\nsignal 15\nexit 3\nend\n\
    tracee 200 200 77 0\npage 0x5000\ncall read 0 0x5000 2 = 2 fill 0x5000 6162\nend\n";

const CONT: CRestart = CRestart { kind: 0, signal: 0 };

const SYSCALL: CRestart = CRestart { kind: 1, signal: 0 };

/// A next stop.
fn stops(kind: u32, value: u32) -> Result<NextStep, Error> {
    Ok(NextStep::Stop(stop(kind, value)))
}

#[test]
fn a_script_runs_from_stop_to_stop(rt: HostRuntime) {
    let alloc = rt.alloc();
    let (Ok(case), Ok(mut stopped)) = (Case::read(alloc, CASE), record_open(alloc, 1)) else {
        return same(&rt, &false, &true);
    };
    let Ok(mut machine) = machine_open(alloc, &case, 0) else {
        return same(&rt, &false, &true);
    };
    assert!(rt; matches!(machine_open(alloc, &case, 2), Err(Error::EINVAL)));
    let bad = CRestart { kind: 2, signal: 0 };
    same(
        &rt,
        &machine_next(&mut machine, bad, &mut stopped),
        &Err(Error::EINVAL),
    );
    let loud = CRestart {
        kind: 0,
        signal: 65,
    };
    same(
        &rt,
        &machine_next(&mut machine, loud, &mut stopped),
        &Err(Error::EIO),
    );
    same(
        &rt,
        &machine_next(&mut machine, CONT, &mut stopped),
        &stops(0, 0),
    );
    same(
        &rt,
        &machine_next(&mut machine, SYSCALL, &mut stopped),
        &stops(1, 0),
    );
    same(&rt, &record_stop(&stopped), &(2, stop(1, 0)));
    same(&rt, &record_getregs(&stopped).orig_rax, &39);
    same(
        &rt,
        &machine_next(&mut machine, SYSCALL, &mut stopped),
        &stops(2, 0),
    );
    same(&rt, &record_getregs(&stopped).rax, &100);
    same(
        &rt,
        &machine_next(&mut machine, CONT, &mut stopped),
        &stops(7, 15),
    );
    let dies = Ok(NextStep::Death(0x300));
    same(&rt, &machine_next(&mut machine, CONT, &mut stopped), &dies);
}

#[test]
fn a_script_that_stores_to_what_is_not_mapped_is_a_fault(rt: HostRuntime) {
    let alloc = rt.alloc();
    let (Ok(case), Ok(mut stopped)) = (Case::read(alloc, CASE), record_open(alloc, 1)) else {
        return same(&rt, &false, &true);
    };
    let Ok(mut machine) = machine_open(alloc, &case, 1) else {
        return same(&rt, &false, &true);
    };
    same(
        &rt,
        &machine_next(&mut machine, CONT, &mut stopped),
        &stops(0, 0),
    );
    // Another record has no page.
    let Ok(mut other) = record_open(alloc, 1) else {
        return same(&rt, &false, &true);
    };
    same(
        &rt,
        &machine_next(&mut machine, CONT, &mut other),
        &Err(Error::EFAULT),
    );
    same(&rt, &record_stop(&other), &(0, stop(0, 0)));
    same(
        &rt,
        &machine_next(&mut machine, CONT, &mut stopped),
        &Ok(NextStep::Death(0)),
    );
    let mut to = [0; 2];
    same(&rt, &record_read(&stopped, 0x5000, &mut to), &2);
    same(&rt, &to, b"ab");
}

#[test]
fn rows_are_copied_into_a_buffer(rt: HostRuntime) {
    let none = CRow {
        tid: 9,
        tgid: 9,
        pgid: 9,
        parent: 9,
    };
    let mut to = [none; 3];
    same(&rt, &rows_into(&ROWS, &mut to), &2);
    same(&rt, &to, &[CRow::of(ROWS[0]), CRow::of(ROWS[1]), none]);
    let mut short = [none; 1];
    same(&rt, &rows_into(&ROWS, &mut short), &2);
    same(&rt, &short, &[CRow::of(ROWS[0])]);
}

#[test]
fn a_tracee_runs_a_script(rt: HostRuntime) {
    let alloc = rt.alloc();
    let rows = [CRow::of(ROWS[0])];
    let (Ok(case), Ok(mut opened)) = (Case::read(alloc, CASE), open_cells(alloc, &rows, 1)) else {
        return same(&rt, &false, &true);
    };
    let (Ok(mut machine), Ok(Some(mut root))) = (
        machine_open(alloc, &case, 0),
        opened.next_tracee(alloc),
    ) else {
        return same(&rt, &false, &true);
    };
    same(
        &rt,
        &tracee_next(&mut root, &mut machine),
        &Err(Error::ESRCH),
    );
    same(&rt, &tracee_take_up(&mut root), &Ok(CONT));
    same(&rt, &tracee_next(&mut root, &mut machine), &stops(0, 0));
    same(&rt, &tracee_publish(&mut root, stop(0, 0)), &Ok(1));
}
