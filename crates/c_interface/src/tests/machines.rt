//! Machines whose options and filter change.

use super::*;
use std::alloc::Global;
use trace_record::StopRecord;
use trace_script::Case;

/// A root that forks 101 and exits; its child; and a root that calls `getpid` (syscalls(2), number 39) and exits.
const CASE: &[u8] = b"tracee 100 100 77 0\nfork 101\nend\ntracee 101 101 77 100\nend\n\
    tracee 200 200 77 0\ncall getpid = 200\nend\n";

/// `PTRACE_O_TRACESYSGOOD`; with `PTRACE_O_TRACEFORK` and `PTRACE_O_TRACECLONE`; with `PTRACE_O_TRACESECCOMP`.
const PLAIN: u32 = 0x1;

const BIRTHS: u32 = 0xB;

const SECCOMP: u32 = 0x81;

const CONT: CRestart = CRestart { kind: 0, signal: 0 };

/// The next stop of a machine.
fn stops_at(
    machine: &mut MachineEnd,
    stopped: &mut StopRecord<Global>,
    kind: u32,
    value: u32,
) -> bool {
    machine_next(&mut machine.machine, CONT, stopped) == Ok(NextStep::Stop(stop(kind, value)))
}

/// Whether it dies by an exit with code 0.
fn dies(machine: &mut MachineEnd, stopped: &mut StopRecord<Global>) -> bool {
    machine_next(&mut machine.machine, CONT, stopped) == Ok(NextStep::Death(0))
}

#[test]
fn births_are_not_turned_on_after_one_that_was_not_traced(rt: HostRuntime) {
    let alloc = rt.alloc();
    let (Ok(case), Ok(mut stopped)) = (Case::read(alloc, CASE), record_open(alloc, 100)) else {
        return same(&rt, &false, &true);
    };
    let Ok(mut machine) = machine_end_open(alloc, &case, 0) else {
        return same(&rt, &false, &true);
    };
    // A bit of no option, and forks without clones.
    same(
        &rt,
        &machine_options(&mut machine, 0x101),
        &Err(Error::EINVAL),
    );
    same(
        &rt,
        &machine_options(&mut machine, 0x3),
        &Err(Error::EINVAL),
    );
    // On and off, before the birth.
    same(&rt, &machine_options(&mut machine, BIRTHS), &Ok(()));
    same(&rt, &machine_options(&mut machine, PLAIN), &Ok(()));
    assert!(rt; stops_at(&mut machine, &mut stopped, 0, 0));
    same(&rt, &machine_options(&mut machine, BIRTHS), &Ok(()));
    same(&rt, &machine_options(&mut machine, PLAIN), &Ok(()));
    assert!(rt; dies(&mut machine, &mut stopped));
    same(
        &rt,
        &machine_options(&mut machine, BIRTHS),
        &Err(Error::EINVAL),
    );
    same(&rt, &machine_options(&mut machine, PLAIN), &Ok(()));
}

#[test]
fn births_are_traced_by_their_options(rt: HostRuntime) {
    let alloc = rt.alloc();
    let (Ok(case), Ok(mut stopped)) = (Case::read(alloc, CASE), record_open(alloc, 100)) else {
        return same(&rt, &false, &true);
    };
    let Ok(mut machine) = machine_end_open(alloc, &case, 0) else {
        return same(&rt, &false, &true);
    };
    same(&rt, &machine_options(&mut machine, BIRTHS), &Ok(()));
    assert!(rt; stops_at(&mut machine, &mut stopped, 0, 0));
    assert!(rt; stops_at(&mut machine, &mut stopped, 4, 101));
    assert!(rt; dies(&mut machine, &mut stopped));
    same(&rt, &machine_options(&mut machine, BIRTHS), &Ok(()));
    assert!(rt; matches!(machine_end_open(alloc, &case, 3), Err(Error::EINVAL)));
}

#[test]
fn a_filter_stops_the_call_of_its_bit(rt: HostRuntime) {
    let alloc = rt.alloc();
    let (Ok(case), Ok(mut stopped)) = (Case::read(alloc, CASE), record_open(alloc, 200)) else {
        return same(&rt, &false, &true);
    };
    for (bits, stops) in [([1 << 39, 0], true), ([1 << 38, u64::MAX], false)] {
        let Ok(mut machine) = machine_end_open(alloc, &case, 2) else {
            return same(&rt, &false, &true);
        };
        same(&rt, &machine_options(&mut machine, SECCOMP), &Ok(()));
        machine_filter(&mut machine, &bits, 0x1234);
        assert!(rt; stops_at(&mut machine, &mut stopped, 0, 0));
        same(
            &rt,
            &stops_at(&mut machine, &mut stopped, 3, 0x1234),
            &stops,
        );
    }
}
