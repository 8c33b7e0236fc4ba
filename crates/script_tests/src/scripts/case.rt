//! Case files: what is read of them, worked out by hand. Why they are refused is in tests/cases/case_files.cases.

use crate::compare::{holds, same};
use std::test::Fail;
use trace_script::{Case, Script, Step};

/// A root that writes, forks and exits, and its child.
const WORKED: &str = "tracee 100 100 77 0\npage 0x10000\ndata 0x10000 68690a\n\
                      call write 1 0x10000 3 = 3\nfork 101\nexit 3\nend\n\
                      tracee 101 101 77 100\nexit 0\nend\n";

/// The number, the arguments, the word of the answer, and the address and the bytes of the fill of a call.
type Called<'a> = (u64, [u64; 6], u64, Option<(u64, &'a [u8])>);

/// The call that a step is.
fn called(script: &Script, at: usize) -> Option<Called<'_>> {
    match script.steps.as_slice().get(at) {
        Some(Step::Call(call)) => Some((
            call.nr,
            call.args,
            call.answer,
            call.fill
                .map(|fill| (fill.addr, fill.bytes(script.filled.as_slice()))),
        )),
        _ => None,
    }
}

#[test]
fn the_worked_case_is_read(rt: HostRuntime) -> Result<(), Fail> {
    let case = Case::read(rt.alloc(), WORKED.as_bytes())?;
    assert!(rt; case.roster().len() == 2);
    same(&rt, &case.roster().row(1).parent, &100);
    let root = case.script(0);
    same(&rt, &root.steps.len(), &3);
    same(
        &rt,
        &called(root, 0),
        &Some((1, [1, 0x10000, 3, 0, 0, 0], 3, None)),
    );
    assert!(rt; matches!(root.steps.as_slice().get(1), Some(Step::Fork(101))));
    assert!(rt; matches!(root.steps.as_slice().get(2), Some(Step::Exit(3))));
    let memory = root.image.memory.to_memory()?;
    for (addr, byte) in [
        (0x10000, Some(b'h')),
        (0x10001, Some(b'i')),
        (0x10002, Some(b'\n')),
        (0x10003, Some(0)),
        (0x11000, None),
    ] {
        same(&rt, &(addr, memory.byte(addr)), &(addr, byte));
    }
    let child = case.script(1);
    same(&rt, &child.steps.len(), &1);
    assert!(rt; matches!(child.steps.as_slice().get(0), Some(Step::Exit(0))));
    same(&rt, &child.image.memory.to_memory()?.byte(0x10000), &None);
    Ok(())
}

/// Each kind of line, with its free forms: spaces, comments, numbers in either base, digits in either case.
const FORMS: &str =
    "# a case\n\n  tracee   7 0x7 7 0  \n at 1 2\n# the image goes on\npage 0x20000\nat 0x30 64\n\
                     data 0x20ffe 61Ff\ncall getpid = -2\n\
                     call read 0 0x20000 16 4 5 6 = 5 fill 0x20ffb 6869090aff\nsignal 15 deadly\nsignal 1\n\
                     exec 0x20000\npage 0x40000\ndata 0x40000 2f\nat 9 10\nexit 256\n\
                     call close 3 = -9223372036854775808\nend";

#[test]
fn each_line_is_read_in_its_free_forms(rt: HostRuntime) -> Result<(), Fail> {
    let case = Case::read(rt.alloc(), FORMS.as_bytes())?;
    assert!(rt; case.roster().len() == 1);
    let script = case.script(0);
    same(&rt, &(script.image.rip, script.image.rsp), &(0x30, 64));
    let memory = script.image.memory.to_memory()?;
    same(&rt, &memory.byte(0x20fff), &Some(0xff));
    same(
        &rt,
        &called(script, 0),
        &Some((39, [0; 6], 0xffff_ffff_ffff_fffe, None)),
    );
    let fill = Some((0x20ffb, b"hi\t\n\xff".as_slice()));
    same(
        &rt,
        &called(script, 1),
        &Some((0, [0, 0x20000, 16, 4, 5, 6], 5, fill)),
    );
    same(
        &rt,
        &called(script, 6),
        &Some((3, [3, 0, 0, 0, 0, 0], 1 << 63, None)),
    );
    match script.steps.as_slice() {
        [
            _,
            _,
            Step::Signal {
                signal: 15,
                deadly: true,
            },
            Step::Signal {
                signal: 1,
                deadly: false,
            },
            Step::Exec {
                path: 0x20000,
                image,
            },
            Step::Exit(256),
            _,
        ] => {
            same(&rt, &(image.rip, image.rsp), &(9, 10));
            let memory = image.memory.to_memory()?;
            same(&rt, &memory.byte(0x40000), &Some(0x2f));
            same(&rt, &memory.byte(0x20000), &None);
        }
        _ => holds(&rt, false, "other steps"),
    }
    Ok(())
}
