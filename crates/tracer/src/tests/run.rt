//! `tracer run`: files that are named, and streams that fail. Its options and texts are in tests/cases/runs.cases.

use crate::tests::compare::same;
use crate::tests::program::{CANNOT_WRITE, command_line, narrow, run_with};
use std::fs;
use std::test::Fail;
use tracer_cli::program;

/// A root that writes, forks and exits, and its child.
const FORK: &str = "\
tracee 100 100 77 0
page 0x10000
data 0x10000 68690a
call write 1 0x10000 3 = 3
fork 101
exit 3
end
tracee 101 101 77 100
exit 0
end
";

/// Its lines with `-f`.
const FORK_TEXT: &str = "\
100 write(1, \"hi\\n\", 3) = 3
100 fork() = 101
100 exit(3) = ?
100 +++ exited with 3 +++
101 exit(0) = ?
101 +++ exited with 0 +++
";

const DEADLY: &str = "tracee 200 200 200 0\nsignal 15 deadly\nexit 0\nend\n";

const DEADLY_TEXT: &str = "200 --- SIGTERM ---\n200 +++ killed by SIGTERM +++\n";

const SIGNAL: &str = "tracee 200 200 200 0\nsignal 15\nexit 0\nend\n";

#[test]
fn a_name_that_is_no_calls_is_told_before_the_file_is_read(rt: HostRuntime) -> Result<(), Fail> {
    let mut input = FORK.as_bytes();
    let ended = run_with(&rt, &["run", "-e", "write,foo"], &mut input)?;
    same(&rt, &ended.status, &2);
    same(
        &rt,
        &ended.errors.as_slice(),
        &b"tracer: unknown call foo\n".as_slice(),
    );
    same(&rt, &input, &FORK.as_bytes());
    Ok(())
}

#[test]
fn a_case_file_that_is_named_is_read(rt: HostRuntime) -> Result<(), Fail> {
    fs::write(&rt, "a case", FORK)?;
    let there = run_with(&rt, &["run", "-f", "a case"], &mut SIGNAL.as_bytes());
    fs::remove_file(&rt, "a case")?;
    let there = there?;
    same(&rt, &there.status, &0);
    same(&rt, &there.output.as_slice(), &FORK_TEXT.as_bytes());
    Ok(())
}

#[test]
fn a_text_that_cannot_be_written_is_reported(rt: HostRuntime) -> Result<(), Fail> {
    for (case, room, status) in [
        (DEADLY, 0, 3),
        (DEADLY, DEADLY_TEXT.len() - 1, 3),
        (DEADLY, DEADLY_TEXT.len(), 0),
        ("", 0, 0),
    ] {
        let words = command_line(&rt, &["run"])?;
        let mut output = narrow(&rt, room);
        let mut errors = Vec::new(rt.alloc());
        let mut input = case.as_bytes();
        let ended = program(&rt, words.as_slice(), &mut input, &mut output, &mut errors);
        same(&rt, &(room, ended), &(room, status));
        same(&rt, &output.taken.len(), &room);
        let expected = if status == 0 {
            b"".as_slice()
        } else {
            CANNOT_WRITE
        };
        same(&rt, &(room, errors.as_slice()), &(room, expected));
    }
    Ok(())
}
