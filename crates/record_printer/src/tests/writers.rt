//! Writers that take a byte at a time, and that fail.

use crate::tests::compare::same;
use crate::text_tests::rows::{FORK_TEXT, fork_text};
use crate::{WriteFault, write_text};
use std::io::{self, ErrorKind, Write};
use std::test::Fail;

/// A writer that takes a byte at a time, except at one of its writes, which fails or takes no byte.
#[derive(Drop)]
struct Sink {
    taken: Vec<u8>,
    /// How many writes there are before that one.
    before: usize,
    fails: bool,
}

impl Write for Sink {
    fn write(&mut self, bytes: &[u8]) -> io::Result<usize> {
        let is_last = self.before == 0;
        self.before = self.before.wrapping_sub(1);
        match bytes.first() {
            _ if is_last && self.fails => Err(io::Error::from(ErrorKind::BrokenPipe)),
            Some(byte) if !is_last => {
                self.taken.push(*byte)?;
                Ok(1)
            }
            _ => Ok(0),
        }
    }

    fn flush(&mut self) -> io::Result<()> {
        Ok(())
    }
}

fn make_sink(rt: &impl AllocGlobal, before: usize, fails: bool) -> Sink {
    Sink {
        taken: Vec::new(rt.alloc()),
        before,
        fails,
    }
}

#[test]
fn a_text_is_written_byte_by_byte(rt: HostRuntime) -> Result<(), Fail> {
    let text = fork_text(rt.alloc())?;
    let mut out = make_sink(&rt, usize::MAX, true);
    same(&rt, &write_text(&text, &mut out), &Ok(()));
    same(&rt, &out.taken.as_slice(), &FORK_TEXT.as_bytes());
    Ok(())
}

#[test]
fn a_fault_reports_what_was_written(rt: HostRuntime) -> Result<(), Fail> {
    let text = fork_text(rt.alloc())?;
    for fails in [true, false] {
        for before in 0..FORK_TEXT.len() {
            let mut out = make_sink(&rt, before, fails);
            let fault = WriteFault {
                written: before as u64,
            };
            same(&rt, &write_text(&text, &mut out), &Err(fault));
            same(&rt, &out.taken.as_slice(), &&FORK_TEXT.as_bytes()[..before]);
        }
    }
    Ok(())
}
