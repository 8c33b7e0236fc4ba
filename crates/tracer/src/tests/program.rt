//! The program with streams that fail, and with files that are named. Its words, statuses and texts are in
//! tests/cases/program.cases.

use crate::tests::compare::same;
use std::alloc::AllocError;
use std::fs;
use std::io::{self, ErrorKind, Read, Write};
use std::rt::Files;
use std::sync::Wait;
use std::test::Fail;
use std::thread::Threads;
use std::time::Clock;
use tracer_cli::{process, program};

/// A stream that hands over a text in parts of at most this many bytes, and fails once after it.
#[derive(Drop)]
struct Source<'a> {
    rest: &'a [u8],
    most: u64,
    fault: Option<ErrorKind>,
}

impl Read for Source<'_> {
    fn read(&mut self, buffer: &mut [u8]) -> io::Result<usize> {
        if self.rest.is_empty() {
            if let Some(kind) = self.fault.take() {
                return Err(io::Error::from(kind));
            }
        }
        self.rest.by_ref().take(self.most).read(buffer)
    }
}

/// A stream that takes a byte at a time, and no more than there is room for.
#[derive(Drop)]
pub(crate) struct Sink {
    pub(crate) taken: Vec<u8>,
    pub(crate) room: usize,
}

impl Write for Sink {
    fn write(&mut self, bytes: &[u8]) -> io::Result<usize> {
        match bytes.first() {
            None => Ok(0),
            Some(_) if self.taken.len() >= self.room => Err(io::Error::from(ErrorKind::BrokenPipe)),
            Some(byte) => {
                self.taken.push(*byte)?;
                Ok(1)
            }
        }
    }

    fn flush(&mut self) -> io::Result<()> {
        Err(io::Error::from(ErrorKind::BrokenPipe))
    }
}

/// A stream with room for this many bytes.
pub(crate) fn narrow(rt: &impl AllocGlobal, room: usize) -> Sink {
    Sink {
        taken: Vec::new(rt.alloc()),
        room,
    }
}

/// How a run ended, and what it wrote.
#[derive(Debug, Drop)]
pub(crate) struct Ended {
    pub(crate) status: u8,
    pub(crate) output: Vec<u8>,
    pub(crate) errors: Vec<u8>,
}

/// A command line of these words, after the program's name.
pub(crate) fn command_line(
    rt: &impl AllocGlobal,
    words: &[&str],
) -> Result<Vec<String>, AllocError> {
    let alloc = rt.alloc();
    let mut all = Vec::new(alloc);
    all.push(String::from_str(alloc, "tracer")?)?;
    for word in words {
        all.push(String::from_str(alloc, word)?)?;
    }
    Ok(all)
}

/// Runs the program on words, without its name, and on what standard input has.
pub(crate) fn run_with<H: Files + AllocGlobal + Threads + Wait + Clock + Sync, R: Read>(
    rt: &H,
    words: &[&str],
    input: &mut R,
) -> Result<Ended, AllocError> {
    let words = command_line(rt, words)?;
    let mut output = Vec::new(rt.alloc());
    let mut errors = Vec::new(rt.alloc());
    let status = process(rt, Ok(words), input, &mut output, &mut errors);
    Ok(Ended {
        status,
        output,
        errors,
    })
}

const FILE: &[u8] = b"row 100 100 77 0\nstate 100\n";

const CANNOT_READ: &[u8] = b"tracer: cannot read\n";

pub(crate) const CANNOT_WRITE: &[u8] = b"tracer: cannot write\n";

const NO_MEMORY: &[u8] = b"tracer: no memory\n";

/// What is said of the command `trace`.
const NO_COMMAND: &[u8] = b"error: unrecognized subcommand 'trace'\n\n\
    Usage: tracer <COMMAND>\n\n\
    For more information, try '--help'.\n";

#[test]
fn standard_input_is_read_to_its_end_or_its_first_failure(rt: HostRuntime) -> Result<(), Fail> {
    let table = [
        (FILE, None, 0, b"running\n".as_slice(), b"".as_slice()),
        (FILE, Some(ErrorKind::Interrupted), 0, b"running\n", b""),
        (FILE, Some(ErrorKind::BrokenPipe), 3, b"", CANNOT_READ),
        (b"", Some(ErrorKind::BrokenPipe), 3, b"", CANNOT_READ),
        (FILE, Some(ErrorKind::OutOfMemory), 3, b"", NO_MEMORY),
        (b"", Some(ErrorKind::OutOfMemory), 3, b"", NO_MEMORY),
    ];
    for (rest, fault, status, output, errors) in table {
        for most in [1, 3, 4096] {
            let mut input = Source { rest, most, fault };
            let ended = run_with(&rt, &["replay"], &mut input)?;
            same(&rt, &(fault, most, ended.status), &(fault, most, status));
            same(
                &rt,
                &(fault, most, ended.output.as_slice()),
                &(fault, most, output),
            );
            same(
                &rt,
                &(fault, most, ended.errors.as_slice()),
                &(fault, most, errors),
            );
        }
    }
    Ok(())
}

#[test]
fn a_file_that_is_named_is_read_in_place_of_standard_input(rt: HostRuntime) -> Result<(), Fail> {
    for name in ["a regular file", "-"] {
        fs::write(&rt, name, b"row 7 7 7 0\nexit 7 exited 0\n".as_slice())?;
        let mut input = FILE;
        let there = run_with(&rt, &["replay", name], &mut input);
        fs::remove_file(&rt, name)?;
        let there = there?;
        same(&rt, &(name, there.status), &(name, 0));
        same(
            &rt,
            &(name, there.output.as_slice()),
            &(name, b"exited\n".as_slice()),
        );
        same(
            &rt,
            &(name, there.errors.as_slice()),
            &(name, [].as_slice()),
        );
        let gone = run_with(&rt, &["replay", name], &mut input)?;
        same(&rt, &(name, gone.status), &(name, 3));
        same(&rt, &(name, gone.output.as_slice()), &(name, [].as_slice()));
        same(&rt, &(name, gone.errors.as_slice()), &(name, CANNOT_READ));
        same(&rt, &(name, input), &(name, FILE));
    }
    Ok(())
}

#[test]
fn a_command_that_is_not_there_is_named(rt: HostRuntime) -> Result<(), Fail> {
    let ended = run_with(&rt, &["trace"], &mut FILE)?;
    same(&rt, &ended.errors.as_slice(), &NO_COMMAND);
    Ok(())
}

/// Two tracers got one stop, which is forbidden at line 7.
const TWICE: &[u8] = b"row 100 100 77 0
thread tracee
publish 100 start
thread one
wait 100 0 = stop 1 0x80057f
thread two
wait 100 1 = stop 1 0x80057f
";

/// The outcome of a litmus file without a line has 51 bytes, and `forbidden: line 7` with its line feed 18.
#[test]
fn what_cannot_be_written_is_reported(rt: HostRuntime) -> Result<(), Fail> {
    for (words, file, room, status) in [
        (["replay"].as_slice(), FILE, 0, 3),
        (&["replay"], FILE, 1, 3),
        (&["replay"], FILE, 7, 3),
        (&["replay"], FILE, 8, 0),
        (&["help"], FILE, 0, 3),
        (&["replay", "--help"], FILE, 20, 3),
        (&["explore"], b"", 0, 3),
        (&["explore"], b"", 50, 3),
        (&["explore"], b"", 51, 0),
        (&["explore"], TWICE, 0, 3),
        (&["explore"], TWICE, 17, 3),
        (&["explore"], TWICE, 18, 4),
    ] {
        let line = command_line(&rt, words)?;
        let mut input = file;
        let mut output = narrow(&rt, room);
        let mut errors = Vec::new(rt.alloc());
        let ended = program(&rt, line.as_slice(), &mut input, &mut output, &mut errors);
        same(
            &rt,
            &(words, file, room, ended),
            &(words, file, room, status),
        );
        same(
            &rt,
            &(words, file, output.taken.len()),
            &(words, file, room),
        );
        let expected = if status == 3 {
            CANNOT_WRITE
        } else {
            b"".as_slice()
        };
        same(
            &rt,
            &(words, room, errors.as_slice()),
            &(words, room, expected),
        );
    }
    Ok(())
}

/// What the program says where standard error takes a byte at a time, and no more than there is room for, and standard
/// output takes none: its exit status, and what standard error has.
fn told<H: Files + AllocGlobal + Threads + Wait + Clock + Sync>(
    rt: &H,
    words: &[&str],
    mut file: &[u8],
    room: usize,
) -> Result<(u8, Vec<u8>), Fail> {
    let words = command_line(rt, words)?;
    let mut output = narrow(rt, 0);
    let mut errors = narrow(rt, room);
    let status = program(rt, words.as_slice(), &mut file, &mut output, &mut errors);
    Ok((status, errors.taken))
}

#[test]
fn a_failed_write_to_standard_error_cuts_the_message_off(rt: HostRuntime) -> Result<(), Fail> {
    let refused = b"tracer: line 1: UnknownWord\n".as_slice();
    for (words, file, status, message) in [
        (["replay"].as_slice(), b"row\n".as_slice(), 1, refused),
        (&["trace"], FILE, 2, NO_COMMAND),
        (
            &["run", "-f", "-e", "pause"],
            b"",
            2,
            b"tracer: unknown call pause\n",
        ),
        (&["replay"], FILE, 3, CANNOT_WRITE),
    ] {
        for room in 0..=message.len() {
            let (ended, errors) = told(&rt, words, file, room)?;
            same(&rt, &(words, room, ended), &(words, room, status));
            same(
                &rt,
                &(words, Some(errors.as_slice())),
                &(words, message.get(..room)),
            );
        }
    }
    Ok(())
}

#[test]
fn arguments_that_cannot_be_had_are_reported(rt: HostRuntime) {
    for (kind, status, text) in [
        (
            ErrorKind::InvalidData,
            2,
            "tracer: an argument is not valid UTF-8\n",
        ),
        (ErrorKind::OutOfMemory, 3, "tracer: no memory\n"),
    ] {
        let mut output = Vec::new(rt.alloc());
        let mut errors = Vec::new(rt.alloc());
        let ended = process(
            &rt,
            Err(io::Error::from(kind)),
            &mut FILE,
            &mut output,
            &mut errors,
        );
        same(&rt, &ended, &status);
        assert!(rt; output.is_empty());
        same(&rt, &(kind, errors.as_slice()), &(kind, text.as_bytes()));
    }
}
