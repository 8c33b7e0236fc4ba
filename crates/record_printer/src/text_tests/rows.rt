//! The texts of whole traces, from the records of their stops.

use super::{Call, Scene, memory, stopped};
use crate::tests::compare::same;
use crate::{FoldError, Folder, Show, Text, death_piece, piece_of};
use std::alloc::Global;
use std::test::Fail;
use stop_history::{Roster, Row};
use trace_options::CallSet;
use trace_pages::Memory;
use trace_record::{Death, Stop};

/// A stop: its thread, its number, what it is, and the call at it.
#[derive(Clone, Copy)]
struct Made(u32, u32, Stop, Call<'static>);

/// A call with these arguments and this answer.
const fn call(number: u64, args: [u64; 3], answer: i64) -> Call<'static> {
    Call(number, args, answer, "")
}

/// No call.
const NONE: Call<'static> = Call(u64::MAX, [0, 0, 0], 0, "");

const WRITE: Call<'static> = Call(1, [1, 0x10000, 3], 3, "");

/// The answer of a fork or a clone is its child.
const FORK: Call<'static> = Call(57, [0, 0, 0], 101, "");

const CLONE: Call<'static> = Call(56, [0x10900, 0, 0], 101, "");

/// Adds the pieces of stops with this memory.
fn add(
    folder: &mut Folder,
    alloc: Global,
    show: &Show,
    memory: &Memory,
    stops: &[Made],
) -> Result<(), FoldError> {
    for Made(tid, number, stop, call) in stops {
        let mut record = stopped(*stop, call, memory.copy()?);
        record.tid = *tid;
        record.number = *number;
        folder.add(piece_of(alloc, &record, show)?)?;
    }
    Ok(())
}

/// The text of stops with this memory, and of deaths: of each its thread, and the number of the last stop.
fn text_of(
    alloc: Global,
    roster: &Roster,
    show: &Show,
    scene: &Scene<'_>,
    stops: &[Made],
    deaths: &[(u32, u32, Death)],
) -> Result<Text, FoldError> {
    let mut folder = Folder::new(alloc, roster)?;
    if let Some(memory) = memory(alloc, scene) {
        add(&mut folder, alloc, show, &memory, stops)?;
    }
    for (tid, number, death) in deaths {
        folder.add(death_piece(*tid, *number, *death))?;
    }
    folder.finish()
}

/// A page that begins with "hi" and a line feed.
const HI: Scene<'static> = Scene {
    pages: &[0x10000],
    stores: &[(0x10000, b"hi\n")],
    filled: &[],
};

/// A process that leads its group, and its child.
const FAMILY: [Row; 2] = [
    Row {
        tid: 100,
        tgid: 100,
        pgid: 77,
        parent: 0,
    },
    Row {
        tid: 101,
        tgid: 101,
        pgid: 77,
        parent: 100,
    },
];

/// The stops of a write, a fork and an exit, and of the exit of the child, in the order of their numbers.
const FORKS: [Made; 9] = [
    Made(101, 1, Stop::Start, NONE),
    Made(101, 2, Stop::Enter, Call(60, [0, 0, 0], 0, "")),
    Made(100, 1, Stop::Start, NONE),
    Made(100, 2, Stop::Enter, WRITE),
    Made(100, 3, Stop::Exit, WRITE),
    Made(100, 4, Stop::Enter, FORK),
    Made(100, 5, Stop::Fork(101), FORK),
    Made(100, 6, Stop::Exit, FORK),
    Made(100, 7, Stop::Enter, Call(60, [3, 0, 0], 0, "")),
];

/// The same stops where a filter stops write alone.
const FILTERED: [Made; 5] = [
    Made(100, 1, Stop::Start, NONE),
    Made(100, 2, Stop::Seccomp(0), WRITE),
    Made(100, 3, Stop::Exit, WRITE),
    Made(100, 4, Stop::Fork(101), FORK),
    Made(101, 1, Stop::Start, NONE),
];

fn of_calls(limit: u32, calls: CallSet) -> Show {
    Show { limit, calls }
}

fn write_alone() -> CallSet {
    let mut calls = CallSet::none();
    calls.add(1);
    calls
}

/// The lines of the write, the fork and the exits.
pub(crate) const FORK_TEXT: &str =
    "100 write(1, \"hi\\n\", 3) = 3\n100 fork() = 101\n100 exit(3) = ?\n100 +++ exited with 3 +++\n\
    101 exit(0) = ?\n101 +++ exited with 0 +++\n";

/// The deaths after these stops, and after those with the filter.
const PLAIN_DEATHS: [(u32, u32, Death); 2] = [
    (100, 7, Death::Exited(3)),
    (101, 2, Death::Exited(0)),
];

const FILTERED_DEATHS: [(u32, u32, Death); 2] = [
    (100, 4, Death::Exited(3)),
    (101, 1, Death::Exited(0)),
];

/// The text of the write, the fork and the exits.
pub(crate) fn fork_text(alloc: Global) -> Result<Text, Fail> {
    let roster = Roster::new(alloc, &FAMILY)?;
    let all = of_calls(32, CallSet::all());
    Ok(text_of(alloc, &roster, &all, &HI, &FORKS, &PLAIN_DEATHS)?)
}

#[test]
fn a_fork_is_printed_with_and_without_a_filter(rt: HostRuntime) -> Result<(), Fail> {
    let alloc = rt.alloc();
    same(&rt, &fork_text(alloc)?.as_bytes(), &FORK_TEXT.as_bytes());
    let roster = Roster::new(alloc, &FAMILY)?;
    let short = of_calls(2, CallSet::all());
    let writes = of_calls(32, write_alone());
    let made = text_of(alloc, &roster, &short, &HI, &FORKS, &PLAIN_DEATHS)?;
    let line =
        "100 write(1, \"hi\"..., 3) = 3\n100 fork() = 101\n100 exit(3) = ?\n100 +++ exited with 3 +++\n\
        101 exit(0) = ?\n101 +++ exited with 0 +++\n";
    same(&rt, &made.as_bytes(), &line.as_bytes());
    let line =
        "100 write(1, \"hi\\n\", 3) = 3\n100 +++ exited with 3 +++\n101 +++ exited with 0 +++\n";
    let made = text_of(alloc, &roster, &writes, &HI, &FORKS, &PLAIN_DEATHS)?;
    same(&rt, &made.as_bytes(), &line.as_bytes());
    let made = text_of(alloc, &roster, &writes, &HI, &FILTERED, &FILTERED_DEATHS)?;
    same(&rt, &made.as_bytes(), &line.as_bytes());
    Ok(())
}

#[test]
fn a_thread_is_printed(rt: HostRuntime) -> Result<(), Fail> {
    let alloc = rt.alloc();
    let mut rows = FAMILY;
    rows[1].tgid = 100;
    let roster = Roster::new(alloc, &rows)?;
    let all = of_calls(32, CallSet::all());
    let stops = [
        Made(100, 1, Stop::Start, NONE),
        Made(100, 2, Stop::Enter, CLONE),
        Made(100, 3, Stop::Clone(101), CLONE),
        Made(100, 4, Stop::Exit, CLONE),
        Made(100, 5, Stop::Enter, call(60, [3, 0, 0], 0)),
        Made(101, 1, Stop::Start, NONE),
        Made(101, 2, Stop::Enter, call(39, [0, 0, 0], 100)),
        Made(101, 3, Stop::Exit, call(39, [0, 0, 0], 100)),
        Made(101, 4, Stop::Enter, call(60, [0, 0, 0], 0)),
    ];
    let deaths = [(101, 4, Death::Exited(0)), (100, 5, Death::Exited(3))];
    let made = text_of(alloc, &roster, &all, &HI, &stops, &deaths)?;
    let text = "100 clone(0x10900) = 101\n100 exit(3) = ?\n100 +++ exited with 3 +++\n\
        101 getpid() = 100\n101 exit(0) = ?\n101 +++ exited with 0 +++\n";
    same(&rt, &made.as_bytes(), &text.as_bytes());
    Ok(())
}

/// The only row of a trace.
fn alone(tid: u32) -> Row {
    Row {
        tid,
        tgid: tid,
        pgid: tid,
        parent: 0,
    }
}

#[test]
fn a_signal_is_printed_before_what_follows_it(rt: HostRuntime) -> Result<(), Fail> {
    let alloc = rt.alloc();
    let roster = Roster::new(alloc, &[alone(200)])?;
    let all = of_calls(32, CallSet::all());
    let stops = [
        Made(200, 1, Stop::Start, NONE),
        Made(200, 2, Stop::Signal(15), NONE),
        Made(200, 3, Stop::Enter, call(60, [0, 0, 0], 0)),
    ];
    let term = Death::Signaled {
        signal: 15,
        core: false,
    };
    let made = text_of(alloc, &roster, &all, &HI, &stops[..2], &[(200, 2, term)])?;
    let text = "200 --- SIGTERM ---\n200 +++ killed by SIGTERM +++\n";
    same(&rt, &made.as_bytes(), &text.as_bytes());
    let made = text_of(
        alloc,
        &roster,
        &all,
        &HI,
        &stops,
        &[(200, 3, Death::Exited(0))],
    )?;
    let text = "200 --- SIGTERM ---\n200 exit(0) = ?\n200 +++ exited with 0 +++\n";
    same(&rt, &made.as_bytes(), &text.as_bytes());
    Ok(())
}

/// Two pages, with two iovecs; and the same once a read has stored its bytes.
const BEFORE: Scene<'static> = Scene {
    pages: &[0x10000, 0x11000],
    stores: &[(0x10ffe, b"ab"), (0x10100, &IOVECS), (0x10000, b"abc")],
    filled: &[],
};

const AFTER: Scene<'static> = Scene {
    pages: &[0x10000, 0x11000],
    stores: &[
        (0x10ffe, b"ab"),
        (0x10100, &IOVECS),
        (0x10000, b"hi\t\n\xff"),
    ],
    filled: &[],
};

/// 2 bytes at 0x10000, and one at 0x10002.
const IOVECS: [u8; 32] = [
    0, 0, 1, 0, 0, 0, 0, 0, 2, 0, 0, 0, 0, 0, 0, 0, 2, 0, 1, 0, 0, 0, 0, 0, 1, 0, 0, 0, 0, 0, 0, 0,
];

#[test]
fn bytes_are_printed_as_they_were_at_the_stops(rt: HostRuntime) -> Result<(), Fail> {
    let alloc = rt.alloc();
    let roster = Roster::new(alloc, &[alone(300)])?;
    let all = of_calls(32, CallSet::all());
    let chdir = call(80, [0x10ffe, 0, 0], -2);
    let writev = call(20, [1, 0x10100, 2], 3);
    let read = call(0, [0, 0x10000, 16], 5);
    let rename = call(82, [0x10ffe, 0x50000, 0], 0);
    let before = [
        Made(300, 1, Stop::Start, NONE),
        Made(300, 2, Stop::Enter, chdir),
        Made(300, 3, Stop::Exit, chdir),
        Made(300, 4, Stop::Enter, writev),
        Made(300, 5, Stop::Exit, writev),
        Made(300, 6, Stop::Enter, read),
    ];
    let after = [
        Made(300, 7, Stop::Exit, read),
        Made(300, 8, Stop::Enter, rename),
        Made(300, 9, Stop::Exit, rename),
    ];
    let mut folder = Folder::new(alloc, &roster)?;
    let scenes = (memory(alloc, &BEFORE), memory(alloc, &AFTER));
    if let (Some(old), Some(new)) = &scenes {
        add(&mut folder, alloc, &all, new, &after)?;
        add(&mut folder, alloc, &all, old, &before)?;
    }
    folder.add(death_piece(300, 9, Death::Exited(0)))?;
    let made = folder.finish()?;
    let text = "300 chdir(\"ab\") = -1 ENOENT\n\
        300 writev(1, [{iov_base=\"ab\", iov_len=2}, {iov_base=\"c\", iov_len=1}], 2) = 3\n\
        300 read(0, \"hi\\t\\n\\377\", 16) = 5\n\
        300 rename(\"ab\", 0x50000) = 0\n\
        300 +++ exited with 0 +++\n";
    same(&rt, &made.as_bytes(), &text.as_bytes());
    Ok(())
}

/// The memory of a program, and that of the one that replaces it.
const PATH: Scene<'static> = Scene {
    pages: &[0x10000],
    stores: &[(0x10000, b"/x\0")],
    filled: &[],
};

const REPLACED: Scene<'static> = Scene {
    pages: &[0x20000],
    stores: &[],
    filled: &[],
};

#[test]
fn an_execve_is_printed_by_the_memory_before_it(rt: HostRuntime) -> Result<(), Fail> {
    let alloc = rt.alloc();
    let roster = Roster::new(alloc, &[alone(400)])?;
    let all = of_calls(32, CallSet::all());
    let execve = call(59, [0x10000, 0, 0], 0);
    let unlink = call(87, [0x20000, 0, 0], 0);
    let before = [
        Made(400, 1, Stop::Start, NONE),
        Made(400, 2, Stop::Enter, execve),
    ];
    let after = [
        Made(400, 3, Stop::Exec(400), execve),
        Made(400, 4, Stop::Exit, execve),
        Made(400, 5, Stop::Enter, unlink),
        Made(400, 6, Stop::Exit, unlink),
        Made(400, 7, Stop::Enter, call(60, [0, 0, 0], 0)),
    ];
    let mut folder = Folder::new(alloc, &roster)?;
    let scenes = (memory(alloc, &PATH), memory(alloc, &REPLACED));
    if let (Some(old), Some(new)) = &scenes {
        add(&mut folder, alloc, &all, new, &after)?;
        add(&mut folder, alloc, &all, old, &before)?;
    }
    folder.add(death_piece(400, 7, Death::Exited(0)))?;
    let made = folder.finish()?;
    let text = "400 execve(\"/x\", NULL, NULL) = 0\n400 unlink(\"\") = 0\n400 exit(0) = ?\n\
        400 +++ exited with 0 +++\n";
    same(&rt, &made.as_bytes(), &text.as_bytes());
    Ok(())
}
