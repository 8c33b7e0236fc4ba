//! Folders over rows that were worked out by hand, in all orders of arrival.

ghost use Rattle.std.specs.Prelude.{◌+◌, ◌<◌, ◌^◌};

use crate::call::parts::{CallEnd, CallStart};
use crate::piece::note::Note;
use crate::tests::compare::{holds, same};
use crate::{FoldError, Folder, Piece, death_piece};
use std::alloc::{AllocError, Allocator};
use std::test::Fail;
use stop_history::{Roster, Row};
use trace_record::Death;

/// A root that leads its own thread group.
pub const fn root(tid: u32) -> Row {
    Row {
        tid,
        tgid: tid,
        pgid: tid,
        parent: 0,
    }
}

/// The piece of a stop.
fn stop<A: Allocator>(tid: u32, number: u32, note: Note<A>) -> Piece<A> {
    Piece::stopped(tid, number, note)
}

/// The start of a call that is printed, up to its result.
fn start<A: Allocator + Copy>(
    alloc: A,
    number: u64,
    line: &str,
) -> Result<CallStart<A>, AllocError> {
    let mut text = Vec::from_slice(alloc, line.as_bytes())?;
    let gap = text.len();
    text.extend_from_slice(b" = ")?;
    Ok(CallStart::printed(number, text, gap, None))
}

/// The end of a call, of which no bytes come out.
fn end<A: Allocator + Copy>(alloc: A, number: u64, value: &str) -> Result<CallEnd<A>, AllocError> {
    let text = Vec::from_slice(alloc, value.as_bytes())?;
    Ok(CallEnd::new(number, text, None))
}

fn signal<A: Allocator + Copy>(alloc: A, line: &str) -> Result<Note<A>, AllocError> {
    Ok(Note::Signal(Vec::from_slice(alloc, line.as_bytes())?))
}

fn getpid<A: Allocator + Copy>(alloc: A) -> Result<CallStart<A>, AllocError> {
    start(alloc, 39, "100 getpid()")
}

/// What stands at the entry and at the end of the call of a row.
#[derive(Clone, Copy)]
pub enum Middle {
    /// A syscall-enter-stop and a syscall-exit-stop.
    Pair,
    /// Two syscall-enter-stops.
    Enters,
    /// Two seccomp stops.
    Seccomps,
}

impl Middle {
    fn first<A: Allocator + Copy>(self, alloc: A) -> Result<Note<A>, AllocError> {
        let call = getpid(alloc)?;
        Ok(match self {
            Middle::Pair | Middle::Enters => Note::Enter(call),
            Middle::Seccomps => Note::Seccomp(call),
        })
    }

    fn second<A: Allocator + Copy>(self, alloc: A) -> Result<Note<A>, AllocError> {
        Ok(match self {
            Middle::Pair => Note::Exit(end(alloc, 39, "100")?),
            Middle::Enters => Note::Enter(getpid(alloc)?),
            Middle::Seccomps => Note::Seccomp(getpid(alloc)?),
        })
    }

    /// The lines of the row.
    pub fn text(self) -> &'static str {
        match self {
            Middle::Pair => "100 getpid() = 100\n100 --- SIGUSR1 ---\n100 +++ exited with 0 +++\n",
            _ => "100 --- SIGUSR1 ---\n100 getpid() = ?\n100 +++ exited with 0 +++\n",
        }
    }

    /// The piece of a stop of the row, 1 to 4, or its death, 0.
    pub fn piece<A: Allocator + Copy>(self, alloc: A, number: u32) -> Result<Piece<A>, AllocError> {
        Ok(match number {
            1 => stop(100, 1, Note::Quiet),
            2 => stop(100, 2, self.first(alloc)?),
            3 => stop(100, 3, signal(alloc, "100 --- SIGUSR1 ---\n")?),
            4 => stop(100, 4, self.second(alloc)?),
            _ => death_piece(100, 4, Death::Exited(0)),
        })
    }
}

/// One of the 120 orders of 0 to 4.
pub fn order(which: u32) -> [u32; 5] {
    let mut left = [0, 1, 2, 3, 4];
    let mut order = [0; 5];
    let mut code = which;
    for done in 0..5usize {
        let size = 5 - done;
        let pick = code as usize % size;
        code /= size as u32;
        order[done] = left[pick];
        left[pick] = left[size - 1];
    }
    order
}

#[test]
fn a_row_has_its_lines_in_whatever_order_its_pieces_come(rt: HostRuntime) -> Result<(), Fail> {
    let alloc = rt.alloc();
    let roster = Roster::new(alloc, &[root(100)])?;
    for middle in [Middle::Pair, Middle::Enters, Middle::Seccomps] {
        for which in 0..120 {
            let mut folder = Folder::new(alloc, &roster)?;
            for number in order(which) {
                let added = folder.add(middle.piece(alloc, number)?);
                same(&rt, &added, &Ok(()));
            }
            let text = folder.finish()?;
            same(&rt, &text.as_bytes(), &middle.text().as_bytes());
        }
    }
    Ok(())
}

/// The lines of a row that a signal kills.
pub const KILLED_TEXT: &str = "200 --- SIGTERM ---\n200 +++ killed by SIGTERM +++\n";

/// A start, a signal that kills, and the death.
pub fn killed<A: Allocator + Copy>(alloc: A, number: u32) -> Result<Piece<A>, AllocError> {
    Ok(match number {
        1 => stop(200, 1, Note::Quiet),
        2 => stop(200, 2, signal(alloc, "200 --- SIGTERM ---\n")?),
        _ => death_piece(
            200,
            2,
            Death::Signaled {
                signal: 15,
                core: false,
            },
        ),
    })
}

#[test]
fn a_killed_row_has_its_lines(rt: HostRuntime) -> Result<(), Fail> {
    let alloc = rt.alloc();
    let roster = Roster::new(alloc, &[root(200)])?;
    let mut folder = Folder::new(alloc, &roster)?;
    for number in [0, 2, 1] {
        same(&rt, &folder.add(killed(alloc, number)?), &Ok(()));
    }
    same(&rt, &folder.add(killed(alloc, 2)?), &Err(FoldError::Twice));
    same(
        &rt,
        &folder.add(stop(999, 1, Note::Quiet)),
        &Err(FoldError::Stranger),
    );
    let text = folder.finish()?;
    same(&rt, &text.as_bytes(), &KILLED_TEXT.as_bytes());
    Ok(())
}

#[test]
fn what_is_missing_is_lost(rt: HostRuntime) -> Result<(), Fail> {
    let alloc = rt.alloc();
    let roster = Roster::new(alloc, &[root(200)])?;
    for (numbers, lost) in [
        ([0, 2].as_slice(), 1),
        (&[2, 1], 3),
        (&[0, 1], 2),
        (&[0], 1),
        (&[2], 1),
        (&[], 1),
    ] {
        let mut folder = Folder::new(alloc, &roster)?;
        for number in numbers {
            same(&rt, &folder.add(killed(alloc, *number)?), &Ok(()));
        }
        match folder.finish() {
            Ok(_) => holds(&rt, false, "a text"),
            Err(fault) => same(
                &rt,
                &fault,
                &FoldError::Lost {
                    row: 0,
                    number: lost,
                },
            ),
        }
    }
    Ok(())
}

#[test]
fn a_piece_is_refused_by_its_number(rt: HostRuntime) -> Result<(), Fail> {
    let alloc = rt.alloc();
    let roster = Roster::new(alloc, &[root(200)])?;
    let died = |number| death_piece(200, number, Death::Exited(0));
    let mut folder = Folder::new(alloc, &roster)?;
    same(
        &rt,
        &folder.add(stop(200, 0, Note::Quiet)),
        &Err(FoldError::Stranger),
    );
    same(&rt, &folder.add(stop(200, 3, Note::Quiet)), &Ok(()));
    same(&rt, &folder.add(died(2)), &Err(FoldError::Stranger));
    same(&rt, &folder.add(died(4)), &Ok(()));
    same(&rt, &folder.add(died(4)), &Err(FoldError::Twice));
    same(
        &rt,
        &folder.add(stop(200, 5, Note::Quiet)),
        &Err(FoldError::Stranger),
    );
    same(
        &rt,
        &folder.add(stop(200, 3, Note::Quiet)),
        &Err(FoldError::Twice),
    );
    same(&rt, &folder.add(stop(200, 1, Note::Quiet)), &Ok(()));
    same(
        &rt,
        &folder.add(stop(200, 1, Note::Quiet)),
        &Err(FoldError::Twice),
    );
    Ok(())
}

const CHILD: Row = Row {
    tid: 101,
    tgid: 100,
    pgid: 77,
    parent: 100,
};

const PARENT: Row = Row {
    tid: 100,
    tgid: 100,
    pgid: 77,
    parent: 0,
};

#[test]
fn a_child_that_was_created_must_be_whole(rt: HostRuntime) -> Result<(), Fail> {
    let alloc = rt.alloc();
    let roster = Roster::new(alloc, &[PARENT, CHILD])?;
    let mut folder = Folder::new(alloc, &roster)?;
    same(
        &rt,
        &folder.add(death_piece(100, 1, Death::Exited(3))),
        &Ok(()),
    );
    same(&rt, &folder.add(stop(100, 1, Note::Birth(101))), &Ok(()));
    match folder.finish() {
        Ok(_) => holds(&rt, false, "a text"),
        Err(fault) => same(&rt, &fault, &FoldError::Lost { row: 1, number: 1 }),
    }
    let mut folder = Folder::new(alloc, &roster)?;
    same(
        &rt,
        &folder.add(death_piece(
            101,
            0,
            Death::Signaled {
                signal: 11,
                core: true,
            },
        )),
        &Ok(()),
    );
    same(&rt, &folder.add(stop(100, 1, Note::Birth(101))), &Ok(()));
    same(
        &rt,
        &folder.add(death_piece(
            100,
            1,
            Death::Signaled {
                signal: 33,
                core: false,
            },
        )),
        &Ok(()),
    );
    let text = folder.finish()?;
    let lines = "100 +++ killed by SIG_33 +++\n101 +++ killed by SIGSEGV (core dumped) +++\n";
    same(&rt, &text.as_bytes(), &lines.as_bytes());
    Ok(())
}

#[test]
fn a_child_that_was_not_created_has_no_line(rt: HostRuntime) -> Result<(), Fail> {
    let alloc = rt.alloc();
    let roster = Roster::new(alloc, &[PARENT, CHILD])?;
    let mut folder = Folder::new(alloc, &roster)?;
    same(
        &rt,
        &folder.add(death_piece(100, 0, Death::Exited(255))),
        &Ok(()),
    );
    let text = folder.finish()?;
    same(
        &rt,
        &text.as_bytes(),
        &b"100 +++ exited with 255 +++\n".as_slice(),
    );
    Ok(())
}

/// The start of read(2) at an address, with the number of another call or its own.
fn read_start<A: Allocator + Copy>(alloc: A, number: u64) -> Result<CallStart<A>, AllocError> {
    let text = Vec::from_slice(alloc, b"100 read(0, , 2) = 0x10000")?;
    Ok(CallStart::printed(number, text, 12, Some(19)))
}

/// The end of a read(2) that has read two bytes.
fn read_end<A: Allocator + Copy>(alloc: A) -> Result<CallEnd<A>, AllocError> {
    let text = Vec::from_slice(alloc, b"2\"hi\"")?;
    Ok(CallEnd::new(0, text, Some(1)))
}

/// Adds the start and the end of a read(2) of thread 100; whether both were taken.
fn add_read<A: Allocator + Copy>(
    alloc: A,
    folder: &mut Folder<A>,
    number: u32,
    call: CallStart<A>,
) -> Result<bool, AllocError>
    requires { number + 1 < 2 ^ 32 }
{
    let done = read_end(alloc)?;
    let starts = folder.add(stop(100, number, Note::Enter(call))).is_ok();
    let ends = folder.add(stop(100, number + 1, Note::Exit(done))).is_ok();
    Ok(starts && ends)
}

/// The bytes that come out of read(2), and those of a call with another number.
#[test]
fn bytes_come_out_of_their_own_call(rt: HostRuntime) -> Result<(), Fail> {
    let alloc = rt.alloc();
    let roster = Roster::new(alloc, &[root(100)])?;
    let mut folder = Folder::new(alloc, &roster)?;
    assert!(rt; add_read(alloc, &mut folder, 1, read_start(alloc, 0)?)?);
    assert!(rt; add_read(alloc, &mut folder, 3, read_start(alloc, 1)?)?);
    assert!(rt; add_read(alloc, &mut folder, 5, CallStart::hidden(alloc, 0))?);
    same(
        &rt,
        &folder.add(death_piece(100, 6, Death::Exited(0))),
        &Ok(()),
    );
    let text = folder.finish()?;
    let lines =
        "100 read(0, \"hi\", 2) = 2\n100 read(0, 0x10000, 2) = 2\n100 +++ exited with 0 +++\n";
    same(&rt, &text.as_bytes(), &lines.as_bytes());
    Ok(())
}

/// A stop waits for all those before it, and a death lacks all its stops, also where the number is the greatest that
/// there is.
#[test]
fn a_piece_may_have_any_number(rt: HostRuntime) -> Result<(), Fail> {
    let alloc = rt.alloc();
    let roster = Roster::new(alloc, &[root(100)])?;
    for first in [u32::MAX, 16_777_216] {
        let mut folder = Folder::new(alloc, &roster)?;
        let line = signal(alloc, "100 --- SIGUSR1 ---\n")?;
        same(&rt, &folder.add(stop(100, first, line)), &Ok(()));
        same(&rt, &folder.add(stop(100, 1, Note::Quiet)), &Ok(()));
        let below = first.saturating_sub(1);
        same(
            &rt,
            &folder.add(death_piece(100, below, Death::Exited(0))),
            &Err(FoldError::Stranger),
        );
        same(
            &rt,
            &folder.add(stop(100, first, Note::Quiet)),
            &Err(FoldError::Twice),
        );
        let lost = FoldError::Lost { row: 0, number: 2 };
        same(&rt, &folder.finish().err(), &Some(lost));
    }
    let mut folder = Folder::new(alloc, &roster)?;
    same(
        &rt,
        &folder.add(death_piece(100, u32::MAX, Death::Exited(0))),
        &Ok(()),
    );
    let lost = FoldError::Lost { row: 0, number: 1 };
    same(&rt, &folder.finish().err(), &Some(lost));
    Ok(())
}

/// How many stops come in falling order.
const FALLING: u32 = 300;

#[test]
fn stops_that_come_far_too_early_are_kept(rt: HostRuntime) -> Result<(), Fail> {
    let alloc = rt.alloc();
    let roster = Roster::new(alloc, &[root(100)])?;
    let mut folder = Folder::new(alloc, &roster)?;
    let line = "100 --- SIGUSR1 ---\n";
    let mut expected = Vec::new(alloc);
    for before in 0..FALLING {
        expected.extend_from_slice(line.as_bytes())?;
        let note = signal(alloc, line)?;
        same(&rt, &folder.add(stop(100, FALLING - before, note)), &Ok(()));
    }
    expected.extend_from_slice(b"100 +++ exited with 0 +++\n".as_slice())?;
    let death = death_piece(100, FALLING, Death::Exited(0));
    same(&rt, &folder.add(death), &Ok(()));
    let text = folder.finish()?;
    same(&rt, &text.as_bytes(), &expected.as_slice());
    Ok(())
}
