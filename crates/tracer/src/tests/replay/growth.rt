//! Each growth of a replay refused in turn.

use crate::tests::compare::same;
use crate::tests::replay::{FILE, REPLIES};
use refusing_allocator::RefusingAllocator;
use tracer_cli::{CaseError, Cause, replay_text};

/// More than a replay has growths.
const MOST: u64 = 20;

/// A thread is created and its leader exits last.
const THREAD: &[u8] =
    b"row 100 100 77 0\nrow 101 100 77 100\npublish 101 start\npublish 100 start\n\
                        claim 100 0\nresume 100 1 syscall 0\nresume 100 0 syscall 0\npublish 100 clone 101\n\
                        state 101\nclaim 100 0\nresume 100 0 cont 0\npublish 100 clone 101\n\
                        exit 100 exited 3\nexit 101 exited 0\nexit 100 exited 3\nclaim 100 2\nstate 100\n\
                        claim 100 0\n";

/// What that replay prints.
const THREAD_REPLIES: &[u8] =
    b"refused Unborn\npublished 1\nstop 1 0x80057f\nrefused NotHolder\nresumed\n\
                                published 2\nrunning\nstop 2 0x03057f\nresumed\nrefused NotNext\n\
                                refused GroupAlive 101\nexited\nexited\nended 2 0x000300\nreaped\n\
                                refused NotWaitable\n";

/// An accepted file, what is printed of it, the lines at which something grows while it is read, its last line, and how
/// many growths come after that. The first row makes room for a few more, and the first command for all that may follow.
/// After the last line grow the World's rows, words and words last seen, and the text where there is one.
type Accepted = (&'static [u8], &'static [u8], &'static [u32], u32, usize);

const ACCEPTED: [Accepted; 6] = [
    (FILE, REPLIES, &[1, 2], 5, 4),
    (THREAD, THREAD_REPLIES, &[1, 3], 18, 4),
    (
        b"# one thread\n\nrow 7 7 7 0\n  # and no command\n",
        b"",
        &[3],
        4,
        3,
    ),
    (b"\nrow 7 7 7 0\nstate 7", b"running\n", &[2, 3], 3, 4),
    (
        b"row 7 7 7 0\nstate 7\n\n\n# the end",
        b"running\n",
        &[1, 2],
        5,
        4,
    ),
    (b"row 7 7 7 0\nstate 7\n\n\n", b"running\n", &[1, 2], 4, 4),
];

#[test]
fn a_refused_growth_is_reported_at_the_line_that_was_read(rt: HostRuntime) {
    for (file, replies, reading, last, after) in ACCEPTED {
        let mut refusals = 0usize;
        for granted in 0..MOST {
            let heap = RefusingAllocator::new(rt.alloc(), granted);
            match replay_text(&heap, file) {
                Ok(text) => {
                    same(&rt, &text.as_slice(), &replies);
                    same(&rt, &(granted, !heap.has_refused()), &(granted, true));
                    break;
                }
                Err(fault) => {
                    // After the last line has been read, its number stands for what is done with the whole file.
                    let line = reading.get(refusals).copied().unwrap_or(last);
                    let cause = Cause::NoMemory;
                    same(
                        &rt,
                        &(granted, fault),
                        &(granted, CaseError { line, cause }),
                    );
                    same(&rt, &(granted, heap.has_refused()), &(granted, true));
                    refusals = refusals.wrapping_add(1);
                }
            }
        }
        same(
            &rt,
            &(last, refusals),
            &(last, reading.len().wrapping_add(after)),
        );
    }
}

#[test]
fn an_empty_file_grows_nothing(rt: HostRuntime) {
    let heap = RefusingAllocator::new(rt.alloc(), 0);
    for file in [b"".as_slice(), b"\n", b"# nothing\n\n"] {
        match replay_text(&heap, file) {
            Ok(text) => assert!(rt; text.is_empty()),
            Err(error) => same(&rt, &Some(error), &None),
        }
    }
    assert!(rt; !heap.has_refused());
}

/// Faulty files, the lines at which something grows before the fault, and the fault.
const FAULTY: [(&[u8], &[u32], u32, Cause); 7] = [
    (b"# nothing\nstate 100\n", &[], 2, Cause::NoSuchTracee),
    (b"rows\nrow 7 7 7 0\n", &[], 1, Cause::UnknownWord),
    (b"row 7 7 7 0\nrow 7 7 7 0\n", &[1], 2, Cause::TwiceTracee),
    (b"row 7 7 7 0\n\nrow 8 8 7 9\n", &[1], 3, Cause::ParentLater),
    (b"row 7 7 7 0\nclaim 7 16\n", &[1], 2, Cause::BadNumber),
    (
        b"row 7 7 7 0\nstate 7\nstate 8\n",
        &[1, 2],
        3,
        Cause::NoSuchTracee,
    ),
    (
        b"row 7 7 7 0\nstate 7\nrow 8 8 8 0\n",
        &[1, 2],
        3,
        Cause::UnknownWord,
    ),
];

#[test]
fn a_faulty_line_is_found_before_a_later_growth(rt: HostRuntime) {
    for (file, reading, line, cause) in FAULTY {
        for granted in 0..MOST {
            let heap = RefusingAllocator::new(rt.alloc(), granted);
            let expected = match reading.get(granted as usize) {
                Some(line) => CaseError {
                    line: *line,
                    cause: Cause::NoMemory,
                },
                None => CaseError { line, cause },
            };
            same(
                &rt,
                &(granted, replay_text(&heap, file).err()),
                &(granted, Some(expected)),
            );
            same(
                &rt,
                &heap.has_refused(),
                &(expected.cause == Cause::NoMemory),
            );
        }
    }
}
