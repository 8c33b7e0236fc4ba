//! The threads of the rounds. Each goes over the rows of its cells, the last one first, and does at each row what its
//! thread of the program does. Where it has to wait, it tries for a while, then leaves the row for later and goes on.
//! So threads that run at once race for each row, and one that does not run is waited for once for all rows.

use crate::explored::programs::{CODE, DEATH, LOOKER, TRACEE, WAITER};
use std::alloc::{AllocError, Global};
use std::sync::Wait;
use std::sync::atomic::{AtomicU32, Ordering};
use std::thread;
use stop_board::{Got, Refused};
use stop_program::Answer;
use stop_table::Shown;
use test_support::{Answer as Claimed, AtRest, Desk};
use trace_record::Stop;

/// The raw statuses of `Stop::Start`, which is `PTRACE_EVENT_STOP` above `SIGTRAP` above 0x7f, and of `DEATH`.
const STARTED: u32 = 0x80057f;

const EXITED: u32 = 0x300;

/// How often a thread looks whether the others have come to a round too, before it begins the round.
const LOOKS: u32 = 128;

/// How many lengths a pause may have, the first of them none, and how many looks the next longer one has more.
const LENGTHS: u32 = 32;

const PAUSE: u32 = 32;

/// How often a thread tries what it waits for at a row, before it leaves the row for later, at most.
const TRIES: u32 = 64;

/// How often a thread tries at the next row, by whether it waited in vain at the last one: less and less often, while
/// the others do not run.
fn tries_after(tries: u32, in_vain: bool) -> u32 {
    if !in_vain {
        TRIES
    } else if tries > 1 {
        tries / 2
    } else {
        1
    }
}

/// Where threads meet before each round.
#[derive(Drop)]
pub(crate) struct Line {
    here: AtomicU32,
    threads: u32,
}

impl Line {
    pub(crate) fn new(threads: u32) -> Line {
        Line {
            here: AtomicU32::new(0),
            threads,
        }
    }

    /// Whether the threads have come as often as if each were at this meeting, from 1.
    fn is_met(&self, meeting: u32) -> bool {
        self.here.load(Ordering::SeqCst) >= self.threads.wrapping_mul(meeting)
    }

    /// The first meeting: waits until each thread is there.
    fn wait<R: Wait>(&self, rt: &R) {
        self.here.fetch_add(1, Ordering::SeqCst);
        for _ in rt.forever() {
            if self.is_met(1) {
                return;
            }
            thread::yield_now();
        }
        unreachable!()
    }

    /// A later meeting: looks for the others for a while, so that threads that run begin a round at once.
    fn meet(&self, meeting: u32) {
        self.here.fetch_add(1, Ordering::SeqCst);
        for _ in 0..LOOKS {
            if self.is_met(meeting) {
                return;
            }
        }
    }

    /// A pause in which the others may act first. Its length goes with the number.
    fn pause(&self, number: u32) {
        for _ in 0..(number % LENGTHS).wrapping_mul(PAUSE) {
            let _here = self.here.load(Ordering::SeqCst);
        }
    }
}

/// A tracee that has published its first stop, of this number.
#[derive(Drop)]
struct Published {
    tracee: AtRest,
    number: u32,
}

/// Publishes a tracee's first stop. None: it cannot.
fn publish_first(tracee: AtRest) -> Option<Published> {
    let Ok(running) = tracee.take_up() else {
        return None;
    };
    let number = running.record.number.wrapping_add(1);
    let tracee = running.publish(Stop::Start, 0)?;
    Some(Published { tracee, number })
}

/// Ends a tracee once it is resumed: what its publish and its exit are answered. It comes back if that takes too many
/// tries.
fn try_exit(published: Published, tries: u32) -> Result<[Answer; TRACEE], Published> {
    let Published { mut tracee, number } = published;
    for _ in 0..tries {
        match tracee.take_up() {
            Ok(running) => {
                return match running.exit(CODE) {
                    Ok(_) => Ok([Answer::Number(number), Answer::Done]),
                    Err(_) => Ok([Answer::Number(number), Answer::Nothing]),
                };
            }
            Err(back) => tracee = back,
        }
    }
    Err(Published { tracee, number })
}

/// Ends a tracee, or leaves it for later.
fn end(
    published: Published,
    tries: &mut u32,
    rounds: &mut [[Answer; TRACEE]],
    left: &mut Vec<Published>,
) -> Result<(), AllocError> {
    let row = published.tracee.row as usize;
    let ended = try_exit(published, *tries);
    *tries = tries_after(*tries, ended.is_err());
    match ended {
        Ok(told) => {
            if let Some(round) = rounds.get_mut(row) {
                *round = told;
            }
        }
        Err(published) => left.push(published)?,
    }
    Ok(())
}

/// The lives of the tracees of some rows: what each is answered, in the order of the rows.
pub(crate) fn run_tracees<R: Wait>(
    rt: &R,
    alloc: Global,
    line: &Line,
    tracees: Vec<AtRest>,
) -> Result<Vec<[Answer; TRACEE]>, AllocError> {
    let mut rounds = vec![in alloc; [Answer::Nothing; TRACEE]; tracees.len()]?;
    let mut left = Vec::with_capacity(alloc, tracees.len())?;
    let (mut tries, mut meeting) = (TRIES, 1u32);
    line.wait(rt);
    for tracee in tracees {
        meeting = meeting.wrapping_add(1);
        line.meet(meeting);
        if let Some(published) = publish_first(tracee) {
            end(published, &mut tries, rounds.as_mut_slice(), &mut left)?;
        }
    }
    for _ in rt.forever() {
        if left.is_empty() {
            return Ok(rounds);
        }
        thread::yield_now();
        let mut later = Vec::with_capacity(alloc, left.len())?;
        for published in left {
            end(published, &mut tries, rounds.as_mut_slice(), &mut later)?;
        }
        left = later;
    }
    unreachable!()
}

/// What a claim that gets nothing and the resume after it are answered.
const TOO_EARLY: [Answer; 2] = [Answer::Refused(Refused::NotWaitable), Answer::Nothing];

/// What a claim and the resume after it are answered; None where the claim gets nothing.
fn told_of(claimed: Claimed) -> Option<[Answer; 2]> {
    match claimed {
        Claimed::Stop { number, .. } => {
            let got = Answer::Got(Got::Stop(number, STARTED));
            Some([got, Answer::Done])
        }
        Claimed::Ended { death, number } if death == DEATH => {
            let got = Answer::Got(Got::Ended(number, EXITED));
            Some([got, Answer::Nothing])
        }
        Claimed::Ended { .. } => None,
        Claimed::Nothing(_) => None,
    }
}

/// Waits for a row, and resumes the stop that it gets. None: it got nothing for a while.
fn try_wait(desk: &mut Desk, row: u32, tries: u32) -> Option<[Answer; 2]> {
    for _ in 0..tries {
        let claimed = desk.try_claim(row);
        if claimed == Claimed::Nothing(Shown::Reaped) {
            return Some([Answer::NoChild, Answer::Nothing]);
        }
        if let Some(told) = told_of(claimed) {
            return Some(told);
        }
    }
    None
}

/// What the tracer that claims and waits was answered at a row so far: by its claim, and by its first wait.
#[derive(Clone, Copy)]
struct Waiting {
    row: u32,
    early: [Answer; 2],
    first: Option<[Answer; 2]>,
}

/// Claims a row at once.
fn claim_early(desk: &mut Desk, row: u32) -> Waiting {
    Waiting {
        row,
        early: told_of(desk.try_claim(row)).unwrap_or(TOO_EARLY),
        first: None,
    }
}

/// Waits for a row twice. Where a wait gets nothing for a while, it answers what it knows so far.
fn wait_twice(desk: &mut Desk, waiting: Waiting, tries: u32) -> Result<[Answer; WAITER], Waiting> {
    let Waiting { row, early, first } = waiting;
    let known = match first {
        Some(told) => Some(told),
        None => try_wait(desk, row, tries),
    };
    let Some(told) = known else {
        return Err(waiting);
    };
    let Some(last) = try_wait(desk, row, tries) else {
        return Err(Waiting {
            row,
            early,
            first: Some(told),
        });
    };
    let [claim, resume] = early;
    let [first, next] = told;
    let [second, _] = last;
    Ok([claim, resume, first, next, second])
}

/// Waits for a row twice, or leaves it for later.
fn wait_or_leave(
    desk: &mut Desk,
    waiting: Waiting,
    tries: &mut u32,
    rounds: &mut [[Answer; WAITER]],
    left: &mut Vec<Waiting>,
) -> Result<(), AllocError> {
    let waited = wait_twice(desk, waiting, *tries);
    *tries = tries_after(*tries, waited.is_err());
    match waited {
        Ok(told) => {
            if let Some(round) = rounds.get_mut(waiting.row as usize) {
                *round = told;
            }
        }
        Err(known) => left.push(known)?,
    }
    Ok(())
}

/// The tracer that claims each of some rows at once, and then waits for it twice.
pub(crate) fn claim_and_wait<R: Wait>(
    rt: &R,
    alloc: Global,
    line: &Line,
    mut desk: Desk,
    rows: u32,
) -> Result<Vec<[Answer; WAITER]>, AllocError> {
    let mut rounds = vec![in alloc; [Answer::Nothing; WAITER]; rows as usize]?;
    let mut left = Vec::with_capacity(alloc, rows as usize)?;
    let mut tries = TRIES;
    line.wait(rt);
    for done in 0..rows {
        line.meet(done.wrapping_add(2));
        line.pause(done);
        let waiting = claim_early(&mut desk, rows - 1 - done);
        wait_or_leave(
            &mut desk,
            waiting,
            &mut tries,
            rounds.as_mut_slice(),
            &mut left,
        )?;
    }
    for _ in rt.forever() {
        if left.is_empty() {
            return Ok(rounds);
        }
        thread::yield_now();
        let mut later = Vec::with_capacity(alloc, left.len())?;
        for waiting in left {
            wait_or_leave(
                &mut desk,
                waiting,
                &mut tries,
                rounds.as_mut_slice(),
                &mut later,
            )?;
        }
        left = later;
    }
    unreachable!()
}

/// Waits until there is something to see of a row. None: there was nothing for a while.
fn try_look(desk: &mut Desk, row: u32, tries: u32) -> Option<Answer> {
    for _ in 0..tries {
        match desk.look(row) {
            Shown::Stopped { number, status } => {
                return Some(Answer::Saw(Got::Stop(number, status)));
            }
            Shown::Dead { number, status } => {
                return Some(Answer::Saw(Got::Ended(number, status)));
            }
            Shown::Reaped => return Some(Answer::NoChild),
            Shown::Unborn => {}
            Shown::Running => {}
            Shown::Claimed { number: _number } => {}
        }
    }
    None
}

/// Looks at a row, and after a pause claims what is there; or leaves the row for later.
fn look_or_leave(
    desk: &mut Desk,
    line: &Line,
    row: u32,
    tries: &mut u32,
    rounds: &mut [[Answer; LOOKER]],
    left: &mut Vec<u32>,
) -> Result<(), AllocError> {
    let looked = try_look(desk, row, *tries);
    *tries = tries_after(*tries, looked.is_none());
    let Some(seen) = looked else {
        left.push(row)?;
        return Ok(());
    };
    line.pause(row / 8);
    let [got, then] = told_of(desk.try_claim(row)).unwrap_or(TOO_EARLY);
    if let Some(round) = rounds.get_mut(row as usize) {
        *round = [seen, got, then];
    }
    Ok(())
}

/// The tracer that looks at each of some rows, and then claims what is there.
pub(crate) fn look_and_claim<R: Wait>(
    rt: &R,
    alloc: Global,
    line: &Line,
    mut desk: Desk,
    rows: u32,
) -> Result<Vec<[Answer; LOOKER]>, AllocError> {
    let mut rounds = vec![in alloc; [Answer::Nothing; LOOKER]; rows as usize]?;
    let mut left = Vec::with_capacity(alloc, rows as usize)?;
    let mut tries = TRIES;
    line.wait(rt);
    for done in 0..rows {
        line.meet(done.wrapping_add(2));
        look_or_leave(
            &mut desk,
            line,
            rows - 1 - done,
            &mut tries,
            rounds.as_mut_slice(),
            &mut left,
        )?;
    }
    for _ in rt.forever() {
        if left.is_empty() {
            return Ok(rounds);
        }
        thread::yield_now();
        let mut later = Vec::with_capacity(alloc, left.len())?;
        for row in left {
            look_or_leave(
                &mut desk,
                line,
                row,
                &mut tries,
                rounds.as_mut_slice(),
                &mut later,
            )?;
        }
        left = later;
    }
    unreachable!()
}
