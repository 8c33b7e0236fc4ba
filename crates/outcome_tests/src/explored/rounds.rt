//! 100,000 rounds of two threads, and as many of three, or those that can be done in some seconds: where other programs
//! have the processors, threads wait long for each other. What is printed says which outcomes were seen
//! (`make bench-rounds`).

use crate::compare::{holds, same};
use crate::explored::programs::{NO_LOOKER, Round, of_three, of_two, outcomes};
use crate::explored::threads::{Line, claim_and_wait, look_and_claim, run_tracees};
use crate::explored::words::words_of;
use std::alloc::Global;
use std::process::Abort;
use std::sync::Wait;
use std::test::Fail;
use std::thread;
use std::thread::Threads;
use std::time::{Clock, Instant};
use stop_program::Voice;
use test_support::{AtRest, Cast, open_for, roots};

/// How many rows the cells have, a round for each, and how often cells are opened.
const ROWS: u32 = 250;

const TABLES: u32 = 400;

const ROUNDS: u32 = ROWS * TABLES;

/// After how many seconds no further cells are opened, once the first few were: a test has 60 seconds.
const SECONDS: u64 = 40;

const LEAST_TABLES: u32 = 4;

/// How often each outcome was seen, and how many rounds had none.
#[derive(Drop)]
struct Tally {
    outcomes: Vec<Round>,
    seen: Vec<u32>,
    strange: u32,
}

impl Tally {
    fn new(alloc: Global, outcomes: Vec<Round>) -> Result<Tally, Fail> {
        let seen = vec![in alloc; 0u32; outcomes.len()]?;
        Ok(Tally {
            outcomes,
            seen,
            strange: 0,
        })
    }

    fn note(&mut self, round: Round) {
        let place = self.outcomes.iter().position(|outcome| *outcome == round);
        match place.and_then(|place| self.seen.get_mut(place)) {
            Some(count) => *count = count.wrapping_add(1),
            None => self.strange = self.strange.wrapping_add(1),
        }
    }

    /// How many rounds had an outcome.
    fn rounds(&self) -> u32 {
        self.seen
            .iter()
            .fold(0u32, |all, count| all.wrapping_add(*count))
    }

    /// How many outcomes were seen at all.
    fn kinds(&self) -> usize {
        self.seen.iter().filter(|count| **count > 0).count()
    }

    /// Prints how often each outcome was seen, and what its threads are answered.
    fn print(&self, rt: &HostRuntime, alloc: Global, threads: u32) -> Result<(), Fail> {
        let (kinds, all, rounds) = (self.kinds(), self.outcomes.len(), self.rounds());
        println!(rt;
            "rounds of {threads} threads: {rounds}, in which {kinds} of {all} outcomes were seen"
        )?;
        if rounds < ROUNDS {
            println!(rt; "fewer than {ROUNDS} rounds: after {SECONDS} seconds none was begun")?;
        }
        let mut number = 0u32;
        for (outcome, seen) in self.outcomes.iter().zip(self.seen.iter()) {
            number = number.wrapping_add(1);
            let text = words_of(alloc, outcome, threads == 3)?;
            println!(rt; "outcome {number}, seen {seen}: {text}")?;
        }
        Ok(())
    }

    /// Tests that each round had an outcome.
    fn test<R: Abort>(&self, rt: &R) {
        same(rt, &self.strange, &0);
        let least = ROWS * LEAST_TABLES;
        holds(
            rt,
            self.rounds() >= least,
            "the rounds of the first few cells, at least",
        );
    }
}

/// Whether cells are to be opened once more, after this many.
fn goes_on<R: Clock>(rt: &R, opened: u32, start: &Instant) -> Result<bool, Fail> {
    if opened < LEAST_TABLES {
        return Ok(true);
    }
    Ok(start.elapsed(rt)?.as_secs() < SECONDS)
}

/// The tracees of new cells, the last one first.
fn tracees_of(alloc: Global, cast: &mut Cast) -> Result<Vec<AtRest>, Fail> {
    let mut tracees = Vec::with_capacity(alloc, ROWS as usize)?;
    for _ in 0..ROWS {
        tracees.push(cast.tracee(alloc)?)?;
    }
    Ok(tracees)
}

/// A round for each row of new cells, by a tracee and a tracer.
fn race_two<R: Threads + Wait + Sync>(
    rt: &R,
    alloc: Global,
    tally: &mut Tally,
) -> Result<(), Fail> {
    let rows = roots(alloc, ROWS)?;
    let mut cast = open_for(alloc, rows.as_slice(), 1)?;
    let tracees = tracees_of(alloc, &mut cast)?;
    let desk = cast.desk()?;
    let line = Line::new(2);
    let (lived, waited) = thread::join(
        rt,
        || run_tracees(rt, alloc, &line, tracees),
        || claim_and_wait(rt, alloc, &line, desk, ROWS),
    );
    let (lived, waited) = (lived?, waited?);
    for (tracee, waiter) in lived.iter().zip(waited.iter()) {
        tally.note(Round {
            tracee: *tracee,
            waiter: *waiter,
            looker: NO_LOOKER,
        });
    }
    Ok(())
}

/// The same, by a tracee and two tracers.
fn race_three<R: Threads + Wait + Sync>(
    rt: &R,
    alloc: Global,
    tally: &mut Tally,
) -> Result<(), Fail> {
    let rows = roots(alloc, ROWS)?;
    let mut cast = open_for(alloc, rows.as_slice(), 2)?;
    let tracees = tracees_of(alloc, &mut cast)?;
    let (first, second) = (cast.desk()?, cast.desk()?);
    let line = Line::new(3);
    let (lived, (waited, looked)) = thread::join(
        rt,
        || run_tracees(rt, alloc, &line, tracees),
        || {
            thread::join(
                rt,
                || claim_and_wait(rt, alloc, &line, first, ROWS),
                || look_and_claim(rt, alloc, &line, second, ROWS),
            )
        },
    );
    let (lived, waited, looked) = (lived?, waited?, looked?);
    let others = waited.iter().zip(looked.iter());
    for (tracee, (waiter, looker)) in lived.iter().zip(others) {
        tally.note(Round {
            tracee: *tracee,
            waiter: *waiter,
            looker: *looker,
        });
    }
    Ok(())
}

#[test]
fn rounds_of_two_threads_have_an_outcome(rt: HostRuntime) -> Result<(), Fail> {
    let alloc = rt.alloc();
    let found = outcomes(alloc, &[Voice::Loud; 2], &of_two())?;
    let mut tally = Tally::new(alloc, found)?;
    let start = Instant::now(&rt)?;
    for opened in 0..TABLES {
        if goes_on(&rt, opened, &start)? {
            race_two(&rt, alloc, &mut tally)?;
        }
    }
    same(&rt, &tally.outcomes.len(), &2);
    tally.print(&rt, alloc, 2)?;
    tally.test(&rt);
    Ok(())
}

#[test]
fn rounds_of_three_threads_have_an_outcome(rt: HostRuntime) -> Result<(), Fail> {
    let alloc = rt.alloc();
    let found = outcomes(alloc, &[Voice::Loud; 3], &of_three())?;
    let mut tally = Tally::new(alloc, found)?;
    let start = Instant::now(&rt)?;
    for opened in 0..TABLES {
        if goes_on(&rt, opened, &start)? {
            race_three(&rt, alloc, &mut tally)?;
        }
    }
    tally.print(&rt, alloc, 3)?;
    tally.test(&rt);
    Ok(())
}
