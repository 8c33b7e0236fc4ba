//! 8 tracees and 4 tracers on threads of their own, 10,000 stops each. Which tracer claims a stop is the schedule's to
//! choose, so the test looks at what all have claimed together.

ghost use Rattle.std.specs.Prelude.{◌≡◌};

use crate::compare::holds;
use std::alloc::Global;
use std::sync::Wait;
use std::test::Fail;
use std::thread;
use std::thread::{JoinHandle, Threads};
use stop_table::Shown;
use test_support::{Answer, AtRest, Cast, Desk, have_lived, open_for, roots, runs_on};
use trace_record::{Death, Stop};

const TRACEES: u32 = 8;

const STOPS: u32 = 10_000;

/// What a tracee leaves in `rax` at a stop.
fn mark(tid: u32, number: u32) -> u64 {
    u64::from(tid) * 1_000_000 + u64::from(number)
}

/// How often each stop was claimed, by row and number, and whether a record was another than the one published.
#[derive(Drop)]
struct Tally {
    counts: Vec<u8>,
    deaths: u32,
    is_wrong: bool,
}

impl Tally {
    fn note(&mut self, row: u32, tid: u32, number: u32, found: u64) {
        let place = number
            .wrapping_sub(1)
            .wrapping_mul(TRACEES)
            .wrapping_add(row);
        match self.counts.get_mut(place as usize) {
            Some(count) => *count = count.saturating_add(1),
            None => self.is_wrong = true,
        }
        if tid != row.wrapping_add(1) || found != mark(tid, number) {
            self.is_wrong = true;
        }
    }

    /// Counts what another tracer has claimed too.
    fn add(&mut self, other: &Tally) {
        self.deaths = self.deaths.wrapping_add(other.deaths);
        self.is_wrong = self.is_wrong || other.is_wrong || self.counts.len() != other.counts.len();
        for (count, more) in self.counts.iter_mut().zip(other.counts.iter()) {
            *count = count.saturating_add(*more);
        }
    }

    /// Claims what it can, row by row. It answers how many rows it claimed from, and how many were reaped.
    fn sweep(&mut self, desk: &mut Desk) -> (u32, u32)
        ensures { desk.new.tracer.table_id ≡ desk.old.tracer.table_id }
    {
        let mut claimed = 0u32;
        let mut reaped = 0u32;
        for row in 0..TRACEES {
            match desk.try_claim(row) {
                Answer::Stop { tid, number, mark } => {
                    self.note(row, tid, number, mark);
                    claimed = claimed.wrapping_add(1);
                }
                Answer::Ended { death, number } => {
                    self.deaths = self.deaths.wrapping_add(1);
                    if death != Death::Exited(7) || number != STOPS {
                        self.is_wrong = true;
                    }
                }
                Answer::Nothing(Shown::Reaped) => reaped = reaped.wrapping_add(1),
                Answer::Nothing(_) => {}
            }
        }
        (claimed, reaped)
    }
}

/// A tracer's thread, until all rows are reaped.
fn trace<R: Wait>(rt: &R, mut desk: Desk, mut tally: Tally) -> (Desk, Tally)
    ensures { result.0.tracer.table_id ≡ desk.tracer.table_id }
{
    for _ in rt.forever() {
        let (claimed, reaped) = tally.sweep(&mut desk);
        if reaped == TRACEES {
            return (desk, tally);
        }
        if claimed == 0 {
            thread::yield_now();
        }
    }
    unreachable!()
}

/// A tracee's thread: all its stops, and its exit. It answers whether each call did what it should.
fn live<R: Wait>(rt: &R, mut tracee: AtRest) -> bool {
    for number in 1..STOPS + 1 {
        let running = runs_on(rt, tracee);
        let mark = mark(running.record.tid, number);
        let Some(stopped) = running.publish(Stop::Enter, mark) else {
            return false;
        };
        tracee = stopped;
    }
    runs_on(rt, tracee).exit(7).is_ok()
}

fn new_tally(alloc: Global) -> Result<Tally, Fail> {
    let counts = vec![in alloc; 0u8; (TRACEES * STOPS) as usize]?;
    Ok(Tally {
        counts,
        deaths: 0,
        is_wrong: false,
    })
}

/// Whether the tracers together have claimed each stop and each death once, with the records that were published.
fn is_each_once(mut tally: Tally, others: [&Tally; 3]) -> bool {
    for other in others {
        tally.add(other);
    }
    !tally.is_wrong && tally.deaths == TRACEES && tally.counts.iter().all(|count| *count == 1)
}

/// One tracer for all four, unless one of them has a claim left.
fn met(a: Desk, b: Desk, c: Desk, d: Desk) -> Option<Desk>
    requires { (b.tracer.table_id ≡ a.tracer.table_id) × (c.tracer.table_id ≡ a.tracer.table_id)
        × (d.tracer.table_id ≡ a.tracer.table_id) }
{
    a.meet(b)?.meet(c)?.meet(d)
}

/// Whether a tracer sees all rows reaped.
fn sees_all_reaped(mut desk: Desk) -> bool {
    for row in 0..TRACEES {
        if desk.look(row) != Shown::Reaped {
            return false;
        }
    }
    true
}

/// New cells of the tracees, with four tracers.
fn open_crowd(alloc: Global) -> Result<Cast, Fail> {
    let rows = roots(alloc, TRACEES)?;
    open_for(alloc, rows.as_slice(), 4)
}

/// Four tracers of one table.
#[derive(Drop)]
struct Four {
    a: Desk,
    b: Desk,
    c: Desk,
    d: Desk,
    ghost one_table: { (b.tracer.table_id ≡ a.tracer.table_id) × (c.tracer.table_id ≡ a.tracer.table_id)
        × (d.tracer.table_id ≡ a.tracer.table_id) },
}

/// The last four tracers that are left.
fn take_four(cast: &mut Cast) -> Result<Four, Fail> {
    let (a, b) = (cast.desk()?, cast.desk()?);
    let (c, d) = (cast.desk()?, cast.desk()?);
    Ok(Four { a, b, c, d })
}

/// Four tallies, in which nothing is counted.
fn new_tallies(alloc: Global) -> Result<(Tally, Tally, Tally, Tally), Fail> {
    let (a, b) = (new_tally(alloc)?, new_tally(alloc)?);
    let (c, d) = (new_tally(alloc)?, new_tally(alloc)?);
    Ok((a, b, c, d))
}

/// Starts a thread for each tracee.
fn start_all<R: Threads + Wait + AllocGlobal + Copy + Send + 'static>(
    rt: R,
    cast: &mut Cast,
) -> Result<Vec<JoinHandle<bool>>, Fail> {
    let alloc = rt.alloc();
    let mut tracees = Vec::with_capacity(alloc, TRACEES as usize)?;
    for _ in 0..TRACEES {
        let tracee = cast.tracee(alloc)?;
        let Ok(thread) = thread::spawn(&rt, move || live(&rt, tracee)) else {
            return Err(Fail::new("there is no thread for a tracee"));
        };
        tracees.push(thread)?;
    }
    Ok(tracees)
}

/// Four tracers' threads, until all rows are reaped: one tracer for all, unless one of them has a claim left, and whether
/// each stop has one claim.
fn trace_all<R: Threads + Wait + Sync>(
    rt: &R,
    four: Four,
    tallies: (Tally, Tally, Tally, Tally),
) -> (Option<Desk>, bool) {
    let Four { a, b, c, d } = four;
    let (ta, tb, tc, td) = tallies;
    let ((a, b), (c, d)) = thread::join(
        rt,
        || thread::join(rt, || trace(rt, a, ta), || trace(rt, b, tb)),
        || thread::join(rt, || trace(rt, c, tc), || trace(rt, d, td)),
    );
    let ((a, ta), (b, tb), (c, tc), (d, td)) = (a, b, c, d);
    (met(a, b, c, d), is_each_once(ta, [&tb, &tc, &td]))
}

#[test]
fn each_stop_has_one_claim(rt: HostRuntime) -> Result<(), Fail> {
    let tallies = new_tallies(rt.alloc())?;
    let mut cast = open_crowd(rt.alloc())?;
    let four = take_four(&mut cast)?;
    let tracees = start_all(rt, &mut cast)?;
    let (all, is_once) = trace_all(&rt, four, tallies);
    holds(
        &rt,
        have_lived(&rt, tracees),
        "a tracee's calls did what they should",
    );
    let all = all.expect(&rt, "no claim is left");
    holds(&rt, sees_all_reaped(all), "each row ended, and was reaped");
    holds(&rt, is_once, "each stop has one claim");
    Ok(())
}
