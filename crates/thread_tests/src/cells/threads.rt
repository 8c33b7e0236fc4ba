//! Two tracers on two threads.

ghost use Rattle.std.specs.Prelude.{◌≡◌, IfSome};
ghost use Rattle.stop_table.specs.Handle.{IsHolding};

use crate::cells::trio::{Trio, open_trio, stopped_trio};
use crate::compare::same;
use std::alloc::{Allocator, Global};
use std::sync::Wait;
use std::sync::atomic::{AtomicU32, Ordering};
use std::test::Fail;
use std::thread;
use std::thread::Threads;
use stop_table::{Claim, Shown, Taken};
use test_support::{CONT, Desk};
use trace_record::Stop;

/// How many stops two threads claim at once.
const ROUNDS: u32 = 1_000;

/// How often a thread looks for the other before it lets others run.
const LOOKS: u32 = 1_000;

/// A tracer, and what its attempt to claim the row answered.
struct Claimed<A: Allocator = Global> {
    desk: Desk<A>,
    claim: Option<Claim<A>>,
    shown: Option<Shown>,
}

fn claim_once<A: Allocator>(mut desk: Desk<A>) -> Claimed<A>
    ensures table { result.desk.tracer.table_id ≡ desk.tracer.table_id }
    ensures holding { IfSome result.claim (λ c. IsHolding result.desk.tracer.view c.row c.word c.stop) }
{
    if 0 >= desk.rows {
        return Claimed {
            desk,
            claim: None,
            shown: None,
        };
    }
    match desk.tracer.claim(0) {
        Taken::Stop(claim) => Claimed {
            desk,
            claim: Some(claim),
            shown: None,
        },
        Taken::Ended {
            death: _death,
            number: _number,
        } => Claimed {
            desk,
            claim: None,
            shown: None,
        },
        Taken::Nothing(shown) => Claimed {
            desk,
            claim: None,
            shown: Some(shown),
        },
    }
}

/// Resumes the claim, if there is one, and says whether there was.
fn resume_any<A: Allocator>(claimed: Claimed<A>) -> (Desk<A>, Option<Shown>)
    requires { IfSome claimed.claim (λ c. IsHolding claimed.desk.tracer.view c.row c.word c.stop) }
    ensures { result.0.tracer.table_id ≡ claimed.desk.tracer.table_id }
{
    let Claimed {
        mut desk,
        claim,
        shown,
    } = claimed;
    match claim {
        Some(claim) => desk.resume(claim, CONT),
        None => {}
    }
    (desk, shown)
}

#[test]
fn of_two_threads_one_claims_the_stop(rt: HostRuntime) -> Result<(), Fail> {
    let Trio {
        tracee: _,
        first,
        second,
    } = stopped_trio(rt.alloc(), Stop::Start, 0)?;
    let (first, second) = thread::join(&rt, move || claim_once(first), move || claim_once(second));
    let (first, first_shown) = resume_any(first);
    let (second, second_shown) = resume_any(second);
    let other_won = Some(Shown::Claimed { number: 1 });
    if first_shown.is_none() {
        same(&rt, &second_shown, &other_won);
    } else {
        same(&rt, &(first_shown, second_shown), &(other_won, None));
    }
    let mut both = first.meet(second).expect(&rt, "it holds nothing");
    same(&rt, &both.look(0), &Shown::Running);
    Ok(())
}

/// Who claimed the stop of each round.
#[derive(Drop)]
struct Score {
    first: u32,
    second: u32,
    /// The rounds without one winner and one loser, who was told that the other has claimed the stop.
    wrong: u32,
}

impl Score {
    fn note(&mut self, first: &Claimed, second: &Claimed, number: u32) {
        let lost = Some(Shown::Claimed { number });
        if first.claim.is_some() && second.claim.is_none() && second.shown == lost {
            self.first = self.first.wrapping_add(1);
        } else if second.claim.is_some() && first.claim.is_none() && first.shown == lost {
            self.second = self.second.wrapping_add(1);
        } else {
            self.wrong = self.wrong.wrapping_add(1);
        }
    }
}

/// Waits until both threads are here, so that they go on at once.
fn await_both<R: Wait>(rt: &R, here: &AtomicU32) {
    here.fetch_add(1, Ordering::SeqCst);
    for _ in rt.forever() {
        for _ in 0..LOOKS {
            if here.load(Ordering::SeqCst) == 2 {
                return;
            }
        }
        thread::yield_now();
    }
    unreachable!()
}

/// A thread's claim, once the other is about to claim too.
fn claim_with_other<R: Wait>(rt: &R, here: &AtomicU32, desk: Desk) -> Claimed
    ensures table { result.desk.tracer.table_id ≡ desk.tracer.table_id }
    ensures holding { IfSome result.claim (λ c. IsHolding result.desk.tracer.view c.row c.word c.stop) }
{
    await_both(rt, here);
    claim_once(desk)
}

/// One round: the tracee stops, both tracers claim the stop at once, and the winner resumes it.
fn race<R: Threads + Wait + Sync>(
    rt: &R,
    trio: Trio,
    number: u32,
    score: &mut Score,
) -> Result<Trio, Fail> {
    let Trio {
        tracee,
        first,
        second,
    } = trio;
    let tracee = tracee.stop(Stop::Enter, u64::from(number))?;
    let here = AtomicU32::new(0);
    let (first, second) = thread::join(
        rt,
        || claim_with_other(rt, &here, first),
        || claim_with_other(rt, &here, second),
    );
    score.note(&first, &second, number);
    let (first, _first_shown) = resume_any(first);
    let (second, _second_shown) = resume_any(second);
    Ok(Trio {
        tracee,
        first,
        second,
    })
}

#[test]
fn of_two_threads_one_claims_each_of_a_thousand_stops(rt: HostRuntime) -> Result<(), Fail> {
    let mut trio = open_trio(rt.alloc())?;
    let mut score = Score {
        first: 0,
        second: 0,
        wrong: 0,
    };
    for number in 1..ROUNDS + 1 {
        trio = race(&rt, trio, number, &mut score)?;
    }
    let Score {
        first,
        second,
        wrong,
    } = score;
    println!(rt; "of {ROUNDS} races for a stop the first thread won {first}, the second {second}")?;
    // Each round has one winner.
    same(&rt, &wrong, &0);
    same(&rt, &first.wrapping_add(second), &ROUNDS);
    Ok(())
}
