//! Each growth of a World and of a run refused in turn, over a race of two tracers that was worked out by hand.

use crate::tests::compare::{holds, same};
use crate::tests::expected_words::stopped_at_start;
use crate::tests::rows::ROOT;
use crate::tests::world::{CLAIMED, CONT, SYSCALL};
use crate::{Action, NoMemory, Refused, Reply, Roster, World};
use refusing_allocator::RefusingAllocator;
use std::alloc::Allocator;
use trace_record::Stop;

/// A root stops. Both tracers look at it, and the second claims it before the first does, and resumes it.
const TURNS: [(u32, Action); 10] = [
    (0, Action::TakeUp),
    (0, Action::Publish(Stop::Start)),
    (1, Action::Look(0)),
    (2, Action::Look(0)),
    (2, Action::Claim(0)),
    (1, Action::Claim(0)),
    (1, Action::Resume(0, SYSCALL)),
    (2, Action::Resume(0, SYSCALL)),
    (1, Action::Resume(0, SYSCALL)),
    (0, Action::Publish(Stop::Enter)),
];

/// What the turns reply in a World that stands before any event.
fn replies() -> [Reply; 10] {
    let stopped = stopped_at_start();
    [
        Reply::Took(CONT),
        Reply::Number(1),
        Reply::Word(stopped),
        Reply::Word(stopped),
        Reply::Got(stopped),
        Reply::Missed(CLAIMED),
        Reply::Refused(Refused::NotHolder),
        Reply::Done,
        Reply::Refused(Refused::NotClaimed),
        Reply::Refused(Refused::NotTaken),
    ]
}

/// More than any call here has growths.
const MOST: u64 = 20;

/// How often a run is asked for until it is not refused, where it then replies as in a World before any event: a refused
/// run has done nothing. 0 where it replies otherwise.
fn run_twice<A: Allocator + Copy, B: Allocator>(
    alloc: A,
    roster: &Roster<B>,
) -> Result<u32, NoMemory> {
    let mut world = World::new(alloc, roster, 2)?;
    let expected = replies();
    let (replied, asked) = match world.run(&TURNS) {
        Ok(replied) => (replied, 1),
        Err(NoMemory) => (world.run(&TURNS)?, 2),
    };
    Ok(if replied.as_slice() == expected.as_slice() {
        asked
    } else {
        0
    })
}

#[test]
fn a_world_wants_memory_three_times_and_a_run_once(rt: HostRuntime) {
    let Ok(roster) = Roster::new(rt.alloc(), &[ROOT]) else {
        return holds(&rt, false, "there is memory");
    };
    let mut refusals = 0u32;
    let mut runs = 0u32;
    for granted in 0..MOST {
        let heap = RefusingAllocator::new(rt.alloc(), granted);
        match run_twice(&heap, &roster) {
            Ok(1) => {
                assert!(rt; !heap.has_refused());
                break;
            }
            Ok(asked) => {
                same(&rt, &asked, &2);
                assert!(rt; heap.has_refused());
                runs = runs.wrapping_add(1);
            }
            Err(NoMemory) => {
                assert!(rt; heap.has_refused());
                refusals = refusals.wrapping_add(1);
            }
        }
    }
    same(&rt, &refusals, &3);
    same(&rt, &runs, &1);
}
