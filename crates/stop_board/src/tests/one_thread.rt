//! One thread that plays every actor of a World, by answers worked out by hand.

use crate::tests::compare::same;
use crate::tests::rows::{CHILD, ROOT};
use crate::{Action, Got, Refused, Reply, Roster, State, TRACERS, World};
use std::test::Fail;
use trace_record::{Death, Kind, Resume, Stop};

const SYSCALL: Resume = Resume {
    kind: Kind::Syscall,
    signal: 0,
};

#[test]
fn a_life_is_played_by_one_thread(rt: HostRuntime) -> Result<(), Fail> {
    let roster = Roster::new(rt.alloc(), &[ROOT])?;
    let mut world = World::new(rt.alloc(), &roster, TRACERS)?;
    same(&rt, &world.publish(0, Stop::Start), &Ok(1));
    same(
        &rt,
        &world.publish(0, Stop::Enter),
        &Err(Refused::NotRunning),
    );
    same(
        &rt,
        &world.exit(0, Death::Exited(0)),
        &Err(Refused::NotRunning),
    );
    same(&rt, &world.resume(0, 0, SYSCALL), &Err(Refused::NotClaimed));
    same(&rt, &world.claim(0, 0), &Ok(Got::Stop(1, 0x80057f)));
    // What tracer 0 last saw in the row is its own claim, which nobody can claim.
    same(
        &rt,
        &world.step(1, Action::Claim(0)),
        &Reply::Refused(Refused::NotWaitable),
    );
    same(&rt, &world.claim(0, 15), &Err(Refused::NotWaitable));
    same(&rt, &world.resume(0, 15, SYSCALL), &Err(Refused::NotHolder));
    same(&rt, &world.resume(0, 0, SYSCALL), &Ok(()));
    same(&rt, &world.exit(0, Death::Exited(3)), &Ok(()));
    same(&rt, &world.claim(0, 15), &Ok(Got::Ended(1, 0x300)));
    same(&rt, &world.claim(0, 15), &Err(Refused::NotWaitable));
    same(&rt, &world.state(0), &State::Reaped);
    Ok(())
}

#[test]
fn a_call_out_of_range_or_before_the_birth_is_refused(rt: HostRuntime) -> Result<(), Fail> {
    let roster = Roster::new(rt.alloc(), &[ROOT, CHILD])?;
    let mut world = World::new(rt.alloc(), &roster, TRACERS)?;
    same(&rt, &world.publish(1, Stop::Start), &Err(Refused::Unborn));
    same(&rt, &world.exit(1, Death::Exited(0)), &Err(Refused::Unborn));
    same(&rt, &world.claim(1, 0), &Err(Refused::Unborn));
    same(&rt, &world.resume(1, 0, SYSCALL), &Err(Refused::Unborn));
    same(&rt, &world.publish(2, Stop::Start), &Err(Refused::NoRow));
    same(&rt, &world.exit(2, Death::Exited(0)), &Err(Refused::NoRow));
    same(&rt, &world.claim(2, 0), &Err(Refused::NoRow));
    same(&rt, &world.claim(0, 16), &Err(Refused::NoRow));
    same(&rt, &world.resume(0, 16, SYSCALL), &Err(Refused::NoRow));
    same(
        &rt,
        &world.publish(0, Stop::Fork(102)),
        &Err(Refused::NotNext),
    );
    same(&rt, &world.publish(0, Stop::Fork(101)), &Ok(1));
    same(&rt, &world.state(1), &State::Running);
    Ok(())
}

#[test]
fn what_one_thread_resumed_is_taken_up_so(rt: HostRuntime) -> Result<(), Fail> {
    let roster = Roster::new(rt.alloc(), &[ROOT])?;
    let mut world = World::new(rt.alloc(), &roster, TRACERS)?;
    same(&rt, &world.publish(0, Stop::Start), &Ok(1));
    same(&rt, &world.claim(0, 0), &Ok(Got::Stop(1, 0x80057f)));
    same(&rt, &world.resume(0, 0, SYSCALL), &Ok(()));
    same(&rt, &world.step(0, Action::TakeUp), &Reply::Took(SYSCALL));
    // A row that is taken up already can exit as well.
    same(&rt, &world.exit(0, Death::Exited(3)), &Ok(()));
    Ok(())
}
