//! The first example of RATTLE.md, as printed there.

use std::alloc::Global;
use stop_board::{Action, NoMemory, Reply, Roster, Row, State, World};
use trace_record::Stop;

/// Two tracers look at one stop, and then both claim it. Answers the replies to the claims, and the state of the row.
fn both_claim(alloc: Global) -> Result<(Reply, Reply, State), NoMemory> {
    let row = Row {
        tid: 100,
        tgid: 100,
        pgid: 100,
        parent: 0,
    };
    let Ok(roster) = Roster::new(alloc, &[row]) else {
        return Err(NoMemory);
    };
    let mut world = World::new(alloc, &roster, 2)?;
    // Actor 0 is the tracee of row 0; actors 1 and 2 are the tracers 0 and 1.
    let _ = world.step(0, Action::TakeUp);
    let _ = world.step(0, Action::Publish(Stop::Start));
    let _ = world.step(1, Action::Look(0));
    let _ = world.step(2, Action::Look(0));
    let second = world.step(2, Action::Claim(0));
    let first = world.step(1, Action::Claim(0));
    Ok((first, second, world.state(0)))
}

#[test]
fn of_two_tracers_that_have_looked_one_gets_the_stop(rt: HostRuntime) {
    let Ok((first, second, state)) = both_claim(rt.alloc()) else {
        return assert!(rt; false, "there is memory");
    };
    assert!(rt; matches!(second, Reply::Got(_)));
    // The row has changed since the first tracer looked.
    assert!(rt; matches!(first, Reply::Missed(_)));
    // Stop 1 is held by tracer 1.
    assert_eq!(rt; state, State::Claimed(1, 1));
}
