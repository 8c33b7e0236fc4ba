//! A board that borrows its roster: it is answered as a board is, and is compared and copied word by word.

use crate::tests::compare::same;
use crate::tests::rows::{CHILD, ROOT, THREAD};
use crate::{BoardWords, Got, Refused, Roster, State};
use std::test::Fail;
use trace_record::{Death, Kind, Resume, Stop};

const CONT: Resume = Resume {
    kind: Kind::Cont,
    signal: 0,
};

#[test]
fn a_look_leaves_a_stop_to_the_claim(rt: HostRuntime) -> Result<(), Fail> {
    let roster = Roster::new(rt.alloc(), &[ROOT, THREAD])?;
    let mut board = BoardWords::new(rt.alloc(), &roster)?;
    same(&rt, &board.len(), &2);
    same(&rt, &board.parent(0), &None);
    same(&rt, &board.parent(1), &Some(0));
    same(&rt, &board.look(0, 0), &Err(Refused::NotWaitable));
    same(&rt, &board.look(1, 0), &Err(Refused::Unborn));
    same(&rt, &board.look(2, 0), &Err(Refused::NoRow));
    same(&rt, &board.look(0, 16), &Err(Refused::NoRow));
    same(&rt, &board.publish(0, Stop::Clone(101)), &Ok(1));
    same(&rt, &board.look(0, 1), &Ok(Got::Stop(1, 0x03057f)));
    same(&rt, &board.look(0, 0), &Ok(Got::Stop(1, 0x03057f)));
    same(&rt, &board.claim(0, 0), &Ok(Got::Stop(1, 0x03057f)));
    same(&rt, &board.look(0, 1), &Err(Refused::NotWaitable));
    same(&rt, &board.resume(0, 1, CONT), &Err(Refused::NotHolder));
    same(&rt, &board.resume(0, 0, CONT), &Ok(()));
    same(
        &rt,
        &board.exit(0, Death::Exited(3)),
        &Err(Refused::GroupAlive(1)),
    );
    same(&rt, &board.exit(1, Death::Exited(0)), &Ok(()));
    same(&rt, &board.look(1, 0), &Ok(Got::Ended(0, 0x000000)));
    same(&rt, &board.state(1), &State::Dead(0, 0x000000));
    same(&rt, &board.state(2), &State::Absent);
    Ok(())
}

#[test]
fn copies_go_on_by_themselves(rt: HostRuntime) -> Result<(), Fail> {
    let roster = Roster::new(rt.alloc(), &[ROOT, CHILD])?;
    let mut board = BoardWords::new(rt.alloc(), &roster)?;
    let opening = board.copy()?;
    assert!(rt; board.words() == opening.words());
    same(&rt, &board.publish(0, Stop::Fork(101)), &Ok(1));
    assert!(rt; board.words() != opening.words());
    same(&rt, &opening.state(1), &State::Unborn);
    same(&rt, &board.state(1), &State::Running);
    let mut other = board.copy()?;
    same(&rt, &other.exit(1, Death::Exited(0)), &Ok(()));
    assert!(rt; other.words() != board.words());
    same(&rt, &board.state(1), &State::Running);
    other.copy_from(&board);
    assert!(rt; other.words() == board.words());
    other.copy_from(&opening);
    assert!(rt; other.words() == opening.words());
    same(&rt, &other.publish(0, Stop::Start), &Ok(1));
    Ok(())
}
