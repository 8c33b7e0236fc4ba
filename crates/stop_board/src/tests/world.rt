//! The interleaving model, on runs worked out by hand, up to its greatest sizes.

ghost use Rattle.std.specs.Prelude.{All, IfOk};
ghost use Rattle.stop_board.specs.Action.{IsAction};
ghost use Rattle.trace_record.specs.Resume.{IsResume};

use crate::tests::compare::same;
use crate::tests::expected_words::{
    OPENING, dead_before_any_stop, stopped_at_fork, stopped_at_start,
};
use crate::tests::rows::{CHILD, ROOT, roots};
use crate::{Action, Phase, Refused, Reply, Roster, Row, State, Word, World};
use std::alloc::{AllocError, Allocator};
use std::test::Fail;
use trace_record::{Death, Kind, Resume, Stop};

pub(crate) const SYSCALL: Resume = Resume {
    kind: Kind::Syscall,
    signal: 0,
};

/// What a tracee takes up for its first stop.
pub(crate) const CONT: Resume = Resume {
    kind: Kind::Cont,
    signal: 0,
};

/// Stop 1, claimed by tracer 1: 0x0800000000000804.
pub(crate) const CLAIMED: Word = Word {
    phase: Phase::Claimed { tracer: 1 },
    births: 0,
    number: 1,
};

const NO_ROW: Reply = Reply::Refused(Refused::NoRow);

#[test]
fn a_claim_of_a_word_that_has_changed_misses(rt: HostRuntime) -> Result<(), Fail> {
    let roster = Roster::new(rt.alloc(), &[ROOT])?;
    let mut world = World::new(rt.alloc(), &roster, 2)?;
    let stopped = stopped_at_start();
    same(&rt, &stopped.pack(), &0x0004002800000803);
    same(&rt, &CLAIMED.pack(), &0x0800000000000804);
    let table = [
        (0u32, Action::TakeUp, Reply::Took(CONT)),
        (0, Action::Publish(Stop::Start), Reply::Number(1)),
        (1, Action::Look(0), Reply::Word(stopped)),
        (2, Action::Look(0), Reply::Word(stopped)),
        (2, Action::Claim(0), Reply::Got(stopped)),
        (1, Action::Claim(0), Reply::Missed(CLAIMED)),
        (
            1,
            Action::Resume(0, SYSCALL),
            Reply::Refused(Refused::NotHolder),
        ),
        (2, Action::Resume(0, SYSCALL), Reply::Done),
        (
            1,
            Action::Resume(0, SYSCALL),
            Reply::Refused(Refused::NotClaimed),
        ),
        (
            0,
            Action::Publish(Stop::Enter),
            Reply::Refused(Refused::NotTaken),
        ),
    ];
    for (actor, action, reply) in table {
        same(&rt, &world.step(actor, action), &reply);
    }
    same(&rt, &world.state(0), &State::Running);
    same(&rt, &world.state(1), &State::Absent);
    Ok(())
}

#[test]
fn what_a_tracer_saw_decides_its_claim(rt: HostRuntime) -> Result<(), Fail> {
    let roster = Roster::new(rt.alloc(), &[ROOT, CHILD])?;
    let mut world = World::new(rt.alloc(), &roster, 2)?;
    let stopped = stopped_at_start();
    let table = [
        // A claim before any look compares with the opening word, which has nothing to claim.
        (0u32, Action::TakeUp, Reply::Took(CONT)),
        (0, Action::Publish(Stop::Start), Reply::Number(1)),
        (2, Action::Claim(0), Reply::Refused(Refused::NotWaitable)),
        // A look at one row is not a look at another, nor one by another tracer.
        (2, Action::Look(0), Reply::Word(stopped)),
        (2, Action::Claim(1), Reply::Refused(Refused::Unborn)),
        (3, Action::Claim(0), Reply::Refused(Refused::NotWaitable)),
        (2, Action::Claim(0), Reply::Got(stopped)),
        // The word last seen is now the claimed one, and after the resume the resumed one.
        (2, Action::Claim(0), Reply::Refused(Refused::NotWaitable)),
        (2, Action::Resume(0, SYSCALL), Reply::Done),
        (2, Action::Claim(0), Reply::Refused(Refused::NotWaitable)),
        (0, Action::TakeUp, Reply::Took(SYSCALL)),
        (0, Action::TakeUp, Reply::Refused(Refused::NotRunning)),
        (0, Action::Exit(Death::Exited(3)), Reply::Done),
        (0, Action::TakeUp, Reply::Refused(Refused::NotRunning)),
    ];
    for (actor, action, reply) in table {
        same(&rt, &world.step(actor, action), &reply);
    }
    same(&rt, &world.state(0), &State::Dead(1, 0x300));
    Ok(())
}

#[test]
fn a_death_is_reaped_once(rt: HostRuntime) -> Result<(), Fail> {
    let roster = Roster::new(rt.alloc(), &[ROOT])?;
    let mut world = World::new(rt.alloc(), &roster, 2)?;
    let dead = dead_before_any_stop();
    let reaped = Word {
        phase: Phase::Reaped,
        births: 0,
        number: 0,
    };
    let table = [
        (
            0u32,
            Action::Exit(Death::Exited(3)),
            Reply::Refused(Refused::NotTaken),
        ),
        (0, Action::TakeUp, Reply::Took(CONT)),
        (0, Action::Exit(Death::Exited(3)), Reply::Done),
        (1, Action::Look(0), Reply::Word(dead)),
        (2, Action::Look(0), Reply::Word(dead)),
        (1, Action::Claim(0), Reply::Got(dead)),
        (2, Action::Claim(0), Reply::Missed(reaped)),
        (2, Action::Claim(0), Reply::Refused(Refused::NotWaitable)),
        (
            1,
            Action::Resume(0, SYSCALL),
            Reply::Refused(Refused::NotClaimed),
        ),
    ];
    for (actor, action, reply) in table {
        same(&rt, &world.step(actor, action), &reply);
    }
    same(&rt, &world.state(0), &State::Reaped);
    Ok(())
}

#[test]
fn an_action_of_another_kind_of_actor_finds_no_row(rt: HostRuntime) -> Result<(), Fail> {
    let roster = Roster::new(rt.alloc(), &[ROOT])?;
    let mut world = World::new(rt.alloc(), &roster, 2)?;
    let table = [
        (0u32, Action::Look(0), Reply::Word(OPENING)),
        (0, Action::Look(1), NO_ROW),
        (1, Action::Look(1), NO_ROW),
        (3, Action::Look(0), NO_ROW),
        (u32::MAX, Action::TakeUp, NO_ROW),
        (0, Action::Claim(0), NO_ROW),
        (0, Action::Resume(0, SYSCALL), NO_ROW),
        (1, Action::TakeUp, NO_ROW),
        (1, Action::Publish(Stop::Start), NO_ROW),
        (1, Action::Exit(Death::Exited(0)), NO_ROW),
        (1, Action::Claim(1), NO_ROW),
        (1, Action::Resume(1, SYSCALL), NO_ROW),
    ];
    for (actor, action, reply) in table {
        same(&rt, &world.step(actor, action), &reply);
    }
    Ok(())
}

#[test]
fn a_run_answers_each_turn_in_order(rt: HostRuntime) -> Result<(), Fail> {
    let roster = Roster::new(rt.alloc(), &[ROOT, CHILD])?;
    let mut world = World::new(rt.alloc(), &roster, 1)?;
    let forked = stopped_at_fork();
    let replies = world.run(&[
        (1, Action::TakeUp),
        (0, Action::TakeUp),
        (0, Action::Publish(Stop::Fork(101))),
        (1, Action::TakeUp),
        (2, Action::Look(0)),
        (2, Action::Claim(0)),
    ])?;
    let expected = [
        Reply::Refused(Refused::Unborn),
        Reply::Took(CONT),
        Reply::Number(1),
        Reply::Took(CONT),
        Reply::Word(forked),
        Reply::Got(forked),
    ];
    same(&rt, &replies.as_slice(), &expected.as_slice());
    same(&rt, &world.state(0), &State::Claimed(1, 0));
    Ok(())
}

/// A thread of the root's group, after another child of the root.
const SECOND: Row = Row {
    tid: 102,
    tgid: 100,
    pgid: 77,
    parent: 100,
};

const NOT_TAKEN: Reply = Reply::Refused(Refused::NotTaken);

const NOT_NEXT: Reply = Reply::Refused(Refused::NotNext);

const NOT_RUNNING: Reply = Reply::Refused(Refused::NotRunning);

/// The row at place 1 holds its leader back.
const GROUP_ALIVE: Reply = Reply::Refused(Refused::GroupAlive(1));

/// Whether a tracer claims the stop of a row and resumes it.
fn lets_go<A: Allocator>(world: &mut World<A>, tracer: u32, row: u32, how: Resume) -> bool
    requires { IsResume how }
{
    let _ = world.step(tracer, Action::Look(row));
    matches!(world.step(tracer, Action::Claim(row)), Reply::Got(_))
        && world.step(tracer, Action::Resume(row, how)) == Reply::Done
}

#[test]
fn what_is_not_taken_up_is_refused_before_a_wrong_child(rt: HostRuntime) -> Result<(), Fail> {
    let roster = Roster::new(rt.alloc(), &[ROOT, CHILD, SECOND])?;
    let mut world = World::new(rt.alloc(), &roster, 1)?;
    let table = [
        (Action::Publish(Stop::Clone(102)), NOT_TAKEN),
        (Action::TakeUp, Reply::Took(CONT)),
        (Action::Publish(Stop::Clone(102)), NOT_NEXT),
        (Action::Publish(Stop::Fork(103)), NOT_NEXT),
        (Action::Publish(Stop::Fork(101)), Reply::Number(1)),
        (Action::Publish(Stop::Clone(102)), NOT_RUNNING),
        (Action::Exit(Death::Exited(0)), NOT_RUNNING),
    ];
    for (action, reply) in table {
        same(&rt, &world.step(0, action), &reply);
    }
    Ok(())
}

#[test]
fn a_restart_is_taken_up_with_its_signal(rt: HostRuntime) -> Result<(), Fail> {
    let roster = Roster::new(rt.alloc(), &[ROOT, SECOND])?;
    let mut world = World::new(rt.alloc(), &roster, 1)?;
    same(&rt, &world.step(0, Action::TakeUp), &Reply::Took(CONT));
    for (stop, kind, signal) in [
        (Stop::Clone(102), Kind::Cont, 15),
        (Stop::Enter, Kind::Syscall, 64),
        (Stop::Signal(9), Kind::Cont, 1),
    ] {
        let how = Resume { kind, signal };
        assert!(rt; matches!(world.step(0, Action::Publish(stop)), Reply::Number(_)));
        assert!(rt; lets_go(&mut world, 2, 0, how));
        // The second row is a live thread of the first, which is tested after whether the first is taken up.
        same(
            &rt,
            &world.step(0, Action::Exit(Death::Exited(0))),
            &NOT_TAKEN,
        );
        same(&rt, &world.step(0, Action::TakeUp), &Reply::Took(how));
        same(
            &rt,
            &world.step(0, Action::Exit(Death::Exited(0))),
            &GROUP_ALIVE,
        );
    }
    Ok(())
}

#[test]
fn a_world_keeps_256_rows_and_16_tracers(rt: HostRuntime) -> Result<(), Fail> {
    let rows = roots(rt.alloc(), 256)?;
    let roster = Roster::new(rt.alloc(), rows.as_slice())?;
    let mut world = World::new(rt.alloc(), &roster, 16)?;
    for row in 0..256 {
        same(&rt, &world.step(row, Action::TakeUp), &Reply::Took(CONT));
        same(
            &rt,
            &world.step(row, Action::Publish(Stop::Start)),
            &Reply::Number(1),
        );
    }
    for row in 0..256 {
        assert!(rt; lets_go(&mut world, 256 + row % 16, row, SYSCALL));
        same(&rt, &world.step(row, Action::TakeUp), &Reply::Took(SYSCALL));
    }
    same(&rt, &world.step(256, Action::Look(256)), &NO_ROW);
    same(&rt, &world.step(272, Action::Look(0)), &NO_ROW);
    Ok(())
}

/// This many turns of the first tracee, each to take its row up.
fn take_ups<A: Allocator>(alloc: A, count: usize) -> Result<Vec<(u32, Action), A>, AllocError>
    ensures { IfOk result (λ turns. All (λ turn. IsAction turn.1) turns.items) }
{
    vec![in alloc; (0u32, Action::TakeUp); count]
}

#[test]
fn a_run_answers_100000_turns(rt: HostRuntime) -> Result<(), Fail> {
    let roster = Roster::new(rt.alloc(), &[ROOT])?;
    let mut world = World::new(rt.alloc(), &roster, 1)?;
    let turns = take_ups(rt.alloc(), 100_000)?;
    let replies = world.run(turns.as_slice())?;
    same(&rt, &replies.len(), &100_000);
    for (turn, reply) in replies.iter().enumerate() {
        let expected = if turn == 0 {
            Reply::Took(CONT)
        } else {
            Reply::Refused(Refused::NotRunning)
        };
        same(&rt, &(turn, *reply), &(turn, expected));
    }
    Ok(())
}
