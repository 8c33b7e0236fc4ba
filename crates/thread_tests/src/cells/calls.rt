//! One thread that plays every actor.

use crate::cells::trio::{Trio, open_trio, stopped_trio};
use crate::compare::{holds, same};
use std::alloc::Allocator;
use std::test::Fail;
use stop_history::Roster;
use stop_table::{OpenError, Shown, Start, open};
use test_support::{Answer, AtRest, CONT, Cast, Desk, ROOT, START, THREAD, open_for, roots};
use trace_record::{Death, Kind, Resume, Stop};

const SYSCALL: Resume = Resume {
    kind: Kind::Syscall,
    signal: 15,
};

#[test]
fn a_root_runs_to_its_first_stop(rt: HostRuntime) -> Result<(), Fail> {
    let Trio {
        mut tracee,
        mut first,
        second,
    } = open_trio(rt.alloc())?;
    same(
        &rt,
        &(first.tracer.number(), second.tracer.number()),
        &(0, 1),
    );
    same(&rt, &tracee.start(), &Start::Born);
    same(&rt, &first.look(0), &Shown::Running);
    let running = tracee.take_up().ok().expect(&rt, "a root runs");
    same(&rt, &running.how, &CONT);
    same(&rt, &(running.record.tid, running.record.number), &(100, 0));
    assert!(rt; running.tracee.holds());
    let tracee = running.publish(Stop::Start, 7).expect(&rt, "a stop");
    assert!(rt; !tracee.tracee.holds());
    let stopped = Shown::Stopped {
        number: 1,
        status: START,
    };
    same(&rt, &first.look(0), &stopped);
    Ok(())
}

#[test]
fn a_row_that_is_taken_up_is_not_taken_up_again(rt: HostRuntime) -> Result<(), Fail> {
    let Trio {
        tracee,
        mut first,
        second: _,
    } = open_trio(rt.alloc())?;
    let running = tracee.take_up().ok().expect(&rt, "a root runs");
    let (got_nothing, running) = running.take_up_again();
    holds(&rt, got_nothing, "its handle has it taken up");
    assert!(rt; running.tracee.holds());
    let _tracee = running.publish(Stop::Start, 7).expect(&rt, "a stop");
    let published = Answer::Stop {
        tid: 100,
        number: 1,
        mark: 7,
    };
    same(&rt, &first.try_claim(0), &published);
    Ok(())
}

#[test]
fn a_second_claim_gets_nothing(rt: HostRuntime) -> Result<(), Fail> {
    let Trio {
        tracee,
        mut first,
        mut second,
    } = stopped_trio(rt.alloc(), Stop::Start, 7)?;
    let claim = first.claim(0).expect(&rt, "the stop");
    let stop = claim.record();
    same(
        &rt,
        &(stop.tid, stop.number, stop.stop),
        &(100, 1, Stop::Start),
    );
    same(&rt, &stop.regs.rax, &7);
    same(
        &rt,
        &(claim.row(), claim.tracer(), first.tracer.held()),
        &(0, 0, 1),
    );
    let nothing = Answer::Nothing(Shown::Claimed { number: 1 });
    same(&rt, &second.try_claim(0), &nothing);
    first.resume(claim, SYSCALL);
    same(&rt, &first.tracer.held(), &0);
    same(&rt, &resumed(tracee), &Some((SYSCALL, 100, 1, 7)));
    Ok(())
}

#[test]
fn the_stop_of_a_tracee_that_was_met_is_claimed(rt: HostRuntime) -> Result<(), Fail> {
    let Trio {
        tracee,
        first,
        second: _,
    } = stopped_trio(rt.alloc(), Stop::Start, 7)?;
    let mut both = first.meet_tracee(tracee);
    same(&rt, &both.tracer.number(), &0);
    same(
        &rt,
        &both.try_claim(0),
        &Answer::Stop {
            tid: 100,
            number: 1,
            mark: 7,
        },
    );
    Ok(())
}

#[test]
fn a_death_is_left_by_claim_stop_and_claimed_by_claim(rt: HostRuntime) -> Result<(), Fail> {
    let Trio {
        tracee,
        mut first,
        mut second,
    } = stopped_trio(rt.alloc(), Stop::Enter, 0)?;
    same(
        &rt,
        &first.try_claim_stop(0),
        &Answer::Stop {
            tid: 100,
            number: 1,
            mark: 0,
        },
    );
    holds(
        &rt,
        tracee.ends(3),
        "it was resumed, and is alone in its group",
    );
    // The exit code stands in the second byte of the status.
    same(
        &rt,
        &second.try_claim_stop(0),
        &Answer::Nothing(Shown::Dead {
            number: 1,
            status: 0x300,
        }),
    );
    same(
        &rt,
        &second.try_claim(0),
        &Answer::Ended {
            death: Death::Exited(3),
            number: 1,
        },
    );
    same(&rt, &first.look(0), &Shown::Reaped);
    same(&rt, &first.try_claim(0), &Answer::Nothing(Shown::Reaped));
    Ok(())
}

/// How many tracees and how many tracers an opening has.
fn opened<A: Allocator + Copy, B: Allocator>(
    alloc: A,
    roster: &Roster<B>,
    tracers: u32,
) -> Result<(usize, usize), OpenError> {
    let ends = open(alloc, roster, tracers)?;
    Ok((ends.tracees.len(), ends.tracers.len()))
}

#[test]
fn at_most_16_tracers_are_opened_for_any_roster(rt: HostRuntime) -> Result<(), Fail> {
    let one = Roster::new(rt.alloc(), &[ROOT])?;
    same(&rt, &opened(rt.alloc(), &one, 17), &Err(OpenError::TooMany));
    same(&rt, &opened(rt.alloc(), &one, 16), &Ok((1, 16)));
    let nobody = Roster::empty(rt.alloc());
    same(&rt, &opened(rt.alloc(), &nobody, 1), &Ok((0, 1)));
    let rows = roots(rt.alloc(), 256)?;
    let all = Roster::new(rt.alloc(), rows.as_slice())?;
    same(&rt, &opened(rt.alloc(), &all, 16), &Ok((256, 16)));
    Ok(())
}

/// A leader at the clone of its thread, and the thread at a stop.
fn stop_group<A: Allocator + Copy>(
    cast: &mut Cast<A>,
    alloc: A,
) -> Result<(AtRest<A>, AtRest<A>), Fail> {
    let thread = cast.tracee(alloc)?;
    let leader = cast.tracee(alloc)?.stop(Stop::Clone(101), 0)?;
    Ok((leader, thread.stop(Stop::Start, 5)?))
}

/// The same, and a tracer.
fn open_group<A: Allocator + Copy>(alloc: A) -> Result<(AtRest<A>, AtRest<A>, Desk<A>), Fail> {
    let mut cast = open_for(alloc, &[ROOT, THREAD], 1)?;
    let (leader, thread) = stop_group(&mut cast, alloc)?;
    Ok((leader, thread, cast.desk()?))
}

#[test]
fn a_leader_exits_after_its_claimed_thread(rt: HostRuntime) -> Result<(), Fail> {
    let (leader, thread, mut desk) = open_group(rt.alloc())?;
    let cloned = Answer::Stop {
        tid: 100,
        number: 1,
        mark: 0,
    };
    same(&rt, &desk.try_claim(0), &cloned);
    let leader = leader.take_up().ok().expect(&rt, "it was resumed");
    let claim = desk.claim(1).expect(&rt, "the stop of the thread");
    let (other, leader) = leader.exit(0).err().expect(&rt, "its thread is alive");
    same(&rt, &(other, leader.record.number), &(1, 1));
    same(&rt, &leader.record.stop, &Stop::Clone(101));
    assert!(rt; leader.tracee.holds());
    desk.resume(claim, CONT);
    holds(&rt, thread.ends(0), "a thread waits for nobody");
    holds(&rt, leader.exit(0).is_ok(), "its thread has ended");
    Ok(())
}

/// The restarts of the rows 0, 1 and 2, each with a signal of its own.
const HOWS: [Resume; 3] = [
    Resume {
        kind: Kind::Cont,
        signal: 1,
    },
    Resume {
        kind: Kind::Syscall,
        signal: 2,
    },
    Resume {
        kind: Kind::Cont,
        signal: 64,
    },
];

/// The restart of a row that was resumed, and the thread id, the number and the mark of its record.
fn resumed<A: Allocator>(tracee: AtRest<A>) -> Option<(Resume, u32, u32, u64)> {
    let running = tracee.take_up().ok()?;
    let record = &running.record;
    Some((running.how, record.tid, record.number, record.regs.rax))
}

/// Three roots at a stop, with the marks 10, 20 and 30.
fn stop_three<A: Allocator + Copy>(
    cast: &mut Cast<A>,
    alloc: A,
) -> Result<(AtRest<A>, AtRest<A>, AtRest<A>), Fail> {
    let third = cast.tracee(alloc)?.stop(Stop::Enter, 30)?;
    let second = cast.tracee(alloc)?.stop(Stop::Enter, 20)?;
    let first = cast.tracee(alloc)?.stop(Stop::Enter, 10)?;
    Ok((first, second, third))
}

/// The same, and a tracer.
fn open_three<A: Allocator + Copy>(
    alloc: A,
) -> Result<(AtRest<A>, AtRest<A>, AtRest<A>, Desk<A>), Fail> {
    let rows = roots(alloc, 3)?;
    let mut cast = open_for(alloc, rows.as_slice(), 1)?;
    let (first, second, third) = stop_three(&mut cast, alloc)?;
    Ok((first, second, third, cast.desk()?))
}

#[test]
fn three_claims_are_resumed_in_another_order(rt: HostRuntime) -> Result<(), Fail> {
    let (first, second, third, mut desk) = open_three(rt.alloc())?;
    let zero = desk.claim(0).expect(&rt, "the stop of row 0");
    let one = desk.claim(1).expect(&rt, "the stop of row 1");
    let two = desk.claim(2).expect(&rt, "the stop of row 2");
    same(&rt, &desk.tracer.held(), &3);
    desk.resume(one, HOWS[1]);
    desk.resume(two, HOWS[2]);
    desk.resume(zero, HOWS[0]);
    same(&rt, &desk.tracer.held(), &0);
    same(&rt, &resumed(first), &Some((HOWS[0], 1, 1, 10)));
    same(&rt, &resumed(second), &Some((HOWS[1], 2, 1, 20)));
    same(&rt, &resumed(third), &Some((HOWS[2], 3, 1, 30)));
    Ok(())
}

#[test]
fn the_laws_are_there() {
    stop_table::laws::a_meeting_keeps_events();
    stop_table::laws::a_record_is_its_rows();
    stop_table::laws::an_event_of_its_own_is_one_more();
    stop_table::laws::claims_stay();
    stop_table::laws::claims_stay_in_hand();
    stop_table::laws::looks_make_no_event();
    stop_table::laws::stops_are_counted_by_their_tracee();
    stop_table::laws::what_is_seen_is_legal();
}
