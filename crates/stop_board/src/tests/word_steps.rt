//! What each step on a row makes of its word, by bits worked out by hand.

ghost use Rattle.std.specs.Prelude.{◌≤◌};
ghost use Rattle.stop_history.specs.declared.limits.TheConstants.{LAST_NUMBER};

use crate::tests::compare::same;
use crate::tests::expected_words::{OPENING, dead, stopped_at_fork, stopped_at_start};
use stop_history::{
    Phase, Refused, Word, claimed, died, published, restart_in, restarted, taken_up,
};
use trace_record::{Death, Kind, Resume, Stop};

/// A word whose fields besides the phase are these.
fn claimed_by_2(births: u8, number: u32) -> Word
    requires { number ≤ LAST_NUMBER }
{
    Word {
        phase: Phase::Claimed { tracer: 2 },
        births,
        number,
    }
}

#[test]
fn a_publish_counts_its_stop_and_its_child(rt: HostRuntime) {
    same(
        &rt,
        &published(taken_up(OPENING), Stop::Start),
        &stopped_at_start(),
    );
    same(
        &rt,
        &published(taken_up(OPENING), Stop::Fork(101)),
        &stopped_at_fork(),
    );
    same(&rt, &stopped_at_fork().pack(), &0x000008280000080b);
}

#[test]
fn a_claim_takes_a_stop_and_reaps_a_death(rt: HostRuntime) {
    same(
        &rt,
        &claimed(stopped_at_start(), 2).pack(),
        &0x1000000000000804,
    );
    same(&rt, &claimed(dead(), 2).pack(), &0x100e);
}

#[test]
fn a_resume_keeps_its_restart_until_it_is_taken_up(rt: HostRuntime) {
    let how = Resume {
        kind: Kind::Cont,
        signal: 15,
    };
    let resumed = restarted(claimed_by_2(0, 4), how);
    same(&rt, &resumed.pack(), &0x00f8000000002001);
    same(&rt, &restart_in(resumed.phase), &Ok(how));
    same(&rt, &taken_up(resumed).pack(), &0x2002);
    same(
        &rt,
        &restart_in(taken_up(resumed).phase),
        &Err(Refused::NotRunning),
    );
    let first = Resume {
        kind: Kind::Cont,
        signal: 0,
    };
    same(&rt, &restart_in(Phase::Fresh), &Ok(first));
}

#[test]
fn an_exit_keeps_the_status_of_the_death(rt: HostRuntime) {
    same(
        &rt,
        &died(taken_up(claimed_by_2(1, 2)), Death::Exited(3)),
        &dead(),
    );
    same(&rt, &dead().pack(), &0x000018000000100d);
}
