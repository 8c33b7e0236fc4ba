//! Logs whose orders were worked out by hand.

ghost use Rattle.std.specs.Prelude.{◌≤◌, IfOk, length};
ghost use Rattle.std.specs.List.{All};
ghost use Rattle.stop_program.specs.BoardCall.{IsBoardCall};
ghost use Rattle.log_checker.specs.LoggedCall.{IsInLine, IsAskedWell};

use crate::{CheckError, LoggedCall, Stamp, Verdict, check_log};
use std::alloc::Allocator;
use std::test::Fail;
use stop_board::{Got, Refused, Roster, Row};
use stop_program::{
    Answer, BoardCall, ThreadCommand, Turn, WantedAnswer, WantedGot, WantedReply, Which,
};
use trace_record::{Death, Kind, Resume, Stop};

/// A process of one thread.
const ROOT: Row = Row {
    tid: 100,
    tgid: 100,
    pgid: 77,
    parent: 0,
};

/// The first stop of a row, where it is `PTRACE_EVENT_STOP`, as a reply has it.
const STARTED: WantedAnswer = WantedAnswer::Got(WantedGot::Stop(Some(1), Some(0x80057f)));

/// A call of row 0, which was answered so.
fn call(asked: BoardCall, answer: WantedAnswer) -> LoggedCall
    requires { IsBoardCall asked }
    ensures { IsBoardCall result.command.call }
{
    LoggedCall {
        command: ThreadCommand {
            which: Which::Row(0),
            call: asked,
            waits: false,
            wanted: Some(WantedReply { row: None, answer }),
            leave_to: 1,
        },
        stamp: None,
    }
}

/// The same call with a stamp.
fn at(begin: u64, end: u64, one: LoggedCall) -> LoggedCall
    requires { IsBoardCall one.command.call }
    ensures { IsBoardCall result.command.call }
{
    LoggedCall {
        stamp: Some(Stamp { begin, end }),
        ..one
    }
}

/// The same call without a reply.
fn unanswered(one: LoggedCall) -> LoggedCall
    requires { IsBoardCall one.command.call }
    ensures { IsBoardCall result.command.call }
{
    LoggedCall {
        command: ThreadCommand {
            wanted: None,
            ..one.command
        },
        stamp: one.stamp,
    }
}

/// Row 0 publishes its first stop.
fn publish() -> LoggedCall
    ensures { IsBoardCall result.command.call }
{
    call(BoardCall::Publish(Stop::Start), WantedAnswer::Number(None))
}

/// A tracer claims the first stop.
fn claim(tracer: u32) -> LoggedCall
    ensures { IsBoardCall result.command.call }
{
    call(BoardCall::Claim(tracer), STARTED)
}

/// The calls of a thread, each of which leads on to the next one.
fn thread_of<A: Allocator>(alloc: A, calls: &[LoggedCall]) -> Result<Vec<LoggedCall, A>, Fail>
    requires few { length calls.now ≤ 20 }
    requires asked { All (λ one. IsBoardCall one.command.call) calls.now }
    ensures asked { IfOk result (λ own. IsAskedWell own.items) }
    ensures onward { IfOk result (λ own. IsInLine own.items) }
{
    let mut own = Vec::new(alloc);
    for at in 0..calls.len() {
        let one = calls[at];
        own.push(LoggedCall {
            command: ThreadCommand {
                leave_to: (at + 1) as u32,
                ..one.command
            },
            stamp: one.stamp,
        })?;
    }
    Ok(own)
}

/// What is answered of a log of two threads over one row, within a budget.
fn verdict_of<A: Allocator + Copy>(
    alloc: A,
    first: &[LoggedCall],
    second: &[LoggedCall],
    budget: usize,
) -> Result<Result<Verdict<A>, CheckError>, Fail>
    requires few { length first.now ≤ 20 }
    requires few_more { length second.now ≤ 20 }
    requires asked { All (λ one. IsBoardCall one.command.call) first.now }
    requires asked_too { All (λ one. IsBoardCall one.command.call) second.now }
{
    let roster = Roster::new(alloc, &[ROOT])?;
    let one = thread_of(alloc, first)?;
    let other = thread_of(alloc, second)?;
    let mut calls = Vec::new(alloc);
    calls.push(one)?;
    calls.push(other)?;
    Ok(check_log(alloc, &roster, calls.as_slice(), budget))
}

/// The order that is answered, if the log is allowed.
fn order_in<A: Allocator>(verdict: Result<Verdict<A>, CheckError>) -> Option<Vec<Turn, A>> {
    match verdict {
        Ok(Verdict::Allowed(turns)) => Some(turns),
        _ => None,
    }
}

/// Whether the log is forbidden.
fn is_forbidden<A: Allocator>(verdict: Result<Verdict<A>, CheckError>) -> bool {
    matches!(verdict, Ok(Verdict::Forbidden))
}

/// The first stop can be claimed only after it is published.
#[test]
fn a_claim_comes_after_the_stop(rt: HostRuntime) -> Result<(), Fail> {
    let verdict = verdict_of(rt.alloc(), &[claim(3)], &[publish()], 3)?;
    let wanted = [
        Turn {
            thread: 1,
            row: 0,
            answer: Answer::Number(1),
        },
        Turn {
            thread: 0,
            row: 0,
            answer: Answer::Got(Got::Stop(1, 0x80057f)),
        },
    ];
    let order = order_in(verdict);
    assert!(rt; order.is_some_and(|turns| turns.as_slice() == wanted.as_slice()));
    Ok(())
}

/// A stop is claimed by one tracer only.
#[test]
fn a_second_claim_is_forbidden(rt: HostRuntime) -> Result<(), Fail> {
    let verdict = verdict_of(rt.alloc(), &[publish(), claim(3)], &[claim(4)], 100)?;
    assert!(rt; is_forbidden(verdict));
    Ok(())
}

/// Stamps that touch overlap; one that ends before another begins keeps its place.
#[test]
fn a_call_waits_for_those_that_ended(rt: HostRuntime) -> Result<(), Fail> {
    let touch = verdict_of(
        rt.alloc(),
        &[at(1, 5, claim(3))],
        &[at(5, 6, publish())],
        100,
    )?;
    assert!(rt; order_in(touch).is_some());
    let later = verdict_of(
        rt.alloc(),
        &[at(1, 4, claim(3))],
        &[at(5, 6, publish())],
        100,
    )?;
    assert!(rt; is_forbidden(later));
    Ok(())
}

/// The states are those before any turn, after the publish, and after the claim.
#[test]
fn a_budget_may_be_too_small(rt: HostRuntime) -> Result<(), Fail> {
    for budget in 0..3 {
        let verdict = verdict_of(rt.alloc(), &[publish(), claim(3)], &[], budget)?;
        assert!(rt; matches!(verdict, Err(CheckError::TooMany)));
    }
    let verdict = verdict_of(rt.alloc(), &[publish(), claim(3)], &[], 3)?;
    assert!(rt; order_in(verdict).is_some());
    Ok(())
}

/// The tracer that claimed the stop is not told that it does not hold it, nor does a thread that is stopped exit.
#[test]
fn a_reply_at_the_end_is_missing(rt: HostRuntime) -> Result<(), Fail> {
    let resume = call(
        BoardCall::Resume(
            3,
            Resume {
                kind: Kind::Cont,
                signal: 0,
            },
        ),
        WantedAnswer::Refused(Some(Refused::NotHolder)),
    );
    let verdict = verdict_of(rt.alloc(), &[publish(), claim(3), resume], &[], 100)?;
    assert!(rt; is_forbidden(verdict));
    let end = call(BoardCall::Exit(Death::Exited(0)), WantedAnswer::Done);
    let verdict = verdict_of(rt.alloc(), &[publish(), end], &[], 100)?;
    assert!(rt; is_forbidden(verdict));
    Ok(())
}

/// A claim that was not answered may not be made yet; but where it ended before a call that was answered, it was made.
#[test]
fn a_call_without_a_reply_may_be_missing(rt: HostRuntime) -> Result<(), Fail> {
    let missing = verdict_of(rt.alloc(), &[publish()], &[unanswered(claim(3))], 2)?;
    assert!(rt; order_in(missing).is_some_and(|turns| turns.len() == 1));
    let early = [at(1, 2, unanswered(claim(3)))];
    let made = verdict_of(rt.alloc(), &[at(3, 4, publish())], &early, 3)?;
    assert!(rt; order_in(made).is_some_and(|turns| turns.len() == 2));
    Ok(())
}

/// Without threads there is nothing to be made.
#[test]
fn no_calls_are_allowed(rt: HostRuntime) -> Result<(), Fail> {
    let roster = Roster::new(rt.alloc(), &[ROOT])?;
    let verdict = check_log(rt.alloc(), &roster, &[], 1);
    assert!(rt; matches!(verdict, Ok(Verdict::Allowed(_))));
    Ok(())
}
