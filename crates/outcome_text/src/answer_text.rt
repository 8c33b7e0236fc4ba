//! The text of what a thread's command was answered, or that it waits.

ghost use Rattle.std.specs.Prelude.{◌≡◌, ◌++◌, ◌∷◌, [], Ok, Option, OnOk, codes, decimal, string_bytes};
ghost use Rattle.std.specs.Result.{result_err};
ghost use Rattle.stop_history.specs.History.{holding_back};
ghost use Rattle.stop_history.specs.Roster.{row_at};
ghost use Rattle.stop_history.specs.Sequential.{exit_by};
ghost use Rattle.outcome_text.specs.AnswerText.{answer_text, done_word, reason_text, taken_row, waits_text};
ghost use Rattle.replay_files.specs.Replies.{got_text};
ghost use Rattle.outcome_text.specs.Waiting.{state_at, waiting_refusal};

use crate::waiting::{holding_back, row_at, state_at};
use replay_files::{
    tid_at, write_done, write_got, write_number, write_published, write_refusal,
    write_refusal_name, write_state,
};
use std::alloc::Allocator;
use stop_board::{Got, NoMemory, Refused, Row, State, rules};
use stop_program::{Answer, BoardCall, ThreadCommand, Turn, Which, kill_refusal};

/// Writes what a turn was answered, to the end of the line.
pub(crate) fn write_answer<A: Allocator>(
    out: &mut String<A>,
    rows: &[Row],
    command: &ThreadCommand,
    turn: &Turn,
) -> Result<(), NoMemory>
    ensures { OnOk result (string_bytes out.new
        ≡ string_bytes out.old ++ (answer_text rows.now command.now turn.now ++ 10 ∷ [])) }
{
    match turn.answer {
        Answer::Number(number) => write_published(out, rows, Ok(number)),
        Answer::State(state) => write_state(out, state),
        Answer::Got(got) | Answer::Saw(got) => {
            write_taken(out, rows, command.which, turn.row, got)
        }
        Answer::Done => write_done(out, rows, done_word(command.call), Ok(())),
        Answer::Dead => {
            out.push_str("dead\n")?;
            Ok(())
        }
        Answer::Nothing => {
            out.push_str("nothing\n")?;
            Ok(())
        }
        Answer::NoChild => {
            out.push_str("no child\n")?;
            Ok(())
        }
        Answer::Refused(refusal) => write_refusal(out, rows, refusal),
    }
}

/// The answer to a call that is done.
fn done_word(asked: BoardCall) -> &'static str
    ensures { result.now ≡ done_word asked }
{
    match asked {
        BoardCall::Resume(..) => "resumed",
        BoardCall::Exit(_) | BoardCall::ExitGroup(_) => "exited",
        BoardCall::Kill => "killed",
        _ => "done",
    }
}

/// Writes the stop or the death that was got of a row, with its thread id before it where the command takes any row, or
/// any of a group.
#[tactic(auto, using(replay_files::proofs::Written::in_line))]
fn write_taken<A: Allocator>(
    out: &mut String<A>,
    rows: &[Row],
    which: Which,
    row: u32,
    got: Got,
) -> Result<(), NoMemory>
    ensures { OnOk result (string_bytes out.new
        ≡ string_bytes out.old ++ ((taken_row rows.now which row ++ got_text rows.now (Ok got)) ++ 10 ∷ [])) }
{
    write_taken_row(out, rows, which, row)?;
    write_got(out, rows, Ok(got))?;
    Ok(())
}

fn write_taken_row<A: Allocator>(
    out: &mut String<A>,
    rows: &[Row],
    which: Which,
    row: u32,
) -> Result<(), NoMemory>
    ensures { OnOk result (string_bytes out.new ≡ string_bytes out.old ++ taken_row rows.now which row) }
{
    match which {
        Which::Any | Which::Group(_) => write_number(out, "", tid_at(rows, row), " "),
        Which::Row(_) | Which::Last => Ok(()),
    }
}

/// Writes that a command waits, to the end of the line: with the refusal that its call would get in these states, if it
/// is about one row.
#[tactic(auto, using(replay_files::proofs::Written::in_line))]
pub(crate) fn write_waits<A: Allocator>(
    out: &mut String<A>,
    rows: &[Row],
    states: &[State],
    command: &ThreadCommand,
) -> Result<(), NoMemory>
    ensures { OnOk result (string_bytes out.new
        ≡ string_bytes out.old ++ (waits_text rows.now states.now command.now ++ 10 ∷ [])) }
{
    out.push_str("waits")?;
    match command.which {
        Which::Row(row) => write_refusal_of(out, rows, states, row, command.call)?,
        Which::Any | Which::Group(_) | Which::Last => out.push_str("\n")?,
    }
    Ok(())
}

/// Writes the refusal that a call about a row would get.
fn write_refusal_of<A: Allocator>(
    out: &mut String<A>,
    rows: &[Row],
    states: &[State],
    row: u32,
    asked: BoardCall,
) -> Result<(), NoMemory>
    ensures { OnOk result (string_bytes out.new ≡ string_bytes out.old
        ++ (reason_text rows.now (waiting_refusal rows.now (state_at states.now) row asked) ++ 10 ∷ [])) }
{
    let state = state_at(states, row as usize);
    match asked {
        BoardCall::Publish(_) | BoardCall::ExitGroup(_) => {
            write_reason(out, rows, rules::running(state).err())
        }
        BoardCall::State => write_reason(out, rows, None),
        BoardCall::Look(tracer) | BoardCall::Claim(tracer) => {
            write_reason(out, rows, rules::claimable(tracer, state).err())
        }
        BoardCall::Resume(tracer, _) => {
            write_reason(out, rows, rules::resumable(tracer, state).err())
        }
        BoardCall::Exit(_) => write_exit_refusal(out, rows, states, row as usize),
        BoardCall::Kill => write_reason(out, rows, kill_refusal(state)),
    }
}

/// Writes the refusal that the exit of a row would get.
fn write_exit_refusal<A: Allocator>(
    out: &mut String<A>,
    rows: &[Row],
    states: &[State],
    at: usize,
) -> Result<(), NoMemory>
    ensures { OnOk result (string_bytes out.new ≡ string_bytes out.old
        ++ (reason_text rows.now (result_err (exit_by (holding_back rows.now (state_at states.now) at)
        (state_at states.now at))) ++ 10 ∷ [])) }
{
    if let Err(refusal) = rules::running(state_at(states, at)) {
        return write_reason(out, rows, Some(refusal));
    }
    match holding_back(rows, states, at) {
        Some(other) => write_group_alive(out, row_at(rows, other).tid),
        None => write_reason(out, rows, None),
    }
}

/// Writes a refusal, if there is one, as the last words of the line.
#[tactic(auto, using(replay_files::proofs::Written::in_three))]
fn write_reason<A: Allocator>(
    out: &mut String<A>,
    rows: &[Row],
    refusal: Option<Refused>,
) -> Result<(), NoMemory>
    ensures { OnOk result (string_bytes out.new
        ≡ string_bytes out.old ++ (reason_text rows.now refusal ++ 10 ∷ [])) }
{
    let Some(refusal) = refusal else {
        out.push_str("\n")?;
        return Ok(());
    };
    out.push_str(" ")?;
    write_refusal_name(out, rows, refusal)?;
    out.push_str("\n")?;
    Ok(())
}

/// Writes that another row of a leader's thread group is alive, by that row's thread id.
fn write_group_alive<A: Allocator>(out: &mut String<A>, tid: u32) -> Result<(), NoMemory>
    ensures { OnOk result (string_bytes out.new
        ≡ string_bytes out.old ++ ((codes " GroupAlive " ++ decimal tid) ++ 10 ∷ [])) }
{
    write_number(out, " GroupAlive ", tid, "\n")
}
