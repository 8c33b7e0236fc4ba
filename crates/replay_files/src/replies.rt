//! The replies to the commands of a file, each on a line.

ghost use Rattle.std.specs.Prelude.{◌≡◌, ◌++◌, ◌≤◌, ◌∷◌, [], length, All, OnOk, codes, decimal, string_bytes};
ghost use Rattle.replay_files.specs.Command.{IsOrder};
ghost use Rattle.replay_files.specs.Replies.{at_status, done_text, got_text, history_after_command};
ghost use Rattle.replay_files.specs.Replies.{published_text, refusal_name, refusal_text, replies, reply_text};
ghost use Rattle.replay_files.specs.Replies.{state_details, state_text};
ghost use Rattle.replay_files.specs.StateName.{state_word};
ghost use Rattle.stop_history.specs.Roster.{row_at};
ghost use Rattle.stop_history.specs.declared.limits.TheConstants.{MOST_ROWS, TRACERS};
ghost use Rattle.stop_board.specs.World.{Moment, StandsAt};
ghost use Rattle.stop_board.specs.OneThread.{HasHistory};

use crate::command::Command;
use crate::order::Order;
use crate::state_name::state_word;
use itoa::Buffer;
use std::alloc::Allocator;
use stop_board::{Got, NoMemory, Refused, Row, State, World};

/// Writes a number in decimal between two texts. Most replies have one, and `write!` takes several times as long.
#[tactic(auto, using(crate::proofs::Written::in_three))]
pub fn write_number<A: Allocator>(
    out: &mut String<A>,
    before: &str,
    number: u32,
    after: &str,
) -> Result<(), NoMemory>
    ensures { OnOk result (string_bytes out.new
        ≡ string_bytes out.old ++ ((before.now ++ decimal number) ++ after.now)) }
{
    let mut buffer = Buffer::new();
    out.push_str(before)?;
    out.push_str(buffer.format(number))?;
    out.push_str(after)?;
    Ok(())
}

/// Writes a text, a number and a status, as a line.
#[tactic(auto, using(crate::proofs::Written::at_status_line))]
fn write_at_status<A: Allocator>(
    out: &mut String<A>,
    before: &str,
    number: u32,
    status: u32,
) -> Result<(), NoMemory>
    ensures { OnOk result (string_bytes out.new
        ≡ string_bytes out.old ++ ((before.now ++ at_status number status) ++ 10 ∷ [])) }
{
    write_number(out, before, number, " 0x")?;
    write!(out, "{status:06x}\n")?;
    Ok(())
}

/// Writes the answer to a publish as a line: the number of its stop, or its refusal.
pub fn write_published<A: Allocator>(
    out: &mut String<A>,
    rows: &[Row],
    answer: Result<u32, Refused>,
) -> Result<(), NoMemory>
    ensures { OnOk result (string_bytes out.new ≡ string_bytes out.old ++ (published_text rows.now answer ++ 10 ∷ [])) }
{
    match answer {
        Ok(number) => write_number(out, "published ", number, "\n"),
        Err(refusal) => write_refusal(out, rows, refusal),
    }
}

/// Writes the answer to a claim as a line: the stop or the death that it got, or its refusal.
pub fn write_got<A: Allocator>(
    out: &mut String<A>,
    rows: &[Row],
    answer: Result<Got, Refused>,
) -> Result<(), NoMemory>
    ensures { OnOk result (string_bytes out.new ≡ string_bytes out.old ++ (got_text rows.now answer ++ 10 ∷ [])) }
{
    match answer {
        Ok(Got::Stop(number, status)) => write_at_status(out, "stop ", number, status),
        Ok(Got::Ended(number, status)) => write_at_status(out, "ended ", number, status),
        Err(refusal) => write_refusal(out, rows, refusal),
    }
}

/// Writes a refusal, as a line.
#[tactic(auto, using(crate::proofs::Written::in_three))]
pub fn write_refusal<A: Allocator>(
    out: &mut String<A>,
    rows: &[Row],
    refusal: Refused,
) -> Result<(), NoMemory>
    ensures { OnOk result (string_bytes out.new ≡ string_bytes out.old ++ (refusal_text rows.now refusal ++ 10 ∷ [])) }
{
    out.push_str("refused ")?;
    write_refusal_name(out, rows, refusal)?;
    out.push_str("\n")?;
    Ok(())
}

/// Writes the name of a refusal. Another row of a leader's group, which holds its exit back, is named by its thread id.
pub fn write_refusal_name<A: Allocator>(
    out: &mut String<A>,
    rows: &[Row],
    refusal: Refused,
) -> Result<(), NoMemory>
    ensures { OnOk result (string_bytes out.new ≡ string_bytes out.old ++ refusal_name rows.now refusal) }
{
    match refusal {
        Refused::NoRow => out.push_str("NoRow")?,
        Refused::Unborn => out.push_str("Unborn")?,
        Refused::NotRunning => out.push_str("NotRunning")?,
        Refused::NotTaken => out.push_str("NotTaken")?,
        Refused::NotNext => out.push_str("NotNext")?,
        Refused::Full => out.push_str("Full")?,
        Refused::NotWaitable => out.push_str("NotWaitable")?,
        Refused::NotClaimed => out.push_str("NotClaimed")?,
        Refused::NotHolder => out.push_str("NotHolder")?,
        Refused::GroupAlive(row) => write_number(out, "GroupAlive ", tid_at(rows, row), "")?,
    }
    Ok(())
}

/// The thread id of a row, 0 of none.
pub fn tid_at(rows: &[Row], row: u32) -> u32
    ensures { result ≡ (row_at rows.now row).tid }
{
    match rows.get(row as usize) {
        Some(row) => row.tid,
        None => 0,
    }
}

/// Writes the answer to another call as a line: that it was done, in this word, or its refusal.
#[tactic(auto, using(crate::proofs::Written::in_two))]
pub fn write_done<A: Allocator>(
    out: &mut String<A>,
    rows: &[Row],
    done: &str,
    answer: Result<(), Refused>,
) -> Result<(), NoMemory>
    ensures { OnOk result (string_bytes out.new
        ≡ string_bytes out.old ++ (done_text done.now rows.now answer ++ 10 ∷ [])) }
{
    match answer {
        Ok(()) => {
            out.push_str(done)?;
            out.push_str("\n")?;
            Ok(())
        }
        Err(refusal) => write_refusal(out, rows, refusal),
    }
}

/// Writes a state, as a line.
#[tactic(auto, using(crate::proofs::Written::in_two))]
pub fn write_state<A: Allocator>(out: &mut String<A>, state: State) -> Result<(), NoMemory>
    ensures { OnOk result (string_bytes out.new ≡ string_bytes out.old ++ (state_text state ++ 10 ∷ [])) }
{
    out.push_str(state_word(state))?;
    write_state_details(out, state)
}

/// Writes the numbers that follow a state's word, and ends the line.
fn write_state_details<A: Allocator>(out: &mut String<A>, state: State) -> Result<(), NoMemory>
    ensures { OnOk result (string_bytes out.new ≡ string_bytes out.old ++ (state_details state ++ 10 ∷ [])) }
{
    match state {
        State::Stopped(number, status) | State::Dead(number, status) => {
            write_at_status(out, " ", number, status)
        }
        State::Claimed(number, tracer) => {
            write!(out, " {number} {tracer}\n")?;
            Ok(())
        }
        State::Absent | State::Unborn | State::Running | State::Reaped => {
            out.push_str("\n")?;
            Ok(())
        }
    }
}

/// Does what a command asks of the World, and writes the answer as a line.
fn reply<A: Allocator, B: Allocator>(
    out: &mut String<B>,
    rows: &[Row],
    world: &mut World<A>,
    order: Order,
) -> Result<(), NoMemory>
    requires range { IsOrder order }
    requires rows { rows.now ≡ world.old.rows }
    requires few { length rows.now ≤ MOST_ROWS }
    requires tracers { world.old.tracers ≡ TRACERS }
    ensures text { (m : Moment) → StandsAt world.old m →
        OnOk result (string_bytes out.new
        ≡ string_bytes out.old ++ (reply_text rows.now m.history order.row order.command ++ 10 ∷ [])) }
    ensures stands { (m : Moment) → StandsAt world.old m →
        HasHistory world.new (history_after_command rows.now m.history order.row order.command) }
    ensures rows { world.new.rows ≡ world.old.rows }
    ensures tracers { world.new.tracers ≡ world.old.tracers }
{
    let row = order.row;
    match order.command {
        Command::Publish(stop) => write_published(out, rows, world.publish(row, stop)),
        Command::Claim(tracer) => write_got(out, rows, world.claim(row, tracer)),
        Command::Resume(tracer, how) => {
            let answer = world.resume(row, tracer, how);
            write_done(out, rows, "resumed", answer)
        }
        Command::Exit(death) => write_done(out, rows, "exited", world.exit(row, death)),
        Command::State => write_state(out, world.state(row)),
    }
}

/// The replies to the commands, in order.
pub(crate) fn write_replies<A: Allocator, B: Allocator>(
    out: &mut String<B>,
    rows: &[Row],
    world: &mut World<A>,
    orders: &[Order],
) -> Result<(), NoMemory>
    requires range { All IsOrder orders.now }
    requires rows { rows.now ≡ world.old.rows }
    requires few { length rows.now ≤ MOST_ROWS }
    requires tracers { world.old.tracers ≡ TRACERS }
    ensures { (m : Moment) → StandsAt world.old m →
        OnOk result (string_bytes out.new ≡ string_bytes out.old ++ replies rows.now m.history orders.now) }
{
    for order in orders {
        reply(out, rows, world, *order)?;
    }
    Ok(())
}
