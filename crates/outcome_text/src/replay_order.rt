//! The order of an outcome as a replay file: `tracer replay` runs it.

ghost use Rattle.std.specs.Prelude.{◌≡◌, ◌++◌, IfOk, OnOk, length, map, option_map, string_bytes};
ghost use Rattle.stop_board.specs.Board.{IsHeld};
ghost use Rattle.stop_history.specs.Word.{state_by};
ghost use Rattle.stop_program.specs.Threads.{commands_in};
ghost use Rattle.outcome_text.specs.Chosen.{chosen_of};
ghost use Rattle.outcome_text.specs.OutcomeOrder.{HaveCalls, ending_replay, order_of_call, orders_of, orders_of_call};
ghost use Rattle.outcome_text.specs.OutcomeOrder.{outcome_replay};
ghost use Rattle.outcome_text.specs.OutcomeText.{command_of_turn};
ghost use Rattle.replay_files.specs.Spelling.{orders_text};

use crate::chosen::{chosen_run, thread_commands};
use crate::replay_text::{write_order, write_rows};
use litmus_files::Condition;
use std::alloc::Allocator;
use stop_board::{BoardWords, NoMemory, Roster, Row};
use stop_explorer::{Explored, FoundRun};
use stop_program::{
    BoardCall, RowCall, ThreadCommand, Turn, command_after, make_turn, single_calls,
};

/// The command that a turn did, after the turns before it.
pub(crate) fn command_of_turn<A: Allocator>(
    commands: &[Vec<ThreadCommand, A>],
    before: &[Turn],
    turn: &Turn,
) -> Option<ThreadCommand>
    ensures { result ≡ command_of_turn (commands_in commands.now) before.now turn.now }
{
    let own = thread_commands(commands, turn.thread as usize);
    command_after(own, before, turn.thread)
}

/// Writes an outcome's order as a replay file: the rows, and then each turn that is about one of them. Turns about no
/// row are left out.
pub(crate) fn write_as_replay<A: Allocator + Copy, B: Allocator>(
    alloc: A,
    out: &mut String<A>,
    roster: &Roster<B>,
    commands: &[Vec<ThreadCommand, A>],
    run: &FoundRun<A>,
) -> Result<(), NoMemory>
    requires { HaveCalls (commands_in commands.now) }
    ensures { OnOk result (string_bytes out.new
        ≡ string_bytes out.old ++ ending_replay roster.now (commands_in commands.now) run.now) }
{
    write_rows(out, roster.rows())?;
    write_orders(alloc, out, roster, commands, run.turns())
}

/// Writes the orders of turns, each as a line. What the end of a thread group is made of goes by the states before it, so
/// the turns are made once more on a board.
fn write_orders<A: Allocator + Copy, B: Allocator>(
    alloc: A,
    out: &mut String<A>,
    roster: &Roster<B>,
    commands: &[Vec<ThreadCommand, A>],
    turns: &[Turn],
) -> Result<(), NoMemory>
    requires { HaveCalls (commands_in commands.now) }
    ensures { OnOk result (string_bytes out.new ≡ string_bytes out.old
        ++ orders_text roster.now (orders_of roster.now (commands_in commands.now) turns.now)) }
{
    let mut before = BoardWords::new(alloc, roster)?;
    let mut after = BoardWords::new(alloc, roster)?;
    for (i, turn) in turns.iter().enumerate() {
        if let Some(command) = command_of_turn(commands, &turns[..i], turn) {
            write_turn(alloc, out, &before, turn.row, command.call)?;
            make_turn(&before, &mut after, turn.row, command.call);
            before.copy_from(&after);
        }
    }
    Ok(())
}

/// Writes the orders of a call about a row, each as a line.
fn write_turn<A: Allocator + Copy, B: Allocator>(
    alloc: A,
    out: &mut String<A>,
    board: &BoardWords<'_, A, B>,
    row: u32,
    asked: BoardCall,
) -> Result<(), NoMemory>
    ensures written { OnOk result (string_bytes out.new ≡ string_bytes out.old
        ++ orders_text board.now.rows (orders_of_call board.now.rows (state_by board.now.rows board.now.words) row asked)) }
    ensures held { IsHeld board.now.rows board.now.words }
{
    if row < board.len() {
        let calls = single_calls(alloc, board, row, asked)?;
        write_calls(out, board.rows(), calls.as_slice())?;
    }
    Ok(())
}

/// Writes calls of one row each, each as a line.
fn write_calls<A: Allocator>(
    out: &mut String<A>,
    rows: &[Row],
    calls: &[RowCall],
) -> Result<(), NoMemory>
    ensures { OnOk result (string_bytes out.new
        ≡ string_bytes out.old ++ orders_text rows.now (map order_of_call calls.now)) }
{
    for one in calls {
        write_order(out, rows, one)?;
    }
    Ok(())
}

/// The outcome that is printed with this number, as a replay file, if there is one.
pub fn outcome_replay<A: Allocator + Copy, B: Allocator>(
    alloc: A,
    roster: &Roster<B>,
    commands: &[Vec<ThreadCommand, A>],
    conditions: &[Condition],
    explored: &Explored<A>,
    number: usize,
) -> Result<Option<String<A>>, NoMemory>
    requires { HaveCalls (commands_in commands.now) }
    ensures { IfOk result (λ found. option_map string_bytes found
        ≡ outcome_replay roster.now (commands_in commands.now) number
        (chosen_of (length commands.now) (commands_in commands.now) conditions.now explored.now.runs)) }
{
    let Some(run) = chosen_run(alloc, commands, conditions, explored, number)? else {
        return Ok(None);
    };
    let mut out = String::new(alloc);
    write_as_replay(alloc, &mut out, roster, commands, &run)?;
    Ok(Some(out))
}
