//! Rows and commands as the lines of a replay file.

ghost use Rattle.std.specs.Prelude.{◌≡◌, ◌++◌, ℕ, false, List, OnOk, string_bytes};
ghost use Rattle.text_lines.specs.Lines.{line_text};
ghost use Rattle.litmus_files.specs.CommandText.{board_call_words};
ghost use Rattle.outcome_text.specs.OutcomeOrder.{order_of_call, replayed_call};
ghost use Rattle.replay_files.specs.Spelling.{order_words, row_words, rows_text, words_about};

use crate::command_text::write_call;
use std::alloc::Allocator;
use stop_board::{NoMemory, Row};
use stop_program::{BoardCall, RowCall, Which};

/// Writes rows, each as its line.
pub(crate) fn write_rows<A: Allocator>(out: &mut String<A>, rows: &[Row]) -> Result<(), NoMemory>
    ensures { OnOk result (string_bytes out.new ≡ string_bytes out.old ++ rows_text rows.now) }
{
    for row in rows {
        write_row(out, row)?;
    }
    Ok(())
}

fn write_row<A: Allocator>(out: &mut String<A>, row: &Row) -> Result<(), NoMemory>
    ensures { OnOk result (string_bytes out.new ≡ string_bytes out.old ++ line_text (row_words row.now)) }
{
    write!(
        out,
        "row {} {} {} {}\n",
        row.tid, row.tgid, row.pgid, row.parent
    )?;
    Ok(())
}

/// Writes a call of one row as a command of a replay file, as its line.
pub(crate) fn write_order<A: Allocator>(
    out: &mut String<A>,
    rows: &[Row],
    one: &RowCall,
) -> Result<(), NoMemory>
    ensures { OnOk result (string_bytes out.new
        ≡ string_bytes out.old ++ line_text (order_words rows.now (order_of_call one.now))) }
{
    write_call(out, rows, Which::Row(one.row), false, replayed(one.call))?;
    out.push_str("\n")?;
    Ok(())
}

/// A call as a replay file has it. A look leaves the stop where it is, as a question for the state does. A replay file
/// has no command that ends a thread group.
fn replayed(asked: BoardCall) -> BoardCall
    ensures { (tracee : List ℕ) → board_call_words tracee false result ≡ words_about tracee (replayed_call asked) }
{
    match asked {
        BoardCall::Look(_) | BoardCall::Kill | BoardCall::ExitGroup(_) => BoardCall::State,
        BoardCall::Publish(_)
        | BoardCall::State
        | BoardCall::Claim(_)
        | BoardCall::Resume(..)
        | BoardCall::Exit(_) => asked,
    }
}
