//! A replay file read whole, before any command of it is run: no fault of a file depends on the board.

ghost use Rattle.std.specs.Prelude.{◌≡◌, All, IfErr, IfOk, List, Ok};
ghost use Rattle.replay_files.specs.declared.order.Order.{Order};
ghost use Rattle.replay_files.specs.Command.{IsCommand, IsOrder};
ghost use Rattle.replay_files.specs.File.{ReplayContent, replay_content_in, content_of, order_added, replay_line_read};
ghost use Rattle.replay_files.specs.File.{row_added};
ghost use Rattle.stop_history.specs.declared.roster.Row.{Row};
ghost use Rattle.stop_history.specs.Roster.{push_fault, row_of};
ghost use Rattle.trace_script.specs.Reading.{Refuses, TakesLine};

use crate::command::Command;
use crate::grammar::{Line, read_words};
use crate::order::Order;
use std::alloc::Allocator;
use stop_board::{Roster, Row};
use text_lines::Words;
use trace_script::{CaseError, Cause, TakesLines, read_file};

/// The shortest line that is a command.
const SHORTEST: usize = b"state 1\n".len();

/// How many guesses at rows are kept: one for each remainder of a thread id.
pub const GUESSES: usize = 256;

/// What was read of a file: its rows, and the commands to them, each in the order of the file.
#[derive(Drop)]
pub(crate) struct ReplayFile<A: Allocator> {
    pub(crate) rows: Roster<A>,
    pub(crate) orders: Vec<Order, A>,
    /// The rows that were found last.
    guesses: [u32; GUESSES],
    /// Room for how many commands is made with the first one.
    room: usize,
}

impl<'t, A: Allocator> TakesLines<'t> for ReplayFile<A> {
    ghost Content = { ReplayContent };

    ghost content = { replay_content_in };

    ghost line_read = { λ n. replay_line_read };

    ghost IsSound = { λ file. All IsOrder file.orders.items };

    fn take_line(&mut self, _number: u32, line: &'t [u8]) -> Result<(), Cause> {
        match read_words(!self.orders.is_empty(), Words::of(line))? {
            Line::Nothing => Ok(()),
            Line::Row(row) => take_row(&mut self.rows, row),
            Line::Command(tid, command) => {
                let row = row_of(&self.rows, &mut self.guesses, tid);
                take_order(&mut self.orders, row, command, self.room)
            }
        }
    }
}

/// Takes one more row.
fn take_row<A: Allocator>(rows: &mut Roster<A>, row: Row) -> Result<(), Cause>
    ensures { (orders : List Order) → TakesLine result (record { rows = rows.new; orders = orders })
        (row_added (record { rows = rows.old; orders = orders }) row (push_fault rows.old row)) }
{
    Ok(rows.push(row)?)
}

/// The row of a thread id. A guess is the row that was last found for a thread id of the same remainder: it may be
/// wrong, so it is the answer only where its row has the thread id.
pub fn row_of<A: Allocator>(rows: &Roster<A>, guesses: &mut [u32; GUESSES], tid: u32) -> Option<u32>
    ensures { result ≡ row_of rows.now tid }
{
    let place = tid as usize % GUESSES;
    let guess = guesses[place];
    match rows.rows().get(guess as usize) {
        Some(row) if row.tid == tid => Some(guess),
        _ => {
            let found = rows.row_of(tid)?;
            guesses[place] = found;
            Some(found)
        }
    }
}

/// Takes one more command, to this row if there is one. The first one makes room for all that may follow.
fn take_order<A: Allocator>(
    orders: &mut Vec<Order, A>,
    row: Option<u32>,
    command: Command,
    room: usize,
) -> Result<(), Cause>
    requires { IsCommand command }
    ensures order { (rows : List Row) → TakesLine result (record { rows = rows; orders = orders.new.items })
        (order_added (record { rows = rows; orders = orders.old.items }) command row) }
    ensures range { All IsOrder orders.old.items → All IsOrder orders.new.items }
{
    let Some(row) = row else {
        return Err(Cause::NoSuchTracee);
    };
    if orders.is_empty() && orders.reserve(room).is_err() {
        return Err(Cause::NoMemory);
    }
    if orders.push(Order { row, command }).is_err() {
        return Err(Cause::NoMemory);
    }
    Ok(())
}

/// What a file says, or its first fault.
pub(crate) fn read<A: Allocator + Copy>(alloc: A, text: &[u8]) -> Result<ReplayFile<A>, CaseError>
    ensures ok { IfOk result (λ file. content_of text.now ≡ Ok (replay_content_in file)) }
    ensures err { let read = content_of text.now in
        IfErr result (λ error. Refuses text.now error.cause error.line read read) }
    ensures range { IfOk result (λ file. All IsOrder file.orders.items) }
{
    let nothing = ReplayFile {
        rows: Roster::empty(alloc),
        orders: Vec::new(alloc),
        guesses: [0; GUESSES],
        room: text.len() / SHORTEST + 1,
    };
    read_file(nothing, text)
}
