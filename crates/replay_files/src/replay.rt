//! A replay file from bytes to bytes.

ghost use Rattle.std.specs.Prelude.{◌≡◌, [], All, IfErr, IfOk, Ok};
ghost use Rattle.replay_files.specs.Command.{IsOrder};
ghost use Rattle.trace_script.specs.Reading.{Refuses};
ghost use Rattle.replay_files.specs.File.{content_of};
ghost use Rattle.replay_files.specs.Replay.{replay_of};
ghost use Rattle.replay_files.specs.Replies.{replies};

use crate::order::Order;
use crate::reading::read;
use crate::replies::write_replies;
use std::alloc::Allocator;
use stop_board::{NoMemory, Roster, TRACERS, World};
use text_lines::last_line;
use trace_script::{CaseError, Cause};

/// The longest reply is that of a leader's exit which a row of seven digits holds back.
const LONGEST: usize = b"refused GroupAlive 4194303\n".len();

/// The replies of the one-thread stop board to the commands of a replay file, a line each, or why the file is
/// refused: its first faulty line, with the first cause of that line. Out of memory is reported on a line that has no
/// fault and before which no line has one, at most the last line.
pub fn replay_text<A: Allocator + Copy>(alloc: A, text: &[u8]) -> Result<Vec<u8, A>, CaseError>
    ensures ok { IfOk result (λ bytes. replay_of text.now ≡ Ok bytes.items) }
    ensures err { IfErr result (λ error.
        Refuses text.now error.cause error.line (content_of text.now) (replay_of text.now)) }
{
    let script = read(alloc, text)?;
    match run(alloc, &script.rows, script.orders.as_slice()) {
        Ok(bytes) => Ok(bytes),
        Err(NoMemory) => Err(CaseError {
            line: last_line(text),
            cause: Cause::NoMemory,
        }),
    }
}

/// The replies to orders on a new World.
fn run<A: Allocator + Copy>(
    alloc: A,
    roster: &Roster<A>,
    orders: &[Order],
) -> Result<Vec<u8, A>, NoMemory>
    requires { All IsOrder orders.now }
    ensures { IfOk result (λ bytes. bytes.items ≡ replies roster.now [] orders.now) }
{
    let mut world = World::new(alloc, roster, TRACERS)?;
    let mut out = String::with_capacity(alloc, orders.len().saturating_mul(LONGEST))?;
    write_replies(&mut out, roster.rows(), &mut world, orders)?;
    Ok(out.into_bytes())
}
