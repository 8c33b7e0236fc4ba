ghost use Rattle.std.specs.Prelude.{◌≡◌, ◌++◌, ◌∷◌, [], None, Some, codes};
ghost use Rattle.record_printer.specs.Note.{Enter, Exit, Quiet, Seccomp, Signal};
ghost use Rattle.record_printer.specs.PrintedRow.{row_lines};
ghost use Rattle.record_printer.specs.WorkedRows.{exited_line, getpid, hundred, line, sigusr1_line};

use super::laws::{calls_are_said_of_places, lines_are_folded, order_of_arrival_changes_no_answer};
use super::*;

/// The lines of rows that were worked out by hand: a signal inside a call is printed after it; a second start in place
/// of the end leaves the first call without a line; the seccomp stop of a call that has stopped at its entry starts
/// none; a row that lives has no unfinished line.
#[tactic(auto, unfolding(crate::specs::PrintedRow::row_lines))]
fn worked_rows()
    ensures signal { row_lines (Quiet ∷ Enter getpid ∷ Signal sigusr1_line ∷ Exit hundred ∷ []) (Some exited_line)
        ≡ line (codes "100 getpid() = 100") ++ (sigusr1_line ++ exited_line) }
    ensures two_enters { row_lines (Quiet ∷ Enter getpid ∷ Signal sigusr1_line ∷ Enter getpid ∷ []) (Some exited_line)
        ≡ sigusr1_line ++ (line (codes "100 getpid() = ?") ++ exited_line) }
    ensures two_seccomps { row_lines (Quiet ∷ Seccomp getpid ∷ Signal sigusr1_line ∷ Seccomp getpid ∷ [])
        (Some exited_line) ≡ sigusr1_line ++ (line (codes "100 getpid() = ?") ++ exited_line) }
    ensures both { row_lines (Quiet ∷ Enter getpid ∷ Seccomp getpid ∷ Exit hundred ∷ []) (Some exited_line)
        ≡ line (codes "100 getpid() = 100") ++ exited_line }
    ensures alive { row_lines (Enter getpid ∷ Exit hundred ∷ Enter getpid ∷ []) None
        ≡ line (codes "100 getpid() = 100") }
{}

#[test]
fn rows_have_the_lines_that_were_worked_out() {
    worked_rows();
}

#[test]
fn the_laws_are_there() {
    calls_are_said_of_places();
    lines_are_folded();
    order_of_arrival_changes_no_answer();
}

pub(crate) mod compare;
mod folder;
mod piece_growth;
mod refusals;
mod writers;
