//! Laws of the definitions: each function is its contract alone.

ghost use Rattle.std.specs.Prelude.{◌≡◌, ◌<◌, ◌↔◌, All, Bool, List, Option, Some, ℕ, true};
ghost use Rattle.std.specs.List.Sorted.{IsPermutation};
ghost use Rattle.record_printer.specs.FolderAnswers.{lost, pieces_text, refusal};
ghost use Rattle.record_printer.specs.Note.{Note};
ghost use Rattle.record_printer.specs.Piece.{Piece};
ghost use Rattle.record_printer.specs.Represents.{AreTaken};
ghost use Rattle.stop_history.specs.declared.roster.Row.{Row};
ghost use Rattle.record_printer.specs.CallStarts.{IsCallStart, IsPair, is_call_start, is_exit, next_bound, note_at};
ghost use Rattle.record_printer.specs.PrintedRow.{row_lines};
ghost use Rattle.record_printer.specs.Quote.{shortened};
ghost use Rattle.record_printer.specs.RowFold.{empty_fold, fold_after_all, fold_text};

/// The starts and the ends of calls that the lines are made of are those that are said of the places of stops.
pub fn calls_are_said_of_places()
    ensures starts { (notes : List Note) (i : ℕ) → is_call_start notes i ≡ true ↔ IsCallStart notes i }
    ensures pairs { (notes : List Note) (i j : ℕ) → IsPair notes i j → next_bound notes i ≡ Some j }
    ensures bounds { (notes : List Note) (i j : ℕ) → IsCallStart notes i → is_exit (note_at notes j) ≡ true
        → next_bound notes i ≡ Some j → IsPair notes i j }
{}

/// The lines of a row are those of its stops, folded one by one with one pending call.
pub fn lines_are_folded()
    ensures { (notes : List Note) (death : Option (List ℕ)) →
        row_lines notes death ≡ fold_text (fold_after_all empty_fold notes) death }
{}

/// Bytes in quotes with or without dots after them are the only ones with their text.
pub fn quotes_are_one_to_one()
    ensures { (more less : Bool) (a b : List ℕ) → All (λ byte. byte < 256) a → All (λ byte. byte < 256) b
        → shortened more a ≡ shortened less b → (more ≡ less) × (a ≡ b) }
{}

/// The order in which pieces arrive changes no answer of a folder: neither why a further piece is refused, nor what is
/// lost, nor the text.
pub fn order_of_arrival_changes_no_answer()
    ensures text { (rows : List Row) (came other : List Piece) → AreTaken rows came → IsPermutation came other
        → pieces_text rows other ≡ pieces_text rows came }
    ensures lost { (rows : List Row) (came other : List Piece) → AreTaken rows came → IsPermutation came other
        → lost rows other ≡ lost rows came }
    ensures refusal { (rows : List Row) (came other : List Piece) → AreTaken rows came → IsPermutation came other
        → (piece : Piece) → refusal rows other piece ≡ refusal rows came piece }
{}
