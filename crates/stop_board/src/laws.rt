//! Laws of the definitions: each function is its contract alone.

ghost use Rattle.std.specs.Prelude.{◌≡◌, ◌<◌, ◌++◌, ℕ, true, List, Some, length};
ghost use Rattle.stop_board.specs.Waitable.{AreGone};
ghost use Rattle.stop_board.specs.World.{Moment, Replies};
ghost use Rattle.stop_board.specs.declared.world.action.Action.TheVariants as action;
ghost use Rattle.stop_board.specs.declared.world.action.Reply.TheVariants as reply;
ghost use Rattle.stop_history.specs.Actor.{numbered_actor};
ghost use Rattle.stop_history.specs.Event.{History};
ghost use Rattle.stop_history.specs.History.{IsLegal};
ghost use Rattle.stop_history.specs.Roster.{IsRoster};
ghost use Rattle.stop_history.specs.Selection.{has_parents};
ghost use Rattle.stop_history.specs.Sequential.{claim_answer, claim_state};
ghost use Rattle.stop_history.specs.State.{state_after};
ghost use Rattle.stop_history.specs.Word.{Word, shown};
ghost use Rattle.stop_history.specs.declared.actor.Actor.TheVariants as actor;
ghost use Rattle.stop_history.specs.declared.limits.TheConstants.{TRACERS};
ghost use Rattle.stop_history.specs.declared.roster.Row.{Row};
ghost use Rattle.stop_history.specs.declared.state.State.TheVariants as state;
ghost use Rattle.stop_history.specs.declared.wait_request.WaitRequest.{WaitRequest};

/// Those of the histories that a board and a World stand at.
pub use stop_history::laws::{
    a_claim_is_its_tracers, a_stop_is_claimed_once, a_waiting_row_is_as_it_was_or_was_claimed,
    an_event_changes_its_row_alone, atomic_steps_keep_words, births_are_counted, births_only_grow,
    children_are_born_in_order, older_histories_are_legal, only_its_mover_moves_a_row,
    rows_are_placed, settled_rows_stay_settled, words_are_in_range, words_are_one_to_one,
};

/// What a claim got is what one thread alone would be answered: the stop or the death that the word shows.
pub fn a_claim_gets_the_sequential_answer()
    ensures { (rows : List Row) (tracers : ℕ) (m : Moment)
        → ((row : ℕ) → m.taken row ≡ true → state_after rows m.history row ≡ state.Running) →
        (number tracer row : ℕ) (word : Word) → tracer < TRACERS
        → numbered_actor (length rows) tracers number ≡ Some (actor.Tracer tracer) →
        Replies rows tracers m number (action.Claim row) (reply.Got word) →
        claim_answer rows m.history row tracer ≡ claim_state (shown true word.number word.phase) }
{}

/// A wait of all rows, or of a process group, that has no child to wait for never has one again (waitid(2), ECHILD).
pub fn no_child_is_final()
    ensures { (rows : List Row) (request : WaitRequest) (more h : History) → IsRoster rows → IsLegal rows (more ++ h) →
        has_parents request.selection ≡ true → AreGone rows (state_after rows h) request →
        AreGone rows (state_after rows (more ++ h)) request }
{}
