//! Laws of the definitions: each function is its contract alone.

ghost use Rattle.std.specs.Prelude.{◌≡◌, ◌≤◌, [], ℕ, Decides, false, true, List, Ok, Some, map};
ghost use Rattle.stop_program.specs.declared.answer.Answer.TheVariants as answer;
ghost use Rattle.stop_program.specs.declared.board_call.BoardCall.{BoardCall};
ghost use Rattle.stop_program.specs.declared.command.ThreadCommand.{ThreadCommand};
ghost use Rattle.stop_program.specs.BoardCall.{answer_to};
ghost use Rattle.stop_program.specs.CalledAt.{AnsweredCall, AreMadeBy, CalledAt, IsRunOf, turn_of};
ghost use Rattle.stop_program.specs.Command.{is_lasting_refusal};
ghost use Rattle.stop_program.specs.Program.{Log};
ghost use Rattle.stop_program.specs.Replies.{AreSoAnswered, HaveComeTrue, done_by_thread, without_replies};
ghost use Rattle.stop_program.specs.Run.{IsRun, ended_run, states_of};
ghost use Rattle.stop_history.specs.Event.{History};
ghost use Rattle.stop_history.specs.State.{state_after};
ghost use Rattle.stop_history.specs.declared.refused.Refused.{Refused};
ghost use Rattle.stop_history.specs.declared.roster.Row.{Row};
ghost use Rattle.outcome_text.specs.Chosen.{have_come_true};
ghost use Rattle.outcome_text.specs.Conditions.{conditions_hold};
ghost use Rattle.outcome_text.specs.Searched.{CanMeet, all_required, commands_with, is_chosen_with};
ghost use Rattle.litmus_files.specs.LitmusFile.{LitmusContent, litmus_content_of};
ghost use Rattle.litmus_files.specs.Required.{conditions_with};
ghost use Rattle.outcome_text.specs.Waiting.{state_at, waiting_refusal};

use stop_program::laws::{calls_at_points_are_a_run, replies_choose_runs};

/// The refusal that a call is said to wait for is the one that it gets at each history that leaves these states, if
/// that one may pass; and it gets each that is said.
pub fn a_wait_is_for_its_refusal_to_pass()
    ensures passing { (rows : List Row) (h : History) (row : ℕ) (asked : BoardCall) (refusal : Refused) →
        answer_to rows h row asked ≡ answer.Refused refusal → is_lasting_refusal refusal ≡ false →
        waiting_refusal rows (state_at (states_of rows (state_after rows h))) row asked ≡ Some refusal }
    ensures refused { (rows : List Row) (h : History) (row : ℕ) (asked : BoardCall) (refusal : Refused) →
        waiting_refusal rows (state_at (states_of rows (state_after rows h))) row asked ≡ Some refusal →
        answer_to rows h row asked ≡ answer.Refused refusal }
{}

/// The outcomes that are printed are those in which all replies came true, where no thread past the last one has
/// commands.
pub fn printed_outcomes_came_true()
    ensures { (threads : ℕ) (commands : ℕ → List ThreadCommand) →
        ((thread : ℕ) → threads ≤ thread → commands thread ≡ []) → (log : Log) →
        Decides (have_come_true threads commands log) (HaveComeTrue commands log) }
{}

/// What is forbidden of a file has no run of its program without replies either: none in which each command with a
/// reply was done and so answered, and at whose end each condition holds.
pub fn what_is_forbidden_has_no_run()
    ensures { (content : LitmusContent) → ¬ CanMeet content (all_required content) → (run : Log) (last : History) →
        IsRun content.rows (without_replies (commands_with content (all_required content))) run last →
        ((thread : ℕ) → AreSoAnswered (commands_with content (all_required content) thread)
        (done_by_thread (commands_with content (all_required content)) run thread)) →
        HaveComeTrue (commands_with content (all_required content)) run →
        conditions_hold (commands_with content (all_required content))
        (conditions_with (all_required content) content.conditions) (ended_run content.rows run last) ≡ false }
{
    replies_choose_runs();
}

/// A file is not forbidden whose commands make calls that were each answered as at a point of one history, with those
/// answers as its replies, and whose conditions hold at the end of each run of these calls: what threads did on shared
/// cells is never forbidden.
pub fn what_calls_did_is_not_forbidden()
    ensures { (content : LitmusContent) (h : History) (calls : List AnsweredCall) → CalledAt content.rows h calls →
        AreMadeBy content.rows (commands_with content (all_required content)) calls →
        ((ordered : List AnsweredCall) →
        IsRunOf content.rows (commands_with content (all_required content)) h calls ordered →
        conditions_hold (commands_with content (all_required content))
        (conditions_with (all_required content) content.conditions)
        (ended_run content.rows (map turn_of ordered) h) ≡ true) →
        CanMeet content (all_required content) }
{
    calls_at_points_are_a_run();
}

/// An outcome that is printed of a file is a run of its program without replies: one in which each command with a reply
/// was done and so answered, and at whose end each condition holds.
pub fn what_is_allowed_is_a_run()
    // A run in which all replies came true.
    ensures run { (text : List ℕ) (content : LitmusContent) → litmus_content_of text ≡ Ok content →
        (run : Log) (last : History) →
        IsRun content.rows (commands_with content (all_required content)) run last →
        HaveComeTrue (commands_with content (all_required content)) run →
        IsRun content.rows (without_replies (commands_with content (all_required content))) run last
        × ((thread : ℕ) → AreSoAnswered (commands_with content (all_required content) thread)
        (done_by_thread (commands_with content (all_required content)) run thread)) }

    // A run whose outcome is printed: all replies came true in it, and each condition holds.
    ensures chosen { (text : List ℕ) (content : LitmusContent) → litmus_content_of text ≡ Ok content →
        (run : Log) (last : History) →
        is_chosen_with content (all_required content) (ended_run content.rows run last) ≡ true →
        HaveComeTrue (commands_with content (all_required content)) run
        × (conditions_hold (commands_with content (all_required content))
        (conditions_with (all_required content) content.conditions) (ended_run content.rows run last) ≡ true) }
{
    replies_choose_runs();
}
