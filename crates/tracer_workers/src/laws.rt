//! Laws of the definitions: each function is its contract alone.

ghost use Rattle.std.specs.Prelude.{◌≡◌, Bool, List, None, ℕ};
ghost use Rattle.stop_history.specs.Roster.{IsRoster};
ghost use Rattle.stop_table.specs.Entry.{AreLegal, Entry, GoesOn};
ghost use Rattle.record_printer.specs.FolderAnswers.{lost, pieces_text};
ghost use Rattle.record_printer.specs.declared.call.show.Show.{Show};
ghost use Rattle.trace_options.specs.declared.filter.Filter.{Filter};
ghost use Rattle.trace_options.specs.declared.options.Options.{Options};
ghost use Rattle.trace_script.specs.CaseFile.{CaseContent};
ghost use Rattle.trace_script.specs.Script.{Script};
ghost use Rattle.tracer_workers.specs.CaseText.{Printer, bears, case_text, history_text};
ghost use Rattle.tracer_workers.specs.Config.{plain, text_of};
ghost use Rattle.tracer_workers.specs.declared.config.Config.{Config};
ghost use Rattle.tracer_workers.specs.Driven.{AreDriven, AreReaped};
ghost use Rattle.tracer_workers.specs.HistoryPieces.{pieces_of};
ghost use Rattle.tracer_workers.specs.Modes.{AgreeButFilter, filtered_trace, plain_trace, shown_filter, trace_lines};
ghost use Rattle.tracer_workers.specs.Plan.{Plan};
ghost use Rattle.tracer_workers.specs.Printing.{printed_lines};
ghost use Rattle.std.specs.List.{Contains};
ghost use Rattle.record_printer.specs.Piece.{Piece};
ghost use Rattle.stop_history.specs.declared.roster.Row.{Row};
ghost use Rattle.stop_table.specs.Handle.{Meets};
ghost use Rattle.stop_table.specs.View.{View, actors_of};
ghost use Rattle.tracer_workers.specs.DrivenBy.{AreDrivenBy};
ghost use Rattle.tracer_workers.specs.WorkerThread.{pieces_claimed};

use record_printer::laws::lines_are_folded;

/// A legal run whose tracees follow their scripts, whose restarts are the policy's, and in which each row that was born
/// has been reaped, prints the text of its case, whatever the order of its events.
pub fn runs_print_their_case()
    ensures { (print : Printer) (plan : Plan) (h : List Entry) → IsRoster plan.rows → AreLegal plan.rows h →
        AreDriven plan h → AreReaped plan.rows h → history_text print plan.rows h ≡ case_text print plan }
{}

/// Of such a run the pieces of all stops and deaths are whole, and their text is that of the case.
pub fn pieces_of_a_run_are_whole()
    ensures lost { (show : Show) (plan : Plan) (h : List Entry) → IsRoster plan.rows → AreLegal plan.rows h →
        AreDriven plan h → AreReaped plan.rows h → lost plan.rows (pieces_of show plan.rows h) ≡ None }
    ensures text { (show : Show) (plan : Plan) (h : List Entry) → IsRoster plan.rows → AreLegal plan.rows h →
        AreDriven plan h → AreReaped plan.rows h →
        pieces_text plan.rows (pieces_of show plan.rows h) ≡ case_text (printed_lines show) plan }
{}

/// Tracing with a filter prints the same lines of a script as tracing plainly, creates the same children, and ends alike:
/// for every set of calls that is shown and filtered, whatever the filter hands to the tracer, and whether the tracee
/// stops before its death in one of the two, in both or in neither.
pub fn seccomp_changes_no_line()
    ensures lines { (show : Show) (tid ret_data : ℕ) (options more : Options) (other : Filter) (script : Script) →
        AgreeButFilter options more →
        trace_lines show tid (plain_trace tid options other script)
        ≡ trace_lines show tid (filtered_trace tid more (shown_filter show ret_data) script) }
    ensures children { (show : Show) (tid ret_data : ℕ) (options more : Options) (other : Filter) (script : Script) →
        AgreeButFilter options more → (child : ℕ) →
        bears child (plain_trace tid options other script).stops
        ≡ bears child (filtered_trace tid more (shown_filter show ret_data) script).stops }
    ensures ending { (show : Show) (tid ret_data : ℕ) (options more : Options) (other : Filter) (script : Script) →
        AgreeButFilter options more →
        (plain_trace tid options other script).ending
        ≡ (filtered_trace tid more (shown_filter show ret_data) script).ending }
{
    lines_are_folded();
}

/// The text of a case does not depend on the mode in which it is traced, nor on stops before deaths.
pub fn the_mode_changes_no_text()
    ensures { (config : Config) (content : CaseContent) → text_of config content ≡ text_of (plain config) content }
{
    seccomp_changes_no_line();
}

/// The piece of each claim is that of a stop or a death of the history in which it was claimed.
pub fn claimed_pieces_were_made()
    ensures { (show : Show) (rows : List Row) (tracer : ℕ) (h : List Entry) → AreLegal rows h → (piece : Piece) →
        Contains (pieces_claimed show rows tracer h) piece → Contains (pieces_of show rows h) piece }
{}

/// The entries of a handle's actors stay driven as others act, and those of two handles are so once the two have met.
pub fn what_is_driven_stays_so()
    ensures later { (plan : Plan) (v : View) (h : List Entry) → GoesOn (actors_of v) v.seen h →
        AreDrivenBy (actors_of v) plan v.seen → AreDrivenBy (actors_of v) plan h }
    ensures together { (plan : Plan) (v w u : View) → Meets v w u → AreDrivenBy (actors_of v) plan v.seen →
        AreDrivenBy (actors_of w) plan w.seen → AreDrivenBy (actors_of u) plan u.seen }
{}
