//! Laws of the definitions: each function is its contract alone.

ghost use Rattle.std.specs.Prelude.{◌≡◌, ◌==◌, ◌≢◌, ◌∷◌, ◌⊎◌, ◌<◌, ◌≤◌, ◌++◌, [], ℕ, Bool, true, false, List, Option};
ghost use Rattle.std.specs.Prelude.{Some, length, count_by, nat_lt};
ghost use Rattle.std.specs.List.{range_with_len};
ghost use Rattle.stop_history.specs.declared.roster.Row.{Row};
ghost use Rattle.stop_history.specs.declared.actor.Actor.{Actor};
ghost use Rattle.stop_history.specs.declared.actor.Actor.TheVariants as actor;
ghost use Rattle.stop_history.specs.declared.phase.Phase.TheVariants as phase;
ghost use Rattle.stop_history.specs.declared.state.State.TheVariants as state;
ghost use Rattle.stop_history.specs.Actor.{IsQuiet, actor_of, is_moved_by, mover_of};
ghost use Rattle.stop_history.specs.Change.{Change, Happened, IsAllowed, TakenUp, history_with, taken_up, taken_with};
ghost use Rattle.stop_history.specs.Change.{word_after_event, words_with};
ghost use Rattle.stop_history.specs.Event.{Event, History, events_of, subject};
ghost use Rattle.stop_history.specs.Roster.{IsPlaced, IsRoster, parent_of, rank_of, row_at};
ghost use Rattle.stop_history.specs.declared.limits.TheConstants.{LAST_ID, LAST_NUMBER, MOST_ROWS, TRACERS};
ghost use Rattle.stop_history.specs.State.{is_born, is_waitable, state_after};
ghost use Rattle.stop_history.specs.Layout.{raw_of, tracer_bits};
ghost use Rattle.stop_history.specs.declared.word.layout.TheConstants.{BIRTHS_BITS, KIND_BITS, NUMBER_BITS};
ghost use Rattle.stop_history.specs.declared.word.layout.TheConstants.{SIGNAL_BITS, STATE_BITS, STATUS_BITS};
ghost use Rattle.stop_history.specs.Ranges.{AreInRange};
ghost use Rattle.stop_history.specs.Over.{IsClosed, IsOver, is_gone};
ghost use Rattle.stop_history.specs.Standing.{AreAt, AreBits, bits_with};
ghost use Rattle.stop_history.specs.Word.{IsWord, Word, phase_in, word_after};
ghost use Rattle.stop_history.specs.History.{Fits, IsLegal, IsSettled, IsSilent, WasClaimed, births_after};
ghost use Rattle.stop_history.specs.History.{is_born_child, stop_claims_in};

/// A roster has at most `MOST_ROWS` rows. Each of them is found by its tid and comes after its parent, whose process
/// group it is in; it leads a thread group or is in its parent's; a root leads one.
pub fn rows_are_placed()
    ensures few { (rows : List Row) → IsRoster rows → length rows ≤ MOST_ROWS }
    ensures placed { (rows : List Row) → IsRoster rows → (row : ℕ) → row < length rows → IsPlaced rows row }
{}

/// The births of a row are as many as its children that are born.
pub fn births_are_counted()
    ensures { (rows : List Row) (h : History) → IsRoster rows → IsLegal rows h → (row : ℕ) → row < length rows →
        births_after h row ≡ count_by (is_born_child rows h row) (range_with_len 0 (length rows)) }
{}

/// A child is born exactly where its rank is below its parent's births.
pub fn children_are_born_in_order()
    ensures { (rows : List Row) (h : History) → IsRoster rows → IsLegal rows h →
        (row parent : ℕ) → row < length rows → parent_of rows row ≡ Some parent →
        is_born rows h row ≡ nat_lt (rank_of rows row) (births_after h parent) }
{}

/// A legal history stays legal when its newest events are dropped.
pub fn older_histories_are_legal()
    ensures { (rows : List Row) (more h : History) → IsLegal rows (more ++ h) → IsLegal rows h }
{}

/// A settled row stays settled as the history goes on without an event of the row that it is settled beside.
pub fn settled_rows_stay_settled()
    ensures { (rows : List Row) (beside : Option ℕ) (more h : History) → IsLegal rows (more ++ h)
        → IsSilent beside more →
        (row : ℕ) → IsSettled rows beside h row → IsSettled rows beside (more ++ h) row }
{}

/// While the actors of a set make no event, a row that only they can move has none: its word is as it was, where it is
/// taken up now if it was then. A row is moved by its tracee where it is fresh or runs, and by the tracer that has
/// claimed it where it is claimed.
pub fn only_its_mover_moves_a_row()
    ensures moved { (rows : List Row) (h : History) (e : Event) → Fits rows h e → (actor : Actor) →
        mover_of (subject e) (phase_in (events_of (subject e) h)) ≡ Some actor → actor_of e ≡ actor }
    ensures untouched { (rows : List Row) (actors : Actor → Bool) (more h : History) → IsLegal rows (more ++ h)
        → IsQuiet actors more →
        (row : ℕ) → is_moved_by actors (mover_of row (phase_in (events_of row h))) ≡ true
        → events_of row (more ++ h) ≡ events_of row h }
    ensures word { (rows : List Row) (actors : Actor → Bool) (more h : History) → IsLegal rows (more ++ h)
        → IsQuiet actors more →
        (row : ℕ) → is_moved_by actors (mover_of row (phase_in (events_of row h))) ≡ true →
        (taken next : ℕ → Bool) → next row ≡ taken row → word_after next (more ++ h) row ≡ word_after taken h row }
{}

/// A row that a tracer holds was held by it before all that has happened while the tracer made no event, and has had
/// no event since.
pub fn a_claim_is_its_tracers()
    ensures { (actors : Actor → Bool) (more h : History) → IsQuiet actors more → (tracer : ℕ)
        → actors (actor.Tracer tracer) ≡ true →
        (row : ℕ) → phase_in (events_of row (more ++ h)) ≡ phase.Claimed tracer
        → events_of row (more ++ h) ≡ events_of row h }
{}

/// Births only grow, who is born stays born, and a row that is not born has no event.
pub fn births_only_grow()
    ensures births { (more h : History) (row : ℕ) → births_after h row ≤ births_after (more ++ h) row }
    ensures born { (rows : List Row) (more h : History) (row : ℕ) → is_born rows h row ≡ true
        → is_born rows (more ++ h) row ≡ true }
    ensures silent { (rows : List Row) (h : History) → IsLegal rows h → (row : ℕ) → is_born rows h row ≡ false
        → events_of row h ≡ [] }
{}

/// A row that waits is as it was as the history goes on, or was claimed as it was.
pub fn a_waiting_row_is_as_it_was_or_was_claimed()
    ensures { (rows : List Row) (more h : History) → IsLegal rows (more ++ h) → (row : ℕ)
        → is_waitable (state_after rows h row) ≡ true →
        (events_of row (more ++ h) ≡ events_of row h) ⊎ WasClaimed row more h }
{}

/// Each word that a legal history leaves is in range, where the stops, deaths, restarts and tracers of its events are.
/// Legality does not speak of those ranges; whoever adds an event keeps them.
pub fn words_are_in_range()
    ensures { (rows : List Row) (h : History) → IsRoster rows → IsLegal rows h → AreInRange h →
        (taken : ℕ → Bool) (row : ℕ) → row < length rows → IsWord (word_after taken h row) }
{}

/// An event makes of its row's word what its kind makes of it, and leaves every other row's word as it was.
pub fn an_event_changes_its_row_alone()
    ensures own { (rows : List Row) (h : History) (taken : ℕ → Bool)
        → ((row : ℕ) → taken row ≡ true → state_after rows h row ≡ state.Running) →
        (e : Event) → Fits rows h e
        → word_after (taken_with (Happened e) taken) (e ∷ h) (subject e)
        ≡ word_after_event (word_after taken h (subject e)) e }
    ensures other { (taken : ℕ → Bool) (h : History) (e : Event) (row : ℕ) → row ≢ subject e →
        word_after (taken_with (Happened e) taken) (e ∷ h) row ≡ word_after taken h row }
{}

/// One atomic step on words that stand at a history: where the history allows the change, each row's word is the one
/// that the longer history leaves.
pub fn atomic_steps_keep_words()
    ensures { (rows : List Row) (words : List Word) (taken : ℕ → Bool) (h : History) → AreAt rows words taken h
        → length words ≡ length rows →
        (change : Change) → IsAllowed rows h change
        → AreAt rows (words_with change words) (taken_with change taken) (history_with change h) }
{}

/// No stop is claimed twice: of the claims of a row in a legal history, those that reap its death aside, at most one
/// is of the stop of a number.
pub fn a_stop_is_claimed_once()
    ensures { (rows : List Row) (h : History) → IsLegal rows h →
        (row number : ℕ) → stop_claims_in number (events_of row h) ≤ 1 }
{}

/// Two words in range that have the same 64 bits are one.
pub fn words_are_one_to_one()
    ensures { (v w : Word) → IsWord v → IsWord w → raw_of v ≡ raw_of w → v ≡ w }
{}

/// A take-up makes its row's word active, and leaves every other row's word as it was.
pub fn a_take_up_changes_its_row_alone()
    ensures own { (taken : ℕ → Bool) (h : History) (row : ℕ) →
        word_after (taken_with (TakenUp row) taken) h row ≡ taken_up (word_after taken h row) }
    ensures other { (taken : ℕ → Bool) (h : History) (at row : ℕ) → row ≢ at →
        word_after (taken_with (TakenUp at) taken) h row ≡ word_after taken h row }
{}

/// One atomic step on the bits of words, as a table of numbers keeps them: where the history allows the change, each
/// row has the bits of the word that the longer history leaves.
pub fn atomic_steps_keep_bits()
    ensures { (rows : List Row) (bits : List ℕ) (taken : ℕ → Bool) (h : History) →
        ((row : ℕ) → taken row ≡ true → state_after rows h row ≡ state.Running) →
        length rows ≤ length bits → AreBits rows bits taken h → (change : Change) → IsAllowed rows h change →
        AreBits rows (bits_with change (word_after taken h) bits) (taken_with change taken) (history_with change h) }
{}

/// With each row of a process group its parent is one: a child keeps its parent's process group (fork(2)).
pub fn process_groups_are_closed()
    ensures { (rows : List Row) → IsRoster rows → (pgid : ℕ) → IsClosed rows (λ row. (row_at rows row).pgid == pgid) }
{}

/// A row that is gone is over, where the selected rows before it are and each selected row's parent is selected.
pub fn closed_rows_are_over_together()
    ensures { (rows : List Row) → IsRoster rows → (selected : ℕ → Bool) → IsClosed rows selected
        → (deaths : Bool) (h : History) →
        (row : ℕ) → row < length rows → selected row ≡ true →
        ((before : ℕ) → before < row → selected before ≡ true → IsOver rows deaths h before) →
        is_gone deaths (state_after rows h row) ≡ true → IsOver rows deaths h row }
{}

/// What is over stays over and is gone, whatever happens: so "no child is left to wait for" is final (waitid(2),
/// ECHILD).
pub fn over_stays_over()
    ensures over { (rows : List Row) (deaths : Bool) (more h : History) → IsLegal rows (more ++ h) →
        (row : ℕ) → IsOver rows deaths h row → IsOver rows deaths (more ++ h) row }
    ensures gone { (rows : List Row) (deaths : Bool) (h : History) (row : ℕ) → IsOver rows deaths h row →
        is_gone deaths (state_after rows h row) ≡ true }
{}

/// The limits: rows of a roster, ids, tracers, and the number of a row's last stop.
pub fn limits_are_fixed()
    ensures rows { MOST_ROWS ≡ 256 }
    ensures ids { LAST_ID ≡ 4194303 }
    ensures tracers { TRACERS ≡ 16 }
    ensures numbers { LAST_NUMBER ≡ 16777215 }
{}

/// The widths of a word's fields in bits, from the lowest bit on (the table is at `Word`). Bit 63 is left.
pub fn widths_are_fixed()
    ensures state { STATE_BITS ≡ 3 }
    ensures births { BIRTHS_BITS ≡ 8 }
    ensures number { NUMBER_BITS ≡ 24 }
    ensures status { STATUS_BITS ≡ 16 }
    ensures kind { KIND_BITS ≡ 1 }
    ensures signal { SIGNAL_BITS ≡ 7 }
    ensures tracer { tracer_bits ≡ 4 }
{}
