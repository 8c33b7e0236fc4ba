//! Laws of what the contracts tell: each function is its contract alone.

ghost use Rattle.std.specs.Prelude.{◌≡◌, ◌∷◌, ◌≢◌, ◌||◌, ◌+◌, ◌<◌, ℕ, Bool, true, List, Some, Ok, Err, filter};
ghost use Rattle.std.specs.Prelude.{is_some, if◌then◌else◌, length};
ghost use Rattle.trace_pages.specs.FlatMemory.{Full, run_end};
ghost use Rattle.trace_regs.specs.declared.regs.Regs.{Regs};
ghost use Rattle.trace_record.specs.Content.{Content};
ghost use Rattle.trace_record.specs.Death.{death_status};
ghost use Rattle.trace_record.specs.Stop.{child_of, stop_status};
ghost use Rattle.trace_record.specs.declared.death.Death.{Death};
ghost use Rattle.trace_record.specs.declared.resume.Resume.{Resume as Restart};
ghost use Rattle.trace_record.specs.declared.stop.Stop.{Stop};
ghost use Rattle.stop_history.specs.declared.actor.Actor.{Actor};
ghost use Rattle.stop_history.specs.declared.actor.Actor.TheVariants.{Tracee};
ghost use Rattle.stop_history.specs.declared.got.Got.TheVariants as got;
ghost use Rattle.stop_history.specs.declared.limits.TheConstants.{TRACERS};
ghost use Rattle.stop_history.specs.declared.refused.Refused.{Refused};
ghost use Rattle.stop_history.specs.declared.refused.Refused.TheVariants as refused;
ghost use Rattle.stop_history.specs.declared.roster.Row.{Row};
ghost use Rattle.stop_history.specs.declared.state.State.TheVariants as state;
ghost use Rattle.stop_history.specs.Actor.{actor_of};
ghost use Rattle.stop_history.specs.Event as event;
ghost use Rattle.stop_history.specs.Event.{subject};
ghost use Rattle.stop_history.specs.History.{IsLegal, holding_back};
ghost use Rattle.stop_history.specs.Ranges.{AreInRange};
ghost use Rattle.stop_history.specs.Roster.{row_at};
ghost use Rattle.stop_history.specs.Sequential.{claim_answer, exit_answer, publish_answer, resume_answer};
ghost use Rattle.stop_history.specs.State.{last_number, state_after};
ghost use Rattle.stop_history.specs.Word.{Word};
ghost use Rattle.stop_table.specs.declared.shown.Shown.{Shown};
ghost use Rattle.stop_table.specs.declared.shown.Shown.TheVariants as shows;
ghost use Rattle.stop_table.specs.Alone.{IsAnsweredAt, claim_by_shown, running_by_shown};
ghost use Rattle.stop_table.specs.Calls.{ActsForAll, HasCalled, IsMadeByOne};
ghost use Rattle.stop_table.specs.Entry.{AreLegal, Begins, Entry, GoesOn, bare, cell_after, content_after, history_of};
ghost use Rattle.stop_table.specs.Entry.{publish_of, resume_of};
ghost use Rattle.stop_table.specs.Handle.{Claims, EndsWith, Grows, IsHolding, IsLostSince, Meets, Reaps, own_events};
ghost use Rattle.stop_table.specs.Handle.{shown_of};
ghost use Rattle.stop_table.specs.Tracer.{is_held};
ghost use Rattle.stop_table.specs.View.{View, actors_of, is_among};
ghost use Rattle.stop_table.specs.Written.{with_bytes, with_regs};

/// A call that only looks leaves a handle's own events as they were.
pub fn looks_make_no_event()
    ensures { (v w : View) → Grows v w → own_events w ≡ own_events v }
{}

/// A call that ends what is seen with an event of the handle's own actors adds that event to its own events, and no
/// other.
pub fn an_event_of_its_own_is_one_more()
    ensures { (v w : View) (before : List Entry) (x : Entry) → EndsWith v w before x →
        actors_of v (actor_of x.event) ≡ true → own_events w ≡ x ∷ own_events v }
{}

/// The rows that a tracer has claimed stay claimed, with their words and contents, while it makes no event.
pub fn claims_stay()
    ensures looks { (v w : View) → is_among v.number v.tracers ≡ true → Grows v w → (row : ℕ) →
        is_held v row ≡ true → cell_after w.roster w.seen row ≡ cell_after v.roster v.seen row }
    ensures events { (v w : View) (before : List Entry) (x : Entry) → is_among v.number v.tracers ≡ true →
        EndsWith v w before x → (row : ℕ) → row ≢ subject x.event →
        is_held v row ≡ true → cell_after w.roster w.seen row ≡ cell_after v.roster v.seen row }
{}

/// A merged handle acts for the actors of both and no others; of either's actors it has seen the events that were that
/// handle's own, and no others; and the rows that the first had claimed are as they were.
pub fn a_meeting_keeps_events()
    ensures actors { (v w u : View) → Meets v w u → (a : Actor) →
        actors_of u a ≡ (actors_of v a || actors_of w a) }
    ensures first { (v w u : View) → Meets v w u →
        filter (λ x. actors_of v (actor_of x.event)) u.seen ≡ own_events v }
    ensures second { (v w u : View) → Meets v w u →
        filter (λ x. actors_of w (actor_of x.event)) u.seen ≡ own_events w }
    ensures claims { (v w u : View) → is_among v.number v.tracers ≡ true → Meets v w u →
        AreLegal u.roster u.seen → (row : ℕ) →
        is_held v row ≡ true → cell_after u.roster u.seen row ≡ cell_after v.roster v.seen row }
{}

/// Each event of the actors of a handle that has not met another is made by one of its calls, and by no other: of what
/// it has seen, and of each history that goes on from there without an event of its actors.
pub fn an_own_event_is_made_by_one_call()
    ensures { (last : View) (earlier : List View) → HasCalled last earlier →
        (h : List Entry) → GoesOn (actors_of last) last.seen h →
        (before : List Entry) (x : Entry) → Begins (x ∷ before) h → actors_of last (actor_of x.event) ≡ true →
        IsMadeByOne last earlier before x }
{}

/// A history that goes on from what a merged handle has seen, without an event of its actors, goes on so from what each
/// of the two had seen.
pub fn both_that_met_go_on()
    ensures { (v w u : View) → Meets v w u → (h : List Entry) → GoesOn (actors_of u) u.seen h →
        GoesOn (actors_of v) v.seen h × GoesOn (actors_of w) w.seen h }
{}

/// A handle that acts for all tracees and for all 16 tracers made each event that it has seen.
pub fn who_acts_for_all_made_all_events()
    ensures { (v : View) → ActsForAll v → AreLegal v.roster v.seen → own_events v ≡ v.seen }
{}

/// A call that made an event was answered as one thread alone is, by the definitions of sequential answers, at the
/// history before the event, and that history goes on by it as theirs does.
pub fn calls_with_events_answer_as_one_thread()
    ensures publish { (v w : View) (before : List Entry) (row : ℕ) (content : Content) →
        EndsWith v w before (publish_of row content) →
        IsAnsweredAt (publish_answer v.roster (history_of before) row content.stop) (Ok content.number)
        (history_of before) (event.Publish row (last_number (history_of before) row + 1) content.stop) w }
    ensures claim { (v w : View) (row : ℕ) (content : Content) (claims : Claims v w row content) →
        IsAnsweredAt (claim_answer v.roster (history_of claims.0) row v.number)
        (Ok (got.Stop content.number (stop_status content.stop)))
        (history_of claims.0) (event.Claim row (last_number (history_of claims.0) row) v.number) w }
    ensures reap { (v w : View) (row : ℕ) (death : Death) (number : ℕ) (reaps : Reaps v w row death number) →
        IsAnsweredAt (claim_answer v.roster (history_of reaps.0) row v.number)
        (Ok (got.Ended number (death_status death)))
        (history_of reaps.0) (event.Claim row (last_number (history_of reaps.0) row) v.number) w }
    ensures resume { (v w : View) (before : List Entry) (row number : ℕ) (how : Restart) (tracer : ℕ)
        (content : Content) → EndsWith v w before (resume_of row number how tracer content) →
        IsAnsweredAt (resume_answer v.roster (history_of before) row tracer) (Ok tt)
        (history_of before) (event.Resume row (last_number (history_of before) row) how tracer) w }
    ensures exit { (v w : View) (before : List Entry) (row : ℕ) (death : Death) →
        EndsWith v w before (bare (event.Exit row death)) →
        IsAnsweredAt (exit_answer v.roster (history_of before) row) (Ok tt)
        (history_of before) (event.Exit row death) w }
{}

/// What a call that made no event was shown of a row says what one thread alone is answered at its point: a look and a
/// claim, and a publish and an exit of a row that could not be taken up. The exit of a leader that another row holds
/// back is refused so too, since a row that was taken up runs until its tracee makes an event.
pub fn calls_without_events_answer_as_one_thread()
    ensures claim { (rows : List Row) (h : List Entry) (row tracer : ℕ) (a : Shown) →
        row < length rows → tracer < TRACERS → a ≡ shown_of (state_after rows (history_of h) row) →
        claim_answer rows (history_of h) row tracer ≡ claim_by_shown a }
    ensures not_running { (rows : List Row) (h : List Entry) (row : ℕ) (a : Shown) → row < length rows →
        a ≡ shown_of (state_after rows (history_of h) row) →
        (refusal : Refused) → running_by_shown a ≡ Err refusal →
        ((stop : Stop) → publish_answer rows (history_of h) row stop ≡ Err refusal)
        × (exit_answer rows (history_of h) row ≡ Err refusal) }
    ensures held_back { (rows : List Row) (h : List Entry) (row other : ℕ) →
        state_after rows (history_of h) row ≡ state.Running →
        holding_back rows (state_after rows (history_of h)) row ≡ Some other →
        exit_answer rows (history_of h) row ≡ Err (refused.GroupAlive other) }
    ensures runs { (rows : List Row) (actors : Actor → Bool) (seen h : List Entry) (row : ℕ) → AreLegal rows h →
        GoesOn actors seen h → actors (Tracee row) ≡ true →
        state_after rows (history_of seen) row ≡ state.Running →
        state_after rows (history_of h) row ≡ state.Running }
{}

/// Where a call lost its claim to another, the stop that the call's look had shown is claimed at that point, with its
/// number, and the death that it had shown is reaped.
pub fn what_was_lost_is_claimed_or_reaped()
    ensures stop { (look : List Entry) (v w : View) (row : ℕ) (h : List Entry) → row < length v.roster →
        IsLostSince look v w row h → (number status : ℕ) →
        state_after v.roster (history_of look) row ≡ state.Stopped number status →
        shown_of (state_after v.roster (history_of h) row) ≡ shows.Claimed number }
    ensures death { (look : List Entry) (v w : View) (row : ℕ) (h : List Entry) → row < length v.roster →
        IsLostSince look v w row h → (number status : ℕ) →
        state_after v.roster (history_of look) row ≡ state.Dead number status →
        shown_of (state_after v.roster (history_of h) row) ≡ shows.Reaped }
{}

/// The events of what a handle has seen are a legal history in range: so the laws of histories hold of it, among them
/// that no stop is claimed twice.
pub fn what_is_seen_is_legal()
    ensures legal { (rows : List Row) (h : List Entry) → AreLegal rows h → IsLegal rows (history_of h) }
    ensures in_range { (rows : List Row) (h : List Entry) → AreLegal rows h → AreInRange (history_of h) }
{}

/// The record of a row is that of its tracee, with the number of its last stop; a holder's writes change neither.
pub fn a_record_is_its_rows()
    ensures { (rows : List Row) (h : List Entry) → AreLegal rows h → (row : ℕ) →
        ((content_after rows h row).tid ≡ (row_at rows row).tid)
        × ((content_after rows h row).number ≡ (cell_after rows h row).number) }
{}

/// A row's stops and children are counted by the publishes of its tracee alone.
pub fn stops_are_counted_by_their_tracee()
    ensures looks { (v w : View) (row : ℕ) → is_among row v.tracees ≡ true → Grows v w →
        ((cell_after w.roster w.seen row).births ≡ (cell_after v.roster v.seen row).births)
        × ((cell_after w.roster w.seen row).number ≡ (cell_after v.roster v.seen row).number) }
    ensures publishes { (v w : View) (before : List Entry) (row : ℕ) (content : Content) →
        is_among row v.tracees ≡ true → EndsWith v w before (publish_of row content) →
        ((cell_after w.roster w.seen row).births
        ≡ (if is_some (child_of content.stop) then (cell_after v.roster v.seen row).births + 1
        else (cell_after v.roster v.seen row).births))
        × ((cell_after w.roster w.seen row).number ≡ content.number) }
    ensures exits { (v w : View) (before : List Entry) (row : ℕ) (death : Death) →
        is_among row v.tracees ≡ true → EndsWith v w before (bare (event.Exit row death)) →
        ((cell_after w.roster w.seen row).births ≡ (cell_after v.roster v.seen row).births)
        × ((cell_after w.roster w.seen row).number ≡ (cell_after v.roster v.seen row).number) }
{}

/// What its holder writes to a claim's record leaves the claim in the tracer's hand.
pub fn writes_keep_a_claim_in_hand()
    ensures regs { (v : View) (row : ℕ) (word : Word) (content : Content) (regs : Regs) →
        IsHolding v row word content → IsHolding v row word (with_regs content regs) }
    ensures bytes { (v : View) (row : ℕ) (word : Word) (content : Content) (address : ℕ) (bytes : List ℕ) →
        run_end content.memory address (length bytes) ≡ Full →
        IsHolding v row word content → IsHolding v row word (with_bytes content address bytes) }
{}

/// A claim is the tracer's to resume for as long as the tracer makes no event of its row.
pub fn claims_stay_in_hand()
    ensures looks { (v w : View) (row : ℕ) (word : Word) (content : Content) →
        is_among v.number v.tracers ≡ true → Grows v w →
        IsHolding v row word content → IsHolding w row word content }
    ensures events { (v w : View) (before : List Entry) (x : Entry) (row : ℕ) (word : Word) (content : Content) →
        is_among v.number v.tracers ≡ true → EndsWith v w before x → row ≢ subject x.event →
        IsHolding v row word content → IsHolding w row word content }
{}
