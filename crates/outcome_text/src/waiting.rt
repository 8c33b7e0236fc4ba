//! The states of all rows at the end of a run, and who keeps a leader from its exit there.

ghost use Rattle.std.specs.Prelude.{◌≡◌};
ghost use Rattle.stop_history.specs.History.{holding_back, holds_back};
ghost use Rattle.stop_history.specs.Roster.{row_at};
ghost use Rattle.outcome_text.specs.Waiting.{state_at};

use stop_board::{Row, State, rules};
use stop_history::is_leader;

/// The state of a row, among those of all rows.
pub(crate) fn state_at(states: &[State], row: usize) -> State
    ensures { result ≡ state_at states.now row }
{
    match states.get(row) {
        Some(state) => *state,
        None => State::Absent,
    }
}

/// The row that keeps a leader from its exit: the first other one of its thread group that is alive.
pub(crate) fn holding_back(rows: &[Row], states: &[State], at: usize) -> Option<usize>
    ensures { result ≡ holding_back rows.now (state_at states.now) at }
{
    if !is_leader(row_at(rows, at)) {
        return None;
    }
    (0..rows.len()).find(|other| holds_back(rows, states, at, *other))
}

/// Whether a row is an alive one of another's thread group, and not that row itself.
fn holds_back(rows: &[Row], states: &[State], at: usize, other: usize) -> bool
    ensures { result ≡ holds_back rows.now (state_at states.now) at other }
{
    other != at
        && row_at(rows, other).tgid == row_at(rows, at).tgid
        && rules::is_alive(state_at(states, other))
}

/// A row by its place; past the last one a row of no ids.
pub(crate) fn row_at(rows: &[Row], at: usize) -> Row
    ensures { result ≡ row_at rows.now at }
{
    match rows.get(at) {
        Some(row) => *row,
        None => Row {
            tid: 0,
            tgid: 0,
            pgid: 0,
            parent: 0,
        },
    }
}
