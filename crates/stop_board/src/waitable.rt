//! Which rows a wait may be answered, by the words of all rows.

ghost use Rattle.std.specs.Prelude.{◌≡◌, ◌<◌, ◌≤◌, ℕ, true, false, length, slice_set};
ghost use Rattle.stop_history.specs.Over.{is_gone};
ghost use Rattle.stop_history.specs.State.{is_waitable_for};
ghost use Rattle.stop_history.specs.Word.{state_by};
ghost use Rattle.stop_history.specs.declared.limits.TheConstants.{MOST_ROWS};
ghost use Rattle.stop_board.specs.Waitable.{AreGone, IsWaitableAnswer, may_be_answered, waitable_rows, written_to};

use crate::words::state_of;
use std::alloc::Allocator;
use stop_history::{Roster, State, WaitRequest, Word};
use trace_options::Errno;

/// The rows that a wait may be answered, into a buffer: how many they are, or ECHILD.
pub(crate) fn waitable_in<A: Allocator>(
    roster: &Roster<A>,
    words: &[Word],
    request: WaitRequest,
    to: &mut [u32],
) -> Result<u32, Errno>
    requires words { length words.now ≡ length roster.now }
    requires few { length roster.now ≤ MOST_ROWS }
    ensures { IsWaitableAnswer roster.now (state_by roster.now words.now) request to.old to.new result }
{
    if are_gone(roster, words, request) {
        return Err(Errno::ECHILD);
    }
    Ok(write_waitable(roster, words, request, to))
}

/// Whether each row that a wait speaks of is gone.
fn are_gone<A: Allocator>(roster: &Roster<A>, words: &[Word], request: WaitRequest) -> bool
    requires words { length words.now ≡ length roster.now }
    requires few { length roster.now ≤ MOST_ROWS }
    ensures gone { result ≡ true → AreGone roster.now (state_by roster.now words.now) request }
    ensures there { result ≡ false → AreGone roster.now (state_by roster.now words.now) request → ⊥ }
{
    let rows = roster.rows();
    for row in 0..rows.len() {
        let at = state_of(roster, words, row as u32);
        if request.selection.has(rows[row]) && !is_gone(request.deaths, at) {
            return false;
        }
    }
    true
}

/// Writes the rows that a wait may be answered into a buffer, and answers how many they are.
fn write_waitable<A: Allocator>(
    roster: &Roster<A>,
    words: &[Word],
    request: WaitRequest,
    to: &mut [u32],
) -> u32
    requires words { length words.now ≡ length roster.now }
    requires few { length roster.now ≤ MOST_ROWS }
    ensures count { result ≡ length (waitable_rows roster.now (state_by roster.now words.now) request) }
    ensures rows { to.new ≡ written_to to.old (waitable_rows roster.now (state_by roster.now words.now) request) }
{
    let mut count: u32 = 0;
    for row in 0..roster.rows().len() {
        if may_be_answered(roster, words, request, row) {
            put(to, count as usize, row as u32);
            count += 1;
        }
    }
    count
}

/// Whether a wait may be answered a row.
fn may_be_answered<A: Allocator>(
    roster: &Roster<A>,
    words: &[Word],
    request: WaitRequest,
    row: usize,
) -> bool
    requires row { row < length roster.now }
    requires words { length words.now ≡ length roster.now }
    requires few { length roster.now ≤ MOST_ROWS }
    ensures { result ≡ may_be_answered roster.now (state_by roster.now words.now) request row }
{
    request.selection.has(roster.rows()[row])
        && is_waitable_for(request.deaths, state_of(roster, words, row as u32))
}

/// Writes a number where a buffer has room for it.
fn put(to: &mut [u32], at: usize, number: u32)
    ensures { to.new ≡ slice_set to.old at number }
{
    if at < to.len() {
        to[at] = number;
    }
}

/// Whether a row of this state has a status for a wait, which asks for deaths too or does not.
fn is_waitable_for(deaths: bool, state: State) -> bool
    ensures { result ≡ is_waitable_for deaths state }
{
    match state {
        State::Stopped(..) => true,
        State::Dead(..) => deaths,
        _ => false,
    }
}

/// Whether a row of this state is no child to wait for.
fn is_gone(deaths: bool, state: State) -> bool
    ensures { result ≡ is_gone deaths state }
{
    match state {
        State::Unborn | State::Reaped => true,
        State::Dead(..) => !deaths,
        _ => false,
    }
}
