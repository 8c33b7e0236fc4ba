//! The text of the tracees' states, kept from one outcome to the next: outcomes that follow one another often end in
//! the same states.

ghost use Rattle.std.specs.Prelude.{◌≡◌, IfOk, OnOk};
ghost use Rattle.outcome_text.specs.OutcomeText.{IsTextOfStates};

use crate::text::write_tracees;
use crate::turn_texts::LINE;
use std::alloc::Allocator;
use std::marker::Model;
use stop_board::{NoMemory, Row, State};

/// States of the tracees, and their text.
#[derive(Drop)]
pub(crate) struct TraceesText<A: Allocator> {
    states: Vec<State, A>,
    text: String<A>,
}

impl<A: Allocator> Model for TraceesText<A> {
    ghost use Rattle.std.specs.Prelude.{string_bytes};
    ghost use Rattle.outcome_text.specs.OutcomeText.{StatesText};

    ghost Value = { StatesText };

    ghost view = { λ t. record { states = t.states.items; text = string_bytes t.text } };
}

impl<A: Allocator + Copy> TraceesText<A> {
    /// The line `tracees` alone, for no states. Room is made for a line of each row.
    pub(crate) fn new(alloc: A, rows: &[Row]) -> Result<TraceesText<A>, NoMemory>
        ensures { IfOk result (IsTextOfStates rows.now) }
    {
        let lines = rows.len().saturating_add(1);
        let mut text = String::with_capacity(alloc, lines.saturating_mul(LINE))?;
        write_tracees(&mut text, rows, &[])?;
        let states = Vec::with_capacity(alloc, rows.len())?;
        Ok(TraceesText { states, text })
    }
}

impl<A: Allocator> TraceesText<A> {
    /// Sets the states to these. Where they are the same, the text is kept.
    pub(crate) fn set_states(&mut self, rows: &[Row], states: &[State]) -> Result<(), NoMemory>
        requires { IsTextOfStates rows.now self.old }
        ensures text { OnOk result (IsTextOfStates rows.now self.new) }
        ensures states { OnOk result (self.new.states ≡ states.now) }
    {
        if self.states.as_slice() == states {
            return Ok(());
        }
        self.text.clear();
        write_tracees(&mut self.text, rows, states)?;
        self.states.clear();
        self.states.extend_from_slice(states)?;
        Ok(())
    }

    /// The text.
    pub(crate) fn text(&self) -> &str
        ensures { result.now ≡ self.now.text }
    {
        self.text.as_str()
    }
}
