//! The steps of a script: the acts of each, where they stop the tracee, and what they do to it.

mod act;
pub(crate) mod effect;
mod found;
mod halts;
pub(crate) mod look_ahead;
pub(crate) mod registers;
mod step_acts;
pub(crate) mod steps_run;
pub(crate) mod walk;
