//! The stop cells of all rows, which tracees and tracers on many threads share without locks.
//!
//! Each row has one 64-bit word and a slot for the record of its stop. Whoever may move a row does it by one atomic
//! step on its word:
//!
//! | Step | Who | From | To | The record | A failed exchange means |
//! |---|---|---|---|---|---|
//! | look | any | any | the same | stays | (a load cannot fail) |
//! | take up | its tracee | `Fresh` and born, `Resumed` | `Active` | leaves the slot | cannot happen: the row is the tracee's |
//! | publish | its tracee | `Active` | `Stopped` | goes into the slot | cannot happen: the row is the tracee's |
//! | claim a stop | any tracer | `Stopped` | `Claimed` | leaves the slot | another tracer has claimed the stop |
//! | reap a death | any tracer | `Dead` | `Reaped` | stays | another tracer has claimed the death |
//! | resume | the tracer that claimed it | `Claimed` | `Resumed` | goes into the slot | cannot happen: the row is the tracer's |
//! | exit | its tracee | `Active` | `Dead` | goes into the slot | cannot happen: the row is the tracee's |
//!
//! A record lies in its slot only while nobody owns it: the word says who may take it, so the slot itself needs no lock.
//! It is on the heap, and a slot holds its address. Each row has its word and its slot on cache lines of their own.
//! Handles are split off one seat of the table when the cells are opened, and may be merged again (`Tracer::meet`); both
//! load word 0 and change nothing. After the rows' words comes one more word, always 0, so that a table without rows
//! has one to load.
#![tactic(auto)]

mod boxed;
mod cells;
mod claim;
mod group;
mod held;
pub mod laws;
mod opening;
mod rule;
mod shown;
mod start;
mod steps;
mod tracee;
mod tracer;

pub use claim::{Claim, Taken};
pub use opening::{Ends, OpenError, open};
pub use shown::Shown;
pub use start::Start;
pub use tracee::{GroupAlive, Tracee};
pub use tracer::Tracer;
