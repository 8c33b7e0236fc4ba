//! Tests of waits and calls by pid over the cells that threads share (`trace_calls`); the second example of RATTLE.md. They
//! are above that crate, because a crate with tests is proved twice.
#![tactic(auto)]

#[cfg(test)]
mod compare;
#[cfg(test)]
mod waits;
