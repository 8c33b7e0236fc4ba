//! Tests of the cells that threads share (`stop_table`). They are above that crate, because a crate with tests is
//! proved twice.
#![tactic(auto)]

#[cfg(test)]
mod cells;
#[cfg(test)]
mod compare;
