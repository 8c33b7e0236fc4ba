//! Tests that what threads are answered by the cells that they share (`stop_table`) is an outcome that the explorer
//! (`stop_explorer`) finds of the same commands. They are in a crate of their own, because they wait for both.
#![tactic(auto)]

#[cfg(test)]
mod compare;
#[cfg(test)]
mod explored;
