//! Tests of the outcomes that the explorer (`stop_explorer`) finds of small programs. They are above that crate,
//! because a crate with tests is proved twice.
#![tactic(auto)]

#[cfg(test)]
mod compare;
#[cfg(test)]
mod explorer;
