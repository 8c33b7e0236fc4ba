//! Tests of case files, and of the machines that run their scripts (`trace_script`). They are above that crate, because
//! a crate with tests is proved twice.
#![tactic(auto)]

#[cfg(test)]
mod compare;
#[cfg(test)]
mod scripts;
