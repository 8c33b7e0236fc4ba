//! Tests of runs of a case (`tracer_workers`); the first example of RATTLE.md. They are above that crate, because a crate
//! with tests is proved twice.
#![tactic(auto)]

#[cfg(test)]
mod compare;
#[cfg(test)]
mod readme;
#[cfg(test)]
mod workers;
