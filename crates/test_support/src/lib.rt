//! What tests of the cells that threads share (`stop_table`), and of the crates above them, have in common: new cells of
//! some rows, with their tracees and tracers. What a call on a handle asks of its caller is checked here, or kept by
//! these types, so that most tests need no proof.
#![tactic(auto)]

mod cast;
mod desk;
mod rows;
mod runner;
mod threads;

pub use cast::{Cast, open_for, open_over};
pub use desk::{Answer, CONT, Desk, START};
pub use rows::{CHILD, ROOT, THREAD, family, roots, row};
pub use runner::{AtRest, Running};
pub use threads::{have_lived, runs_on};
