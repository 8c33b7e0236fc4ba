//! Views of the memory that was published with a stop: its bytes, its strings and its arrays of `struct iovec`, each
//! lent from the pages where they are.
//!
//! A view takes no memory and copies nothing but the numbers of an iovec. It lives no longer than the record that it
//! shows, so none outlives the claim of its stop.
#![tactic(auto)]

mod cut;
mod end;
mod iovecs;
pub mod laws;
mod runs;
mod views;

pub use cut::Cut;
pub use end::End;
pub use iovecs::{IOV_MAX, Iovecs, Item};
pub use views::Views;

#[cfg(test)]
mod tests;
