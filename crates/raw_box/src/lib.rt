//! A box as its pointer and its allocator, for a type that may keep no box: a struct that C holds.
#![tactic(auto)]

mod raw_box;

pub use raw_box::RawBox;

#[cfg(test)]
mod tests;
