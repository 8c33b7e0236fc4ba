//! The memory of a tracee: pages of bytes at addresses of 64 bits.
#![tactic(auto)]

mod fault;
pub mod laws;
mod map_error;
mod memory;
mod pages;

pub use fault::Fault;
pub use map_error::MapError;
pub use memory::Memory;
pub use pages::{MOST_PAGES, PAGE_SIZE};

#[cfg(test)]
mod tests;
