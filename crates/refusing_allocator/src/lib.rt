//! An allocator that refuses one allocation, for tests of what a program does then.
#![tactic(auto)]

mod grants;
mod refusing_allocator;

pub use refusing_allocator::RefusingAllocator;

#[cfg(test)]
mod tests;
