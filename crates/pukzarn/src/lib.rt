//! The library for C: handles, and the calls on what they hold.
//!
//! C holds a handle by value and passes its address. Each call takes out what the handle holds, lets a function of
//! `c_interface` work on it, and puts it back, so it adds nothing to what is answered. A call answers 0 or a count, or
//! the negative number of an error (errno(3)). One call at a time uses a handle.
#![tactic(auto)]

mod board;
mod call;
mod handle;
mod handle_value;
mod opening;
mod record;
mod scripts;
mod slot;
#[cfg(test)]
mod tests;
mod tracee;
mod tracer;
mod version;
