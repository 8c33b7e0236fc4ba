//! Calls as strace(1) prints them: how each starts, with its arguments, and how it ends.

mod arguments;
mod buffers;
mod by_number;
pub(crate) mod end;
mod iovecs;
pub(crate) mod parts;
mod printed;
pub(crate) mod show;
pub(crate) mod start;
