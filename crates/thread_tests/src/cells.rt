//! The cells that threads share, on lives worked out by hand from ptrace(2) and waitid(2), and under threads.

mod calls;
mod growth;
mod start;
mod stress;
mod threads;
mod trio;
