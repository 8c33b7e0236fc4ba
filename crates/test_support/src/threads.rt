//! The threads of tracees.

use crate::runner::{AtRest, Running};
use std::sync::Wait;
use std::thread;
use std::thread::{JoinHandle, Threads};

/// Waits until the row is to run.
pub fn runs_on<R: Wait>(rt: &R, mut tracee: AtRest) -> Running {
    for _ in rt.forever() {
        match tracee.take_up() {
            Ok(running) => return running,
            Err(back) => tracee = back,
        }
        thread::yield_now();
    }
    unreachable!()
}

/// Whether the calls of each tracee did what they should.
pub fn have_lived<R: Threads + Wait>(rt: &R, tracees: Vec<JoinHandle<bool>>) -> bool {
    let mut lived = true;
    for tracee in tracees {
        lived = tracee.join(rt) && lived;
    }
    lived
}
