//! A gate that counts what it lets through.

use std::sync::atomic::{AtomicU32, Ordering};
use tracer_workers::Gate;

/// A gate that counts the stops that are served: there are none where no tracee runs.
#[derive(Drop)]
pub(crate) struct Counting {
    stops: AtomicU32,
}

impl Counting {
    /// Before the first stop.
    pub(crate) fn new() -> Counting {
        Counting {
            stops: AtomicU32::new(0),
        }
    }

    /// How many stops were served so far.
    pub(crate) fn stops(&self) -> u32 {
        self.stops.load(Ordering::SeqCst)
    }
}

impl Gate for Counting {
    fn between(&self, _worker: u32, _tid: u32, _number: u32) {
        self.stops.fetch_add(1, Ordering::SeqCst);
    }
}
