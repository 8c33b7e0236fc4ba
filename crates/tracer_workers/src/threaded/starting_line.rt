//! What the threads of a run wait behind: none begins before all are started and have what they need.

use std::sync::Wait;
use std::sync::atomic::{AtomicU64, Ordering};
use std::time::Clock;
use trace_calls::Patience;

/// What the threads are told. It is told once, by the starter alone.
const NOTHING: u64 = 0;

const GO: u64 = 1;

const LEAVE: u64 = 2;

/// What the starter has told the threads, and how many workers have told it that they are ready, and that they were
/// refused memory.
#[derive(Drop)]
pub(crate) struct StartingLine {
    told: AtomicU64,
    ready: AtomicU64,
    refused: AtomicU64,
}

impl StartingLine {
    /// Nothing was told yet.
    pub(crate) fn new() -> StartingLine {
        StartingLine {
            told: AtomicU64::new(NOTHING),
            ready: AtomicU64::new(0),
            refused: AtomicU64::new(0),
        }
    }

    /// Counts a worker as ready, or as one that was refused memory.
    pub(crate) fn report(&self, is_ready: bool) {
        let count = if is_ready { &self.ready } else { &self.refused };
        count.fetch_add(1, Ordering::SeqCst);
    }

    /// Waits until this many workers have reported, and returns whether each of them is ready.
    pub(crate) fn await_workers<R: Wait + Clock>(&self, rt: &R, workers: u64) -> bool {
        let mut patience = Patience::new();
        for _ in rt.forever() {
            let refused = self.refused.load(Ordering::SeqCst);
            let ready = self.ready.load(Ordering::SeqCst);
            if ready.wrapping_add(refused) >= workers {
                return refused == 0;
            }
            patience.wait(rt);
        }
        unreachable!()
    }

    /// Tells all threads to go, or to leave. It is called once.
    pub(crate) fn tell(&self, is_go: bool) {
        let what = if is_go { GO } else { LEAVE };
        self.told.store(what, Ordering::SeqCst);
    }

    /// Waits until the threads are told whether to go, and returns that.
    pub(crate) fn wait_for_go<R: Wait + Clock>(&self, rt: &R) -> bool {
        let mut patience = Patience::new();
        for _ in rt.forever() {
            let told = self.told.load(Ordering::SeqCst);
            if told != NOTHING {
                return told == GO;
            }
            patience.wait(rt);
        }
        unreachable!()
    }
}
