//! Which of the allocations that are asked is refused.

use std::sync::atomic::{AtomicU64, Ordering};

/// How many allocations are granted before one is refused, and how many were asked so far. The count starts again
/// after 2^64 of them.
#[derive(Drop)]
pub(crate) struct Grants {
    granted: u64,
    asked: AtomicU64,
}

impl Grants {
    pub(crate) fn new(granted: u64) -> Grants {
        Grants {
            granted,
            asked: AtomicU64::new(0),
        }
    }

    /// Counts one more allocation, and says whether it is granted. One step counts and tells the place of the
    /// allocation, so among threads too exactly one is refused.
    pub(crate) fn is_next_granted(&self) -> bool {
        self.asked.fetch_add(1, Ordering::SeqCst) != self.granted
    }

    /// Whether an allocation was refused.
    pub(crate) fn has_refused(&self) -> bool {
        self.asked.load(Ordering::SeqCst) > self.granted
    }
}
