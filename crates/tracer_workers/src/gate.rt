//! Gates between a claim and its restart.

/// What a worker calls between the claim of a stop and its restart: a test can hold it up there.
pub trait Gate {
    /// The worker's number, and the thread id and the number of the stop that it has claimed. It may wait for other
    /// threads.
    fn between(&self, worker: u32, tid: u32, number: u32);
}
