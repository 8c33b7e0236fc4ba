//! Who acts on the cells. A tracee moves its own row alone; a tracer moves any row that waits, and the rows that it has
//! claimed.

/// A tracee, by its row, or a tracer, by its number from 0.
#[derive(Clone, Copy, Debug, PartialEq, Eq, Hash)]
pub enum Actor {
    /// It takes its row up, publishes and exits.
    Tracee(u32),
    /// It claims and resumes.
    Tracer(u32),
}
