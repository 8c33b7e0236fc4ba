//! What a claim gets.

/// What a claim got: number and raw wait status.
#[derive(Clone, Copy, Debug, PartialEq, Eq, Hash)]
pub enum Got {
    /// A stop.
    Stop(u32, u32),
    /// A death; the number is that of the row's last stop, 0 if it made none.
    Ended(u32, u32),
}
