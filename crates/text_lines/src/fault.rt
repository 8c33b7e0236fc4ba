//! What is wrong with a line.

/// What can be wrong with a line by its words alone, whatever comes before it.
#[derive(Clone, Copy, Debug, PartialEq, Eq)]
pub enum LineFault {
    /// A word is not the one that is wanted, or there are too few or too many words.
    UnknownWord,
    /// A word is not a number, or the number is out of range.
    BadNumber,
    /// A word is not hexadecimal bytes.
    BadHex,
}
