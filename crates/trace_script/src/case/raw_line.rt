//! A line of a case file as it is kept while the file is read. Its byte words are slices of the file: they are tested
//! with the line, and decoded once nothing else can refuse it, so that out of memory hides no fault.

use stop_history::Row;

/// A part of an image.
#[derive(Clone, Copy)]
pub(crate) enum RawPart<'a> {
    /// The page at this address.
    Page(u64),
    /// Bytes from an address on.
    Data(u64, &'a [u8]),
    /// The instruction and the stack pointer.
    Start(u64, u64),
}

/// What a call writes.
#[derive(Clone, Copy)]
pub(crate) struct RawFill<'a> {
    pub(crate) addr: u64,
    pub(crate) bytes: &'a [u8],
}

/// A `call` line.
#[derive(Clone, Copy)]
pub(crate) struct RawCall<'a> {
    pub(crate) nr: u64,
    pub(crate) args: [u64; 6],
    /// The word that the answer is in `rax`.
    pub(crate) answer: u64,
    pub(crate) fill: Option<RawFill<'a>>,
}

/// A step. A signal may be any number yet.
#[derive(Clone, Copy)]
pub(crate) enum RawStep<'a> {
    Call(RawCall<'a>),
    Fork(u32),
    Thread(u32),
    Exec(u64),
    Signal(u64, bool),
    Exit(u64),
}

/// What a line says.
#[derive(Clone, Copy)]
pub(crate) enum RawLine<'a> {
    /// It is empty or a comment.
    Nothing,
    /// It opens the block of this row.
    Opens(Row),
    Loads(RawPart<'a>),
    Does(RawStep<'a>),
    /// It closes the block.
    Closes,
}
