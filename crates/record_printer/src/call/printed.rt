//! A call that is printed.

use std::alloc::{Allocator, Global};
use trace_options::ArgumentKind;
use trace_record::StopRecord;

/// What the parts of a call's line are made of.
#[derive(Drop)]
pub(crate) struct PrintedCall<'a, B: Allocator = Global> {
    /// The record of a stop in the call.
    pub(crate) stop: &'a StopRecord<B>,
    /// How its arguments are printed.
    pub(crate) kinds: &'a [ArgumentKind],
    /// How many bytes of a string or of a buffer, and how many entries of an array, are printed at most.
    pub(crate) limit: u32,
}
