//! A byte view.

ghost use Rattle.std.specs.Prelude.{◌≡◌};
ghost use Rattle.trace_pages.specs.FlatMemory as flat;
ghost use Rattle.trace_pages.specs.FlatMemory.{run, run_end};
ghost use Rattle.mem_views.specs.ByteView.{cut_of};

use crate::end::End;
use crate::runs::front_of_run;
use std::alloc::{Allocator, Global};
use std::marker::Model;
use trace_pages::Memory;

/// Bytes of a memory, from an address on: an iterator over slices of the pages where they are. No slice is empty, and
/// each but the last ends where its page ends.
#[derive(Drop)]
pub struct Cut<'a, A: Allocator = Global> {
    memory: &'a Memory<A>,
    /// The address of the next byte; it means nothing once no byte is left.
    at: u64,
    /// How many bytes are left.
    left: u64,
    len: u64,
    end: End,
}

impl<'a, A: Allocator> Model for Cut<'a, A> {
    ghost use Rattle.std.specs.Prelude.{◌≡◌};
    ghost use Rattle.trace_pages.specs.FlatMemory as flat;
    ghost use Rattle.trace_pages.specs.FlatMemory.{run, run_end};
    ghost use Rattle.mem_views.specs.ByteView.{Cut};

    ghost Value = { Cut };

    ghost view = { λ c. record { at = c.at; rest = run c.memory.now c.at c.left; len = c.len; end = c.end } };

    ghost invariant = { λ c. run_end c.memory.now c.at c.left ≡ flat.Full };
}

impl<'a, A: Allocator> Cut<'a, A> {
    /// A view of bytes that are all there.
    pub(crate) fn new(memory: &'a Memory<A>, addr: u64, len: u64, end: End) -> Cut<'a, A>
        requires { run_end memory.now addr len ≡ flat.Full }
        ensures { result ≡ cut_of addr (run memory.now addr len) end }
    {
        Cut {
            memory,
            at: addr,
            left: len,
            len,
            end,
        }
    }

    /// Where the whole view ends, also after pieces were taken.
    pub fn end(&self) -> End
        ensures { result ≡ self.now.end }
    {
        self.end
    }

    /// How many bytes the whole view has, also after pieces were taken.
    pub fn len(&self) -> u64
        ensures { result ≡ self.now.len }
    {
        self.len
    }
}

impl<'a, A: Allocator> Iterator for Cut<'a, A> {
    type Item = &'a [u8];

    ghost use Rattle.std.specs.Prelude.{◌≡◌, [], MatchOption, length};
    ghost use Rattle.std.specs.Iterator.{at_most};
    ghost use Rattle.mem_views.specs.ByteView.{Gives};

    ghost next_gives = { λ s r t. MatchOption r ((s.rest ≡ []) × (t ≡ s)) (λ piece. Gives s t piece.now) };

    ghost remaining = { λ s. at_most (length s.rest) };

    fn next(&mut self) -> Option<&'a [u8]> {
        if self.left == 0 {
            return None;
        }
        let piece = front_of_run(self.memory, self.at, self.left);
        self.at = self.at.wrapping_add(piece.len() as u64);
        self.left -= piece.len() as u64;
        Some(piece)
    }
}
