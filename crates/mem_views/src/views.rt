//! What can be seen of the memory of a stop.

ghost use Rattle.std.specs.Prelude.{◌≡◌, ◌<◌, ◌≤◌, ◌^◌, MatchResult, length, position};
ghost use Rattle.trace_options.specs.declared.errno.Errno.TheVariants.{EINVAL};
ghost use Rattle.mem_views.specs.ByteView.{cut_bytes, cut_c_string, is_zero};
ghost use Rattle.mem_views.specs.IovecView.{iovec_items};

use crate::cut::Cut;
use crate::end::End;
use crate::iovecs::{IOV_MAX, Iovecs};
use crate::runs::{end_of_run, length_of_run};
use std::alloc::{Allocator, Global};
use std::marker::Model;
use trace_options::Errno;
use trace_pages::Memory;
use trace_record::StopRecord;

/// The memory that was published with a stop, to look at.
#[derive(Drop)]
pub struct Views<'a, A: Allocator = Global> {
    memory: &'a Memory<A>,
}

impl<'a, A: Allocator> Model for Views<'a, A> {
    ghost use Rattle.trace_pages.specs.FlatMemory.{FlatMemory, flat_code};

    ghost Value = { FlatMemory };

    ghost coded = { flat_code };

    ghost view = { λ v. v.memory.now };
}

impl<'a, A: Allocator> Views<'a, A> {
    /// Views of the memory in a stop's record.
    pub fn of(stop: &'a StopRecord<A>) -> Views<'a, A>
        ensures { result ≡ stop.now.memory }
    {
        Views {
            memory: &stop.memory,
        }
    }

    /// At most `len` bytes from an address on. It ends as `Full`, or before the first address that is not mapped
    /// (`Fault`), or with the address space (`Top`).
    pub fn bytes(&self, addr: u64, len: u64) -> Cut<'a, A>
        ensures { result ≡ cut_bytes self.now addr len }
    {
        let end = end_of_run(self.memory, addr, len);
        Cut::new(self.memory, addr, length_of_run(addr, len, end), end)
    }

    /// The string at an address, of which at most `limit` bytes are examined: those before the first zero (`Nul`), or
    /// all of them where none is zero. Then it ends as `Limit` where all are there, and otherwise as `bytes` does.
    pub fn c_string(&self, addr: u64, limit: u64) -> Cut<'a, A>
        ensures { result ≡ cut_c_string self.now addr limit }
    {
        let examined = self.bytes(addr, limit);
        let (len, end) = (examined.len(), examined.end());
        match place_of_zero(examined) {
            Some(zero) => Cut::new(self.memory, addr, zero, End::Nul),
            None => Cut::new(self.memory, addr, len, end_of_string(end)),
        }
    }

    /// The array of `count` entries `struct iovec` at an address (process_vm_readv(2)), or EINVAL where there are more
    /// than [`IOV_MAX`].
    pub fn iovecs(&self, addr: u64, count: u64) -> Result<Iovecs<'a, A>, Errno>
        ensures { MatchResult result (λ items. (count ≤ IOV_MAX) × (items ≡ iovec_items self.now addr count))
            (λ error. (IOV_MAX < count) × (error ≡ EINVAL)) }
    {
        if count > IOV_MAX {
            return Err(Errno::EINVAL);
        }
        Ok(Iovecs::new(self.memory, addr, count))
    }
}

ghost use Rattle.std.specs.Prelude.{ℕ};
ghost use Rattle.trace_pages.specs.FlatMemory.{RunEnd};
ghost use Rattle.mem_views.specs.ByteView.{bytes_end, string_end};

/// The place of a view's first zero, counted from what is left of it.
fn place_of_zero<A: Allocator>(cut: Cut<'_, A>) -> Option<u64>
    requires { length cut.rest < 2 ^ 64 }
    ensures { result ≡ position is_zero cut.entry.rest }
{
    let mut seen = 0;
    for piece in cut {
        if let Some(place) = zero_in(piece) {
            return Some(seen + place as u64);
        }
        seen += piece.len() as u64;
    }
    None
}

/// The place of a piece's first zero.
fn zero_in(piece: &[u8]) -> Option<usize>
    ensures { result ≡ position is_zero piece.now }
{
    piece.iter().position(|byte| *byte == 0)
}

/// How a string without a zero ends, by the end of the bytes that were examined.
fn end_of_string(end: End) -> End
    ensures { (run_ended : RunEnd) → end ≡ bytes_end run_ended → result ≡ string_end run_ended }
{
    match end {
        End::Full => End::Limit,
        end => end,
    }
}
