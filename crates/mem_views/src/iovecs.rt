//! Arrays of `struct iovec` (process_vm_readv(2)).

ghost use Rattle.std.specs.Prelude.{◌≡◌, ◌<◌, ◌≤◌};
ghost use Rattle.std.specs.Int.{w64, from_le_bytes};
ghost use Rattle.trace_pages.specs.FlatMemory as flat;
ghost use Rattle.trace_pages.specs.FlatMemory.{run, run_end};
ghost use Rattle.mem_views.specs.IovecView.{entry_at, iovec_items};

use crate::cut::Cut;
use crate::end::End;
use crate::runs::end_of_run;
use std::alloc::{Allocator, Global};
use std::marker::Model;
use trace_pages::Memory;

/// How many entries an array can have (readv(2)).
pub const IOV_MAX: u64 = 1024;

/// How many bytes an entry has: `iov_base` and `iov_len`, of 8 bytes each.
pub(crate) const ENTRY_SIZE: u64 = 16;

/// What an array has at an index.
#[derive(Clone, Copy, Debug, PartialEq, Eq, Hash)]
pub enum Item {
    /// An entry: an address, and how many bytes from there on.
    Iov { base: u64, len: u64 },
    /// An entry that is not wholly there, and where its bytes end. It is the last item.
    Broken(End),
}

/// The entries of an array in order, each read when it is asked for.
#[derive(Drop)]
pub struct Iovecs<'a, A: Allocator = Global> {
    memory: &'a Memory<A>,
    addr: u64,
    /// The index of the next entry.
    index: u64,
    /// How many entries there are; no more than `index` after a broken one.
    count: u64,
}

impl<'a, A: Allocator> Model for Iovecs<'a, A> {
    ghost use Rattle.std.specs.Prelude.{◌≤◌, ◌-◌, List, map};
    ghost use Rattle.std.specs.List.{range_with_len};
    ghost use Rattle.mem_views.specs.IovecView.{entry_at, until_broken};
    ghost use Rattle.mem_views.specs.declared.iovecs.Item.{Item};
    ghost use Rattle.mem_views.specs.declared.iovecs.TheConstants.{IOV_MAX};

    ghost Value = { List Item };

    ghost view = { λ i. until_broken
        (map (entry_at i.memory.now i.addr) (range_with_len i.index (i.count - i.index))) };

    ghost invariant = { λ i. (i.index ≤ i.count) × (i.count ≤ IOV_MAX) };
}

impl<'a, A: Allocator> Iovecs<'a, A> {
    /// The array of this many entries at an address.
    pub(crate) fn new(memory: &'a Memory<A>, addr: u64, count: u64) -> Iovecs<'a, A>
        requires { count ≤ IOV_MAX }
        ensures { result ≡ iovec_items memory.now addr count }
    {
        Iovecs {
            memory,
            addr,
            index: 0,
            count,
        }
    }
}

impl<'a, A: Allocator> Iterator for Iovecs<'a, A> {
    type Item = Item;

    ghost use Rattle.std.specs.Iterator.{YieldsFirst, item_count};

    ghost next_gives = { YieldsFirst (λ items. items) };

    ghost remaining = { item_count (λ items. items) };

    fn next(&mut self) -> Option<Item> {
        if self.index == self.count {
            return None;
        }
        let item = entry_at(self.memory, self.addr, self.index);
        self.index = match item {
            Item::Iov { .. } => self.index + 1,
            Item::Broken(_) => self.count,
        };
        Some(item)
    }
}

/// The entry at an index.
fn entry_at<A: Allocator>(memory: &Memory<A>, addr: u64, index: u64) -> Item
    requires { index < IOV_MAX }
    ensures { result ≡ entry_at memory.now addr index }
{
    let Some(at) = addr.checked_add(index * ENTRY_SIZE) else {
        return Item::Broken(End::Top);
    };
    match end_of_run(memory, at, ENTRY_SIZE) {
        End::Full => Item::Iov {
            base: number_at(memory, at),
            len: number_at(memory, at + 8),
        },
        end => Item::Broken(end),
    }
}

/// The little-endian number of 8 bytes at an address.
fn number_at<A: Allocator>(memory: &Memory<A>, at: u64) -> u64
    requires { run_end memory.now at 8 ≡ flat.Full }
    ensures { result ≡ from_le_bytes w64 (run memory.now at 8) }
{
    let mut bytes = [0u8; 8];
    let mut filled = 0;
    for piece in Cut::new(memory, at, 8, End::Full) {
        bytes[filled..filled + piece.len()].copy_from_slice(piece);
        filled += piece.len();
    }
    u64::from_le_bytes(bytes)
}
