//! Pages as they are kept: their addresses in one list, in rising order, and in another, in the same order, their
//! bytes, each page's in a box of its own.

ghost use Rattle.std.specs.Prelude.{◌≡◌, ◌≤◌, ◌<◌, ◌+◌, ◌-◌, ◌%◌, IsSome, IfOk, OnOk, OnErr, Some, None};
ghost use Rattle.std.specs.Prelude.{MatchOption, MatchResult, drop, length, take, ◌++◌};
ghost use Rattle.std.specs.List.{insert};
ghost use Rattle.trace_pages.specs.FlatMemory.{IsPiece, StoresBytes, byte_at, zeros};
ghost use Rattle.trace_pages.specs.Pages.{ArePages, AreRising, HasNoPage, IsPagePlace, base_of, flat_of, overwritten};

use std::alloc::Allocator;
use std::marker::Model;
use trace_options::NoMemory;

/// How many bytes a page has (getpagesize(2)).
pub const PAGE_SIZE: u64 = 4096;

/// The same number, as lists count.
const PAGE_BYTES: usize = PAGE_SIZE as usize;

/// How many pages a memory can have.
pub const MOST_PAGES: usize = 256;

/// The bytes of a page.
#[derive(Drop)]
pub(crate) struct Page<A: Allocator> {
    bytes: Box<[u8; PAGE_BYTES], A>,
}

impl<A: Allocator> Model for Page<A> {
    ghost use Rattle.std.specs.Prelude.{ℕ, List};

    ghost Value = { List ℕ };

    ghost view = { λ p. p.bytes.value };
}

impl<A: Allocator> Page<A> {
    /// A page of zeros.
    #[tactic(auto, unfolding(crate::specs::FlatMemory::zeros))]
    pub(crate) fn zeros(alloc: A) -> Result<Page<A>, NoMemory>
        ensures { IfOk result (λ page. page ≡ zeros PAGE_SIZE) }
    {
        let bytes = Box::new(alloc, [0; PAGE_BYTES])?;
        Ok(Page { bytes })
    }

    /// A page with the same bytes.
    pub(crate) fn copy(&self, alloc: A) -> Result<Page<A>, NoMemory>
        ensures { IfOk result (λ page. page ≡ self.now) }
    {
        let bytes = Box::new(alloc, *self.bytes)?;
        Ok(Page { bytes })
    }

    /// The bytes from an offset to the end.
    pub(crate) fn rest(&self, from: usize) -> &[u8]
        requires { from ≤ PAGE_SIZE }
        ensures { result.now ≡ drop from self.now }
    {
        &self.bytes[from..]
    }

    /// Writes bytes from an offset on.
    pub(crate) fn write(&mut self, from: usize, bytes: &[u8])
        requires { from + length bytes.now ≤ PAGE_SIZE }
        ensures { self.new ≡ overwritten self.old from bytes.now }
    {
        self.bytes[from..from + bytes.len()].copy_from_slice(bytes);
    }
}

/// How far the page of an address goes on from it.
pub(crate) fn rest_of_page(addr: u64) -> usize
    ensures { result + addr % PAGE_SIZE ≡ PAGE_SIZE }
{
    (PAGE_SIZE - addr % PAGE_SIZE) as usize
}

/// The place of the page of an address, or the place that the page would have.
pub(crate) fn place_of(addresses: &[u64], addr: u64) -> Result<usize, usize>
    requires { AreRising addresses.now }
    ensures { MatchResult result (λ place. IsPagePlace addresses.now addr place)
        (λ place. HasNoPage addresses.now addr place) }
{
    addresses.binary_search(&(addr - addr % PAGE_SIZE))
}

/// Puts a page of zeros at a place of the lists. Both are made longer only once there is room in both, and only the
/// boxes behind the place move, not their bytes.
pub(crate) fn insert_page<A: Allocator + Copy>(
    addresses: &mut Vec<u64, A>,
    pages: &mut Vec<Page<A>, A>,
    place: usize,
    page: u64,
) -> Result<(), NoMemory>
    requires place { place ≤ length addresses.old.items }
    requires paired { length pages.old.items ≡ length addresses.old.items }
    ensures addresses { OnOk result (addresses.new.items ≡ insert addresses.old.items place page) }
    ensures pages { OnOk result (pages.new.items ≡ insert pages.old.items place (zeros PAGE_SIZE)) }
    ensures err_addresses { OnErr result (addresses.new.items ≡ addresses.old.items) }
    ensures err_pages { OnErr result (pages.new.items ≡ pages.old.items) }
{
    let zeros = Page::zeros(*addresses.allocator())?;
    addresses.reserve(1)?;
    pages.reserve(1)?;
    if addresses.insert(place, page).is_err() || pages.insert(place, zeros).is_err() {
        unreachable!()
    }
    Ok(())
}
