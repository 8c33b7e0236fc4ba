//! The memory of a tracee.
//!
//! Contracts see it as a finite map from address to byte. It is kept as the list of the pages' addresses, in rising
//! order, beside the list of the pages, each in a box of its own.

ghost use Rattle.std.specs.Prelude.{◌≡◌, ◌<◌, ◌≤◌, ◌+◌, ◌*◌, ◌%◌, IsSome, IfOk, OnOk, OnErr, Some, None};
ghost use Rattle.std.specs.Prelude.{◌++◌, MatchOption, IsOkUnless, nat_le, length, take, drop};
ghost use Rattle.std.specs.FinMap as finite;
ghost use Rattle.trace_pages.specs.FlatMemory as flat;
ghost use Rattle.trace_pages.specs.FlatMemory.{IsPiece, MapsPage, StoresBytes, byte_at, run, run_end};

use crate::fault::Fault;
use crate::map_error::MapError;
use crate::pages::{MOST_PAGES, PAGE_SIZE, Page, insert_page, place_of, rest_of_page};
use std::alloc::{Allocator, Global};
use std::marker::Model;
use trace_options::NoMemory;

/// The memory of a tracee: at most [`MOST_PAGES`] pages of [`PAGE_SIZE`] bytes, each at an address that is a multiple
/// of `PAGE_SIZE`.
#[derive(Drop)]
pub struct Memory<A: Allocator = Global> {
    addresses: Vec<u64, A>,
    pages: Vec<Page<A>, A>,
}

impl<A: Allocator> Model for Memory<A> {
    ghost use Rattle.trace_pages.specs.FlatMemory.{FlatMemory, flat_code};
    ghost use Rattle.trace_pages.specs.Pages.{ArePages, flat_of};

    ghost Value = { FlatMemory };

    ghost coded = { flat_code };

    ghost view = { λ m. flat_of m.addresses.items m.pages.items };

    ghost invariant = { λ m. ArePages m.addresses.items m.pages.items };
}

impl<A: Allocator + Copy> Memory<A> {
    ghost use Rattle.trace_pages.specs.Memory.{map_refusal};
    ghost use Rattle.trace_pages.specs.declared.map_error.MapError.{MapError};

    /// Memory with no page.
    pub fn new(alloc: A) -> Memory<A>
        ensures { result ≡ finite.empty }
    {
        Memory {
            addresses: Vec::new(alloc),
            pages: Vec::new(alloc),
        }
    }

    /// Adds the page of zeros at an address that is a multiple of [`PAGE_SIZE`]. A refusal leaves the memory as it
    /// was.
    pub fn map(&mut self, page: u64) -> Result<(), MapError>
        requires { page % PAGE_SIZE ≡ 0 }
        ensures ok { OnOk result (MapsPage self.old self.new page) }
        ensures grown { OnOk result (finite.len self.new ≡ finite.len self.old + PAGE_SIZE) }
        ensures fault { (error : MapError) → map_refusal self.old page ≡ Some error → result ≡ Err error }
        ensures accepted { map_refusal self.old page ≡ None → IsOkUnless result MapError.NoMemory }
        ensures err { OnErr result (self.new ≡ self.old) }
    {
        if self.byte(page).is_some() {
            return Err(MapError::Mapped);
        }
        if self.is_full() {
            return Err(MapError::TooMany);
        }
        self.add_page(page)?;
        Ok(())
    }

    /// Adds a page of zeros at its place among the others.
    fn add_page(&mut self, page: u64) -> Result<(), NoMemory>
        requires whole { page % PAGE_SIZE ≡ 0 }
        requires absent { byte_at self.old page ≡ None }
        requires room { finite.len self.old < MOST_PAGES * PAGE_SIZE }
        ensures ok { OnOk result (MapsPage self.old self.new page) }
        ensures grown { OnOk result (finite.len self.new ≡ finite.len self.old + PAGE_SIZE) }
        ensures err { OnErr result (self.new ≡ self.old) }
    {
        let Err(place) = place_of(self.addresses.as_slice(), page) else {
            unreachable!()
        };
        insert_page(&mut self.addresses, &mut self.pages, place, page)
    }

    /// A copy: memory with the same bytes at the same addresses, in the memory of the same allocator.
    pub fn copy(&self) -> Result<Memory<A>, NoMemory>
        ensures { IfOk result (λ copy. copy ≡ self.now) }
    {
        let alloc = *self.addresses.allocator();
        let addresses = Vec::from_slice(alloc, self.addresses.as_slice())?;
        let pages = copy_of(alloc, self.pages.as_slice())?;
        Ok(Memory { addresses, pages })
    }
}

impl<A: Allocator> Memory<A> {
    ghost use Rattle.trace_pages.specs.Memory.{store_answer};

    /// Writes the bytes from an address on, or none of them where one of their addresses is not mapped.
    pub fn store(&mut self, addr: u64, bytes: &[u8]) -> Result<(), Fault>
        ensures answer { result ≡ store_answer (run_end self.old addr (length bytes.now)) }
        ensures ok { OnOk result (StoresBytes self.old self.new addr bytes.now) }
        ensures err { OnErr result (self.new ≡ self.old) }
    {
        if bytes.len() <= rest_of_page(addr) {
            return self.store_in_page(addr, bytes);
        }
        self.check_run(addr, bytes.len())?;
        self.write_run(addr, bytes);
        Ok(())
    }

    /// Writes bytes that end within the page of their address, or nothing where it is not mapped: with one search.
    fn store_in_page(&mut self, addr: u64, bytes: &[u8]) -> Result<(), Fault>
        requires { length bytes.now + addr % PAGE_SIZE ≤ PAGE_SIZE }
        ensures answer { result ≡ store_answer (run_end self.old addr (length bytes.now)) }
        ensures ok { OnOk result (StoresBytes self.old self.new addr bytes.now) }
        ensures err { OnErr result (self.new ≡ self.old) }
    {
        let Ok(place) = place_of(self.addresses.as_slice(), addr) else {
            if bytes.is_empty() {
                return Ok(());
            }
            return Err(Fault { addr });
        };
        self.pages[place].write((addr % PAGE_SIZE) as usize, bytes);
        Ok(())
    }

    /// The byte at an address, or None where none is mapped.
    pub fn byte(&self, addr: u64) -> Option<u8>
        ensures { result ≡ byte_at self.now addr }
    {
        let piece = self.piece(addr)?;
        Some(piece[0])
    }

    /// The bytes from an address to the end of its page, or None where no page has the address.
    pub fn piece(&self, addr: u64) -> Option<&[u8]>
        ensures { MatchOption result (byte_at self.now addr ≡ None) (λ piece. IsPiece self.now addr piece.now) }
    {
        let Ok(place) = place_of(self.addresses.as_slice(), addr) else {
            return None;
        };
        Some(self.pages[place].rest((addr % PAGE_SIZE) as usize))
    }

    /// Copies the bytes from an address on into a buffer, up to the first address that is not mapped, or the last one, and
    /// answers how many they are. What is after them in the buffer stays.
    pub fn read(&self, addr: u64, to: &mut [u8]) -> usize
        ensures count { result ≡ length (run self.now addr (length to.old)) }
        ensures bytes { to.new ≡ run self.now addr (length to.old) ++ drop result to.old }
    {
        let mut at = addr;
        let mut done = 0;
        while done < to.len() {
            let Some(piece) = self.piece(at) else {
                return done;
            };
            let step = piece.len().min(to.len() - done);
            put(to, done, &piece[..step]);
            done += step;
            let Some(next) = at.checked_add(step as u64) else {
                return done;
            };
            at = next;
        }
        done
    }

    /// Whether a store of this many bytes from an address on can be done, without doing it: the answer is that of
    /// `store`, a fault at the first address that is not mapped, or at 2^64 - 1 where bytes remain after the last
    /// address.
    pub fn check_run(&self, addr: u64, len: usize) -> Result<(), Fault>
        ensures { result ≡ store_answer (run_end self.now addr len) }
    {
        let mut at = addr;
        let mut left = len;
        while left > 0 {
            let Some(piece) = self.piece(at) else {
                return Err(Fault { addr: at });
            };
            if left <= piece.len() {
                return Ok(());
            }
            left -= piece.len();
            let Some(next) = at.checked_add(piece.len() as u64) else {
                return Err(Fault { addr: u64::MAX });
            };
            at = next;
        }
        Ok(())
    }

    /// Gives room back that is kept for further pages. No byte changes.
    pub fn shrink_to_fit(&mut self)
        ensures { self.new ≡ self.old }
    {
        self.addresses.shrink_to_fit();
        self.pages.shrink_to_fit();
    }

    /// Whether there are as many pages as there can be.
    fn is_full(&self) -> bool
        ensures { result ≡ nat_le (MOST_PAGES * PAGE_SIZE) (finite.len self.now) }
    {
        self.addresses.len() >= MOST_PAGES
    }

    /// Writes the bytes, page by page, where all their addresses are mapped.
    fn write_run(&mut self, addr: u64, bytes: &[u8])
        requires { run_end self.old addr (length bytes.now) ≡ flat.Full }
        ensures { StoresBytes self.old self.new addr bytes.now }
    {
        let mut done = 0;
        while done < bytes.len() {
            let at = addr + done as u64;
            let step = rest_of_page(at).min(bytes.len() - done);
            let Ok(()) = self.store_in_page(at, &bytes[done..done + step]) else {
                unreachable!()
            };
            done += step;
        }
    }
}

/// Writes bytes into a buffer, from a place on.
fn put(to: &mut [u8], from: usize, bytes: &[u8])
    requires { from + length bytes.now ≤ length to.old }
    ensures { to.new ≡ take from to.old ++ bytes.now ++ drop (from + length bytes.now) to.old }
{
    to[from..from + bytes.len()].copy_from_slice(bytes);
}

/// Copies of pages, in the same order.
fn copy_of<A: Allocator + Copy>(alloc: A, pages: &[Page<A>]) -> Result<Vec<Page<A>, A>, NoMemory>
    ensures { IfOk result (λ copy. copy.items ≡ pages.now) }
{
    let mut copy = Vec::with_capacity(alloc, pages.len())?;
    for page in pages {
        copy.push(page.copy(alloc)?)?;
    }
    Ok(copy)
}
