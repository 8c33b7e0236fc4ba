//! The memory of a program as the lines of a file say it.
//!
//! A case keeps the memory of each of its programs so, since a line of some ten bytes maps a page of 4096. Contracts
//! see the memory that the lines make, one after the other. A machine makes the pages of the programs that it runs.

ghost use Rattle.std.specs.Prelude.{◌≡◌, ◌%◌, ◌++◌, ◌∷◌, [], IfOk, None, OnErr, OnOk, drop, length, take};
ghost use Rattle.std.specs.FinMap as finite;
ghost use Rattle.trace_pages.specs.FlatMemory as flat;
ghost use Rattle.trace_pages.specs.FlatMemory.{mapped, run_end, stored};
ghost use Rattle.trace_pages.specs.Memory.{map_refusal};
ghost use Rattle.trace_script.specs.MemoryParts.{CanAllFollow, CanFollow, content_size, part_added, with_parts};

use crate::script::counts::kept_count;
use std::alloc::{Allocator, Global};
use std::marker::Model;
use trace_options::NoMemory;
use trace_pages::{MapError, Memory, PAGE_SIZE};

/// What a file says of a memory at an address: 16 bytes, where an enum with the address in it has 24.
#[derive(Clone, Copy, Debug, PartialEq, Eq)]
pub(crate) struct MemoryPart {
    pub(crate) addr: u64,
    pub(crate) content: PartContent,
}

#[derive(Clone, Copy, Debug, PartialEq, Eq)]
pub(crate) enum PartContent {
    /// A page of zeros.
    Page,
    /// This many bytes.
    Bytes(u32),
}

/// The memory of a program: its pages and the bytes that are stored there, in the order in which a file says them.
#[derive(Drop)]
pub struct MemoryParts<A: Allocator = Global> {
    parts: Vec<MemoryPart, A>,
    /// The bytes of all parts, one after the other.
    bytes: Vec<u8, A>,
}

impl<A: Allocator> Model for MemoryParts<A> {
    ghost use Rattle.trace_pages.specs.FlatMemory.{FlatMemory, flat_code};

    ghost Value = { FlatMemory };

    ghost coded = { flat_code };

    ghost use Rattle.trace_script.specs.MemoryParts.{AreParts, memory_of_parts};

    ghost view = { λ m. memory_of_parts m.parts.items m.bytes.items };

    ghost invariant = { λ m. AreParts m.parts.items m.bytes.items };
}

impl<A: Allocator + Copy> MemoryParts<A> {
    /// Memory with no page.
    pub(crate) fn new(alloc: A) -> MemoryParts<A>
        ensures { result ≡ finite.empty }
    {
        MemoryParts {
            parts: Vec::new(alloc),
            bytes: Vec::new(alloc),
        }
    }

    /// The memory with its pages, in the memory of the same allocator.
    pub fn to_memory(&self) -> Result<Memory<A>, NoMemory>
        ensures { IfOk result (λ memory. memory ≡ self.now) }
    {
        let alloc = *self.parts.allocator();
        memory_of(alloc, self.parts.as_slice(), self.bytes.as_slice())
    }
}

impl<A: Allocator> MemoryParts<A> {
    /// Adds a page of zeros, of which it is known that it can be mapped.
    pub(crate) fn map(&mut self, page: u64) -> Result<(), NoMemory>
        requires whole { page % PAGE_SIZE ≡ 0 }
        requires free { map_refusal self.old page ≡ None }
        ensures { OnOk result (self.new ≡ mapped self.old page) }
    {
        let part = MemoryPart {
            addr: page,
            content: PartContent::Page,
        };
        append(&mut self.parts, &mut self.bytes, part, &[])?;
        Ok(())
    }

    /// Adds bytes from an address on, of which it is known that all their addresses are mapped.
    pub(crate) fn store(&mut self, addr: u64, bytes: &[u8]) -> Result<(), NoMemory>
        requires { run_end self.old addr (length bytes.now) ≡ flat.Full }
        ensures { OnOk result (self.new ≡ stored self.old addr bytes.now) }
    {
        let len = kept_count(bytes.len())?;
        let part = MemoryPart {
            addr,
            content: PartContent::Bytes(len),
        };
        append(&mut self.parts, &mut self.bytes, part, bytes)?;
        Ok(())
    }
}

/// Adds a part with its own bytes. There is room for the part before its bytes are added, so where memory runs out,
/// nothing has changed.
fn append<A: Allocator>(
    parts: &mut Vec<MemoryPart, A>,
    bytes: &mut Vec<u8, A>,
    part: MemoryPart,
    own: &[u8],
) -> Result<(), NoMemory>
    ensures parts { OnOk result (parts.new.items ≡ parts.old.items ++ part ∷ []) }
    ensures bytes { OnOk result (bytes.new.items ≡ bytes.old.items ++ own.now) }
    ensures err_parts { OnErr result (parts.new.items ≡ parts.old.items) }
    ensures err_bytes { OnErr result (bytes.new.items ≡ bytes.old.items) }
{
    parts.reserve(1)?;
    bytes.extend_from_slice(own)?;
    if parts.push(part).is_err() {
        unreachable!()
    }
    Ok(())
}

/// The memory that parts make, one after the other.
fn memory_of<A: Allocator + Copy>(
    alloc: A,
    parts: &[MemoryPart],
    bytes: &[u8],
) -> Result<Memory<A>, NoMemory>
    requires { CanAllFollow finite.empty parts.now bytes.now }
    ensures { IfOk result (λ memory. memory ≡ with_parts finite.empty parts.now bytes.now) }
{
    let mut memory = Memory::new(alloc);
    let mut rest = bytes;
    for part in parts {
        let (own, after) = cut(rest, content_size(part.content));
        add_part(&mut memory, *part, own)?;
        rest = after;
    }
    Ok(memory)
}

/// How many bytes a part has. A page has none.
fn content_size(content: PartContent) -> u32
    ensures { result ≡ content_size content }
{
    match content {
        PartContent::Page => 0,
        PartContent::Bytes(len) => len,
    }
}

/// The first bytes, at most this many, and the others.
fn cut(bytes: &[u8], len: u32) -> (&[u8], &[u8])
    ensures first { result.0.now ≡ take len bytes.now }
    ensures others { result.1.now ≡ drop len bytes.now }
{
    bytes.split_at(bytes.len().min(len as usize))
}

/// Maps a part, or stores its bytes.
fn add_part<A: Allocator + Copy>(
    memory: &mut Memory<A>,
    part: MemoryPart,
    bytes: &[u8],
) -> Result<(), NoMemory>
    requires { CanFollow part.content memory.old part.addr bytes.now }
    ensures { OnOk result (memory.new ≡ part_added part.content memory.old part.addr bytes.now) }
{
    match part.content {
        PartContent::Page => map_page(memory, part.addr),
        PartContent::Bytes(_) => {
            store_bytes(memory, part.addr, bytes);
            Ok(())
        }
    }
}

/// Maps a page that can be mapped.
fn map_page<A: Allocator + Copy>(memory: &mut Memory<A>, page: u64) -> Result<(), NoMemory>
    requires whole { page % PAGE_SIZE ≡ 0 }
    requires free { map_refusal memory.old page ≡ None }
    ensures { OnOk result (memory.new ≡ mapped memory.old page) }
{
    match memory.map(page) {
        Ok(()) => Ok(()),
        Err(MapError::NoMemory) => Err(NoMemory),
        Err(_) => unreachable!(),
    }
}

/// Stores bytes whose addresses are all mapped.
fn store_bytes<A: Allocator>(memory: &mut Memory<A>, addr: u64, bytes: &[u8])
    requires { run_end memory.old addr (length bytes.now) ≡ flat.Full }
    ensures { memory.new ≡ stored memory.old addr bytes.now }
{
    match memory.store(addr, bytes) {
        Ok(()) => {}
        Err(_) => unreachable!(),
    }
}
