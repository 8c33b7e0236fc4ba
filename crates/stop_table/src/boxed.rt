//! Records on the heap. A slot holds the address of its row's record, so that a step moves that and not the record's 280
//! bytes; the box of a record that a tracee has stays with its handle for the next one.

ghost use Rattle.std.specs.Prelude.{◌≡◌, true, false, length, IfOk, OnErr, OnOk};
ghost use Rattle.trace_pages.specs.FlatMemory.{run_end};
ghost use Rattle.trace_pages.specs.Memory.{store_answer};
ghost use Rattle.stop_table.specs.Boxed.{with_memory};
ghost use Rattle.stop_table.specs.Written.{with_bytes, with_regs};

use crossbeam_utils::CachePadded;
use std::alloc::{AllocError, Allocator};
use std::marker::Model;
use std::mem::replace;
use trace_pages::laws::changes_determine_memory;
use trace_pages::{Fault, Memory};
use trace_record::StopRecord;
use trace_regs::Regs;

/// A box with a record in it, which shares no line of the processor's with another one.
#[derive(Drop)]
pub(crate) struct BoxedRecord<A: Allocator> {
    padded: Box<CachePadded<StopRecord<A>>, A>,
}

impl<A: Allocator> Model for BoxedRecord<A> {
    ghost use Rattle.std.specs.Coded.{codes};
    ghost use Rattle.trace_pages.specs.FlatMemory.{flat_code};
    ghost use Rattle.trace_record.specs.Content.{Content};
    ghost use Rattle.crossbeam_utils.specs.Padded.{padded_value};

    ghost Value = { Content };

    ghost coded = { Prim.hlevel (codes, flat_code) };

    ghost view = { λ b. padded_value b.padded.value };
}

impl<A: Allocator> BoxedRecord<A> {
    pub(crate) fn new(alloc: A, stop: StopRecord<A>) -> Result<BoxedRecord<A>, AllocError>
        ensures { IfOk result (λ b. b ≡ stop) }
    {
        Ok(BoxedRecord {
            padded: Box::new(alloc, CachePadded::new(stop))?,
        })
    }

    #[inline(always)]
    pub(crate) fn stop(&self) -> &StopRecord<A>
        ensures { result.now ≡ self.now }
    {
        self.padded.as_ref()
    }

    /// Puts other registers in.
    #[inline(always)]
    pub(crate) fn set_regs(&mut self, regs: Regs)
        ensures { self.new ≡ with_regs self.old regs }
    {
        let record: &mut StopRecord<A> = self.padded.as_mut();
        record.regs = regs;
    }

    /// Stores bytes in the record's memory, or none of them where one of their addresses is not mapped.
    #[inline(always)]
    pub(crate) fn store(&mut self, addr: u64, bytes: &[u8]) -> Result<(), Fault>
        ensures answer { result ≡ store_answer (run_end self.old.memory addr (length bytes.now)) }
        ensures ok { OnOk result (self.new ≡ with_bytes self.old addr bytes.now) }
        ensures err { OnErr result (self.new ≡ self.old) }
    {
        let record: &mut StopRecord<A> = self.padded.as_mut();
        store_in(record, addr, bytes)
    }

    /// Takes the record's memory out. Another comes in its place.
    #[inline(always)]
    fn take_memory(&mut self, spare: Memory<A>) -> Memory<A>
        ensures memory { result ≡ self.old.memory }
        ensures rest { self.new ≡ with_memory self.old spare }
    {
        let record: &mut StopRecord<A> = self.padded.as_mut();
        replace(&mut record.memory, spare)
    }

    /// The record, with this memory in the place of its own.
    #[inline(always)]
    fn with_memory(&self, memory: Memory<A>) -> StopRecord<A>
        ensures { result ≡ with_memory self.now memory }
    {
        let record: &StopRecord<A> = self.padded.as_ref();
        StopRecord {
            tid: record.tid,
            number: record.number,
            stop: record.stop,
            regs: record.regs,
            memory,
        }
    }

    /// Puts a record in, and gives back the memory that was there.
    #[inline(always)]
    fn put(&mut self, stop: StopRecord<A>) -> Memory<A>
        ensures memory { result ≡ self.old.memory }
        ensures record { self.new ≡ stop }
    {
        let record: &mut StopRecord<A> = self.padded.as_mut();
        record.tid = stop.tid;
        record.number = stop.number;
        record.stop = stop.stop;
        record.regs = stop.regs;
        let StopRecord { memory, .. } = stop;
        replace(&mut record.memory, memory)
    }
}

/// Stores bytes in a record's memory, or none of them where one of their addresses is not mapped.
#[inline(always)]
fn store_in<A: Allocator>(held: &mut StopRecord<A>, addr: u64, bytes: &[u8]) -> Result<(), Fault>
    ensures answer { result ≡ store_answer (run_end held.old.memory addr (length bytes.now)) }
    ensures ok { OnOk result (held.new ≡ with_bytes held.old addr bytes.now) }
    ensures err { OnErr result (held.new ≡ held.old) }
{
    changes_determine_memory();
    held.memory.store(addr, bytes)
}

/// What a tracee keeps of its record: while the tracee has the record, the box that it lay in, and otherwise a memory of
/// no pages, to leave in the box in the place of the record's. Contracts see whether it has a box.
#[derive(Drop)]
pub(crate) struct BoxHolder<A: Allocator> {
    boxed: Option<BoxedRecord<A>>,
    spare: Option<Memory<A>>,
}

impl<A: Allocator> Model for BoxHolder<A> {
    ghost use Rattle.std.specs.Prelude.{◌≡◌, Bool, is_some, not};

    ghost Value = { Bool };

    ghost view = { λ h. is_some h.boxed };

    ghost invariant = { λ h. is_some h.spare ≡ not (is_some h.boxed) };
}

impl<A: Allocator> BoxHolder<A> {
    pub(crate) fn new(spare: Memory<A>) -> BoxHolder<A>
        ensures { result ≡ false }
    {
        BoxHolder {
            boxed: None,
            spare: Some(spare),
        }
    }

    pub(crate) fn has_box(&self) -> bool
        ensures { result ≡ self.now }
    {
        self.boxed.is_some()
    }

    /// Keeps a box, and takes the record out of it.
    // What it writes comes first, and then the record is read: so a caller that changes a field and gives the record back
    // is compiled to a change of that field in the box.
    #[inline(always)]
    pub(crate) fn take(&mut self, mut boxed: BoxedRecord<A>) -> StopRecord<A>
        requires { self.old ≡ false }
        ensures record { result ≡ boxed }
        ensures has_box { self.new ≡ true }
    {
        let Some(spare) = self.spare.take() else {
            unreachable!()
        };
        let memory = boxed.take_memory(spare);
        let None = self.boxed.replace(boxed) else {
            unreachable!()
        };
        let Some(boxed) = &self.boxed else {
            unreachable!()
        };
        boxed.with_memory(memory)
    }

    /// Puts a record into the box, and gives the box.
    #[inline(always)]
    pub(crate) fn give(&mut self, stop: StopRecord<A>) -> BoxedRecord<A>
        requires { self.old ≡ true }
        ensures record { result ≡ stop }
        ensures has_box { self.new ≡ false }
    {
        let Some(boxed) = &mut self.boxed else {
            unreachable!()
        };
        let spare = boxed.put(stop);
        let Some(boxed) = self.boxed.take() else {
            unreachable!()
        };
        self.spare = Some(spare);
        boxed
    }
}
