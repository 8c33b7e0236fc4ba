//! Claims: the record of a claimed stop, which its holder may write to and must spend by a resume, and what an attempt
//! to claim answers.

ghost use Rattle.std.specs.Prelude.{◌≡◌, OnErr, OnOk, length};
ghost use Rattle.trace_pages.specs.FlatMemory.{run_end};
ghost use Rattle.trace_pages.specs.Memory.{store_answer};
ghost use Rattle.stop_table.specs.Claiming.{IsSameClaim};
ghost use Rattle.stop_table.specs.Written.{with_bytes, with_regs};

use crate::boxed::BoxedRecord;
use crate::shown::Shown;
use std::alloc::{Allocator, Global};
use stop_history::Word;
use trace_pages::Fault;
use trace_record::{Death, StopRecord};
use trace_regs::Regs;

/// A claimed stop. It owns the stop's record, which its holder may change: the tracee takes up what is there at the
/// resume. It cannot be dropped: `Tracer::resume` spends it, and so nothing that was borrowed from the record outlives
/// it.
pub struct Claim<A: Allocator = Global> {
    pub(crate) stop: BoxedRecord<A>,
    pub(crate) row: u32,
    pub(crate) word: Word,
    pub(crate) tracer: u8,
}

impl<A: Allocator> Claim<A> {
    /// The record that the tracee published, with what the holder has written since.
    pub fn record(&self) -> &StopRecord<A>
        ensures { result.now ≡ self.now.stop }
    {
        self.stop.stop()
    }

    /// The row that was claimed.
    pub fn row(&self) -> u32
        ensures { result ≡ self.now.row }
    {
        self.row
    }

    /// The tracer that has claimed it, 0 to 15.
    pub fn tracer(&self) -> u32
        ensures { result ≡ self.now.tracer }
    {
        u32::from(self.tracer)
    }

    /// Puts other registers into the record (ptrace(2), `PTRACE_SETREGS`). Any value is taken.
    pub fn set_regs(&mut self, regs: Regs)
        ensures record { self.new.stop ≡ with_regs self.old.stop regs }
        ensures claim { IsSameClaim self.old self.new }
    {
        self.stop.set_regs(regs);
    }

    /// Stores eight bytes in the record's memory from an address on (ptrace(2), `PTRACE_POKEDATA`), or none of them
    /// where an address is not mapped or lies after the last one. The fault's address is the first that is not mapped,
    /// or 2^64 - 1 where bytes remain after the last address.
    pub fn poke(&mut self, addr: u64, bytes: [u8; 8]) -> Result<(), Fault>
        ensures answer { result ≡ store_answer (run_end self.old.stop.memory addr 8) }
        ensures ok { OnOk result (self.new.stop ≡ with_bytes self.old.stop addr bytes) }
        ensures err { OnErr result (self.new.stop ≡ self.old.stop) }
        ensures claim { IsSameClaim self.old self.new }
    {
        self.store(addr, bytes.as_slice())
    }

    /// Stores bytes of any number in the record's memory from an address on, as `poke` does eight: all of them, or none
    /// where an address of theirs is not mapped or lies after the last one. The fault's address is the first that is not
    /// mapped, or 2^64 - 1 where bytes remain after the last address. No byte at all is stored at any address.
    pub fn store(&mut self, addr: u64, bytes: &[u8]) -> Result<(), Fault>
        ensures answer { result ≡ store_answer (run_end self.old.stop.memory addr (length bytes.now)) }
        ensures ok { OnOk result (self.new.stop ≡ with_bytes self.old.stop addr bytes.now) }
        ensures err { OnErr result (self.new.stop ≡ self.old.stop) }
        ensures claim { IsSameClaim self.old self.new }
    {
        self.stop.store(addr, bytes)
    }
}

/// What an attempt to claim a row answers.
pub enum Taken<A: Allocator = Global> {
    /// The stop is claimed.
    Stop(Claim<A>),
    /// The death is claimed: the row is reaped. The number is that of its last stop, 0 if it made none.
    Ended { death: Death, number: u32 },
    /// There was nothing to claim: the row's state instead, neither a stop nor a death that was asked for.
    Nothing(Shown),
}
