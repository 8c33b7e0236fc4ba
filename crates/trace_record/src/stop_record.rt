//! The record of a stop: what a tracer that claims the stop is shown.
//!
//! A record is moved from the tracee to the tracer and back, never copied: its memory is the tracee's. Contracts see
//! it as its `Content`.

ghost use Rattle.std.specs.Prelude.{◌≡◌};
ghost use Rattle.trace_record.specs.Content.{empty_content, info_of, message_of};
ghost use Rattle.trace_record.specs.Stop.{stop_status};

use crate::stop::Stop;
use std::alloc::{Allocator, Global};
use std::marker::Model;
use trace_pages::Memory;
use trace_regs::{Outcome, Regs};
use trace_status::{Part, SyscallInfo};

/// The architecture of x86-64 (`<linux/audit.h>`).
pub const AUDIT_ARCH_X86_64: u32 = 0xC000003E;

/// A stop of a tracee, with its registers and its memory there.
#[derive(Drop)]
pub struct StopRecord<A: Allocator = Global> {
    /// The thread id of the tracee.
    pub tid: u32,
    /// The number of the stop.
    pub number: u32,
    pub stop: Stop,
    pub regs: Regs,
    pub memory: Memory<A>,
}

impl<A: Allocator> Model for StopRecord<A> {
    ghost use Rattle.std.specs.Coded.{codes};
    ghost use Rattle.trace_pages.specs.FlatMemory.{flat_code};
    ghost use Rattle.trace_record.specs.Content.{Content, content_by};

    ghost Value = { Content };

    ghost coded = { Prim.hlevel (codes, flat_code) };

    ghost view = { λ r. content_by r.tid r.number r.stop r.regs r.memory };

    ghost inverse = { λ c. record { tid = c.tid; number = c.number; stop = c.stop; regs = c.regs; memory = c.memory } };
}

impl<A: Allocator + Copy> StopRecord<A> {
    /// The record of a tracee that has made no stop: number 0, registers 0, no memory.
    pub fn empty(alloc: A, tid: u32) -> StopRecord<A>
        ensures { result ≡ empty_content tid }
    {
        StopRecord {
            tid,
            number: 0,
            stop: Stop::Start,
            regs: Regs::default(),
            memory: Memory::new(alloc),
        }
    }
}

impl<A: Allocator> StopRecord<A> {
    /// The raw wait status that reports the stop.
    pub fn status(&self) -> u32
        ensures { result ≡ stop_status self.now.stop }
    {
        self.stop.status()
    }

    /// What `PTRACE_GET_SYSCALL_INFO` reports of the stop (ptrace(2)).
    pub fn info(&self) -> SyscallInfo
        ensures { result ≡ info_of self.now.stop self.now.regs }
    {
        SyscallInfo {
            arch: AUDIT_ARCH_X86_64,
            ip: self.regs.rip,
            sp: self.regs.rsp,
            part: part_at(self.stop, &self.regs),
        }
    }

    /// The event message of the stop, or 0 where it has none (ptrace(2), `PTRACE_GETEVENTMSG`). At the stop before a
    /// death it is the raw wait status of the death.
    pub fn event_message(&self) -> u64
        ensures { result ≡ message_of self.now.stop }
    {
        match self.stop {
            Stop::Fork(child) | Stop::Clone(child) => u64::from(child),
            Stop::Exec(former) => u64::from(former),
            Stop::Seccomp(ret_data) => u64::from(ret_data),
            Stop::Ending(death) => u64::from(death.status()),
            _ => 0,
        }
    }
}

ghost use Rattle.trace_record.specs.Content.{part_of};

/// What the kind of a stop adds to its information.
fn part_at(stop: Stop, regs: &Regs) -> Part
    ensures { result ≡ part_of stop regs.now }
{
    match stop {
        Stop::Enter => Part::Entry {
            nr: regs.nr(),
            args: regs.args(),
        },
        Stop::Exit => Part::Exit {
            rval: regs.rax.cast_signed(),
            is_error: matches!(regs.result(), Outcome::Errno(_)),
        },
        Stop::Seccomp(ret_data) => Part::Seccomp {
            nr: regs.nr(),
            args: regs.args(),
            ret_data: u32::from(ret_data),
        },
        _ => Part::Quiet,
    }
}
