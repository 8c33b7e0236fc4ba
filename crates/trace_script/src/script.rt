//! The script of a tracee: the program that it loads, and what it does, step by step.

pub(crate) mod copies;
pub(crate) mod counts;
mod fill_bytes;
pub(crate) mod memory_parts;

use crate::script::memory_parts::MemoryParts;
use std::alloc::{Allocator, Global};

/// A program as execve(2) loads it: its memory, and the two registers that it starts with. The memory is in parts where
/// a case has the program, and in pages where a machine has it.
#[derive(Drop)]
pub struct Image<M> {
    pub memory: M,
    /// The instruction pointer.
    pub rip: u64,
    /// The stack pointer.
    pub rsp: u64,
}

/// Bytes that a call writes to the tracee's memory before it returns. They are among its script's (`Fill::bytes`).
#[derive(Clone, Copy, Debug, PartialEq, Eq)]
pub struct Fill {
    pub addr: u64,
    /// How many of the script's bytes come before its own.
    pub start: u32,
    /// How many bytes it has.
    pub len: u32,
}

/// A system call with its answer.
#[derive(Clone, Copy, Debug, PartialEq, Eq)]
pub struct Call {
    /// Its number on x86-64.
    pub nr: u64,
    /// Its arguments, first to sixth.
    pub args: [u64; 6],
    /// The word that it leaves in `rax`.
    pub answer: u64,
    /// What it writes.
    pub fill: Option<Fill>,
}

/// One thing that a tracee does.
#[derive(Drop)]
pub enum Step<M> {
    /// Any system call except those below.
    Call(Call),
    /// A fork(2) that creates the process of this thread id.
    Fork(u32),
    /// A clone(2) that creates the thread of this id in the caller's group.
    Thread(u32),
    /// An execve(2) of the program whose path is at this address.
    Exec { path: u64, image: Image<M> },
    /// A signal arrives, 1 to 31; whether it kills the tracee where the restart hands it over (signal(7)).
    Signal { signal: u8, deadly: bool },
    /// An exit(2) with this status.
    Exit(u64),
}

/// What a tracee does, from its first stop on. Where the steps run out, it exits with code 0.
#[derive(Drop)]
pub struct Script<A: Allocator = Global> {
    pub image: Image<MemoryParts<A>>,
    pub steps: Vec<Step<MemoryParts<A>>, A>,
    /// The bytes of all fills, one after the other. They are in one block, so that neither reading a script nor copying
    /// it takes memory for each fill.
    pub filled: Vec<u8, A>,
}
