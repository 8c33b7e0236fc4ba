//! The machine of a scripted tracee.
//!
//! A machine has a copy of its tracee's script, since it changes its images, whose pages it has made. Contracts see it as
//! its position: who is traced and how, the number of the last stop, and what is left of the script from there on.
//!
//! What is left is kept so: before the first stop, the program and all steps; after it, the steps from the one underway
//! on, and the place in that one; from the exit on, the death. That no number of a stop that is left passes the
//! last one is the type's invariant.

mod births;
mod calls;
pub(crate) mod next;
mod progress;

use crate::machine::progress::Progress;
use crate::script::{Image, Step};
use crate::setting::Setting;
use std::alloc::{Allocator, Global};
use std::marker::Model;
use trace_pages::Memory;

/// Runs one tracee's script from stop to stop.
#[derive(Drop)]
pub struct Machine<A: Allocator = Global> {
    setting: Setting,
    /// The number of the last stop, or 0.
    number: u32,
    progress: Progress,
    /// The first program, until it is loaded.
    image: Image<Memory<A>>,
    steps: Vec<Step<Memory<A>>, A>,
    /// The bytes of all fills.
    filled: Vec<u8, A>,
    /// Memory with no page, once for each program: where a program is put in, it takes the place of the pages before.
    empties: Vec<Memory<A>, A>,
}

impl<A: Allocator> Model for Machine<A> {
    ghost use Rattle.std.specs.Coded.{codes};
    ghost use Rattle.trace_pages.specs.FlatMemory.{flat_code};
    ghost use Rattle.trace_script.specs.StopTrace.{Position, position};

    ghost Value = { Position };

    ghost coded = { Prim.hlevel (codes, flat_code) };

    ghost use Rattle.trace_script.specs.Left.{left_by};
    ghost use Rattle.trace_script.specs.StopNumbers.{IsWithin};
    ghost use Rattle.stop_history.specs.declared.limits.TheConstants.{LAST_NUMBER};

    ghost view = { λ m. position m.setting m.number
        (left_by m.setting m.progress m.image m.filled.items m.steps.items) };

    ghost invariant = { λ m. IsWithin LAST_NUMBER
        (position m.setting m.number (left_by m.setting m.progress m.image m.filled.items m.steps.items)) };
}
