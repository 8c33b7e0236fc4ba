//! The place of what a handle holds.

ghost use Rattle.std.specs.Coded.{codes};
ghost use Rattle.std.specs.Prelude.{◌≡◌, Option, None, Some, is_some, true};
ghost use Rattle.trace_pages.specs.FlatMemory.{flat_code};
ghost use Rattle.pukzarn.specs.declared.handle_value.HandleValue.{HandleValue};

use crate::handle_value::HandleValue;
use raw_box::RawBox;
use std::alloc::Global;
use std::marker::Model;
use std::ptr::null_mut;

/// The place of an end on the heap, or of none. It is one word for C, which cannot be shown a `Box`.
#[repr(C)]
#[derive(Drop)]
pub struct Slot {
    at: *mut u8,
    pub ghost value: { Option HandleValue } by { Prim.hlevel (codes, flat_code) },
}

impl Model for Slot {
    ghost use Rattle.pukzarn.specs.contracts.handle_value.HandleValue as end;
    ghost use Rattle.pukzarn.specs.Slot.{slot_owns};

    ghost also_owns = { λ slot. slot_owns end.the_row slot.at slot.value };
}

// C may hand a handle to another thread.
unsafe impl Send for Slot {}

impl Slot {
    /// A slot of nothing.
    pub fn empty() -> Slot
        ensures { result.value ≡ None }
    {
        Slot { at: null_mut() }
    }

    /// A slot of what the box holds.
    pub fn full(raw: RawBox<HandleValue, Global>) -> Slot
        ensures { result.value ≡ Some raw.value }
    {
        let RawBox { at, alloc: _ } = raw;
        Slot { at: at as *mut u8 }
    }

    /// The box again, of a slot that is full.
    pub fn into_raw(self, alloc: Global) -> RawBox<HandleValue, Global>
        requires { is_some self.value ≡ true }
        ensures { self.value ≡ Some result.value }
    {
        let Slot { at } = self;
        let at = at as *mut HandleValue;
        RawBox { at, alloc }
    }
}
