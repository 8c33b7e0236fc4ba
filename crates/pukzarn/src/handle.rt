//! What C keeps: a struct of two words, which owns an end while it is open.

ghost use Rattle.std.specs.Prelude.{◌≡◌, ◌==◌, None, Some, MatchOption, is_some};
ghost use Rattle.pukzarn.specs.declared.handle.TheConstants.{LIVE};

use crate::handle_value::HandleValue;
use crate::slot::Slot;
use raw_box::RawBox;
use std::alloc::Global;
use std::mem::replace;

/// The first word of an open handle. It is no number that memory is likely to hold by chance, so a struct that was
/// never set to 0 is not taken for an open handle.
pub const LIVE: u64 = 0x70C5_9A3E_D41B_6F27;

/// A handle. It is open while its first word is `LIVE`, and closed at any other, as at 0.
#[repr(C)]
#[derive(Drop)]
pub struct Handle {
    live: u64,
    pub slot: Slot,
    ghost agrees: { is_some slot.value ≡ (live == LIVE) },
}

impl Handle {
    /// A handle that holds nothing.
    pub fn closed() -> Handle
        ensures { result.slot.value ≡ None }
    {
        Handle {
            live: 0,
            slot: Slot::empty(),
        }
    }

    /// Whether it holds an end.
    pub fn is_open(&self) -> bool
        ensures { result ≡ is_some self.now.slot.value }
    {
        self.live == LIVE
    }

    /// Takes out what it holds, and leaves it closed.
    pub fn take(&mut self, alloc: Global) -> Option<Box<HandleValue, Global>>
        ensures closed { self.new.slot.value ≡ None }
        ensures taken { MatchOption result (self.old.slot.value ≡ None) (λ end. self.old.slot.value ≡ Some end.value) }
    {
        if self.live != LIVE {
            return None;
        }
        let Handle { live: _, slot } = replace(self, Handle::closed());
        Some(slot.into_raw(alloc).into_box())
    }

    /// Puts an end in. What it held before is lost, not freed: the handle is to be closed.
    pub fn fill(&mut self, end: Box<HandleValue, Global>)
        ensures { self.new.slot.value ≡ Some end.value }
    {
        *self = Handle {
            live: LIVE,
            slot: Slot::full(RawBox::of(end)),
        };
    }
}
