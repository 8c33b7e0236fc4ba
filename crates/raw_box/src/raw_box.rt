//! A box taken apart.

ghost use Rattle.std.specs.Prelude.{◌≡◌};
ghost use Rattle.std.specs.Box.{box_allocator};
ghost use Rattle.std.specs.Box.Ownership.{box_owns};

use std::alloc::Allocator;
use std::marker::Model;

/// What a `Box` is made of. It owns the value and its block, as the box did, and it cannot be let go: it has to become
/// a box again, or its parts go on as those of another type that owns them.
pub struct RawBox<T, A: Allocator> {
    /// Where the value is.
    pub at: *mut T,
    /// The allocator of its block.
    pub alloc: A,
    /// The value.
    pub ghost value: { T },
}

impl<T, A: Allocator> Model for RawBox<T, A> {
    ghost also_owns = { λ raw. box_owns (A.dealloc_token raw.alloc) T.row raw.at raw.value };
}

impl<T: Drop, A: Allocator> RawBox<T, A> {
    /// Takes a box apart.
    pub fn of(boxed: Box<T, A>) -> RawBox<T, A>
        ensures value { result.value ≡ boxed.value }
        ensures allocator { result.alloc ≡ box_allocator boxed }
    {
        let (at, alloc) = Box::into_raw_with_allocator(boxed);
        RawBox { at, alloc }
    }

    /// The box again.
    pub fn into_box(self) -> Box<T, A>
        ensures value { result.value ≡ self.value }
        ensures allocator { box_allocator result ≡ self.alloc }
    {
        let RawBox { at, alloc } = self;
        unsafe { Box::from_raw(alloc, at) }
    }
}
