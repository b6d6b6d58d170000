//! A value on the heap, as the parts of its box, so that a handle of C can hold them: nothing is dropped when a handle
//! goes away. `Block::of` takes a box apart, and `into_box` makes it again.
ghost use Rattle.std.specs.Prelude.{◌≡◌};
ghost use Rattle.std.specs.Box.Ownership.{box_owns};

use std::alloc::Allocator;
use std::marker::Model;

/// What a box consists of: the place of its value, and the allocator that frees it. It is never dropped. Contracts
/// see the value as `value`.
pub struct Block<T, A: Allocator> {
    pub(crate) place: *mut T,
    pub(crate) alloc: A,
    pub ghost value: { T },
}

impl<T, A: Allocator> Model for Block<T, A> {
    ghost also_owns = { λ b. box_owns (A.dealloc_token b.alloc) T.row b.place b.value };
}

impl<T, A: Allocator> Block<T, A> {
    /// The place and the allocator of a box. The box is gone, and its value is freed only if `into_box` makes it again.
    pub fn of(boxed: Box<T, A>) -> Block<T, A>
    where
        T: Drop,
        ensures { result.value ≡ boxed.value }
    {
        let (place, alloc) = Box::into_raw_with_allocator(boxed);
        Block { place, alloc }
    }

    /// Makes the box again from its place and its allocator.
    pub fn into_box(self) -> Box<T, A>
        ensures { result.value ≡ self.value }
    {
        let Block { place, alloc } = self;
        unsafe { Box::from_raw(alloc, place) }
    }
}
