//! `Block`: what a box owns, without the box.
ghost use Rattle.std.specs.Prelude.{◌≡◌};
ghost use Rattle.std.specs.Box.Ownership.{box_owns};

use std::alloc::Allocator;
use std::marker::Model;

/// A block with a value in it, which the allocator's handle may give back.
pub(crate) struct Block<T, A: Allocator> {
    pub(crate) alloc: A,
    pub(crate) start: *mut T,
    pub(crate) ghost value: { T },
}

impl<T, A: Allocator> Model for Block<T, A> {
    ghost also_owns = { λ it. box_owns (A.dealloc_token it.alloc) T.row it.start it.value };
}

impl<T: Drop, A: Allocator> Block<T, A> {
    /// The block of a box, which is gone.
    pub(crate) fn under(whole: Box<T, A>) -> Block<T, A>
        ensures { result.value ≡ whole.value }
    {
        let (start, alloc) = Box::into_raw_with_allocator(whole);
        Block { alloc, start }
    }

    /// A box of this block.
    pub(crate) fn boxed(self) -> Box<T, A>
        ensures { result.value ≡ self.value }
    {
        let Block { alloc, start } = self;
        unsafe { Box::from_raw(alloc, start) }
    }
}
