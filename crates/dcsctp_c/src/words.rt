//! A box as its two words: a pointer, and the allocator that the box came from.

ghost use Rattle.std.specs.Prelude.{◌≡◌};
ghost use Rattle.std.specs.Box.Ownership.{box_owns};

use std::alloc::Allocator;
use std::marker::Model;

/// It owns what the box owned.
pub(crate) struct Words<T, A: Allocator> {
    pub(crate) ptr: *mut T,
    pub(crate) alloc: A,
    pub(crate) ghost value: { T },
}

impl<T, A: Allocator> Model for Words<T, A> {
    ghost also_owns = { λ w. box_owns (A.dealloc_token w.alloc) T.row w.ptr w.value };
}

impl<T: Drop, A: Allocator> Words<T, A> {
    pub(crate) fn of(whole: Box<T, A>) -> Words<T, A>
        ensures { result.value ≡ whole.value }
    {
        let (ptr, alloc) = Box::into_raw_with_allocator(whole);
        Words { ptr, alloc }
    }

    pub(crate) fn into_box(self) -> Box<T, A>
        ensures { result.value ≡ self.value }
    {
        let Words { ptr, alloc } = self;
        unsafe { Box::from_raw(alloc, ptr) }
    }
}
