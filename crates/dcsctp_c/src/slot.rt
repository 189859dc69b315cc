//! A box behind a raw pointer, or none.
//!
//! The four functions here, the two of `words` and the one of `lending` are all of the crate that is proved by
//! hand.

ghost use Rattle.std.specs.Prelude.{◌≡◌, Option, Some, None, IsSome};
ghost use Rattle.dcsctp_channel_session.specs.declared.held.Held.{Held};
ghost use Rattle.dcsctp_c.specs.SlotMemory.{memory_behind, slot_code};

use crate::words::Words;
use dcsctp_channel_session::Held;
use std::alloc::Global;
use std::marker::Model;

/// A pointer that owns a session, or owns nothing.
#[repr(C)]
pub struct Slot {
    pub(crate) ptr: *mut u8,
    alloc: Global,
    pub ghost value: { Option Held } by { slot_code },
}

impl Model for Slot {
    ghost also_owns = { λ s. memory_behind s.alloc s.ptr s.value };
}

impl Slot {
    pub(crate) fn empty(alloc: Global) -> Slot
        ensures { result.value ≡ None }
    {
        Slot {
            ptr: std::ptr::null_mut(),
            alloc,
        }
    }

    pub(crate) fn of_words(words: Words<Held, Global>) -> Slot
        ensures { result.value ≡ Some words.value }
    {
        let Words { ptr, alloc } = words;
        Slot {
            ptr: ptr as *mut u8,
            alloc,
        }
    }

    pub(crate) fn into_words(self) -> Words<Held, Global>
        requires { IsSome self.value }
        ensures { self.value ≡ Some result.value }
    {
        let Slot { ptr, alloc } = self;
        Words {
            ptr: ptr as *mut Held,
            alloc,
        }
    }

    // The allocator of a slot that owns nothing. A slot has no drop, so none is lost with its session.
    pub(crate) fn into_allocator(self) -> Global
        requires { self.value ≡ None }
    {
        let Slot { ptr: _, alloc } = self;
        alloc
    }
}

unsafe impl Send for Slot {}
