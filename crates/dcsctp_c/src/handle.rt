//! What a C or Rust caller has of a session.

ghost use Rattle.std.specs.Prelude.{◌≡◌, ◌↔◌, true, Some, None, IsSome, IfOk};

use crate::slot::Slot;
use crate::words::Words;
use dcsctp_channel_session::Held;
use std::alloc::{AllocFailed, Global};

// The mark of a handle that has a session: a word that memory rarely holds by chance.
const OPEN: u32 = 1_685_283_683;

/// What a C or Rust caller holds: a session, or none.
///
/// In memory it is a pointer and then a mark of 32 bits. All zero bytes are a handle without a session. The
/// caller may move a handle, but uses no copy of it, and writes neither word.
#[repr(C)]
pub struct Handle {
    pub slot: Slot,
    mark: u32,
    pub ghost tied: { (mark ≡ 1685283683) ↔ IsSome slot.value },
}

impl Handle {
    /// A handle without a session.
    pub fn closed(alloc: Global) -> Handle
        ensures { result.slot.value ≡ None }
    {
        Handle {
            slot: Slot::empty(alloc),
            mark: 0,
        }
    }

    /// A handle of a session. `Err`: an allocation failed; the session comes back.
    pub fn of(alloc: Global, held: Held) -> Result<Handle, AllocFailed<Held>>
        ensures { IfOk result (λ handle. handle.slot.value ≡ Some held) }
    {
        Ok(Handle::of_box(Box::new(alloc, held)?))
    }

    /// A handle of a session in a box.
    pub fn of_box(held: Box<Held>) -> Handle
        ensures { result.slot.value ≡ Some held.value }
    {
        Handle {
            slot: Slot::of_words(Words::of(held)),
            mark: OPEN,
        }
    }

    /// Whether it has a session.
    pub fn is_open(&self) -> bool
        ensures { (result ≡ true) ↔ IsSome self.now.slot.value }
    {
        self.mark == OPEN
    }
}

/// Frees the session, too.
impl Drop for Handle {
    fn drop(self) {
        let open = self.is_open();
        let Handle { slot, mark: _ } = self;
        if open {
            drop(slot.into_words().into_box());
        } else {
            drop(slot.into_allocator());
        }
    }
}
