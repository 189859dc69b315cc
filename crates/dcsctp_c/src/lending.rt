//! What a slot has, where it lies.

ghost use Rattle.std.specs.Prelude.{◌≡◌, Some, IsSome};
ghost use types.Logic.{sem};
ghost use Rattle.dcsctp_c.specs.Lending.{slot_follows};

use crate::slot::Slot;
use dcsctp_channel_session::Held;

impl Slot {
    /// What it has. The slot itself is only read, so that its two words stay as they are whatever is done to that.
    pub fn held(&mut self) -> &mut Held
        requires { IsSome self.old.value }
        ensures* writes_back { sem 𝓛 (slot_follows self.entry result) }
        ensures value { self.old.value ≡ Some result.now }
    {
        unsafe { &mut *(self.ptr as *mut Held) }
    }
}
