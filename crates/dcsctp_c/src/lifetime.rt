//! Making a socket, and letting it go.

ghost use Rattle.std.specs.Prelude.{◌≡◌, None};
ghost use Rattle.dcsctp_c.specs.Exports.{GivesDefault, CreatesOnce};

use crate::handle::Handle;
use dcsctp_channel_session::Held;
use dcsctp_session::{OptionsRecord, Session, Status};
use std::alloc::Global;

/// Writes the default options, if the record has the size of the library's.
#[unsafe(no_mangle)]
pub extern "C" fn dcsctp_get_default_options(options: &mut OptionsRecord) -> i32
    ensures { GivesDefault options.old result options.new }
{
    if !options.is_sized() {
        return Status::WrongSize.number();
    }
    *options = OptionsRecord::standard();
    Status::Done.number()
}

/// Gives a handle a closed socket, whose clock is at `now`. A seed of zeros is refused.
#[unsafe(no_mangle)]
pub extern "C" fn dcsctp_create(
    alloc: Global,
    handle: &mut Handle,
    options: &OptionsRecord,
    seed: &[u8; 32],
    now: u64,
) -> i32
    ensures { CreatesOnce options.now seed.now now handle.old.slot.value result
        handle.new.slot.value }
{
    if handle.is_open() {
        return Status::AlreadyCreated.number();
    }
    let session = match Session::new(alloc, options, *seed, now) {
        Ok(session) => session,
        Err(status) => return status.number(),
    };
    match Handle::of(alloc, Held::Socket(session)) {
        Ok(made) => {
            *handle = made;
            Status::Done.number()
        }
        Err(_) => Status::OutOfMemory.number(),
    }
}

/// Frees what a handle has. It can be given a socket again.
#[unsafe(no_mangle)]
pub extern "C" fn dcsctp_destroy(alloc: Global, handle: &mut Handle)
    ensures { handle.new.slot.value ≡ None }
{
    *handle = Handle::closed(alloc);
}
