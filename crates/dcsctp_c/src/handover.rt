//! Handing a socket over to another process.

ghost use Rattle.dcsctp_session.specs.Handover.{HandsOverSession, RestoresSession};
ghost use Rattle.std.specs.Prelude.{◌≡◌};
ghost use Rattle.dcsctp_channel_session.specs.Handover.{ChannelsHandedOver, ChannelsRestored};
ghost use Rattle.dcsctp_c.specs.Exports.{CallsSession};
ghost use Rattle.dcsctp_c.specs.Queries.{QueriesSession, CopiesSnapshotFrom, CopiesChannelsFrom, buffer_of};

use crate::handle::Handle;
use dcsctp_channel_session::Held;
use dcsctp_session::Status;

/// Takes the socket's snapshot, and ends the association here.
#[unsafe(no_mangle)]
pub extern "C" fn dcsctp_get_handover_state_and_close(handle: &mut Handle) -> i32
    ensures { CallsSession HandsOverSession ChannelsHandedOver handle.old.slot.value result
        handle.new.slot.value }
{
    if !handle.is_open() {
        return Status::NoSocket.number();
    }
    match handle.slot.held() {
        Held::Socket(session) => session.hand_over().number(),
        Held::Channels(channels) => channels.hand_over().number(),
    }
}

/// Copies the bytes of the snapshot that was taken last, and their seal.
#[unsafe(no_mangle)]
pub extern "C" fn dcsctp_handover_bytes(
    handle: &mut Handle,
    buffer: &mut [u8],
    length: &mut usize,
) -> i32
    ensures answer { QueriesSession CopiesSnapshotFrom CopiesChannelsFrom handle.old.slot.value
        (buffer_of buffer.old length.old) result (buffer_of buffer.new length.new) }
    ensures same { handle.new ≡ handle.old }
{
    if !handle.is_open() {
        return Status::NoSocket.number();
    }
    match handle.slot.held() {
        Held::Socket(session) => session.snapshot_bytes(buffer, length).number(),
        Held::Channels(channels) => channels.snapshot_bytes(buffer, length).number(),
    }
}

/// Restores a closed socket from a snapshot in bytes, or a new one with its channels.
#[unsafe(no_mangle)]
pub extern "C" fn dcsctp_restore_from_state(handle: &mut Handle, bytes: &[u8]) -> i32
    ensures { CallsSession (RestoresSession bytes.now) (ChannelsRestored bytes.now)
        handle.old.slot.value result handle.new.slot.value }
{
    if !handle.is_open() {
        return Status::NoSocket.number();
    }
    match handle.slot.held() {
        Held::Socket(session) => session.restore(bytes).number(),
        Held::Channels(channels) => channels.restore(bytes).number(),
    }
}
