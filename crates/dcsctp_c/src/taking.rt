//! Taking events and messages, and copying or showing what they hold.

ghost use Rattle.std.specs.Prelude.{◌≡◌};
ghost use Rattle.dcsctp_session.specs.Views.{bytes_of_polled, packet_in_event, streams_in_event, payload_of_taken, message_of_taken};
ghost use Rattle.dcsctp_c.specs.Exports.{WritesBelowChannels, WritesEvent, WritesMessage};
ghost use Rattle.dcsctp_c.specs.Queries.{QueriesBelowChannels, CopiesFrom, buffer_of, ShowsFrom, output_place};

use crate::answers::take;
use crate::handle::Handle;
use dcsctp_channel_session::Held;
use dcsctp_session::{EventRecord, MessageRecord, Status};

/// Takes the event that was added first.
#[unsafe(no_mangle)]
pub extern "C" fn dcsctp_poll_event(handle: &mut Handle, event: &mut EventRecord) -> i32
    ensures { WritesBelowChannels WritesEvent handle.old.slot.value event.old result event.new
        handle.new.slot.value }
{
    if !handle.is_open() {
        return Status::NoSocket.number();
    }
    match handle.slot.held() {
        Held::Socket(session) => take(session.poll_event(), EventRecord::none(), event),
        Held::Channels(_) => Status::HasChannels.number(),
    }
}

/// Copies the packet or the text of the event that was taken last.
#[unsafe(no_mangle)]
pub extern "C" fn dcsctp_event_bytes(
    handle: &mut Handle,
    buffer: &mut [u8],
    length: &mut usize,
) -> i32
    ensures answer { QueriesBelowChannels (CopiesFrom (λ session. bytes_of_polled
        session.taken.event)) handle.old.slot.value (buffer_of buffer.old length.old) result
        (buffer_of buffer.new length.new) }
    ensures same { handle.new ≡ handle.old }
{
    if !handle.is_open() {
        return Status::NoSocket.number();
    }
    match handle.slot.held() {
        Held::Socket(session) => session.event_bytes(buffer, length).number(),
        Held::Channels(_) => Status::HasChannels.number(),
    }
}

/// Shows where the packet of the event lies that was taken last.
#[unsafe(no_mangle)]
pub extern "C" fn dcsctp_event_view(
    handle: &mut Handle,
    bytes: &mut *const u8,
    length: &mut usize,
) -> i32
    ensures answer { QueriesBelowChannels (ShowsFrom (λ session. packet_in_event
        session.taken.event)) handle.old.slot.value (output_place bytes.old length.old) result
        (output_place bytes.new length.new) }
    ensures same { handle.new ≡ handle.old }
{
    if !handle.is_open() {
        return Status::NoSocket.number();
    }
    match handle.slot.held() {
        Held::Socket(session) => session.event_view(bytes, length).number(),
        Held::Channels(_) => Status::HasChannels.number(),
    }
}

/// Copies the streams of the event that was taken last.
#[unsafe(no_mangle)]
pub extern "C" fn dcsctp_event_streams(
    handle: &mut Handle,
    buffer: &mut [u16],
    count: &mut usize,
) -> i32
    ensures answer { QueriesBelowChannels (CopiesFrom (λ session. streams_in_event
        session.taken.event)) handle.old.slot.value (buffer_of buffer.old count.old) result
        (buffer_of buffer.new count.new) }
    ensures same { handle.new ≡ handle.old }
{
    if !handle.is_open() {
        return Status::NoSocket.number();
    }
    match handle.slot.held() {
        Held::Socket(session) => session.event_streams(buffer, count).number(),
        Held::Channels(_) => Status::HasChannels.number(),
    }
}

/// Takes the message that became ready first.
#[unsafe(no_mangle)]
pub extern "C" fn dcsctp_get_next_message(handle: &mut Handle, message: &mut MessageRecord) -> i32
    ensures { WritesBelowChannels WritesMessage handle.old.slot.value message.old result message.new
        handle.new.slot.value }
{
    if !handle.is_open() {
        return Status::NoSocket.number();
    }
    match handle.slot.held() {
        Held::Socket(session) => take(session.get_next_message(), MessageRecord::none(), message),
        Held::Channels(_) => Status::HasChannels.number(),
    }
}

/// Copies the payload of the message that was taken last.
#[unsafe(no_mangle)]
pub extern "C" fn dcsctp_message_bytes(
    handle: &mut Handle,
    buffer: &mut [u8],
    length: &mut usize,
) -> i32
    ensures answer { QueriesBelowChannels (CopiesFrom (λ session. payload_of_taken
        session.taken.message)) handle.old.slot.value (buffer_of buffer.old length.old) result
        (buffer_of buffer.new length.new) }
    ensures same { handle.new ≡ handle.old }
{
    if !handle.is_open() {
        return Status::NoSocket.number();
    }
    match handle.slot.held() {
        Held::Socket(session) => session.message_bytes(buffer, length).number(),
        Held::Channels(_) => Status::HasChannels.number(),
    }
}

/// Shows where the payload of the message lies that was taken last.
#[unsafe(no_mangle)]
pub extern "C" fn dcsctp_message_view(
    handle: &mut Handle,
    bytes: &mut *const u8,
    length: &mut usize,
) -> i32
    ensures answer { QueriesBelowChannels (ShowsFrom (λ session. message_of_taken
        session.taken.message)) handle.old.slot.value (output_place bytes.old length.old) result
        (output_place bytes.new length.new) }
    ensures same { handle.new ≡ handle.old }
{
    if !handle.is_open() {
        return Status::NoSocket.number();
    }
    match handle.slot.held() {
        Held::Socket(session) => session.message_view(bytes, length).number(),
        Held::Channels(_) => Status::HasChannels.number(),
    }
}
