//! Inputs and commands.

ghost use Rattle.std.specs.Prelude.{◌≡◌, map};
ghost use Rattle.dcsctp_api.specs.types.Setting.{stream_priority, stream_low_threshold};
ghost use Rattle.dcsctp_session.specs.Calls.{ConnectsSession, ShutDown, ClosesSession, HandlesPacket, AdvancesSession, MakesSetting, LimitsSize, SendsOneMessage, StreamsReset};
ghost use Rattle.dcsctp_session.specs.Many.{SendsManyRecords};
ghost use Rattle.dcsctp_channel_session.specs.Calls.{ChannelsConnect, ChannelsShutDown, ChannelsAbort, ChannelsHandle, ChannelsAdvance, ChannelsLimit};
ghost use Rattle.dcsctp_c.specs.Exports.{CallsSession, CallsBelowChannels, WritesBelowChannels};

use crate::handle::Handle;
use dcsctp_channel_session::Held;
use dcsctp_session::{OutgoingRecord, SendOptionsRecord, Status};

/// Begins an association.
#[unsafe(no_mangle)]
pub extern "C" fn dcsctp_connect(handle: &mut Handle) -> i32
    ensures { CallsSession ConnectsSession ChannelsConnect handle.old.slot.value result
        handle.new.slot.value }
{
    if !handle.is_open() {
        return Status::NoSocket.number();
    }
    match handle.slot.held() {
        Held::Socket(session) => session.connect().number(),
        Held::Channels(channels) => channels.connect().number(),
    }
}

/// Shuts the association down.
#[unsafe(no_mangle)]
pub extern "C" fn dcsctp_shutdown(handle: &mut Handle) -> i32
    ensures { CallsSession ShutDown ChannelsShutDown handle.old.slot.value result
        handle.new.slot.value }
{
    if !handle.is_open() {
        return Status::NoSocket.number();
    }
    match handle.slot.held() {
        Held::Socket(session) => session.shutdown().number(),
        Held::Channels(channels) => channels.shutdown().number(),
    }
}

/// Ends the association at once.
#[unsafe(no_mangle)]
pub extern "C" fn dcsctp_close(handle: &mut Handle) -> i32
    ensures { CallsSession ClosesSession ChannelsAbort handle.old.slot.value result
        handle.new.slot.value }
{
    if !handle.is_open() {
        return Status::NoSocket.number();
    }
    match handle.slot.held() {
        Held::Socket(session) => session.close().number(),
        Held::Channels(channels) => channels.close().number(),
    }
}

/// Handles a packet from the peer.
#[unsafe(no_mangle)]
pub extern "C" fn dcsctp_handle_input(handle: &mut Handle, packet: &[u8]) -> i32
    ensures { CallsSession (HandlesPacket packet.now) (ChannelsHandle packet.now)
        handle.old.slot.value result handle.new.slot.value }
{
    if !handle.is_open() {
        return Status::NoSocket.number();
    }
    match handle.slot.held() {
        Held::Socket(session) => session.handle_input(packet).number(),
        Held::Channels(channels) => channels.handle_input(packet).number(),
    }
}

/// Sets the clock, and handles what is due.
#[unsafe(no_mangle)]
pub extern "C" fn dcsctp_advance_time(handle: &mut Handle, now: u64) -> i32
    ensures { CallsSession (AdvancesSession now) (ChannelsAdvance now) handle.old.slot.value result
        handle.new.slot.value }
{
    if !handle.is_open() {
        return Status::NoSocket.number();
    }
    match handle.slot.held() {
        Held::Socket(session) => session.advance_time(now).number(),
        Held::Channels(channels) => channels.advance_time(now).number(),
    }
}

/// Sends a message.
#[unsafe(no_mangle)]
pub extern "C" fn dcsctp_send(
    handle: &mut Handle,
    stream_id: u16,
    ppid: u32,
    payload: &[u8],
    options: &SendOptionsRecord,
) -> i32
    ensures { CallsBelowChannels
        (SendsOneMessage (record { stream = stream_id; ppid = ppid; payload = payload.now })
        options.now) handle.old.slot.value result handle.new.slot.value }
{
    if !handle.is_open() {
        return Status::NoSocket.number();
    }
    match handle.slot.held() {
        Held::Socket(session) => session.send(stream_id, ppid, payload, options).number(),
        Held::Channels(_) => Status::HasChannels.number(),
    }
}

/// Sends several messages, and writes what became of each.
#[unsafe(no_mangle)]
pub extern "C" fn dcsctp_send_many(
    handle: &mut Handle,
    messages: &[OutgoingRecord],
    options: &SendOptionsRecord,
    results: &mut [i32],
) -> i32
    ensures { WritesBelowChannels (SendsManyRecords messages.now options.now) handle.old.slot.value
        results.old result results.new handle.new.slot.value }
{
    if !handle.is_open() {
        return Status::NoSocket.number();
    }
    match handle.slot.held() {
        Held::Socket(session) => session.send_many(messages, options, results).number(),
        Held::Channels(_) => Status::HasChannels.number(),
    }
}

/// Resets streams.
#[unsafe(no_mangle)]
pub extern "C" fn dcsctp_reset_streams(handle: &mut Handle, stream_ids: &[u16]) -> i32
    ensures { CallsBelowChannels (StreamsReset stream_ids.now) handle.old.slot.value result
        handle.new.slot.value }
{
    if !handle.is_open() {
        return Status::NoSocket.number();
    }
    match handle.slot.held() {
        Held::Socket(session) => session.reset_streams(stream_ids).number(),
        Held::Channels(_) => Status::HasChannels.number(),
    }
}

/// Sets the priority of a stream.
#[unsafe(no_mangle)]
pub extern "C" fn dcsctp_set_stream_priority(
    handle: &mut Handle,
    stream_id: u16,
    priority: u16,
) -> i32
    ensures { CallsBelowChannels (MakesSetting (stream_priority stream_id priority))
        handle.old.slot.value result handle.new.slot.value }
{
    if !handle.is_open() {
        return Status::NoSocket.number();
    }
    match handle.slot.held() {
        Held::Socket(session) => session.set_stream_priority(stream_id, priority).number(),
        Held::Channels(_) => Status::HasChannels.number(),
    }
}

/// Sets the low threshold of a stream.
#[unsafe(no_mangle)]
pub extern "C" fn dcsctp_set_buffered_amount_low_threshold(
    handle: &mut Handle,
    stream_id: u16,
    bytes: usize,
) -> i32
    ensures { CallsBelowChannels (MakesSetting (stream_low_threshold stream_id bytes))
        handle.old.slot.value result handle.new.slot.value }
{
    if !handle.is_open() {
        return Status::NoSocket.number();
    }
    match handle.slot.held() {
        Held::Socket(session) => session
            .set_buffered_amount_low_threshold(stream_id, bytes)
            .number(),
        Held::Channels(_) => Status::HasChannels.number(),
    }
}

/// Sets how many bytes a message may have from now on.
#[unsafe(no_mangle)]
pub extern "C" fn dcsctp_set_max_message_size(handle: &mut Handle, bytes: usize) -> i32
    ensures { CallsSession (LimitsSize bytes) (ChannelsLimit bytes) handle.old.slot.value result
        handle.new.slot.value }
{
    if !handle.is_open() {
        return Status::NoSocket.number();
    }
    match handle.slot.held() {
        Held::Socket(session) => session.set_max_message_size(bytes).number(),
        Held::Channels(channels) => channels.set_max_message_size(bytes).number(),
    }
}
