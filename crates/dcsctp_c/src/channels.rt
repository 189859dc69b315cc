//! The calls of data channels.

ghost use Rattle.std.specs.Prelude.{◌≡◌};
ghost use Rattle.dcsctp_session.specs.declared.status.Status.TheVariants.{NoChannel};
ghost use Rattle.dcsctp_channel_session.specs.Calls.{SetsRoleByNumber, OpensIfValid, SendsOnNumber, ClosesNumber, SetsNumberThreshold};
ghost use Rattle.dcsctp_c.specs.Channels.{BeginsChannels, OnChannels, WritesOnChannels, WritesNextEvent, CopiesEvent, ShowsEvent, QueriesFound, GivesOpening, stream_numbered, amount_numbered, GivesTraffic, CountsStreams, ReturnsChannelState};
ghost use Rattle.dcsctp_c.specs.Queries.{buffer_of, output_place};

use crate::answers::put;
use crate::handle::Handle;
use dcsctp_channel_session::{
    ChannelEventRecord, ChannelOptionsRecord, Held, LimitsRecord, ShownOptions, TrafficRecord,
};
use dcsctp_session::Status;

/// Gives a new socket channels.
#[unsafe(no_mangle)]
pub extern "C" fn dcsctp_channel_begin(handle: &mut Handle, limits: &LimitsRecord) -> i32
    ensures { BeginsChannels limits.now handle.old.slot.value result handle.new.slot.value }
{
    if !handle.is_open() {
        return Status::NoSocket.number();
    }
    handle.slot.held().begin(limits).number()
}

/// Sets the role in DTLS.
#[unsafe(no_mangle)]
pub extern "C" fn dcsctp_channel_set_role(handle: &mut Handle, is_dtls_client: i32) -> i32
    ensures { OnChannels (SetsRoleByNumber is_dtls_client) handle.old.slot.value result
        handle.new.slot.value }
{
    if !handle.is_open() {
        return Status::NoSocket.number();
    }
    match handle.slot.held() {
        Held::Socket(_) => Status::NoChannel.number(),
        Held::Channels(channels) => channels.set_role(is_dtls_client).number(),
    }
}

/// Opens a channel.
#[unsafe(no_mangle)]
pub extern "C" fn dcsctp_channel_open(
    handle: &mut Handle,
    options: &ChannelOptionsRecord,
    channel: &mut u64,
) -> i32
    ensures { WritesOnChannels (OpensIfValid options.now) handle.old.slot.value channel.old result
        channel.new handle.new.slot.value }
{
    if !handle.is_open() {
        return Status::NoSocket.number();
    }
    match handle.slot.held() {
        Held::Socket(_) => Status::NoChannel.number(),
        Held::Channels(channels) => channels.open(options, channel).number(),
    }
}

/// Sends a message.
#[unsafe(no_mangle)]
pub extern "C" fn dcsctp_channel_send(
    handle: &mut Handle,
    channel: u64,
    kind: u32,
    bytes: &[u8],
) -> i32
    ensures { OnChannels (SendsOnNumber channel kind bytes.now) handle.old.slot.value result
        handle.new.slot.value }
{
    if !handle.is_open() {
        return Status::NoSocket.number();
    }
    match handle.slot.held() {
        Held::Socket(_) => Status::NoChannel.number(),
        Held::Channels(channels) => channels.send(channel, kind, bytes).number(),
    }
}

/// Closes a channel.
#[unsafe(no_mangle)]
pub extern "C" fn dcsctp_channel_close(handle: &mut Handle, channel: u64) -> i32
    ensures { OnChannels (ClosesNumber channel) handle.old.slot.value result
        handle.new.slot.value }
{
    if !handle.is_open() {
        return Status::NoSocket.number();
    }
    match handle.slot.held() {
        Held::Socket(_) => Status::NoChannel.number(),
        Held::Channels(channels) => channels.close_channel(channel).number(),
    }
}

/// Takes what happened first.
#[unsafe(no_mangle)]
pub extern "C" fn dcsctp_channel_poll(handle: &mut Handle, event: &mut ChannelEventRecord) -> i32
    ensures { WritesOnChannels WritesNextEvent handle.old.slot.value event.old result event.new
        handle.new.slot.value }
{
    if !handle.is_open() {
        return Status::NoSocket.number();
    }
    match handle.slot.held() {
        Held::Socket(_) => Status::NoChannel.number(),
        Held::Channels(channels) => channels.poll(event).number(),
    }
}

/// Copies the packet or the message that was taken last.
#[unsafe(no_mangle)]
pub extern "C" fn dcsctp_channel_bytes(
    handle: &mut Handle,
    buffer: &mut [u8],
    length: &mut usize,
) -> i32
    ensures answer { CopiesEvent handle.old.slot.value (buffer_of buffer.old length.old) result
        (buffer_of buffer.new length.new) }
    ensures same { handle.new ≡ handle.old }
{
    if !handle.is_open() {
        return Status::NoSocket.number();
    }
    match handle.slot.held() {
        Held::Socket(_) => Status::NoChannel.number(),
        Held::Channels(channels) => channels.event_bytes(buffer, length).number(),
    }
}

/// Shows where the packet or the message lies that was taken last.
#[unsafe(no_mangle)]
pub extern "C" fn dcsctp_channel_view(
    handle: &mut Handle,
    bytes: &mut *const u8,
    length: &mut usize,
) -> i32
    ensures answer { ShowsEvent handle.old.slot.value (output_place bytes.old length.old) result
        (output_place bytes.new length.new) }
    ensures same { handle.new ≡ handle.old }
{
    if !handle.is_open() {
        return Status::NoSocket.number();
    }
    match handle.slot.held() {
        Held::Socket(_) => Status::NoChannel.number(),
        Held::Channels(channels) => channels.event_view(bytes, length).number(),
    }
}

/// What the peer opened the channel with, if the event that was taken last says so.
#[unsafe(no_mangle)]
pub extern "C" fn dcsctp_channel_get_options(handle: &mut Handle, options: &mut ShownOptions) -> i32
    ensures answer { GivesOpening handle.old.slot.value options.old result options.new }
    ensures same { handle.new ≡ handle.old }
{
    if !options.is_sized() {
        return Status::WrongSize.number();
    }
    if !handle.is_open() {
        return Status::NoSocket.number();
    }
    match handle.slot.held() {
        Held::Socket(_) => Status::NoChannel.number(),
        Held::Channels(channels) => {
            put(channels.event_options(), Status::NothingToCopy, options)
        }
    }
}

/// The state of a channel.
#[unsafe(no_mangle)]
pub extern "C" fn dcsctp_channel_state(handle: &mut Handle, channel: u64) -> i32
    ensures answer { ReturnsChannelState channel handle.old.slot.value result }
    ensures same { handle.new ≡ handle.old }
{
    if !handle.is_open() {
        return Status::NoSocket.number();
    }
    match handle.slot.held() {
        Held::Socket(_) => Status::NoChannel.number(),
        Held::Channels(channels) => channels.channel_state(channel),
    }
}

/// The stream of a channel.
#[unsafe(no_mangle)]
pub extern "C" fn dcsctp_channel_stream(handle: &mut Handle, channel: u64, stream: &mut u16) -> i32
    ensures answer { QueriesFound NoChannel (stream_numbered channel) handle.old.slot.value
        stream.old result stream.new }
    ensures same { handle.new ≡ handle.old }
{
    if !handle.is_open() {
        return Status::NoSocket.number();
    }
    match handle.slot.held() {
        Held::Socket(_) => Status::NoChannel.number(),
        Held::Channels(channels) => put(channels.stream(channel), Status::NoChannel, stream),
    }
}

/// How many bytes wait to be sent on a channel.
#[unsafe(no_mangle)]
pub extern "C" fn dcsctp_channel_buffered_amount(
    handle: &mut Handle,
    channel: u64,
    bytes: &mut usize,
) -> i32
    ensures answer { QueriesFound NoChannel (amount_numbered channel) handle.old.slot.value
        bytes.old result bytes.new }
    ensures same { handle.new ≡ handle.old }
{
    if !handle.is_open() {
        return Status::NoSocket.number();
    }
    match handle.slot.held() {
        Held::Socket(_) => Status::NoChannel.number(),
        Held::Channels(channels) => {
            put(channels.buffered_amount(channel), Status::NoChannel, bytes)
        }
    }
}

/// Sets the low threshold of a channel.
#[unsafe(no_mangle)]
pub extern "C" fn dcsctp_channel_set_buffered_amount_low_threshold(
    handle: &mut Handle,
    channel: u64,
    bytes: usize,
) -> i32
    ensures { OnChannels (SetsNumberThreshold channel bytes) handle.old.slot.value result
        handle.new.slot.value }
{
    if !handle.is_open() {
        return Status::NoSocket.number();
    }
    match handle.slot.held() {
        Held::Socket(_) => Status::NoChannel.number(),
        Held::Channels(channels) => channels
            .set_buffered_amount_low_threshold(channel, bytes)
            .number(),
    }
}

/// What was counted of a channel.
#[unsafe(no_mangle)]
pub extern "C" fn dcsctp_channel_get_metrics(
    handle: &mut Handle,
    channel: u64,
    metrics: &mut TrafficRecord,
) -> i32
    ensures answer { GivesTraffic channel handle.old.slot.value metrics.old result metrics.new }
    ensures same { handle.new ≡ handle.old }
{
    if !metrics.is_sized() {
        return Status::WrongSize.number();
    }
    if !handle.is_open() {
        return Status::NoSocket.number();
    }
    match handle.slot.held() {
        Held::Socket(_) => Status::NoChannel.number(),
        Held::Channels(channels) => put(channels.traffic(channel), Status::NoChannel, metrics),
    }
}

/// How many streams are in use.
#[unsafe(no_mangle)]
pub extern "C" fn dcsctp_channel_count(handle: &mut Handle, count: &mut usize) -> i32
    ensures answer { CountsStreams handle.old.slot.value count.old result count.new }
    ensures same { handle.new ≡ handle.old }
{
    if !handle.is_open() {
        return Status::NoSocket.number();
    }
    match handle.slot.held() {
        Held::Socket(_) => Status::NoChannel.number(),
        Held::Channels(channels) => {
            *count = channels.stream_use();
            Status::Done.number()
        }
    }
}
