//! Events, options of a peer's channel, and what was counted, as C reads them.

ghost use Rattle.std.specs.Prelude.{◌≡◌, option_map};
ghost use Rattle.dcsctp_channel_calls.specs.Notices.{notice_of};
ghost use Rattle.dcsctp_channel_session.specs.Views.{channel_number, name_of, channel_state_number};
ghost use Rattle.dcsctp_channel_session.specs.Records.{end_number, kind_number, plain_event, event_on, notice_record, reliability_number, limit_of, shown_options, has_shown_size, has_traffic_size, traffic_record};

use dcsctp_channel_calls::channel_messages::channel_spec::{ChannelEnd, Reliability};
use dcsctp_channel_calls::{ChannelEvent, ChannelId, ChannelOptions, ChannelState, ChannelTraffic};

// The bytes of a `ShownOptions`.
const OPTIONS_SIZE: usize = size_of::<ShownOptions>();

// The bytes of a `TrafficRecord`.
const TRAFFIC_SIZE: usize = size_of::<TrafficRecord>();

/// What an event is. Its bytes are copied by a call of their own; `length` counts them. A field that a kind of event
/// doesn't have is 0.
#[repr(C)]
#[derive(Clone, Copy, Debug)]
pub struct ChannelEventRecord {
    pub channel: u64,
    pub length: usize,
    pub kind: u32,
    pub detail: u32,
}

/// What a peer's channel was opened with, in the form of a `ChannelOptionsRecord`: the texts are where they lie.
#[repr(C)]
#[derive(Clone, Copy)]
pub struct ShownOptions {
    pub size: usize,
    pub label: *const u8,
    pub label_length: usize,
    pub protocol: *const u8,
    pub protocol_length: usize,
    pub limit: u32,
    pub priority: u16,
    pub reliability: u16,
    pub is_unordered: u16,
    pub is_negotiated: u16,
    pub stream: u16,
    pub reserved: u16,
}

/// What was counted of a channel. `size` says how many bytes the caller's record has.
#[repr(C)]
#[derive(Clone, Copy, Debug)]
pub struct TrafficRecord {
    pub size: usize,
    pub messages_sent: u64,
    pub bytes_sent: u64,
    pub messages_received: u64,
    pub bytes_received: u64,
}

// The number of a channel; 0 is none.
pub(crate) fn channel_number(id: ChannelId) -> u64
    ensures { result ≡ channel_number id.0 }
{
    id.0.saturating_add(1)
}

// The channel of a number.
pub(crate) fn numbered(number: u64) -> Option<ChannelId>
    ensures { option_map (λ id. id.0) result ≡ name_of number }
{
    let name = number.checked_sub(1)?;
    Some(ChannelId(name))
}

// The number of why a channel is over.
fn end_number(why: ChannelEnd) -> u32
    ensures { result ≡ end_number why }
{
    match why {
        ChannelEnd::Closed => 0,
        ChannelEnd::Refused => 1,
        ChannelEnd::ResetRefused => 2,
        ChannelEnd::Lost => 3,
        ChannelEnd::NoStream => 4,
    }
}

// The number of what a message is.
fn kind_number(is_text: bool) -> u32
    ensures { result ≡ kind_number is_text }
{
    if is_text {
        return 1;
    }
    2
}

// The number of a state.
pub(crate) fn channel_state_number(state: ChannelState) -> i32
    ensures { result ≡ channel_state_number state }
{
    match state {
        ChannelState::Connecting => 0,
        ChannelState::Open => 1,
        ChannelState::Closing => 2,
        ChannelState::Closed => 3,
    }
}

impl ChannelEventRecord {
    // An event that is nothing but its kind.
    fn plain(kind: u32) -> ChannelEventRecord
        ensures { result ≡ plain_event kind }
    {
        ChannelEventRecord {
            channel: 0,
            length: 0,
            kind,
            detail: 0,
        }
    }

    // An event of a channel.
    fn with_channel(kind: u32, id: ChannelId, detail: u32) -> ChannelEventRecord
        ensures { result ≡ event_on kind id.0 detail }
    {
        ChannelEventRecord {
            channel: channel_number(id),
            detail,
            ..ChannelEventRecord::plain(kind)
        }
    }

    /// No event.
    pub fn none() -> ChannelEventRecord
        ensures { result ≡ plain_event 0 }
    {
        ChannelEventRecord::plain(0)
    }

    /// What an event is.
    pub fn of(event: &ChannelEvent) -> ChannelEventRecord
        ensures { result ≡ notice_record (notice_of event.now) }
    {
        match event {
            ChannelEvent::SendPacket(packet) => ChannelEventRecord {
                length: packet.len(),
                ..ChannelEventRecord::plain(1)
            },
            ChannelEvent::Connected() => ChannelEventRecord::plain(2),
            ChannelEvent::Opened(id) => ChannelEventRecord::with_channel(3, *id, 0),
            ChannelEvent::Incoming(id, _) => ChannelEventRecord::with_channel(4, *id, 0),
            ChannelEvent::Message(id, is_text, bytes) => ChannelEventRecord {
                length: bytes.len(),
                ..ChannelEventRecord::with_channel(5, *id, kind_number(*is_text))
            },
            ChannelEvent::BufferedAmountLow(id) => ChannelEventRecord::with_channel(6, *id, 0),
            ChannelEvent::Closed(id, why) => {
                ChannelEventRecord::with_channel(7, *id, end_number(*why))
            }
            ChannelEvent::Ended() => ChannelEventRecord::plain(8),
        }
    }
}

// How long messages are sent again, as two numbers: of its kind, and of its limit.
fn reliability_numbers(reliability: Reliability) -> (u16, u32)
    ensures kind { result.0 ≡ reliability_number reliability }
    ensures limit { result.1 ≡ limit_of reliability }
{
    match reliability {
        Reliability::Reliable => (0, 0),
        Reliability::Retransmissions(limit) => (1, limit),
        Reliability::Lifetime(millis) => (2, millis),
    }
}

impl ShownOptions {
    /// Is it a record of this library? The caller may have that of another version, of another size.
    pub fn is_sized(&self) -> bool
        ensures { result ≡ has_shown_size self.now }
    {
        self.size == OPTIONS_SIZE
    }

    /// What a peer's channel was opened with.
    pub fn of(options: &ChannelOptions) -> ShownOptions
        ensures { result ≡ shown_options options.now }
    {
        let (reliability, limit) = reliability_numbers(options.delivery.reliability);
        ShownOptions {
            size: OPTIONS_SIZE,
            label: options.label.as_ptr(),
            label_length: options.label.len(),
            protocol: options.protocol.as_ptr(),
            protocol_length: options.protocol.len(),
            limit,
            priority: options.delivery.priority,
            reliability,
            is_unordered: !options.delivery.ordered as u16,
            is_negotiated: 0,
            stream: 0,
            reserved: 0,
        }
    }
}

impl TrafficRecord {
    /// Is it a record of this library? The caller may have that of another version, of another size.
    pub fn is_sized(&self) -> bool
        ensures { result ≡ has_traffic_size self.now }
    {
        self.size == TRAFFIC_SIZE
    }

    /// What was counted.
    pub fn of(traffic: &ChannelTraffic) -> TrafficRecord
        ensures { result ≡ traffic_record traffic.now }
    {
        TrafficRecord {
            size: TRAFFIC_SIZE,
            messages_sent: traffic.messages_sent,
            bytes_sent: traffic.bytes_sent,
            messages_received: traffic.messages_received,
            bytes_received: traffic.bytes_received,
        }
    }
}
