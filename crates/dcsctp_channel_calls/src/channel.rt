//! What a channel is to its user.

ghost use Rattle.std.specs.Prelude.{◌≡◌, [], true, None, IfOk};
ghost use Rattle.dcsctp_channel_messages.specs.channel_spec.declared.types.Reliability.TheVariants.{Reliable};
ghost use Rattle.dcsctp_channel_calls.specs.Notices.{opening_of};

use dcsctp_api::{SendError, SocketTime};
use dcsctp_channel_messages::channel_spec::{ChannelEnd, Delivery, Reliability, StreamUse};
use std::alloc::{AllocError, Global};

/// The name of a channel at this end: how many were named here before it. It is never given twice, though its
/// stream is.
#[derive(Clone, Copy, Debug, PartialEq, Eq)]
pub struct ChannelId(pub u64);

/// What an OPEN says, or what both ends agreed on without one.
#[derive(Clone, Drop)]
pub struct ChannelOptions {
    /// What the channel is called, in UTF-8; at most 65,535 bytes.
    pub label: Vec<u8>,

    /// A subprotocol by its registered name, in UTF-8; at most 65,535 bytes.
    pub protocol: Vec<u8>,

    /// How messages are sent, in both directions.
    pub delivery: Delivery,

    /// The stream, if both ends agreed on it; then no OPEN is sent.
    pub negotiated: Option<u16>,
}

impl ChannelOptions {
    /// A reliable, ordered channel of the normal priority, 256.
    ///
    /// `Err`: an allocation failed.
    pub fn new(alloc: Global, label: &str) -> Result<ChannelOptions, AllocError>
        ensures opening { IfOk result (λ options. opening_of options
            ≡ record {
              label = label.now;
              protocol = [];
              delivery = record { ordered = true; reliability = Reliable; priority = 256 };
            }) }
        ensures agreed { IfOk result (λ options. options.negotiated ≡ None) }
    {
        Ok(ChannelOptions {
            label: Vec::from_slice(alloc, label.as_bytes())?,
            protocol: Vec::new(alloc),
            delivery: Delivery {
                ordered: true,
                reliability: Reliability::Reliable,
                priority: 256,
            },
            negotiated: None,
        })
    }
}

/// What a peer may take.
#[derive(Clone, Copy, Debug)]
pub struct Limits {
    /// With how many streams in use no channel of the peer's is accepted any more.
    pub channels: usize,

    /// How many bytes the label and the protocol of a peer's channel may have together.
    pub text: usize,

    /// How many bytes a message of the peer may have. A longer one closes its channel.
    pub message: usize,
}

impl Limits {
    /// 1,024 channels, 1,024 bytes of text, and messages of 262,144 bytes.
    pub fn standard() -> Limits
        ensures { result ≡ record { channels = 1024; text = 1024; message = 262144 } }
    {
        Limits {
            channels: 1024,
            text: 1024,
            message: 262_144,
        }
    }
}

/// The state of a channel.
#[derive(Clone, Copy, Debug, PartialEq, Eq)]
pub enum ChannelState {
    /// It waits for the association, for the role, or for room. Nothing can be sent.
    Connecting,

    /// It has a stream, and its OPEN is under way or known. Messages can be sent.
    Open,

    /// One end has closed it. What was sent before is delivered.
    Closing,

    /// There is no such channel, or none any more.
    Closed,
}

/// Why a call on a channel is refused.
#[derive(Clone, Copy, Debug, PartialEq, Eq)]
pub enum ChannelError {
    /// There is no such channel, it has no stream yet, or it is being closed.
    NotOpen,

    /// The association has ended.
    Ended,

    /// The label or the protocol has more than 65,535 bytes, or the OPEN is longer than a message may be.
    TooLong,

    /// The stream that was agreed on is in use.
    StreamInUse,

    /// The socket refuses the message.
    Refused(SendError),
}

/// What was counted of a channel. Each count stops at the greatest number of its type.
#[derive(Clone, Copy, Debug, PartialEq, Eq)]
pub struct ChannelTraffic {
    /// How many messages the socket accepted.
    pub messages_sent: u64,

    /// Their bytes.
    pub bytes_sent: u64,

    /// How many messages were reported.
    pub messages_received: u64,

    /// Their bytes.
    pub bytes_received: u64,
}

/// A stream in use.
#[derive(Clone, Copy, Debug, PartialEq, Eq)]
pub struct HeldStream {
    /// Where it is in the table of inputs.
    pub stream: StreamUse,

    /// How the messages of its channel are sent.
    pub delivery: Delivery,

    /// When it was closed, or came into use.
    pub closing_since: SocketTime,

    /// What was counted.
    pub traffic: ChannelTraffic,
}

/// What happens, in the order in which it happened; packets come first.
#[derive(Drop)]
pub enum ChannelEvent {
    /// These bytes are to be sent to the peer as one packet.
    SendPacket(Vec<u8>),

    /// There is an association.
    Connected(),

    /// The peer knows a channel that was opened here.
    Opened(ChannelId),

    /// The peer has opened a channel.
    Incoming(ChannelId, ChannelOptions),

    /// A message: is it text, and its bytes. Text should be UTF-8; this is the caller's to test.
    Message(ChannelId, bool, Vec<u8>),

    /// What waits on the channel has fallen to its threshold.
    BufferedAmountLow(ChannelId),

    /// The last event of a channel.
    Closed(ChannelId, ChannelEnd),

    /// The association has ended, for good: make another socket.
    Ended(),
}
