//! What a snapshot has of a socket and its channels.

use crate::api::handover::{HandoverReadiness, SocketHandoverState};
use crate::channel_messages::channel_spec::{Delivery, Role};

/// A channel waits for its stream, is closing or refused, or its ACK isn't sent yet.
pub const CHANNELS_UNSETTLED: HandoverReadiness = HandoverReadiness(4096);

/// Packets, events or messages aren't taken yet.
pub const EVENTS_NOT_TAKEN: HandoverReadiness = HandoverReadiness(8192);

/// A channel that lasts, as it is handed over with its socket.
#[derive(Clone, Copy, Debug)]
pub struct HandoverChannel {
    /// Its stream.
    pub stream: u16,

    /// Its name at this end.
    pub name: u64,

    /// Does the peer know it?
    pub heard: bool,

    /// How its messages are sent.
    pub delivery: Delivery,

    /// How many messages were sent on it.
    pub messages_sent: u64,

    /// Their bytes.
    pub bytes_sent: u64,

    /// How many messages were received on it.
    pub messages_received: u64,

    /// Their bytes.
    pub bytes_received: u64,
}

/// The channels of a socket that is handed over.
#[derive(Drop)]
pub struct HandoverChannels {
    /// The role in DTLS, if it is known.
    pub role: Option<Role>,

    /// How many channels were ever named at this end.
    pub named: u64,

    /// Those that last.
    pub channels: Vec<HandoverChannel>,
}

/// A snapshot of a socket and its channels.
#[derive(Drop)]
pub struct ChannelsHandoverState {
    /// The socket.
    pub socket: SocketHandoverState,

    /// Its channels.
    pub channels: HandoverChannels,
}

/// Why a socket isn't restored with channels.
#[derive(Clone, Copy, Debug, PartialEq, Eq)]
pub enum RestoreChannelsError {
    /// It isn't new: it has an association, or had one, or a channel was opened.
    NotNew,

    /// The snapshot isn't valid for the options of this socket, has no association, or its channels don't go together:
    /// two of them have one name or one stream, or a name wasn't given yet, or the association has no such stream.
    InvalidSnapshot,
}
