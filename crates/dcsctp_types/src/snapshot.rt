//! A snapshot of a socket, by which it is handed over to another process: a socket gives it, and another
//! one is restored from it.

ghost use Rattle.std.specs.Prelude.{◌≡◌};
ghost use Rattle.dcsctp_types.specs.SnapshotItems.{queued_part, empty_queued_part};
ghost use Rattle.dcsctp_types.specs.SnapshotItems.{outstanding_part, empty_outstanding_part};
ghost use Rattle.dcsctp_types.specs.Snapshot.{send_part, empty_send_part, received_part, empty_received_part};
ghost use Rattle.dcsctp_types.specs.Snapshot.{snapshot, empty_snapshot};

use std::alloc::Global;

/// Is a socket of a snapshot connected?
#[derive(Clone, Copy, Debug, Default, PartialEq, Eq)]
pub enum HandoverSocketState {
    /// There is no association. Nothing else in the snapshot counts.
    #[default]
    Closed,

    /// There is an association, which isn't shutting down.
    Connected,
}

/// What both ends of the association support.
#[derive(Clone, Copy, Debug, Default, PartialEq, Eq)]
pub struct HandoverCapabilities {
    /// Partial reliability (RFC 3758).
    pub partial_reliability: bool,

    /// Message interleaving (RFC 8260).
    pub message_interleaving: bool,

    /// Stream re-configuration (RFC 6525).
    pub reconfig: bool,

    /// Packets without a checksum (RFC 9653), by the method of the options.
    pub zero_checksum: bool,

    /// The number of incoming streams.
    pub negotiated_maximum_incoming_streams: u16,

    /// The number of outgoing streams.
    pub negotiated_maximum_outgoing_streams: u16,
}

/// A message that waits to be sent, or of which a part was sent.
#[derive(Debug, PartialEq, Eq, Drop)]
pub struct HandoverStreamMessage {
    /// The stream that it goes by.
    pub stream_id: u16,

    /// The protocol of the payload.
    pub ppid: u32,

    /// All its bytes, also those that were sent.
    pub payload: Vec<u8>,

    /// The peer may be given it out of order.
    pub unordered: bool,

    /// The milliseconds after which it is abandoned; negative: they are over. `None`: there is no limit.
    pub expires_in_ms: Option<i32>,

    /// How often it may be sent again; 65,535: there is no limit.
    pub max_retransmissions: u16,

    /// The name under which events report what becomes of it; 0: there are no such events.
    pub lifecycle_id: u64,

    /// Counts the messages in the order in which they were added.
    pub message_id: u64,

    /// How many of its bytes were sent.
    pub remaining_offset: usize,

    /// The Message Identifier (RFC 8260, section 2.1), if a part was sent.
    pub mid: Option<u32>,

    /// The Stream Sequence Number (RFC 9260, section 3.3.1), if a part was sent.
    pub ssn: Option<u16>,

    /// The Fragment Sequence Number of its next fragment (RFC 8260, section 2.1).
    pub fsn: u32,
}

/// What was sent under one TSN, and isn't acknowledged up to there.
#[derive(Debug, PartialEq, Eq, Drop)]
pub struct HandoverOutstandingData {
    /// The stream that it goes by.
    pub stream_id: u16,

    /// The Stream Sequence Number (RFC 9260, section 3.3.1).
    pub ssn: u16,

    /// The Message Identifier (RFC 8260, section 2.1).
    pub mid: u32,

    /// The Fragment Sequence Number (RFC 8260, section 2.1).
    pub fsn: u32,

    /// The protocol of the payload.
    pub ppid: u32,

    /// The bytes of this fragment.
    pub payload: Vec<u8>,

    /// The fragment is the first of its message.
    pub is_beginning: bool,

    /// The fragment is the last of its message.
    pub is_end: bool,

    /// The peer may be given the message out of order.
    pub is_unordered: bool,

    /// The number of its message, in the order in which messages were added.
    pub message_id: u64,

    /// The name under which events report what becomes of the message; 0: there are no such events.
    pub lifecycle_id: u64,

    /// The milliseconds after which it is abandoned; negative: they are over. `None`: there is no limit.
    pub expires_in_ms: Option<i32>,

    /// How often it may be sent again; 65,535: there is no limit.
    pub max_retransmissions: u16,

    /// How often it was sent again.
    pub retransmission_count: u16,

    /// The milliseconds since it was sent first.
    pub time_since_sent_ms: i32,

    /// The peer has it.
    pub acked: bool,

    /// It is abandoned (RFC 3758).
    pub is_abandoned: bool,

    /// The peer lacks it, as its last reports say.
    pub is_nacked: bool,

    /// It waits to be sent again.
    pub is_to_be_retransmitted: bool,
}

/// The numbers and the priority of a stream that messages are sent by.
#[derive(Clone, Copy, Debug, Default, PartialEq, Eq)]
pub struct HandoverOutgoingStream {
    /// Its identifier.
    pub id: u16,

    /// The Stream Sequence Number of its next ordered message (RFC 9260, section 3.3.1).
    pub next_ssn: u16,

    /// The Message Identifier of its next unordered message (RFC 8260, section 2.1).
    pub next_unordered_mid: u32,

    /// The Message Identifier of its next ordered message (RFC 8260, section 2.1).
    pub next_ordered_mid: u32,

    /// Its priority.
    pub priority: u16,
}

/// All that concerns sending.
#[derive(Debug, PartialEq, Eq, Drop)]
pub struct HandoverTransmission {
    /// The TSN of the next data.
    pub next_tsn: u32,

    /// The number of the next request to reset streams (RFC 6525, section 4.1).
    pub next_reset_req_sn: u32,

    /// The congestion window, in bytes (RFC 9260, section 7.2).
    pub cwnd: u32,

    /// The peer's receive window, in bytes (RFC 9260, section 6.2.1).
    pub rwnd: u32,

    /// The slow start threshold, in bytes (RFC 9260, section 7.2).
    pub ssthresh: u32,

    /// The bytes that were acknowledged in congestion avoidance (RFC 9260, section 7.2.2).
    pub partial_bytes_acked: u32,

    /// The last TSN up to which the peer has acknowledged all.
    pub last_cumulative_tsn_ack: u32,

    /// The `message_id` of the next message.
    pub next_outgoing_message_id: u64,

    /// The streams that were used.
    pub streams: Vec<HandoverOutgoingStream>,

    /// The messages that aren't fully sent.
    pub queued_messages: Vec<HandoverStreamMessage>,

    /// What was sent under each TSN from the one after `last_cumulative_tsn_ack` on.
    pub outstanding_data: Vec<HandoverOutstandingData>,
}

/// A stream that ordered messages are received by.
#[derive(Clone, Copy, Debug, Default, PartialEq, Eq)]
pub struct HandoverOrderedStream {
    /// Its identifier.
    pub id: u16,

    /// The number of its next message: a Stream Sequence Number (RFC 9260, section 3.3.1), or a Message
    /// Identifier where messages are interleaved (RFC 8260, section 2.1).
    pub next_ssn: u32,
}

/// A stream that unordered messages are received by.
#[derive(Clone, Copy, Debug, Default, PartialEq, Eq)]
pub struct HandoverUnorderedStream {
    /// Its identifier.
    pub id: u16,
}

/// All that concerns receiving.
#[derive(Debug, PartialEq, Eq, Drop)]
pub struct HandoverReceive {
    /// Data was received.
    pub seen_packet: bool,

    /// The last TSN up to which all data was received.
    pub last_cumulative_acked_tsn: u32,

    /// The last TSN that reassembly has handled.
    pub last_assembled_tsn: u32,

    /// The number of the peer's last request to reset streams that was deferred and then carried out.
    pub last_completed_deferred_reset_req_sn: u32,

    /// The number of the peer's last request to reset streams that was accepted.
    pub last_completed_reset_req_sn: u32,

    /// The streams on which ordered messages were received.
    pub ordered_streams: Vec<HandoverOrderedStream>,

    /// The streams on which unordered messages were received.
    pub unordered_streams: Vec<HandoverUnorderedStream>,
}

/// A snapshot of a socket.
#[derive(Debug, PartialEq, Eq, Drop)]
pub struct SocketHandoverState {
    /// Is the socket connected?
    pub socket_state: HandoverSocketState,

    /// The verification tag of packets that are received.
    pub my_verification_tag: u32,

    /// The TSN of the first data of this socket.
    pub my_initial_tsn: u32,

    /// The verification tag of packets that are sent.
    pub peer_verification_tag: u32,

    /// The TSN of the first data of the peer.
    pub peer_initial_tsn: u32,

    /// The tie tag of the association (RFC 9260, section 5.2.4).
    pub tie_tag: u64,

    /// What both ends support.
    pub capabilities: HandoverCapabilities,

    /// All that concerns sending.
    pub tx: HandoverTransmission,

    /// All that concerns receiving.
    pub rx: HandoverReceive,
}

impl HandoverStreamMessage {
    /// No bytes, and every number 0.
    pub fn empty(alloc: Global) -> HandoverStreamMessage
        ensures { queued_part result ≡ empty_queued_part }
    {
        HandoverStreamMessage {
            stream_id: 0,
            ppid: 0,
            payload: Vec::new(alloc),
            unordered: false,
            expires_in_ms: None,
            max_retransmissions: 0,
            lifecycle_id: 0,
            message_id: 0,
            remaining_offset: 0,
            mid: None,
            ssn: None,
            fsn: 0,
        }
    }
}

impl HandoverOutstandingData {
    /// No bytes, and every number 0.
    pub fn empty(alloc: Global) -> HandoverOutstandingData
        ensures { outstanding_part result ≡ empty_outstanding_part }
    {
        HandoverOutstandingData {
            stream_id: 0,
            ssn: 0,
            mid: 0,
            fsn: 0,
            ppid: 0,
            payload: Vec::new(alloc),
            is_beginning: false,
            is_end: false,
            is_unordered: false,
            message_id: 0,
            lifecycle_id: 0,
            expires_in_ms: None,
            max_retransmissions: 0,
            retransmission_count: 0,
            time_since_sent_ms: 0,
            acked: false,
            is_abandoned: false,
            is_nacked: false,
            is_to_be_retransmitted: false,
        }
    }
}

impl HandoverTransmission {
    /// No streams, no messages, no data, and every number 0.
    pub fn empty(alloc: Global) -> HandoverTransmission
        ensures { send_part result ≡ empty_send_part }
    {
        HandoverTransmission {
            next_tsn: 0,
            next_reset_req_sn: 0,
            cwnd: 0,
            rwnd: 0,
            ssthresh: 0,
            partial_bytes_acked: 0,
            last_cumulative_tsn_ack: 0,
            next_outgoing_message_id: 0,
            streams: Vec::new(alloc),
            queued_messages: Vec::new(alloc),
            outstanding_data: Vec::new(alloc),
        }
    }
}

impl HandoverReceive {
    /// No streams, and every number 0.
    pub fn empty(alloc: Global) -> HandoverReceive
        ensures { received_part result ≡ empty_received_part }
    {
        HandoverReceive {
            seen_packet: false,
            last_cumulative_acked_tsn: 0,
            last_assembled_tsn: 0,
            last_completed_deferred_reset_req_sn: 0,
            last_completed_reset_req_sn: 0,
            ordered_streams: Vec::new(alloc),
            unordered_streams: Vec::new(alloc),
        }
    }
}

impl SocketHandoverState {
    /// The snapshot of a closed socket: no lists, and every number 0.
    pub fn empty(alloc: Global) -> SocketHandoverState
        ensures { snapshot result ≡ empty_snapshot }
    {
        SocketHandoverState {
            socket_state: HandoverSocketState::Closed,
            my_verification_tag: 0,
            my_initial_tsn: 0,
            peer_verification_tag: 0,
            peer_initial_tsn: 0,
            tie_tag: 0,
            capabilities: HandoverCapabilities::default(),
            tx: HandoverTransmission::empty(alloc),
            rx: HandoverReceive::empty(alloc),
        }
    }
}
