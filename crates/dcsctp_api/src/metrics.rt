//! What a socket shows of its work.

use dcsctp_spec_lemmas::types::SctpImplementation;
use std::time::Duration;

/// What was counted over the socket's life, also while there is no association. Each count stops at the
/// greatest number of its type.
#[derive(Clone, Copy, Debug, PartialEq, Eq)]
pub struct Counts {
    /// How many packets were sent.
    pub tx_packets_count: usize,

    /// How many messages were accepted by `send` and `send_many`.
    pub tx_messages_count: usize,

    /// How many packets were handed in, readable or not.
    pub rx_packets_count: usize,
}

/// What was counted over the socket's life, and how the present association is. Counts and sums stop at the
/// greatest number of their type.
#[derive(Clone, Copy, Debug, PartialEq)]
pub struct Metrics {
    /// How many packets were sent over the socket's life.
    pub tx_packets_count: usize,

    /// How many messages were accepted by `send` and `send_many` over the socket's life.
    pub tx_messages_count: usize,

    /// How many packets had chunks that were sent again. Such a packet may have new chunks, too.
    pub rtx_packets_count: usize,

    /// The bytes of the chunks that were sent again, with their headers and padding.
    pub rtx_bytes_count: u64,

    /// The congestion window in bytes (RFC 9260, section 7.2).
    pub cwnd_bytes: usize,

    /// The smoothed round trip time (RFC 9260, section 6.3.1).
    pub srtt: Duration,

    /// How many chunks were sent that are neither acknowledged nor abandoned, and an estimate of how many the
    /// waiting messages would take: their bytes, divided by `mtu` less 28 and rounded up.
    pub unack_data_count: usize,

    /// How many packets were handed in over the socket's life, readable or not.
    pub rx_packets_count: usize,

    /// How many messages became ready to be taken.
    pub rx_messages_count: usize,

    /// The receive window that the peer announced last, in bytes, without what is in flight.
    pub peer_rwnd_bytes: u32,

    /// What the peer is, by the cookie of the last INIT ACK that made a peer known; not known before there was
    /// one.
    pub peer_implementation: SctpImplementation,

    /// Is user data interleaved (RFC 8260)?
    pub uses_message_interleaving: bool,

    /// Was a method in place of the checksum negotiated (RFC 9653)?
    pub uses_zero_checksum: bool,

    /// How many incoming streams there are, as negotiated (RFC 9260, section 5.1.1).
    pub negotiated_maximum_incoming_streams: u16,

    /// The same for outgoing streams.
    pub negotiated_maximum_outgoing_streams: u16,
}
