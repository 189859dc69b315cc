//! Events, messages and metrics, as C reads them.

ghost use Rattle.std.specs.Prelude.{◌≡◌, length};
ghost use Rattle.std.specs.Duration.{as_nanos};
ghost use Rattle.dcsctp_session.specs.Options.{time_number};
ghost use Rattle.dcsctp_session.specs.Records.{error_number, plain_record, event_record, message_record, implementation_number, has_metrics_size, SaysMetrics, has_counts_size, counts_record};

use dcsctp_socket::{Counts, ErrorKind, Message, Metrics, SctpImplementation, SocketEvent};

/// What an event is. Its bytes and lists are copied by calls of their own; `length` counts them. A field that
/// a kind of event doesn't have is 0.
#[repr(C)]
#[derive(Clone, Copy, Debug)]
pub struct EventRecord {
    pub lifecycle_id: u64,
    pub length: usize,
    pub kind: u32,
    pub error_kind: u32,
    pub stream_id: u32,
    pub reserved: u32,
}

/// What a message is. Its payload is copied by a call of its own; `length` counts it.
#[repr(C)]
#[derive(Clone, Copy, Debug)]
pub struct MessageRecord {
    pub length: usize,
    pub ppid: u32,
    pub stream_id: u16,
    pub reserved: u16,
}

// The bytes of a `MetricsRecord`.
const SIZE: usize = size_of::<MetricsRecord>();

/// The metrics of a socket. The round trip time is in nanoseconds, and 1 in a flag says yes. `size` says how
/// many bytes the caller's record has.
#[repr(C)]
#[derive(Clone, Copy, Debug)]
pub struct MetricsRecord {
    pub size: usize,
    pub rtx_bytes_count: u64,
    pub srtt: u64,
    pub tx_packets_count: usize,
    pub tx_messages_count: usize,
    pub rtx_packets_count: usize,
    pub cwnd_bytes: usize,
    pub unack_data_count: usize,
    pub rx_packets_count: usize,
    pub rx_messages_count: usize,
    pub peer_rwnd_bytes: u32,
    pub peer_implementation: u32,
    pub uses_message_interleaving: u32,
    pub uses_zero_checksum: u32,
    pub negotiated_maximum_incoming_streams: u16,
    pub negotiated_maximum_outgoing_streams: u16,
    pub reserved: u32,
}

// The bytes of a `CountsRecord`.
const COUNTS_SIZE: usize = size_of::<CountsRecord>();

/// What a socket has counted in its life. `size` says how many bytes the caller's record has.
#[repr(C)]
#[derive(Clone, Copy, Debug)]
pub struct CountsRecord {
    pub size: usize,
    pub rx_packets_count: usize,
    pub tx_packets_count: usize,
    pub tx_messages_count: usize,
}

// The number of a kind of error.
fn error_number(kind: ErrorKind) -> u32
    ensures { result ≡ error_number kind }
{
    match kind {
        ErrorKind::NoError => 0,
        ErrorKind::TooManyRetries => 1,
        ErrorKind::NotConnected => 2,
        ErrorKind::ParseFailed => 3,
        ErrorKind::WrongSequence => 4,
        ErrorKind::PeerReported => 5,
        ErrorKind::ProtocolViolation => 6,
        ErrorKind::ResourceExhaustion => 7,
        ErrorKind::UnsupportedOperation => 8,
    }
}

impl EventRecord {
    // An event that is nothing but its kind.
    fn plain(kind: u32) -> EventRecord
        ensures { result ≡ plain_record kind }
    {
        EventRecord {
            lifecycle_id: 0,
            length: 0,
            kind,
            error_kind: 0,
            stream_id: 0,
            reserved: 0,
        }
    }

    // An event with bytes or streams.
    fn with_length(kind: u32, length: usize) -> EventRecord
        ensures { result ≡ record (plain_record kind) { length = length } }
    {
        EventRecord {
            length,
            ..EventRecord::plain(kind)
        }
    }

    // An event that reports an error.
    fn with_error(kind: u32, error: ErrorKind, text: &str) -> EventRecord
        ensures { result
            ≡ record (plain_record kind) {
              length = length text.now;
              error_kind = error_number error;
            } }
    {
        EventRecord {
            error_kind: error_number(error),
            ..EventRecord::with_length(kind, text.len())
        }
    }

    // An event of a message that has a name.
    fn with_name(kind: u32, lifecycle_id: u64) -> EventRecord
        ensures { result ≡ record (plain_record kind) { lifecycle_id = lifecycle_id } }
    {
        EventRecord {
            lifecycle_id,
            ..EventRecord::plain(kind)
        }
    }

    // An event of a stream.
    fn with_stream(kind: u32, stream_id: u16) -> EventRecord
        ensures { result ≡ record (plain_record kind) { stream_id = stream_id } }
    {
        EventRecord {
            stream_id: u32::from(stream_id),
            ..EventRecord::plain(kind)
        }
    }

    /// No event.
    pub fn none() -> EventRecord
        ensures { result ≡ plain_record 0 }
    {
        EventRecord::plain(0)
    }

    /// What an event is.
    pub fn of(event: &SocketEvent) -> EventRecord
        ensures { result ≡ event_record event.now }
    {
        match event {
            SocketEvent::SendPacket(packet) => EventRecord::with_length(1, packet.len()),
            SocketEvent::OnConnected() => EventRecord::plain(2),
            SocketEvent::OnClosed() => EventRecord::plain(3),
            SocketEvent::OnConnectionRestarted() => EventRecord::plain(4),
            SocketEvent::OnAborted(kind, text) => EventRecord::with_error(5, *kind, text.as_str()),
            SocketEvent::OnError(kind, text) => EventRecord::with_error(6, *kind, text.as_str()),
            SocketEvent::OnBufferedAmountLow(stream) => EventRecord::with_stream(7, stream.0),
            SocketEvent::OnTotalBufferedAmountLow() => EventRecord::plain(8),
            SocketEvent::OnStreamsResetFailed(streams) => {
                EventRecord::with_length(9, streams.len())
            }
            SocketEvent::OnStreamsResetPerformed(streams) => {
                EventRecord::with_length(10, streams.len())
            }
            SocketEvent::OnIncomingStreamReset(streams) => {
                EventRecord::with_length(11, streams.len())
            }
            SocketEvent::OnLifecycleMessageFullySent(id) => EventRecord::with_name(12, id.value()),
            SocketEvent::OnLifecycleMessageMaybeExpired(id) => {
                EventRecord::with_name(13, id.value())
            }
            SocketEvent::OnLifecycleMessageExpired(id) => EventRecord::with_name(14, id.value()),
            SocketEvent::OnLifecycleMessageDelivered(id) => EventRecord::with_name(15, id.value()),
            SocketEvent::OnLifecycleEnd(id) => EventRecord::with_name(16, id.value()),
        }
    }
}

impl MessageRecord {
    /// No message.
    pub fn none() -> MessageRecord
        ensures { result ≡ record { length = 0; ppid = 0; stream_id = 0; reserved = 0 } }
    {
        MessageRecord {
            length: 0,
            ppid: 0,
            stream_id: 0,
            reserved: 0,
        }
    }

    /// What a message is.
    pub fn of(message: &Message) -> MessageRecord
        ensures { result ≡ message_record message.now }
    {
        MessageRecord {
            length: message.payload.len(),
            ppid: message.ppid.0,
            stream_id: message.stream_id.0,
            reserved: 0,
        }
    }
}

// The number of an implementation.
fn implementation_number(implementation: SctpImplementation) -> u32
    ensures { result ≡ implementation_number implementation }
{
    match implementation {
        SctpImplementation::Unknown => 0,
        SctpImplementation::DcsctpRs => 1,
        SctpImplementation::DcsctpCc => 2,
        SctpImplementation::UsrSctp => 3,
        SctpImplementation::Other => 4,
    }
}

impl MetricsRecord {
    /// Is it a record of this library? The caller may have that of another version, of another size.
    pub fn is_sized(&self) -> bool
        ensures { result ≡ has_metrics_size self.now }
    {
        self.size == SIZE
    }

    /// What the metrics are.
    pub fn of(metrics: &Metrics) -> MetricsRecord
        ensures { SaysMetrics result metrics.now }
    {
        let srtt = match u64::try_from(metrics.srtt.as_nanos()) {
            Ok(nanos) => nanos,
            Err(_) => 0xffff_ffff_ffff_ffff,
        };
        MetricsRecord {
            size: SIZE,
            rtx_bytes_count: metrics.rtx_bytes_count,
            srtt,
            tx_packets_count: metrics.tx_packets_count,
            tx_messages_count: metrics.tx_messages_count,
            rtx_packets_count: metrics.rtx_packets_count,
            cwnd_bytes: metrics.cwnd_bytes,
            unack_data_count: metrics.unack_data_count,
            rx_packets_count: metrics.rx_packets_count,
            rx_messages_count: metrics.rx_messages_count,
            peer_rwnd_bytes: metrics.peer_rwnd_bytes,
            peer_implementation: implementation_number(metrics.peer_implementation),
            uses_message_interleaving: metrics.uses_message_interleaving as u32,
            uses_zero_checksum: metrics.uses_zero_checksum as u32,
            negotiated_maximum_incoming_streams: metrics.negotiated_maximum_incoming_streams,
            negotiated_maximum_outgoing_streams: metrics.negotiated_maximum_outgoing_streams,
            reserved: 0,
        }
    }
}

impl CountsRecord {
    /// Is it a record of this library? The caller may have that of another version, of another size.
    pub fn is_sized(&self) -> bool
        ensures { result ≡ has_counts_size self.now }
    {
        self.size == COUNTS_SIZE
    }

    /// What the counts are.
    pub fn of(counts: &Counts) -> CountsRecord
        ensures { result ≡ counts_record counts.now }
    {
        CountsRecord {
            size: COUNTS_SIZE,
            rx_packets_count: counts.rx_packets_count,
            tx_packets_count: counts.tx_packets_count,
            tx_messages_count: counts.tx_messages_count,
        }
    }
}
