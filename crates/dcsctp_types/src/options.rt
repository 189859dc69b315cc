//! The options of a socket.

ghost use Rattle.std.specs.Prelude.{◌↔◌, IsTrue};

use crate::kinds::{
    ZERO_CHECKSUM_ALTERNATE_ERROR_DETECTION_METHOD_NONE, ZeroChecksumAlternateErrorDetectionMethod,
};
use std::time::Duration;

/// What a user can set. Sizes are bytes, windows too.
#[derive(Clone, Copy)]
pub struct Options {
    /// The port that packets must be sent to, and from which packets are sent.
    pub local_port: u16,

    /// The port that packets out are sent to.
    pub remote_port: u16,

    /// How many incoming streams are announced.
    pub announced_maximum_incoming_streams: u16,

    /// How many outgoing streams are announced.
    pub announced_maximum_outgoing_streams: u16,

    /// No packet that is sent is longer. Headers of lower layers don't count.
    pub mtu: usize,

    /// A message with a longer payload is refused.
    pub max_message_size: usize,

    /// The priority of a stream that was given none.
    pub default_stream_priority: u16,

    /// The receive window: how much of incomplete or unread messages is kept.
    pub max_receiver_window_buffer_size: usize,

    /// No message is queued while this much waits on all streams together.
    pub max_send_buffer_size: usize,

    /// No message is queued on a stream while this much waits there.
    pub per_stream_send_queue_limit: usize,

    /// An amount on all streams that falls to this or below adds an event.
    pub total_buffered_amount_low_threshold: usize,

    /// The same on one stream, unless the stream was given another threshold.
    pub default_stream_buffered_amount_low_threshold: usize,

    /// A longer round trip isn't taken into account.
    pub rtt_max: Duration,

    /// The retransmission timeout before any round trip was measured.
    pub rto_initial: Duration,

    /// The greatest retransmission timeout.
    pub rto_max: Duration,

    /// The least retransmission timeout.
    pub rto_min: Duration,

    /// How long an INIT ACK is awaited at first.
    pub t1_init_timeout: Duration,

    /// How long a COOKIE ACK is awaited at first.
    pub t1_cookie_timeout: Duration,

    /// How old a cookie of this socket may be, by its clock, when a COOKIE ECHO brings it back (RFC 9260, section
    /// 5.1.3). An older one makes no association. At zero one makes it only at the moment of its making.
    pub cookie_lifetime: Duration,

    /// Has no effect: T2 takes the present retransmission timeout.
    pub t2_shutdown_timeout: Duration,

    /// The limit on the backoff of the retransmission timer.
    pub max_timer_backoff_duration: Option<Duration>,

    /// How often a HEARTBEAT is sent, counted from OnConnected; zero switches it off.
    pub heartbeat_interval: Duration,

    /// The longest that an acknowledgement is delayed.
    pub delayed_ack_max_timeout: Duration,

    /// The least value that is used for four variances of the round trip.
    pub min_rtt_variance: Duration,

    /// The congestion window at first, in MTUs (RFC 9260, section 7.2.1).
    pub cwnd_mtus_initial: usize,

    /// The least slow start threshold after a loss, in MTUs (RFC 9260, section 7.2.3).
    pub cwnd_mtus_min: usize,

    /// Has no effect.
    pub avoid_fragmentation_cwnd_mtus: usize,

    /// Has no effect.
    pub immediate_sack_under_cwnd_mtus: usize,

    /// The most packets that one flush sends; none at 0 or below.
    pub max_burst: i32,

    /// How often data and SHUTDOWN are sent again, and the limit of the error counter; `None`: no limit.
    pub max_retransmissions: Option<u32>,

    /// How often INIT and COOKIE ECHO are sent again; `None`: no limit.
    pub max_init_retransmits: Option<u32>,

    /// Offers partial reliability (RFC 3758).
    pub enable_partial_reliability: bool,

    /// Offers message interleaving (RFC 8260).
    pub enable_message_interleaving: bool,

    /// Has no effect in this layer.
    pub heartbeat_interval_include_rtt: bool,

    /// The alternate error detection method that is offered (RFC 9653).
    pub zero_checksum_alternate_error_detection_method: ZeroChecksumAlternateErrorDetectionMethod,

    /// Accepts packets with every checksum. Only for tests.
    pub disable_checksum_verification: bool,

    /// Allows a handover while data is outstanding.
    pub enable_handover_with_outstanding_data: bool,

    /// Follows the RFCs where upstream, dcsctp 0.1.16, doesn't. docs/design/differences.md has a row for each
    /// rule that it changes.
    pub follow_rfc: bool,
}

impl Default for Options {
    ghost use Rattle.dcsctp_types.specs.Settings.{IsDefault};

    ghost is_default = { IsDefault };

    fn default() -> Options {
        Options {
            local_port: 5000,
            remote_port: 5000,
            announced_maximum_incoming_streams: 65535,
            announced_maximum_outgoing_streams: 65535,
            mtu: 1191,
            max_message_size: 262_144,
            default_stream_priority: 256,
            max_receiver_window_buffer_size: 5_242_880,
            max_send_buffer_size: 2_000_000,
            per_stream_send_queue_limit: 2_000_000,
            total_buffered_amount_low_threshold: 1_800_000,
            default_stream_buffered_amount_low_threshold: 0,
            rtt_max: Duration::from_secs(60),
            rto_initial: Duration::from_millis(500),
            rto_max: Duration::from_secs(60),
            rto_min: Duration::from_millis(400),
            t1_init_timeout: Duration::from_secs(1),
            t1_cookie_timeout: Duration::from_secs(1),
            cookie_lifetime: Duration::from_secs(60),
            t2_shutdown_timeout: Duration::from_secs(1),
            max_timer_backoff_duration: None,
            heartbeat_interval: Duration::from_secs(30),
            delayed_ack_max_timeout: Duration::from_millis(200),
            min_rtt_variance: Duration::from_millis(220),
            cwnd_mtus_initial: 10,
            cwnd_mtus_min: 4,
            avoid_fragmentation_cwnd_mtus: 6,
            immediate_sack_under_cwnd_mtus: 10,
            max_burst: 4,
            max_retransmissions: Some(10),
            max_init_retransmits: Some(8),
            enable_partial_reliability: true,
            enable_message_interleaving: false,
            heartbeat_interval_include_rtt: true,
            zero_checksum_alternate_error_detection_method: ZERO_CHECKSUM_ALTERNATE_ERROR_DETECTION_METHOD_NONE,
            disable_checksum_verification: false,
            enable_handover_with_outstanding_data: false,
            follow_rfc: false,
        }
    }
}

impl Options {
    ghost use Rattle.dcsctp_types.specs.Settings.{IsValid};

    /// Can a socket be made with these options? That is so if `mtu` is 32 to 65,535, and
    /// `max_receiver_window_buffer_size` and `max_send_buffer_size` are at most 2^32 - 1.
    pub fn is_valid(&self) -> bool
        ensures valid { IsTrue result ↔ IsValid self.now }
    {
        let limit = 0xffff_ffff;
        32 <= self.mtu
            && self.mtu <= 65535
            && self.max_receiver_window_buffer_size <= limit
            && self.max_send_buffer_size <= limit
    }
}
