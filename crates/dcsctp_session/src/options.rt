//! The options of a socket and of a message, as C writes them. Each field is a whole number, so that every
//! value of its bytes is one.

ghost use Rattle.std.specs.Prelude.{◌≡◌, option_map};
ghost use Rattle.std.specs.Duration.{as_nanos};
ghost use Rattle.dcsctp_session.specs.Options.{SaysOptions, ShowsOptions, ShowsDefault, SaysSendOptions, has_options_size, is_valid_sending, time_number, optional_time_number, optional_nanos, limit_number, optional_limit, flag};

use dcsctp_socket::{LifecycleId, Options, SendOptions, ZeroChecksumAlternateErrorDetectionMethod};
use std::time::Duration;

// Means `None` in a time.
const NEVER: u64 = 0xffff_ffff_ffff_ffff;

// Means `None` in a limit.
const NO_LIMIT: u32 = 0xffff_ffff;

// The bytes of an `OptionsRecord`.
const SIZE: usize = size_of::<OptionsRecord>();

/// The options of a socket that have an effect. Times are in nanoseconds; 0 in a flag says no, and all else
/// yes. `None` is the greatest number of the field. `size` says how many bytes the caller's record has.
#[repr(C)]
#[derive(Clone, Copy, Debug)]
pub struct OptionsRecord {
    pub size: usize,
    pub mtu: usize,
    pub max_message_size: usize,
    pub max_receiver_window_buffer_size: usize,
    pub max_send_buffer_size: usize,
    pub per_stream_send_queue_limit: usize,
    pub total_buffered_amount_low_threshold: usize,
    pub default_stream_buffered_amount_low_threshold: usize,
    pub cwnd_mtus_initial: usize,
    pub cwnd_mtus_min: usize,
    pub rtt_max: u64,
    pub rto_initial: u64,
    pub rto_max: u64,
    pub rto_min: u64,
    pub t1_init_timeout: u64,
    pub t1_cookie_timeout: u64,
    pub cookie_lifetime: u64,
    pub max_timer_backoff_duration: u64,
    pub heartbeat_interval: u64,
    pub delayed_ack_max_timeout: u64,
    pub min_rtt_variance: u64,
    pub max_burst: i32,
    pub max_retransmissions: u32,
    pub max_init_retransmits: u32,
    pub zero_checksum_method: u32,
    pub enable_partial_reliability: u32,
    pub enable_message_interleaving: u32,
    pub disable_checksum_verification: u32,
    pub enable_handover_with_outstanding_data: u32,
    pub local_port: u16,
    pub remote_port: u16,
    pub announced_maximum_incoming_streams: u16,
    pub announced_maximum_outgoing_streams: u16,
    pub default_stream_priority: u16,
    pub checksum_offload: u16,
    pub follow_rfc: u32,
}

// The nanoseconds of a time; those that don't fit are cut.
fn nanoseconds(time: Duration) -> u64
    ensures { result ≡ time_number time }
{
    match u64::try_from(time.as_nanos()) {
        Ok(nanos) => nanos,
        Err(_) => NEVER,
    }
}

// The same of a time that may be `None`.
fn optional_nanoseconds(time: Option<Duration>) -> u64
    ensures { result ≡ optional_time_number time }
{
    match time {
        Some(time) => nanoseconds(time),
        None => NEVER,
    }
}

// The time of so many nanoseconds.
fn duration(nanos: u64) -> Duration
    ensures { as_nanos result ≡ nanos }
{
    Duration::from_nanos(nanos)
}

// The same of nanoseconds that may mean `None`.
fn optional_duration(nanos: u64) -> Option<Duration>
    ensures { option_map as_nanos result ≡ optional_nanos nanos }
{
    if nanos == NEVER {
        return None;
    }
    Some(duration(nanos))
}

// The number that encodes a limit.
fn limit_value(limit: Option<u32>) -> u32
    ensures { result ≡ limit_number limit }
{
    match limit {
        Some(limit) => limit,
        None => NO_LIMIT,
    }
}

// The limit that a number encodes.
fn limit(number: u32) -> Option<u32>
    ensures { result ≡ optional_limit number }
{
    if number == NO_LIMIT {
        return None;
    }
    Some(number)
}

impl OptionsRecord {
    /// The numbers that encode the default options, but for four, since a caller in C has no upstream to follow.
    /// `follow_rfc` is on. And a link may be dark for minutes without an end of the association: no wait for
    /// an answer but the first is longer than 3 s, and 60 of them may be in vain, in a handshake too.
    pub fn standard() -> OptionsRecord
        ensures { ShowsDefault result }
    {
        let mut options = Options::default();
        options.follow_rfc = true;
        options.max_timer_backoff_duration = Some(Duration::from_secs(3));
        options.max_retransmissions = Some(60);
        options.max_init_retransmits = Some(60);
        OptionsRecord::of(&options, false)
    }

    /// The numbers that encode the options, and whether the caller makes and checks checksums. One who does has
    /// switched no check off.
    pub fn of(options: &Options, checksum_offload: bool) -> OptionsRecord
        ensures { ShowsOptions result options.now checksum_offload }
    {
        let method = options.zero_checksum_alternate_error_detection_method;
        let is_unverified = options.disable_checksum_verification && !checksum_offload;
        OptionsRecord {
            size: SIZE,
            mtu: options.mtu,
            max_message_size: options.max_message_size,
            max_receiver_window_buffer_size: options.max_receiver_window_buffer_size,
            max_send_buffer_size: options.max_send_buffer_size,
            per_stream_send_queue_limit: options.per_stream_send_queue_limit,
            total_buffered_amount_low_threshold: options.total_buffered_amount_low_threshold,
            default_stream_buffered_amount_low_threshold: options.default_stream_buffered_amount_low_threshold,
            cwnd_mtus_initial: options.cwnd_mtus_initial,
            cwnd_mtus_min: options.cwnd_mtus_min,
            rtt_max: nanoseconds(options.rtt_max),
            rto_initial: nanoseconds(options.rto_initial),
            rto_max: nanoseconds(options.rto_max),
            rto_min: nanoseconds(options.rto_min),
            t1_init_timeout: nanoseconds(options.t1_init_timeout),
            t1_cookie_timeout: nanoseconds(options.t1_cookie_timeout),
            cookie_lifetime: nanoseconds(options.cookie_lifetime),
            max_timer_backoff_duration: optional_nanoseconds(options.max_timer_backoff_duration),
            heartbeat_interval: nanoseconds(options.heartbeat_interval),
            delayed_ack_max_timeout: nanoseconds(options.delayed_ack_max_timeout),
            min_rtt_variance: nanoseconds(options.min_rtt_variance),
            max_burst: options.max_burst,
            max_retransmissions: limit_value(options.max_retransmissions),
            max_init_retransmits: limit_value(options.max_init_retransmits),
            zero_checksum_method: method.0,
            enable_partial_reliability: options.enable_partial_reliability as u32,
            enable_message_interleaving: options.enable_message_interleaving as u32,
            disable_checksum_verification: is_unverified as u32,
            enable_handover_with_outstanding_data: options.enable_handover_with_outstanding_data as u32,
            local_port: options.local_port,
            remote_port: options.remote_port,
            announced_maximum_incoming_streams: options.announced_maximum_incoming_streams,
            announced_maximum_outgoing_streams: options.announced_maximum_outgoing_streams,
            default_stream_priority: options.default_stream_priority,
            checksum_offload: checksum_offload as u16,
            follow_rfc: options.follow_rfc as u32,
        }
    }

    /// Is it a record of this library? The caller may have that of another version, of another size.
    pub fn is_sized(&self) -> bool
        ensures { result ≡ has_options_size self.now }
    {
        self.size == SIZE
    }

    /// Does the caller make the checksums of packets that leave, and check those of packets that come in?
    pub fn is_checksum_offload(&self) -> bool
        ensures { result ≡ flag self.now.checksum_offload }
    {
        self.checksum_offload != 0
    }

    /// The options that the numbers encode. They may be invalid. An option that has no effect is as by
    /// default. A socket whose caller checks checksums accepts each.
    pub fn options(&self) -> Options
        ensures { SaysOptions self.now result }
    {
        Options {
            mtu: self.mtu,
            max_message_size: self.max_message_size,
            max_receiver_window_buffer_size: self.max_receiver_window_buffer_size,
            max_send_buffer_size: self.max_send_buffer_size,
            per_stream_send_queue_limit: self.per_stream_send_queue_limit,
            total_buffered_amount_low_threshold: self.total_buffered_amount_low_threshold,
            default_stream_buffered_amount_low_threshold: self.default_stream_buffered_amount_low_threshold,
            cwnd_mtus_initial: self.cwnd_mtus_initial,
            cwnd_mtus_min: self.cwnd_mtus_min,
            rtt_max: duration(self.rtt_max),
            rto_initial: duration(self.rto_initial),
            rto_max: duration(self.rto_max),
            rto_min: duration(self.rto_min),
            t1_init_timeout: duration(self.t1_init_timeout),
            t1_cookie_timeout: duration(self.t1_cookie_timeout),
            cookie_lifetime: duration(self.cookie_lifetime),
            max_timer_backoff_duration: optional_duration(self.max_timer_backoff_duration),
            heartbeat_interval: duration(self.heartbeat_interval),
            delayed_ack_max_timeout: duration(self.delayed_ack_max_timeout),
            min_rtt_variance: duration(self.min_rtt_variance),
            max_burst: self.max_burst,
            max_retransmissions: limit(self.max_retransmissions),
            max_init_retransmits: limit(self.max_init_retransmits),
            zero_checksum_alternate_error_detection_method: ZeroChecksumAlternateErrorDetectionMethod(
                self.zero_checksum_method,
            ),
            enable_partial_reliability: self.enable_partial_reliability != 0,
            enable_message_interleaving: self.enable_message_interleaving != 0,
            disable_checksum_verification: self.disable_checksum_verification != 0
                || self.is_checksum_offload(),
            enable_handover_with_outstanding_data: self.enable_handover_with_outstanding_data != 0,
            local_port: self.local_port,
            remote_port: self.remote_port,
            announced_maximum_incoming_streams: self.announced_maximum_incoming_streams,
            announced_maximum_outgoing_streams: self.announced_maximum_outgoing_streams,
            default_stream_priority: self.default_stream_priority,
            follow_rfc: self.follow_rfc != 0,
            ..Options::default()
        }
    }
}

/// How a message is to be sent. All zero is the default.
///
/// Of `flags` bit 0 says that the message is unordered, bit 1 that `lifetime` counts, and bit 2 that
/// `max_retransmissions` does. All other bits, and `reserved`, are 0.
#[repr(C)]
#[derive(Clone, Copy, Debug)]
pub struct SendOptionsRecord {
    pub lifecycle_id: u64,
    pub lifetime: u64,
    pub flags: u32,
    pub max_retransmissions: u16,
    pub reserved: u16,
}

impl SendOptionsRecord {
    /// Are all bits 0 that have no meaning?
    pub fn is_valid(&self) -> bool
        ensures { result ≡ is_valid_sending self.now }
    {
        self.flags < 8 && self.reserved == 0
    }

    /// The options that the numbers encode.
    pub fn options(&self) -> SendOptions
        ensures { SaysSendOptions self.now result }
    {
        let lifetime = if self.flags & 2 != 0 {
            Some(Duration::from_nanos(self.lifetime))
        } else {
            None
        };
        let max_retransmissions = if self.flags & 4 != 0 {
            Some(self.max_retransmissions)
        } else {
            None
        };
        SendOptions {
            unordered: self.flags & 1 != 0,
            lifetime,
            max_retransmissions,
            lifecycle_id: LifecycleId::new(self.lifecycle_id),
        }
    }
}
