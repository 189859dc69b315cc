//! Options and what is negotiated from them.

use crate::api::checks::{same, shows};
use dcsctp_api::wire::Parameter;
use dcsctp_api::{
    Capabilities, Options, ZERO_CHECKSUM_ALTERNATE_ERROR_DETECTION_METHOD_LOWER_LAYER_DTLS,
    ZERO_CHECKSUM_ALTERNATE_ERROR_DETECTION_METHOD_NONE,
};

#[test]
fn default_numbers(rt: HostRuntime) {
    let options = Options::default();
    let ports_and_streams = (
        options.local_port,
        options.remote_port,
        options.announced_maximum_incoming_streams,
        options.announced_maximum_outgoing_streams,
        options.default_stream_priority,
    );
    let expected = "(5000, 5000, 65535, 65535, 256)";
    shows(
        &rt,
        rt.alloc(),
        "ports and streams",
        &ports_and_streams,
        expected,
    );
    let sizes = (
        options.mtu,
        options.max_message_size,
        options.max_receiver_window_buffer_size,
        options.max_send_buffer_size,
        options.per_stream_send_queue_limit,
        options.total_buffered_amount_low_threshold,
        options.default_stream_buffered_amount_low_threshold,
    );
    let expected = "(1191, 262144, 5242880, 2000000, 2000000, 1800000, 0)";
    shows(&rt, rt.alloc(), "sizes", &sizes, expected);
    let windows = (
        options.cwnd_mtus_initial,
        options.cwnd_mtus_min,
        options.avoid_fragmentation_cwnd_mtus,
        options.immediate_sack_under_cwnd_mtus,
    );
    shows(&rt, rt.alloc(), "windows", &windows, "(10, 4, 6, 10)");
}

#[test]
fn default_times_limits_and_features(rt: HostRuntime) {
    let options = Options::default();
    let times = (
        options.rtt_max,
        options.rto_initial,
        options.rto_max,
        options.rto_min,
        options.t1_init_timeout,
        options.t1_cookie_timeout,
        options.cookie_lifetime,
        options.t2_shutdown_timeout,
        options.heartbeat_interval,
        options.delayed_ack_max_timeout,
        options.min_rtt_variance,
        options.max_timer_backoff_duration,
    );
    let expected = "(60s, 500ms, 60s, 400ms, 1s, 1s, 60s, 1s, 30s, 200ms, 220ms, None)";
    shows(&rt, rt.alloc(), "times", &times, expected);
    let limits = (
        options.max_burst,
        options.max_retransmissions,
        options.max_init_retransmits,
        options.zero_checksum_alternate_error_detection_method.0,
    );
    shows(
        &rt,
        rt.alloc(),
        "limits",
        &limits,
        "(4, Some(10), Some(8), 0)",
    );
    let features = (
        options.enable_partial_reliability,
        options.enable_message_interleaving,
        options.heartbeat_interval_include_rtt,
        options.disable_checksum_verification,
        options.enable_handover_with_outstanding_data,
        options.follow_rfc,
    );
    let expected = "(true, false, true, false, false, false)";
    shows(&rt, rt.alloc(), "features", &features, expected);
}

/// Names, the size of packets, the receive window and the send buffer, and whether options with these are valid.
static LIMITS: [(&str, usize, usize, usize, bool); 8] = [
    ("default", 1191, 5_242_880, 2_000_000, true),
    ("smallest packet", 32, 0, 0, true),
    ("too small", 31, 0, 0, false),
    ("largest packet", 65535, 0, 0, true),
    ("too large", 65536, 0, 0, false),
    ("largest windows", 1191, 0xffff_ffff, 0xffff_ffff, true),
    ("receive window", 1191, 0x1_0000_0000, 0, false),
    ("send buffer", 1191, 0, 0x1_0000_0000, false),
];

#[test]
fn limits_of_valid_options(rt: HostRuntime) {
    let mut options = Options::default();
    for (name, mtu, window, buffer, are_valid) in &LIMITS {
        options.mtu = *mtu;
        options.max_receiver_window_buffer_size = *window;
        options.max_send_buffer_size = *buffer;
        same(&rt, name, options.is_valid(), *are_valid);
    }
}

static NO_METHOD: [Parameter<'static>; 2] = [
    Parameter::ForwardTsnSupported,
    Parameter::SupportedExtensions {
        chunk_types: &[130, 192],
    },
];

/// What an end with 10 incoming and 20 outgoing streams and method 1 agrees on with this peer.
fn agreed_with(peer: Capabilities) -> Capabilities {
    let mut options = Options::default();
    options.announced_maximum_incoming_streams = 10;
    options.announced_maximum_outgoing_streams = 20;
    options.zero_checksum_alternate_error_detection_method.0 = 1;
    peer.negotiate(&options)
}

#[test]
fn the_smaller_count_of_streams_is_negotiated(rt: HostRuntime) {
    // This peer announces 15 incoming and 5 outgoing streams, and no method.
    let agreed = agreed_with(Capabilities::from_parameters(5, 15, &NO_METHOD));
    let is_enabled = agreed.zero_checksum_enabled();
    let with_none = agreed_with(Capabilities::default());
    shows(
        &rt,
        rt.alloc(),
        "agreed, without zero checksums, and with a peer of no streams",
        &(agreed, is_enabled, with_none),
        "(Capabilities { partial_reliability: true, message_interleaving: false, reconfig: true, \
         zero_checksum_method: ZeroChecksumAlternateErrorDetectionMethod(0), \
         negotiated_maximum_incoming_streams: 5, negotiated_maximum_outgoing_streams: 15 }, false, \
         Capabilities { partial_reliability: false, message_interleaving: false, reconfig: false, \
         zero_checksum_method: ZeroChecksumAlternateErrorDetectionMethod(0), \
         negotiated_maximum_incoming_streams: 0, negotiated_maximum_outgoing_streams: 0 })",
    );
}

static TWO_OF_A_KIND: [Parameter<'static>; 5] = [
    Parameter::Unknown {
        parameter_type: 5,
        value: &[64],
    },
    Parameter::SupportedExtensions {
        chunk_types: &[192],
    },
    Parameter::SupportedExtensions {
        chunk_types: &[64, 130],
    },
    Parameter::ZeroChecksumAcceptable { method: 1 },
    Parameter::ZeroChecksumAcceptable { method: 2 },
];

#[test]
fn the_first_parameter_of_a_kind_counts(rt: HostRuntime) {
    let peer = Capabilities::from_parameters(1, 2, &TWO_OF_A_KIND);
    shows(
        &rt,
        rt.alloc(),
        "peer, with zero checksums",
        &(peer, peer.zero_checksum_enabled()),
        "(Capabilities { partial_reliability: true, message_interleaving: false, reconfig: false, \
         zero_checksum_method: ZeroChecksumAlternateErrorDetectionMethod(1), \
         negotiated_maximum_incoming_streams: 1, negotiated_maximum_outgoing_streams: 2 }, true)",
    );
}

// The identifiers of RFC 9653.
#[test]
fn methods_have_their_published_numbers(rt: HostRuntime) {
    let none = ZERO_CHECKSUM_ALTERNATE_ERROR_DETECTION_METHOD_NONE.0;
    let below = ZERO_CHECKSUM_ALTERNATE_ERROR_DETECTION_METHOD_LOWER_LAYER_DTLS.0;
    same(&rt, "none, and DTLS below", (none, below), (0, 1));
}
