//! The fields of the options that each name sets; few of them show in what a script prints.

use crate::checks::{holds, same};
use dcsctp_api::types::Options;
use dcsctp_script::set_option;
use std::process::Abort;
use std::time::Duration;

// Default options with these settings.
fn options_with(rt: &impl Abort, settings: &[(&str, &str)]) -> Options {
    let mut options = Options::default();
    for (name, value) in settings {
        holds(rt, name, set_option(&mut options, name, value));
    }
    options
}

static COUNTS_AND_LIMITS: [(&str, &str); 9] = [
    ("local_port", "1"),
    ("remote_port", "2"),
    ("announced_maximum_incoming_streams", "3"),
    ("announced_maximum_outgoing_streams", "4"),
    ("default_stream_priority", "5"),
    ("max_burst", "-6"),
    ("max_retransmissions", "7"),
    ("max_init_retransmits", "none"),
    ("zero_checksum_alternate_error_detection_method", "9"),
];

#[test]
fn counts_and_limits_are_set_by_their_names(rt: HostRuntime) {
    let options = options_with(&rt, &COUNTS_AND_LIMITS);
    let counts = [
        options.local_port,
        options.remote_port,
        options.announced_maximum_incoming_streams,
        options.announced_maximum_outgoing_streams,
        options.default_stream_priority,
    ];
    same(&rt, "ports, streams and priority", counts, [1, 2, 3, 4, 5]);
    same(&rt, "max_burst", options.max_burst, -6);
    let limits = [options.max_retransmissions, options.max_init_retransmits];
    same(&rt, "limits", limits, [Some(7), None]);
    let method = options.zero_checksum_alternate_error_detection_method.0;
    same(&rt, "the method", method, 9);
}

static SIZES: [(&str, &str); 11] = [
    ("mtu", "101"),
    ("max_message_size", "102"),
    ("max_receiver_window_buffer_size", "103"),
    ("max_send_buffer_size", "104"),
    ("per_stream_send_queue_limit", "105"),
    ("total_buffered_amount_low_threshold", "106"),
    ("default_stream_buffered_amount_low_threshold", "107"),
    ("cwnd_mtus_initial", "108"),
    ("cwnd_mtus_min", "109"),
    ("avoid_fragmentation_cwnd_mtus", "110"),
    ("immediate_sack_under_cwnd_mtus", "111"),
];

#[test]
fn sizes_are_set_by_their_names(rt: HostRuntime) {
    let options = options_with(&rt, &SIZES);
    let sizes = [
        options.mtu,
        options.max_message_size,
        options.max_receiver_window_buffer_size,
        options.max_send_buffer_size,
        options.per_stream_send_queue_limit,
        options.total_buffered_amount_low_threshold,
        options.default_stream_buffered_amount_low_threshold,
        options.cwnd_mtus_initial,
        options.cwnd_mtus_min,
        options.avoid_fragmentation_cwnd_mtus,
        options.immediate_sack_under_cwnd_mtus,
    ];
    let expected = [101, 102, 103, 104, 105, 106, 107, 108, 109, 110, 111];
    same(&rt, "sizes", sizes, expected);
}

static TIMES: [(&str, &str); 12] = [
    ("rtt_max", "1"),
    ("rto_initial", "2"),
    ("rto_max", "3"),
    ("rto_min", "4"),
    ("t1_init_timeout", "5"),
    ("t1_cookie_timeout", "6"),
    ("t2_shutdown_timeout", "7"),
    ("heartbeat_interval", "8"),
    ("delayed_ack_max_timeout", "9"),
    ("min_rtt_variance", "10"),
    ("max_timer_backoff_duration", "11"),
    ("cookie_lifetime", "12"),
];

#[test]
fn times_are_set_by_their_names(rt: HostRuntime) {
    let options = options_with(&rt, &TIMES);
    let times = [
        options.rtt_max,
        options.rto_initial,
        options.rto_max,
        options.rto_min,
        options.t1_init_timeout,
        options.t1_cookie_timeout,
        options.t2_shutdown_timeout,
        options.heartbeat_interval,
        options.delayed_ack_max_timeout,
        options.min_rtt_variance,
        options.cookie_lifetime,
    ];
    let expected = [1, 2, 3, 4, 5, 6, 7, 8, 9, 10, 12].map(Duration::from_millis);
    same(&rt, "times", times, expected);
    let most = Some(Duration::from_millis(11));
    same(
        &rt,
        "the greatest backoff",
        options.max_timer_backoff_duration,
        most,
    );
}

static FLAGS: [(&str, &str); 6] = [
    ("enable_partial_reliability", "true"),
    ("enable_message_interleaving", "true"),
    ("heartbeat_interval_include_rtt", "true"),
    ("disable_checksum_verification", "true"),
    ("enable_handover_with_outstanding_data", "true"),
    ("follow_rfc", "true"),
];

// Clears this flag while all are set: the flags must then be as expected.
fn clears(rt: &impl Abort, name: &str, expected: [bool; 6]) {
    let mut options = options_with(rt, &FLAGS);
    holds(rt, name, set_option(&mut options, name, "false"));
    let flags = [
        options.enable_partial_reliability,
        options.enable_message_interleaving,
        options.heartbeat_interval_include_rtt,
        options.disable_checksum_verification,
        options.enable_handover_with_outstanding_data,
        options.follow_rfc,
    ];
    same(rt, name, flags, expected);
}

// Flags, and how all are where this one alone is cleared.
static CLEARED: [(&str, [bool; 6]); 6] = [
    (
        "enable_partial_reliability",
        [false, true, true, true, true, true],
    ),
    (
        "enable_message_interleaving",
        [true, false, true, true, true, true],
    ),
    (
        "heartbeat_interval_include_rtt",
        [true, true, false, true, true, true],
    ),
    (
        "disable_checksum_verification",
        [true, true, true, false, true, true],
    ),
    (
        "enable_handover_with_outstanding_data",
        [true, true, true, true, false, true],
    ),
    ("follow_rfc", [true, true, true, true, true, false]),
];

#[test]
fn flags_are_set_by_their_names(rt: HostRuntime) {
    for (name, expected) in &CLEARED {
        clears(&rt, name, *expected);
    }
}
