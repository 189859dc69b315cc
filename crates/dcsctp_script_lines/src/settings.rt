//! The options that a script can set, by name and value.
//!
//! A value is a number within the range of its field, `true` or `false`, or `none` if a field may have no
//! value; a time is a number of milliseconds.

ghost use Rattle.std.specs.Prelude.{◌-◌, ◌^◌};
ghost use Rattle.dcsctp_script_lines.specs.Number.{ReadsLimit};
ghost use Rattle.dcsctp_script_lines.specs.Settings.{ReadsTimeLimit, SetsCount, SetsFlag, SetsIfPossible, SetsLimit, SetsMethod, SetsOption, SetsSaidCount, SetsSaidFlag, SetsSaidSize, SetsSaidTime, SetsSize, SetsTime};

use crate::numbers::{limit, number, signed_number};
use dcsctp_types::{Options, ZeroChecksumAlternateErrorDetectionMethod};
use std::time::Duration;

/// Sets the option of this name to this value. False, and nothing is set, if there is no such option or the
/// value isn't one of its type. Whether the options are valid then isn't looked at.
pub fn set_option(options: &mut Options, name: &str, value: &str) -> bool
    ensures { SetsIfPossible (SetsOption name.now value.now) options.old result options.new }
{
    if set_count(options, name, value) {
        return true;
    }
    if set_method(options, name, value) {
        return true;
    }
    if set_size(options, name, value) {
        return true;
    }
    if set_time(options, name, value) {
        return true;
    }
    if set_limit(options, name, value) {
        return true;
    }
    set_flag(options, name, value)
}

// Ports, counts of streams, and the priority.
fn set_count(options: &mut Options, name: &str, value: &str) -> bool
    ensures { SetsIfPossible (SetsSaidCount name.now value.now) options.old result options.new }
{
    match number(value, 0xffff) {
        Some(count) => set_named_count(options, name, count as u16),
        None => false,
    }
}

fn set_named_count(options: &mut Options, name: &str, count: u16) -> bool
    ensures { SetsIfPossible (λ old. SetsCount count old name.now) options.old result options.new }
{
    match name {
        "local_port" => options.local_port = count,
        "remote_port" => options.remote_port = count,
        "announced_maximum_incoming_streams" => options.announced_maximum_incoming_streams = count,
        "announced_maximum_outgoing_streams" => options.announced_maximum_outgoing_streams = count,
        "default_stream_priority" => options.default_stream_priority = count,
        _ => return false,
    }
    true
}

// The alternate error detection method.
fn set_method(options: &mut Options, name: &str, value: &str) -> bool
    ensures { SetsIfPossible (λ old. SetsMethod value.now old name.now) options.old result
        options.new }
{
    match name {
        "zero_checksum_alternate_error_detection_method" => match number(value, 0xffff_ffff) {
            Some(method) => options.zero_checksum_alternate_error_detection_method =
                ZeroChecksumAlternateErrorDetectionMethod(method as u32),
            None => return false,
        },
        _ => return false,
    }
    true
}

// Sizes, thresholds and congestion windows.
fn set_size(options: &mut Options, name: &str, value: &str) -> bool
    ensures { SetsIfPossible (SetsSaidSize name.now value.now) options.old result options.new }
{
    match number(value, u64::MAX) {
        Some(size) => set_named_size(options, name, size as usize),
        None => false,
    }
}

fn set_named_size(options: &mut Options, name: &str, size: usize) -> bool
    ensures { SetsIfPossible (λ old. SetsSize size old name.now) options.old result options.new }
{
    match name {
        "mtu" => options.mtu = size,
        "max_message_size" => options.max_message_size = size,
        "max_receiver_window_buffer_size" => options.max_receiver_window_buffer_size = size,
        "max_send_buffer_size" => options.max_send_buffer_size = size,
        "per_stream_send_queue_limit" => options.per_stream_send_queue_limit = size,
        "total_buffered_amount_low_threshold" => options.total_buffered_amount_low_threshold = size,
        "default_stream_buffered_amount_low_threshold" =>
            options.default_stream_buffered_amount_low_threshold = size,
        "cwnd_mtus_initial" => options.cwnd_mtus_initial = size,
        "cwnd_mtus_min" => options.cwnd_mtus_min = size,
        "avoid_fragmentation_cwnd_mtus" => options.avoid_fragmentation_cwnd_mtus = size,
        "immediate_sack_under_cwnd_mtus" => options.immediate_sack_under_cwnd_mtus = size,
        _ => return false,
    }
    true
}

// Times that are always there.
fn set_time(options: &mut Options, name: &str, value: &str) -> bool
    ensures { SetsIfPossible (SetsSaidTime name.now value.now) options.old result options.new }
{
    match number(value, u64::MAX) {
        Some(millis) => set_named_time(options, name, Duration::from_millis(millis)),
        None => false,
    }
}

fn set_named_time(options: &mut Options, name: &str, time: Duration) -> bool
    ensures { SetsIfPossible (λ old. SetsTime time old name.now) options.old result options.new }
{
    match name {
        "rtt_max" => options.rtt_max = time,
        "rto_initial" => options.rto_initial = time,
        "rto_max" => options.rto_max = time,
        "rto_min" => options.rto_min = time,
        "t1_init_timeout" => options.t1_init_timeout = time,
        "t1_cookie_timeout" => options.t1_cookie_timeout = time,
        "cookie_lifetime" => options.cookie_lifetime = time,
        "t2_shutdown_timeout" => options.t2_shutdown_timeout = time,
        "heartbeat_interval" => options.heartbeat_interval = time,
        "delayed_ack_max_timeout" => options.delayed_ack_max_timeout = time,
        "min_rtt_variance" => options.min_rtt_variance = time,
        _ => return false,
    }
    true
}

// What may be without a limit, and the burst, which may be negative.
fn set_limit(options: &mut Options, name: &str, value: &str) -> bool
    ensures { SetsIfPossible (λ old. SetsLimit value.now old name.now) options.old result
        options.new }
{
    match name {
        "max_burst" => match signed_number(value) {
            Some(burst) => options.max_burst = burst,
            None => return false,
        },
        "max_timer_backoff_duration" => match time_limit(value) {
            Some(longest) => options.max_timer_backoff_duration = longest,
            None => return false,
        },
        "max_retransmissions" => match count_limit(value) {
            Some(most) => options.max_retransmissions = most,
            None => return false,
        },
        "max_init_retransmits" => match count_limit(value) {
            Some(most) => options.max_init_retransmits = most,
            None => return false,
        },
        _ => return false,
    }
    true
}

// A time up to which a timer backs off, or no limit.
fn time_limit(value: &str) -> Option<Option<Duration>>
    ensures { ReadsTimeLimit value.now result }
{
    match limit(value, u64::MAX) {
        Some(Some(millis)) => Some(Some(Duration::from_millis(millis))),
        Some(None) => Some(None),
        None => None,
    }
}

// A number of 32 bits, or no limit.
fn count_limit(value: &str) -> Option<Option<u32>>
    ensures { ReadsLimit value.now (2 ^ 32 - 1) result }
{
    match limit(value, 0xffff_ffff) {
        Some(Some(count)) => Some(Some(count as u32)),
        Some(None) => Some(None),
        None => None,
    }
}

// What is true or false.
fn set_flag(options: &mut Options, name: &str, value: &str) -> bool
    ensures { SetsIfPossible (SetsSaidFlag name.now value.now) options.old result options.new }
{
    match value {
        "true" => set_named_flag(options, name, true),
        "false" => set_named_flag(options, name, false),
        _ => false,
    }
}

fn set_named_flag(options: &mut Options, name: &str, flag: bool) -> bool
    ensures { SetsIfPossible (λ old. SetsFlag flag old name.now) options.old result options.new }
{
    match name {
        "enable_partial_reliability" => options.enable_partial_reliability = flag,
        "enable_message_interleaving" => options.enable_message_interleaving = flag,
        "heartbeat_interval_include_rtt" => options.heartbeat_interval_include_rtt = flag,
        "disable_checksum_verification" => options.disable_checksum_verification = flag,
        "enable_handover_with_outstanding_data" => options.enable_handover_with_outstanding_data =
            flag,
        "follow_rfc" => options.follow_rfc = flag,
        _ => return false,
    }
    true
}
