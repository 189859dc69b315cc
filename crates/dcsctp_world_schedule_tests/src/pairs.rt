//! The options of two sockets.

use dcsctp_world::socket::{Options, ZeroChecksumAlternateErrorDetectionMethod};
use std::time::Duration;

/// Those of A and of B.
#[derive(Clone, Copy)]
pub struct Both {
    pub name: &'static str,
    pub a: Options,
    pub b: Options,
}

// A method of zero checksum.
fn method(number: u32) -> ZeroChecksumAlternateErrorDetectionMethod {
    ZeroChecksumAlternateErrorDetectionMethod(number)
}

/// All as by default.
pub fn plain() -> Both {
    Both {
        name: "plain",
        a: Options::default(),
        b: Options::default(),
    }
}

/// Other numbers of streams, and methods of zero checksum that aren't the same.
pub fn unlike() -> Both {
    let mut a = Options::default();
    a.announced_maximum_incoming_streams = 7;
    a.announced_maximum_outgoing_streams = 300;
    a.zero_checksum_alternate_error_detection_method = method(1);
    let mut b = Options::default();
    b.announced_maximum_incoming_streams = 20;
    b.announced_maximum_outgoing_streams = 9;
    b.zero_checksum_alternate_error_detection_method = method(2);
    Both {
        name: "unlike",
        a,
        b,
    }
}

/// Message interleaving at both, and one method of zero checksum.
pub fn interleaved() -> Both {
    let mut options = Options::default();
    options.enable_message_interleaving = true;
    options.zero_checksum_alternate_error_detection_method = method(1);
    Both {
        name: "interleaved",
        a: options,
        b: options,
    }
}

/// Extensions that one end alone has, and a handover of A whatever waits.
pub fn one_sided() -> Both {
    let mut a = Options::default();
    a.enable_partial_reliability = false;
    a.enable_handover_with_outstanding_data = true;
    let mut b = Options::default();
    b.enable_message_interleaving = true;
    b.zero_checksum_alternate_error_detection_method = method(1);
    Both {
        name: "one-sided",
        a,
        b,
    }
}

/// Small packets, few at once, and little patience at A; no heartbeats at B.
pub fn narrow() -> Both {
    let mut a = Options::default();
    a.mtu = 128;
    a.max_burst = 1;
    a.max_retransmissions = Some(2);
    a.max_init_retransmits = Some(1);
    a.heartbeat_interval = Duration::from_secs(5);
    let mut b = Options::default();
    b.mtu = 200;
    b.max_burst = 2;
    b.cwnd_mtus_initial = 1;
    b.heartbeat_interval = Duration::from_secs(0);
    b.max_receiver_window_buffer_size = 10_000;
    Both {
        name: "narrow",
        a,
        b,
    }
}

/// The same options, and T1 always restarts.
pub fn patient(both: Both) -> Both {
    let mut a = both.a;
    a.max_init_retransmits = None;
    let mut b = both.b;
    b.max_init_retransmits = None;
    let name = both.name;
    Both { name, a, b }
}

/// The same options with `follow_rfc` at both ends.
pub fn by_rfc(mut both: Both) -> Both {
    both.a.follow_rfc = true;
    both.b.follow_rfc = true;
    both
}
