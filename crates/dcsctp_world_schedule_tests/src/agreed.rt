//! What two ends agree on, by their options: a formula of this crate alone.

use dcsctp_world::socket::{Capabilities, Options};

/// Partial reliability, message interleaving, stream re-configuration, the method of zero checksum, incoming
/// streams and outgoing streams.
pub type Agreed = [u32; 6];

/// What an end shows of it.
pub fn shown(capabilities: &Capabilities) -> Agreed {
    [
        u32::from(capabilities.partial_reliability),
        u32::from(capabilities.message_interleaving),
        u32::from(capabilities.reconfig),
        capabilities.zero_checksum_method.0,
        u32::from(capabilities.negotiated_maximum_incoming_streams),
        u32::from(capabilities.negotiated_maximum_outgoing_streams),
    ]
}

// Each extension is used if both have it.
fn both(mine: bool, theirs: bool) -> u32 {
    u32::from(mine && theirs)
}

// The method of both, or none (RFC 9653, section 5.1).
fn method(mine: &Options, theirs: &Options) -> u32 {
    let method = mine.zero_checksum_alternate_error_detection_method.0;
    if method == theirs.zero_checksum_alternate_error_detection_method.0 {
        method
    } else {
        0
    }
}

// No more streams than one end sends on and the other receives on (RFC 9260, section 5.1.1).
fn streams(sends: u16, receives: u16) -> u32 {
    u32::from(sends.min(receives))
}

/// What an end agrees on with a peer. Each end can reset streams.
pub fn agreed(mine: &Options, theirs: &Options) -> Agreed {
    [
        both(
            mine.enable_partial_reliability,
            theirs.enable_partial_reliability,
        ),
        both(
            mine.enable_message_interleaving,
            theirs.enable_message_interleaving,
        ),
        1,
        method(mine, theirs),
        streams(
            theirs.announced_maximum_outgoing_streams,
            mine.announced_maximum_incoming_streams,
        ),
        streams(
            mine.announced_maximum_outgoing_streams,
            theirs.announced_maximum_incoming_streams,
        ),
    ]
}
