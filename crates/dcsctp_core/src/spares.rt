//! Memory of packets that were sent. Functions take it, since a contract sees the events alone: with a field of theirs
//! borrowed, what it says of them would be out of sight.

use dcsctp_transfer::api::Events;

/// Memory for a packet, with bytes of an earlier one. It has no room if none is kept. Allocates nothing.
#[inline(always)]
pub fn take_spare(events: &Events) -> Vec<u8> {
    events.spares.take()
}

/// Keeps the memory of a packet that was sent, or frees it. Allocates nothing.
#[inline(always)]
pub fn keep_spare(events: &Events, packet: Vec<u8>) {
    events.spares.keep(packet);
}

/// Frees all that is kept.
pub fn free_spares(events: &Events) {
    events.spares.free();
}
