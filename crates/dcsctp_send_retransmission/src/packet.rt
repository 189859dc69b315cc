//! What goes into one packet.

/// The TSNs that go into one packet, and the room that is left there.
#[derive(Drop)]
pub struct Packet {
    /// The TSNs, in the order of their chunks.
    pub tsns: Vec<u32>,

    /// The bytes that are left.
    pub room: usize,
}
