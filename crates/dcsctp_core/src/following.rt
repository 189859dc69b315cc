//! What follows a chunk in its packet.

/// What follows a chunk in its packet, once it had its turn.
#[derive(Clone, Copy, Debug, PartialEq, Eq)]
pub enum Following {
    /// The next chunk has its turn.
    NextChunk,

    /// No other chunk has its turn, and the packet ends.
    PacketEnd,

    /// The rest of the packet is dropped, and so is its end.
    DroppedRest,
}
