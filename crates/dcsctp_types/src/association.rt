//! What a socket shows of its association (RFC 9260, sections 4 and 5).

use crate::capabilities::Capabilities;
use dcsctp_wire::ReconfigurationResponseResult;

/// A verification tag with the first TSN that goes with it: one end of an association.
#[derive(Clone, Copy, Debug, PartialEq, Eq)]
pub struct Pair {
    /// The tag in the common header of packets to this end; not 0.
    pub tag: u32,

    /// The TSN of the first data that this end sends.
    pub first_tsn: u32,
}

/// The state of an association (RFC 9260, section 4). A closed socket has none.
#[derive(Clone, Copy, Debug, PartialEq, Eq)]
pub enum Phase {
    /// An INIT ACK is awaited.
    CookieWait,

    /// A COOKIE ACK is awaited.
    CookieEchoed,

    /// The handshake is over at this end.
    Established,

    /// This end wants to shut down and waits until its data is acknowledged.
    ShutdownPending,

    /// A SHUTDOWN was sent.
    ShutdownSent,

    /// A SHUTDOWN was received, and data that was sent is not acknowledged yet.
    ShutdownReceived,

    /// A SHUTDOWN ACK was sent.
    ShutdownAckSent,
}

/// What an end knows of an association once it has a peer.
#[derive(Clone, Copy, Debug)]
pub struct Held {
    /// The peer's pair.
    pub peer: Pair,

    /// What both ends support.
    pub capabilities: Capabilities,

    /// The number of its next request to reset streams (RFC 6525, section 4.1).
    pub own_next: u32,

    /// The number of its own request that has no final answer yet.
    pub own_outstanding: Option<u32>,

    /// The number of the last request of the peer that was accepted; before any, its first TSN less 1.
    pub peer_last: u32,

    /// The answer to that request.
    pub peer_result: ReconfigurationResponseResult,
}

/// The association of a socket that isn't closed.
#[derive(Clone, Copy, Debug)]
pub struct Association {
    /// Its state.
    pub phase: Phase,

    /// Its own pair.
    pub my: Pair,

    /// The rest, once a peer is known: in every phase but CookieWait.
    pub held: Option<Held>,
}
