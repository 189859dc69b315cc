//! The types that the table is over.

/// How long a message of a channel is sent again (RFC 8832, section 5.1).
#[derive(Clone, Copy, Debug, PartialEq, Eq)]
pub enum Reliability {
    /// Until it is acknowledged.
    Reliable,

    /// At most so often after the first time.
    Retransmissions(u32),

    /// For so many milliseconds.
    Lifetime(u32),
}

/// How the messages of a channel are sent, in both directions (RFC 8832, section 5.1).
#[derive(Clone, Copy, Debug, PartialEq, Eq)]
pub struct Delivery {
    /// Are they read in the order in which they were sent?
    pub ordered: bool,

    /// How long each is sent again.
    pub reliability: Reliability,

    /// 128, 256, 512 or 1,024 by the RFC, the greater first; any other number is allowed (RFC 8831, section 6.4).
    pub priority: u16,
}

/// An end's role in DTLS, by which both know who gives which streams (RFC 8832, section 6).
#[derive(Clone, Copy, Debug, PartialEq, Eq)]
pub enum Role {
    /// It gives the even streams.
    Client,

    /// It gives the odd streams.
    Server,
}

/// Why a channel is over.
#[derive(Clone, Copy, Debug, PartialEq, Eq)]
pub enum ChannelEnd {
    /// Both ends have reset its stream (RFC 8831, section 6.7).
    Closed,

    /// The same, and no ACK and no message had come: the peer has refused it.
    Refused,

    /// The peer doesn't reset the stream. The stream is never given again.
    ResetRefused,

    /// The association has ended, or was restarted by the peer.
    Lost,

    /// There is no stream for it.
    NoStream,
}

/// How far the reset of an end's own outgoing stream is (RFC 8831, section 6.7).
#[derive(Clone, Copy, Debug, PartialEq, Eq)]
pub enum OwnReset {
    /// It isn't asked for.
    NotAsked,

    /// It is asked for, and the peer hasn't answered.
    Asked,

    /// The peer has performed it.
    Performed,

    /// It was refused too often, or can't be asked for.
    GivenUp,
}

/// A stream in use.
#[derive(Clone, Copy, Debug, PartialEq, Eq)]
pub struct StreamUse {
    /// The channel, by its name at this end. There is none if this end refuses the peer's use of the stream, or
    /// has reported the channel's end.
    pub name: Option<u64>,

    /// Does the peer know the channel? Its OPEN, its ACK or a message has come, or both agreed on the channel
    /// beforehand.
    pub heard: bool,

    /// Must an ACK still be sent?
    pub owes_ack: bool,

    /// Has an end closed it, or is it refused?
    pub closing: bool,

    /// How far the reset of the own stream is.
    pub own: OwnReset,

    /// Has the peer reset its stream?
    pub peer_reset: bool,

    /// Is a request of the channel before, on the same stream, not answered yet? A second one would be taken for
    /// it.
    pub awaits_answer: bool,

    /// How often the peer has refused the reset.
    pub refusals: u8,
}
