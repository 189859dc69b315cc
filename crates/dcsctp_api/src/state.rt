//! What a user sees of the state of a socket.

/// The state of a socket.
#[derive(Debug, PartialEq, Drop)]
pub enum SocketState {
    /// There is no association.
    Closed,

    /// This end has begun an association, and the peer has not confirmed it yet. An association that the peer
    /// begins skips this state, and so does one that is restarted.
    Connecting,

    /// There is an association, and both ends may send.
    Connected,

    /// The association is being ended in an orderly way.
    ShuttingDown,
}
