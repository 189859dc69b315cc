//! Which TSNs were received, and when that is acknowledged: the types that `DataTracker` and its definition
//! share.

/// TSNs in a row, by number: all from the first to the last.
#[derive(Clone, Copy, Debug, Drop)]
pub struct TsnRange {
    /// The first.
    pub first: u64,

    /// The last, which is the first or comes after it.
    pub last: u64,
}

/// When the data that was received is acknowledged (RFC 9260, section 6.2).
#[derive(Clone, Copy, Debug, PartialEq, Eq)]
pub enum AckState {
    /// All is acknowledged.
    Idle,

    /// Data was received with the packet that is being handled; it may be acknowledged later.
    BecomingDelayed,

    /// A packet with data waits to be acknowledged, and the timer runs.
    Delayed,

    /// The next SACK is due at once.
    Immediate,
}
