//! The texts of events.

/// The bytes are no packet.
pub(crate) const UNREADABLE: &str = "Failed to parse SCTP packet";
