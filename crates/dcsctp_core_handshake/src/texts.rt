//! The texts of events.

/// An INIT ACK has no state cookie.
pub(crate) const NO_COOKIE: &str = "InitAck chunk doesn't contain a cookie";

/// A COOKIE ECHO is neither of the existing association nor of one that could be made.
pub(crate) const INVALID_TAG: &str = "Received CookieEcho with invalid verification tag";

/// The cookie of a COOKIE ECHO that would make an association is older than its lifetime.
pub(crate) const STALE: &str = "Stale state cookie";

/// No INIT ACK has come, however often the INIT was sent.
pub(crate) const NO_INIT_ACK: &str = "No INIT_ACK received";

/// No COOKIE ACK has come, however often the COOKIE ECHO was sent.
pub(crate) const NO_COOKIE_ACK: &str = "No COOKIE_ACK received";

/// A restart is refused, since a SHUTDOWN ACK waits for its answer.
pub(crate) const SHUTTING_DOWN: &str = "Received COOKIE-ECHO while shutting down";
