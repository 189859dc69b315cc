//! ABORT (RFC 9260, section 3.3.7) and ERROR (RFC 9260, section 3.3.10).

use crate::cause::ErrorCause;

/// What an ABORT says: its T bit, the lowest of the flags, and its value, which is error causes.
#[derive(Debug, Drop)]
pub struct AbortChunk<'a> {
    /// The T bit: does the packet carry the tag of the packets that its sender got?
    pub tag_reflected: bool,

    /// Why, in their order.
    pub error_causes: Vec<ErrorCause<'a>>,
}

/// What an ERROR says: its value is error causes.
#[derive(Debug, Drop)]
pub struct ErrorChunk<'a> {
    /// What was wrong, in their order.
    pub error_causes: Vec<ErrorCause<'a>>,
}
