//! What data that is received is put in order by, and what it leads to.

use crate::ids::StreamId;

/// How the chunks of messages are identified and put in order.
#[derive(Clone, Copy, Debug, PartialEq, Eq)]
pub enum Numbering {
    /// DATA of an ordered message: its stream sequence number. The parts go by their TSNs
    /// (RFC 9260, section 3.3.1).
    Ordered { ssn: u16 },

    /// DATA of an unordered message. The parts go by their TSNs (RFC 9260, section 6.6).
    Unordered,

    /// I-DATA of an ordered message: its message identifier, and the number of the part
    /// (RFC 8260, section 2.1).
    InterleavedOrdered { mid: u32, fsn: u32 },

    /// I-DATA of an unordered message.
    InterleavedUnordered { mid: u32, fsn: u32 },
}

/// A stream on which messages are skipped, up to a number (RFC 3758, section 3.2; RFC 8260, section
/// 2.3.1).
#[derive(Clone, Copy, Debug, PartialEq, Eq)]
pub enum SkippedTo {
    /// The ordered messages up to this stream sequence number.
    Ssn {
        stream_id: StreamId,
        ssn: u16,
    },

    /// The ordered or the unordered messages up to this message identifier.
    Mid {
        stream_id: StreamId,
        is_unordered: bool,
        mid: u32,
    },
}

/// What a part of a message led to.
#[derive(Clone, Copy)]
pub struct Taken {
    /// How many of its bytes are kept.
    pub kept_bytes: usize,

    /// How many messages became ready.
    pub ready: usize,
}
