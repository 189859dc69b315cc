//! Streams that messages are sent by: the types that the send queue and its definition share.

ghost use Rattle.std.specs.Prelude.{◌≡◌};
ghost use Rattle.dcsctp_types.specs.queues.SendStreams.{comes_after, is_asked_later};

use crate::ids::StreamId;

/// May a stream begin another message?
#[derive(Clone, Copy, Debug, PartialEq, Eq)]
pub enum Pause {
    /// It may.
    Open,

    /// It is to be reset (RFC 6525, section 5.1.2), as soon as none of its messages is under way.
    Pausing,

    /// It was handed out to be reset, and waits for the outcome.
    HandedOut,
}

/// How far the message under way has come. It was started, and isn't fully sent.
#[derive(Clone, Copy, Debug)]
pub struct UnderWay {
    pub stream_id: StreamId,
    pub ssn: u16,
    pub mid: u32,
    pub next_fsn: u32,

    /// How many of its bytes were sent.
    pub sent: usize,
}

/// The place of a stream in the order in which streams are asked for a message: by priority, the greatest
/// first, then by their last turn, the oldest first, and then by number, the least first.
#[derive(Clone, Copy, Debug, PartialEq, Eq)]
pub struct Turn {
    pub priority: u16,

    /// Which turn it had last, counted from 1; 0 if it had none, or if streams don't take turns.
    pub last_turn: u64,

    pub stream_id: StreamId,
}

impl Turn {
    // Of equal priority, is this stream asked after the other?
    fn is_later(self, other: Turn) -> bool
        ensures { result ≡ is_asked_later self other }
    {
        other.last_turn < self.last_turn
            || (self.last_turn == other.last_turn && other.stream_id.0 < self.stream_id.0)
    }

    /// Is this stream asked after the other?
    pub fn comes_after(self, other: Turn) -> bool
        ensures { result ≡ comes_after self other }
    {
        self.priority < other.priority || (self.priority == other.priority && self.is_later(other))
    }
}
