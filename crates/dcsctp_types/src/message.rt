//! Messages, and how they are to be sent.

ghost use Rattle.std.specs.Prelude.{◌≡◌, map, IfOk};
ghost use Rattle.dcsctp_types.specs.queues.Messages.{message_content};

use crate::ids::{LifecycleId, PpId, StreamId};
use std::alloc::AllocError;
use std::time::Duration;

/// How a message is to be sent. By default it is sent in order and until it is acknowledged, and no
/// events follow it.
#[derive(Clone, Copy, Debug, Default, PartialEq, Eq)]
pub struct SendOptions {
    /// The peer may be given the message out of order.
    pub unordered: bool,

    /// A message that isn't acknowledged after this time is abandoned. It needs partial reliability (RFC
    /// 3758) at both ends.
    pub lifetime: Option<Duration>,

    /// A message that would be sent again more often than this is abandoned. It needs partial reliability
    /// (RFC 3758) at both ends.
    pub max_retransmissions: Option<u16>,

    /// The name under which events report what becomes of the message. `None`: there are no such events.
    pub lifecycle_id: Option<LifecycleId>,
}

/// Bytes that are sent and received as a whole.
#[derive(Clone, Debug, PartialEq, Eq, Drop)]
pub struct Message {
    /// The stream that it goes by.
    pub stream_id: StreamId,

    /// The protocol of the payload.
    pub ppid: PpId,

    /// The bytes.
    pub payload: Vec<u8>,
}

impl Message {
    /// A message that says the same.
    pub fn copied(&self) -> Result<Message, AllocError>
        ensures { IfOk result (λ copy. message_content copy ≡ message_content self.now) }
    {
        self.clone()
    }

    /// The message of these three parts.
    pub fn new(stream_id: StreamId, ppid: PpId, payload: Vec<u8>) -> Message
        ensures stream { result.stream_id ≡ stream_id }
        ensures protocol { result.ppid ≡ ppid }
        ensures bytes { result.payload ≡ payload }
    {
        Message {
            stream_id,
            ppid,
            payload,
        }
    }
}

/// Messages that say the same.
pub fn copied_messages(messages: &Vec<Message>) -> Result<Vec<Message>, AllocError>
    ensures { IfOk result (λ copies. map message_content copies.items ≡ map message_content
        messages.now.items) }
{
    let mut copies = Vec::with_capacity(*messages.allocator(), messages.len())?;
    for message in messages {
        copies.push(message.copied()?)?;
    }
    Ok(copies)
}
