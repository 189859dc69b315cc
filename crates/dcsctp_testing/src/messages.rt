//! The messages of an exchange. No two of them have the same size, so their bytes go by it.

use dcsctp_api::{LifecycleId, Message, PpId, SendOptions, StreamId};
use std::alloc::{AllocError, Global};
use std::time::Duration;

/// How a message is sent. One with a name is followed by events.
#[derive(Clone, Copy)]
pub enum How {
    /// In order, until it is acknowledged.
    Plain,

    /// The same, under this name.
    Named(u64),

    /// The peer may be given it out of order.
    Unordered,

    /// It isn't sent again. It has this name.
    SentOnce(u64),

    /// It is sent again for that many milliseconds. It has this name.
    Lives(u64, u64),
}

/// The options that say so.
pub fn options(how: How) -> SendOptions {
    let mut options = SendOptions::default();
    match how {
        How::Plain => {}
        How::Named(name) => options.lifecycle_id = LifecycleId::new(name),
        How::Unordered => options.unordered = true,
        How::SentOnce(name) => {
            options.max_retransmissions = Some(0);
            options.lifecycle_id = LifecycleId::new(name);
        }
        How::Lives(millis, name) => {
            options.lifetime = Some(Duration::from_millis(millis));
            options.lifecycle_id = LifecycleId::new(name);
        }
    }
    options
}

// The byte at a place of the message of a size. Bytes of two fragments at the same place of them differ, since 1,160
// is no multiple of 251.
fn byte_at(size: usize, place: usize) -> u8 {
    (size.wrapping_mul(31).wrapping_add(place) % 251) as u8
}

/// The message of a size, on this stream. The size is its protocol, too.
pub fn message(alloc: Global, stream: u16, size: u16) -> Result<Message, AllocError> {
    let len = usize::from(size);
    let mut payload = Vec::with_capacity(alloc, len)?;
    for place in 0..len {
        payload.push(byte_at(len, place))?;
    }
    Ok(Message::new(StreamId(stream), PpId(u32::from(size)), payload))
}

/// Is it the message of this stream and size, whole?
pub fn is_message(found: &Message, expected: Option<&(u16, u16)>) -> bool {
    let Some((stream, size)) = expected else {
        return false;
    };
    let len = usize::from(*size);
    for place in 0..len {
        match found.payload.get(place) {
            Some(byte) if *byte == byte_at(len, place) => {}
            Some(_) | None => return false,
        }
    }
    found.payload.len() == len
        && found.stream_id == StreamId(*stream)
        && found.ppid == PpId(u32::from(*size))
}
