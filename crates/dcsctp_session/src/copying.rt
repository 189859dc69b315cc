//! Copying between buffers of the caller's and the socket's types.

ghost use Rattle.std.specs.Prelude.{◌≡◌, IfOk, Some};
ghost use Rattle.dcsctp_core.specs.types.Ids.{stream_numbers};
ghost use Rattle.dcsctp_session.specs.Copying.{Copies, ShowsPlace, IsFront};

use crate::status::Status;
use dcsctp_socket::StreamId;
use std::alloc::{AllocError, Global};

/// Copies bytes to the front of a buffer, and says how many there are.
pub fn copy_bytes(bytes: &[u8], buffer: &mut [u8], length: &mut usize) -> Status
    ensures { Copies bytes.now buffer.old result buffer.new length.new }
{
    *length = bytes.len();
    if buffer.len() < bytes.len() {
        return Status::BufferTooSmall;
    }
    let (front, _) = buffer.split_at_mut(bytes.len());
    front.copy_from_slice(bytes);
    Status::Done
}

// Copies the numbers of streams to the front of a buffer, and says how many there are.
pub(crate) fn copy_streams(ids: &[StreamId], buffer: &mut [u16], count: &mut usize) -> Status
    ensures { Copies (stream_numbers ids.now) buffer.old result buffer.new count.new }
{
    *count = ids.len();
    if buffer.len() < ids.len() {
        return Status::BufferTooSmall;
    }
    for (i, id) in ids.iter().enumerate() {
        buffer[i] = id.0;
    }
    Status::Done
}

/// Says where bytes lie, and how many there are.
pub fn show_place(found: &Vec<u8>, bytes: &mut *const u8, length: &mut usize) -> Status
    ensures { ShowsPlace (Some found.now) bytes.old result bytes.new length.new }
{
    *bytes = found.as_ptr();
    *length = found.len();
    Status::Done
}

// The payload of a message; of one that is longer than `limit` that many bytes and one more.
pub(crate) fn front(payload: &[u8], limit: usize) -> &[u8]
    ensures { IsFront limit payload.now result.now }
{
    payload.get(..limit.saturating_add(1)).unwrap_or(payload)
}

// The streams of these numbers.
pub(crate) fn stream_ids(alloc: Global, numbers: &[u16]) -> Result<Vec<StreamId>, AllocError>
    ensures { IfOk result (λ ids. stream_numbers ids.items ≡ numbers.now) }
{
    let mut ids = Vec::with_capacity(alloc, numbers.len())?;
    for number in numbers {
        ids.push(StreamId(*number))?;
    }
    Ok(ids)
}
