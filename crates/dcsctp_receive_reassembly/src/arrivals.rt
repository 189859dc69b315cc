//! The inputs of the reassembly queue: data chunks and skipped messages, by their meaning.

ghost use Rattle.std.specs.Prelude.{◌≡◌, IfOk};
ghost use Rattle.dcsctp_receive_reassembly.specs.Streams.{chunk_of};

use dcsctp_api::types::Numbering;
use dcsctp_api::{PpId, StreamId};
use std::alloc::{AllocError, Global};

/// What a DATA or I-DATA chunk carries: a message or a part of one.
#[derive(Debug, Drop)]
pub struct Data {
    /// The stream that the message goes by.
    pub stream_id: StreamId,

    /// Which message, and which part of it.
    pub numbering: Numbering,

    /// The protocol of the payload. For I-DATA it counts only in the first part.
    pub ppid: PpId,

    /// The bytes. They aren't empty.
    pub payload: Vec<u8>,

    /// B: is it the first part of its message?
    pub is_beginning: bool,

    /// E: is it the last part of its message?
    pub is_end: bool,
}

impl Data {
    /// A copy of it.
    pub fn copied(&self, alloc: Global) -> Result<Data, AllocError>
        ensures { IfOk result (λ copy. chunk_of copy ≡ chunk_of self.now) }
    {
        Ok(Data {
            stream_id: self.stream_id,
            numbering: self.numbering,
            ppid: self.ppid,
            payload: Vec::from_slice(alloc, self.payload.as_slice())?,
            is_beginning: self.is_beginning,
            is_end: self.is_end,
        })
    }
}
