//! What leaves a send queue.

use dcsctp_api::{LifecycleId, PpId, SocketTime, StreamId};
use std::marker::Model;

/// A fragment of a message, which is sent as one DATA chunk (RFC 9260, section 3.3.1) or I-DATA chunk (RFC
/// 8260, section 2.1).
///
/// A contract sees it with its payload as a list, and its moment in nanoseconds.
#[derive(Debug, Drop)]
pub struct DataToSend {
    /// Counts the messages of the queue in the order in which they were added, from 0. It names the
    /// message for `discard`.
    pub message_id: u64,

    /// The stream that it goes by.
    pub stream_id: StreamId,

    /// The stream sequence number; 0 for an unordered message.
    pub ssn: u16,

    /// The message identifier, which ordered and unordered messages of a stream count apart.
    pub mid: u32,

    /// The fragments of the message that came before this one.
    pub fsn: u32,

    /// The protocol of the payload.
    pub ppid: PpId,

    /// May the peer be given the message out of order?
    pub is_unordered: bool,

    /// Is it the first fragment?
    pub is_beginning: bool,

    /// Is it the last fragment?
    pub is_end: bool,

    /// The bytes of the fragment, of which there is one at least.
    pub payload: Vec<u8>,

    /// How often the message may be sent again; none: there is no limit.
    pub max_retransmissions: Option<u16>,

    /// The moment after which the message is abandoned; none: it never is.
    pub expires_at: Option<SocketTime>,

    /// The id by which events report what becomes of the message.
    pub lifecycle_id: Option<LifecycleId>,
}

impl Model for DataToSend {
    ghost use Rattle.std.specs.Option.{option_map};
    ghost use Rattle.dcsctp_api.specs.types.Ids.{lifecycle_number};
    ghost use Rattle.dcsctp_api.specs.spec.queues.Sending.{Fragment};

    ghost Value = { Fragment };

    ghost view = { λ part. record {
      message_id = part.message_id;
      stream = part.stream_id.0;
      ssn = part.ssn;
      mid = part.mid;
      fsn = part.fsn;
      ppid = part.ppid.0;
      is_unordered = part.is_unordered;
      is_beginning = part.is_beginning;
      is_end = part.is_end;
      payload = part.payload.items;
      max_retransmissions = part.max_retransmissions;
      expires_at = part.expires_at;
      lifecycle = option_map lifecycle_number part.lifecycle_id;
    } };
}
