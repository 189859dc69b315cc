//! DATA (RFC 9260, section 3.3.1) and I-DATA (RFC 8260, section 2.1) that are received.

ghost use Rattle.std.specs.Prelude.{◌≡◌};
ghost use Rattle.dcsctp_core.specs.wire.Content.{data_content, i_data_content};
ghost use Rattle.dcsctp_core.specs.spec.queues.Arrivals.{data_arrival, i_data_arrival};
ghost use Rattle.dcsctp_core.specs.Handling.{TakesOne};
ghost use Rattle.dcsctp_core_data.specs.Data.{part_arrival, ReceivesDataChunk};

use crate::refusal::{refuse_empty, report_not_connected};
use dcsctp_core::Context;
use dcsctp_core::api::{PpId, StreamId};
use dcsctp_core::transfer::{Data, Numbering};
use dcsctp_core::wire::{DataChunk, IDataChunk};
use rand_core::Rng;
use std::alloc::AllocError;

/// What a DATA or an I-DATA chunk carries: a part of a message under its TSN.
#[derive(Clone, Copy, Debug)]
pub struct DataPart<'a> {
    /// The TSN.
    pub tsn: u32,

    /// The I flag: is it to be acknowledged at once?
    pub immediate_ack: bool,

    /// The stream.
    pub stream_id: StreamId,

    /// How the parts of the message, and the messages of the stream, are put in order.
    pub numbering: Numbering,

    /// The protocol of the message. A later part of an I-DATA message has none, for which this is 0.
    pub ppid: PpId,

    /// The bytes.
    pub payload: &'a [u8],

    /// The B flag: is it the first part of the message?
    pub is_beginning: bool,

    /// The E flag: is it the last part of the message?
    pub is_end: bool,
}

impl<'a> DataPart<'a> {
    /// What a DATA chunk carries.
    pub fn of_data(chunk: &DataChunk<'a>) -> DataPart<'a>
        ensures { part_arrival result ≡ data_arrival (data_content chunk.now) }
    {
        let numbering = if chunk.flags.is_unordered {
            Numbering::Unordered
        } else {
            Numbering::Ordered { ssn: chunk.ssn }
        };
        DataPart {
            tsn: chunk.tsn,
            immediate_ack: chunk.flags.immediate_ack,
            stream_id: StreamId(chunk.stream_id),
            numbering,
            ppid: PpId(chunk.ppid),
            payload: chunk.payload,
            is_beginning: chunk.flags.is_beginning,
            is_end: chunk.flags.is_end,
        }
    }

    /// What an I-DATA chunk carries. Its first part names the protocol, and has the fragment number 0.
    pub fn of_i_data(chunk: &IDataChunk<'a>) -> DataPart<'a>
        ensures { part_arrival result ≡ i_data_arrival (i_data_content chunk.now) }
    {
        let mid = chunk.mid;
        let (ppid, fsn) = if chunk.flags.is_beginning {
            (chunk.ppid_or_fsn, 0)
        } else {
            (0, chunk.ppid_or_fsn)
        };
        let numbering = if chunk.flags.is_unordered {
            Numbering::InterleavedUnordered { mid, fsn }
        } else {
            Numbering::InterleavedOrdered { mid, fsn }
        };
        DataPart {
            tsn: chunk.tsn,
            immediate_ack: chunk.flags.immediate_ack,
            stream_id: StreamId(chunk.stream_id),
            numbering,
            ppid: PpId(ppid),
            payload: chunk.payload,
            is_beginning: chunk.flags.is_beginning,
            is_end: chunk.flags.is_end,
        }
    }
}

/// Handles DATA or I-DATA: it is stored, and acknowledged when the packet ends (RFC 9260, section 6.2; RFC
/// 8260, section 2.2.3). Data without a payload is reported to the user and to the peer, and data without an
/// association to the user.
///
/// `Err`: an allocation failed; the first of its events may already have been added.
pub fn handle_data<R: Rng>(context: &mut Context<R>, part: DataPart<'_>) -> Result<(), AllocError>
    ensures { TakesOne R.stream (ReceivesDataChunk (part_arrival part.entry)) context.old result
        context.new }
{
    if part.payload.is_empty() {
        return refuse_empty(context, part.tsn);
    }
    let Some(tcb) = context.state.tcb_mut() else {
        return report_not_connected(context);
    };
    let payload = Vec::from_slice(context.alloc, part.payload)?;
    let data = Data {
        stream_id: part.stream_id,
        numbering: part.numbering,
        ppid: part.ppid,
        payload,
        is_beginning: part.is_beginning,
        is_end: part.is_end,
    };
    tcb.transfer
        .receive_data(part.tsn, part.immediate_ack, data)
}
