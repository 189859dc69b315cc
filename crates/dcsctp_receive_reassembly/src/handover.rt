//! What a snapshot has of the streams on which messages were received, and the streams that are made from it.

ghost use Rattle.std.specs.Prelude.{◌≡◌, ℕ, ◌≤◌, map, [], ◌∷◌, IfOk, OnOk};
ghost use Rattle.dcsctp_api.specs.spec.queues.Incoming.{stream_on};
ghost use Rattle.dcsctp_api.specs.spec.queues.IncomingStreams.{streams_used};
ghost use Rattle.dcsctp_api.specs.spec.queues.ReceivedParts.{ordered_stream, restored_stream};
ghost use Rattle.dcsctp_receive_reassembly.specs.Handover.{restored_over};
ghost use Rattle.dcsctp_receive_reassembly.specs.Reassembly.{entry_of};
ghost use Rattle.dcsctp_receive_reassembly.specs.Streams.{stream_model};

use crate::stream::{FIRST_NUMBER, Stream};
use dcsctp_api::StreamId;
use dcsctp_api::types::HandoverOrderedStream;
use std::alloc::{AllocError, Global};
use std::collections::BTreeMap;

// What a snapshot has of a stream.
fn ordered_stream(id: u16, stream: &Stream) -> HandoverOrderedStream
    ensures { result ≡ ordered_stream id (stream_model stream.now) }
{
    HandoverOrderedStream {
        id,
        next_ssn: (stream.next % 0x1_0000_0000) as u32,
    }
}

/// What a snapshot has of the streams, in the order of their identifiers. `Err`: an allocation failed.
pub fn ordered_streams(
    alloc: Global,
    streams: &BTreeMap<u16, Stream>,
) -> Result<Vec<HandoverOrderedStream>, AllocError>
    ensures { IfOk result
        (λ list. list.items
        ≡ map (λ entry. ordered_stream entry.0 entry.1) (map entry_of streams.now.entries)) }
{
    let mut list = Vec::with_capacity(alloc, streams.len())?;
    for (id, stream) in streams.iter() {
        list.push(ordered_stream(*id, stream))?;
    }
    Ok(list)
}

// The stream of a snapshot: its next ordered message has the number that the snapshot gives.
fn restored_stream(alloc: Global, state: &HandoverOrderedStream) -> Stream
    ensures { stream_model result ≡ restored_stream state.now.id (state.now ∷ []) }
{
    let mut stream = Stream::new(alloc, StreamId(state.id));
    stream.next = FIRST_NUMBER + u64::from(state.next_ssn);
    stream
}

// Puts a stream of the snapshot among the others, or in the place of the one that has its identifier. `Err`:
// an allocation failed.
fn put_stream(
    alloc: Global,
    streams: &mut BTreeMap<u16, Stream>,
    state: &HandoverOrderedStream,
) -> Result<(), AllocError>
    ensures streams { OnOk result
        ((id : ℕ) → stream_on id (map entry_of streams.new.entries)
        ≡ restored_over (state.now ∷ []) id (stream_on id (map entry_of streams.old.entries))) }
    ensures used { (overhead : ℕ)
        → OnOk result
        (streams_used overhead (map entry_of streams.new.entries)
        ≤ streams_used overhead (map entry_of streams.old.entries)) }
{
    let _ = streams.insert(state.id, restored_stream(alloc, state))?;
    Ok(())
}

/// The streams of a snapshot. If one is listed twice, the first entry counts. `Err`: an allocation failed.
pub fn restored_streams(
    alloc: Global,
    states: &[HandoverOrderedStream],
) -> Result<BTreeMap<u16, Stream>, AllocError>
    ensures streams { IfOk result
        (λ streams. (id : ℕ)
        → stream_on id (map entry_of streams.entries) ≡ restored_stream id states.now) }
    ensures used { (overhead : ℕ)
        → IfOk result (λ streams. streams_used overhead (map entry_of streams.entries) ≡ 0) }
{
    let mut streams = BTreeMap::new(alloc);
    for state in states.iter().rev() {
        put_stream(alloc, &mut streams, state)?;
    }
    Ok(streams)
}
