//! Entries of lists in chunks and parameters, by their places.

use crate::wire::checks::{same, shows};
use dcsctp_wire::{
    ForwardTsnChunk, IForwardTsnChunk, IncomingSsnResetRequestParameter,
    OutgoingSsnResetRequestParameter, Parameter, ReconfigurationResponseResult, SackChunk,
    parameters_serialized_size,
};

#[test]
fn entries_are_found_by_their_places(rt: HostRuntime) {
    let sack = SackChunk {
        cumulative_tsn_ack: 12,
        a_rwnd: 4660,
        gap_ack_blocks: &[0, 2, 0, 3, 0, 5, 0, 6],
        duplicate_tsns: &[0, 0, 0, 10, 0, 0, 0, 11],
    };
    let forward = ForwardTsnChunk {
        new_cumulative_tsn: 9,
        skipped_streams: &[0, 1, 0, 2, 0, 3, 0, 4],
    };
    let i_forward = IForwardTsnChunk {
        new_cumulative_tsn: 9,
        skipped_streams: &[0, 1, 0, 1, 0, 0, 0, 2],
    };
    let counts = (
        sack.gap_ack_block_count(),
        sack.duplicate_tsn_count(),
        forward.skipped_stream_count(),
        i_forward.skipped_stream_count(),
    );
    same(&rt, "counts", counts, (2, 2, 2, 1));
    let entries = (
        sack.gap_ack_block(1),
        sack.duplicate_tsn(1),
        forward.skipped_stream(1),
        i_forward.skipped_stream(0),
    );
    shows(
        &rt,
        rt.alloc(),
        "entries",
        &entries,
        "(GapAckBlock { start: 5, end: 6 }, 11, SkippedStream { stream_id: 3, ssn: 4 }, \
         SkippedMessages { stream_id: 1, is_unordered: true, mid: 2 })",
    );
}

static INFO: [Parameter<'static>; 1] = [Parameter::HeartbeatInfo { info: &[1, 2, 3] }];

#[test]
fn streams_to_reset_are_found_by_their_places(rt: HostRuntime) {
    let outgoing = OutgoingSsnResetRequestParameter {
        request_seq_nbr: 3,
        response_seq_nbr: 2,
        sender_last_assigned_tsn: 1,
        streams: &[0, 4, 0, 5],
    };
    let incoming = IncomingSsnResetRequestParameter {
        request_seq_nbr: 3,
        streams: &[0, 6],
    };
    let counts = (outgoing.stream_count(), incoming.stream_count());
    same(&rt, "counts", counts, (2, 1));
    let streams = (outgoing.stream(1), incoming.stream(0));
    same(&rt, "streams", streams, (5, 6));
    let result = ReconfigurationResponseResult::InProgress.code();
    let size = parameters_serialized_size(&INFO);
    same(&rt, "result, and size", (result, size), (6, 8));
}
