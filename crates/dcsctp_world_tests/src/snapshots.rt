//! Snapshots that are written by hand.

use dcsctp_world::socket::api::handover::{
    HandoverCapabilities, HandoverOrderedStream, HandoverOutgoingStream, HandoverOutstandingData,
    HandoverReceive, HandoverSocketState, HandoverStreamMessage, HandoverTransmission,
    SocketHandoverState,
};
use std::alloc::Global;
use std::process::Abort;

// What two sockets with default options support.
fn capabilities(zero_checksum: bool) -> HandoverCapabilities {
    HandoverCapabilities {
        partial_reliability: true,
        message_interleaving: false,
        reconfig: true,
        zero_checksum,
        negotiated_maximum_incoming_streams: 65535,
        negotiated_maximum_outgoing_streams: 65535,
    }
}

// A stream whose next ordered message has this number.
fn outgoing_stream(id: u16, next_ssn: u16) -> HandoverOutgoingStream {
    HandoverOutgoingStream {
        id,
        next_ssn,
        next_unordered_mid: 0,
        next_ordered_mid: 0,
        priority: 256,
    }
}

// A whole message of stream 1 under protocol 51, of one byte. It may be sent again without a limit.
fn sent(rt: &impl Abort, alloc: Global, ssn: u16, byte: u8) -> HandoverOutstandingData {
    let mut sent = HandoverOutstandingData::empty(alloc);
    sent.stream_id = 1;
    sent.ssn = ssn;
    sent.ppid = 51;
    sent.payload.push(byte).expect(rt, "no byte");
    sent.is_beginning = true;
    sent.is_end = true;
    sent.max_retransmissions = 65535;
    sent
}

// A message of stream 1 under protocol 53, of the byte 0xcc.
fn waiting(rt: &impl Abort, alloc: Global) -> HandoverStreamMessage {
    let mut waiting = HandoverStreamMessage::empty(alloc);
    waiting.stream_id = 1;
    waiting.ppid = 53;
    waiting.payload.push(0xcc).expect(rt, "no byte");
    waiting.max_retransmissions = 65535;
    waiting.message_id = 7;
    waiting
}

// TSN 103 is lost, the peer has TSN 104, and a message waits.
fn unfinished(rt: &impl Abort, alloc: Global) -> HandoverTransmission {
    let mut lost = sent(rt, alloc, 3, 0xaa);
    lost.is_to_be_retransmitted = true;
    let mut acknowledged = sent(rt, alloc, 4, 0xbb);
    acknowledged.acked = true;
    let mut tx = HandoverTransmission::empty(alloc);
    tx.next_tsn = 105;
    tx.next_reset_req_sn = 102;
    tx.cwnd = 11910;
    tx.rwnd = 100_000;
    tx.ssthresh = 100_000;
    tx.last_cumulative_tsn_ack = 102;
    tx.next_outgoing_message_id = 8;
    tx.streams
        .push(outgoing_stream(1, 5))
        .expect(rt, "no stream");
    tx.outstanding_data.push(lost).expect(rt, "no data");
    tx.outstanding_data.push(acknowledged).expect(rt, "no data");
    tx.queued_messages
        .push(waiting(rt, alloc))
        .expect(rt, "no message");
    tx
}

// TSNs up to 202 were received, and on stream 2 the messages up to number 6.
fn received(rt: &impl Abort, alloc: Global) -> HandoverReceive {
    let mut rx = HandoverReceive::empty(alloc);
    rx.seen_packet = true;
    rx.last_cumulative_acked_tsn = 202;
    rx.last_assembled_tsn = 202;
    rx.last_completed_reset_req_sn = 199;
    rx.ordered_streams
        .push(HandoverOrderedStream { id: 2, next_ssn: 7 })
        .expect(rt, "no stream");
    rx
}

// One of tag 7 and first TSN 100, whose peer has tag 9 and first TSN 200.
fn connected(alloc: Global, zero_checksum: bool) -> SocketHandoverState {
    let mut state = SocketHandoverState::empty(alloc);
    state.socket_state = HandoverSocketState::Connected;
    state.my_verification_tag = 7;
    state.my_initial_tsn = 100;
    state.peer_verification_tag = 9;
    state.peer_initial_tsn = 200;
    state.capabilities = capabilities(zero_checksum);
    state
}

/// That of a connected socket with data in flight, a message that waits, and a stream on which it has received.
pub fn snapshot_with_data(
    rt: &impl Abort,
    alloc: Global,
    zero_checksum: bool,
) -> SocketHandoverState {
    let mut state = connected(alloc, zero_checksum);
    state.tie_tag = 3;
    state.tx = unfinished(rt, alloc);
    state.rx = received(rt, alloc);
    state
}

/// That of A after the handshake of `new_world`, and after a reset of stream 1 was performed. Its number was
/// 100. B has a receive window of 5,242,880 bytes, which is the slow start threshold too. The congestion
/// window is 10 packets of 1,191. No data has come, so that reassembly has handled no TSN.
pub fn snapshot_behind_reset(rt: &impl Abort, alloc: Global) -> SocketHandoverState {
    let mut state = connected(alloc, false);
    state.tx.next_tsn = 100;
    state.tx.next_reset_req_sn = 101;
    state.tx.cwnd = 11_910;
    state.tx.rwnd = 5_242_880;
    state.tx.ssthresh = 5_242_880;
    state.tx.last_cumulative_tsn_ack = 99;
    state
        .tx
        .streams
        .push(outgoing_stream(1, 0))
        .expect(rt, "no stream");
    state.rx.last_cumulative_acked_tsn = 199;
    state.rx.last_completed_reset_req_sn = 199;
    state
}
