//! A snapshot that is written by hand.

use dcsctp_world::socket::api::handover::{
    HandoverCapabilities, HandoverOrderedStream, HandoverOutgoingStream, HandoverOutstandingData,
    HandoverReceive, HandoverSocketState, HandoverStreamMessage, HandoverTransmission,
    SocketHandoverState,
};
use std::alloc::{AllocError, Global};

// What two sockets with default options support.
const CAPABILITIES: HandoverCapabilities = HandoverCapabilities {
    partial_reliability: true,
    message_interleaving: false,
    reconfig: true,
    zero_checksum: false,
    negotiated_maximum_incoming_streams: 65535,
    negotiated_maximum_outgoing_streams: 65535,
};

// Stream 1, whose next ordered message has number 5.
const STREAM: HandoverOutgoingStream = HandoverOutgoingStream {
    id: 1,
    next_ssn: 5,
    next_unordered_mid: 0,
    next_ordered_mid: 0,
    priority: 256,
};

// A message of one byte on stream 1, which was lost.
fn add_lost(alloc: Global, tx: &mut HandoverTransmission) -> Result<(), AllocError> {
    let mut lost = HandoverOutstandingData::empty(alloc);
    lost.stream_id = 1;
    lost.ssn = 4;
    lost.ppid = 51;
    lost.payload.push(0xaa)?;
    lost.is_beginning = true;
    lost.is_end = true;
    lost.max_retransmissions = 65535;
    lost.is_to_be_retransmitted = true;
    tx.outstanding_data.push(lost)?;
    Ok(())
}

// A message of one byte on stream 1, which waits.
fn add_waiting(alloc: Global, tx: &mut HandoverTransmission) -> Result<(), AllocError> {
    let mut waiting = HandoverStreamMessage::empty(alloc);
    waiting.stream_id = 1;
    waiting.ppid = 53;
    waiting.payload.push(0xcc)?;
    waiting.max_retransmissions = 65535;
    waiting.message_id = 7;
    tx.queued_messages.push(waiting)?;
    Ok(())
}

// TSN 103 is lost, and a message waits.
fn is_sending(alloc: Global, tx: &mut HandoverTransmission) -> Result<(), AllocError> {
    tx.next_tsn = 104;
    tx.next_reset_req_sn = 102;
    tx.cwnd = 11910;
    tx.rwnd = 100_000;
    tx.ssthresh = 100_000;
    tx.last_cumulative_tsn_ack = 102;
    tx.next_outgoing_message_id = 8;
    tx.streams.push(STREAM)?;
    add_lost(alloc, tx)?;
    add_waiting(alloc, tx)
}

// TSNs up to 202 were received, and on stream 2 the messages up to number 6.
fn has_received(rx: &mut HandoverReceive) -> Result<(), AllocError> {
    rx.seen_packet = true;
    rx.last_cumulative_acked_tsn = 202;
    rx.last_assembled_tsn = 202;
    rx.last_completed_reset_req_sn = 199;
    rx.ordered_streams
        .push(HandoverOrderedStream { id: 2, next_ssn: 7 })?;
    Ok(())
}

/// Makes an empty snapshot that of a connected socket with tag 7 and first TSN 100, whose peer has tag 9 and first TSN
/// 200. A message was lost, and another one waits.
pub fn fill(alloc: Global, state: &mut SocketHandoverState) -> Result<(), AllocError> {
    state.socket_state = HandoverSocketState::Connected;
    state.my_verification_tag = 7;
    state.my_initial_tsn = 100;
    state.peer_verification_tag = 9;
    state.peer_initial_tsn = 200;
    state.tie_tag = 3;
    state.capabilities = CAPABILITIES;
    is_sending(alloc, &mut state.tx)?;
    has_received(&mut state.rx)
}
