//! The snapshot whose bytes `bytes::FULL` are.

use dcsctp_types::{
    HandoverCapabilities, HandoverOrderedStream, HandoverOutgoingStream, HandoverOutstandingData,
    HandoverReceive, HandoverSocketState, HandoverStreamMessage, HandoverTransmission,
    HandoverUnorderedStream, SocketHandoverState,
};
use std::alloc::{AllocError, Global};

/// The first message that waits.
fn first_message(alloc: Global) -> Result<HandoverStreamMessage, AllocError> {
    Ok(HandoverStreamMessage {
        stream_id: 1,
        ppid: 51,
        payload: Vec::from_slice(alloc, b"abc")?,
        unordered: true,
        expires_in_ms: Some(-2),
        max_retransmissions: 3,
        lifecycle_id: 4,
        message_id: 5,
        remaining_offset: 1,
        mid: Some(6),
        ssn: Some(7),
        fsn: 8,
    })
}

/// The second message that waits.
fn second_message(alloc: Global) -> Result<HandoverStreamMessage, AllocError> {
    Ok(HandoverStreamMessage {
        stream_id: 9,
        ppid: 53,
        payload: Vec::from_slice(alloc, &[255])?,
        unordered: false,
        expires_in_ms: None,
        max_retransmissions: 65535,
        lifecycle_id: 0,
        message_id: 10,
        remaining_offset: 0,
        mid: None,
        ssn: None,
        fsn: 0,
    })
}

/// The first data that is outstanding.
fn first_data(alloc: Global) -> Result<HandoverOutstandingData, AllocError> {
    Ok(HandoverOutstandingData {
        stream_id: 11,
        ssn: 12,
        mid: 13,
        fsn: 14,
        ppid: 15,
        payload: Vec::from_slice(alloc, &[16, 17])?,
        is_beginning: true,
        is_end: false,
        is_unordered: true,
        message_id: 18,
        lifecycle_id: 19,
        expires_in_ms: Some(20),
        max_retransmissions: 21,
        retransmission_count: 22,
        time_since_sent_ms: 1000,
        acked: false,
        is_abandoned: true,
        is_nacked: false,
        is_to_be_retransmitted: true,
    })
}

/// The second data that is outstanding.
fn second_data(alloc: Global) -> HandoverOutstandingData {
    HandoverOutstandingData {
        stream_id: 23,
        ssn: 24,
        mid: 25,
        fsn: 26,
        ppid: 27,
        payload: Vec::new(alloc),
        is_beginning: false,
        is_end: true,
        is_unordered: true,
        message_id: 28,
        lifecycle_id: 29,
        expires_in_ms: None,
        max_retransmissions: 65535,
        retransmission_count: 30,
        time_since_sent_ms: -1,
        acked: false,
        is_abandoned: false,
        is_nacked: true,
        is_to_be_retransmitted: true,
    }
}

/// The streams that messages are sent by.
const STREAMS: [HandoverOutgoingStream; 2] = [
    HandoverOutgoingStream {
        id: 1,
        next_ssn: 2,
        next_unordered_mid: 3,
        next_ordered_mid: 4,
        priority: 256,
    },
    HandoverOutgoingStream {
        id: 0xffff,
        next_ssn: 0xfffe,
        next_unordered_mid: 0xffff_fffd,
        next_ordered_mid: 0xffff_fffc,
        priority: 0xfffb,
    },
];

/// All that concerns sending.
fn transmission(alloc: Global) -> Result<HandoverTransmission, AllocError> {
    let mut tx = HandoverTransmission::empty(alloc);
    tx.next_tsn = 0x1b1c_1d1e;
    tx.next_reset_req_sn = 0x1f20_2122;
    tx.cwnd = 0x2324_2526;
    tx.rwnd = 0x2728_292a;
    tx.ssthresh = 0xffff_ffff;
    tx.partial_bytes_acked = 0x2b2c_2d2e;
    tx.last_cumulative_tsn_ack = 0x1b1c_1d1b;
    tx.next_outgoing_message_id = 0x2f30_3132_3334_3536;
    tx.streams.extend_from_slice(&STREAMS)?;
    tx.queued_messages.push(first_message(alloc)?)?;
    tx.queued_messages.push(second_message(alloc)?)?;
    tx.outstanding_data.push(first_data(alloc)?)?;
    tx.outstanding_data.push(second_data(alloc))?;
    Ok(tx)
}

/// All that concerns receiving.
fn receive(alloc: Global) -> Result<HandoverReceive, AllocError> {
    let ordered = [HandoverOrderedStream {
        id: 45,
        next_ssn: 46,
    }];
    let unordered = [
        HandoverUnorderedStream { id: 47 },
        HandoverUnorderedStream { id: 48 },
    ];
    Ok(HandoverReceive {
        seen_packet: true,
        last_cumulative_acked_tsn: 0x3738_393a,
        last_assembled_tsn: 0x3b3c_3d3e,
        last_completed_deferred_reset_req_sn: 0x3f40_4142,
        last_completed_reset_req_sn: 0x4344_4546,
        ordered_streams: Vec::from_slice(alloc, &ordered)?,
        unordered_streams: Vec::from_slice(alloc, &unordered)?,
    })
}

/// The whole snapshot.
pub fn full(alloc: Global) -> Result<SocketHandoverState, AllocError> {
    Ok(SocketHandoverState {
        socket_state: HandoverSocketState::Connected,
        my_verification_tag: 0x0102_0304,
        my_initial_tsn: 0x0506_0708,
        peer_verification_tag: 0x090a_0b0c,
        peer_initial_tsn: 0x0d0e_0f10,
        tie_tag: 0x1112_1314_1516_1718,
        capabilities: HandoverCapabilities {
            partial_reliability: true,
            message_interleaving: false,
            reconfig: true,
            zero_checksum: true,
            negotiated_maximum_incoming_streams: 25,
            negotiated_maximum_outgoing_streams: 282,
        },
        tx: transmission(alloc)?,
        rx: receive(alloc)?,
    })
}
