//! The bytes of two snapshots, a field a line.

/// The snapshot of a closed socket.
#[rattlefmt::skip]
pub static EMPTY: [u8; 132] = [
    0x64, 0x63, 0x53, 0x6e, // the magic, `dcSn`
    0, 1, // the version
    0, // socket_state
    0, 0, 0, 0, // my_verification_tag
    0, 0, 0, 0, // my_initial_tsn
    0, 0, 0, 0, // peer_verification_tag
    0, 0, 0, 0, // peer_initial_tsn
    0, 0, 0, 0, 0, 0, 0, 0, // tie_tag
    0, 0, 0, 0, // the flags of the capabilities
    0, 0, // incoming streams
    0, 0, // outgoing streams
    0, 0, 0, 0, // next_tsn
    0, 0, 0, 0, // next_reset_req_sn
    0, 0, 0, 0, // cwnd
    0, 0, 0, 0, // rwnd
    0, 0, 0, 0, // ssthresh
    0, 0, 0, 0, // partial_bytes_acked
    0, 0, 0, 0, // last_cumulative_tsn_ack
    0, 0, 0, 0, 0, 0, 0, 0, // next_outgoing_message_id
    0, 0, 0, 0, 0, 0, 0, 0, // streams
    0, 0, 0, 0, 0, 0, 0, 0, // queued_messages
    0, 0, 0, 0, 0, 0, 0, 0, // outstanding_data
    0, // seen_packet
    0, 0, 0, 0, // last_cumulative_acked_tsn
    0, 0, 0, 0, // last_assembled_tsn
    0, 0, 0, 0, // last_completed_deferred_reset_req_sn
    0, 0, 0, 0, // last_completed_reset_req_sn
    0, 0, 0, 0, 0, 0, 0, 0, // ordered_streams
    0, 0, 0, 0, 0, 0, 0, 0, // unordered_streams
];

/// A snapshot in which no list is empty.
#[rattlefmt::skip]
pub static FULL: [u8; 398] = [
    0x64, 0x63, 0x53, 0x6e, // the magic, `dcSn`
    0, 1, // the version
    1, // socket_state: connected
    1, 2, 3, 4, // my_verification_tag
    5, 6, 7, 8, // my_initial_tsn
    9, 10, 11, 12, // peer_verification_tag
    13, 14, 15, 16, // peer_initial_tsn
    17, 18, 19, 20, 21, 22, 23, 24, // tie_tag
    1, // partial_reliability
    0, // message_interleaving
    1, // reconfig
    1, // zero_checksum
    0, 25, // incoming streams
    1, 26, // outgoing streams
    27, 28, 29, 30, // next_tsn
    31, 32, 33, 34, // next_reset_req_sn
    35, 36, 37, 38, // cwnd
    39, 40, 41, 42, // rwnd
    255, 255, 255, 255, // ssthresh
    43, 44, 45, 46, // partial_bytes_acked
    27, 28, 29, 27, // last_cumulative_tsn_ack
    47, 48, 49, 50, 51, 52, 53, 54, // next_outgoing_message_id

    0, 0, 0, 0, 0, 0, 0, 2, // streams
    0, 1, // id
    0, 2, // next_ssn
    0, 0, 0, 3, // next_unordered_mid
    0, 0, 0, 4, // next_ordered_mid
    1, 0, // priority
    255, 255, // id
    255, 254, // next_ssn
    255, 255, 255, 253, // next_unordered_mid
    255, 255, 255, 252, // next_ordered_mid
    255, 251, // priority

    0, 0, 0, 0, 0, 0, 0, 2, // queued_messages
    0, 1, // stream_id
    0, 0, 0, 51, // ppid
    0, 0, 0, 0, 0, 0, 0, 3, 97, 98, 99, // payload
    1, // unordered
    1, 255, 255, 255, 254, // expires_in_ms: -2
    0, 3, // max_retransmissions
    0, 0, 0, 0, 0, 0, 0, 4, // lifecycle_id
    0, 0, 0, 0, 0, 0, 0, 5, // message_id
    0, 0, 0, 0, 0, 0, 0, 1, // remaining_offset
    1, 0, 0, 0, 6, // mid
    1, 0, 7, // ssn
    0, 0, 0, 8, // fsn
    0, 9, // stream_id
    0, 0, 0, 53, // ppid
    0, 0, 0, 0, 0, 0, 0, 1, 255, // payload
    0, // unordered
    0, // expires_in_ms
    255, 255, // max_retransmissions
    0, 0, 0, 0, 0, 0, 0, 0, // lifecycle_id
    0, 0, 0, 0, 0, 0, 0, 10, // message_id
    0, 0, 0, 0, 0, 0, 0, 0, // remaining_offset
    0, // mid
    0, // ssn
    0, 0, 0, 0, // fsn

    0, 0, 0, 0, 0, 0, 0, 2, // outstanding_data
    0, 11, // stream_id
    0, 12, // ssn
    0, 0, 0, 13, // mid
    0, 0, 0, 14, // fsn
    0, 0, 0, 15, // ppid
    0, 0, 0, 0, 0, 0, 0, 2, 16, 17, // payload
    1, // is_beginning
    0, // is_end
    1, // is_unordered
    0, 0, 0, 0, 0, 0, 0, 18, // message_id
    0, 0, 0, 0, 0, 0, 0, 19, // lifecycle_id
    1, 0, 0, 0, 20, // expires_in_ms
    0, 21, // max_retransmissions
    0, 22, // retransmission_count
    0, 0, 3, 232, // time_since_sent_ms: 1,000
    0, // acked
    1, // is_abandoned
    0, // is_nacked
    1, // is_to_be_retransmitted
    0, 23, // stream_id
    0, 24, // ssn
    0, 0, 0, 25, // mid
    0, 0, 0, 26, // fsn
    0, 0, 0, 27, // ppid
    0, 0, 0, 0, 0, 0, 0, 0, // payload
    0, // is_beginning
    1, // is_end
    1, // is_unordered
    0, 0, 0, 0, 0, 0, 0, 28, // message_id
    0, 0, 0, 0, 0, 0, 0, 29, // lifecycle_id
    0, // expires_in_ms
    255, 255, // max_retransmissions
    0, 30, // retransmission_count
    255, 255, 255, 255, // time_since_sent_ms: -1
    0, // acked
    0, // is_abandoned
    1, // is_nacked
    1, // is_to_be_retransmitted

    1, // seen_packet
    55, 56, 57, 58, // last_cumulative_acked_tsn
    59, 60, 61, 62, // last_assembled_tsn
    63, 64, 65, 66, // last_completed_deferred_reset_req_sn
    67, 68, 69, 70, // last_completed_reset_req_sn
    0, 0, 0, 0, 0, 0, 0, 1, // ordered_streams
    0, 45, // id
    0, 0, 0, 46, // next_ssn
    0, 0, 0, 0, 0, 0, 0, 2, // unordered_streams
    0, 47, // id
    0, 48, // id
];
