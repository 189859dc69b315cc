//! Each kind of chunk, byte for byte. Most are as in RFC 9260, section 3.3; FORWARD-TSN is as in RFC 3758,
//! section 3.2. RE-CONFIG is as in RFC 6525, sections 3.1 and 4, and I-DATA and I-FORWARD-TSN are as in RFC
//! 8260, section 2.

use crate::wire::both_ways::Row;

/// Packets from port 5000 to port 5001.
#[rattlefmt::skip]
pub static ROWS: [Row; 17] = [
    (
        "DATA, the first fragment of its message and not the last, to be acknowledged at once",
        (9, 64, 52, 32),
        &[
            0x13, 0x88, 0x13, 0x89, 0, 0, 0, 9, 0, 0, 0, 0,
            0, 10, 0, 17, 1, 2, 3, 4, 0, 5, 0, 6, 0, 0, 0, 53, 65, 0, 0, 0,
        ],
        "[Data(DataChunk { flags: DataFlags { is_end: false, is_beginning: true, is_unordered: false, \
         immediate_ack: true }, tsn: 16909060, stream_id: 5, ssn: 6, ppid: 53, payload: [65] })]",
    ),
    (
        "I-DATA, the last fragment of its unordered message and not the first",
        (9, 64, 52, 28),
        &[
            0x13, 0x88, 0x13, 0x89, 0, 0, 0, 9, 0, 0, 0, 0,
            64, 5, 0, 24, 1, 2, 3, 4, 0, 5, 0, 0, 0, 0, 0, 6, 0, 0, 0, 7, 65, 66, 67, 68,
        ],
        "[IData(IDataChunk { flags: DataFlags { is_end: true, is_beginning: false, is_unordered: true, \
         immediate_ack: false }, tsn: 16909060, stream_id: 5, mid: 6, ppid_or_fsn: 7, payload: [65, 66, 67, 68] })]",
    ),
    (
        "SACK",
        (9, 64, 52, 24),
        &[
            0x13, 0x88, 0x13, 0x89, 0, 0, 0, 9, 0, 0, 0, 0,
            3, 0, 0, 28, 0, 0, 0, 12, 0, 0, 0x12, 0x34, 0, 2, 0, 1, 0, 2, 0, 3, 0, 5, 0, 5, 0, 0, 0, 11,
        ],
        "[Sack(SackChunk { cumulative_tsn_ack: 12, a_rwnd: 4660, gap_ack_blocks: [0, 2, 0, 3, 0, 5, 0, 5], \
         duplicate_tsns: [0, 0, 0, 11] })]",
    ),
    (
        "SHUTDOWN",
        (9, 64, 52, 44),
        &[0x13, 0x88, 0x13, 0x89, 0, 0, 0, 9, 0, 0, 0, 0, 7, 0, 0, 8, 1, 2, 3, 4],
        "[Shutdown(ShutdownChunk { cumulative_tsn_ack: 16909060 })]",
    ),
    (
        "SHUTDOWN ACK",
        (9, 64, 52, 48),
        &[0x13, 0x88, 0x13, 0x89, 0, 0, 0, 9, 0, 0, 0, 0, 8, 0, 0, 4],
        "[ShutdownAck]",
    ),
    (
        "FORWARD-TSN",
        (9, 64, 52, 40),
        &[0x13, 0x88, 0x13, 0x89, 0, 0, 0, 9, 0, 0, 0, 0, 192, 0, 0, 12, 0, 0, 0, 9, 0, 1, 0, 2],
        "[ForwardTsn(ForwardTsnChunk { new_cumulative_tsn: 9, skipped_streams: [0, 1, 0, 2] })]",
    ),
    (
        "I-FORWARD-TSN",
        (9, 64, 52, 36),
        &[0x13, 0x88, 0x13, 0x89, 0, 0, 0, 9, 0, 0, 0, 0, 194, 0, 0, 16, 0, 0, 0, 9, 0, 1, 0, 1, 0, 0, 0, 2],
        "[IForwardTsn(IForwardTsnChunk { new_cumulative_tsn: 9, skipped_streams: [0, 1, 0, 1, 0, 0, 0, 2] })]",
    ),
    (
        "type 15",
        (9, 64, 52, 44),
        &[0x13, 0x88, 0x13, 0x89, 0, 0, 0, 9, 0, 0, 0, 0, 15, 3, 0, 6, 1, 2, 0, 0],
        "[Unknown(UnknownChunk { chunk_type: 15, flags: 3, value: [1, 2] })]",
    ),
    (
        "HEARTBEAT",
        (9, 64, 52, 40),
        &[0x13, 0x88, 0x13, 0x89, 0, 0, 0, 9, 0, 0, 0, 0, 4, 0, 0, 11, 0, 1, 0, 7, 1, 2, 3, 0],
        "[HeartbeatRequest(HeartbeatRequestChunk { parameters: [HeartbeatInfo { info: [1, 2, 3] }] })]",
    ),
    (
        "HEARTBEAT ACK",
        (9, 64, 52, 48),
        &[0x13, 0x88, 0x13, 0x89, 0, 0, 0, 9, 0, 0, 0, 0, 5, 0, 0, 4],
        "[HeartbeatAck(HeartbeatAckChunk { parameters: [] })]",
    ),
    (
        "an Outgoing SSN Reset Request of one stream, and a Re-configuration Response with both next TSNs",
        (9, 64, 52, 8),
        &[
            0x13, 0x88, 0x13, 0x89, 0, 0, 0, 9, 0, 0, 0, 0,
            130, 0, 0, 44,
            0, 13, 0, 18, 0, 0, 0, 3, 0, 0, 0, 2, 0, 0, 0, 1, 0, 4, 0, 0,
            0, 16, 0, 20, 0, 0, 0, 5, 0, 0, 0, 1, 0, 0, 0, 7, 0, 0, 0, 8,
        ],
        "[ReConfig(ReConfigChunk { parameters: [OutgoingSsnResetRequest(OutgoingSsnResetRequestParameter \
         { request_seq_nbr: 3, response_seq_nbr: 2, sender_last_assigned_tsn: 1, streams: [0, 4] }), \
         ReconfigurationResponse(ReconfigurationResponseParameter { response_seq_nbr: 5, result: \
         SuccessPerformed, next_tsns: Some(NextTsns { sender: 7, receiver: 8 }) })] })]",
    ),
    (
        "an Incoming SSN Reset Request of two streams, and a response of result 7, which has no name",
        (9, 64, 52, 24),
        &[
            0x13, 0x88, 0x13, 0x89, 0, 0, 0, 9, 0, 0, 0, 0,
            130, 0, 0, 28,
            0, 14, 0, 12, 0, 0, 0, 3, 0, 4, 0, 5,
            0, 16, 0, 12, 0, 0, 0, 5, 0, 0, 0, 7,
        ],
        "[ReConfig(ReConfigChunk { parameters: [IncomingSsnResetRequest(IncomingSsnResetRequestParameter \
         { request_seq_nbr: 3, streams: [0, 4, 0, 5] }), Unknown { parameter_type: 16, value: [0, 0, 0, 5, \
         0, 0, 0, 7] }] })]",
    ),
    (
        "ERROR: No User Data, Unrecognized Chunk Type, Cookie Received While Shutting Down, User-Initiated Abort",
        (9, 64, 52, 20),
        &[
            0x13, 0x88, 0x13, 0x89, 0, 0, 0, 9, 0, 0, 0, 0,
            9, 0, 0, 30,
            0, 9, 0, 8, 1, 2, 3, 4,
            0, 6, 0, 8, 15, 0, 0, 4,
            0, 10, 0, 4,
            0, 12, 0, 6, 0x68, 0x69, 0, 0,
        ],
        "[Error(ErrorChunk { error_causes: [NoUserData { tsn: 16909060 }, UnrecognizedChunkType { chunk: \
         [15, 0, 0, 4] }, CookieReceivedWhileShuttingDown, UserInitiatedAbort { text: [104, 105] }] })]",
    ),
    (
        "INIT",
        (0, 1191, 1176, 1136),
        &[
            // ports 5000 and 5001, no verification tag, no checksum
            0x13, 0x88, 0x13, 0x89, 0, 0, 0, 0, 0, 0, 0, 0,
            // INIT, of 38 bytes without the last padding
            1, 0, 0, 38, 1, 2, 3, 4, 0, 2, 0, 0, 0xff, 0xff, 8, 0, 0xde, 0xad, 0xbe, 0xef,
            // Zero Checksum Acceptable, by DTLS
            0x80, 0x01, 0, 8, 0, 0, 0, 1,
            // Forward-TSN-Supported
            0xc0, 0x00, 0, 4,
            // Supported Extensions RE-CONFIG and FORWARD TSN, with 2 bytes of padding
            0x80, 0x08, 0, 6, 0x82, 0xc0, 0, 0,
        ],
        "[Init(InitChunk { initiate_tag: 16909060, a_rwnd: 131072, nbr_outbound_streams: 65535, \
         nbr_inbound_streams: 2048, initial_tsn: 3735928559, parameters: [ZeroChecksumAcceptable { method: 1 }, \
         ForwardTsnSupported, SupportedExtensions { chunk_types: [130, 192] }] })]",
    ),
    (
        "INIT ACK, which leaves no room",
        (0x0a0b_0c0d, 104, 92, 0),
        &[
            0x13, 0x88, 0x13, 0x89, 0x0a, 0x0b, 0x0c, 0x0d, 0, 0, 0, 0,
            2, 0, 0, 92, 1, 2, 3, 4, 0, 2, 0, 0, 0xff, 0xff, 8, 0, 0xde, 0xad, 0xbe, 0xef,
            0x80, 0x01, 0, 8, 0, 0, 0, 1,
            0xc0, 0x00, 0, 4,
            0x80, 0x08, 0, 6, 0x82, 0xc0, 0, 0,
            // State Cookie
            0, 7, 0, 52,
            0xcc, 0xcc, 0xcc, 0xcc, 0xcc, 0xcc, 0xcc, 0xcc, 0xcc, 0xcc, 0xcc, 0xcc,
            0xcc, 0xcc, 0xcc, 0xcc, 0xcc, 0xcc, 0xcc, 0xcc, 0xcc, 0xcc, 0xcc, 0xcc,
            0xcc, 0xcc, 0xcc, 0xcc, 0xcc, 0xcc, 0xcc, 0xcc, 0xcc, 0xcc, 0xcc, 0xcc,
            0xcc, 0xcc, 0xcc, 0xcc, 0xcc, 0xcc, 0xcc, 0xcc, 0xcc, 0xcc, 0xcc, 0xcc,
        ],
        "[InitAck(InitChunk { initiate_tag: 16909060, a_rwnd: 131072, nbr_outbound_streams: 65535, \
         nbr_inbound_streams: 2048, initial_tsn: 3735928559, parameters: [ZeroChecksumAcceptable { method: 1 }, \
         ForwardTsnSupported, SupportedExtensions { chunk_types: [130, 192] }, StateCookie { cookie: [\
         204, 204, 204, 204, 204, 204, 204, 204, 204, 204, 204, 204, \
         204, 204, 204, 204, 204, 204, 204, 204, 204, 204, 204, 204, \
         204, 204, 204, 204, 204, 204, 204, 204, 204, 204, 204, 204, \
         204, 204, 204, 204, 204, 204, 204, 204, 204, 204, 204, 204] }] })]",
    ),
    (
        "ABORT, which leaves no room",
        (9, 36, 24, 0),
        &[
            0x13, 0x88, 0x13, 0x89, 0, 0, 0, 9, 0, 0, 0, 0,
            // ABORT with the T bit, of 22 bytes without the last padding
            6, 1, 0, 22,
            // Protocol Violation, with 2 bytes of padding
            0, 13, 0, 6, 0x68, 0x69, 0, 0,
            // Missing Mandatory Parameter: the State Cookie, and 2 bytes of padding
            0, 2, 0, 10, 0, 0, 0, 1, 0, 7, 0, 0,
        ],
        "[Abort(AbortChunk { tag_reflected: true, error_causes: [ProtocolViolation { text: [104, 105] }, \
         MissingMandatoryParameter { types: [0, 7] }] })]",
    ),
    (
        "chunks of one value or none, which leave no room",
        (9, 32, 20, 0),
        &[
            0x13, 0x88, 0x13, 0x89, 0, 0, 0, 9, 0, 0, 0, 0,
            // COOKIE ECHO, with 3 bytes of padding
            10, 0, 0, 9, 1, 2, 3, 4, 5, 0, 0, 0,
            // COOKIE ACK
            11, 0, 0, 4,
            // SHUTDOWN COMPLETE with the T bit
            14, 1, 0, 4,
        ],
        "[CookieEcho(CookieEchoChunk { cookie: [1, 2, 3, 4, 5] }), CookieAck, \
         ShutdownComplete(ShutdownCompleteChunk { tag_reflected: true })]",
    ),
];
