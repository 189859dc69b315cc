//! Packets that were put together by hand, and what is read from them.

use crate::wire::checks::{same, shows};
use dcsctp_wire::{PacketError, SctpPacket, WireOptions};
use std::alloc::Global;
use std::process::Abort;

/// A reader on port 5000 that looks at no checksum.
static UNCHECKED: WireOptions = WireOptions {
    local_port: 5000,
    disable_checksum_verification: true,
    zero_checksum_alternate_error_detection_method: 0,
};

/// A reader on port 5000 that requires the checksum.
static CHECKED: WireOptions = WireOptions {
    local_port: 5000,
    disable_checksum_verification: false,
    zero_checksum_alternate_error_detection_method: 0,
};

/// A reader on port 5000 that has an alternate error detection method.
static ZERO_ACCEPTING: WireOptions = WireOptions {
    local_port: 5000,
    disable_checksum_verification: false,
    zero_checksum_alternate_error_detection_method: 1,
};

/// An INIT, from port 5000 to port 5000.
const INIT: [u8; 44] = [
    0x13, 0x88, 0x13, 0x88, 0, 0, 0, 0, 0, 0, 0, 0, // common header
    1, 0, 0, 30, // INIT of 30 bytes
    0, 0, 0, 7, 0, 0x50, 0, 0, 0xff, 0xff, 0xff, 0xff, 0, 0, 0, 100, // its fields
    0xc0, 0, 0, 4, // Forward-TSN-Supported
    0x80, 8, 0, 6, 0x82, 0xc0, 0, 0, // Supported Extensions, and padding
];

/// Named packets, and their texts, as `Debug` writes them.
#[rattlefmt::skip]
static TEXTS: [(&str, &[u8], &str); 3] = [
    (
        "an INIT has its fields",
        &INIT,
        "SctpPacket { common_header: CommonHeader { source_port: 5000, destination_port: 5000, \
         verification_tag: 0 }, chunks: [Init(InitChunk { initiate_tag: 7, a_rwnd: 5242880, \
         nbr_outbound_streams: 65535, nbr_inbound_streams: 65535, initial_tsn: 100, parameters: \
         [ForwardTsnSupported, SupportedExtensions { chunk_types: [130, 192] }] })] }",
    ),
    (
        "a COOKIE ECHO has its cookie, and flags and a value of a COOKIE ACK aren't looked at",
        &[
            0x13, 0x88, 0x13, 0x88, 0, 0, 0, 0, 0, 0, 0, 0, // common header
            10, 0, 0, 9, 1, 2, 3, 4, 5, 0, 0, 0, // COOKIE ECHO of 5 bytes, and padding
            11, 1, 0, 5, 9, 0, 0, 0, // COOKIE ACK
        ],
        "SctpPacket { common_header: CommonHeader { source_port: 5000, destination_port: 5000, \
         verification_tag: 0 }, chunks: [CookieEcho(CookieEchoChunk { cookie: [1, 2, 3, 4, 5] }), \
         CookieAck] }",
    ),
    (
        "an ABORT has its T bit and its causes",
        &[
            0x13, 0x88, 0x13, 0x88, 0, 0, 0, 0, 0, 0, 0, 0, // common header
            6, 1, 0, 22, // ABORT of 22 bytes
            0, 13, 0, 6, 0x68, 0x69, 0, 0, // Protocol Violation, and padding
            0, 2, 0, 10, 0, 0, 0, 1, 0, 7, 0, 0, // Missing Mandatory Parameter, and padding
        ],
        "SctpPacket { common_header: CommonHeader { source_port: 5000, destination_port: 5000, \
         verification_tag: 0 }, chunks: [Abort(AbortChunk { tag_reflected: true, error_causes: \
         [ProtocolViolation { text: [104, 105] }, MissingMandatoryParameter { types: [0, 7] }] })] }",
    ),
];

/// Asserts that the bytes are read as the packet of this text.
fn is_read_as(rt: &impl Abort, alloc: Global, name: &str, bytes: &[u8], expected: &str) {
    let packet = SctpPacket::from_bytes(alloc, bytes, &UNCHECKED).expect(rt, name);
    shows(rt, alloc, name, &packet, expected);
}

#[test]
fn packets_have_their_fields(rt: HostRuntime) {
    for (name, bytes, expected) in &TEXTS {
        is_read_as(&rt, rt.alloc(), name, bytes, expected);
    }
}

/// What became of a packet that is read.
const READ: Option<PacketError> = None;

/// What became of bytes that are no packet.
const REFUSED: Option<PacketError> = Some(PacketError::Malformed);

/// A named packet, and what becomes of it.
type Row = (&'static str, Option<PacketError>, &'static [u8]);

// Most are the INIT with other bytes somewhere, or cut off.
#[rattlefmt::skip]
static OUTCOMES: [Row; 43] = [
    // Packets that are cut off, or for another port.
    ("11 bytes", REFUSED, &[0x13, 0x88, 0x13, 0x88, 0, 0, 0, 0, 0, 0, 0]),
    ("a chunk header of 3 bytes", REFUSED, &[0x13, 0x88, 0x13, 0x88, 0, 0, 0, 0, 0, 0, 0, 0, 1, 0, 0]),
    ("another port", REFUSED, &[
        0x13, 0x88, 0x13, 0x89, 0, 0, 0, 0, 0, 0, 0, 0,
        1, 0, 0, 30, 0, 0, 0, 7, 0, 80, 0, 0, 0xff, 0xff, 0xff, 0xff, 0, 0, 0, 100, 0xc0, 0, 0, 4, 0x80, 8, 0, 6, 0x82, 0xc0, 0, 0,
    ]),
    // Lengths out of bounds.
    ("a chunk of length 3", REFUSED, &[
        0x13, 0x88, 0x13, 0x88, 0, 0, 0, 0, 0, 0, 0, 0,
        1, 0, 0, 3, 0, 0, 0, 7, 0, 80, 0, 0, 0xff, 0xff, 0xff, 0xff, 0, 0, 0, 100, 0xc0, 0, 0, 4, 0x80, 8, 0, 6, 0x82, 0xc0, 0, 0,
    ]),
    ("a chunk past the end", REFUSED, &[
        0x13, 0x88, 0x13, 0x88, 0, 0, 0, 0, 0, 0, 0, 0,
        1, 0, 0, 33, 0, 0, 0, 7, 0, 80, 0, 0, 0xff, 0xff, 0xff, 0xff, 0, 0, 0, 100, 0xc0, 0, 0, 4, 0x80, 8, 0, 6, 0x82, 0xc0, 0, 0,
    ]),
    ("a parameter of length 3", REFUSED, &[
        0x13, 0x88, 0x13, 0x88, 0, 0, 0, 0, 0, 0, 0, 0,
        1, 0, 0, 30, 0, 0, 0, 7, 0, 80, 0, 0, 0xff, 0xff, 0xff, 0xff, 0, 0, 0, 100, 0xc0, 0, 0, 3, 0x80, 8, 0, 6, 0x82, 0xc0, 0, 0,
    ]),
    ("a parameter past the end of its chunk", REFUSED, &[
        0x13, 0x88, 0x13, 0x88, 0, 0, 0, 0, 0, 0, 0, 0,
        1, 0, 0, 30, 0, 0, 0, 7, 0, 80, 0, 0, 0xff, 0xff, 0xff, 0xff, 0, 0, 0, 100, 0xc0, 0, 0, 4, 0x80, 8, 0, 7, 0x82, 0xc0, 0, 0,
    ]),
    ("an INIT of 15 bytes of value", REFUSED, &[
        0x13, 0x88, 0x13, 0x88, 0, 0, 0, 0, 0, 0, 0, 0,
        1, 0, 0, 19, 0, 0, 0, 7, 0, 80, 0, 0, 0xff, 0xff, 0xff, 0xff, 0, 0, 0, 100, 0xc0, 0, 0, 4, 0x80, 8, 0, 6, 0x82, 0xc0, 0, 0,
    ]),
    // An INIT needs a tag, a window and streams.
    ("tag 0", REFUSED, &[
        0x13, 0x88, 0x13, 0x88, 0, 0, 0, 0, 0, 0, 0, 0,
        1, 0, 0, 30, 0, 0, 0, 0, 0, 80, 0, 0, 0xff, 0xff, 0xff, 0xff, 0, 0, 0, 100, 0xc0, 0, 0, 4, 0x80, 8, 0, 6, 0x82, 0xc0, 0, 0,
    ]),
    ("window 1499", REFUSED, &[
        0x13, 0x88, 0x13, 0x88, 0, 0, 0, 0, 0, 0, 0, 0,
        1, 0, 0, 30, 0, 0, 0, 7, 0, 0, 5, 0xdb, 0xff, 0xff, 0xff, 0xff, 0, 0, 0, 100, 0xc0, 0, 0, 4, 0x80, 8, 0, 6, 0x82, 0xc0, 0, 0,
    ]),
    ("window 1500", READ, &[
        0x13, 0x88, 0x13, 0x88, 0, 0, 0, 0, 0, 0, 0, 0,
        1, 0, 0, 30, 0, 0, 0, 7, 0, 0, 5, 0xdc, 0xff, 0xff, 0xff, 0xff, 0, 0, 0, 100, 0xc0, 0, 0, 4, 0x80, 8, 0, 6, 0x82, 0xc0, 0, 0,
    ]),
    ("no outbound streams", REFUSED, &[
        0x13, 0x88, 0x13, 0x88, 0, 0, 0, 0, 0, 0, 0, 0,
        1, 0, 0, 30, 0, 0, 0, 7, 0, 80, 0, 0, 0, 0, 0xff, 0xff, 0, 0, 0, 100, 0xc0, 0, 0, 4, 0x80, 8, 0, 6, 0x82, 0xc0, 0, 0,
    ]),
    ("no inbound streams", REFUSED, &[
        0x13, 0x88, 0x13, 0x88, 0, 0, 0, 0, 0, 0, 0, 0,
        1, 0, 0, 30, 0, 0, 0, 7, 0, 80, 0, 0, 0xff, 0xff, 0, 0, 0, 0, 0, 100, 0xc0, 0, 0, 4, 0x80, 8, 0, 6, 0x82, 0xc0, 0, 0,
    ]),
    // An INIT with Zero Checksum Acceptable in the place of Supported Extensions.
    ("a method of 3 bytes", REFUSED, &[
        0x13, 0x88, 0x13, 0x88, 0, 0, 0, 0, 0, 0, 0, 0,
        1, 0, 0, 31, 0, 0, 0, 7, 0, 80, 0, 0, 0xff, 0xff, 0xff, 0xff, 0, 0, 0, 100, 0xc0, 0, 0, 4, 0x80, 1, 0, 7, 0x82, 0xc0, 0, 0,
    ]),
    ("a method of 4 bytes", READ, &[
        0x13, 0x88, 0x13, 0x88, 0, 0, 0, 0, 0, 0, 0, 0,
        1, 0, 0, 32, 0, 0, 0, 7, 0, 80, 0, 0, 0xff, 0xff, 0xff, 0xff, 0, 0, 0, 100, 0xc0, 0, 0, 4, 0x80, 1, 0, 8, 0x82, 0xc0, 0, 0,
    ]),
    // A COOKIE ECHO has type 10, and a COOKIE ACK type 11, and both have nothing but a header.
    ("an ECHO behind an ACK", REFUSED, &[0x13, 0x88, 0x13, 0x88, 0, 0, 0, 0, 0, 0, 0, 0, 11, 0, 0, 4, 10, 0, 0, 4]),
    ("an ECHO before an ACK", READ, &[0x13, 0x88, 0x13, 0x88, 0, 0, 0, 0, 0, 0, 0, 0, 10, 0, 0, 4, 11, 0, 0, 4]),
    // An ABORT, of one cause if of any, which stays inside its ABORT.
    ("no cause", READ, &[0x13, 0x88, 0x13, 0x88, 0, 0, 0, 0, 0, 0, 0, 0, 6, 0, 0, 4]),
    ("a cause of length 3", REFUSED, &[0x13, 0x88, 0x13, 0x88, 0, 0, 0, 0, 0, 0, 0, 0, 6, 0, 0, 8, 0, 13, 0, 3]),
    ("a cause of length 4", READ, &[0x13, 0x88, 0x13, 0x88, 0, 0, 0, 0, 0, 0, 0, 0, 6, 0, 0, 8, 0, 13, 0, 4]),
    ("a cause past its ABORT", REFUSED, &[0x13, 0x88, 0x13, 0x88, 0, 0, 0, 0, 0, 0, 0, 0, 6, 0, 0, 8, 0, 13, 0, 5]),
    ("1 stray byte", REFUSED, &[0x13, 0x88, 0x13, 0x88, 0, 0, 0, 0, 0, 0, 0, 0, 6, 0, 0, 5, 0, 0, 0, 0]),
    ("2 stray bytes", REFUSED, &[0x13, 0x88, 0x13, 0x88, 0, 0, 0, 0, 0, 0, 0, 0, 6, 0, 0, 6, 0, 0, 0, 0]),
    ("3 stray bytes", REFUSED, &[0x13, 0x88, 0x13, 0x88, 0, 0, 0, 0, 0, 0, 0, 0, 6, 0, 0, 7, 0, 0, 0, 0]),
    ("a number of 3 bytes", REFUSED, &[0x13, 0x88, 0x13, 0x88, 0, 0, 0, 0, 0, 0, 0, 0, 6, 0, 0, 11, 0, 2, 0, 7, 0, 0, 0, 0]),
    ("no type", READ, &[0x13, 0x88, 0x13, 0x88, 0, 0, 0, 0, 0, 0, 0, 0, 6, 0, 0, 12, 0, 2, 0, 8, 0, 0, 0, 0]),
    ("types that are cut off", REFUSED, &[0x13, 0x88, 0x13, 0x88, 0, 0, 0, 0, 0, 0, 0, 0, 6, 0, 0, 12, 0, 2, 0, 8, 0, 0, 0, 1]),
    // The last padding may be missing.
    ("no padding", READ, &[
        0x13, 0x88, 0x13, 0x88, 0, 0, 0, 0, 0, 0, 0, 0,
        1, 0, 0, 30, 0, 0, 0, 7, 0, 80, 0, 0, 0xff, 0xff, 0xff, 0xff, 0, 0, 0, 100, 0xc0, 0, 0, 4, 0x80, 8, 0, 6, 0x82, 0xc0,
    ]),
    ("one byte of padding", READ, &[
        0x13, 0x88, 0x13, 0x88, 0, 0, 0, 0, 0, 0, 0, 0,
        1, 0, 0, 30, 0, 0, 0, 7, 0, 80, 0, 0, 0xff, 0xff, 0xff, 0xff, 0, 0, 0, 100, 0xc0, 0, 0, 4, 0x80, 8, 0, 6, 0x82, 0xc0, 0,
    ]),
    ("two bytes of padding", READ, &[
        0x13, 0x88, 0x13, 0x88, 0, 0, 0, 0, 0, 0, 0, 0,
        1, 0, 0, 30, 0, 0, 0, 7, 0, 80, 0, 0, 0xff, 0xff, 0xff, 0xff, 0, 0, 0, 100, 0xc0, 0, 0, 4, 0x80, 8, 0, 6, 0x82, 0xc0, 0, 0,
    ]),
    // Chunks that are too short for their fields, or end with a part of an entry, in a packet of tag 9.
    ("DATA of 11 bytes", REFUSED, &[
        0x13, 0x88, 0x13, 0x88, 0, 0, 0, 9, 0, 0, 0, 0,
        0, 3, 0, 15, 0, 0, 0, 1, 0, 0, 0, 0, 0, 0, 0,
    ]),
    ("I-DATA of 15 bytes", REFUSED, &[
        0x13, 0x88, 0x13, 0x88, 0, 0, 0, 9, 0, 0, 0, 0,
        64, 3, 0, 19, 0, 0, 0, 1, 0, 0, 0, 0, 0, 0, 0, 0, 0, 0, 0,
    ]),
    ("SACK of 11 bytes", REFUSED, &[
        0x13, 0x88, 0x13, 0x88, 0, 0, 0, 9, 0, 0, 0, 0,
        3, 0, 0, 15, 0, 0, 0, 1, 0, 0, 0, 0, 0, 0, 0,
    ]),
    ("SACK without its block", REFUSED, &[
        0x13, 0x88, 0x13, 0x88, 0, 0, 0, 9, 0, 0, 0, 0,
        3, 0, 0, 16, 0, 0, 0, 1, 0, 0, 0, 0, 0, 1, 0, 0,
    ]),
    ("SACK without its duplicate", REFUSED, &[
        0x13, 0x88, 0x13, 0x88, 0, 0, 0, 9, 0, 0, 0, 0,
        3, 0, 0, 16, 0, 0, 0, 1, 0, 0, 0, 0, 0, 0, 0, 1,
    ]),
    ("SHUTDOWN of 3 bytes", REFUSED, &[0x13, 0x88, 0x13, 0x88, 0, 0, 0, 9, 0, 0, 0, 0, 7, 0, 0, 7, 0, 0, 0]),
    ("FORWARD-TSN with half an entry", REFUSED, &[0x13, 0x88, 0x13, 0x88, 0, 0, 0, 9, 0, 0, 0, 0, 0xc0, 0, 0, 10, 0, 0, 0, 1, 0, 1]),
    ("I-FORWARD-TSN with half an entry", REFUSED, &[0x13, 0x88, 0x13, 0x88, 0, 0, 0, 9, 0, 0, 0, 0, 0xc2, 0, 0, 12, 0, 0, 0, 1, 0, 1, 0, 0]),
    ("half a stream", REFUSED, &[
        0x13, 0x88, 0x13, 0x88, 0, 0, 0, 9, 0, 0, 0, 0,
        0x82, 0, 0, 13, 0, 14, 0, 9, 0, 0, 0, 1, 0,
    ]),
    ("one next TSN", REFUSED, &[
        0x13, 0x88, 0x13, 0x88, 0, 0, 0, 9, 0, 0, 0, 0,
        0x82, 0, 0, 20, 0, 16, 0, 16, 0, 0, 0, 1, 0, 0, 0, 1, 0, 0, 0, 7,
    ]),
    ("response of 7 bytes", REFUSED, &[
        0x13, 0x88, 0x13, 0x88, 0, 0, 0, 9, 0, 0, 0, 0,
        0x82, 0, 0, 15, 0, 16, 0, 11, 0, 0, 0, 1, 0, 0, 0,
    ]),
    ("No User Data of 3 bytes", REFUSED, &[0x13, 0x88, 0x13, 0x88, 0, 0, 0, 9, 0, 0, 0, 0, 9, 0, 0, 11, 0, 9, 0, 7, 0, 0, 1]),
    // No checksum is looked at.
    ("a wrong checksum", READ, &[
        0x13, 0x88, 0x13, 0x88, 0, 0, 0, 0, 0xff, 0xff, 0xff, 0xff,
        1, 0, 0, 30, 0, 0, 0, 7, 0, 80, 0, 0, 0xff, 0xff, 0xff, 0xff, 0, 0, 0, 100, 0xc0, 0, 0, 4, 0x80, 8, 0, 6, 0x82, 0xc0, 0, 0,
    ]),
];

/// For a reader that requires the checksum.
#[rattlefmt::skip]
static COMPARED: [Row; 1] = [
    ("a wrong checksum", REFUSED, &[
        0x13, 0x88, 0x13, 0x88, 0, 0, 0, 0, 0xff, 0xff, 0xff, 0xff,
        1, 0, 0, 30, 0, 0, 0, 7, 0, 80, 0, 0, 0xff, 0xff, 0xff, 0xff, 0, 0, 0, 100, 0xc0, 0, 0, 4, 0x80, 8, 0, 6, 0x82, 0xc0, 0, 0,
    ]),
];

/// For a reader that has an alternate error detection method.
#[rattlefmt::skip]
static ZERO_ACCEPTED: [Row; 2] = [
    ("a wrong checksum", REFUSED, &[
        0x13, 0x88, 0x13, 0x88, 0, 0, 0, 0, 0xff, 0xff, 0xff, 0xff,
        1, 0, 0, 30, 0, 0, 0, 7, 0, 80, 0, 0, 0xff, 0xff, 0xff, 0xff, 0, 0, 0, 100, 0xc0, 0, 0, 4, 0x80, 8, 0, 6, 0x82, 0xc0, 0, 0,
    ]),
    ("0 where it is accepted", READ, &[
        0x13, 0x88, 0x13, 0x88, 0, 0, 0, 0, 0, 0, 0, 0,
        1, 0, 0, 30, 0, 0, 0, 7, 0, 80, 0, 0, 0xff, 0xff, 0xff, 0xff, 0, 0, 0, 100, 0xc0, 0, 0, 4, 0x80, 8, 0, 6, 0x82, 0xc0, 0, 0,
    ]),
];

/// Asserts what becomes of each row's packet for this reader.
fn have_their_outcomes(rt: &impl Abort, alloc: Global, options: &WireOptions, rows: &[Row]) {
    for (name, expected, bytes) in rows {
        let outcome = SctpPacket::from_bytes(alloc, bytes, options).err();
        same(rt, name, outcome, *expected);
    }
}

#[test]
fn packets_that_break_no_rule_of_their_reader_are_read(rt: HostRuntime) {
    let alloc = rt.alloc();
    have_their_outcomes(&rt, alloc, &UNCHECKED, &OUTCOMES);
    have_their_outcomes(&rt, alloc, &CHECKED, &COMPARED);
    have_their_outcomes(&rt, alloc, &ZERO_ACCEPTING, &ZERO_ACCEPTED);
}
