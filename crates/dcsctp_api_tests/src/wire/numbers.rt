//! The published numbers, as the standards list them.

use crate::wire::checks::same;
use dcsctp_wire::{cause_code, chunk_type, parameter_type};

#[rattlefmt::skip]
static NUMBERS: [(&str, u16, u16); 31] = [
    // Chunk types: RFC 9260, section 3.2; RFC 8260, sections 2.1 and 2.3.1; RFC 6525, section 3.1; RFC 3758,
    // section 3.2.
    ("DATA", chunk_type::DATA as u16, 0),
    ("INIT", chunk_type::INIT as u16, 1),
    ("INIT ACK", chunk_type::INIT_ACK as u16, 2),
    ("SACK", chunk_type::SACK as u16, 3),
    ("HEARTBEAT", chunk_type::HEARTBEAT as u16, 4),
    ("HEARTBEAT ACK", chunk_type::HEARTBEAT_ACK as u16, 5),
    ("ABORT", chunk_type::ABORT as u16, 6),
    ("SHUTDOWN", chunk_type::SHUTDOWN as u16, 7),
    ("SHUTDOWN ACK", chunk_type::SHUTDOWN_ACK as u16, 8),
    ("ERROR", chunk_type::ERROR as u16, 9),
    ("COOKIE ECHO", chunk_type::COOKIE_ECHO as u16, 10),
    ("COOKIE ACK", chunk_type::COOKIE_ACK as u16, 11),
    ("SHUTDOWN COMPLETE", chunk_type::SHUTDOWN_COMPLETE as u16, 14),
    ("I-DATA", chunk_type::I_DATA as u16, 64),
    ("RE-CONFIG", chunk_type::RE_CONFIG as u16, 130),
    ("FORWARD-TSN", chunk_type::FORWARD_TSN as u16, 192),
    ("I-FORWARD-TSN", chunk_type::I_FORWARD_TSN as u16, 194),
    // Parameter types: RFC 9260, sections 3.3.3.1 and 3.3.5; RFC 6525, section 4; RFC 9653, section 4; RFC 3758,
    // section 3.1.
    ("Heartbeat Info", parameter_type::HEARTBEAT_INFO, 1),
    ("State Cookie", parameter_type::STATE_COOKIE, 7),
    ("Outgoing SSN Reset Request", parameter_type::OUTGOING_SSN_RESET_REQUEST, 13),
    ("Incoming SSN Reset Request", parameter_type::INCOMING_SSN_RESET_REQUEST, 14),
    ("Re-configuration Response", parameter_type::RECONFIGURATION_RESPONSE, 16),
    ("Zero Checksum Acceptable", parameter_type::ZERO_CHECKSUM_ACCEPTABLE, 0x8001),
    ("Supported Extensions", parameter_type::SUPPORTED_EXTENSIONS, 0x8008),
    ("Forward-TSN-Supported", parameter_type::FORWARD_TSN_SUPPORTED, 0xc000),
    // Cause codes: RFC 9260, section 3.3.10.
    ("Missing Mandatory Parameter", cause_code::MISSING_MANDATORY_PARAMETER, 2),
    ("Unrecognized Chunk Type", cause_code::UNRECOGNIZED_CHUNK_TYPE, 6),
    ("No User Data", cause_code::NO_USER_DATA, 9),
    ("Cookie Received While Shutting Down", cause_code::COOKIE_RECEIVED_WHILE_SHUTTING_DOWN, 10),
    ("User-Initiated Abort", cause_code::USER_INITIATED_ABORT, 12),
    ("Protocol Violation", cause_code::PROTOCOL_VIOLATION, 13),
];

#[test]
fn types_and_codes_are_the_published_ones(rt: HostRuntime) {
    for (name, found, expected) in &NUMBERS {
        same(&rt, name, *found, *expected);
    }
}
