//! Snapshots are written as the bytes of the examples, and read from them. Other bytes are refused.

use crate::snapshot_bytes::bytes::{EMPTY, FULL};
use crate::snapshot_bytes::states::full;
use dcsctp_snapshot_bytes::{from_bytes, to_bytes};
use dcsctp_types::{HandoverCapabilities, SocketHandoverState};
use std::alloc::Global;
use std::process::Abort;

/// Asserts that a snapshot is written as these bytes, and is read from them.
fn goes_both_ways(
    rt: &impl Abort,
    alloc: Global,
    name: &str,
    state: &SocketHandoverState,
    bytes: &[u8],
) {
    let written = to_bytes(alloc, state).expect(rt, name);
    assert!(rt; written.as_slice() == bytes, "{name}: {written:?}");
    let read = from_bytes(alloc, bytes).expect(rt, name).expect(rt, name);
    assert!(rt; read == *state, "{name}: {read:?}");
}

/// Asserts that the bytes are no snapshot.
fn is_refused(rt: &impl Abort, alloc: Global, name: &str, bytes: &[u8]) {
    let read = from_bytes(alloc, bytes).expect(rt, name);
    assert!(rt; read.is_none(), "{name}: {bytes:?}");
}

/// The bytes of the example, with another one at a place.
fn changed(rt: &impl Abort, alloc: Global, at: usize, byte: u8) -> Vec<u8> {
    let mut bytes = Vec::from_slice(alloc, &FULL).expect(rt, "memory");
    assert!(rt; at < bytes.len(), "the place {at}");
    bytes[at] = byte;
    bytes
}

#[test]
fn snapshots_have_the_bytes_of_the_examples(rt: HostRuntime) {
    let alloc = rt.alloc();
    let closed = SocketHandoverState::empty(alloc);
    goes_both_ways(&rt, alloc, "empty", &closed, &EMPTY);
    let state = full(alloc).expect(&rt, "memory");
    goes_both_ways(&rt, alloc, "full", &state, &FULL);
}

#[test]
fn each_capability_has_its_byte(rt: HostRuntime) {
    let none = HandoverCapabilities::default();
    let rows = [
        (
            "partial_reliability",
            31,
            HandoverCapabilities {
                partial_reliability: true,
                ..none
            },
        ),
        (
            "message_interleaving",
            32,
            HandoverCapabilities {
                message_interleaving: true,
                ..none
            },
        ),
        (
            "reconfig",
            33,
            HandoverCapabilities {
                reconfig: true,
                ..none
            },
        ),
        (
            "zero_checksum",
            34,
            HandoverCapabilities {
                zero_checksum: true,
                ..none
            },
        ),
    ];
    for (name, at, capabilities) in rows {
        let mut state = SocketHandoverState::empty(rt.alloc());
        state.capabilities = capabilities;
        let mut bytes = EMPTY;
        bytes[at] = 1;
        goes_both_ways(&rt, rt.alloc(), name, &state, &bytes);
    }
}

#[test]
fn each_front_is_refused(rt: HostRuntime) {
    for len in 0..EMPTY.len() {
        is_refused(&rt, rt.alloc(), "a front of the empty one", &EMPTY[..len]);
    }
    for len in 0..FULL.len() {
        is_refused(&rt, rt.alloc(), "a front of the full one", &FULL[..len]);
    }
}

#[test]
fn a_trailing_byte_is_refused(rt: HostRuntime) {
    for byte in [0, 1, 255] {
        let mut bytes = Vec::from_slice(rt.alloc(), &FULL).expect(&rt, "memory");
        bytes.push(byte).expect(&rt, "memory");
        is_refused(&rt, rt.alloc(), "a trailing byte", &bytes);
    }
}

/// The places of the flags in the full example, by their lines there.
static FLAGS: [(&str, &[usize]); 6] = [
    ("socket_state", &[6]),
    ("capabilities", &[31, 32, 33, 34]),
    ("the first message", &[136, 137, 168, 173]),
    ("the second message", &[195, 196, 223, 224]),
    (
        "outstanding data",
        &[
            263, 264, 265, 282, 295, 296, 297, 298, 323, 324, 325, 342, 351, 352, 353, 354,
        ],
    ),
    ("seen_packet", &[355]),
];

#[test]
fn a_flag_is_0_or_1(rt: HostRuntime) {
    for (name, places) in &FLAGS {
        for at in *places {
            for byte in [2, 3, 128, 255] {
                let bytes = changed(&rt, rt.alloc(), *at, byte);
                is_refused(&rt, rt.alloc(), name, &bytes);
            }
        }
    }
}

#[test]
fn another_magic_or_version_is_refused(rt: HostRuntime) {
    for (at, byte) in [
        (0, 0),
        (1, 0x43),
        (2, 0x73),
        (3, 0x4e),
        (4, 1),
        (5, 0),
        (5, 2),
    ] {
        let bytes = changed(&rt, rt.alloc(), at, byte);
        is_refused(&rt, rt.alloc(), "another magic or version", &bytes);
    }
}

/// The places of the counts in the full example.
static COUNTS: [(&str, &[usize]); 3] = [
    ("streams", &[75, 372, 386]),
    ("messages and data", &[111, 229]),
    ("payloads", &[125, 186, 253, 315]),
];

#[test]
fn a_count_above_what_is_there_is_refused(rt: HostRuntime) {
    for (name, places) in &COUNTS {
        for at in *places {
            for byte in [1, 127, 128, 255] {
                let bytes = changed(&rt, rt.alloc(), *at, byte);
                is_refused(&rt, rt.alloc(), name, &bytes);
            }
        }
    }
}
