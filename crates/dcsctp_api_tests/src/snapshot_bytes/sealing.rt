//! Bytes get the seal of the examples, and are read without it. Changed bytes and those of other options are
//! refused. The check values were computed bit by bit, as RFC 9260, appendix A, says.

use crate::snapshot_bytes::bytes::{EMPTY, FULL};
use dcsctp_snapshot_bytes::{SealError, seal, unseal};
use dcsctp_types::{Options, ZeroChecksumAlternateErrorDetectionMethod};
use std::alloc::Global;
use std::process::Abort;

/// The seal of `FULL` by the default options.
#[rattlefmt::skip]
static DEFAULT_SEAL: [u8; 18] = [
    0x13, 0x88, // local_port: 5,000
    0x13, 0x88, // remote_port: 5,000
    255, 255, // incoming streams: 65,535
    255, 255, // outgoing streams: 65,535
    1, // partial reliability
    0, // message interleaving
    0, 0, 0, 0, // the method
    0x0a, 0xdb, 0x82, 0xfd, // the check value
];

/// Options of which no two numbers are the same.
fn others() -> Options {
    Options {
        local_port: 0x0102,
        remote_port: 0x0304,
        announced_maximum_incoming_streams: 0x0506,
        announced_maximum_outgoing_streams: 0x0708,
        enable_partial_reliability: false,
        enable_message_interleaving: true,
        zero_checksum_alternate_error_detection_method: ZeroChecksumAlternateErrorDetectionMethod(
            0x090a_0b0c,
        ),
        ..Options::default()
    }
}

/// The seal of `FULL` by those.
static OTHER_SEAL: [u8; 18] = [
    1, 2, 3, 4, 5, 6, 7, 8, 0, 1, 9, 10, 11, 12, 0x12, 0x54, 0x93, 0xdd,
];

/// The bytes with a seal by these options.
fn sealed(rt: &impl Abort, alloc: Global, bytes: &[u8], options: &Options) -> Vec<u8> {
    let mut made = Vec::from_slice(alloc, bytes).expect(rt, "memory");
    seal(&mut made, options).expect(rt, "memory");
    made
}

/// Asserts that the bytes get this seal, and are read without it.
fn goes_both_ways(
    rt: &impl Abort,
    alloc: Global,
    name: &str,
    bytes: &[u8],
    options: &Options,
    seal: &[u8],
) {
    let made = sealed(rt, alloc, bytes, options);
    let (front, end) = made
        .as_slice()
        .split_at_checked(bytes.len())
        .expect(rt, name);
    assert!(rt; front == bytes, "{name}: {front:?}");
    assert!(rt; end == seal, "{name}: {end:?}");
    let read = unseal(&made, options).unwrap_or(&[]);
    assert!(rt; read == bytes, "{name}: {read:?}");
}

#[test]
fn snapshots_have_the_seals_of_the_examples(rt: HostRuntime) {
    let alloc = rt.alloc();
    let default = Options::default();
    goes_both_ways(&rt, alloc, "default", &FULL, &default, &DEFAULT_SEAL);
    goes_both_ways(&rt, alloc, "others", &FULL, &others(), &OTHER_SEAL);
}

/// The bytes with a bit changed in one of them.
fn with_bit(rt: &impl Abort, alloc: Global, bytes: &[u8], at: usize, bit: u8) -> Vec<u8> {
    let mut changed = Vec::from_slice(alloc, bytes).expect(rt, "memory");
    assert!(rt; at < changed.len(), "the place {at}");
    changed[at] ^= bit;
    changed
}

#[test]
fn each_changed_bit_is_refused(rt: HostRuntime) {
    let options = Options::default();
    let bytes = sealed(&rt, rt.alloc(), &EMPTY, &options);
    for at in 0..bytes.len() {
        for bit in [1, 2, 4, 8, 16, 32, 64, 128] {
            let changed = with_bit(&rt, rt.alloc(), &bytes, at, bit);
            let read = unseal(&changed, &options);
            assert!(rt;
                read == Err(SealError::Broken),
                "byte {at}, bit {bit}: {read:?}"
            );
        }
    }
    assert!(rt; unseal(&bytes, &options).is_ok(), "unchanged");
}

#[test]
fn each_front_and_one_byte_more_are_refused(rt: HostRuntime) {
    let options = Options::default();
    let mut bytes = sealed(&rt, rt.alloc(), &FULL, &options);
    for len in 0..bytes.len() {
        let read = unseal(&bytes[..len], &options);
        assert!(rt;
            read == Err(SealError::Broken),
            "the first {len} bytes: {read:?}"
        );
    }
    for byte in [0, 1, 255] {
        bytes.push(byte).expect(&rt, "memory");
        let read = unseal(&bytes, &options);
        assert!(rt;
            read == Err(SealError::Broken),
            "{byte} behind it: {read:?}"
        );
        let _ = bytes.pop();
    }
}

/// The check value of nothing is 0, so four zeros have it; but there is no fingerprint before it.
#[test]
fn a_check_value_without_a_fingerprint_is_refused(rt: HostRuntime) {
    let read = unseal(&[0, 0, 0, 0], &Options::default());
    assert!(rt; read == Err(SealError::Broken), "four zeros: {read:?}");
    // The fingerprint of the default options, but for its last byte.
    let short = [
        19, 136, 19, 136, 255, 255, 255, 255, 1, 0, 0, 0, 0, 0x08, 0x36, 0x4c, 0xe0,
    ];
    let read = unseal(&short, &Options::default());
    assert!(rt; read == Err(SealError::Broken), "13 bytes: {read:?}");
}

#[test]
fn each_option_of_the_seal_is_compared(rt: HostRuntime) {
    let default = Options::default();
    let other = others();
    let rows = [
        (
            "local_port",
            Options {
                local_port: other.local_port,
                ..default
            },
        ),
        (
            "remote_port",
            Options {
                remote_port: other.remote_port,
                ..default
            },
        ),
        (
            "incoming streams",
            Options {
                announced_maximum_incoming_streams: other.announced_maximum_incoming_streams,
                ..default
            },
        ),
        (
            "outgoing streams",
            Options {
                announced_maximum_outgoing_streams: other.announced_maximum_outgoing_streams,
                ..default
            },
        ),
        (
            "partial reliability",
            Options {
                enable_partial_reliability: false,
                ..default
            },
        ),
        (
            "message interleaving",
            Options {
                enable_message_interleaving: true,
                ..default
            },
        ),
        (
            "zero checksum",
            Options {
                zero_checksum_alternate_error_detection_method: other.zero_checksum_alternate_error_detection_method,
                ..default
            },
        ),
    ];
    for (name, options) in rows {
        let bytes = sealed(&rt, rt.alloc(), &FULL, &options);
        let read = unseal(&bytes, &default);
        assert!(rt; read == Err(SealError::OtherOptions), "{name}: {read:?}");
        assert!(rt; unseal(&bytes, &options).is_ok(), "{name}, by the same");
    }
}

/// What may differ where an association continues: how long a packet is, whether the RFCs are followed, and so on.
#[test]
fn no_other_option_is_compared(rt: HostRuntime) {
    let other = Options {
        mtu: 500,
        max_message_size: 30,
        max_receiver_window_buffer_size: 2000,
        max_burst: 1,
        max_retransmissions: None,
        default_stream_priority: 9,
        disable_checksum_verification: true,
        enable_handover_with_outstanding_data: true,
        follow_rfc: true,
        ..Options::default()
    };
    let bytes = sealed(&rt, rt.alloc(), &FULL, &other);
    let read = unseal(&bytes, &Options::default()).unwrap_or(&[]);
    assert!(rt; read == FULL.as_slice(), "{read:?}");
}
