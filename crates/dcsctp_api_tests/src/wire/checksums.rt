//! Checksums, with the values that others publish (RFC 9260, appendix A).

use crate::wire::checks::same;
use dcsctp_wire_build::{clear_checksum, fill_checksum};
use dcsctp_wire_checksum::{crc32c, packet_checksum};

#[rattlefmt::skip]
const ASCENDING: [u8; 32] = [
    0, 1, 2, 3, 4, 5, 6, 7, 8, 9, 10, 11, 12, 13, 14, 15,
    16, 17, 18, 19, 20, 21, 22, 23, 24, 25, 26, 27, 28, 29, 30, 31,
];

#[rattlefmt::skip]
const DESCENDING: [u8; 32] = [
    31, 30, 29, 28, 27, 26, 25, 24, 23, 22, 21, 20, 19, 18, 17, 16,
    15, 14, 13, 12, 11, 10, 9, 8, 7, 6, 5, 4, 3, 2, 1, 0,
];

// The check value of CRC32c, and the vectors that iSCSI publishes for it.
static EXAMPLES: [(&str, &[u8], u32); 6] = [
    ("nothing", b"", 0),
    ("nine digits", b"123456789", 0xE306_9283),
    ("zeros", &[0; 32], 0x8A91_36AA),
    ("ones", &[0xFF; 32], 0x62A8_AB43),
    ("ascending", &ASCENDING, 0x46DD_794E),
    ("descending", &DESCENDING, 0x113F_DB5C),
];

#[test]
fn outside_examples_have_their_checksums(rt: HostRuntime) {
    for (name, bytes, expected) in &EXAMPLES {
        same(&rt, name, crc32c(bytes), *expected);
    }
}

// Packets of zeros. In the first only the checksum field isn't zero, in the second also the byte after it.
// The flag says whether the checksum is that of 32 zeros.
#[rattlefmt::skip]
static FIELDS: [(&str, &[u8; 32], bool); 2] = [
    (
        "the field differs",
        &[
            0, 0, 0, 0, 0, 0, 0, 0, 0xA5, 0xA5, 0xA5, 0xA5, 0, 0, 0, 0,
            0, 0, 0, 0, 0, 0, 0, 0, 0, 0, 0, 0, 0, 0, 0, 0,
        ],
        true,
    ),
    (
        "the byte behind it counts",
        &[
            0, 0, 0, 0, 0, 0, 0, 0, 0xA5, 0xA5, 0xA5, 0xA5, 1, 0, 0, 0,
            0, 0, 0, 0, 0, 0, 0, 0, 0, 0, 0, 0, 0, 0, 0, 0,
        ],
        false,
    ),
];

#[test]
fn checksum_field_counts_as_zeros(rt: HostRuntime) {
    for (name, packet, is_that_of_zeros) in &FIELDS {
        let checksum = packet_checksum(packet.as_slice());
        same(&rt, name, checksum == 0x8A91_36AA, *is_that_of_zeros);
    }
}

// A named packet, the same with its checksum, and with 0 in its place.
type Packet = (&'static str, &'static [u8], &'static [u8], &'static [u8]);

// Another program computed the checksum of the INIT. That of 32 zeros is published.
#[rattlefmt::skip]
static PACKETS: [Packet; 4] = [
    (
        "an INIT",
        &[
            0x13, 0x88, 0x13, 0x88, 0, 0, 0, 0, 1, 2, 3, 4,
            1, 0, 0, 30, 0, 0, 0, 7, 0, 80, 0, 0, 255, 255, 255, 255, 0, 0, 0, 100, 0xc0, 0, 0, 4, 0x80, 8, 0, 6, 0x82, 0xc0, 0, 0,
        ],
        &[
            0x13, 0x88, 0x13, 0x88, 0, 0, 0, 0, 0x64, 0x53, 0x50, 0xc7,
            1, 0, 0, 30, 0, 0, 0, 7, 0, 80, 0, 0, 255, 255, 255, 255, 0, 0, 0, 100, 0xc0, 0, 0, 4, 0x80, 8, 0, 6, 0x82, 0xc0, 0, 0,
        ],
        &[
            0x13, 0x88, 0x13, 0x88, 0, 0, 0, 0, 0, 0, 0, 0,
            1, 0, 0, 30, 0, 0, 0, 7, 0, 80, 0, 0, 255, 255, 255, 255, 0, 0, 0, 100, 0xc0, 0, 0, 4, 0x80, 8, 0, 6, 0x82, 0xc0, 0, 0,
        ],
    ),
    (
        "zeros",
        &[0; 32],
        &[
            0, 0, 0, 0, 0, 0, 0, 0, 0xaa, 0x36, 0x91, 0x8a, 0, 0, 0, 0,
            0, 0, 0, 0, 0, 0, 0, 0, 0, 0, 0, 0, 0, 0, 0, 0,
        ],
        &[0; 32],
    ),
    ("a byte less than a header", &[7; 11], &[7; 11], &[7; 11]),
    ("nothing", &[], &[], &[]),
];

#[test]
fn checksum_is_filled_in_and_left_out(rt: HostRuntime) {
    for (name, packet, filled, cleared) in &PACKETS {
        let mut bytes = packet.to_vec(rt.alloc()).expect(&rt, "memory for a packet");
        fill_checksum(&mut bytes);
        same(&rt, name, bytes.as_slice(), *filled);
        clear_checksum(&mut bytes);
        same(&rt, name, bytes.as_slice(), *cleared);
    }
}
