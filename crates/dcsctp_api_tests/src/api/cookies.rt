//! State cookies, with the bytes of two worked examples, and their ages.

use crate::api::checks::{same, shows};
use dcsctp_api::{Capabilities, SocketTime, StateCookie};
use std::alloc::Global;
use std::process::Abort;
use std::time::Duration;

// A cookie whose fields all differ, made at one second.
const EVERY_FIELD: [u8; 56] = [
    0x64, 0x63, 0x53, 0x43, 0x54, 0x50, 0x72, 0x30, 0, 0, 0, 0x7b, 0, 0, 1, 0x41, 0, 0, 1, 0xc8, 0,
    0, 2, 0x8e, 0, 0, 3, 0x15, 0, 0, 0, 0, 0x3c, 0xd0, 0x9a, 0xb2, 1, 0, 1, 0, 0, 0, 0, 1, 0, 0x7b,
    0, 0xea, 0, 0, 0, 0, 0x3b, 0x9a, 0xca, 0,
];

// What it says, as `Debug` writes it.
const EVERY_FIELD_TEXT: &str = "StateCookie { peer_tag: 123, my_tag: 321, peer_initial_tsn: 456, \
    my_initial_tsn: 654, a_rwnd: 789, tie_tag: 1020304050, moment: 1000000000, \
    peer_capabilities: Capabilities { partial_reliability: true, message_interleaving: false, \
    reconfig: true, zero_checksum_method: ZeroChecksumAlternateErrorDetectionMethod(1), \
    negotiated_maximum_incoming_streams: 123, negotiated_maximum_outgoing_streams: 234 } }";

// The same cookie, with other flags than 0 and 1, and with a byte 39.
const OTHER_SPELLING: [u8; 56] = [
    0x64, 0x63, 0x53, 0x43, 0x54, 0x50, 0x72, 0x30, 0, 0, 0, 0x7b, 0, 0, 1, 0x41, 0, 0, 1, 0xc8, 0,
    0, 2, 0x8e, 0, 0, 3, 0x15, 0, 0, 0, 0, 0x3c, 0xd0, 0x9a, 0xb2, 2, 0, 1, 0xff, 0, 0, 0, 1, 0,
    0x7b, 0, 0xea, 0, 0, 0, 0, 0x3b, 0x9a, 0xca, 0,
];

// The same cookie, made at moment zero.
const AT_ZERO: [u8; 56] = [
    0x64, 0x63, 0x53, 0x43, 0x54, 0x50, 0x72, 0x30, 0, 0, 0, 0x7b, 0, 0, 1, 0x41, 0, 0, 1, 0xc8, 0,
    0, 2, 0x8e, 0, 0, 3, 0x15, 0, 0, 0, 0, 0x3c, 0xd0, 0x9a, 0xb2, 1, 0, 1, 0, 0, 0, 0, 1, 0, 0x7b,
    0, 0xea, 0, 0, 0, 0, 0, 0, 0, 0,
];

const AT_ZERO_TEXT: &str = "StateCookie { peer_tag: 123, my_tag: 321, peer_initial_tsn: 456, \
    my_initial_tsn: 654, a_rwnd: 789, tie_tag: 1020304050, moment: 0, \
    peer_capabilities: Capabilities { partial_reliability: true, message_interleaving: false, \
    reconfig: true, zero_checksum_method: ZeroChecksumAlternateErrorDetectionMethod(1), \
    negotiated_maximum_incoming_streams: 123, negotiated_maximum_outgoing_streams: 234 } }";

// The same cookie, with a moment whose bytes all differ.
const EVERY_BYTE: [u8; 56] = [
    0x64, 0x63, 0x53, 0x43, 0x54, 0x50, 0x72, 0x30, 0, 0, 0, 0x7b, 0, 0, 1, 0x41, 0, 0, 1, 0xc8, 0,
    0, 2, 0x8e, 0, 0, 3, 0x15, 0, 0, 0, 0, 0x3c, 0xd0, 0x9a, 0xb2, 1, 0, 1, 0, 0, 0, 0, 1, 0, 0x7b,
    0, 0xea, 1, 2, 3, 4, 5, 6, 7, 8,
];

const EVERY_BYTE_TEXT: &str = "StateCookie { peer_tag: 123, my_tag: 321, peer_initial_tsn: 456, \
    my_initial_tsn: 654, a_rwnd: 789, tie_tag: 1020304050, moment: 72623859790382856, \
    peer_capabilities: Capabilities { partial_reliability: true, message_interleaving: false, \
    reconfig: true, zero_checksum_method: ZeroChecksumAlternateErrorDetectionMethod(1), \
    negotiated_maximum_incoming_streams: 123, negotiated_maximum_outgoing_streams: 234 } }";

// The cookie between two sockets with default options, tags 7 and 9, first TSNs 100 and 200, made at moment zero.
const DEFAULTS: [u8; 56] = [
    0x64, 0x63, 0x53, 0x43, 0x54, 0x50, 0x72, 0x30, 0, 0, 0, 7, 0, 0, 0, 9, 0, 0, 0, 0x64, 0, 0, 0,
    0xc8, 0, 0x50, 0, 0, 0, 0, 0, 0, 0, 0, 0, 0, 1, 0, 1, 0, 0, 0, 0, 0, 0xff, 0xff, 0xff, 0xff, 0,
    0, 0, 0, 0, 0, 0, 0,
];

const DEFAULTS_TEXT: &str = "StateCookie { peer_tag: 7, my_tag: 9, peer_initial_tsn: 100, \
    my_initial_tsn: 200, a_rwnd: 5242880, tie_tag: 0, moment: 0, peer_capabilities: Capabilities { \
    partial_reliability: true, message_interleaving: false, reconfig: true, \
    zero_checksum_method: ZeroChecksumAlternateErrorDetectionMethod(0), \
    negotiated_maximum_incoming_streams: 65535, negotiated_maximum_outgoing_streams: 65535 } }";

/// A name, the bytes of a cookie that is read, its text, and the bytes as which it is written.
type Row = (&'static str, &'static [u8], &'static str, &'static [u8]);

static COOKIES: [Row; 5] = [
    ("every field", &EVERY_FIELD, EVERY_FIELD_TEXT, &EVERY_FIELD),
    (
        "any nonzero flag is true, and byte 39 is not looked at",
        &OTHER_SPELLING,
        EVERY_FIELD_TEXT,
        &EVERY_FIELD,
    ),
    ("at moment zero", &AT_ZERO, AT_ZERO_TEXT, &AT_ZERO),
    (
        "every byte of the moment",
        &EVERY_BYTE,
        EVERY_BYTE_TEXT,
        &EVERY_BYTE,
    ),
    ("defaults", &DEFAULTS, DEFAULTS_TEXT, &DEFAULTS),
];

/// Asserts that the bytes are read as a cookie of this text, and that it is written as these bytes.
fn goes_both_ways(rt: &impl Abort, alloc: Global, row: &Row) {
    let (name, bytes, text, expected) = row;
    let cookie = StateCookie::from_bytes(bytes).expect(rt, name);
    shows(rt, alloc, name, &cookie, text);
    let written = cookie.serialize(alloc).expect(rt, name);
    same(rt, name, written.as_slice(), expected);
}

#[test]
fn cookies_have_the_bytes_of_the_examples(rt: HostRuntime) {
    for row in &COOKIES {
        goes_both_ways(&rt, rt.alloc(), row);
    }
}

const SIZE: &str = "Invalid state cookie size";

const MAGIC: &str = "Invalid state cookie magic";

const TAG: &str = "Invalid verification tag in state cookie";

/// Names, faults, and the bytes that have them. All but the zeros are of the first example.
#[rattlefmt::skip]
static FAULTS: [(&str, &str, &[u8]); 7] = [
    ("55 bytes", SIZE, &[
        0x64, 0x63, 0x53, 0x43, 0x54, 0x50, 0x72, 0x30, 0, 0, 0, 0x7b, 0, 0, 1, 0x41, 0, 0, 1, 0xc8, 0, 0, 2, 0x8e,
        0, 0, 3, 0x15, 0, 0, 0, 0, 0x3c, 0xd0, 0x9a, 0xb2, 1, 0, 1, 0, 0, 0, 0, 1, 0, 0x7b, 0, 0xea,
        0, 0, 0, 0, 0x3b, 0x9a, 0xca,
    ]),
    ("57 bytes", SIZE, &[
        0x64, 0x63, 0x53, 0x43, 0x54, 0x50, 0x72, 0x30, 0, 0, 0, 0x7b, 0, 0, 1, 0x41, 0, 0, 1, 0xc8, 0, 0, 2, 0x8e,
        0, 0, 3, 0x15, 0, 0, 0, 0, 0x3c, 0xd0, 0x9a, 0xb2, 1, 0, 1, 0, 0, 0, 0, 1, 0, 0x7b, 0, 0xea,
        0, 0, 0, 0, 0x3b, 0x9a, 0xca, 0, 0,
    ]),
    ("48 bytes, without a moment", SIZE, &[
        0x64, 0x63, 0x53, 0x43, 0x54, 0x50, 0x72, 0x30, 0, 0, 0, 0x7b, 0, 0, 1, 0x41, 0, 0, 1, 0xc8, 0, 0, 2, 0x8e,
        0, 0, 3, 0x15, 0, 0, 0, 0, 0x3c, 0xd0, 0x9a, 0xb2, 1, 0, 1, 0, 0, 0, 0, 1, 0, 0x7b, 0, 0xea,
    ]),
    ("nothing", SIZE, &[]),
    ("56 zeros", MAGIC, &[0; 56]),
    ("no own tag", TAG, &[
        0x64, 0x63, 0x53, 0x43, 0x54, 0x50, 0x72, 0x30, 0, 0, 0, 0x7b, 0, 0, 0, 0, 0, 0, 1, 0xc8, 0, 0, 2, 0x8e,
        0, 0, 3, 0x15, 0, 0, 0, 0, 0x3c, 0xd0, 0x9a, 0xb2, 1, 0, 1, 0, 0, 0, 0, 1, 0, 0x7b, 0, 0xea,
        0, 0, 0, 0, 0x3b, 0x9a, 0xca, 0,
    ]),
    ("no peer tag", TAG, &[
        0x64, 0x63, 0x53, 0x43, 0x54, 0x50, 0x72, 0x30, 0, 0, 0, 0, 0, 0, 1, 0x41, 0, 0, 1, 0xc8, 0, 0, 2, 0x8e,
        0, 0, 3, 0x15, 0, 0, 0, 0, 0x3c, 0xd0, 0x9a, 0xb2, 1, 0, 1, 0, 0, 0, 0, 1, 0, 0x7b, 0, 0xea,
        0, 0, 0, 0, 0x3b, 0x9a, 0xca, 0,
    ]),
];

#[test]
fn the_first_fault_of_a_cookie_is_told(rt: HostRuntime) {
    for (name, expected, bytes) in &FAULTS {
        let fault = StateCookie::from_bytes(bytes).err().unwrap_or("");
        same(&rt, name, fault, *expected);
    }
}

/// Seconds and nanoseconds.
type Span = (u64, u64);

/// A name, a lifetime, the moment at which a cookie is made, that moment as the cookie has it, the moment at which the
/// cookie is judged, and whether it is stale then.
type Age = (&'static str, Span, Span, u64, Span, bool);

// The greatest number of a `u64` is 18,446,744,073 seconds and 709,551,615 nanoseconds.
#[rattlefmt::skip]
static AGES: [Age; 19] = [
    ("of no age", (60, 0), (0, 0), 0, (0, 0), false),
    ("at the lifetime", (60, 0), (0, 0), 0, (60, 0), false),
    ("a nanosecond more", (60, 0), (0, 0), 0, (60, 1), true),
    ("made later, at the lifetime", (60, 0), (5, 7), 5_000_000_007, (65, 7), false),
    ("made later, a nanosecond more", (60, 0), (5, 7), 5_000_000_007, (65, 8), true),
    ("less than a millisecond more", (0, 1_500_000), (0, 0), 0, (0, 1_999_999), true),
    ("of a later moment", (0, 0), (5, 1), 5_000_000_001, (5, 0), false),
    ("of the latest moment", (0, 0), (18_446_744_073, 709_551_615), u64::MAX, (0, 0), false),
    ("no lifetime, and no age", (0, 0), (5, 0), 5_000_000_000, (5, 0), false),
    ("no lifetime, and a nanosecond", (0, 0), (5, 0), 5_000_000_000, (5, 1), true),
    ("made a nanosecond before the cut", (0, 0), (18_446_744_073, 709_551_614), u64::MAX - 1, (18_446_744_073, 709_551_615), true),
    ("and judged behind it", (0, 1), (18_446_744_073, 709_551_614), u64::MAX - 1, (u64::MAX, 999_999_999), false),
    ("made behind the cut, and judged there", (0, 0), (18_446_744_073, 709_551_616), u64::MAX, (u64::MAX, 999_999_999), false),
    ("made behind the cut, and judged before it", (0, 0), (u64::MAX, 999_999_999), u64::MAX, (18_446_744_073, 709_551_614), false),
    ("judged just behind the cut", (60, 0), (0, 5), 5, (18_446_744_073, 709_551_617), true),
    ("the greatest age", (18_446_744_073, 709_551_615), (0, 0), 0, (u64::MAX, 999_999_999), false),
    ("the greatest age, and a lifetime below it", (18_446_744_073, 709_551_614), (0, 0), 0, (u64::MAX, 999_999_999), true),
    ("a lifetime above each age", (18_446_744_073, 709_551_616), (0, 0), 0, (18_446_744_073, 709_551_615), false),
    ("the greatest lifetime", (u64::MAX, 999_999_999), (0, 0), 0, (u64::MAX, 999_999_999), false),
];

fn duration_of(span: &Span) -> Duration {
    let (seconds, nanos) = *span;
    Duration::from_secs(seconds).saturating_add(Duration::from_nanos(nanos))
}

// A cookie with this moment.
fn made_at(moment: u64) -> StateCookie {
    StateCookie {
        peer_tag: 7,
        my_tag: 9,
        peer_initial_tsn: 100,
        my_initial_tsn: 200,
        a_rwnd: 5_242_880,
        tie_tag: 0,
        moment,
        peer_capabilities: Capabilities::default(),
    }
}

#[test]
fn a_cookie_is_stale_behind_its_lifetime(rt: HostRuntime) {
    for (name, lifetime, made, moment, now, is_stale) in &AGES {
        let found = StateCookie::moment_at(SocketTime::zero() + duration_of(made));
        same(&rt, name, found, *moment);
        let now = SocketTime::zero() + duration_of(now);
        let found = made_at(*moment).is_stale(duration_of(lifetime), now);
        same(&rt, name, found, *is_stale);
    }
}
