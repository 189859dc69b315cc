//! Gap ack blocks put in order (RFC 9260, section 3.3.4).

use crate::wire::checks::shows;
use dcsctp_wire::{SackChunk, clean_sack};
use std::alloc::Global;
use std::process::Abort;

/// Names, the blocks of a SACK, four bytes each, and the blocks in order, as `Debug` writes them.
#[rattlefmt::skip]
static ROWS: [(&str, &[u8], &str); 9] = [
    ("none", &[], "[]"),
    ("one", &[0, 2, 0, 3], "[GapAckBlock { start: 2, end: 3 }]"),
    (
        "apart",
        &[0, 2, 0, 3, 0, 5, 0, 5],
        "[GapAckBlock { start: 2, end: 3 }, GapAckBlock { start: 5, end: 5 }]",
    ),
    (
        "turned round",
        &[0, 5, 0, 5, 0, 2, 0, 3],
        "[GapAckBlock { start: 2, end: 3 }, GapAckBlock { start: 5, end: 5 }]",
    ),
    ("touching", &[0, 2, 0, 3, 0, 4, 0, 6], "[GapAckBlock { start: 2, end: 6 }]"),
    ("overlapping", &[0, 2, 0, 9, 0, 4, 0, 6], "[GapAckBlock { start: 2, end: 9 }]"),
    ("from 0", &[0, 0, 0, 3, 0, 5, 0, 6], "[GapAckBlock { start: 5, end: 6 }]"),
    ("ends before it begins", &[0, 4, 0, 3, 0, 5, 0, 6], "[GapAckBlock { start: 5, end: 6 }]"),
    (
        "up to the last",
        &[0xff, 0xff, 0xff, 0xff, 0, 1, 0xff, 0xfe],
        "[GapAckBlock { start: 1, end: 65535 }]",
    ),
];

/// Asserts that a SACK with these blocks has those in order.
fn is_cleaned(rt: &impl Abort, alloc: Global, name: &str, blocks: &[u8], expected: &str) {
    let sack = SackChunk {
        cumulative_tsn_ack: 10,
        a_rwnd: 1000,
        gap_ack_blocks: blocks,
        duplicate_tsns: &[],
    };
    let cleaned = clean_sack(alloc, &sack).expect(rt, "memory for the blocks");
    shows(rt, alloc, name, &cleaned, expected);
}

#[test]
fn blocks_are_put_in_order(rt: HostRuntime) {
    for (name, blocks, expected) in &ROWS {
        is_cleaned(&rt, rt.alloc(), name, blocks, expected);
    }
}
