//! Reliable messages: each arrives once and whole, and an ordered one after those before it on its stream
//! (RFC 9260, sections 6.5 and 6.6).

use crate::run::PLAIN;
use crate::simulation::runs_each;

#[test]
fn ordered_messages_arrive_in_order(rt: HostRuntime) {
    for (name, interleaving, zero_checksum) in [
        ("DATA", false, false),
        ("I-DATA", true, false),
        ("DATA without checksums", false, true),
    ] {
        let mut run = PLAIN;
        run.name = name;
        run.interleaving = interleaving;
        run.zero_checksum = zero_checksum;
        runs_each(&rt, rt.alloc(), &run);
    }
}

#[test]
fn unordered_messages_arrive_among_ordered_ones(rt: HostRuntime) {
    for (name, interleaving) in [("unordered DATA", false), ("unordered I-DATA", true)] {
        let mut run = PLAIN;
        run.name = name;
        run.has_unordered = true;
        run.interleaving = interleaving;
        runs_each(&rt, rt.alloc(), &run);
    }
}
