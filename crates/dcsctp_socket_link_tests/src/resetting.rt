//! Streams that are reset (RFC 6525), again and again, while messages go both ways. A reset separates the
//! messages before it from those after it, and is reported once at either end.

use crate::run::{Effort, PLAIN, Resetting};
use crate::simulation::{runs, runs_each};

#[test]
fn a_reset_parts_the_messages_of_its_stream(rt: HostRuntime) {
    for (name, has_unordered, interleaving) in [
        ("resets, DATA", false, false),
        ("resets, I-DATA", false, true),
        ("resets, unordered DATA", true, false),
        ("resets, unordered I-DATA", true, true),
    ] {
        let mut run = PLAIN;
        run.name = name;
        run.has_unordered = has_unordered;
        run.interleaving = interleaving;
        run.longest = 2000;
        run.resetting = Resetting::BetweenMessages;
        runs_each(&rt, rt.alloc(), &run);
    }
}

// What is abandoned comes before the reset or never, and no FORWARD-TSN goes beyond it (RFC 6525, section
// 5.1.2).
#[test]
fn a_reset_parts_messages_that_are_given_up(rt: HostRuntime) {
    for (name, interleaving, resetting) in [
        ("given up, DATA", false, Resetting::BetweenMessages),
        ("given up, I-DATA", true, Resetting::BetweenMessages),
        ("given up on the way, DATA", false, Resetting::AmongMessages),
        (
            "given up on the way, I-DATA",
            true,
            Resetting::AmongMessages,
        ),
    ] {
        let mut run = PLAIN;
        run.name = name;
        run.efforts = [
            Effort::SentOnce,
            Effort::Reliable,
            Effort::Lifetime,
            Effort::SentTwice,
        ];
        run.interleaving = interleaving;
        run.resetting = resetting;
        runs_each(&rt, rt.alloc(), &run);
    }
}

// A request fits 84 streams.
#[test]
fn a_thousand_streams_are_closed_over_a_bad_link(rt: HostRuntime) {
    let mut run = PLAIN;
    run.name = "a thousand streams";
    run.faults = 10;
    run.mtu = 200;
    run.longest = 200;
    run.resetting = Resetting::AtOnce(1000);
    for seed in 0..3 {
        run.seed = seed;
        let _first_tsn = runs(&rt, rt.alloc(), &run);
    }
}

// The number of the first request is the first TSN (RFC 6525, section 4.1). By this seed the numbers wrap on the way.
#[test]
fn three_thousand_resets_go_past_the_last_number(rt: HostRuntime) {
    let mut run = PLAIN;
    run.name = "three thousand resets";
    run.seed = 312_708;
    run.longest = 200;
    run.resetting = Resetting::InTurn(3000);
    let first_tsn = runs(&rt, rt.alloc(), &run);
    assert!(rt; u32::MAX - first_tsn < 3000, "{first_tsn} is too small");
}
