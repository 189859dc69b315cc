//! Both ends are handed over to other sockets, ten times each, on one association: what was sent arrives
//! whole, once and in order.

use crate::run::{Effort, Handing, PLAIN, Resetting};
use crate::simulation::{runs, runs_each};

// About a mebibyte goes each way, and ten of a hundred packets are lost.
#[test]
fn a_mebibyte_each_way_goes_on_over_a_bad_link(rt: HostRuntime) {
    for (name, handing, interleaving) in [
        ("a mebibyte, at rest, DATA", Handing::AtRest, false),
        ("a mebibyte, at rest, I-DATA", Handing::AtRest, true),
        ("a mebibyte, with data, DATA", Handing::WithData, false),
        ("a mebibyte, with data, I-DATA", Handing::WithData, true),
    ] {
        let mut run = PLAIN;
        run.name = name;
        run.faults = 10;
        run.longest = 7500;
        run.interleaving = interleaving;
        run.handing = handing;
        let _first_tsn = runs(&rt, rt.alloc(), &run);
    }
}

#[test]
fn sockets_go_on_at_rest(rt: HostRuntime) {
    for (name, has_unordered, interleaving, zero_checksum) in [
        ("at rest, DATA", false, false, false),
        ("at rest, unordered I-DATA", true, true, false),
        ("at rest, without checksums", false, false, true),
    ] {
        let mut run = PLAIN;
        run.name = name;
        run.has_unordered = has_unordered;
        run.interleaving = interleaving;
        run.zero_checksum = zero_checksum;
        run.handing = Handing::AtRest;
        runs_each(&rt, rt.alloc(), &run);
    }
}

#[test]
fn sockets_go_on_with_what_is_in_flight(rt: HostRuntime) {
    for (name, has_unordered, interleaving) in [
        ("with data, DATA", false, false),
        ("with data, I-DATA", false, true),
        ("with data, unordered DATA", true, false),
        ("with data, unordered I-DATA", true, true),
    ] {
        let mut run = PLAIN;
        run.name = name;
        run.has_unordered = has_unordered;
        run.interleaving = interleaving;
        run.handing = Handing::WithData;
        runs_each(&rt, rt.alloc(), &run);
    }
}

// How often a message was sent, and how long it is tried, goes along.
#[test]
fn messages_that_are_given_up_go_along(rt: HostRuntime) {
    for (name, interleaving) in [
        ("given up, with data, DATA", false),
        ("given up, with data, I-DATA", true),
    ] {
        let mut run = PLAIN;
        run.name = name;
        run.efforts = [
            Effort::SentOnce,
            Effort::Reliable,
            Effort::Lifetime,
            Effort::SentTwice,
        ];
        run.interleaving = interleaving;
        run.handing = Handing::WithData;
        runs_each(&rt, rt.alloc(), &run);
    }
}

#[test]
fn streams_are_reset_between_handovers(rt: HostRuntime) {
    for (name, interleaving, handing) in [
        ("resets at rest, DATA", false, Handing::AtRest),
        ("resets at rest, I-DATA", true, Handing::AtRest),
        ("resets with data, DATA", false, Handing::WithData),
        ("resets with data, I-DATA", true, Handing::WithData),
    ] {
        let mut run = PLAIN;
        run.name = name;
        run.interleaving = interleaving;
        run.longest = 2000;
        run.resetting = Resetting::BetweenMessages;
        run.handing = handing;
        runs_each(&rt, rt.alloc(), &run);
    }
}

// With DATA a late part of such a message may stay at the other end until its stream is reset. Till then that
// end isn't ready.
#[test]
fn a_reset_parts_messages_that_are_given_up(rt: HostRuntime) {
    let mut run = PLAIN;
    run.name = "resets of messages that are given up, at rest, I-DATA";
    run.efforts = [
        Effort::SentOnce,
        Effort::Reliable,
        Effort::Lifetime,
        Effort::SentTwice,
    ];
    run.interleaving = true;
    run.resetting = Resetting::AmongMessages;
    run.handing = Handing::AtRest;
    runs_each(&rt, rt.alloc(), &run);
}

// Which items were sent before a reset is not known after the handover, so no FORWARD-TSN reaches across any.
#[test]
fn a_reset_parts_messages_that_are_given_up_and_go_along(rt: HostRuntime) {
    for (name, resetting) in [
        (
            "resets among messages that are given up",
            Resetting::AmongMessages,
        ),
        (
            "resets between messages that are given up",
            Resetting::BetweenMessages,
        ),
    ] {
        let mut run = PLAIN;
        run.name = name;
        run.efforts = [
            Effort::SentOnce,
            Effort::Reliable,
            Effort::Lifetime,
            Effort::SentTwice,
        ];
        run.interleaving = true;
        run.resetting = resetting;
        run.handing = Handing::WithData;
        runs_each(&rt, rt.alloc(), &run);
    }
}
