//! Streams that start again, what waits for that, and the receive window.

use crate::receive::arrivals::Part::{First, Last, Whole};
use crate::receive::arrivals::Step::{
    Add, Begins, Counts, Defers, Fills, Gives, Remains, Resets, Rests, Skips,
};
use crate::receive::arrivals::{Step, run};
use dcsctp_api::StreamId;
use dcsctp_receive_reassembly::Numbering::{Ordered, Unordered};

#[test]
fn the_whole_window_is_open_at_first(rt: HostRuntime) {
    static STEPS: &[(&str, Step)] = &[
        ("some", Begins(5_242_880)),
        ("some", Remains(5_242_880)),
        ("none", Begins(0)),
        ("none", Remains(0)),
    ];
    run(&rt, STEPS);
}

#[test]
fn what_comes_behind_a_deferred_reset_waits(rt: HostRuntime) {
    static STEPS: &[(&str, Step)] = &[
        ("before", Begins(100)),
        ("before", Add(1, 1, Ordered { ssn: 0 }, Whole, "a")),
        ("deferred", Defers(3, &[StreamId(1)])),
        ("another one changes nothing", Defers(9, &[StreamId(2)])),
        ("beyond it", Add(4, 1, Ordered { ssn: 0 }, Whole, "new")),
        (
            "another stream",
            Add(5, 2, Ordered { ssn: 0 }, Whole, "other"),
        ),
        (
            "up to the last TSN",
            Add(2, 1, Ordered { ssn: 1 }, Whole, "b"),
        ),
        ("the last TSN", Add(3, 1, Ordered { ssn: 2 }, Whole, "c")),
        ("held", Remains(100 - 11)),
        ("before", Gives("a")),
        ("another stream", Gives("other")),
        ("up to the last TSN", Gives("b")),
        ("the last TSN", Gives("c")),
        ("beyond it", Rests(97)),
        ("reset", Resets(&[StreamId(1)])),
        ("on the new stream", Gives("new")),
        (
            "the other goes on",
            Add(6, 2, Ordered { ssn: 1 }, Whole, "more"),
        ),
        ("the other goes on", Gives("more")),
        (
            "the new goes on",
            Add(7, 1, Ordered { ssn: 1 }, Whole, "newer"),
        ),
        ("the new goes on", Gives("newer")),
        ("all is taken", Rests(100)),
        ("messages", Counts(7)),
    ];
    run(&rt, STEPS);
}

#[test]
fn a_deferral_compares_tsns_across_the_wrap(rt: HostRuntime) {
    static STEPS: &[(&str, Step)] = &[
        ("deferred", Begins(100)),
        ("deferred", Defers(0xffff_fffe, &[])),
        ("behind", Add(1, 7, Ordered { ssn: 0 }, Whole, "behind")),
        (
            "before",
            Add(0xffff_fffd, 7, Ordered { ssn: 0 }, Whole, "before"),
        ),
        ("skipped", Skips(2, 4)),
        ("after", Add(3, 7, Ordered { ssn: 5 }, Whole, "after")),
        ("before the last TSN", Gives("before")),
        ("the others wait", Rests(100 - 11)),
        ("reset", Resets(&[])),
        ("the new stream", Gives("behind")),
        ("behind what was skipped", Gives("after")),
        ("all is taken", Rests(100)),
        ("messages", Counts(3)),
    ];
    run(&rt, STEPS);
}

#[test]
fn what_is_skipped_waits_on_the_streams_of_a_deferred_reset(rt: HostRuntime) {
    static STEPS: &[(&str, Step)] = &[
        ("another stream", Begins(100)),
        ("another stream", Defers(3, &[StreamId(1)])),
        (
            "another stream",
            Add(4, 7, Ordered { ssn: 1 }, Whole, "seven"),
        ),
        ("its first is missing", Rests(95)),
        ("skipped at once", Skips(5, 0)),
        ("skipped at once", Gives("seven")),
        ("the stream itself", Begins(100)),
        ("the stream itself", Defers(3, &[StreamId(7)])),
        (
            "the stream itself",
            Add(4, 7, Ordered { ssn: 1 }, Whole, "new"),
        ),
        ("skipped later", Skips(5, 0)),
        ("the newest counts", Skips(6, 2)),
        (
            "the stream itself",
            Add(7, 7, Ordered { ssn: 3 }, Whole, "last"),
        ),
        ("all waits", Rests(93)),
        ("reset", Resets(&[StreamId(7)])),
        ("up to the newest", Gives("new")),
        ("up to the newest", Gives("last")),
        ("all is taken", Rests(100)),
    ];
    run(&rt, STEPS);
}

#[test]
fn a_reset_of_all_streams_leaves_what_is_ready(rt: HostRuntime) {
    static STEPS: &[(&str, Step)] = &[
        ("ready", Begins(100)),
        ("ready", Add(1, 7, Ordered { ssn: 0 }, Whole, "ready")),
        ("waits", Add(2, 7, Ordered { ssn: 2 }, Whole, "waits")),
        ("part", Add(3, 7, Ordered { ssn: 3 }, First, "part")),
        ("apart", Add(5, 7, Unordered, First, "apart")),
        ("held", Remains(100 - 19)),
        ("reset", Resets(&[])),
        ("ready", Remains(100 - 5)),
        ("anew", Add(6, 7, Ordered { ssn: 0 }, Whole, "anew")),
        ("was ready", Gives("ready")),
        ("begins anew", Gives("anew")),
        ("all is taken", Rests(100)),
    ];
    run(&rt, STEPS);
}

#[test]
fn a_reset_of_some_streams_leaves_the_others(rt: HostRuntime) {
    static STEPS: &[(&str, Step)] = &[
        ("stream 7", Begins(100)),
        ("stream 7", Add(1, 7, Unordered, First, "seven")),
        ("stream 8", Add(3, 8, Unordered, First, "eight")),
        ("stream 9", Add(5, 9, Unordered, First, "nine")),
        ("stream 63", Add(7, 63, Unordered, First, "63")),
        ("stream 65535", Add(9, 65535, Unordered, First, "last")),
        ("in order", Add(11, 8, Ordered { ssn: 1 }, Whole, "waits")),
        ("held", Remains(100 - 25)),
        (
            "reset",
            Resets(&[StreamId(7), StreamId(9), StreamId(65535), StreamId(7)]),
        ),
        ("reset", Remains(100 - 12)),
        ("stream 8", Add(4, 8, Unordered, Last, "h")),
        ("stream 8", Gives("eighth")),
        ("stream 63", Add(8, 63, Unordered, Last, "rd")),
        ("stream 63", Gives("63rd")),
        ("stream 7", Add(2, 7, Unordered, Last, "th")),
        ("its beginning is gone", Rests(100 - 5 - 2)),
        ("in order", Add(12, 8, Ordered { ssn: 0 }, Whole, "next")),
        ("in order", Gives("next")),
        ("in order", Gives("waits")),
        ("the rest", Rests(100 - 2)),
    ];
    run(&rt, STEPS);
}

#[test]
fn the_window_closes(rt: HostRuntime) {
    // Nine tenths of 10 are the watermark.
    static STEPS: &[(&str, Step)] = &[
        ("8 of 10", Begins(10)),
        ("8 of 10", Add(1, 1, Ordered { ssn: 1 }, Whole, "12345678")),
        ("8 of 10", Rests(2)),
        ("8 of 10", Fills(false, false)),
        ("9 of 10", Begins(10)),
        ("9 of 10", Add(1, 1, Ordered { ssn: 1 }, Whole, "123456789")),
        ("9 of 10", Rests(1)),
        ("9 of 10", Fills(false, true)),
        ("10 of 10", Begins(10)),
        (
            "10 of 10",
            Add(1, 1, Ordered { ssn: 1 }, Whole, "1234567890"),
        ),
        ("10 of 10", Rests(0)),
        ("10 of 10", Fills(true, true)),
        ("12 of 10", Begins(10)),
        (
            "12 of 10",
            Add(1, 1, Ordered { ssn: 1 }, Whole, "123456789012"),
        ),
        ("12 of 10", Rests(0)),
        ("12 of 10", Fills(true, true)),
    ];
    run(&rt, STEPS);
}
