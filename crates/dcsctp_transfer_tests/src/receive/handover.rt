//! What a snapshot has of a queue, and how a new queue continues from it.

use crate::receive::arrivals::Part::{First, Last, Whole};
use crate::receive::arrivals::Step::{Add, Begins, Counts, Gives, Restores, Rests, Shows, Skips};
use crate::receive::arrivals::{Step, run};
use dcsctp_api::types::HandoverOrderedStream;
use dcsctp_receive_reassembly::Numbering::{InterleavedOrdered, Ordered, Unordered};

#[test]
fn streams_go_on_where_they_stood(rt: HostRuntime) {
    const STREAMS: &[HandoverOrderedStream] = &[
        HandoverOrderedStream { id: 1, next_ssn: 3 },
        HandoverOrderedStream { id: 9, next_ssn: 1 },
    ];
    static STEPS: &[(&str, Step)] = &[
        ("three", Begins(100)),
        ("0", Add(1, 1, Ordered { ssn: 0 }, Whole, "a")),
        ("1", Add(2, 1, Ordered { ssn: 1 }, Whole, "b")),
        ("2", Add(3, 1, Ordered { ssn: 2 }, Whole, "c")),
        ("another stream", Add(4, 9, Ordered { ssn: 0 }, Whole, "x")),
        ("0", Gives("a")),
        ("1", Gives("b")),
        ("2", Gives("c")),
        ("another stream", Gives("x")),
        ("shown", Shows(4, STREAMS)),
        ("restored", Restores(100, 4, STREAMS)),
        ("shown again", Shows(4, STREAMS)),
        ("all of the window is left", Rests(100)),
        ("3", Add(5, 1, Ordered { ssn: 3 }, Whole, "d")),
        ("3", Gives("d")),
        ("5", Add(7, 1, Ordered { ssn: 5 }, Whole, "f")),
        ("4 is missing", Rests(99)),
        ("4", Add(6, 1, Ordered { ssn: 4 }, Whole, "e")),
        ("4", Gives("e")),
        ("5", Gives("f")),
        ("another stream", Add(8, 9, Ordered { ssn: 1 }, Whole, "y")),
        ("another stream", Gives("y")),
        ("a new stream", Add(9, 2, Ordered { ssn: 0 }, Whole, "z")),
        ("a new stream", Gives("z")),
        ("all is taken", Rests(100)),
        ("messages since then", Counts(5)),
    ];
    run(&rt, STEPS);
}

#[test]
fn numbers_of_a_snapshot_wrap(rt: HostRuntime) {
    // Numbers are counted in 32 bits. Of DATA the lower 16 are sent, of I-DATA all.
    const DATA: &[HandoverOrderedStream] = &[HandoverOrderedStream {
        id: 7,
        next_ssn: 65536,
    }];
    const INTERLEAVED: &[HandoverOrderedStream] = &[HandoverOrderedStream {
        id: 7,
        next_ssn: 0xffff_ffff,
    }];
    static STEPS: &[(&str, Step)] = &[
        ("65,536 were received", Begins(100)),
        ("32,768 of them", Skips(0xffff_fffe, 32767)),
        ("all of them", Skips(0xffff_ffff, 65535)),
        ("65,536 were received", Shows(0xffff_ffff, DATA)),
        ("65,536 were received", Restores(100, 0xffff_ffff, DATA)),
        ("1", Add(1, 7, Ordered { ssn: 1 }, Whole, "b")),
        ("0 is missing", Rests(99)),
        ("0", Add(0, 7, Ordered { ssn: 0 }, Whole, "a")),
        ("0", Gives("a")),
        ("1", Gives("b")),
        ("the last identifier", Restores(100, 5, INTERLEAVED)),
        (
            "the first one",
            Add(7, 7, InterleavedOrdered { mid: 0, fsn: 0 }, Whole, "d"),
        ),
        ("the last is missing", Rests(99)),
        (
            "the last one",
            Add(
                6,
                7,
                InterleavedOrdered {
                    mid: 0xffff_ffff,
                    fsn: 0,
                },
                Whole,
                "c",
            ),
        ),
        ("the last one", Gives("c")),
        ("the first one", Gives("d")),
        (
            "both",
            Shows(6, &[HandoverOrderedStream { id: 7, next_ssn: 1 }]),
        ),
    ];
    run(&rt, STEPS);
}

#[test]
fn unordered_parts_go_by_tsns_behind_the_last(rt: HostRuntime) {
    static STEPS: &[(&str, Step)] = &[
        ("whole", Begins(100)),
        ("whole", Add(0xffff_ffff, 3, Unordered, Whole, "a")),
        ("whole", Gives("a")),
        ("no stream", Shows(0xffff_ffff, &[])),
        ("no stream", Restores(100, 0xffff_ffff, &[])),
        ("its end", Add(1, 3, Unordered, Last, "c")),
        ("its beginning", Add(0, 3, Unordered, First, "b")),
        ("joined", Gives("bc")),
        ("all is taken", Rests(100)),
    ];
    run(&rt, STEPS);
}

#[test]
fn the_first_counts_if_a_stream_stands_twice(rt: HostRuntime) {
    const TWICE: &[HandoverOrderedStream] = &[
        HandoverOrderedStream { id: 5, next_ssn: 3 },
        HandoverOrderedStream { id: 1, next_ssn: 2 },
        HandoverOrderedStream { id: 5, next_ssn: 8 },
    ];
    const ONCE: &[HandoverOrderedStream] = &[
        HandoverOrderedStream { id: 1, next_ssn: 2 },
        HandoverOrderedStream { id: 5, next_ssn: 3 },
    ];
    static STEPS: &[(&str, Step)] = &[("twice", Restores(100, 4, TWICE)), ("once", Shows(4, ONCE))];
    run(&rt, STEPS);
}
