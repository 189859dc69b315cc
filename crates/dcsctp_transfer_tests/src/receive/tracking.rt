//! Which TSNs count as received, what a SACK says of them, and when it is due.

use crate::receive::packets::Step::{
    Acknowledges, Begins, Expires, GoesAlong, HasNoTimer, HasSizes, HasTimeout, IsCumulative,
    IsDue, IsValid, Observes, Receives, Restores, Shows, Skips, TimesOut,
};
use crate::receive::packets::{Step, run};

#[test]
fn the_tsn_before_the_first_is_acknowledged(rt: HostRuntime) {
    static STEPS: &[(&str, Step)] = &[
        ("before 1", Begins(1)),
        ("before 1", IsCumulative(0)),
        ("before 0", Begins(0)),
        ("before 0", IsCumulative(0xffff_ffff)),
        ("before the last", Begins(0xffff_ffff)),
        ("before the last", IsCumulative(0xffff_fffe)),
    ];
    run(&rt, STEPS);
}

#[test]
fn tsns_move_the_cumulative_one(rt: HostRuntime) {
    static STEPS: &[(&str, Step)] = &[
        ("the first", Begins(0xffff_fffe)),
        ("the first", Receives(&[0xffff_fffe], true)),
        ("the first", IsCumulative(0xffff_fffe)),
        ("behind a gap", Receives(&[1], true)),
        ("behind a gap", IsCumulative(0xffff_fffe)),
        ("the second", Receives(&[0xffff_ffff], true)),
        ("the second", IsCumulative(0xffff_ffff)),
        ("the gap is closed", Receives(&[0], true)),
        ("the gap is closed", IsCumulative(1)),
        ("the second again", Receives(&[0xffff_ffff], false)),
        ("the second again", IsCumulative(1)),
        ("the last again", Receives(&[1], false)),
        ("the last again", IsCumulative(1)),
        ("the next", Receives(&[2], true)),
        ("the next", IsCumulative(2)),
    ];
    run(&rt, STEPS);
}

#[test]
fn tsns_are_valid_up_to_65535_ahead(rt: HostRuntime) {
    static STEPS: &[(&str, Step)] = &[
        ("the cumulative one", Begins(100)),
        ("the cumulative one", IsValid(99, true)),
        ("before it", IsValid(98, true)),
        ("before it, across the wrap", IsValid(0xffff_ffff, true)),
        ("65,535 ahead", IsValid(99 + 65535, true)),
        ("65,536 ahead", IsValid(99 + 65536, false)),
        ("the farthest ahead", IsValid(99 + 0x7fff_ffff, false)),
        ("the farthest behind", IsValid(99 + 0x8000_0000, true)),
    ];
    run(&rt, STEPS);
}

#[test]
fn gaps_are_told_as_distances(rt: HostRuntime) {
    static STEPS: &[(&str, Step)] = &[
        ("four blocks", Begins(10)),
        ("four blocks", Receives(&[10, 14, 12, 16, 18, 17, 13], true)),
        (
            "four blocks",
            Acknowledges(10, &[0, 2, 0, 4, 0, 6, 0, 8], 0),
        ),
        ("one block", Receives(&[15], true)),
        ("one block", Acknowledges(10, &[0, 2, 0, 8], 0)),
        ("none", Receives(&[11], true)),
        ("none", Acknowledges(18, &[], 0)),
    ];
    run(&rt, STEPS);
}

#[test]
fn gaps_are_told_across_the_wrap(rt: HostRuntime) {
    static STEPS: &[(&str, Step)] = &[
        ("two blocks", Begins(0xffff_ffff)),
        ("two blocks", Receives(&[0xffff_ffff, 1, 2, 4], true)),
        (
            "two blocks",
            Acknowledges(0xffff_ffff, &[0, 2, 0, 3, 0, 5, 0, 5], 0),
        ),
    ];
    run(&rt, STEPS);
}

// Thirty TSNs with a gap before each, and the first 25 of them again.
const WITH_GAPS: &[u32] = &[
    1, 3, 5, 7, 9, 11, 13, 15, 17, 19, 21, 23, 25, 27, 29, 31, 33, 35, 37, 39, 41, 43, 45, 47, 49,
    51, 53, 55, 57, 59,
];

const AGAIN: &[u32] = &[
    1, 3, 5, 7, 9, 11, 13, 15, 17, 19, 21, 23, 25, 27, 29, 31, 33, 35, 37, 39, 41, 43, 45, 47, 49,
];

#[test]
fn a_sack_holds_20_blocks_and_20_duplicates(rt: HostRuntime) {
    static STEPS: &[(&str, Step)] = &[
        ("new", Begins(0)),
        ("new", Receives(WITH_GAPS, true)),
        ("again", Receives(AGAIN, false)),
        // Four bytes each. The duplicates begin with TSN 1, and then 3.
        ("20 each", HasSizes(0xffff_ffff, 80, 80, Some(3))),
        ("forgotten", HasSizes(0xffff_ffff, 80, 0, None)),
    ];
    run(&rt, STEPS);
}

#[test]
fn each_second_packet_is_acknowledged_at_once(rt: HostRuntime) {
    static STEPS: &[(&str, Step)] = &[
        ("first", Begins(1)),
        ("first", Receives(&[1], true)),
        ("first", IsDue(true)),
        ("second", Receives(&[2], true)),
        ("second", IsDue(false)),
        ("third", Receives(&[3], true)),
        ("third", IsDue(true)),
        ("fourth", Receives(&[4], true)),
        ("fourth", IsDue(false)),
        ("fifth", Receives(&[5], true)),
        ("fifth", IsDue(true)),
        ("sixth", Receives(&[6], true)),
        ("sixth", IsDue(false)),
    ];
    run(&rt, STEPS);
}

#[test]
fn a_delayed_acknowledgement_waits_for_its_time(rt: HostRuntime) {
    // Half of the first RTO, 500 ms, is more than 200 ms; half of 300 ms is less.
    static STEPS: &[(&str, Step)] = &[
        ("RTO of 500 ms", Begins(1)),
        ("RTO of 500 ms", HasTimeout(500)),
        ("RTO of 500 ms, the first", Receives(&[1], true)),
        ("RTO of 500 ms, the first", IsDue(true)),
        ("RTO of 500 ms, no timer", HasNoTimer),
        ("RTO of 500 ms, the second", Receives(&[2], true)),
        ("RTO of 500 ms, timer", Expires(200_000_000)),
        ("RTO of 500 ms, early", TimesOut(199_999_999, false)),
        ("RTO of 500 ms, not due", IsDue(false)),
        ("RTO of 500 ms, over", TimesOut(200_000_000, true)),
        ("RTO of 500 ms, stopped", HasNoTimer),
        ("RTO of 500 ms, due", IsDue(true)),
        ("RTO of 500 ms, idle", GoesAlong(false)),
        ("RTO of 300 ms", Begins(1)),
        ("RTO of 300 ms", HasTimeout(300)),
        ("RTO of 300 ms, the first", Receives(&[1], true)),
        ("RTO of 300 ms, the first", IsDue(true)),
        ("RTO of 300 ms, no timer", HasNoTimer),
        ("RTO of 300 ms, the second", Receives(&[2], true)),
        ("RTO of 300 ms, timer", Expires(150_000_000)),
        ("RTO of 300 ms, early", TimesOut(149_999_999, false)),
        ("RTO of 300 ms, not due", IsDue(false)),
        ("RTO of 300 ms, over", TimesOut(150_000_000, true)),
        ("RTO of 300 ms, stopped", HasNoTimer),
        ("RTO of 300 ms, due", IsDue(true)),
        ("RTO of 300 ms, idle", GoesAlong(false)),
    ];
    run(&rt, STEPS);
}

#[test]
fn gaps_duplicates_and_flags_are_acknowledged_at_once(rt: HostRuntime) {
    // Each after TSN 1 was acknowledged.
    static STEPS: &[(&str, Step)] = &[
        ("in order", Begins(1)),
        ("in order", Receives(&[1], true)),
        ("in order", IsDue(true)),
        ("in order", Observes(2, false)),
        ("in order", IsDue(false)),
        ("with the flag", Begins(1)),
        ("with the flag", Receives(&[1], true)),
        ("with the flag", IsDue(true)),
        ("with the flag", Observes(2, true)),
        ("with the flag", IsDue(true)),
        ("a gap", Begins(1)),
        ("a gap", Receives(&[1], true)),
        ("a gap", IsDue(true)),
        ("a gap", Observes(3, false)),
        ("a gap", IsDue(true)),
        ("again", Begins(1)),
        ("again", Receives(&[1], true)),
        ("again", IsDue(true)),
        ("again", Observes(1, false)),
        ("again", IsDue(true)),
    ];
    run(&rt, STEPS);
}

#[test]
fn forward_tsns_skip_what_is_missing(rt: HostRuntime) {
    static STEPS: &[(&str, Step)] = &[
        ("with gaps", Begins(10)),
        ("with gaps", Receives(&[10, 12, 14, 15, 17], true)),
        ("with gaps", IsDue(true)),
        ("the cumulative one", Skips(10, false)),
        ("the cumulative one", IsCumulative(10)),
        ("before it", Skips(9, false)),
        ("before it", IsCumulative(10)),
        ("up to a block", Skips(13, true)),
        ("up to a block", IsCumulative(15)),
        ("up to the next block", Skips(16, true)),
        ("up to the next block", IsCumulative(17)),
        ("beyond all", Skips(20, true)),
        ("beyond all", IsCumulative(20)),
        ("beyond all", Acknowledges(20, &[], 0)),
    ];
    run(&rt, STEPS);
}

#[test]
fn a_new_tracker_goes_on_behind_a_snapshot(rt: HostRuntime) {
    static STEPS: &[(&str, Step)] = &[
        ("three", Begins(10)),
        ("three", Receives(&[10, 11, 12], true)),
        ("three", Shows(12, true)),
        ("restored", Restores(500, 12, true)),
        ("restored", Shows(12, true)),
        ("restored", IsCumulative(12)),
        ("nothing is owed", GoesAlong(false)),
        ("nothing is owed", HasNoTimer),
        ("the next", Receives(&[13], true)),
        ("the next", IsCumulative(13)),
        ("data was received before", IsDue(false)),
        ("the last again", Receives(&[12], false)),
        ("the last again", Acknowledges(13, &[], 1)),
        ("across the wrap", Begins(0xffff_ffff)),
        ("across the wrap", Receives(&[0xffff_ffff, 0, 1], true)),
        ("across the wrap", Shows(1, true)),
        ("across the wrap", Restores(500, 1, true)),
        ("all again", Receives(&[0xffff_ffff, 0, 1], false)),
        ("the next", Receives(&[2], true)),
        ("none", Begins(10)),
        ("none", Shows(9, false)),
        ("none", Restores(500, 9, false)),
        ("the first", Receives(&[10], true)),
        ("the first", IsDue(true)),
        ("the first", Shows(10, true)),
    ];
    run(&rt, STEPS);
}
