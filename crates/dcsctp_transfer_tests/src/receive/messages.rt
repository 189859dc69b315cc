//! Messages out of chunks: in parts, in any order, twice, skipped, and with numbers that wrap.

use crate::receive::arrivals::Part::{First, Last, Middle, Whole};
use crate::receive::arrivals::Step::{Add, Begins, Counts, Gives, Rests, Skips, SkipsMessages};
use crate::receive::arrivals::{Step, run};
use dcsctp_receive_reassembly::Numbering::{
    InterleavedOrdered, InterleavedUnordered, Ordered, Unordered,
};

#[test]
fn ordered_messages_come_by_number(rt: HostRuntime) {
    static STEPS: &[(&str, Step)] = &[
        ("one chunk each", Begins(1000)),
        ("one chunk each", Add(1, 7, Ordered { ssn: 1 }, Whole, "bb")),
        ("one chunk each", Add(2, 7, Ordered { ssn: 2 }, Whole, "cc")),
        ("the first is missing", Rests(996)),
        ("one chunk each", Add(3, 7, Ordered { ssn: 0 }, Whole, "aa")),
        ("first", Gives("aa")),
        ("second", Gives("bb")),
        ("third", Gives("cc")),
        ("in three parts", Add(4, 7, Ordered { ssn: 3 }, First, "d")),
        ("in three parts", Add(6, 7, Ordered { ssn: 3 }, Last, "f")),
        ("behind it", Add(7, 7, Ordered { ssn: 4 }, Whole, "g")),
        ("the middle is missing", Rests(997)),
        ("in three parts", Add(5, 7, Ordered { ssn: 3 }, Middle, "e")),
        ("in three parts", Gives("def")),
        ("behind it", Gives("g")),
        ("all is taken", Rests(1000)),
        ("messages", Counts(5)),
    ];
    run(&rt, STEPS);
}

#[test]
fn stream_sequence_numbers_wrap(rt: HostRuntime) {
    static STEPS: &[(&str, Step)] = &[
        ("near the wrap", Begins(1000)),
        ("near the wrap", Skips(0xffff_fff0, 30000)),
        ("near the wrap", Skips(0xffff_fff1, 60000)),
        ("near the wrap", Skips(0xffff_fff2, 65534)),
        (
            "65535",
            Add(0xffff_ffff, 7, Ordered { ssn: 65535 }, First, "a"),
        ),
        ("0", Add(1, 7, Ordered { ssn: 0 }, Whole, "c")),
        ("1", Add(2, 7, Ordered { ssn: 1 }, Whole, "d")),
        ("65535 isn't whole", Rests(997)),
        ("65535", Add(0, 7, Ordered { ssn: 65535 }, Last, "b")),
        ("65535", Gives("ab")),
        ("0", Gives("c")),
        ("1", Gives("d")),
        ("all is taken", Rests(1000)),
    ];
    run(&rt, STEPS);
}

// Messages of this kind, the last before the wrap and the first after it.
macro_rules! identifiers_wrap {
    ($is_unordered:literal, $kind:ident) => {
        &[
            ("near the wrap", Begins(1000)),
            ("near the wrap", SkipsMessages(1, $is_unordered, 0x7fff_0000)),
            ("near the wrap", SkipsMessages(2, $is_unordered, 0xfffe_0000)),
            ("near the wrap", SkipsMessages(3, $is_unordered, 0xffff_fffe)),
            ("the last identifier", Add(4, 7, $kind { mid: 0xffff_ffff, fsn: 1 }, Last, "b")),
            ("the first identifier", Add(5, 7, $kind { mid: 0, fsn: 1 }, Last, "d")),
            ("no beginning", Rests(998)),
            ("the last identifier", Add(6, 7, $kind { mid: 0xffff_ffff, fsn: 0 }, First, "a")),
            ("the last identifier", Gives("ab")),
            ("the first identifier", Add(7, 7, $kind { mid: 0, fsn: 0 }, First, "c")),
            ("the first identifier", Gives("cd")),
            ("all is taken", Rests(1000)),
        ]
    };
}

#[test]
fn identifiers_of_ordered_messages_wrap(rt: HostRuntime) {
    static STEPS: &[(&str, Step)] = identifiers_wrap!(false, InterleavedOrdered);
    run(&rt, STEPS);
}

#[test]
fn identifiers_of_unordered_messages_wrap(rt: HostRuntime) {
    static STEPS: &[(&str, Step)] = identifiers_wrap!(true, InterleavedUnordered);
    run(&rt, STEPS);
}

#[test]
fn parts_go_by_tsns_across_the_wrap(rt: HostRuntime) {
    static STEPS: &[(&str, Step)] = &[
        ("ordered", Begins(1000)),
        (
            "ordered",
            Add(0xffff_fffe, 7, Ordered { ssn: 0 }, First, "a"),
        ),
        ("ordered", Add(1, 7, Ordered { ssn: 0 }, Last, "d")),
        ("ordered", Add(0, 7, Ordered { ssn: 0 }, Middle, "c")),
        ("ordered: one is missing", Rests(997)),
        (
            "ordered",
            Add(0xffff_ffff, 7, Ordered { ssn: 0 }, Middle, "b"),
        ),
        ("ordered: whole", Gives("abcd")),
        ("ordered: all is taken", Rests(1000)),
        ("unordered", Begins(1000)),
        ("unordered", Add(0xffff_fffe, 7, Unordered, First, "a")),
        ("unordered", Add(1, 7, Unordered, Last, "d")),
        ("unordered", Add(0, 7, Unordered, Middle, "c")),
        ("unordered: one is missing", Rests(997)),
        ("unordered", Add(0xffff_ffff, 7, Unordered, Middle, "b")),
        ("unordered: whole", Gives("abcd")),
        ("unordered: all is taken", Rests(1000)),
    ];
    run(&rt, STEPS);
}

#[test]
fn unordered_messages_come_once_whole(rt: HostRuntime) {
    static STEPS: &[(&str, Step)] = &[
        ("of three chunks", Begins(1000)),
        ("of three chunks", Add(10, 1, Unordered, First, "a")),
        ("of one chunk", Add(14, 1, Unordered, Whole, "x")),
        ("of one chunk", Gives("x")),
        ("of three chunks", Add(12, 1, Unordered, Last, "c")),
        ("of two chunks", Add(15, 1, Unordered, First, "y")),
        ("of two chunks", Add(16, 1, Unordered, Last, "z")),
        ("of two chunks", Gives("yz")),
        ("of three chunks", Add(11, 1, Unordered, Middle, "b")),
        ("of three chunks", Gives("abc")),
        ("the end came first", Add(21, 1, Unordered, Last, "2")),
        ("the end came first", Add(20, 1, Unordered, First, "1")),
        ("the end came first", Gives("12")),
        ("all is taken", Rests(1000)),
    ];
    run(&rt, STEPS);
}

#[test]
fn interleaved_messages_go_by_fragment_numbers(rt: HostRuntime) {
    static STEPS: &[(&str, Step)] = &[
        ("the first", Begins(1000)),
        (
            "the first",
            Add(1, 3, InterleavedOrdered { mid: 0, fsn: 0 }, First, "a"),
        ),
        (
            "the second",
            Add(2, 3, InterleavedOrdered { mid: 1, fsn: 0 }, First, "x"),
        ),
        (
            "the unordered one",
            Add(3, 3, InterleavedUnordered { mid: 5, fsn: 1 }, Middle, "2"),
        ),
        ("none is whole", Rests(997)),
        (
            "the first",
            Add(4, 3, InterleavedOrdered { mid: 0, fsn: 1 }, Last, "b"),
        ),
        ("the first", Gives("ab")),
        (
            "the unordered one",
            Add(5, 3, InterleavedUnordered { mid: 5, fsn: 2 }, Last, "3"),
        ),
        (
            "the second",
            Add(6, 3, InterleavedOrdered { mid: 1, fsn: 1 }, Last, "y"),
        ),
        ("the second", Gives("xy")),
        (
            "the unordered one",
            Add(7, 3, InterleavedUnordered { mid: 5, fsn: 0 }, First, "1"),
        ),
        ("the unordered one", Gives("123")),
        ("all is taken", Rests(1000)),
    ];
    run(&rt, STEPS);
}

#[test]
fn a_part_that_is_there_is_dropped(rt: HostRuntime) {
    static STEPS: &[(&str, Step)] = &[
        ("aa", Begins(100)),
        ("aa", Add(10, 7, Ordered { ssn: 0 }, First, "aa")),
        ("aa", Rests(98)),
        ("aa again", Add(10, 7, Ordered { ssn: 0 }, First, "aa")),
        ("aa again", Rests(98)),
        ("cc", Add(12, 7, Ordered { ssn: 0 }, Middle, "cc")),
        ("cc", Rests(96)),
        ("cc again", Add(12, 7, Ordered { ssn: 0 }, Middle, "cc")),
        ("cc again", Rests(96)),
        ("bb", Add(11, 7, Ordered { ssn: 0 }, Middle, "bb")),
        ("bb", Rests(94)),
        ("bb again", Add(11, 7, Ordered { ssn: 0 }, Middle, "bb")),
        ("bb again", Rests(94)),
        (
            "aa once joined",
            Add(10, 7, Ordered { ssn: 0 }, First, "aa"),
        ),
        ("aa once joined", Rests(94)),
        (
            "cc once joined",
            Add(12, 7, Ordered { ssn: 0 }, Middle, "cc"),
        ),
        ("cc once joined", Rests(94)),
        ("whole", Add(13, 7, Ordered { ssn: 0 }, Last, "dd")),
        ("whole", Gives("aabbccdd")),
        ("all is taken", Rests(100)),
    ];
    run(&rt, STEPS);
}

#[test]
fn skipped_messages_make_way(rt: HostRuntime) {
    static STEPS: &[(&str, Step)] = &[
        ("lost", Begins(100)),
        ("lost", Add(2, 7, Ordered { ssn: 0 }, Middle, "lost")),
        ("kept", Add(4, 7, Ordered { ssn: 1 }, Whole, "kept")),
        ("next", Add(5, 7, Ordered { ssn: 2 }, Whole, "next")),
        ("later", Add(6, 7, Ordered { ssn: 4 }, Whole, "later")),
        ("unordered", Add(7, 9, Unordered, First, "part")),
        ("the first isn't whole", Rests(100 - 21)),
        ("up to the number", Skips(4, 1)),
        ("up to the number", Gives("kept")),
        ("behind it", Gives("next")),
        ("the rest waits", Rests(100 - 9)),
        ("the unordered part", Skips(7, 1)),
        ("the unordered part is dropped", Rests(100 - 5)),
    ];
    run(&rt, STEPS);
}

#[test]
fn messages_far_ahead_wait(rt: HostRuntime) {
    // Stream sequence numbers up to 65,535 after the next one are read. Messages of one chunk have TSNs in a
    // row.
    static STEPS: &[(&str, Step)] = &[
        ("DATA", Begins(100)),
        ("half", Add(32769, 7, Ordered { ssn: 32768 }, Whole, "half")),
        ("all", Add(65536, 7, Ordered { ssn: 65535 }, Whole, "all")),
        ("both wait", Rests(100 - 7)),
        ("first", Add(1, 7, Ordered { ssn: 0 }, Whole, "first")),
        ("first", Gives("first")),
        ("up to half", Skips(32768, 32767)),
        ("half", Gives("half")),
        ("the rest waits", Rests(100 - 3)),
        ("up to all", Skips(65535, 65534)),
        ("all", Gives("all")),
        (
            "across the wrap",
            Add(98306, 7, Ordered { ssn: 32768 }, Whole, "half"),
        ),
        (
            "across the wrap",
            Add(65537, 7, Ordered { ssn: 0 }, First, "a"),
        ),
        ("they wait", Rests(100 - 5)),
        (
            "across the wrap",
            Add(65538, 7, Ordered { ssn: 0 }, Last, "b"),
        ),
        ("across the wrap", Gives("ab")),
        ("up to half", Skips(98305, 32767)),
        ("half", Gives("half")),
        ("all is taken", Rests(100)),
        ("I-DATA", Begins(100)),
        (
            "half",
            Add(
                32769,
                7,
                InterleavedOrdered { mid: 32768, fsn: 0 },
                Whole,
                "half",
            ),
        ),
        (
            "all",
            Add(
                65536,
                7,
                InterleavedOrdered { mid: 65535, fsn: 0 },
                Whole,
                "all",
            ),
        ),
        ("both wait", Rests(100 - 7)),
        (
            "first",
            Add(1, 7, InterleavedOrdered { mid: 0, fsn: 0 }, Whole, "first"),
        ),
        ("first", Gives("first")),
        ("up to half", SkipsMessages(32768, false, 32767)),
        ("half", Gives("half")),
        ("up to all", SkipsMessages(65535, false, 65534)),
        ("all", Gives("all")),
        ("all is taken", Rests(100)),
    ];
    run(&rt, STEPS);
}

#[test]
fn a_number_that_comes_twice_loses_nothing(rt: HostRuntime) {
    // No order says which of the two comes first, so the second doesn't wait.
    static STEPS: &[(&str, Step)] = &[
        ("waits", Begins(100)),
        ("waits", Add(2, 7, Ordered { ssn: 1 }, Whole, "waits")),
        (
            "the same number",
            Add(3, 7, Ordered { ssn: 1 }, Whole, "same"),
        ),
        ("the same number", Gives("same")),
        ("in two parts", Add(4, 7, Ordered { ssn: 1 }, First, "pa")),
        ("its beginning is kept", Rests(100 - 5 - 2)),
        ("in two parts", Add(5, 7, Ordered { ssn: 1 }, Last, "rts")),
        ("in two parts", Gives("parts")),
        ("one waits", Rests(100 - 5)),
        ("the first", Add(1, 7, Ordered { ssn: 0 }, Whole, "c")),
        ("the first", Gives("c")),
        ("waits", Gives("waits")),
        ("all is taken", Rests(100)),
        ("messages", Counts(4)),
    ];
    run(&rt, STEPS);
}

#[test]
fn parts_join_in_any_order(rt: HostRuntime) {
    // A part goes between two runs, after one, before one, and alone. The last makes the message whole.
    static STEPS: &[(&str, Step)] = &[
        ("second", Begins(100)),
        ("second", Add(2, 7, Ordered { ssn: 0 }, Middle, "b")),
        ("fourth", Add(4, 7, Ordered { ssn: 0 }, Middle, "d")),
        ("between", Add(3, 7, Ordered { ssn: 0 }, Middle, "c")),
        ("again", Add(3, 7, Ordered { ssn: 0 }, Middle, "x")),
        ("behind", Add(5, 7, Ordered { ssn: 0 }, Middle, "e")),
        ("of another", Add(7, 7, Ordered { ssn: 1 }, First, "one")),
        ("before", Add(1, 7, Ordered { ssn: 0 }, First, "a")),
        ("held", Rests(100 - 8)),
        ("the end", Add(6, 7, Ordered { ssn: 0 }, Last, "f")),
        ("in order", Gives("abcdef")),
        ("of another", Add(8, 7, Ordered { ssn: 1 }, Last, "two")),
        ("of another", Gives("onetwo")),
        ("all is taken", Rests(100)),
    ];
    run(&rt, STEPS);
}

#[test]
fn a_skip_that_comes_again_skips_nothing(rt: HostRuntime) {
    // If a SACK is lost, a FORWARD-TSN names again what was skipped before.
    static STEPS: &[(&str, Step)] = &[
        ("waits", Begins(100)),
        ("waits", Add(3, 7, Ordered { ssn: 1 }, Whole, "waits")),
        ("part", Add(5, 7, Ordered { ssn: 2 }, First, "part")),
        ("up to 0", Skips(2, 0)),
        ("behind it", Gives("waits")),
        ("again", Skips(4, 0)),
        ("the part stays", Rests(100 - 4)),
        ("part", Add(6, 7, Ordered { ssn: 2 }, Last, "whole")),
        ("it becomes whole", Gives("partwhole")),
        ("all is taken", Rests(100)),
    ];
    run(&rt, STEPS);
}

#[test]
fn a_late_part_of_a_skipped_message_is_dropped(rt: HostRuntime) {
    // Another message has the TSN between the two parts, so that an I-FORWARD-TSN reaches the first part alone.
    static STEPS: &[(&str, Step)] = &[
        ("next", Begins(100)),
        (
            "next",
            Add(13, 7, InterleavedOrdered { mid: 1, fsn: 0 }, Whole, "next"),
        ),
        ("waits", Rests(100 - 4)),
        ("up to 0", SkipsMessages(10, false, 0)),
        ("next", Gives("next")),
        (
            "late",
            Add(12, 7, InterleavedOrdered { mid: 0, fsn: 1 }, Last, "late"),
        ),
        ("it is dropped", Rests(100)),
        ("messages", Counts(1)),
    ];
    run(&rt, STEPS);
}

#[test]
fn skipped_unordered_messages_are_dropped(rt: HostRuntime) {
    static STEPS: &[(&str, Step)] = &[
        ("0", Begins(100)),
        (
            "0",
            Add(0, 7, InterleavedUnordered { mid: 0, fsn: 0 }, First, "part"),
        ),
        (
            "1",
            Add(1, 7, InterleavedUnordered { mid: 1, fsn: 0 }, First, "part"),
        ),
        (
            "2",
            Add(2, 7, InterleavedUnordered { mid: 2, fsn: 0 }, First, "part"),
        ),
        ("up to 1", SkipsMessages(1, true, 1)),
        ("one is left", Rests(96)),
        (
            "2",
            Add(3, 7, InterleavedUnordered { mid: 2, fsn: 1 }, Last, "whole"),
        ),
        ("it becomes whole", Gives("partwhole")),
        ("all is taken", Rests(100)),
    ];
    run(&rt, STEPS);
}
