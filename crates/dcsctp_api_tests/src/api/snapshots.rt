//! Snapshots: which are valid, why none can be made, and how a refusal reads.

use crate::api::checks::same;
use dcsctp_api::handover::{HandoverSocketState, HandoverUnorderedStream, SocketHandoverState};
use dcsctp_api::{HandoverError, HandoverReadiness, Options, RestoreError};
use std::alloc::Global;

/// A connected snapshot, where nothing is outstanding.
fn connected(alloc: Global) -> SocketHandoverState {
    let mut snapshot = SocketHandoverState::empty(alloc);
    snapshot.socket_state = HandoverSocketState::Connected;
    snapshot.my_verification_tag = 9;
    snapshot.peer_verification_tag = 7;
    snapshot.tx.next_tsn = 1;
    snapshot
}

/// Names, the streams of unordered messages, and whether a snapshot with these is valid.
static STREAMS: [(&str, [u16; 3], bool); 5] = [
    ("ascending", [0, 1, 65535], true),
    ("descending", [65535, 1, 0], true),
    ("neighbours", [1, 1, 2], false),
    ("first and last", [3, 1, 3], false),
    ("the last two", [0, 65535, 65535], false),
];

#[test]
fn no_stream_is_named_twice(rt: HostRuntime) {
    let options = Options::default();
    for (name, ids, is_valid) in &STREAMS {
        let mut snapshot = connected(rt.alloc());
        for id in ids {
            let stream = HandoverUnorderedStream { id: *id };
            let pushed = snapshot.rx.unordered_streams.push(stream);
            same(&rt, "memory for a stream", pushed.is_ok(), true);
        }
        same(&rt, name, snapshot.is_valid(&options), *is_valid);
    }
}

#[test]
fn outstanding_data_is_counted_modulo_the_number_of_tsns(rt: HostRuntime) {
    let options = Options::default();
    let mut snapshot = connected(rt.alloc());
    same(&rt, "none after 0", snapshot.is_valid(&options), true);
    snapshot.tx.last_cumulative_tsn_ack = 0xffff_ffff;
    same(&rt, "one is missing", snapshot.is_valid(&options), false);
    snapshot.tx.next_tsn = 0;
    same(&rt, "none after all", snapshot.is_valid(&options), true);
}

#[test]
fn a_closed_snapshot_is_valid(rt: HostRuntime) {
    let snapshot = SocketHandoverState::empty(rt.alloc());
    let options = Options::default();
    same(&rt, "closed", snapshot.is_valid(&options), true);
}

#[test]
fn refusals_of_a_handover_are_displayed(rt: HostRuntime) {
    let not_ready = HandoverError::NotReady(HandoverReadiness::SEND_QUEUE_NOT_EMPTY);
    let not_closed = RestoreError::SocketNotClosed;
    let texts = format!(in rt.alloc(); "{not_ready}, {not_closed}").expect(&rt, "memory");
    let expected = "socket is not in a ready state for handover, \
        cannot restore state: socket is not closed";
    same(&rt, "Display", texts.as_str(), expected);
}

/// A number, the text of its reasons, and whether it is ready.
static READINESS: [(u32, &str, bool); 5] = [
    (0, "", true),
    (3, "wrong_connection_state,send_queue_not_empty", false),
    (32, "", false),
    (
        2560,
        "retransmission_queue_outstanding_data,retransmission_queue_not_empty",
        false,
    ),
    (
        1 + 4 + 8 + 16,
        "wrong_connection_state,pending_stream_reset_request,data_tracker_tsn_blocks_pending,pending_stream_reset",
        false,
    ),
];

#[test]
fn readiness_names_its_reasons(rt: HostRuntime) {
    for (number, text, is_ready) in &READINESS {
        let readiness = HandoverReadiness(*number);
        let found = format!(in rt.alloc(); "{readiness}").expect(&rt, "memory");
        same(&rt, text, found.as_str(), *text);
        let found = format!(in rt.alloc(); "{readiness:?}").expect(&rt, "memory");
        same(&rt, text, found.as_str(), *text);
        same(&rt, text, readiness.is_ready(), *is_ready);
    }
}

#[test]
fn readiness_holds_the_reasons_of_both(rt: HostRuntime) {
    let both = HandoverReadiness::SEND_QUEUE_NOT_EMPTY | HandoverReadiness::STREAM_RESET_DEFERRED;
    same(&rt, "66", both.0, 66);
    let first = both.contains(HandoverReadiness::SEND_QUEUE_NOT_EMPTY);
    same(&rt, "the first", first, true);
    let second = both.contains(HandoverReadiness::STREAM_RESET_DEFERRED);
    same(&rt, "the second", second, true);
    let another = both.contains(HandoverReadiness::PENDING_STREAM_RESET);
    same(&rt, "another", another, false);
    same(&rt, "where it holds", (both & true).0, 66);
    same(&rt, "where it doesn't", (both & false).0, 0);
    same(&rt, "default", HandoverReadiness::default().0, 0);
}
