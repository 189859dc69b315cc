//! Snapshots that aren't valid: no socket is restored from them.

use crate::checks::{holds, same};
use crate::snapshots::snapshot_with_data;
use crate::worlds::new_world;
use dcsctp_testing::TwoWords;
use dcsctp_world::socket::api::handover::{
    HandoverOrderedStream, HandoverOutgoingStream, HandoverUnorderedStream, SocketHandoverState,
};
use dcsctp_world::socket::{DcSctpSocket, SocketState};
use dcsctp_world::{Outside, Reply, Side, World};
use std::alloc::Global;
use std::process::Abort;

// What is done to a snapshot.
#[derive(Clone, Copy)]
enum Change {
    Nothing,
    OwnTag,
    PeerTag,
    ZeroChecksum,
    SendsTwice,
    ReceivesTwice,
    ReceivesUnorderedTwice,
    WaitsWithoutBytes,
    WaitsFullySent,
    SentWithoutBytes,
    AbandonedWithoutBytes,
    OneTsnMore,
    OneTsnLess,
}

// An outgoing stream.
fn outgoing(id: u16) -> HandoverOutgoingStream {
    let mut stream = HandoverOutgoingStream::default();
    stream.id = id;
    stream
}

// Adds streams to the lists that have one under that name already.
fn add_stream(rt: &impl Abort, state: &mut SocketHandoverState, change: Change) {
    let rx = &mut state.rx;
    match change {
        Change::SendsTwice => state.tx.streams.push(outgoing(1)).expect(rt, "no room"),
        Change::ReceivesTwice => rx
            .ordered_streams
            .push(HandoverOrderedStream { id: 2, next_ssn: 0 })
            .expect(rt, "no room"),
        Change::ReceivesUnorderedTwice => rx
            .unordered_streams
            .extend_from_slice(&[HandoverUnorderedStream { id: 5 }; 2])
            .expect(rt, "no room"),
        _ => {}
    }
}

// Changes what waits.
fn change_data(state: &mut SocketHandoverState, change: Change) {
    for message in &mut state.tx.queued_messages {
        match change {
            Change::WaitsWithoutBytes => message.payload.clear(),
            Change::WaitsFullySent => message.remaining_offset = 1,
            _ => {}
        }
    }
}

// Changes what is in flight.
fn change_flight(state: &mut SocketHandoverState, change: Change) {
    for sent in &mut state.tx.outstanding_data {
        match change {
            Change::SentWithoutBytes => sent.payload.clear(),
            Change::AbandonedWithoutBytes => {
                sent.payload.clear();
                sent.is_abandoned = true;
            }
            _ => {}
        }
    }
}

// Changes a number.
fn change_number(state: &mut SocketHandoverState, change: Change) {
    match change {
        Change::OwnTag => state.my_verification_tag = 0,
        Change::PeerTag => state.peer_verification_tag = 0,
        Change::ZeroChecksum => state.capabilities.zero_checksum = true,
        Change::OneTsnMore => state.tx.next_tsn = 106,
        Change::OneTsnLess => state.tx.next_tsn = 104,
        _ => {}
    }
}

// The snapshot by hand, which is valid, with this change.
fn changed(rt: &impl Abort, alloc: Global, change: Change) -> SocketHandoverState {
    let mut state = snapshot_with_data(rt, alloc, false);
    add_stream(rt, &mut state, change);
    change_data(&mut state, change);
    change_flight(&mut state, change);
    change_number(&mut state, change);
    state
}

// Nothing of A has changed: no event was added, and it is closed. The act alone is kept.
fn is_unchanged(rt: &impl Abort, world: &World<TwoWords>, name: &str) {
    let a = world.socket(Side::A);
    same(rt, name, a.state(), SocketState::Closed);
    same(rt, name, world.events(Side::A).len(), 0);
    same(rt, name, world.acts().len(), 1);
    holds(rt, name, !world.is_honest());
    holds(rt, name, !world.has_failed());
}

// A isn't restored after this change.
fn is_refused(rt: &impl Abort, alloc: Global, name: &str, change: Change) {
    let mut world = new_world(rt, alloc);
    let state = changed(rt, alloc, change);
    let reply = world.outside(Outside::Restore(Side::A, state));
    same(rt, name, reply.expect(rt, name), Reply::NoCall);
    is_unchanged(rt, &world, name);
    drop(world);
}

// A is restored after this change.
fn is_taken(rt: &impl Abort, alloc: Global, name: &str, change: Change) {
    let mut world = new_world(rt, alloc);
    let state = changed(rt, alloc, change);
    let reply = world.outside(Outside::Restore(Side::A, state));
    same(rt, name, reply.expect(rt, name), Reply::Restored(Ok(())));
    let a = world.socket(Side::A);
    same(rt, name, a.state(), SocketState::Connected);
    drop(world);
}

static INVALID: [(&str, Change); 10] = [
    ("its own tag is 0", Change::OwnTag),
    ("the peer's tag is 0", Change::PeerTag),
    ("zero checksum without a method", Change::ZeroChecksum),
    ("it sends on a stream twice", Change::SendsTwice),
    ("it receives on a stream twice", Change::ReceivesTwice),
    (
        "the same of unordered messages",
        Change::ReceivesUnorderedTwice,
    ),
    ("a message without bytes waits", Change::WaitsWithoutBytes),
    ("a message waits that was sent", Change::WaitsFullySent),
    ("data without bytes", Change::SentWithoutBytes),
    ("a TSN without data", Change::OneTsnMore),
];

#[test]
fn a_snapshot_that_is_not_valid_changes_nothing(rt: HostRuntime) {
    for (name, change) in &INVALID {
        is_refused(&rt, rt.alloc(), name, *change);
    }
    is_refused(&rt, rt.alloc(), "data without a TSN", Change::OneTsnLess);
}

#[test]
fn a_snapshot_that_is_valid_is_restored(rt: HostRuntime) {
    let alloc = rt.alloc();
    is_taken(&rt, alloc, "by hand", Change::Nothing);
    let change = Change::AbandonedWithoutBytes;
    is_taken(&rt, alloc, "abandoned data without bytes", change);
}

// Nothing else in it counts, and nothing happens.
#[test]
fn a_closed_snapshot_changes_nothing(rt: HostRuntime) {
    let mut world = new_world(&rt, rt.alloc());
    let mut state = SocketHandoverState::empty(rt.alloc());
    state.tie_tag = 1;
    state.tx.next_tsn = 5;
    let outside = Outside::Restore(Side::A, state);
    let reply = world.outside(outside).expect(&rt, "no act");
    same(&rt, "reply", reply, Reply::Restored(Ok(())));
    is_unchanged(&rt, &world, "a closed snapshot");
    drop(world);
}
