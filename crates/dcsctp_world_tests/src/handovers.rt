//! Sockets that are handed over, and restored from snapshots.

use crate::checks::{holds, same};
use crate::snapshots::{snapshot_behind_reset, snapshot_with_data};
use crate::worlds::{are_connected, new_world, world_behind_handshake, world_without_checksums};
use dcsctp_testing::TwoWords;
use dcsctp_world::socket::api::handover::{HandoverReadiness, SocketHandoverState};
use dcsctp_world::socket::{
    DcSctpSocket, HandoverError, PpId, RestoreError, SocketEvent, SocketState, SocketTime, StreamId,
};
use dcsctp_world::{Call, Outside, Reply, Side, Step, World};
use std::alloc::Global;
use std::process::Abort;
use std::time::Duration;

const HAND_OVER: Step = Step::Call(Side::A, Call::GetHandoverStateAndClose);

const CONNECT: Step = Step::Call(Side::A, Call::Connect);

// A is handed this packet of the peer.
fn comes_in(rt: &impl Abort, alloc: Global, world: &mut World<TwoWords>, packet: &[u8]) {
    let copy = Vec::from_slice(alloc, packet).expect(rt, "no copy");
    let reply = world
        .outside(Outside::Input(Side::A, copy))
        .expect(rt, "no act");
    same(rt, "a packet", reply, Reply::Done);
}

// A is restored from this snapshot, with this answer.
fn restores(
    rt: &impl Abort,
    world: &mut World<TwoWords>,
    name: &str,
    state: SocketHandoverState,
    expected: Reply,
) {
    let reply = world
        .outside(Outside::Restore(Side::A, state))
        .expect(rt, name);
    same(rt, name, reply, expected);
}

// Its last packet must be this one, of so many.
fn has_sent(rt: &impl Abort, world: &World<TwoWords>, name: &str, count: usize, packet: &[u8]) {
    same(rt, name, world.packets(Side::A).len(), count);
    let last = world.packets(Side::A).last().expect(rt, name);
    same(rt, name, last.as_slice(), packet);
}

// A waits for this moment.
fn waits_for(rt: &impl Abort, world: &World<TwoWords>, name: &str, millis: u64) {
    let moment = SocketTime::zero() + Duration::from_millis(millis);
    same(rt, name, world.socket(Side::A).poll_timeout(), moment);
}

// A world in which A continues from the snapshot that is written by hand, and packets have no checksums.
fn restored_world(rt: &impl Abort, alloc: Global) -> World<TwoWords> {
    let mut world = world_without_checksums(rt, alloc);
    let state = snapshot_with_data(rt, alloc, true);
    restores(rt, &mut world, "restored", state, Reply::Restored(Ok(())));
    world
}

// Ports 5000, tag 9 and no checksum. Each chunk has the flags B and E. First comes what was lost: TSN 103 with
// number 3, on stream 1 under protocol 51. Then comes what waited: TSN 105 with number 5, under protocol 53.
// TSN 104 isn't among them.
const FIRST_PACKET: [u8; 52] = [
    0x13, 0x88, 0x13, 0x88, 0, 0, 0, 9, 0, 0, 0, 0, //
    0, 3, 0, 17, 0, 0, 0, 103, 0, 1, 0, 3, 0, 0, 0, 51, 0xaa, 0, 0, 0, //
    0, 3, 0, 17, 0, 0, 0, 105, 0, 1, 0, 5, 0, 0, 0, 53, 0xcc, 0, 0, 0,
];

// A SACK of all up to TSN 105, with a window of 100,000 bytes
const SACK: [u8; 28] = [
    0x13, 0x88, 0x13, 0x88, 0, 0, 0, 7, 0, 0, 0, 0, //
    3, 0, 0, 16, 0, 0, 0, 105, 0, 1, 0x86, 0xa0, 0, 0, 0, 0,
];

// OnConnected comes first, and then the amount that waits falls to 0.
fn tells_in_order(rt: &impl Abort, world: &World<TwoWords>) {
    let [
        SocketEvent::OnConnected(),
        SocketEvent::OnBufferedAmountLow(StreamId(1)),
        SocketEvent::SendPacket(_),
    ] = world.events(Side::A)
    else {
        rt.panic("other events")
    };
}

// What a snapshot has was sent by the user of another socket.
#[test]
fn a_snapshot_by_hand_is_restored_and_sends_what_it_has(rt: HostRuntime) {
    let mut world = restored_world(&rt, rt.alloc());
    holds(&rt, "not honest", !world.is_honest());
    tells_in_order(&rt, &world);
    has_sent(&rt, &world, "the first packet", 1, &FIRST_PACKET);
    waits_for(&rt, &world, "the retransmission timer", 500);
    comes_in(&rt, rt.alloc(), &mut world, &SACK);
    let readiness = world.socket(Side::A).get_handover_readiness();
    same(&rt, "is it ready?", readiness, HandoverReadiness::READY);
    same(&rt, "events", world.events(Side::A).len(), 3);
    waits_for(&rt, &world, "the heartbeat interval", 30_000);
    same(&rt, "sent", world.sent(Side::A).len(), 0);
    drop(world);
}

// A message of two bytes with TSN 203 and number 7, on stream 2 under protocol 53
const NEXT_DATA: [u8; 32] = [
    0x13, 0x88, 0x13, 0x88, 0, 0, 0, 7, 0, 0, 0, 0, //
    0, 3, 0, 18, 0, 0, 0, 203, 0, 2, 0, 7, 0, 0, 0, 53, 0xdd, 0xee, 0, 0,
];

// The SACK of TSN 203. The window is whole again, 5,242,880 bytes, since the message was taken.
const NEXT_SACK: [u8; 28] = [
    0x13, 0x88, 0x13, 0x88, 0, 0, 0, 9, 0, 0, 0, 0, //
    3, 0, 0, 16, 0, 0, 0, 203, 0, 0x50, 0, 0, 0, 0, 0, 0,
];

// The message that A takes must be that one.
fn takes_it(rt: &impl Abort, world: &mut World<TwoWords>) {
    let take = Step::Call(Side::A, Call::GetNextMessage);
    let Reply::Taken(Some(message)) = world.apply(&take).expect(rt, "no call") else {
        rt.panic("there is no message")
    };
    same(rt, "stream", message.stream_id, StreamId(2));
    same(rt, "protocol", message.ppid, PpId(53));
    same(
        rt,
        "bytes",
        message.payload.as_slice(),
        [0xdd, 0xee].as_slice(),
    );
    same(rt, "read", world.read(Side::A), [message].as_slice());
}

// It isn't the first data of the association, so it is acknowledged after the delay.
#[test]
fn a_restored_socket_receives_the_next_message(rt: HostRuntime) {
    let mut world = restored_world(&rt, rt.alloc());
    comes_in(&rt, rt.alloc(), &mut world, &NEXT_DATA);
    takes_it(&rt, &mut world);
    waits_for(&rt, &world, "the delay", 200);
    let later = Call::AdvanceTime(SocketTime::zero() + Duration::from_millis(200));
    world
        .apply(&Step::Call(Side::A, later))
        .expect(&rt, "no time");
    has_sent(&rt, &world, "the acknowledgement", 2, &NEXT_SACK);
    drop(world);
}

// The peer's last request, of number 199, to reset its streams 1 and 2 after TSN 202. It answers number 101.
const REQUEST: [u8; 36] = [
    0x13, 0x88, 0x13, 0x88, 0, 0, 0, 7, 0, 0, 0, 0, //
    130, 0, 0, 24, 0, 13, 0, 20, 0, 0, 0, 199, 0, 0, 0, 101, 0, 0, 0, 202, 0, 1, 0, 2,
];

// The answer to number 199: there is nothing to do, which is result 0 (RFC 6525, section 4.4).
const ANSWER: [u8; 28] = [
    0x13, 0x88, 0x13, 0x88, 0, 0, 0, 9, 0, 0, 0, 0, //
    130, 0, 0, 16, 0, 16, 0, 12, 0, 0, 0, 199, 0, 0, 0, 0,
];

// The packet is the one event: nothing is reset.
#[test]
fn a_request_before_the_handover_is_answered_by_nothing_to_do(rt: HostRuntime) {
    let mut world = restored_world(&rt, rt.alloc());
    comes_in(&rt, rt.alloc(), &mut world, &REQUEST);
    has_sent(&rt, &world, "the answer", 2, &ANSWER);
    same(&rt, "events", world.events(Side::A).len(), 4);
    drop(world);
}

// A isn't restored, since it has an association, which stays as it is.
fn is_not_closed(rt: &impl Abort, alloc: Global, world: &mut World<TwoWords>, name: &str) {
    let before = world.socket(Side::A).association().expect(rt, name);
    let events = world.events(Side::A).len();
    let timeout = world.socket(Side::A).poll_timeout();
    let state = snapshot_with_data(rt, alloc, false);
    let refused = Reply::Restored(Err(RestoreError::SocketNotClosed));
    restores(rt, world, name, state, refused);
    let after = world.socket(Side::A).association().expect(rt, name);
    same(rt, name, (after.phase, after.my), (before.phase, before.my));
    same(rt, name, world.events(Side::A).len(), events);
    same(rt, name, world.socket(Side::A).poll_timeout(), timeout);
}

#[test]
fn a_socket_with_an_association_is_not_restored(rt: HostRuntime) {
    let alloc = rt.alloc();
    let mut world = new_world(&rt, alloc);
    world.apply(&CONNECT).expect(&rt, "no call");
    is_not_closed(&rt, alloc, &mut world, "it awaits the INIT ACK");
    let answers = [Step::Deliver(Side::B, 1), Step::Deliver(Side::A, 1)];
    world.run(&answers).expect(&rt, "no answers");
    is_not_closed(&rt, alloc, &mut world, "it awaits the COOKIE ACK");
    let rest = [Step::Deliver(Side::B, 2), Step::Deliver(Side::A, 2)];
    world.run(&rest).expect(&rt, "no rest");
    is_not_closed(&rt, alloc, &mut world, "it is connected");
    are_connected(&rt, &world, "the handshake goes on");
    drop(world);
}

// What the call of a handover answers.
fn asks(rt: &impl Abort, world: &mut World<TwoWords>, name: &str, expected: Reply) {
    let reply = world.apply(&HAND_OVER).expect(rt, name);
    same(rt, name, reply, expected);
}

#[test]
fn a_socket_that_connects_is_not_handed_over(rt: HostRuntime) {
    let mut world = new_world(&rt, rt.alloc());
    let empty = SocketHandoverState::empty(rt.alloc());
    asks(&rt, &mut world, "closed", Reply::HandedOver(Ok(empty)));
    same(&rt, "events", world.events(Side::A).len(), 0);
    world.apply(&CONNECT).expect(&rt, "no call");
    let reason = HandoverError::NotReady(HandoverReadiness::WRONG_CONNECTION_STATE);
    asks(
        &rt,
        &mut world,
        "it connects",
        Reply::HandedOver(Err(reason)),
    );
    same(&rt, "events", world.events(Side::A).len(), 1);
    let a = world.socket(Side::A);
    same(&rt, "state", a.state(), SocketState::Connecting);
    holds(&rt, "honest", world.is_honest());
    drop(world);
}

// A resets stream 1, and B performs it.
fn resets_a_stream(rt: &impl Abort, alloc: Global, world: &mut World<TwoWords>) {
    let ids = Vec::from_slice(alloc, &[StreamId(1)]).expect(rt, "no list");
    let reset = Step::Call(Side::A, Call::ResetStreams(ids));
    world.apply(&reset).expect(rt, "no reset");
    let answers = [Step::Deliver(Side::B, 3), Step::Deliver(Side::A, 3)];
    world.run(&answers).expect(rt, "no answers");
}

// The call alone: the socket stays closed, and nothing is sent to its peer.
#[test]
fn a_handover_answers_what_the_socket_had(rt: HostRuntime) {
    let mut world = world_behind_handshake(&rt, rt.alloc());
    resets_a_stream(&rt, rt.alloc(), &mut world);
    let state = snapshot_behind_reset(&rt, rt.alloc());
    asks(&rt, &mut world, "connected", Reply::HandedOver(Ok(state)));
    let closed = matches!(world.events(Side::A).last(), Some(SocketEvent::OnClosed()));
    holds(&rt, "OnClosed is last", closed);
    same(&rt, "packets", world.packets(Side::A).len(), 3);
    let a = world.socket(Side::A);
    same(&rt, "state of A", a.state(), SocketState::Closed);
    let b = world.socket(Side::B);
    same(&rt, "state of B", b.state(), SocketState::Connected);
    holds(&rt, "honest", world.is_honest());
    drop(world);
}
