//! Packets of exchanges that were damaged on their way: cut off at each length, and with each byte as 0 and as 255.
//! Whatever a socket is handed, the call returns `Ok`, and the socket continues.

use crate::checks::{holds, same};
use crate::exchanges::Exchange;
use crate::stages::{Place, Stage};
use crate::worlds::{comes_in, other, unchecked_world};
use dcsctp_testing::TwoWords;
use dcsctp_world::socket::{DcSctpSocket, SocketState};
use dcsctp_world::{Call, Side, Step, World};
use std::alloc::Global;
use std::process::Abort;

const STAGES: [Stage; 4] = [
    Stage::Fresh,
    Stage::Connecting,
    Stage::Connected,
    Stage::Awaiting,
];

// The most events that a packet of an exchange may bring.
const MOST_EVENTS: usize = 6;

// What happened to a packet.
#[derive(Clone, Copy, Debug)]
enum Damage {
    // It has so many bytes.
    Cut(usize),

    // A byte is this.
    Set(usize, u8),
}

// What a socket is handed, and when.
#[derive(Clone, Copy, Debug)]
struct Case {
    stage: Stage,
    place: Place,
    damage: Damage,
}

// A damaged copy.
fn damaged(rt: &impl Abort, alloc: Global, packet: &[u8], damage: Damage) -> Vec<u8> {
    let mut copy = Vec::from_slice(alloc, packet).expect(rt, "no copy");
    match damage {
        Damage::Cut(len) => copy.truncate(len),
        Damage::Set(at, value) => {
            if let Some(byte) = copy.get_mut(at) {
                *byte = value;
            }
        }
    }
    copy
}

// The socket answers all questions, and its answers fit each other.
fn answers(rt: &impl Abort, world: &World<TwoWords>, name: &str, side: Side) {
    let socket = world.socket(side);
    holds(rt, name, !world.has_failed() && !socket.has_failed());
    let is_closed = socket.state() == SocketState::Closed;
    let association = socket.association();
    same(rt, name, association.is_none(), is_closed);
    let has_peer = association.and_then(|it| it.held).is_some();
    same(rt, name, socket.get_metrics().is_some(), has_peer);
    let is_ready = socket.get_handover_readiness().is_ready();
    holds(rt, name, is_ready || !is_closed);
    same(rt, name, socket.messages_ready_count() <= 1, true);
}

// It continues: its next deadline comes, and it can be closed.
fn goes_on(rt: &impl Abort, world: &mut World<TwoWords>, name: &str, side: Side) {
    let timeout = world.socket(side).poll_timeout();
    let steps = [
        Step::Call(side, Call::AdvanceTime(timeout)),
        Step::Call(side, Call::GetNextMessage),
        Step::Call(side, Call::Close),
    ];
    world.run(&steps).expect(rt, name);
    same(rt, name, world.socket(side).state(), SocketState::Closed);
}

// The packet comes in at a socket, which continues.
fn takes(rt: &impl Abort, alloc: Global, case: Case, packet: &[u8]) {
    let name = format!(in alloc; "{case:?}").expect(rt, "no name");
    let side = other(case.place.from);
    let mut world = case.stage.world(rt, alloc, case.place);
    let before = world.events(side).len();
    let bytes = damaged(rt, alloc, packet, case.damage);
    comes_in(rt, &name, &mut world, side, bytes);
    let count = world.events(side).len().saturating_sub(before);
    holds(rt, &name, count <= MOST_EVENTS);
    answers(rt, &world, &name, side);
    goes_on(rt, &mut world, &name, side);
    drop(world);
}

// It comes in at sockets of all stages.
fn all_take(rt: &impl Abort, alloc: Global, place: Place, packet: &[u8], damage: Damage) {
    for stage in STAGES {
        let case = Case {
            stage,
            place,
            damage,
        };
        takes(rt, alloc, case, packet);
    }
}

// All damages of a packet.
fn tries(rt: &impl Abort, alloc: Global, place: Place, packet: &[u8]) {
    for at in 0..packet.len() {
        all_take(rt, alloc, place, packet, Damage::Cut(at));
        all_take(rt, alloc, place, packet, Damage::Set(at, 0));
        all_take(rt, alloc, place, packet, Damage::Set(at, 255));
    }
}

// All packets of a side after the first so many.
fn tries_side(rt: &impl Abort, alloc: Global, world: &World<TwoWords>, place: Place) -> usize {
    let packets = world.packets(place.from);
    let mut place = place;
    for packet in packets.iter().skip(place.number) {
        place.number = place.number.saturating_add(1);
        tries(rt, alloc, place, packet);
    }
    packets.len()
}

// All packets of an exchange after the first so many of each side. The two sides have emitted so many.
fn tries_each(
    rt: &impl Abort,
    alloc: Global,
    exchange: Exchange,
    number: usize,
    expected: (usize, usize),
) {
    let mut world = unchecked_world(rt, alloc);
    world
        .run(&exchange.steps(rt, alloc))
        .expect(rt, "no exchange");
    let from = Side::A;
    let a = tries_side(
        rt,
        alloc,
        &world,
        Place {
            exchange,
            from,
            number,
        },
    );
    let from = Side::B;
    let b = tries_side(
        rt,
        alloc,
        &world,
        Place {
            exchange,
            from,
            number,
        },
    );
    same(rt, "packets", (a, b), expected);
    drop(world);
}

#[test]
fn damaged_packets_of_a_handshake_are_taken(rt: HostRuntime) {
    tries_each(&rt, rt.alloc(), Exchange::Data, 0, (3, 4));
}

#[test]
fn damaged_packets_of_a_reset_are_taken(rt: HostRuntime) {
    tries_each(&rt, rt.alloc(), Exchange::Reset, 2, (3, 3));
}

#[test]
fn damaged_packets_of_a_shutdown_are_taken(rt: HostRuntime) {
    tries_each(&rt, rt.alloc(), Exchange::Shutdown, 2, (4, 3));
}
