//! A COOKIE ECHO whose cookie no socket made: it connects a socket to a peer that doesn't know of it.

use crate::checks::{holds, same};
use crate::worlds::{comes_in, unchecked_world};
use dcsctp_testing::TwoWords;
use dcsctp_world::socket::{DcSctpSocket, SocketEvent, SocketState};
use dcsctp_world::{Call, Side, Step, World};
use std::process::Abort;

// Under tag 7, without a checksum. The cookie has the marks of this implementation, tag 9 of its maker, 0x141 as the
// initiate tag of its addressee, and moment 0.
const COOKIE_ECHO: [u8; 72] = [
    0x13, 0x88, 0x13, 0x88, 0, 0, 0, 7, 0, 0, 0, 0, //
    10, 0, 0, 60, 0x64, 0x63, 0x53, 0x43, 0x54, 0x50, 0x72, 0x30, //
    0, 0, 0, 9, 0, 0, 1, 0x41, 0, 0, 1, 0xc8, 0, 0, 2, 0x8e, 0, 0, 3, 0x15, //
    0, 0, 0, 0, 0x3c, 0xd0, 0x9a, 0xb2, 1, 0, 1, 0, 0, 0, 0, 1, 0, 0x7b, 0, 0xea, //
    0, 0, 0, 0, 0, 0, 0, 0,
];

// A awaits a COOKIE ACK, and B has nothing.
const BEGUN: [Step; 3] = [
    Step::Call(Side::A, Call::Connect),
    Step::Deliver(Side::B, 1),
    Step::Deliver(Side::A, 1),
];

// A reports that it is connected, and sends its third packet.
fn is_connected(rt: &impl Abort, world: &World<TwoWords>) {
    let [
        SocketEvent::SendPacket(_),
        SocketEvent::SendPacket(_),
        SocketEvent::OnConnected(),
        SocketEvent::SendPacket(_),
    ] = world.events(Side::A)
    else {
        rt.panic("other events")
    };
    let state = world.socket(Side::A).state();
    same(rt, "A", state, SocketState::Connected);
}

#[test]
fn a_forged_cookie_connects_one_side_and_is_not_honest(rt: HostRuntime) {
    let mut world = unchecked_world(&rt, rt.alloc());
    world.run(&BEGUN).expect(&rt, "no steps");
    holds(&rt, "honest at first", world.is_honest());
    let bytes = Vec::from_slice(rt.alloc(), &COOKIE_ECHO).expect(&rt, "no copy");
    comes_in(&rt, "the cookie", &mut world, Side::A, bytes);
    is_connected(&rt, &world);
    let peer = world.socket(Side::B).association();
    holds(&rt, "B has no association", peer.is_none());
    holds(&rt, "not honest", !world.is_honest());
    drop(world);
}
