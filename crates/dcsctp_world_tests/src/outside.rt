//! Acts from outside: bytes that no socket emitted.

use crate::checks::{holds, same};
use crate::worlds::{are_connected, new_world};
use dcsctp_testing::TwoWords;
use dcsctp_world::socket::{ErrorKind, SocketEvent};
use dcsctp_world::{Act, Call, Outside, Reply, Side, Step, World};
use std::alloc::Global;
use std::process::Abort;

// These bytes are handed to this side from outside. That is always accepted.
fn comes_in(rt: &impl Abort, alloc: Global, world: &mut World<TwoWords>, side: Side, bytes: &[u8]) {
    let mut copy = Vec::new(alloc);
    copy.extend_from_slice(bytes).expect(rt, "no copy");
    let reply = world
        .outside(Outside::Input(side, copy))
        .expect(rt, "no act");
    same(rt, "reply", reply, Reply::Done);
}

// The last act must be that one byte was handed to A.
fn is_kept(rt: &impl Abort, world: &World<TwoWords>) {
    let Some(Act::Outside(Outside::Input(Side::A, bytes))) = world.acts().last() else {
        rt.panic("another last act")
    };
    same(rt, "bytes", bytes.as_slice(), [1].as_slice());
    let Some(SocketEvent::OnError(ErrorKind::ParseFailed, _)) = world.events(Side::A).last() else {
        rt.panic("another last event")
    };
}

#[test]
fn a_world_is_honest_until_bytes_come_from_outside(rt: HostRuntime) {
    let mut world = new_world(&rt, rt.alloc());
    holds(&rt, "honest at first", world.is_honest());
    let connect = Step::Call(Side::A, Call::Connect);
    world.apply(&connect).expect(&rt, "no call");
    holds(&rt, "honest behind a step", world.is_honest());
    comes_in(&rt, rt.alloc(), &mut world, Side::A, &[1]);
    holds(&rt, "not honest", !world.is_honest());
    is_kept(&rt, &world);
    let rest = [
        Step::Deliver(Side::B, 1),
        Step::Deliver(Side::A, 1),
        Step::Deliver(Side::B, 2),
        Step::Deliver(Side::A, 2),
    ];
    world.run(&rest).expect(&rt, "no steps");
    holds(&rt, "not honest behind steps", !world.is_honest());
    are_connected(&rt, &world, "the handshake");
    drop(world);
}
