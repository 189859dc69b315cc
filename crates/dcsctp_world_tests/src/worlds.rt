//! What a world keeps of two sockets that find each other, and what a step answers.

use crate::checks::{holds, same};
use dcsctp_testing::TwoWords;
use dcsctp_world::socket::{DcSctpSocket, Options, SocketState};
use dcsctp_world::{Act, Call, Outside, Reply, Side, Step, World};
use rand_core::Rng;
use std::alloc::Global;
use std::process::Abort;

// A connects, and four packets go back and forth.
pub const HANDSHAKE: [Step; 5] = [
    Step::Call(Side::A, Call::Connect),
    Step::Deliver(Side::B, 1),
    Step::Deliver(Side::A, 1),
    Step::Deliver(Side::B, 2),
    Step::Deliver(Side::A, 2),
];

// What is kept of it.
const HANDSHAKE_ACTS: [Act; 5] = [
    Act::Step(Step::Call(Side::A, Call::Connect)),
    Act::Step(Step::Deliver(Side::B, 1)),
    Act::Step(Step::Deliver(Side::A, 1)),
    Act::Step(Step::Deliver(Side::B, 2)),
    Act::Step(Step::Deliver(Side::A, 2)),
];

// Two closed sockets with these options, of which A draws tag 7 and first TSN 100, and B tag 9 and first TSN 200.
fn world_with(rt: &impl Abort, alloc: Global, options: &Options) -> World<TwoWords> {
    assert!(rt; options.is_valid(), "the options are not valid");
    let rng_a = TwoWords {
        first: 100,
        second: 6,
    };
    let rng_b = TwoWords {
        first: 200,
        second: 8,
    };
    World::new(alloc, options, options, rng_a, rng_b).expect(rt, "no world")
}

// Such sockets with default options.
pub fn new_world(rt: &impl Abort, alloc: Global) -> World<TwoWords> {
    world_with(rt, alloc, &Options::default())
}

// Such sockets, of which each offers to accept packets without a checksum.
pub fn world_without_checksums(rt: &impl Abort, alloc: Global) -> World<TwoWords> {
    let mut options = Options::default();
    options.zero_checksum_alternate_error_detection_method.0 = 1;
    world_with(rt, alloc, &options)
}

// Such sockets, which look at no checksum.
pub fn unchecked_world(rt: &impl Abort, alloc: Global) -> World<TwoWords> {
    let mut options = Options::default();
    options.disable_checksum_verification = true;
    world_with(rt, alloc, &options)
}

// Such a world, after the handshake.
pub fn world_behind_handshake(rt: &impl Abort, alloc: Global) -> World<TwoWords> {
    let mut world = new_world(rt, alloc);
    world.run(&HANDSHAKE).expect(rt, "the handshake failed");
    world
}

// The other side.
pub fn other(side: Side) -> Side {
    match side {
        Side::A => Side::B,
        Side::B => Side::A,
    }
}

// These bytes are handed to this side from outside. That is always accepted.
pub fn comes_in(
    rt: &impl Abort,
    name: &str,
    world: &mut World<TwoWords>,
    to: Side,
    bytes: Vec<u8>,
) {
    let reply = world.outside(Outside::Input(to, bytes));
    same(rt, name, reply.expect(rt, name), Reply::Done);
}

// Both sides must be connected.
pub fn are_connected<R: Rng + Drop>(rt: &impl Abort, world: &World<R>, name: &str) {
    let states = [world.socket(Side::A).state(), world.socket(Side::B).state()];
    same(
        rt,
        name,
        states,
        [SocketState::Connected, SocketState::Connected],
    );
}

// A side must have drawn this pair alone.
fn drew(rt: &impl Abort, world: &World<TwoWords>, side: Side, tag: u32, first_tsn: u32) {
    let [pair] = world.pairs(side) else {
        rt.panic("not one pair was drawn")
    };
    same(rt, "a pair", (pair.tag, pair.first_tsn), (tag, first_tsn));
}

#[test]
fn four_packets_connect_two_sockets(rt: HostRuntime) {
    let world = world_behind_handshake(&rt, rt.alloc());
    are_connected(&rt, &world, "the handshake");
    drew(&rt, &world, Side::A, 7, 100);
    drew(&rt, &world, Side::B, 9, 200);
    same(&rt, "acts", world.acts(), HANDSHAKE_ACTS.as_slice());
    holds(&rt, "no growth was refused", !world.has_failed());
    drop(world);
}

// Before the first act and after each of five: has the side an association?
fn notes(rt: &impl Abort, world: &World<TwoWords>, side: Side, expected: [bool; 6]) {
    let [before, first, second, third, fourth, fifth] = world.associations(side) else {
        rt.panic("there are not five acts")
    };
    let found = [before, first, second, third, fourth, fifth];
    same(
        rt,
        "associations",
        found.map(|noted| noted.is_some()),
        expected,
    );
}

#[test]
fn associations_are_noted_after_each_act(rt: HostRuntime) {
    let world = world_behind_handshake(&rt, rt.alloc());
    notes(&rt, &world, Side::A, [false, true, true, true, true, true]);
    notes(
        &rt,
        &world,
        Side::B,
        [false, false, false, false, true, true],
    );
    drop(world);
}

// How many packets A and B have sent, and how many pairs B has drawn.
fn counts(world: &World<TwoWords>) -> [usize; 3] {
    [
        world.packets(Side::A).len(),
        world.packets(Side::B).len(),
        world.pairs(Side::B).len(),
    ]
}

// Applies a step: it must answer so.
fn replies(rt: &impl Abort, world: &mut World<TwoWords>, name: &str, step: Step, expected: Reply) {
    let reply = world.apply(&step).expect(rt, name);
    same(rt, name, reply, expected);
}

// A connects.
const CONNECT: Step = Step::Call(Side::A, Call::Connect);

#[test]
fn steps_answer_whether_a_call_was_made(rt: HostRuntime) {
    let mut world = new_world(&rt, rt.alloc());
    replies(
        &rt,
        &mut world,
        "no packet yet",
        Step::Deliver(Side::B, 1),
        Reply::NoCall,
    );
    replies(&rt, &mut world, "connect", CONNECT, Reply::Done);
    replies(
        &rt,
        &mut world,
        "number 0",
        Step::Deliver(Side::B, 0),
        Reply::NoCall,
    );
    replies(
        &rt,
        &mut world,
        "one too far",
        Step::Deliver(Side::B, 2),
        Reply::NoCall,
    );
    replies(
        &rt,
        &mut world,
        "of this side",
        Step::Deliver(Side::A, 1),
        Reply::NoCall,
    );
    replies(
        &rt,
        &mut world,
        "the INIT",
        Step::Deliver(Side::B, 1),
        Reply::Done,
    );
    replies(&rt, &mut world, "connect again", CONNECT, Reply::Done);
    same(&rt, "packets and pairs", counts(&world), [1, 1, 1]);
    same(&rt, "acts", world.associations(Side::B).len(), 8);
    drop(world);
}
