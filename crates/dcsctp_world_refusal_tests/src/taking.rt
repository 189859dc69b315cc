//! A new world, an act of a table that is applied to it, and what a world promises once an allocation failed in it.

use crate::deeds::{Row, act, apply, is_answer};
use crate::views::{Answers, Lengths, answers, lengths, other};
use dcsctp_testing::Counting;
use dcsctp_world::socket::api::handover::SocketHandoverState;
use dcsctp_world::socket::{Options, SocketFault};
use dcsctp_world::{Call, Outside, Reply, Side, Step, World};
use std::alloc::Global;
use std::process::Abort;

// Steps that would change a world that continues.
const LATER: [Step; 4] = [
    Step::Call(Side::A, Call::Close),
    Step::Call(Side::B, Call::Close),
    Step::Deliver(Side::A, 1),
    Step::Deliver(Side::B, 1),
];

/// Two closed sockets, whose words count from 100 and 200; none if an allocation fails. Each can be handed over
/// whatever waits.
pub fn new_world(rt: &impl Abort, alloc: Global) -> Option<World<Counting>> {
    let mut options = Options::default();
    options.enable_handover_with_outstanding_data = true;
    assert!(rt; options.is_valid(), "the options are not valid");
    let rng_a = Counting { next: 100 };
    let rng_b = Counting { next: 200 };
    match World::new(alloc, &options, &options, rng_a, rng_b) {
        Ok(world) => Some(world),
        Err(fault) => {
            assert_eq!(rt; fault, SocketFault::OutOfMemory, "a new world");
            None
        }
    }
}

/// A call answered that an allocation failed. So the world has failed, and had not failed before.
pub fn has_run_out(rt: &impl Abort, world: &World<Counting>, fault: SocketFault) {
    let acts = world.acts().len();
    assert_eq!(rt; fault, SocketFault::OutOfMemory, "act {acts}");
    assert!(rt; world.has_failed(), "act {acts}: the world goes on");
}

/// A call answered that no allocation failed. So the world has not failed, and its generators kept all their words.
pub fn is_well(rt: &impl Abort, world: &World<Counting>) {
    let acts = world.acts().len();
    assert!(rt; !world.has_failed(), "act {acts}: the world has failed");
    for side in [Side::A, Side::B] {
        let is_whole = world.socket(side).generator().is_whole();
        assert!(rt; is_whole, "act {acts}: a word of {side:?} is missing");
    }
}

/// Applies the act of a row, which moves no other socket than that of its side. Returns whether no allocation failed.
/// If that of the test itself failed, the world has not failed.
pub fn takes(
    rt: &impl Abort,
    alloc: Global,
    world: &mut World<Counting>,
    (side, deed, _, _): &Row,
) -> bool {
    let there = other(*side);
    let Ok(act) = act(alloc, world.packets(there), *side, *deed) else {
        return false;
    };
    let rest = answers(world, there);
    let outcome = apply(world, act);
    assert_eq!(rt;
        answers(world, there),
        rest,
        "{side:?} {deed:?}: the other socket"
    );
    match outcome {
        Ok(reply) => {
            assert!(rt; is_answer(*deed, &reply), "{side:?} {deed:?}: {reply:?}");
            is_well(rt, world);
            true
        }
        Err(fault) => {
            has_run_out(rt, world, fault);
            false
        }
    }
}

// How many acts and how many entries it shows, and what its sockets answer.
fn shown(world: &World<Counting>) -> (usize, Lengths, Answers, Answers) {
    let a = answers(world, Side::A);
    let b = answers(world, Side::B);
    (world.acts().len(), lengths(world), a, b)
}

// It answers that the world has failed.
fn refuses(rt: &impl Abort, what: &str, answer: Result<Reply, SocketFault>) {
    let fault = answer.err();
    assert_eq!(rt; fault, Some(SocketFault::Failed), "{what}");
}

// The same of a run.
fn runs_nothing(rt: &impl Abort, world: &mut World<Counting>, steps: &[Step]) {
    let fault = world.run(steps).err();
    assert_eq!(rt;
        fault,
        Some(SocketFault::Failed),
        "a run of {} steps",
        steps.len()
    );
}

// The same of rounds.
fn settles_nothing(rt: &impl Abort, world: &mut World<Counting>, rounds: usize) {
    let fault = world.settle(rounds).err();
    assert_eq!(rt; fault, Some(SocketFault::Failed), "{rounds} rounds");
}

// Each later step is refused.
fn no_step_is_applied(rt: &impl Abort, world: &mut World<Counting>) {
    for step in &LATER {
        refuses(rt, "a step", world.apply(step));
        runs_nothing(rt, world, &[]);
    }
    runs_nothing(rt, world, &LATER);
    settles_nothing(rt, world, 0);
    settles_nothing(rt, world, 1);
}

// So is each later act from outside. No bytes and an empty snapshot take no memory.
fn no_act_is_applied(rt: &impl Abort, alloc: Global, world: &mut World<Counting>) {
    for side in [Side::A, Side::B] {
        let bytes = Outside::Input(side, Vec::new(alloc));
        refuses(rt, "bytes", world.outside(bytes));
        refuses(rt, "a handover", world.outside(Outside::Handover(side)));
        let restore = Outside::Restore(side, SocketHandoverState::empty(alloc));
        refuses(rt, "a restore", world.outside(restore));
    }
}

/// A world that has failed applies nothing from then on: it says so, shows what it showed, and its sockets stay as they
/// are.
pub fn stays_failed(rt: &impl Abort, alloc: Global, world: &mut World<Counting>) {
    let before = shown(world);
    no_step_is_applied(rt, world);
    no_act_is_applied(rt, alloc, world);
    assert_eq!(rt; shown(world), before, "a later call has changed the world");
    assert!(rt; world.has_failed(), "the world goes on");
}
