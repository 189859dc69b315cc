//! Thousands of steps, and what both sides show after each of them.

use crate::counter::Counter;
use crate::counts::Counts;
use crate::delivered::Delivery;
use crate::drawing::Drawing;
use crate::pairs::{Both, by_rfc, interleaved, narrow, one_sided, plain, unlike};
use crate::seen::Seen;
use crate::steps::next_step;
use crate::view::{Schedule, View};
use dcsctp_world::socket::Pair;
use dcsctp_world::{Side, World};
use std::alloc::Global;
use std::process::Abort;

// How many schedules each pair of options has, and how many steps each schedule.
const SCHEDULES: u64 = 200;

const STEPS: usize = 300;

// What must happen at least in all schedules of a test.
const LEAST: Counts = Counts {
    connected: 200,
    restarted: 10,
    closed: 100,
    aborted: 100,
    performed: 50,
    incoming: 50,
    served: 50,
    read: 400,
    read_after_reset: 200,
    in_order: 200,
    without_gap: 50,
    beside: 50,
};

// The words of a side. In every second schedule the numbers are near the greatest, so that they wrap. In every
// fourth both sides have the same.
fn words(seed: u64, side: Side) -> Counter {
    let (distance, stride) = if seed.is_multiple_of(2) {
        (20, 1)
    } else {
        (seed.wrapping_mul(7_000_003), 0x1234_5677)
    };
    let is_other = side == Side::B && !seed.is_multiple_of(4);
    let shift = if is_other { 1000 } else { 0 };
    Counter {
        first: 0xffff_ffff_u64.wrapping_sub(distance).wrapping_sub(shift),
        stride,
    }
}

/// Two closed sockets.
pub fn new_world(rt: &impl Abort, alloc: Global, schedule: Schedule<'_>) -> World<Counter> {
    let Both { name, a, b } = schedule.both;
    assert!(rt; a.is_valid() && b.is_valid(), "{name}");
    let rng_a = words(schedule.seed, Side::A);
    let rng_b = words(schedule.seed, Side::B);
    World::new(alloc, a, b, rng_a, rng_b).expect(rt, "no world")
}

// Has no pair among these the tag of one before it?
fn are_distinct(pairs: &[Pair]) -> bool {
    for (at, pair) in pairs.iter().enumerate() {
        if pairs.iter().take(at).any(|before| before.tag == pair.tag) {
            return false;
        }
    }
    true
}

// What the agreement needs: nothing came from outside, and no side has drawn a tag twice.
fn is_fair(rt: &impl Abort, schedule: Schedule<'_>, world: &World<Counter>) {
    let is_fair = world.is_honest()
        && are_distinct(world.pairs(Side::A))
        && are_distinct(world.pairs(Side::B));
    assert!(rt; is_fair, "{}, seed {}", schedule.both.name, schedule.seed);
}

// Looks at both sides after an act.
fn look(
    rt: &impl Abort,
    schedule: Schedule<'_>,
    world: &World<Counter>,
    (a, b): (&mut Seen, &mut Seen),
    counts: &mut Counts,
) {
    let mut view = View {
        schedule,
        world,
        side: Side::A,
    };
    a.look_on(rt, &view, counts);
    view.side = Side::B;
    b.look_on(rt, &view, counts);
}

// Takes the steps of a schedule.
fn goes_through(
    rt: &impl Abort,
    alloc: Global,
    schedule: Schedule<'_>,
    world: &mut World<Counter>,
    counts: &mut Counts,
) {
    let mut drawing = Drawing::new(schedule.seed, schedule.kind());
    let mut a = Seen::new(alloc);
    let mut b = Seen::new(alloc);
    let mut delivery = Delivery::new();
    let resets = counts.performed;
    for _ in 0..STEPS {
        let was_reset = resets < counts.performed;
        let step = [next_step(rt, alloc, &mut drawing, world)];
        world.run(&step).expect(rt, "no step");
        look(rt, schedule, world, (&mut a, &mut b), counts);
        delivery.look_on(rt, alloc, schedule, world, was_reset);
    }
    counts.note_read(&delivery);
}

// Goes through a schedule.
fn runs(rt: &impl Abort, alloc: Global, schedule: Schedule<'_>, counts: &mut Counts) {
    let mut world = new_world(rt, alloc, schedule);
    goes_through(rt, alloc, schedule, &mut world, counts);
    is_fair(rt, schedule, &world);
    drop(world);
}

// Goes through all schedules of a pair of options, from this seed on.
fn runs_each(rt: &impl Abort, alloc: Global, both: &Both, first: u32) {
    let mut counts = Counts::zero();
    for at in 0..SCHEDULES {
        let seed = u64::from(first) + at;
        runs(rt, alloc, Schedule { both, seed }, &mut counts);
    }
    counts.reach(rt, both.name, &LEAST);
}

// Goes through them as upstream, and then as the RFCs say where upstream doesn't.
fn runs_both_ways(rt: &impl Abort, alloc: Global, both: Both, first: u32) {
    runs_each(rt, alloc, &both, first);
    runs_each(rt, alloc, &by_rfc(both), first.saturating_add(500));
}

#[test]
fn sockets_by_default_agree(rt: HostRuntime) {
    runs_both_ways(&rt, rt.alloc(), plain(), 1000);
}

#[test]
fn sockets_with_other_streams_and_methods_agree(rt: HostRuntime) {
    runs_both_ways(&rt, rt.alloc(), unlike(), 2000);
}

#[test]
fn sockets_that_interleave_agree(rt: HostRuntime) {
    runs_both_ways(&rt, rt.alloc(), interleaved(), 3000);
}

#[test]
fn sockets_with_other_extensions_agree(rt: HostRuntime) {
    runs_both_ways(&rt, rt.alloc(), one_sided(), 4000);
}

#[test]
fn sockets_with_small_packets_agree(rt: HostRuntime) {
    runs_both_ways(&rt, rt.alloc(), narrow(), 5000);
}
