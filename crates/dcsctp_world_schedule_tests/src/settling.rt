//! Schedules in which no message is sent, and which end with a quiet round: sockets that can connect then are connected.

use crate::counter::Counter;
use crate::drawing::Drawing;
use crate::pairs::{Both, by_rfc, interleaved, narrow, one_sided, patient, plain, unlike};
use crate::schedules::new_world;
use crate::steps::other;
use crate::view::{Ends, Schedule, View, are_crossed};
use dcsctp_world::socket::{DcSctpSocket, Options, Phase, SocketEvent};
use dcsctp_world::{Call, Side, Step, World};
use std::alloc::Global;
use std::process::Abort;

// How many schedules each pair of options has, and how many steps a schedule has at most.
const SCHEDULES: u64 = 200;

const STEPS: u32 = 40;

// How many of them must end where one can connect.
const LEAST: u32 = 40;

// ---- what a world shows

// Its phase; none if it is closed.
fn phase(world: &World<Counter>, side: Side) -> Option<Phase> {
    Some(world.socket(side).association()?.phase)
}

// Is it closed? By the RFC it must have had no association before.
fn rests(world: &World<Counter>, side: Side, options: &Options) -> bool {
    let had_none = world.associations(side).iter().all(|it| it.is_none());
    phase(world, side).is_none() && (had_none || !options.follow_rfc)
}

// Does one await an INIT ACK, and is the other closed, or awaits one too?
fn can_connect(world: &World<Counter>, both: &Both) -> bool {
    let a = phase(world, Side::A) == Some(Phase::CookieWait);
    let b = phase(world, Side::B) == Some(Phase::CookieWait);
    (a && b) || (a && rests(world, Side::B, &both.b)) || (b && rests(world, Side::A, &both.a))
}

// What it has, if it is Established.
fn established(world: &World<Counter>, side: Side) -> Option<Ends> {
    let association = world.socket(side).association()?;
    if association.phase != Phase::Established {
        return None;
    }
    Some((association.my, association.held?))
}

// Are both Established, with each other?
fn are_linked(world: &World<Counter>) -> bool {
    match (established(world, Side::A), established(world, Side::B)) {
        (Some(a), Some(b)) => are_crossed(&a, &b),
        _ => false,
    }
}

// How often it has reported OnConnected.
fn connections(world: &World<Counter>, side: Side) -> usize {
    let mut count = 0_usize;
    for event in world.events(side) {
        if let SocketEvent::OnConnected() = event {
            count = count.saturating_add(1);
        }
    }
    count
}

// ---- schedules

// The next step: half of them hand over a packet.
fn next_step(drawing: &mut Drawing, world: &World<Counter>) -> Step {
    let side = drawing.side();
    let from = other(side);
    match drawing.below(10) {
        0 | 1 => Step::Call(side, Call::Connect),
        2 => Step::Call(side, Call::Close),
        3 | 4 => Step::Call(side, Call::AdvanceTime(drawing.later())),
        _ => Step::Deliver(side, drawing.packet(from, world.packets(from).len())),
    }
}

// A quiet round connects both, and each reports it once.
fn connects(rt: &impl Abort, schedule: Schedule<'_>, world: &mut World<Counter>) {
    let (a, b) = (connections(world, Side::A), connections(world, Side::B));
    world.settle(1).expect(rt, "no round");
    let view = View {
        schedule,
        world,
        side: Side::A,
    };
    view.holds(rt, "a quiet round connects them", are_linked(world));
    let is_told = connections(world, Side::A) == a.saturating_add(1)
        && connections(world, Side::B) == b.saturating_add(1);
    view.holds(rt, "each reports OnConnected once", is_told);
}

// Takes the steps of a schedule. Does it end where they can connect? Then they do.
fn goes_through(rt: &impl Abort, schedule: Schedule<'_>, world: &mut World<Counter>) -> bool {
    let mut drawing = Drawing::new(schedule.seed, schedule.kind());
    for _ in 0..drawing.below(STEPS) {
        let step = [next_step(&mut drawing, world)];
        world.run(&step).expect(rt, "no step");
    }
    let can = can_connect(world, schedule.both);
    if can {
        connects(rt, schedule, world);
    }
    can
}

// Goes through a schedule.
fn runs(rt: &impl Abort, alloc: Global, schedule: Schedule<'_>) -> bool {
    let mut world = new_world(rt, alloc, schedule);
    let can = goes_through(rt, schedule, &mut world);
    drop(world);
    can
}

// Goes through all schedules of a pair of options, from this seed on.
fn runs_each(rt: &impl Abort, alloc: Global, both: &Both, first: u32) {
    let mut connected = 0_u32;
    for at in 0..SCHEDULES {
        let seed = u64::from(first) + at;
        if runs(rt, alloc, Schedule { both, seed }) {
            connected = connected.saturating_add(1);
        }
    }
    assert!(rt;
        connected >= LEAST,
        "{}: {connected} can connect",
        both.name
    );
}

// Goes through them as upstream, and then as the RFCs say where upstream doesn't. T1 always restarts.
fn runs_both_ways(rt: &impl Abort, alloc: Global, both: Both, first: u32) {
    let both = patient(both);
    runs_each(rt, alloc, &both, first);
    runs_each(rt, alloc, &by_rfc(both), first.saturating_add(500));
}

#[test]
fn who_can_connect_is_connected_by_a_quiet_round(rt: HostRuntime) {
    runs_both_ways(&rt, rt.alloc(), plain(), 21_000);
    runs_both_ways(&rt, rt.alloc(), unlike(), 22_000);
    runs_both_ways(&rt, rt.alloc(), interleaved(), 23_000);
    runs_both_ways(&rt, rt.alloc(), one_sided(), 24_000);
    runs_both_ways(&rt, rt.alloc(), narrow(), 25_000);
}

// ---- rounds that are lost

// Both clocks go on to the earlier moment, and what is sent then is lost.
fn loses_round(rt: &impl Abort, world: &mut World<Counter>) {
    let a = world.socket(Side::A).poll_timeout();
    let b = world.socket(Side::B).poll_timeout();
    let moment = if b < a { b } else { a };
    let steps = [
        Step::Call(Side::A, Call::AdvanceTime(moment)),
        Step::Call(Side::B, Call::AdvanceTime(moment)),
    ];
    world.run(&steps).expect(rt, "no step");
}

// These connect, so many rounds are lost, and then one isn't. Are both connected?
fn connects_after(
    rt: &impl Abort,
    alloc: Global,
    schedule: Schedule<'_>,
    callers: &[Side],
    lost: u32,
) -> bool {
    let mut world = new_world(rt, alloc, schedule);
    for side in callers {
        let step = [Step::Call(*side, Call::Connect)];
        world.run(&step).expect(rt, "no step");
    }
    for _ in 0..lost {
        loses_round(rt, &mut world);
    }
    world.settle(1).expect(rt, "no round");
    let linked = are_linked(&world);
    drop(world);
    linked
}

// By default T1 restarts eight times (RFC 9260, section 16). So seven rounds may be lost.
fn connects_after_seven(rt: &impl Abort, alloc: Global, both: &Both, callers: &[Side]) {
    for lost in 0..9 {
        let schedule = Schedule {
            both,
            seed: u64::from(lost),
        };
        let linked = connects_after(rt, alloc, schedule, callers, lost);
        assert!(rt; linked == (lost < 8), "{}, {lost} rounds lost", both.name);
    }
}

#[test]
fn seven_rounds_may_be_lost(rt: HostRuntime) {
    for both in [plain(), by_rfc(plain())] {
        connects_after_seven(&rt, rt.alloc(), &both, &[Side::A]);
        connects_after_seven(&rt, rt.alloc(), &both, &[Side::B]);
        connects_after_seven(&rt, rt.alloc(), &both, &[Side::A, Side::B]);
        connects_after_seven(&rt, rt.alloc(), &both, &[Side::B, Side::A]);
    }
}

// ---- a lost COOKIE ECHO

// The caller connects, the other answers its INIT, and the COOKIE ECHO is lost.
fn loses_echo(rt: &impl Abort, alloc: Global, both: &Both, caller: Side) {
    let schedule = Schedule { both, seed: 1 };
    let mut world = new_world(rt, alloc, schedule);
    let steps = [
        Step::Call(caller, Call::Connect),
        Step::Deliver(other(caller), 1),
        Step::Deliver(caller, 1),
    ];
    world.run(&steps).expect(rt, "no step");
    let is_lost = phase(&world, caller) == Some(Phase::CookieEchoed);
    assert!(rt; is_lost, "{}: no COOKIE ECHO", both.name);
    connects(rt, schedule, &mut world);
    drop(world);
}

#[test]
fn a_lost_cookie_echo_is_made_good(rt: HostRuntime) {
    for both in [plain(), unlike(), interleaved(), one_sided(), narrow()] {
        for side in [Side::A, Side::B] {
            loses_echo(&rt, rt.alloc(), &both, side);
            loses_echo(&rt, rt.alloc(), &by_rfc(both), side);
        }
    }
}

// ---- a world that has settled

// Two that are connected, and two that are closed, go on so over more rounds.
fn stays(rt: &impl Abort, alloc: Global, both: &Both, callers: &[Side]) {
    let schedule = Schedule { both, seed: 1 };
    let mut world = new_world(rt, alloc, schedule);
    for side in callers {
        let step = [Step::Call(*side, Call::Connect)];
        world.run(&step).expect(rt, "no step");
    }
    world.settle(20).expect(rt, "no rounds");
    let view = View {
        schedule,
        world: &world,
        side: Side::A,
    };
    let is_linked = are_linked(&world) != callers.is_empty();
    view.holds(rt, "they stay as they are", is_linked);
    let most = usize::from(!callers.is_empty());
    let is_told = connections(&world, Side::A) == most && connections(&world, Side::B) == most;
    view.holds(rt, "each reports OnConnected once", is_told);
    drop(world);
}

#[test]
fn twenty_rounds_leave_them_connected(rt: HostRuntime) {
    for both in [plain(), by_rfc(plain())] {
        stays(&rt, rt.alloc(), &both, &[Side::A]);
        stays(&rt, rt.alloc(), &both, &[Side::A, Side::B]);
        stays(&rt, rt.alloc(), &both, &[]);
    }
}
