//! A world in which an allocation fails in a step: that step says so, each view is the first part of what it would have
//! been, and the world applies nothing from then on. Steps are applied one by one, by one run, and by a quiet round.

use crate::deeds::Deed::{Connects, Passes, Reads, Resets, Sends, ShutsDown, Takes};
use crate::deeds::{Row, steps};
use crate::taking::{has_run_out, is_well, new_world, stays_failed, takes};
use crate::twins::{Twin, goes_first};
use dcsctp_testing::ExpectedEvent::{Event, Packet};
use dcsctp_testing::{
    COOKIE_ACK, COOKIE_ECHO, Counting, DATA, INIT, INIT_ACK, RE_CONFIG, SACK, SHUTDOWN,
    SHUTDOWN_ACK, SHUTDOWN_COMPLETE, is_gone,
};
use dcsctp_world::Side::{A, B};
use dcsctp_world::World;
use dcsctp_world::socket::Phase::{
    CookieEchoed, CookieWait, Established, ShutdownAckSent, ShutdownSent,
};
use dcsctp_world::socket::SocketFault;
use std::alloc::Global;
use std::process::Abort;

// The handshake, a message with its acknowledgement, which is read, a reset with its answer, and a shutdown (RFC 9260,
// sections 5.1, 6.2 and 9.2; RFC 6525, section 5).
static STEPS: &[Row] = &[
    (A, Connects, &[Packet(&[INIT])], Some(CookieWait)),
    (B, Takes(1), &[Packet(&[INIT_ACK])], None),
    (A, Takes(1), &[Packet(&[COOKIE_ECHO])], Some(CookieEchoed)),
    (
        B,
        Takes(2),
        &[Event("connected", 0), Packet(&[COOKIE_ACK])],
        Some(Established),
    ),
    (A, Takes(2), &[Event("connected", 0)], Some(Established)),
    (
        A,
        Sends(1, 10),
        &[Event("low", 1), Packet(&[DATA])],
        Some(Established),
    ),
    (B, Takes(3), &[Packet(&[SACK])], Some(Established)),
    (B, Reads(1, 10), &[], Some(Established)),
    (A, Takes(3), &[], Some(Established)),
    (A, Resets(1), &[Packet(&[RE_CONFIG])], Some(Established)),
    (
        B,
        Takes(4),
        &[Event("incoming reset", 1), Packet(&[RE_CONFIG])],
        Some(Established),
    ),
    (
        A,
        Takes(4),
        &[Event("reset performed", 1)],
        Some(Established),
    ),
    (A, ShutsDown, &[Packet(&[SHUTDOWN])], Some(ShutdownSent)),
    (
        B,
        Takes(5),
        &[Packet(&[SHUTDOWN_ACK])],
        Some(ShutdownAckSent),
    ),
    (
        A,
        Takes(5),
        &[Packet(&[SHUTDOWN_COMPLETE]), Event("closed", 0)],
        None,
    ),
    (B, Takes(6), &[Event("closed", 0)], None),
];

// A lost INIT, and a quiet round: T1 expires after a second, and the four packets of the handshake come in turn (RFC
// 9260, sections 5.1 and 16).
static ROUND: &[Row] = &[
    (A, Connects, &[Packet(&[INIT])], Some(CookieWait)),
    (A, Passes(1000), &[Packet(&[INIT])], Some(CookieWait)),
    (B, Passes(1000), &[], None),
    (B, Takes(2), &[Packet(&[INIT_ACK])], None),
    (A, Takes(1), &[Packet(&[COOKIE_ECHO])], Some(CookieEchoed)),
    (
        B,
        Takes(3),
        &[Event("connected", 0), Packet(&[COOKIE_ACK])],
        Some(Established),
    ),
    (A, Takes(2), &[Event("connected", 0)], Some(Established)),
];

/// How the acts of a table are applied.
#[derive(Clone, Copy)]
pub enum Way {
    /// Each by a call of its own.
    OneByOne,

    /// All by one `run`.
    ByOneRun,

    /// The first by itself, the others by one quiet round.
    ByARound,
}

// The world has failed after so many acts. It applies nothing from then on, and shows what it showed.
fn ends(rt: &impl Abort, alloc: Global, world: &mut World<Counting>, twin: Twin<'_>, acts: usize) {
    stays_failed(rt, alloc, world);
    twin.is_not_followed(rt, world);
    twin.is_followed(rt, world, acts);
}

// The world takes the act after so many, as the twin did. Returns whether no allocation failed.
fn follows_in(
    rt: &impl Abort,
    alloc: Global,
    world: &mut World<Counting>,
    twin: Twin<'_>,
    acts: usize,
) -> bool {
    let Some(row) = twin.rows.get(acts) else {
        return true;
    };
    let is_taken = takes(rt, alloc, world, row);
    let acts = acts.saturating_add(usize::from(is_taken));
    twin.is_followed(rt, world, acts);
    if world.has_failed() {
        ends(rt, alloc, world, twin, acts);
    }
    is_taken
}

// The world takes each act, up to one in which an allocation fails. Returns whether none failed.
fn follows(rt: &impl Abort, alloc: Global, world: &mut World<Counting>, twin: Twin<'_>) -> bool {
    for acts in 0..twin.rows.len() {
        if !follows_in(rt, alloc, world, twin, acts) {
            return false;
        }
    }
    twin.is_reached(rt, world);
    true
}

// The world has gone the way of the twin to its end, or as far as this fault. Returns whether no allocation failed.
fn has_followed(
    rt: &impl Abort,
    alloc: Global,
    world: &mut World<Counting>,
    twin: Twin<'_>,
    outcome: Result<(), SocketFault>,
) -> bool {
    match outcome {
        Ok(()) => {
            is_well(rt, world);
            twin.is_followed(rt, world, twin.rows.len());
            twin.is_reached(rt, world);
            true
        }
        Err(fault) => {
            has_run_out(rt, world, fault);
            let acts = world.acts().len();
            twin.is_followed(rt, world, acts);
            ends(rt, alloc, world, twin, acts);
            false
        }
    }
}

// The world runs all steps. Returns whether no allocation failed.
fn runs(rt: &impl Abort, alloc: Global, world: &mut World<Counting>, twin: Twin<'_>) -> bool {
    let Ok(steps) = steps(alloc, twin.rows) else {
        return false;
    };
    let outcome = world.run(&steps);
    has_followed(rt, alloc, world, twin, outcome)
}

// The world takes the first act, and makes a quiet round. Returns whether no allocation failed.
fn settles(rt: &impl Abort, alloc: Global, world: &mut World<Counting>, twin: Twin<'_>) -> bool {
    if !follows_in(rt, alloc, world, twin, 0) {
        return false;
    }
    let outcome = world.settle(1);
    has_followed(rt, alloc, world, twin, outcome)
}

// A new world goes the way of the twin. Returns whether no allocation failed.
fn goes_second(rt: &impl Abort, alloc: Global, twin: Twin<'_>, way: Way) -> bool {
    let Some(mut world) = new_world(rt, alloc) else {
        return false;
    };
    twin.is_followed(rt, &world, 0);
    let is_whole = match way {
        Way::OneByOne => follows(rt, alloc, &mut world, twin),
        Way::ByOneRun => runs(rt, alloc, &mut world, twin),
        Way::ByARound => settles(rt, alloc, &mut world, twin),
    };
    drop(world);
    is_whole
}

// Two new worlds go through the table. Returns whether no allocation failed.
fn goes_through(rt: &impl Abort, alloc: Global, rows: &[Row], way: Way) -> bool {
    let Some(mut first) = new_world(rt, alloc) else {
        return false;
    };
    let mut noted = Vec::new(alloc);
    let is_whole = goes_first(rt, alloc, &mut first, &mut noted, rows)
        && goes_second(
            rt,
            alloc,
            Twin {
                world: &first,
                noted: &noted,
                rows,
            },
            way,
        );
    drop(first);
    is_whole
}

/// A world goes through the table as its twin did, up to the act in which an allocation fails. If memory can be had
/// again then, two other worlds go through all of it.
pub fn keeps_promises(rt: &impl Abort, alloc: Global, rows: &[Row], way: Way) {
    let is_kept = goes_through(rt, alloc, rows, way)
        || is_gone(alloc)
        || goes_through(rt, alloc, rows, way);
    assert!(rt; is_kept, "a world has failed, and no allocation did");
}

#[test]
fn a_world_that_runs_out_in_a_step_shows_a_front_part(rt: HostRuntime) {
    keeps_promises(&rt, rt.alloc(), STEPS, Way::OneByOne);
}

#[test]
fn a_world_that_runs_out_in_a_run_shows_a_front_part(rt: HostRuntime) {
    keeps_promises(&rt, rt.alloc(), STEPS, Way::ByOneRun);
}

#[test]
fn a_world_that_runs_out_in_a_round_shows_a_front_part(rt: HostRuntime) {
    keeps_promises(&rt, rt.alloc(), ROUND, Way::ByARound);
}
