//! Whole runs: two sockets connect, send 300 messages each way on four streams, and come to rest.

use crate::end::End;
use crate::run::{Closing, Run};
use dcsctp_socket::{DcSctpSocket, SocketState, SocketTime};
use std::alloc::Global;
use std::process::Abort;

// How many moments a run may have.
const MOST_MOMENTS: u32 = 200_000;

// How many seeds each kind of run has.
const SEEDS: u64 = 20;

// What happens at this moment.
fn step(rt: &impl Abort, a: &mut End, b: &mut End, now: SocketTime) {
    a.advance(rt, now);
    b.advance(rt, now);
    a.drain(rt, now);
    b.drain(rt, now);
    b.receive(rt, a, now);
    a.receive(rt, b, now);
    offer_each(rt, a, b, now);
}

// Both send messages. While one is to be handed over, the other sends none: what is received can't go along
// unfinished.
fn offer_each(rt: &impl Abort, a: &mut End, b: &mut End, now: SocketTime) {
    if !b.is_leaving() {
        a.offer(rt);
    }
    if !a.is_leaving() {
        b.offer(rt);
    }
    a.drain(rt, now);
    b.drain(rt, now);
}

// Hands over the ends for which that is due. Then both may send messages again.
fn hand_over_each(
    rt: &impl Abort,
    alloc: Global,
    run: &Run,
    (a, b): (&mut End, &mut End),
    now: SocketTime,
) {
    let is_a = a.hand_over(rt, alloc, run, now);
    let is_b = b.hand_over(rt, alloc, run, now);
    if is_a || is_b {
        offer_each(rt, a, b, now);
    }
}

// The earlier of two moments.
fn earlier(first: SocketTime, second: SocketTime) -> SocketTime {
    if second < first { second } else { first }
}

// When something happens next; the last moment if both ends are at rest.
fn next_moment(a: &End, b: &End) -> SocketTime {
    let timeout = earlier(a.socket.poll_timeout(), b.socket.poll_timeout());
    let arrival = earlier(a.link.next_arrival(), b.link.next_arrival());
    earlier(timeout, arrival)
}

// Shuts the association down, once all messages have left both queues. Some of them may be in flight.
fn shut_down(rt: &impl Abort, a: &mut End, b: &mut End, run: &Run, now: SocketTime) {
    let are_connected = a.socket.state() == SocketState::Connected
        && b.socket.state() == SocketState::Connected;
    let is_due = are_connected && a.has_sent_all() && b.has_sent_all();
    if run.closing == Closing::Never || !is_due {
        return;
    }
    a.link.lose(run.lost[0]);
    b.link.lose(run.lost[1]);
    a.socket.shutdown().expect(rt, "the shutdown of A");
    if run.closing == Closing::ByBoth {
        b.socket.shutdown().expect(rt, "the shutdown of B");
    }
    a.drain(rt, now);
    b.drain(rt, now);
}

// Runs until both ends are at rest; false if they don't come to it.
fn comes_to_rest(rt: &impl Abort, alloc: Global, run: &Run, a: &mut End, b: &mut End) -> bool {
    let mut now = SocketTime::zero();
    for _ in 0..MOST_MOMENTS {
        step(rt, a, b, now);
        hand_over_each(rt, alloc, run, (a, b), now);
        shut_down(rt, a, b, run, now);
        now = next_moment(a, b);
        if now == SocketTime::infinite_future() {
            return true;
        }
    }
    false
}

// The numbers of requests to reset streams (RFC 6525, section 4.1): its own first one, its own next one, and
// the one that is awaited of the other end.
fn numbers_of(rt: &impl Abort, end: &End) -> (u32, u32, u32) {
    let association = end.socket.association().expect(rt, "no association");
    let held = association.held.expect(rt, "no peer");
    (
        association.my.first_tsn,
        held.own_next,
        held.peer_last.wrapping_add(1),
    )
}

// All that this end was to reset was reset, and reported once at either end, by requests whose numbers follow
// one another.
fn resets_are_over(rt: &impl Abort, run: &Run, end: &End, other: &End) {
    end.resets.are_over(rt, run, &other.resets);
    let (first, next, _) = numbers_of(rt, end);
    let (_, _, awaited) = numbers_of(rt, other);
    let behind_all = first.wrapping_add(end.resets.requests);
    assert_eq!(rt;
        (next, awaited),
        (behind_all, behind_all),
        "{}, seed {}: the number of the next request",
        run.name,
        run.seed
    );
}

// What is the same of each run: A connects to B, both send all that they have, and come to rest.
fn runs_between(rt: &impl Abort, alloc: Global, run: &Run, a: &mut End, b: &mut End) {
    a.socket.connect().expect(rt, "no association was begun");
    a.drain(rt, SocketTime::zero());
    let has_rest = comes_to_rest(rt, alloc, run, a, b);
    assert!(rt; has_rest, "{}, seed {}: no rest", run.name, run.seed);
    a.is_over(rt, run, "A");
    b.is_over(rt, run, "B");
    a.handovers.are_over(rt, run, "A");
    b.handovers.are_over(rt, run, "B");
}

// The two ends of a run.
fn ends_of(rt: &impl Abort, alloc: Global, run: &Run) -> (End, End) {
    let mut other = *run;
    other.seed = run.seed.wrapping_add(500_000);
    (
        End::new(rt, alloc, run, 20),
        End::new(rt, alloc, &other, 32),
    )
}

/// A connects to B, and both send all that they have. Returns the first TSN of A.
pub fn runs(rt: &impl Abort, alloc: Global, run: &Run) -> u32 {
    let (mut a, mut b) = ends_of(rt, alloc, run);
    runs_between(rt, alloc, run, &mut a, &mut b);
    resets_are_over(rt, run, &a, &b);
    resets_are_over(rt, run, &b, &a);
    let (first_tsn, _, _) = numbers_of(rt, &a);
    drop(a);
    drop(b);
    first_tsn
}

/// A connects to B, both send all that they have, and the association is shut down: it is gone at both ends.
pub fn closes(rt: &impl Abort, alloc: Global, run: &Run) {
    let (mut a, mut b) = ends_of(rt, alloc, run);
    runs_between(rt, alloc, run, &mut a, &mut b);
    let states = (a.socket.state(), b.socket.state());
    assert_eq!(rt;
        states,
        (SocketState::Closed, SocketState::Closed),
        "{}, seed {}",
        run.name,
        run.seed
    );
    drop(a);
    drop(b);
}

/// Runs by several seeds. In the first run no packet is lost. In the second 10 of a hundred are, in the third
/// 20, in the fourth 30, and so on.
pub fn runs_each(rt: &impl Abort, alloc: Global, run: &Run) {
    for seed in 0..SEEDS {
        let mut one = *run;
        one.seed = seed;
        one.faults = (seed % 4) as u32 * 10;
        let _first_tsn = runs(rt, alloc, &one);
    }
}
