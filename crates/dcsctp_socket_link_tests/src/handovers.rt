//! The handovers of an end to another process: when they are due, and the socket that continues.

use crate::run::{Handing, Run};
use dcsctp_socket::api::handover::SocketHandoverState;
use dcsctp_socket::{DcSctpSocket, Options, Socket, SocketEvent, SocketTime};
use rand_core::SeedableRng;
use rand_xoshiro::Xoshiro256PlusPlus;
use std::alloc::Global;
use std::process::Abort;

/// The handovers of one end.
#[derive(Drop)]
pub struct Handovers {
    plan: Handing,

    // Before which message the first one is due, and how many there were.
    first: usize,
    done: usize,

    // How many messages and fragments that weren't acknowledged went along.
    unfinished: usize,
}

// How many handovers an end has, and how many messages lie between two of them.
const HANDOVERS: usize = 10;

const BETWEEN: usize = 25;

// How many messages an end may send while it waits for its handover, if they can go along.
const MOST_WAITING: usize = 15;

impl Handovers {
    /// There was none yet. The first is due before this message.
    pub fn new(run: &Run, first: usize) -> Handovers {
        Handovers {
            plan: run.handing,
            first,
            done: 0,
            unfinished: 0,
        }
    }

    // Before which message the next one is due.
    fn next(&self) -> usize {
        self.first.saturating_add(self.done.saturating_mul(BETWEEN))
    }

    /// Is one due before the message of this number?
    pub fn are_due(&self, number: usize) -> bool {
        self.plan != Handing::Never && self.done < HANDOVERS && self.next() <= number
    }

    /// Does the message of this number wait for a handover?
    pub fn hold(&self, number: usize) -> bool {
        let may_wait = match self.plan {
            Handing::Never | Handing::AtRest => 0,
            Handing::WithData => MOST_WAITING,
        };
        self.are_due(number) && self.next().saturating_add(may_wait) <= number
    }

    /// Records what went along.
    pub fn note(&mut self, state: &SocketHandoverState) {
        let waiting = state.tx.queued_messages.len();
        let in_flight = state.tx.outstanding_data.len();
        self.done = self.done.saturating_add(1);
        self.unfinished = self
            .unfinished
            .saturating_add(waiting)
            .saturating_add(in_flight);
    }

    /// All have taken place, and something went along unfinished, if it can.
    pub fn are_over(&self, rt: &impl Abort, run: &Run, end: &str) {
        let (done, goes_along) = match self.plan {
            Handing::Never => (0, false),
            Handing::AtRest => (HANDOVERS, false),
            Handing::WithData => (HANDOVERS, true),
        };
        assert_eq!(rt;
            (self.done, 0 < self.unfinished),
            (done, goes_along),
            "{}, seed {}, {end}: handovers, and did something unfinished go along",
            run.name,
            run.seed
        );
    }
}

/// A socket that was handed over reports that it is closed, and no more: nothing is sent to its peer.
pub fn is_left(rt: &impl Abort, socket: &mut Socket<Xoshiro256PlusPlus>) {
    let told = socket.poll_event();
    assert!(rt;
        matches!(told, Some(SocketEvent::OnClosed())),
        "the end isn't told"
    );
    assert!(rt; socket.poll_event().is_none(), "more than the end is told");
}

/// Another socket with the same options, which continues from this snapshot at this moment. First it reports
/// that it is connected.
pub fn restored(
    rt: &impl Abort,
    alloc: Global,
    options: &Options,
    now: SocketTime,
    state: &SocketHandoverState,
) -> Socket<Xoshiro256PlusPlus> {
    assert!(rt; options.is_valid(), "the options are not valid");
    let generator = Xoshiro256PlusPlus::seed_from_u64(0);
    let mut socket = Socket::new(alloc, "end", options, generator).expect(rt, "no socket");
    goes_on(rt, &mut socket, now, state);
    socket
}

// A closed socket continues from this snapshot.
fn goes_on(
    rt: &impl Abort,
    socket: &mut Socket<Xoshiro256PlusPlus>,
    now: SocketTime,
    state: &SocketHandoverState,
) {
    socket.advance_time(now).expect(rt, "no time");
    assert!(rt;
        state.is_valid(&socket.options()),
        "the snapshot is not valid"
    );
    let answer = socket.restore_from_state(state).expect(rt, "no answer");
    assert_eq!(rt; answer, Ok(()), "the socket is not restored");
    let told = socket.poll_event();
    assert!(rt;
        matches!(told, Some(SocketEvent::OnConnected())),
        "it isn't connected"
    );
}
