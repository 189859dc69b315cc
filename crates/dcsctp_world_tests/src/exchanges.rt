//! Three exchanges of two sockets.

use dcsctp_world::socket::{Message, PpId, SendOptions, StreamId};
use dcsctp_world::{Call, Side, Step};
use std::alloc::Global;
use std::process::Abort;

/// What two sockets do.
#[derive(Clone, Copy, Debug, PartialEq, Eq)]
pub enum Exchange {
    /// They connect, and send messages to each other. The first goes along with the COOKIE ECHO.
    Data,

    /// They connect, and A resets a stream.
    Reset,

    /// They connect, and A shuts the association down.
    Shutdown,
}

// A message of one byte on stream 1.
fn sending(rt: &impl Abort, alloc: Global, side: Side) -> Step {
    let payload = Vec::from_slice(alloc, &[7]).expect(rt, "no payload");
    let message = Message::new(StreamId(1), PpId(51), payload);
    Step::Call(side, Call::Send(message, SendOptions::default()))
}

// A resets stream 1.
fn resetting(rt: &impl Abort, alloc: Global) -> Step {
    let ids = Vec::from_slice(alloc, &[StreamId(1)]).expect(rt, "no list");
    Step::Call(Side::A, Call::ResetStreams(ids))
}

// A connects, and four packets go back and forth.
fn handshake(rt: &impl Abort, steps: &mut Vec<Step>) {
    for step in [
        Step::Call(Side::A, Call::Connect),
        Step::Deliver(Side::B, 1),
        Step::Deliver(Side::A, 1),
        Step::Deliver(Side::B, 2),
        Step::Deliver(Side::A, 2),
    ] {
        steps.push(step).expect(rt, "no step");
    }
}

// The packets after the handshake go back and forth, each side's in their order.
fn goes_on(rt: &impl Abort, steps: &mut Vec<Step>) {
    for number in 3..=5 {
        for side in [Side::B, Side::A] {
            let step = Step::Deliver(side, number);
            steps.push(step).expect(rt, "no step");
        }
    }
}

impl Exchange {
    /// Its steps in their order.
    pub fn steps(self, rt: &impl Abort, alloc: Global) -> Vec<Step> {
        let mut steps = Vec::new(alloc);
        if self == Exchange::Data {
            let first = sending(rt, alloc, Side::A);
            steps.push(first).expect(rt, "no step");
        }
        handshake(rt, &mut steps);
        let call = match self {
            Exchange::Data => sending(rt, alloc, Side::B),
            Exchange::Reset => resetting(rt, alloc),
            Exchange::Shutdown => Step::Call(Side::A, Call::Shutdown),
        };
        steps.push(call).expect(rt, "no step");
        goes_on(rt, &mut steps);
        steps
    }
}
