//! What a socket has done before it is handed a packet.

use crate::exchanges::Exchange;
use crate::worlds::{other, unchecked_world};
use dcsctp_testing::TwoWords;
use dcsctp_world::{Call, Side, Step, World};
use std::alloc::Global;
use std::process::Abort;

/// How far it is.
#[derive(Clone, Copy, Debug, PartialEq, Eq)]
pub enum Stage {
    /// It is closed.
    Fresh,

    /// It has sent an INIT.
    Connecting,

    /// It is connected.
    Connected,

    /// It awaits the packet, in its exchange.
    Awaiting,
}

/// A packet of an exchange: which side emitted it, and its number, counted from 1.
#[derive(Clone, Copy, Debug)]
pub struct Place {
    pub exchange: Exchange,
    pub from: Side,
    pub number: usize,
}

// The steps of an exchange before this packet is handed over.
fn steps_before<'a>(place: Place, steps: &'a [Step]) -> &'a [Step] {
    let handing = Step::Deliver(other(place.from), place.number);
    let mut count = 0usize;
    for step in steps {
        if *step == handing {
            break;
        }
        count = count.saturating_add(1);
    }
    steps.get(..count).unwrap_or(&[])
}

impl Stage {
    /// A world in which the socket that gets this packet is so far.
    pub fn world(self, rt: &impl Abort, alloc: Global, place: Place) -> World<TwoWords> {
        let mut world = unchecked_world(rt, alloc);
        self.lead(rt, alloc, place, &mut world);
        world
    }

    // Leads it there.
    fn lead(self, rt: &impl Abort, alloc: Global, place: Place, world: &mut World<TwoWords>) {
        let to = other(place.from);
        match self {
            Stage::Fresh => {}
            Stage::Connecting => {
                let connect = [Step::Call(to, Call::Connect)];
                world.run(&connect).expect(rt, "no connect");
            }
            Stage::Connected => {
                let steps = Exchange::Reset.steps(rt, alloc);
                let handshake = steps.get(..5).unwrap_or(&[]);
                world.run(handshake).expect(rt, "no handshake");
            }
            Stage::Awaiting => {
                let steps = place.exchange.steps(rt, alloc);
                let before = steps_before(place, &steps);
                world.run(before).expect(rt, "no exchange");
            }
        }
    }
}
