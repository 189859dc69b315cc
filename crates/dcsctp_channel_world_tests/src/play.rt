//! Two ends, the packets under way between them, and what a schedule does.

use dcsctp_channel_world::{ChannelStep, ChannelWorld, EndCall, EndReply};
use dcsctp_channels::channel_calls::api::types::Side;
use dcsctp_channels::channel_calls::api::{DcSctpSocket, SocketTime};
use dcsctp_channels::channel_calls::channel_messages::channel_spec::{Delivery, Reliability, Role};
use dcsctp_channels::channel_calls::{ChannelId, ChannelOptions, ChannelState, Limits};
use rand_core::{Rng, SeedableRng};
use rand_xoshiro::Xoshiro256PlusPlus;
use std::alloc::Global;
use std::process::Abort;
use std::time::Duration;

/// A random schedule under way.
pub struct Play<S: DcSctpSocket> {
    pub world: ChannelWorld<S>,
    alloc: Global,
    now: SocketTime,
    rng: Xoshiro256PlusPlus,

    // The numbers of packets that are under way to each end, and how many of the other's were looked at.
    to_a: Vec<usize>,
    to_b: Vec<usize>,
    seen_of_a: usize,
    seen_of_b: usize,

    // How many channels were opened, and messages sent.
    channels: u32,
    messages: u32,

    // How many of a hundred packets are lost, doubled, and taken out of order.
    rough: u32,

    /// The channels that each end's user has closed.
    pub closed_by_a: Vec<ChannelId>,
    pub closed_by_b: Vec<ChannelId>,
}

// Written out: a derived one would be proved at each exit of each function that has one.
impl<S: DcSctpSocket + Drop> Drop for Play<S> {
    fn drop(self) {
        let Play {
            world: _,
            alloc: _,
            now: _,
            rng: _,
            to_a: _,
            to_b: _,
            seen_of_a: _,
            seen_of_b: _,
            channels: _,
            messages: _,
            rough: _,
            closed_by_a: _,
            closed_by_b: _,
        } = self;
    }
}

// How many events an end may have at once.
const MOST_EVENTS: u32 = 100_000;

// The packets that are new from one end get under way, but for those that are lost; some twice.
fn fly(
    rt: &impl Abort,
    rng: &mut Xoshiro256PlusPlus,
    rough: u32,
    seen: &mut usize,
    count: usize,
    flying: &mut Vec<usize>,
) {
    for number in *seen..count {
        let word = rng.next_u32();
        if word % 100 >= rough {
            flying.push(number + 1).expect(rt, "no room");
        }
        if word / 100 % 100 < rough {
            flying.push(number + 1).expect(rt, "no room");
        }
    }
    *seen = count;
}

/// The other end.
pub fn other(side: Side) -> Side {
    match side {
        Side::A => Side::B,
        Side::B => Side::A,
    }
}

/// The opener's label of a channel: its number.
pub fn number_of(label: &[u8]) -> u32 {
    if label.len() == 4 {
        u32::from_be_bytes([label[0], label[1], label[2], label[3]])
    } else {
        0
    }
}

/// Is a channel of this number ordered?
pub fn is_ordered(number: u32) -> bool {
    number % 3 != 0
}

/// How long messages of a channel of this number are sent again.
pub fn reliability_of(number: u32) -> Reliability {
    match number % 5 {
        3 => Reliability::Retransmissions(1),
        4 => Reliability::Lifetime(40),
        _ => Reliability::Reliable,
    }
}

impl<S: DcSctpSocket + Drop> Play<S> {
    /// Two ends that aren't connected.
    pub fn new(
        rt: &impl Abort,
        alloc: Global,
        world: ChannelWorld<S>,
        seed: u64,
        rough: u32,
    ) -> Play<S> {
        let mut play = Play {
            world,
            alloc,
            now: SocketTime::zero(),
            rng: Xoshiro256PlusPlus::seed_from_u64(seed.wrapping_add(4242)),
            to_a: Vec::new(alloc),
            to_b: Vec::new(alloc),
            seen_of_a: 0,
            seen_of_b: 0,
            channels: 0,
            messages: 0,
            rough,
            closed_by_a: Vec::new(alloc),
            closed_by_b: Vec::new(alloc),
        };
        play.calls(rt, Side::A, EndCall::SetRole(Role::Client));
        play.calls(rt, Side::B, EndCall::SetRole(Role::Server));
        play
    }

    /// From now on the network is good.
    pub fn calms(&mut self) {
        self.rough = 0;
    }

    /// A word by which the schedule is chosen.
    pub fn draw(&mut self) -> u32 {
        self.rng.next_u32()
    }

    // One of the two ends.
    fn draw_side(&mut self) -> Side {
        if self.draw() % 2 == 0 {
            Side::A
        } else {
            Side::B
        }
    }

    fn applies(&mut self, rt: &impl Abort, step: ChannelStep) -> EndReply {
        let reply = self.world.apply(&step).expect(rt, "a step failed");
        drop(step);
        reply
    }

    // The user of this end takes all that happened, and its packets get under way.
    fn polls(&mut self, rt: &impl Abort, side: Side) {
        for _ in 0..MOST_EVENTS {
            if self.applies(rt, ChannelStep::Poll(side)) == EndReply::Polled(false) {
                break;
            }
        }
        let count = self.world.packets(side).len();
        match side {
            Side::A => fly(
                rt,
                &mut self.rng,
                self.rough,
                &mut self.seen_of_a,
                count,
                &mut self.to_b,
            ),
            Side::B => fly(
                rt,
                &mut self.rng,
                self.rough,
                &mut self.seen_of_b,
                count,
                &mut self.to_a,
            ),
        }
    }

    /// The user of this end calls, and takes all that happened.
    pub fn calls(&mut self, rt: &impl Abort, side: Side, call: EndCall) -> EndReply {
        let reply = self.applies(rt, ChannelStep::Call(side, call));
        self.polls(rt, side);
        reply
    }

    /// A packet that is under way to this end arrives: mostly the first.
    pub fn delivers(&mut self, rt: &impl Abort, side: Side) {
        let word = self.draw();
        let jumps = word % 100 < self.rough;
        let flying = match side {
            Side::A => &mut self.to_a,
            Side::B => &mut self.to_b,
        };
        let count = flying.len();
        if count == 0 {
            return;
        }
        let at = if jumps {
            word as usize / 100 % count
        } else {
            0
        };
        let number = flying.remove(at);
        let _reply = self.applies(rt, ChannelStep::Deliver(side, number));
        self.polls(rt, side);
    }

    /// Are packets under way?
    pub fn is_busy(&self) -> bool {
        !self.to_a.is_empty() || !self.to_b.is_empty()
    }

    // When something is due next.
    fn next_due(&self) -> SocketTime {
        let a = self.world.channels(Side::A).poll_timeout();
        let b = self.world.channels(Side::B).poll_timeout();
        if b < a { b } else { a }
    }

    /// Is nothing under way, and nothing due any more?
    pub fn is_over(&self) -> bool {
        !self.is_busy() && self.next_due() == SocketTime::infinite_future()
    }

    /// Both clocks go to the next deadline, if it is before this many milliseconds from now, or to then.
    pub fn waits(&mut self, rt: &impl Abort, millis: u64) {
        let until = self.now + Duration::from_millis(millis);
        let due = self.next_due();
        let next = if due < until { due } else { until };
        if self.now < next {
            self.now = next;
        }
        let now = self.now;
        let _a = self.calls(rt, Side::A, EndCall::AdvanceTime(now));
        let _b = self.calls(rt, Side::B, EndCall::AdvanceTime(now));
    }

    /// A user opens a channel, which has a number of its own.
    pub fn opens(&mut self, rt: &impl Abort) {
        self.channels = self.channels.saturating_add(1);
        let number = self.channels;
        let mut options = ChannelOptions::new(self.alloc, "").expect(rt, "no options");
        options
            .label
            .extend_from_slice(&number.to_be_bytes())
            .expect(rt, "no label");
        options.protocol.push(7u8).expect(rt, "no protocol");
        options.delivery = Delivery {
            ordered: is_ordered(number),
            reliability: reliability_of(number),
            priority: 256,
        };
        let side = self.draw_side();
        let _reply = self.calls(rt, side, EndCall::Open(options));
    }

    // A channel that this end knows.
    fn draw_channel(&mut self, side: Side) -> Option<ChannelId> {
        let word = self.draw() as usize;
        let opened = self.world.opened(side);
        let incoming = self.world.incoming(side);
        let own = opened.len();
        let count = own.saturating_add(incoming.len());
        if count == 0 {
            return None;
        }
        let at = word % count;
        if at < own {
            Some(opened[at].id)
        } else {
            Some(incoming[at - own].id)
        }
    }

    /// A user sends a message, if there is an open channel. Its bytes are its number.
    pub fn says(&mut self, rt: &impl Abort) {
        let side = self.draw_side();
        let Some(id) = self.draw_channel(side) else {
            return;
        };
        if self.world.channels(side).state(id) != ChannelState::Open {
            return;
        }
        self.messages = self.messages.saturating_add(1);
        let mut bytes = Vec::from_slice(self.alloc, &self.messages.to_be_bytes()).expect(
            rt, "bytes",
        );
        let size = if self.draw() % 10 == 0 { 3000 } else { 20 };
        bytes.resize(size, 7u8).expect(rt, "bytes");
        let is_text = self.messages % 2 == 0;
        let _reply = self.calls(rt, side, EndCall::Send(id, is_text, bytes));
    }

    /// A user closes a channel of its end.
    pub fn closes(&mut self, rt: &impl Abort) {
        let side = self.draw_side();
        if let Some(id) = self.draw_channel(side) {
            self.closes_one(rt, side, id);
        }
    }

    /// This user closes this channel.
    pub fn closes_one(&mut self, rt: &impl Abort, side: Side, id: ChannelId) {
        match side {
            Side::A => self.closed_by_a.push(id).expect(rt, "no room"),
            Side::B => self.closed_by_b.push(id).expect(rt, "no room"),
        }
        let _reply = self.calls(rt, side, EndCall::Close(id));
    }

    /// Has this end's user closed this channel?
    pub fn has_closed(&self, side: Side, id: ChannelId) -> bool {
        let closed = match side {
            Side::A => &self.closed_by_a,
            Side::B => &self.closed_by_b,
        };
        for other in closed.iter() {
            if *other == id {
                return true;
            }
        }
        false
    }
}
