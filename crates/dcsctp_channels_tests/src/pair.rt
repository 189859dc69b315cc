//! Two ends, and the time that passes between them.

use crate::end::{End, Setting};
use dcsctp_channels::channel_calls::ChannelId;
use dcsctp_channels::channel_calls::channel_messages::channel_spec::Role;
use dcsctp_socket::SocketTime;
use rand_core::{Rng, SeedableRng};
use rand_xoshiro::Xoshiro256PlusPlus;
use std::alloc::Global;
use std::process::Abort;
use std::time::Duration;

/// Two ends. Each channel that one opens has a number of its own.
pub struct Pair {
    pub a: End,
    pub b: End,
    now: SocketTime,
    numbers: u32,
    rng: Xoshiro256PlusPlus,
}

// Written out: a derived one would be proved at each exit of each function that has one.
impl Drop for Pair {
    fn drop(self) {
        let Pair {
            a: _,
            b: _,
            now: _,
            numbers: _,
            rng: _,
        } = self;
    }
}

// How many moments a stretch of time may have.
const MOST_MOMENTS: u32 = 200_000;

// The earlier of two moments.
fn earlier(first: SocketTime, second: SocketTime) -> SocketTime {
    if second < first { second } else { first }
}

// When something happens next at this end, or arrives from it.
fn next_of(end: &End) -> SocketTime {
    earlier(end.peer.poll_timeout(), end.link.next_arrival())
}

fn step(rt: &impl Abort, a: &mut End, b: &mut End, now: SocketTime) {
    a.drain(rt, now);
    b.drain(rt, now);
    a.step(rt, &mut b.link, now);
    b.step(rt, &mut a.link, now);
}

impl Pair {
    /// Two ends that aren't connected.
    pub fn new(rt: &impl Abort, alloc: Global, setting: &Setting, roles: (Role, Role)) -> Pair {
        Pair {
            a: End::new(rt, alloc, setting, false, roles.0),
            b: End::new(rt, alloc, setting, true, roles.1),
            now: SocketTime::zero(),
            numbers: 0,
            rng: Xoshiro256PlusPlus::seed_from_u64(setting.seed.wrapping_add(77)),
        }
    }

    /// Both ends connect at once, and the association is there.
    pub fn connects(&mut self, rt: &impl Abort) {
        self.a.peer.connect().expect(rt, "no association was begun");
        self.b.peer.connect().expect(rt, "no association was begun");
        self.passes(rt, 60_000);
        assert!(rt;
            self.a.connected && self.b.connected,
            "there is no association"
        );
    }

    /// So many milliseconds pass.
    pub fn passes(&mut self, rt: &impl Abort, millis: u64) {
        let until = self.now + Duration::from_millis(millis);
        for _ in 0..MOST_MOMENTS {
            step(rt, &mut self.a, &mut self.b, self.now);
            let next = earlier(next_of(&self.a), next_of(&self.b));
            if until < next {
                break;
            }
            self.now = next;
        }
        self.now = until;
        step(rt, &mut self.a, &mut self.b, until);
    }

    /// A number that no channel has yet, of an ordered one.
    pub fn ordered_number(&mut self) -> u32 {
        self.numbers = self
            .numbers
            .saturating_add(if self.numbers % 3 == 1 { 1 } else { 2 });
        self.numbers
    }

    /// A number that no channel has yet.
    pub fn number(&mut self) -> u32 {
        self.numbers = self.numbers.saturating_add(1);
        self.numbers
    }

    /// A word by which a run is chosen.
    pub fn draw(&mut self) -> u32 {
        self.rng.next_u32()
    }

    /// A opens a channel, and B hears of it.
    pub fn opens(&mut self, rt: &impl Abort) -> (u32, ChannelId, ChannelId) {
        let number = self.ordered_number();
        let id = self.a.open(rt, number);
        self.passes(rt, 60_000);
        let other = self.b.named(number).expect(rt, "the channel isn't there");
        (number, id, other)
    }
}
