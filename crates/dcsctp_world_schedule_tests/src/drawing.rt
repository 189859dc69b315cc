//! What a schedule is drawn from.

use crate::view::Kind;
use dcsctp_world::Side;
use dcsctp_world::socket::{SocketTime, StreamId};
use rand_core::{Rng, SeedableRng};
use rand_xoshiro::Xoshiro256PlusPlus;
use std::time::Duration;

/// A generator, the present moment, how many messages were drawn, and how far the packets of each side were handed
/// over in their order.
#[derive(Drop)]
pub struct Drawing {
    rng: Xoshiro256PlusPlus,
    kind: Kind,
    now: SocketTime,
    messages: u32,
    a_handed: usize,
    b_handed: usize,
}

impl Drawing {
    /// Nothing was drawn yet.
    pub fn new(seed: u64, kind: Kind) -> Drawing {
        Drawing {
            rng: Xoshiro256PlusPlus::seed_from_u64(seed),
            kind,
            now: SocketTime::zero(),
            messages: 0,
            a_handed: 0,
            b_handed: 0,
        }
    }

    /// A number below this one, which isn't 0.
    pub fn below(&mut self, limit: u32) -> u32 {
        self.rng.next_u32().checked_rem(limit).unwrap_or(0)
    }

    /// What may happen to streams and messages.
    pub fn kind(&self) -> Kind {
        self.kind
    }

    /// Either side.
    pub fn side(&mut self) -> Side {
        if self.below(2) == 0 { Side::A } else { Side::B }
    }

    /// The number of the next message.
    pub fn number(&mut self) -> u32 {
        self.messages = self.messages.saturating_add(1);
        self.messages
    }

    /// One of five streams.
    pub fn stream(&mut self) -> StreamId {
        StreamId((self.below(5) % 5) as u16)
    }

    /// A moment that comes later: mostly within a timeout, sometimes within a heartbeat interval.
    pub fn later(&mut self) -> SocketTime {
        let most = if self.below(10) == 0 { 60_000 } else { 1000 };
        let millis = u64::from(self.below(most));
        self.now = self.now + Duration::from_millis(millis);
        self.now
    }

    // One of the last eight of so many packets.
    fn recent(&mut self, emitted: usize) -> usize {
        emitted.saturating_sub(self.below(8) as usize)
    }

    // The next packet in order. If it is lost, the one after it.
    fn next(&mut self, from: Side, is_lost: bool) -> usize {
        let handed = match from {
            Side::A => &mut self.a_handed,
            Side::B => &mut self.b_handed,
        };
        *handed = handed.saturating_add(1 + usize::from(is_lost));
        *handed
    }

    // Were all of so many packets handed over?
    fn has_all(&self, from: Side, emitted: usize) -> bool {
        match from {
            Side::A => emitted <= self.a_handed,
            Side::B => emitted <= self.b_handed,
        }
    }

    /// The number of the packet that is handed over, where a side has emitted so many. Most come in their order. Some
    /// are lost, some come again or late, and some come from long ago. Number 0 is none.
    pub fn packet(&mut self, from: Side, emitted: usize) -> usize {
        let is_idle = self.has_all(from, emitted);
        match self.below(20) {
            0..=12 if !is_idle => self.next(from, false),
            13 | 14 if !is_idle => self.next(from, true),
            0..=18 => self.recent(emitted),
            _ => self.long_ago(emitted),
        }
    }

    // Any of so many packets.
    fn long_ago(&mut self, emitted: usize) -> usize {
        let limit = u32::try_from(emitted).unwrap_or(1);
        (self.below(limit) as usize).saturating_add(1)
    }
}
