//! A link one way that loses, doubles and reorders packets, as its seed says.

use crate::run::Run;
use crate::seen::Seen;
use dcsctp_socket::SocketTime;
use rand_core::{Rng, SeedableRng};
use rand_xoshiro::Xoshiro256PlusPlus;
use std::alloc::Global;
use std::process::Abort;
use std::time::Duration;

// A packet under way, and when it arrives.
#[derive(Drop)]
struct Flying {
    due: SocketTime,
    packet: Vec<u8>,
}

/// One direction between two sockets. A packet is under way for 10 to 49 milliseconds. A late one is under
/// way for up to two seconds more, so that timers expire before it comes.
#[derive(Drop)]
pub struct Link {
    alloc: Global,
    rng: Xoshiro256PlusPlus,

    // How many of a hundred packets are lost, how many are doubled, and how many are late.
    faults: u32,

    flying: Vec<Flying>,

    // How many packets were put on the link since they were counted last, and the numbers of those that are lost.
    count: usize,
    lost: [usize; 2],

    /// What was put on the link, lost packets included.
    pub seen: Seen,
}

impl Link {
    /// The link that leads away from one end.
    pub fn new(alloc: Global, run: &Run) -> Link {
        Link {
            alloc,
            rng: Xoshiro256PlusPlus::seed_from_u64(run.seed.wrapping_add(1_000_000)),
            faults: run.faults,
            flying: Vec::new(alloc),
            count: 0,
            lost: [0; 2],
            seen: Seen::nothing(run),
        }
    }

    // Does a fault befall this packet?
    fn has_fault(&mut self) -> bool {
        self.rng.next_u32() % 100 < self.faults
    }

    // How many milliseconds this packet is late.
    fn lateness(&mut self) -> u64 {
        if self.has_fault() {
            u64::from(self.rng.next_u32() % 2000)
        } else {
            0
        }
    }

    fn send(&mut self, rt: &impl Abort, now: SocketTime, packet: Vec<u8>) {
        let delay = 10 + u64::from(self.rng.next_u32() % 40);
        let due = now + Duration::from_millis(delay.saturating_add(self.lateness()));
        self.flying
            .push(Flying { due, packet })
            .expect(rt, "no room on the link");
    }

    /// Loses the packets of these numbers, if the next one has the number 1.
    pub fn lose(&mut self, lost: [usize; 2]) {
        self.count = 0;
        self.lost = lost;
    }

    /// Takes a packet at this moment.
    pub fn put(&mut self, rt: &impl Abort, now: SocketTime, packet: Vec<u8>) {
        self.seen.note(&packet);
        self.count = self.count.saturating_add(1);
        if self.lost.contains(&self.count) || self.has_fault() {
            return;
        }
        if self.has_fault() {
            let again = Vec::from_slice(self.alloc, packet.as_slice()).expect(rt, "no copy");
            self.send(rt, now, again);
        }
        self.send(rt, now, packet);
    }

    /// Gives a packet that has arrived by this moment.
    pub fn take(&mut self, now: SocketTime) -> Option<Vec<u8>> {
        for at in 0..self.flying.len() {
            if self.flying[at].due <= now {
                return Some(self.flying.remove(at).packet);
            }
        }
        None
    }

    /// When the next packet arrives; the last moment if none is under way.
    pub fn next_arrival(&self) -> SocketTime {
        let mut first = SocketTime::infinite_future();
        for flying in &self.flying {
            if flying.due < first {
                first = flying.due;
            }
        }
        first
    }

    /// How many packets are under way.
    pub fn len(&self) -> usize {
        self.flying.len()
    }
}
