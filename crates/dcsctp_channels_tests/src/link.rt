//! A link one way: packets arrive in order after 25 milliseconds, but for those that are lost.

use dcsctp_socket::SocketTime;
use rand_core::{Rng, SeedableRng};
use rand_xoshiro::Xoshiro256PlusPlus;
use std::alloc::Global;
use std::collections::VecDeque;
use std::process::Abort;
use std::time::Duration;

// A packet under way, and when it arrives.
#[derive(Drop)]
struct Flying {
    due: SocketTime,
    packet: Vec<u8>,
}

/// One direction between two ends.
#[derive(Drop)]
pub struct Link {
    flying: VecDeque<Flying>,
    rng: Xoshiro256PlusPlus,

    // How many of a thousand packets are lost.
    loss: u32,
}

impl Link {
    /// The link that leads away from one end.
    pub fn new(alloc: Global, seed: u64, loss: u32) -> Link {
        Link {
            flying: VecDeque::new(alloc),
            rng: Xoshiro256PlusPlus::seed_from_u64(seed.wrapping_add(1_000_000)),
            loss,
        }
    }

    /// Takes a packet at this moment.
    pub fn put(&mut self, rt: &impl Abort, now: SocketTime, packet: Vec<u8>) {
        if self.rng.next_u32() % 1000 < self.loss {
            return;
        }
        let due = now + Duration::from_millis(25);
        self.flying
            .push_back(Flying { due, packet })
            .expect(rt, "no room on the link");
    }

    /// Gives a packet that has arrived by this moment.
    pub fn take(&mut self, now: SocketTime) -> Option<Vec<u8>> {
        if now < self.next_arrival() {
            return None;
        }
        let flying = self.flying.pop_front()?;
        Some(flying.packet)
    }

    /// When the next packet arrives; the last moment if none is under way.
    pub fn next_arrival(&self) -> SocketTime {
        match self.flying.front() {
            Some(flying) => flying.due,
            None => SocketTime::infinite_future(),
        }
    }
}
