//! A link that loses, doubles and reorders what goes by it, as its seed says.

use dcsctp_receive_reassembly::{Data, SkippedTo};
use dcsctp_send_retransmission::wire::GapAckBlock;
use rand_core::{Rng, SeedableRng};
use rand_xoshiro::Xoshiro256PlusPlus;
use std::alloc::{AllocError, Global};

/// What a chunk says, from one side to the other.
#[derive(Drop)]
pub enum Parcel {
    Data {
        tsn: u32,
        data: Data,
    },
    Forward {
        tsn: u32,
        skipped: Vec<SkippedTo>,
    },
    Sack {
        cumulative: u32,
        window: u32,
        blocks: Vec<GapAckBlock>,
    },
}

impl Parcel {
    fn copied(&self, alloc: Global) -> Result<Parcel, AllocError> {
        match self {
            Parcel::Data { tsn, data } => Ok(Parcel::Data {
                tsn: *tsn,
                data: data.copied(alloc)?,
            }),
            Parcel::Forward { tsn, skipped } => Ok(Parcel::Forward {
                tsn: *tsn,
                skipped: Vec::from_slice(alloc, skipped.as_slice())?,
            }),
            Parcel::Sack {
                cumulative,
                window,
                blocks,
            } => Ok(Parcel::Sack {
                cumulative: *cumulative,
                window: *window,
                blocks: Vec::from_slice(alloc, blocks.as_slice())?,
            }),
        }
    }
}

// A chunk under way, and when it arrives.
#[derive(Drop)]
struct Flying {
    due: u64,
    parcel: Parcel,
}

/// One direction of the link.
#[derive(Drop)]
pub struct Link {
    alloc: Global,
    rng: Xoshiro256PlusPlus,

    // How many of a hundred chunks are lost, and how many are doubled.
    faults: u32,

    flying: Vec<Flying>,
}

impl Link {
    /// A link of this seed, on which that many of a hundred chunks are lost, and as many are doubled.
    pub fn new(alloc: Global, seed: u64, faults: u32) -> Link {
        Link {
            alloc,
            rng: Xoshiro256PlusPlus::seed_from_u64(seed),
            faults,
            flying: Vec::new(alloc),
        }
    }

    // Does a fault befall this chunk?
    fn has_fault(&mut self) -> bool {
        self.rng.next_u32() % 100 < self.faults
    }

    fn send(&mut self, now: u64, parcel: Parcel) -> Result<(), AllocError> {
        let delay = 10 + u64::from(self.rng.next_u32() % 40);
        let due = now.saturating_add(delay);
        self.flying.push(Flying { due, parcel })?;
        Ok(())
    }

    /// Takes a chunk at this moment, in milliseconds.
    pub fn put(&mut self, now: u64, parcel: Parcel) -> Result<(), AllocError> {
        if self.has_fault() {
            return Ok(());
        }
        if self.has_fault() {
            let again = parcel.copied(self.alloc)?;
            self.send(now, again)?;
        }
        self.send(now, parcel)
    }

    /// Gives a chunk that has arrived at this moment.
    pub fn take(&mut self, now: u64) -> Option<Parcel> {
        for at in 0..self.flying.len() {
            if self.flying[at].due <= now {
                return Some(self.flying.remove(at).parcel);
            }
        }
        None
    }

    /// How many chunks are under way.
    pub fn len(&self) -> usize {
        self.flying.len()
    }
}
