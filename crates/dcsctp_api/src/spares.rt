//! Memory of packets that were sent, for later ones. It is in cells, since no contract depends on it.

use std::alloc::Global;
use std::cell::Cell;

/// Memory of the last packets that were taken back, four at most. Where none was asked for since it was last freed, none is
/// kept, so that an idle socket has none.
#[derive(Drop)]
pub struct Spares {
    blocks: [Cell<Vec<u8>>; 4],

    // How many blocks there are, the first of those above.
    count: Cell<usize>,

    is_wanted: Cell<bool>,
    alloc: Global,
}

impl Spares {
    /// None yet. Allocates nothing.
    pub fn new(alloc: Global) -> Spares {
        Spares {
            blocks: [
                Cell::new(Vec::new(alloc)),
                Cell::new(Vec::new(alloc)),
                Cell::new(Vec::new(alloc)),
                Cell::new(Vec::new(alloc)),
            ],
            count: Cell::new(0),
            is_wanted: Cell::new(false),
            alloc,
        }
    }

    /// Keeps the memory of a packet, or frees it if there is no room. Allocates nothing.
    #[inline(always)]
    pub fn keep(&self, packet: Vec<u8>) {
        let count = self.count.get();
        if let Some(place) = self.blocks.get(count)
            && self.is_wanted.get()
        {
            place.set(packet);
            self.count.set(count.wrapping_add(1));
        }
    }

    /// Memory for a packet, with bytes of an earlier one. It has no room if none is kept. Allocates nothing.
    #[inline(always)]
    pub fn take(&self) -> Vec<u8> {
        self.is_wanted.set(true);
        let last = self.count.get().wrapping_sub(1);
        let Some(place) = self.blocks.get(last) else {
            return Vec::new(self.alloc);
        };
        self.count.set(last);
        place.replace(Vec::new(self.alloc))
    }

    /// Frees all that is kept.
    pub fn free(&self) {
        self.is_wanted.set(false);
        self.count.set(0);
        for place in self.blocks.iter() {
            place.set(Vec::new(self.alloc));
        }
    }
}
