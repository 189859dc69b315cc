//! The chunks of data on a link, one way.

use dcsctp_types::wire::{Chunk, PacketError, SctpPacket, WireOptions};
use std::alloc::{AllocError, Global};

// A reader that trusts the link.
const READER: WireOptions = WireOptions {
    local_port: 5000,
    disable_checksum_verification: true,
    zero_checksum_alternate_error_detection_method: 0,
};

/// How many chunks of data were sent, and how many of them were needless.
#[derive(Drop)]
pub struct Chunks {
    alloc: Global,

    // The first TSN, once there was one.
    first: Option<u32>,

    // By how far a TSN is after the first.
    has_arrived: Vec<bool>,

    /// How many chunks were sent, those that were sent again included.
    pub sent: u64,

    /// How many of them arrived though one with their TSN had arrived before.
    pub needless: u64,
}

impl Chunks {
    /// Nothing was sent yet.
    pub fn new(alloc: Global) -> Chunks {
        Chunks {
            alloc,
            first: None,
            has_arrived: Vec::new(alloc),
            sent: 0,
            needless: 0,
        }
    }

    // How far a TSN is after the first, which is this one if there was none.
    fn place(&mut self, tsn: u32) -> usize {
        let first = self.first.unwrap_or(tsn);
        self.first = Some(first);
        tsn.wrapping_sub(first) as usize
    }

    // Records a chunk that is sent: each TSN is sent after the one before it.
    fn note_sent_tsn(&mut self, tsn: u32) -> Result<(), AllocError> {
        self.sent = self.sent.saturating_add(1);
        if self.has_arrived.len() == self.place(tsn) {
            self.has_arrived.push(false)?;
        }
        Ok(())
    }

    // Records a chunk that has arrived.
    fn note_arrived_tsn(&mut self, tsn: u32) {
        let place = self.place(tsn);
        if let Some(has_arrived) = self.has_arrived.get_mut(place) {
            if *has_arrived {
                self.needless = self.needless.saturating_add(1);
            }
            *has_arrived = true;
        }
    }

    /// Records a packet that is sent.
    pub fn note_sent(&mut self, packet: &[u8]) -> Result<(), AllocError> {
        for tsn in &tsns_of(self.alloc, packet)? {
            self.note_sent_tsn(*tsn)?;
        }
        Ok(())
    }

    /// Records a packet that has arrived.
    pub fn note_arrived(&mut self, packet: &[u8]) -> Result<(), AllocError> {
        for tsn in &tsns_of(self.alloc, packet)? {
            self.note_arrived_tsn(*tsn);
        }
        Ok(())
    }
}

// The TSNs of the chunks of data in a packet; none if the bytes aren't a packet.
fn tsns_of(alloc: Global, packet: &[u8]) -> Result<Vec<u32>, AllocError> {
    let mut tsns = Vec::new(alloc);
    match SctpPacket::from_bytes(alloc, packet, &READER) {
        Err(PacketError::OutOfMemory) => return Err(AllocError),
        Err(PacketError::Malformed) => {}
        Ok(packet) => {
            for chunk in &packet.chunks {
                if let Chunk::Data(data) = chunk {
                    tsns.push(data.tsn)?;
                }
            }
        }
    }
    Ok(tsns)
}
