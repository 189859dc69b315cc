//! What was on the wire.

use crate::run::Run;

/// What one end has put on the wire.
#[derive(Clone, Copy)]
pub struct Seen {
    interleaving: bool,
    zero_checksum: bool,

    // The last TSN, once there was one.
    last_tsn: Option<u32>,

    // The number that the next ordered message carries, for each stream.
    next_numbers: [u32; 4],

    /// DATA, or with interleaving I-DATA.
    pub data: usize,

    /// FORWARD-TSNs, or with interleaving I-FORWARD-TSNs.
    pub forward_tsns: usize,

    /// Those of the other kind, and ordered messages whose number isn't the next one of their stream. Also
    /// packets with a checksum that are to have none, or the other way round.
    pub strange: usize,
}

// The chunk at a place of a packet with all that is after it, and where the next one is (RFC 9260, section
// 3.2).
fn chunk_at(packet: &[u8], at: usize) -> Option<(&[u8], usize)> {
    let chunk = packet.get(at..)?;
    if chunk.len() < 4 {
        return None;
    }
    let len = usize::from(two_bytes(chunk, 2));
    let padding = (4 - len % 4) % 4;
    Some((chunk, at.saturating_add(len).saturating_add(padding)))
}

// The byte at a place; 0 after the end.
fn byte(chunk: &[u8], at: usize) -> u8 {
    chunk.get(at).copied().unwrap_or(0)
}

// The number in two bytes.
fn two_bytes(chunk: &[u8], at: usize) -> u16 {
    u16::from_be_bytes([byte(chunk, at), byte(chunk, at.saturating_add(1))])
}

// The number in four bytes.
fn four_bytes(chunk: &[u8], at: usize) -> u32 {
    u32::from_be_bytes([
        byte(chunk, at),
        byte(chunk, at.saturating_add(1)),
        byte(chunk, at.saturating_add(2)),
        byte(chunk, at.saturating_add(3)),
    ])
}

// Does an ordered message begin with this chunk of data?
fn begins_ordered(chunk: &[u8]) -> bool {
    byte(chunk, 1) / 2 % 4 == 1
}

// Is there a checksum? A field of zero means none (RFC 9653, section 4).
fn has_checksum(packet: &[u8]) -> bool {
    for at in 8..12 {
        if packet.get(at).copied() != Some(0) {
            return true;
        }
    }
    false
}

/// The TSN of the first chunk of a packet, if that is DATA or I-DATA.
pub fn first_tsn(packet: &[u8]) -> Option<u32> {
    let (chunk, _) = chunk_at(packet, 12)?;
    match byte(chunk, 0) {
        0 | 64 => Some(four_bytes(chunk, 4)),
        _ => None,
    }
}

impl Seen {
    /// Nothing was on the wire yet.
    pub fn nothing(run: &Run) -> Seen {
        Seen {
            interleaving: run.interleaving,
            zero_checksum: run.zero_checksum,
            last_tsn: None,
            next_numbers: [0; 4],
            data: 0,
            forward_tsns: 0,
            strange: 0,
        }
    }

    // Is this TSN after all before it? What is sent again has its old one.
    fn is_new(&self, tsn: u32) -> bool {
        match self.last_tsn {
            None => true,
            Some(last) => last != tsn && tsn.wrapping_sub(last) < 0x8000_0000,
        }
    }

    // Records the number of an ordered message that begins. With interleaving it has four bytes, else two.
    fn note_number(&mut self, chunk: &[u8]) {
        let number = if self.interleaving {
            four_bytes(chunk, 12)
        } else {
            u32::from(two_bytes(chunk, 10))
        };
        let Some(next) = self.next_numbers.get_mut(usize::from(two_bytes(chunk, 8))) else {
            return;
        };
        if *next != number {
            self.strange = self.strange.saturating_add(1);
        }
        *next = number.wrapping_add(1);
    }

    // Records a chunk of data: its TSN, its stream and the number of its message (RFC 9260, section 3.3.1, and
    // RFC 8260, section 2.1).
    fn note_data(&mut self, chunk: &[u8]) {
        self.data = self.data.saturating_add(1);
        let tsn = four_bytes(chunk, 4);
        if !self.is_new(tsn) {
            return;
        }
        self.last_tsn = Some(tsn);
        if begins_ordered(chunk) {
            self.note_number(chunk);
        }
    }

    /// This stream was reset: its next message carries the number 0 (RFC 6525, section 5.2.7).
    pub fn begins_anew(&mut self, stream: u16) {
        if let Some(next) = self.next_numbers.get_mut(usize::from(stream)) {
            *next = 0;
        }
    }

    // Records a chunk: DATA is of kind 0, I-DATA of 64, FORWARD-TSN of 192, and I-FORWARD-TSN of 194.
    fn note_chunk(&mut self, chunk: &[u8]) {
        match (byte(chunk, 0), self.interleaving) {
            (0, false) | (64, true) => self.note_data(chunk),
            (192, false) | (194, true) => {
                self.forward_tsns = self.forward_tsns.saturating_add(1);
            }
            (0 | 64 | 192 | 194, _) => self.strange = self.strange.saturating_add(1),
            _ => {}
        }
    }

    /// Records a packet. INIT and COOKIE ECHO, of kinds 1 and 10, have a checksum in any case (RFC 9653, section 5.2).
    pub fn note(&mut self, packet: &[u8]) {
        let first = packet.get(12).copied();
        let needs_checksum = !self.zero_checksum || first == Some(1) || first == Some(10);
        if has_checksum(packet) != needs_checksum {
            self.strange = self.strange.saturating_add(1);
        }
        let mut at = 12;
        for _ in 0..packet.len() {
            let Some((chunk, next)) = chunk_at(packet, at) else {
                return;
            };
            self.note_chunk(chunk);
            at = next;
        }
    }
}
