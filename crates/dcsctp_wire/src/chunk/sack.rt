//! SACK (RFC 9260, section 3.3.4).

ghost use Rattle.std.specs.Prelude.{◌≡◌, ◌<◌, ◌/◌, ◌*◌, length};
ghost use Rattle.std.specs.Option.{option_map};
ghost use Rattle.dcsctp_wire.specs.Content.{chunk_content};
ghost use Rattle.dcsctp_wire.specs.Fields.{u32_at, sack_of_value, numbered_gap_ack_block};

use super::Chunk;
use crate::bytes::{u16_at, u32_at};

/// A gap ack block: the TSNs from the cumulative one + `start` to the cumulative one + `end` are there.
#[derive(Clone, Copy, Debug, PartialEq, Eq)]
pub struct GapAckBlock {
    /// The offset of the first TSN.
    pub start: u16,

    /// The offset of the last TSN.
    pub end: u16,
}

/// What a SACK says.
///
/// | Offset in the value | Size | Field |
/// |---|---|---|
/// | 0 | 4 | Cumulative TSN Ack |
/// | 4 | 4 | Advertised Receiver Window Credit in bytes |
/// | 8 | 2 | Number of Gap Ack Blocks |
/// | 10 | 2 | Number of Duplicate TSNs |
/// | 12 | 4 each | gap ack blocks, each its start (2 bytes) and its end (2 bytes) |
/// | | 4 each | duplicate TSNs |
#[derive(Clone, Copy, Debug)]
pub struct SackChunk<'a> {
    /// The last TSN before which none is missing.
    pub cumulative_tsn_ack: u32,

    /// The sender's receive window in bytes.
    pub a_rwnd: u32,

    /// The gap ack blocks, four bytes each.
    pub gap_ack_blocks: &'a [u8],

    /// The TSNs that came again, four bytes each.
    pub duplicate_tsns: &'a [u8],
}

impl<'a> SackChunk<'a> {
    /// How many gap ack blocks there are.
    pub fn gap_ack_block_count(&self) -> usize
        ensures { result ≡ length self.now.gap_ack_blocks.now / 4 }
    {
        self.gap_ack_blocks.len() / 4
    }

    /// The gap ack block at this place.
    pub fn gap_ack_block(&self, index: usize) -> GapAckBlock
        requires { index < length self.now.gap_ack_blocks.now / 4 }
        ensures { result ≡ numbered_gap_ack_block index self.now.gap_ack_blocks.now }
    {
        GapAckBlock {
            start: u16_at(self.gap_ack_blocks, 4 * index),
            end: u16_at(self.gap_ack_blocks, 4 * index + 2),
        }
    }

    /// How many TSNs came again.
    pub fn duplicate_tsn_count(&self) -> usize
        ensures { result ≡ length self.now.duplicate_tsns.now / 4 }
    {
        self.duplicate_tsns.len() / 4
    }

    /// The TSN at this place among those that came again.
    pub fn duplicate_tsn(&self, index: usize) -> u32
        requires { index < length self.now.duplicate_tsns.now / 4 }
        ensures { result ≡ u32_at (4 * index) self.now.duplicate_tsns.now }
    {
        u32_at(self.duplicate_tsns, 4 * index)
    }
}

/// The SACK of this value, if it is long enough for its blocks and duplicates.
#[tactic(auto, unfolding(crate::specs::Fields::sack_of_value))]
pub(super) fn read_sack(value: &[u8]) -> Option<Chunk<'_>>
    ensures { option_map chunk_content result ≡ sack_of_value value.now }
{
    if value.len() < 12 {
        return None;
    }
    let behind_blocks = 12 + 4 * (u16_at(value, 8) as usize);
    let end = behind_blocks + 4 * (u16_at(value, 10) as usize);
    if value.len() < end {
        return None;
    }
    Some(Chunk::Sack(SackChunk {
        cumulative_tsn_ack: u32_at(value, 0),
        a_rwnd: u32_at(value, 4),
        gap_ack_blocks: &value[12..behind_blocks],
        duplicate_tsns: &value[behind_blocks..end],
    }))
}
