//! FORWARD-TSN (RFC 3758, section 3.2) and I-FORWARD-TSN (RFC 8260, section 2.3.1).

ghost use Rattle.std.specs.Prelude.{◌≡◌, ◌<◌, ◌/◌, length};
ghost use Rattle.std.specs.Option.{option_map};
ghost use Rattle.dcsctp_wire.specs.Content.{chunk_content};
ghost use Rattle.dcsctp_wire.specs.Fields.{forward_tsn_of_value, i_forward_tsn_of_value, numbered_skipped_stream, numbered_skipped_messages};

use super::Chunk;
use crate::bytes::{has_entries, u16_at, u32_at};

/// A stream on which ordered messages are skipped, up to a number.
#[derive(Clone, Copy, Debug, PartialEq, Eq)]
pub struct SkippedStream {
    /// The stream.
    pub stream_id: u16,

    /// The last number that is skipped.
    pub ssn: u16,
}

/// A stream on which messages are skipped, ordered or unordered ones, up to a number.
#[derive(Clone, Copy, Debug, PartialEq, Eq)]
pub struct SkippedMessages {
    /// The stream.
    pub stream_id: u16,

    /// U, 1: are they unordered?
    pub is_unordered: bool,

    /// The last number that is skipped.
    pub mid: u32,
}

/// What a FORWARD-TSN says: the new cumulative TSN, four bytes, and the skipped streams, each its stream and
/// its last number, two bytes each.
#[derive(Clone, Copy, Debug)]
pub struct ForwardTsnChunk<'a> {
    /// The TSN up to which nothing is waited for.
    pub new_cumulative_tsn: u32,

    /// The skipped streams, four bytes each.
    pub skipped_streams: &'a [u8],
}

/// What an I-FORWARD-TSN says: the new cumulative TSN, four bytes, and the skipped streams.
///
/// | Offset in an entry | Size | Field |
/// |---|---|---|
/// | 0 | 2 | Stream Identifier |
/// | 2 | 2 | reserved, but for U, the lowest bit |
/// | 4 | 4 | Message Identifier |
#[derive(Clone, Copy, Debug)]
pub struct IForwardTsnChunk<'a> {
    /// The TSN up to which nothing is waited for.
    pub new_cumulative_tsn: u32,

    /// The skipped streams, eight bytes each.
    pub skipped_streams: &'a [u8],
}

impl<'a> ForwardTsnChunk<'a> {
    /// How many streams are skipped on.
    pub fn skipped_stream_count(&self) -> usize
        ensures { result ≡ length self.now.skipped_streams.now / 4 }
    {
        self.skipped_streams.len() / 4
    }

    /// The skipped stream at this place.
    pub fn skipped_stream(&self, index: usize) -> SkippedStream
        requires { index < length self.now.skipped_streams.now / 4 }
        ensures { result ≡ numbered_skipped_stream index self.now.skipped_streams.now }
    {
        SkippedStream {
            stream_id: u16_at(self.skipped_streams, 4 * index),
            ssn: u16_at(self.skipped_streams, 4 * index + 2),
        }
    }
}

impl<'a> IForwardTsnChunk<'a> {
    /// How many entries there are.
    pub fn skipped_stream_count(&self) -> usize
        ensures { result ≡ length self.now.skipped_streams.now / 8 }
    {
        self.skipped_streams.len() / 8
    }

    /// The entry at this place.
    pub fn skipped_stream(&self, index: usize) -> SkippedMessages
        requires { index < length self.now.skipped_streams.now / 8 }
        ensures { result ≡ numbered_skipped_messages index self.now.skipped_streams.now }
    {
        SkippedMessages {
            stream_id: u16_at(self.skipped_streams, 8 * index),
            is_unordered: u16_at(self.skipped_streams, 8 * index + 2) % 2 == 1,
            mid: u32_at(self.skipped_streams, 8 * index + 4),
        }
    }
}

/// The FORWARD-TSN of this value, if its streams are whole.
#[tactic(auto, unfolding(crate::specs::Fields::forward_tsn_of_value))]
pub(super) fn read_forward_tsn(value: &[u8]) -> Option<Chunk<'_>>
    ensures { option_map chunk_content result ≡ forward_tsn_of_value value.now }
{
    if !has_entries(value, 4, 4) {
        return None;
    }
    Some(Chunk::ForwardTsn(ForwardTsnChunk {
        new_cumulative_tsn: u32_at(value, 0),
        skipped_streams: &value[4..],
    }))
}

/// The I-FORWARD-TSN of this value, if its streams are whole.
#[tactic(auto, unfolding(crate::specs::Fields::i_forward_tsn_of_value))]
pub(super) fn read_i_forward_tsn(value: &[u8]) -> Option<Chunk<'_>>
    ensures { option_map chunk_content result ≡ i_forward_tsn_of_value value.now }
{
    if !has_entries(value, 4, 8) {
        return None;
    }
    Some(Chunk::IForwardTsn(IForwardTsnChunk {
        new_cumulative_tsn: u32_at(value, 0),
        skipped_streams: &value[4..],
    }))
}
