//! SHUTDOWN (RFC 9260, section 3.3.8) and SHUTDOWN COMPLETE (RFC 9260, section 3.3.13). A SHUTDOWN ACK (RFC 9260,
//! section 3.3.9) says nothing but its type.

ghost use Rattle.std.specs.Prelude.{◌≡◌};
ghost use Rattle.std.specs.Option.{option_map};
ghost use Rattle.dcsctp_wire.specs.Content.{chunk_content};
ghost use Rattle.dcsctp_wire.specs.Fields.{shutdown_of_value};

use super::Chunk;
use crate::bytes::u32_at;

/// What a SHUTDOWN says: its value is a TSN of four bytes.
#[derive(Clone, Copy, Debug)]
pub struct ShutdownChunk {
    /// The last TSN before which none is missing.
    pub cumulative_tsn_ack: u32,
}

/// What a SHUTDOWN COMPLETE says: the T bit, the lowest of the flags.
#[derive(Clone, Copy, Debug)]
pub struct ShutdownCompleteChunk {
    /// The T bit: does the packet carry the tag of the packets that its sender got?
    pub tag_reflected: bool,
}

/// The SHUTDOWN of this value, if it is long enough for a TSN.
#[tactic(auto, unfolding(crate::specs::Fields::shutdown_of_value))]
pub(super) fn read_shutdown(value: &[u8]) -> Option<Chunk<'_>>
    ensures { option_map chunk_content result ≡ shutdown_of_value value.now }
{
    if value.len() < 4 {
        return None;
    }
    Some(Chunk::Shutdown(ShutdownChunk {
        cumulative_tsn_ack: u32_at(value, 0),
    }))
}
