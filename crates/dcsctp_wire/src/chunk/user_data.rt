//! DATA (RFC 9260, section 3.3.1) and I-DATA (RFC 8260, section 2.1).

ghost use Rattle.std.specs.Prelude.{◌≡◌};
ghost use Rattle.std.specs.Option.{option_map};
ghost use Rattle.dcsctp_wire.specs.Content.{chunk_content};
ghost use Rattle.dcsctp_wire.specs.Fields.{flags_of_bits, data_of_value, i_data_of_value};
ghost use Rattle.dcsctp_wire.specs.Spelling.{data_flags};

use super::Chunk;
use crate::bytes::{u16_at, u32_at};

/// The flags of DATA and I-DATA, from the lowest bit on.
#[derive(Clone, Copy, Debug, PartialEq, Eq)]
pub struct DataFlags {
    /// E, 1: is it the last fragment of its message?
    pub is_end: bool,

    /// B, 2: is it the first fragment of its message?
    pub is_beginning: bool,

    /// U, 4: is its message delivered in no order?
    pub is_unordered: bool,

    /// I, 8: is it to be acknowledged at once?
    pub immediate_ack: bool,
}

/// What a DATA chunk says.
///
/// | Offset in the value | Size | Field |
/// |---|---|---|
/// | 0 | 4 | TSN |
/// | 4 | 2 | Stream Identifier |
/// | 6 | 2 | Stream Sequence Number |
/// | 8 | 4 | Payload Protocol Identifier |
/// | 12 | | user data |
#[derive(Clone, Copy, Debug)]
pub struct DataChunk<'a> {
    /// The flags.
    pub flags: DataFlags,

    /// The TSN.
    pub tsn: u32,

    /// The stream.
    pub stream_id: u16,

    /// The number of the message on its stream.
    pub ssn: u16,

    /// The payload protocol identifier.
    pub ppid: u32,

    /// The user data. A sender always has some; a reader accepts a chunk without any.
    pub payload: &'a [u8],
}

/// What an I-DATA chunk says.
///
/// | Offset in the value | Size | Field |
/// |---|---|---|
/// | 0 | 4 | TSN |
/// | 4 | 2 | Stream Identifier |
/// | 6 | 2 | reserved |
/// | 8 | 4 | Message Identifier |
/// | 12 | 4 | Payload Protocol Identifier of a first fragment, Fragment Sequence Number of any other |
/// | 16 | | user data |
#[derive(Clone, Copy, Debug)]
pub struct IDataChunk<'a> {
    /// The flags.
    pub flags: DataFlags,

    /// The TSN.
    pub tsn: u32,

    /// The stream.
    pub stream_id: u16,

    /// The number of the message on its stream, ordered and unordered ones apart.
    pub mid: u32,

    /// With the B bit the payload protocol identifier, without it the number of the fragment.
    pub ppid_or_fsn: u32,

    /// The user data. A sender always has some; a reader accepts a chunk without any.
    pub payload: &'a [u8],
}

impl DataFlags {
    /// The flags as the byte of a chunk header.
    pub fn byte(self) -> u8
        ensures { result ≡ data_flags self }
    {
        u8::from(self.is_end)
            + 2 * u8::from(self.is_beginning)
            + 4 * u8::from(self.is_unordered)
            + 8 * u8::from(self.immediate_ack)
    }
}

fn flags_from(flags: u8) -> DataFlags
    ensures { result ≡ flags_of_bits flags }
{
    DataFlags {
        is_end: flags % 2 == 1,
        is_beginning: flags / 2 % 2 == 1,
        is_unordered: flags / 4 % 2 == 1,
        immediate_ack: flags / 8 % 2 == 1,
    }
}

/// The DATA chunk of these flags and this value, if it is long enough for its fields.
#[tactic(auto, unfolding(crate::specs::Fields::data_of_value))]
pub(super) fn read_data(flags: u8, value: &[u8]) -> Option<Chunk<'_>>
    ensures { option_map chunk_content result ≡ data_of_value flags value.now }
{
    if value.len() < 12 {
        return None;
    }
    Some(Chunk::Data(DataChunk {
        flags: flags_from(flags),
        tsn: u32_at(value, 0),
        stream_id: u16_at(value, 4),
        ssn: u16_at(value, 6),
        ppid: u32_at(value, 8),
        payload: &value[12..],
    }))
}

/// The I-DATA chunk of these flags and this value, if it is long enough for its fields.
#[tactic(auto, unfolding(crate::specs::Fields::i_data_of_value))]
pub(super) fn read_i_data(flags: u8, value: &[u8]) -> Option<Chunk<'_>>
    ensures { option_map chunk_content result ≡ i_data_of_value flags value.now }
{
    if value.len() < 16 {
        return None;
    }
    Some(Chunk::IData(IDataChunk {
        flags: flags_from(flags),
        tsn: u32_at(value, 0),
        stream_id: u16_at(value, 4),
        mid: u32_at(value, 8),
        ppid_or_fsn: u32_at(value, 12),
        payload: &value[16..],
    }))
}
