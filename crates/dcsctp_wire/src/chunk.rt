//! The chunks of a packet (RFC 9260, section 3.2).

ghost use Rattle.std.specs.Prelude.{◌≡◌, ◌<◌, ℕ, List, length, map, IfOk, IsErrOf};
ghost use Rattle.std.specs.Option.{option_map};
ghost use Rattle.dcsctp_wire.specs.Content.{ChunkContent, chunk_content};
ghost use Rattle.dcsctp_wire.specs.Fields.{content_of_fields};
ghost use Rattle.dcsctp_wire.specs.Format.{IsChunkOf, BeginsWithChunk, AreChunks};

mod abort;
mod clean_blocks;
mod cookie;
mod forward_tsn;
mod init;
mod parameters;
mod sack;
mod shutdown;
mod unknown;
mod user_data;

use crate::bytes::read_frame;
use crate::cause::read_causes;
use crate::packet::PacketError;
use crate::parameter::read_parameters;
use crate::types::chunk_type;
pub use abort::{AbortChunk, ErrorChunk};
pub use clean_blocks::clean_sack;
pub use cookie::CookieEchoChunk;
pub use forward_tsn::{ForwardTsnChunk, IForwardTsnChunk, SkippedMessages, SkippedStream};
use forward_tsn::{read_forward_tsn, read_i_forward_tsn};
pub use init::InitChunk;
use init::read_init;
pub use parameters::{HeartbeatAckChunk, HeartbeatRequestChunk, ReConfigChunk};
use sack::read_sack;
pub use sack::{GapAckBlock, SackChunk};
use shutdown::read_shutdown;
pub use shutdown::{ShutdownChunk, ShutdownCompleteChunk};
use std::alloc::Global;
pub use unknown::UnknownChunk;
pub use user_data::{DataChunk, DataFlags, IDataChunk};
use user_data::{read_data, read_i_data};

/// A chunk. Its bytes are borrowed: from the packet that is read, or from the caller that writes one.
///
/// Each is a type (1 byte), flags (1 byte), a length (2 bytes) and a value. Zero bytes follow, to a multiple
/// of 4. The length counts the header and not this padding.
#[derive(Debug, Drop)]
pub enum Chunk<'a> {
    /// DATA, type 0 (RFC 9260, section 3.3.1).
    Data(DataChunk<'a>),

    /// INIT, type 1 (RFC 9260, section 3.3.2).
    Init(InitChunk<'a>),

    /// INIT ACK, type 2 (RFC 9260, section 3.3.3).
    InitAck(InitChunk<'a>),

    /// SACK, type 3 (RFC 9260, section 3.3.4).
    Sack(SackChunk<'a>),

    /// HEARTBEAT, type 4 (RFC 9260, section 3.3.5).
    HeartbeatRequest(HeartbeatRequestChunk<'a>),

    /// HEARTBEAT ACK, type 5 (RFC 9260, section 3.3.6).
    HeartbeatAck(HeartbeatAckChunk<'a>),

    /// ABORT, type 6 (RFC 9260, section 3.3.7).
    Abort(AbortChunk<'a>),

    /// SHUTDOWN, type 7 (RFC 9260, section 3.3.8).
    Shutdown(ShutdownChunk),

    /// SHUTDOWN ACK, type 8 (RFC 9260, section 3.3.9). A value is not looked at, and none is written.
    ShutdownAck,

    /// ERROR, type 9 (RFC 9260, section 3.3.10).
    Error(ErrorChunk<'a>),

    /// COOKIE ECHO, type 10 (RFC 9260, section 3.3.11).
    CookieEcho(CookieEchoChunk<'a>),

    /// COOKIE ACK, type 11 (RFC 9260, section 3.3.12). A value is not looked at, and none is written.
    CookieAck,

    /// SHUTDOWN COMPLETE, type 14 (RFC 9260, section 3.3.13).
    ShutdownComplete(ShutdownCompleteChunk),

    /// I-DATA, type 64 (RFC 8260, section 2.1).
    IData(IDataChunk<'a>),

    /// RE-CONFIG, type 130 (RFC 6525, section 3.1).
    ReConfig(ReConfigChunk<'a>),

    /// FORWARD-TSN, type 192 (RFC 3758, section 3.2).
    ForwardTsn(ForwardTsnChunk<'a>),

    /// I-FORWARD-TSN, type 194 (RFC 8260, section 2.3.1).
    IForwardTsn(IForwardTsnChunk<'a>),

    /// A chunk of any other type, read by its header alone.
    Unknown(UnknownChunk<'a>),
}

/// The chunk of this type, flags and value, if it holds neither parameters nor causes. There is none if the
/// value is too short for the fields of its type, or ends within an entry.
#[tactic(auto, unfolding(crate::specs::Fields::content_of_fields))]
fn chunk_of_fields(chunk_type: u8, flags: u8, value: &[u8]) -> Option<Chunk<'_>>
    ensures { option_map chunk_content result ≡ content_of_fields chunk_type flags value.now }
{
    match chunk_type {
        chunk_type::DATA => read_data(flags, value),
        chunk_type::SACK => read_sack(value),
        chunk_type::SHUTDOWN => read_shutdown(value),
        chunk_type::SHUTDOWN_ACK => Some(Chunk::ShutdownAck),
        chunk_type::COOKIE_ECHO => Some(Chunk::CookieEcho(CookieEchoChunk { cookie: value })),
        chunk_type::COOKIE_ACK => Some(Chunk::CookieAck),
        chunk_type::SHUTDOWN_COMPLETE => Some(Chunk::ShutdownComplete(ShutdownCompleteChunk {
            tag_reflected: flags % 2 == 1,
        })),
        chunk_type::I_DATA => read_i_data(flags, value),
        chunk_type::FORWARD_TSN => read_forward_tsn(value),
        chunk_type::I_FORWARD_TSN => read_i_forward_tsn(value),
        _ => Some(Chunk::Unknown(UnknownChunk {
            chunk_type,
            flags,
            value,
        })),
    }
}

/// The chunk of this type, flags and value.
///
/// # Errors
///
/// `Malformed` if the value doesn't fit the type, and `OutOfMemory`.
#[tactic(auto, unfolding(crate::specs::Format::form_of))]
fn chunk_from(
    alloc: Global,
    chunk_type: u8,
    flags: u8,
    value: &[u8],
) -> Result<Chunk<'_>, PacketError>
    ensures found { IfOk result (λ chunk. IsChunkOf (chunk_content chunk) chunk_type flags
        value.now) }
    ensures malformed { IsErrOf result PacketError.Malformed
        → (chunk : ChunkContent) → IsChunkOf chunk chunk_type flags value.now → ⊥ }
{
    match chunk_type {
        chunk_type::INIT => Ok(Chunk::Init(read_init(alloc, value)?)),
        chunk_type::INIT_ACK => Ok(Chunk::InitAck(read_init(alloc, value)?)),
        chunk_type::HEARTBEAT => Ok(Chunk::HeartbeatRequest(HeartbeatRequestChunk {
            parameters: read_parameters(alloc, value)?,
        })),
        chunk_type::HEARTBEAT_ACK => Ok(Chunk::HeartbeatAck(HeartbeatAckChunk {
            parameters: read_parameters(alloc, value)?,
        })),
        chunk_type::ABORT => Ok(Chunk::Abort(AbortChunk {
            tag_reflected: flags % 2 == 1,
            error_causes: read_causes(alloc, value)?,
        })),
        chunk_type::ERROR => Ok(Chunk::Error(ErrorChunk {
            error_causes: read_causes(alloc, value)?,
        })),
        chunk_type::RE_CONFIG => Ok(Chunk::ReConfig(ReConfigChunk {
            parameters: read_parameters(alloc, value)?,
        })),
        _ => chunk_of_fields(chunk_type, flags, value).ok_or(PacketError::Malformed),
    }
}

/// The first chunk of the bytes, and what follows its padding (RFC 9260, section 3.2).
///
/// # Errors
///
/// `Malformed` if there is no chunk, and `OutOfMemory` if a list can't grow.
fn read_chunk(alloc: Global, bytes: &[u8]) -> Result<(Chunk<'_>, &[u8]), PacketError>
    ensures found { IfOk result (λ read. BeginsWithChunk
        (chunk_content read.0) read.1.now bytes.now) }
    ensures malformed { IsErrOf result PacketError.Malformed
        → (chunk : ChunkContent) (rest : List ℕ) → BeginsWithChunk chunk rest bytes.now → ⊥ }
    ensures shorter { IfOk result (λ read. length read.1.now < length bytes.now) }
{
    let frame = read_frame(bytes).ok_or(PacketError::Malformed)?;
    let chunk = chunk_from(alloc, bytes[0], bytes[1], frame.value)?;
    Ok((chunk, frame.rest))
}

// For how many chunks a list begins with room. Few packets have more.
const ROOM: usize = 4;

/// The chunks that the bytes are, in their order.
///
/// # Errors
///
/// `Malformed` if the bytes are no chunks, and `OutOfMemory` if a list can't grow.
pub(crate) fn read_chunks(alloc: Global, bytes: &[u8]) -> Result<Vec<Chunk<'_>>, PacketError>
    ensures found { IfOk result (λ chunks. AreChunks (map chunk_content chunks.items) bytes.now) }
    ensures malformed { IsErrOf result PacketError.Malformed
        → (chunks : List ChunkContent) → AreChunks chunks bytes.now → ⊥ }
{
    let mut chunks = Vec::with_capacity(alloc, ROOM)?;
    let mut rest = bytes;
    while !rest.is_empty() {
        let (chunk, after) = read_chunk(alloc, rest)?;
        chunks.push(chunk)?;
        rest = after;
    }
    Ok(chunks)
}
