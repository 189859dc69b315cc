//! A snapshot with channels as bytes.

ghost use Rattle.std.specs.Prelude.{◌≡◌, ◌<◌, ◌^◌, ℕ, List, length, IfOk, Some, option_map};
ghost use Rattle.dcsctp_channel_calls.specs.Handover.{channels_part};
ghost use Rattle.dcsctp_channel_calls.specs.api.types.Snapshot.{snapshot};
ghost use Rattle.dcsctp_snapshot_bytes.specs.Reading.{read_snapshot};
ghost use Rattle.dcsctp_snapshot_bytes.specs.Spelling.{snapshot_bytes};
ghost use Rattle.dcsctp_channel_bytes.specs.Channels.{bytes_with_channels, read_behind_magic, read_parts, read_with_channels, parts_said, both_said, FitsBoth};
ghost use Rattle.dcsctp_channel_bytes.specs.Gives.{ReadsFront, ReadsWhole};

use crate::channels::{read_channels, write_channels};
use crate::reader::{ReadError, Reader};
use crate::writer::{write_payload, write_u32};
use dcsctp_channel_calls::HandoverChannels;
use dcsctp_channel_calls::api::handover::SocketHandoverState;
use dcsctp_snapshot_bytes::{from_bytes, to_bytes};
use std::alloc::{AllocError, Global};

/// `dcCh`, with which each snapshot with channels begins.
const MAGIC: u32 = 0x6463_4368;

// The bytes of both, whose numbers fit their fields, as each was written.
#[tactic(auto, unfolding(crate::specs::Channels::bytes_with_channels))]
fn write_both(
    alloc: Global,
    state: &SocketHandoverState,
    channels: &HandoverChannels,
) -> Result<Vec<u8>, AllocError>
    ensures bytes { IfOk result (λ bytes. bytes.items ≡ bytes_with_channels (snapshot state.now)
        (channels_part channels.now)) }
    ensures fits { IfOk result (λ _. FitsBoth (snapshot state.now) (channels_part channels.now)) }
{
    let body = to_bytes(alloc, state)?;
    let mut out = Vec::new(alloc);
    write_u32(&mut out, MAGIC)?;
    write_payload(&mut out, body.as_slice())?;
    write_channels(&mut out, channels)?;
    Ok(out)
}

/// The bytes of a snapshot with channels: `from_bytes_with_channels` reads both from them. Those of a snapshot alone
/// begin otherwise.
///
/// Numbers are as in those of a snapshot alone.
///
/// | Size | Field |
/// |---|---|
/// | 4 | `dcCh` |
/// | 8, and as many | the bytes of the socket's snapshot |
/// | 1, or 2 | the role, if it is known: 1 of the client, 0 of the server |
/// | 8 | `named` |
/// | 8, and each | `channels`: the fields of a `HandoverChannel` in its order |
///
/// Of its `delivery`: `ordered` (1), then the limits of retransmissions and of milliseconds, which are optional
/// numbers (4), then `priority` (2). At most one limit is there.
pub fn to_bytes_with_channels(
    alloc: Global,
    state: &SocketHandoverState,
    channels: &HandoverChannels,
) -> Result<Vec<u8>, AllocError>
    ensures bytes { IfOk result (λ bytes. bytes.items ≡ bytes_with_channels (snapshot state.now)
        (channels_part channels.now)) }
    ensures read_back { IfOk result (λ bytes. read_with_channels bytes.items
        ≡ Some (snapshot state.now, channels_part channels.now)) }
{
    write_both(alloc, state, channels)
}

// What follows the magic.
#[tactic(auto, unfolding(crate::specs::Channels::read_behind_magic))]
fn read_behind_magic<'a>(
    alloc: Global,
    bytes: &'a [u8],
) -> Result<(&'a [u8], HandoverChannels), ReadError>
    ensures { ReadsWhole parts_said (read_behind_magic bytes.now) result }
{
    let mut reader = Reader { rest: bytes };
    let state = reader.payload()?;
    let channels = read_channels(alloc, &mut reader)?;
    if !reader.rest.is_empty() {
        return Err(ReadError::Malformed);
    }
    Ok((state, channels))
}

// The bytes of the snapshot, and the channels.
#[tactic(auto, unfolding(crate::specs::Channels::read_parts))]
fn read_parts<'a>(alloc: Global, bytes: &'a [u8]) -> Result<(&'a [u8], HandoverChannels), ReadError>
    ensures { ReadsWhole parts_said (read_parts bytes.now) result }
{
    let mut reader = Reader { rest: bytes };
    if reader.u32()? != MAGIC {
        return Err(ReadError::Malformed);
    }
    read_behind_magic(alloc, reader.rest)
}

/// The snapshot and the channels that the bytes are, as `to_bytes_with_channels` writes them. `None` if they are none,
/// or are a snapshot without channels.
///
/// A count reserves no memory: lists take at most a small multiple of the bytes.
#[tactic(auto, unfolding(crate::specs::Channels::read_with_channels))]
pub fn from_bytes_with_channels(
    alloc: Global,
    bytes: &[u8],
) -> Result<Option<(SocketHandoverState, HandoverChannels)>, AllocError>
    ensures { IfOk result (λ read. option_map both_said read ≡ read_with_channels bytes.now) }
{
    match read_parts(alloc, bytes) {
        Ok((state, channels)) => match from_bytes(alloc, state)? {
            Some(state) => Ok(Some((state, channels))),
            None => Ok(None),
        },
        Err(ReadError::Malformed) => Ok(None),
        Err(ReadError::OutOfMemory) => Err(AllocError),
    }
}
