//! A whole snapshot as bytes.

ghost use Rattle.std.specs.Prelude.{◌≡◌, ◌++◌, nat_lt, map, OnOk, IfOk, IfSome, MatchResult, Some};
ghost use Rattle.std.specs.Option.{option_map};
ghost use Rattle.dcsctp_types.specs.Snapshot.{snapshot};
ghost use Rattle.dcsctp_types.specs.SnapshotItems.{queued_part};
ghost use Rattle.dcsctp_snapshot_bytes.specs.Spelling.{capabilities_bytes, count_begun_parts, version_of, snapshot_bytes};
ghost use Rattle.dcsctp_snapshot_bytes.specs.Reading.{leading_capabilities, leading_tags, leading_content, after_magic, read_snapshot};
ghost use Rattle.dcsctp_snapshot_bytes.specs.Fits.{FitsCapabilities, FitsSnapshot};
ghost use Rattle.dcsctp_snapshot_bytes.specs.Gives.{FailsReading, ReadsValue, ReadsAll};

use crate::reader::{ReadError, Reader};
use crate::receive::{read_receive, write_receive};
use crate::transmission::{read_transmission, write_transmission};
use crate::writer::{write_flag, write_u16, write_u32, write_u64};
use dcsctp_types::{
    HandoverCapabilities, HandoverSocketState, HandoverStreamMessage, SocketHandoverState,
};
use std::alloc::{AllocError, Global};

/// `dcSn`, with which each snapshot begins.
const MAGIC: u32 = 0x6463_536e;

/// The version of the format, which follows the magic.
const VERSION: u16 = 1;

/// The version where several messages are under way. A reader of the other one would begin all but one again.
const VERSION_OF_SEVERAL: u16 = 2;

// Are several of the messages under way?
fn are_several_begun(messages: &[HandoverStreamMessage]) -> bool
    ensures { result ≡ nat_lt 1 (count_begun_parts (map queued_part messages.now)) }
{
    messages
        .iter()
        .filter(|message| 0 < message.remaining_offset)
        .nth(1)
        .is_some()
}

// The version of a snapshot.
fn version_of(state: &SocketHandoverState) -> u16
    ensures { result ≡ version_of (snapshot state.now) }
{
    if are_several_begun(state.tx.queued_messages.as_slice()) {
        VERSION_OF_SEVERAL
    } else {
        VERSION
    }
}

// The tags of an association.
#[derive(Clone, Copy)]
struct Tags {
    my_verification_tag: u32,
    my_initial_tsn: u32,
    peer_verification_tag: u32,
    peer_initial_tsn: u32,
    tie_tag: u64,
}

#[tactic(auto, unfolding(crate::specs::Spelling::capabilities_bytes))]
fn write_capabilities(
    out: &mut Vec<u8>,
    capabilities: &HandoverCapabilities,
) -> Result<(), AllocError>
    ensures bytes { OnOk result
        (out.new.items ≡ out.old.items ++ capabilities_bytes capabilities.now) }
    ensures fits { OnOk result (FitsCapabilities capabilities.now) }
{
    write_flag(out, capabilities.partial_reliability)?;
    write_flag(out, capabilities.message_interleaving)?;
    write_flag(out, capabilities.reconfig)?;
    write_flag(out, capabilities.zero_checksum)?;
    write_u16(out, capabilities.negotiated_maximum_incoming_streams)?;
    write_u16(out, capabilities.negotiated_maximum_outgoing_streams)
}

// The bytes of a snapshot, whose numbers fit their fields, as each was written.
#[tactic(auto, unfolding(crate::specs::Spelling::snapshot_bytes))]
fn write_state(alloc: Global, state: &SocketHandoverState) -> Result<Vec<u8>, AllocError>
    ensures bytes { IfOk result (λ bytes. bytes.items ≡ snapshot_bytes (snapshot state.now)) }
    ensures fits { IfOk result (λ _. FitsSnapshot (snapshot state.now)) }
{
    let mut out = Vec::new(alloc);
    write_u32(&mut out, MAGIC)?;
    write_u16(&mut out, version_of(state))?;
    write_flag(
        &mut out,
        matches!(state.socket_state, HandoverSocketState::Connected),
    )?;
    write_u32(&mut out, state.my_verification_tag)?;
    write_u32(&mut out, state.my_initial_tsn)?;
    write_u32(&mut out, state.peer_verification_tag)?;
    write_u32(&mut out, state.peer_initial_tsn)?;
    write_u64(&mut out, state.tie_tag)?;
    write_capabilities(&mut out, &state.capabilities)?;
    write_transmission(&mut out, &state.tx)?;
    write_receive(&mut out, &state.rx)?;
    Ok(out)
}

/// The bytes of a snapshot: `from_bytes` reads it from them.
///
/// All numbers are big-endian, those with a sign in two's complement. A flag is a byte, 0 or 1. An optional
/// number is a flag, and the number if the flag is 1. A list is a count of 8 bytes and its elements, and so
/// is a payload.
///
/// | Size | Field |
/// |---|---|
/// | 4 | `dcSn` |
/// | 2 | the version: 2 where several messages are under way, else 1 |
/// | 1 | 1 if connected, 0 if closed |
/// | 4 | `my_verification_tag` |
/// | 4 | `my_initial_tsn` |
/// | 4 | `peer_verification_tag` |
/// | 4 | `peer_initial_tsn` |
/// | 8 | `tie_tag` |
/// | 1 each | `partial_reliability`, `message_interleaving`, `reconfig`, `zero_checksum` |
/// | 2 each | the numbers of incoming and of outgoing streams |
/// | 4 each | `next_tsn`, `next_reset_req_sn`, `cwnd`, `rwnd`, `ssthresh`, `partial_bytes_acked` |
/// | 4 | `last_cumulative_tsn_ack` |
/// | 8 | `next_outgoing_message_id` |
/// | 8, and 14 each | `streams`: `id` (2), `next_ssn` (2), `next_unordered_mid` (4), `next_ordered_mid` (4), `priority` (2) |
/// | 8, and each | `queued_messages`: their fields in the order of `HandoverStreamMessage` |
/// | 8, and each | `outstanding_data`: their fields in the order of `HandoverOutstandingData` |
/// | 1 | `seen_packet` |
/// | 4 each | `last_cumulative_acked_tsn`, `last_assembled_tsn` |
/// | 4 each | `last_completed_deferred_reset_req_sn`, `last_completed_reset_req_sn` |
/// | 8, and 6 each | `ordered_streams`: `id` (2), `next_ssn` (4) |
/// | 8, and 2 each | `unordered_streams`: `id` (2) |
///
/// Numbers of messages and data have as many bytes as their types; `remaining_offset` has 8.
pub fn to_bytes(alloc: Global, state: &SocketHandoverState) -> Result<Vec<u8>, AllocError>
    ensures bytes { IfOk result (λ bytes. bytes.items ≡ snapshot_bytes (snapshot state.now)) }
    ensures read_back { IfOk result
        (λ bytes. read_snapshot bytes.items ≡ Some (snapshot state.now)) }
{
    write_state(alloc, state)
}

// The magic, and the version.
#[tactic(auto, unfolding(crate::specs::Reading::after_magic))]
fn read_version(reader: &mut Reader) -> Result<u16, ReadError>
    ensures { ReadsValue (λ version. version) after_magic reader.old.rest.now result
        reader.new.rest.now }
{
    let magic = reader.u32()?;
    let version = reader.u16()?;
    if magic == MAGIC {
        Ok(version)
    } else {
        Err(ReadError::Malformed)
    }
}

#[tactic(auto, unfolding(crate::specs::Reading::leading_tags))]
fn read_tags(reader: &mut Reader) -> Result<Tags, ReadError>
    ensures { ReadsValue (λ tags. tags) leading_tags reader.old.rest.now result
        reader.new.rest.now }
{
    Ok(Tags {
        my_verification_tag: reader.u32()?,
        my_initial_tsn: reader.u32()?,
        peer_verification_tag: reader.u32()?,
        peer_initial_tsn: reader.u32()?,
        tie_tag: reader.u64()?,
    })
}

#[tactic(auto, unfolding(crate::specs::Reading::leading_capabilities))]
fn read_capabilities(reader: &mut Reader) -> Result<HandoverCapabilities, ReadError>
    ensures { ReadsValue (λ capabilities. capabilities) leading_capabilities
        reader.old.rest.now result reader.new.rest.now }
{
    Ok(HandoverCapabilities {
        partial_reliability: reader.flag()?,
        message_interleaving: reader.flag()?,
        reconfig: reader.flag()?,
        zero_checksum: reader.flag()?,
        negotiated_maximum_incoming_streams: reader.u16()?,
        negotiated_maximum_outgoing_streams: reader.u16()?,
    })
}

// What follows the header.
#[tactic(auto, unfolding(crate::specs::Reading::leading_content))]
fn read_content(alloc: Global, reader: &mut Reader) -> Result<SocketHandoverState, ReadError>
    ensures { ReadsValue snapshot leading_content reader.old.rest.now result reader.new.rest.now }
{
    let connected = reader.flag()?;
    let tags = read_tags(reader)?;
    let capabilities = read_capabilities(reader)?;
    let tx = read_transmission(alloc, reader)?;
    let rx = read_receive(alloc, reader)?;
    Ok(SocketHandoverState {
        socket_state: if connected {
            HandoverSocketState::Connected
        } else {
            HandoverSocketState::Closed
        },
        my_verification_tag: tags.my_verification_tag,
        my_initial_tsn: tags.my_initial_tsn,
        peer_verification_tag: tags.peer_verification_tag,
        peer_initial_tsn: tags.peer_initial_tsn,
        tie_tag: tags.tie_tag,
        capabilities,
        tx,
        rx,
    })
}

// All of the bytes.
#[tactic(auto, unfolding(crate::specs::Reading::read_snapshot))]
fn read_state(alloc: Global, bytes: &[u8]) -> Result<SocketHandoverState, ReadError>
    ensures { ReadsAll snapshot (read_snapshot bytes.now) result }
{
    let mut reader = Reader { rest: bytes };
    let version = read_version(&mut reader)?;
    let state = read_content(alloc, &mut reader)?;
    if !reader.rest.is_empty() {
        return Err(ReadError::Malformed);
    }
    if version != version_of(&state) {
        return Err(ReadError::Malformed);
    }
    Ok(state)
}

/// The snapshot that the bytes are, as `to_bytes` writes it. `None` if they are none: the magic is another
/// one or the version isn't that of such a snapshot, they are too few or too many, or a flag is neither 0 nor 1.
///
/// A count reserves no memory: lists take at most a small multiple of the bytes.
pub fn from_bytes(alloc: Global, bytes: &[u8]) -> Result<Option<SocketHandoverState>, AllocError>
    ensures read { IfOk result (λ read. option_map snapshot read ≡ read_snapshot bytes.now) }
    ensures spelled { IfOk result
        (λ read. IfSome read (λ state. snapshot_bytes (snapshot state) ≡ bytes.now)) }
{
    match read_state(alloc, bytes) {
        Ok(state) => Ok(Some(state)),
        Err(ReadError::Malformed) => Ok(None),
        Err(ReadError::OutOfMemory) => Err(AllocError),
    }
}
