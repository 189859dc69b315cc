//! A chunk of a type that isn't known (RFC 9260, section 3.2): its first two bits say what is done with it.

ghost use Rattle.std.specs.Prelude.{◌≡◌, ◌-◌, false, take, IfOk, [], ◌∷◌, string_bytes};
ghost use Rattle.dcsctp_core.specs.wire.Content.{error_chunk, unrecognized_chunk_type};
ghost use Rattle.dcsctp_core.specs.types.Settings.{packet_size_limit};
ghost use Rattle.dcsctp_core.specs.spec.endpoint.PlainOutcomes.{is_reported, after_unknown, unknown_text, unknown_bytes};
ghost use Rattle.dcsctp_core.specs.Handling.{EmitsToPeer, TakesTurn, Tries, HandlesTurn, following_of};
ghost use Rattle.dcsctp_socket_calls.specs.Unknown.{unknown_turn, unknown_chunk_turn, reported_turn};

use dcsctp_core::api::ErrorKind;
use dcsctp_core::wire::{Chunk, ErrorCause, ErrorChunk, UnknownChunk};
use dcsctp_core::{Context, Following};
use rand_core::Rng;
use std::alloc::{AllocError, Global};

// Is it to be reported?
fn is_reported(chunk_type: u8) -> bool
    ensures { result ≡ is_reported chunk_type }
{
    chunk_type / 64 % 2 == 1
}

// What follows it.
fn following(chunk_type: u8) -> Following
    ensures { after_unknown chunk_type ≡ following_of result }
{
    if chunk_type >= 128 {
        return Following::NextChunk;
    }
    Following::PacketEnd
}

// The text of the error.
fn text_of(alloc: Global, chunk_type: u8) -> Result<String, AllocError>
    ensures { IfOk result (λ text. string_bytes text ≡ unknown_text chunk_type) }
{
    format!(in alloc; "Received chunk type {chunk_type}, ")
}

// The chunk as it was read, without padding, and at most this many bytes of it.
fn bytes_of(alloc: Global, chunk: &UnknownChunk<'_>, limit: usize) -> Result<Vec<u8>, AllocError>
    ensures { IfOk result (λ bytes. bytes.items ≡ take limit
        (unknown_bytes chunk.now.chunk_type chunk.now.flags chunk.now.value.now)) }
{
    let length = 4 + chunk.value.len();
    let high = (length / 256 % 256) as u8;
    let low = (length % 256) as u8;
    let mut bytes = Vec::from_array(alloc, [chunk.chunk_type, chunk.flags, high, low])?;
    bytes.extend_from_slice(chunk.value)?;
    bytes.truncate(limit);
    Ok(bytes)
}

// Sends an ERROR of the cause Unrecognized Chunk Type to the peer, if it is known, with as much of the chunk as
// fits.
//
// `Err`: an allocation failed, and nothing has changed.
fn send_error<R: Rng>(context: &mut Context<R>, chunk: &[u8]) -> Result<(), AllocError>
    ensures { EmitsToPeer (error_chunk (unrecognized_chunk_type chunk.now ∷ [])) context.old result
        context.new }
{
    let mut error_causes = Vec::with_capacity(context.alloc, 1)?;
    error_causes.push(ErrorCause::UnrecognizedChunkType { chunk })?;
    let error = ErrorChunk { error_causes };
    context.emit_to_peer(&Chunk::Error(error))?;
    Ok(())
}

// Reports the chunk to the peer, if it is known. `Err`: an allocation failed, and nothing has changed.
fn report_to_peer<R: Rng>(
    context: &mut Context<R>,
    chunk: &UnknownChunk<'_>,
) -> Result<(), AllocError>
    ensures { Tries R.stream (reported_turn (unknown_bytes chunk.now.chunk_type chunk.now.flags
        chunk.now.value.now)) context.old result context.new }
{
    let Some(_) = context.state.tcb() else {
        return Ok(());
    };
    let limit = context.options.mtu / 4 * 4 - 20;
    let bytes = bytes_of(context.alloc, chunk, limit)?;
    send_error(context, &bytes)?;
    Ok(())
}

// Tells the user of the chunk, and the peer, if it is known. `Err`: an allocation failed; the first of its
// events may already have been added.
fn tell<R: Rng>(context: &mut Context<R>, chunk: &UnknownChunk<'_>) -> Result<(), AllocError>
    ensures { TakesTurn R.stream
        (unknown_chunk_turn chunk.now.chunk_type (unknown_bytes chunk.now.chunk_type
        chunk.now.flags chunk.now.value.now)) context.old result context.new }
{
    let text = text_of(context.alloc, chunk.chunk_type)?;
    context.report(ErrorKind::ParseFailed, text)?;
    report_to_peer(context, chunk)?;
    Ok(())
}

/// Handles a chunk of a type that isn't known. If its second bit says so, it is reported to the user. So it is to the peer,
/// by an ERROR with as much of the chunk as fits `mtu`. Unless its first bit says so, no other chunk of the
/// packet is handled.
///
/// `Err`: an allocation failed; the first of its events may already have been added.
pub(crate) fn handle_unknown<R: Rng>(
    context: &mut Context<R>,
    chunk: &UnknownChunk<'_>,
) -> Result<Following, AllocError>
    ensures { HandlesTurn R.stream
        (unknown_turn chunk.now.chunk_type chunk.now.flags chunk.now.value.now)
        context.old result context.new }
{
    if is_reported(chunk.chunk_type) {
        tell(context, chunk)?;
    }
    Ok(following(chunk.chunk_type))
}
