//! Which handler a chunk goes to.

ghost use Rattle.std.specs.Prelude.{◌≡◌, false, None};
ghost use Rattle.dcsctp_core.specs.wire.Content.{chunk_content};
ghost use Rattle.dcsctp_core.specs.spec.Packet.{content_of_chunk};
ghost use Rattle.dcsctp_core.specs.spec.endpoint.Turn.{needs_connection, comes_early};
ghost use Rattle.dcsctp_core.specs.View.{core_of, endpoint_of};
ghost use Rattle.dcsctp_core_ends.specs.Ends.{violation_of_content};
ghost use Rattle.dcsctp_socket_calls.specs.Parts.{HandlesChunk};

use crate::unknown::handle_unknown;
use dcsctp_core::types::AbortReason;
use dcsctp_core::wire::Chunk;
use dcsctp_core::{Context, Following};
use dcsctp_core_data::{
    DataPart, handle_data, handle_forward_tsn, handle_i_forward_tsn, handle_sack, handle_shutdown,
};
use dcsctp_core_ends::{
    abort_association, handle_abort, handle_error, handle_shutdown_ack, handle_shutdown_complete,
    violation_of,
};
use dcsctp_core_handshake::{handle_cookie_ack, handle_cookie_echo, handle_init, handle_init_ack};
use dcsctp_core_heartbeat::{handle_heartbeat_ack, handle_heartbeat_request};
use dcsctp_core_resets::handle_re_config;
use rand_core::Rng;
use std::alloc::AllocError;

// Is this data, or does it speak of data or of streams?
fn needs_connection(chunk: &Chunk<'_>) -> bool
    ensures { result ≡ needs_connection (content_of_chunk (chunk_content chunk.now)) }
{
    match chunk {
        Chunk::Data(_)
        | Chunk::IData(_)
        | Chunk::Sack(_)
        | Chunk::ForwardTsn(_)
        | Chunk::IForwardTsn(_)
        | Chunk::ReConfig(_) => true,
        _ => false,
    }
}

// Does such a chunk come before the COOKIE ACK? With `Options::follow_rfc` it is dropped (RFC 9260, section 6).
fn comes_early<R: Rng>(context: &Context<R>, chunk: &Chunk<'_>) -> bool
    ensures { result ≡ comes_early (endpoint_of context.now)
        (content_of_chunk (chunk_content chunk.now)) }
{
    context.options.follow_rfc && context.state.awaits_cookie_ack() && needs_connection(chunk)
}

/// Handles a chunk of an admitted packet with this header tag, and says what follows it. One that breaks the
/// negotiated protocol aborts the association.
pub(crate) fn handle_chunk<R: Rng>(
    context: &mut Context<R>,
    header_tag: u32,
    chunk: &Chunk<'_>,
) -> Result<Following, AllocError>
    ensures { HandlesChunk R.stream header_tag (content_of_chunk (chunk_content chunk.now))
        context.old result context.new }
{
    if comes_early(context, chunk) {
        return Ok(Following::NextChunk);
    }
    match violation_of(&context.state, chunk) {
        Some(violation) => {
            abort_association(context, AbortReason::Violation(violation))?;
            Ok(Following::DroppedRest)
        }
        None => dispatch_chunk(context, header_tag, chunk),
    }
}

// Handles a chunk that breaks nothing, and doesn't come early.
fn dispatch_chunk<R: Rng>(
    context: &mut Context<R>,
    header_tag: u32,
    chunk: &Chunk<'_>,
) -> Result<Following, AllocError>
    requires late { comes_early (endpoint_of context.old)
        (content_of_chunk (chunk_content chunk.now)) ≡ false }
    requires unbroken { violation_of_content (core_of context.old.state)
        (content_of_chunk (chunk_content chunk.now)) ≡ None }
    ensures { HandlesChunk R.stream header_tag (content_of_chunk (chunk_content chunk.now))
        context.old result context.new }
{
    match chunk {
        Chunk::Init(init) => {
            handle_init(context, init)?;
            Ok(Following::NextChunk)
        }
        Chunk::InitAck(init_ack) => handle_init_ack(context, init_ack),
        Chunk::Abort(abort) => handle_abort(context, abort),
        Chunk::CookieEcho(echo) => handle_cookie_echo(context, header_tag, echo),
        Chunk::CookieAck => {
            handle_cookie_ack(context)?;
            Ok(Following::NextChunk)
        }
        Chunk::ShutdownAck => handle_shutdown_ack(context, header_tag),
        Chunk::HeartbeatRequest(request) => {
            handle_heartbeat_request(context, request)?;
            Ok(Following::NextChunk)
        }
        Chunk::HeartbeatAck(ack) => {
            handle_heartbeat_ack(context, ack)?;
            Ok(Following::NextChunk)
        }
        Chunk::Error(error) => handle_error(context, error),
        Chunk::Unknown(unknown) => handle_unknown(context, unknown),
        Chunk::ShutdownComplete(_) => handle_shutdown_complete(context),
        Chunk::Data(data) => {
            handle_data(context, DataPart::of_data(data))?;
            Ok(Following::NextChunk)
        }
        Chunk::IData(data) => {
            handle_data(context, DataPart::of_i_data(data))?;
            Ok(Following::NextChunk)
        }
        Chunk::Sack(sack) => {
            handle_sack(context, sack)?;
            Ok(Following::NextChunk)
        }
        Chunk::ForwardTsn(forward_tsn) => {
            handle_forward_tsn(context, forward_tsn)?;
            Ok(Following::NextChunk)
        }
        Chunk::IForwardTsn(forward_tsn) => {
            handle_i_forward_tsn(context, forward_tsn)?;
            Ok(Following::NextChunk)
        }
        Chunk::ReConfig(re_config) => {
            handle_re_config(context, re_config)?;
            Ok(Following::NextChunk)
        }
        Chunk::Shutdown(shutdown) => {
            handle_shutdown(context, shutdown)?;
            Ok(Following::NextChunk)
        }
    }
}
