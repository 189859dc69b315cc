//! The calls of a socket, over its parts: each is a list of turns.

ghost use Rattle.std.specs.Prelude.{◌≡◌, ◌<◌, true, false, IsOk, map};
ghost use Rattle.dcsctp_core.specs.wire.Content.{chunk_content, packet_content};
ghost use Rattle.dcsctp_core.specs.spec.Packet.{content_of_chunk};
ghost use Rattle.dcsctp_core.specs.types.Schedule.{connect_call, close_call, shutdown_call, advance_call};
ghost use Rattle.dcsctp_core.specs.spec.endpoint.TimeTurns.{Waits};
ghost use Rattle.dcsctp_core.specs.spec.endpoint.Turn.{has_data_chunk};
ghost use Rattle.dcsctp_core.specs.api.Calls.{NoAnswer, is_closed, takes_shutdown};
ghost use Rattle.dcsctp_core.specs.View.{core_of, endpoint_of};
ghost use Rattle.dcsctp_core.specs.Handling.{Tries};
ghost use Rattle.dcsctp_core_ends.specs.Shutdown.{is_open_core};
ghost use Rattle.dcsctp_socket_calls.specs.Parts.{begin_turn, HandlesToEnd, HandlesTail, HandlesWholePacket, HandlesAck, HandlesAcks, HandlesCountedPacket, InputTurns, FirstOfInput, TurnsOf, CutsCall, DrewAlone, MakesAnsweredCall, MakesCallOfUser};

use crate::admission::{Admission, admit};
use crate::dispatch::handle_chunk;
use crate::texts::UNREADABLE;
use crate::timers::handle_timers;
use dcsctp_core::api::{ErrorKind, SocketTime};
use dcsctp_core::types::AbortReason;
use dcsctp_core::wire::{Chunk, PacketError, SctpPacket, WireOptions};
use dcsctp_core::{Context, Following};
use dcsctp_core_data::end_packet;
use dcsctp_core_ends::{abort_association, answer_data, do_shutdown, reflect_shutdown_ack};
use dcsctp_core_handshake::do_connect;
use rand_core::Rng;
use std::alloc::AllocError;

// Handles the chunks of an admitted packet one after another, until one says that the others aren't handled.
// Returns whether the end of the packet follows.
fn handle_each_chunk<R: Rng>(
    context: &mut Context<R>,
    packet: &SctpPacket<'_>,
) -> Result<bool, AllocError>
    ensures { HandlesToEnd R.stream (packet_content packet.now) context.old result context.new }
{
    let header_tag = packet.common_header.verification_tag;
    for chunk in &packet.chunks {
        match handle_chunk(context, header_tag, chunk)? {
            Following::NextChunk => {}
            Following::PacketEnd => return Ok(true),
            Following::DroppedRest => return Ok(false),
        }
    }
    Ok(true)
}

// What comes after the chunks of a packet: its end, and the shutdown that waited for the association to open. That
// waits again if the association still isn't open.
fn finish_packet<R: Rng>(context: &mut Context<R>, asks_again: bool) -> Result<(), AllocError>
    ensures { HandlesTail R.stream asks_again context.old result context.new }
{
    end_packet(context)?;
    if asks_again {
        do_shutdown(context)?;
    }
    Ok(())
}

// Is there data among these? With `Options::follow_rfc` I-DATA counts, too.
fn has_data(follows_rfc: bool, chunks: &[Chunk<'_>]) -> bool
    ensures { result ≡ has_data_chunk follows_rfc (map content_of_chunk
        (map chunk_content chunks.now)) }
{
    for chunk in chunks {
        match chunk {
            Chunk::Data(_) => return true,
            Chunk::IData(_) if follows_rfc => return true,
            _ => {}
        }
    }
    false
}

// What precedes the chunks of a packet: data that comes while a SHUTDOWN waits for its answer is answered by
// another. `Err`: an allocation failed, and nothing has changed.
fn begin_packet<R: Rng>(context: &mut Context<R>, packet: &SctpPacket<'_>) -> Result<(), AllocError>
    ensures { Tries R.stream (begin_turn (packet_content packet.now)) context.old result
        context.new }
{
    if has_data(context.options.follow_rfc, &packet.chunks) {
        answer_data(context)?;
    }
    Ok(())
}

// Handles a packet that is admitted whole: its chunks, and then what comes after them, unless a chunk said that the
// rest is dropped.
fn handle_whole<R: Rng>(context: &mut Context<R>, packet: &SctpPacket<'_>) -> Result<(), AllocError>
    ensures { HandlesWholePacket R.stream (packet_content packet.now) context.old result
        context.new }
{
    begin_packet(context, packet)?;
    let asks_again = context.awaits_opening();
    if handle_each_chunk(context, packet)? {
        finish_packet(context, asks_again)?;
    }
    Ok(())
}

// Answers a chunk if it is a SHUTDOWN ACK: during a handshake none is awaited. Returns what follows it.
fn answer_shutdown_ack<R: Rng>(
    context: &mut Context<R>,
    header_tag: u32,
    chunk: &Chunk<'_>,
) -> Result<Following, AllocError>
    requires { is_open_core (core_of context.old.state) ≡ false }
    ensures { HandlesAck R.stream header_tag (content_of_chunk (chunk_content chunk.now))
        context.old result context.new }
{
    if let Chunk::ShutdownAck = chunk {
        return reflect_shutdown_ack(context, header_tag);
    }
    Ok(Following::NextChunk)
}

// Handles the SHUTDOWN ACK chunks of a packet, and nothing else of it, until one says that the others aren't
// handled.
fn handle_shutdown_acks<R: Rng>(
    context: &mut Context<R>,
    packet: &SctpPacket<'_>,
) -> Result<(), AllocError>
    requires { is_open_core (core_of context.old.state) ≡ false }
    ensures { HandlesAcks R.stream (packet_content packet.now) context.old result context.new }
{
    let header_tag = packet.common_header.verification_tag;
    for chunk in &packet.chunks {
        match answer_shutdown_ack(context, header_tag, chunk)? {
            Following::NextChunk => {}
            Following::PacketEnd | Following::DroppedRest => return Ok(()),
        }
    }
    Ok(())
}

// Handles a packet that was read, as its admission says.
fn handle_packet<R: Rng>(
    context: &mut Context<R>,
    packet: &SctpPacket<'_>,
) -> Result<(), AllocError>
    ensures { HandlesCountedPacket R.stream (packet_content packet.now) context.old result
        context.new }
{
    match admit(&context.state, packet) {
        Admission::AllChunks => handle_whole(context, packet)?,
        Admission::ShutdownAcksAlone => handle_shutdown_acks(context, packet)?,
        Admission::Refused(refusal) => {
            let text = refusal.text(context.alloc)?;
            context.report(ErrorKind::ParseFailed, text)?;
        }
    }
    Ok(())
}

/// Handles a packet (RFC 9260, section 8.5): it is counted, read, admitted or refused, and each chunk is
/// handled.
pub fn handle_input<R: Rng>(context: &mut Context<R>, packet: &[u8]) -> Result<(), AllocError>
    ensures { MakesAnsweredCall R.stream NoAnswer (InputTurns packet.now)
        (CutsCall (FirstOfInput packet.now)) context.old result context.new }
{
    context.begin_call();
    context.count_packet();
    let options = WireOptions {
        local_port: context.options.local_port,
        disable_checksum_verification: context.options.disable_checksum_verification,
        zero_checksum_alternate_error_detection_method: context
            .options
            .zero_checksum_alternate_error_detection_method
            .0,
    };
    match SctpPacket::from_bytes(context.alloc, packet, &options) {
        Ok(packet) => handle_packet(context, &packet)?,
        Err(PacketError::Malformed) => {
            let text = String::from_str(context.alloc, UNREADABLE)?;
            context.report(ErrorKind::ParseFailed, text)?;
        }
        Err(PacketError::OutOfMemory) => return Err(AllocError),
    }
    Ok(())
}

/// Begins an association if there is none (RFC 9260, section 5.1). `Err`: an allocation failed, and no event
/// was added.
pub fn connect<R: Rng>(context: &mut Context<R>) -> Result<(), AllocError>
    ensures turn { MakesAnsweredCall R.stream NoAnswer (TurnsOf connect_call) DrewAlone context.old
        result context.new }
    ensures open { is_closed (core_of context.old.state) ≡ false → IsOk result }
{
    context.begin_call();
    do_connect(context)?;
    Ok(())
}

/// Ends the association at once (RFC 9260, section 9.1). `Err`: an allocation failed; the first of the call's
/// events may already have been added.
pub fn close<R: Rng>(context: &mut Context<R>) -> Result<(), AllocError>
    ensures turn { MakesCallOfUser R.stream close_call NoAnswer context.old result context.new }
    ensures closed { is_closed (core_of context.old.state) ≡ true → IsOk result }
{
    context.begin_call();
    abort_association(context, AbortReason::CloseCalled)?;
    Ok(())
}

/// Shuts the association down (RFC 9260, section 9.2). `Err`: an allocation failed; the first of the call's
/// events may already have been added.
pub fn shutdown<R: Rng>(context: &mut Context<R>) -> Result<(), AllocError>
    ensures turn { MakesCallOfUser R.stream shutdown_call NoAnswer context.old result context.new }
    ensures idle { takes_shutdown (core_of context.old.state) ≡ false → IsOk result }
{
    context.begin_call();
    do_shutdown(context)?;
    Ok(())
}

/// Moves the clock to `now`, and handles the timers that are due (RFC 9260, sections 5.1 and 8.3). An earlier
/// moment changes nothing.
pub fn advance_time<R: Rng>(context: &mut Context<R>, now: SocketTime) -> Result<(), AllocError>
    ensures turn { MakesCallOfUser R.stream (advance_call now) NoAnswer context.old result
        context.new }
    ensures earlier { now < context.old.moment → IsOk result }
    ensures waits { Waits (endpoint_of context.old) now → IsOk result }
{
    context.begin_call();
    if now < context.moment {
        return Ok(());
    }
    context.moment = now;
    handle_timers(context)?;
    Ok(())
}
