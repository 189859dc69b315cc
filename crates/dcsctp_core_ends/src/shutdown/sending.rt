//! SHUTDOWN, SHUTDOWN ACK and SHUTDOWN COMPLETE that are sent (RFC 9260, sections 3.3.8, 3.3.9 and 3.3.13).

ghost use Rattle.dcsctp_core.specs.Handling.{Tries};
ghost use Rattle.dcsctp_core_ends.specs.Shutdown.{complete_reflected_turn, complete_sent_turn, send_shutdown_turn, send_shutdown_ack_turn};

use dcsctp_core::Context;
use dcsctp_core::wire::{Chunk, ShutdownChunk, ShutdownCompleteChunk};
use rand_core::Rng;
use std::alloc::AllocError;

/// Sends a SHUTDOWN COMPLETE with the T bit under this tag, with a checksum.
///
/// `Err`: an allocation failed; nothing has changed.
pub(crate) fn reflect_shutdown_complete<R: Rng>(
    context: &mut Context<R>,
    tag: u32,
) -> Result<(), AllocError>
    ensures { Tries R.stream (complete_reflected_turn tag) context.old result context.new }
{
    let complete = ShutdownCompleteChunk {
        tag_reflected: true,
    };
    context.emit(tag, true, &Chunk::ShutdownComplete(complete))?;
    Ok(())
}

/// Sends a SHUTDOWN to the peer, with the cumulative TSN of what was received. Without a peer nothing is
/// sent.
///
/// `Err`: an allocation failed; nothing has changed.
pub(crate) fn send_shutdown<R: Rng>(context: &mut Context<R>) -> Result<(), AllocError>
    ensures { Tries R.stream send_shutdown_turn context.old result context.new }
{
    let Some(tcb) = context.state.tcb() else {
        return Ok(());
    };
    let cumulative_tsn_ack = tcb.transfer.last_cumulative_acked_tsn();
    context.emit_to_peer(&Chunk::Shutdown(ShutdownChunk { cumulative_tsn_ack }))?;
    Ok(())
}

/// Sends a SHUTDOWN ACK to the peer. Without a peer nothing is sent.
///
/// `Err`: an allocation failed; nothing has changed.
pub fn send_shutdown_ack<R: Rng>(context: &mut Context<R>) -> Result<(), AllocError>
    ensures { Tries R.stream send_shutdown_ack_turn context.old result context.new }
{
    context.emit_to_peer(&Chunk::ShutdownAck)?;
    Ok(())
}

/// Sends a SHUTDOWN COMPLETE to the peer. Without a peer nothing is sent.
///
/// `Err`: an allocation failed; nothing has changed.
pub(crate) fn send_shutdown_complete<R: Rng>(context: &mut Context<R>) -> Result<(), AllocError>
    ensures { Tries R.stream complete_sent_turn context.old result context.new }
{
    let complete = ShutdownCompleteChunk {
        tag_reflected: false,
    };
    context.emit_to_peer(&Chunk::ShutdownComplete(complete))?;
    Ok(())
}
