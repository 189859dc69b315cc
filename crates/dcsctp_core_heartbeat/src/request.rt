//! HEARTBEAT (RFC 9260, section 3.3.5).

ghost use Rattle.std.specs.Prelude.{map};
ghost use Rattle.dcsctp_core.specs.wire.Content.{parameter_content};
ghost use Rattle.dcsctp_core.specs.Handling.{Tries};
ghost use Rattle.dcsctp_core_heartbeat.specs.Heartbeats.{heartbeat_turn};

use dcsctp_core::Context;
use dcsctp_core::wire::{Chunk, HeartbeatAckChunk, HeartbeatRequestChunk};
use rand_core::Rng;
use std::alloc::AllocError;

/// Answers a HEARTBEAT of the peer, if it is known: a HEARTBEAT ACK is sent with the same parameters, if it
/// fits `mtu`. With `Options::follow_rfc` that is so unless another chunk of its packet was answered.
///
/// `Err`: an allocation failed, and nothing has changed.
pub fn handle_heartbeat_request<R: Rng>(
    context: &mut Context<R>,
    chunk: &HeartbeatRequestChunk<'_>,
) -> Result<(), AllocError>
    ensures { Tries R.stream (heartbeat_turn (map parameter_content chunk.now.parameters.items))
        context.old result context.new }
{
    let Some(_) = context.state.tcb() else {
        return Ok(());
    };
    let parameters = Vec::from_slice(context.alloc, &chunk.parameters)?;
    let ack = HeartbeatAckChunk { parameters };
    context.answer_peer(&Chunk::HeartbeatAck(ack))?;
    Ok(())
}
