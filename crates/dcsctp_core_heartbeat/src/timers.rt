//! The heartbeat interval, and the timer of its answer (RFC 9260, section 8.3). Called by `advance_time`.

ghost use Rattle.std.specs.Prelude.{[], ◌∷◌};
ghost use Rattle.std.specs.Int.{w32, to_be_bytes};
ghost use Rattle.dcsctp_core.specs.wire.Content.{heartbeat_chunk, heartbeat_info};
ghost use Rattle.dcsctp_core.specs.spec.endpoint.TimeTurns.{own_timer};
ghost use Rattle.dcsctp_core.specs.spec.endpoint.OwnTimers.{heartbeat_interval, heartbeat_timeout};
ghost use Rattle.dcsctp_core.specs.Handling.{TakesTurn, EmitsToPeer};
ghost use Rattle.dcsctp_core.specs.Timing.{Expires, ExpiresAlways};
ghost use Rattle.dcsctp_core_heartbeat.specs.Heartbeats.{beat_turn};

use dcsctp_core::Context;
use dcsctp_core::wire::{Chunk, HeartbeatRequestChunk, Parameter};
use rand_core::Rng;
use std::alloc::AllocError;

// Sends a HEARTBEAT with this counter to the peer, if it is known and it fits `mtu`.
//
// `Err`: an allocation failed, and nothing has changed.
fn emit_heartbeat<R: Rng>(context: &mut Context<R>, counter: u32) -> Result<(), AllocError>
    ensures { EmitsToPeer (heartbeat_chunk (heartbeat_info (to_be_bytes w32 counter) ∷ []))
        context.old result context.new }
{
    let info = counter.to_be_bytes();
    let mut parameters = Vec::with_capacity(context.alloc, 1)?;
    parameters.push(Parameter::HeartbeatInfo { info: &info })?;
    let heartbeat = HeartbeatRequestChunk { parameters };
    context.emit_to_peer(&Chunk::HeartbeatRequest(heartbeat))?;
    Ok(())
}

// Sends the next HEARTBEAT to the peer, if it is known. `Err`: an allocation failed; the first of its events
// may already have been added.
fn send_heartbeat<R: Rng>(context: &mut Context<R>) -> Result<(), AllocError>
    ensures { TakesTurn R.stream beat_turn context.old result context.new }
{
    let Some(_) = context.state.tcb() else {
        return Ok(());
    };
    let counter = context.next_heartbeat();
    emit_heartbeat(context, counter)?;
    Ok(())
}

/// Advances the heartbeat interval to the present moment, and returns whether it expires. If so, it runs again,
/// and a HEARTBEAT is sent to the peer, if it is known.
///
/// `Err`: an allocation failed; the first of its events may already have been added.
pub fn handle_heartbeat_interval<R: Rng>(context: &mut Context<R>) -> Result<bool, AllocError>
    ensures { Expires R.stream (own_timer heartbeat_interval) context.old result context.new }
{
    if !context.expire_heartbeat_interval() {
        return Ok(false);
    }
    send_heartbeat(context)?;
    Ok(true)
}

/// Advances the timer of the answer to a HEARTBEAT to the present moment, and returns whether it expires. If
/// so, the answer didn't come, and an error is counted. Allocates nothing.
pub fn handle_heartbeat_timeout<R: Rng>(context: &mut Context<R>) -> bool
    ensures { ExpiresAlways R.stream (own_timer heartbeat_timeout) context.old result context.new }
{
    context.expire_heartbeat_timeout()
}
