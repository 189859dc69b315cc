//! `reset_streams` (RFC 6525, section 5.1.2).

ghost use Rattle.std.specs.Prelude.{◌≡◌, ◌≢◌, None, IsOk};
ghost use Rattle.std.specs.Option.{option_map};
ghost use Rattle.dcsctp_core.specs.types.Ids.{stream_numbers};
ghost use Rattle.dcsctp_core.specs.spec.endpoint.PreparedResets.{reset_refusal};
ghost use Rattle.dcsctp_core.specs.api.Resets.{reset_refusal_of};
ghost use Rattle.dcsctp_core.specs.View.{endpoint_of};
ghost use Rattle.dcsctp_core.specs.Handling.{TakesOne};
ghost use Rattle.dcsctp_core_messages.specs.Resetting.{PreparesOneStream, PreparesSomeStreams, ResetsOwnStreams};

use dcsctp_core::Context;
use dcsctp_core::api::{ResetStreamsError, StreamId};
use rand_core::Rng;
use std::alloc::AllocError;

/// Resets our own streams: each is prepared in turn, and then what waits is sent. If the peer isn't known, or
/// resets weren't negotiated, this is refused, nothing changes, and nothing is allocated.
///
/// `Err`: an allocation failed; the first of the call's events may already have been added.
pub fn do_reset_streams<R: Rng>(
    context: &mut Context<R>,
    stream_ids: &[StreamId],
) -> Result<Result<(), ResetStreamsError>, AllocError>
    ensures turn { ResetsOwnStreams R.stream (stream_numbers stream_ids.now) context.old result
        context.new }
    ensures refused { reset_refusal (endpoint_of context.old) ≢ None → IsOk result }
{
    match refusal(context) {
        Some(error) => Ok(Err(error)),
        None => {
            prepare_streams(context, stream_ids)?;
            context.send_buffered_packets()?;
            Ok(Ok(()))
        }
    }
}

// Why no stream can be reset. Allocates nothing.
fn refusal<R: Rng>(context: &Context<R>) -> Option<ResetStreamsError>
    ensures { option_map reset_refusal_of result ≡ reset_refusal (endpoint_of context.now) }
{
    match context.state.tcb() {
        None => Some(ResetStreamsError::NotConnected),
        Some(tcb) => {
            if tcb.capabilities.reconfig {
                return None;
            }
            Some(ResetStreamsError::NotSupported)
        }
    }
}

// Prepares a stream for its reset. `Err`: an allocation failed; the first of its events may already have been
// added.
fn prepare_stream<R: Rng>(context: &mut Context<R>, stream_id: StreamId) -> Result<(), AllocError>
    ensures { TakesOne R.stream (PreparesOneStream stream_id.0) context.old result context.new }
{
    context
        .send_queue
        .prepare_reset_stream(&mut context.events, stream_id)
}

// Prepares one stream after another. `Err`: an allocation failed; the first of its events may already have
// been added.
fn prepare_streams<R: Rng>(
    context: &mut Context<R>,
    stream_ids: &[StreamId],
) -> Result<(), AllocError>
    ensures { TakesOne R.stream (PreparesSomeStreams (stream_numbers stream_ids.now)) context.old
        result context.new }
{
    for stream_id in stream_ids {
        prepare_stream(context, *stream_id)?;
    }
    Ok(())
}
