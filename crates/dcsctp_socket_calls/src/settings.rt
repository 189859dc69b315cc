//! What the user sets of a socket, over its parts. Nothing of it is sent to the peer.

ghost use Rattle.std.specs.Prelude.{◌≡◌};
ghost use Rattle.dcsctp_core.specs.types.Setting.{stream_priority, stream_low_threshold, longest_message};
ghost use Rattle.dcsctp_core.specs.View.{view_of};
ghost use Rattle.dcsctp_socket_calls.specs.Parts.{ChangesSetting, set_view};

use dcsctp_core::Context;
use dcsctp_core::api::StreamId;
use rand_core::Rng;
use std::alloc::AllocError;

/// Sets the priority of a stream. `Err`: an allocation failed, and nothing has changed.
pub fn set_stream_priority<R: Rng>(
    context: &mut Context<R>,
    stream_id: StreamId,
    priority: u16,
) -> Result<(), AllocError>
    ensures { ChangesSetting (stream_priority stream_id.0 priority) context.old result context.new }
{
    context.begin_call();
    context.send_queue.set_priority(stream_id, priority)?;
    Ok(())
}

/// Sets the low threshold of a stream's buffered amount. `Err`: an allocation failed, and nothing has
/// changed.
pub fn set_buffered_amount_low_threshold<R: Rng>(
    context: &mut Context<R>,
    stream_id: StreamId,
    bytes: usize,
) -> Result<(), AllocError>
    ensures { ChangesSetting (stream_low_threshold stream_id.0 bytes) context.old result
        context.new }
{
    context.begin_call();
    context
        .send_queue
        .set_buffered_amount_low_threshold(stream_id, bytes)?;
    Ok(())
}

/// Says how many bytes a message may have.
pub fn set_max_message_size<R: Rng>(context: &mut Context<R>, max_message_size: usize)
    ensures { view_of context.new
        ≡ set_view (longest_message max_message_size) (view_of context.old) }
{
    context.begin_call();
    context.options.max_message_size = max_message_size;
}
