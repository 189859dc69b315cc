//! Messages that a user sends and takes, and streams that a user resets, over the parts of a socket.

ghost use Rattle.std.specs.Prelude.{◌≢◌, None, IsOk, map};
ghost use Rattle.dcsctp_core.specs.types.Ids.{stream_numbers};
ghost use Rattle.dcsctp_core.specs.types.queues.Messages.{message_content};
ghost use Rattle.dcsctp_core.specs.spec.endpoint.PreparedResets.{reset_refusal};
ghost use Rattle.dcsctp_core.specs.View.{view_of, endpoint_of};
ghost use Rattle.dcsctp_core.specs.types.Schedule.{send_call, send_many_call, reset_call};
ghost use Rattle.dcsctp_core.specs.api.Messages.{IsSendAnswer, IsSendManyAnswer};
ghost use Rattle.dcsctp_core.specs.api.Resets.{IsResetAnswer};
ghost use Rattle.dcsctp_socket_calls.specs.Parts.{MakesCallOfUser, TakesFirstMessage};

use dcsctp_core::Context;
use dcsctp_core::api::{
    BatchSendError, Message, ResetStreamsError, SendError, SendOptions, StreamId,
};
use dcsctp_core_messages::{do_reset_streams, do_send, do_send_many};
use rand_core::Rng;
use std::alloc::AllocError;

/// Sends a message. `Err`: an allocation failed; the first of the call's events may already have been added.
pub fn send<R: Rng>(
    context: &mut Context<R>,
    message: Message,
    options: &SendOptions,
) -> Result<Result<(), SendError>, AllocError>
    ensures { MakesCallOfUser R.stream (send_call (message_content message) options.now)
        (IsSendAnswer (endpoint_of context.old) (message_content message)) context.old result
        context.new }
{
    context.begin_call();
    do_send(context, message, options)
}

/// Sends several messages, as `send` does.
pub fn send_many<R: Rng>(
    context: &mut Context<R>,
    messages: Vec<Message>,
    options: &SendOptions,
) -> Result<Result<(), BatchSendError>, AllocError>
    ensures { MakesCallOfUser R.stream
        (send_many_call (map message_content messages.items) options.now)
        (IsSendManyAnswer (endpoint_of context.old) (map message_content messages.items)
        options.now) context.old result context.new }
{
    context.begin_call();
    do_send_many(context, messages, options)
}

/// Resets our own streams. If that is refused, nothing is allocated. `Err`: an allocation failed; the first of
/// the call's events may already have been added.
pub fn reset_streams<R: Rng>(
    context: &mut Context<R>,
    stream_ids: &[StreamId],
) -> Result<Result<(), ResetStreamsError>, AllocError>
    ensures call { MakesCallOfUser R.stream (reset_call (stream_numbers stream_ids.now))
        (IsResetAnswer (endpoint_of context.old)) context.old result context.new }
    ensures refused { reset_refusal (endpoint_of context.old) ≢ None → IsOk result }
{
    context.begin_call();
    do_reset_streams(context, stream_ids)
}

/// Takes the message that became ready first, if one is ready. Allocates nothing.
pub fn get_next_message<R: Rng>(context: &mut Context<R>) -> Option<Message>
    ensures { TakesFirstMessage (view_of context.old) result (view_of context.new) }
{
    context.begin_call();
    dcsctp_core_messages::get_next_message(context)
}
