//! Messages that are refused: why, and what is reported to the user.

ghost use Rattle.std.specs.Prelude.{◌≡◌};
ghost use Rattle.std.specs.Option.{option_map};
ghost use Rattle.dcsctp_core.specs.spec.endpoint.MessageOutcomes.{message_refusal, refusal_kind, message_refusal_text};
ghost use Rattle.dcsctp_core.specs.api.Messages.{refusal_of};
ghost use Rattle.dcsctp_core.specs.View.{endpoint_of};
ghost use Rattle.dcsctp_core.specs.Handling.{TakesTurn, Tries, report_turn};
ghost use Rattle.dcsctp_core_messages.specs.Sending.{message_refusal_turn, end_turn};

use dcsctp_core::Context;
use dcsctp_core::api::{ErrorKind, LifecycleId, SendError, SocketEvent, StreamId};
use rand_core::Rng;
use std::alloc::AllocError;

/// Why a message of that many bytes is refused on this stream: the first reason that holds. Allocates
/// nothing.
pub(crate) fn refusal<R: Rng>(
    context: &Context<R>,
    stream_id: StreamId,
    len: usize,
) -> Option<SendError>
    ensures { option_map refusal_of result
        ≡ message_refusal (endpoint_of context.now) stream_id.0 len }
{
    let limit = context.options.max_message_size;
    if len == 0 {
        return Some(SendError::EmptyPayload);
    }
    if limit < len {
        return Some(SendError::MessageTooLarge { len, limit });
    }
    if context.state.is_shutting_down() || context.awaits_opening() {
        return Some(SendError::ShuttingDown);
    }
    let queue = &context.send_queue;
    if context.options.max_send_buffer_size <= queue.total_buffered_amount()
        || context.options.per_stream_send_queue_limit <= queue.buffered_amount(stream_id)
    {
        return Some(SendError::ResourceExhaustion);
    }
    None
}

// Reports the end of the message of this name, if it has one. `Err`: an allocation failed, and nothing has
// changed.
fn tell_end<R: Rng>(
    context: &mut Context<R>,
    lifecycle_id: Option<LifecycleId>,
) -> Result<(), AllocError>
    ensures { Tries R.stream (end_turn lifecycle_id) context.old result context.new }
{
    if let Some(id) = lifecycle_id {
        context.events.add(SocketEvent::OnLifecycleEnd(id))?;
    }
    Ok(())
}

// The kind of the error of this refusal.
fn kind_of(error: SendError) -> ErrorKind
    ensures { result ≡ refusal_kind (refusal_of error) }
{
    match error {
        SendError::EmptyPayload => ErrorKind::ProtocolViolation,
        SendError::MessageTooLarge { len: _, limit: _ } => ErrorKind::ProtocolViolation,
        SendError::ShuttingDown => ErrorKind::WrongSequence,
        SendError::ResourceExhaustion => ErrorKind::ResourceExhaustion,
    }
}

// Its text.
fn text_of(error: SendError) -> &'static str
    ensures { result.now ≡ message_refusal_text (refusal_of error) }
{
    match error {
        SendError::EmptyPayload => "Unable to send empty message",
        SendError::MessageTooLarge { len: _, limit: _ } => "Unable to send too large message",
        SendError::ShuttingDown => "Unable to send message as the socket is shutting down",
        SendError::ResourceExhaustion => "Unable to send message as the send queue is full",
    }
}

// Reports why a message is refused. `Err`: an allocation failed, and nothing has changed.
fn report_refusal<R: Rng>(context: &mut Context<R>, error: SendError) -> Result<(), AllocError>
    ensures { Tries R.stream
        (report_turn (refusal_kind (refusal_of error)) (message_refusal_text (refusal_of error)))
        context.old result context.new }
{
    let text = String::from_str(context.alloc, text_of(error))?;
    context.report(kind_of(error), text)?;
    Ok(())
}

/// Reports to the user that a message of this name is refused: its end, if it has a name, and then why.
///
/// `Err`: an allocation failed; the first of its events may already have been added.
pub(crate) fn tell_refusal<R: Rng>(
    context: &mut Context<R>,
    error: SendError,
    lifecycle_id: Option<LifecycleId>,
) -> Result<(), AllocError>
    ensures { TakesTurn R.stream (message_refusal_turn (refusal_of error) lifecycle_id) context.old
        result context.new }
{
    tell_end(context, lifecycle_id)?;
    report_refusal(context, error)?;
    Ok(())
}
