//! `send` and `send_many` (RFC 9260, section 6.1).

ghost use Rattle.std.specs.Prelude.{map};
ghost use Rattle.dcsctp_core.specs.types.queues.Messages.{message_content};
ghost use Rattle.dcsctp_core.specs.spec.endpoint.MessageOutcomes.{sending_of};
ghost use Rattle.dcsctp_core.specs.api.Messages.{refused_messages, IsBatchAnswer};
ghost use Rattle.dcsctp_core_messages.specs.Sending.{SendsOne, SendsAll, FlushesIfAsked};

use crate::queueing::{QueuedAll, queue_message, queue_messages};
use dcsctp_core::Context;
use dcsctp_core::api::{BatchSendError, Message, SendError, SendOptions};
use rand_core::Rng;
use std::alloc::AllocError;

/// Sends a message: it waits after the others of its stream, and what waits is sent if the peer is known. A
/// refused message is reported, and nothing else changes.
///
/// `Err`: an allocation failed; the first of the call's events may already have been added.
pub fn do_send<R: Rng>(
    context: &mut Context<R>,
    message: Message,
    options: &SendOptions,
) -> Result<Result<(), SendError>, AllocError>
    ensures { SendsOne R.stream (sending_of options.now (message_content message)) context.old
        result context.new }
{
    match queue_message(context, message, options)? {
        Some(error) => Ok(Err(error)),
        None => {
            context.send_buffered_packets()?;
            Ok(Ok(()))
        }
    }
}

/// Sends several messages, as `do_send` does one after another. But what waits is sent once, after the last,
/// if one of them was accepted.
///
/// `Err`: an allocation failed; the first of the call's events may already have been added.
pub fn do_send_many<R: Rng>(
    context: &mut Context<R>,
    messages: Vec<Message>,
    options: &SendOptions,
) -> Result<Result<(), BatchSendError>, AllocError>
    ensures { SendsAll R.stream (map (sending_of options.now) (map message_content messages.items))
        context.old result context.new }
{
    let queued = queue_messages(context, messages, options)?;
    let QueuedAll { refused, has_taken } = queued;
    flush_where(context, has_taken)?;
    Ok(batch_answer(refused))
}

// What waits is sent, if a message was taken. `Err`: an allocation failed; the first of its events may
// already have been added.
fn flush_where<R: Rng>(context: &mut Context<R>, has_taken: bool) -> Result<(), AllocError>
    ensures { FlushesIfAsked R.stream has_taken context.old result context.new }
{
    if has_taken {
        return context.send_buffered_packets();
    }
    Ok(())
}

// The result if these messages were refused.
fn batch_answer(refused: Vec<(usize, SendError)>) -> Result<(), BatchSendError>
    ensures { IsBatchAnswer (refused_messages refused.items) result }
{
    if refused.is_empty() {
        return Ok(());
    }
    Err(BatchSendError(refused))
}
