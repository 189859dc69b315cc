//! Messages that enter the send queue, or are refused.

ghost use Rattle.std.specs.Prelude.{map};
ghost use Rattle.dcsctp_core.specs.types.queues.Messages.{message_content};
ghost use Rattle.dcsctp_core.specs.spec.endpoint.MessageOutcomes.{sending_of};
ghost use Rattle.dcsctp_core_messages.specs.Sending.{Queues, QueuesAndRecords, QueuesAll, queueing};

use crate::refusal::{refusal, tell_refusal};
use dcsctp_core::Context;
use dcsctp_core::api::{Message, SendError, SendOptions};
use rand_core::Rng;
use std::alloc::AllocError;

/// What came of messages that were to be queued.
#[derive(Drop)]
pub(crate) struct QueuedAll {
    /// Those that were refused, in ascending order: the place of each, from 0, and why.
    pub refused: Vec<(usize, SendError)>,

    /// Was one of them taken?
    pub has_taken: bool,
}

/// Adds a message to the queue, or refuses it and reports that. Returns why it is refused.
///
/// `Err`: an allocation failed; the first of its events may already have been added.
pub(crate) fn queue_message<R: Rng>(
    context: &mut Context<R>,
    message: Message,
    options: &SendOptions,
) -> Result<Option<SendError>, AllocError>
    ensures { Queues R.stream (sending_of options.now (message_content message)) context.old result
        context.new }
{
    match refusal(context, message.stream_id, message.payload.len()) {
        Some(error) => {
            tell_refusal(context, error, options.lifecycle_id)?;
            Ok(Some(error))
        }
        None => {
            context.send_queue.add(context.moment, message, options)?;
            context.count_message();
            Ok(None)
        }
    }
}

// Takes the message of this place or refuses it, and records which.
//
// `Err`: an allocation failed; the first of its events may already have been added.
fn queue_at<R: Rng>(
    context: &mut Context<R>,
    place: usize,
    message: Message,
    options: &SendOptions,
    queued: &mut QueuedAll,
) -> Result<(), AllocError>
    ensures { QueuesAndRecords R.stream place (sending_of options.now (message_content message))
        (queueing queued.old context.old) result (queueing queued.new context.new) }
{
    match queue_message(context, message, options)? {
        Some(error) => queued.refused.push((place, error))?,
        None => queued.has_taken = true,
    }
    Ok(())
}

/// Takes several messages or refuses them, one after another.
///
/// `Err`: an allocation failed; the first of its events may already have been added.
pub(crate) fn queue_messages<R: Rng>(
    context: &mut Context<R>,
    messages: Vec<Message>,
    options: &SendOptions,
) -> Result<QueuedAll, AllocError>
    ensures { QueuesAll R.stream (map (sending_of options.now) (map message_content messages.items))
        context.old result context.new }
{
    let mut queued = QueuedAll {
        refused: Vec::new(context.alloc),
        has_taken: false,
    };
    let mut place = 0;
    let mut waiting = messages.into_iter();
    while let Some(message) = waiting.next() {
        queue_at(context, place, message, options, &mut queued)?;
        place += 1;
    }
    Ok(queued)
}
