//! The messages that a socket's user sent and read, by what its calls answered.

ghost use Rattle.std.specs.Prelude.{◌≡◌, map};
ghost use Rattle.dcsctp_core.specs.types.Schedule.{call_content};
ghost use Rattle.dcsctp_core.specs.types.queues.Messages.{message_content};
ghost use Rattle.dcsctp_core.specs.api.Messages.{refused_messages};
ghost use Rattle.dcsctp_world.specs.Messages.{refused_of_many, is_place_refused, other_unless_refused, others_from, sent_if, sent_among, messages_of_call, taken_messages, messages_read_of_call, AddsAllOrFirst};

use crate::act::Reply;
use dcsctp_core::api::{BatchSendError, Message, SendError};
use dcsctp_core::types::Call;
use std::alloc::AllocError;

// Keeps a copy of a message that `send` accepted. `Err`: an allocation failed, and nothing was kept.
fn keep_sent(sent: &mut Vec<Message>, message: &Message, reply: &Reply) -> Result<(), AllocError>
    ensures { AddsAllOrFirst (sent_if (message_content message.now) reply.now)
        (map message_content sent.old.items) result (map message_content sent.new.items) }
{
    if let Reply::Sent(Ok(())) = reply {
        sent.push(message.copied()?)?;
    }
    Ok(())
}

// Does this answer of `send_many` refuse the message of this place?
fn refuses(answer: &Result<(), BatchSendError>, place: usize) -> bool
    ensures { result ≡ is_place_refused place (refused_of_many answer.now) }
{
    match answer {
        Ok(()) => false,
        Err(error) => is_among(&error.0, place),
    }
}

// Is the message of this place among these?
fn is_among(refused: &[(usize, SendError)], place: usize) -> bool
    ensures { result ≡ is_place_refused place (refused_messages refused.now) }
{
    for (index, _) in refused {
        if *index == place {
            return true;
        }
    }
    false
}

// Keeps a copy of the message of this place, unless this answer refuses it. `Err`: an allocation failed, and nothing was
// kept.
fn keep_other(
    sent: &mut Vec<Message>,
    message: &Message,
    answer: &Result<(), BatchSendError>,
    place: usize,
) -> Result<(), AllocError>
    ensures { AddsAllOrFirst (other_unless_refused place (refused_of_many answer.now)
        (message_content message.now)) (map message_content sent.old.items) result
        (map message_content sent.new.items) }
{
    if !refuses(answer, place) {
        sent.push(message.copied()?)?;
    }
    Ok(())
}

// Keeps copies of the messages that this answer of `send_many` doesn't refuse. `Err`: an allocation failed; the first of
// them have been kept.
fn keep_others(
    sent: &mut Vec<Message>,
    messages: &[Message],
    answer: &Result<(), BatchSendError>,
) -> Result<(), AllocError>
    ensures { AddsAllOrFirst
        (others_from 0 (refused_of_many answer.now) (map message_content messages.now))
        (map message_content sent.old.items) result (map message_content sent.new.items) }
{
    for (place, message) in messages.iter().enumerate() {
        keep_other(sent, message, answer, place)?;
    }
    Ok(())
}

// Keeps copies of the messages that `send_many` accepted, by the answer of a call. `Err`: an allocation failed;
// the first of them have been kept.
fn keep_accepted(
    sent: &mut Vec<Message>,
    messages: &[Message],
    reply: &Reply,
) -> Result<(), AllocError>
    ensures { AddsAllOrFirst (sent_among (map message_content messages.now) reply.now)
        (map message_content sent.old.items) result (map message_content sent.new.items) }
{
    match reply {
        Reply::SentMany(answer) => keep_others(sent, messages, answer),
        _ => Ok(()),
    }
}

// Keeps a copy of the message that was read, if one was. `Err`: an allocation failed, and nothing was kept.
fn keep_taken(read: &mut Vec<Message>, reply: &Reply) -> Result<(), AllocError>
    ensures { AddsAllOrFirst (taken_messages reply.now) (map message_content read.old.items) result
        (map message_content read.new.items) }
{
    if let Reply::Taken(Some(message)) = reply {
        read.push(message.copied()?)?;
    }
    Ok(())
}

/// Keeps copies of the messages that this call sent or read, by what it answered. `Err`: an allocation failed; the
/// first of them have been kept.
pub(crate) fn keep_messages(
    sent: &mut Vec<Message>,
    read: &mut Vec<Message>,
    call: &Call,
    reply: &Reply,
) -> Result<(), AllocError>
    ensures sent { AddsAllOrFirst (messages_of_call (call_content call.now) reply.now)
        (map message_content sent.old.items) result (map message_content sent.new.items) }
    ensures read { AddsAllOrFirst (messages_read_of_call (call_content call.now) reply.now)
        (map message_content read.old.items) result (map message_content read.new.items) }
{
    match call {
        Call::Send(message, _) => keep_sent(sent, message, reply),
        Call::SendMany(messages, _) => keep_accepted(sent, messages, reply),
        Call::GetNextMessage => keep_taken(read, reply),
        _ => Ok(()),
    }
}
