//! Several messages that are sent in one call.

ghost use Rattle.std.specs.Prelude.{◌≡◌, ◌≤◌, map, length, drop, IfOk};
ghost use Rattle.dcsctp_core.specs.types.queues.Messages.{message_content};
ghost use Rattle.dcsctp_session.specs.Status.{status_number};
ghost use Rattle.dcsctp_session.specs.Answering.{IsFrontMessage, AreFronts, status_of_place, refused_later, statuses_from_place, errors_of_answer, first_status, outcome_status, results_of_answer};
ghost use Rattle.dcsctp_session.specs.Many.{outgoing_content, SendsCopies, SendsManyRecords};

use crate::copying::front;
use crate::options::SendOptionsRecord;
use crate::session::Session;
use crate::status::Status;
use dcsctp_socket::{
    BatchSendError, DcSctpSocket, Message, PpId, SendError, SendOptions, SocketFault, StreamId,
};
use std::alloc::{AllocError, Global};

/// A message that is to be sent with others: its bytes, what they are, and its stream. `reserved` has no meaning.
#[repr(C)]
#[derive(Clone, Copy)]
pub struct OutgoingRecord<'a> {
    pub payload: &'a [u8],
    pub ppid: u32,
    pub stream_id: u16,
    pub reserved: u16,
}

// A copy of a message; of one that is longer than `limit`, of that many bytes and one more. `Err`: an allocation
// failed.
fn copied(alloc: Global, message: &OutgoingRecord, limit: usize) -> Result<Message, AllocError>
    ensures { IfOk result
        (λ copy. IsFrontMessage limit (outgoing_content message.now) (message_content copy)) }
{
    let payload = Vec::from_slice(alloc, front(message.payload, limit))?;
    Ok(Message::new(StreamId(message.stream_id), PpId(message.ppid), payload))
}

// The same of several messages. `Err`: an allocation failed.
fn copied_messages(
    alloc: Global,
    messages: &[OutgoingRecord],
    limit: usize,
) -> Result<Vec<Message>, AllocError>
    ensures { IfOk result (λ copies. AreFronts limit (map outgoing_content messages.now)
        (map message_content copies.items)) }
{
    let mut copies = Vec::with_capacity(alloc, messages.len())?;
    for message in messages {
        copies.push(copied(alloc, message, limit)?)?;
    }
    Ok(copies)
}

// What became of the message of this place, if the first ones of these are refused before it. Also how many of them
// are refused up to it.
fn status_at(refused: &[(usize, SendError)], before: usize, place: usize) -> (Status, usize)
    ensures status { result.0 ≡ status_of_place place (drop before refused.now) }
    ensures rest { drop result.1 refused.now ≡ refused_later place (drop before refused.now) }
{
    match refused.get(before) {
        Some((at, error)) if *at == place => (Status::of_send_error(*error), before + 1),
        _ => (Status::Done, before),
    }
}

// Writes what became of each message, by those that are refused, in ascending order.
fn tell_each(refused: &[(usize, SendError)], results: &mut [i32])
    ensures { results.new ≡ map status_number (statuses_from_place (length results.old) 0
        refused.now) }
{
    let mut before = 0;
    for place in 0..results.len() {
        let (status, with_this) = status_at(refused, before, place);
        results[place] = status.number();
        before = with_this;
    }
}

// Why the first of these is refused.
fn first_status(refused: &[(usize, SendError)]) -> Status
    ensures { result ≡ first_status refused.now }
{
    match refused.first() {
        Some((_, error)) => Status::of_send_error(*error),
        None => Status::Done,
    }
}

// Writes what became of each message, by an answer, and returns why the first is refused.
fn tell_answer(answer: &Result<(), BatchSendError>, results: &mut [i32]) -> Status
    ensures status { result ≡ first_status (errors_of_answer answer.now) }
    ensures results { results.new ≡ map status_number (statuses_from_place (length results.old) 0
        (errors_of_answer answer.now)) }
{
    match answer {
        Ok(()) => {
            tell_each(&[], results);
            Status::Done
        }
        Err(error) => {
            tell_each(error.0.as_slice(), results);
            first_status(error.0.as_slice())
        }
    }
}

// Writes what became of so many messages, if the socket answered, and returns the status of the call.
fn tell_outcome(
    outcome: &Result<Result<(), BatchSendError>, SocketFault>,
    count: usize,
    results: &mut [i32],
) -> Status
    requires { count ≤ length results.old }
    ensures status { result ≡ outcome_status outcome.now }
    ensures results { results.new ≡ results_of_answer outcome.now count results.old }
{
    match outcome {
        Ok(answer) => {
            let (front, _) = results.split_at_mut(count);
            tell_answer(answer, front)
        }
        Err(fault) => Status::of_fault(*fault),
    }
}

impl Session {
    // Sends them, where there is room for their results.
    fn send_copies(
        &mut self,
        messages: &[OutgoingRecord],
        options: &SendOptions,
        results: &mut [i32],
    ) -> Status
        requires room { length messages.now ≤ length results.old }
        ensures { SendsCopies messages.now options.now self.old results.old result results.new
            self.new }
    {
        let limit = self.socket.options().max_message_size;
        let Ok(copies) = copied_messages(self.alloc, messages, limit) else {
            return Status::OutOfMemory;
        };
        let outcome = self.socket.send_many(copies, options);
        tell_outcome(&outcome, messages.len(), results)
    }

    /// Sends several messages, whose payloads are copied, as `send` does one after another. But what waits is
    /// sent only once, after the last. The first results say of each message whether it was accepted, by the
    /// number of a status. What is returned says why the first one is refused that is.
    ///
    /// `Status::BufferTooSmall`: there are fewer results than messages. `Status::InvalidSendOptions`: a bit of
    /// the options is set that has no meaning. `Status::OutOfMemory` if a copy failed, too. In these cases
    /// nothing has changed, on a socket that has failed as well. After them, and where the call or an earlier
    /// one found no memory, no result is written.
    pub fn send_many(
        &mut self,
        messages: &[OutgoingRecord],
        options: &SendOptionsRecord,
        results: &mut [i32],
    ) -> Status
        ensures { SendsManyRecords messages.now options.now self.old results.old result results.new
            self.new }
    {
        if results.len() < messages.len() {
            return Status::BufferTooSmall;
        }
        if !options.is_valid() {
            return Status::InvalidSendOptions;
        }
        self.send_copies(messages, &options.options(), results)
    }
}
