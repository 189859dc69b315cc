//! A snapshot of what waits, the lines that say what it has, and those that make one by hand.

use dcsctp_api::handover::{
    HandoverOutgoingStream, HandoverSocketState, HandoverStreamMessage, SocketHandoverState,
};
use dcsctp_api::{Options, SocketTime};
use dcsctp_send_queue::SendQueue;
use dcsctp_testing::Row;
use std::alloc::Global;
use std::str::FromStr;

/// A snapshot of a connected socket that has nothing in flight.
pub struct Snapshot {
    alloc: Global,
    state: SocketHandoverState,
}

// Written out: a derived one costs more to prove.
impl Drop for Snapshot {
    fn drop(self) {
        let Snapshot { alloc: _, state: _ } = self;
    }
}

// The names of what the snapshot has, in the order in which a line has them.
static WHOLE: &[&str] = &["next-message", "streams", "messages"];

// The names of the numbers of a stream.
static STREAM: &[&str] = &["id", "ssn", "mid", "unordered-mid", "priority"];

// The names of the numbers of a message.
static MESSAGE: &[&str] = &[
    "stream",
    "protocol",
    "message",
    "sent",
    "has-ssn",
    "ssn",
    "has-mid",
    "mid",
    "fsn",
    "unordered",
    "times",
    "name",
];

// What a line expects of a stream.
fn check_stream(row: &mut Row, stream: &HandoverOutgoingStream) {
    row.check_all(
        STREAM,
        &[
            stream.id as u128,
            stream.next_ssn as u128,
            stream.next_ordered_mid as u128,
            stream.next_unordered_mid as u128,
            stream.priority as u128,
        ],
    );
}

// What a line expects of a message.
fn check_message(row: &mut Row, message: &HandoverStreamMessage) {
    row.check_all(
        MESSAGE,
        &[
            message.stream_id as u128,
            message.ppid as u128,
            message.message_id as u128,
            message.remaining_offset as u128,
            message.ssn.is_some() as u128,
            message.ssn.unwrap_or(0) as u128,
            message.mid.is_some() as u128,
            message.mid.unwrap_or(0) as u128,
            message.fsn as u128,
            message.unordered as u128,
            message.max_retransmissions as u128,
            message.lifecycle_id as u128,
        ],
    );
    row.check_bytes(&message.payload);
}

// The number that follows this name.
fn named<T: FromStr + Default>(row: &mut Row, name: &str) -> T
where
    <T as FromStr>::Err: Drop,
{
    let word = row.next();
    row.done(word == name);
    row.number()
}

// A stream with the numbers of a line.
fn read_stream(row: &mut Row) -> HandoverOutgoingStream {
    HandoverOutgoingStream {
        id: named(row, "id"),
        next_ssn: named(row, "ssn"),
        next_ordered_mid: named(row, "mid"),
        next_unordered_mid: named(row, "unordered-mid"),
        priority: named(row, "priority"),
    }
}

// Gives a message the numbers of a line. A part of it may have been sent.
fn read_numbers(row: &mut Row, message: &mut HandoverStreamMessage) {
    message.stream_id = named(row, "stream");
    message.message_id = named(row, "message");
    message.remaining_offset = named(row, "sent");
    message.ssn = Some(named(row, "ssn"));
    message.mid = Some(named(row, "mid"));
    message.fsn = named(row, "fsn");
}

impl Snapshot {
    /// A snapshot without streams and messages.
    pub fn new(alloc: Global) -> Snapshot {
        let mut state = SocketHandoverState::empty(alloc);
        state.socket_state = HandoverSocketState::Connected;
        state.my_verification_tag = 1;
        state.peer_verification_tag = 1;
        state.tx.next_tsn = 1;
        Snapshot { alloc, state }
    }

    /// Takes what the queue gives at this moment, with its messages or without. Is it done?
    pub fn take(&mut self, queue: &SendQueue, now: SocketTime, with_messages: bool) -> bool {
        queue
            .add_to_handover_state(now, with_messages, &mut self.state.tx)
            .is_ok()
    }

    /// Restores what waits into the queue at this moment. Is it done?
    pub fn restore_into(&self, queue: &mut SendQueue, now: SocketTime) -> bool {
        match self.state.socket_state {
            HandoverSocketState::Closed => false,
            HandoverSocketState::Connected => {
                self.state.is_valid(&Options::default())
                    && queue.restore_from_state(now, &self.state.tx).is_ok()
            }
        }
    }

    /// Takes a line on what the snapshot has.
    pub fn shows(&self, row: &mut Row) {
        match row.next() {
            "has" => self.shows_whole(row),
            "stream" => self.shows_stream(row),
            "message" => self.shows_message(row),
            "expires" => self.shows_expiry(row),
            _ => row.done(false),
        }
    }

    // What a line expects of the stream at a place.
    fn shows_stream(&self, row: &mut Row) {
        let place: usize = row.number();
        match self.state.tx.streams.get(place) {
            None => row.done(false),
            Some(stream) => check_stream(row, stream),
        }
    }

    // What a line expects of the message at a place.
    fn shows_message(&self, row: &mut Row) {
        let place: usize = row.number();
        match self.state.tx.queued_messages.get(place) {
            None => row.done(false),
            Some(message) => check_message(row, message),
        }
    }

    // What a line expects of the time that the message at a place has.
    fn shows_expiry(&self, row: &mut Row) {
        let place: usize = row.number();
        match self.state.tx.queued_messages.get(place) {
            None => row.done(false),
            Some(message) => row.shows(&message.expires_in_ms),
        }
    }

    // What a line expects of it as a whole.
    fn shows_whole(&self, row: &mut Row) {
        row.check_all(
            WHOLE,
            &[
                self.state.tx.next_outgoing_message_id as u128,
                self.state.tx.streams.len() as u128,
                self.state.tx.queued_messages.len() as u128,
            ],
        );
    }

    /// Takes a line that gives it a number, a stream or a message by hand.
    pub fn write(&mut self, row: &mut Row) {
        match row.next() {
            "next-message" => self.state.tx.next_outgoing_message_id = row.number(),
            "stream" => {
                let stream = read_stream(row);
                row.done(self.state.tx.streams.push(stream).is_ok());
            }
            "message" => self.write_message(row),
            _ => row.done(false),
        }
    }

    // Adds a message with the numbers and the bytes of a line.
    fn write_message(&mut self, row: &mut Row) {
        let mut message = HandoverStreamMessage::empty(self.alloc);
        read_numbers(row, &mut message);
        match Vec::from_slice(self.alloc, row.next().as_bytes()) {
            Err(_) => row.done(false),
            Ok(payload) => {
                message.payload = payload;
                row.done(self.state.tx.queued_messages.push(message).is_ok());
            }
        }
    }
}
