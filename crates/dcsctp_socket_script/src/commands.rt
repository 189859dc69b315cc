//! What is done to one socket.

use crate::notes::Notes;
use crate::packets::packet_of;
use crate::questions::is_asked_of_stream;
use crate::settings::{Settings, new_socket};
use crate::told::is_quiet;
use dcsctp_socket::api::handover::SocketHandoverState;
use dcsctp_socket::{DcSctpSocket, Message, PpId, SendOptions, Socket, SocketTime, StreamId};
use dcsctp_testing::TwoWords;
use std::time::Duration;

/// A line that is no event.
pub fn act(
    notes: &mut Notes,
    socket: &mut Socket<TwoWords>,
    settings: &Settings,
    verb: &str,
    text: &str,
) {
    if verb != "takes-too" {
        is_quiet(notes, socket);
    }
    match verb {
        "connects" if text.is_empty() => notes.made(socket.connect()),
        "shuts-down" if text.is_empty() => notes.made(socket.shutdown()),
        "closes" if text.is_empty() => notes.made(socket.close()),
        "takes" | "takes-too" => takes(notes, socket, text),
        "receives" if text.is_empty() => notes.made(socket.handle_input(&settings.packet)),
        "waits" => waits(notes, socket, text),
        "hands-over" if text.is_empty() => hands_over(notes, socket),
        "draws" => draws(notes, socket, settings, text),
        "sets" => sets(notes, socket, text),
        _ => answers(notes, socket, &settings.sending, verb, text),
    }
}

fn takes(notes: &mut Notes, socket: &mut Socket<TwoWords>, words: &str) {
    let packet = packet_of(notes, words);
    notes.made(socket.handle_input(&packet));
}

fn waits(notes: &mut Notes, socket: &mut Socket<TwoWords>, millis: &str) {
    let millis = notes.number(millis, u64::MAX);
    let now = SocketTime::zero() + Duration::from_millis(millis);
    notes.made(socket.advance_time(now));
}

// Hands the socket over, and restores it from its own snapshot.
fn hands_over(notes: &mut Notes, socket: &mut Socket<TwoWords>) {
    match socket.get_handover_state_and_close() {
        Ok(Ok(state)) => restores(notes, socket, &state),
        Ok(Err(error)) => notes.shows(&error, "a snapshot"),
        Err(fault) => notes.shows(&fault, "a snapshot"),
    }
}

fn restores(notes: &mut Notes, socket: &mut Socket<TwoWords>, state: &SocketHandoverState) {
    if state.is_valid(&socket.options()) {
        notes.answers(&socket.restore_from_state(state), "Ok(())");
    } else {
        notes.fails("the snapshot is not valid");
    }
}

fn draws(notes: &mut Notes, socket: &mut Socket<TwoWords>, settings: &Settings, words: &str) {
    let (first, second) = notes.split(words);
    let words = (
        notes.number(first, u64::MAX),
        notes.number(second, u64::MAX),
    );
    if let Some(new) = new_socket(notes, &settings.options, words) {
        *socket = new;
    }
}

fn sets(notes: &mut Notes, socket: &mut Socket<TwoWords>, text: &str) {
    let (name, rest) = notes.split(text);
    match name {
        "longest" => socket.set_max_message_size(notes.size(rest)),
        _ => sets_of_stream(notes, socket, name, rest),
    }
}

fn sets_of_stream(notes: &mut Notes, socket: &mut Socket<TwoWords>, name: &str, text: &str) {
    let (id, value) = notes.split(text);
    let id = notes.stream(id);
    let value = notes.number(value, 0xffff);
    match name {
        "priority" => notes.made(socket.set_stream_priority(id, value as u16)),
        "threshold" => notes.made(socket.set_buffered_amount_low_threshold(id, value as usize)),
        _ => notes.fails("nothing to set"),
    }
}

// A line with an answer.
fn answers(
    notes: &mut Notes,
    socket: &mut Socket<TwoWords>,
    sending: &SendOptions,
    verb: &str,
    text: &str,
) {
    let Some((text, expected)) = text.split_once(" = ") else {
        notes.fails("no such line");
        return;
    };
    match verb {
        "send" => sends_one(notes, socket, sending, text, expected),
        "send-many" => sends_many(notes, socket, sending, text, expected),
        "resets" => resets(notes, socket, text, expected),
        _ => is_asked_of_stream(notes, socket, verb, text, expected),
    }
}

// Sends the message of this stream and length.
fn sends_one(
    notes: &mut Notes,
    socket: &mut Socket<TwoWords>,
    sending: &SendOptions,
    text: &str,
    expected: &str,
) {
    let (id, len) = notes.split(text);
    let id = notes.stream(id);
    let message = zeros(notes, id, len);
    notes.answers(&socket.send(message, sending), expected);
}

// Sends the messages of this stream and these lengths.
fn sends_many(
    notes: &mut Notes,
    socket: &mut Socket<TwoWords>,
    sending: &SendOptions,
    text: &str,
    expected: &str,
) {
    let messages = messages(notes, text);
    notes.answers(&socket.send_many(messages, sending), expected);
}

fn messages(notes: &mut Notes, text: &str) -> Vec<Message> {
    let (id, lens) = text.split_once(' ').unwrap_or((text, ""));
    let id = notes.stream(id);
    let mut messages = Vec::new(notes.alloc());
    for len in lens.split_whitespace() {
        let message = zeros(notes, id, len);
        notes.has_memory(messages.push(message).is_ok());
    }
    messages
}

// A message of that many zeros.
fn zeros(notes: &mut Notes, id: StreamId, len: &str) -> Message {
    let len = notes.size(len);
    let mut payload = Vec::new(notes.alloc());
    notes.has_memory(payload.resize(len, 0).is_ok());
    Message::new(id, PpId(51), payload)
}

fn resets(notes: &mut Notes, socket: &mut Socket<TwoWords>, text: &str, expected: &str) {
    let ids = streams(notes, text);
    notes.answers(&socket.reset_streams(&ids), expected);
}

// The streams of these numbers.
fn streams(notes: &mut Notes, text: &str) -> Vec<StreamId> {
    let mut ids = Vec::new(notes.alloc());
    for id in text.split_whitespace() {
        let id = notes.stream(id);
        notes.has_memory(ids.push(id).is_ok());
    }
    ids
}
