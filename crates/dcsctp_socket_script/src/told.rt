//! The next event of a socket.

use crate::notes::Notes;
use crate::packets::{digits_of, packet_of};
use dcsctp_socket::{DcSctpSocket, Socket, SocketEvent};
use dcsctp_testing::TwoWords;

// The events of a packet that can't be read, and of one under tag 0 that isn't an INIT alone.
const UNREADABLE: &str = r#"OnError(ParseFailed, "Failed to parse SCTP packet")"#;

const NO_INIT: &str =
    r#"OnError(ParseFailed, "Only a single INIT chunk can be present in packets sent on verification_tag = 0")"#;

/// No event may be left.
pub fn is_quiet(notes: &mut Notes, socket: &mut Socket<TwoWords>) {
    if let Some(event) = socket.poll_event() {
        is_event(notes, &event, "no event");
    }
}

/// The next event must be this one, which is no packet.
pub fn tells(notes: &mut Notes, socket: &mut Socket<TwoWords>, event: &str) {
    let expected = match event {
        "UNREADABLE" => UNREADABLE,
        "NO_INIT" => NO_INIT,
        event => event,
    };
    match socket.poll_event() {
        Some(found) => is_event(notes, &found, expected),
        None => notes.found("no event", expected),
    }
}

fn is_event(notes: &mut Notes, found: &SocketEvent, expected: &str) {
    match found {
        SocketEvent::SendPacket(packet) => is_found(notes, packet, expected),
        _ => notes.shows(found, expected),
    }
}

fn is_found(notes: &mut Notes, packet: &[u8], expected: &str) {
    match digits_of(notes.alloc(), packet) {
        Ok(digits) => notes.found(&digits, expected),
        Err(_) => notes.has_memory(false),
    }
}

/// The next event must be this packet, or one of that many bytes, and is returned; no bytes if it is no packet.
pub fn sends(notes: &mut Notes, socket: &mut Socket<TwoWords>, words: &str) -> Vec<u8> {
    match socket.poll_event() {
        Some(SocketEvent::SendPacket(packet)) => {
            is_packet(notes, &packet, words);
            packet
        }
        Some(event) => {
            notes.shows(&event, "a packet");
            Vec::new(notes.alloc())
        }
        None => {
            notes.found("no event", "a packet");
            Vec::new(notes.alloc())
        }
    }
}

fn is_packet(notes: &mut Notes, packet: &[u8], words: &str) {
    match words.strip_prefix("any of ") {
        _ if words == "any" => {}
        Some(len) => notes.shows(&packet.len(), len),
        None => is_same(notes, packet, words),
    }
}

fn is_same(notes: &mut Notes, packet: &[u8], words: &str) {
    let expected = packet_of(notes, words);
    if packet == expected.as_slice() {
        return;
    }
    match digits_of(notes.alloc(), &expected) {
        Ok(digits) => is_found(notes, packet, &digits),
        Err(_) => notes.has_memory(false),
    }
}
