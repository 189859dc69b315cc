//! Packets that were put together by hand, with checksums that another program computed.
//!
//! A packet is written as words, one after the other:
//!
//! ```text
//! INIT             the bytes of this name, below
//! 0a0b             these bytes
//! @7=0a0b          what is there from byte 7 on is replaced by these bytes
//! ^9               bit 9 is turned, which is the second lowest of byte 1
//! ..32             the packet is cut to 32 bytes, or filled up to them with zeros
//! ```

use crate::notes::Notes;
use std::alloc::{AllocError, Global};

// The header of a packet under tag 0, and an INIT of tag 7 and first TSN 100 as default options announce it.
const HEADER: &str = "1388138800000000645350c7";

const INIT_CHUNK: &str = "0100001e0000000700500000ffffffff00000064c00000048008000682c00000";

// The answer with tag 9 and first TSN 200, and the cookie in it, which is of moment 0.
const INIT_ACK: &str =
    "13881388000000070cc62aa50200005c0000000900500000ffffffff000000c8c000000480080006\
    82c000000007003c6463534354507230000000070000000900000064000000c80050000000000000000000000100010000000000\
    ffffffff0000000000000000";

// The COOKIE ECHO that brings this cookie back, and the COOKIE ACK.
const COOKIE_ECHO: &str =
    "1388138800000009f2f7dfea0a00003c6463534354507230000000070000000900000064000000c8\
    0050000000000000000000000100010000000000ffffffff0000000000000000";

const COOKIE_ACK: &str = "13881388000000079ae196fe0b000004";

/// The packet of these words.
pub fn packet_of(notes: &mut Notes, words: &str) -> Vec<u8> {
    let mut packet = Vec::new(notes.alloc());
    for word in words.split_whitespace() {
        put_word(notes, &mut packet, word);
    }
    packet
}

fn put_word(notes: &mut Notes, packet: &mut Vec<u8>, word: &str) {
    if let Some(change) = word.strip_prefix('@') {
        replace(notes, packet, change);
    } else if let Some(bit) = word.strip_prefix('^') {
        turn(notes, packet, bit);
    } else if let Some(len) = word.strip_prefix("..") {
        let len = notes.size(len);
        notes.has_memory(packet.resize(len, 0).is_ok());
    } else {
        put_bytes(notes, packet, word);
    }
}

fn put_bytes(notes: &mut Notes, packet: &mut Vec<u8>, word: &str) {
    match word {
        "INIT" => {
            put_digits(notes, packet, HEADER);
            put_digits(notes, packet, INIT_CHUNK);
        }
        "INIT_CHUNK" => put_digits(notes, packet, INIT_CHUNK),
        "INIT_ACK" => put_digits(notes, packet, INIT_ACK),
        "COOKIE_ECHO" => put_digits(notes, packet, COOKIE_ECHO),
        "COOKIE_ACK" => put_digits(notes, packet, COOKIE_ACK),
        digits => put_digits(notes, packet, digits),
    }
}

// Two digits make a byte.
fn put_digits(notes: &mut Notes, packet: &mut Vec<u8>, digits: &str) {
    let bytes = bytes_of(notes, digits);
    notes.has_memory(packet.extend_from_slice(&bytes).is_ok());
}

fn bytes_of(notes: &mut Notes, digits: &str) -> Vec<u8> {
    match hex::decode(notes.alloc(), digits) {
        Ok(bytes) => bytes,
        Err(_) => {
            notes.found(digits, "bytes");
            Vec::new(notes.alloc())
        }
    }
}

fn replace(notes: &mut Notes, packet: &mut [u8], change: &str) {
    let (place, digits) = change.split_once('=').unwrap_or((change, ""));
    let mut place = notes.size(place);
    for byte in &bytes_of(notes, digits) {
        put_byte(notes, packet, place, *byte);
        place = place.saturating_add(1);
    }
}

fn put_byte(notes: &mut Notes, packet: &mut [u8], place: usize, byte: u8) {
    match packet.get_mut(place) {
        Some(old) => *old = byte,
        None => notes.fails("no such byte"),
    }
}

fn turn(notes: &mut Notes, packet: &mut [u8], bit: &str) {
    let bit = notes.size(bit);
    match packet.get_mut(bit / 8) {
        Some(byte) => *byte ^= 1 << (bit % 8),
        None => notes.fails("no such byte"),
    }
}

/// The digits of a packet, with a space between each four bytes.
pub fn digits_of(alloc: Global, packet: &[u8]) -> Result<String, AllocError> {
    let mut digits = String::new(alloc);
    for bytes in packet.chunks(4) {
        if !digits.is_empty() {
            digits.push_str(" ")?;
        }
        digits.push_str(&hex::encode(alloc, bytes)?)?;
    }
    Ok(digits)
}
