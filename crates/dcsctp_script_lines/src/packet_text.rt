//! Printing a packet: its header tag, and the names of its chunks (RFC 9260, section 3).

ghost use Rattle.std.specs.Prelude.{◌≤◌, length};

use dcsctp_api::wire::{u16_at, u32_at};
use std::io::{self, Write};

// The common header of a packet, and the header of a chunk, in bytes.
const COMMON_HEADER: usize = 12;

const CHUNK_HEADER: usize = 4;

/// Prints the packet of this number of a side, on a line: its header tag in 8 hexadecimal digits and the
/// names of its chunks. A packet too short for a header has neither.
///
/// `Err`: the writer failed, and may have taken a part of the line.
pub fn print_packet<W: Write>(
    side: &str,
    number: u64,
    packet: &[u8],
    output: &mut W,
) -> io::Result<()> {
    if packet.len() < COMMON_HEADER {
        return writeln!(output, "{side} packet {number}");
    }
    let tag = u32_at(packet, 4);
    write!(output, "{side} packet {number} {tag:08x} ")?;
    print_chunks(&packet[COMMON_HEADER..], output)?;
    writeln!(output)
}

// Prints the names of chunks, joined by a plus.
fn print_chunks<W: Write>(chunks: &[u8], output: &mut W) -> io::Result<()> {
    let mut rest = chunks;
    for index in 0..chunks.len() {
        if rest.len() < CHUNK_HEADER {
            break;
        }
        if index != 0 {
            write!(output, "+")?;
        }
        print_chunk_type(rest[0], output)?;
        rest = behind_chunk(rest);
    }
    Ok(())
}

// What follows the first chunk and its padding.
fn behind_chunk(chunks: &[u8]) -> &[u8]
    requires { 4 ≤ length chunks.now }
{
    let len = u16_at(chunks, 2) as usize;
    let padded = len.max(CHUNK_HEADER).next_multiple_of(4);
    chunks.get(padded..).unwrap_or(&[])
}

// Prints the name of a chunk type; one without a name by its number.
fn print_chunk_type<W: Write>(chunk_type: u8, output: &mut W) -> io::Result<()> {
    match chunk_name(chunk_type) {
        Some(name) => write!(output, "{name}"),
        None => write!(output, "TYPE-{chunk_type}"),
    }
}

// The name of a chunk type (RFC 9260, section 3.2; RFC 8260, section 2; RFC 6525, section 3.1;
// RFC 3758, section 3.2).
fn chunk_name(chunk_type: u8) -> Option<&'static str> {
    let name = match chunk_type {
        0 => "DATA",
        1 => "INIT",
        2 => "INIT-ACK",
        3 => "SACK",
        4 => "HEARTBEAT",
        5 => "HEARTBEAT-ACK",
        6 => "ABORT",
        7 => "SHUTDOWN",
        8 => "SHUTDOWN-ACK",
        9 => "ERROR",
        10 => "COOKIE-ECHO",
        11 => "COOKIE-ACK",
        14 => "SHUTDOWN-COMPLETE",
        64 => "I-DATA",
        130 => "RE-CONFIG",
        192 => "FORWARD-TSN",
        194 => "I-FORWARD-TSN",
        _ => return None,
    };
    Some(name)
}
