//! What a packet is read as, and what a builder writes. A table's chunks are those that its text shows: they are
//! read from its bytes, and what was read is written again.

ghost use Rattle.std.specs.Prelude.{◌≡◌, ◌≤◌, ◌+◌, true, [], ◌∷◌, length, IfOk};
ghost use Rattle.dcsctp_wire.specs.Content.{chunk_content};
ghost use Rattle.dcsctp_wire.specs.Spelling.{chunk_bytes, packet_bytes};

use crate::wire::checks::{same, shows};
use crate::wire::kinds::ROWS;
use dcsctp_wire::{Chunk, CookieEchoChunk, SctpPacket, ShutdownCompleteChunk, WireOptions};
use dcsctp_wire_build::SctpPacketBuilder;
use std::alloc::{AllocError, Global};
use std::process::Abort;

/// A reader on port 5001 that looks at no checksum.
const READER: WireOptions = WireOptions {
    local_port: 5001,
    disable_checksum_verification: true,
    zero_checksum_alternate_error_detection_method: 0,
};

/// How a packet is written: its tag and its greatest size. Then the bytes that remain before its chunks are
/// added, and after them.
pub type Room = (u32, usize, usize, usize);

/// A named packet from port 5000 to port 5001, without a checksum. It says how it is written, its bytes, and
/// its chunks as `Debug` writes them.
pub type Row = (&'static str, Room, &'static [u8], &'static str);

/// A builder of a packet of at most that many bytes, of which that many remain.
fn begun(rt: &impl Abort, alloc: Global, tag: u32, size: usize) -> SctpPacketBuilder {
    assert!(rt; 12 <= size && size <= 65535, "a packet has a size");
    SctpPacketBuilder::new(alloc, tag, 5000, 5001, size)
        .expect(rt, "memory for a packet")
        .write_checksum(false)
}

/// Adds the chunks, for which there must be room. Each takes as much of it as its size says.
fn add(rt: &impl Abort, name: &str, builder: &mut SctpPacketBuilder, chunks: &[Chunk<'_>]) {
    for chunk in chunks {
        let size = chunk.serialized_size();
        let room = builder.bytes_remaining();
        assert!(rt; size <= room, "{name}: no room");
        builder.add(chunk);
        same(rt, name, room - size, builder.bytes_remaining());
    }
}

/// Asserts that the chunks are written as these bytes, and how many bytes remain.
fn are_written_as(
    rt: &impl Abort,
    alloc: Global,
    name: &str,
    room: Room,
    chunks: &[Chunk<'_>],
    expected: &[u8],
) {
    let (tag, size, before, behind) = room;
    let mut builder = begun(rt, alloc, tag, size);
    let first = (builder.is_empty(), builder.bytes_remaining());
    add(rt, name, &mut builder, chunks);
    let last = (builder.is_empty(), builder.bytes_remaining());
    same(rt, name, (first, last), ((true, before), (false, behind)));
    same(rt, name, builder.build().as_slice(), expected);
}

/// Asserts that the bytes are read as chunks of this text, and that these are written as the bytes.
fn goes_both_ways(rt: &impl Abort, alloc: Global, row: &Row) {
    let (name, room, bytes, text) = row;
    let packet = SctpPacket::from_bytes(alloc, bytes, &READER).expect(rt, name);
    shows(rt, alloc, name, &packet.chunks, text);
    are_written_as(rt, alloc, name, *room, &packet.chunks, bytes);
}

#[test]
fn each_kind_of_chunk_goes_both_ways(rt: HostRuntime) {
    for row in &ROWS {
        goes_both_ways(&rt, rt.alloc(), row);
    }
}

// What a caller knows of two chunks, by contracts alone.
fn packet_of_two(
    alloc: Global,
    tag: u32,
    first: &Chunk<'_>,
    second: &Chunk<'_>,
) -> Result<Vec<u8>, AllocError>
    requires { length (chunk_bytes (chunk_content first.now)) + length (chunk_bytes
        (chunk_content second.now)) ≤ 1000 }
    ensures { IfOk result (λ v. v.items ≡ packet_bytes true (record {
      source_port = 5000;
      destination_port = 5001;
      verification_tag = tag;
      chunks = chunk_content first.now ∷ chunk_content second.now ∷ [];
    })) }
{
    let mut builder = SctpPacketBuilder::new(alloc, tag, 5000, 5001, 1191)?;
    builder.add(first);
    builder.add(second);
    Ok(builder.build())
}

/// The length of the packet of two chunks, of at most 12 and 4 bytes.
fn length_of_two(rt: &impl Abort, alloc: Global, first: &Chunk<'_>, second: &Chunk<'_>) -> usize {
    assert!(rt; first.serialized_size() <= 12 && second.serialized_size() <= 4);
    packet_of_two(alloc, 9, first, second)
        .expect(rt, "memory for two chunks")
        .len()
}

#[test]
fn two_chunks_of_known_sizes_fit(rt: HostRuntime) {
    let echo = Chunk::CookieEcho(CookieEchoChunk {
        cookie: &[1, 2, 3, 4, 5],
    });
    let complete = Chunk::ShutdownComplete(ShutdownCompleteChunk {
        tag_reflected: true,
    });
    let length = length_of_two(&rt, rt.alloc(), &echo, &complete);
    same(&rt, "length of two", length, 28);
}
