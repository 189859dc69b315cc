//! Writing a packet (RFC 9260, section 3.1).

ghost use Rattle.std.specs.Prelude.{◌≡◌, ◌≤◌, ◌↔◌, ℕ, ◌+◌, ◌-◌, ◌%◌, List, [], ◌++◌, length, true, false, IfOk, IsTrue};
ghost use Rattle.std.specs.Vec.{vec_capacity, vec_len};
ghost use Rattle.dcsctp_wire_build.specs.Building.{bytes_remaining};
ghost use Rattle.dcsctp_wire_build.specs.Checksums.{checksum_filled};
ghost use Rattle.dcsctp_wire.specs.Content.{chunk_content};
ghost use Rattle.dcsctp_wire.specs.Spelling.{zeros, chunk_bytes, header_bytes, packet_bytes_of};

use crate::checksum::fill_checksum;
use crate::chunks::put_chunk;
use crate::putting::put;
use dcsctp_wire::{Chunk, CommonHeader};
use std::alloc::{AllocError, Global};
use std::marker::Model;

/// A packet that is being built: its header, and the chunks that were added.
///
/// Memory for the whole packet is allocated once, when the builder is made.
#[derive(Debug, Drop)]
pub struct SctpPacketBuilder {
    header: CommonHeader,

    // How many bytes the packet may have.
    size: usize,

    // Is the checksum written, or 0 in its place?
    with_checksum: bool,

    // The header with 0 for the checksum, and the chunks.
    bytes: Vec<u8>,
}

impl Model for SctpPacketBuilder {
    ghost use Rattle.std.specs.Prelude.{drop};
    ghost use Rattle.std.specs.Vec.{vec_capacity};
    ghost use Rattle.dcsctp_wire_build.specs.Building.{Building, HasRoom};
    ghost use Rattle.dcsctp_wire.specs.Spelling.{header_bytes};

    ghost Value = { Building };

    ghost view = { λ b. record {
      source_port = b.header.source_port;
      destination_port = b.header.destination_port;
      verification_tag = b.header.verification_tag;
      size = b.size;
      with_checksum = b.with_checksum;
      body = drop 12 b.bytes.items;
    } };

    ghost invariant = { λ b. HasRoom (header_bytes b.header.source_port b.header.destination_port b.header.verification_tag) b.bytes.items b.size (vec_capacity b.bytes) };
}

// The common header, with 0 for the checksum.
#[tactic(auto, unfolding(dcsctp_wire::specs::Spelling::header_bytes))]
#[rattlefmt::skip]
fn header_without_checksum(header: CommonHeader) -> [u8; 12]
    ensures { result ≡ header_bytes header.source_port header.destination_port
        header.verification_tag ++ zeros 4 }
{
    let source = header.source_port.to_be_bytes();
    let destination = header.destination_port.to_be_bytes();
    let tag = header.verification_tag.to_be_bytes();
    [
        source[0], source[1], destination[0], destination[1],
        tag[0], tag[1], tag[2], tag[3],
        0, 0, 0, 0,
    ]
}

// The block, emptied, if it has room for that many bytes; else another.
#[inline(always)]
fn emptied(alloc: Global, block: Vec<u8>, size: usize) -> Result<Vec<u8>, AllocError>
    ensures empty { IfOk result (λ bytes. bytes.items ≡ []) }
    ensures room { IfOk result (λ bytes. size ≤ vec_capacity bytes) }
{
    if block.capacity() < size {
        return Vec::with_capacity(alloc, size);
    }
    let mut bytes = block;
    bytes.clear();
    Ok(bytes)
}

impl SctpPacketBuilder {
    /// A packet with no chunks and at most `size` bytes, rounded down to a multiple of 4.
    ///
    /// `Err`: an allocation failed.
    #[inline(always)]
    pub fn new(
        alloc: Global,
        verification_tag: u32,
        local_port: u16,
        remote_port: u16,
        size: usize,
    ) -> Result<SctpPacketBuilder, AllocError>
        requires low { 12 ≤ size }
        requires high { size ≤ 65535 }
        ensures { IfOk result (λ builder. builder ≡ record {
          source_port = local_port;
          destination_port = remote_port;
          verification_tag = verification_tag;
          size = size - size % 4;
          with_checksum = true;
          body = [];
        }) }
    {
        let header = CommonHeader {
            source_port: local_port,
            destination_port: remote_port,
            verification_tag,
        };
        SctpPacketBuilder::new_in(alloc, Vec::new(alloc), header, size)
    }

    /// The same with this header, in the memory of an earlier packet if it has room.
    #[inline(always)]
    pub fn new_in(
        alloc: Global,
        block: Vec<u8>,
        header: CommonHeader,
        size: usize,
    ) -> Result<SctpPacketBuilder, AllocError>
        requires low { 12 ≤ size }
        requires high { size ≤ 65535 }
        ensures { IfOk result (λ builder. builder ≡ record {
          source_port = header.source_port;
          destination_port = header.destination_port;
          verification_tag = header.verification_tag;
          size = size - size % 4;
          with_checksum = true;
          body = [];
        }) }
    {
        let size = size - size % 4;
        let mut bytes = emptied(alloc, block, size)?;
        put(&mut bytes, &header_without_checksum(header));
        Ok(SctpPacketBuilder {
            header,
            size,
            with_checksum: true,
            bytes,
        })
    }

    /// Says whether a checksum is written, or 0 in its place (RFC 9653, section 5.2). By default it is.
    #[must_use]
    pub fn write_checksum(mut self, write: bool) -> SctpPacketBuilder
        ensures { result ≡ record self { with_checksum = write } }
    {
        self.with_checksum = write;
        self
    }

    /// How many bytes chunks may still have, with their padding.
    pub fn bytes_remaining(&self) -> usize
        ensures value { result ≡ bytes_remaining self.now }
        ensures within { 12 + length self.now.body ≤ self.now.size }
        ensures small { self.now.size ≤ 65535 }
    {
        self.size - self.bytes.len()
    }

    /// Are there no chunks yet?
    pub fn is_empty(&self) -> bool
        ensures { IsTrue result ↔ (self.now.body ≡ []) }
    {
        self.bytes.len() == 12
    }

    /// Adds a chunk, for which there is room. `Chunk::serialized_size` says how much it needs.
    #[inline(always)]
    pub fn add(&mut self, chunk: &Chunk<'_>)
        requires { length (chunk_bytes (chunk_content chunk.now)) ≤ bytes_remaining self.old }
        ensures { self.new ≡ record self.old {
          body = self.old.body ++ chunk_bytes
              (chunk_content chunk.now);
        } }
    {
        put_chunk(&mut self.bytes, chunk);
    }

    /// Is a checksum written?
    pub fn writes_checksum(&self) -> bool
        ensures { result ≡ self.now.with_checksum }
    {
        self.with_checksum
    }

    /// The packet in bytes, never more than the builder's size, with 0 in the place of its checksum.
    /// `fill_checksum` makes it the packet with its checksum.
    pub fn build_without_checksum(self) -> Vec<u8>
        ensures bytes { result.items ≡ packet_bytes_of false
            (header_bytes self.source_port self.destination_port self.verification_tag) self.body }
        ensures filled { checksum_filled result.items ≡ packet_bytes_of true
            (header_bytes self.source_port self.destination_port self.verification_tag) self.body }
        ensures len { vec_len result ≡ 12 + length self.body }
        ensures within { vec_len result ≤ self.size }
    {
        self.bytes
    }

    /// The packet in bytes, never more than the builder's size.
    pub fn build(self) -> Vec<u8>
        ensures bytes { result.items ≡ packet_bytes_of self.with_checksum
            (header_bytes self.source_port self.destination_port self.verification_tag) self.body }
        ensures len { vec_len result ≡ 12 + length self.body }
        ensures within { vec_len result ≤ self.size }
    {
        let with_checksum = self.with_checksum;
        let mut bytes = self.build_without_checksum();
        if with_checksum {
            fill_checksum(&mut bytes);
        }
        bytes
    }
}
