//! Reading a packet (RFC 9260, section 3.1).

ghost use Rattle.std.specs.Prelude.{◌≡◌, ◌≤◌, ℕ, List, not, length, drop, IfOk, IsErrOf};
ghost use Rattle.std.specs.List.{list_any};
ghost use Rattle.dcsctp_wire.specs.declared.packet.PacketError.TheVariants.{OutOfMemory};
ghost use Rattle.dcsctp_wire.specs.declared.packet.WireOptions.{WireOptions};
ghost use Rattle.dcsctp_wire.specs.Content.{PacketContent, chunk_content, packet_content};
ghost use Rattle.dcsctp_wire.specs.Format.{is_cookie_echo, checksum_accepted, IsPacket};

use crate::bytes::{u16_at, u32_at};
use crate::chunk::{Chunk, read_chunks};
use dcsctp_wire_checksum::packet_checksum;
use std::alloc::{AllocError, AllocFailed, Global};

/// How a packet is read.
#[derive(Clone, Copy, Debug)]
pub struct WireOptions {
    /// The port that a packet must be sent to.
    pub local_port: u16,

    /// Accepts every checksum. Only for tests.
    pub disable_checksum_verification: bool,

    /// The alternate error detection method (RFC 9653). If it isn't 0, a checksum field of 0 means that there
    /// is no checksum.
    pub zero_checksum_alternate_error_detection_method: u32,
}

/// The common header of a packet, without its checksum.
#[derive(Clone, Copy, Debug, PartialEq, Eq)]
pub struct CommonHeader {
    /// The port that the packet comes from.
    pub source_port: u16,

    /// The port that it is sent to.
    pub destination_port: u16,

    /// The verification tag.
    pub verification_tag: u32,
}

/// A packet, whose chunks borrow its bytes.
#[derive(Debug, Drop)]
pub struct SctpPacket<'a> {
    /// The common header.
    pub common_header: CommonHeader,

    /// The chunks, in their order.
    pub chunks: Vec<Chunk<'a>>,
}

/// Why no packet was read.
#[derive(Clone, Copy, Debug, PartialEq, Eq)]
pub enum PacketError {
    /// The bytes aren't a packet that these options allow.
    Malformed,

    /// An allocation failed.
    OutOfMemory,
}

impl From<AllocError> for PacketError {
    ghost from_gives = { λ _ e. e ≡ OutOfMemory };

    fn from(_e: AllocError) -> PacketError {
        PacketError::OutOfMemory
    }
}

impl<T: Drop> From<AllocFailed<T>> for PacketError {
    ghost from_gives = { λ _ e. e ≡ OutOfMemory };

    fn from(_e: AllocFailed<T>) -> PacketError {
        PacketError::OutOfMemory
    }
}

impl<'a> SctpPacket<'a> {
    /// The packet that the bytes are, for a reader with these options (RFC 9260, section 3.1).
    ///
    /// # Errors
    ///
    /// `Malformed` if the bytes aren't a packet: they are cut off, are sent to another port, or have a wrong
    /// checksum. So it is if chunks or parameters don't have the form of RFC 9260, section 3, or if a COOKIE
    /// ECHO comes after another chunk. `OutOfMemory` if a list can't grow.
    pub fn from_bytes(
        alloc: Global,
        bytes: &'a [u8],
        options: &WireOptions,
    ) -> Result<SctpPacket<'a>, PacketError>
        // What is read is what the bytes say.
        ensures found { IfOk result
            (λ packet. IsPacket options.now (packet_content packet) bytes.now) }
        // What is refused is no packet.
        ensures malformed { IsErrOf result PacketError.Malformed
            → (packet : PacketContent) → IsPacket options.now packet bytes.now → ⊥ }
    {
        if bytes.len() < 12 {
            return Err(PacketError::Malformed);
        }
        let common_header = CommonHeader {
            source_port: u16_at(bytes, 0),
            destination_port: u16_at(bytes, 2),
            verification_tag: u32_at(bytes, 4),
        };
        if common_header.destination_port != options.local_port {
            return Err(PacketError::Malformed);
        }
        if !is_checksum_accepted(bytes, options) {
            return Err(PacketError::Malformed);
        }
        let chunks = read_chunks(alloc, &bytes[12..])?;
        if !has_no_late_echo(&chunks) {
            return Err(PacketError::Malformed);
        }
        Ok(SctpPacket {
            common_header,
            chunks,
        })
    }
}

/// Is the checksum right (RFC 9260, section 6.8), or is it not asked for (RFC 9653, section 5.3)?
fn is_checksum_accepted(bytes: &[u8], options: &WireOptions) -> bool
    requires { 12 ≤ length bytes.now }
    ensures { result ≡ checksum_accepted options.now bytes.now }
{
    if options.disable_checksum_verification {
        return true;
    }
    if u32_at(bytes, 8) == 0 && options.zero_checksum_alternate_error_detection_method != 0 {
        return true;
    }
    let field = &bytes[8..12];
    u32::from_le_bytes([field[0], field[1], field[2], field[3]]) == packet_checksum(bytes)
}

/// Is the chunk a COOKIE ECHO?
fn is_cookie_echo(chunk: &Chunk) -> bool
    ensures { result ≡ is_cookie_echo (chunk_content chunk.now) }
{
    match chunk {
        Chunk::CookieEcho(_) => true,
        _ => false,
    }
}

/// Is no COOKIE ECHO after another chunk (RFC 9260, section 5.1)?
fn has_no_late_echo(chunks: &[Chunk]) -> bool
    ensures { result
        ≡ not (list_any (λ chunk. is_cookie_echo (chunk_content chunk)) (drop 1 chunks.now)) }
{
    let late = chunks.iter().skip(1).any(|chunk| is_cookie_echo(chunk));
    !late
}

/// A law: bytes have one reading. With the same options they are at most one packet (RFC 9260, section 3.1).
pub fn one_reading()
    ensures { (options : WireOptions) (bytes : List ℕ) (p q : PacketContent)
        → IsPacket options p bytes → IsPacket options q bytes → p ≡ q }
{}
