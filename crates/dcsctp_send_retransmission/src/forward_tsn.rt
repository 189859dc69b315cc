//! What the peer needn't wait for any more (RFC 3758, section 3.5; RFC 8260, section 2.3.1).

ghost use Rattle.std.specs.Prelude.{◌≡◌, IfOk};
ghost use Rattle.std.specs.List.{flat_map};
ghost use Rattle.dcsctp_send_retransmission.specs.SkippedBytes.{skipped_stream_bytes, messages_bytes};

use dcsctp_api::wire::{SkippedMessages, SkippedStream};
use std::alloc::{AllocError, Global};

/// The streams on which messages are skipped.
#[derive(Debug, Drop)]
pub enum Skipped {
    /// Ordered messages up to a stream sequence number, for a FORWARD-TSN.
    Streams(Vec<SkippedStream>),

    /// Messages up to a message identifier, for an I-FORWARD-TSN.
    Messages(Vec<SkippedMessages>),
}

/// What a FORWARD-TSN or an I-FORWARD-TSN says.
#[derive(Debug, Drop)]
pub struct ForwardTsn {
    /// The TSN up to which nothing is waited for.
    pub new_cumulative_tsn: u32,

    /// What is skipped, each stream once; with interleaving ordered and unordered messages apart.
    pub skipped: Skipped,
}

// The entry of a FORWARD-TSN.
fn stream_bytes(entry: SkippedStream) -> [u8; 4]
    ensures { result ≡ skipped_stream_bytes entry }
{
    let stream = entry.stream_id.to_be_bytes();
    let number = entry.ssn.to_be_bytes();
    [stream[0], stream[1], number[0], number[1]]
}

// The entry of an I-FORWARD-TSN.
fn messages_bytes(entry: SkippedMessages) -> [u8; 8]
    ensures { result ≡ messages_bytes entry }
{
    let stream = entry.stream_id.to_be_bytes();
    let flags = u16::from(entry.is_unordered).to_be_bytes();
    let number = entry.mid.to_be_bytes();
    [
        stream[0], stream[1], flags[0], flags[1], number[0], number[1], number[2], number[3],
    ]
}

// The entries of a FORWARD-TSN.
fn streams_bytes(alloc: Global, streams: &[SkippedStream]) -> Result<Vec<u8>, AllocError>
    ensures { IfOk result (λ bytes. bytes.items ≡ flat_map skipped_stream_bytes streams.now) }
{
    let mut bytes = Vec::new(alloc);
    for entry in streams {
        bytes.extend_from_slice(&stream_bytes(*entry))?;
    }
    Ok(bytes)
}

// The entries of an I-FORWARD-TSN.
fn all_messages_bytes(alloc: Global, messages: &[SkippedMessages]) -> Result<Vec<u8>, AllocError>
    ensures { IfOk result (λ bytes. bytes.items ≡ flat_map messages_bytes messages.now) }
{
    let mut bytes = Vec::new(alloc);
    for entry in messages {
        bytes.extend_from_slice(&messages_bytes(*entry))?;
    }
    Ok(bytes)
}

impl ForwardTsn {
    ghost use Rattle.dcsctp_send_retransmission.specs.SkippedBytes.{skipped_bytes, ReadsAs};

    /// The list of what is skipped, as the chunk has it.
    pub fn skipped_bytes(&self, alloc: Global) -> Result<Vec<u8>, AllocError>
        ensures bytes { IfOk result (λ bytes. bytes.items ≡ skipped_bytes self.now.skipped) }
        ensures reads { IfOk result (λ bytes. ReadsAs self.now.skipped bytes.items) }
    {
        match &self.skipped {
            Skipped::Streams(streams) => streams_bytes(alloc, streams),
            Skipped::Messages(messages) => all_messages_bytes(alloc, messages),
        }
    }
}
