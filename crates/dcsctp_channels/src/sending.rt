//! Messages of the user (RFC 8831, section 6.6), and how they go out.

ghost use Rattle.std.specs.Prelude.{◌≡◌, IfOk};
ghost use Rattle.dcsctp_channel_calls.specs.messages.channel_spec.Contents.{ppid_for, payload_for};
ghost use Rattle.dcsctp_channel_calls.specs.Calls.{PartGoes};
ghost use Rattle.dcsctp_channel_calls.specs.Sending.{IsSendingOn, open_stream, retransmissions_of, IsLifetimeOf, SendsContent, SendsOn, counts_sent};
ghost use Rattle.dcsctp_channels.specs.Layer.{layer_view, whole_view};

use crate::layer::Layer;
use dcsctp_channel_calls::api::{DcSctpSocket, Message, PpId, SendOptions, StreamId};
use dcsctp_channel_calls::channel_messages::channel_spec::Reliability;
use dcsctp_channel_calls::{ChannelError, ChannelId, HeldStream};
use std::alloc::{AllocError, Global};
use std::time::Duration;

const TEXT: u32 = 51;

const BINARY: u32 = 53;

const EMPTY_TEXT: u32 = 56;

const EMPTY_BINARY: u32 = 57;

// The identifier of a message.
fn ppid_of(is_text: bool, bytes: &[u8]) -> u32
    ensures { result ≡ ppid_for is_text bytes.now }
{
    match (is_text, bytes.is_empty()) {
        (true, false) => TEXT,
        (false, false) => BINARY,
        (true, true) => EMPTY_TEXT,
        (false, true) => EMPTY_BINARY,
    }
}

// The bytes of a message: one byte stands for none.
fn payload_of(alloc: Global, bytes: &[u8]) -> Result<Vec<u8>, AllocError>
    ensures { IfOk result (λ payload. payload.items ≡ payload_for bytes.now) }
{
    if bytes.is_empty() {
        Vec::from_slice(alloc, &[0u8])
    } else {
        Vec::from_slice(alloc, bytes)
    }
}

fn retransmissions_of(reliability: Reliability) -> Option<u16>
    ensures { result ≡ retransmissions_of reliability }
{
    match reliability {
        Reliability::Reliable => None,
        Reliability::Retransmissions(limit) => {
            Some(if limit < 65_535 { limit as u16 } else { 65_535 })
        }
        Reliability::Lifetime(_) => None,
    }
}

fn lifetime_of(reliability: Reliability) -> Option<Duration>
    ensures { IsLifetimeOf reliability result }
{
    match reliability {
        Reliability::Reliable => None,
        Reliability::Retransmissions(_) => None,
        Reliability::Lifetime(millis) => Some(Duration::from_millis(u64::from(millis))),
    }
}

// How a message goes out: in order until the peer knows the channel (RFC 8832, section 6).
fn sending(held: &HeldStream) -> SendOptions
    ensures { IsSendingOn held.now result }
{
    SendOptions {
        unordered: held.stream.heard && !held.delivery.ordered,
        lifetime: lifetime_of(held.delivery.reliability),
        max_retransmissions: retransmissions_of(held.delivery.reliability),
        lifecycle_id: None,
    }
}

// The stream of a channel that is open.
fn open_stream(layer: &Layer, id: ChannelId) -> Option<(u16, HeldStream)>
    ensures { result ≡ open_stream (layer_view layer.now) id.0 }
{
    let stream = layer.table.stream_of(id.0)?;
    let held = layer.table.at(stream)?;
    if held.stream.closing {
        None
    } else {
        Some((stream, held))
    }
}

/// Sends a message on a channel.
pub(crate) fn send<S: DcSctpSocket>(
    socket: &mut S,
    layer: &mut Layer,
    id: ChannelId,
    is_text: bool,
    bytes: &[u8],
) -> Result<Result<(), ChannelError>, AllocError>
    ensures { PartGoes (SendsContent id.0 (record { is_text = is_text; bytes = bytes.now }))
        (whole_view (S.user_view socket.old) layer.old) result
        (whole_view (S.user_view socket.new) layer.new) }
{
    match open_stream(layer, id) {
        Some((stream, held)) => send_on(socket, layer, stream, &held, is_text, bytes),
        None => Ok(Err(ChannelError::NotOpen)),
    }
}

fn send_on<S: DcSctpSocket>(
    socket: &mut S,
    layer: &mut Layer,
    stream: u16,
    held: &HeldStream,
    is_text: bool,
    bytes: &[u8],
) -> Result<Result<(), ChannelError>, AllocError>
    ensures { PartGoes (SendsOn stream held.now (record { is_text = is_text; bytes = bytes.now }))
        (whole_view (S.user_view socket.old) layer.old) result
        (whole_view (S.user_view socket.new) layer.new) }
{
    let payload = payload_of(layer.alloc, bytes)?;
    let message = Message::new(StreamId(stream), PpId(ppid_of(is_text, bytes)), payload);
    match socket.send(message, &sending(held)) {
        Ok(Ok(())) => {
            layer.table.put(stream, sent_on(held, bytes.len()))?;
            Ok(Ok(()))
        }
        Ok(Err(refusal)) => Ok(Err(ChannelError::Refused(refusal))),
        Err(_) => Err(AllocError),
    }
}

// One more message was sent.
fn sent_on(held: &HeldStream, bytes: usize) -> HeldStream
    ensures { result ≡ counts_sent bytes held.now }
{
    let mut after = *held;
    after.traffic.messages_sent = held.traffic.messages_sent.saturating_add(1);
    after.traffic.bytes_sent = held.traffic.bytes_sent.saturating_add(bytes as u64);
    after
}
