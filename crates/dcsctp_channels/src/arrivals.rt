//! What the peer sends (RFC 8831, section 6.6; RFC 8832, section 6).

ghost use Rattle.std.specs.Prelude.{◌≡◌, ℕ, List, Some, None, true, false, map, option_map, IfOk};
ghost use Rattle.dcsctp_channel_calls.specs.api.types.ByResult.{ByResult};
ghost use Rattle.dcsctp_channel_calls.specs.messages.channel_spec.Table.{message_reports};
ghost use Rattle.dcsctp_channel_calls.specs.Events.{with_notices};
ghost use Rattle.dcsctp_channel_calls.specs.api.types.queues.Messages.{message_content};
ghost use Rattle.dcsctp_channel_calls.specs.messages.channel_spec.Contents.{content_from};
ghost use Rattle.dcsctp_channel_calls.specs.messages.channel_spec.Slots.{Opening, refused_use, hears_open, hears_message, hears_bad_message};
ghost use Rattle.dcsctp_channel_calls.specs.messages.Contents.{opening_of_message};
ghost use Rattle.dcsctp_channel_calls.specs.View.{of_channel, held_stream_numbered, slot_numbered, held_from, received_on};
ghost use Rattle.dcsctp_channel_calls.specs.Notices.{opening_of};
ghost use Rattle.dcsctp_channel_calls.specs.declared.channel.HeldStream.{HeldStream};
ghost use Rattle.dcsctp_channel_calls.specs.Calls.{PartGoes};
ghost use Rattle.dcsctp_channel_calls.specs.Arrivals.{HandlesMessage, TakesRow, input_of, input_of_control, has_place, accepts_open, AcceptsOpen, AcksNow, SendsAck, ack_is_due, plain_delivery, message_taken};
ghost use Rattle.dcsctp_channel_calls.specs.messages.Format.{control_of_bytes};
ghost use Rattle.dcsctp_channels.specs.Layer.{layer_view, whole_view, Leaves, layer_with_stream, layer_after_accepting, kind_content};

use crate::below::{has_stream, prepare_stream};
use crate::layer::{Layer, begun, leave, report_notice, take_row};
use crate::opening::{CONTROL, is_own};
use crate::rows::{self, Row};
use dcsctp_channel_calls::api::{DcSctpSocket, Message, PpId, SendOptions, SocketState, StreamId};
use dcsctp_channel_calls::channel_messages::channel_spec::{Delivery, Reliability};
use dcsctp_channel_calls::channel_messages::{Control, OpenMessage, read_control, write_ack};
use dcsctp_channel_calls::{ChannelEvent, ChannelId, ChannelOptions, HeldStream};
use std::alloc::{AllocError, Global};

/// What a message of a user is by its identifier.
#[derive(Clone, Copy, Debug, PartialEq, Eq)]
pub(crate) struct Kind {
    pub(crate) is_text: bool,
    pub(crate) is_empty: bool,
}

const TEXT: u32 = 51;

const BINARY: u32 = 53;

const EMPTY_TEXT: u32 = 56;

const EMPTY_BINARY: u32 = 57;

// The message of an identifier, if it is one of a user.
fn kind_of(ppid: u32) -> Option<Kind>
    ensures { (payload : List ℕ) → option_map (kind_content payload) result ≡ content_from ppid
        payload }
{
    match ppid {
        TEXT => Some(Kind {
            is_text: true,
            is_empty: false,
        }),
        BINARY => Some(Kind {
            is_text: false,
            is_empty: false,
        }),
        EMPTY_TEXT => Some(Kind {
            is_text: true,
            is_empty: true,
        }),
        EMPTY_BINARY => Some(Kind {
            is_text: false,
            is_empty: true,
        }),
        _ => None,
    }
}

/// Handles a message. One on a stream that both ends don't have is dropped, and so is one after the association's end.
pub(crate) fn handle_message<S: DcSctpSocket>(
    socket: &mut S,
    layer: &mut Layer,
    message: Message,
) -> Result<(), AllocError>
    ensures { PartGoes (λ done. HandlesMessage (message_content message))
        (whole_view (S.user_view socket.old) layer.old) result
        (whole_view (S.user_view socket.new) layer.new) }
{
    let stream = message.stream_id.0;
    if layer.has_ended || !has_stream(socket, stream) {
        return Ok(());
    }
    take_message(socket, layer, message)?;
    ack_now(socket, layer, stream)
}

// A message takes its row.
fn take_message<S: DcSctpSocket>(
    socket: &mut S,
    layer: &mut Layer,
    message: Message,
) -> Result<(), AllocError>
    ensures { PartGoes (λ done. TakesRow message.stream_id.0
        (input_of (layer_view layer.old) (message_content message)))
        (whole_view (S.user_view socket.old) layer.old) result
        (whole_view (S.user_view socket.new) layer.new) }
{
    let stream = message.stream_id.0;
    if message.ppid.0 == CONTROL {
        return take_control(socket, layer, stream, message.payload.as_slice());
    }
    if message.payload.len() > layer.limits.message {
        return refuse(layer, stream);
    }
    match kind_of(message.ppid.0) {
        Some(kind) => hear(layer, stream, kind, message.payload),
        None => refuse(layer, stream),
    }
}

fn take_control<S: DcSctpSocket>(
    socket: &mut S,
    layer: &mut Layer,
    stream: u16,
    bytes: &[u8],
) -> Result<(), AllocError>
    ensures { PartGoes (λ done. TakesRow stream (input_of_control (layer_view layer.old) stream
        (control_of_bytes bytes.now))) (whole_view (S.user_view socket.old) layer.old) result
        (whole_view (S.user_view socket.new) layer.new) }
{
    match read_control(bytes) {
        Ok(Control::Ack()) => take_row(layer, stream, Row::Ack),
        Ok(Control::Open(message)) => {
            if accepts(layer, stream, &message) {
                accept(socket, layer, stream, &message)
            } else {
                refuse_open(layer, stream, message.delivery)
            }
        }
        Err(_) => refuse(layer, stream),
    }
}

// ---- messages of users

fn content_bytes(alloc: Global, kind: Kind, payload: Vec<u8>) -> Vec<u8>
    ensures { record { is_text = kind.is_text; bytes = result.items } ≡ kind_content payload.items
        kind }
{
    if kind.is_empty {
        Vec::new(alloc)
    } else {
        payload
    }
}

// A message of a user.
fn hear(layer: &mut Layer, stream: u16, kind: Kind, payload: Vec<u8>) -> Result<(), AllocError>
    ensures { Leaves (message_taken stream (hears_message (kind_content payload.items kind))
        (layer_view layer.old)) (layer_view layer.old) result (layer_view layer.new) }
{
    let bytes = content_bytes(layer.alloc, kind, payload);
    match layer.table.at(stream) {
        None => begin_refused(layer, stream, plain_delivery()),
        Some(held) if held.stream.closing => take_row(layer, stream, Row::Ack),
        Some(held) => hear_open(layer, stream, &held, kind.is_text, bytes),
    }
}

// A message on a channel that isn't closing.
fn hear_open(
    layer: &mut Layer,
    stream: u16,
    held: &HeldStream,
    is_text: bool,
    bytes: Vec<u8>,
) -> Result<(), AllocError>
    requires at { held_stream_numbered (layer_view layer.old) stream ≡ Some held.now }
    requires goes_on { held.now.stream.closing ≡ false }
    ensures { Leaves (message_taken stream (hears_message
        (record { is_text = is_text; bytes = bytes.items })) (layer_view layer.old))
        (layer_view layer.old) result (layer_view layer.new) }
{
    let step = rows::step_of(Row::Ack, held.stream);
    let counted = received_on(held, bytes.len());
    report_notice(layer, step.notice)?;
    report_message(layer, held.stream.name, is_text, bytes)?;
    leave(layer, stream, &counted, step.after)
}

// Adds a message, if the stream has a channel.
fn report_message(
    layer: &mut Layer,
    name: Option<u64>,
    is_text: bool,
    bytes: Vec<u8>,
) -> Result<(), AllocError>
    ensures { ByResult (λ done. layer_view layer.new ≡ with_notices (map of_channel
        (message_reports false name (record { is_text = is_text; bytes = bytes.items })))
        (layer_view layer.old)) (layer_view layer.new ≡ layer_view layer.old) result }
{
    match name {
        Some(name) => layer.report(ChannelEvent::Message(ChannelId(name), is_text, bytes)),
        None => Ok(()),
    }
}

// One more message was received.
fn received_on(held: &HeldStream, bytes: usize) -> HeldStream
    ensures { result ≡ received_on bytes held.now }
{
    let mut after = *held;
    after.traffic.messages_received = held.traffic.messages_received.saturating_add(1);
    after.traffic.bytes_received = held.traffic.bytes_received.saturating_add(bytes as u64);
    after
}

// ---- what can't be read

fn plain_delivery() -> Delivery
    ensures { result ≡ plain_delivery }
{
    Delivery {
        ordered: true,
        reliability: Reliability::Reliable,
        priority: 256,
    }
}

// A stream is in use until it is reset, without a user.
fn begin_refused(layer: &mut Layer, stream: u16, delivery: Delivery) -> Result<(), AllocError>
    ensures { Leaves (layer_with_stream stream None (held_from layer.old.moment delivery
        (refused_use false)) (layer_view layer.old)) (layer_view layer.old) result
        (layer_view layer.new) }
{
    let held = begun(layer.moment, delivery, rows::refused_by_us(false));
    layer.put(stream, None, held)
}

// Closes the channel of a stream, or takes the stream into use until it is reset.
fn refuse(layer: &mut Layer, stream: u16) -> Result<(), AllocError>
    ensures { Leaves (message_taken stream hears_bad_message (layer_view layer.old))
        (layer_view layer.old) result (layer_view layer.new) }
{
    match layer.table.at(stream) {
        None => begin_refused(layer, stream, plain_delivery()),
        Some(_) => take_row(layer, stream, Row::BadMessage),
    }
}

// ---- the peer opens

// Is the stream free, and is there room for one more; or is it given again?
fn has_place(layer: &Layer, stream: u16) -> bool
    ensures { result ≡ has_place (slot_numbered (layer_view layer.now) stream)
        (layer_view layer.now) }
{
    match layer.table.at(stream) {
        None => layer.table.channels.len() < layer.limits.channels,
        Some(held) => rows::may_reopen(held.stream),
    }
}

// Is the peer's OPEN accepted?
fn accepts(layer: &Layer, stream: u16, message: &OpenMessage<'_>) -> bool
    ensures { result ≡ accepts_open (layer_view layer.now) stream (opening_of_message message.now) }
{
    let Some(role) = layer.role else {
        return false;
    };
    let text = message.label.len() + message.protocol.len();
    has_place(layer, stream) && !(text > layer.limits.text) && !is_own(role, stream)
}

fn options_of(alloc: Global, message: &OpenMessage<'_>) -> Result<ChannelOptions, AllocError>
    ensures { IfOk result (λ options. opening_of options ≡ opening_of_message message.now) }
{
    Ok(ChannelOptions {
        label: Vec::from_slice(alloc, message.label)?,
        protocol: Vec::from_slice(alloc, message.protocol)?,
        delivery: message.delivery,
        negotiated: None,
    })
}

// An OPEN that isn't accepted.
fn refuse_open(layer: &mut Layer, stream: u16, delivery: Delivery) -> Result<(), AllocError>
    ensures { (name : ℕ) (opening : Opening) → opening.delivery ≡ delivery → Leaves
        (message_taken stream (hears_open false name opening) (layer_view layer.old))
        (layer_view layer.old) result (layer_view layer.new) }
{
    match layer.table.at(stream) {
        None => begin_refused(layer, stream, delivery),
        Some(held) if rows::may_reopen(held.stream) => {
            report_notice(layer, rows::ended(held.stream))?;
            let after = begun(layer.moment, delivery, rows::refused_by_us(true));
            layer.put(stream, held.stream.name, after)
        }
        Some(_) => take_row(layer, stream, Row::Close),
    }
}

// Accepts the peer's channel. A peer gives a stream again once it has performed our reset. If the answer to that was
// lost, its OPEN tells the same.
fn accept<S: DcSctpSocket>(
    socket: &mut S,
    layer: &mut Layer,
    stream: u16,
    message: &OpenMessage<'_>,
) -> Result<(), AllocError>
    requires { accepts_open (layer_view layer.old) stream (opening_of_message message.now) ≡ true }
    ensures { PartGoes (λ done. AcceptsOpen stream (opening_of_message message.now))
        (whole_view (S.user_view socket.old) layer.old) result
        (whole_view (S.user_view socket.new) layer.new) }
{
    let options = options_of(layer.alloc, message)?;
    prepare_stream(socket, stream, message.delivery.priority)?;
    let id = layer.name()?;
    take_accepted(layer, stream, id, message.delivery)?;
    layer.report(ChannelEvent::Incoming(id, options))
}

// The stream has the peer's channel; one that it had before is over.
fn take_accepted(
    layer: &mut Layer,
    stream: u16,
    id: ChannelId,
    delivery: Delivery,
) -> Result<(), AllocError>
    ensures { Leaves (layer_after_accepting stream id.0 delivery (layer_view layer.old))
        (layer_view layer.old) result (layer_view layer.new) }
{
    match layer.table.at(stream) {
        None => {
            let held = begun(layer.moment, delivery, rows::accepted(id.0, false));
            layer.put(stream, None, held)
        }
        Some(before) => {
            report_notice(layer, rows::ended(before.stream))?;
            let held = begun(layer.moment, delivery, rows::accepted(id.0, true));
            layer.put(stream, before.stream.name, held)
        }
    }
}

// ---- ACKs

/// Is an ACK to be sent now?
pub(crate) fn ack_is_due<S: DcSctpSocket>(socket: &S, layer: &Layer, held: &HeldStream) -> bool
    ensures { result ≡ ack_is_due (whole_view (S.user_view socket.now) layer.now) held.now }
{
    layer.has_room && socket.state() == SocketState::Connected && rows::owes_now(held.stream)
}

// Sends the ACK that the stream owes, if there is room.
fn ack_now<S: DcSctpSocket>(
    socket: &mut S,
    layer: &mut Layer,
    stream: u16,
) -> Result<(), AllocError>
    ensures { PartGoes (λ done. AcksNow stream) (whole_view (S.user_view socket.old) layer.old)
        result (whole_view (S.user_view socket.new) layer.new) }
{
    match layer.table.at(stream) {
        Some(held) if ack_is_due(socket, layer, &held) => send_ack(socket, layer, stream),
        _ => Ok(()),
    }
}

/// Sends an ACK. The socket may refuse it.
pub(crate) fn send_ack<S: DcSctpSocket>(
    socket: &mut S,
    layer: &mut Layer,
    stream: u16,
) -> Result<(), AllocError>
    ensures { (held : HeldStream) → held_stream_numbered (layer_view layer.old) stream ≡ Some held →
        PartGoes (λ done. SendsAck stream held) (whole_view (S.user_view socket.old) layer.old)
        result (whole_view (S.user_view socket.new) layer.new) }
{
    let payload = write_ack(layer.alloc)?;
    let message = Message::new(StreamId(stream), PpId(CONTROL), payload);
    match socket.send(message, &SendOptions::default()) {
        Ok(Ok(())) => take_row(layer, stream, Row::Acknowledged),
        Ok(Err(_)) => {
            layer.has_room = false;
            Ok(())
        }
        Err(_) => Err(AllocError),
    }
}
