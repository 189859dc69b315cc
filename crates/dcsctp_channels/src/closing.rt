//! What is put off: resets until all that was sent has left (RFC 8831, section 6.7), ACKs and OPENs until there is room.

ghost use Rattle.std.specs.Prelude.{◌≡◌, ◌==◌, ◌<◌, ◌&&◌, Some, None, true, map, IfSome, IfNone};
ghost use Rattle.std.specs.List.{remove};
ghost use Rattle.std.specs.VecDeque.{deque_len};
ghost use Rattle.dcsctp_channel_calls.specs.api.spec.endpoint.TimeTurns.{next_moment};
ghost use Rattle.dcsctp_channel_calls.specs.api.Calls.{stream_shown};
ghost use Rattle.dcsctp_channel_calls.specs.declared.channel.HeldStream.{HeldStream};
ghost use Rattle.dcsctp_channel_calls.specs.View.{held_stream_numbered};
ghost use Rattle.dcsctp_channel_calls.specs.Calls.{PartGoes};
ghost use Rattle.dcsctp_channel_calls.specs.Sending.{channel_closed, layer_after_close};
ghost use Rattle.dcsctp_channel_calls.specs.Arrivals.{ack_is_due};
ghost use Rattle.dcsctp_channel_calls.specs.Late.{NoResetIsDue, NoAckIsDue, ResetsStream, may_reset, reset_is_due, is_all_sent, patience_ends, may_begin_now};
ghost use Rattle.dcsctp_channel_calls.specs.Polls.{sooner_if_ending, deadline_with};
ghost use Rattle.dcsctp_channel_calls.specs.Opening.{channels_waiting};
ghost use Rattle.dcsctp_channels.specs.Layer.{layer_view, whole_view, waiting_said, Leaves, DoesLateUnlessNone, place_waiting};

use crate::arrivals::{ack_is_due, send_ack};
use crate::layer::{Layer, take_row};
use crate::opening::begin_waiting;
use crate::rows::{self, Row};
use dcsctp_channel_calls::api::{DcSctpSocket, SocketTime, StreamId};
use dcsctp_channel_calls::channel_messages::channel_spec::ChannelEnd;
use dcsctp_channel_calls::{ChannelEvent, ChannelId, HeldStream};
use std::alloc::AllocError;
use std::time::Duration;

// ---- resets

// Until when a reset waits for acknowledgements of what was sent: a second after the close.
fn patience_ends(held: &HeldStream) -> SocketTime
    ensures { result ≡ patience_ends held.now }
{
    held.closing_since + Duration::from_secs(1)
}

// Has all that was sent on the stream left, and been acknowledged or waited for?
fn is_all_sent<S: DcSctpSocket>(socket: &S, layer: &Layer, stream: u16, held: &HeldStream) -> bool
    ensures { result ≡ is_all_sent (whole_view (S.user_view socket.now) layer.now) stream held.now }
{
    if socket.buffered_amount(StreamId(stream)) != 0 {
        return false;
    }
    match socket.get_metrics() {
        Some(metrics) => metrics.unack_data_count == 0 || !(layer.moment < patience_ends(held)),
        None => false,
    }
}

fn reset_is_due<S: DcSctpSocket>(socket: &S, layer: &Layer, stream: u16, held: &HeldStream) -> bool
    ensures { result ≡ reset_is_due (whole_view (S.user_view socket.now) layer.now) stream
        held.now }
{
    rows::may_reset(held.stream) && is_all_sent(socket, layer, stream, held)
}

// The first stream whose reset is to be asked for.
fn due_reset<S: DcSctpSocket>(socket: &S, layer: &Layer) -> Option<u16>
    ensures none { IfNone result (NoResetIsDue (whole_view (S.user_view socket.now) layer.now)) }
    ensures some { IfSome result (λ stream. (held : HeldStream) ×
        (held_stream_numbered (layer_view layer.now) stream ≡ Some held) ×
        (reset_is_due (whole_view (S.user_view socket.now) layer.now) stream held ≡ true)) }
{
    if layer.table.late == 0 {
        return None;
    }
    for (stream, held) in layer.table.channels.iter() {
        if reset_is_due(socket, layer, *stream, held) {
            return Some(*stream);
        }
    }
    None
}

// Asks for the reset of the own stream.
fn reset<S: DcSctpSocket>(socket: &mut S, layer: &mut Layer, stream: u16) -> Result<(), AllocError>
    ensures { (held : HeldStream) → held_stream_numbered (layer_view layer.old) stream ≡ Some held →
        PartGoes (λ done. ResetsStream stream held) (whole_view (S.user_view socket.old) layer.old)
        result (whole_view (S.user_view socket.new) layer.new) }
{
    match socket.reset_streams(&[StreamId(stream)]) {
        Ok(Ok(())) => take_row(layer, stream, Row::Asked),
        Ok(Err(_)) => take_row(layer, stream, Row::NotAsked),
        Err(_) => Err(AllocError),
    }
}

// ---- all that was put off

// The first stream that owes an ACK, where there is room for one.
fn due_ack<S: DcSctpSocket>(socket: &S, layer: &Layer) -> Option<u16>
    ensures none { IfNone result (NoAckIsDue (whole_view (S.user_view socket.now) layer.now)) }
    ensures some { IfSome result (λ stream. (held : HeldStream) ×
        (held_stream_numbered (layer_view layer.now) stream ≡ Some held) ×
        (ack_is_due (whole_view (S.user_view socket.now) layer.now) held ≡ true)) }
{
    if layer.table.late == 0 {
        return None;
    }
    for (stream, held) in layer.table.channels.iter() {
        if ack_is_due(socket, layer, held) {
            return Some(*stream);
        }
    }
    None
}

/// Asks for a reset, sends an ACK or gives streams to the channels that wait, if one of these was put off and is to be
/// done now. False: there is nothing to do.
pub(crate) fn do_late<S: DcSctpSocket>(
    socket: &mut S,
    layer: &mut Layer,
) -> Result<bool, AllocError>
    ensures { PartGoes DoesLateUnlessNone (whole_view (S.user_view socket.old) layer.old) result
        (whole_view (S.user_view socket.new) layer.new) }
{
    if let Some(stream) = due_reset(socket, layer) {
        reset(socket, layer, stream)?;
        return Ok(true);
    }
    if let Some(stream) = due_ack(socket, layer) {
        send_ack(socket, layer, stream)?;
        return Ok(true);
    }
    let begins = may_begin_now(layer);
    if begins {
        begin_waiting(socket, layer)?;
    }
    Ok(begins)
}

// May a channel that waits begin?
fn may_begin_now(layer: &Layer) -> bool
    ensures { result ≡ may_begin_now (layer_view layer.now) }
{
    layer.is_connected && layer.has_room && layer.role.is_some() && !layer.waiting.is_empty()
}

// ---- the user closes

/// Closes a channel. One that has no stream yet is over.
pub(crate) fn close(layer: &mut Layer, id: ChannelId) -> Result<(), AllocError>
    ensures { Leaves (channel_closed id.0 (layer_view layer.old)) (layer_view layer.old) result
        (layer_view layer.new) }
{
    match layer.table.stream_of(id.0) {
        Some(stream) => take_row(layer, stream, Row::Close),
        None => close_waiting(layer, id),
    }
}

/// The place of a channel among those that wait.
pub(crate) fn place_of(layer: &Layer, id: ChannelId) -> Option<usize>
    ensures { result ≡ place_waiting id.0 (layer_view layer.now).waiting }
{
    for place in 0..layer.waiting.len() {
        if layer.waiting[place].id.0 == id.0 {
            return Some(place);
        }
    }
    None
}

fn close_waiting(layer: &mut Layer, id: ChannelId) -> Result<(), AllocError>
    ensures { Leaves (layer_after_close None id.0 (layer_view layer.old)) (layer_view layer.old)
        result (layer_view layer.new) }
{
    let Some(place) = place_of(layer, id) else {
        return Ok(());
    };
    take_out(layer, place);
    layer.report(ChannelEvent::Closed(id, ChannelEnd::Closed))
}

// Takes the channel of this place out of those that wait.
fn take_out(layer: &mut Layer, place: usize)
    requires { place < deque_len layer.old.waiting }
    ensures { layer_view layer.new ≡ channels_waiting
        (map waiting_said (remove layer.old.waiting.items place)) (layer_view layer.old) }
{
    let _ = layer.waiting.remove(place);
}

// ---- the next deadline

/// When a reset that waits for acknowledgements is due, at the latest; the socket's deadline if that is earlier.
pub(crate) fn next_deadline<S: DcSctpSocket>(socket: &S, layer: &Layer) -> SocketTime
    ensures { result ≡ deadline_with (S.user_view socket.now) (layer_view layer.now).streams
        (next_moment (S.user_view socket.now).endpoint) }
{
    let mut due = socket.poll_timeout();
    if layer.table.late == 0 {
        return due;
    }
    for (stream, held) in layer.table.channels.iter() {
        due = sooner(socket, *stream, held, due);
    }
    due
}

fn sooner<S: DcSctpSocket>(
    socket: &S,
    stream: u16,
    held: &HeldStream,
    due: SocketTime,
) -> SocketTime
    ensures { result ≡ sooner_if_ending (may_reset held.now.stream &&
        (stream_shown (S.user_view socket.now) stream).amount == 0) (patience_ends held.now) due }
{
    if rows::may_reset(held.stream) && socket.buffered_amount(StreamId(stream)) == 0 {
        let ends = patience_ends(held);
        if ends < due { ends } else { due }
    } else {
        due
    }
}
