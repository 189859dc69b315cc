//! What the socket tells beside messages.

ghost use Rattle.std.specs.Prelude.{◌≡◌, ◌∷◌, [], IfOk};
ghost use Rattle.std.specs.Map.{keys_of};
ghost use Rattle.dcsctp_channel_calls.specs.api.types.Ids.{stream_numbers};
ghost use Rattle.dcsctp_channel_calls.specs.api.Events.{event_content};
ghost use Rattle.dcsctp_channel_calls.specs.messages.channel_spec.Slots.{was_performed};
ghost use Rattle.dcsctp_channel_calls.specs.View.{association_over};
ghost use Rattle.dcsctp_channel_calls.specs.Calls.{PartGoes, SocketCloses, on_layer};
ghost use Rattle.dcsctp_channel_calls.specs.Opening.{BeginsWaiting};
ghost use Rattle.dcsctp_channel_calls.specs.Events.{HandlesEvent, HandlesEventUnlessEnded, with_notices, rows_taken, channels_ended, waiting_lost, streams_lost, streams_reset, amount_reported, connection_made};
ghost use Rattle.dcsctp_channels.specs.Layer.{layer_view, whole_view, Leaves};

use crate::below::gather;
use crate::layer::{Layer, take_rows};
use crate::opening::begin_waiting;
use crate::rows::Row;
use dcsctp_channel_calls::api::{DcSctpSocket, SocketEvent, StreamId};
use dcsctp_channel_calls::channel_messages::channel_spec::ChannelEnd;
use dcsctp_channel_calls::{ChannelEvent, ChannelId};
use std::alloc::AllocError;

/// Handles an event of the socket, once the messages before it were read. After the association's end none is.
pub(crate) fn handle_event<S: DcSctpSocket>(
    socket: &mut S,
    layer: &mut Layer,
    event: SocketEvent,
) -> Result<(), AllocError>
    ensures { PartGoes (λ done. HandlesEventUnlessEnded layer.old.has_ended (event_content event))
        (whole_view (S.user_view socket.old) layer.old) result
        (whole_view (S.user_view socket.new) layer.new) }
{
    if layer.has_ended {
        return Ok(());
    }
    handle_current(socket, layer, event)
}

// Handles an event of the association.
fn handle_current<S: DcSctpSocket>(
    socket: &mut S,
    layer: &mut Layer,
    event: SocketEvent,
) -> Result<(), AllocError>
    ensures { PartGoes (λ done. HandlesEvent (event_content event))
        (whole_view (S.user_view socket.old) layer.old) result
        (whole_view (S.user_view socket.new) layer.new) }
{
    match event {
        SocketEvent::OnConnected() => handle_connected(socket, layer),
        SocketEvent::OnClosed() => end(layer),
        SocketEvent::OnAborted(_, _) => end(layer),
        SocketEvent::OnConnectionRestarted() => handle_restart(socket, layer),
        SocketEvent::OnIncomingStreamReset(ids) => {
            handle_peer_resets(socket, layer, ids.as_slice())
        }
        SocketEvent::OnStreamsResetPerformed(ids) => {
            handle_performed(socket, layer, ids.as_slice())
        }
        SocketEvent::OnStreamsResetFailed(ids) => take_rows(layer, ids.as_slice(), Row::Refused),
        SocketEvent::OnBufferedAmountLow(id) => report_low(layer, id),
        _ => Ok(()),
    }
}

fn handle_connected<S: DcSctpSocket>(socket: &mut S, layer: &mut Layer) -> Result<(), AllocError>
    ensures { PartGoes (λ done old. BeginsWaiting (on_layer connection_made old))
        (whole_view (S.user_view socket.old) layer.old) result
        (whole_view (S.user_view socket.new) layer.new) }
{
    layer.is_connected = true;
    layer.report(ChannelEvent::Connected())?;
    begin_waiting(socket, layer)
}

// The peer has restarted the association, which ends all channels.
fn handle_restart<S: DcSctpSocket>(socket: &mut S, layer: &mut Layer) -> Result<(), AllocError>
    ensures { PartGoes (λ done old. SocketCloses (on_layer channels_ended old))
        (whole_view (S.user_view socket.old) layer.old) result
        (whole_view (S.user_view socket.new) layer.new) }
{
    end(layer)?;
    close_socket(socket, layer)
}

/// Ends the association at once.
pub(crate) fn close_socket<S: DcSctpSocket>(
    socket: &mut S,
    layer: &mut Layer,
) -> Result<(), AllocError>
    ensures { PartGoes (λ done. SocketCloses) (whole_view (S.user_view socket.old) layer.old) result
        (whole_view (S.user_view socket.new) layer.new) }
{
    if socket.close().is_err() {
        return Err(AllocError);
    }
    gather(socket, layer)
}

// ---- the end

// The association is over, and so are all channels.
fn end(layer: &mut Layer) -> Result<(), AllocError>
    ensures { Leaves (channels_ended (layer_view layer.old)) (layer_view layer.old) result
        (layer_view layer.new) }
{
    end_streams(layer)?;
    end_rest(layer)
}

// Those that wait are over, too, and so is the association.
fn end_rest(layer: &mut Layer) -> Result<(), AllocError>
    ensures { Leaves (with_notices (association_over ∷ []) (waiting_lost (layer_view layer.old)))
        (layer_view layer.old) result (layer_view layer.new) }
{
    end_waiting(layer)?;
    layer.report(ChannelEvent::Ended())
}

fn end_streams(layer: &mut Layer) -> Result<(), AllocError>
    ensures { Leaves (streams_lost (layer_view layer.old)) (layer_view layer.old) result
        (layer_view layer.new) }
{
    let streams = all_streams(layer)?;
    layer.has_ended = true;
    layer.is_connected = false;
    take_rows(layer, streams.as_slice(), Row::Lost)
}

// The streams in use.
fn all_streams(layer: &Layer) -> Result<Vec<StreamId>, AllocError>
    ensures { IfOk result (λ streams. stream_numbers streams.items ≡ keys_of
        (layer_view layer.now).streams) }
{
    let mut streams = Vec::new(layer.alloc);
    for (stream, _) in layer.table.channels.iter() {
        streams.push(StreamId(*stream))?;
    }
    Ok(streams)
}

// Channels that have no stream yet are over.
fn end_waiting(layer: &mut Layer) -> Result<(), AllocError>
    ensures { Leaves (waiting_lost (layer_view layer.old)) (layer_view layer.old) result
        (layer_view layer.new) }
{
    while let Some(waiting) = layer.waiting.pop_front() {
        layer.report(ChannelEvent::Closed(waiting.id, ChannelEnd::Lost))?;
    }
    Ok(())
}

// ---- resets

// An empty list means all streams.
fn handle_peer_resets<S: DcSctpSocket>(
    socket: &mut S,
    layer: &mut Layer,
    ids: &[StreamId],
) -> Result<(), AllocError>
    ensures { PartGoes (λ done old. BeginsWaiting
        (on_layer (streams_reset (stream_numbers ids.now)) old))
        (whole_view (S.user_view socket.old) layer.old) result
        (whole_view (S.user_view socket.new) layer.new) }
{
    take_peer_resets(layer, ids)?;
    begin_waiting(socket, layer)
}

fn take_peer_resets(layer: &mut Layer, ids: &[StreamId]) -> Result<(), AllocError>
    ensures { Leaves (streams_reset (stream_numbers ids.now) (layer_view layer.old))
        (layer_view layer.old) result (layer_view layer.new) }
{
    if !ids.is_empty() {
        return take_rows(layer, ids, Row::PeerReset);
    }
    let streams = all_streams(layer)?;
    take_rows(layer, streams.as_slice(), Row::PeerReset)
}

fn handle_performed<S: DcSctpSocket>(
    socket: &mut S,
    layer: &mut Layer,
    ids: &[StreamId],
) -> Result<(), AllocError>
    ensures { PartGoes (λ done old. BeginsWaiting
        (on_layer (rows_taken (stream_numbers ids.now) was_performed) old))
        (whole_view (S.user_view socket.old) layer.old) result
        (whole_view (S.user_view socket.new) layer.new) }
{
    take_rows(layer, ids, Row::Performed)?;
    begin_waiting(socket, layer)
}

// ---- amounts

// Not before the user has sent anything: an OPEN alone is none of its messages.
fn report_low(layer: &mut Layer, id: StreamId) -> Result<(), AllocError>
    ensures { Leaves (amount_reported id.0 (layer_view layer.old)) (layer_view layer.old) result
        (layer_view layer.new) }
{
    let Some(held) = layer.table.at(id.0) else {
        return Ok(());
    };
    match held.stream.name {
        Some(name) if held.traffic.messages_sent > 0 => {
            layer.report(ChannelEvent::BufferedAmountLow(ChannelId(name)))
        }
        _ => Ok(()),
    }
}
