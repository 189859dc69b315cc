//! Calls of the socket below. What it answers where no memory is left is the same for all of them.

ghost use Rattle.std.specs.Prelude.{◌≡◌, [], ◌∷◌, OnOk};
ghost use Rattle.dcsctp_channel_calls.specs.api.types.ByResult.{ByResult};
ghost use Rattle.dcsctp_channel_calls.specs.api.Events.{event_content};
ghost use Rattle.dcsctp_channel_calls.specs.View.{layer_after_events, view_with_events, stream_count, has_stream};
ghost use Rattle.dcsctp_channel_calls.specs.Calls.{PartGoes, SocketConnects, SocketShutsDown, SocketHandlesInput, SocketAdvances};
ghost use Rattle.dcsctp_channel_calls.specs.Opening.{ReadiesStream};
ghost use Rattle.dcsctp_channels.specs.Layer.{layer_view, whole_view};

use crate::layer::{Layer, Told};
use dcsctp_channel_calls::api::{DcSctpSocket, SocketEvent, SocketTime, StreamId};
use std::alloc::AllocError;

// Takes over an event of the socket.
fn tell(layer: &mut Layer, event: SocketEvent, ready: usize) -> Result<(), AllocError>
    ensures { ByResult (λ done. layer_view layer.new ≡ layer_after_events (event_content event ∷ [])
        ready (layer_view layer.old)) (layer_view layer.new ≡ layer_view layer.old) result }
{
    match event {
        SocketEvent::SendPacket(packet) => {
            layer.packets.push_back(packet)?;
            Ok(())
        }
        other => {
            let Some(after) = layer.taken.checked_add(ready as u64) else {
                return Err(AllocError);
            };
            let told = Told {
                after,
                event: other,
            };
            layer.told.push_back(told)?;
            Ok(())
        }
    }
}

/// Takes over the socket's events: packets go out at once, the others wait until the messages before them were read.
pub(crate) fn gather<S: DcSctpSocket>(socket: &mut S, layer: &mut Layer) -> Result<(), AllocError>
    ensures { PartGoes (λ done old new. new ≡ view_with_events old)
        (whole_view (S.user_view socket.old) layer.old) result
        (whole_view (S.user_view socket.new) layer.new) }
{
    while let Some(event) = socket.poll_event() {
        let ready = socket.messages_ready_count();
        tell(layer, event, ready)?;
    }
    Ok(())
}

/// How many streams go both ways; none where the peer isn't known.
pub(crate) fn stream_count<S: DcSctpSocket>(socket: &S) -> u16
    ensures { result ≡ stream_count (S.user_view socket.now) }
{
    match socket.get_metrics() {
        Some(metrics) => metrics
            .negotiated_maximum_outgoing_streams
            .min(metrics.negotiated_maximum_incoming_streams),
        None => 0,
    }
}

/// Do both ends have this stream? Where the association has ended, what came before was on streams that both had.
pub(crate) fn has_stream<S: DcSctpSocket>(socket: &S, stream: u16) -> bool
    ensures { result ≡ has_stream (S.user_view socket.now) stream }
{
    let count = stream_count(socket);
    count == 0 || stream < count
}

/// Sets a stream for its next channel. Some peers send priority 0. The threshold of a stream outlasts its channel.
pub(crate) fn prepare_stream<S: DcSctpSocket>(
    socket: &mut S,
    stream: u16,
    priority: u16,
) -> Result<(), AllocError>
    ensures { OnOk result (ReadiesStream stream priority (S.user_view socket.old)
        (S.user_view socket.new)) }
{
    let priority = if priority == 0 { 256 } else { priority };
    if socket
        .set_stream_priority(StreamId(stream), priority)
        .is_err()
    {
        return Err(AllocError);
    }
    match socket.set_buffered_amount_low_threshold(StreamId(stream), 0) {
        Ok(()) => Ok(()),
        Err(_) => Err(AllocError),
    }
}

// ---- calls of the association

/// Begins the association.
pub(crate) fn connect<S: DcSctpSocket>(socket: &mut S, layer: &mut Layer) -> Result<(), AllocError>
    ensures { PartGoes (λ done. SocketConnects) (whole_view (S.user_view socket.old) layer.old)
        result (whole_view (S.user_view socket.new) layer.new) }
{
    if socket.connect().is_err() {
        return Err(AllocError);
    }
    gather(socket, layer)
}

/// Shuts the association down.
pub(crate) fn shutdown<S: DcSctpSocket>(socket: &mut S, layer: &mut Layer) -> Result<(), AllocError>
    ensures { PartGoes (λ done. SocketShutsDown) (whole_view (S.user_view socket.old) layer.old)
        result (whole_view (S.user_view socket.new) layer.new) }
{
    if socket.shutdown().is_err() {
        return Err(AllocError);
    }
    gather(socket, layer)
}

/// Handles a packet of the peer. It may have made room.
pub(crate) fn handle_input<S: DcSctpSocket>(
    socket: &mut S,
    layer: &mut Layer,
    packet: &[u8],
) -> Result<(), AllocError>
    ensures { PartGoes (λ done. SocketHandlesInput packet.now)
        (whole_view (S.user_view socket.old) layer.old) result
        (whole_view (S.user_view socket.new) layer.new) }
{
    layer.has_room = true;
    if socket.handle_input(packet).is_err() {
        return Err(AllocError);
    }
    gather(socket, layer)
}

/// Sets the socket's clock and the layer's, which never goes back.
pub(crate) fn advance_time<S: DcSctpSocket>(
    socket: &mut S,
    layer: &mut Layer,
    now: SocketTime,
) -> Result<(), AllocError>
    ensures { PartGoes (λ done. SocketAdvances now) (whole_view (S.user_view socket.old) layer.old)
        result (whole_view (S.user_view socket.new) layer.new) }
{
    layer.has_room = true;
    if layer.moment < now {
        layer.moment = now;
    }
    if socket.advance_time(now).is_err() {
        return Err(AllocError);
    }
    gather(socket, layer)
}
