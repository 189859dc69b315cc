//! Channels get their streams (RFC 8832, section 6).

ghost use Rattle.std.specs.Prelude.{◌≡◌, None, true};
ghost use Rattle.dcsctp_channel_calls.specs.api.types.ByResult.{ByResult};
ghost use Rattle.dcsctp_channel_calls.specs.View.{held_stream_numbered};
ghost use Rattle.dcsctp_channel_calls.specs.messages.channel_spec.Streams.{is_own};
ghost use Rattle.dcsctp_channel_calls.specs.Calls.{PartGoes};
ghost use Rattle.dcsctp_channel_calls.specs.Opening.{GetsStream, Agrees, SendsOpen, FirstBegins, BeginsAll, BeginsWaiting, without_stream};
ghost use Rattle.dcsctp_channels.specs.Layer.{layer_view, whole_view, waiting_said};

use crate::below::{prepare_stream, stream_count};
use crate::layer::{Layer, Waiting, begun};
use crate::rows;
use dcsctp_channel_calls::api::{DcSctpSocket, Message, PpId, SendOptions, StreamId};
use dcsctp_channel_calls::channel_messages::channel_spec::{ChannelEnd, Role};
use dcsctp_channel_calls::{ChannelEvent, ChannelId};
use std::alloc::AllocError;

/// OPEN and ACK.
pub(crate) const CONTROL: u32 = 50;

/// Is a stream given by this end?
pub(crate) fn is_own(role: Role, stream: u16) -> bool
    ensures { result ≡ is_own role stream }
{
    match role {
        Role::Client => stream % 2 == 0,
        Role::Server => !(stream % 2 == 0),
    }
}

// The least stream of this end's that is free.
fn free_stream<S: DcSctpSocket>(socket: &S, layer: &Layer, role: Role) -> Option<u16>
    ensures { GetsStream role (whole_view (S.user_view socket.now) layer.now) None result }
{
    let count = stream_count(socket);
    for stream in 0..count {
        if is_own(role, stream) && layer.table.at(stream).is_none() {
            return Some(stream);
        }
    }
    None
}

// The stream that a channel gets, if there is one.
fn stream_for<S: DcSctpSocket>(
    socket: &S,
    layer: &Layer,
    role: Role,
    negotiated: Option<u16>,
) -> Option<u16>
    ensures { GetsStream role (whole_view (S.user_view socket.now) layer.now) negotiated result }
{
    let Some(stream) = negotiated else {
        return free_stream(socket, layer, role);
    };
    if stream < stream_count(socket) && layer.table.at(stream).is_none() {
        Some(stream)
    } else {
        None
    }
}

/// Gives streams to the channels that wait for one, if they may begin.
pub(crate) fn begin_waiting<S: DcSctpSocket>(
    socket: &mut S,
    layer: &mut Layer,
) -> Result<(), AllocError>
    ensures { PartGoes (λ done. BeginsWaiting) (whole_view (S.user_view socket.old) layer.old)
        result (whole_view (S.user_view socket.new) layer.new) }
{
    match layer.role {
        Some(role) if layer.is_connected && layer.has_room => begin_all(socket, layer, role),
        _ => Ok(()),
    }
}

// Gives streams to the channels that wait for one, oldest first, until there is no room for an OPEN.
fn begin_all<S: DcSctpSocket>(
    socket: &mut S,
    layer: &mut Layer,
    role: Role,
) -> Result<(), AllocError>
    ensures { PartGoes (λ done. BeginsAll role) (whole_view (S.user_view socket.old) layer.old)
        result (whole_view (S.user_view socket.new) layer.new) }
{
    while let Some(waiting) = layer.waiting.pop_front() {
        if !begin_first(socket, layer, role, &waiting)? {
            layer.waiting.push_front(waiting)?;
            return Ok(());
        }
    }
    Ok(())
}

// Gives a channel its stream, or ends it. False: there is no room for its OPEN.
fn begin_first<S: DcSctpSocket>(
    socket: &mut S,
    layer: &mut Layer,
    role: Role,
    waiting: &Waiting,
) -> Result<bool, AllocError>
    ensures { PartGoes (FirstBegins role (waiting_said waiting.now))
        (whole_view (S.user_view socket.old) layer.old) result
        (whole_view (S.user_view socket.new) layer.new) }
{
    match stream_for(socket, layer, role, waiting.negotiated) {
        None => find_none(layer, waiting.id),
        Some(stream) => match waiting.negotiated {
            Some(_) => agree(socket, layer, stream, waiting),
            None => send_open(socket, layer, stream, waiting),
        },
    }
}

// There is no stream for the channel.
fn find_none(layer: &mut Layer, id: ChannelId) -> Result<bool, AllocError>
    ensures { ByResult (λ begun. (begun ≡ true) ×
        (layer_view layer.new ≡ without_stream id.0 (layer_view layer.old)))
        (layer_view layer.new ≡ layer_view layer.old) result }
{
    layer.report(ChannelEvent::Closed(id, ChannelEnd::NoStream))?;
    Ok(true)
}

// Both ends agreed on the stream.
fn agree<S: DcSctpSocket>(
    socket: &mut S,
    layer: &mut Layer,
    stream: u16,
    waiting: &Waiting,
) -> Result<bool, AllocError>
    requires { held_stream_numbered (layer_view layer.old) stream ≡ None }
    ensures { PartGoes (λ done old new. (done ≡ true) × Agrees stream (waiting_said waiting.now) old
        new) (whole_view (S.user_view socket.old) layer.old) result
        (whole_view (S.user_view socket.new) layer.new) }
{
    prepare_stream(socket, stream, waiting.delivery.priority)?;
    let held = begun(layer.moment, waiting.delivery, rows::agreed(waiting.id.0));
    layer.put(stream, None, held)?;
    layer.report(ChannelEvent::Opened(waiting.id))?;
    Ok(true)
}

// Sends an OPEN. False: there is no room for it now.
fn send_open<S: DcSctpSocket>(
    socket: &mut S,
    layer: &mut Layer,
    stream: u16,
    waiting: &Waiting,
) -> Result<bool, AllocError>
    requires { held_stream_numbered (layer_view layer.old) stream ≡ None }
    ensures { PartGoes (SendsOpen stream (waiting_said waiting.now))
        (whole_view (S.user_view socket.old) layer.old) result
        (whole_view (S.user_view socket.new) layer.new) }
{
    prepare_stream(socket, stream, waiting.delivery.priority)?;
    let payload = Vec::from_slice(layer.alloc, waiting.payload.as_slice())?;
    let message = Message::new(StreamId(stream), PpId(CONTROL), payload);
    match socket.send(message, &SendOptions::default()) {
        Ok(Ok(())) => {
            let held = begun(layer.moment, waiting.delivery, rows::opened(waiting.id.0));
            layer.put(stream, None, held)?;
            Ok(true)
        }
        Ok(Err(_)) => {
            layer.has_room = false;
            Ok(false)
        }
        Err(_) => Err(AllocError),
    }
}
