//! The socket is handed over with its channels, and restored with them.

ghost use Rattle.std.specs.Prelude.{◌≡◌, ◌&&◌, true, Some, OnOk, IfOk, map};
ghost use Rattle.std.specs.List.{list_all};
ghost use Rattle.dcsctp_channel_calls.specs.api.types.Snapshot.{snapshot, is_valid_snapshot};
ghost use Rattle.dcsctp_channel_calls.specs.View.{stream_count};
ghost use Rattle.dcsctp_channel_calls.specs.Calls.{PartGoes};
ghost use Rattle.dcsctp_channel_calls.specs.Handover.{is_plain, has_settled, are_settled, is_all_taken, has_association, readiness_with_channels, carried_channel, carried_channels, channels_part, layer_handed_over, HandsOverNow, HandsOverChannels, ChannelPlaces, stream_handed_over, has_own_place, places_with_channel, places_beside, no_places, is_of_association, is_valid_below, streams_of_snapshot, is_unused, RestoresChannels, RestoresIfPlaced};
ghost use Rattle.dcsctp_channels.specs.Layer.{layer_view, whole_view, Leaves, places_of, PlacesAre};

use crate::below::{gather, stream_count};
use crate::layer::Layer;
use crate::rows;
use crate::table::Table;
use dcsctp_channel_calls::api::handover::{
    HandoverReadiness, HandoverSocketState, SocketHandoverState,
};
use dcsctp_channel_calls::api::{DcSctpSocket, HandoverError, Options, SocketState, SocketTime};
use dcsctp_channel_calls::channel_messages::channel_spec::{OwnReset, StreamUse};
use dcsctp_channel_calls::{
    CHANNELS_UNSETTLED, ChannelEvent, ChannelTraffic, ChannelsHandoverState, EVENTS_NOT_TAKEN,
    HandoverChannel, HandoverChannels, HeldStream, RestoreChannelsError,
};
use std::alloc::{AllocError, Global};

// ---- when it can be handed over

// Has the stream a channel that isn't closing, and owes and awaits nothing?
fn is_plain(stream: StreamUse) -> bool
    ensures { result ≡ is_plain stream }
{
    stream.name.is_some()
        && !stream.owes_ack
        && !stream.closing
        && matches!(stream.own, OwnReset::NotAsked)
        && !stream.peer_reset
        && !stream.awaits_answer
        && stream.refusals == 0
}

// Are all streams so, and both ends have them?
fn all_settled(layer: &Layer, count: u16) -> bool
    ensures { result ≡ list_all (has_settled count) (layer_view layer.now).streams }
{
    for (stream, held) in layer.table.channels.iter() {
        if !(is_plain(held.stream) && *stream < count) {
            return false;
        }
    }
    true
}

fn are_settled<S: DcSctpSocket>(socket: &S, layer: &Layer) -> bool
    ensures { result ≡ are_settled (whole_view (S.user_view socket.now) layer.now) }
{
    layer.waiting.len() == 0 && all_settled(layer, stream_count(socket))
}

// Has a poll nothing to return, and no event or message to handle?
fn is_all_taken<S: DcSctpSocket>(socket: &S, layer: &Layer) -> bool
    ensures { result ≡ is_all_taken (whole_view (S.user_view socket.now) layer.now) }
{
    layer.told.len() == 0
        && layer.packets.len() == 0
        && layer.ready.len() == 0
        && socket.messages_ready_count() == 0
}

fn has_association<S: DcSctpSocket>(socket: &S, layer: &Layer) -> bool
    ensures { result ≡ has_association (whole_view (S.user_view socket.now) layer.now) }
{
    layer.is_connected && !matches!(socket.state(), SocketState::Closed)
}

/// Why the socket and its channels can't be handed over now.
pub(crate) fn readiness<S: DcSctpSocket>(socket: &S, layer: &Layer) -> HandoverReadiness
    ensures { result.0 ≡ readiness_with_channels (whole_view (S.user_view socket.now) layer.now) }
{
    let unconnected = !has_association(socket, layer);
    let unsettled = !are_settled(socket, layer);
    let untaken = !is_all_taken(socket, layer);
    socket.get_handover_readiness()
        | (HandoverReadiness::WRONG_CONNECTION_STATE & unconnected)
        | (CHANNELS_UNSETTLED & unsettled)
        | (EVENTS_NOT_TAKEN & untaken)
}

// ---- what is carried

fn carried(stream: u16, held: &HeldStream) -> HandoverChannel
    ensures { result ≡ carried_channel (stream, held.now) }
{
    HandoverChannel {
        stream,
        name: held.stream.name.unwrap_or(0),
        heard: held.stream.heard,
        delivery: held.delivery,
        messages_sent: held.traffic.messages_sent,
        bytes_sent: held.traffic.bytes_sent,
        messages_received: held.traffic.messages_received,
        bytes_received: held.traffic.bytes_received,
    }
}

// The channels of all streams in use.
fn all_carried(layer: &Layer) -> Result<Vec<HandoverChannel>, AllocError>
    ensures { IfOk result (λ channels. channels.items ≡ map carried_channel
        (layer_view layer.now).streams) }
{
    let mut channels = Vec::new(layer.alloc);
    for (stream, held) in layer.table.channels.iter() {
        channels.push(carried(*stream, held))?;
    }
    Ok(channels)
}

fn carried_channels(layer: &Layer) -> Result<HandoverChannels, AllocError>
    ensures { IfOk result (λ channels. channels_part channels ≡ carried_channels
        (layer_view layer.now)) }
{
    let channels = all_carried(layer)?;
    Ok(HandoverChannels {
        role: layer.role,
        named: layer.named,
        channels,
    })
}

// The channels go on elsewhere.
fn leave_channels(layer: &mut Layer) -> Result<(), AllocError>
    ensures { Leaves (layer_handed_over (layer_view layer.old)) (layer_view layer.old) result
        (layer_view layer.new) }
{
    layer.report(ChannelEvent::Ended())?;
    layer.is_connected = false;
    layer.has_ended = true;
    layer.table = Table::new(layer.alloc);
    Ok(())
}

/// Hands the socket over with its channels, once its events were taken over.
pub(crate) fn hand_over<S: DcSctpSocket>(
    socket: &mut S,
    layer: &mut Layer,
) -> Result<Result<ChannelsHandoverState, HandoverError>, AllocError>
    ensures { PartGoes HandsOverChannels (whole_view (S.user_view socket.old) layer.old) result
        (whole_view (S.user_view socket.new) layer.new) }
{
    gather(socket, layer)?;
    hand_over_now(socket, layer)
}

// All that needs memory here comes before the socket's call, which is the last that can fail.
fn hand_over_now<S: DcSctpSocket>(
    socket: &mut S,
    layer: &mut Layer,
) -> Result<Result<ChannelsHandoverState, HandoverError>, AllocError>
    ensures { PartGoes HandsOverNow (whole_view (S.user_view socket.old) layer.old) result
        (whole_view (S.user_view socket.new) layer.new) }
{
    let readiness = readiness(socket, layer);
    if readiness.0 != 0 {
        return Ok(Err(HandoverError::NotReady(readiness)));
    }
    let channels = carried_channels(layer)?;
    leave_channels(layer)?;
    match socket.get_handover_state_and_close() {
        Ok(Ok(socket)) => Ok(Ok(ChannelsHandoverState { socket, channels })),
        _ => Err(AllocError),
    }
}

// ---- what a restore makes of it

fn stream_handed_over(moment: SocketTime, channel: &HandoverChannel) -> HeldStream
    ensures { result ≡ stream_handed_over moment channel.now }
{
    HeldStream {
        stream: rows::lasting(channel.name, channel.heard),
        delivery: channel.delivery,
        closing_since: moment,
        traffic: ChannelTraffic {
            messages_sent: channel.messages_sent,
            bytes_sent: channel.bytes_sent,
            messages_received: channel.messages_received,
            bytes_received: channel.bytes_received,
        },
    }
}

// Has the association its stream, was its name given, and is neither another channel's?
fn has_own_place(count: u16, named: u64, channel: &HandoverChannel, table: &Table) -> bool
    ensures { result ≡ has_own_place count named channel.now (places_of table.now) }
{
    channel.stream < count
        && channel.name < named
        && table.at(channel.stream).is_none()
        && table.stream_of(channel.name).is_none()
}

fn place(moment: SocketTime, channel: &HandoverChannel, table: &mut Table) -> Result<(), AllocError>
    ensures { OnOk result (places_of table.new ≡ places_with_channel moment channel.now
        (places_of table.old)) }
{
    table.rename(channel.stream, None, Some(channel.name))?;
    table.put(channel.stream, stream_handed_over(moment, channel))
}

// The places of all channels, if each has its own.
fn all_placed(
    alloc: Global,
    moment: SocketTime,
    count: u16,
    named: u64,
    channels: &[HandoverChannel],
) -> Result<Option<Table>, AllocError>
    ensures { IfOk result (PlacesAre (places_beside moment count named channels.now no_places)) }
{
    let mut table = Table::new(alloc);
    for channel in channels {
        if !has_own_place(count, named, channel, &table) {
            return Ok(None);
        }
        place(moment, channel, &mut table)?;
    }
    Ok(Some(table))
}

// Can the socket be restored, and has it an association?
fn is_valid_below(state: &SocketHandoverState, options: &Options) -> bool
    ensures { result ≡ (is_of_association state.now.socket_state
        && is_valid_snapshot options.now (snapshot state.now)) }
{
    matches!(state.socket_state, HandoverSocketState::Connected) && state.is_valid(options)
}

// How many streams go both ways.
fn streams_of_snapshot(state: &SocketHandoverState) -> u16
    ensures { result ≡ streams_of_snapshot state.now.capabilities }
{
    state
        .capabilities
        .negotiated_maximum_outgoing_streams
        .min(state.capabilities.negotiated_maximum_incoming_streams)
}

// Was nothing done with it?
fn is_unused<S: DcSctpSocket>(socket: &S, layer: &Layer) -> bool
    ensures { result ≡ is_unused (whole_view (S.user_view socket.now) layer.now) }
{
    matches!(socket.state(), SocketState::Closed)
        && !layer.is_connected
        && !layer.has_ended
        && layer.named == 0
        && layer.table.channels.len() == 0
        && layer.table.names.len() == 0
        && layer.waiting.len() == 0
        && layer.told.len() == 0
}

/// Restores a new socket with its channels.
pub(crate) fn restore<S: DcSctpSocket>(
    socket: &mut S,
    layer: &mut Layer,
    state: &ChannelsHandoverState,
) -> Result<Result<(), RestoreChannelsError>, AllocError>
    ensures { PartGoes (RestoresChannels (snapshot state.now.socket)
        (channels_part state.now.channels)) (whole_view (S.user_view socket.old) layer.old) result
        (whole_view (S.user_view socket.new) layer.new) }
{
    if !is_unused(socket, layer) {
        return Ok(Err(RestoreChannelsError::NotNew));
    }
    if !is_valid_below(&state.socket, &socket.options()) {
        return Ok(Err(RestoreChannelsError::InvalidSnapshot));
    }
    match places_of(layer, state)? {
        Some(table) => continue_with(socket, layer, state, table),
        None => Ok(Err(RestoreChannelsError::InvalidSnapshot)),
    }
}

// The places of all channels of a snapshot, if each has its own.
fn places_of(layer: &Layer, state: &ChannelsHandoverState) -> Result<Option<Table>, AllocError>
    ensures { IfOk result (PlacesAre (places_beside (layer_view layer.now).moment
        (streams_of_snapshot state.now.socket.capabilities) state.now.channels.named
        state.now.channels.channels.items no_places)) }
{
    let count = streams_of_snapshot(&state.socket);
    let channels = &state.channels;
    all_placed(
        layer.alloc,
        layer.moment,
        count,
        channels.named,
        &channels.channels,
    )
}

// The association continues, and so do the channels in their places.
fn continue_with<S: DcSctpSocket>(
    socket: &mut S,
    layer: &mut Layer,
    state: &ChannelsHandoverState,
    table: Table,
) -> Result<Result<(), RestoreChannelsError>, AllocError>
    requires unused { is_unused (whole_view (S.user_view socket.old) layer.old) ≡ true }
    requires valid { is_valid_below (snapshot state.now.socket)
        (whole_view (S.user_view socket.old) layer.old) ≡ true }
    ensures { PartGoes (RestoresIfPlaced (snapshot state.now.socket)
        (channels_part state.now.channels) (Some (places_of table)))
        (whole_view (S.user_view socket.old) layer.old) result
        (whole_view (S.user_view socket.new) layer.new) }
{
    match socket.restore_from_state(&state.socket) {
        Ok(Ok(())) => {
            layer.role = state.channels.role;
            layer.named = state.channels.named;
            layer.table = table;
            Ok(Ok(()))
        }
        _ => Err(AllocError),
    }
}
