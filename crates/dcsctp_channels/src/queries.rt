//! What a channel is doing.

ghost use Rattle.std.specs.Prelude.{◌≡◌};
ghost use Rattle.dcsctp_channel_calls.specs.Queries.{channel_state, is_waiting, state_held};
ghost use Rattle.dcsctp_channel_calls.specs.View.{held_stream_numbered};
ghost use Rattle.dcsctp_channels.specs.Layer.{layer_view};

use crate::closing::place_of;
use crate::layer::Layer;
use dcsctp_channel_calls::{ChannelId, ChannelState};

/// The state of a channel.
pub(crate) fn state_of(layer: &Layer, id: ChannelId) -> ChannelState
    ensures { result ≡ channel_state (layer_view layer.now) id.0 }
{
    match layer.table.stream_of(id.0) {
        Some(stream) => state_on(layer, stream),
        None if is_waiting(layer, id) => ChannelState::Connecting,
        None => ChannelState::Closed,
    }
}

// The state of the channel of a stream.
fn state_on(layer: &Layer, stream: u16) -> ChannelState
    ensures { result ≡ state_held (held_stream_numbered (layer_view layer.now) stream) }
{
    match layer.table.at(stream) {
        Some(held) if held.stream.closing => ChannelState::Closing,
        Some(_) => ChannelState::Open,
        None => ChannelState::Closed,
    }
}

// Does the channel wait for its stream?
fn is_waiting(layer: &Layer, id: ChannelId) -> bool
    ensures { result ≡ is_waiting id.0 (layer_view layer.now).waiting }
{
    place_of(layer, id).is_some()
}
