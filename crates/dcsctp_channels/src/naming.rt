//! Channels are named, and wait for their streams.

ghost use Rattle.std.specs.Prelude.{◌≡◌, ◌<◌, ◌^◌, ◌+◌, length};
ghost use Rattle.dcsctp_channel_calls.specs.api.Calls.{UserView};
ghost use Rattle.dcsctp_channel_calls.specs.api.types.ByResult.{ByResult};
ghost use Rattle.dcsctp_channel_calls.specs.Notices.{opening_of};
ghost use Rattle.dcsctp_channel_calls.specs.Calls.{PartGoes, KeepsTaking};
ghost use Rattle.dcsctp_channel_calls.specs.Opening.{OpensChannel, open_refusal, is_too_long, named_next};
ghost use Rattle.dcsctp_channels.specs.Layer.{layer_view, whole_view};

use crate::layer::{Layer, Waiting};
use crate::opening::begin_waiting;
use dcsctp_channel_calls::api::DcSctpSocket;
use dcsctp_channel_calls::channel_messages::{OpenMessage, write_open};
use dcsctp_channel_calls::{ChannelError, ChannelId, ChannelOptions};
use std::alloc::AllocError;

// Why a channel can't be opened.
fn open_refusal<S: DcSctpSocket>(
    socket: &S,
    layer: &Layer,
    options: &ChannelOptions,
) -> Option<ChannelError>
    ensures { result ≡ open_refusal (opening_of options.now) options.now.negotiated
        (whole_view (S.user_view socket.now) layer.now) }
{
    if layer.has_ended {
        return Some(ChannelError::Ended);
    }
    if is_too_long(options, socket.options().max_message_size) {
        return Some(ChannelError::TooLong);
    }
    match options.negotiated {
        Some(stream) if layer.table.at(stream).is_some() => Some(ChannelError::StreamInUse),
        _ => None,
    }
}

fn is_too_long(options: &ChannelOptions, limit: usize) -> bool
    ensures { (below : UserView) → below.endpoint.options.max_message_size ≡ limit → result ≡
        is_too_long below (opening_of options.now) }
{
    let label = options.label.len();
    let protocol = options.protocol.len();
    label > 65_535 || protocol > 65_535 || 12 + label + protocol > limit
}

/// Names a channel, and gives it its stream if it may begin.
pub(crate) fn open<S: DcSctpSocket>(
    socket: &mut S,
    layer: &mut Layer,
    options: &ChannelOptions,
) -> Result<Result<ChannelId, ChannelError>, AllocError>
    ensures { PartGoes (OpensChannel (opening_of options.now) options.now.negotiated)
        (whole_view (S.user_view socket.old) layer.old) result
        (whole_view (S.user_view socket.new) layer.new) }
{
    if let Some(refusal) = open_refusal(socket, layer, options) {
        return Ok(Err(refusal));
    }
    let id = begin_open(layer, options)?;
    begin_waiting(socket, layer)?;
    Ok(Ok(id))
}

// The channel waits behind the others.
fn begin_open(layer: &mut Layer, options: &ChannelOptions) -> Result<ChannelId, AllocError>
    requires label { length options.now.label.items < 2 ^ 16 }
    requires protocol { length options.now.protocol.items < 2 ^ 16 }
    ensures { ByResult (λ id. (id.0 ≡ (layer_view layer.old).named) ×
        (layer_view layer.new ≡ named_next (opening_of options.now) options.now.negotiated
        (layer_view layer.old))) (KeepsTaking (layer_view layer.old) (layer_view layer.new))
        result }
{
    let message = OpenMessage {
        label: options.label.as_slice(),
        protocol: options.protocol.as_slice(),
        delivery: options.delivery,
    };
    let payload = write_open(layer.alloc, &message)?;
    let id = layer.name()?;
    layer.waiting.push_back(Waiting {
        id,
        payload,
        delivery: options.delivery,
        negotiated: options.negotiated,
    })?;
    Ok(id)
}
