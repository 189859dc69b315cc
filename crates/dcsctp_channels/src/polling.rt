//! Polls: what the socket has told is handled in its order, until there is something to take.

ghost use Rattle.std.specs.Prelude.{◌≡◌, ◌≢◌, option_map};
ghost use Rattle.dcsctp_channel_calls.specs.api.types.ByResult.{ByResult};
ghost use Rattle.dcsctp_channel_calls.specs.Notices.{notice_of};
ghost use Rattle.dcsctp_channel_calls.specs.View.{ready_below};
ghost use Rattle.dcsctp_channel_calls.specs.Calls.{PartGoes, KeepsTaking};
ghost use Rattle.dcsctp_channel_calls.specs.Polls.{PollsAs, HandlesReady, event_is_due};
ghost use Rattle.dcsctp_channels.specs.Layer.{layer_view, whole_view, HandlesNextUnlessNone, HandlesFirstReported};

use crate::arrivals::handle_message;
use crate::below::gather;
use crate::closing::do_late;
use crate::layer::Layer;
use crate::notices::handle_event;
use dcsctp_channel_calls::ChannelEvent;
use dcsctp_channel_calls::api::DcSctpSocket;
use std::alloc::AllocError;

/// Handles one thing after another until there is something to take, or nothing to do.
pub(crate) fn poll<S: DcSctpSocket>(
    socket: &mut S,
    layer: &mut Layer,
) -> Result<Option<ChannelEvent>, AllocError>
    ensures { ByResult (λ taken. PollsAs (whole_view (S.user_view socket.old) layer.old)
        (option_map notice_of taken) (whole_view (S.user_view socket.new) layer.new)
        × (layer.new.failed ≡ layer.old.failed))
        (KeepsTaking (layer_view layer.old) (layer_view layer.new)) result }
{
    for _turn in 0..u64::MAX {
        gather(socket, layer)?;
        if let Some(event) = layer.take_first() {
            return Ok(Some(event));
        }
        if !handle_next(socket, layer)? {
            return Ok(None);
        }
    }
    Err(AllocError)
}

// Handles one thing that the socket has told, or that was put off. False: there is none.
fn handle_next<S: DcSctpSocket>(socket: &mut S, layer: &mut Layer) -> Result<bool, AllocError>
    ensures { PartGoes HandlesNextUnlessNone (whole_view (S.user_view socket.old) layer.old) result
        (whole_view (S.user_view socket.new) layer.new) }
{
    if event_is_due(socket, layer) {
        return handle_told(socket, layer);
    }
    if socket.messages_ready_count() != 0 {
        handle_ready(socket, layer)?;
        return Ok(true);
    }
    if layer.has_ended {
        return Ok(false);
    }
    do_late(socket, layer)
}

// Takes the message that became ready first, and handles it.
fn handle_ready<S: DcSctpSocket>(socket: &mut S, layer: &mut Layer) -> Result<(), AllocError>
    requires { ready_below (S.user_view socket.old) ≢ 0 }
    ensures { PartGoes (λ done. HandlesReady) (whole_view (S.user_view socket.old) layer.old) result
        (whole_view (S.user_view socket.new) layer.new) }
{
    let Some(message) = socket.get_next_message() else {
        return Ok(());
    };
    layer.count_taken()?;
    handle_message(socket, layer, message)
}

// Is the first event to be handled now?
fn event_is_due<S: DcSctpSocket>(socket: &S, layer: &Layer) -> bool
    ensures { result ≡ event_is_due (whole_view (S.user_view socket.now) layer.now) }
{
    match layer.told.front() {
        Some(told) => !(layer.taken < told.after) || socket.messages_ready_count() == 0,
        None => false,
    }
}

fn handle_told<S: DcSctpSocket>(socket: &mut S, layer: &mut Layer) -> Result<bool, AllocError>
    ensures { PartGoes HandlesFirstReported (whole_view (S.user_view socket.old) layer.old) result
        (whole_view (S.user_view socket.new) layer.new) }
{
    match layer.told.pop_front() {
        Some(told) => {
            handle_event(socket, layer, told.event)?;
            Ok(true)
        }
        None => Ok(false),
    }
}
