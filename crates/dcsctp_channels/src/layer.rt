//! What the layer keeps beside its socket, and what all its parts do with it.

ghost use Rattle.std.specs.Prelude.{◌≡◌, ◌+◌, true, [], ◌∷◌, map, IfSome, IfNone};
ghost use Rattle.dcsctp_channel_calls.specs.api.declared.errors.SocketFault.TheVariants.{OutOfMemory};
ghost use Rattle.dcsctp_channel_calls.specs.api.types.ByResult.{ByResult};
ghost use Rattle.dcsctp_channel_calls.specs.api.types.Ids.{stream_numbers};
ghost use Rattle.dcsctp_channel_calls.specs.Notices.{notice_of};
ghost use Rattle.dcsctp_channel_calls.specs.View.{of_channel, held_stream_numbered, held_from, went_on};
ghost use Rattle.dcsctp_channel_calls.specs.Sending.{row_taken_if_held};
ghost use Rattle.dcsctp_channel_calls.specs.Events.{with_notices, rows_taken};
ghost use Rattle.dcsctp_channel_calls.specs.Polls.{TakesNotice, NothingToTake};
ghost use Rattle.dcsctp_channels.specs.Layer.{layer_view, fresh_layer, Leaves, layer_with_stream, stream_left};
ghost use Rattle.dcsctp_channels.specs.Rows.{row_input, step_taken, notice_reports};

use crate::rows::{self, Notice, Row, Step};
use crate::table::Table;
use dcsctp_channel_calls::api::{SocketEvent, SocketFault, SocketTime, StreamId};
use dcsctp_channel_calls::channel_messages::channel_spec::{Delivery, Role, StreamUse};
use dcsctp_channel_calls::{ChannelEvent, ChannelId, ChannelTraffic, HeldStream, Limits};
use std::alloc::{AllocError, Global};
use std::collections::VecDeque;

/// An event of the socket, and how many messages became ready before it.
#[derive(Drop)]
pub(crate) struct Told {
    pub(crate) after: u64,
    pub(crate) event: SocketEvent,
}

/// A channel that waits for its stream.
#[derive(Drop)]
pub(crate) struct Waiting {
    pub(crate) id: ChannelId,

    // Its OPEN.
    pub(crate) payload: Vec<u8>,
    pub(crate) delivery: Delivery,
    pub(crate) negotiated: Option<u16>,
}

/// What the layer keeps beside its socket.
#[derive(Drop)]
pub(crate) struct Layer {
    pub(crate) alloc: Global,
    pub(crate) role: Option<Role>,
    pub(crate) limits: Limits,

    // An allocation failed: nothing is done any more.
    pub(crate) failed: bool,
    pub(crate) is_connected: bool,
    pub(crate) has_ended: bool,

    // The socket has refused no control message since the last packet or moment.
    pub(crate) has_room: bool,
    pub(crate) moment: SocketTime,
    pub(crate) table: Table,

    // Channels that have no stream yet, oldest first.
    pub(crate) waiting: VecDeque<Waiting>,

    // How many channels were ever named here.
    pub(crate) named: u64,

    // What the socket has told and isn't handled yet, and how many messages were taken.
    pub(crate) told: VecDeque<Told>,
    pub(crate) taken: u64,

    // What the user takes: packets first.
    pub(crate) packets: VecDeque<Vec<u8>>,
    pub(crate) ready: VecDeque<ChannelEvent>,
}

impl Layer {
    /// Nothing yet. Allocates nothing.
    pub(crate) fn new(alloc: Global, limits: Limits) -> Layer
        ensures { layer_view result ≡ fresh_layer limits }
    {
        Layer {
            alloc,
            role: None,
            limits,
            failed: false,
            is_connected: false,
            has_ended: false,
            has_room: true,
            moment: SocketTime::zero(),
            table: Table::new(alloc),
            waiting: VecDeque::new(alloc),
            named: 0,
            told: VecDeque::new(alloc),
            taken: 0,
            packets: VecDeque::new(alloc),
            ready: VecDeque::new(alloc),
        }
    }

    /// A name that was never given before. `Err`: there is none left.
    pub(crate) fn name(&mut self) -> Result<ChannelId, AllocError>
        ensures { ByResult (λ id. (id.0 ≡ self.old.named) ×
            (layer_view self.new ≡ record (layer_view self.old) { named = self.old.named + 1 }))
            (layer_view self.new ≡ layer_view self.old) result }
    {
        let id = ChannelId(self.named);
        let Some(next) = self.named.checked_add(1) else {
            return Err(AllocError);
        };
        self.named = next;
        Ok(id)
    }

    /// One more message was taken. `Err`: they can't be counted any more.
    pub(crate) fn count_taken(&mut self) -> Result<(), AllocError>
        ensures { ByResult (λ done. layer_view self.new ≡ record (layer_view self.old)
            { taken = self.old.taken + 1 }) (layer_view self.new ≡ layer_view self.old) result }
    {
        let Some(next) = self.taken.checked_add(1) else {
            return Err(AllocError);
        };
        self.taken = next;
        Ok(())
    }

    /// An allocation has failed.
    pub(crate) fn fail(&mut self) -> SocketFault
        ensures fault { result ≡ OutOfMemory }
        ensures fails { layer_view self.new ≡ record (layer_view self.old) { failed = true } }
    {
        self.failed = true;
        SocketFault::OutOfMemory
    }

    /// Takes what is first, if there is something to take: packets come first.
    pub(crate) fn take_first(&mut self) -> Option<ChannelEvent>
        ensures some { IfSome result (λ event. TakesNotice (layer_view self.old) (notice_of event)
            (layer_view self.new)) }
        ensures none { IfNone result (NothingToTake (layer_view self.old) ×
            (layer_view self.new ≡ layer_view self.old)) }
        ensures runs { self.new.failed ≡ self.old.failed }
    {
        match self.packets.pop_front() {
            Some(packet) => Some(ChannelEvent::SendPacket(packet)),
            None => self.ready.pop_front(),
        }
    }

    /// Adds what the user takes.
    pub(crate) fn report(&mut self, event: ChannelEvent) -> Result<(), AllocError>
        ensures { ByResult (λ done. layer_view self.new ≡ with_notices (notice_of event ∷ [])
            (layer_view self.old)) (layer_view self.new ≡ layer_view self.old) result }
    {
        self.ready.push_back(event)?;
        Ok(())
    }

    /// Puts a stream into use, or changes its use, whose channel had this name.
    pub(crate) fn put(
        &mut self,
        stream: u16,
        old: Option<u64>,
        held: HeldStream,
    ) -> Result<(), AllocError>
        ensures { Leaves (layer_with_stream stream old held (layer_view self.old))
            (layer_view self.old) result (layer_view self.new) }
    {
        self.table.rename(stream, old, held.stream.name)?;
        self.table.put(stream, held)
    }
}

/// A stream that comes into use.
pub(crate) fn begun(now: SocketTime, delivery: Delivery, stream: StreamUse) -> HeldStream
    ensures { result ≡ held_from now delivery stream }
{
    HeldStream {
        stream,
        delivery,
        closing_since: now,
        traffic: ChannelTraffic {
            messages_sent: 0,
            bytes_sent: 0,
            messages_received: 0,
            bytes_received: 0,
        },
    }
}

/// A stream that stays in use; its close is timed.
pub(crate) fn went_on(now: SocketTime, held: &HeldStream, stream: StreamUse) -> HeldStream
    ensures { result ≡ went_on now held.now stream }
{
    let mut after = *held;
    if stream.closing && !held.stream.closing {
        after.closing_since = now;
    }
    after.stream = stream;
    after
}

/// Adds what a row reports.
pub(crate) fn report_notice(layer: &mut Layer, notice: Option<Notice>) -> Result<(), AllocError>
    ensures { ByResult (λ done. layer_view layer.new ≡ with_notices
        (map of_channel (notice_reports notice)) (layer_view layer.old))
        (layer_view layer.new ≡ layer_view layer.old) result }
{
    match notice {
        None => Ok(()),
        Some(Notice::Opened(name)) => layer.report(ChannelEvent::Opened(ChannelId(name))),
        Some(Notice::Ended(name, why)) => layer.report(ChannelEvent::Closed(ChannelId(name), why)),
    }
}

/// Leaves a stream as a row says.
pub(crate) fn leave(
    layer: &mut Layer,
    stream: u16,
    held: &HeldStream,
    after: Option<StreamUse>,
) -> Result<(), AllocError>
    ensures { Leaves (stream_left stream held.now after (layer_view layer.old))
        (layer_view layer.old) result (layer_view layer.new) }
{
    match after {
        Some(after) => layer.put(stream, held.stream.name, went_on(layer.moment, held, after)),
        None => {
            layer.table.rename(stream, held.stream.name, None)?;
            layer.table.free(stream);
            Ok(())
        }
    }
}

// Takes a row's step on a stream in use.
fn take_step(
    layer: &mut Layer,
    stream: u16,
    held: &HeldStream,
    step: Step,
) -> Result<(), AllocError>
    ensures { Leaves (step_taken stream held.now step (layer_view layer.old)) (layer_view layer.old)
        result (layer_view layer.new) }
{
    report_notice(layer, step.notice)?;
    leave(layer, stream, held, step.after)
}

/// Takes a row on a stream, if that is in use.
pub(crate) fn take_row(layer: &mut Layer, stream: u16, row: Row) -> Result<(), AllocError>
    ensures { Leaves (row_taken_if_held (held_stream_numbered (layer_view layer.old) stream) stream
        (row_input row) (layer_view layer.old)) (layer_view layer.old) result
        (layer_view layer.new) }
{
    match layer.table.at(stream) {
        Some(held) => take_step(layer, stream, &held, rows::step_of(row, held.stream)),
        None => Ok(()),
    }
}

/// Takes the same row on each of these streams that is in use.
pub(crate) fn take_rows(layer: &mut Layer, streams: &[StreamId], row: Row) -> Result<(), AllocError>
    ensures { Leaves (rows_taken (stream_numbers streams.now) (row_input row)
        (layer_view layer.old)) (layer_view layer.old) result (layer_view layer.new) }
{
    for stream in streams {
        take_row(layer, stream.0, row)?;
    }
    Ok(())
}
