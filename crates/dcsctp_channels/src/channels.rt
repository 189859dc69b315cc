//! The calls of a socket with channels.

ghost use Rattle.std.specs.Prelude.{◌≡◌, length};
ghost use Rattle.dcsctp_channel_calls.specs.api.types.Setting.{longest_message};
ghost use Rattle.dcsctp_channel_calls.specs.api.Calls.{with_setting};
ghost use Rattle.dcsctp_channel_calls.specs.api.Metrics.{ShowsMetrics};
ghost use Rattle.dcsctp_channel_calls.specs.api.spec.endpoint.TimeTurns.{next_moment};
ghost use Rattle.dcsctp_channel_calls.specs.Notices.{opening_of, polled_notice};
ghost use Rattle.dcsctp_channel_calls.specs.Queries.{channel_state, amount_on, threshold_on, traffic_on};
ghost use Rattle.dcsctp_channel_calls.specs.Calls.{Answers, SocketConnects, SocketHandlesInput, SocketAdvances, SocketCloses, SocketShutsDown, on_layer};
ghost use Rattle.dcsctp_channel_calls.specs.Sending.{SendsContent, channel_closed, SetsChannelThreshold, stream_of_name};
ghost use Rattle.dcsctp_channel_calls.specs.Opening.{SetsRole, OpensChannel};
ghost use Rattle.dcsctp_channel_calls.specs.Polls.{PollsChannels, deadline_with};
ghost use Rattle.dcsctp_channel_calls.specs.Handover.{channels_part, readiness_with_channels, HandsOverChannels, RestoresChannels};
ghost use Rattle.dcsctp_channel_calls.specs.api.types.Snapshot.{snapshot};
ghost use Rattle.dcsctp_channels.specs.Layer.{layer_view, fresh_layer};
ghost use Rattle.dcsctp_channels.specs.Shown.{channels_shown};

use crate::below::{advance_time, connect, handle_input, shutdown};
use crate::closing::{close, next_deadline};
use crate::handover::{hand_over, readiness, restore};
use crate::layer::Layer;
use crate::naming::open;
use crate::notices::close_socket;
use crate::opening::begin_waiting;
use crate::polling::poll;
use crate::queries::state_of;
use crate::sending::send;
use dcsctp_channel_calls::api::{
    DcSctpSocket, HandoverError, HandoverReadiness, Metrics, SocketFault, SocketTime, StreamId,
};
use dcsctp_channel_calls::channel_messages::channel_spec::Role;
use dcsctp_channel_calls::{
    ChannelError, ChannelEvent, ChannelId, ChannelOptions, ChannelState, ChannelTraffic,
    ChannelsHandoverState, Limits, RestoreChannelsError,
};
use std::alloc::Global;

/// The channels of one association, with its socket (RFC 8831). Once the association has ended, so has each channel,
/// for good: make another socket.
///
/// The loop is that of a socket: hand in packets and the time, take all events after each call. Packets come first,
/// then what happened in its order: messages come before the end that follows them, and stay in the receive window
/// until they are taken.
///
/// If an allocation fails, here or in the socket, the call returns `SocketFault::OutOfMemory`, and each later call
/// `SocketFault::Failed`. What is ready can still be taken.
pub struct Channels<S> {
    socket: S,
    layer: Layer,
}

impl<S: Drop> Drop for Channels<S> {
    fn drop(self) {
        let Channels {
            socket: _,
            layer: _,
        } = self;
    }
}

impl<S: DcSctpSocket + Drop> Channels<S> {
    /// Over a socket that was just made. Allocates nothing.
    pub fn new(alloc: Global, socket: S, limits: Limits) -> Channels<S>
        ensures { channels_shown S.user_view result ≡ record
            { below = S.user_view socket; layer = fresh_layer limits } }
    {
        Channels {
            socket,
            layer: Layer::new(alloc, limits),
        }
    }

    // ---- inputs and commands of the association

    /// Sets the role in DTLS, once it is known. Channels that were opened before get their streams then.
    pub fn set_role(&mut self, role: Role) -> Result<(), SocketFault>
        ensures { Answers (λ done. SetsRole role) (channels_shown S.user_view self.old) result
            (channels_shown S.user_view self.new) }
    {
        if self.layer.failed {
            return Err(SocketFault::Failed);
        }
        self.layer.role = Some(role);
        match begin_waiting(&mut self.socket, &mut self.layer) {
            Ok(()) => Ok(()),
            Err(_) => Err(self.layer.fail()),
        }
    }

    /// Begins the association. Both ends may.
    pub fn connect(&mut self) -> Result<(), SocketFault>
        ensures { Answers (λ done. SocketConnects) (channels_shown S.user_view self.old) result
            (channels_shown S.user_view self.new) }
    {
        if self.layer.failed {
            return Err(SocketFault::Failed);
        }
        match connect(&mut self.socket, &mut self.layer) {
            Ok(()) => Ok(()),
            Err(_) => Err(self.layer.fail()),
        }
    }

    /// Handles a packet of the peer.
    pub fn handle_input(&mut self, packet: &[u8]) -> Result<(), SocketFault>
        ensures { Answers (λ done. SocketHandlesInput packet.now)
            (channels_shown S.user_view self.old) result (channels_shown S.user_view self.new) }
    {
        if self.layer.failed {
            return Err(SocketFault::Failed);
        }
        match handle_input(&mut self.socket, &mut self.layer, packet) {
            Ok(()) => Ok(()),
            Err(_) => Err(self.layer.fail()),
        }
    }

    /// Sets the clock, and handles what is due.
    pub fn advance_time(&mut self, now: SocketTime) -> Result<(), SocketFault>
        ensures { Answers (λ done. SocketAdvances now) (channels_shown S.user_view self.old) result
            (channels_shown S.user_view self.new) }
    {
        if self.layer.failed {
            return Err(SocketFault::Failed);
        }
        match advance_time(&mut self.socket, &mut self.layer, now) {
            Ok(()) => Ok(()),
            Err(_) => Err(self.layer.fail()),
        }
    }

    /// When the next `advance_time` is due. Allocates nothing.
    pub fn poll_timeout(&self) -> SocketTime
        ensures { result ≡ deadline_with (S.user_view self.now.socket)
            (layer_view self.now.layer).streams (next_moment (S.user_view
            self.now.socket).endpoint) }
    {
        next_deadline(&self.socket, &self.layer)
    }

    /// Ends the association and all channels at once.
    pub fn abort(&mut self) -> Result<(), SocketFault>
        ensures { Answers (λ done. SocketCloses) (channels_shown S.user_view self.old) result
            (channels_shown S.user_view self.new) }
    {
        if self.layer.failed {
            return Err(SocketFault::Failed);
        }
        match close_socket(&mut self.socket, &mut self.layer) {
            Ok(()) => Ok(()),
            Err(_) => Err(self.layer.fail()),
        }
    }

    /// Shuts the association down: messages go first, and then all channels end.
    pub fn shutdown(&mut self) -> Result<(), SocketFault>
        ensures { Answers (λ done. SocketShutsDown) (channels_shown S.user_view self.old) result
            (channels_shown S.user_view self.new) }
    {
        if self.layer.failed {
            return Err(SocketFault::Failed);
        }
        match shutdown(&mut self.socket, &mut self.layer) {
            Ok(()) => Ok(()),
            Err(_) => Err(self.layer.fail()),
        }
    }

    /// Sets how many bytes a message may have from now on, as the peer's SDP says. Allocates nothing.
    pub fn set_max_message_size(&mut self, bytes: usize)
        ensures { channels_shown S.user_view self.new ≡ record (channels_shown S.user_view self.old)
            { below = with_setting (longest_message bytes) (S.user_view self.old.socket) } }
    {
        self.socket.set_max_message_size(bytes);
    }

    // ---- commands of a channel

    /// Opens a channel. Messages can be sent as soon as its state is `Open`. `ChannelEvent::Opened` says that the peer
    /// knows it.
    pub fn open(
        &mut self,
        options: &ChannelOptions,
    ) -> Result<Result<ChannelId, ChannelError>, SocketFault>
        ensures { Answers (OpensChannel (opening_of options.now) options.now.negotiated)
            (channels_shown S.user_view self.old) result (channels_shown S.user_view self.new) }
    {
        if self.layer.failed {
            return Err(SocketFault::Failed);
        }
        match open(&mut self.socket, &mut self.layer, options) {
            Ok(answer) => Ok(answer),
            Err(_) => Err(self.layer.fail()),
        }
    }

    /// Sends a message, which may be empty (RFC 8831, section 6.6). Text is UTF-8; this is the caller's to see to.
    pub fn send(
        &mut self,
        id: ChannelId,
        is_text: bool,
        bytes: &[u8],
    ) -> Result<Result<(), ChannelError>, SocketFault>
        ensures { Answers (SendsContent id.0 (record { is_text = is_text; bytes = bytes.now }))
            (channels_shown S.user_view self.old) result (channels_shown S.user_view self.new) }
    {
        if self.layer.failed {
            return Err(SocketFault::Failed);
        }
        match send(&mut self.socket, &mut self.layer, id, is_text, bytes) {
            Ok(answer) => Ok(answer),
            Err(_) => Err(self.layer.fail()),
        }
    }

    /// Closes a channel once all that was sent has left. What comes from now on is dropped. On one that is closed it
    /// does nothing.
    pub fn close(&mut self, id: ChannelId) -> Result<(), SocketFault>
        ensures { Answers (λ done old new. new ≡ on_layer (channel_closed id.0) old)
            (channels_shown S.user_view self.old) result (channels_shown S.user_view self.new) }
    {
        if self.layer.failed {
            return Err(SocketFault::Failed);
        }
        match close(&mut self.layer, id) {
            Ok(()) => Ok(()),
            Err(_) => Err(self.layer.fail()),
        }
    }

    /// Sets the low threshold of a channel that has a stream, in bytes; it is 0 at first.
    /// `ChannelEvent::BufferedAmountLow` comes when its buffered amount falls from above the threshold to it or below.
    pub fn set_buffered_amount_low_threshold(
        &mut self,
        id: ChannelId,
        bytes: usize,
    ) -> Result<Result<(), ChannelError>, SocketFault>
        ensures { Answers (SetsChannelThreshold id.0 bytes) (channels_shown S.user_view self.old)
            result (channels_shown S.user_view self.new) }
    {
        if self.layer.failed {
            return Err(SocketFault::Failed);
        }
        let Some(stream) = self.layer.table.stream_of(id.0) else {
            return Ok(Err(ChannelError::NotOpen));
        };
        match self
            .socket
            .set_buffered_amount_low_threshold(StreamId(stream), bytes)
        {
            Ok(()) => Ok(Ok(())),
            Err(_) => Err(self.layer.fail()),
        }
    }

    // ---- handover

    /// Why the socket and its channels can't be handed over now, as bits; 0 if they can. Beside the socket's reasons
    /// `WRONG_CONNECTION_STATE` says that there is no association, `CHANNELS_UNSETTLED` that a channel waits for its
    /// stream, is closing or refused, or that its ACK isn't sent, and `EVENTS_NOT_TAKEN` that a poll has something to
    /// return or to handle; what a call since the last poll has added doesn't count yet. Allocates nothing.
    pub fn get_handover_readiness(&self) -> HandoverReadiness
        ensures { result.0 ≡ readiness_with_channels (channels_shown S.user_view self.now) }
    {
        readiness(&self.socket, &self.layer)
    }

    /// Hands the socket over with its channels: returns their snapshot, and ends the association here. Nothing is sent
    /// to the peer. No channel is said to have ended, since they go on where the snapshot is restored; the last event
    /// is `ChannelEvent::Ended`. Low thresholds aren't carried, as with a socket alone.
    ///
    /// `HandoverError::NotReady`: the reasons are those of `get_handover_readiness` once the socket's events were taken
    /// over. Nothing else has changed.
    pub fn get_handover_state_and_close(
        &mut self,
    ) -> Result<Result<ChannelsHandoverState, HandoverError>, SocketFault>
        ensures { Answers HandsOverChannels (channels_shown S.user_view self.old) result
            (channels_shown S.user_view self.new) }
    {
        if self.layer.failed {
            return Err(SocketFault::Failed);
        }
        match hand_over(&mut self.socket, &mut self.layer) {
            Ok(answer) => Ok(answer),
            Err(_) => Err(self.layer.fail()),
        }
    }

    /// Restores a new socket with its channels: the association continues here, and each channel under its name. The
    /// first event is `ChannelEvent::Connected`; nothing else is said of the channels that continue. The role is that of
    /// the snapshot, and low thresholds are 0. Advance the time before, as for a socket alone.
    ///
    /// `RestoreChannelsError` if the socket isn't new or the snapshot isn't valid. Nothing has changed.
    pub fn restore_from_state(
        &mut self,
        state: &ChannelsHandoverState,
    ) -> Result<Result<(), RestoreChannelsError>, SocketFault>
        ensures { Answers (RestoresChannels (snapshot state.now.socket)
            (channels_part state.now.channels)) (channels_shown S.user_view self.old) result
            (channels_shown S.user_view self.new) }
    {
        if self.layer.failed {
            return Err(SocketFault::Failed);
        }
        match restore(&mut self.socket, &mut self.layer, state) {
            Ok(answer) => Ok(answer),
            Err(_) => Err(self.layer.fail()),
        }
    }

    // ---- queries, which allocate nothing

    /// The socket below, for its queries.
    pub fn socket(&self) -> &S
        ensures { result.now ≡ self.now.socket }
    {
        &self.socket
    }

    /// Did an allocation fail in an earlier call?
    pub fn has_failed(&self) -> bool
        ensures { result ≡ (layer_view self.now.layer).failed }
    {
        self.layer.failed
    }

    /// The state of a channel.
    pub fn state(&self, id: ChannelId) -> ChannelState
        ensures { result ≡ channel_state (layer_view self.now.layer) id.0 }
    {
        state_of(&self.layer, id)
    }

    /// The stream of a channel, if it has one.
    pub fn stream_of(&self, id: ChannelId) -> Option<u16>
        ensures { result ≡ stream_of_name (layer_view self.now.layer) id.0 }
    {
        self.layer.table.stream_of(id.0)
    }

    /// How many bytes wait to be sent on a channel.
    pub fn buffered_amount(&self, id: ChannelId) -> usize
        ensures { result ≡ amount_on (S.user_view self.now.socket)
            (stream_of_name (layer_view self.now.layer) id.0) }
    {
        match self.layer.table.stream_of(id.0) {
            Some(stream) => self.socket.buffered_amount(StreamId(stream)),
            None => 0,
        }
    }

    /// The low threshold of a channel, in bytes.
    pub fn buffered_amount_low_threshold(&self, id: ChannelId) -> usize
        ensures { result ≡ threshold_on (S.user_view self.now.socket)
            (stream_of_name (layer_view self.now.layer) id.0) }
    {
        match self.layer.table.stream_of(id.0) {
            Some(stream) => self.socket.buffered_amount_low_threshold(StreamId(stream)),
            None => 0,
        }
    }

    /// What was counted of a channel that has a stream.
    pub fn traffic(&self, id: ChannelId) -> Option<ChannelTraffic>
        ensures { result ≡ traffic_on (stream_of_name (layer_view self.now.layer) id.0)
            (layer_view self.now.layer) }
    {
        let stream = self.layer.table.stream_of(id.0)?;
        let held = self.layer.table.at(stream)?;
        Some(held.traffic)
    }

    /// How many streams are in use.
    pub fn stream_use(&self) -> usize
        ensures { result ≡ length (layer_view self.now.layer).streams }
    {
        self.layer.table.channels.len()
    }

    /// What the socket counts, and how its association is; `None` where the peer isn't known.
    pub fn metrics(&self) -> Option<Metrics>
        ensures { ShowsMetrics (S.user_view self.now.socket).endpoint result }
    {
        self.socket.get_metrics()
    }

    // ---- polls

    /// Takes what happened first. Take all before each packet that is handed in, and before you wait: what is
    /// answered to the peer is answered here.
    pub fn poll_event(&mut self) -> Result<Option<ChannelEvent>, SocketFault>
        ensures { PollsChannels (channels_shown S.user_view self.old) (polled_notice result)
            (channels_shown S.user_view self.new) }
    {
        if self.layer.failed {
            return match self.layer.take_first() {
                Some(event) => Ok(Some(event)),
                None => Err(SocketFault::Failed),
            };
        }
        match poll(&mut self.socket, &mut self.layer) {
            Ok(event) => Ok(event),
            Err(_) => Err(self.layer.fail()),
        }
    }
}
