//! The calls of a socket.

ghost use Rattle.std.specs.Prelude.{◌≡◌, ◌≢◌, [], true, false, None, IsOk, ◌<◌, map, length};
ghost use Rattle.dcsctp_api.specs.Calls.{UserView, PollsEvent, HandlesInput, Connects, ClosesSocket, ShutsDown, takes_shutdown, Sets, with_setting, stream_shown, is_closed, socket_state_of};
ghost use Rattle.dcsctp_api.specs.Handover.{HandsOver, RestoresSocket};
ghost use Rattle.dcsctp_api.specs.Messages.{SendsMessage, SendsMany, TakesNextMessage, ready_messages, incoming_streams};
ghost use Rattle.dcsctp_spec_lemmas.specs.spec.queues.Incoming.{AreInOrder};
ghost use Rattle.dcsctp_spec_lemmas.specs.spec.queues.SendQueue.{IsWellFormed};
ghost use Rattle.dcsctp_api.specs.Metrics.{ShowsMetrics};
ghost use Rattle.dcsctp_api.specs.Resets.{ResetsOwn};
ghost use Rattle.dcsctp_spec_lemmas.specs.spec.Handover.{readiness_of};
ghost use Rattle.dcsctp_spec_lemmas.specs.types.Ids.{stream_numbers};
ghost use Rattle.dcsctp_spec_lemmas.specs.types.Snapshot.{snapshot, is_valid_snapshot};
ghost use Rattle.dcsctp_spec_lemmas.specs.spec.HandoverInputs.{inputs_of_restore};
ghost use Rattle.dcsctp_spec_lemmas.specs.types.queues.Messages.{message_content};
ghost use Rattle.dcsctp_spec_lemmas.specs.spec.endpoint.PreparedResets.{reset_refusal};
ghost use Rattle.dcsctp_spec_lemmas.specs.types.Setting.{stream_priority, stream_low_threshold, longest_message};
ghost use Rattle.dcsctp_spec_lemmas.specs.spec.endpoint.TimeTurns.{Waits, next_moment};
ghost use Rattle.dcsctp_api.specs.Time.{AdvancesClock, OnlyMovesClock};

use crate::errors::{
    BatchSendError, HandoverError, ResetStreamsError, RestoreError, SendError, SocketFault,
};
use crate::events::SocketEvent;
use crate::metrics::Metrics;
use crate::state::SocketState;
use dcsctp_spec_lemmas::types::{
    HandoverReadiness, Message, Options, SendOptions, SocketHandoverState, SocketTime, StreamId,
};

/// The calls of an SCTP socket that makes no system call: packets go in, events come out.
///
/// A call that allocates returns `SocketFault::OutOfMemory` if an allocation failed. From then on the socket
/// has failed: each such call returns `SocketFault::Failed` and changes nothing. Events can still be polled,
/// and queries still answer.
///
/// Where a call says that it allocates nothing, its contract says that it never returns
/// `SocketFault::OutOfMemory`: it has no `Result`, or a clause makes that `Ok` unless the socket has failed.
/// No clause says more. The tests in dcsctp_socket_refusal_tests refuse each allocation of several exchanges
/// in turn, and every allocation while such a call runs.
pub trait DcSctpSocket {
    // What a socket is to its user.
    ghost user_view: { Self → UserView };

    /// Takes the event that was added first, if there is one. Allocates nothing.
    fn poll_event(&mut self) -> Option<SocketEvent>
        ensures { PollsEvent (user_view self.old) result (user_view self.new) };

    /// Handles a packet from the peer (RFC 9260, sections 5 and 8).
    ///
    /// Each packet is counted. One that can't be read, or has a wrong verification tag, adds one
    /// `SocketEvent::OnError`. It changes nothing else, and no random word is drawn.
    fn handle_input(&mut self, packet: &[u8]) -> Result<(), SocketFault>
        ensures { HandlesInput (user_view self.old) packet.now result (user_view self.new) };

    /// Begins an association (RFC 9260, section 5.1): draws a tag and a first TSN, and sends an INIT if it
    /// fits `mtu`. On a socket that isn't closed it returns `Ok`, changes nothing and draws no random word.
    /// If an allocation fails, nothing has changed but the words that were drawn, and that the socket has
    /// failed.
    fn connect(&mut self) -> Result<(), SocketFault>
        ensures call { Connects (user_view self.old) result (user_view self.new) }
        ensures open { (user_view self.old).failed ≡ false
            → is_closed (user_view self.old).endpoint.core ≡ false → IsOk result };

    /// Ends the association at once (RFC 9260, section 9.1). If the peer is known, an ABORT is sent, if it
    /// fits `mtu`. The last event is `SocketEvent::OnClosed`. On a closed socket it returns `Ok`, changes
    /// nothing and allocates nothing.
    fn close(&mut self) -> Result<(), SocketFault>
        ensures call { ClosesSocket (user_view self.old) result (user_view self.new) }
        ensures closed { (user_view self.old).failed ≡ false
            → is_closed (user_view self.old).endpoint.core ≡ true → IsOk result };

    /// Shuts the association down (RFC 9260, section 9.2). A SHUTDOWN is sent once all that was sent is
    /// acknowledged or abandoned. `SocketEvent::OnClosed` follows when the peer has answered. From now on no
    /// message is accepted. Messages that wait in the queue may be lost; with `Options::follow_rfc` those that
    /// can be sent go first. If no peer has answered the INIT yet, the association ends at once. If its COOKIE
    /// ACK is awaited, it never connects. On a closed socket, and on one that is shutting down, it returns
    /// `Ok`, changes nothing and allocates nothing.
    fn shutdown(&mut self) -> Result<(), SocketFault>
        ensures call { ShutsDown (user_view self.old) result (user_view self.new) }
        ensures idle { (user_view self.old).failed ≡ false
            → takes_shutdown (user_view self.old).endpoint.core ≡ false → IsOk result };

    /// Sets the clock to `now`, and handles what is due. If T1 has expired (RFC 9260, section 5.1), the INIT
    /// or COOKIE ECHO is sent again; with no restart left, the association ends with
    /// `SocketEvent::OnAborted`. On an open association a HEARTBEAT is sent each `heartbeat_interval`, and
    /// one that isn't answered in time counts an error (RFC 9260, section 8.3). Data that wasn't acknowledged
    /// in time is sent again, and so is a request to reset streams that wasn't answered. The association is
    /// aborted if a timer has expired, the peer is known and more than `max_retransmissions` errors were
    /// counted (RFC 9260, section 8.1). Then an ABORT is sent, and the event is `SocketEvent::OnAborted`.
    ///
    /// A moment before the present one changes nothing, and allocates nothing. Any other that is before the
    /// answer of `poll_timeout` only moves the clock. The exception is a socket that awaits a COOKIE ACK:
    /// there an acknowledgement may be due, of which `poll_timeout` says nothing.
    fn advance_time(&mut self, now: SocketTime) -> Result<(), SocketFault>
        ensures call { AdvancesClock (user_view self.old) now result (user_view self.new) }
        ensures earlier { (user_view self.old).failed ≡ false
            → now < (user_view self.old).endpoint.moment → IsOk result }
        ensures waits { (user_view self.old).failed ≡ false
            → Waits (user_view self.old).endpoint now
            → OnlyMovesClock (user_view self.old) now result (user_view self.new) };

    /// The socket's next deadline, never before the present moment; `SocketTime::infinite_future()` if there
    /// is none. During the handshake it is T1's. On an open association it is the first of its timers'
    /// deadlines: of heartbeats, data, acknowledgements, a request to reset streams, and T2. Allocates
    /// nothing.
    fn poll_timeout(&self) -> SocketTime
        ensures { result ≡ next_moment (user_view self.now).endpoint };

    /// Sends a message: it waits after the others of its stream. If the peer is known, what waits is sent as
    /// far as the windows allow (RFC 9260, section 6.1). On a closed socket, and during the handshake, it is
    /// kept. A message that is refused adds `SocketEvent::OnLifecycleEnd` if it has a name, and then
    /// `SocketEvent::OnError`; nothing else changes, and nothing is sent.
    fn send(
        &mut self,
        message: Message,
        options: &SendOptions,
    ) -> Result<Result<(), SendError>, SocketFault>
        ensures { SendsMessage (message_content message) options.now (user_view self.old) result
            (user_view self.new) };

    /// Sends several messages, all with the same options, as `send` does one after another. But what waits is
    /// sent only once, after the last, if one of them was accepted. Without messages nothing happens.
    fn send_many(
        &mut self,
        messages: Vec<Message>,
        options: &SendOptions,
    ) -> Result<Result<(), BatchSendError>, SocketFault>
        ensures { SendsMany (map message_content messages.items) options.now (user_view self.old)
            result (user_view self.new) };

    /// Resets streams (RFC 6525, section 5.1.2), one after another. Their messages that haven't been started
    /// are dropped, with the events of other messages that are abandoned. No other message is started on them
    /// until the reset was performed, or failed. A stream that already waits for a reset is unchanged. Then
    /// what waits is sent. If no other reset is outstanding, the request goes with it, for the streams of
    /// which no message is under way. It names as many of them as fit into the packet; the others follow once
    /// that is answered.
    ///
    /// It is refused if the peer isn't known, or if resets weren't negotiated. Then nothing changes, no event is
    /// added, and nothing is allocated.
    fn reset_streams(
        &mut self,
        stream_ids: &[StreamId],
    ) -> Result<Result<(), ResetStreamsError>, SocketFault>
        ensures call { ResetsOwn (stream_numbers stream_ids.now) (user_view self.old) result
            (user_view self.new) }
        ensures refused { (user_view self.old).failed ≡ false
            → reset_refusal (user_view self.old).endpoint ≢ None → IsOk result };

    /// Takes the message that became ready first, if one is ready, and gives its bytes back to the receive
    /// window. With `Options::follow_rfc` that may make an acknowledgement due at once, so ask `poll_timeout`
    /// again. Allocates nothing, and works on a socket that has failed, too.
    ///
    /// Messages that weren't taken when their association ended are lost. With `Options::follow_rfc` they can
    /// be taken until the next association begins, which starts without messages.
    fn get_next_message(&mut self) -> Option<Message>
        ensures { TakesNextMessage (user_view self.old) result (user_view self.new) };

    /// How many messages can be taken. Allocates nothing.
    fn messages_ready_count(&self) -> usize
        ensures { result ≡ length (ready_messages (user_view self.now).endpoint) };

    /// What was counted over the socket's life, and how its association is; `None` where the peer isn't known.
    /// Allocates nothing.
    fn get_metrics(&self) -> Option<Metrics>
        ensures { ShowsMetrics (user_view self.now).endpoint result };

    /// Why the socket can't be handed over to another process now. A closed socket can; else an association has
    /// to be established, and nothing of it may be unfinished. With the option
    /// `enable_handover_with_outstanding_data` what is sent may be unfinished. Messages that are ready make no
    /// difference, but the snapshot doesn't have them: take them first. Each stream is once in what was received.
    /// Allocates nothing.
    fn get_handover_readiness(&self) -> HandoverReadiness
        ensures reasons { result.0 ≡ readiness_of (user_view self.now).endpoint }
        ensures streams { AreInOrder (incoming_streams (user_view self.now).endpoint) };

    /// Hands the socket over to another process: returns its snapshot, from which a socket there is restored,
    /// and ends the association here. Nothing is sent to the peer, and the last event is `SocketEvent::OnClosed`. The
    /// snapshot has what waits and what is in flight, too, with the option
    /// `enable_handover_with_outstanding_data`. What waits stays here as well, so drop this socket. On a closed
    /// one the snapshot is that of a closed socket, and nothing happens. Each snapshot is valid for the options
    /// of the socket that gave it (`SocketHandoverState::is_valid`).
    ///
    /// `HandoverError::NotReady`: the socket can't be handed over now, for the reasons that
    /// `get_handover_readiness` gives. Nothing has changed, and nothing is allocated. If an allocation fails,
    /// nothing has changed but that the socket has failed.
    fn get_handover_state_and_close(
        &mut self,
    ) -> Result<Result<SocketHandoverState, HandoverError>, SocketFault>
        ensures call { HandsOver (user_view self.old) result (user_view self.new) }
        ensures refused { (user_view self.old).failed ≡ false
            → readiness_of (user_view self.old).endpoint ≢ 0 → IsOk result };

    /// Restores a closed socket from a snapshot, which another socket with these options gave: its association
    /// continues here, with its tags, numbers and streams. The event is `SocketEvent::OnConnected`, and then what
    /// waits is sent. What waited here before is dropped. No heartbeat is sent until data is. Use each
    /// snapshot once: two sockets that continue from it confuse the peer. The snapshot of a closed socket changes
    /// nothing.
    ///
    /// What was sent before this socket's moment zero, or was over then, counts as at moment zero. So advance the
    /// time of a new socket before you restore it, by a minute say.
    ///
    /// The snapshot must be valid for the options of this socket: see `SocketHandoverState::is_valid`.
    /// `RestoreError::SocketNotClosed`: the socket has an association, or begins one. Nothing has changed, and
    /// nothing is allocated.
    fn restore_from_state(
        &mut self,
        state: &SocketHandoverState,
    ) -> Result<Result<(), RestoreError>, SocketFault>
        requires { is_valid_snapshot (user_view self.old).endpoint.options (snapshot state.now)
            ≡ true }
        ensures call { RestoresSocket (snapshot state.now) (user_view self.old) result
            (user_view self.new) }
        ensures idle { (user_view self.old).failed ≡ false
            → inputs_of_restore (user_view self.old).endpoint.core (snapshot state.now) ≡ []
            → IsOk result };

    /// The state of the association.
    fn state(&self) -> SocketState
        ensures { result ≡ socket_state_of (user_view self.now).endpoint.core };

    /// The options that the socket was made with, with the greatest message size as it was set last.
    /// Allocates nothing.
    fn options(&self) -> Options
        ensures { result ≡ (user_view self.now).endpoint.options };

    /// Sets how many bytes a message may have from now on. Allocates nothing, and works on a socket that has
    /// failed, too.
    fn set_max_message_size(&mut self, max_message_size: usize)
        ensures { user_view self.new
            ≡ with_setting (longest_message max_message_size) (user_view self.old) };

    /// Sets the priority of a stream. Of the streams with messages that wait, one of the greatest priority is
    /// sent first. It outlasts an association. A stream that isn't set has `default_stream_priority`.
    fn set_stream_priority(&mut self, stream_id: StreamId, priority: u16) -> Result<(), SocketFault>
        ensures { Sets (stream_priority stream_id.0 priority) (user_view self.old) result
            (user_view self.new) };

    /// The priority of a stream. Allocates nothing.
    fn get_stream_priority(&self, stream_id: StreamId) -> u16
        ensures { result ≡ (stream_shown (user_view self.now) stream_id.0).priority };

    /// The payload bytes that wait to be sent on a stream. Allocates nothing. Each stream is there once, and a
    /// message of which some fragments were sent is the oldest of its stream.
    fn buffered_amount(&self, stream_id: StreamId) -> usize
        ensures amount { result ≡ (stream_shown (user_view self.now) stream_id.0).amount }
        ensures queue { IsWellFormed (user_view self.now).endpoint.queues.queue };

    /// The low threshold of a stream, in bytes. `SocketEvent::OnBufferedAmountLow` is added when its buffered
    /// amount falls from above the threshold to it or below. Allocates nothing.
    fn buffered_amount_low_threshold(&self, stream_id: StreamId) -> usize
        ensures { result ≡ (stream_shown (user_view self.now) stream_id.0).threshold };

    /// Sets the low threshold of a stream, and adds no event. It outlasts an association. A stream that isn't
    /// set has `default_stream_buffered_amount_low_threshold`.
    fn set_buffered_amount_low_threshold(
        &mut self,
        stream_id: StreamId,
        bytes: usize,
    ) -> Result<(), SocketFault>
        ensures { Sets (stream_low_threshold stream_id.0 bytes) (user_view self.old) result
            (user_view self.new) };
}
