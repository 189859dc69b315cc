//! The socket.

ghost use Rattle.dcsctp_socket.specs.SocketView.{SettlesCall};

use dcsctp_core::api::handover::SocketHandoverState;
use dcsctp_core::api::{
    Association, BatchSendError, Counts, DcSctpSocket, HandoverError, HandoverReadiness, Message,
    Metrics, Options, Pair, ResetStreamsError, RestoreError, SendError, SendOptions, SocketEvent,
    SocketFault, SocketState, SocketTime, StreamId, Word,
};
use dcsctp_core::{
    Context, Deadlines, State, free_spares, is_quiet, keep_spare, list_deadlines, poll_timeout,
};
use dcsctp_spec_laws::{calls_keep_soundness, time_passes_quietly};
use rand_core::Rng;
use std::alloc::{AllocError, Global};
use std::marker::Model;

/// One end of an SCTP association.
pub struct Socket<R> {
    name: String,

    // In a box, so that a socket is cheap to move.
    context: Box<Context<R>>,

    failed: bool,

    // The running deadlines. Each call that may move a timer ends by making the list again.
    deadlines: Deadlines,
}

// Written out, so that the drop of all that a socket holds is proved here once, and not in each crate that
// drops a socket.
impl<R: Drop> Drop for Socket<R> {
    fn drop(self) {
        let Socket {
            name: _,
            context: _,
            failed: _,
            deadlines: _,
        } = self;
    }
}

impl<R> Model for Socket<R> {
    ghost use Rattle.std.specs.Prelude.{◌≡◌, false};
    ghost use Rattle.dcsctp_core.specs.spec.Soundness.{IsSound};
    ghost use Rattle.dcsctp_core.specs.Timeout.{ListsDeadlines};
    ghost use Rattle.dcsctp_core.specs.View.{endpoint_of, view_of};
    ghost use Rattle.dcsctp_socket.specs.SocketView.{SocketView};

    ghost Value = { SocketView R };

    ghost view = { λ s. record { view = view_of s.context.value; failed = s.failed } };

    // So that its snapshots are valid, and the list has the deadlines that count, of a socket that has failed
    // too.
    ghost invariant = { λ s. (s.failed ≡ false → IsSound (view_of s.context.value).endpoint) × ListsDeadlines (endpoint_of s.context.value) s.deadlines };
}

// The result of a call. Once an allocation has failed, the socket has failed for good.
fn settled<T>(failed: &mut bool, outcome: Result<T, AllocError>) -> Result<T, SocketFault>
    ensures { SettlesCall failed.old outcome result failed.new }
{
    match outcome {
        Ok(answer) => Ok(answer),
        Err(_) => {
            *failed = true;
            Err(SocketFault::OutOfMemory)
        }
    }
}

impl<R: Rng + Drop> Socket<R> {
    ghost use Rattle.std.specs.Prelude.{◌≡◌, IfOk, IsOkUnless};
    ghost use Rattle.dcsctp_core.specs.spec.endpoint.Endpoint.{association_of, own_tag};
    ghost use Rattle.dcsctp_core.specs.api.Metrics.{counts_of};
    ghost use Rattle.dcsctp_core.specs.types.Settings.{IsValid};
    ghost use Rattle.dcsctp_core.specs.api.Calls.{PollsCleared};
    ghost use Rattle.dcsctp_socket.specs.SocketView.{fresh_socket, user_view_of};

    /// Makes a closed socket, at moment zero. Random words come from `rng`; `name` has no effect.
    ///
    /// The options must be valid: see `Options::is_valid`.
    pub fn new(
        alloc: Global,
        name: &str,
        options: &Options,
        rng: R,
    ) -> Result<Socket<R>, SocketFault>
        requires { IsValid options.now }
        ensures fresh { IfOk result (λ socket. socket ≡ fresh_socket options.now rng) }
        ensures fault { IsOkUnless result SocketFault.OutOfMemory }
    {
        let name = String::from_str(alloc, name)?;
        let context = Box::new(alloc, Context::new(alloc, *options, rng))?;
        Ok(Socket {
            name,
            context,
            failed: false,
            deadlines: Deadlines::new(),
        })
    }

    /// The association; none in the closed state. Allocates nothing.
    pub fn association(&self) -> Option<Association>
        ensures { result ≡ association_of self.now.view.endpoint.core }
    {
        self.context.state.association()
    }

    /// Our own verification tag, which packets to this socket carry (RFC 9260, section 8.5); 0 in the closed
    /// state. Allocates nothing.
    pub fn verification_tag(&self) -> u32
        ensures { result ≡ own_tag self.now.view.endpoint.core }
    {
        self.context.state.verification_tag()
    }

    /// What was counted over the socket's life, also while there is no association. Allocates nothing.
    pub fn get_counts(&self) -> Counts
        ensures { counts_of result ≡ self.now.view.endpoint.counts }
    {
        self.context.counts()
    }

    /// The pairs of a tag and a first TSN that the last call of this socket drew, in order. They are our own
    /// ones, and those of answers to an INIT (RFC 9260, section 5.1). Allocates nothing.
    pub fn drawn_pairs(&self) -> &[Pair]
        ensures { result.now ≡ self.now.view.pairs }
    {
        self.context.drawn_pairs()
    }

    /// The random words that the last call of this socket drew, in order: those that its pairs and tie tags
    /// were made of. Allocates nothing.
    pub fn drawn_words(&self) -> &[Word]
        ensures { result.now ≡ self.now.view.words }
    {
        self.context.drawn_words()
    }

    /// The generator, as it is now. Allocates nothing.
    pub fn generator(&self) -> &R
        ensures { result.now ≡ self.now.view.generator }
    {
        self.context.generator()
    }

    /// Takes an event as `poll_event` does, but a packet with 0 in the place of its checksum, which isn't computed.
    /// It is for a user who makes checksums. Allocates nothing.
    pub fn poll_event_without_checksum(&mut self) -> Option<SocketEvent>
        ensures { PollsCleared (user_view_of R.stream self.old) result
            (user_view_of R.stream self.new) }
    {
        self.context.events.next_event_without_checksum()
    }

    /// Takes back the bytes of a packet that `poll_event` has given, once they are sent: their memory serves a later
    /// packet until the association ends or sends a HEARTBEAT. You needn't call it. Allocates nothing.
    pub fn take_back(&self, packet: Vec<u8>) {
        match self.context.state {
            State::Open(_) => keep_spare(&self.context.events, packet),
            State::Closed => free_spares(&self.context.events),
            State::CookieWait(_) | State::CookieEchoed(_) => {}
        }
    }

    /// Did an allocation fail in an earlier call? Allocates nothing.
    pub fn has_failed(&self) -> bool
        ensures { result ≡ self.now.failed }
    {
        self.failed
    }
}

impl<R: Rng + Drop> DcSctpSocket for Socket<R> {
    ghost use Rattle.dcsctp_socket.specs.SocketView.{user_view_of};

    // The calls promise what the trait says, of the view with what the generator gives next.
    ghost user_view = { user_view_of R.stream };

    fn poll_event(&mut self) -> Option<SocketEvent> {
        self.context.events.next_event()
    }

    fn handle_input(&mut self, packet: &[u8]) -> Result<(), SocketFault> {
        // A socket that has failed counts no packet.
        if self.failed {
            return Err(SocketFault::Failed);
        }
        calls_keep_soundness();
        let outcome = dcsctp_socket_calls::handle_input(&mut self.context, packet);
        list_deadlines(&self.context, &mut self.deadlines);
        settled(&mut self.failed, outcome)
    }

    fn connect(&mut self) -> Result<(), SocketFault> {
        // A socket that has failed draws no pair.
        if self.failed {
            return Err(SocketFault::Failed);
        }
        calls_keep_soundness();
        let outcome = dcsctp_socket_calls::connect(&mut self.context);
        list_deadlines(&self.context, &mut self.deadlines);
        settled(&mut self.failed, outcome)
    }

    fn close(&mut self) -> Result<(), SocketFault> {
        // A socket that has failed sends no ABORT.
        if self.failed {
            return Err(SocketFault::Failed);
        }
        calls_keep_soundness();
        let outcome = dcsctp_socket_calls::close(&mut self.context);
        list_deadlines(&self.context, &mut self.deadlines);
        settled(&mut self.failed, outcome)
    }

    fn shutdown(&mut self) -> Result<(), SocketFault> {
        // A socket that has failed sends no SHUTDOWN.
        if self.failed {
            return Err(SocketFault::Failed);
        }
        calls_keep_soundness();
        let outcome = dcsctp_socket_calls::shutdown(&mut self.context);
        list_deadlines(&self.context, &mut self.deadlines);
        settled(&mut self.failed, outcome)
    }

    fn advance_time(&mut self, now: SocketTime) -> Result<(), SocketFault> {
        // The clock of a socket that has failed doesn't move.
        if self.failed {
            return Err(SocketFault::Failed);
        }
        calls_keep_soundness();
        time_passes_quietly();
        if is_quiet(&self.context, &self.deadlines, now) {
            dcsctp_socket_calls::move_clock(&mut self.context, now);
            return Ok(());
        }
        let outcome = dcsctp_socket_calls::advance_time(&mut self.context, now);
        list_deadlines(&self.context, &mut self.deadlines);
        settled(&mut self.failed, outcome)
    }

    fn poll_timeout(&self) -> SocketTime {
        poll_timeout(&self.context, &self.deadlines)
    }

    fn send(
        &mut self,
        message: Message,
        options: &SendOptions,
    ) -> Result<Result<(), SendError>, SocketFault> {
        // A socket that has failed takes no message.
        if self.failed {
            return Err(SocketFault::Failed);
        }
        calls_keep_soundness();
        let outcome = dcsctp_socket_calls::send(&mut self.context, message, options);
        list_deadlines(&self.context, &mut self.deadlines);
        settled(&mut self.failed, outcome)
    }

    fn send_many(
        &mut self,
        messages: Vec<Message>,
        options: &SendOptions,
    ) -> Result<Result<(), BatchSendError>, SocketFault> {
        // A socket that has failed takes none of them.
        if self.failed {
            return Err(SocketFault::Failed);
        }
        calls_keep_soundness();
        let outcome = dcsctp_socket_calls::send_many(&mut self.context, messages, options);
        list_deadlines(&self.context, &mut self.deadlines);
        settled(&mut self.failed, outcome)
    }

    fn reset_streams(
        &mut self,
        stream_ids: &[StreamId],
    ) -> Result<Result<(), ResetStreamsError>, SocketFault> {
        // A socket that has failed resets no stream.
        if self.failed {
            return Err(SocketFault::Failed);
        }
        calls_keep_soundness();
        let outcome = dcsctp_socket_calls::reset_streams(&mut self.context, stream_ids);
        list_deadlines(&self.context, &mut self.deadlines);
        settled(&mut self.failed, outcome)
    }

    fn get_next_message(&mut self) -> Option<Message> {
        calls_keep_soundness();
        let message = dcsctp_socket_calls::get_next_message(&mut self.context)?;
        list_deadlines(&self.context, &mut self.deadlines);
        Some(message)
    }

    fn messages_ready_count(&self) -> usize {
        match self.context.state.tcb() {
            None => self.context.left.len(),
            Some(tcb) => tcb.transfer.messages_ready_count(),
        }
    }

    fn get_metrics(&self) -> Option<Metrics> {
        self.context.metrics()
    }

    fn get_handover_readiness(&self) -> HandoverReadiness {
        self.context.get_handover_readiness()
    }

    fn get_handover_state_and_close(
        &mut self,
    ) -> Result<Result<SocketHandoverState, HandoverError>, SocketFault> {
        // A socket that has failed is not handed over.
        if self.failed {
            return Err(SocketFault::Failed);
        }
        calls_keep_soundness();
        let outcome = dcsctp_socket_calls::get_handover_state_and_close(&mut self.context);
        list_deadlines(&self.context, &mut self.deadlines);
        settled(&mut self.failed, outcome)
    }

    fn restore_from_state(
        &mut self,
        state: &SocketHandoverState,
    ) -> Result<Result<(), RestoreError>, SocketFault> {
        // A socket that has failed is not restored.
        if self.failed {
            return Err(SocketFault::Failed);
        }
        calls_keep_soundness();
        let outcome = dcsctp_socket_calls::restore_from_state(&mut self.context, state);
        list_deadlines(&self.context, &mut self.deadlines);
        settled(&mut self.failed, outcome)
    }

    fn state(&self) -> SocketState {
        self.context.state.socket_state()
    }

    fn options(&self) -> Options {
        self.context.options
    }

    fn set_max_message_size(&mut self, max_message_size: usize) {
        calls_keep_soundness();
        dcsctp_socket_calls::set_max_message_size(&mut self.context, max_message_size);
    }

    fn set_stream_priority(
        &mut self,
        stream_id: StreamId,
        priority: u16,
    ) -> Result<(), SocketFault> {
        // A socket that has failed is unchanged.
        if self.failed {
            return Err(SocketFault::Failed);
        }
        calls_keep_soundness();
        let outcome = dcsctp_socket_calls::set_stream_priority(
            &mut self.context,
            stream_id,
            priority,
        );
        settled(&mut self.failed, outcome)
    }

    fn get_stream_priority(&self, stream_id: StreamId) -> u16 {
        self.context.send_queue.get_priority(stream_id)
    }

    fn buffered_amount(&self, stream_id: StreamId) -> usize {
        self.context.send_queue.buffered_amount(stream_id)
    }

    fn buffered_amount_low_threshold(&self, stream_id: StreamId) -> usize {
        self.context
            .send_queue
            .buffered_amount_low_threshold(stream_id)
    }

    fn set_buffered_amount_low_threshold(
        &mut self,
        stream_id: StreamId,
        bytes: usize,
    ) -> Result<(), SocketFault> {
        // A socket that has failed keeps the threshold.
        if self.failed {
            return Err(SocketFault::Failed);
        }
        calls_keep_soundness();
        let outcome = dcsctp_socket_calls::set_buffered_amount_low_threshold(
            &mut self.context,
            stream_id,
            bytes,
        );
        settled(&mut self.failed, outcome)
    }
}
