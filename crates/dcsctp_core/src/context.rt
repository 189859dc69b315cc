//! The parts of a socket in one value. One function shows or draws each thing that handlers need.

ghost use Rattle.std.specs.Prelude.{◌≡◌};
ghost use Rattle.std.specs.Duration.{as_nanos};
ghost use Rattle.dcsctp_transfer.specs.spec.endpoint.Endpoint.{heartbeat_settings, heartbeat_wait, number_of_pair};
ghost use Rattle.dcsctp_transfer.specs.spec.endpoint.HeartbeatOutcomes.{heartbeat_timeout_settings};
ghost use Rattle.dcsctp_transfer.specs.spec.endpoint.CookieEchoOutcomes.{is_last_tag};
ghost use Rattle.dcsctp_transfer.specs.types.Settings.{IsValid};

use crate::ending::end_event;
use crate::spares::free_spares;
use crate::state::State;
use crate::transmission_control_block::PerformedReset;
use crate::tx_error_counter::TxErrorCounter;
use dcsctp_transfer::SendQueue;
use dcsctp_transfer::api::{
    ErrorKind, Events, Message, Options, Pair, SctpImplementation, SocketEvent, SocketTime, Word,
};
use dcsctp_transfer::send_timer::{BackoffAlgorithm, Timer};
use dcsctp_transfer::wire::{Chunk, sizes};
use dcsctp_transfer::wire_build::SctpPacketBuilder;
use rand_core::Rng;
use std::alloc::{AllocError, Global};
use std::collections::VecDeque;
use std::time::Duration;

/// What a socket is made of. Handlers change the state, the events, the queue and the peer's implementation
/// in place, and the rest by the functions below.
#[derive(Drop)]
pub struct Context<R> {
    /// Where memory comes from.
    pub alloc: Global,

    /// The present moment.
    pub moment: SocketTime,

    /// What the user set.
    pub options: Options,

    /// The state.
    pub state: State,

    /// The events that wait for the user, oldest first.
    pub events: Events,

    /// What waits to be sent.
    pub send_queue: SendQueue,

    /// The messages that were ready when the last association ended, and that aren't taken yet, oldest first.
    pub left: VecDeque<Message>,

    /// What the peer is, by its state cookie.
    pub peer_implementation: SctpImplementation,

    // Where random words come from.
    generator: R,

    // The words that the present call drew, in order.
    words: Vec<Word>,

    // The pairs that it made of them, in order.
    pairs: Vec<Pair>,

    // When a HEARTBEAT is sent (RFC 9260, section 8.3).
    pub(crate) heartbeat_interval: Timer,

    // How long the answer to a HEARTBEAT is awaited (RFC 9260, section 8.3).
    pub(crate) heartbeat_timeout: Timer,

    // The counter in the last HEARTBEAT.
    heartbeat_counter: u32,

    /// When the last HEARTBEAT was sent, until it is answered or its association ends.
    pub heartbeat_sent: Option<SocketTime>,

    /// The peer's request to reset streams that was performed last, if it was in progress before: the peer may send
    /// it again under the next number. `None` without `Options::follow_rfc`.
    pub renewable: Option<PerformedReset>,

    // Was a HEARTBEAT, an INIT or a RE-CONFIG of the present packet answered?
    has_answered: bool,

    // Was a shutdown asked for while the COOKIE ACK of this association was awaited? Only with `Options::follow_rfc`.
    shutdown_asked: bool,

    // Our verification tag in the last association that had a peer and has ended.
    last_tag: Option<u32>,

    // What our cookies bear as their tie tag where there is no association. With `Options::follow_rfc` it is the first pair
    // that the closed socket drew, 0 until then.
    secret: u64,

    /// The errors that count (RFC 9260, section 8.1).
    pub tx_error_counter: TxErrorCounter,

    // How many packets were handed in.
    pub(crate) rx_packets_count: usize,

    // How many packets were emitted.
    pub(crate) tx_packets_count: usize,

    // How many messages the user has queued.
    pub(crate) tx_messages_count: usize,

    // The moment before which no FORWARD-TSN is sent (RFC 3758, section 3.5).
    pub(crate) no_forward_tsn_before: SocketTime,

    ghost valid: { IsValid options },

    ghost interval: { heartbeat_interval.settings ≡ heartbeat_settings options },

    ghost timeout: { heartbeat_timeout.settings ≡ heartbeat_timeout_settings options },

    ghost errors: { tx_error_counter.limit ≡ options.max_retransmissions },
}

// Was this our verification tag in the last association?
fn is_last_tag(last: Option<u32>, tag: u32) -> bool
    ensures { result ≡ is_last_tag last tag }
{
    match last {
        None => false,
        Some(last) => tag == last,
    }
}

// How long the heartbeat interval of an association with this own tag runs. With `Options::follow_rfc` a retransmission
// timeout is added, 50 % more or less by the low bits of the tag, so that associations that begin together don't beat
// together (RFC 9260, section 8.3).
fn heartbeat_wait(options: &Options, tag: u32) -> Duration
    ensures { as_nanos result ≡ heartbeat_wait options.now tag }
{
    if !options.follow_rfc {
        return options.heartbeat_interval;
    }
    let timeout = options.rto_initial;
    let jitter = (timeout / 65_536).saturating_mul(tag % 65_536);
    let added = (timeout / 2).saturating_add(jitter);
    options.heartbeat_interval.saturating_add(added)
}

// A pair as one number.
fn number_of_pair(pair: Pair) -> u64
    ensures { result ≡ number_of_pair pair }
{
    u64::from(pair.tag) * 4_294_967_296 + u64::from(pair.first_tsn)
}

impl<R: Rng> Context<R> {
    ghost use Rattle.std.specs.Prelude.{◌≡◌, ◌+◌, Bool, ℕ, List, length, map, nat_le, string_bytes};
    ghost use Rattle.std.specs.Duration.{as_nanos};
    ghost use Rattle.std.specs.Option.{option_map};
    ghost use Rattle.rand_core.specs.Stream.{next_u32, next_u64};
    ghost use Rattle.dcsctp_transfer.specs.types.declared.word.Word.TheVariants.{U32, U64};
    ghost use Rattle.dcsctp_transfer.specs.spec.endpoint.Endpoint.{may_answer, secret_with};
    ghost use Rattle.dcsctp_transfer.specs.spec.endpoint.Outcome.{packet_counted};
    ghost use Rattle.dcsctp_transfer.specs.spec.endpoint.EndOutcomes.{left_messages};
    ghost use Rattle.dcsctp_transfer.specs.spec.endpoint.MessageOutcomes.{awaits_opening};
    ghost use Rattle.dcsctp_transfer.specs.types.queues.Messages.{message_content};
    ghost use Rattle.dcsctp_transfer.specs.wire.Content.{chunk_content};
    ghost use Rattle.dcsctp_transfer.specs.wire.Spelling.{chunk_bytes};
    ghost use Rattle.dcsctp_transfer.specs.types.Settings.{packet_size_limit};
    ghost use Rattle.dcsctp_transfer.specs.types.Sizes.{common_header_size};
    ghost use Rattle.dcsctp_transfer.specs.spec.endpoint.TimeTurns.{own_timer};
    ghost use Rattle.dcsctp_transfer.specs.spec.endpoint.OwnTimers.{heartbeat_interval, heartbeat_timeout, reconfiguration, retransmission};
    ghost use Rattle.dcsctp_transfer.specs.spec.endpoint.HeartbeatOutcomes.{interval_expired, beating, timeout_outcome, endpoint_answered, heartbeat_round_trip, is_exhausted};
    ghost use Rattle.dcsctp_transfer.specs.spec.endpoint.CookieEchoOutcomes.{is_tag_over, is_foreign};
    ghost use Rattle.dcsctp_core.specs.Timing.{where_expired, is_timer_due, ExpiresAlways};
    ghost use Rattle.dcsctp_core.specs.Reconfiguring.{request_over};
    ghost use Rattle.dcsctp_core.specs.View.{Moves, core_of, view_of, endpoint_of, outstanding_of, transfer_of, association_dropped, begun_heartbeats, resumed_heartbeats, message_counted, fresh_view, call_start};
    ghost use Rattle.dcsctp_core.specs.Drawing.{Draws, KeepsPair};
    ghost use Rattle.dcsctp_core.specs.Handling.{Tries, Emits, EmitsToPeer, AnswersPeer, answer_counted, arrival_turn, asked_turn, report_turn, close_turn, end_event};

    /// A closed socket with these options, at moment zero.
    #[inline(always)]
    pub fn new(alloc: Global, options: Options, generator: R) -> Context<R>
        requires { IsValid options }
        ensures { view_of result ≡ fresh_view options generator }
    {
        Context {
            alloc,
            moment: SocketTime::zero(),
            options,
            state: State::Closed,
            events: Events::new(alloc),
            send_queue: SendQueue::new(alloc, &options),
            left: VecDeque::new(alloc),
            peer_implementation: SctpImplementation::Unknown,
            generator,
            words: Vec::new(alloc),
            pairs: Vec::new(alloc),
            heartbeat_interval: Timer::new(
                options.heartbeat_interval,
                BackoffAlgorithm::Fixed,
                None,
                None,
            ),
            heartbeat_timeout: Timer::new(
                options.rto_initial,
                BackoffAlgorithm::Fixed,
                Some(0),
                None,
            ),
            heartbeat_counter: 0,
            heartbeat_sent: None,
            renewable: None,
            has_answered: false,
            shutdown_asked: false,
            last_tag: None,
            secret: 0,
            tx_error_counter: TxErrorCounter::new(options.max_retransmissions),
            rx_packets_count: 0,
            tx_packets_count: 0,
            tx_messages_count: 0,
            no_forward_tsn_before: SocketTime::zero(),
        }
    }

    /// Draws a word, and keeps it among those of the present call. `Err`: an allocation failed, and nothing
    /// has changed but the generator.
    pub fn draw_u32(&mut self) -> Result<u32, AllocError>
        ensures { Draws R.stream next_u32 U32 self.old result self.new }
    {
        let word = self.generator.next_u32();
        self.words.push(Word::U32(word))?;
        Ok(word)
    }

    /// Draws a word of 64 bits, as `draw_u32` does one of 32.
    pub fn draw_u64(&mut self) -> Result<u64, AllocError>
        ensures { Draws R.stream next_u64 U64 self.old result self.new }
    {
        let word = self.generator.next_u64();
        self.words.push(Word::U64(word))?;
        Ok(word)
    }

    /// Keeps a pair that was made of words among those of the present call. `Err`: an allocation failed, and
    /// nothing has changed.
    pub fn keep_pair(&mut self, pair: Pair) -> Result<(), AllocError>
        ensures { KeepsPair self.old pair result self.new }
    {
        self.pairs.push(pair)?;
        Ok(())
    }

    /// The words of the present call, or of the last one. Allocates nothing.
    pub fn drawn_words(&self) -> &[Word]
        ensures { result.now ≡ (view_of self.now).words }
    {
        &self.words
    }

    /// The generator, as it is now. Allocates nothing.
    pub fn generator(&self) -> &R
        ensures { result.now ≡ (view_of self.now).generator }
    {
        &self.generator
    }

    /// The pairs of the present call, or of the last one. Allocates nothing.
    pub fn drawn_pairs(&self) -> &[Pair]
        ensures { result.now ≡ (view_of self.now).pairs }
    {
        &self.pairs
    }

    /// Does a packet of this chunk alone fit `mtu`?
    pub fn fits(&self, chunk: &Chunk<'_>) -> bool
        ensures { result ≡ nat_le (common_header_size + length
            (chunk_bytes (chunk_content chunk.now)))
            (packet_size_limit self.now.options) }
    {
        sizes();
        let size = chunk.serialized_size().saturating_add(12);
        size <= self.options.mtu - self.options.mtu % 4
    }

    /// Emits a packet of one chunk, and counts it (the count saturates). If it doesn't fit `mtu`, nothing is
    /// emitted or counted.
    ///
    /// `Err`: an allocation failed, of the packet or of its place among the events. Nothing has changed
    /// then.
    pub fn emit(
        &mut self,
        tag: u32,
        write_checksum: bool,
        chunk: &Chunk<'_>,
    ) -> Result<(), AllocError>
        ensures { Emits write_checksum tag (chunk_content chunk.now) self.old result self.new }
    {
        sizes();
        let alloc = self.alloc;
        let options = &self.options;
        let size = chunk.serialized_size().saturating_add(12);
        if options.mtu - options.mtu % 4 < size {
            return Ok(());
        }
        let builder = SctpPacketBuilder::new(
            alloc,
            tag,
            options.local_port,
            options.remote_port,
            size,
        )?;
        let mut builder = builder.write_checksum(write_checksum);
        builder.add(chunk);
        self.events.add_packet(builder)?;
        self.count_emitted();
        Ok(())
    }

    /// Emits a packet of one chunk to the peer, as `emit` does: under the peer's tag, and with a checksum
    /// unless zero checksum was negotiated (RFC 9653, section 5.2). Without a peer nothing is emitted.
    ///
    /// `Err`: an allocation failed, and nothing has changed.
    pub fn emit_to_peer(&mut self, chunk: &Chunk<'_>) -> Result<(), AllocError>
        ensures { EmitsToPeer (chunk_content chunk.now) self.old result self.new }
    {
        match self.state.tcb() {
            None => Ok(()),
            Some(tcb) => {
                let tag = tcb.peer.tag;
                let write_checksum = !tcb.capabilities.zero_checksum_enabled();
                self.emit(tag, write_checksum, chunk)
            }
        }
    }

    /// May a HEARTBEAT, an INIT or a RE-CONFIG of the present packet be answered? With `Options::follow_rfc` one
    /// may, so that no packet brings many.
    pub fn may_answer(&self) -> bool
        ensures { result ≡ may_answer (endpoint_of self.now) }
    {
        !(self.options.follow_rfc && self.has_answered)
    }

    /// Keeps that a chunk of the present packet was answered.
    pub fn count_answer(&mut self)
        ensures { view_of self.new ≡ answer_counted (view_of self.old) }
    {
        self.has_answered = true;
    }

    /// Answers a chunk of the present packet by this one, which `emit_to_peer` sends, if `may_answer`. Without a
    /// peer nothing is emitted.
    ///
    /// `Err`: an allocation failed, and nothing has changed.
    pub fn answer_peer(&mut self, chunk: &Chunk<'_>) -> Result<(), AllocError>
        ensures { AnswersPeer (chunk_content chunk.now) self.old result self.new }
    {
        match self.state.tcb() {
            None => Ok(()),
            Some(_) => {
                if !self.may_answer() {
                    return Ok(());
                }
                self.emit_to_peer(chunk)?;
                self.count_answer();
                Ok(())
            }
        }
    }

    // Counts a packet that was emitted; the count saturates.
    pub(crate) fn count_emitted(&mut self)
        ensures { view_of self.new ≡ record (view_of self.old) {
          endpoint = packet_counted
              (endpoint_of self.old);
        } }
    {
        self.tx_packets_count = self.tx_packets_count.saturating_add(1);
    }

    /// Counts a message that the user has queued; the count saturates.
    pub fn count_message(&mut self)
        ensures { view_of self.new ≡ record (view_of self.old) {
          endpoint = message_counted
              (endpoint_of self.old);
        } }
    {
        self.tx_messages_count = self.tx_messages_count.saturating_add(1);
    }

    /// Restarts the heartbeat interval, unless it is zero, which switches heartbeats off.
    #[inline(always)]
    pub fn start_heartbeat_interval(&mut self)
        ensures { view_of self.new ≡ record (view_of self.old) {
          endpoint = begun_heartbeats
              (endpoint_of self.old);
        } }
    {
        if !self.options.heartbeat_interval.is_zero() {
            let wait = heartbeat_wait(&self.options, self.state.verification_tag());
            self.heartbeat_interval.start_for(self.moment, wait);
        }
    }

    /// Restarts the heartbeat interval of an association that was restored, with `Options::follow_rfc` (RFC 9260,
    /// section 8.3). Otherwise it starts with the next data.
    pub fn resume_heartbeats(&mut self)
        ensures { view_of self.new ≡ record (view_of self.old) {
          endpoint = resumed_heartbeats
              (endpoint_of self.old);
        } }
    {
        if self.options.follow_rfc {
            self.start_heartbeat_interval();
        }
    }

    // Frees the room for packets and in the queues that nothing uses.
    fn free_room(&mut self)
        ensures { view_of self.new ≡ view_of self.old }
    {
        free_spares(&self.events);
        self.state.free_room();
    }

    /// Advances the heartbeat interval to the present moment, and returns whether it expires. If so, it runs
    /// again, and memory that an idle association doesn't use is freed.
    pub fn expire_heartbeat_interval(&mut self) -> bool
        ensures answer { result
            ≡ is_timer_due (endpoint_of self.old) (own_timer heartbeat_interval) }
        ensures left { view_of self.new ≡ where_expired result (interval_expired
            (endpoint_of self.old)) (view_of self.old) }
    {
        let is_expired = self.heartbeat_interval.expire(self.moment);
        if is_expired {
            self.free_room();
        }
        is_expired
    }

    /// Counts the next HEARTBEAT, whose answer is awaited from now on. Returns its counter, which goes up by
    /// one, modulo 2^32.
    pub fn next_heartbeat(&mut self) -> u32
        ensures counter { result ≡ (beating (endpoint_of self.old)).heartbeat_counter }
        ensures view { view_of self.new ≡ record (view_of self.old) {
          endpoint = beating
              (endpoint_of self.old);
        } }
    {
        self.heartbeat_counter = self.heartbeat_counter.wrapping_add(1);
        self.heartbeat_timeout.start(self.moment);
        self.heartbeat_sent = Some(self.moment);
        self.heartbeat_counter
    }

    /// Advances the timer of the answer to a HEARTBEAT to the present moment, and returns whether it expires.
    /// It stops then, and an error is counted.
    pub fn expire_heartbeat_timeout(&mut self) -> bool
        ensures answer { result
            ≡ is_timer_due (endpoint_of self.old) (own_timer heartbeat_timeout) }
        ensures left { view_of self.new ≡ where_expired result (timeout_outcome
            (endpoint_of self.old)).after (view_of self.old) }
    {
        if self.heartbeat_timeout.expire(self.moment) {
            self.tx_error_counter.increment();
            return true;
        }
        false
    }

    /// The counter in the last HEARTBEAT.
    pub fn heartbeat_counter(&self) -> u32
        ensures { result ≡ (endpoint_of self.now).heartbeat_counter }
    {
        self.heartbeat_counter
    }

    // The round trip that the answer to the last HEARTBEAT measures: with `Options::follow_rfc` its first one.
    fn heartbeat_round_trip(&self) -> Option<Duration>
        ensures { option_map as_nanos result ≡ heartbeat_round_trip (endpoint_of self.now) }
    {
        if self.options.follow_rfc {
            let sent = self.heartbeat_sent?;
            Some(self.moment - sent)
        } else {
            None
        }
    }

    /// The peer has answered the last HEARTBEAT: no answer is awaited, and no error counts. With
    /// `Options::follow_rfc` its first answer measures a round trip (RFC 9260, section 8.3).
    pub fn end_heartbeat(&mut self)
        ensures { view_of self.new ≡ record (view_of self.old) {
          endpoint = endpoint_answered
              (endpoint_of self.old);
        } }
    {
        let round_trip = self.heartbeat_round_trip();
        self.heartbeat_timeout.stop();
        self.heartbeat_sent = None;
        self.tx_error_counter.reset();
        self.state.observe_round_trip(round_trip);
    }

    /// The peer has acknowledged something that it hadn't before: no error counts (RFC 9260, section 8.1).
    pub fn reset_errors(&mut self)
        ensures { view_of self.new ≡ record (view_of self.old) {
          endpoint = record
              (endpoint_of self.old) { error_count = 0 };
        } }
    {
        self.tx_error_counter.reset();
    }

    /// Advances the retransmission timer to the present moment, and returns whether it expires. What is in
    /// flight is lost then, and an error is counted (RFC 9260, sections 6.3.3 and 8.1). Allocates nothing.
    pub fn expire_retransmission(&mut self) -> bool
        ensures { ExpiresAlways R.stream (own_timer retransmission) self.old result self.new }
    {
        let Some(tcb) = self.state.tcb_mut() else {
            return false;
        };
        if tcb.transfer.expire_retransmission(self.moment) {
            self.tx_error_counter.increment();
            return true;
        }
        false
    }

    /// Advances the reconfiguration timer to the present moment, and returns whether it expires. Our
    /// outstanding request is then ready to be sent again. An error is counted, unless the peer had answered
    /// that it is in progress (RFC 6525, section 5.1.1). Allocates nothing.
    pub fn expire_reconfiguration(&mut self) -> bool
        ensures answer { result ≡ is_timer_due (endpoint_of self.old) (own_timer reconfiguration) }
        ensures left { view_of self.new ≡ where_expired result (request_over (endpoint_of self.old)
            (outstanding_of self.old.state)) (view_of self.old) }
    {
        let Some(tcb) = self.state.tcb_mut() else {
            return false;
        };
        if !tcb.expire_reconfiguration(self.moment) {
            return false;
        }
        if tcb.end_retry() {
            self.tx_error_counter.increment();
        }
        true
    }

    /// Is there no association, and was this our verification tag in the last one? With `Options::follow_rfc` no other
    /// begins under it (RFC 9260, section 5.3.1).
    pub fn is_tag_over(&self, tag: u32) -> bool
        ensures { result ≡ is_tag_over (endpoint_of self.now) (endpoint_of self.now).core tag }
    {
        match &self.state {
            State::CookieEchoed(_) | State::Open(_) => false,
            State::Closed | State::CookieWait(_) => {
                self.options.follow_rfc && is_last_tag(self.last_tag, tag)
            }
        }
    }

    /// What our cookies bear as their tie tag where there is no association: with `Options::follow_rfc` a secret, else 0.
    pub fn secret(&self) -> u64
        ensures { result ≡ (endpoint_of self.now).secret }
    {
        self.secret
    }

    /// The secret once this pair was drawn: with `Options::follow_rfc` the first one is it.
    pub fn secret_with(&self, pair: Pair) -> u64
        ensures { result ≡ secret_with (endpoint_of self.now) pair }
    {
        if self.options.follow_rfc && self.secret == 0 {
            number_of_pair(pair)
        } else {
            self.secret
        }
    }

    /// Keeps this secret.
    pub fn keep_secret(&mut self, secret: u64)
        ensures { view_of self.new ≡ record (view_of self.old) {
          endpoint = record
              (endpoint_of self.old) { secret = secret };
        } }
    {
        self.secret = secret;
    }

    /// Is there no association, and is a cookie with this tie tag none that this socket made? With `Options::follow_rfc`
    /// none begins by it (RFC 9260, section 5.1.5).
    pub fn is_foreign(&self, tie_tag: u64) -> bool
        ensures { result
            ≡ is_foreign (endpoint_of self.now) (endpoint_of self.now).core tie_tag }
    {
        match &self.state {
            State::CookieEchoed(_) | State::Open(_) => false,
            State::Closed | State::CookieWait(_) => {
                self.options.follow_rfc && (self.secret == 0 || tie_tag != self.secret)
            }
        }
    }

    /// Were more errors counted than the options allow (RFC 9260, section 8.1)?
    pub fn has_too_many_errors(&self) -> bool
        ensures { result ≡ is_exhausted (endpoint_of self.now).options.max_retransmissions
            (endpoint_of self.now).error_count }
    {
        self.tx_error_counter.is_exhausted()
    }

    // Drops the association. With `Options::follow_rfc` the messages that are ready can still be taken, for
    // their data was acknowledged.
    fn drop_association(&mut self)
        ensures left { map message_content self.new.left.items ≡ left_messages self.old.options
            (transfer_of self.old.state) (map message_content self.old.left.items) }
        ensures view { view_of self.new ≡ association_dropped (view_of self.old)
            (map message_content self.new.left.items) }
    {
        self.heartbeat_sent = None;
        self.renewable = None;
        self.shutdown_asked = false;
        self.last_tag = self.state.ended_tag(self.last_tag);
        let ended = std::mem::replace(&mut self.state, State::Closed);
        if !self.options.follow_rfc {
            return;
        }
        if let Some(messages) = ended.into_ready_messages(&self.options) {
            self.left = messages;
        }
    }

    /// Ends the association: with OnClosed if the error is `NoError`, else with OnAborted and this text. A
    /// closed socket is unchanged. The count of errors stays (docs/design/decisions.md, The count of errors). With
    /// `Options::follow_rfc` it begins at 0 in the next one, and the messages that are ready can be taken until then.
    ///
    /// `Err`: an allocation failed, and nothing has changed.
    pub fn internal_close(&mut self, error: ErrorKind, message: String) -> Result<(), AllocError>
        ensures { Tries R.stream (close_turn (end_event error (string_bytes message))) self.old
            result self.new }
    {
        if self.state.is_closed() {
            return Ok(());
        }
        self.events.add(end_event(error, message))?;
        self.heartbeat_interval.stop();
        self.heartbeat_timeout.stop();
        self.drop_association();
        Ok(())
    }

    /// Begins a call: no word and no pair was drawn in it yet.
    pub fn begin_call(&mut self)
        ensures { view_of self.new ≡ call_start (view_of self.old) }
    {
        self.words.clear();
        self.pairs.clear();
    }

    /// Counts a packet that was handed in; the count saturates. No chunk of it was answered yet.
    pub fn count_packet(&mut self)
        ensures { Moves R.stream (view_of self.old) (arrival_turn (view_of self.old))
            (view_of self.new) }
    {
        self.rx_packets_count = self.rx_packets_count.saturating_add(1);
        self.has_answered = false;
    }

    /// Remembers that a shutdown was asked for. It begins once the association is open.
    pub fn ask_shutdown(&mut self)
        ensures { Moves R.stream (view_of self.old) (asked_turn (view_of self.old))
            (view_of self.new) }
    {
        self.shutdown_asked = true;
    }

    /// Does a shutdown wait for the association to open? Allocates nothing.
    pub fn awaits_opening(&self) -> bool
        ensures { result ≡ awaits_opening (endpoint_of self.now) (core_of self.now.state) }
    {
        match self.state {
            State::CookieEchoed(_) => self.options.follow_rfc && self.shutdown_asked,
            State::Closed | State::CookieWait(_) | State::Open(_) => false,
        }
    }

    /// Reports an error. `Err`: an allocation failed, and nothing has changed.
    pub fn report(&mut self, kind: ErrorKind, text: String) -> Result<(), AllocError>
        ensures { Tries R.stream (report_turn kind (string_bytes text)) self.old result self.new }
    {
        self.events.add(SocketEvent::OnError(kind, text))?;
        Ok(())
    }
}
