//! The send queue: which message leaves next, in fragments, and the events about it (RFC 9260, section 6.9,
//! RFC 8260, section 2.1, RFC 3758, section 3.5 and RFC 6525, section 5.1.2).

ghost use Rattle.std.specs.Prelude.{◌≡◌, ◌<◌};
ghost use Rattle.dcsctp_api.specs.spec.queues.SendQueue.{full_payload};

use crate::backlog::Backlog;
use crate::{DataToSend, QueuedMessage, Streams};
use dcsctp_api::types::{HandoverReadiness, HandoverTransmission};
use dcsctp_api::{Events, Message, Options, SendOptions, SocketTime, StreamId};
use std::alloc::{AllocError, Global};
use std::marker::Model;

// What precedes the payload in a packet of one I-DATA chunk: the packet's header, and the chunk's (RFC 9260, section
// 3.1, and RFC 8260, section 2.1).
const HEADERS: usize = 32;

// The payload of an I-DATA chunk that fills a packet of that size.
fn full_payload(mtu: usize) -> usize
    ensures { result ≡ full_payload mtu }
{
    mtu.saturating_sub(HEADERS) / 4 * 4
}

/// The messages that wait to be sent, by stream.
///
/// An amount is the payload bytes that were neither produced nor dropped; it stops at `usize::MAX`. One that
/// falls from above its threshold to it or below adds its event: the stream's, and then the total's. If a
/// fragment leaves or messages are dropped, these come before the events that name a message.
pub struct SendQueue {
    backlog: Backlog,
}

// Written out, since a derived one is proved field by field in each crate above.
impl Drop for SendQueue {
    fn drop(self) {
        let SendQueue { backlog: _ } = self;
    }
}

impl Model for SendQueue {
    ghost use Rattle.dcsctp_api.specs.spec.queues.SendQueue.{SendQueueState};
    ghost use Rattle.dcsctp_send_queue.specs.Backlog.{queue_of, HasHeldStream};

    ghost Value = { SendQueueState };

    ghost view = { λ queue. queue_of queue.backlog };

    ghost invariant = { λ queue. HasHeldStream queue.backlog };
}

impl SendQueue {
    ghost use Rattle.std.specs.Option.{option_map};
    ghost use Rattle.std.specs.List.{list_all};
    ghost use Rattle.dcsctp_api.specs.types.queues.Messages.{message_content};
    ghost use Rattle.dcsctp_api.specs.spec.queues.OwnResets.{waits_for_reset, queue_committed, queue_rolled_back, queue_handing_out, ready_streams, handing_out, queue_with_prepared, prepare_events};
    ghost use Rattle.dcsctp_send_queue.specs.Fragment.{HasSize};
    ghost use Rattle.std.specs.Prelude.{◌≡◌, ◌+◌, ◌-◌, ◌<◌, ◌++◌, vec_len, true, IfSome, OnOk, OnErr, IfOk, take, not};
    ghost use Rattle.dcsctp_api.specs.spec.queues.SendQueue.{empty_queue, IsWellFormed, queue_restarted, has_queued_data, has_waiting_message, stream_changed, used_streams, queue_stream, numbered_for, queued_message, with_added, with_threshold, with_priority};
    ghost use Rattle.dcsctp_api.specs.spec.queues.Transfer.{is_none_ready};
    ghost use Rattle.dcsctp_api.specs.types.Setting.{stream_priority, stream_low_threshold};
    ghost use Rattle.dcsctp_api.specs.spec.endpoint.SettingOutcomes.{set_in_queue};
    ghost use Rattle.dcsctp_send_queue.specs.Telling.{contents, AddsFront};
    ghost use Rattle.dcsctp_api.specs.types.queues.SendStreams.{paused_stream, committed_stream, rolled_back};
    ghost use Rattle.dcsctp_send_queue.specs.Calls.{StopsTaking, StopsDiscarding};
    ghost use Rattle.dcsctp_api.specs.spec.queues.Sending.{TakesNextFragment, DiscardsNamed};
    ghost use Rattle.dcsctp_send_queue.specs.Leaving.{DropsSome};
    ghost use Rattle.dcsctp_send_queue.specs.Preparing.{TriesStream};
    ghost use Rattle.dcsctp_send_queue.specs.Resets.{IsUsedAtMost};
    ghost use Rattle.dcsctp_api.specs.types.Ids.{stream_numbers};
    ghost use Rattle.dcsctp_api.specs.spec.queues.Readiness.{queue_readiness};
    ghost use Rattle.dcsctp_api.specs.spec.queues.QueuedParts.{part_with_queue, queue_restored};
    ghost use Rattle.dcsctp_api.specs.types.Snapshot.{send_part, is_valid_queued};

    /// A queue with no messages, which numbers them as for no interleaving. Allocates nothing.
    pub fn new(alloc: Global, options: &Options) -> SendQueue
        ensures { result ≡ empty_queue options.now }
    {
        SendQueue {
            backlog: Backlog {
                alloc,
                streams: Streams::new(alloc),
                held: None,
                total_amount: 0,
                total_threshold: options.total_buffered_amount_low_threshold,
                default_priority: options.default_stream_priority,
                default_threshold: options.default_stream_buffered_amount_low_threshold,
                is_interleaved: false,
                next_message_id: 0,
                takes_turns: options.follow_rfc,
                turns_taken: 0,
                turn_size: full_payload(options.mtu),
                window: 0,
                reserved: 0,
            },
        }
    }

    /// Adds a message, whose payload isn't empty, after the others of its stream. It may be started until its
    /// lifetime, counted from `now`, is over. `Err`: an allocation failed, and nothing has changed.
    pub fn add(
        &mut self,
        now: SocketTime,
        message: Message,
        options: &SendOptions,
    ) -> Result<(), AllocError>
        requires { 0 < vec_len message.payload }
        ensures ok { OnOk result
            (self.new ≡ with_added message.stream_id.0
            (queued_message now (message_content message) options.now self.old) self.old) }
        ensures err { OnErr result (self.new ≡ self.old) }
    {
        let stream_id = message.stream_id;
        let size = message.payload.len();
        let queued = QueuedMessage::new(self.backlog.next_message_id, now, message, options);
        self.backlog.put(stream_id, queued)?;
        self.backlog.total_amount = self.backlog.total_amount.saturating_add(size);
        self.backlog.next_message_id = self.backlog.next_message_id.wrapping_add(1);
        Ok(())
    }

    /// Takes the next fragment, of at most `max` payload bytes. A message that is kept whole goes on to its end.
    /// Otherwise it is of the oldest message of a stream that isn't paused, or has a message under way. Of those
    /// with messages, it is the stream of greatest priority, and of these the one of least number. With
    /// `follow_rfc` streams of equal priority take turns: of these it is the one whose last turn is the oldest
    /// (RFC 8260, sections 3.2 and 3.5). Messages there that are too old at the moment `now` to be started are
    /// dropped. `None`: no message can be taken.
    ///
    /// A message is kept whole if it has a limit of time or of retransmissions, or unless messages are interleaved
    /// with `follow_rfc`.
    ///
    /// A message that was started is never dropped here. One that fits is sent as one fragment, whose payload
    /// is not copied.
    #[inline(always)]
    pub fn produce(
        &mut self,
        events: &mut Events,
        now: SocketTime,
        max: usize,
    ) -> Result<Option<DataToSend>, AllocError>
        requires { 0 < max }
        ensures ok { IfOk result
            (λ next. TakesNextFragment now max self.old (contents events.old) next self.new
            (contents events.new)) }
        ensures size { IfOk result (λ next. IfSome next (HasSize max)) }
        ensures err { OnErr result (DropsSome now self.old self.new) }
        ensures front { OnErr result
            (StopsTaking now max self.old (contents events.old) self.new (contents events.new)) }
    {
        match self.backlog.held {
            Some(held) => self.backlog.go_on(events, held, max),
            None => self.backlog.begin_next(events, now, max),
        }
    }

    /// Drops what is left of the stream's message under way, if it is the one of this name, and returns whether
    /// it was.
    pub fn discard(
        &mut self,
        events: &mut Events,
        stream_id: StreamId,
        message_id: u64,
    ) -> Result<bool, AllocError>
        ensures ok { IfOk result
            (λ is_dropped. DiscardsNamed self.old stream_id.0 message_id (contents events.old)
            is_dropped self.new (contents events.new)) }
        ensures err { OnErr result (self.new ≡ self.old) }
        ensures front { OnErr result
            (StopsDiscarding self.old stream_id.0 message_id (contents events.old)
            (contents events.new)) }
    {
        self.backlog.discard(events, stream_id, message_id)
    }

    /// Is a message under way, or does one wait on a stream that isn't paused? Its age isn't looked at.
    pub fn has_data_to_send(&self) -> bool
        ensures { result ≡ has_queued_data self.now }
    {
        self.backlog.may_send()
    }

    /// Does a message wait at the moment `now` that can be sent? One on a paused stream can't, unless it is
    /// under way; nor can one whose lifetime is over.
    pub fn waits_at(&self, now: SocketTime) -> bool
        ensures { result ≡ has_waiting_message now self.now }
    {
        self.backlog.waits_at(now)
    }

    /// Does a message without a lifetime wait for the reset of its stream, which is to be requested or was?
    pub fn waits_for_reset(&self) -> bool
        ensures { result ≡ waits_for_reset self.now }
    {
        self.backlog.waits_for_reset()
    }

    /// Says whether messages are numbered as for interleaving (RFC 8260, section 2.1): with it message
    /// identifiers count, without it stream sequence numbers. If that is a change, each message under way goes
    /// on under the next number of its stream. `window`: the peer's receive window, in bytes.
    pub fn enable_message_interleaving(&mut self, enabled: bool, window: u32)
        ensures { self.new ≡ numbered_for enabled window self.old }
    {
        self.backlog.interleave(enabled, window);
    }

    /// Makes the queue ready for another association: messages that are under way start again, all messages
    /// are numbered from 0, and every pause ends. Messages, thresholds and priorities are kept.
    pub fn reset(&mut self)
        ensures { self.new ≡ queue_restarted self.old }
    {
        self.backlog.put_back();
        self.backlog.streams.begin_all_anew();
    }

    /// Drops the messages of the stream that haven't been started, and reports it. The stream is paused: it
    /// starts no other until it was reset, or until that failed. One that is paused is unchanged, with its
    /// messages. `Err`: an allocation failed; the first of its events may already have been added.
    pub fn prepare_reset_stream(
        &mut self,
        events: &mut Events,
        stream_id: StreamId,
    ) -> Result<(), AllocError>
        ensures tries { TriesStream stream_id.0 self.old (contents events.old) result self.new
            (contents events.new) }
        ensures err { OnErr result (IsUsedAtMost stream_id.0 self.old self.new) }
    {
        self.backlog.prepare(events, stream_id)
    }

    /// Can `get_streams_ready_to_reset` hand out a stream?
    pub fn has_streams_ready_to_be_reset(&self) -> bool
        ensures { result ≡ not (is_none_ready (ready_streams self.now)) }
    {
        self.backlog.has_ready()
    }

    /// Hands out at most `max` streams that can be reset (RFC 6525, section 5.1.2): those of least number,
    /// ascending. They stay paused until `commit_reset_streams` or `rollback_reset_streams`. `Err`: an
    /// allocation failed, and none is handed out.
    pub fn get_streams_ready_to_reset(&mut self, max: usize) -> Result<Vec<StreamId>, AllocError>
        ensures streams { IfOk result
            (λ ids. stream_numbers ids.items ≡ take max (ready_streams self.old)) }
        ensures left { OnOk result (self.new ≡ queue_handing_out max self.old) }
        ensures err { OnErr result (self.new ≡ self.old) }
    {
        let ids = self.backlog.ready_ids(max)?;
        self.backlog.hand_out(&ids);
        Ok(ids)
    }

    /// The streams that are handed out were reset: they number their messages from 0, and their pause
    /// ends.
    pub fn commit_reset_streams(&mut self)
        ensures { self.new ≡ queue_committed self.old }
    {
        self.backlog.streams.commit_all();
    }

    /// The streams that are handed out were not reset: their pause ends.
    pub fn rollback_reset_streams(&mut self)
        ensures { self.new ≡ queue_rolled_back self.old }
    {
        self.backlog.streams.roll_back_all();
    }

    /// Why what waits can't be handed over to another process. `with_outstanding_data`: messages go along.
    pub fn get_handover_readiness(&self, with_outstanding_data: bool) -> HandoverReadiness
        ensures value { result.0 ≡ queue_readiness with_outstanding_data self.now }
        ensures queue { IsWellFormed self.now }
    {
        let waits = !with_outstanding_data && self.backlog.streams.has_messages();
        HandoverReadiness::SEND_QUEUE_NOT_EMPTY & waits
            | HandoverReadiness::PENDING_STREAM_RESET & self.backlog.streams.has_paused()
    }

    /// Adds what a snapshot that is made at the moment `now` has of it: the numbers and the priorities of all
    /// streams, and, if they go along, the messages that wait, with those under way. `Err`: an allocation
    /// failed, and nothing was added.
    pub fn add_to_handover_state(
        &self,
        now: SocketTime,
        with_outstanding_data: bool,
        tx: &mut HandoverTransmission,
    ) -> Result<(), AllocError>
        ensures ok { OnOk result
            (send_part tx.new
            ≡ part_with_queue now with_outstanding_data self.now (send_part tx.old)) }
        ensures err { OnErr result (send_part tx.new ≡ send_part tx.old) }
    {
        let streams = self.backlog.handover_streams()?;
        let messages = if with_outstanding_data {
            self.backlog.handover_messages(now)?
        } else {
            Vec::new(self.backlog.alloc)
        };
        tx.next_outgoing_message_id = self.backlog.next_message_id;
        tx.streams = streams;
        tx.queued_messages = messages;
        Ok(())
    }

    /// Replaces what waits with what the snapshot has, restored at the moment `now`. A message of which a part
    /// was sent continues after that part if it is the first of its stream, and messages are interleaved or no
    /// stream is held. Thresholds stay, as do priorities of streams that the snapshot doesn't name. `Err`: an
    /// allocation failed, and only some of it is restored.
    pub fn restore_from_state(
        &mut self,
        now: SocketTime,
        tx: &HandoverTransmission,
    ) -> Result<(), AllocError>
        requires { list_all is_valid_queued (send_part tx.now).queued_messages ≡ true }
        ensures { OnOk result (self.new ≡ queue_restored now (send_part tx.now) self.old) }
    {
        self.backlog.empty();
        self.backlog.restore_streams(tx.streams.as_slice())?;
        self.backlog
            .restore_messages(now, tx.queued_messages.as_slice())?;
        self.backlog.next_message_id = tx.next_outgoing_message_id;
        Ok(())
    }

    /// The payload bytes that wait on the stream; 0 for one that was never used.
    pub fn buffered_amount(&self, stream_id: StreamId) -> usize
        ensures amount { result ≡ (queue_stream self.now stream_id.0).amount }
        ensures queue { IsWellFormed self.now }
    {
        match self.backlog.streams.find(stream_id) {
            Ok(place) => self.backlog.streams.at(place).amount(),
            Err(_) => 0,
        }
    }

    /// The payload bytes that wait on all streams together.
    pub fn total_buffered_amount(&self) -> usize
        ensures { result ≡ self.now.total_amount }
    {
        self.backlog.total_amount
    }

    /// The stream's threshold in bytes.
    pub fn buffered_amount_low_threshold(&self, stream_id: StreamId) -> usize
        ensures { result ≡ (queue_stream self.now stream_id.0).threshold }
    {
        match self.backlog.streams.find(stream_id) {
            Ok(place) => self.backlog.streams.at(place).threshold(),
            Err(_) => self.backlog.default_threshold,
        }
    }

    /// Sets the stream's threshold, in bytes. It adds no event.
    pub fn set_buffered_amount_low_threshold(
        &mut self,
        stream_id: StreamId,
        bytes: usize,
    ) -> Result<(), AllocError>
        ensures ok { OnOk result
            (self.new ≡ set_in_queue (stream_low_threshold stream_id.0 bytes) self.old) }
        ensures err { OnErr result (self.new ≡ self.old) }
    {
        self.backlog.set_threshold(stream_id, bytes)
    }

    /// The stream's priority; a greater one goes first.
    pub fn get_priority(&self, stream_id: StreamId) -> u16
        ensures { result ≡ (queue_stream self.now stream_id.0).priority }
    {
        match self.backlog.streams.find(stream_id) {
            Ok(place) => self.backlog.streams.at(place).priority(),
            Err(_) => self.backlog.default_priority,
        }
    }

    /// Sets the stream's priority.
    pub fn set_priority(&mut self, stream_id: StreamId, priority: u16) -> Result<(), AllocError>
        ensures ok { OnOk result
            (self.new ≡ set_in_queue (stream_priority stream_id.0 priority) self.old) }
        ensures err { OnErr result (self.new ≡ self.old) }
    {
        self.backlog.set_priority(stream_id, priority)
    }
}
