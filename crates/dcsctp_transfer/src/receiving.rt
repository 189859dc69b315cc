//! What is received: data and what the peer skips (RFC 9260, sections 6.2 and 6.5; RFC 3758, section 3.6).
//! Also when it is acknowledged, and the messages that a user takes.

ghost use Rattle.std.specs.Prelude.{◌≡◌, map, ◌∷◌, ◌&&◌, nat_lt, [], length, true, false, if◌then◌else◌, OnOk, OnErr, IsSome, IfSome, IfNone};
ghost use Rattle.dcsctp_send_retransmission.specs.spec.endpoint.TimeTurns.{has_come};
ghost use Rattle.dcsctp_send_retransmission.specs.spec.endpoint.TransferMoves.{has_room, dropping, ReceivesData, MovesForward};
ghost use Rattle.dcsctp_send_retransmission.specs.spec.endpoint.DataOutcomes.{open_window, taken_to};
ghost use Rattle.dcsctp_send_retransmission.specs.spec.queues.Transfer.{advertised_window};
ghost use Rattle.dcsctp_send_retransmission.specs.types.queues.Messages.{message_content};
ghost use Rattle.dcsctp_receive_reassembly.specs.Streams.{chunk_of};
ghost use Rattle.dcsctp_send_retransmission.specs.spec.queues.Tracker.{after_packet_end, is_acknowledgement_due, is_valid_tsn, delayed_acknowledgement, delay_over};

use crate::transfer::Transfer;
use crate::windows::{open_window, part_overhead};
use dcsctp_receive_reassembly::{Data, ReassemblyQueue, SkippedTo};
use dcsctp_send_retransmission::api::Message;
use dcsctp_send_retransmission::types::{Options, SocketTime};
use std::alloc::AllocError;
use std::collections::VecDeque;

impl Transfer {
    // Is there room for data with this TSN: are less than nine tenths of the receive window in use? With
    // `Options::follow_rfc` data that fills a gap is taken while some of the window is left. So is the first that is
    // missing while less than twice the window is held, since nothing else would free it: what a SACK has reported
    // isn't given up again (RFC 9260, section 6.2).
    fn has_room(&self, tsn: u32) -> bool
        requires { is_valid_tsn self.now.tracker.cumulative tsn ≡ true }
        ensures { result ≡ has_room tsn self.now }
    {
        !self.reassembly_queue.is_above_watermark()
            || (self.data_tracker.follows_rfc()
                && self.data_tracker.is_below_highest(tsn)
                && (0 < self.reassembly_queue.remaining_bytes()
                    || (self.data_tracker.is_first_missing(tsn)
                        && self.reassembly_queue.is_below_double())))
    }

    // Drops data for which there is no room. With `Options::follow_rfc` it is answered at once.
    fn drop_data(&mut self)
        ensures { self.new ≡ dropping self.old.tracker.follows_rfc self.old }
    {
        if self.data_tracker.follows_rfc() {
            self.data_tracker.demand_acknowledgement();
        }
    }

    /// Receives a DATA or I-DATA chunk with this TSN (RFC 9260, sections 6.2 and 6.5). `immediate_ack` is its
    /// I flag, by which it is acknowledged at once. It is dropped if its TSN is more than 65,535 ahead of the
    /// cumulative one, or if nine tenths of the receive window or more are in use. With `Options::follow_rfc`
    /// the latter is answered at once, and data that fills a gap is taken until the window is used up.
    ///
    /// If an allocation fails, the data is dropped, though its TSN may count as received. Messages that are
    /// ready are kept.
    #[inline(always)]
    pub fn receive_data(
        &mut self,
        tsn: u32,
        immediate_ack: bool,
        chunk: Data,
    ) -> Result<(), AllocError>
        ensures ok { OnOk result
            (ReceivesData
            (record { tsn = tsn; immediate_ack = immediate_ack; chunk = chunk_of chunk })
            self.old self.new) }
        ensures rest { OnErr result
            ((self.new.retransmission ≡ self.old.retransmission)
            × (self.new.timeout ≡ self.old.timeout)) }
        ensures ready { OnErr result
            (self.new.reassembly.incoming.ready ≡ self.old.reassembly.incoming.ready) }
    {
        if !self.data_tracker.is_tsn_valid(tsn) {
            return Ok(());
        }
        if !self.has_room(tsn) {
            self.drop_data();
            return Ok(());
        }
        if self.data_tracker.observe(tsn, immediate_ack)? {
            self.reassembly_queue.add(tsn, chunk)?;
        }
        Ok(())
    }

    /// Handles a FORWARD-TSN or I-FORWARD-TSN chunk (RFC 3758, section 3.6; RFC 8260, section 2.3.1): all up
    /// to `new_cumulative_tsn` counts as received, and the messages that `skipped` names are skipped. It
    /// changes nothing if the TSN is more than 65,535 ahead of the cumulative one.
    ///
    /// If an allocation fails, no message is skipped, though the TSNs count as received. Messages that are
    /// ready are kept.
    pub fn handle_forward_tsn(
        &mut self,
        new_cumulative_tsn: u32,
        skipped: &[SkippedTo],
    ) -> Result<(), AllocError>
        ensures ok { OnOk result (MovesForward new_cumulative_tsn skipped.now self.old self.new) }
        ensures rest { OnErr result
            ((self.new.retransmission ≡ self.old.retransmission)
            × (self.new.timeout ≡ self.old.timeout)) }
        ensures ready { OnErr result
            (self.new.reassembly.incoming.ready ≡ self.old.reassembly.incoming.ready) }
    {
        if !self.data_tracker.is_tsn_valid(new_cumulative_tsn) {
            return Ok(());
        }
        if self.data_tracker.handle_forward_tsn(new_cumulative_tsn) {
            self.reassembly_queue
                .handle_forward_tsn(new_cumulative_tsn, skipped)?;
        }
        Ok(())
    }

    /// Call it once all of a packet was handled. Received data that needn't be acknowledged at once is
    /// acknowledged after a delay, which runs from now on (RFC 9260, section 6.2).
    pub fn end_packet(&mut self, now: SocketTime)
        ensures { self.new ≡ record self.old { tracker = after_packet_end now self.old.tracker } }
    {
        self.data_tracker.observe_packet_end(now);
    }

    /// Is an acknowledgement due, whatever else is sent?
    pub fn is_acknowledgement_due(&self) -> bool
        ensures { result ≡ is_acknowledgement_due self.now.tracker }
    {
        self.data_tracker.is_acknowledgement_due()
    }

    /// When a delayed acknowledgement is due; none if none is delayed.
    pub fn acknowledgement_deadline(&self) -> Option<SocketTime>
        ensures { result ≡ delayed_acknowledgement self.now.tracker }
    {
        self.data_tracker.next_timeout()
    }

    /// Advances the delay of an acknowledgement to `now`, and returns whether it is over. Then the
    /// acknowledgement is due at once; else nothing changes.
    pub fn expire_acknowledgement(&mut self, now: SocketTime) -> bool
        ensures answer { result ≡ has_come now (delayed_acknowledgement self.old.tracker) }
        ensures left { self.new
            ≡ record self.old {
              tracker = if result then delay_over self.old.tracker
                  else self.old.tracker;
            } }
    {
        self.data_tracker.handle_timeout(now)
    }

    /// Frees the room that nothing uses.
    pub fn free_room(&mut self)
        ensures { self.new ≡ self.old }
    {
        self.retransmission_queue.free_room();
        self.reassembly_queue.free_room();
    }

    /// Takes the message that became ready first, and gives its bytes back to the receive window; `None` if
    /// none is ready. With `Options::follow_rfc` an acknowledgement is due at the moment `now` if a small
    /// window opens by that (RFC 9260, section 6.2). Allocates nothing.
    pub fn get_next_message(&mut self, options: &Options, now: SocketTime) -> Option<Message>
        ensures some { IfSome result
            (λ message. self.old.reassembly.incoming.ready
            ≡ message_content message ∷ self.new.reassembly.incoming.ready) }
        ensures left { IfSome result
            (λ _. self.new ≡ taken_to options.now now self.new.reassembly.incoming.ready self.old) }
        ensures none { IfNone result
            ((self.old.reassembly.incoming.ready ≡ []) × (self.new ≡ self.old)) }
    {
        let was_small = self.is_window_small(options);
        let message = self.reassembly_queue.get_next_message()?;
        if was_small && !self.is_window_small(options) {
            self.data_tracker.hasten_acknowledgement(now);
        }
        Some(message)
    }

    /// The messages that are ready to be taken, in order. What was received is as in a new association then.
    /// Allocates nothing.
    pub fn take_ready_messages(&mut self, options: &Options) -> VecDeque<Message>
        ensures { map message_content result.items ≡ self.old.reassembly.incoming.ready }
    {
        let empty = ReassemblyQueue::new(
            self.alloc,
            options.max_receiver_window_buffer_size,
            part_overhead(options),
        );
        std::mem::replace(&mut self.reassembly_queue, empty).into_ready_messages()
    }

    // Is the window that a SACK reports too small to be worth reporting? Only with `Options::follow_rfc`.
    fn is_window_small(&self, options: &Options) -> bool
        ensures { result
            ≡ (self.now.tracker.follows_rfc
            && nat_lt (advertised_window self.now) (open_window options.now)) }
    {
        self.data_tracker.follows_rfc() && self.window_told() < open_window(options)
    }

    /// What a SACK says is left of the receive window (RFC 9260, section 3.3.4). With `Options::follow_rfc`
    /// it is what is left for new data.
    pub fn window_told(&self) -> usize
        ensures { result ≡ advertised_window self.now }
    {
        if self.data_tracker.follows_rfc() {
            self.reassembly_queue.bytes_to_watermark()
        } else {
            self.reassembly_queue.remaining_bytes()
        }
    }

    /// How many messages are ready to be taken.
    pub fn messages_ready_count(&self) -> usize
        ensures { result ≡ length self.now.reassembly.incoming.ready }
    {
        self.reassembly_queue.messages_ready_count()
    }
}
