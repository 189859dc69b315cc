//! What was received and was not taken by the user yet (RFC 9260, sections 6.5, 6.6 and 6.9; RFC 8260; RFC
//! 3758, section 3.6; RFC 6525, section 5.2.2). The association hands it each data chunk whose TSN is new,
//! each FORWARD TSN chunk, and each reset of incoming streams.

ghost use Rattle.std.specs.Prelude.{◌≡◌, ◌≤◌, true, false, length, [], Some, IsOk, OnOk, OnErr, IsSome};
ghost use Rattle.dcsctp_api.specs.types.Ids.{stream_numbers};
ghost use Rattle.dcsctp_api.specs.spec.queues.Incoming.{AreInOrder};
ghost use Rattle.dcsctp_api.specs.types.queues.Messages.{message_content};
ghost use Rattle.dcsctp_receive_reassembly.specs.Streams.{chunk_of};

use crate::arrivals::Data;
use crate::deferral::{Deferral, WaitingData, handle_deferral, keep_skips, part_entries};
use crate::handover::{ordered_streams, restored_streams};
use crate::incoming::Incoming;
use crate::named::NamedStreams;
use crate::numbers::is_tsn_beyond;
use crate::runs::part_used;
use crate::stream::FIRST_NUMBER;
use dcsctp_api::types::{HandoverReadiness, HandoverReceive, SkippedTo};
use dcsctp_api::{Message, StreamId};
use std::alloc::{AllocError, Global};
use std::collections::VecDeque;
use std::fmt;
use std::marker::Model;

// So much of the receive window can't be counted.
const MOST_USED: u128 = 0x1_0000_0000_0000_0000;

/// The data that was received: parts of messages, whole messages that wait for their turn, and whole messages
/// that the user did not take yet.
#[derive(Drop)]
pub struct ReassemblyQueue {
    incoming: Incoming,
    max_size: usize,
    overhead: usize,
    deferral: Option<Deferral>,
}

impl Model for ReassemblyQueue {
    ghost use Rattle.std.specs.Option.{option_map};
    ghost use Rattle.dcsctp_api.specs.spec.queues.Reassembly.{ReassemblyState};
    ghost use Rattle.dcsctp_receive_reassembly.specs.Queue.{deferral_of};
    ghost use Rattle.dcsctp_receive_reassembly.specs.Reassembly.{incoming_of};

    ghost Value = { ReassemblyState };

    ghost use Rattle.dcsctp_receive_reassembly.specs.QueueFields.{IsCounted};

    ghost view = { λ queue. record {
      incoming = incoming_of queue.incoming;
      max_size = queue.max_size;
      overhead = queue.overhead;
      deferral = option_map deferral_of queue.deferral;
    } };

    ghost invariant = { IsCounted };
}

/// It prints its name alone.
impl fmt::Debug for ReassemblyQueue {
    ghost use Rattle.std.specs.Prelude.{None};

    ghost debug_output = { λ _. None };

    fn fmt<W: fmt::Write>(&self, f: &mut fmt::Formatter<W>) -> fmt::Result {
        f.write_str("ReassemblyQueue")
    }
}

impl ReassemblyQueue {
    ghost use Rattle.std.specs.Prelude.{◌+◌, ◌*◌, ◌/◌, ◌<◌, nat_le, ◌∷◌, IfSome, IfNone, map};
    ghost use Rattle.dcsctp_api.specs.spec.queues.Reassembly.{new_reassembly, is_above_watermark, is_below_double, bytes_to_watermark, with_ready, window_used, remaining_bytes, can_count, is_data_deferred, with_deferred, AddsData, SkipsData, DeferralModel, ForwardsBeside, is_forward_deferred, deferring, EndsDeferral, StaysDeferred};
    ghost use Rattle.dcsctp_api.specs.spec.queues.Readiness.{reassembly_readiness};
    ghost use Rattle.dcsctp_api.specs.spec.queues.ReceivedParts.{with_reassembly, RestoresReassembly};
    ghost use Rattle.dcsctp_api.specs.types.Snapshot.{received_part};
    ghost use Rattle.dcsctp_receive_reassembly.specs.Queue.{SameQueue};

    /// Nothing was received yet, and the receive window has `max_size` bytes. Each part that is kept, and each
    /// whole message that waits, counts `overhead` beside its bytes. Allocates nothing.
    pub fn new(alloc: Global, max_size: usize, overhead: usize) -> ReassemblyQueue
        ensures { result ≡ new_reassembly max_size overhead }
    {
        ReassemblyQueue {
            incoming: Incoming::new(alloc),
            max_size,
            overhead,
            deferral: None,
        }
    }

    /// Takes the message that became ready first; none if none is ready. Allocates nothing.
    pub fn get_next_message(&mut self) -> Option<Message>
        ensures some { IfSome result
            (λ message. self.old.incoming.ready
            ≡ message_content message ∷ self.new.incoming.ready) }
        ensures left { IfSome result (λ _. self.new ≡ with_ready self.new.incoming.ready self.old) }
        ensures none { IfNone result ((self.old.incoming.ready ≡ []) × (self.new ≡ self.old)) }
    {
        self.incoming.next_message()
    }

    /// Frees the room for messages that are ready if there are none.
    pub fn free_room(&mut self)
        ensures { self.new ≡ self.old }
    {
        if self.incoming.ready.is_empty() {
            self.incoming.ready.shrink_to_fit();
        }
    }

    /// The messages that are ready to be taken, in order. All else is dropped. Allocates nothing.
    pub fn into_ready_messages(self) -> VecDeque<Message>
        ensures { map message_content result.items ≡ self.incoming.ready }
    {
        self.incoming.ready
    }

    /// How many messages are ready to be taken.
    pub fn messages_ready_count(&self) -> usize
        ensures { result ≡ length self.now.incoming.ready }
    {
        self.incoming.ready.len()
    }

    /// How many messages became ready so far. It stops at 2^64 - 1.
    pub fn rx_messages_count(&self) -> u64
        ensures { result ≡ self.now.incoming.messages_received }
    {
        self.incoming.messages_received
    }

    /// Why what was received can't be handed over to another process: a reset of streams is deferred, or
    /// something waits for more.
    pub fn get_handover_readiness(&self) -> HandoverReadiness
        ensures reasons { result.0 ≡ reassembly_readiness self.now }
        ensures streams { AreInOrder self.now.incoming.streams }
    {
        HandoverReadiness::STREAM_RESET_DEFERRED & self.deferral.is_some()
            | HandoverReadiness::STREAM_HAS_UNASSEMBLED_CHUNKS & self.incoming.is_unassembled()
    }

    /// Adds what a snapshot has of it: the TSN that was handled last, and for each stream the number of its
    /// next ordered message. `Err`: an allocation failed, and nothing has changed.
    pub fn add_to_handover_state(&self, rx: &mut HandoverReceive) -> Result<(), AllocError>
        ensures ok { OnOk result
            (received_part rx.new ≡ with_reassembly self.now (received_part rx.old)) }
        ensures err { OnErr result (received_part rx.new ≡ received_part rx.old) }
    {
        rx.ordered_streams = ordered_streams(self.incoming.alloc, &self.incoming.streams)?;
        rx.unordered_streams.clear();
        rx.last_assembled_tsn = (self.incoming.last_tsn_number % 0x1_0000_0000) as u32;
        Ok(())
    }

    /// A queue that was just made continues with the streams of the snapshot, after its last TSN. If a stream
    /// is listed twice, the first entry counts. `Err`: an allocation failed, and nothing has changed.
    pub fn restore_from_state(&mut self, rx: &HandoverReceive) -> Result<(), AllocError>
        requires { self.old.incoming.streams ≡ [] }
        ensures ok { OnOk result (RestoresReassembly (received_part rx.now) self.old self.new) }
        ensures err { OnErr result (self.new ≡ self.old) }
    {
        self.incoming.streams = restored_streams(
            self.incoming.alloc,
            rx.ordered_streams.as_slice(),
        )?;
        self.incoming.last_tsn_number = FIRST_NUMBER + u64::from(rx.last_assembled_tsn);
        Ok(())
    }

    /// How many more bytes can be kept: the receive window that is announced to the peer (RFC 9260, section
    /// 6.2).
    pub fn remaining_bytes(&self) -> usize
        ensures left { result ≡ remaining_bytes self.now }
        ensures within { result ≤ self.now.max_size }
    {
        (self.max_size as u128).saturating_sub(self.incoming.used) as usize
    }

    /// How many more bytes can be kept until nine tenths of the receive window are in use.
    pub fn bytes_to_watermark(&self) -> usize
        ensures { result ≡ bytes_to_watermark self.now }
    {
        let watermark = (9 * (self.max_size as u128) + 9) / 10;
        watermark.saturating_sub(self.incoming.used) as usize
    }

    /// Is nothing left of the receive window?
    pub fn is_full(&self) -> bool
        ensures { result ≡ nat_le self.now.max_size (window_used self.now) }
    {
        self.max_size as u128 <= self.incoming.used
    }

    /// Is less than twice the receive window in use, and less than 2^63 bytes?
    pub fn is_below_double(&self) -> bool
        ensures { result ≡ is_below_double self.now }
    {
        self.incoming.used < (2 * (self.max_size as u128)).min(1 << 63)
    }

    /// Are nine tenths of the receive window in use, or more?
    pub fn is_above_watermark(&self) -> bool
        ensures { result ≡ is_above_watermark self.now }
    {
        9 * (self.max_size as u128) <= self.incoming.used.saturating_mul(10)
    }

    // Does what comes with this TSN on this stream wait for the end of a deferred reset?
    #[inline(always)]
    fn is_deferred(&self, tsn: u32, id: StreamId) -> bool
        ensures { result ≡ is_data_deferred tsn id.0 self.now.deferral }
    {
        match &self.deferral {
            None => false,
            Some(deferral) => {
                is_tsn_beyond(tsn, deferral.last_tsn) && deferral.streams.names(id)
            }
        }
    }

    /// Adds data whose TSN is new. Messages that are whole now become ready to be taken. An unordered one
    /// does at once, an ordered one when all before it on its stream did (RFC 9260, sections 6.5, 6.6 and
    /// 6.9). Unlike RFC 9260, section 6.6, an ordered one also does at once if a message of its number waits
    /// already (docs/design/decisions.md, A repeated number doesn't wait).
    ///
    /// The payload of a message of one chunk is kept as it is; that of a longer one is joined by one copy.
    /// Parts of one message have TSNs in a row from B to E (DATA), or fragment numbers in a row (RFC 8260,
    /// section 2.1). A stream sequence number is read from the expected one on, up to 65,535 ahead. I-DATA of
    /// an ordered message whose identifier is before the expected one is dropped, as is a part that is there
    /// already. In a deferred reset data beyond its last TSN waits on the streams that it names.
    ///
    /// Data whose bytes would fill 2^64 of the receive window is dropped. If an allocation fails, the data is
    /// dropped, and nothing else has changed.
    pub fn add(&mut self, tsn: u32, chunk: Data) -> Result<(), AllocError>
        ensures ok { OnOk result (AddsData tsn (chunk_of chunk) self.old self.new) }
        ensures too_much { can_count (length chunk.payload.items) self.old ≡ false → IsOk result }
        ensures err { OnErr result (SameQueue self.old self.new) }
    {
        if MOST_USED - chunk.payload.len() as u128 <= self.incoming.used {
            return Ok(());
        }
        if self.is_deferred(tsn, chunk.stream_id) {
            return self.defer(tsn, chunk);
        }
        self.incoming.add_data(tsn, chunk, self.overhead)
    }

    // Data waits for the end of a deferred reset.
    fn defer(&mut self, tsn: u32, chunk: Data) -> Result<(), AllocError>
        requires deferral { IsSome self.old.deferral }
        requires bytes { can_count (length chunk.payload.items) self.old ≡ true }
        ensures ok { OnOk result (self.new ≡ with_deferred tsn (chunk_of chunk) self.old) }
        ensures err { OnErr result (self.new ≡ self.old) }
    {
        if let Some(deferral) = &mut self.deferral {
            let size = chunk.payload.len();
            deferral
                .waiting
                .push_back(WaitingData { tsn, data: chunk })?;
            let used = part_used(size, self.overhead);
            self.incoming.used = self.incoming.used.saturating_add(used);
        }
        Ok(())
    }

    /// Handles a FORWARD TSN or I-FORWARD-TSN chunk (RFC 3758, section 3.6; RFC 8260, section 2.3.1). On each
    /// stream that it names, the ordered messages up to its number are skipped. Those that aren't whole are
    /// dropped, and whole ones that waited for them become ready. Parts of unordered DATA messages are
    /// dropped if they begin at the new cumulative TSN or before it. Those of I-DATA are dropped if their
    /// message is at most the number named. While a reset is deferred, a chunk beyond its last TSN waits on
    /// the streams that the reset names; on the others it is handled. Of entries that wait for the same
    /// messages the one that came last counts.
    ///
    /// `Err`: an allocation failed, and nothing has changed.
    pub fn handle_forward_tsn(
        &mut self,
        new_cumulative_tsn: u32,
        skipped: &[SkippedTo],
    ) -> Result<(), AllocError>
        ensures ok { OnOk result (SkipsData new_cumulative_tsn skipped.now self.old self.new) }
        ensures err { OnErr result (SameQueue self.old self.new) }
    {
        if self.is_forward_deferred(new_cumulative_tsn) {
            return self.forward_beside(new_cumulative_tsn, skipped);
        }
        self.incoming
            .forward(new_cumulative_tsn, skipped, self.overhead)
    }

    // Does a FORWARD TSN wait for the end of a deferred reset?
    fn is_forward_deferred(&self, tsn: u32) -> bool
        ensures { result ≡ is_forward_deferred tsn self.now.deferral }
    {
        match &self.deferral {
            None => false,
            Some(deferral) => is_tsn_beyond(tsn, deferral.last_tsn),
        }
    }

    // A FORWARD TSN was received while a reset is deferred. On the streams of the reset it waits, and on the
    // others it is handled. All memory is allocated before anything changes.
    fn forward_beside(&mut self, tsn: u32, skipped: &[SkippedTo]) -> Result<(), AllocError>
        requires { is_forward_deferred tsn self.old.deferral ≡ true }
        ensures ok { OnOk result
            ((deferral : DeferralModel) → self.old.deferral ≡ Some deferral
            → ForwardsBeside tsn skipped.now deferral self.old self.new) }
        ensures err { OnErr result (SameQueue self.old self.new) }
    {
        if let Some(deferral) = &mut self.deferral {
            let parted = part_entries(self.incoming.alloc, &deferral.streams, skipped)?;
            let beside = parted.beside.as_slice();
            self.incoming.prepare(beside)?;
            keep_skips(
                self.incoming.alloc,
                &mut deferral.skips,
                tsn,
                parted.within.as_slice(),
            )?;
            self.incoming.skip_past(tsn, beside, self.overhead);
        }
        Ok(())
    }

    /// A reset of streams was received before all data that was sent before it (RFC 6525, section 5.2.2). On
    /// the named streams (an empty list: all), what comes beyond the sender's last TSN of that time waits
    /// until the streams are reset. While one such reset waits, another changes nothing.
    ///
    /// `Err`: an allocation failed, and nothing has changed.
    pub fn enter_deferred_reset(
        &mut self,
        sender_last_assigned_tsn: u32,
        streams: &[StreamId],
    ) -> Result<(), AllocError>
        ensures ok { OnOk result
            (self.new ≡ deferring sender_last_assigned_tsn (stream_numbers streams.now) self.old) }
        ensures err { OnErr result (self.new ≡ self.old) }
    {
        if self.deferral.is_some() {
            return Ok(());
        }
        self.deferral = Some(Deferral {
            last_tsn: sender_last_assigned_tsn,
            streams: NamedStreams::new(self.incoming.alloc, streams)?,
            waiting: VecDeque::new(self.incoming.alloc),
            skips: None,
        });
        Ok(())
    }

    /// Resets the streams that are named (an empty list: all): the next message on each has the number 0 (RFC
    /// 6525, section 5.2.2). What was kept of them is dropped, except for messages that are ready. Then the
    /// data that waited for this is handled, in the order in which it came, and then what waited to be skipped.
    ///
    /// `Err`: an allocation failed for something that waited. That and what comes after it keep waiting, with
    /// the deferral. The streams are reset, and what was handled before stays so.
    pub fn reset_streams_and_leave_deferred_reset(
        &mut self,
        streams: &[StreamId],
    ) -> Result<(), AllocError>
        ensures ok { OnOk result (EndsDeferral (stream_numbers streams.now) self.old self.new) }
        ensures err { OnErr result (StaysDeferred (stream_numbers streams.now) self.old self.new) }
    {
        self.incoming.reset_streams(streams, self.overhead);
        match self.deferral.take() {
            None => Ok(()),
            Some(mut deferral) => match handle_deferral(
                &mut self.incoming,
                &mut deferral,
                self.overhead,
            ) {
                Ok(()) => Ok(()),
                Err(error) => {
                    self.deferral = Some(deferral);
                    Err(error)
                }
            },
        }
    }
}
