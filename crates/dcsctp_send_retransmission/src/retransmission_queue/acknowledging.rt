//! Taking SACKs into account (RFC 9260, sections 6.2.1, 6.3 and 7.2).

ghost use Rattle.std.specs.Prelude.{◌≡◌, ◌++◌, Some, true, OnOk, OnErr};
ghost use Rattle.dcsctp_api.specs.types.Ids.{lifecycle_number};
ghost use Rattle.dcsctp_api.specs.spec.queues.Acknowledging.{ends_delivery, lifecycle_events_of, delivered_events};
ghost use Rattle.dcsctp_send_queue.specs.Telling.{contents, AddsFront};

use super::RetransmissionQueue;
use crate::Item;
use crate::handle_sack_result::HandleSackResult;
use dcsctp_api::types::{Acknowledged, Change};
use dcsctp_api::wire::GapAckBlock;
use dcsctp_api::{Events, LifecycleId, SocketEvent, SocketTime};
use std::alloc::AllocError;
use std::time::Duration;

impl RetransmissionQueue {
    ghost use Rattle.std.specs.Prelude.{take, ◌<◌, ◌≤◌, ◌^◌, IfSome, length};
    ghost use Rattle.std.specs.Duration.{as_nanos};
    ghost use Rattle.std.specs.Option.{option_map};
    ghost use Rattle.dcsctp_api.specs.spec.queues.Reports.{MissesUntil, IsNewlyAcknowledged, IsLastPlace};
    ghost use Rattle.dcsctp_api.specs.spec.queues.Outstanding.{tsn_at};
    ghost use Rattle.dcsctp_send_retransmission.specs.Queue.{HandlesSackInQueue, queue_and_events};
    ghost use Rattle.dcsctp_api.specs.spec.queues.Acknowledging.{acknowledged_until, missed_until, window_after_settling, is_recovering, is_sack_valid};
    ghost use Rattle.dcsctp_api.specs.spec.queues.RoundTrip.{round_trip_of_place};

    /// Does a cumulative TSN ack count? One that is old doesn't, nor does one that was never sent (RFC 9260,
    /// section 6.2.1).
    pub fn is_valid_ack(&self, cumulative_tsn_ack: u32) -> bool
        ensures { result ≡ is_sack_valid self.now cumulative_tsn_ack }
    {
        let count = self
            .outstanding
            .distance_to(cumulative_tsn_ack.wrapping_add(1));
        count <= self.outstanding.len()
    }

    /// Takes a SACK into account, with its blocks in ascending order, apart from each other and from 1 on.
    /// TSNs that were never sent are skipped (RFC 9260, sections 6.2.1, 6.3 and 7.2).
    ///
    /// An item that a block has reported stays acknowledged, whether later SACKs report it or not. For each
    /// message whose last item the cumulative TSN passes, unless it was abandoned, two events report that it
    /// was delivered.
    ///
    /// `Err`: an allocation failed; the first of the events have been added, and the queue is unchanged.
    pub fn handle_sack(
        &mut self,
        events: &mut Events,
        now: SocketTime,
        cumulative_tsn_ack: u32,
        a_rwnd: u32,
        blocks: &[GapAckBlock],
    ) -> Result<HandleSackResult, AllocError>
        ensures turn { HandlesSackInQueue now cumulative_tsn_ack a_rwnd blocks.now
            (queue_and_events self.old (contents events.old))
            (queue_and_events self.new (contents events.new)) result }
        ensures start { self.old.outstanding.first_tsn < 2 ^ 32 }
    {
        let count = self
            .outstanding
            .distance_to(cumulative_tsn_ack.wrapping_add(1));
        if self.outstanding.len() < count {
            return Ok(HandleSackResult::Invalid);
        }
        self.tell_delivered(events, count)?;
        let before = self.outstanding.never_acknowledged_items();
        let newest = self.outstanding.newest_reported(count, blocks);
        let rtt = self.round_trip(newest, now);
        self.congestion.leave_recovery(cumulative_tsn_ack);
        let limit = self.miss_limit(count, blocks, newest);
        let newest_tsn = self.newest_tsn(newest);
        self.acknowledge(count, blocks, limit, newest_tsn);
        self.settle(now, a_rwnd, count);
        Ok(HandleSackResult::Valid {
            rtt,
            reset_error_counter: self.outstanding.never_acknowledged_items() < before,
        })
    }

    // Takes the peer's window from a SACK, and updates the timer; the cumulative TSN has passed that many
    // items (RFC 9260, section 6.3.2). With `Options::follow_rfc` a window that opens has what is in flight sent
    // again at once, if the timer has expired since it was started: those were probes, for which there was no room
    // (section 6.1, rule A).
    fn settle(&mut self, now: SocketTime, a_rwnd: u32, count: usize)
        ensures { self.new ≡ window_after_settling now a_rwnd count self.old }
    {
        let was_closed = self.is_window_closed();
        self.peer_window = a_rwnd as usize;
        if self.follows_rfc && was_closed && !self.is_window_closed() && self.timer.has_expired() {
            let len = self.outstanding.len();
            self.outstanding.change_between(Change::Mark, 0, len);
            self.timer.stop();
        }
        if 0 < count {
            self.timer.stop();
        }
        self.keep_timer(now);
    }

    // Reports which messages the peer has, once that many first items are acknowledged.
    fn tell_delivered(&self, events: &mut Events, count: usize) -> Result<(), AllocError>
        requires { count ≤ length self.now.outstanding.items }
        ensures ok { OnOk result
            (contents events.new
            ≡ contents events.old ++ delivered_events (take count self.now.outstanding.items)) }
        ensures err { OnErr result
            (AddsFront (contents events.old)
            (delivered_events (take count self.now.outstanding.items)) (contents events.new)) }
    {
        for place in 0..count {
            tell_of(events, self.outstanding.item(place))?;
        }
        Ok(())
    }

    // The round trip of the item at the place, unless it was sent again or was to be (RFC 9260, section 6.3.1).
    fn round_trip(&self, place: Option<usize>, now: SocketTime) -> Option<Duration>
        requires { IfSome place (λ newest. newest < length self.now.outstanding.items) }
        ensures { option_map as_nanos result ≡ round_trip_of_place now self.now.outstanding.items
            place }
    {
        let item = self.outstanding.item(place?);
        if item.progress.times_sent_again == 0 && !item.progress.state.is_marked() {
            Some(now - item.sent_at)
        } else {
            None
        }
    }

    // The TSN of the item at the place.
    fn newest_tsn(&self, newest: Option<usize>) -> Option<u32>
        requires { IfSome newest (λ place. place < length self.now.outstanding.items) }
        ensures { result ≡ option_map (tsn_at self.now.outstanding) newest }
    {
        match newest {
            None => None,
            Some(place) => Some(self.outstanding.tsn_at(place)),
        }
    }

    // Acknowledges that many first items and those that the blocks name after them. Misses count before the
    // place `limit`, by the newest TSN that is acknowledged now and wasn't before.
    fn acknowledge(
        &mut self,
        count: usize,
        blocks: &[GapAckBlock],
        limit: usize,
        newest: Option<u32>,
    )
        requires { count ≤ length self.old.outstanding.items }
        ensures { self.new ≡ acknowledged_until count blocks.now limit newest self.old }
    {
        let bytes = self.outstanding.unacknowledged_bytes();
        let was_full = self.congestion.cwnd <= self.outstanding.in_flight_bytes();
        self.outstanding
            .change_between(Change::Acknowledge, 0, count);
        self.outstanding.acknowledge_blocks(count, blocks);
        self.count_misses(count, limit, newest);
        self.outstanding.remove_first(count);
        let left = self.outstanding.unacknowledged_bytes();
        self.congestion.handle_acknowledgement(Acknowledged {
            bytes: bytes.saturating_sub(left),
            advances: 0 < count,
            was_full,
            is_last: self.outstanding.unacknowledged_items() == 0,
        });
    }

    // Counts a miss of what is in flight from the place `count` on and before the place `limit`.
    fn count_misses(&mut self, count: usize, limit: usize, newest: Option<u32>)
        ensures { self.new ≡ missed_until count limit newest self.old }
    {
        let before = self.outstanding.marked_items();
        self.outstanding
            .change_between(Change::Miss(newest), count, limit);
        if before < self.outstanding.marked_items() {
            if !self.congestion.is_in_fast_recovery() {
                self.fast_retransmit_due = true;
            }
            let exit = self.outstanding.next_tsn().wrapping_sub(1);
            self.congestion.handle_loss(exit);
        }
    }

    // Is fast recovery under way, and does the cumulative TSN move?
    fn is_recovering(&self, count: usize) -> bool
        ensures { result ≡ is_recovering count self.now }
    {
        self.congestion.is_in_fast_recovery() && 0 < count
    }

    // The place before which the SACK reports missing what is in flight. It is that of the newest item that
    // it acknowledges. In fast recovery, if the cumulative TSN moves, it is that of the last item that a
    // block names (RFC 9260, section 7.2.4).
    fn miss_limit(&self, count: usize, blocks: &[GapAckBlock], newest: Option<usize>) -> usize
        requires count { count ≤ length self.now.outstanding.items }
        requires newest { IsLastPlace (IsNewlyAcknowledged count blocks.now)
            self.now.outstanding.items newest }
        ensures { MissesUntil (is_recovering count self.now) count blocks.now
            self.now.outstanding.items result }
    {
        if self.is_recovering(count) {
            self.outstanding.last_named(count, blocks).unwrap_or(0)
        } else {
            newest.unwrap_or(0)
        }
    }
}

// Reports on an item that the cumulative TSN passes.
fn tell_of(events: &mut Events, item: &Item) -> Result<(), AllocError>
    ensures ok { OnOk result
        (contents events.new
        ≡ contents events.old
        ++ lifecycle_events_of item.now.fragment.lifecycle (ends_delivery item.now)) }
    ensures err { OnErr result
        (AddsFront (contents events.old)
        (lifecycle_events_of item.now.fragment.lifecycle (ends_delivery item.now))
        (contents events.new)) }
{
    match item.fragment.lifecycle_id {
        None => Ok(()),
        Some(id) => {
            if item.fragment.is_end && !item.progress.state.is_abandoned() {
                tell_delivered(events, id)
            } else {
                Ok(())
            }
        }
    }
}

// Reports that the peer has a message.
fn tell_delivered(events: &mut Events, id: LifecycleId) -> Result<(), AllocError>
    ensures ok { OnOk result
        (contents events.new
        ≡ contents events.old ++ lifecycle_events_of (Some (lifecycle_number id)) true) }
    ensures err { OnErr result
        (AddsFront (contents events.old) (lifecycle_events_of (Some (lifecycle_number id)) true)
        (contents events.new)) }
{
    events.add(SocketEvent::OnLifecycleMessageDelivered(id))?;
    events.add(SocketEvent::OnLifecycleEnd(id))
}
