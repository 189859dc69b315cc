//! Chunks that are sent again, with others or at once (RFC 9260, sections 6.1 and 7.2.4; RFC 3758, section 3.5).

use super::RetransmissionQueue;
use crate::packet::Packet;
use dcsctp_api::{Events, SocketTime};
use dcsctp_send_queue::SendQueue;
use std::alloc::AllocError;

impl RetransmissionQueue {
    ghost use Rattle.std.specs.Prelude.{◌≡◌, ℕ, List, true, false, if◌then◌else◌, IfNone, ◌+◌, ◌<◌, ◌≤◌, OnOk, OnErr, IfOk, IfSome, length};
    ghost use Rattle.dcsctp_api.specs.spec.queues.SendQueue.{SendQueueState};
    ghost use Rattle.dcsctp_api.specs.declared.events.SocketEvent.{SocketEvent};
    ghost use Rattle.dcsctp_api.specs.spec.queues.Items.{marked_items};
    ghost use Rattle.dcsctp_api.specs.spec.queues.Retransmission.{has_fast_retransmit, timer_with};
    ghost use Rattle.dcsctp_api.specs.spec.queues.NextItem.{IsNextMarked, IsMarkedItem, HaltsAgain, is_abandonment_due};
    ghost use Rattle.dcsctp_send_retransmission.specs.Halting.{SendsAgain, GoesAgain};
    ghost use Rattle.dcsctp_send_retransmission.specs.States.{TriesAtOnce, stage, Goes, SendsItemAgain};
    ghost use Rattle.dcsctp_api.specs.spec.queues.Filling.{SendsMarked, StepAgain};
    ghost use Rattle.dcsctp_api.specs.spec.queues.AtOnce.{HaltsAtOnce, SendsFirst, timer_restarted};
    ghost use Rattle.dcsctp_api.specs.spec.queues.ItemMessages.{AtPlace};
    ghost use Rattle.dcsctp_send_retransmission.specs.Sending.{KeepsAllFragments, ContinuesPacket, HandsOut};

    // Puts marked chunks into the packet, the first ones first, while they fit and the windows allow.
    pub(super) fn send_again(
        &mut self,
        events: &mut Events,
        queue: &mut SendQueue,
        now: SocketTime,
        packet: &mut Packet,
    ) -> Result<(), AllocError>
        ensures fills { ContinuesPacket self.old packet.old self.new packet.new }
        ensures halts { OnOk result (HaltsAgain now packet.new.room self.new) }
        ensures few { OnOk result
            (length packet.new.tsns.items + marked_items self.new.outstanding.items
            ≤ length packet.old.tsns.items + marked_items self.old.outstanding.items) }
        ensures steps { Goes now (StepAgain now)
            (stage self.old queue.old events.old packet.old.tsns.items packet.old.room)
            (stage self.new queue.new events.new packet.new.tsns.items packet.new.room) result }
    {
        while self.outstanding.marked_items() != 0 {
            if !self.send_one_again(events, queue, now, packet)? {
                return Ok(());
            }
        }
        Ok(())
    }

    // Puts the first marked chunk into the packet, if there is one, the windows allow it and it fits.
    fn send_one_again(
        &mut self,
        events: &mut Events,
        queue: &mut SendQueue,
        now: SocketTime,
        packet: &mut Packet,
    ) -> Result<bool, AllocError>
        ensures fills { ContinuesPacket self.old packet.old self.new packet.new }
        ensures one { IfOk result
            (λ sent. length packet.new.tsns.items
            ≡ length packet.old.tsns.items + (if sent then 1 else 0)) }
        ensures again { IfOk result (GoesAgain now self.old self.new packet.new.room) }
        ensures steps { Goes now (StepAgain now)
            (stage self.old queue.old events.old packet.old.tsns.items packet.old.room)
            (stage self.new queue.new events.new packet.new.tsns.items packet.new.room) result }
    {
        match self.next_to_send_again(events, queue, now)? {
            None => Ok(false),
            Some(place) => {
                if !self.can_send_data() {
                    return Ok(false);
                }
                self.send_again_at(place, packet)
            }
        }
    }

    // Sends the chunk at the place again, which waits for that, if it fits into the packet.
    fn send_again_at(&mut self, place: usize, packet: &mut Packet) -> Result<bool, AllocError>
        requires { IsMarkedItem place self.old.outstanding.items }
        ensures fills { ContinuesPacket self.old packet.old self.new packet.new }
        ensures one { IfOk result
            (λ sent. length packet.new.tsns.items
            ≡ length packet.old.tsns.items + (if sent then 1 else 0)) }
        ensures again { IfOk result
            (SendsAgain place self.old.outstanding packet.old.room self.new.outstanding
            packet.new.room) }
        ensures sends { AtPlace self.old.outstanding.items place
            (λ item. IfOk result (SendsItemAgain place item self.old packet.old self.new
            packet.new)) }
        ensures err { OnErr result (self.new ≡ self.old) }
    {
        let item = self.outstanding.item(place);
        let size = item.size(self.outstanding.is_interleaving());
        if packet.room < size {
            return Ok(false);
        }
        let _ = self.outstanding.len();
        packet.tsns.push(self.outstanding.tsn_at(place))?;
        packet.room -= size;
        let next = self.outstanding.next_tsn();
        self.outstanding.send_again(place, next);
        Ok(true)
    }

    // The first place with an item that waits to be sent again.
    fn next_marked(&mut self) -> Option<usize>
        ensures same { self.new ≡ self.old }
        ensures some { IfSome result (λ place. IsNextMarked place self.old.outstanding.items) }
        ensures none { IfNone result (marked_items self.old.outstanding.items ≡ 0) }
    {
        self.outstanding.next_marked()
    }

    // The place of the first chunk that is to be sent again. Messages that may not be sent again are
    // abandoned.
    fn next_to_send_again(
        &mut self,
        events: &mut Events,
        queue: &mut SendQueue,
        now: SocketTime,
    ) -> Result<Option<usize>, AllocError>
        ensures keeps { KeepsAllFragments self.old self.new }
        ensures found { IfOk result
            (λ found. IfSome found (λ place. IsNextMarked place self.new.outstanding.items)) }
        ensures none { IfOk result
            (λ found. IfNone found (marked_items self.new.outstanding.items ≡ 0)) }
        ensures fewer { OnOk result
            (marked_items self.new.outstanding.items ≤ marked_items self.old.outstanding.items) }
        ensures stays { IfOk result
            (λ found. IfSome found
            (λ place. AtPlace self.new.outstanding.items place
            (λ item. is_abandonment_due now self.new.partial_reliability item ≡ false))) }
        ensures steps { (tsns : List ℕ) (room : ℕ)
            → Goes now (StepAgain now) (stage self.old queue.old events.old tsns room)
            (stage self.new queue.new events.new tsns room) result }
    {
        while let Some(place) = self.next_marked() {
            if !self.is_to_be_given_up(place, now) {
                return Ok(Some(place));
            }
            self.give_up(events, queue, now, place)?;
        }
        Ok(None)
    }

    /// Do chunks wait that were found lost and are to be sent at once, whatever the congestion window is (RFC
    /// 9260, section 7.2.4)?
    pub fn has_data_to_be_fast_retransmitted(&self) -> bool
        ensures { result ≡ has_fast_retransmit self.now }
    {
        self.fast_retransmit_due && 0 < self.outstanding.marked_items()
    }

    /// The TSNs of the chunks that are sent at once, in a packet with that many bytes of room. They are the
    /// first of those that are to be sent again, as many as fit. The others are left to `get_chunks_to_send`.
    /// So is one that may be abandoned, with all after it.
    ///
    /// The retransmission timer restarts if the first item that is outstanding is among them.
    ///
    /// `Err`: an allocation failed. What was sent is outstanding.
    pub fn get_chunks_for_fast_retransmit(
        &mut self,
        now: SocketTime,
        bytes: usize,
    ) -> Result<Vec<u32>, AllocError>
        ensures hands { IfOk result (λ tsns. HandsOut bytes self.new.outstanding tsns.items) }
        ensures steps { TriesAtOnce now bytes self.old self.new result }
    {
        self.fast_retransmit_due = false;
        let mut packet = Packet {
            tsns: Vec::new(self.alloc),
            room: bytes,
        };
        let restarts = self.send_again_at_once(now, &mut packet)?;
        self.count_sent_again(bytes.saturating_sub(packet.room));
        self.time_again(now, restarts);
        Ok(packet.tsns)
    }

    // Restarts the timer if the first item was sent again.
    fn time_again(&mut self, now: SocketTime, restarts: bool)
        ensures { self.new
            ≡ record self.old {
              timer = timer_with now self.old.outstanding.items
                  (timer_restarted restarts self.old.timer);
            } }
    {
        if restarts {
            self.timer.stop();
        }
        self.keep_timer(now);
    }

    // Puts marked chunks into the packet, the first ones first, while they fit, up to one that is to be
    // abandoned. Is the first item that is outstanding among them?
    fn send_again_at_once(
        &mut self,
        now: SocketTime,
        packet: &mut Packet,
    ) -> Result<bool, AllocError>
        ensures fills { ContinuesPacket self.old packet.old self.new packet.new }
        ensures steps { (waiting : SendQueueState) (events : List SocketEvent)
            → Goes now (SendsMarked now)
            (stage self.old waiting events packet.old.tsns.items packet.old.room)
            (stage self.new waiting events packet.new.tsns.items packet.new.room) result }
        ensures halts { OnOk result (HaltsAtOnce now packet.new.room self.new) }
        ensures first { IfOk result
            (SendsFirst self.old.outstanding.items self.new.outstanding.items) }
    {
        let mut restarts = false;
        while let Some(place) = self.next_marked() {
            if self.is_to_be_given_up(place, now) {
                return Ok(restarts);
            }
            if !self.send_again_at(place, packet)? {
                return Ok(restarts);
            }
            if place == 0 {
                restarts = true;
            }
        }
        Ok(restarts)
    }
}
