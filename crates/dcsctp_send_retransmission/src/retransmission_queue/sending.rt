//! Filling packets: chunks that are sent again, and then new ones (RFC 9260, section 6.1).

use super::RetransmissionQueue;
use crate::packet::Packet;
use dcsctp_api::{Events, SocketTime};
use dcsctp_send_queue::SendQueue;
use std::alloc::AllocError;

// A payload of this size and its header fit into one chunk (RFC 9260, section 3.2).
const CHUNK_LIMIT: usize = 65532;

impl RetransmissionQueue {
    ghost use Rattle.std.specs.Prelude.{◌≡◌, [], true, false, ◌+◌, ◌-◌, ◌*◌, ◌/◌, min, ◌^◌, ◌<◌, IsTrue, OnOk, IfOk, length};
    ghost use Rattle.dcsctp_api.specs.spec.queues.Items.{marked_items};
    ghost use Rattle.dcsctp_api.specs.spec.queues.Outstanding.{header};
    ghost use Rattle.dcsctp_api.specs.spec.queues.Retransmission.{can_send};
    ghost use Rattle.dcsctp_send_retransmission.specs.Fresh.{SendsFresh, EndsFresh};
    ghost use Rattle.dcsctp_api.specs.spec.queues.NextItem.{HasNone, HaltsNew, Halts};
    ghost use Rattle.dcsctp_send_retransmission.specs.Halting.{FillsUp};
    ghost use Rattle.dcsctp_send_retransmission.specs.States.{stage, Goes, GoesFilling, TriesPacket, SendsPacket, queue_stage};
    ghost use Rattle.dcsctp_api.specs.spec.queues.Filling.{StepNew};
    ghost use Rattle.dcsctp_send_retransmission.specs.Sending.{KeepsAllFragments, ContinuesPacket, SendsItems};

    /// The TSNs of the chunks that go into a packet with that many bytes of room. First come those that are
    /// sent again; then, if none of these is left, new ones from the queue. A chunk is sent if it fits and
    /// `can_send_data`. The retransmission timer runs from then on.
    ///
    /// A message that would be sent again more often than it may, or that has expired, is abandoned instead,
    /// if partial reliability was negotiated (RFC 3758, section 3.5).
    ///
    /// `Err`: an allocation failed. What was sent or taken from the queue is outstanding, and is sent again
    /// once the timer expires.
    pub fn get_chunks_to_send(
        &mut self,
        events: &mut Events,
        queue: &mut SendQueue,
        now: SocketTime,
        bytes: usize,
    ) -> Result<Vec<u32>, AllocError>
        ensures sends { SendsItems now self.old self.new }
        ensures fills { IfOk result (λ tsns. FillsUp now bytes self.new queue.new tsns.items) }
        ensures fresh { IfOk result
            (λ tsns. EndsFresh now self.old.outstanding self.new.outstanding tsns.items) }
        ensures steps { SendsPacket now bytes (queue_stage self.old queue.old events.old)
            (queue_stage self.new queue.new events.new) result }
    {
        let tsns = self.empty_list();
        let filled = self.fill_packet(events, queue, now, Packet { tsns, room: bytes });
        self.keep_timer(now);
        filled
    }

    // An empty list for the TSNs of a packet, with the room of the last one.
    fn empty_list(&mut self) -> Vec<u32>
        ensures empty { result.items ≡ [] }
        ensures kept { self.new ≡ self.old }
    {
        let mut tsns = std::mem::replace(&mut self.spare, Vec::new(self.alloc));
        tsns.clear();
        tsns
    }

    // Fills a packet, into which nothing was put yet, and returns the TSNs of its chunks.
    fn fill_packet(
        &mut self,
        events: &mut Events,
        queue: &mut SendQueue,
        now: SocketTime,
        packet: Packet,
    ) -> Result<Vec<u32>, AllocError>
        requires { packet.tsns.items ≡ [] }
        ensures keeps { KeepsAllFragments self.old self.new }
        ensures fills { IfOk result
            (λ tsns. FillsUp now packet.room self.new queue.new tsns.items) }
        ensures fresh { IfOk result
            (λ tsns. EndsFresh now self.old.outstanding self.new.outstanding tsns.items) }
        ensures steps { TriesPacket now packet.room (queue_stage self.old queue.old events.old)
            (queue_stage self.new queue.new events.new) result }
    {
        let mut packet = packet;
        self.fill(events, queue, now, &mut packet)?;
        Ok(packet.tsns)
    }

    // Puts what is to be sent into the packet.
    fn fill(
        &mut self,
        events: &mut Events,
        queue: &mut SendQueue,
        now: SocketTime,
        packet: &mut Packet,
    ) -> Result<(), AllocError>
        ensures fills { ContinuesPacket self.old packet.old self.new packet.new }
        ensures halts { OnOk result (Halts now packet.new.room self.new queue.new) }
        ensures fresh { packet.old.tsns.items ≡ []
            → OnOk result
            (EndsFresh now self.old.outstanding self.new.outstanding packet.new.tsns.items) }
        ensures steps { GoesFilling now
            (stage self.old queue.old events.old packet.old.tsns.items packet.old.room)
            (stage self.new queue.new events.new packet.new.tsns.items packet.new.room) result }
    {
        let room = packet.room;
        self.send_again(events, queue, now, packet)?;
        self.count_sent_again(room.saturating_sub(packet.room));
        if self.outstanding.marked_items() != 0 {
            return Ok(());
        }
        self.send_new(events, queue, now, packet)
    }

    // Puts new chunks into the packet, while they fit and the windows allow.
    fn send_new(
        &mut self,
        events: &mut Events,
        queue: &mut SendQueue,
        now: SocketTime,
        packet: &mut Packet,
    ) -> Result<(), AllocError>
        ensures fills { ContinuesPacket self.old packet.old self.new packet.new }
        ensures fresh { OnOk result
            (SendsFresh now self.old.outstanding self.new.outstanding packet.old.tsns.items
            packet.new.tsns.items) }
        ensures halts { OnOk result (HaltsNew packet.new.room self.new queue.new) }
        ensures marks { marked_items self.new.outstanding.items
            ≡ marked_items self.old.outstanding.items }
        ensures steps { marked_items self.old.outstanding.items ≡ 0
            → Goes now (StepNew now)
            (stage self.old queue.old events.old packet.old.tsns.items packet.old.room)
            (stage self.new queue.new events.new packet.new.tsns.items packet.new.room) result }
    {
        while self.can_send_data() {
            let max = self.payload_room(packet.room);
            if max == 0 {
                return Ok(());
            }
            if !self.outstanding.has_room() {
                return Ok(());
            }
            if !self.send_one_new(events, queue, now, packet, max)? {
                return Ok(());
            }
        }
        Ok(())
    }

    // Puts a new chunk with at most that many bytes of payload into the packet, if the queue gives one.
    #[inline(always)]
    fn send_one_new(
        &mut self,
        events: &mut Events,
        queue: &mut SendQueue,
        now: SocketTime,
        packet: &mut Packet,
        max: usize,
    ) -> Result<bool, AllocError>
        requires few { length self.old.outstanding.items + 1 < 2 ^ 31 }
        requires max { (0 < max)
            × (max ≡ (min packet.old.room 65532 - header self.old.outstanding) / 4 * 4) }
        ensures fills { ContinuesPacket self.old packet.old self.new packet.new }
        ensures less { IfOk result (λ sent. IsTrue sent → packet.new.room < packet.old.room) }
        ensures fresh { OnOk result
            (SendsFresh now self.old.outstanding self.new.outstanding packet.old.tsns.items
            packet.new.tsns.items) }
        ensures none { IfOk result (λ sent. sent ≡ false → HasNone queue.new) }
        ensures marks { marked_items self.new.outstanding.items
            ≡ marked_items self.old.outstanding.items }
        ensures steps { marked_items self.old.outstanding.items ≡ 0 → can_send self.old ≡ true
            → Goes now (StepNew now)
            (stage self.old queue.old events.old packet.old.tsns.items packet.old.room)
            (stage self.new queue.new events.new packet.new.tsns.items packet.new.room) result }
    {
        packet.tsns.reserve(1)?;
        let begins_after_reset = self.reset_begun;
        let place = self.outstanding.len();
        let sent = self
            .outstanding
            .send_next(events, queue, now, max, begins_after_reset)?;
        match sent {
            None => Ok(false),
            Some(tsn) => {
                self.reset_begun = false;
                packet.tsns.push(tsn)?;
                let size = self.outstanding.size_at(place);
                packet.room = packet.room.saturating_sub(size);
                Ok(true)
            }
        }
    }

    // The greatest payload of a chunk that fits into that many bytes; 0 if none fits.
    fn payload_room(&self, room: usize) -> usize
        ensures value { result ≡ (min room 65532 - header self.now.outstanding) / 4 * 4 }
        ensures none { result ≡ 0 → room < header self.now.outstanding + 4 }
    {
        room.min(CHUNK_LIMIT)
            .saturating_sub(self.outstanding.header())
            / 4
            * 4
    }
}
