//! Messages among the items: where they lie, and the end of one that is abandoned (RFC 3758, section 3.5).

ghost use Rattle.std.specs.Prelude.{◌≡◌, ◌<◌, ◌+◌, ◌^◌};
ghost use Rattle.dcsctp_api.specs.spec.queues.ItemMessages.{IsEndOf};

use super::Outstanding;
use crate::item::Item;
use dcsctp_api::types::{Change, Progress};
use dcsctp_api::{Events, SocketTime};
use dcsctp_send_queue::{DataToSend, SendQueue};
use std::alloc::{AllocError, Global};

impl Outstanding {
    ghost use Rattle.std.specs.Prelude.{◌⊎◌, ◌==◌, OnOk, OnErr, length};
    ghost use Rattle.dcsctp_send_retransmission.specs.Outstanding.{MayAddEnd};
    ghost use Rattle.dcsctp_api.specs.spec.queues.ItemMessages.{AtPlace, StartsMessage, EndsMessage, AreMessageItems, DropsRest, item_stage};
    ghost use Rattle.dcsctp_send_queue.specs.Telling.{contents};
    ghost use Rattle.dcsctp_send_queue.specs.Calls.{StopsDiscarding};

    /// Drops the rest of the item's message that waits in the queue. If there was some, an abandoned item
    /// without a payload is added to mark the end of the message. `begins_after_reset` says whether streams were
    /// reset since the last item was added.
    pub fn discard_rest(
        &mut self,
        events: &mut Events,
        queue: &mut SendQueue,
        now: SocketTime,
        place: usize,
        begins_after_reset: bool,
    ) -> Result<(), AllocError>
        requires place { place < length self.old.items }
        requires room { length self.old.items + 1 < 2 ^ 31 }
        ensures may { MayAddEnd self.old self.new }
        ensures ok { AtPlace self.old.items place (λ last. OnOk result
            (DropsRest now begins_after_reset last (item_stage self.old queue.old
            (contents events.old)) (item_stage self.new queue.new (contents events.new)))) }
        ensures err { OnErr result ((self.new ≡ self.old) × (queue.new ≡ queue.old)) }
        ensures front { AtPlace self.old.items place
            (λ last. OnErr result
            ((contents events.new ≡ contents events.old)
            ⊎ StopsDiscarding queue.old last.fragment.stream last.fragment.message_id
            (contents events.old) (contents events.new))) }
    {
        self.items.reserve(1)?;
        let stream_id = self.items[place].fragment.stream_id;
        let message_id = self.items[place].fragment.message_id;
        if queue.discard(events, stream_id, message_id)? {
            let item = end_of_message(self.alloc, &self.items[place], now, begins_after_reset);
            let size = item.size(self.interleaving);
            self.totals.add(item.progress, size);
            self.items.push_back_reserved(item);
        }
        Ok(())
    }

    /// The places of the message of the item at this place: the first, and the one after the last. A message
    /// lies on consecutive TSNs, since the send queue ends one before it begins another.
    pub fn message_places(&self, place: usize) -> (usize, usize)
        requires { place < length self.now.items }
        ensures { AreMessageItems place result.0 result.1 self.now.items }
    {
        (self.message_start(place), self.message_end(place))
    }

    // Does the item at the place carry the message?
    fn bears(&self, place: usize, message_id: u64) -> bool
        requires { place < length self.now.items }
        ensures { AtPlace self.now.items place
            (λ item. result ≡ (item.fragment.message_id == message_id)) }
    {
        self.item(place).fragment.message_id == message_id
    }

    // The first place of the message.
    fn message_start(&self, place: usize) -> usize
        requires { place < length self.now.items }
        ensures { StartsMessage place result self.now.items }
    {
        let message_id = self.item(place).fragment.message_id;
        let mut start = place;
        while 0 < start {
            if !self.bears(start - 1, message_id) {
                return start;
            }
            start -= 1;
        }
        0
    }

    // The place after the last of the message.
    fn message_end(&self, place: usize) -> usize
        requires { place < length self.now.items }
        ensures { EndsMessage place result self.now.items }
    {
        let message_id = self.item(place).fragment.message_id;
        let len = self.len();
        let mut end = place + 1;
        while end < len {
            if !self.bears(end, message_id) {
                return end;
            }
            end += 1;
        }
        len
    }
}

// The end of an abandoned message, which never is sent.
fn end_of_message(alloc: Global, item: &Item, now: SocketTime, begins_after_reset: bool) -> Item
    ensures { IsEndOf now begins_after_reset item.now result }
{
    let fragment = &item.fragment;
    Item {
        fragment: DataToSend {
            message_id: fragment.message_id,
            stream_id: fragment.stream_id,
            ssn: fragment.ssn,
            mid: fragment.mid,
            fsn: fragment.fsn.wrapping_add(1),
            ppid: fragment.ppid,
            is_unordered: fragment.is_unordered,
            is_beginning: false,
            is_end: true,
            payload: Vec::new(alloc),
            max_retransmissions: fragment.max_retransmissions,
            expires_at: fragment.expires_at,
            lifecycle_id: None,
        },
        progress: Progress::new().changed(Change::Abandon),
        sent_at: now,
        begins_after_reset,
    }
}
