//! What was sent and isn't acknowledged cumulatively: the items of consecutive TSNs (RFC 9260, section 6.1).

ghost use Rattle.std.specs.Prelude.{◌≡◌, ◌<◌, ◌≤◌, ◌+◌, ◌-◌, ◌^◌};
ghost use Rattle.dcsctp_send_retransmission.specs.Outstanding.{cursor_after};

mod handover;
mod messages;
mod reporting;

use crate::item::{Item, header_of};
use crate::named_places::NamedPlaces;
use crate::settled::{is_left_by, is_unsettled_by, leaves_settled};
use crate::totals::Totals;
use dcsctp_api::types::{Change, Progress};
use dcsctp_api::{Events, SocketTime};
use dcsctp_send_queue::SendQueue;
use std::alloc::{AllocError, Global};
use std::collections::VecDeque;
use std::marker::Model;

// For how many items room is kept.
const KEPT_ROOM: usize = 8;

/// The items that are outstanding, in the order of their TSNs.
///
/// A contract sees the list of them, with the TSN of the first.
#[derive(Drop)]
pub struct Outstanding {
    items: VecDeque<Item>,
    first_tsn: u32,

    // Are they sent as I-DATA (RFC 8260)?
    interleaving: bool,

    totals: Totals,

    // No item before this place waits to be sent again.
    cursor: usize,

    // The items at these places are settled.
    named: NamedPlaces,

    alloc: Global,
}

impl Model for Outstanding {
    ghost use Rattle.dcsctp_send_retransmission.specs.Outstanding.{AreItemsKept};
    ghost use Rattle.dcsctp_api.specs.spec.queues.Outstanding.{OutstandingState};

    ghost Value = { OutstandingState };

    ghost view = { λ outstanding. record {
      first_tsn = outstanding.first_tsn;
      is_interleaved = outstanding.interleaving;
      items = outstanding.items.items;
    } };

    ghost invariant = { λ outstanding. AreItemsKept outstanding.interleaving outstanding.cursor outstanding.items.items outstanding.totals outstanding.named };
}

impl Outstanding {
    ghost use Rattle.std.specs.Prelude.{◌<◌, ◌-◌, ◌%◌, ◌^◌, ◌↔◌, [], IsTrue, IfSome, IfNone, IfOk, Some, None, length, drop, slice_get};
    ghost use Rattle.std.specs.List.{AllByRecursion};
    ghost use Rattle.dcsctp_api.specs.spec.Soundness.{HasBytes};
    ghost use Rattle.dcsctp_api.specs.types.declared.progress.Change.TheVariants.{SendAgain};
    ghost use Rattle.dcsctp_api.specs.spec.queues.Items.{item_size, bytes_in_flight, unacknowledged_bytes, unacknowledged_items, never_acknowledged_items, marked_items, changed_between};
    ghost use Rattle.dcsctp_api.specs.types.queues.Progress.{is_marked};
    ghost use Rattle.dcsctp_api.specs.spec.queues.NextItem.{IsNextMarked, HasNone, IsMarkedItem};
    ghost use Rattle.dcsctp_send_retransmission.specs.Outstanding.{FindsPlaces, KeepsAbandoned, MayChange, TriesNext, NoneMarkedBetween};
    ghost use Rattle.dcsctp_api.specs.spec.queues.Outstanding.{header, next_tsn, tsn_at, distance_to, is_untouched};
    ghost use Rattle.dcsctp_send_retransmission.specs.Handing.{TriesItem};
    ghost use Rattle.dcsctp_send_retransmission.specs.NamedPlaces.{IsLeftBetween};
    ghost use Rattle.dcsctp_send_queue.specs.Telling.{contents};
    ghost use Rattle.dcsctp_api.specs.spec.queues.ItemMessages.{item_stage};

    /// Nothing was sent yet. Allocates nothing.
    pub fn new(alloc: Global, first_tsn: u32, interleaving: bool) -> Outstanding
        ensures { result
            ≡ record { first_tsn = first_tsn; is_interleaved = interleaving; items = [] } }
    {
        Outstanding {
            items: VecDeque::new(alloc),
            first_tsn,
            interleaving,
            totals: Totals::none(),
            cursor: 0,
            named: NamedPlaces::new(alloc),
            alloc,
        }
    }

    /// The bytes in flight.
    pub fn in_flight_bytes(&self) -> usize
        ensures { result ≡ bytes_in_flight (header self.now) self.now.items }
    {
        self.totals.in_flight_bytes
    }

    /// The bytes that are neither acknowledged nor abandoned.
    pub fn unacknowledged_bytes(&self) -> usize
        ensures { result ≡ unacknowledged_bytes (header self.now) self.now.items }
    {
        self.totals.unacknowledged_bytes
    }

    /// How many items are neither acknowledged nor abandoned.
    pub fn unacknowledged_items(&self) -> usize
        ensures { result ≡ unacknowledged_items self.now.items }
    {
        self.totals.unacknowledged_items
    }

    /// How many items no SACK has acknowledged, abandoned or not.
    pub fn never_acknowledged_items(&self) -> usize
        ensures { result ≡ never_acknowledged_items self.now.items }
    {
        self.totals.never_acknowledged_items
    }

    /// Is this the first TSN, and was nothing acknowledged yet?
    pub fn is_untouched(&self, first_tsn: u32) -> bool
        ensures { result ≡ is_untouched first_tsn self.now }
    {
        self.first_tsn == first_tsn && self.never_acknowledged_items() == self.items.len()
    }

    /// How many items wait to be sent again.
    pub fn marked_items(&self) -> usize
        ensures { result ≡ marked_items self.now.items }
    {
        self.totals.marked_items
    }

    /// How many items there are.
    pub fn len(&self) -> usize
        ensures value { result ≡ length self.now.items }
        ensures few { result < 2 ^ 31 }
        ensures bytes { AllByRecursion HasBytes self.now.items }
    {
        self.items.len()
    }

    /// The TSN of the item at the place, or of the one that is sent next.
    pub fn tsn_at(&self, place: usize) -> u32
        requires { place ≤ length self.now.items }
        ensures { result ≡ tsn_at self.now place }
    {
        let len = self.items.len();
        let _ = len;
        self.first_tsn.wrapping_add(place as u32)
    }

    /// The TSN that is sent next.
    pub fn next_tsn(&self) -> u32
        ensures { result ≡ next_tsn self.now }
    {
        self.first_tsn.wrapping_add(self.items.len() as u32)
    }

    /// How many places after the first TSN this one is.
    pub fn distance_to(&self, tsn: u32) -> usize
        ensures value { result ≡ distance_to self.now tsn }
        ensures places { FindsPlaces self.now }
        ensures start { self.now.first_tsn < 2 ^ 32 }
    {
        let len = self.items.len();
        let _ = len;
        tsn.wrapping_sub(self.first_tsn) as usize
    }

    /// The item at the place.
    pub fn item(&self, place: usize) -> &Item
        requires { place < length self.now.items }
        ensures { slice_get self.now.items place ≡ Some result.now }
    {
        &self.items[place]
    }

    /// Are they sent as I-DATA (RFC 8260)?
    pub fn is_interleaving(&self) -> bool
        ensures { result ≡ self.now.is_interleaved }
    {
        self.interleaving
    }

    /// The size of a chunk's header.
    pub fn header(&self) -> usize
        ensures value { result ≡ header self.now }
        ensures limit { result ≤ 20 }
    {
        header_of(self.interleaving)
    }

    /// How long the chunk of the item at the place is.
    pub fn size_at(&self, place: usize) -> usize
        requires { place < length self.now.items }
        ensures { IfSome (slice_get self.now.items place)
            (λ item. result ≡ item_size (header self.now) item) }
    {
        self.items[place].size(self.interleaving)
    }

    // Makes the change at one place. It is inlined, and so are the functions through which callers reach it.
    // A caller knows which change it is: for an acknowledgement most of the sums then fall away.
    #[inline(always)]
    fn change_at(&mut self, change: Change, place: usize)
        requires place { place < length self.old.items }
        requires may { MayChange change place self.old.items }
        ensures { self.new
            ≡ record self.old { items = changed_between change place (place + 1) self.old.items } }
    {
        let interleaving = self.interleaving;
        let item = &mut self.items[place];
        let size = item.size(interleaving);
        let before = item.progress;
        let after = before.changed(change);
        item.progress = after;
        self.totals.remove(before, size);
        self.totals.add(after, size);
        self.cursor = cursor_after(after.state.is_marked(), place, self.cursor);
        self.named.clear_if(is_unsettled_by(change, before));
    }

    // Makes the change at each place from `start` on and before `end`, as far as there are items.
    #[inline(always)]
    fn change_each(&mut self, change: Change, start: usize, end: usize)
        requires { KeepsAbandoned change }
        ensures { self.new
            ≡ record self.old { items = changed_between change start end self.old.items } }
    {
        let limit = end.min(self.len());
        for place in start..limit {
            self.change_at(change, place);
        }
    }

    // Makes the change at one place, unless it leaves the item there as it is.
    fn change_one(&mut self, change: Change, place: usize)
        requires place { place < length self.old.items }
        requires keeps { KeepsAbandoned change }
        ensures { self.new
            ≡ record self.old { items = changed_between change place (place + 1) self.old.items } }
    {
        if is_left_by(change, self.item(place).progress) {
            return;
        }
        self.change_at(change, place);
    }

    // How far from the place on the change leaves all items as they are, as the named places from this row on
    // show: the row that shows it, and the place after the last of these items.
    fn left_until(&self, change: Change, place: usize, row: usize) -> (usize, usize)
        ensures from { place ≤ result.1 }
        ensures left { IsLeftBetween change place result.1 self.now.items }
    {
        let row = self.named.row_from(row, place);
        if leaves_settled(change) {
            (row, self.named.end_from(row, place))
        } else {
            (row, place)
        }
    }

    // The same, past the named places where the change leaves their items as they are. Of these places it looks
    // at those from this row on, and returns the row at which it ends.
    fn change_from(&mut self, change: Change, start: usize, end: usize, row: usize) -> usize
        requires { KeepsAbandoned change }
        ensures { self.new
            ≡ record self.old { items = changed_between change start end self.old.items } }
    {
        let limit = end.min(self.len());
        let mut row = row;
        let mut place = start;
        while place < limit {
            let (at, end) = self.left_until(change, place, row);
            row = at;
            let next = end.min(limit);
            if place < next {
                place = next;
                continue;
            }
            self.change_one(change, place);
            place += 1;
        }
        row
    }

    /// Makes the change from the place `start` to before the place `end`, as far as there are items. For what
    /// is sent again there is `send_again`.
    #[inline(always)]
    pub fn change_between(&mut self, change: Change, start: usize, end: usize)
        requires { KeepsAbandoned change }
        ensures { self.new
            ≡ record self.old { items = changed_between change start end self.old.items } }
    {
        if self.named.is_empty() {
            self.change_each(change, start, end);
        } else {
            let _ = self.change_from(change, start, end, 0);
        }
    }

    /// Sends the item at the place again, before the TSN that is sent next for the first time.
    #[inline(always)]
    pub fn send_again(&mut self, place: usize, next: u32)
        requires { IsMarkedItem place self.old.items }
        ensures { self.new
            ≡ record self.old {
              items = changed_between (SendAgain next) place (place + 1)
                  self.old.items;
            } }
    {
        self.change_at(Change::SendAgain(next), place);
    }

    /// The first place with an item that waits to be sent again.
    pub fn next_marked(&mut self) -> Option<usize>
        ensures same { self.new ≡ self.old }
        ensures some { IfSome result (λ place. IsNextMarked place self.old.items) }
        ensures none { IfNone result (marked_items self.old.items ≡ 0) }
    {
        if self.totals.marked_items == 0 {
            return None;
        }
        match self.marked_from(self.cursor) {
            None => None,
            Some(place) => {
                self.cursor = place;
                Some(place)
            }
        }
    }

    // The first place from `start` on with an item that waits to be sent again.
    fn marked_from(&self, start: usize) -> Option<usize>
        ensures some { IfSome result
            (λ place. IsMarkedItem place self.now.items
            × NoneMarkedBetween start place self.now.items) }
        ensures none { IfNone result
            (NoneMarkedBetween start (length self.now.items) self.now.items) }
    {
        let len = self.len();
        for place in start..len {
            if self.item(place).progress.state.is_marked() {
                return Some(place);
            }
        }
        None
    }

    /// Drops that many first items.
    pub fn remove_first(&mut self, count: usize)
        requires { count ≤ length self.old.items }
        ensures { self.new
            ≡ record {
              first_tsn = (self.old.first_tsn + count) % 2 ^ 32;
              is_interleaved = self.old.is_interleaved;
              items = drop count self.old.items;
            } }
    {
        let _ = &self.first_tsn;
        for _ in 0..count {
            self.remove_one();
        }
        self.give_room_back();
    }

    // Gives half of the room for items back if less than a quarter of it is in use.
    fn give_room_back(&mut self)
        ensures { self.new ≡ self.old }
    {
        let room = self.items.capacity();
        if KEPT_ROOM < room && self.items.len() < room / 4 {
            self.items.shrink_to(room / 2);
        }
    }

    /// Frees the room for items if there are none.
    pub fn free_room(&mut self)
        ensures { self.new ≡ self.old }
    {
        if self.items.is_empty() {
            self.items.shrink_to_fit();
        }
    }

    // Drops the first item.
    fn remove_one(&mut self)
        requires { 0 < length self.old.items }
        ensures { self.new
            ≡ record {
              first_tsn = (self.old.first_tsn + 1) % 2 ^ 32;
              is_interleaved = self.old.is_interleaved;
              items = drop 1 self.old.items;
            } }
    {
        if let Some(item) = self.items.pop_front() {
            let size = item.size(self.interleaving);
            self.totals.remove(item.progress, size);
            self.first_tsn = self.first_tsn.wrapping_add(1);
            self.cursor = self.cursor.saturating_sub(1);
            self.named.shift();
        }
    }

    /// May one more item be added? TSNs that are further apart can't be compared (RFC 9260, section 1.6).
    pub fn has_room(&self) -> bool
        ensures { IsTrue result ↔ (length self.now.items + 1 < 2 ^ 31) }
    {
        self.items.len() + 1 < 0x8000_0000
    }

    /// Sends a fragment of at most `max` bytes from the queue for the first time, under the next TSN. `None`
    /// if the queue gives none. If an allocation fails, nothing leaves the queue.
    #[inline(always)]
    pub fn send_next(
        &mut self,
        events: &mut Events,
        queue: &mut SendQueue,
        now: SocketTime,
        max: usize,
        begins_after_reset: bool,
    ) -> Result<Option<u32>, AllocError>
        requires room { length self.old.items + 1 < 2 ^ 31 }
        requires max { (1 ≤ max) × (max ≤ 65535) }
        ensures tries { TriesNext now max self.old self.new result }
        ensures takes { TriesItem now max begins_after_reset (item_stage self.old queue.old
            (contents events.old)) (item_stage self.new queue.new (contents events.new)) result }
        ensures none { IfOk result (λ sent. IfNone sent (HasNone queue.new)) }
    {
        self.items.reserve(1)?;
        let tsn = self.next_tsn();
        match queue.produce(events, now, max)? {
            None => Ok(None),
            Some(fragment) => {
                let item = Item {
                    fragment,
                    progress: Progress::new(),
                    sent_at: now,
                    begins_after_reset,
                };
                let size = item.size(self.interleaving);
                self.totals.add_sent(size);
                self.items.push_back_reserved(item);
                Ok(Some(tsn))
            }
        }
    }
}

// The place before which no item is marked, once the state of one was changed.
fn cursor_after(is_marked: bool, place: usize, cursor: usize) -> usize
    ensures { result ≡ cursor_after is_marked place cursor }
{
    if is_marked { cursor.min(place) } else { cursor }
}
