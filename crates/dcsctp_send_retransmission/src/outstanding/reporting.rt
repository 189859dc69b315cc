//! What a SACK reports of the items (RFC 9260, sections 3.3.4 and 6.2.1).

ghost use Rattle.std.specs.Prelude.{◌≡◌, ◌<◌, ◌≤◌, ◌+◌, ◌-◌, ◌^◌};
ghost use Rattle.dcsctp_send_retransmission.specs.Outstanding.{later_of};

use super::Outstanding;
use dcsctp_api::types::Change;
use dcsctp_api::wire::GapAckBlock;

impl Outstanding {
    ghost use Rattle.std.specs.Prelude.{true, length};
    ghost use Rattle.dcsctp_api.specs.spec.queues.Outstanding.{reported_items};
    ghost use Rattle.dcsctp_api.specs.types.queues.Progress.{is_unacknowledged};
    ghost use Rattle.dcsctp_api.specs.spec.queues.Reports.{IsPlaceWithin, NamesItem, IsNewlyAcknowledged, IsLastPlace};
    ghost use Rattle.dcsctp_send_retransmission.specs.NamedPlaces.{AreSettledBetween, BlocksAreSettled};

    // The place, if its item is neither acknowledged nor abandoned.
    fn unacknowledged_at(&self, place: usize) -> Option<usize>
        requires { place < length self.now.items }
        ensures { IsLastPlace
            (λ k item. IsPlaceWithin place (place + 1) k
            × (is_unacknowledged item.progress.state ≡ true)) self.now.items result }
    {
        if self.item(place).progress.state.is_unacknowledged() {
            Some(place)
        } else {
            None
        }
    }

    // The last place from `start` on and before `end` with an item that is neither acknowledged nor abandoned.
    fn last_unacknowledged(&self, start: usize, end: usize) -> Option<usize>
        ensures { IsLastPlace
            (λ place item. IsPlaceWithin start end place
            × (is_unacknowledged item.progress.state ≡ true)) self.now.items result }
    {
        let mut place = end.min(self.len());
        while start < place {
            place -= 1;
            if self.item(place).progress.state.is_unacknowledged() {
                return Some(place);
            }
        }
        None
    }

    // The same, past the named places. Of these it looks at those from this row on, and returns the row at which
    // it ends, too.
    fn last_unacknowledged_from(
        &self,
        start: usize,
        end: usize,
        row: usize,
    ) -> (Option<usize>, usize)
        ensures { IsLastPlace
            (λ place item. IsPlaceWithin start end place
            × (is_unacknowledged item.progress.state ≡ true)) self.now.items result.0 }
    {
        let limit = end.min(self.len());
        let mut last = None;
        let mut row = row;
        let mut place = start;
        while place < limit {
            row = self.named.row_from(row, place);
            let next = self.named.end_from(row, place).min(limit);
            if place < next {
                place = next;
                continue;
            }
            last = later_of(last, self.unacknowledged_at(place));
            place += 1;
        }
        (last, row)
    }

    // The last place from `start` on and before `end` with an item.
    fn last_within(&self, start: usize, end: usize) -> Option<usize>
        ensures { IsLastPlace (λ place item. IsPlaceWithin start end place) self.now.items result }
    {
        let limit = end.min(self.len());
        if start < limit { Some(limit - 1) } else { None }
    }

    /// The last place with an item that the SACK acknowledges and none before did: among that many first ones
    /// and those that its blocks name.
    pub fn newest_reported(&self, count: usize, blocks: &[GapAckBlock]) -> Option<usize>
        requires { count ≤ length self.now.items }
        ensures { IsLastPlace (IsNewlyAcknowledged count blocks.now) self.now.items result }
    {
        let _ = self.len();
        let mut newest = self.last_unacknowledged(0, count);
        let mut row = 0;
        for block in blocks {
            let (start, end) = places_of(count, *block);
            let (last, next) = self.last_unacknowledged_from(start, end, row);
            newest = later_of(newest, last);
            row = next;
        }
        newest
    }

    /// The last place with an item that the blocks name.
    pub fn last_named(&self, count: usize, blocks: &[GapAckBlock]) -> Option<usize>
        requires { count ≤ length self.now.items }
        ensures { IsLastPlace (λ place item. NamesItem count blocks.now place) self.now.items
            result }
    {
        let _ = self.len();
        let mut last = None;
        for block in blocks {
            let (start, end) = places_of(count, *block);
            last = later_of(last, self.last_within(start, end));
        }
        last
    }

    /// Acknowledges the items that the blocks name, from the place `count` on.
    pub fn acknowledge_blocks(&mut self, count: usize, blocks: &[GapAckBlock])
        requires { count ≤ length self.old.items }
        ensures { self.new ≡ record self.old {
          items = reported_items count blocks.now
              self.old.items;
        } }
    {
        let _ = self.len();
        let mut row = 0;
        for block in blocks {
            let (start, end) = places_of(count, *block);
            row = self.change_from(Change::Acknowledge, start, end, row);
        }
        self.keep_named(count, blocks);
    }

    // Keeps the places that the blocks name, whose items are settled, instead of those that were kept.
    fn keep_named(&mut self, count: usize, blocks: &[GapAckBlock])
        requires count { count < 2 ^ 31 }
        requires settled { BlocksAreSettled count blocks.now self.old.items }
        ensures { self.new ≡ self.old }
    {
        self.forget_named(blocks.is_empty());
        for block in blocks {
            let (start, end) = places_of(count, *block);
            self.add_named(start, end);
        }
    }

    // Forgets which places were named, and gives the room for them back if the flag says so.
    fn forget_named(&mut self, gives_back: bool)
        ensures { self.new ≡ self.old }
    {
        if gives_back {
            self.named.free();
        } else {
            self.named.clear();
        }
    }

    // Adds named places, whose items are settled.
    fn add_named(&mut self, start: usize, end: usize)
        requires { AreSettledBetween start end self.old.items }
        ensures { self.new ≡ self.old }
    {
        let limit = end.min(self.len());
        if start < limit {
            self.named.add(start, limit);
        }
    }
}

// The places that the block names: the first, and the one after the last.
fn places_of(count: usize, block: GapAckBlock) -> (usize, usize)
    requires { count < 2 ^ 31 }
    ensures { (result.0 ≡ count + block.start - 1) × (result.1 ≡ count + block.end) }
{
    let start = (count + block.start as usize).saturating_sub(1);
    (start, count + block.end as usize)
}

// The later of two places.
fn later_of(place: Option<usize>, other: Option<usize>) -> Option<usize>
    ensures { result ≡ later_of place other }
{
    match (place, other) {
        (Some(place), Some(other)) => Some(place.max(other)),
        (Some(place), None) => Some(place),
        (None, other) => other,
    }
}
