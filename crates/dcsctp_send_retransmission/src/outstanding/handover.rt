//! What a snapshot has of what is outstanding, and what is outstanding again once it is restored.

use super::{Outstanding, cursor_after};
use crate::item::Item;
use crate::totals::Totals;
use dcsctp_api::SocketTime;
use dcsctp_api::types::HandoverOutstandingData;
use std::alloc::AllocError;
use std::collections::VecDeque;

// The most items whose TSNs can be compared (RFC 9260, section 1.6).
const MOST_ITEMS: usize = 0x7fff_ffff;

impl Outstanding {
    ghost use Rattle.std.specs.Prelude.{◌≡◌, ◌+◌, ◌^◌, ◌<◌, true, [], ◌∷◌, ◌++◌, length, map, IfOk, OnOk, OnErr};
    ghost use Rattle.std.specs.List.{list_all};
    ghost use Rattle.dcsctp_api.specs.types.Snapshot.{has_bytes_or_is_abandoned};
    ghost use Rattle.dcsctp_api.specs.spec.Soundness.{HasBytes};
    ghost use Rattle.dcsctp_api.specs.types.SnapshotItems.{outstanding_part};
    ghost use Rattle.dcsctp_api.specs.spec.queues.OutstandingParts.{outstanding_given, items_again};

    /// What a snapshot that is made at the moment `now` has of all items. Their payloads are copied. `Err`: an
    /// allocation failed.
    pub fn handover_data(&self, now: SocketTime) -> Result<Vec<HandoverOutstandingData>, AllocError>
        ensures { IfOk result
            (λ parts. map outstanding_part parts.items
            ≡ map (outstanding_given now) self.now.items) }
    {
        let alloc = self.alloc;
        let mut parts = Vec::with_capacity(alloc, self.len())?;
        for place in 0..self.len() {
            let part = self.item(place).handover_data(alloc, now)?;
            parts.push(part)?;
        }
        Ok(parts)
    }

    // Drops all items, and continues with this TSN.
    fn empty(&mut self, first_tsn: u32)
        ensures { self.new ≡ record self.old { first_tsn = first_tsn; items = [] } }
    {
        self.items = VecDeque::new(self.alloc);
        self.first_tsn = first_tsn;
        self.totals = Totals::none();
        self.cursor = 0;
        self.named.clear();
    }

    // Adds an item after the others. `Err`: an allocation failed, and nothing has changed.
    fn push(&mut self, item: Item) -> Result<(), AllocError>
        requires room { length self.old.items + 1 < 2 ^ 31 }
        requires bytes { HasBytes item }
        ensures ok { OnOk result
            (self.new ≡ record self.old { items = self.old.items ++ item ∷ [] }) }
        ensures err { OnErr result (self.new ≡ self.old) }
    {
        self.items.reserve(1)?;
        let size = item.size(self.interleaving);
        let is_marked = item.progress.state.is_marked();
        self.totals.add(item.progress, size);
        self.cursor = cursor_after(is_marked, self.items.len(), self.cursor);
        self.items.push_back_reserved(item);
        Ok(())
    }

    /// Replaces all items with those that a snapshot has, from `first_tsn` on, if the snapshot is restored at
    /// the moment `now`. `was_reset`: streams were reset before, and which items were sent before that isn't
    /// known. It takes the first 2^31 - 1 of them, since no more TSNs can be compared. `Err`: an
    /// allocation failed, and only some of them are restored.
    pub fn restore(
        &mut self,
        now: SocketTime,
        was_reset: bool,
        first_tsn: u32,
        parts: &[HandoverOutstandingData],
    ) -> Result<(), AllocError>
        requires { list_all has_bytes_or_is_abandoned (map outstanding_part parts.now) ≡ true }
        ensures { OnOk result
            (self.new ≡ record self.old {
              first_tsn = first_tsn;
              items = items_again now was_reset (map outstanding_part parts.now);
            }) }
    {
        let alloc = self.alloc;
        self.empty(first_tsn);
        let count = MOST_ITEMS.min(parts.len());
        for place in 0..count {
            let item = Item::from_handover(alloc, now, was_reset, &parts[place])?;
            self.push(item)?;
        }
        Ok(())
    }
}
