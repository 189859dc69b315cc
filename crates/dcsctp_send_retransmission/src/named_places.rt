//! Which places the blocks of the last SACK named, so that of the next one only what is new is handled (RFC
//! 9260, section 3.3.4).

ghost use Rattle.std.specs.Prelude.{◌≡◌, ◌⊎◌, ◌<◌, ◌≤◌, ◌+◌, ℕ};
ghost use Rattle.dcsctp_send_retransmission.specs.NamedPlaces.{IsNamedPlace};

use std::alloc::Global;

/// A row of places: the first, and the one after the last.
#[derive(Clone, Copy, Debug)]
pub struct Row {
    start: usize,
    end: usize,
}

/// Rows of places among the outstanding items. If an allocation fails for a row, its places count as not
/// named.
#[derive(Drop)]
pub struct NamedPlaces {
    // The places count as they did before the first `removed` items were removed.
    rows: Vec<Row>,

    // At the greatest number it stays, if no row has a place left.
    removed: usize,

    alloc: Global,
}

impl NamedPlaces {
    ghost use Rattle.std.specs.Prelude.{false};
    ghost use Rattle.dcsctp_api.specs.spec.queues.Reports.{IsPlaceWithin};

    /// No place. Allocates nothing.
    pub fn new(alloc: Global) -> NamedPlaces
        ensures { (place : ℕ) → IsNamedPlace result place → ⊥ }
    {
        NamedPlaces {
            rows: Vec::new(alloc),
            removed: 0,
            alloc,
        }
    }

    /// Forgets all places. The room for rows is kept.
    pub fn clear(&mut self)
        ensures { (place : ℕ) → IsNamedPlace self.new place → ⊥ }
    {
        self.rows.clear();
    }

    /// Forgets all places, and gives the room for rows back.
    pub fn free(&mut self)
        ensures { (place : ℕ) → IsNamedPlace self.new place → ⊥ }
    {
        self.rows = Vec::new(self.alloc);
    }

    /// Forgets all places where the test holds.
    pub fn clear_if(&mut self, test: bool)
        ensures { (place : ℕ) → IsNamedPlace self.new place
            → (test ≡ false) × IsNamedPlace self.old place }
    {
        if test {
            self.clear();
        }
    }

    /// Adds the places from `start` on and before `end`.
    pub fn add(&mut self, start: usize, end: usize)
        ensures { (place : ℕ) → IsNamedPlace self.new place
            → IsNamedPlace self.old place ⊎ IsPlaceWithin start end place }
    {
        let row = Row {
            start: start.saturating_add(self.removed),
            end: end.saturating_add(self.removed),
        };
        let _ = self.rows.push(row);
    }

    /// The first item was removed: each place is one less.
    pub fn shift(&mut self)
        ensures { (place : ℕ) → IsNamedPlace self.new place → IsNamedPlace self.old (place + 1) }
    {
        self.removed = self.removed.saturating_add(1);
    }

    /// Is no place named?
    pub fn is_empty(&self) -> bool {
        self.rows.is_empty()
    }

    /// The first row from this one on that ends after the place.
    pub fn row_from(&self, row: usize, place: usize) -> usize {
        let rows = self.rows.as_slice();
        let mut row = row;
        while row < rows.len() {
            if place < rows[row].end.saturating_sub(self.removed) {
                break;
            }
            row += 1;
        }
        row
    }

    /// Up to where the row names each place from this one on: the place itself if it doesn't name it.
    pub fn end_from(&self, row: usize, place: usize) -> usize
        ensures from { place ≤ result }
        ensures named { (k : ℕ) → place ≤ k → k < result → IsNamedPlace self.now k }
    {
        let rows = self.rows.as_slice();
        if rows.len() <= row {
            return place;
        }
        let Row { start, end } = rows[row];
        if start.saturating_sub(self.removed) <= place {
            place.max(end.saturating_sub(self.removed))
        } else {
            place
        }
    }
}
