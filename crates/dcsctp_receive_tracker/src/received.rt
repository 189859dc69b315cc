//! The TSNs that were received beyond the first missing one, as ranges. They are numbered without wrap.

ghost use Rattle.std.specs.Prelude.{
  ◌≡◌,
  ◌+◌,
  ◌<◌,
  ◌^◌,
  false,
  not,
  IfOk,
  OnOk,
  OnErr,
};
ghost use Rattle.std.specs.Option.{option_map};
ghost use Rattle.std.specs.Map.{set_value};
ghost use Rattle.std.specs.Map.Iter.{deref_pair};
ghost use Rattle.std.specs.Ordering.{nat_cmp};
ghost use Rattle.std.specs.BTreeMap.{IsOrdered, get, insert_entry, is_at};
ghost use Rattle.dcsctp_receive_ordered_map.specs.Entries.{count_up_to};
ghost use Rattle.dcsctp_spec_lemmas.specs.spec.queues.Runs.{entry_before};
ghost use Rattle.dcsctp_receive_tracker.specs.Received.{range_of, ranges_of, IsSpaced, Joins, AddsToRanges};
ghost use Rattle.dcsctp_spec_lemmas.specs.spec.queues.Ranges.{IsBeyond, is_number_covered, ReceivesNumber, MovesForwardTo};
ghost use Rattle.dcsctp_spec_lemmas.specs.spec.queues.Tracker.{highest};

use dcsctp_spec_lemmas::types::TsnRange;
use std::alloc::AllocError;
use std::collections::BTreeMap;

// The ranges around a number.
#[derive(Clone, Copy, Drop)]
struct Neighbors {
    // The last range that begins at the number or before it.
    before: Option<TsnRange>,

    // The range that begins right after the number.
    behind: Option<TsnRange>,
}

// The range of an entry that was found.
fn range_of(found: Option<(&u64, &u64)>) -> Option<TsnRange>
    ensures { result ≡ option_map (λ entry. range_of (deref_pair entry)) found.entry }
{
    match found {
        Some((first, last)) => Some(TsnRange {
            first: *first,
            last: *last,
        }),
        None => None,
    }
}

// The ranges around a number, by one search.
fn search_neighbors(ranges: &BTreeMap<u64, u64>, number: u64) -> Neighbors
    requires { number + 1 < 2 ^ 64 }
    ensures before { result.before
        ≡ option_map range_of
        (entry_before (count_up_to number ranges.now.entries) ranges.now.entries) }
    ensures behind { result.behind
        ≡ option_map (λ last. range_of (number + 1, last)) (get nat_cmp ranges.now (number + 1)) }
    ensures ordered { IsOrdered nat_cmp ranges.now }
{
    let mut up_to = ranges.range(..=number + 1);
    let nearest = range_of(up_to.next_back());
    match nearest {
        Some(range) if range.first > number => Neighbors {
            before: range_of(up_to.next_back()),
            behind: nearest,
        },
        _ => Neighbors {
            before: nearest,
            behind: None,
        },
    }
}

// The ranges around a number. Those of a number beyond all others are found without a search by key.
fn find_neighbors(ranges: &BTreeMap<u64, u64>, number: u64) -> Neighbors
    ensures before { result.before
        ≡ option_map range_of
        (entry_before (count_up_to number ranges.now.entries) ranges.now.entries) }
    ensures behind { result.behind
        ≡ option_map (λ last. range_of (number + 1, last)) (get nat_cmp ranges.now (number + 1)) }
    ensures ordered { IsOrdered nat_cmp ranges.now }
{
    if ranges.len() == 0 {
        return Neighbors {
            before: None,
            behind: None,
        };
    }
    let last = range_of(ranges.last_key_value());
    match last {
        Some(range) if range.first > number => search_neighbors(ranges, number),
        _ => Neighbors {
            before: last,
            behind: None,
        },
    }
}

// Puts a number that touches no range before it. If a range begins right after it, the two become one. All
// memory is allocated first.
fn put(
    ranges: &mut BTreeMap<u64, u64>,
    number: u64,
    behind: Option<TsnRange>,
) -> Result<(), AllocError>
    ensures ok { OnOk result
        (Joins (insert_entry nat_cmp ranges.old.entries number) number behind ranges.new.entries) }
    ensures err { OnErr result (ranges.new.entries ≡ ranges.old.entries) }
{
    let Some(next) = behind else {
        let _ = ranges.insert(number, number)?;
        return Ok(());
    };
    let _ = ranges.insert(number, next.last)?;
    let _ = ranges.remove(&next.first);
    Ok(())
}

// The range that begins at `first` ends at `last` from now on.
fn set_last(ranges: &mut BTreeMap<u64, u64>, first: u64, last: u64)
    ensures entries { ranges.new.entries
        ≡ set_value (is_at (nat_cmp first)) ranges.old.entries last }
    ensures ordered { IsOrdered nat_cmp ranges.new }
{
    if let Some(end) = ranges.get_mut(&first) {
        *end = last;
    }
}

// Extends the range that begins at `first` up to the number. If another one begins right after the number,
// the two become one.
fn extend(ranges: &mut BTreeMap<u64, u64>, first: u64, number: u64, behind: Option<TsnRange>)
    ensures { Joins (set_value (is_at (nat_cmp first)) ranges.old.entries) number behind
        ranges.new.entries }
{
    let Some(next) = behind else {
        set_last(ranges, first, number);
        return;
    };
    set_last(ranges, first, next.last);
    let _ = ranges.remove(&next.first);
}

/// All up to `number` count as received. Returns the last number before the first that is missing; the ranges
/// beyond that are kept.
pub fn advance(ranges: &mut BTreeMap<u64, u64>, number: u64) -> u64
    requires { IsSpaced (ranges_of ranges.old) }
    ensures { MovesForwardTo number (ranges_of ranges.old) result (ranges_of ranges.new) }
{
    let mut reached = number;
    while let Some((first, last)) = ranges.first_key_value() {
        if first.saturating_sub(reached) > 1 {
            break;
        }
        reached = reached.max(*last);
        let _ = ranges.pop_first();
    }
    reached
}

/// Which TSNs were received, by their numbers: all up to the cumulative one, and ranges beyond that.
#[derive(Debug, Drop)]
pub struct Received {
    pub cumulative: u64,

    /// The ranges: from the first number of each to its last.
    pub ranges: BTreeMap<u64, u64>,
}

impl Received {
    /// The highest number that was received.
    pub fn highest(&self) -> u64
        ensures { result ≡ highest self.now.cumulative (ranges_of self.now.ranges) }
    {
        match self.ranges.last_key_value() {
            None => self.cumulative,
            Some((_, last)) => *last,
        }
    }

    // Adds a number that leaves a gap after the cumulative one, and returns whether it is new. `Err`: an
    // allocation failed, and nothing has changed.
    fn add(&mut self, number: u64) -> Result<bool, AllocError>
        requires beyond { self.old.cumulative + 1 < number }
        requires ordered { IsBeyond self.old.cumulative (ranges_of self.old.ranges) }
        ensures added { IfOk result
            (λ _. AddsToRanges self.old.cumulative number (ranges_of self.old.ranges)
            (ranges_of self.new.ranges)) }
        ensures answer { IfOk result
            (λ is_new. is_new ≡ not (is_number_covered number (ranges_of self.old.ranges))) }
        ensures known { IfOk result
            (λ is_new. is_new ≡ false → ranges_of self.new.ranges ≡ ranges_of self.old.ranges) }
        ensures kept { self.new.cumulative ≡ self.old.cumulative }
        ensures err { OnErr result (ranges_of self.new.ranges ≡ ranges_of self.old.ranges) }
    {
        let around = find_neighbors(&self.ranges, number);
        if let Some(range) = around.before {
            if number <= range.last {
                return Ok(false);
            }
            if number - range.last == 1 {
                extend(&mut self.ranges, range.first, number, around.behind);
                return Ok(true);
            }
        }
        put(&mut self.ranges, number, around.behind)?;
        Ok(true)
    }

    /// Adds a number, and returns whether it is new. `Err`: an allocation failed, and nothing has changed.
    pub fn receive(&mut self, number: u64) -> Result<bool, AllocError>
        requires { IsBeyond self.old.cumulative (ranges_of self.old.ranges) }
        ensures ok { IfOk result
            (λ is_new. ReceivesNumber number self.old.cumulative (ranges_of self.old.ranges) is_new
            self.new.cumulative (ranges_of self.new.ranges)) }
        ensures err { OnErr result
            ((self.new.cumulative ≡ self.old.cumulative)
            × (ranges_of self.new.ranges ≡ ranges_of self.old.ranges)) }
    {
        if number <= self.cumulative {
            return Ok(false);
        }
        if number - self.cumulative == 1 {
            self.cumulative = advance(&mut self.ranges, number);
            return Ok(true);
        }
        self.add(number)
    }
}
