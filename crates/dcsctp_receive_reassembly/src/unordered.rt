//! Parts of unordered messages of DATA, of all streams together (RFC 9260, section 6.6). They go by their
//! TSNs, so that a FORWARD-TSN drops a front of them. An index has them stream by stream, so that the reset of
//! a stream visits no other.

ghost use Rattle.std.specs.Prelude.{◌≡◌, ◌==◌, ◌%◌, ◌/◌, ◌^◌, ◌<◌, ◌↔◌, ◌&&◌, ℕ, [], IsTrue, IfOk, IfNone, IfSome, OnOk, OnErr, length, map, not, None, true, false};
ghost use Rattle.std.specs.List.{filter};
ghost use Rattle.std.specs.Ordering.{nat_cmp};
ghost use Rattle.std.specs.BTreeMap.{IsOrdered, btree_map_len};
ghost use Rattle.std.specs.BTreeSet.{contains};
ghost use Rattle.dcsctp_receive_ordered_map.specs.Entries.{count_up_to};
ghost use Rattle.dcsctp_api.specs.types.Ids.{stream_numbers};
ghost use Rattle.dcsctp_api.specs.spec.queues.Incoming.{parts_left};
ghost use Rattle.dcsctp_api.specs.spec.queues.Runs.{AddsPart, behind_place, message_whole, part_kept, runs_used};
ghost use Rattle.dcsctp_receive_reassembly.specs.Held.{capped_u128};
ghost use Rattle.dcsctp_receive_reassembly.specs.Joins.{FindsJoins};
ghost use Rattle.dcsctp_receive_reassembly.specs.Runs.{run_model, part_of, whole_of, assembled_of, begins_up_to, Frees, IsOfMessage, IsFreed};
ghost use Rattle.dcsctp_receive_reassembly.specs.Unordered.{IsIndexed, index_place, is_place_of, DropsRun, DropsFirst};

use crate::joining::{add_alone, finish, keep};
use crate::joins::{Joins, joins_of};
use crate::numbers::fragment_place;
use crate::runs::{Assembled, Part, Run, Whole, first_begins_up_to, run_used, runs_used};
use dcsctp_api::StreamId;
use std::alloc::{AllocError, Global};
use std::collections::{BTreeMap, BTreeSet};
use std::marker::Model;
use std::ops::Bound;

/// The parts. The number of a message is its stream. A contract sees the runs of parts, by the TSNs of the
/// first of each.
#[derive(Drop)]
pub struct UnorderedParts {
    runs: BTreeMap<u128, Run>,

    // Where the runs begin, stream by stream.
    firsts: BTreeSet<u128>,
}

impl Model for UnorderedParts {
    ghost use Rattle.std.specs.Prelude.{List, map};
    ghost use Rattle.dcsctp_api.specs.spec.queues.Runs.{RunModel};
    ghost use Rattle.dcsctp_receive_reassembly.specs.Runs.{run_model};
    ghost use Rattle.dcsctp_receive_reassembly.specs.Unordered.{IsIndexed};

    ghost Value = { List RunModel };

    ghost view = { λ parts. map run_model parts.runs.entries };

    ghost invariant = { λ parts. IsIndexed parts.firsts (map run_model parts.runs.entries) };
}

// The place in the index of a run of the stream that begins at this TSN.
fn index_place(id: u64, first: u128) -> u128
    ensures { result ≡ index_place id first }
{
    fragment_place(id, (first % 0x1_0000_0000_0000_0000) as u64)
}

// Takes a run of the stream out of the index, if one is named by where it begins.
#[inline(always)]
fn forget(firsts: &mut BTreeSet<u128>, id: u64, first: Option<u128>)
    ensures { (place : ℕ)
        → contains nat_cmp firsts.new place
        ≡ (not (is_place_of id first place) && contains nat_cmp firsts.old place) }
{
    if let Some(first) = first {
        let _ = firsts.remove(&index_place(id, first));
    }
}

// Keeps a part with which a run begins. Its place in the index is allocated first.
fn keep_beginning(
    alloc: Global,
    runs: &mut BTreeMap<u128, Run>,
    firsts: &mut BTreeSet<u128>,
    joins: Joins,
    part: Part,
) -> Result<(), AllocError>
    requires place { part.place < 2 ^ 64 }
    requires begins { joins.first ≡ None }
    requires parts { joins.is_whole ≡ false }
    requires joins { FindsJoins (count_up_to part.place runs.old.entries) (part_of part)
        (map run_model runs.old.entries) joins }
    requires ordered { IsOrdered nat_cmp runs.old }
    requires indexed { IsIndexed firsts.old (map run_model runs.old.entries) }
    ensures adds { OnOk result
        (AddsPart (part_of part) (map run_model runs.old.entries) part_kept
        (map run_model runs.new.entries)) }
    ensures err { OnErr result (map run_model runs.new.entries ≡ map run_model runs.old.entries) }
    ensures indexed { IsIndexed firsts.new (map run_model runs.new.entries) }
{
    let id = part.number;
    let place = index_place(id, part.place);
    let _ = firsts.insert(place)?;
    match keep(alloc, runs, joins, part) {
        Ok(()) => {
            forget(firsts, id, joins.next);
            Ok(())
        }
        Err(error) => {
            let _ = firsts.remove(&place);
            Err(error)
        }
    }
}

// Keeps a part, whose message isn't whole yet.
fn keep_part(
    alloc: Global,
    runs: &mut BTreeMap<u128, Run>,
    firsts: &mut BTreeSet<u128>,
    joins: Joins,
    part: Part,
) -> Result<(), AllocError>
    requires place { part.place < 2 ^ 64 }
    requires parts { joins.is_whole ≡ false }
    requires joins { FindsJoins (count_up_to part.place runs.old.entries) (part_of part)
        (map run_model runs.old.entries) joins }
    requires ordered { IsOrdered nat_cmp runs.old }
    requires indexed { IsIndexed firsts.old (map run_model runs.old.entries) }
    ensures adds { OnOk result
        (AddsPart (part_of part) (map run_model runs.old.entries) part_kept
        (map run_model runs.new.entries)) }
    ensures err { OnErr result (map run_model runs.new.entries ≡ map run_model runs.old.entries) }
    ensures indexed { IsIndexed firsts.new (map run_model runs.new.entries) }
{
    if joins.first.is_none() {
        return keep_beginning(alloc, runs, firsts, joins, part);
    }
    let id = part.number;
    keep(alloc, runs, joins, part)?;
    forget(firsts, id, joins.next);
    Ok(())
}

// Takes out the runs with which a part makes its message whole.
#[inline(always)]
fn finish_part(
    alloc: Global,
    runs: &mut BTreeMap<u128, Run>,
    firsts: &mut BTreeSet<u128>,
    joins: Joins,
    part: Part,
    overhead: usize,
) -> Result<Whole, AllocError>
    requires place { part.place < 2 ^ 64 }
    requires whole { joins.is_whole ≡ true }
    requires joins { FindsJoins (count_up_to part.place runs.old.entries) (part_of part)
        (map run_model runs.old.entries) joins }
    requires ordered { IsOrdered nat_cmp runs.old }
    requires indexed { IsIndexed firsts.old (map run_model runs.old.entries) }
    ensures adds { IfOk result
        (λ whole. AddsPart (part_of part) (map run_model runs.old.entries)
        (message_whole (whole_of whole)) (map run_model runs.new.entries)) }
    ensures number { IfOk result (λ whole. whole.number ≡ part.number) }
    ensures used { IfOk result
        (λ whole. Frees overhead (map run_model runs.old.entries) whole.used
        (map run_model runs.new.entries)) }
    ensures err { OnErr result (map run_model runs.new.entries ≡ map run_model runs.old.entries) }
    ensures indexed { IsIndexed firsts.new (map run_model runs.new.entries) }
{
    let id = part.number;
    let whole = finish(alloc, runs, joins, part, overhead)?;
    forget(firsts, id, joins.first);
    forget(firsts, id, joins.next);
    Ok(whole)
}

// Drops the run that has this place in the index, and returns how much it used.
fn drop_run(
    runs: &mut BTreeMap<u128, Run>,
    firsts: &mut BTreeSet<u128>,
    place: u128,
    overhead: usize,
) -> u128
    requires there { contains nat_cmp firsts.old place ≡ true }
    requires ordered { IsOrdered nat_cmp runs.old }
    requires indexed { IsIndexed firsts.old (map run_model runs.old.entries) }
    ensures drops { DropsRun overhead place (map run_model runs.old.entries) result
        (map run_model runs.new.entries) }
    ensures fewer { btree_map_len runs.new < btree_map_len runs.old }
    ensures ordered { IsOrdered nat_cmp runs.new }
    ensures indexed { IsIndexed firsts.new (map run_model runs.new.entries) }
{
    let _ = firsts.remove(&place);
    let run = runs.remove(&(place % 0x1_0000_0000_0000_0000)).unwrap();
    run_used(&run, overhead)
}

// The place in the index of the first run of a stream.
fn first_of_stream(firsts: &BTreeSet<u128>, id: StreamId) -> Option<u128>
    ensures there { IfSome result (λ place. contains nat_cmp firsts.now place ≡ true) }
    ensures stream { IfSome result (λ place. place / 2 ^ 64 ≡ id.0) }
    ensures none { IfNone result
        ((place : ℕ) → place / 2 ^ 64 ≡ id.0 → contains nat_cmp firsts.now place ≡ false) }
{
    let from = fragment_place(u64::from(id.0), 0);
    let place = *firsts
        .range((Bound::Included(from), Bound::Unbounded))
        .next()?;
    if place / 0x1_0000_0000_0000_0000 == u128::from(id.0) {
        Some(place)
    } else {
        None
    }
}

// Drops the runs of a stream, and returns how much they used.
fn drop_stream(
    runs: &mut BTreeMap<u128, Run>,
    firsts: &mut BTreeSet<u128>,
    id: StreamId,
    overhead: usize,
) -> u128
    requires ordered { IsOrdered nat_cmp runs.old }
    requires indexed { IsIndexed firsts.old (map run_model runs.old.entries) }
    ensures kept { map run_model runs.new.entries
        ≡ filter (λ run. not (id.0 == run.number)) (map run_model runs.old.entries) }
    ensures size { Frees overhead (map run_model runs.old.entries) result
        (map run_model runs.new.entries) }
    ensures ordered { IsOrdered nat_cmp runs.new }
    ensures indexed { IsIndexed firsts.new (map run_model runs.new.entries) }
{
    let mut dropped: u128 = 0;
    while let Some(place) = first_of_stream(firsts, id) {
        let used = drop_run(runs, firsts, place, overhead);
        dropped = dropped.saturating_add(used);
    }
    dropped
}

// Drops the runs of these streams, and returns how much they used.
fn drop_each_stream(
    runs: &mut BTreeMap<u128, Run>,
    firsts: &mut BTreeSet<u128>,
    ids: &[StreamId],
    overhead: usize,
) -> u128
    requires ordered { IsOrdered nat_cmp runs.old }
    requires indexed { IsIndexed firsts.old (map run_model runs.old.entries) }
    ensures kept { map run_model runs.new.entries
        ≡ parts_left (stream_numbers ids.now) (map run_model runs.old.entries) }
    ensures size { Frees overhead (map run_model runs.old.entries) result
        (map run_model runs.new.entries) }
    ensures ordered { IsOrdered nat_cmp runs.new }
    ensures indexed { IsIndexed firsts.new (map run_model runs.new.entries) }
{
    let mut dropped: u128 = 0;
    for id in ids {
        dropped = dropped.saturating_add(drop_stream(runs, firsts, *id, overhead));
    }
    dropped
}

// Drops the first run, and returns how much it used.
fn drop_first(runs: &mut BTreeMap<u128, Run>, firsts: &mut BTreeSet<u128>, overhead: usize) -> u128
    requires some { 0 < btree_map_len runs.old }
    requires ordered { IsOrdered nat_cmp runs.old }
    requires indexed { IsIndexed firsts.old (map run_model runs.old.entries) }
    ensures drops { DropsFirst overhead (map run_model runs.old.entries) result
        (map run_model runs.new.entries) }
    ensures fewer { btree_map_len runs.new < btree_map_len runs.old }
    ensures ordered { IsOrdered nat_cmp runs.new }
    ensures indexed { IsIndexed firsts.new (map run_model runs.new.entries) }
{
    let (first, run) = runs.pop_first().unwrap();
    let _ = firsts.remove(&index_place(run.number, first));
    run_used(&run, overhead)
}

// Drops the runs in front that begin at this TSN or before it, and returns how much they used.
fn drop_front(
    runs: &mut BTreeMap<u128, Run>,
    firsts: &mut BTreeSet<u128>,
    tsn: u128,
    overhead: usize,
) -> u128
    requires ordered { IsOrdered nat_cmp runs.old }
    requires indexed { IsIndexed firsts.old (map run_model runs.old.entries) }
    ensures kept { map run_model runs.new.entries
        ≡ behind_place tsn (map run_model runs.old.entries) }
    ensures size { Frees overhead (map run_model runs.old.entries) result
        (map run_model runs.new.entries) }
    ensures ordered { IsOrdered nat_cmp runs.new }
    ensures indexed { IsIndexed firsts.new (map run_model runs.new.entries) }
{
    let mut dropped: u128 = 0;
    while first_begins_up_to(runs, tsn) {
        let used = drop_first(runs, firsts, overhead);
        dropped = dropped.saturating_add(used);
    }
    dropped
}

impl UnorderedParts {
    /// Nothing was received yet. Allocates nothing.
    pub fn new(alloc: Global) -> UnorderedParts
        ensures { result ≡ [] }
    {
        UnorderedParts {
            runs: BTreeMap::new(alloc),
            firsts: BTreeSet::new(alloc),
        }
    }

    /// Are there no parts?
    pub fn is_empty(&self) -> bool
        ensures { IsTrue result ↔ (length self.now ≡ 0) }
    {
        self.runs.is_empty()
    }

    /// How much of the receive window the parts use, at most `u128::MAX`.
    pub fn used(&self, overhead: usize) -> u128
        ensures { result ≡ capped_u128 (runs_used overhead self.now) }
    {
        runs_used(&self.runs, overhead)
    }

    /// Adds a part at its TSN, and returns its message if that is whole now. One that was received before is
    /// dropped. `Err`: an allocation failed, and nothing has changed.
    #[inline(always)]
    pub fn add(
        &mut self,
        alloc: Global,
        part: Part,
        overhead: usize,
    ) -> Result<Assembled, AllocError>
        requires { part.place < 2 ^ 64 }
        ensures ok { IfOk result
            (λ outcome. AddsPart (part_of part) self.old (assembled_of outcome) self.new) }
        ensures number { IfOk result (λ outcome. IsOfMessage part.number outcome) }
        ensures used { IfOk result (λ outcome. IsFreed overhead self.old outcome self.new) }
        ensures err { OnErr result (self.new ≡ self.old) }
    {
        if part.is_beginning && part.is_end {
            return Ok(add_alone(&self.runs, part));
        }
        let Some(joins) = joins_of(&self.runs, &part) else {
            return Ok(Assembled::Dropped);
        };
        if joins.is_whole {
            let whole = finish_part(
                alloc,
                &mut self.runs,
                &mut self.firsts,
                joins,
                part,
                overhead,
            )?;
            return Ok(Assembled::Whole(whole));
        }
        keep_part(alloc, &mut self.runs, &mut self.firsts, joins, part)?;
        Ok(Assembled::Kept)
    }

    /// Drops the parts that begin at this TSN or before it, with those that follow on them. Returns how much
    /// they used, at most `u128::MAX`. Visits these and one more.
    pub fn drop_up_to(&mut self, tsn_number: u64, overhead: usize) -> u128
        ensures kept { self.new ≡ behind_place tsn_number self.old }
        ensures size { Frees overhead self.old result self.new }
    {
        if self.runs.len() == 0 {
            return 0;
        }
        drop_front(
            &mut self.runs,
            &mut self.firsts,
            u128::from(tsn_number),
            overhead,
        )
    }

    /// Drops the parts of these streams, and returns how much they used, at most `u128::MAX`. Visits no
    /// others.
    pub fn drop_streams(&mut self, ids: &[StreamId], overhead: usize) -> u128
        ensures kept { self.new ≡ parts_left (stream_numbers ids.now) self.old }
        ensures size { Frees overhead self.old result self.new }
    {
        if self.runs.len() == 0 {
            return 0;
        }
        drop_each_stream(&mut self.runs, &mut self.firsts, ids, overhead)
    }

    /// Drops all parts.
    pub fn clear(&mut self)
        ensures { self.new ≡ [] }
    {
        self.runs.clear();
        self.firsts.clear();
    }
}
