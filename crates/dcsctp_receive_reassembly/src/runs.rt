//! Parts of messages that aren't whole yet, in runs: parts that follow on one another (RFC 9260, section
//! 6.9).

ghost use Rattle.std.specs.Prelude.{◌≡◌, ◌+◌, map, not};
ghost use Rattle.std.specs.BTreeMap.{IsOrdered};
ghost use Rattle.std.specs.Ordering.{nat_cmp};
ghost use Rattle.dcsctp_receive_ordered_map.specs.Entries.{count_up_to};
ghost use Rattle.dcsctp_api.specs.spec.queues.Runs.{entry_before, holds, behind_place};
ghost use Rattle.dcsctp_receive_reassembly.specs.Runs.{run_model, lent_run, begins_up_to, up_to_place};
ghost use Rattle.dcsctp_receive_reassembly.specs.Held.{capped_usize, capped_u128};
ghost use Rattle.dcsctp_api.specs.spec.queues.Runs.{payloads_used, run_used, runs_used};

use dcsctp_api::PpId;
use dcsctp_receive_ordered_map::entry_up_to;
use std::collections::{BTreeMap, VecDeque};

/// A part of a message, at its place among the parts of its stream.
#[derive(Drop)]
pub struct Part {
    /// Parts of one message have places in a row.
    pub place: u128,

    /// The number of the message.
    pub number: u64,

    pub ppid: PpId,
    pub payload: Vec<u8>,
    pub is_beginning: bool,
    pub is_end: bool,
}

/// Parts of one message in a row, one at least. The place of the first is its key among the runs.
#[derive(Drop)]
pub struct Run {
    pub number: u64,
    pub ppid: PpId,
    pub has_beginning: bool,
    pub has_end: bool,

    /// The payload of the first part.
    pub payload: Vec<u8>,

    /// The payloads of the other parts.
    pub others: VecDeque<Vec<u8>>,
}

/// A message that is whole.
#[derive(Drop)]
pub struct Whole {
    pub number: u64,
    pub ppid: PpId,
    pub payload: Vec<u8>,

    /// How much of the receive window its other parts used, at most `u128::MAX`.
    pub used: u128,
}

/// What became of a part.
#[derive(Drop)]
pub enum Assembled {
    /// It is there already, and was dropped.
    Dropped,

    /// It is kept until its message is whole.
    Kept,

    /// It makes its message whole.
    Whole(Whole),
}

/// Does the run that begins at `first` hold the place?
pub fn holds(first: u128, run: &Run, place: u128) -> bool
    ensures { result ≡ holds (run_model (first, run.now)) place }
{
    first <= place && place - first <= run.others.len() as u128
}

/// The last run that begins at this place or before it, and where. The last of all is found without a search
/// by key.
#[inline(always)]
pub fn run_up_to<'x>(runs: &'x BTreeMap<u128, Run>, place: u128) -> Option<(u128, &'x Run)>
    ensures run { lent_run result
        ≡ entry_before (count_up_to place runs.now.entries) (map run_model runs.now.entries) }
    ensures ordered { IsOrdered nat_cmp runs.now }
{
    let (first, run) = entry_up_to(runs, place)?;
    Some((*first, run))
}

// How many bytes the payloads have together, at most `usize::MAX`.
fn size_of(payloads: &VecDeque<Vec<u8>>) -> usize
    ensures { result
        ≡ capped_usize (payloads_used 0 (map (λ payload. payload.items) payloads.now.items)) }
{
    let mut size: usize = 0;
    for index in 0..payloads.len() {
        size = size.saturating_add(payloads[index].len());
    }
    size
}

/// How many bytes a run has, at most `usize::MAX`.
pub fn size_of_run(run: &Run) -> usize
    ensures { result ≡ capped_usize (payloads_used 0 (run_model (0, run.now)).payloads) }
{
    run.payload.len().saturating_add(size_of(&run.others))
}

/// How much of the receive window a part of that many bytes uses, or a whole message that waits.
#[inline(always)]
pub fn part_used(size: usize, overhead: usize) -> u128
    ensures { result ≡ size + overhead }
{
    size as u128 + overhead as u128
}

// How much the parts with these payloads use, at most `u128::MAX`.
fn payloads_used(payloads: &VecDeque<Vec<u8>>, overhead: usize) -> u128
    ensures { result
        ≡ capped_u128 (payloads_used overhead (map (λ payload. payload.items) payloads.now.items)) }
{
    let mut used: u128 = 0;
    for index in 0..payloads.len() {
        used = used.saturating_add(part_used(payloads[index].len(), overhead));
    }
    used
}

/// How much the parts of a run use, at most `u128::MAX`.
pub fn run_used(run: &Run, overhead: usize) -> u128
    ensures { result ≡ capped_u128 (run_used overhead (run_model (0, run.now))) }
{
    part_used(run.payload.len(), overhead).saturating_add(payloads_used(&run.others, overhead))
}

/// How much the runs use, at most `u128::MAX`.
pub fn runs_used(runs: &BTreeMap<u128, Run>, overhead: usize) -> u128
    ensures { result ≡ capped_u128 (runs_used overhead (map run_model runs.now.entries)) }
{
    let mut used: u128 = 0;
    for (_, run) in runs {
        used = used.saturating_add(run_used(run, overhead));
    }
    used
}

/// Does the first run begin at this place or before it?
pub fn first_begins_up_to(runs: &BTreeMap<u128, Run>, place: u128) -> bool
    ensures { result ≡ begins_up_to place (map run_model runs.now.entries) }
{
    match runs.first_key_value() {
        Some((first, _)) => *first <= place,
        None => false,
    }
}

/// Drops the runs in front that begin at this place or before it, and returns how much they used.
pub fn drop_places(runs: &mut BTreeMap<u128, Run>, place: u128, overhead: usize) -> u128
    ensures kept { map run_model runs.new.entries
        ≡ behind_place place (map run_model runs.old.entries) }
    ensures size { result
        ≡ capped_u128 (runs_used overhead (up_to_place place (map run_model runs.old.entries))) }
{
    let mut dropped: u128 = 0;
    while first_begins_up_to(runs, place) {
        let (_, run) = runs.pop_first().unwrap();
        dropped = dropped.saturating_add(run_used(&run, overhead));
    }
    dropped
}
