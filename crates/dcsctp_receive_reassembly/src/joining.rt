//! How a part of a message is added to its other parts, and a message is joined once it is whole (RFC 9260,
//! section 6.9).

ghost use Rattle.std.specs.Prelude.{
  ◌≡◌,
  ℕ,
  ◌+◌,
  is_some,
  ◌++◌,
  IfOk,
  OnOk,
  OnErr,
  map,
  slice_get,
  true,
  false,
};
ghost use Rattle.std.specs.BTreeMap.{IsOrdered, get, is_at};
ghost use Rattle.std.specs.Ordering.{nat_cmp};
ghost use Rattle.dcsctp_receive_ordered_map.specs.Entries.{count_up_to};
ghost use Rattle.dcsctp_api.specs.spec.queues.Runs.{part_kept, message_whole, entry_before, chosen, whole_run, single_run, run_with_part, joined_bytes, with_part, without_runs, is_held_before, AddsPart};
ghost use Rattle.dcsctp_receive_reassembly.specs.Runs.{assembled_of, run_model, part_of, whole_of, lent_run, lent_used, IsRunBeginning, BeginsIf, IsOfMessage, Frees, IsFreed};
ghost use Rattle.dcsctp_receive_reassembly.specs.Joins.{FindsJoins};
ghost use Rattle.dcsctp_receive_reassembly.specs.Held.{capped_u128};

use crate::joins::{Joins, is_held_by, joins_of};
use crate::linking::{append, link, reserve, reserve_between, take_over};
use crate::runs::{Assembled, Part, Run, Whole, run_up_to, run_used, size_of_run};
use dcsctp_receive_ordered_map::put_entry;
use std::alloc::{AllocError, Global};
use std::collections::{BTreeMap, VecDeque};

// Adds a copy of the payloads.
fn copy_payloads(joined: &mut Vec<u8>, payloads: &VecDeque<Vec<u8>>) -> Result<(), AllocError>
    ensures { OnOk result
        (joined.new.items
        ≡ joined.old.items
        ++ joined_bytes (map (λ payload. payload.items) payloads.now.items)) }
{
    for index in 0..payloads.len() {
        joined.extend_from_slice(payloads[index].as_slice())?;
    }
    Ok(())
}

// Adds a copy of the payloads of a run.
fn copy_run(joined: &mut Vec<u8>, run: &Run) -> Result<(), AllocError>
    ensures { OnOk result
        (joined.new.items ≡ joined.old.items ++ joined_bytes (run_model (0, run.now)).payloads) }
{
    joined.extend_from_slice(run.payload.as_slice())?;
    copy_payloads(joined, &run.others)
}

// A run of this part alone. Allocates nothing.
fn single(alloc: Global, part: Part) -> Run
    ensures { run_model (part.place, result) ≡ single_run (part_of part) }
{
    Run {
        number: part.number,
        ppid: part.ppid,
        has_beginning: part.is_beginning,
        has_end: part.is_end,
        payload: part.payload,
        others: VecDeque::new(alloc),
    }
}

// How much of the receive window the parts of a run use, at most `u128::MAX`.
fn used_by(run: Option<(u128, &Run)>, overhead: usize) -> u128
    ensures { result ≡ capped_u128 (lent_used overhead (lent_run run.entry)) }
{
    match run {
        Some((_, run)) => run_used(run, overhead),
        None => 0,
    }
}

// The message of a part with the run that it follows on, and the run that follows on it.
#[inline(always)]
fn joined(
    alloc: Global,
    before: Option<(u128, &Run)>,
    part: Part,
    behind: Option<(u128, &Run)>,
    overhead: usize,
) -> Result<Whole, AllocError>
    ensures used { IfOk result
        (λ whole. whole.used
        ≡ capped_u128
        (lent_used overhead (lent_run before.entry)
        + lent_used overhead (lent_run behind.entry))) }
    ensures whole { IfOk result (λ whole. whole_of whole ≡ whole_run
        (run_with_part (lent_run before.entry) (part_of part) (lent_run behind.entry))) }
{
    let used = used_by(before, overhead).saturating_add(used_by(behind, overhead));
    let front = before.map_or(0, |(_, run)| size_of_run(run));
    let back = behind.map_or(0, |(_, run)| size_of_run(run));
    let size = front
        .saturating_add(part.payload.len())
        .saturating_add(back);
    let mut payload = Vec::with_capacity(alloc, size)?;
    let mut number = part.number;
    let mut ppid = part.ppid;
    if let Some((_, run)) = before {
        number = run.number;
        ppid = run.ppid;
        copy_run(&mut payload, run)?;
    }
    payload.extend_from_slice(part.payload.as_slice())?;
    if let Some((_, run)) = behind {
        copy_run(&mut payload, run)?;
    }
    Ok(Whole {
        number,
        ppid,
        payload,
        used,
    })
}

// The part goes alone among the runs.
#[inline(always)]
fn keep_alone(alloc: Global, runs: &mut BTreeMap<u128, Run>, part: Part) -> Result<(), AllocError>
    requires absent { is_held_before (count_up_to part.place runs.old.entries)
        (map run_model runs.old.entries) part.place ≡ false }
    requires ordered { IsOrdered nat_cmp runs.old }
    ensures ok { OnOk result
        (map run_model runs.new.entries
        ≡ with_part false false (count_up_to part.place runs.old.entries) (part_of part)
        (map run_model runs.old.entries)) }
    ensures err { OnErr result (runs.new.entries ≡ runs.old.entries) }
    ensures others { OnOk result
        ((other : ℕ) → is_at (nat_cmp part.place) other ≡ false
        → get nat_cmp runs.new other ≡ get nat_cmp runs.old other) }
    ensures ordered { IsOrdered nat_cmp runs.new }
{
    put_entry(runs, part.place, single(alloc, part))
}

// The part goes to the run before it, which begins at `first`.
fn keep_before(runs: &mut BTreeMap<u128, Run>, first: u128, part: Part) -> Result<(), AllocError>
    requires before { IsRunBeginning first
        (entry_before (count_up_to part.place runs.old.entries) (map run_model runs.old.entries)) }
    ensures ok { OnOk result
        (map run_model runs.new.entries
        ≡ with_part true false (count_up_to part.place runs.old.entries) (part_of part)
        (map run_model runs.old.entries)) }
    ensures err { OnErr result (map run_model runs.new.entries ≡ map run_model runs.old.entries) }
{
    append(runs.get_mut(&first).unwrap(), part)
}

// The part goes to the run after it, which begins at `next` and there from now on. All memory is allocated
// first.
fn keep_behind(
    alloc: Global,
    runs: &mut BTreeMap<u128, Run>,
    part: Part,
    next: u128,
) -> Result<(), AllocError>
    requires absent { is_held_before (count_up_to part.place runs.old.entries)
        (map run_model runs.old.entries) part.place ≡ false }
    requires behind { IsRunBeginning next
        (slice_get (map run_model runs.old.entries) (count_up_to part.place runs.old.entries)) }
    requires ordered { IsOrdered nat_cmp runs.old }
    ensures ok { OnOk result
        (map run_model runs.new.entries
        ≡ with_part false true (count_up_to part.place runs.old.entries) (part_of part)
        (map run_model runs.old.entries)) }
    ensures err { OnErr result (map run_model runs.new.entries ≡ map run_model runs.old.entries) }
{
    let place = part.place;
    reserve(runs, next, 1)?;
    keep_alone(alloc, runs, part)?;
    let behind = runs.remove(&next).unwrap();
    take_over(runs.get_mut(&place).unwrap(), behind);
    Ok(())
}

// The part goes between two runs, which become one. All memory is allocated first.
fn keep_between(
    runs: &mut BTreeMap<u128, Run>,
    first: u128,
    part: Part,
    next: u128,
) -> Result<(), AllocError>
    requires before { IsRunBeginning first
        (entry_before (count_up_to part.place runs.old.entries) (map run_model runs.old.entries)) }
    requires behind { IsRunBeginning next
        (slice_get (map run_model runs.old.entries) (count_up_to part.place runs.old.entries)) }
    requires ordered { IsOrdered nat_cmp runs.old }
    ensures ok { OnOk result
        (map run_model runs.new.entries
        ≡ with_part true true (count_up_to part.place runs.old.entries) (part_of part)
        (map run_model runs.old.entries)) }
    ensures err { OnErr result (map run_model runs.new.entries ≡ map run_model runs.old.entries) }
{
    reserve_between(runs, first, next)?;
    let behind = runs.remove(&next).unwrap();
    link(runs.get_mut(&first).unwrap(), part.payload, behind);
    Ok(())
}

/// Keeps the part, whose message isn't whole yet, with the runs that it joins. `Err`: an allocation failed,
/// and the runs are unchanged.
#[inline(always)]
pub fn keep(
    alloc: Global,
    runs: &mut BTreeMap<u128, Run>,
    joins: Joins,
    part: Part,
) -> Result<(), AllocError>
    requires joins { FindsJoins (count_up_to part.place runs.old.entries) (part_of part)
        (map run_model runs.old.entries) joins }
    requires parts { joins.is_whole ≡ false }
    requires ordered { IsOrdered nat_cmp runs.old }
    ensures adds { OnOk result
        (AddsPart (part_of part) (map run_model runs.old.entries) part_kept
        (map run_model runs.new.entries)) }
    ensures kept { OnOk result
        (map run_model runs.new.entries
        ≡ with_part (is_some joins.first) (is_some joins.next)
        (count_up_to part.place runs.old.entries) (part_of part)
        (map run_model runs.old.entries)) }
    ensures err { OnErr result (map run_model runs.new.entries ≡ map run_model runs.old.entries) }
{
    match (joins.first, joins.next) {
        (Some(first), Some(next)) => keep_between(runs, first, part, next),
        (Some(first), None) => keep_before(runs, first, part),
        (None, Some(next)) => keep_behind(alloc, runs, part, next),
        (None, None) => keep_alone(alloc, runs, part),
    }
}

// Takes the runs out that a message was joined from: they begin at these places.
#[inline(always)]
fn take_out(runs: &mut BTreeMap<u128, Run>, first: Option<u128>, next: Option<u128>)
    requires ordered { IsOrdered nat_cmp runs.old }
    ensures { (at : ℕ) → BeginsIf first (entry_before at (map run_model runs.old.entries))
        → BeginsIf next (slice_get (map run_model runs.old.entries) at)
        → map run_model runs.new.entries
        ≡ without_runs (is_some first) (is_some next) at (map run_model runs.old.entries) }
{
    match (first, next) {
        (Some(first), Some(next)) => {
            let _ = runs.remove(&next);
            let _ = runs.remove(&first);
        }
        (Some(first), None) => {
            let _ = runs.remove(&first);
        }
        (None, Some(next)) => {
            let _ = runs.remove(&next);
        }
        (None, None) => {}
    }
}

// The run that begins at this place, where one is named.
#[inline(always)]
fn run_at<'x>(runs: &'x BTreeMap<u128, Run>, first: Option<u128>) -> Option<(u128, &'x Run)>
    requires { IsOrdered nat_cmp runs.now }
    ensures { (at : ℕ) → BeginsIf first (slice_get (map run_model runs.now.entries) at)
        → lent_run result
        ≡ chosen (is_some first) (slice_get (map run_model runs.now.entries) at) }
{
    let first = first?;
    let run = runs.get(&first)?;
    Some((first, run))
}

/// Takes out the runs with which a part makes its message whole, and returns the message. `Err`: an allocation
/// failed, and the runs are unchanged.
#[inline(always)]
pub fn finish(
    alloc: Global,
    runs: &mut BTreeMap<u128, Run>,
    joins: Joins,
    part: Part,
    overhead: usize,
) -> Result<Whole, AllocError>
    requires joins { FindsJoins (count_up_to part.place runs.old.entries) (part_of part)
        (map run_model runs.old.entries) joins }
    requires whole { joins.is_whole ≡ true }
    requires ordered { IsOrdered nat_cmp runs.old }
    ensures adds { IfOk result
        (λ whole. AddsPart (part_of part) (map run_model runs.old.entries)
        (message_whole (whole_of whole)) (map run_model runs.new.entries)) }
    ensures left { OnOk result
        (map run_model runs.new.entries
        ≡ without_runs (is_some joins.first) (is_some joins.next)
        (count_up_to part.place runs.old.entries) (map run_model runs.old.entries)) }
    ensures number { IfOk result (λ whole. whole.number ≡ part.number) }
    ensures used { IfOk result
        (λ whole. Frees overhead (map run_model runs.old.entries) whole.used
        (map run_model runs.new.entries)) }
    ensures err { OnErr result (map run_model runs.new.entries ≡ map run_model runs.old.entries) }
{
    let before = run_at(runs, joins.first);
    let behind = run_at(runs, joins.next);
    let whole = joined(alloc, before, part, behind, overhead)?;
    take_out(runs, joins.first, joins.next);
    Ok(whole)
}

/// Adds a message of one part: it joins no others.
#[inline(always)]
pub fn add_alone(runs: &BTreeMap<u128, Run>, part: Part) -> Assembled
    requires begins { part.is_beginning ≡ true }
    requires ends { part.is_end ≡ true }
    ensures adds { AddsPart (part_of part) (map run_model runs.now.entries) (assembled_of result)
        (map run_model runs.now.entries) }
    ensures number { IsOfMessage part.number result }
    ensures used { (overhead : ℕ)
        → IsFreed overhead (map run_model runs.now.entries) result
        (map run_model runs.now.entries) }
{
    let nearest = run_up_to(runs, part.place);
    if is_held_by(nearest, part.place) {
        return Assembled::Dropped;
    }
    Assembled::Whole(Whole {
        number: part.number,
        ppid: part.ppid,
        payload: part.payload,
        used: 0,
    })
}

/// Adds a part, and returns its message if that is whole now. One that was received before is dropped. If an
/// allocation fails, the runs are unchanged.
#[inline(always)]
pub fn add_part(
    alloc: Global,
    runs: &mut BTreeMap<u128, Run>,
    part: Part,
    overhead: usize,
) -> Result<Assembled, AllocError>
    ensures ok { IfOk result
        (λ outcome. AddsPart (part_of part) (map run_model runs.old.entries) (assembled_of outcome)
        (map run_model runs.new.entries)) }
    ensures number { IfOk result (λ outcome. IsOfMessage part.number outcome) }
    ensures used { IfOk result
        (λ outcome. IsFreed overhead (map run_model runs.old.entries) outcome
        (map run_model runs.new.entries)) }
    ensures err { OnErr result (map run_model runs.new.entries ≡ map run_model runs.old.entries) }
{
    if part.is_beginning && part.is_end {
        return Ok(add_alone(runs, part));
    }
    let Some(joins) = joins_of(runs, &part) else {
        return Ok(Assembled::Dropped);
    };
    if joins.is_whole {
        let whole = finish(alloc, runs, joins, part, overhead)?;
        return Ok(Assembled::Whole(whole));
    }
    keep(alloc, runs, joins, part)?;
    Ok(Assembled::Kept)
}
