//! Which runs of its message a part joins: the one before it, and the one behind it (RFC 9260, section 6.9).

ghost use Rattle.std.specs.Prelude.{◌≡◌, true, map, IfNone, IfSome};
ghost use Rattle.std.specs.Option.{option_map};
ghost use Rattle.std.specs.BTreeMap.{IsOrdered};
ghost use Rattle.std.specs.Ordering.{nat_cmp};
ghost use Rattle.dcsctp_receive_ordered_map.specs.Entries.{count_up_to};
ghost use Rattle.dcsctp_api.specs.spec.queues.Runs.{follows, precedes, following, run_behind, run_with_part, is_whole, holds_some, is_held_before};
ghost use Rattle.dcsctp_receive_reassembly.specs.Runs.{run_model, part_of, lent_run};
ghost use Rattle.dcsctp_receive_reassembly.specs.Joins.{FindsJoins};

use crate::runs::{Part, Run, holds, run_up_to};
use dcsctp_receive_ordered_map::entry_behind;
use std::collections::BTreeMap;

/// The runs that a part joins, by where they begin.
#[derive(Clone, Copy)]
pub struct Joins {
    /// The one that the part follows on.
    pub first: Option<u128>,

    /// The one that follows on the part.
    pub next: Option<u128>,

    /// Is the message whole with them?
    pub is_whole: bool,
}

// Does the part follow on this run, which begins at `first`?
fn follows(first: u128, run: &Run, part: &Part) -> bool
    ensures { result ≡ follows (run_model (first, run.now)) (part_of part.now) }
{
    part.place.saturating_sub(first) == run.others.len() as u128 + 1
        && run.number == part.number
        && !run.has_end
        && !part.is_beginning
}

// Does this run, which begins at `first`, follow on the part?
fn precedes(part: &Part, first: u128, run: &Run) -> bool
    ensures { result ≡ precedes (part_of part.now) (run_model (first, run.now)) }
{
    first.saturating_sub(part.place) == 1
        && run.number == part.number
        && !part.is_end
        && !run.has_beginning
}

// The run before the part, if the part follows on it.
fn run_before<'x>(nearest: Option<(u128, &'x Run)>, part: &Part) -> Option<(u128, &'x Run)>
    ensures { lent_run result ≡ following (lent_run nearest.entry) (part_of part.now) }
{
    let (first, run) = nearest?;
    if follows(first, run, part) {
        Some((first, run))
    } else {
        None
    }
}

// The run that follows on the part. Nothing follows on an end.
#[inline(always)]
fn run_behind<'x>(part: &Part, runs: &'x BTreeMap<u128, Run>) -> Option<(u128, &'x Run)>
    ensures { lent_run result
        ≡ run_behind (part_of part.now) (count_up_to part.now.place runs.now.entries)
        (map run_model runs.now.entries) }
{
    if part.is_end {
        return None;
    }
    let (first, run) = entry_behind(runs, part.place)?;
    if precedes(part, *first, run) {
        Some((*first, run))
    } else {
        None
    }
}

// Is the message of the part whole with the runs on both sides?
fn is_whole(before: Option<(u128, &Run)>, part: &Part, behind: Option<(u128, &Run)>) -> bool
    ensures { result ≡ is_whole (run_with_part (lent_run before.entry) (part_of part.now)
        (lent_run behind.entry)) }
{
    let has_beginning = match before {
        Some((_, run)) => run.has_beginning,
        None => part.is_beginning,
    };
    let has_end = match behind {
        Some((_, run)) => run.has_end,
        None => part.is_end,
    };
    has_beginning && has_end
}

/// Is the place in the nearest run that begins at it or before it?
pub fn is_held_by(nearest: Option<(u128, &Run)>, place: u128) -> bool
    ensures { result ≡ holds_some (lent_run nearest.entry) place }
{
    match nearest {
        Some((first, run)) => holds(first, run, place),
        None => false,
    }
}

// Where a run begins.
fn first_of(run: Option<(u128, &Run)>) -> Option<u128>
    ensures { result ≡ option_map (λ run. run.first) (lent_run run.entry) }
{
    let (first, _) = run?;
    Some(first)
}

/// The runs that a part joins; `None` if it is there already.
#[inline(always)]
pub fn joins_of(runs: &BTreeMap<u128, Run>, part: &Part) -> Option<Joins>
    ensures held { IfNone result
        (is_held_before (count_up_to part.now.place runs.now.entries)
        (map run_model runs.now.entries) part.now.place ≡ true) }
    ensures joins { IfSome result
        (FindsJoins (count_up_to part.now.place runs.now.entries) (part_of part.now)
        (map run_model runs.now.entries)) }
    ensures ordered { IsOrdered nat_cmp runs.now }
{
    let nearest = run_up_to(runs, part.place);
    if is_held_by(nearest, part.place) {
        return None;
    }
    let before = run_before(nearest, part);
    let behind = run_behind(part, runs);
    Some(Joins {
        first: first_of(before),
        next: first_of(behind),
        is_whole: is_whole(before, part, behind),
    })
}
