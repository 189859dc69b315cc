//! How runs of parts and a part become one run. Where a part joins two runs, the shorter list of payloads
//! moves to the longer one, so that a part costs no more than the shorter run.

ghost use Rattle.std.specs.Prelude.{
  ◌≡◌,
  ℕ,
  ◌+◌,
  ◌<◌,
  ◌≤◌,
  ◌++◌,
  OnOk,
  OnErr,
  IsSome,
  length,
  map,
  None,
  Some,
};
ghost use Rattle.std.specs.VecDeque.{deque_capacity};
ghost use Rattle.std.specs.BTreeMap.{IsOrdered, get};
ghost use Rattle.std.specs.Ordering.{nat_cmp};
ghost use Rattle.dcsctp_api.specs.spec.queues.Runs.{PartModel, single_run, run_with_part};
ghost use Rattle.dcsctp_receive_reassembly.specs.Runs.{run_model, part_of, HasRoomForRun, CanLink, CanLinkRuns};

use crate::runs::{Part, Run};
use std::alloc::AllocError;
use std::collections::{BTreeMap, VecDeque};

/// The part follows on the last part of a run.
pub fn append(run: &mut Run, part: Part) -> Result<(), AllocError>
    ensures ok { OnOk result
        ((first : ℕ)
        → run_model (first, run.new)
        ≡ run_with_part (Some (run_model (first, run.old))) (part_of part) None) }
    ensures err { OnErr result
        ((first : ℕ) → run_model (first, run.new) ≡ run_model (first, run.old)) }
{
    run.others.push_back(part.payload)?;
    run.has_end = part.is_end;
    Ok(())
}

/// The parts of another run follow on those of a run of one part. There is room for one more in front.
pub fn take_over(run: &mut Run, behind: Run)
    requires { length behind.others.items < deque_capacity behind.others }
    ensures { (next : ℕ) (part : PartModel) → run_model (part.place, run.old) ≡ single_run part →
        run_model (part.place, run.new) ≡ run_with_part None part
        (Some (run_model (next, behind))) }
{
    let Run {
        payload,
        mut others,
        has_end,
        ..
    } = behind;
    others.push_front(payload).unwrap();
    run.others = others;
    run.has_end = has_end;
}

// Appends the part, and then the parts of `behind`, to those of a run that has room for them.
fn link_behind(run: &mut Run, payload: Vec<u8>, behind: Run)
    requires { length run.old.others.items + 2 + length behind.others.items
        ≤ deque_capacity run.old.others }
    ensures { (first next : ℕ) (part : PartModel) → part.payload ≡ payload.items
        → run_model (first, run.new)
        ≡ run_with_part (Some (run_model (first, run.old))) part (Some (run_model (next, behind))) }
{
    let Run {
        payload: next,
        mut others,
        has_end,
        ..
    } = behind;
    run.others.push_back_reserved(payload);
    run.others.push_back_reserved(next);
    run.others.append(&mut others).unwrap();
    run.has_end = has_end;
}

// Payloads go in front of others, where there is room for them.
fn move_in_front(front: &mut VecDeque<Vec<u8>>, others: &mut VecDeque<Vec<u8>>)
    requires { length front.old.items + length others.old.items ≤ deque_capacity others.old }
    ensures { others.new.items ≡ front.old.items ++ others.old.items }
{
    while let Some(payload) = front.pop_back() {
        others.push_front_reserved(payload);
    }
}

// Puts the parts of `run` except its first, and then the part, in front of the parts of `behind`, which has
// room for them. `run` takes them all over.
fn link_in_front(run: &mut Run, payload: Vec<u8>, behind: Run)
    requires { length run.old.others.items + 2 + length behind.others.items
        ≤ deque_capacity behind.others }
    ensures { (first next : ℕ) (part : PartModel) → part.payload ≡ payload.items
        → run_model (first, run.new)
        ≡ run_with_part (Some (run_model (first, run.old))) part (Some (run_model (next, behind))) }
{
    let Run {
        payload: next,
        mut others,
        has_end,
        ..
    } = behind;
    others.push_front_reserved(next);
    others.push_front_reserved(payload);
    move_in_front(&mut run.others, &mut others);
    run.others = others;
    run.has_end = has_end;
}

/// The part goes between two runs of its message, which become one, the first. The shorter one moves to the
/// longer one, in which there is room.
pub fn link(run: &mut Run, payload: Vec<u8>, behind: Run)
    requires { CanLink run.old behind }
    ensures { (first next : ℕ) (part : PartModel) → part.payload ≡ payload.items
        → run_model (first, run.new)
        ≡ run_with_part (Some (run_model (first, run.old))) part (Some (run_model (next, behind))) }
{
    if behind.others.len() <= run.others.len() {
        link_behind(run, payload, behind);
    } else {
        link_in_front(run, payload, behind);
    }
}

// Makes room in a run for that many more parts.
fn reserve_in(run: &mut Run, count: usize) -> Result<(), AllocError>
    ensures kept { (first : ℕ) → run_model (first, run.new) ≡ run_model (first, run.old) }
    ensures room { OnOk result
        (length run.new.others.items + count ≤ deque_capacity run.new.others) }
{
    run.others.try_reserve(count)?;
    Ok(())
}

/// Makes room in the run that begins at this place for that many more parts.
pub fn reserve(runs: &mut BTreeMap<u128, Run>, first: u128, count: usize) -> Result<(), AllocError>
    requires there { IsSome (get nat_cmp runs.old first) }
    ensures kept { map run_model runs.new.entries ≡ map run_model runs.old.entries }
    ensures room { OnOk result (HasRoomForRun first count runs.new) }
    ensures ordered { IsOrdered nat_cmp runs.new }
{
    reserve_in(runs.get_mut(&first).unwrap(), count)
}

/// Makes room for a part between two runs, which begin at these places: in the longer one, for the part and
/// the shorter one.
pub fn reserve_between(
    runs: &mut BTreeMap<u128, Run>,
    first: u128,
    next: u128,
) -> Result<(), AllocError>
    requires front { IsSome (get nat_cmp runs.old first) }
    requires back { IsSome (get nat_cmp runs.old next) }
    requires ordered { IsOrdered nat_cmp runs.old }
    ensures kept { map run_model runs.new.entries ≡ map run_model runs.old.entries }
    ensures room { OnOk result (CanLinkRuns first next runs.new) }
    ensures ordered { IsOrdered nat_cmp runs.new }
{
    let front = runs.get(&first).unwrap().others.len();
    let back = runs.get(&next).unwrap().others.len();
    if back <= front {
        reserve(runs, first, back + 2)
    } else {
        reserve(runs, next, front + 2)
    }
}
