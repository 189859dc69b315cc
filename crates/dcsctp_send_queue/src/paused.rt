//! Which streams can be handed out to be reset, of which the reset was requested, and which have a message under way, by
//! number.

ghost use Rattle.std.specs.Prelude.{◌≡◌, ◌+◌, ◌<◌, ◌≤◌, [], List, true, OnOk};
ghost use Rattle.std.specs.VecDeque.{deque_len, deque_capacity};
ghost use Rattle.dcsctp_api.specs.types.declared.ids.StreamId.{StreamId};
ghost use Rattle.dcsctp_api.specs.types.queues.SendStreams.{is_pausing};
ghost use Rattle.dcsctp_send_queue.specs.Pausing.{is_pause_handed_out, AreIdsAscending, with_id, with_id_if, IsIdPlace, HoldsId, MovesId, HoldsStanding, MovesStanding};

use dcsctp_api::StreamId;
use dcsctp_api::types::Pause;
use std::alloc::{AllocError, Global};
use std::collections::VecDeque;

// How many of the numbers, which ascend, are less than the given one.
fn place_of(ids: &VecDeque<StreamId>, id: StreamId) -> usize
    requires { AreIdsAscending ids.now.items }
    ensures { IsIdPlace ids.now.items id result }
{
    let mut low = 0;
    let mut high = ids.len();
    'halving: while low < high {
        let middle = low + (high - low) / 2;
        if ids[middle].0 < id.0 {
            low = middle + 1;
        } else {
            high = middle;
        }
    }
    low
}

// Adds a number, for which there is room.
fn add_id(ids: &mut VecDeque<StreamId>, id: StreamId)
    requires ascending { AreIdsAscending ids.old.items }
    requires room { deque_len ids.old < deque_capacity ids.old }
    ensures ids { ids.new.items ≡ with_id id ids.old.items }
    ensures capacity { deque_capacity ids.old ≤ deque_capacity ids.new }
{
    if ids.is_empty() {
        ids.push_back(id).unwrap();
        return;
    }
    let place = place_of(ids, id);
    ids.insert(place, id).unwrap();
}

// Takes a number out.
fn remove_id(ids: &mut VecDeque<StreamId>, id: StreamId)
    requires { HoldsId ids.old.items true id (deque_capacity ids.old) }
    ensures ids { (others : List StreamId) → ids.old.items ≡ with_id id others
        → ids.new.items ≡ others }
    ensures capacity { deque_capacity ids.new ≡ deque_capacity ids.old }
{
    if ids.len() == 1 {
        ids.clear();
        return;
    }
    let place = place_of(ids, id);
    let _ = ids.remove(place);
}

// Adds a number or takes it out, by whether it was one of them and is.
#[inline(always)]
fn move_id(ids: &mut VecDeque<StreamId>, id: StreamId, was_in: bool, is_in: bool)
    requires { HoldsId ids.old.items was_in id (deque_capacity ids.old) }
    ensures ids { (others : List StreamId) → ids.old.items ≡ with_id_if was_in id others
        → ids.new.items ≡ with_id_if is_in id others }
    ensures capacity { deque_capacity ids.old ≤ deque_capacity ids.new }
{
    match (was_in, is_in) {
        (false, true) => add_id(ids, id),
        (true, false) => remove_id(ids, id),
        (false, false) | (true, true) => {}
    }
}

// Is the stream to be reset, and its reset not requested yet?
fn is_pausing(pause: Pause) -> bool
    ensures { result ≡ is_pausing pause }
{
    match pause {
        Pause::Pausing => true,
        Pause::Open | Pause::HandedOut => false,
    }
}

// Was the reset of the stream requested?
fn is_handed_out(pause: Pause) -> bool
    ensures { result ≡ is_pause_handed_out pause }
{
    match pause {
        Pause::HandedOut => true,
        Pause::Open | Pause::Pausing => false,
    }
}

/// What decides in which of the lists a stream is.
#[derive(Clone, Copy, Debug)]
pub struct Standing {
    /// Its pause, as far as others need to know it: while a message is under way, a stream that is to be reset can't
    /// be handed out, and counts as open.
    pub pause: Pause,

    pub is_under_way: bool,
}

/// The numbers of the streams that are paused, or have a message under way, ascending.
#[derive(Drop)]
pub struct PausedIds {
    /// They are to be reset, have no message under way, and weren't handed out yet.
    pub ready: VecDeque<StreamId>,

    /// They were handed out to be reset.
    pub handed_out: VecDeque<StreamId>,

    /// They have a message under way.
    pub under_way: VecDeque<StreamId>,
}

impl PausedIds {
    /// None. Allocates nothing.
    pub fn new(alloc: Global) -> PausedIds
        ensures ready { result.ready.items ≡ [] }
        ensures handed_out { result.handed_out.items ≡ [] }
        ensures under_way { result.under_way.items ≡ [] }
    {
        PausedIds {
            ready: VecDeque::new(alloc),
            handed_out: VecDeque::new(alloc),
            under_way: VecDeque::new(alloc),
        }
    }

    /// Makes room for that many of each. `Err`: an allocation failed.
    pub fn reserve(&mut self, count: usize) -> Result<(), AllocError>
        ensures ready { self.new.ready.items ≡ self.old.ready.items }
        ensures handed_out { self.new.handed_out.items ≡ self.old.handed_out.items }
        ensures under_way { self.new.under_way.items ≡ self.old.under_way.items }
        ensures has_room { deque_capacity self.old.ready ≤ deque_capacity self.new.ready }
        ensures has_more { deque_capacity self.old.handed_out
            ≤ deque_capacity self.new.handed_out }
        ensures has_most { deque_capacity self.old.under_way
            ≤ deque_capacity self.new.under_way }
        ensures room { OnOk result (count ≤ deque_capacity self.new.ready) }
        ensures more { OnOk result (count ≤ deque_capacity self.new.handed_out) }
        ensures most { OnOk result (count ≤ deque_capacity self.new.under_way) }
    {
        self.ready.reserve(count.saturating_sub(self.ready.len()))?;
        self.handed_out
            .reserve(count.saturating_sub(self.handed_out.len()))?;
        self.under_way
            .reserve(count.saturating_sub(self.under_way.len()))?;
        Ok(())
    }

    /// Moves a stream whose standing changes from the lists of the one to those of the other.
    #[inline(always)]
    pub fn move_stream(&mut self, id: StreamId, before: Standing, after: Standing)
        requires { HoldsStanding self.old id before }
        ensures { MovesStanding self.old self.new id before after }
    {
        if before.pause != after.pause {
            self.move_pause(id, before.pause, after.pause);
        }
        move_id(
            &mut self.under_way,
            id,
            before.is_under_way,
            after.is_under_way,
        );
    }

    // Moves a stream whose pause changes from the list of the one, if it has one, to that of the other.
    fn move_pause(&mut self, id: StreamId, before: Pause, after: Pause)
        requires ready { HoldsId self.old.ready.items (is_pausing before) id
            (deque_capacity self.old.ready) }
        requires handed_out { HoldsId self.old.handed_out.items (is_pause_handed_out before) id
            (deque_capacity self.old.handed_out) }
        ensures ready { MovesId self.old.ready.items self.new.ready.items id
            (is_pausing before) (is_pausing after) }
        ensures handed_out { MovesId self.old.handed_out.items self.new.handed_out.items id
            (is_pause_handed_out before) (is_pause_handed_out after) }
        ensures under_way { self.new.under_way ≡ self.old.under_way }
        ensures has_room { deque_capacity self.old.ready ≤ deque_capacity self.new.ready }
        ensures has_more { deque_capacity self.old.handed_out
            ≤ deque_capacity self.new.handed_out }
    {
        move_id(&mut self.ready, id, is_pausing(before), is_pausing(after));
        move_id(
            &mut self.handed_out,
            id,
            is_handed_out(before),
            is_handed_out(after),
        );
    }
}
