//! The order in which streams are asked for a message: by priority, the greatest first, then by their last
//! turn, the oldest first, and then by number, the least first.

ghost use Rattle.std.specs.Prelude.{◌≡◌, ◌+◌, ◌<◌, ◌≤◌, List, Some};
ghost use Rattle.std.specs.VecDeque.{deque_len, deque_capacity};
ghost use Rattle.dcsctp_api.specs.types.declared.sending.Turn.{Turn};
ghost use Rattle.dcsctp_api.specs.types.queues.SendStreams.{comes_after, with_turn, with_optional_turn};
ghost use Rattle.dcsctp_send_queue.specs.Turns.{IsOrdered, IsTurnPlace, HoldsTurns};

use dcsctp_api::types::Turn;
use std::collections::VecDeque;

// How many of the turns, which are in order, come after the given one.
fn place_of(turns: &VecDeque<Turn>, turn: Turn) -> usize
    requires { IsOrdered turns.now.items }
    ensures { IsTurnPlace turns.now.items turn result }
{
    let mut low = 0;
    let mut high = turns.len();
    'halving: while low < high {
        let middle = low + (high - low) / 2;
        if turns[middle].comes_after(turn) {
            low = middle + 1;
        } else {
            high = middle;
        }
    }
    low
}

// Adds a turn, for which there is room.
fn add_turn(turns: &mut VecDeque<Turn>, turn: Turn)
    requires ordered { IsOrdered turns.old.items }
    requires room { deque_len turns.old < deque_capacity turns.old }
    ensures turns { turns.new.items ≡ with_turn turn turns.old.items }
    ensures capacity { deque_capacity turns.old ≤ deque_capacity turns.new }
{
    let place = place_of(turns, turn);
    turns.insert(place, turn).unwrap();
}

// Takes a turn out.
fn remove_turn(turns: &mut VecDeque<Turn>, turn: Turn)
    requires { HoldsTurns turns.old.items (Some turn) (deque_capacity turns.old) }
    ensures turns { (others : List Turn) → turns.old.items ≡ with_turn turn others
        → turns.new.items ≡ others }
    ensures capacity { deque_capacity turns.new ≡ deque_capacity turns.old }
{
    let place = place_of(turns, turn);
    let _ = turns.remove(place);
}

// Puts a turn in the place of one that is there. If there is no other, it changes in place.
fn replace_turn(turns: &mut VecDeque<Turn>, before: Turn, after: Turn)
    requires { HoldsTurns turns.old.items (Some before) (deque_capacity turns.old) }
    ensures turns { (others : List Turn) → turns.old.items ≡ with_turn before others
        → turns.new.items ≡ with_turn after others }
    ensures capacity { deque_capacity turns.old ≤ deque_capacity turns.new }
{
    if turns.len() == 1 {
        turns[0] = after;
        return;
    }
    remove_turn(turns, before);
    add_turn(turns, after);
}

/// Puts one turn in the place of another, if there are any.
#[inline(always)]
pub fn move_turn(turns: &mut VecDeque<Turn>, before: Option<Turn>, after: Option<Turn>)
    requires { HoldsTurns turns.old.items before (deque_capacity turns.old) }
    ensures turns { (others : List Turn) → turns.old.items ≡ with_optional_turn before others
        → turns.new.items ≡ with_optional_turn after others }
    ensures capacity { deque_capacity turns.old ≤ deque_capacity turns.new }
{
    match before {
        None => match after {
            None => {}
            Some(new) => add_turn(turns, new),
        },
        Some(old) => match after {
            None => remove_turn(turns, old),
            Some(new) => {
                if old != new {
                    replace_turn(turns, old, new);
                }
            }
        },
    }
}
