//! Entries of a map by their keys: the nearest ones, and a new one.

ghost use Rattle.std.specs.Prelude.{◌≡◌, false, ◌++◌, ◌∷◌, ℕ, None, take, drop, OnOk, OnErr, slice_get};
ghost use Rattle.std.specs.Option.{option_map};
ghost use Rattle.std.specs.Map.Iter.{deref_pair};
ghost use Rattle.std.specs.Ordering.{nat_cmp};
ghost use Rattle.std.specs.BTreeMap.{IsOrdered, get, is_at};
ghost use Rattle.dcsctp_receive_ordered_map.specs.Entries.{count_up_to};
ghost use Rattle.dcsctp_spec.specs.queues.Runs.{entry_before};

use std::alloc::AllocError;
use std::collections::BTreeMap;
use std::ops::Bound;

/// The last entry whose key is this one or less. The last of all is found without a search by key.
#[inline(always)]
pub fn entry_up_to<'x, V>(entries: &'x BTreeMap<u128, V>, key: u128) -> Option<(&'x u128, &'x V)>
    ensures entry { option_map deref_pair result
        ≡ entry_before (count_up_to key entries.now.entries) entries.now.entries }
    ensures ordered { IsOrdered nat_cmp entries.now }
{
    if entries.len() == 0 {
        return None;
    }
    if let Some((last, value)) = entries.last_key_value() {
        if *last <= key {
            return Some((last, value));
        }
    }
    entries.range(..=key).next_back()
}

/// The first entry whose key is greater than this one.
pub fn entry_behind<'x, V>(entries: &'x BTreeMap<u128, V>, key: u128) -> Option<(&'x u128, &'x V)>
    ensures entry { option_map deref_pair result
        ≡ slice_get entries.now.entries (count_up_to key entries.now.entries) }
    ensures ordered { IsOrdered nat_cmp entries.now }
{
    entries
        .range((Bound::Excluded(key), Bound::Unbounded))
        .next()
}

/// Puts an entry at a key if there is none. If an allocation fails, the entries are unchanged.
pub fn put_entry<V: Drop>(
    entries: &mut BTreeMap<u128, V>,
    key: u128,
    value: V,
) -> Result<(), AllocError>
    requires absent { get nat_cmp entries.old key ≡ None }
    ensures ok { OnOk result
        (entries.new.entries
        ≡ take (count_up_to key entries.old.entries) entries.old.entries ++ (key, value)
        ∷ drop (count_up_to key entries.old.entries) entries.old.entries) }
    ensures others { OnOk result
        ((other : ℕ) → is_at (nat_cmp key) other ≡ false
        → get nat_cmp entries.new other ≡ get nat_cmp entries.old other) }
    ensures ordered { IsOrdered nat_cmp entries.new }
    ensures err { OnErr result (entries.new.entries ≡ entries.old.entries) }
{
    let _ = entries.insert(key, value)?;
    Ok(())
}
