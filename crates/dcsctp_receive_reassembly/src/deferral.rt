//! What waits while a reset of streams is deferred (RFC 6525, section 5.2.2).

ghost use Rattle.std.specs.Prelude.{◌≡◌, ◌≤◌, ◌+◌, ℕ, length, map, List, [], None, Some, IfOk, OnOk, OnErr};
ghost use Rattle.std.specs.BTreeMap.{insert_entry};
ghost use Rattle.std.specs.List.{sum_by};
ghost use Rattle.std.specs.Vec.{vec_capacity};
ghost use Rattle.std.specs.Option.{option_map};
ghost use Rattle.std.specs.Ordering.{nat_cmp};
ghost use Rattle.dcsctp_api.specs.spec.queues.Incoming.{held_used, SameIncoming, TakesIncomingChunk};
ghost use Rattle.dcsctp_api.specs.spec.queues.IncomingStreams.{skipped_stream};
ghost use Rattle.dcsctp_api.specs.spec.queues.Reassembly.{names_stream, skip_key, with_entries, with_skips, entries_within, entries_beside, waiting_used, HandlesWaiting, HandlesAll, HandlesFront, SkipsThen};
ghost use Rattle.dcsctp_receive_reassembly.specs.Queue.{waiting_model, skips_as, deferral_of, HandlesDeferral};
ghost use Rattle.dcsctp_receive_reassembly.specs.Reassembly.{incoming_of, Balances};
ghost use Rattle.dcsctp_receive_reassembly.specs.Skips.{WasReplaced, WereReplaced};
ghost use Rattle.dcsctp_receive_reassembly.specs.Streams.{chunk_of};

use crate::arrivals::Data;
use crate::incoming::Incoming;
use crate::named::NamedStreams;
use crate::runs::part_used;
use crate::skipping::stream_of;
use dcsctp_api::types::SkippedTo;
use std::alloc::{AllocError, Global};
use std::collections::{BTreeMap, VecDeque};

/// Data that waits.
#[derive(Drop)]
pub struct WaitingData {
    pub tsn: u32,
    pub data: Data,
}

/// What is to be skipped after the data that waits: up to this TSN, and for the messages of each key up to
/// its entry. So what is kept is bounded by the streams of the reset, however many FORWARD-TSNs come.
#[derive(Drop)]
pub struct WaitingSkips {
    pub tsn: u32,
    pub entries: BTreeMap<u32, SkippedTo>,
}

/// A reset of streams that waits for data that was sent before it.
#[derive(Drop)]
pub struct Deferral {
    pub last_tsn: u32,
    pub streams: NamedStreams,
    pub waiting: VecDeque<WaitingData>,
    pub skips: Option<WaitingSkips>,
}

/// The entries of a FORWARD-TSN for streams of a reset, and the others.
#[derive(Drop)]
pub struct PartedEntries {
    pub within: Vec<SkippedTo>,
    pub beside: Vec<SkippedTo>,
}

// What stood at a key before another entry took its place.
#[derive(Clone, Copy)]
pub struct Replaced {
    key: u32,
    before: Option<SkippedTo>,
}

// Which messages an entry is for: the ordered ones of a stream, by their stream sequence numbers or by their
// identifiers, or the unordered ones.
fn skip_key(entry: &SkippedTo) -> u32
    ensures { result ≡ skip_key entry.now }
{
    match entry {
        SkippedTo::Ssn { stream_id, .. } => u32::from(stream_id.0),
        SkippedTo::Mid {
            stream_id,
            is_unordered: false,
            ..
        } => 0x1_0000 + u32::from(stream_id.0),
        SkippedTo::Mid {
            stream_id,
            is_unordered: true,
            ..
        } => 0x2_0000 + u32::from(stream_id.0),
    }
}

// Keeps entries, each in the place of one for the same messages, and lists what they replaced, for which
// there is room.
fn keep_entries(
    kept: &mut BTreeMap<u32, SkippedTo>,
    entries: &[SkippedTo],
    replaced: &mut Vec<Replaced>,
) -> Result<(), AllocError>
    requires none { replaced.old.items ≡ [] }
    requires room { length entries.now ≤ vec_capacity replaced.old }
    ensures ok { OnOk result (kept.new.entries ≡ with_entries entries.now kept.old.entries) }
    ensures replaced { WereReplaced replaced.new.items kept.old.entries kept.new.entries }
{
    for entry in entries {
        let key = skip_key(entry);
        let before = kept.insert(key, *entry)?;
        replaced.push_reserved(Replaced { key, before });
    }
    Ok(())
}

// Puts back what stood at a key before.
fn put_back(kept: &mut BTreeMap<u32, SkippedTo>, one: Replaced)
    ensures { (before : List (ℕ × SkippedTo)) → WasReplaced one before kept.old.entries
        → kept.new.entries ≡ before }
{
    match one.before {
        None => {
            let _ = kept.remove(&one.key);
        }
        Some(entry) => {
            if let Some(place) = kept.get_mut(&one.key) {
                *place = entry;
            }
        }
    }
}

// Puts back all that was replaced, the last first.
fn put_all_back(kept: &mut BTreeMap<u32, SkippedTo>, replaced: &mut Vec<Replaced>)
    ensures { (before : List (ℕ × SkippedTo)) → WereReplaced replaced.old.items before
        kept.old.entries → kept.new.entries ≡ before }
{
    while let Some(one) = replaced.pop() {
        put_back(kept, one);
    }
}

/// Parts the entries by whether a reset names their stream.
pub fn part_entries(
    alloc: Global,
    streams: &NamedStreams,
    entries: &[SkippedTo],
) -> Result<PartedEntries, AllocError>
    ensures within { IfOk result
        (λ parted. parted.within.items ≡ entries_within streams.now entries.now) }
    ensures beside { IfOk result
        (λ parted. parted.beside.items ≡ entries_beside streams.now entries.now) }
{
    let mut within = Vec::new(alloc);
    let mut beside = Vec::new(alloc);
    for entry in entries {
        if streams.names(stream_of(entry)) {
            within.push(*entry)?;
        } else {
            beside.push(*entry)?;
        }
    }
    Ok(PartedEntries { within, beside })
}

// What is to be skipped by the entries of the first FORWARD-TSN.
fn first_skips(alloc: Global, tsn: u32, entries: &[SkippedTo]) -> Result<WaitingSkips, AllocError>
    ensures { IfOk result (λ skips. skips_as skips ≡ with_skips tsn entries.now None) }
{
    let mut kept = BTreeMap::new(alloc);
    for entry in entries {
        let _ = kept.insert(skip_key(entry), *entry)?;
    }
    Ok(WaitingSkips { tsn, entries: kept })
}

// Adds the entries of a newer FORWARD-TSN. What is kept stays where it is. `Err`: an allocation failed, and
// nothing has changed.
fn add_skips(
    alloc: Global,
    skips: &mut WaitingSkips,
    tsn: u32,
    entries: &[SkippedTo],
) -> Result<(), AllocError>
    ensures ok { OnOk result
        (skips_as skips.new ≡ with_skips tsn entries.now (Some (skips_as skips.old))) }
    ensures err { OnErr result (skips_as skips.new ≡ skips_as skips.old) }
{
    let mut replaced = Vec::with_capacity(alloc, entries.len())?;
    match keep_entries(&mut skips.entries, entries, &mut replaced) {
        Ok(()) => {
            skips.tsn = tsn;
            Ok(())
        }
        Err(error) => {
            put_all_back(&mut skips.entries, &mut replaced);
            Err(error)
        }
    }
}

/// Keeps what is to be skipped by the entries of a FORWARD-TSN. `Err`: an allocation failed, and nothing has
/// changed.
pub fn keep_skips(
    alloc: Global,
    skips: &mut Option<WaitingSkips>,
    tsn: u32,
    entries: &[SkippedTo],
) -> Result<(), AllocError>
    ensures ok { OnOk result
        (option_map skips_as skips.new
        ≡ Some (with_skips tsn entries.now (option_map skips_as skips.old))) }
    ensures err { OnErr result (option_map skips_as skips.new ≡ option_map skips_as skips.old) }
{
    if let Some(kept) = skips {
        return add_skips(alloc, kept, tsn, entries);
    }
    *skips = Some(first_skips(alloc, tsn, entries)?);
    Ok(())
}

// The entries, in the order of their keys.
fn listed(alloc: Global, entries: &BTreeMap<u32, SkippedTo>) -> Result<Vec<SkippedTo>, AllocError>
    ensures { IfOk result (λ list. list.items ≡ map (λ entry. entry.1) entries.now.entries) }
{
    let mut list = Vec::with_capacity(alloc, entries.len())?;
    for (_, entry) in entries.iter() {
        list.push(*entry)?;
    }
    Ok(list)
}

// Skips what waited to be. `Err`: an allocation failed, and nothing has changed.
fn skip_then(
    incoming: &mut Incoming,
    skips: &Option<WaitingSkips>,
    overhead: usize,
) -> Result<(), AllocError>
    ensures ok { OnOk result
        (SkipsThen (option_map skips_as skips.now) (incoming_of incoming.old)
        (incoming_of incoming.new)) }
    ensures err { OnErr result
        (SameIncoming (incoming_of incoming.old) (incoming_of incoming.new)) }
    ensures used { Balances overhead incoming.old incoming.new }
{
    match skips {
        None => Ok(()),
        Some(skips) => {
            let entries = listed(incoming.alloc, &skips.entries)?;
            incoming.forward(skips.tsn, entries.as_slice(), overhead)
        }
    }
}

// Handles data that waited. `Err`: an allocation failed, and nothing has changed.
fn handle_deferred(
    incoming: &mut Incoming,
    waiting: &WaitingData,
    overhead: usize,
) -> Result<(), AllocError>
    requires { held_used overhead (incoming_of incoming.old)
        + waiting_used overhead (waiting_model waiting.now) ≤ incoming.old.used }
    ensures ok { OnOk result
        (HandlesWaiting (waiting_model waiting.now) (incoming_of incoming.old)
        (incoming_of incoming.new)) }
    ensures worked { OnOk result
        (incoming.new.used + held_used overhead (incoming_of incoming.old)
        + waiting_used overhead (waiting_model waiting.now)
        ≡ incoming.old.used + held_used overhead (incoming_of incoming.new)) }
    ensures err { OnErr result
        (SameIncoming (incoming_of incoming.old) (incoming_of incoming.new)) }
    ensures left { OnErr result
        (incoming.new.used + held_used overhead (incoming_of incoming.old)
        ≡ incoming.old.used + held_used overhead (incoming_of incoming.new)) }
{
    let copy = waiting.data.copied(incoming.alloc)?;
    let used = part_used(waiting.data.payload.len(), overhead);
    incoming.used -= used;
    match incoming.add_data(waiting.tsn, copy, overhead) {
        Ok(()) => Ok(()),
        Err(error) => {
            incoming.used += used;
            Err(error)
        }
    }
}

// Handles all data that waited, in turn. `Err`: an allocation failed for something; that and the rest keep
// waiting.
fn handle_all_deferred(
    incoming: &mut Incoming,
    waiting: &mut VecDeque<WaitingData>,
    overhead: usize,
) -> Result<(), AllocError>
    requires { incoming.old.used
        ≡ held_used overhead (incoming_of incoming.old)
        + sum_by (waiting_used overhead) (map waiting_model waiting.old.items) }
    ensures ok { OnOk result
        (HandlesAll (map waiting_model waiting.old.items) (incoming_of incoming.old)
        (incoming_of incoming.new)) }
    ensures err { OnErr result
        (HandlesFront (map waiting_model waiting.old.items) (incoming_of incoming.old)
        (incoming_of incoming.new) (map waiting_model waiting.new.items)) }
    ensures used { incoming.new.used
        ≡ held_used overhead (incoming_of incoming.new)
        + sum_by (waiting_used overhead) (map waiting_model waiting.new.items) }
    ensures none { OnOk result (map waiting_model waiting.new.items ≡ []) }
{
    while !waiting.is_empty() {
        handle_deferred(incoming, &waiting[0], overhead)?;
        let _ = waiting.pop_front();
    }
    Ok(())
}

/// Handles what waited for the end of a reset: the data, and then what is to be skipped. `Err`: an allocation
/// failed; what is not handled keeps waiting.
pub fn handle_deferral(
    incoming: &mut Incoming,
    deferral: &mut Deferral,
    overhead: usize,
) -> Result<(), AllocError>
    requires { incoming.old.used
        ≡ held_used overhead (incoming_of incoming.old)
        + sum_by (waiting_used overhead) (map waiting_model deferral.old.waiting.items) }
    ensures ok { OnOk result
        (HandlesDeferral (deferral_of deferral.old) (incoming_of incoming.old)
        (incoming_of incoming.new)) }
    ensures err { OnErr result
        (HandlesFront (map waiting_model deferral.old.waiting.items) (incoming_of incoming.old)
        (incoming_of incoming.new) (map waiting_model deferral.new.waiting.items)) }
    ensures used { incoming.new.used
        ≡ held_used overhead (incoming_of incoming.new)
        + sum_by (waiting_used overhead) (map waiting_model deferral.new.waiting.items) }
    ensures none { OnOk result (map waiting_model deferral.new.waiting.items ≡ []) }
    ensures kept { (deferral.new.last_tsn ≡ deferral.old.last_tsn)
        × (deferral.new.streams ≡ deferral.old.streams)
        × (deferral.new.skips ≡ deferral.old.skips) }
{
    handle_all_deferred(incoming, &mut deferral.waiting, overhead)?;
    skip_then(incoming, &deferral.skips, overhead)
}
