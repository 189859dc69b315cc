//! Messages that are skipped (RFC 3758, section 3.6; RFC 8260, section 2.3.1), and streams that start again
//! (RFC 6525, section 5.2.2).

ghost use Rattle.std.specs.Prelude.{◌≡◌, ◌==◌, ◌||◌, ℕ, ◌+◌, ◌-◌, ◌*◌, ◌<◌, ◌≤◌, ◌++◌, map, length, OnOk, OnErr, IsSome, if◌then◌else◌};
ghost use Rattle.std.specs.VecDeque.{deque_len, deque_capacity};
ghost use Rattle.std.specs.BTreeMap.{get};
ghost use Rattle.std.specs.Ordering.{nat_cmp};
ghost use Rattle.dcsctp_api.specs.types.Ids.{stream_numbers};
ghost use Rattle.dcsctp_api.specs.types.StreamTables.{marks};
ghost use Rattle.dcsctp_receive_reassembly.specs.Held.{capped_usize, capped_u128};
ghost use Rattle.dcsctp_api.specs.spec.queues.Incoming.{is_named, stream_on, KeepsStreams, SameIncoming, skipped_on, SkipsOne, SkipsAll, MovesTo, MovesOn, ResetsEveryStream, ResetsEach, ResetsStreams};
ghost use Rattle.dcsctp_api.specs.spec.queues.IncomingStreams.{ready_bytes, kept_stream_used, streams_used};
ghost use Rattle.dcsctp_api.specs.spec.queues.Runs.{behind_place};
ghost use Rattle.dcsctp_api.specs.types.queues.Messages.{message_content};
ghost use Rattle.dcsctp_api.specs.spec.queues.IncomingStreams.{new_stream, skipped_stream, stream_after_skip, skip_deliveries, skip_used};
ghost use Rattle.dcsctp_receive_reassembly.specs.Reassembly.{incoming_of, entry_of, Balances};
ghost use Rattle.dcsctp_receive_reassembly.specs.Skipping.{AllMade, room_for};

use crate::incoming::{Incoming, make_stream};
use crate::numbers::number_near;
use crate::stream::Stream;
use dcsctp_api::types::{SkippedTo, StreamTable};
use dcsctp_api::{Message, StreamId};
use std::alloc::{AllocError, Global};
use std::collections::{BTreeMap, VecDeque};

/// The stream on which messages are skipped.
pub fn stream_of(entry: &SkippedTo) -> StreamId
    ensures { result.0 ≡ skipped_stream entry.now }
{
    match entry {
        SkippedTo::Ssn { stream_id, .. } | SkippedTo::Mid { stream_id, .. } => *stream_id,
    }
}

// Makes the streams that are named, if nothing was received on them yet.
fn make_streams(
    alloc: Global,
    streams: &mut BTreeMap<u16, Stream>,
    entries: &[SkippedTo],
) -> Result<(), AllocError>
    ensures made { OnOk result (AllMade entries.now streams.new) }
    ensures streams { KeepsStreams (map entry_of streams.old.entries)
        (map entry_of streams.new.entries) }
    ensures used { (overhead : ℕ)
        → streams_used overhead (map entry_of streams.new.entries)
        ≡ streams_used overhead (map entry_of streams.old.entries) }
{
    for entry in entries {
        make_stream(alloc, streams, stream_of(entry))?;
    }
    Ok(())
}

// How many messages wait on a stream.
fn waiting_on(streams: &BTreeMap<u16, Stream>, id: StreamId) -> usize
    ensures { result ≡ length (stream_on id.0 (map entry_of streams.now.entries)).waiting }
{
    match streams.get(&id.0) {
        Some(stream) => stream.waiting.len(),
        None => 0,
    }
}

// How many messages wait on a stream that wasn't seen yet. It is then.
fn waiting_once(streams: &BTreeMap<u16, Stream>, id: StreamId, seen: &mut StreamTable) -> usize
    ensures count { result
        ≡ (if marks seen.old id.0 then 0
        else length (stream_on id.0 (map entry_of streams.now.entries)).waiting) }
    ensures seen { (other : ℕ) → marks seen.new other ≡ ((id.0 == other) || marks seen.old other) }
{
    let is_seen = seen.has(u64::from(id.0));
    seen.mark(id.0);
    if is_seen { 0 } else { waiting_on(streams, id) }
}

// How many messages wait on the streams that are named, at most `usize::MAX`. A stream counts once, however
// often it is named.
fn room_for_all(streams: &BTreeMap<u16, Stream>, entries: &[SkippedTo]) -> usize
    ensures { result
        ≡ capped_usize
        (room_for entries.now (λ id. stream_on id (map entry_of streams.now.entries))) }
{
    let mut seen = StreamTable::new();
    let mut room: usize = 0;
    for entry in entries {
        room = room.saturating_add(waiting_once(streams, stream_of(entry), &mut seen));
    }
    room
}

// The same. One stream is looked up without a table.
fn room_for(streams: &BTreeMap<u16, Stream>, entries: &[SkippedTo]) -> usize
    ensures { result
        ≡ capped_usize
        (room_for entries.now (λ id. stream_on id (map entry_of streams.now.entries))) }
{
    match entries {
        [] => 0,
        [entry] => waiting_on(streams, stream_of(entry)),
        _ => room_for_all(streams, entries),
    }
}

// Skips messages on their stream, which exists, and returns how much of the receive window isn't in use any
// longer. The other streams are unchanged. There is room for all that wait.
fn skip_on(
    streams: &mut BTreeMap<u16, Stream>,
    entry: &SkippedTo,
    overhead: usize,
    ready: &mut VecDeque<Message>,
) -> u128
    requires made { IsSome (get nat_cmp streams.old (skipped_stream entry.now)) }
    requires room { deque_len ready.old
        + length (stream_on (skipped_stream entry.now) (map entry_of streams.old.entries)).waiting
        ≤ deque_capacity ready.old }
    ensures streams { (id : ℕ)
        → stream_on id (map entry_of streams.new.entries)
        ≡ skipped_on entry.now id (stream_on id (map entry_of streams.old.entries)) }
    ensures made { (id : ℕ) → IsSome (get nat_cmp streams.old id)
        → IsSome (get nat_cmp streams.new id) }
    ensures ready { map message_content ready.new.items
        ≡ map message_content ready.old.items
        ++ skip_deliveries entry.now
        (stream_on (skipped_stream entry.now) (map entry_of streams.old.entries)) }
    ensures used { streams_used overhead (map entry_of streams.new.entries)
        + ready_bytes (map message_content ready.new.items)
        + (skip_used overhead entry.now
        (stream_on (skipped_stream entry.now) (map entry_of streams.old.entries))
        + length (skip_deliveries entry.now
        (stream_on (skipped_stream entry.now) (map entry_of streams.old.entries)))
        * overhead)
        ≡ streams_used overhead (map entry_of streams.old.entries)
        + ready_bytes (map message_content ready.old.items) }
    ensures size { result
        ≡ capped_u128
        (skip_used overhead entry.now
        (stream_on (skipped_stream entry.now) (map entry_of streams.old.entries))
        + length (skip_deliveries entry.now
        (stream_on (skipped_stream entry.now) (map entry_of streams.old.entries)))
        * overhead) }
    ensures room { deque_capacity ready.new ≡ deque_capacity ready.old }
{
    let stream = streams.get_mut(&stream_of(entry).0).unwrap();
    stream.skip(entry, overhead, ready)
}

// Forgets the stream, so that it starts again, and returns how much it used.
fn forget_stream(streams: &mut BTreeMap<u16, Stream>, id: StreamId, overhead: usize) -> u128
    ensures streams { (other : ℕ)
        → stream_on other (map entry_of streams.new.entries)
        ≡ (if id.0 == other then new_stream other
        else stream_on other (map entry_of streams.old.entries)) }
    ensures used { streams_used overhead (map entry_of streams.new.entries)
        + kept_stream_used overhead (stream_on id.0 (map entry_of streams.old.entries))
        ≡ streams_used overhead (map entry_of streams.old.entries) }
    ensures size { result
        ≡ capped_u128
        (kept_stream_used overhead (stream_on id.0 (map entry_of streams.old.entries))) }
{
    match streams.remove(&id.0) {
        Some(stream) => stream.used(overhead),
        None => 0,
    }
}

// Forgets these streams, and returns how much they used.
fn forget_each_stream(
    streams: &mut BTreeMap<u16, Stream>,
    ids: &[StreamId],
    overhead: usize,
) -> u128
    ensures streams { (other : ℕ)
        → stream_on other (map entry_of streams.new.entries)
        ≡ (if is_named (stream_numbers ids.now) other then new_stream other
        else stream_on other (map entry_of streams.old.entries)) }
    ensures used { streams_used overhead (map entry_of streams.new.entries)
        ≤ streams_used overhead (map entry_of streams.old.entries) }
    ensures size { result
        ≡ capped_u128
        (streams_used overhead (map entry_of streams.old.entries) - streams_used overhead
        (map entry_of streams.new.entries)) }
{
    let mut used: u128 = 0;
    for id in ids {
        used = used.saturating_add(forget_stream(streams, *id, overhead));
    }
    used
}

// Forgets all streams, and returns how much they used.
fn forget_streams(streams: &mut BTreeMap<u16, Stream>, overhead: usize) -> u128
    ensures streams { (other : ℕ)
        → stream_on other (map entry_of streams.new.entries) ≡ new_stream other }
    ensures used { streams_used overhead (map entry_of streams.new.entries) ≡ 0 }
    ensures size { result ≡ capped_u128 (streams_used overhead (map entry_of streams.old.entries)) }
{
    let mut used: u128 = 0;
    while let Some((_, stream)) = streams.pop_first() {
        used = used.saturating_add(stream.used(overhead));
    }
    streams.clear();
    used
}

impl Incoming {
    // Skips messages of one stream, which exists. There is room for all that wait on it.
    fn skip(&mut self, entry: &SkippedTo, overhead: usize)
        requires made { IsSome (get nat_cmp self.old.streams (skipped_stream entry.now)) }
        requires room { deque_len self.old.ready
            + length (stream_on (skipped_stream entry.now)
            (map entry_of self.old.streams.entries)).waiting ≤ deque_capacity self.old.ready }
        ensures skips { SkipsOne entry.now (incoming_of self.old) (incoming_of self.new) }
        ensures made { (id : ℕ) → IsSome (get nat_cmp self.old.streams id)
            → IsSome (get nat_cmp self.new.streams id) }
        ensures room { deque_capacity self.new.ready ≡ deque_capacity self.old.ready }
        ensures used { Balances overhead self.old self.new }
    {
        let dropped = skip_on(&mut self.streams, entry, overhead, &mut self.ready);
        self.used = self.used.saturating_sub(dropped);
    }

    // Skips messages of streams that exist. There is room for all that wait on them.
    fn skip_all(&mut self, entries: &[SkippedTo], overhead: usize)
        requires made { AllMade entries.now self.old.streams }
        requires room { deque_len self.old.ready
            + room_for entries.now (λ id. stream_on id (map entry_of self.old.streams.entries))
            ≤ deque_capacity self.old.ready }
        ensures skips { SkipsAll entries.now (incoming_of self.old) (incoming_of self.new) }
        ensures used { Balances overhead self.old self.new }
    {
        for entry in entries {
            self.skip(entry, overhead);
        }
    }

    // Drops the parts of unordered messages of DATA that begin at this TSN or before it.
    fn drop_unordered(&mut self, tsn_number: u64, overhead: usize)
        ensures incoming { incoming_of self.new
            ≡ record (incoming_of self.old) {
              unordered = behind_place tsn_number
                  (incoming_of self.old).unordered;
            } }
        ensures ready { self.new.ready ≡ self.old.ready }
        ensures streams { self.new.streams ≡ self.old.streams }
        ensures used { Balances overhead self.old self.new }
    {
        let dropped = self.unordered.drop_up_to(tsn_number, overhead);
        self.used = self.used.saturating_sub(dropped);
    }

    // Handles a FORWARD TSN whose TSN has this number. There is room for all that wait on the streams that it
    // names.
    fn move_on(&mut self, tsn_number: u64, entries: &[SkippedTo], overhead: usize)
        requires made { AllMade entries.now self.old.streams }
        requires room { deque_len self.old.ready
            + room_for entries.now (λ id. stream_on id (map entry_of self.old.streams.entries))
            ≤ deque_capacity self.old.ready }
        ensures moves { MovesTo tsn_number entries.now (incoming_of self.old)
            (incoming_of self.new) }
        ensures used { Balances overhead self.old self.new }
    {
        let before = self.ready.len();
        self.drop_unordered(tsn_number, overhead);
        self.skip_all(entries, overhead);
        let count = self.ready.len().saturating_sub(before);
        self.messages_received = self.messages_received.saturating_add(count as u64);
        self.last_tsn_number = tsn_number;
    }

    /// Makes room for what a FORWARD TSN with these entries leads to. `Err`: an allocation failed. What was
    /// received stays as it is.
    pub fn prepare(&mut self, entries: &[SkippedTo]) -> Result<(), AllocError>
        ensures made { OnOk result (AllMade entries.now self.new.streams) }
        ensures room { OnOk result
            (deque_len self.new.ready
            + room_for entries.now (λ id. stream_on id (map entry_of self.new.streams.entries))
            ≤ deque_capacity self.new.ready) }
        ensures same { SameIncoming (incoming_of self.old) (incoming_of self.new) }
        ensures used { (overhead : ℕ) → Balances overhead self.old self.new }
    {
        make_streams(self.alloc, &mut self.streams, entries)?;
        let room = room_for(&self.streams, entries);
        self.ready.try_reserve(room)?;
        Ok(())
    }

    /// Handles a FORWARD TSN or I-FORWARD-TSN for which there is room.
    pub fn skip_past(&mut self, tsn: u32, entries: &[SkippedTo], overhead: usize)
        requires made { AllMade entries.now self.old.streams }
        requires room { deque_len self.old.ready
            + room_for entries.now (λ id. stream_on id (map entry_of self.old.streams.entries))
            ≤ deque_capacity self.old.ready }
        ensures moves { MovesOn tsn entries.now (incoming_of self.old) (incoming_of self.new) }
        ensures used { Balances overhead self.old self.new }
    {
        let tsn_number = number_near(self.last_tsn_number, tsn);
        self.move_on(tsn_number, entries, overhead);
    }

    /// Handles a FORWARD TSN or I-FORWARD-TSN that doesn't wait for the end of a deferred reset. All memory
    /// is allocated first: if that fails, nothing has changed.
    pub fn forward(
        &mut self,
        tsn: u32,
        entries: &[SkippedTo],
        overhead: usize,
    ) -> Result<(), AllocError>
        ensures ok { OnOk result
            (MovesOn tsn entries.now (incoming_of self.old) (incoming_of self.new)) }
        ensures used { Balances overhead self.old self.new }
        ensures err { OnErr result (SameIncoming (incoming_of self.old) (incoming_of self.new)) }
    {
        self.prepare(entries)?;
        self.skip_past(tsn, entries, overhead);
        Ok(())
    }

    // Forgets all streams.
    fn reset_all_streams(&mut self, overhead: usize)
        ensures resets { ResetsEveryStream (incoming_of self.old) (incoming_of self.new) }
        ensures used { Balances overhead self.old self.new }
    {
        let dropped = self.unordered.used(overhead);
        self.unordered.clear();
        let forgotten = forget_streams(&mut self.streams, overhead);
        self.used = self.used.saturating_sub(dropped).saturating_sub(forgotten);
    }

    // Forgets these streams.
    fn reset_each_stream(&mut self, streams: &[StreamId], overhead: usize)
        ensures resets { ResetsEach (stream_numbers streams.now) (incoming_of self.old)
            (incoming_of self.new) }
        ensures used { Balances overhead self.old self.new }
    {
        let dropped = self.unordered.drop_streams(streams, overhead);
        let forgotten = forget_each_stream(&mut self.streams, streams, overhead);
        self.used = self.used.saturating_sub(dropped).saturating_sub(forgotten);
    }

    /// Forgets the streams that are named, so that they start again; an empty list names all.
    pub fn reset_streams(&mut self, streams: &[StreamId], overhead: usize)
        ensures resets { ResetsStreams (stream_numbers streams.now) (incoming_of self.old)
            (incoming_of self.new) }
        ensures used { Balances overhead self.old self.new }
    {
        if streams.is_empty() {
            self.reset_all_streams(overhead);
        } else {
            self.reset_each_stream(streams, overhead);
        }
    }
}
