//! One incoming stream: parts of messages, and whole messages that wait for their turn (RFC 9260, sections
//! 6.5 and 6.6).

ghost use Rattle.std.specs.Prelude.{◌≡◌, ℕ, ◌+◌, ◌-◌, ◌*◌, ◌/◌, ◌^◌, ◌<◌, ◌≤◌, ◌++◌, false, map, length, List, None, IfOk, OnErr, OnOk, IsSome};
ghost use Rattle.std.specs.VecDeque.{deque_len, deque_capacity};
ghost use Rattle.std.specs.BTreeMap.{btree_map_len, get};
ghost use Rattle.std.specs.Ordering.{nat_cmp};
ghost use Rattle.dcsctp_receive_reassembly.specs.Runs.{part_of, whole_of, assembled_of, IsFreed};
ghost use Rattle.dcsctp_receive_reassembly.specs.Held.{capped_u128};
ghost use Rattle.dcsctp_api.specs.spec.queues.Runs.{PartModel, RunModel, runs_used, wholes_used};
ghost use Rattle.dcsctp_api.specs.spec.queues.IncomingStreams.{kept_stream_used, ready_bytes};
ghost use Rattle.dcsctp_api.specs.types.queues.Messages.{MessageContent, message_content};
ghost use Rattle.dcsctp_api.specs.spec.queues.Readiness.{holds_parts};
ghost use Rattle.dcsctp_receive_reassembly.specs.declared.stream.Waiting.{Waiting};
ghost use Rattle.dcsctp_receive_reassembly.specs.Streams.{stream_model, waiting_whole, HoldsPlace, chunk_of};
ghost use Rattle.dcsctp_receive_reassembly.specs.Counting.{CountsOutcome, CountsPart};
ghost use Rattle.dcsctp_api.specs.spec.queues.IncomingStreams.{is_message_due, delivered_from, deliveries_from, delivered_as, next_after, ready_with, TakesNothing, WaitsAmong, TakesOrdered, TakesAhead, TakesUnordered, UnorderedOutcome, next_past, runs_up_to, stream_after_skip, skipped_in_order, skipped_out_of_order, skip_deliveries, skip_used, data_part, TakesOnStream, new_stream};

use crate::arrivals::Data;
use crate::counting::{Counted, NOTHING, kept, waiting_overhead};
use crate::fragments::Fragments;
use crate::numbers::{fragment_place, number_near, short_number_from, short_number_near};
use crate::runs::{Assembled, Part, Whole, part_used};
use dcsctp_api::types::{Numbering, SkippedTo, Taken};
use dcsctp_api::{Message, PpId, StreamId};
use std::alloc::{AllocError, Global};
use std::collections::{BTreeMap, VecDeque};

/// An incoming stream. Its messages are numbered without wrap, the first as 2^32.
#[derive(Drop)]
pub struct Stream {
    pub id: StreamId,

    /// The number of the ordered message that comes next.
    pub next: u64,

    /// The number of the unordered message of which a part was received last.
    pub last_unordered: u64,

    /// Whole ordered messages by their numbers. An earlier one is missing.
    pub waiting: BTreeMap<u64, Waiting>,

    /// Parts of ordered messages.
    pub ordered: Fragments,

    /// Parts of unordered messages.
    pub unordered: Fragments,
}

/// A whole ordered message that waits for an earlier one.
#[derive(Drop)]
pub struct Waiting {
    pub ppid: PpId,
    pub payload: Vec<u8>,
}

/// The number of the first message of a stream, so that there are numbers before it.
pub const FIRST_NUMBER: u64 = 0x1_0000_0000;

/// A part at this place, out of this data.
#[inline(always)]
pub fn part_of_data(chunk: Data, place: u128, number: u64) -> Part
    ensures { part_of result ≡ data_part (chunk_of chunk) place number }
{
    Part {
        place,
        number,
        ppid: chunk.ppid,
        payload: chunk.payload,
        is_beginning: chunk.is_beginning,
        is_end: chunk.is_end,
    }
}

/// What became of a part of an unordered message with that many bytes: one that makes its message whole makes
/// it ready. There is room for it.
pub fn deliver_unordered(
    id: StreamId,
    size: usize,
    overhead: usize,
    outcome: Assembled,
    ready: &mut VecDeque<Message>,
) -> Counted
    requires { deque_len ready.old < deque_capacity ready.old }
    ensures does { (part : PartModel) → length part.payload ≡ size
        → UnorderedOutcome part (delivered_as id.0) (map message_content ready.old.items)
        (assembled_of outcome) result.taken (map message_content ready.new.items) }
    ensures used { CountsOutcome overhead size outcome result }
{
    match outcome {
        Assembled::Dropped => NOTHING,
        Assembled::Kept => kept(size, part_used(size, overhead), 0),
        Assembled::Whole(whole) => {
            let added = whole.payload.len() as u128;
            let freed = whole.used;
            ready.push_back_reserved(Message::new(id, whole.ppid, whole.payload));
            Counted {
                taken: Taken {
                    kept_bytes: size,
                    ready: 1,
                },
                added,
                freed,
            }
        }
    }
}

// A part of an unordered message of this stream was received, or a whole one. If an allocation fails, nothing
// has changed.
fn add_and_deliver_at_once(
    alloc: Global,
    id: StreamId,
    fragments: &mut Fragments,
    part: Part,
    overhead: usize,
    ready: &mut VecDeque<Message>,
) -> Result<Counted, AllocError>
    requires { part.place / 2 ^ 64 ≡ part.number }
    ensures ok { IfOk result
        (λ counted. TakesUnordered (part_of part) (delivered_as id.0) fragments.old
        (map message_content ready.old.items) counted.taken fragments.new
        (map message_content ready.new.items)) }
    ensures used { IfOk result
        (λ counted. CountsPart (length part.payload.items + overhead)
        (runs_used overhead fragments.old + ready_bytes (map message_content ready.old.items))
        counted (runs_used overhead fragments.new
        + ready_bytes (map message_content ready.new.items))) }
    ensures err { OnErr result
        ((fragments.new ≡ fragments.old)
        × (map message_content ready.new.items ≡ map message_content ready.old.items)) }
{
    let size = part.payload.len();
    ready.try_reserve(1)?;
    let outcome = fragments.add(alloc, part, overhead)?;
    Ok(deliver_unordered(id, size, overhead, outcome, ready))
}

// Does the first message that waits have this number or a smaller one?
#[inline(always)]
fn first_is_due(waiting: &BTreeMap<u64, Waiting>, next: u64) -> bool
    ensures { result ≡ is_message_due next (map waiting_whole waiting.now.entries) }
{
    match waiting.first_key_value() {
        Some((number, _)) => *number <= next,
        None => false,
    }
}

// How much of the receive window the messages use, at most `u128::MAX`.
fn waiting_used(waiting: &BTreeMap<u64, Waiting>, overhead: usize) -> u128
    ensures { result ≡ capped_u128 (wholes_used overhead (map waiting_whole waiting.now.entries)) }
{
    let mut used: u128 = 0;
    for (_, message) in waiting {
        used = used.saturating_add(part_used(message.payload.len(), overhead));
    }
    used
}

// Takes a place for a message of this number, for which there is none yet.
fn hold_place(
    alloc: Global,
    waiting: &mut BTreeMap<u64, Waiting>,
    number: u64,
) -> Result<(), AllocError>
    requires absent { get nat_cmp waiting.old number ≡ None }
    ensures ok { OnOk result (HoldsPlace number waiting.old.entries waiting.new.entries) }
    ensures err { OnErr result (waiting.new.entries ≡ waiting.old.entries) }
{
    let empty = Waiting {
        ppid: PpId(0),
        payload: Vec::new(alloc),
    };
    let _ = waiting.insert(number, empty)?;
    Ok(())
}

// The message waits at the place that was taken for it.
fn fill_place(waiting: &mut BTreeMap<u64, Waiting>, whole: Whole)
    requires there { IsSome (get nat_cmp waiting.old whole.number) }
    ensures { (before : List (ℕ × Waiting)) → HoldsPlace whole.number before waiting.old.entries
        → WaitsAmong (whole_of whole) (map waiting_whole before)
        (map waiting_whole waiting.new.entries) }
{
    let message = waiting.get_mut(&whole.number).unwrap();
    message.ppid = whole.ppid;
    message.payload = whole.payload;
}

// Frees the place that was taken for a message of this number.
fn leave_place(waiting: &mut BTreeMap<u64, Waiting>, number: u64)
    ensures { (before : List (ℕ × Waiting)) → HoldsPlace number before waiting.old.entries
        → waiting.new.entries ≡ before }
{
    let _ = waiting.remove(&number);
}

impl Stream {
    /// A stream on which nothing was received. Allocates nothing.
    pub fn new(alloc: Global, id: StreamId) -> Stream
        ensures { stream_model result ≡ new_stream id.0 }
    {
        Stream {
            id,
            next: FIRST_NUMBER,
            last_unordered: FIRST_NUMBER,
            waiting: BTreeMap::new(alloc),
            ordered: Fragments::new(alloc),
            unordered: Fragments::new(alloc),
        }
    }

    /// Waiting messages that are numbered below the next one become ready, and those that follow in a row
    /// from it on. The next one is then the first that is missing. Returns how many they are. There is room
    /// for all that wait.
    #[inline(always)]
    pub fn deliver(&mut self, ready: &mut VecDeque<Message>) -> usize
        requires { deque_len ready.old + btree_map_len self.old.waiting ≤ deque_capacity ready.old }
        ensures stream { stream_model self.new
            ≡ delivered_from self.old.next (stream_model self.old) }
        ensures ready { map message_content ready.new.items
            ≡ map message_content ready.old.items
            ++ deliveries_from self.old.next (stream_model self.old) }
        ensures count { result ≡ length (deliveries_from self.old.next (stream_model self.old)) }
        ensures room { deque_capacity ready.new ≡ deque_capacity ready.old }
    {
        let mut count = 0;
        while first_is_due(&self.waiting, self.next) {
            let (number, message) = self.waiting.pop_first().unwrap();
            if number == self.next {
                self.next = self.next.saturating_add(1);
            }
            ready.push_back_reserved(Message::new(self.id, message.ppid, message.payload));
            count += 1;
        }
        count
    }

    // The next message is whole: it becomes ready, with those that waited for it. There is room for them. The
    // part that made it whole has that many bytes.
    #[inline(always)]
    fn deliver_next(
        &mut self,
        size: usize,
        whole: Whole,
        overhead: usize,
        ready: &mut VecDeque<Message>,
    ) -> Counted
        requires room { deque_len ready.old + btree_map_len self.old.waiting
            < deque_capacity ready.old }
        requires next { whole.number ≡ self.old.next }
        ensures taken { result.taken
            ≡ record {
              kept_bytes = size;
              ready = length (ready_with (stream_model self.old) (whole_of whole));
            } }
        ensures stream { stream_model self.new
            ≡ delivered_from (next_after self.old.next (whole_of whole)) (stream_model self.old) }
        ensures ready { map message_content ready.new.items
            ≡ map message_content ready.old.items
            ++ ready_with (stream_model self.old) (whole_of whole) }
        ensures added { result.added ≡ length whole.payload.items }
        ensures freed { result.freed
            ≡ capped_u128
            (whole.used
            + (length (ready_with (stream_model self.old) (whole_of whole)) - 1) * overhead) }
    {
        let added = whole.payload.len() as u128;
        let used = whole.used;
        self.next = self.next.saturating_add(1);
        ready.push_back_reserved(Message::new(self.id, whole.ppid, whole.payload));
        let count = self.deliver(ready);
        Counted {
            taken: Taken {
                kept_bytes: size,
                ready: count + 1,
            },
            added,
            freed: used.saturating_add(waiting_overhead(count, overhead)),
        }
    }

    // A part of the next message was received, or all of it: a whole one becomes ready with those that waited
    // for it.
    #[inline(always)]
    fn add_part_of_next(
        &mut self,
        alloc: Global,
        part: Part,
        overhead: usize,
        ready: &mut VecDeque<Message>,
    ) -> Result<Counted, AllocError>
        requires next { part.number ≡ self.old.next }
        requires place { part.place / 2 ^ 64 ≡ part.number }
        ensures ok { IfOk result
            (λ counted. TakesOrdered (part_of part) (stream_model self.old)
            (map message_content ready.old.items) counted.taken (stream_model self.new)
            (map message_content ready.new.items)) }
        ensures used { IfOk result
            (λ counted. CountsPart (length part.payload.items + overhead)
            (kept_stream_used overhead (stream_model self.old)
            + ready_bytes (map message_content ready.old.items)) counted
            (kept_stream_used overhead (stream_model self.new)
            + ready_bytes (map message_content ready.new.items))) }
        ensures err { OnErr result
            ((stream_model self.new ≡ stream_model self.old)
            × (map message_content ready.new.items ≡ map message_content ready.old.items)) }
    {
        let size = part.payload.len();
        ready.try_reserve(self.waiting.len() + 1)?;
        match self.ordered.add(alloc, part, overhead)? {
            Assembled::Dropped => Ok(NOTHING),
            Assembled::Kept => Ok(kept(size, part_used(size, overhead), 0)),
            Assembled::Whole(whole) => Ok(self.deliver_next(size, whole, overhead, ready)),
        }
    }

    // A part of a message after the next was received, or all of it: a whole one waits. A place for it is
    // taken first, so that nothing fails once its parts are joined.
    #[inline(never)]
    fn add_part_of_later(
        &mut self,
        alloc: Global,
        part: Part,
        overhead: usize,
    ) -> Result<Counted, AllocError>
        requires ahead { self.old.next < part.number }
        requires fresh { get nat_cmp self.old.waiting part.number ≡ None }
        requires place { part.place / 2 ^ 64 ≡ part.number }
        ensures ok { (ready : List MessageContent)
            → IfOk result
            (λ counted. TakesOrdered (part_of part) (stream_model self.old) ready counted.taken
            (stream_model self.new) ready) }
        ensures used { IfOk result
            (λ counted. CountsPart (length part.payload.items + overhead)
            (kept_stream_used overhead (stream_model self.old)) counted
            (kept_stream_used overhead (stream_model self.new))) }
        ensures err { OnErr result (stream_model self.new ≡ stream_model self.old) }
    {
        let size = part.payload.len();
        let number = part.number;
        hold_place(alloc, &mut self.waiting, number)?;
        match self.ordered.add(alloc, part, overhead) {
            Ok(Assembled::Whole(whole)) => {
                let added = part_used(whole.payload.len(), overhead);
                let freed = whole.used;
                fill_place(&mut self.waiting, whole);
                Ok(kept(size, added, freed))
            }
            Ok(Assembled::Kept) => {
                leave_place(&mut self.waiting, number);
                Ok(kept(size, part_used(size, overhead), 0))
            }
            Ok(Assembled::Dropped) => {
                leave_place(&mut self.waiting, number);
                Ok(NOTHING)
            }
            Err(error) => {
                leave_place(&mut self.waiting, number);
                Err(error)
            }
        }
    }

    /// A part of an ordered message was received, or a whole one. One of a message before the next is
    /// dropped. If a message of the same number waits already, this one becomes ready once it is whole.
    /// `Err`: an allocation failed, and nothing has changed.
    #[inline(always)]
    pub fn add_ordered_part(
        &mut self,
        alloc: Global,
        part: Part,
        overhead: usize,
        ready: &mut VecDeque<Message>,
    ) -> Result<Counted, AllocError>
        requires { part.place / 2 ^ 64 ≡ part.number }
        ensures past { part.number < self.old.next
            → IfOk result
            (λ counted. TakesNothing counted.taken
            × (stream_model self.new ≡ stream_model self.old)
            × (map message_content ready.new.items ≡ map message_content ready.old.items)) }
        ensures ok { self.old.next ≤ part.number
            → IfOk result
            (λ counted. TakesAhead (part_of part) (stream_model self.old)
            (map message_content ready.old.items) counted.taken (stream_model self.new)
            (map message_content ready.new.items)) }
        ensures used { IfOk result
            (λ counted. CountsPart (length part.payload.items + overhead)
            (kept_stream_used overhead (stream_model self.old)
            + ready_bytes (map message_content ready.old.items)) counted
            (kept_stream_used overhead (stream_model self.new)
            + ready_bytes (map message_content ready.new.items))) }
        ensures err { OnErr result
            ((stream_model self.new ≡ stream_model self.old)
            × (map message_content ready.new.items ≡ map message_content ready.old.items)) }
    {
        if part.number < self.next {
            return Ok(NOTHING);
        }
        if self.waiting.contains_key(&part.number) {
            return add_and_deliver_at_once(
                alloc,
                self.id,
                &mut self.ordered,
                part,
                overhead,
                ready,
            );
        }
        if part.number == self.next {
            self.add_part_of_next(alloc, part, overhead, ready)
        } else {
            self.add_part_of_later(alloc, part, overhead)
        }
    }

    /// A part of an unordered I-DATA message was received, or a whole one. `Err`: an allocation failed, and
    /// nothing has changed.
    pub fn add_unordered_part(
        &mut self,
        alloc: Global,
        part: Part,
        overhead: usize,
        ready: &mut VecDeque<Message>,
    ) -> Result<Counted, AllocError>
        requires { part.place / 2 ^ 64 ≡ part.number }
        ensures used { IfOk result
            (λ counted. CountsPart (length part.payload.items + overhead)
            (runs_used overhead self.old.unordered
            + ready_bytes (map message_content ready.old.items)) counted
            (runs_used overhead self.new.unordered
            + ready_bytes (map message_content ready.new.items))) }
        ensures ok { IfOk result
            (λ counted. TakesUnordered (part_of part) (delivered_as self.old.id.0)
            self.old.unordered (map message_content ready.old.items) counted.taken
            self.new.unordered (map message_content ready.new.items)) }
        ensures ordered { (self.new.id ≡ self.old.id) × (self.new.next ≡ self.old.next)
            × (self.new.last_unordered ≡ self.old.last_unordered)
            × (self.new.waiting.entries ≡ self.old.waiting.entries)
            × (self.new.ordered ≡ self.old.ordered) }
        ensures err { OnErr result
            ((stream_model self.new ≡ stream_model self.old)
            × (map message_content ready.new.items ≡ map message_content ready.old.items)) }
    {
        add_and_deliver_at_once(alloc, self.id, &mut self.unordered, part, overhead, ready)
    }

    /// Adds data of this stream, except for unordered DATA. `Err`: an allocation failed, and nothing has
    /// changed.
    #[inline(always)]
    pub fn route_part(
        &mut self,
        alloc: Global,
        tsn_number: u64,
        chunk: Data,
        overhead: usize,
        ready: &mut VecDeque<Message>,
    ) -> Result<Counted, AllocError>
        ensures used { IfOk result
            (λ counted. CountsPart (length chunk.payload.items + overhead)
            (kept_stream_used overhead (stream_model self.old)
            + ready_bytes (map message_content ready.old.items)) counted
            (kept_stream_used overhead (stream_model self.new)
            + ready_bytes (map message_content ready.new.items))) }
        ensures ok { IfOk result
            (λ counted. TakesOnStream tsn_number (chunk_of chunk) (stream_model self.old)
            (map message_content ready.old.items) counted.taken (stream_model self.new)
            (map message_content ready.new.items)) }
        ensures err { OnErr result
            ((stream_model self.new ≡ stream_model self.old)
            × (map message_content ready.new.items ≡ map message_content ready.old.items)) }
    {
        match chunk.numbering {
            Numbering::Ordered { ssn } => {
                let number = short_number_from(self.next, ssn);
                let part = part_of_data(chunk, fragment_place(number, tsn_number), number);
                self.add_ordered_part(alloc, part, overhead, ready)
            }
            Numbering::InterleavedOrdered { mid, fsn } => {
                let number = number_near(self.next, mid);
                let part = part_of_data(chunk, fragment_place(number, u64::from(fsn)), number);
                self.add_ordered_part(alloc, part, overhead, ready)
            }
            Numbering::InterleavedUnordered { mid, fsn } => {
                let number = number_near(self.last_unordered, mid);
                let part = part_of_data(chunk, fragment_place(number, u64::from(fsn)), number);
                let counted = self.add_unordered_part(alloc, part, overhead, ready)?;
                self.last_unordered = number;
                Ok(counted)
            }
            Numbering::Unordered => {
                let part = part_of_data(chunk, u128::from(tsn_number), 0);
                self.add_unordered_part(alloc, part, overhead, ready)
            }
        }
    }

    /// Messages of this stream are skipped. Returns how much of the receive window isn't in use any longer, at
    /// most `u128::MAX`. There is room for all that wait.
    pub fn skip(
        &mut self,
        entry: &SkippedTo,
        overhead: usize,
        ready: &mut VecDeque<Message>,
    ) -> u128
        requires { deque_len ready.old + btree_map_len self.old.waiting ≤ deque_capacity ready.old }
        ensures stream { stream_model self.new ≡ stream_after_skip entry.now
            (stream_model self.old) }
        ensures ready { map message_content ready.new.items
            ≡ map message_content ready.old.items
            ++ skip_deliveries entry.now (stream_model self.old) }
        ensures size { result
            ≡ capped_u128
            (skip_used overhead entry.now (stream_model self.old)
            + length (skip_deliveries entry.now (stream_model self.old)) * overhead) }
        ensures room { deque_capacity ready.new ≡ deque_capacity ready.old }
    {
        match entry {
            SkippedTo::Ssn { ssn, .. } => {
                let number = short_number_near(self.next, *ssn);
                self.skip_ordered(number, overhead, ready)
            }
            SkippedTo::Mid {
                is_unordered: false,
                mid,
                ..
            } => {
                let number = number_near(self.next, *mid);
                self.skip_ordered(number, overhead, ready)
            }
            SkippedTo::Mid {
                is_unordered: true,
                mid,
                ..
            } => {
                let number = number_near(self.last_unordered, *mid);
                self.skip_unordered(number, overhead)
            }
        }
    }

    // The ordered messages up to this number are skipped. Those that aren't whole are dropped, and the whole
    // ones become ready with those that follow (RFC 3758, section 3.6). There is room for all that wait.
    fn skip_ordered(&mut self, number: u64, overhead: usize, ready: &mut VecDeque<Message>) -> u128
        requires { deque_len ready.old + btree_map_len self.old.waiting ≤ deque_capacity ready.old }
        ensures stream { stream_model self.new ≡ skipped_in_order number (stream_model self.old) }
        ensures ready { map message_content ready.new.items
            ≡ map message_content ready.old.items
            ++ deliveries_from (next_past number self.old.next) (stream_model self.old) }
        ensures size { result
            ≡ capped_u128
            (runs_used overhead (runs_up_to number self.old.ordered)
            + length (deliveries_from (next_past number self.old.next) (stream_model self.old))
            * overhead) }
        ensures room { deque_capacity ready.new ≡ deque_capacity ready.old }
    {
        let dropped = self.ordered.drop_up_to(number, overhead);
        self.next = self.next.max(number.saturating_add(1));
        let count = self.deliver(ready);
        dropped.saturating_add(waiting_overhead(count, overhead))
    }

    // The unordered messages up to this number are skipped: their parts are dropped (RFC 8260, section
    // 2.3.1).
    fn skip_unordered(&mut self, number: u64, overhead: usize) -> u128
        ensures stream { stream_model self.new
            ≡ skipped_out_of_order number (stream_model self.old) }
        ensures size { result
            ≡ capped_u128 (runs_used overhead (runs_up_to number self.old.unordered)) }
    {
        self.last_unordered = number;
        self.unordered.drop_up_to(number, overhead)
    }

    /// Does something of it wait for more: a message for an earlier one, or parts for the others?
    pub fn holds_parts(&self) -> bool
        ensures { result ≡ holds_parts (stream_model self.now) }
    {
        !self.waiting.is_empty() || !self.ordered.is_empty() || !self.unordered.is_empty()
    }

    /// How much of the receive window the stream uses, at most `u128::MAX`.
    pub fn used(&self, overhead: usize) -> u128
        ensures { result ≡ capped_u128 (kept_stream_used overhead (stream_model self.now)) }
    {
        waiting_used(&self.waiting, overhead)
            .saturating_add(self.ordered.used(overhead))
            .saturating_add(self.unordered.used(overhead))
    }
}
