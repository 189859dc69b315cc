//! What was received and doesn't wait for the end of a deferred reset. These are the streams, the parts of
//! unordered messages, and the ready messages (RFC 9260, sections 6.5, 6.6 and 6.9).

ghost use Rattle.std.specs.Prelude.{◌≡◌, ℕ, ◌+◌, ◌-◌, ◌^◌, ◌<◌, map, true, OnOk, OnErr, IsSome, IfSome, IfNone, length, [], ◌∷◌};
ghost use Rattle.std.specs.BTreeMap.{get};
ghost use Rattle.std.specs.List.{list_any};
ghost use Rattle.std.specs.Ordering.{nat_cmp};
ghost use Rattle.dcsctp_receive_reassembly.specs.Held.{capped_u128};
ghost use Rattle.dcsctp_api.specs.spec.queues.IncomingStreams.{streams_used};
ghost use Rattle.dcsctp_api.specs.types.queues.Messages.{message_content};
ghost use Rattle.dcsctp_api.specs.spec.queues.Readiness.{holds_parts, is_unassembled};
ghost use Rattle.dcsctp_receive_reassembly.specs.Streams.{chunk_of};
ghost use Rattle.dcsctp_receive_reassembly.specs.Reassembly.{incoming_of, entry_of, Balances};
ghost use Rattle.dcsctp_api.specs.spec.queues.Incoming.{AreInOrder, nothing, received_more, KeepsStreams, SameIncoming, TakesUnorderedData, TakesStreamData, TakesIncomingChunk};

use crate::arrivals::Data;
use crate::counting::Counted;
use crate::numbers::number_near;
use crate::stream::{FIRST_NUMBER, Stream, deliver_unordered, part_of_data};
use crate::unordered::UnorderedParts;
use dcsctp_api::types::{Numbering, SkippedTo};
use dcsctp_api::{Message, StreamId};
use std::alloc::{AllocError, Global};
use std::collections::{BTreeMap, VecDeque};

/// All that is kept of what was received.
#[derive(Drop)]
pub struct Incoming {
    pub alloc: Global,

    /// How much of the receive window is in use: for all that is kept, and for what waits for the end of a
    /// deferred reset.
    pub used: u128,

    /// How many messages became ready.
    pub messages_received: u64,

    pub ready: VecDeque<Message>,
    pub streams: BTreeMap<u16, Stream>,

    /// Parts of unordered messages of DATA.
    pub unordered: UnorderedParts,

    /// The number of the TSN that was handled last.
    pub last_tsn_number: u64,
}

/// Makes the stream, if nothing was received on it yet.
pub fn make_stream(
    alloc: Global,
    streams: &mut BTreeMap<u16, Stream>,
    id: StreamId,
) -> Result<(), AllocError>
    ensures made { OnOk result (IsSome (get nat_cmp streams.new id.0)) }
    ensures kept { (other : ℕ) → IsSome (get nat_cmp streams.old other)
        → IsSome (get nat_cmp streams.new other) }
    ensures streams { KeepsStreams (map entry_of streams.old.entries)
        (map entry_of streams.new.entries) }
    ensures used { (overhead : ℕ)
        → streams_used overhead (map entry_of streams.new.entries)
        ≡ streams_used overhead (map entry_of streams.old.entries) }
{
    if !streams.contains_key(&id.0) {
        let _ = streams.insert(id.0, Stream::new(alloc, id))?;
    }
    Ok(())
}

// Does something of a stream wait for more?
fn any_holds_parts(streams: &BTreeMap<u16, Stream>) -> bool
    ensures any { result
        ≡ list_any (λ entry. holds_parts entry.1) (map entry_of streams.now.entries) }
    ensures order { AreInOrder (map entry_of streams.now.entries) }
{
    for (_, stream) in streams.iter() {
        if stream.holds_parts() {
            return true;
        }
    }
    false
}

impl Incoming {
    /// Nothing was received yet.
    pub fn new(alloc: Global) -> Incoming
        ensures used { result.used ≡ 0 }
        ensures incoming { incoming_of result ≡ nothing }
    {
        Incoming {
            alloc,
            used: 0,
            messages_received: 0,
            ready: VecDeque::new(alloc),
            streams: BTreeMap::new(alloc),
            unordered: UnorderedParts::new(alloc),
            last_tsn_number: FIRST_NUMBER,
        }
    }

    // Counts data that was taken, whose TSN has this number.
    fn count(&mut self, tsn_number: u64, counted: Counted)
        ensures incoming { incoming_of self.new
            ≡ record (incoming_of self.old) {
              messages_received = received_more counted.taken.ready
                  self.old.messages_received;
              last_tsn_number = tsn_number;
            } }
        ensures used { self.new.used ≡ capped_u128 (self.old.used - counted.freed + counted.added) }
    {
        self.used = self
            .used
            .saturating_sub(counted.freed)
            .saturating_add(counted.added);
        self.messages_received = self
            .messages_received
            .saturating_add(counted.taken.ready as u64);
        self.last_tsn_number = tsn_number;
    }

    // A part of an unordered message of DATA was received.
    fn add_unordered_data(
        &mut self,
        tsn_number: u64,
        chunk: Data,
        overhead: usize,
    ) -> Result<(), AllocError>
        requires { self.old.used + (length chunk.payload.items + overhead) < 2 ^ 128 }
        ensures ok { OnOk result
            (TakesUnorderedData tsn_number (chunk_of chunk) (incoming_of self.old)
            (incoming_of self.new)) }
        ensures last { OnOk result (self.new.last_tsn_number ≡ tsn_number) }
        ensures used { Balances overhead self.old self.new }
        ensures err { OnErr result (SameIncoming (incoming_of self.old) (incoming_of self.new)) }
        ensures count { OnErr result (self.new.used ≡ self.old.used) }
    {
        let id = chunk.stream_id;
        let size = chunk.payload.len();
        let part = part_of_data(chunk, u128::from(tsn_number), u64::from(id.0));
        self.ready.try_reserve(1)?;
        let outcome = self.unordered.add(self.alloc, part, overhead)?;
        let counted = deliver_unordered(id, size, overhead, outcome, &mut self.ready);
        self.count(tsn_number, counted);
        Ok(())
    }

    // Data was received on a new stream, which is made first.
    fn add_to_new_stream(
        &mut self,
        tsn_number: u64,
        chunk: Data,
        overhead: usize,
    ) -> Result<(), AllocError>
        requires { self.old.used + (length chunk.payload.items + overhead) < 2 ^ 128 }
        ensures ok { OnOk result
            (TakesStreamData tsn_number (chunk_of chunk) (incoming_of self.old)
            (incoming_of self.new)) }
        ensures last { OnOk result (self.new.last_tsn_number ≡ tsn_number) }
        ensures used { Balances overhead self.old self.new }
        ensures err { OnErr result (SameIncoming (incoming_of self.old) (incoming_of self.new)) }
        ensures count { OnErr result (self.new.used ≡ self.old.used) }
    {
        make_stream(self.alloc, &mut self.streams, chunk.stream_id)?;
        let stream = self.streams.get_mut(&chunk.stream_id.0).unwrap();
        let counted = stream.route_part(self.alloc, tsn_number, chunk, overhead, &mut self.ready)?;
        self.count(tsn_number, counted);
        Ok(())
    }

    // Data of a stream was received, except for unordered DATA. An existing stream is looked up once.
    #[inline(always)]
    fn add_stream_data(
        &mut self,
        tsn_number: u64,
        chunk: Data,
        overhead: usize,
    ) -> Result<(), AllocError>
        requires { self.old.used + (length chunk.payload.items + overhead) < 2 ^ 128 }
        ensures ok { OnOk result
            (TakesStreamData tsn_number (chunk_of chunk) (incoming_of self.old)
            (incoming_of self.new)) }
        ensures last { OnOk result (self.new.last_tsn_number ≡ tsn_number) }
        ensures used { Balances overhead self.old self.new }
        ensures err { OnErr result (SameIncoming (incoming_of self.old) (incoming_of self.new)) }
        ensures count { OnErr result (self.new.used ≡ self.old.used) }
    {
        match self.streams.get_mut(&chunk.stream_id.0) {
            Some(stream) => {
                let counted = stream.route_part(
                    self.alloc,
                    tsn_number,
                    chunk,
                    overhead,
                    &mut self.ready,
                )?;
                self.count(tsn_number, counted);
                Ok(())
            }
            None => self.add_to_new_stream(tsn_number, chunk, overhead),
        }
    }

    /// Handles data, whose bytes can be counted. `Err`: an allocation failed, and nothing has changed.
    #[inline(always)]
    pub fn add_data(&mut self, tsn: u32, chunk: Data, overhead: usize) -> Result<(), AllocError>
        requires { self.old.used + (length chunk.payload.items + overhead) < 2 ^ 128 }
        ensures ok { OnOk result
            (TakesIncomingChunk tsn (chunk_of chunk) (incoming_of self.old)
            (incoming_of self.new)) }
        ensures used { Balances overhead self.old self.new }
        ensures err { OnErr result (SameIncoming (incoming_of self.old) (incoming_of self.new)) }
        ensures count { OnErr result (self.new.used ≡ self.old.used) }
    {
        let tsn_number = number_near(self.last_tsn_number, tsn);
        match chunk.numbering {
            Numbering::Unordered => self.add_unordered_data(tsn_number, chunk, overhead),
            Numbering::Ordered { .. }
            | Numbering::InterleavedOrdered { .. }
            | Numbering::InterleavedUnordered { .. } => {
                self.add_stream_data(tsn_number, chunk, overhead)
            }
        }
    }

    /// Does something wait for more: a message for an earlier one, or parts for the others?
    pub fn is_unassembled(&self) -> bool
        ensures unassembled { result ≡ is_unassembled (incoming_of self.now) }
        ensures streams { AreInOrder (incoming_of self.now).streams }
    {
        any_holds_parts(&self.streams) || !self.unordered.is_empty()
    }

    /// Takes the message that became ready first.
    pub fn next_message(&mut self) -> Option<Message>
        ensures some { IfSome result
            (λ message. map message_content self.old.ready.items
            ≡ message_content message ∷ map message_content self.new.ready.items) }
        ensures left { IfSome result
            (λ _. incoming_of self.new
            ≡ record (incoming_of self.old) {
              ready = map message_content
                  self.new.ready.items;
            }) }
        ensures none { IfNone result
            ((map message_content self.old.ready.items ≡ [])
            × (incoming_of self.new ≡ incoming_of self.old)) }
        ensures used { (overhead : ℕ) → Balances overhead self.old self.new }
    {
        match self.ready.pop_front() {
            Some(message) => {
                self.used = self.used.saturating_sub(message.payload.len() as u128);
                Some(message)
            }
            None => None,
        }
    }
}
