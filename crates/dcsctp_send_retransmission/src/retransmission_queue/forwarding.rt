//! What the peer needn't wait for any more (RFC 3758, section 3.5; RFC 8260, section 2.3.1).

ghost use Rattle.std.specs.Prelude.{◌≡◌, ◌<◌, ◌||◌, not, [], IfOk, length, map, slice_get, Some, take};
ghost use Rattle.dcsctp_api.specs.spec.queues.Items.{Item};
ghost use Rattle.dcsctp_send_retransmission.specs.Forwarding.{stream_entry, messages_entry};
ghost use Rattle.dcsctp_api.specs.spec.queues.Skipping.{NoneTwice};
ghost use Rattle.dcsctp_send_retransmission.specs.Skipping.{ssn_entry, mid_entry};

use super::RetransmissionQueue;
use crate::forward_tsn::{ForwardTsn, Skipped};
use dcsctp_api::wire::{SkippedMessages, SkippedStream};
use dcsctp_send_queue::DataToSend;
use std::alloc::{AllocError, Global};
use std::collections::BTreeMap;

// The numbers of the last message that is skipped on a stream.
#[derive(Clone, Copy, Debug)]
pub(super) struct LastNumbers {
    ssn: u16,
    mid: u32,
}

impl RetransmissionQueue {
    ghost use Rattle.dcsctp_send_retransmission.specs.Forwarding.{SkipsAbandoned};
    ghost use Rattle.dcsctp_api.specs.spec.queues.Skipping.{is_row_continued, entry_limit};
    ghost use Rattle.dcsctp_send_retransmission.specs.Skipping.{CollectsLastNumbers, SkipsRow, TakesItem};

    /// What a FORWARD-TSN says, or with interleaving an I-FORWARD-TSN (RFC 3758, section 3.5; RFC 8260,
    /// section 2.3.1). It has the last TSN of the row of abandoned items at the front. For each stream it has
    /// the last message that is skipped. The row ends early if its streams fill a packet, or where streams
    /// were reset.
    pub fn create_forward_tsn(&self) -> Result<ForwardTsn, AllocError>
        ensures { IfOk result (λ chunk. SkipsAbandoned self.now chunk) }
    {
        let mut numbers = BTreeMap::new(self.alloc);
        let count = self.skip(&mut numbers)?;
        let skipped = if self.is_interleaving() {
            Skipped::Messages(messages_of(self.alloc, &numbers)?)
        } else {
            Skipped::Streams(streams_of(self.alloc, &numbers)?)
        };
        Ok(ForwardTsn {
            new_cumulative_tsn: self.outstanding.tsn_at(count).wrapping_sub(1),
            skipped,
        })
    }

    // Collects the last numbers of the row by stream, ordered and unordered messages apart, and returns how
    // long the row is.
    fn skip(&self, numbers: &mut BTreeMap<(u16, bool), LastNumbers>) -> Result<usize, AllocError>
        requires { numbers.old.entries ≡ [] }
        ensures { IfOk result (λ count. SkipsRow self.now count numbers.new.entries) }
    {
        let len = self.outstanding.len();
        for place in 0..len {
            if !self.goes_on(place) {
                return Ok(place);
            }
            if !self.take_in(numbers, place)? {
                return Ok(place);
            }
        }
        Ok(len)
    }

    // Does the row continue with the item at the place?
    fn goes_on(&self, place: usize) -> bool
        requires { place < length self.now.outstanding.items }
        ensures { (item : Item) → slice_get self.now.outstanding.items place ≡ Some item
            → result ≡ is_row_continued place item }
    {
        let item = self.outstanding.item(place);
        item.progress.state.is_abandoned() && (place == 0 || !item.begins_after_reset)
    }

    // Is the fragment's message listed?
    fn is_listed(&self, fragment: &DataToSend) -> bool
        ensures { result ≡ (self.now.outstanding.is_interleaved || not fragment.now.is_unordered) }
    {
        self.is_interleaving() || !fragment.is_unordered
    }

    // How many entries a packet can carry, at least one.
    fn entry_limit(&self) -> usize
        ensures { result ≡ entry_limit self.now.outstanding.is_interleaved self.now.congestion.mtu }
    {
        let size = if self.is_interleaving() { 8 } else { 4 };
        (self.congestion.mtu.saturating_sub(20) / size).max(1)
    }

    // Adds the numbers of the item at the place, unless there is no room for them.
    fn take_in(
        &self,
        numbers: &mut BTreeMap<(u16, bool), LastNumbers>,
        place: usize,
    ) -> Result<bool, AllocError>
        requires place { place < length self.now.outstanding.items }
        requires row { CollectsLastNumbers self.now (take place self.now.outstanding.items)
            numbers.old.entries }
        ensures { IfOk result
            (λ taken. TakesItem self.now place numbers.old.entries numbers.new.entries taken) }
    {
        let fragment = &self.outstanding.item(place).fragment;
        if !self.is_listed(fragment) {
            return Ok(true);
        }
        let key = (fragment.stream_id.0, fragment.is_unordered);
        if self.entry_limit() <= numbers.len() && !numbers.contains_key(&key) {
            return Ok(false);
        }
        numbers.insert(
            key,
            LastNumbers {
                ssn: fragment.ssn,
                mid: fragment.mid,
            },
        )?;
        Ok(true)
    }
}

// The entries of a FORWARD-TSN.
fn streams_of(
    alloc: Global,
    numbers: &BTreeMap<(u16, bool), LastNumbers>,
) -> Result<Vec<SkippedStream>, AllocError>
    ensures { IfOk result
        (λ streams. (map stream_entry streams.items ≡ map ssn_entry numbers.now.entries)
        × NoneTwice numbers.now.entries) }
{
    let mut streams = Vec::with_capacity(alloc, numbers.len())?;
    for (key, last) in numbers {
        streams.push(SkippedStream {
            stream_id: key.0,
            ssn: last.ssn,
        })?;
    }
    Ok(streams)
}

// The entries of an I-FORWARD-TSN.
fn messages_of(
    alloc: Global,
    numbers: &BTreeMap<(u16, bool), LastNumbers>,
) -> Result<Vec<SkippedMessages>, AllocError>
    ensures { IfOk result
        (λ messages. (map messages_entry messages.items ≡ map mid_entry numbers.now.entries)
        × NoneTwice numbers.now.entries) }
{
    let mut messages = Vec::with_capacity(alloc, numbers.len())?;
    for (key, last) in numbers {
        messages.push(SkippedMessages {
            stream_id: key.0,
            is_unordered: key.1,
            mid: last.mid,
        })?;
    }
    Ok(messages)
}
