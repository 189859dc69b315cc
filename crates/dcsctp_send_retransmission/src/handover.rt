//! What a snapshot has of an item, and the item that is made of it again.

ghost use Rattle.std.specs.Prelude.{◌≡◌, ◌||◌, None, IfOk};
ghost use Rattle.dcsctp_api.specs.types.SnapshotItems.{outstanding_part};
ghost use Rattle.dcsctp_api.specs.spec.queues.OutstandingParts.{state_again, fragment_again};

use crate::item::Item;
use dcsctp_api::types::{
    HandoverOutstandingData, ItemState, Progress, millis_ahead, millis_since, moment_at,
    moment_before,
};
use dcsctp_api::{PpId, SocketTime, StreamId};
use dcsctp_send_queue::{DataToSend, NO_LIMIT, limit_of, name_of};
use std::alloc::{AllocError, Global};

// How far an item is. Abandoned goes before acknowledged, and that before lost.
fn state_again(is_abandoned: bool, acked: bool, is_lost: bool) -> ItemState
    ensures { result ≡ state_again is_abandoned acked is_lost }
{
    match (is_abandoned, acked, is_lost) {
        (true, _, _) => ItemState::Abandoned,
        (false, true, _) => ItemState::Acknowledged,
        (false, false, true) => ItemState::Marked,
        (false, false, false) => ItemState::InFlight,
    }
}

// The item's progress. Misses are counted from 0 again, since each SACK reports whether the item is missing.
fn progress_again(part: &HandoverOutstandingData) -> Progress
    ensures { result ≡ record {
      state = state_again part.now.is_abandoned part.now.acked
          (part.now.is_to_be_retransmitted || part.now.is_nacked);
      was_acknowledged = part.now.acked;
      times_sent_again = part.now.retransmission_count;
      sent_before = None;
      misses = 0;
    } }
{
    let is_lost = part.is_to_be_retransmitted || part.is_nacked;
    Progress {
        state: state_again(part.is_abandoned, part.acked, is_lost),
        was_acknowledged: part.acked,
        times_sent_again: part.retransmission_count,
        sent_before: None,
        misses: 0,
    }
}

// What its chunk says. The payload is copied.
fn fragment_again(
    alloc: Global,
    now: SocketTime,
    part: &HandoverOutstandingData,
) -> Result<DataToSend, AllocError>
    ensures { IfOk result (λ fragment. fragment ≡ fragment_again now (outstanding_part part.now)) }
{
    Ok(DataToSend {
        message_id: part.message_id,
        stream_id: StreamId(part.stream_id),
        ssn: part.ssn,
        mid: part.mid,
        fsn: part.fsn,
        ppid: PpId(part.ppid),
        is_unordered: part.is_unordered,
        is_beginning: part.is_beginning,
        is_end: part.is_end,
        payload: Vec::from_slice(alloc, part.payload.as_slice())?,
        max_retransmissions: limit_of(part.max_retransmissions),
        expires_at: part.expires_in_ms.map(|millis| moment_at(now, millis)),
        lifecycle_id: name_of(part.lifecycle_id),
    })
}

impl Item {
    ghost use Rattle.dcsctp_api.specs.spec.queues.OutstandingParts.{outstanding_given, item_again};

    /// The item that a snapshot has, if the snapshot is restored at the moment `now`. `was_reset`: streams were
    /// reset before. The payload is copied. `Err`: an allocation failed.
    pub fn from_handover(
        alloc: Global,
        now: SocketTime,
        was_reset: bool,
        part: &HandoverOutstandingData,
    ) -> Result<Item, AllocError>
        ensures { IfOk result
            (λ item. item ≡ item_again now was_reset (outstanding_part part.now)) }
    {
        Ok(Item {
            fragment: fragment_again(alloc, now, part)?,
            progress: progress_again(part),
            sent_at: moment_before(now, part.time_since_sent_ms),
            begins_after_reset: was_reset,
        })
    }

    /// What a snapshot that is made at the moment `now` has of it. The payload is copied. `Err`: an allocation
    /// failed.
    pub fn handover_data(
        &self,
        alloc: Global,
        now: SocketTime,
    ) -> Result<HandoverOutstandingData, AllocError>
        ensures { IfOk result (λ part. outstanding_part part ≡ outstanding_given now self.now) }
    {
        let fragment = &self.fragment;
        let is_lost = self.progress.state.is_marked();
        Ok(HandoverOutstandingData {
            stream_id: fragment.stream_id.0,
            ssn: fragment.ssn,
            mid: fragment.mid,
            fsn: fragment.fsn,
            ppid: fragment.ppid.0,
            payload: Vec::from_slice(alloc, fragment.payload.as_slice())?,
            is_beginning: fragment.is_beginning,
            is_end: fragment.is_end,
            is_unordered: fragment.is_unordered,
            message_id: fragment.message_id,
            lifecycle_id: fragment.lifecycle_id.map_or(0, |id| id.value()),
            expires_in_ms: fragment.expires_at.map(|moment| millis_ahead(now, moment)),
            max_retransmissions: fragment.max_retransmissions.unwrap_or(NO_LIMIT),
            retransmission_count: self.progress.times_sent_again,
            time_since_sent_ms: millis_since(now, self.sent_at),
            acked: self.progress.was_acknowledged,
            is_abandoned: self.progress.state.is_abandoned(),
            is_nacked: is_lost,
            is_to_be_retransmitted: is_lost,
        })
    }
}
