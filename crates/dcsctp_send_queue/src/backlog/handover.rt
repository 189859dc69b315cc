//! What a snapshot has of what waits.

ghost use Rattle.std.specs.Prelude.{◌≡◌, map};
ghost use Rattle.dcsctp_api.specs.types.SnapshotItems.{queued_part};
ghost use Rattle.dcsctp_api.specs.spec.queues.QueuedParts.{with_progress};

use super::Backlog;
use crate::UnderWay;
use dcsctp_api::SocketTime;
use dcsctp_api::types::{HandoverOutgoingStream, HandoverStreamMessage};
use std::alloc::AllocError;

// Says of the messages of a stream which of them is under way, and how far it has come: it is the first.
fn mark_under_way(parts: &mut Vec<HandoverStreamMessage>, under_way: Option<UnderWay>)
    ensures { map queued_part parts.new.items
        ≡ with_progress under_way (map queued_part parts.old.items) }
{
    let Some(under_way) = under_way else {
        return;
    };
    if parts.is_empty() {
        return;
    }
    let part = &mut parts[0];
    part.remaining_offset = under_way.sent;
    part.mid = Some(under_way.mid);
    part.ssn = Some(under_way.ssn);
    part.fsn = under_way.next_fsn;
}

impl Backlog {
    ghost use Rattle.std.specs.Prelude.{◌≡◌, map, IfOk};
    ghost use Rattle.std.specs.List.{flat_map};
    ghost use Rattle.dcsctp_api.specs.types.SnapshotItems.{queued_part};
    ghost use Rattle.dcsctp_api.specs.spec.queues.QueuedParts.{messages_given, stream_given};

    /// What a snapshot has of the numbers and the priorities of all streams. `Err`: an allocation failed.
    pub fn handover_streams(&self) -> Result<Vec<HandoverOutgoingStream>, AllocError>
        ensures { IfOk result (λ list. list.items ≡ map stream_given self.now.streams) }
    {
        let mut list = Vec::with_capacity(self.alloc, self.streams.len())?;
        for place in 0..self.streams.len() {
            list.push(self.streams.at(place).handover_stream())?;
        }
        Ok(list)
    }

    /// What a snapshot that is made at the moment `now` has of all messages. Their payloads are copied. `Err`:
    /// an allocation failed.
    pub fn handover_messages(
        &self,
        now: SocketTime,
    ) -> Result<Vec<HandoverStreamMessage>, AllocError>
        ensures { IfOk result
            (λ parts. map queued_part parts.items
            ≡ flat_map (messages_given now) self.now.streams) }
    {
        let mut all = Vec::new(self.alloc);
        for place in 0..self.streams.len() {
            let stream = self.streams.at(place);
            let mut parts = stream.handover_messages(self.alloc, now)?;
            mark_under_way(&mut parts, stream.under_way());
            all.append(&mut parts)?;
        }
        Ok(all)
    }
}
