//! What a snapshot has of a stream, and its restoration.

use super::OutgoingStream;
use dcsctp_api::SocketTime;
use dcsctp_api::types::{HandoverOutgoingStream, HandoverStreamMessage};
use std::alloc::{AllocError, Global};

impl OutgoingStream {
    ghost use Rattle.std.specs.Prelude.{◌≡◌, map, IfOk};
    ghost use Rattle.dcsctp_api.specs.types.SnapshotItems.{queued_part};
    ghost use Rattle.dcsctp_api.specs.spec.queues.QueuedParts.{whole_message, stream_given, stream_restored};

    /// What a snapshot has of its numbers and its priority.
    pub fn handover_stream(&self) -> HandoverOutgoingStream
        ensures { result ≡ stream_given self.now }
    {
        HandoverOutgoingStream {
            id: self.id.0,
            next_ssn: self.next_ssn,
            next_unordered_mid: self.next_unordered_mid,
            next_ordered_mid: self.next_mid,
            priority: self.priority,
        }
    }

    /// What a snapshot that is made at the moment `now` has of its messages if all wait whole. `Err`: an
    /// allocation failed.
    pub fn handover_messages(
        &self,
        alloc: Global,
        now: SocketTime,
    ) -> Result<Vec<HandoverStreamMessage>, AllocError>
        ensures { IfOk result
            (λ parts. map queued_part parts.items
            ≡ map (whole_message now self.now.id) self.now.messages) }
    {
        let mut parts = Vec::with_capacity(alloc, self.messages.len())?;
        for place in 0..self.messages.len() {
            let message = &self.messages[place];
            parts.push(message.handover_message(alloc, now, self.id)?)?;
        }
        Ok(parts)
    }

    /// Gives it the numbers and the priority that a snapshot has.
    pub fn restore(&mut self, named: &HandoverOutgoingStream)
        ensures { self.new ≡ stream_restored named.now self.old }
    {
        self.next_ssn = named.next_ssn;
        self.next_mid = named.next_ordered_mid;
        self.next_unordered_mid = named.next_unordered_mid;
        self.priority = named.priority;
    }
}
