//! What a send queue holds, and the steps of its calls.

ghost use Rattle.std.specs.Prelude.{◌≡◌, ◌&&◌};
ghost use Rattle.dcsctp_api.specs.spec.queues.SendEvents.{falls_low};

mod handover;
mod numbering;
mod producing;
mod reserving;
mod resetting;
mod restoring;

use crate::{OutgoingStream, QueuedMessage, Streams};
use dcsctp_api::{Events, SocketEvent, SocketTime, StreamId};
use std::alloc::{AllocError, Global};

// Does an amount that falls by that much fall from above its threshold to it or below?
fn falls_low(threshold: usize, amount: usize, by: usize) -> bool
    ensures { result ≡ falls_low threshold amount by }
{
    threshold < amount && amount.saturating_sub(by) <= threshold
}

/// The streams with their messages.
#[derive(Drop)]
pub struct Backlog {
    pub alloc: Global,
    pub streams: Streams,

    /// The stream whose message under way goes on before any other is asked; none if no message is under way,
    /// or if all that are can be interleaved.
    pub held: Option<StreamId>,

    pub total_amount: usize,
    pub total_threshold: usize,
    pub default_priority: u16,
    pub default_threshold: usize,

    /// Are messages numbered as for interleaving?
    pub is_interleaved: bool,

    pub next_message_id: u64,

    /// Do streams of equal priority take turns?
    pub takes_turns: bool,

    /// How many turns were taken; 0 if streams don't take turns.
    pub turns_taken: u64,

    /// How many payload bytes a turn has where messages are interleaved.
    pub turn_size: usize,

    /// The peer's receive window as the association began, in bytes.
    pub window: u32,

    /// What messages under way take of it until they end.
    pub reserved: u128,
}

impl Backlog {
    ghost use Rattle.dcsctp_send_queue.specs.Backlog.{queue_of, HasHeldStream};
    ghost use Rattle.dcsctp_api.specs.spec.queues.SendQueue.{IsHeld, queue_interleaves, has_queued_data, has_waiting_message, stream_changed, used_streams, put_back, with_threshold, with_priority};
    ghost use Rattle.dcsctp_api.specs.spec.queues.OwnResets.{with_used, waits_for_reset};
    ghost use Rattle.dcsctp_api.specs.types.Setting.{stream_priority, stream_low_threshold};
    ghost use Rattle.dcsctp_api.specs.spec.endpoint.SettingOutcomes.{set_in_queue};
    ghost use Rattle.std.specs.Prelude.{◌≡◌, ◌==◌, ◌+◌, ◌-◌, ◌<◌, ◌++◌, length, Some, None, Ok, Err, OnOk, OnErr, IfOk};
    ghost use Rattle.dcsctp_api.specs.types.queues.SendStreams.{Waiting, unused_stream, front_of, with_message, stream_at, IsAscending};
    ghost use Rattle.dcsctp_send_queue.specs.Telling.{contents, AddsFront};
    ghost use Rattle.dcsctp_send_queue.specs.Ranking.{IsFound};
    ghost use Rattle.dcsctp_api.specs.spec.queues.Sending.{reduced_queue, without_rest, drop_events, part_events, may_be_abandoned, stream_held_after, released_queue};
    ghost use Rattle.dcsctp_api.specs.spec.queues.SendQueue.{IsGoingOn};

    /// A stream that was never used.
    pub fn new_stream(&self, stream_id: StreamId) -> OutgoingStream
        ensures { result ≡ unused_stream stream_id.0 self.now.default_priority
            self.now.default_threshold }
    {
        OutgoingStream::new(
            self.alloc,
            stream_id,
            self.default_priority,
            self.default_threshold,
        )
    }

    /// Adds a message after the others of its stream. `Err`: an allocation failed, and nothing has changed.
    pub fn put(&mut self, stream_id: StreamId, message: QueuedMessage) -> Result<(), AllocError>
        ensures ok { OnOk result
            (queue_of self.new
            ≡ record (queue_of self.old) {
              streams = stream_changed stream_id.0
                  (with_message message) (used_streams (queue_of self.old) stream_id.0);
            }) }
        ensures was_ascending { IsAscending self.old.streams }
        ensures held { HasHeldStream self.old → HasHeldStream self.new }
        ensures err { OnErr result (self.new ≡ self.old) }
    {
        match self.streams.find(stream_id) {
            Ok(place) => {
                self.streams.push(place, message)?;
                Ok(())
            }
            Err(place) => {
                let mut stream = self.new_stream(stream_id);
                stream.push(message)?;
                self.streams.insert(place, stream)?;
                Ok(())
            }
        }
    }

    /// The place of the stream, which counts as used from now on. `Err`: an allocation failed, and nothing
    /// has changed.
    pub fn use_stream(&mut self, stream_id: StreamId) -> Result<usize, AllocError>
        ensures ok { OnOk result (queue_of self.new ≡ with_used stream_id.0 (queue_of self.old)) }
        ensures place { IfOk result (λ place. IsFound self.new.streams stream_id.0 (Ok place)) }
        ensures ascending { IsAscending self.new.streams }
        ensures was_ascending { IsAscending self.old.streams }
        ensures held { HasHeldStream self.old → HasHeldStream self.new }
        ensures err { OnErr result (self.new ≡ self.old) }
    {
        match self.streams.find(stream_id) {
            Ok(place) => Ok(place),
            Err(place) => {
                let stream = self.new_stream(stream_id);
                self.streams.insert(place, stream)?;
                Ok(place)
            }
        }
    }

    /// Sets the stream's threshold, in bytes. `Err`: an allocation failed, and nothing has changed.
    pub fn set_threshold(&mut self, stream_id: StreamId, bytes: usize) -> Result<(), AllocError>
        ensures ok { OnOk result
            (queue_of self.new
            ≡ set_in_queue (stream_low_threshold stream_id.0 bytes) (queue_of self.old)) }
        ensures was_ascending { IsAscending self.old.streams }
        ensures held { HasHeldStream self.old → HasHeldStream self.new }
        ensures err { OnErr result (self.new ≡ self.old) }
    {
        let place = self.use_stream(stream_id)?;
        self.streams.set_threshold(place, bytes);
        Ok(())
    }

    /// Sets the stream's priority. `Err`: an allocation failed, and nothing has changed.
    pub fn set_priority(&mut self, stream_id: StreamId, priority: u16) -> Result<(), AllocError>
        ensures ok { OnOk result
            (queue_of self.new
            ≡ set_in_queue (stream_priority stream_id.0 priority) (queue_of self.old)) }
        ensures was_ascending { IsAscending self.old.streams }
        ensures held { HasHeldStream self.old → HasHeldStream self.new }
        ensures err { OnErr result (self.new ≡ self.old) }
    {
        let place = self.use_stream(stream_id)?;
        self.streams.set_priority(place, priority);
        Ok(())
    }

    /// Is a message under way, or does one wait on a stream that isn't paused?
    pub fn may_send(&self) -> bool
        ensures { result ≡ has_queued_data (queue_of self.now) }
    {
        self.streams.has_turn()
    }

    /// Does a message wait at the moment `now` that can be sent?
    pub fn waits_at(&self, now: SocketTime) -> bool
        ensures { result ≡ has_waiting_message now (queue_of self.now) }
    {
        self.streams.waits_at(now)
    }

    /// Does a message without a lifetime wait for the reset of its stream?
    pub fn waits_for_reset(&self) -> bool
        ensures { result ≡ waits_for_reset (queue_of self.now) }
    {
        self.streams.waits_for_reset()
    }

    /// The place of the stream that is held.
    pub fn place_of(&self, held: StreamId) -> usize
        requires { IsHeld (Some held) self.now.streams }
        ensures place { IsGoingOn self.now.streams held result }
        ensures ascending { IsAscending self.now.streams }
    {
        match self.streams.find(held) {
            Ok(place) => place,
            Err(place) => place,
        }
    }

    /// Reports which amounts fall to their thresholds if that much leaves the stream.
    #[inline(always)]
    pub fn tell_low(&self, events: &mut Events, place: usize, size: usize) -> Result<(), AllocError>
        requires { place < length self.now.streams }
        ensures ok { OnOk result
            (contents events.new
            ≡ contents events.old ++ part_events place size (queue_of self.now)) }
        ensures err { OnErr result
            (AddsFront (contents events.old) (part_events place size (queue_of self.now))
            (contents events.new)) }
    {
        let stream = self.streams.at(place);
        if falls_low(stream.threshold(), stream.amount(), size) {
            events.add(SocketEvent::OnBufferedAmountLow(stream.id()))?;
        }
        if falls_low(self.total_threshold, self.total_amount, size) {
            events.add(SocketEvent::OnTotalBufferedAmountLow())?;
        }
        Ok(())
    }

    /// Takes that much away from the amounts.
    pub fn reduce(&mut self, place: usize, size: usize)
        requires { place < length self.old.streams }
        ensures { queue_of self.new ≡ reduced_queue place size (queue_of self.old) }
    {
        self.streams.reduce(place, size);
        self.total_amount = self.total_amount.saturating_sub(size);
    }

    /// Drops the oldest message of the stream, of which that much was sent.
    pub fn drop_front(
        &mut self,
        events: &mut Events,
        place: usize,
        sent: usize,
    ) -> Result<(), AllocError>
        requires { place < length self.old.streams }
        ensures ok { (message : Waiting)
            → front_of (stream_at self.old.streams place).messages ≡ Some message
            → OnOk result
            (queue_of self.new ≡ without_rest place sent message (queue_of self.old)) }
        ensures told { (message : Waiting)
            → front_of (stream_at self.old.streams place).messages ≡ Some message
            → OnOk result
            (contents events.new
            ≡ contents events.old ++ drop_events place sent message (queue_of self.old)) }
        ensures err { OnErr result (self.new ≡ self.old) }
        ensures front { (message : Waiting)
            → front_of (stream_at self.old.streams place).messages ≡ Some message
            → OnErr result
            (AddsFront (contents events.old) (drop_events place sent message (queue_of self.old))
            (contents events.new)) }
    {
        let Some(message) = self.streams.at(place).front() else {
            return Ok(());
        };
        let left = message.size().saturating_sub(sent);
        self.tell_low(events, place, left)?;
        message.tell_expired(events)?;
        self.reduce(place, left);
        let _message = self.streams.pop(place);
        Ok(())
    }

    /// Puts each message under way back whole, to begin again.
    pub fn put_back(&mut self)
        ensures back { queue_of self.new ≡ put_back (queue_of self.old) }
        ensures held { HasHeldStream self.new }
    {
        let mut sent = 0usize;
        for place in 0..self.streams.len() {
            let more = self.streams.put_back(place);
            sent = sent.saturating_add(more);
        }
        self.total_amount = self.total_amount.saturating_add(sent);
        self.held = None;
        self.reserved = 0;
    }

    /// May a message begin while others are under way?
    #[inline(always)]
    pub fn interleaves(&self) -> bool
        ensures { result ≡ queue_interleaves (queue_of self.now) }
    {
        self.is_interleaved && self.takes_turns
    }

    /// What is held after a fragment of the stream that isn't the last of its message, which may be abandoned or not.
    #[inline(always)]
    pub fn held_by(&self, stream_id: StreamId, is_abandonable: bool) -> Option<StreamId>
        ensures { (message : Waiting) → is_abandonable ≡ may_be_abandoned message
            → result ≡ stream_held_after stream_id message (queue_of self.now) }
    {
        if is_abandonable || !self.interleaves() || self.is_crowded() {
            Some(stream_id)
        } else {
            None
        }
    }

    /// The stream is held no longer, if it was, and its message takes nothing of the peer's window any more.
    #[inline(always)]
    pub fn release(&mut self, stream_id: StreamId, reserve: u128)
        ensures { queue_of self.new ≡ released_queue stream_id.0 reserve (queue_of self.old) }
    {
        self.reserved = self.reserved.saturating_sub(reserve);
        match self.held {
            Some(held) if held.0 == stream_id.0 => self.held = None,
            Some(_) | None => {}
        }
    }
}
