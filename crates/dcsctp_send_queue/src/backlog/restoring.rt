//! What waits again once a snapshot is restored.

ghost use Rattle.std.specs.Prelude.{◌≡◌};
ghost use Rattle.dcsctp_api.specs.types.SnapshotItems.{queued_part};
ghost use Rattle.dcsctp_api.specs.spec.queues.QueuedParts.{progress_again};

use super::Backlog;
use super::reserving::reserve_begun;
use crate::{QueuedMessage, UnderWay};
use dcsctp_api::types::{HandoverOutgoingStream, HandoverStreamMessage};
use dcsctp_api::{SocketTime, StreamId};
use std::alloc::AllocError;

// How far a message has come of which a part was sent.
fn progress_again(part: &HandoverStreamMessage) -> UnderWay
    ensures { result ≡ progress_again (queued_part part.now) }
{
    UnderWay {
        stream_id: StreamId(part.stream_id),
        ssn: part.ssn.unwrap_or(0),
        mid: part.mid.unwrap_or(0),
        next_fsn: part.fsn,
        sent: part.remaining_offset,
    }
}

impl Backlog {
    ghost use Rattle.std.specs.Prelude.{◌≡◌, ◌+◌, ◌-◌, ◌^◌, ◌<◌, true, is_some, [], ◌∷◌, min, map, length, OnOk, OnErr};
    ghost use Rattle.std.specs.List.{list_all};
    ghost use Rattle.dcsctp_send_queue.specs.Backlog.{queue_of, HasHeldStream};
    ghost use Rattle.dcsctp_api.specs.types.SnapshotItems.{queued_part};
    ghost use Rattle.dcsctp_api.specs.types.Snapshot.{is_valid_queued};
    ghost use Rattle.dcsctp_api.specs.spec.queues.OwnResets.{with_used};
    ghost use Rattle.dcsctp_api.specs.spec.queues.SendQueue.{stream_changed, queue_stream, IsUnderWay};
    ghost use Rattle.dcsctp_api.specs.types.queues.SendStreams.{Waiting, front_of};
    ghost use Rattle.dcsctp_api.specs.spec.queues.Sending.{may_be_abandoned};
    ghost use Rattle.dcsctp_api.specs.spec.queues.QueuedParts.{queue_emptied, streams_restored, is_part_continued, with_rest, held_again, queue_continued, message_restored, messages_restored};

    /// Drops all messages. The streams keep their priorities and their thresholds.
    pub fn empty(&mut self)
        ensures value { queue_of self.new ≡ queue_emptied (queue_of self.old) }
        ensures held { HasHeldStream self.new }
    {
        self.streams.empty_all();
        self.held = None;
        self.total_amount = 0;
        self.reserved = 0;
    }

    // Gives a stream the numbers and the priority that the snapshot has. `Err`: an allocation failed.
    fn restore_stream(&mut self, named: &HandoverOutgoingStream) -> Result<(), AllocError>
        ensures ok { OnOk result
            (queue_of self.new ≡ streams_restored (named.now ∷ []) (queue_of self.old)) }
        ensures held { HasHeldStream self.old → HasHeldStream self.new }
    {
        let place = self.use_stream(StreamId(named.id))?;
        self.streams.restore(place, named);
        Ok(())
    }

    /// Gives the streams the numbers and the priorities that the snapshot has. `Err`: an allocation failed.
    pub fn restore_streams(&mut self, list: &[HandoverOutgoingStream]) -> Result<(), AllocError>
        ensures ok { OnOk result
            (queue_of self.new ≡ streams_restored list.now (queue_of self.old)) }
        ensures held { HasHeldStream self.old → HasHeldStream self.new }
    {
        for named in list {
            self.restore_stream(named)?;
        }
        Ok(())
    }

    // Does a message wait on the stream?
    fn has_message(&self, stream_id: StreamId) -> bool
        ensures { result
            ≡ is_some (front_of (queue_stream (queue_of self.now) stream_id.0).messages) }
    {
        match self.streams.find(stream_id) {
            Ok(place) => self.streams.at(place).front().is_some(),
            Err(_) => false,
        }
    }

    // Does sending the message continue where it was?
    fn goes_on(&self, part: &HandoverStreamMessage) -> bool
        ensures { result ≡ is_part_continued (queued_part part.now) (queue_of self.now) }
    {
        part.remaining_offset > 0
            && (self.is_interleaved || self.held.is_none())
            && !self.has_message(StreamId(part.stream_id))
    }

    // Adds a message after the others of its stream. So many of its bytes are still to be sent. `Err`: an
    // allocation failed.
    fn put_rest(
        &mut self,
        stream_id: StreamId,
        message: QueuedMessage,
        rest: usize,
    ) -> Result<(), AllocError>
        ensures ok { OnOk result
            (queue_of self.new ≡ record (with_used stream_id.0 (queue_of self.old)) {
              streams = stream_changed stream_id.0 (with_rest message rest)
                  (with_used stream_id.0 (queue_of self.old)).streams;
              total_amount = min (self.old.total_amount + rest) (2 ^ 64 - 1);
            }) }
        ensures held { HasHeldStream self.old → HasHeldStream self.new }
    {
        let place = self.use_stream(stream_id)?;
        self.streams.push_rest(place, message, rest)?;
        self.total_amount = self.total_amount.saturating_add(rest);
        Ok(())
    }

    // Adds a message of the snapshot after the others of its stream. `Err`: an allocation failed.
    fn restore_message(
        &mut self,
        now: SocketTime,
        part: &HandoverStreamMessage,
    ) -> Result<(), AllocError>
        requires { part.now.remaining_offset < length part.now.payload.items }
        ensures ok { OnOk result
            (queue_of self.new ≡ message_restored now (queued_part part.now) (queue_of self.old)) }
        ensures held { HasHeldStream self.old → HasHeldStream self.new }
    {
        let stream_id = StreamId(part.stream_id);
        let goes_on = self.goes_on(part);
        let message = QueuedMessage::from_handover(self.alloc, now, part)?;
        let is_abandonable = message.may_be_abandoned();
        if goes_on {
            let rest = part.payload.len() - part.remaining_offset;
            self.put_rest(stream_id, message, rest)?;
            let size = part.payload.len();
            self.go_on_again(stream_id, is_abandonable, size, progress_again(part));
        } else {
            self.put_rest(stream_id, message, part.payload.len())?;
        }
        Ok(())
    }

    // The oldest message of the stream, which is the only one and has that many bytes, continues where it was.
    fn go_on_again(
        &mut self,
        stream_id: StreamId,
        is_abandonable: bool,
        size: usize,
        under_way: UnderWay,
    )
        requires { IsUnderWay stream_id.0 (queue_stream (queue_of self.old) stream_id.0).messages
            under_way }
        ensures whole { (message : Waiting) → is_abandonable ≡ may_be_abandoned message
            → size ≡ length message.payload → queue_of
            self.new ≡ queue_continued stream_id.0 message under_way (queue_of self.old) }
        ensures held { (message : Waiting) → is_abandonable ≡ may_be_abandoned message
            → HasHeldStream self.old → HasHeldStream self.new }
    {
        match self.streams.find(stream_id) {
            Ok(place) => {
                self.streams.go_on(place, under_way);
                self.hold_again(stream_id, is_abandonable);
                self.reserve(0, reserve_begun(size, under_way));
            }
            Err(_) => {}
        }
    }

    // The stream is held, if its message is kept whole and no other stream is held.
    fn hold_again(&mut self, stream_id: StreamId, is_abandonable: bool)
        ensures { (message : Waiting) → is_abandonable ≡ may_be_abandoned message → queue_of
            self.new ≡ record (queue_of self.old) {
              held = held_again stream_id message (queue_of self.old) self.old.held;
            } }
    {
        if self.held.is_none() {
            self.held = self.held_by(stream_id, is_abandonable);
        }
    }

    /// Adds the messages of the snapshot after the others of their streams. `Err`: an allocation failed.
    pub fn restore_messages(
        &mut self,
        now: SocketTime,
        parts: &[HandoverStreamMessage],
    ) -> Result<(), AllocError>
        requires { list_all is_valid_queued (map queued_part parts.now) ≡ true }
        ensures ok { OnOk result
            (queue_of self.new
            ≡ messages_restored now (map queued_part parts.now) (queue_of self.old)) }
        ensures held { HasHeldStream self.old → HasHeldStream self.new }
    {
        for part in parts {
            self.restore_message(now, part)?;
        }
        Ok(())
    }
}
