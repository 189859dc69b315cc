//! Pausing streams, and handing them out to be reset (RFC 6525, section 5.1.2).

ghost use Rattle.std.specs.Prelude.{◌≡◌, ◌&&◌};

use super::Backlog;
use crate::Pause;
use dcsctp_api::{Events, StreamId};
use std::alloc::AllocError;

impl Backlog {
    ghost use Rattle.dcsctp_send_queue.specs.Backlog.{queue_of, HasHeldStream};
    ghost use Rattle.dcsctp_api.specs.spec.queues.SendQueue.{stream_changed};
    ghost use Rattle.std.specs.Prelude.{◌≡◌, ◌==◌, ◌+◌, ◌-◌, ◌<◌, ◌++◌, length, take, Ok, Err, OnOk, OnErr, IfOk, not};
    ghost use Rattle.dcsctp_api.specs.types.queues.SendStreams.{handed_out, stream_at, IsAscending};
    ghost use Rattle.dcsctp_api.specs.types.Ids.{stream_numbers};
    ghost use Rattle.dcsctp_api.specs.spec.queues.Transfer.{is_none_ready};
    ghost use Rattle.dcsctp_send_queue.specs.Telling.{contents, AddsFront};
    ghost use Rattle.dcsctp_api.specs.spec.queues.OwnResets.{ready_streams, queue_with_prepared, prepare_events, handing_out};
    ghost use Rattle.dcsctp_send_queue.specs.Leaving.{after_pause, pause_events};
    ghost use Rattle.dcsctp_api.specs.spec.queues.Sending.{begun_under_way};
    ghost use Rattle.dcsctp_send_queue.specs.Resets.{IsUsedAtMost};

    /// Drops the messages of the stream that haven't been started, and pauses it.
    pub fn pause(&mut self, events: &mut Events, place: usize) -> Result<(), AllocError>
        requires { place < length self.old.streams }
        ensures ok { OnOk result (queue_of self.new ≡ after_pause place (queue_of self.old)) }
        ensures told { OnOk result
            (contents events.new ≡ contents events.old ++ pause_events place (queue_of self.old)) }
        ensures err { OnErr result (self.new ≡ self.old) }
        ensures front { OnErr result
            (AddsFront (contents events.old) (pause_events place (queue_of self.old))
            (contents events.new)) }
    {
        let kept = self.streams.at(place).count_under_way();
        let size = self.streams.at(place).size_from(kept);
        self.tell_low(events, place, size)?;
        self.streams.at(place).tell_dropped(events, kept)?;
        self.reduce(place, size);
        self.streams.pause(place, kept);
        Ok(())
    }

    /// Drops the messages of the stream that haven't been started, and pauses it, if it isn't paused yet.
    pub fn prepare(&mut self, events: &mut Events, stream_id: StreamId) -> Result<(), AllocError>
        ensures ok { OnOk result (queue_of self.new ≡ queue_with_prepared stream_id.0
            (queue_of self.old)) }
        ensures told { OnOk result
            (contents events.new
            ≡ contents events.old ++ prepare_events stream_id.0 (queue_of self.old)) }
        ensures held { HasHeldStream self.old → HasHeldStream self.new }
        ensures was_ascending { IsAscending self.old.streams }
        ensures err { OnErr result
            (IsUsedAtMost stream_id.0 (queue_of self.old) (queue_of self.new)) }
        ensures front { OnErr result
            (AddsFront (contents events.old) (prepare_events stream_id.0 (queue_of self.old))
            (contents events.new)) }
    {
        let place = self.use_stream(stream_id)?;
        match self.streams.at(place).pause_state() {
            Pause::Open => self.pause(events, place),
            Pause::Pausing => Ok(()),
            Pause::HandedOut => Ok(()),
        }
    }

    /// The numbers of at most `max` of the streams that can be handed out, the least first.
    pub fn ready_ids(&self, max: usize) -> Result<Vec<StreamId>, AllocError>
        ensures ids { IfOk result
            (λ ids. stream_numbers ids.items ≡ take max (ready_streams (queue_of self.now))) }
        ensures ascending { IsAscending self.now.streams }
    {
        let mut ids = Vec::new(self.alloc);
        for place in 0..self.streams.count_ready().min(max) {
            ids.push(self.streams.ready_at(place))?;
        }
        Ok(ids)
    }

    /// Hands these streams out to be reset.
    pub fn hand_out(&mut self, ids: &[StreamId])
        ensures left { queue_of self.new
            ≡ record (queue_of self.old) {
              streams = handing_out (stream_numbers ids.now)
                  self.old.streams;
            } }
        ensures held { HasHeldStream self.old → HasHeldStream self.new }
    {
        for id in ids {
            self.hand_out_one(*id);
        }
    }

    // Hands this stream out to be reset.
    fn hand_out_one(&mut self, id: StreamId)
        ensures { queue_of self.new
            ≡ record (queue_of self.old) {
              streams = stream_changed id.0 handed_out
                  self.old.streams;
            } }
    {
        match self.streams.find(id) {
            Ok(place) => self.streams.hand_out(place),
            Err(_) => {}
        }
    }

    /// Can a stream be handed out to be reset?
    pub fn has_ready(&self) -> bool
        ensures { result ≡ not (is_none_ready (ready_streams (queue_of self.now))) }
    {
        0 < self.streams.count_ready()
    }
}
