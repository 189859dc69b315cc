//! Streams that are paused for their reset (RFC 6525, section 5.1.2), and the end of their pause.

use super::Streams;
use crate::turns::move_turn;
use dcsctp_api::StreamId;

impl Streams {
    ghost use Rattle.std.specs.Prelude.{◌≡◌, ◌<◌, ◌≤◌, [], length, map, slice_index_or, slice_set, IfSome, IfNone};
    ghost use Rattle.dcsctp_api.specs.types.queues.SendStreams.{paused_stream, handed_out, renumbered_stream, committed_stream, rolled_back, stream_at, IsAscending};
    ghost use Rattle.dcsctp_api.specs.spec.queues.QueuedParts.{emptied_stream};
    ghost use Rattle.dcsctp_api.specs.spec.queues.OwnResets.{count_under_way};
    ghost use Rattle.dcsctp_send_queue.specs.Pausing.{ready_ids, handed_out_ids, IsHandedOutStream};

    /// How many streams can be handed out to be reset.
    pub fn count_ready(&self) -> usize
        ensures count { result ≡ length (ready_ids self.now) }
        ensures ascending { IsAscending self.now }
    {
        self.paused.ready.len()
    }

    /// The number of such a stream, by its place among them. They ascend.
    pub fn ready_at(&self, place: usize) -> StreamId
        requires { place < length (ready_ids self.now) }
        ensures { result ≡ slice_index_or (ready_ids self.now) place result }
    {
        self.paused.ready[place]
    }

    // The place of a stream that is handed out; none if none is.
    fn first_handed_out(&self) -> Option<usize>
        ensures some { IfSome result (IsHandedOutStream self.now) }
        ensures none { IfNone result (handed_out_ids self.now ≡ []) }
    {
        let id = *self.paused.handed_out.front()?;
        match self.find(id) {
            Ok(place) => Some(place),
            Err(_) => None,
        }
    }

    /// Keeps only that many of the stream's messages, the oldest, and pauses the stream.
    pub fn pause(&mut self, place: usize, kept: usize)
        requires place { place < length self.old }
        requires kept { count_under_way (stream_at self.old place) ≤ kept }
        ensures { self.new ≡ slice_set self.old place (paused_stream kept
            (stream_at self.old place)) }
    {
        let stream = self.items.at_mut(place);
        let id = stream.id();
        let before = stream.turn();
        let stood = stream.standing();
        stream.pause(kept);
        let after = stream.turn();
        let stands = stream.standing();
        move_turn(&mut self.turns, before, after);
        self.paused.move_stream(id, stood, stands);
    }

    /// Hands the stream out to be reset.
    pub fn hand_out(&mut self, place: usize)
        requires { place < length self.old }
        ensures { self.new ≡ slice_set self.old place (handed_out (stream_at self.old place)) }
    {
        let stream = self.items.at_mut(place);
        let id = stream.id();
        let before = stream.turn();
        let stood = stream.standing();
        stream.hand_out();
        let after = stream.turn();
        let stands = stream.standing();
        move_turn(&mut self.turns, before, after);
        self.paused.move_stream(id, stood, stands);
    }

    /// Ends the stream's pause, and counts its messages from 0 again.
    pub fn begin_anew(&mut self, place: usize)
        requires { place < length self.old }
        ensures { self.new ≡ slice_set self.old place (renumbered_stream
            (stream_at self.old place)) }
    {
        let stream = self.items.at_mut(place);
        let id = stream.id();
        let before = stream.turn();
        let stood = stream.standing();
        stream.begin_anew();
        let after = stream.turn();
        let stands = stream.standing();
        move_turn(&mut self.turns, before, after);
        self.paused.move_stream(id, stood, stands);
    }

    /// It was reset, if it was handed out: its pause ends, and its messages are counted from 0 again.
    pub fn commit(&mut self, place: usize)
        requires { place < length self.old }
        ensures { self.new ≡ slice_set self.old place (committed_stream
            (stream_at self.old place)) }
    {
        let stream = self.items.at_mut(place);
        let id = stream.id();
        let before = stream.turn();
        let stood = stream.standing();
        stream.commit();
        let after = stream.turn();
        let stands = stream.standing();
        move_turn(&mut self.turns, before, after);
        self.paused.move_stream(id, stood, stands);
    }

    /// It was not reset, if it was handed out: its pause ends.
    pub fn roll_back(&mut self, place: usize)
        requires { place < length self.old }
        ensures { self.new ≡ slice_set self.old place (rolled_back (stream_at self.old place)) }
    {
        let stream = self.items.at_mut(place);
        let id = stream.id();
        let before = stream.turn();
        let stood = stream.standing();
        stream.roll_back();
        let after = stream.turn();
        let stands = stream.standing();
        move_turn(&mut self.turns, before, after);
        self.paused.move_stream(id, stood, stands);
    }

    /// Drops the messages of the stream, and counts them from 0 again.
    pub fn empty(&mut self, place: usize)
        requires { place < length self.old }
        ensures { self.new ≡ slice_set self.old place (emptied_stream (stream_at self.old place)) }
    {
        let stream = self.items.at_mut(place);
        let id = stream.id();
        let before = stream.turn();
        let stood = stream.standing();
        stream.empty();
        let after = stream.turn();
        let stands = stream.standing();
        move_turn(&mut self.turns, before, after);
        self.paused.move_stream(id, stood, stands);
    }

    /// Ends every pause, and counts all messages from 0 again.
    pub fn begin_all_anew(&mut self)
        ensures { self.new ≡ map renumbered_stream self.old }
    {
        for place in 0..self.len() {
            self.begin_anew(place);
        }
    }

    /// Drops all messages, and counts those of each stream from 0 again.
    pub fn empty_all(&mut self)
        ensures { self.new ≡ map emptied_stream self.old }
    {
        for place in 0..self.len() {
            self.empty(place);
        }
    }

    /// The streams that are handed out were reset.
    pub fn commit_all(&mut self)
        ensures { self.new ≡ map committed_stream self.old }
    {
        while let Some(place) = self.first_handed_out() {
            self.commit(place);
        }
    }

    /// The streams that are handed out were not reset.
    pub fn roll_back_all(&mut self)
        ensures { self.new ≡ map rolled_back self.old }
    {
        while let Some(place) = self.first_handed_out() {
            self.roll_back(place);
        }
    }
}
