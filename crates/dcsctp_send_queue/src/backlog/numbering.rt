//! The numbers of messages and of turns (RFC 8260, sections 2.1, 3.2 and 3.5).

use super::Backlog;
use crate::UnderWay;

impl Backlog {
    ghost use Rattle.std.specs.Prelude.{◌≡◌, ◌<◌, length, map, slice_set};
    ghost use Rattle.dcsctp_send_queue.specs.Backlog.{queue_of, HasHeldStream};
    ghost use Rattle.dcsctp_api.specs.types.queues.SendStreams.{stream_at};
    ghost use Rattle.dcsctp_api.specs.spec.queues.SendQueue.{renumbered_under_way, numbered_for};
    ghost use Rattle.dcsctp_api.specs.spec.queues.Sending.{next_turn, queue_numbered, queue_served, turn_counted};

    /// Sets whether messages are interleaved from now on, and the receive window of the peer to which they go. If
    /// the one is new, other numbers count than before. Each message under way then takes the next one of its
    /// stream, so that no other message has the same.
    pub fn interleave(&mut self, enabled: bool, window: u32)
        requires { HasHeldStream self.old }
        ensures whole { queue_of self.new ≡ numbered_for enabled window (queue_of self.old) }
        ensures held { HasHeldStream self.new }
    {
        self.window = window;
        match (self.is_interleaved, enabled) {
            (false, false) | (true, true) => {}
            (false, true) | (true, false) => self.number_all_anew(enabled),
        }
    }

    // Has other numbers count from now on. Each message under way takes the next one of its stream.
    fn number_all_anew(&mut self, is_interleaved: bool)
        requires { HasHeldStream self.old }
        ensures whole { queue_of self.new
            ≡ record (queue_of self.old) {
              is_interleaved = is_interleaved;
              streams = map (renumbered_under_way is_interleaved) self.old.streams;
            } }
        ensures held { HasHeldStream self.new }
    {
        self.is_interleaved = is_interleaved;
        for place in 0..self.streams.len() {
            self.number_anew(place);
        }
    }

    // The message under way of the stream, if there is one, takes the next number.
    fn number_anew(&mut self, place: usize)
        requires { place < length self.old.streams }
        ensures { queue_of self.new
            ≡ record (queue_of self.old) {
              streams = slice_set self.old.streams place
                  (renumbered_under_way self.old.is_interleaved (stream_at self.old.streams place));
            } }
    {
        let Some(under_way) = self.streams.at(place).under_way() else {
            return;
        };
        let is_unordered = self.is_front_unordered(place);
        let (ssn, mid) = self.streams.at(place).next_numbers(is_unordered);
        self.streams
            .count_begun(place, self.is_interleaved, is_unordered);
        let renumbered = UnderWay {
            stream_id: under_way.stream_id,
            ssn,
            mid,
            next_fsn: under_way.next_fsn,
            sent: under_way.sent,
        };
        self.streams.go_on(place, renumbered);
    }

    // The number of the turn that is taken now.
    #[inline(always)]
    fn next_turn(&self) -> u64
        ensures { result ≡ next_turn (queue_of self.now) }
    {
        if self.takes_turns {
            self.turns_taken.wrapping_add(1)
        } else {
            self.turns_taken
        }
    }

    // Counts the numbers of a message of the stream, if it is begun.
    #[inline(always)]
    pub(super) fn number(&mut self, place: usize, begins: bool, is_unordered: bool)
        requires { place < length self.old.streams }
        ensures { queue_of self.new
            ≡ queue_numbered place begins is_unordered (queue_of self.old) }
    {
        if begins {
            self.streams
                .count_begun(place, self.is_interleaved, is_unordered);
        }
    }

    // Counts a turn of the stream, if it is over.
    #[inline(always)]
    fn serve(&mut self, place: usize, is_over: bool)
        requires { place < length self.old.streams }
        ensures { queue_of self.new ≡ queue_served place is_over (queue_of self.old) }
    {
        if is_over {
            let turn = self.next_turn();
            self.streams.serve(place, turn);
            self.turns_taken = turn;
        }
    }

    // Counts a fragment of that many bytes in the stream's turn. Where messages are interleaved a turn has a number
    // of bytes, else it is a message.
    #[inline(always)]
    pub(super) fn count_turn(&mut self, place: usize, begins: bool, size: usize)
        requires { place < length self.old.streams }
        ensures { queue_of self.new ≡ turn_counted place begins size (queue_of self.old) }
    {
        if self.interleaves() {
            let is_over = self.streams.use_turn(place, self.turn_size, size);
            self.serve(place, is_over);
        } else {
            self.serve(place, begins);
        }
    }
}
