//! The streams of a queue, and whose turn it is.

mod resetting;

use crate::message::QueuedMessage;
use crate::paused::{PausedIds, Standing};
use crate::stream::OutgoingStream;
use crate::stream_list::StreamList;
use crate::turns::move_turn;
use dcsctp_api::types::{HandoverOutgoingStream, Pause, Turn, UnderWay};
use dcsctp_api::{SocketTime, StreamId};
use std::alloc::{AllocError, Global};
use std::collections::VecDeque;
use std::marker::Model;

/// All streams that were used, in ascending order, with the turns of those that may send.
#[derive(Drop)]
pub struct Streams {
    items: StreamList,

    // In order, the last turn first. There is room for one of each stream.
    turns: VecDeque<Turn>,

    // Those that can be handed out to be reset, those that were, and those with a message under way. There is room
    // for all streams.
    paused: PausedIds,
}

// That of a stream which is in none of the lists.
const NOT_KEPT: Standing = Standing {
    pause: Pause::Open,
    is_under_way: false,
};

impl Model for Streams {
    ghost use Rattle.std.specs.Prelude.{List};
    ghost use Rattle.std.specs.VecDeque.{deque_capacity};
    ghost use Rattle.dcsctp_api.specs.types.queues.SendStreams.{Stream};
    ghost use Rattle.dcsctp_send_queue.specs.Ranking.{AreStreamsKept};

    ghost Value = { List Stream };

    ghost view = { λ streams. streams.items };

    ghost invariant = { λ streams. AreStreamsKept streams.items streams.turns.items (deque_capacity streams.turns) streams.paused };
}

impl Streams {
    ghost use Rattle.std.specs.List.{list_any, AllByRecursion};
    ghost use Rattle.std.specs.Prelude.{◌≡◌, ◌-◌, ◌<◌, ◌&&◌, ◌||◌, [], length, is_some, slice_set, insert, OnOk, OnErr, IfSome, IfNone};
    ghost use Rattle.dcsctp_api.specs.types.queues.SendStreams.{front_of, with_message, without_front, stream_counted, stream_with_progress, stream_put_back, progress_size, served_stream, fills_turn, stream_with_turn_bytes, stream_at, turn_of, turns_of, IsNext, IsAscending};
    ghost use Rattle.dcsctp_api.specs.spec.queues.SendQueue.{HaveBytes, CanGoOn, IsUnderWay, has_live};
    ghost use Rattle.dcsctp_api.specs.spec.queues.OwnResets.{is_lasting};
    ghost use Rattle.dcsctp_api.specs.spec.queues.Sending.{IsFirstUnderWay, AreNoneUnderWay};
    ghost use Rattle.dcsctp_api.specs.spec.queues.Readiness.{has_messages, is_paused};
    ghost use Rattle.dcsctp_send_queue.specs.Ranking.{IsFound};
    ghost use Rattle.dcsctp_api.specs.spec.queues.QueuedParts.{stream_restored, with_rest};

    /// No streams. Allocates nothing.
    pub fn new(alloc: Global) -> Streams
        ensures { result ≡ [] }
    {
        Streams {
            items: StreamList::new(alloc),
            turns: VecDeque::new(alloc),
            paused: PausedIds::new(alloc),
        }
    }

    /// How many streams there are.
    pub fn len(&self) -> usize
        ensures count { result ≡ length self.now }
        ensures ascending { IsAscending self.now }
    {
        self.items.len()
    }

    /// The place of the stream, or, if it was never used, the place at which it is to be put.
    pub fn find(&self, id: StreamId) -> Result<usize, usize>
        ensures found { IsFound self.now id.0 result }
        ensures ascending { IsAscending self.now }
        ensures bytes { AllByRecursion HaveBytes self.now }
        ensures can { AllByRecursion CanGoOn self.now }
    {
        let mut low = 0;
        let mut high = self.items.len();
        'halving: while low < high {
            let middle = low + (high - low) / 2;
            if self.items.at(middle).id().0 < id.0 {
                low = middle + 1;
            } else {
                high = middle;
            }
        }
        if low < self.items.len() && self.items.at(low).id().0 == id.0 {
            return Ok(low);
        }
        Err(low)
    }

    /// The stream at the place.
    pub fn at(&self, place: usize) -> &OutgoingStream
        requires { place < length self.now }
        ensures { result.now ≡ stream_at self.now place }
    {
        self.items.at(place)
    }

    /// Adds a stream that was never used, at the place that `find` returned. `Err`: an allocation failed, and
    /// nothing has changed.
    pub fn insert(&mut self, place: usize, stream: OutgoingStream) -> Result<(), AllocError>
        requires { IsFound self.old stream.id (Err place) }
        ensures ok { OnOk result (self.new ≡ insert self.old place stream) }
        ensures err { OnErr result (self.new ≡ self.old) }
    {
        let room = self.items.reserve()?;
        self.turns.reserve(room.saturating_sub(self.turns.len()))?;
        self.paused.reserve(room)?;
        let id = stream.id();
        let stands = stream.standing();
        let turn = stream.turn();
        self.items.insert(place, stream)?;
        move_turn(&mut self.turns, None, turn);
        self.paused.move_stream(id, NOT_KEPT, stands);
        Ok(())
    }

    /// The place of the stream whose turn it is; none if no stream may send.
    pub fn next_place(&self) -> Option<usize>
        ensures some { IfSome result (IsNext self.now) }
        ensures none { IfNone result (turns_of self.now ≡ []) }
    {
        let turn = *self.turns.back()?;
        match self.find(turn.stream_id) {
            Ok(place) => Some(place),
            Err(_) => None,
        }
    }

    /// The place of the first stream that has a message under way; none if none has.
    pub fn first_under_way(&self) -> Option<usize>
        ensures some { IfSome result (IsFirstUnderWay self.now) }
        ensures none { IfNone result (AreNoneUnderWay self.now) }
    {
        let id = *self.paused.under_way.front()?;
        match self.find(id) {
            Ok(place) => Some(place),
            Err(_) => None,
        }
    }

    /// May a stream send?
    pub fn has_turn(&self) -> bool
        ensures { result ≡ list_any (λ stream. is_some (turn_of stream)) self.now }
    {
        !self.turns.is_empty()
    }

    /// Is a message under way, or does one wait at the moment `now` that may be begun?
    pub fn waits_at(&self, now: SocketTime) -> bool
        ensures { result
            ≡ list_any (λ stream. is_some (turn_of stream)
            && (is_some stream.under_way || has_live now stream.messages)) self.now }
    {
        self.items
            .boxes()
            .iter()
            .any(|stream| stream.turn().is_some() && stream.has_live(now))
    }

    /// Does a message without a lifetime wait for the reset of its stream?
    pub fn waits_for_reset(&self) -> bool
        ensures { result
            ≡ list_any (λ stream. is_paused stream && list_any is_lasting stream.messages)
            self.now }
    {
        self.items
            .boxes()
            .iter()
            .any(|stream| stream.is_paused() && stream.has_lasting())
    }

    /// Does a message wait on any stream, or is one under way?
    pub fn has_messages(&self) -> bool
        ensures { result ≡ list_any has_messages self.now }
    {
        self.items
            .boxes()
            .iter()
            .any(|stream| stream.front().is_some())
    }

    /// Is any stream to be reset, or was its reset requested?
    pub fn has_paused(&self) -> bool
        ensures paused { result ≡ list_any is_paused self.now }
        ensures ascending { IsAscending self.now }
        ensures bytes { AllByRecursion HaveBytes self.now }
        ensures can { AllByRecursion CanGoOn self.now }
    {
        self.items.boxes().iter().any(|stream| stream.is_paused())
    }

    /// Adds a message after the others of the stream. `Err`: an allocation failed, and nothing has changed.
    pub fn push(&mut self, place: usize, message: QueuedMessage) -> Result<(), AllocError>
        requires { place < length self.old }
        ensures ok { OnOk result
            (self.new ≡ slice_set self.old place
            (with_message message (stream_at self.old place))) }
        ensures err { OnErr result (self.new ≡ self.old) }
    {
        let stream = self.items.at_mut(place);
        let before = stream.turn();
        stream.push(message)?;
        let after = stream.turn();
        move_turn(&mut self.turns, before, after);
        Ok(())
    }

    /// Adds a message after the others of the stream, of which so many bytes are to be sent. `Err`: an
    /// allocation failed, and nothing has changed.
    pub fn push_rest(
        &mut self,
        place: usize,
        message: QueuedMessage,
        rest: usize,
    ) -> Result<(), AllocError>
        requires { place < length self.old }
        ensures ok { OnOk result
            (self.new ≡ slice_set self.old place
            (with_rest message rest (stream_at self.old place))) }
        ensures err { OnErr result (self.new ≡ self.old) }
    {
        let stream = self.items.at_mut(place);
        let before = stream.turn();
        stream.push_rest(message, rest)?;
        let after = stream.turn();
        move_turn(&mut self.turns, before, after);
        Ok(())
    }

    /// Takes the oldest message of the stream.
    #[inline(always)]
    pub fn pop(&mut self, place: usize) -> Option<QueuedMessage>
        requires { place < length self.old }
        ensures left { self.new
            ≡ slice_set self.old place (without_front (stream_at self.old place)) }
        ensures result { result ≡ front_of (stream_at self.old place).messages }
    {
        let stream = self.items.at_mut(place);
        let id = stream.id();
        let before = stream.turn();
        let stood = stream.standing();
        let message = stream.pop();
        let after = stream.turn();
        let stands = stream.standing();
        move_turn(&mut self.turns, before, after);
        self.paused.move_stream(id, stood, stands);
        message
    }

    /// Gives the stream the numbers and the priority that a snapshot has.
    pub fn restore(&mut self, place: usize, named: &HandoverOutgoingStream)
        requires { place < length self.old }
        ensures { self.new
            ≡ slice_set self.old place (stream_restored named.now (stream_at self.old place)) }
    {
        let stream = self.items.at_mut(place);
        let before = stream.turn();
        stream.restore(named);
        let after = stream.turn();
        move_turn(&mut self.turns, before, after);
    }

    /// Sets the stream's priority.
    pub fn set_priority(&mut self, place: usize, priority: u16)
        requires { place < length self.old }
        ensures { self.new
            ≡ slice_set self.old place (record (stream_at self.old place) { priority = priority }) }
    {
        let stream = self.items.at_mut(place);
        let before = stream.turn();
        stream.set_priority(priority);
        let after = stream.turn();
        move_turn(&mut self.turns, before, after);
    }

    /// Sets the stream's threshold.
    pub fn set_threshold(&mut self, place: usize, threshold: usize)
        requires { place < length self.old }
        ensures { self.new
            ≡ slice_set self.old place
            (record (stream_at self.old place) { threshold = threshold }) }
    {
        let stream = self.items.at_mut(place);
        stream.set_threshold(threshold);
    }

    /// Takes that much away from the stream's amount.
    pub fn reduce(&mut self, place: usize, size: usize)
        requires { place < length self.old }
        ensures { self.new
            ≡ slice_set self.old place
            (record (stream_at self.old
            place) { amount = (stream_at self.old place).amount - size }) }
    {
        let stream = self.items.at_mut(place);
        stream.reduce(size);
    }

    /// The oldest message of the stream has come so far.
    #[inline(always)]
    pub fn go_on(&mut self, place: usize, under_way: UnderWay)
        requires place { place < length self.old }
        requires can { IsUnderWay (stream_at self.old place).id (stream_at self.old place).messages
            under_way }
        ensures { self.new
            ≡ slice_set self.old place (stream_with_progress under_way (stream_at self.old place)) }
    {
        let stream = self.items.at_mut(place);
        let id = stream.id();
        let before = stream.turn();
        let stood = stream.standing();
        stream.go_on(under_way);
        let after = stream.turn();
        let stands = stream.standing();
        move_turn(&mut self.turns, before, after);
        self.paused.move_stream(id, stood, stands);
    }

    /// Puts the stream's message under way back, to begin again. How many of its bytes were sent.
    pub fn put_back(&mut self, place: usize) -> usize
        requires { place < length self.old }
        ensures left { self.new
            ≡ slice_set self.old place (stream_put_back (stream_at self.old place)) }
        ensures sent { result ≡ progress_size (stream_at self.old place).under_way }
    {
        let stream = self.items.at_mut(place);
        let id = stream.id();
        let before = stream.turn();
        let stood = stream.standing();
        let sent = stream.put_back();
        let after = stream.turn();
        let stands = stream.standing();
        move_turn(&mut self.turns, before, after);
        self.paused.move_stream(id, stood, stands);
        sent
    }

    /// Counts a message of the stream that is begun.
    pub fn count_begun(&mut self, place: usize, is_interleaved: bool, is_unordered: bool)
        requires { place < length self.old }
        ensures { self.new
            ≡ slice_set self.old place
            (stream_counted is_interleaved is_unordered (stream_at self.old place)) }
    {
        let stream = self.items.at_mut(place);
        stream.count_begun(is_interleaved, is_unordered);
    }

    /// The stream sends that many bytes of its turn, which has `turn_size` bytes. Is its turn over?
    #[inline(always)]
    pub fn use_turn(&mut self, place: usize, turn_size: usize, size: usize) -> bool
        requires { place < length self.old }
        ensures left { self.new
            ≡ slice_set self.old place
            (stream_with_turn_bytes turn_size size (stream_at self.old place)) }
        ensures over { result ≡ fills_turn turn_size size (stream_at self.old place) }
    {
        let stream = self.items.at_mut(place);
        stream.use_turn(turn_size, size)
    }

    /// The stream has this turn.
    pub fn serve(&mut self, place: usize, turn: u64)
        requires { place < length self.old }
        ensures { self.new ≡ slice_set self.old place (served_stream turn
            (stream_at self.old place)) }
    {
        if self.items.at(place).last_turn() != turn {
            self.give_turn(place, turn);
        }
    }

    // The same, and the stream's turn comes later.
    fn give_turn(&mut self, place: usize, turn: u64)
        requires { place < length self.old }
        ensures { self.new ≡ slice_set self.old place (served_stream turn
            (stream_at self.old place)) }
    {
        let stream = self.items.at_mut(place);
        let before = stream.turn();
        stream.serve(turn);
        let after = stream.turn();
        move_turn(&mut self.turns, before, after);
    }
}
