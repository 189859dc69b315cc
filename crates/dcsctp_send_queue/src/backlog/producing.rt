//! Taking fragments, and dropping messages that are too old (RFC 3758, section 3.5).

ghost use Rattle.std.specs.Prelude.{◌≡◌};

use super::Backlog;
use super::reserving::{message_reserve, reserve_begun};
use crate::{DataToSend, UnderWay};
use dcsctp_api::{Events, SocketTime, StreamId};
use std::alloc::AllocError;

impl Backlog {
    ghost use Rattle.dcsctp_send_queue.specs.Backlog.{queue_of, HasHeldStream};
    ghost use Rattle.dcsctp_api.specs.spec.queues.SendQueue.{HaveBytes, CanGoOn, is_front_unordered};
    ghost use Rattle.std.specs.Option.{option_map};
    ghost use Rattle.std.specs.Prelude.{◌≡◌, ◌==◌, ◌+◌, ◌-◌, ◌<◌, ◌++◌, ℕ, length, Some, None, Ok, OnOk, OnErr, IfOk, IfSome};
    ghost use Rattle.dcsctp_api.specs.types.queues.SendStreams.{Waiting, front_of, stream_at};
    ghost use Rattle.dcsctp_send_queue.specs.Telling.{contents, AddsFront};
    ghost use Rattle.dcsctp_send_queue.specs.Fragment.{HasSize};
    ghost use Rattle.dcsctp_api.specs.spec.queues.Sending.{fragment, after_part, part_events, after_last, last_events, DropsAll, size_produced, queue_after_producing, produced_events, begun_under_way, next_progress, is_too_old, may_send_part, IsChosen, TakesNextFragment, DiscardsNamed};
    ghost use Rattle.dcsctp_send_queue.specs.Leaving.{HasMore, HasUnsentBytes, DropsSome, MayBegin, NextUnexpired};
    ghost use Rattle.dcsctp_send_queue.specs.Calls.{StopsTaking, StopsDiscarding};

    /// The oldest message of the stream as it is begun, before its first fragment.
    pub fn begun(&self, place: usize) -> UnderWay
        requires { place < length self.now.streams }
        ensures { (message : Waiting)
            → front_of (stream_at self.now.streams place).messages ≡ Some message
            → result ≡ begun_under_way message (stream_at self.now.streams place) }
    {
        let stream = self.streams.at(place);
        let is_unordered = self.is_front_unordered(place);
        let (ssn, mid) = stream.next_numbers(is_unordered);
        UnderWay {
            stream_id: stream.id(),
            ssn,
            mid,
            next_fsn: 0,
            sent: 0,
        }
    }

    // Is the oldest message of the stream unordered?
    pub(super) fn is_front_unordered(&self, place: usize) -> bool
        requires { place < length self.now.streams }
        ensures { result ≡ is_front_unordered (stream_at self.now.streams place).messages }
    {
        match self.streams.at(place).front() {
            None => false,
            Some(message) => message.is_unordered(),
        }
    }

    // Is the oldest message of the stream too old to be started? One that was started goes on.
    fn is_front_expired(&self, place: usize, now: SocketTime) -> bool
        requires { place < length self.now.streams }
        ensures { (message : Waiting)
            → front_of (stream_at self.now.streams place).messages ≡ Some message
            → result ≡ is_too_old now message (stream_at self.now.streams place) }
    {
        let stream = self.streams.at(place);
        if stream.under_way().is_some() {
            return false;
        }
        match stream.front() {
            None => false,
            Some(message) => message.is_expired(now),
        }
    }

    /// The place of the stream whose turn it is. Messages in front that are too old to be started are dropped
    /// first. `None` if no message can be started.
    pub fn next_unexpired(
        &mut self,
        events: &mut Events,
        now: SocketTime,
    ) -> Result<Option<usize>, AllocError>
        ensures ok { IfOk result (NextUnexpired now self.new.streams) }
        ensures told { OnOk result
            (DropsAll now (queue_of self.old) (contents events.old) (queue_of self.new)
            (contents events.new)) }
        ensures err { OnErr result (DropsSome now (queue_of self.old) (queue_of self.new)) }
        ensures front { (max : ℕ) → self.old.held ≡ None
            → OnErr result
            (StopsTaking now max (queue_of self.old) (contents events.old) (queue_of self.new)
            (contents events.new)) }
    {
        while let Some(place) = self.streams.next_place() {
            if !self.is_front_expired(place, now) {
                return Ok(Some(place));
            }
            self.drop_front(events, place, 0)?;
        }
        Ok(None)
    }

    /// Takes the next fragment of the oldest message of the stream, of at most `max` bytes.
    #[inline(always)]
    pub fn produce(
        &mut self,
        events: &mut Events,
        place: usize,
        under_way: UnderWay,
        max: usize,
    ) -> Result<DataToSend, AllocError>
        requires rest { HasUnsentBytes self.old.streams place under_way.sent }
        requires stream { (stream_at self.old.streams place).id ≡ under_way.stream_id.0 }
        requires some { 0 < max }
        ensures ok { (message : Waiting)
            → front_of (stream_at self.old.streams place).messages ≡ Some message
            → IfOk result
            (λ part. part ≡ fragment under_way message (size_produced max message under_way)) }
        ensures some { (message : Waiting)
            → front_of (stream_at self.old.streams place).messages ≡ Some message
            → 0 < length message.payload }
        ensures left { (message : Waiting) → front_of (stream_at self.old.streams place).messages ≡
            Some message → OnOk result (queue_of self.new ≡ queue_after_producing place max message
            under_way (queue_of self.old)) }
        ensures told { (message : Waiting)
            → front_of (stream_at self.old.streams place).messages ≡ Some message
            → OnOk result
            (contents events.new
            ≡ contents events.old
            ++ produced_events place max message under_way (queue_of self.old)) }
        ensures err { OnErr result (self.new ≡ self.old) }
        ensures front { (message : Waiting)
            → front_of (stream_at self.old.streams place).messages ≡ Some message
            → OnErr result
            (AddsFront (contents events.old)
            (produced_events place max message under_way (queue_of self.old))
            (contents events.new)) }
    {
        let message = self.streams.at(place).front().unwrap();
        let left = message.size().saturating_sub(under_way.sent);
        if left <= max {
            self.produce_last(events, place, under_way)
        } else {
            self.produce_part(events, place, under_way, max)
        }
    }

    // Is this the name of the oldest message of the stream?
    fn is_front_named(&self, place: usize, message_id: u64) -> bool
        requires { place < length self.now.streams }
        ensures { (message : Waiting)
            → front_of (stream_at self.now.streams place).messages ≡ Some message
            → result ≡ (message.message_id == message_id) }
    {
        match self.streams.at(place).front() {
            None => false,
            Some(message) => message.message_id() == message_id,
        }
    }

    /// Drops what is left of the stream's message under way, if it is the one of this name, and returns whether
    /// it was.
    pub fn discard(
        &mut self,
        events: &mut Events,
        stream_id: StreamId,
        message_id: u64,
    ) -> Result<bool, AllocError>
        requires { HasHeldStream self.old }
        ensures ok { IfOk result
            (λ is_dropped. DiscardsNamed (queue_of self.old) stream_id.0 message_id
            (contents events.old) is_dropped (queue_of self.new) (contents events.new)) }
        ensures held { HasHeldStream self.new }
        ensures err { OnErr result (self.new ≡ self.old) }
        ensures front { OnErr result
            (StopsDiscarding (queue_of self.old) stream_id.0 message_id (contents events.old)
            (contents events.new)) }
    {
        let Ok(place) = self.streams.find(stream_id) else {
            return Ok(false);
        };
        let Some(under_way) = self.streams.at(place).under_way() else {
            return Ok(false);
        };
        if !self.is_front_named(place, message_id) {
            return Ok(false);
        }
        let size = self.front_size(place);
        self.drop_front(events, place, under_way.sent)?;
        self.release(stream_id, reserve_begun(size, under_way));
        Ok(true)
    }

    // How far the oldest message of the stream has come: it is under way, or is begun.
    #[inline(always)]
    fn next_progress(&self, place: usize) -> UnderWay
        requires { place < length self.now.streams }
        ensures come { (message : Waiting)
            → front_of (stream_at self.now.streams place).messages ≡ Some message
            → result ≡ next_progress message (stream_at self.now.streams place) }
        ensures bytes { HaveBytes (stream_at self.now.streams place) }
        ensures can { CanGoOn (stream_at self.now.streams place) }
    {
        match self.streams.at(place).under_way() {
            Some(under_way) => under_way,
            None => self.begun(place),
        }
    }

    // How many bytes the oldest message of the stream has.
    #[inline(always)]
    fn front_size(&self, place: usize) -> usize
        requires { place < length self.now.streams }
        ensures { (message : Waiting)
            → front_of (stream_at self.now.streams place).messages ≡ Some message
            → result ≡ length message.payload }
    {
        match self.streams.at(place).front() {
            None => 0,
            Some(message) => message.size(),
        }
    }

    // May a fragment of at most `max` bytes of the stream's oldest message be sent?
    #[inline(always)]
    fn may_send_part(&self, place: usize, max: usize) -> bool
        requires { place < length self.now.streams }
        ensures { (message : Waiting)
            → front_of (stream_at self.now.streams place).messages ≡ Some message
            → result
            ≡ may_send_part max message (stream_at self.now.streams place) (queue_of self.now) }
    {
        let size = self.front_size(place);
        !self.interleaves()
            || self.streams.at(place).under_way().is_some()
            || size <= max
            || self.has_room_beside(size)
    }

    // The place of the stream that sends, if it is the turn of the one at this place.
    #[inline(always)]
    fn chosen_place(&self, turn: usize, max: usize) -> usize
        requires { turn < length self.now.streams }
        ensures { (now : ℕ) → MayBegin now self.now.streams turn
            → IsChosen now max (queue_of self.now) result }
    {
        if self.may_send_part(turn, max) {
            return turn;
        }
        match self.streams.first_under_way() {
            Some(place) => place,
            None => turn,
        }
    }

    /// Takes the next fragment of the message under way of the stream that is held, of at most `max` bytes.
    #[inline(always)]
    pub fn go_on(
        &mut self,
        events: &mut Events,
        held: StreamId,
        max: usize,
    ) -> Result<Option<DataToSend>, AllocError>
        requires goes_on { self.old.held ≡ Some held }
        requires held { HasHeldStream self.old }
        requires some { 0 < max }
        ensures ok { (now : ℕ)
            → IfOk result
            (λ next. TakesNextFragment now max (queue_of self.old) (contents events.old) next
            (queue_of self.new) (contents events.new)) }
        ensures size { IfOk result (λ next. IfSome next (HasSize max)) }
        ensures held { HasHeldStream self.new }
        ensures err { OnErr result (self.new ≡ self.old) }
        ensures front { (now : ℕ)
            → OnErr result
            (StopsTaking now max (queue_of self.old) (contents events.old) (queue_of self.new)
            (contents events.new)) }
    {
        let place = self.place_of(held);
        let under_way = self.next_progress(place);
        let data = self.produce(events, place, under_way, max)?;
        Ok(Some(data))
    }

    /// Takes the next fragment, of at most `max` bytes, of the stream whose turn it is, or, if the peer has no room for
    /// its message beside those under way, of the first of these; none if no stream has its turn.
    #[inline(always)]
    pub fn begin_next(
        &mut self,
        events: &mut Events,
        now: SocketTime,
        max: usize,
    ) -> Result<Option<DataToSend>, AllocError>
        requires idle { self.old.held ≡ None }
        requires held { HasHeldStream self.old }
        requires some { 0 < max }
        ensures ok { IfOk result
            (λ next. TakesNextFragment now max (queue_of self.old) (contents events.old) next
            (queue_of self.new) (contents events.new)) }
        ensures size { IfOk result (λ next. IfSome next (HasSize max)) }
        ensures held { HasHeldStream self.new }
        ensures err { OnErr result (DropsSome now (queue_of self.old) (queue_of self.new)) }
        ensures front { OnErr result
            (StopsTaking now max (queue_of self.old) (contents events.old) (queue_of self.new)
            (contents events.new)) }
    {
        let Some(turn) = self.next_unexpired(events, now)? else {
            return Ok(None);
        };
        let place = self.chosen_place(turn, max);
        let under_way = self.next_progress(place);
        let data = self.produce(events, place, under_way, max)?;
        Ok(Some(data))
    }

    // Takes a fragment of that many bytes, which isn't the last.
    #[inline(always)]
    fn produce_part(
        &mut self,
        events: &mut Events,
        place: usize,
        under_way: UnderWay,
        size: usize,
    ) -> Result<DataToSend, AllocError>
        requires rest { HasMore self.old.streams place (under_way.sent + size) }
        requires stream { (stream_at self.old.streams place).id ≡ under_way.stream_id.0 }
        requires some { 0 < size }
        ensures ok { (message : Waiting)
            → front_of (stream_at self.old.streams place).messages ≡ Some message
            → IfOk result (λ part. part ≡ fragment under_way message size) }
        ensures left { (message : Waiting)
            → front_of (stream_at self.old.streams place).messages ≡ Some message
            → OnOk result
            (queue_of self.new ≡ after_part place size message under_way (queue_of self.old)) }
        ensures told { OnOk result
            (contents events.new
            ≡ contents events.old ++ part_events place size (queue_of self.old)) }
        ensures err { OnErr result (self.new ≡ self.old) }
        ensures front { OnErr result
            (AddsFront (contents events.old) (part_events place size (queue_of self.old))
            (contents events.new)) }
    {
        let message = self.streams.at(place).front().unwrap();
        let data = message.part(self.alloc, under_way, size)?;
        let whole = message.size();
        let is_unordered = message.is_unordered();
        let is_abandonable = message.may_be_abandoned();
        self.tell_low(events, place, size)?;
        self.reduce(place, size);
        self.number(place, under_way.sent == 0, is_unordered);
        self.count_turn(place, under_way.sent == 0, size);
        let further = UnderWay {
            stream_id: under_way.stream_id,
            ssn: under_way.ssn,
            mid: under_way.mid,
            next_fsn: under_way.next_fsn.wrapping_add(1),
            sent: under_way.sent + size,
        };
        self.streams.go_on(place, further);
        self.held = self.held_by(under_way.stream_id, is_abandonable);
        self.reserve(
            reserve_begun(whole, under_way),
            message_reserve(whole, further),
        );
        Ok(data)
    }

    // Takes the last fragment.
    #[inline(always)]
    fn produce_last(
        &mut self,
        events: &mut Events,
        place: usize,
        under_way: UnderWay,
    ) -> Result<DataToSend, AllocError>
        requires { HasUnsentBytes self.old.streams place under_way.sent }
        ensures ok { (message : Waiting)
            → front_of (stream_at self.old.streams place).messages ≡ Some message
            → IfOk result
            (λ part. part ≡ fragment under_way message (length message.payload - under_way.sent)) }
        ensures left { (message : Waiting)
            → front_of (stream_at self.old.streams place).messages ≡ Some message
            → OnOk result
            (queue_of self.new ≡ after_last place message under_way (queue_of self.old)) }
        ensures told { (message : Waiting)
            → front_of (stream_at self.old.streams place).messages ≡ Some message
            → OnOk result
            (contents events.new
            ≡ contents events.old ++ last_events place message under_way (queue_of self.old)) }
        ensures err { OnErr result (self.new ≡ self.old) }
        ensures front { (message : Waiting)
            → front_of (stream_at self.old.streams place).messages ≡ Some message
            → OnErr result
            (AddsFront (contents events.old)
            (last_events place message under_way (queue_of self.old)) (contents events.new)) }
    {
        let message = self.streams.at(place).front().unwrap();
        let rest = message.copied_rest(self.alloc, under_way.sent)?;
        let whole = message.size();
        let left = whole.saturating_sub(under_way.sent);
        let is_unordered = message.is_unordered();
        self.tell_low(events, place, left)?;
        message.tell_fully_sent(events)?;
        self.reduce(place, left);
        self.number(place, under_way.sent == 0, is_unordered);
        self.count_turn(place, under_way.sent == 0, left);
        self.release(under_way.stream_id, reserve_begun(whole, under_way));
        let message = self.streams.pop(place).unwrap();
        Ok(message.last_part(under_way, rest))
    }
}
