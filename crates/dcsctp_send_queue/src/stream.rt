//! What waits on one stream.

mod handover;
mod numbering;
mod progress;

use crate::message::QueuedMessage;
use dcsctp_api::types::{Pause, Turn, UnderWay};
use dcsctp_api::{Events, SocketTime, StreamId};
use std::alloc::{AllocError, Global};
use std::collections::VecDeque;
use std::marker::Model;

// For how many messages a stream keeps room.
const KEPT_ROOM: usize = 8;

/// A stream that messages leave by.
#[derive(Debug, Drop)]
pub struct OutgoingStream {
    id: StreamId,
    priority: u16,
    threshold: usize,

    // The payload bytes that were neither produced nor dropped.
    amount: usize,

    // The numbers of the messages that are begun next.
    next_ssn: u16,
    next_mid: u32,
    next_unordered_mid: u32,

    // Which turn it had last, counted from 1; 0 if it had none, or if streams don't take turns.
    last_turn: u64,

    // The payload bytes that it sent of its present turn, where messages are interleaved.
    turn_bytes: usize,

    pause: Pause,

    // How far the oldest message has come, if it was started. It isn't fully sent.
    under_way: Option<UnderWay>,

    // The oldest first. The message that is under way stays at the front until it is fully sent.
    messages: VecDeque<QueuedMessage>,
}

impl Model for OutgoingStream {
    ghost use Rattle.dcsctp_api.specs.types.queues.SendStreams.{Stream};
    ghost use Rattle.dcsctp_send_queue.specs.Sound.{IsStreamSound};

    ghost Value = { Stream };

    ghost view = { λ stream. record {
      id = stream.id.0;
      priority = stream.priority;
      threshold = stream.threshold;
      amount = stream.amount;
      next_ssn = stream.next_ssn;
      next_mid = stream.next_mid;
      next_unordered_mid = stream.next_unordered_mid;
      last_turn = stream.last_turn;
      turn_bytes = stream.turn_bytes;
      pause = stream.pause;
      under_way = stream.under_way;
      messages = stream.messages.items;
    } };

    ghost invariant = { λ stream. IsStreamSound stream.id.0 stream.messages.items stream.under_way };
}

impl OutgoingStream {
    ghost use Rattle.std.specs.Prelude.{◌≡◌, ◌≤◌, ◌-◌, ◌^◌, ◌||◌, ◌++◌, is_some, min, drop, OnOk, OnErr};
    ghost use Rattle.dcsctp_send_queue.specs.Telling.{contents, AddsFront};
    ghost use Rattle.dcsctp_api.specs.spec.queues.SendEvents.{expiries};
    ghost use Rattle.dcsctp_api.specs.types.queues.SendStreams.{payload_size, unused_stream, front_of, with_message, without_front, paused_stream, resumed_stream, handed_out, renumbered_stream, amount_raised, committed_stream, rolled_back, may_send_on, turn_of};
    ghost use Rattle.std.specs.Option.{option_copied};
    ghost use Rattle.dcsctp_api.specs.spec.queues.SendQueue.{HaveBytes, CanGoOn, has_live};
    ghost use Rattle.std.specs.List.{list_any};
    ghost use Rattle.dcsctp_api.specs.spec.queues.OwnResets.{is_lasting, count_under_way};
    ghost use Rattle.dcsctp_api.specs.spec.queues.Readiness.{is_paused};
    ghost use Rattle.dcsctp_api.specs.spec.queues.QueuedParts.{emptied_stream, with_rest};

    /// A stream that was never used. Allocates nothing.
    pub fn new(alloc: Global, id: StreamId, priority: u16, threshold: usize) -> OutgoingStream
        ensures { result ≡ unused_stream id.0 priority threshold }
    {
        OutgoingStream {
            id,
            priority,
            threshold,
            amount: 0,
            next_ssn: 0,
            next_mid: 0,
            next_unordered_mid: 0,
            last_turn: 0,
            turn_bytes: 0,
            pause: Pause::Open,
            under_way: None,
            messages: VecDeque::new(alloc),
        }
    }

    /// Its number.
    pub fn id(&self) -> StreamId
        ensures { result.0 ≡ self.now.id }
    {
        self.id
    }

    /// Its priority.
    pub fn priority(&self) -> u16
        ensures { result ≡ self.now.priority }
    {
        self.priority
    }

    /// Its threshold in bytes.
    pub fn threshold(&self) -> usize
        ensures { result ≡ self.now.threshold }
    {
        self.threshold
    }

    /// The payload bytes that were neither produced nor dropped.
    pub fn amount(&self) -> usize
        ensures { result ≡ self.now.amount }
    {
        self.amount
    }

    /// May it begin another message?
    pub fn pause_state(&self) -> Pause
        ensures { result ≡ self.now.pause }
    {
        self.pause
    }

    /// Is it to be reset, or was its reset requested?
    pub fn is_paused(&self) -> bool
        ensures { result ≡ is_paused self.now }
    {
        match self.pause {
            Pause::Pausing | Pause::HandedOut => true,
            Pause::Open => false,
        }
    }

    /// Is there a message at the moment `now` that may be sent: one under way, or one whose lifetime isn't over?
    pub fn has_live(&self, now: SocketTime) -> bool
        ensures { result ≡ (is_some self.now.under_way || has_live now self.now.messages) }
    {
        self.under_way.is_some() || self.has_unexpired(now)
    }

    // Is there a message at the moment `now` whose lifetime isn't over?
    fn has_unexpired(&self, now: SocketTime) -> bool
        ensures { result ≡ has_live now self.now.messages }
    {
        self.messages.iter().any(|message| !message.is_expired(now))
    }

    /// Is there a message without a lifetime?
    pub fn has_lasting(&self) -> bool
        ensures { result ≡ list_any is_lasting self.now.messages }
    {
        self.messages.iter().any(|message| message.is_lasting())
    }

    /// The stream's turn; none if it has no message, or is paused and none is under way.
    pub fn turn(&self) -> Option<Turn>
        ensures turn { result ≡ turn_of self.now }
        ensures bytes { HaveBytes self.now }
        ensures can { CanGoOn self.now }
    {
        let turn = Turn {
            priority: self.priority,
            last_turn: self.last_turn,
            stream_id: self.id,
        };
        if self.may_send() { Some(turn) } else { None }
    }

    // Has it a message, and is it open or was that one started?
    fn may_send(&self) -> bool
        ensures { result ≡ may_send_on self.now.under_way self.now.pause self.now.messages }
    {
        if self.messages.is_empty() {
            return false;
        }
        match self.pause {
            Pause::Open => true,
            Pause::Pausing | Pause::HandedOut => self.under_way.is_some(),
        }
    }

    /// Its oldest message; none if it has none.
    pub fn front(&self) -> Option<&QueuedMessage>
        ensures { option_copied result ≡ front_of self.now.messages }
    {
        self.messages.front()
    }

    /// The payload bytes of its messages except for that many of the oldest; at most the greatest `usize`.
    pub fn size_from(&self, kept: usize) -> usize
        ensures { result ≡ min (payload_size (drop kept self.now.messages)) (2 ^ 64 - 1) }
    {
        let mut size = 0usize;
        for place in kept..self.messages.len() {
            let message = &self.messages[place];
            size = size.saturating_add(message.size());
        }
        size
    }

    /// Reports that its messages, except for that many of the oldest, are abandoned.
    pub fn tell_dropped(&self, events: &mut Events, kept: usize) -> Result<(), AllocError>
        ensures ok { OnOk result
            (contents events.new ≡ contents events.old ++ expiries (drop kept self.now.messages)) }
        ensures err { OnErr result
            (AddsFront (contents events.old) (expiries (drop kept self.now.messages))
            (contents events.new)) }
    {
        for place in kept..self.messages.len() {
            let message = &self.messages[place];
            message.tell_expired(events)?;
        }
        Ok(())
    }

    /// Adds a message after the others. `Err`: an allocation failed, and nothing has changed.
    #[inline(always)]
    pub fn push(&mut self, message: QueuedMessage) -> Result<(), AllocError>
        ensures ok { OnOk result (self.new ≡ with_message message self.old) }
        ensures err { OnErr result (self.new ≡ self.old) }
    {
        let size = message.size();
        self.messages.push_back(message)?;
        self.amount = self.amount.saturating_add(size);
        Ok(())
    }

    /// Adds a message after the others, of which so many bytes are to be sent. `Err`: an allocation failed,
    /// and nothing has changed.
    pub fn push_rest(&mut self, message: QueuedMessage, rest: usize) -> Result<(), AllocError>
        ensures ok { OnOk result (self.new ≡ with_rest message rest self.old) }
        ensures err { OnErr result (self.new ≡ self.old) }
    {
        self.messages.push_back(message)?;
        self.amount = self.amount.saturating_add(rest);
        Ok(())
    }

    /// Drops all its messages, and counts them from 0 again, as if it had had no turn. It keeps its priority
    /// and its threshold.
    pub fn empty(&mut self)
        ensures { self.new ≡ emptied_stream self.old }
    {
        self.messages.clear();
        self.under_way = None;
        self.amount = 0;
        self.last_turn = 0;
        self.turn_bytes = 0;
        self.begin_anew();
    }

    /// Takes its oldest message.
    #[inline(always)]
    pub fn pop(&mut self) -> Option<QueuedMessage>
        ensures left { self.new ≡ without_front self.old }
        ensures result { result ≡ front_of self.old.messages }
    {
        let message = self.messages.pop_front();
        self.under_way = None;
        self.give_room_back();
        message
    }

    // Gives half of the room for messages back if less than a quarter of it is in use.
    #[inline(always)]
    fn give_room_back(&mut self)
        ensures { self.new ≡ self.old }
    {
        let room = self.messages.capacity();
        if KEPT_ROOM < room && self.messages.len() < room / 4 {
            self.messages.shrink_to(room / 2);
        }
    }

    /// Keeps only that many of its messages, the oldest, and pauses it.
    pub fn pause(&mut self, kept: usize)
        requires { count_under_way self.old ≤ kept }
        ensures { self.new ≡ paused_stream kept self.old }
    {
        self.messages.truncate(kept);
        self.pause = Pause::Pausing;
    }

    /// Ends its pause.
    pub fn resume(&mut self)
        ensures { self.new ≡ resumed_stream self.old }
    {
        self.pause = Pause::Open;
    }

    /// It was reset, if it was handed out: its pause ends, and its messages are counted from 0 again.
    pub fn commit(&mut self)
        ensures { self.new ≡ committed_stream self.old }
    {
        match self.pause {
            Pause::Open | Pause::Pausing => {}
            Pause::HandedOut => self.begin_anew(),
        }
    }

    /// It was not reset, if it was handed out: its pause ends.
    pub fn roll_back(&mut self)
        ensures { self.new ≡ rolled_back self.old }
    {
        match self.pause {
            Pause::Open | Pause::Pausing => {}
            Pause::HandedOut => self.resume(),
        }
    }

    /// Hands it out to be reset.
    pub fn hand_out(&mut self)
        ensures { self.new ≡ handed_out self.old }
    {
        self.pause = Pause::HandedOut;
    }

    /// Ends its pause, and counts its messages from 0 again.
    pub fn begin_anew(&mut self)
        ensures { self.new ≡ renumbered_stream self.old }
    {
        self.next_ssn = 0;
        self.next_mid = 0;
        self.next_unordered_mid = 0;
        self.pause = Pause::Open;
    }

    /// Gives it a priority.
    pub fn set_priority(&mut self, priority: u16)
        ensures { self.new ≡ record self.old { priority = priority } }
    {
        self.priority = priority;
    }

    /// Gives it a threshold.
    pub fn set_threshold(&mut self, threshold: usize)
        ensures { self.new ≡ record self.old { threshold = threshold } }
    {
        self.threshold = threshold;
    }

    /// Takes that much away from its amount.
    pub fn reduce(&mut self, size: usize)
        ensures { self.new ≡ record self.old { amount = self.old.amount - size } }
    {
        self.amount = self.amount.saturating_sub(size);
    }

    /// Adds that much to its amount, which stops at the greatest `usize`.
    pub fn raise(&mut self, size: usize)
        ensures { self.new ≡ amount_raised size self.old }
    {
        self.amount = self.amount.saturating_add(size);
    }
}
