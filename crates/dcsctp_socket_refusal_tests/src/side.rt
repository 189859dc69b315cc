//! One side: its socket, and what was taken of it.

use crate::exchange::{Act, Exchange, Name};
use crate::room::{Handed, Room};
use dcsctp_socket::api::handover::SocketHandoverState;
use dcsctp_socket::{DcSctpSocket, SendOptions, Socket, SocketEvent, SocketFault, StreamId};
use dcsctp_testing::{Counting, How, at, is_message, message, options};
use std::alloc::{AllocError, Global};
use std::process::Abort;

/// A socket with what belongs to it.
pub struct Side {
    pub alloc: Global,
    pub name: Name,
    pub socket: Socket<Counting>,

    /// The snapshot that was taken of it.
    pub snapshot: Option<SocketHandoverState>,

    exchange: &'static Exchange,
    room: Room,

    // The packet that it was handed last.
    last: Option<Vec<u8>>,

    // The events of the steps before this one were taken.
    heard: usize,

    // How many messages were taken.
    taken: usize,
}

// Written out: a derived one would be proved at each exit of each function that has one.
impl Drop for Side {
    fn drop(self) {
        let Side {
            alloc: _,
            name: _,
            socket: _,
            snapshot: _,
            exchange: _,
            room: _,
            last: _,
            heard: _,
            taken: _,
        } = self;
    }
}

/// The result of a call. The outer error is that an allocation of the test itself failed.
pub type Answer = Result<Result<(), SocketFault>, AllocError>;

impl Side {
    /// A side of an exchange with this socket, of which nothing was taken.
    pub fn new(
        alloc: Global,
        exchange: &'static Exchange,
        name: Name,
        socket: Socket<Counting>,
        room: Room,
    ) -> Side {
        Side {
            alloc,
            name,
            socket,
            snapshot: None,
            exchange,
            room,
            last: None,
            heard: 0,
            taken: 0,
        }
    }

    /// Does what the act of this step says.
    pub fn act(&mut self, rt: &impl Abort, other: &mut Side, index: usize, act: Act) -> Answer {
        match act {
            Act::Connects => Ok(self.socket.connect()),
            Act::Closes => Ok(self.socket.close()),
            Act::ShutsDown => Ok(self.socket.shutdown()),
            Act::Takes => Ok(self.take(rt, other, index)),
            Act::TakesAgain => Ok(self.take_again(rt)),
            Act::Loses => {
                drop(other.next_packet(rt, index));
                Ok(Ok(()))
            }
            Act::TakesNoPackets(count) => Ok(self.take_no_packets(count)),
            Act::Sends(stream, size, how) => self.send(rt, stream, size, how),
            Act::SendsMany(rows) => self.send_many(rt, rows),
            Act::Resets(ids) => Ok(self.reset(rt, ids)),
            Act::SetsPriority(stream, priority) => {
                Ok(self.socket.set_stream_priority(StreamId(stream), priority))
            }
            Act::SetsThreshold(stream, bytes) => Ok(self.set_threshold(stream, bytes)),
            Act::Passes(millis) => Ok(self.socket.advance_time(at(millis))),
            Act::Expires(millis) => {
                assert_eq!(rt; self.socket.poll_timeout(), at(millis), "step {index}");
                Ok(self.socket.advance_time(at(millis)))
            }
            Act::Reads(count) => {
                self.read(rt, count);
                Ok(Ok(()))
            }
            Act::HandsOver => Ok(self.hand_over(rt)),
            Act::Restores => Ok(self.restore(rt)),
            Act::RestoresPlain => Ok(self.restore_plain(rt)),
            Act::WithoutMemory(act) => self.act_without_memory(rt, index, act),
        }
    }

    // The next packet that is under way to the other side. Events of this side are taken only if none is
    // known, so that they wait as long as possible.
    fn next_packet(&mut self, rt: &impl Abort, index: usize) -> Vec<u8> {
        if self.room.outgoing.is_empty() {
            self.hear(rt, index);
        }
        let Some(packet) = self.room.outgoing.pop_front() else {
            panic!(rt; "step {index}: no packet is under way")
        };
        packet
    }

    // Is handed the next packet of the other side.
    fn take(&mut self, rt: &impl Abort, other: &mut Side, index: usize) -> Result<(), SocketFault> {
        let packet = other.next_packet(rt, index);
        let answer = self.socket.handle_input(&packet);
        self.last = Some(packet);
        answer
    }

    // Is handed the packet again that it was handed last.
    fn take_again(&mut self, rt: &impl Abort) -> Result<(), SocketFault> {
        let Some(packet) = &self.last else {
            panic!(rt; "{:?}: no packet was taken", self.name)
        };
        self.socket.handle_input(packet)
    }

    // Is handed bytes that are no packet, that often, up to a fault.
    fn take_no_packets(&mut self, count: u16) -> Result<(), SocketFault> {
        for _ in 0..count {
            self.socket.handle_input(&[1, 2, 3])?;
        }
        Ok(())
    }

    // Sends a message, which must be taken.
    fn send(&mut self, rt: &impl Abort, stream: u16, size: u16, how: How) -> Answer {
        let message = message(self.alloc, stream, size)?;
        match self.socket.send(message, &options(how)) {
            Err(fault) => Ok(Err(fault)),
            Ok(answer) => {
                assert_eq!(rt; answer, Ok(()), "a message of {size} bytes");
                Ok(Ok(()))
            }
        }
    }

    // Sends several messages, which must be taken.
    fn send_many(&mut self, rt: &impl Abort, rows: &[(u16, u16)]) -> Answer {
        let mut messages = Vec::with_capacity(self.alloc, rows.len())?;
        for (stream, size) in rows {
            messages.push(message(self.alloc, *stream, *size)?)?;
        }
        match self.socket.send_many(messages, &SendOptions::default()) {
            Err(fault) => Ok(Err(fault)),
            Ok(answer) => {
                assert_eq!(rt; answer, Ok(()), "several messages");
                Ok(Ok(()))
            }
        }
    }

    // Resets streams, which must be taken.
    fn reset(&mut self, rt: &impl Abort, ids: &[StreamId]) -> Result<(), SocketFault> {
        let answer = self.socket.reset_streams(ids)?;
        assert_eq!(rt; answer, Ok(()), "a reset of streams");
        Ok(())
    }

    // Sets the threshold of a stream.
    fn set_threshold(&mut self, stream: u16, bytes: usize) -> Result<(), SocketFault> {
        self.socket
            .set_buffered_amount_low_threshold(StreamId(stream), bytes)
    }

    /// Takes the events of this step, which must be the first part of those of the table. Returns whether they
    /// were all of them.
    pub fn hear_step(&mut self, rt: &impl Abort, index: usize) -> bool {
        for place in 0..self.exchange.tells_at(self.name, index).len() {
            if !self.hear_one(rt, index, place) {
                return false;
            }
        }
        true
    }

    // Takes one event, which must be that of this place, and returns whether there was one.
    fn hear_one(&mut self, rt: &impl Abort, index: usize, place: usize) -> bool {
        match self.socket.poll_event() {
            None => false,
            Some(event) => {
                let is_due = self.exchange.is_told_at(self.name, index, place, &event);
                assert!(rt; is_due, "step {index}: {event:?} at place {place}");
                self.keep(rt, event);
                true
            }
        }
    }

    // Keeps an event, if it is a packet. There is room for it.
    fn keep(&mut self, rt: &impl Abort, event: SocketEvent) {
        if let SocketEvent::SendPacket(packet) = event {
            let is_kept = self.room.outgoing.push_back(packet).is_ok();
            assert!(rt; is_kept, "{:?}: too many packets are under way", self.name);
        }
    }

    /// Takes the events from before this step, which must be all those of the table.
    pub fn hear(&mut self, rt: &impl Abort, end: usize) {
        for index in self.heard..end {
            let is_whole = self.hear_step(rt, index);
            assert!(rt; is_whole, "step {index}: an event is missing");
        }
        self.heard = end;
    }

    /// No event may be left.
    pub fn tells_nothing(&mut self, rt: &impl Abort, index: usize) {
        let event = self.socket.poll_event();
        assert!(rt;
            event.is_none(),
            "step {index}: {event:?} in place of no event"
        );
        drop(event);
    }

    // The message that comes next: its stream and its bytes.
    fn next_message(&self) -> Option<(u16, u16)> {
        self.exchange
            .messages_to(self.name)
            .get(self.taken)
            .copied()
    }

    /// Takes that many messages, which must be ready, and those of the table, whole and in order.
    pub fn read(&mut self, rt: &impl Abort, count: usize) {
        for _ in 0..count {
            let Some(found) = self.socket.get_next_message() else {
                panic!(rt; "{:?}: message {} is missing", self.name, self.taken)
            };
            let expected = self.next_message();
            assert!(rt;
                is_message(&found, expected.as_ref()),
                "{:?}: {found:?} in place of {expected:?}",
                self.name
            );
            drop(found);
            self.taken = self.taken.saturating_add(1);
        }
    }

    /// What a call after the failure is handed. There is enough for two rounds of them.
    pub fn handed(&mut self, rt: &impl Abort) -> Handed {
        let Some(handed) = self.room.handed.pop() else {
            panic!(rt; "{:?}: too many rounds of calls", self.name)
        };
        handed
    }

    /// The steps before this one were taken without a failure. The events are all that the table says, and no others.
    pub fn is_well(&mut self, rt: &impl Abort, end: usize) {
        let has_failed = self.socket.has_failed();
        assert!(rt; !has_failed, "step {end}: {:?} has failed", self.name);
        self.hear(rt, end);
        self.tells_nothing(rt, end);
    }

    /// No step is left: the events were all of the table and nothing else, and the association is over.
    pub fn is_over(&mut self, rt: &impl Abort) {
        self.is_well(rt, self.exchange.steps.len());
        assert!(rt;
            self.socket.association().is_none(),
            "{:?}: an association",
            self.name
        );
        assert_eq!(rt;
            self.socket.messages_ready_count(),
            0,
            "{:?}: messages",
            self.name
        );
    }
}
