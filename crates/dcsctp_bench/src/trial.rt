//! Two sockets and their users. The user of the first sends messages, and that of the second takes them.
//! Errors and ends of the association are counted, and the trial continues.

use crate::failure::Failure;
use crate::pair::{Pair, Side};
use dcsctp_socket::{
    DcSctpSocket, Message, Options, PpId, SendOptions, SocketState, SocketTime, StreamId,
};
use std::alloc::Global;
use std::time::Duration;

/// Messages that the first user sends as fast as it may.
#[derive(Clone, Copy)]
pub struct Load {
    /// The bytes of each message, 1 at least.
    pub size: usize,

    /// How many there are in all.
    pub count: u32,

    /// How many streams they are sent on: those from 0 on. The number of a stream is the protocol of its messages.
    pub streams: u16,

    /// A message is sent on a stream as long as fewer bytes wait there.
    pub queued: usize,
}

/// What is waited for.
#[derive(Clone, Copy)]
pub enum Goal {
    /// Nothing: time is to pass.
    Nothing,

    /// Both sockets have connected so often.
    Connected(u32),

    /// So many messages were taken.
    Taken(u32),

    /// So many streams of the first socket were reset.
    Reset(usize),

    /// The association has ended at both ends.
    Ended,
}

/// Two sockets, and what their users have done.
#[derive(Drop)]
pub struct Trial {
    alloc: Global,

    pub pair: Pair,

    pub load: Load,

    // How many messages of the load were sent.
    sent: u32,

    /// Does the second user take messages?
    pub is_reading: bool,

    /// How many messages of protocol 0 it took.
    pub messages: u32,

    /// How many of other protocols it took.
    pub others: u32,

    /// When it took the last one.
    pub last: SocketTime,
}

impl Trial {
    /// Two closed sockets with these options. Nothing was sent.
    pub fn new(alloc: Global, options: &Options, load: Load) -> Result<Trial, Failure> {
        let mut pair = Pair::with(alloc, options)?;
        pair.bear_ends();
        Ok(Trial {
            alloc,
            pair,
            load,
            sent: 0,
            is_reading: true,
            messages: 0,
            others: 0,
            last: SocketTime::zero(),
        })
    }

    /// How many messages the second user took.
    pub fn taken(&self) -> u32 {
        self.messages.saturating_add(self.others)
    }

    /// The second user connects to the first.
    pub fn connect(&mut self) -> Result<(), Failure> {
        let connections = self.pair.a.told.connections.saturating_add(1);
        self.pair.b.connect(&mut self.pair.link)?;
        if !self.wait(Goal::Connected(connections), 10)? {
            return Err(Failure::NotConnected);
        }
        Ok(())
    }

    /// The second user ends the association at once.
    pub fn close(&mut self) -> Result<(), Failure> {
        self.pair.b.socket.close()?;
        self.pair.b.drain(&mut self.pair.link)
    }

    /// The first user shuts the association down.
    pub fn shut_down(&mut self) -> Result<(), Failure> {
        self.pair.a.socket.shutdown()?;
        self.pair.a.drain(&mut self.pair.link)
    }

    /// The first user resets a stream, if the association hasn't ended.
    pub fn reset(&mut self, stream: u16) -> Result<(), Failure> {
        let _refusal = self.pair.a.socket.reset_streams(&[StreamId(stream)])?;
        self.pair.a.drain(&mut self.pair.link)
    }

    /// The first user sends a message.
    pub fn send(&mut self, stream: u16, protocol: u32, size: usize) -> Result<(), Failure> {
        let payload = vec![in self.alloc; 7u8; size]?;
        let message = Message::new(StreamId(stream), PpId(protocol), payload);
        let options = SendOptions::default();
        self.pair.a.send(&mut self.pair.link, message, &options)
    }

    // The first user sends messages of the load on a stream.
    fn fill(&mut self, stream: u16) -> Result<(), Failure> {
        for _ in self.sent..self.load.count {
            if self.load.queued <= self.pair.a.socket.buffered_amount(StreamId(stream)) {
                break;
            }
            self.send(stream, u32::from(stream), self.load.size)?;
            self.sent = self.sent.saturating_add(1);
        }
        Ok(())
    }

    /// The first user sends messages of the load, while there is an association.
    pub fn give(&mut self) -> Result<(), Failure> {
        if self.pair.a.socket.state() != SocketState::Connected {
            return Ok(());
        }
        for stream in 0..self.load.streams {
            self.fill(stream)?;
        }
        Ok(())
    }

    // Records a message that the second user took.
    fn note(&mut self, message: &Message) {
        if message.ppid.0 == 0 {
            self.messages = self.messages.saturating_add(1);
        } else {
            self.others = self.others.saturating_add(1);
        }
        self.last = self.pair.link.now;
    }

    /// The second user takes the messages that are ready.
    pub fn take(&mut self) -> Result<(), Failure> {
        for _ in 0..self.pair.b.socket.messages_ready_count() {
            let Some(message) = self.pair.b.socket.get_next_message() else {
                break;
            };
            self.note(&message);
        }
        self.pair.b.drain(&mut self.pair.link)
    }

    // Hands over the packets that have arrived, and returns whether there was one.
    fn deliver(&mut self) -> Result<bool, Failure> {
        let mut has_moved = false;
        for _ in 0..u64::MAX {
            match self.pair.deliver()? {
                None => break,
                Some(Side::B) if self.is_reading => self.take()?,
                Some(_) => {}
            }
            has_moved = true;
        }
        Ok(has_moved)
    }

    // Is a goal reached?
    fn is_reached(&self, goal: Goal) -> bool {
        let (a, b) = (self.pair.a.told, self.pair.b.told);
        match goal {
            Goal::Nothing => false,
            Goal::Connected(count) => count <= a.connections && count <= b.connections,
            Goal::Taken(count) => count <= self.taken(),
            Goal::Reset(count) => count <= a.resets,
            Goal::Ended => 0 < a.ends() && 0 < b.ends(),
        }
    }

    /// The moment that comes so many seconds after the present one.
    pub fn after(&self, seconds: u64) -> SocketTime {
        self.pair.link.now + Duration::from_secs(seconds)
    }

    /// Lets users act and time pass until a goal is reached or this moment has come. Returns whether the goal is
    /// reached.
    pub fn wait_until(&mut self, goal: Goal, end: SocketTime) -> Result<bool, Failure> {
        for _ in 0..u64::MAX {
            if self.is_reached(goal) || end <= self.pair.link.now {
                break;
            }
            self.give()?;
            if !self.deliver()? {
                self.pair.pass_until(end)?;
            }
        }
        Ok(self.is_reached(goal))
    }

    /// The same for so many seconds.
    pub fn wait(&mut self, goal: Goal, seconds: u64) -> Result<bool, Failure> {
        self.wait_until(goal, self.after(seconds))
    }
}
