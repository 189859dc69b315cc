//! Two sockets and the link between them: packets wait in it in the order in which they were sent, each for
//! as long as the link takes.

ghost use Rattle.dcsctp_types.specs.Settings.{IsValid};

use crate::chunks::Chunks;
use crate::failure::Failure;
use crate::keeping::Kept;
use dcsctp_socket::{
    DcSctpSocket, Message, Options, SendOptions, Socket, SocketEvent, SocketFault, SocketTime,
    ZERO_CHECKSUM_ALTERNATE_ERROR_DETECTION_METHOD_LOWER_LAYER_DTLS,
};
use rand_core::{Rng, SeedableRng};
use rand_xoshiro::Xoshiro256PlusPlus;
use std::alloc::{AllocError, Global};
use std::collections::VecDeque;
use std::time::Duration;

/// A socket whose words a small generator gives.
pub type BenchSocket = Socket<Xoshiro256PlusPlus>;

/// One of two sockets.
#[derive(Clone, Copy)]
pub enum Side {
    /// The one that connects, and then sends messages.
    A,

    /// The one that is connected to.
    B,
}

// A packet under way, whom it goes to, and when it arrives.
#[derive(Drop)]
struct Parcel {
    to: Side,
    due: SocketTime,
    packet: Vec<u8>,
}

/// Packets under way, both ways.
pub struct Link {
    alloc: Global,
    flying: VecDeque<Parcel>,

    // Says which packets are lost.
    rng: Xoshiro256PlusPlus,

    /// The present moment.
    pub now: SocketTime,

    /// How long a packet is under way.
    pub delay: Duration,

    /// The chunks of data, if they are counted.
    pub chunks: Option<Chunks>,

    /// So many of a thousand packets are lost.
    pub loss: u32,

    /// How many packets were lost.
    pub lost: u64,

    /// What the second socket seems to answer to requests that are repeated, if it isn't its own answer.
    pub kept: Option<Kept>,
}

// Written out: a derived one would be proved at each exit of each function that has a link.
impl Drop for Link {
    fn drop(self) {
        let Link {
            alloc: _,
            flying: _,
            rng: _,
            now: _,
            delay: _,
            chunks: _,
            loss: _,
            lost: _,
            kept: _,
        } = self;
    }
}

impl Link {
    /// Which packets are lost, this seed says from now on.
    pub fn reseed(&mut self, seed: u64) {
        self.rng = Xoshiro256PlusPlus::seed_from_u64(seed);
    }

    // Puts a copy of a packet after all others, or loses it.
    fn put(&mut self, to: Side, packet: &[u8]) -> Result<(), AllocError> {
        if let Some(chunks) = &mut self.chunks {
            chunks.note_sent(packet)?;
        }
        if 0 < self.loss && self.rng.next_u32() % 1000 < self.loss {
            self.lost = self.lost.saturating_add(1);
            return Ok(());
        }
        let mut packet = Vec::from_slice(self.alloc, packet)?;
        if let (Side::A, Some(kept)) = (to, &mut self.kept) {
            kept.repeat(&mut packet);
        }
        let due = self.now + self.delay;
        self.flying.push_back(Parcel { to, due, packet })?;
        Ok(())
    }

    // When the packet that was sent first arrives; the last moment if none is under way.
    fn next_arrival(&self) -> SocketTime {
        match self.flying.front() {
            None => SocketTime::infinite_future(),
            Some(parcel) => parcel.due,
        }
    }

    // Takes the packet that was sent first, if it has arrived.
    fn take(&mut self) -> Result<Option<Parcel>, AllocError> {
        if self.now < self.next_arrival() {
            return Ok(None);
        }
        let parcel = self.flying.pop_front();
        if let (Some(chunks), Some(parcel)) = (&mut self.chunks, &parcel) {
            chunks.note_arrived(parcel.packet.as_slice())?;
        }
        Ok(parcel)
    }
}

/// How often a socket has reported each kind of event that isn't a packet.
#[derive(Clone, Copy)]
pub struct EventCounts {
    /// An association was made.
    pub connections: u32,

    /// An association was ended in an orderly way.
    pub closes: u32,

    /// An association was cut off.
    pub aborts: u32,

    /// Streams of the socket that were reset.
    pub resets: usize,
}

impl EventCounts {
    // It has reported nothing.
    fn new() -> EventCounts {
        EventCounts {
            connections: 0,
            closes: 0,
            aborts: 0,
            resets: 0,
        }
    }

    // Counts an event.
    fn note(&mut self, event: &SocketEvent) {
        match event {
            SocketEvent::OnConnected() => self.connections = self.connections.saturating_add(1),
            SocketEvent::OnClosed() => self.closes = self.closes.saturating_add(1),
            SocketEvent::OnAborted(..) => self.aborts = self.aborts.saturating_add(1),
            SocketEvent::OnStreamsResetPerformed(streams) => {
                self.resets = self.resets.saturating_add(streams.len());
            }
            _ => {}
        }
    }

    /// How often an association has ended.
    pub fn ends(&self) -> u32 {
        self.closes.saturating_add(self.aborts)
    }
}

// Why an event makes a run fail that may have no error and no end.
fn failure_of(event: &SocketEvent) -> Option<Failure> {
    match event {
        SocketEvent::OnError(kind, _) => Some(Failure::Reported(*kind)),
        SocketEvent::OnClosed() | SocketEvent::OnAborted(..) => Some(Failure::Ended),
        _ => None,
    }
}

/// A socket, and what it has reported.
#[derive(Drop)]
pub struct End {
    pub socket: BenchSocket,

    // Whom its packets go to.
    peer: Side,

    // May it report an error, or an end?
    bears_ends: bool,

    /// What it has reported besides packets.
    pub told: EventCounts,

    /// How many packets it has sent.
    pub packets: u64,
}

// The earlier of two moments.
fn earlier(first: SocketTime, second: SocketTime) -> SocketTime {
    if second < first { second } else { first }
}

// Gives the memory of a packet back to the socket.
fn give_back(socket: &BenchSocket, event: SocketEvent) {
    if let SocketEvent::SendPacket(packet) = event {
        socket.take_back(packet);
    }
}

impl End {
    // A closed socket, whose words come from a seed, and whose packets go to the other side.
    fn new(alloc: Global, peer: Side, options: &Options, seed: u64) -> Result<End, SocketFault>
        requires { IsValid options.now }
    {
        let rng = Xoshiro256PlusPlus::seed_from_u64(seed);
        Ok(End {
            socket: Socket::new(alloc, "bench", options, rng)?,
            peer,
            bears_ends: false,
            told: EventCounts::new(),
            packets: 0,
        })
    }

    // Counts an event, or puts its packet on the link.
    fn note(&mut self, link: &mut Link, event: &SocketEvent) -> Result<(), Failure> {
        if let SocketEvent::SendPacket(packet) = event {
            self.packets = self.packets.saturating_add(1);
            link.put(self.peer, packet.as_slice())?;
            return Ok(());
        }
        self.told.note(event);
        match failure_of(event) {
            Some(failure) if !self.bears_ends => Err(failure),
            _ => Ok(()),
        }
    }

    /// Takes all events. It is called after each call of the socket.
    pub fn drain(&mut self, link: &mut Link) -> Result<(), Failure> {
        for _ in 0..u64::MAX {
            let Some(event) = self.socket.poll_event() else {
                break;
            };
            self.note(link, &event)?;
            give_back(&self.socket, event);
        }
        Ok(())
    }

    /// Sends a message, and takes all events.
    pub fn send(
        &mut self,
        link: &mut Link,
        message: Message,
        options: &SendOptions,
    ) -> Result<(), Failure> {
        let answer = self.socket.send(message, options)?;
        answer.map_err(Failure::Refused)?;
        self.drain(link)
    }

    /// Begins to connect to the other side.
    pub fn connect(&mut self, link: &mut Link) -> Result<(), Failure> {
        self.socket.connect()?;
        self.drain(link)
    }

    // Handles a packet.
    fn take(&mut self, link: &mut Link, packet: &[u8]) -> Result<(), Failure> {
        self.socket.handle_input(packet)?;
        self.drain(link)
    }
}

/// Two sockets, and the link between them.
#[derive(Drop)]
pub struct Pair {
    pub a: End,
    pub b: End,
    pub link: Link,
}

impl Pair {
    /// Two closed sockets with the default options, and a link that loses nothing. If asked, they offer to go
    /// without checksums (RFC 9653).
    pub fn new(alloc: Global, without_checksum: bool) -> Result<Pair, Failure> {
        let mut options = Options::default();
        if without_checksum {
            options.zero_checksum_alternate_error_detection_method =
                ZERO_CHECKSUM_ALTERNATE_ERROR_DETECTION_METHOD_LOWER_LAYER_DTLS;
        }
        Pair::with(alloc, &options)
    }

    /// Two closed sockets without checksums that interleave messages (RFC 8260) if the flag says so, and a
    /// link that loses nothing.
    pub fn strained(alloc: Global, is_interleaved: bool) -> Result<Pair, Failure> {
        let mut options = Options::default();
        options.zero_checksum_alternate_error_detection_method =
            ZERO_CHECKSUM_ALTERNATE_ERROR_DETECTION_METHOD_LOWER_LAYER_DTLS;
        options.enable_message_interleaving = is_interleaved;
        Pair::with(alloc, &options)
    }

    /// Two closed sockets with these options, and a link that loses nothing.
    pub fn with(alloc: Global, options: &Options) -> Result<Pair, Failure> {
        if !options.is_valid() {
            return Err(Failure::NotConnected);
        }
        let a = End::new(alloc, Side::B, options, 1)?;
        let b = End::new(alloc, Side::A, options, 2)?;
        let link = Link {
            alloc,
            flying: VecDeque::new(alloc),
            rng: Xoshiro256PlusPlus::seed_from_u64(7),
            now: SocketTime::zero(),
            delay: Duration::from_millis(0),
            chunks: None,
            loss: 0,
            lost: 0,
            kept: None,
        };
        Ok(Pair { a, b, link })
    }

    /// Both sockets alone.
    pub fn into_sockets(self) -> (BenchSocket, BenchSocket) {
        (self.a.socket, self.b.socket)
    }

    /// Connects the two.
    pub fn connect(&mut self) -> Result<(), Failure> {
        self.a.connect(&mut self.link)?;
        for _ in 0..u64::MAX {
            if self.deliver()?.is_none() {
                break;
            }
        }
        if self.a.told.connections == 0 || self.b.told.connections == 0 {
            return Err(Failure::NotConnected);
        }
        Ok(())
    }

    /// From now on errors and ends are counted, and no run fails by them.
    pub fn bear_ends(&mut self) {
        self.a.bears_ends = true;
        self.b.bears_ends = true;
    }

    /// Hands over the packet that was sent first, and returns to whom; `None` if none has arrived.
    pub fn deliver(&mut self) -> Result<Option<Side>, Failure> {
        let Some(parcel) = self.link.take()? else {
            return Ok(None);
        };
        match parcel.to {
            Side::A => self.a.take(&mut self.link, parcel.packet.as_slice())?,
            Side::B => self.b.take(&mut self.link, parcel.packet.as_slice())?,
        }
        Ok(Some(parcel.to))
    }

    // When something happens next, if no packet is sent before.
    fn next_moment(&self) -> SocketTime {
        let timeout = earlier(self.a.socket.poll_timeout(), self.b.socket.poll_timeout());
        earlier(timeout, self.link.next_arrival())
    }

    /// Lets time pass for both, until something happens.
    pub fn pass(&mut self) -> Result<(), Failure> {
        self.pass_until(SocketTime::infinite_future())
    }

    /// Lets this time pass, and hands over what is sent.
    pub fn rest(&mut self, time: Duration) -> Result<(), Failure> {
        let end = self.link.now + time;
        for _ in 0..u64::MAX {
            if self.deliver()?.is_none() {
                if end <= self.link.now {
                    break;
                }
                self.pass_until(end)?;
            }
        }
        Ok(())
    }

    /// Lets time pass for both, until something happens or this moment has come.
    pub fn pass_until(&mut self, end: SocketTime) -> Result<(), Failure> {
        let now = earlier(self.next_moment(), end);
        self.link.now = now;
        self.a.socket.advance_time(now)?;
        self.a.drain(&mut self.link)?;
        self.b.socket.advance_time(now)?;
        self.b.drain(&mut self.link)
    }
}
