//! One end: its channels, and what its user has sent and was told.

use crate::link::Link;
use dcsctp_channels::Channels;
use dcsctp_channels::channel_calls::channel_messages::channel_spec::{ChannelEnd, Role};
use dcsctp_channels::channel_calls::{
    ChannelEvent, ChannelId, ChannelOptions, ChannelState, Limits,
};
use dcsctp_socket::{Options, Socket, SocketTime};
use rand_core::SeedableRng;
use rand_xoshiro::Xoshiro256PlusPlus;
use std::alloc::Global;
use std::collections::BTreeMap;
use std::process::Abort;
use std::time::Duration;

/// How a run is set.
#[derive(Clone, Copy)]
pub struct Setting {
    pub seed: u64,
    pub follow_rfc: bool,

    /// How many of a thousand packets are lost.
    pub loss: u32,

    /// May the peer say anything?
    pub is_hostile: bool,
}

/// A channel as an end knows it: the number that its label says, how many messages came and were sent.
#[derive(Clone, Copy)]
pub struct Known {
    pub number: u32,
    pub came: u32,
    pub sent: u32,
    pub end: Option<ChannelEnd>,
}

/// An end with what belongs to it.
pub struct End {
    alloc: Global,
    pub peer: Channels<Socket<Xoshiro256PlusPlus>>,
    pub link: Link,
    pub known: BTreeMap<u64, Known>,

    /// What its user was told: is there an association, has it ended, and how many channels has the peer opened?
    pub connected: bool,
    pub ended: bool,
    pub incoming: u32,

    /// The last of these.
    pub last_in: Option<ChannelId>,
    is_hostile: bool,
}

// Written out: a derived one would be proved at each exit of each function that has one.
impl Drop for End {
    fn drop(self) {
        let End {
            alloc: _,
            peer: _,
            link: _,
            known: _,
            connected: _,
            ended: _,
            incoming: _,
            last_in: _,
            is_hostile: _,
        } = self;
    }
}

// How many events an end may have at once.
const MOST_EVENTS: u32 = 100_000;

/// The number of a channel whose number leaves a rest of 0 by 3 is of an unordered one.
pub fn is_ordered(number: u32) -> bool {
    number % 3 != 0
}

/// A closed socket. The seeds of two ends follow one another: both or none interleave messages.
pub fn closed_socket(
    rt: &impl Abort,
    alloc: Global,
    setting: &Setting,
    is_second: bool,
) -> Socket<Xoshiro256PlusPlus> {
    let mut options = Options::default();
    options.follow_rfc = setting.follow_rfc;
    options.enable_message_interleaving = setting.seed % 2 == 0;
    options.heartbeat_interval = Duration::from_secs(0);
    options.max_retransmissions = None;
    options.max_init_retransmits = None;
    assert!(rt; options.is_valid(), "the options are not valid");
    let seed = setting
        .seed
        .wrapping_mul(2)
        .wrapping_add(u64::from(is_second));
    let generator = Xoshiro256PlusPlus::seed_from_u64(seed);
    Socket::new(alloc, "end", &options, generator).expect(rt, "no socket")
}

impl End {
    /// An end that isn't connected.
    pub fn new(
        rt: &impl Abort,
        alloc: Global,
        setting: &Setting,
        is_second: bool,
        role: Role,
    ) -> End {
        let limits = Limits {
            channels: 1000,
            text: 1024,
            message: 65_536,
        };
        let below = closed_socket(rt, alloc, setting, is_second);
        let mut peer = Channels::new(alloc, below, limits);
        peer.set_role(role).expect(rt, "no role");
        let seed = setting
            .seed
            .wrapping_mul(2)
            .wrapping_add(u64::from(is_second));
        End {
            alloc,
            peer,
            link: Link::new(alloc, seed, setting.loss),
            known: BTreeMap::new(alloc),
            connected: false,
            ended: false,
            incoming: 0,
            last_in: None,
            is_hostile: setting.is_hostile,
        }
    }

    // ---- what its user does

    /// Opens a channel whose label is its number.
    pub fn open(&mut self, rt: &impl Abort, number: u32) -> ChannelId {
        let mut options = ChannelOptions::new(self.alloc, "").expect(rt, "no options");
        options
            .label
            .extend_from_slice(&number.to_be_bytes())
            .expect(rt, "no label");
        options.delivery.ordered = is_ordered(number);
        let answer = self.peer.open(&options).expect(rt, "a channel");
        drop(options);
        let id = answer.expect(rt, "the channel is refused");
        self.knows(rt, id, number);
        id
    }

    fn knows(&mut self, rt: &impl Abort, id: ChannelId, number: u32) {
        let known = Known {
            number,
            came: 0,
            sent: 0,
            end: None,
        };
        assert!(rt; !self.known.contains_key(&id.0), "a name is given twice");
        let inserted: Result<_, _> = self.known.insert(id.0, known);
        assert!(rt; inserted.is_ok(), "no room");
    }

    /// Sends the next message of a channel, if that is open: its number, that of the message, and more bytes. Was it
    /// sent?
    pub fn say(&mut self, rt: &impl Abort, id: ChannelId, size: usize) -> bool {
        let Some(known) = self.known.get_mut(&id.0) else {
            return false;
        };
        let mut bytes = Vec::from_slice(self.alloc, &known.number.to_be_bytes()).expect(
            rt, "bytes",
        );
        bytes
            .extend_from_slice(&known.sent.to_be_bytes())
            .expect(rt, "bytes");
        bytes.resize(size, 7u8).expect(rt, "bytes");
        let answer = self
            .peer
            .send(id, false, bytes.as_slice())
            .expect(rt, "a message");
        drop(bytes);
        if answer.is_ok() {
            known.sent = known.sent.saturating_add(1);
        }
        answer.is_ok()
    }

    /// Closes a channel.
    pub fn close(&mut self, rt: &impl Abort, id: ChannelId) {
        self.peer.close(id).expect(rt, "a close");
    }

    // ---- what its user is told

    fn hears(&mut self, rt: &impl Abort, id: ChannelId, bytes: &[u8]) {
        let known = self
            .known
            .get_mut(&id.0)
            .expect(rt, "a message on no channel");
        assert!(rt; known.end.is_none(), "a message after the end");
        if !self.is_hostile {
            let number = known.number.to_be_bytes();
            assert!(rt; bytes.starts_with(&number), "a message of another channel");
            if is_ordered(known.number) {
                let place = known.came.to_be_bytes();
                assert!(rt; bytes[4..].starts_with(&place), "a gap, or a message twice");
            }
        }
        known.came = known.came.saturating_add(1);
    }

    fn is_told_of(&mut self, rt: &impl Abort, id: ChannelId, options: &ChannelOptions) {
        let label = options.label.as_slice();
        assert!(rt; label.len() == 4, "another label");
        let number = u32::from_be_bytes([label[0], label[1], label[2], label[3]]);
        let is_so = options.protocol.is_empty() && options.delivery.ordered == is_ordered(number);
        assert!(rt; self.is_hostile || is_so, "another channel");
        self.knows(rt, id, number);
        self.incoming = self.incoming.saturating_add(1);
        self.last_in = Some(id);
    }

    fn is_over(&mut self, rt: &impl Abort, id: ChannelId, end: ChannelEnd) {
        let known = self
            .known
            .get_mut(&id.0)
            .expect(rt, "the end of no channel");
        assert!(rt; known.end.is_none(), "two ends");
        known.end = Some(end);
    }

    // Nothing is told of a channel that isn't there, nor after its end.
    fn is_there(&self, rt: &impl Abort, id: ChannelId) {
        let known = self.known.get(&id.0).expect(rt, "no such channel");
        assert!(rt; known.end.is_none(), "told after the end");
    }

    fn is_told(&mut self, rt: &impl Abort, now: SocketTime, event: ChannelEvent) {
        match event {
            ChannelEvent::SendPacket(packet) => self.link.put(rt, now, packet),
            ChannelEvent::Connected() => self.connected = true,
            ChannelEvent::Ended() => self.ended = true,
            ChannelEvent::Opened(id) => self.is_there(rt, id),
            ChannelEvent::Incoming(id, options) => self.is_told_of(rt, id, &options),
            ChannelEvent::Message(id, _, bytes) => self.hears(rt, id, bytes.as_slice()),
            ChannelEvent::BufferedAmountLow(id) => self.is_there(rt, id),
            ChannelEvent::Closed(id, end) => self.is_over(rt, id, end),
        }
    }

    /// Takes all events.
    pub fn drain(&mut self, rt: &impl Abort, now: SocketTime) {
        for _ in 0..MOST_EVENTS {
            let Some(event) = self.peer.poll_event().expect(rt, "an event") else {
                return;
            };
            self.is_told(rt, now, event);
        }
    }

    /// Advances the clock, hands in the packets of the other end that have arrived, and takes all events after each.
    pub fn step(&mut self, rt: &impl Abort, from: &mut Link, now: SocketTime) {
        self.peer.advance_time(now).expect(rt, "the time");
        self.drain(rt, now);
        for _ in 0..MOST_EVENTS {
            let Some(packet) = from.take(now) else {
                return;
            };
            self.peer
                .handle_input(packet.as_slice())
                .expect(rt, "a packet");
            self.drain(rt, now);
        }
    }

    // ---- what it knows

    /// The end of a channel.
    pub fn end_of(&self, id: ChannelId) -> Option<ChannelEnd> {
        self.known.get(&id.0)?.end
    }

    /// Is a channel open?
    pub fn is_open(&self, id: ChannelId) -> bool {
        self.peer.state(id) == ChannelState::Open
    }

    /// How many messages came on the channel of this number, and whether it has ended; none where it isn't known.
    pub fn came_on(&self, number: u32) -> Option<Known> {
        for known in self.known.values() {
            if known.number == number {
                return Some(*known);
            }
        }
        None
    }

    /// The channel of this number.
    pub fn named(&self, number: u32) -> Option<ChannelId> {
        for (id, known) in self.known.iter() {
            if known.number == number {
                return Some(ChannelId(*id));
            }
        }
        None
    }
}
