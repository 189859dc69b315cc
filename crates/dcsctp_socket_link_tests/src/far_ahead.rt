//! Many messages on one stream: the last is half the stream sequence numbers ahead of the first. The first is
//! lost until all others have arrived (RFC 9260, sections 6.5 and 6.6).

use crate::seen::first_tsn;
use dcsctp_socket::{
    DcSctpSocket, Message, Options, PpId, SendOptions, Socket, SocketEvent, SocketTime, StreamId,
};
use rand_core::SeedableRng;
use rand_xoshiro::Xoshiro256PlusPlus;
use std::alloc::{AllocGlobal, Global};
use std::process::Abort;
use std::time::Duration;

// How many messages there are.
const COUNT: u32 = 32_769;

// How many events a socket may have at once.
const MOST_EVENTS: u32 = 1_000_000;

// How often the sockets may take turns, and how many moments a run may have.
const MOST_TURNS: u32 = 100_000;

const MOST_MOMENTS: u32 = 1_000;

// Two sockets whose packets arrive at once, except for those of A that begin with the lost TSN.
struct Pair {
    name: &'static str,
    a: Socket<Xoshiro256PlusPlus>,
    b: Socket<Xoshiro256PlusPlus>,
    lost: Option<u32>,
    now: SocketTime,

    // How many messages B has given.
    arrived: u32,
}

// Written out: a derived one would be proved at each exit of each function that has one.
impl Drop for Pair {
    fn drop(self) {
        let Pair {
            name: _,
            a: _,
            b: _,
            lost: _,
            now: _,
            arrived: _,
        } = self;
    }
}

// A closed socket. Its packets are long, so that few of them carry all messages.
fn socket(
    rt: &impl Abort,
    alloc: Global,
    interleaving: bool,
    seed: u64,
) -> Socket<Xoshiro256PlusPlus> {
    let mut options = Options::default();
    options.mtu = 12_000;
    options.heartbeat_interval = Duration::from_secs(0);
    options.max_retransmissions = None;
    options.enable_message_interleaving = interleaving;
    assert!(rt; options.is_valid(), "the options are not valid");
    let generator = Xoshiro256PlusPlus::seed_from_u64(seed);
    Socket::new(alloc, "end", &options, generator).expect(rt, "no socket")
}

// Hands the packets of one socket to the other, except for those that begin with the lost TSN. Was there one?
fn hand_over(
    rt: &impl Abort,
    from: &mut Socket<Xoshiro256PlusPlus>,
    to: &mut Socket<Xoshiro256PlusPlus>,
    lost: Option<u32>,
) -> bool {
    let mut has_sent = false;
    for _ in 0..MOST_EVENTS {
        let Some(event) = from.poll_event() else {
            return has_sent;
        };
        if let SocketEvent::SendPacket(packet) = event {
            has_sent = true;
            if lost.is_none() || first_tsn(&packet) != lost {
                to.handle_input(&packet).expect(rt, "a packet");
            }
        }
    }
    has_sent
}

// The message of this number, which is the protocol that it names.
fn message(rt: &impl Abort, alloc: Global, number: u32) -> Message {
    let payload = Vec::from_slice(alloc, &[(number % 251) as u8]).expect(rt, "no byte");
    Message::new(StreamId(1), PpId(number), payload)
}

impl Pair {
    fn new(rt: &impl Abort, alloc: Global, name: &'static str, interleaving: bool) -> Pair {
        Pair {
            name,
            a: socket(rt, alloc, interleaving, 1),
            b: socket(rt, alloc, interleaving, 2),
            lost: None,
            now: SocketTime::zero(),
            arrived: 0,
        }
    }

    // Hands packets over until neither sends.
    fn settle(&mut self, rt: &impl Abort) {
        for _ in 0..MOST_TURNS {
            let a_has_sent = hand_over(rt, &mut self.a, &mut self.b, self.lost);
            let b_has_sent = hand_over(rt, &mut self.b, &mut self.a, None);
            if !a_has_sent && !b_has_sent {
                return;
            }
        }
        rt.panic("no rest");
    }

    // The packets that begin with the first message of A are lost from now on.
    fn lose_first(&mut self, rt: &impl Abort) {
        let association = self.a.association().expect(rt, "no association");
        self.lost = Some(association.my.first_tsn);
    }

    // A sends all messages, as many in a packet as fit.
    fn send(&mut self, rt: &impl Abort, alloc: Global) {
        let mut messages = Vec::new(alloc);
        for number in 0..COUNT {
            messages
                .push(message(rt, alloc, number))
                .expect(rt, "no message");
        }
        let answer = self.a.send_many(messages, &SendOptions::default());
        assert_eq!(rt; answer.expect(rt, "the messages"), Ok(()), "the messages");
    }

    // Takes the messages that are ready, which come in the order in which they were sent.
    fn take(&mut self, rt: &impl Abort) {
        for _ in 0..self.b.messages_ready_count() {
            if let Some(message) = self.b.get_next_message() {
                assert_eq!(rt; message.ppid.0, self.arrived, "{}: a message", self.name);
                self.arrived = self.arrived.saturating_add(1);
            }
        }
    }

    // The next moment at which something happens comes.
    fn wait(&mut self, rt: &impl Abort) {
        let (a, b) = (self.a.poll_timeout(), self.b.poll_timeout());
        self.now = if b < a { b } else { a };
        assert!(rt;
            self.now < SocketTime::infinite_future(),
            "{}: at rest, {} messages have arrived",
            self.name,
            self.arrived
        );
        self.a.advance_time(self.now).expect(rt, "the time of A");
        self.b.advance_time(self.now).expect(rt, "the time of B");
        self.settle(rt);
    }

    // Waits until all messages have arrived.
    fn complete(&mut self, rt: &impl Abort) {
        for _ in 0..MOST_MOMENTS {
            self.take(rt);
            if self.arrived == COUNT {
                return;
            }
            self.wait(rt);
        }
        rt.panic("no end");
    }
}

fn runs(rt: &impl Abort, alloc: Global, name: &'static str, interleaving: bool) {
    let mut pair = Pair::new(rt, alloc, name, interleaving);
    pair.a.connect().expect(rt, "no association was begun");
    pair.settle(rt);
    pair.lose_first(rt);
    pair.send(rt, alloc);
    pair.settle(rt);
    assert_eq!(rt;
        pair.a.buffered_amount(StreamId(1)),
        0,
        "{name}: what waits to be sent"
    );
    assert_eq!(rt;
        pair.b.messages_ready_count(),
        0,
        "{name}: messages before the first"
    );
    pair.lost = None;
    pair.complete(rt);
    drop(pair);
}

#[test]
fn messages_half_the_numbers_ahead_arrive_in_order(rt: HostRuntime) {
    for (name, interleaving) in [("DATA", false), ("I-DATA", true)] {
        runs(&rt, rt.alloc(), name, interleaving);
    }
}
