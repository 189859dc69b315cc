//! A peer that sends any control message, message and reset on any stream. At our end each channel has one end, nothing
//! is told of it after that, and all end with the association.

use crate::end::{End, Setting, closed_socket};
use crate::link::Link;
use dcsctp_channels::channel_calls::ChannelId;
use dcsctp_channels::channel_calls::channel_messages::channel_spec::Role;
use dcsctp_socket::{
    DcSctpSocket, Message, PpId, SendOptions, Socket, SocketEvent, SocketTime, StreamId,
};
use rand_core::{Rng, SeedableRng};
use rand_xoshiro::Xoshiro256PlusPlus;
use std::alloc::Global;
use std::process::Abort;
use std::time::Duration;

// How many seeds each setting has, and how many acts each run.
const SEEDS: u64 = 6;

const ACTS: u32 = 600;

// How many events the peer may have at once.
const MOST_EVENTS: u32 = 100_000;

// The peer: a socket without channels.
struct Raw {
    alloc: Global,
    socket: Socket<Xoshiro256PlusPlus>,
    link: Link,
}

// Written out: a derived one would be proved at each exit of each function that has one.
impl Drop for Raw {
    fn drop(self) {
        let Raw {
            alloc: _,
            socket: _,
            link: _,
        } = self;
    }
}

impl Raw {
    fn drain(&mut self, rt: &impl Abort, now: SocketTime) {
        for _ in 0..MOST_EVENTS {
            let Some(event) = self.socket.poll_event() else {
                return;
            };
            if let SocketEvent::SendPacket(packet) = event {
                self.link.put(rt, now, packet);
            }
        }
    }

    // Takes all messages.
    fn drop_messages(&mut self) {
        for _ in 0..MOST_EVENTS {
            if self.socket.get_next_message().is_none() {
                break;
            }
        }
    }

    // Takes the packets that have arrived, and all messages.
    fn step(&mut self, rt: &impl Abort, from: &mut Link, now: SocketTime) {
        self.socket.advance_time(now).expect(rt, "the time");
        for _ in 0..MOST_EVENTS {
            let Some(packet) = from.take(now) else {
                break;
            };
            self.socket
                .handle_input(packet.as_slice())
                .expect(rt, "a packet");
            self.drop_messages();
        }
        self.drain(rt, now);
    }

    fn sends(&mut self, rt: &impl Abort, stream: u16, ppid: u32, bytes: &[u8]) {
        let payload = Vec::from_slice(self.alloc, bytes).expect(rt, "bytes");
        let message = Message::new(StreamId(stream), PpId(ppid), payload);
        let _answer = self
            .socket
            .send(message, &SendOptions::default())
            .expect(rt, "a message");
    }

    fn resets(&mut self, rt: &impl Abort, stream: u16) {
        let _answer = self
            .socket
            .reset_streams(&[StreamId(stream)])
            .expect(rt, "a reset");
    }

    // An OPEN of any channel type, whole or cut off (RFC 8832, section 5.1).
    fn sends_open(&mut self, rt: &impl Abort, stream: u16, word: u32) {
        let kind = if word % 5 == 0 {
            0x80
        } else {
            (word % 7) as u8
        };
        let last = (word / 8 % 9) as u8;
        let open = [3, kind, 1, 0, 0, 0, 0, 0, 0, 4, 0, 0, 0, 0, 0, last];
        let length = if word / 128 % 4 == 0 {
            (word / 512 % 17) as usize
        } else {
            16
        };
        if length != 0 {
            self.sends(rt, stream, 50, &open[..length]);
        }
    }
}

// So many times 20 milliseconds pass.
fn passes(
    rt: &impl Abort,
    end: &mut End,
    raw: &mut Raw,
    now: SocketTime,
    steps: u32,
) -> SocketTime {
    let mut moment = now;
    for _ in 0..steps {
        moment = moment + Duration::from_millis(20);
        end.drain(rt, moment);
        end.step(rt, &mut raw.link, moment);
        raw.step(rt, &mut end.link, moment);
    }
    moment
}

// The user opens a channel, closes one or sends on one.
fn acts(rt: &impl Abort, end: &mut End, ids: &mut Vec<ChannelId>, what: u32, word: u32) {
    let count = ids.len();
    if what == 0 || count == 0 {
        let id = end.open(rt, word);
        ids.push(id).expect(rt, "no room");
        return;
    }
    let id = ids[word as usize % count];
    if what == 1 {
        end.close(rt, id);
    } else {
        let _is_sent = end.say(rt, id, 300);
    }
}

// The peer sends an OPEN, an ACK, a message with any identifier, or resets a stream.
fn assails(rt: &impl Abort, raw: &mut Raw, what: u32, word: u32) {
    let stream = (word / 65_536 % 12) as u16;
    match what {
        3 => raw.resets(rt, stream),
        4 | 5 => raw.sends_open(rt, stream, word),
        6 => raw.sends(rt, stream, 50, &[2, 0, 0, 0]),
        _ => raw.sends(rt, stream, 50 + word % 9, &[7, 7, 7]),
    }
}

fn all_are_over(rt: &impl Abort, end: &End) {
    assert!(rt;
        end.ended && end.peer.stream_use() == 0,
        "the association lasts"
    );
    for known in end.known.values() {
        assert!(rt; known.end.is_some(), "a channel lasts");
    }
}

fn plays(rt: &impl Abort, alloc: Global, setting: &Setting) {
    let mut end = End::new(rt, alloc, setting, false, Role::Client);
    let mut raw = Raw {
        alloc,
        socket: closed_socket(rt, alloc, setting, true),
        link: Link::new(alloc, setting.seed, setting.loss),
    };
    let mut ids = Vec::new(alloc);
    let mut words = Xoshiro256PlusPlus::seed_from_u64(setting.seed);
    end.peer.connect().expect(rt, "no association was begun");
    let mut now = passes(rt, &mut end, &mut raw, SocketTime::zero(), 2000);
    assert!(rt; end.connected, "there is no association");
    for _ in 0..ACTS {
        let what = words.next_u32() % 11;
        let word = words.next_u32();
        if what < 3 {
            acts(rt, &mut end, &mut ids, what, word);
        } else if what < 8 {
            assails(rt, &mut raw, what, word);
        } else {
            now = passes(rt, &mut end, &mut raw, now, word % 5);
        }
    }
    now = passes(rt, &mut end, &mut raw, now, 500);
    end.peer.abort().expect(rt, "the end");
    end.drain(rt, now);
    all_are_over(rt, &end);
    drop(ids);
    drop(raw);
    drop(end);
}

#[test]
fn a_peer_may_send_anything(rt: HostRuntime) {
    for follow_rfc in [false, true] {
        for seed in 0..SEEDS {
            let setting = Setting {
                seed,
                follow_rfc,
                loss: 20,
                is_hostile: true,
            };
            plays(&rt, rt.alloc(), &setting);
        }
    }
}
