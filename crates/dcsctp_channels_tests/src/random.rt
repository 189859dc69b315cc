//! Both users open, send and close at random. What one sends on a channel that the other doesn't close comes whole, in
//! order where the channel is ordered, and no channel ends that nobody closed (RFC 8831, sections 6.6 and 6.7).

use crate::end::{End, Setting};
use crate::pair::Pair;
use dcsctp_channels::channel_calls::ChannelId;
use dcsctp_channels::channel_calls::channel_messages::channel_spec::Role;
use std::alloc::Global;
use std::process::Abort;

// How many seeds each setting has.
const SEEDS: u64 = 6;

// How many acts a run has.
const ACTS: u32 = 300;

// A channel, who has opened it, and whether its opener and its acceptor have closed it.
#[derive(Clone, Copy)]
struct Opened {
    id: ChannelId,
    number: u32,
    is_of_a: bool,
    closed: (bool, bool),
}

fn opens(rt: &impl Abort, pair: &mut Pair, is_of_a: bool, all: &mut Vec<Opened>) {
    let number = pair.number();
    let end = if is_of_a { &mut pair.a } else { &mut pair.b };
    let id = end.open(rt, number);
    let closed = (false, false);
    all.push(Opened {
        id,
        number,
        is_of_a,
        closed,
    })
    .expect(rt, "no room");
}

// Its opener, or its acceptor if that knows it, closes a channel.
fn closes(rt: &impl Abort, pair: &mut Pair, opened: &mut Opened, by_opener: bool) {
    let end = if opened.is_of_a == by_opener {
        &mut pair.a
    } else {
        &mut pair.b
    };
    if by_opener {
        end.close(rt, opened.id);
        opened.closed.0 = true;
    } else if let Some(id) = end.named(opened.number) {
        end.close(rt, id);
        opened.closed.1 = true;
    }
}

// The same, but it sends a message, if the channel is open.
fn says(rt: &impl Abort, pair: &mut Pair, opened: &Opened, by_opener: bool) {
    let end = if opened.is_of_a == by_opener {
        &mut pair.a
    } else {
        &mut pair.b
    };
    let id = if by_opener {
        Some(opened.id)
    } else {
        end.named(opened.number)
    };
    if let Some(id) = id {
        let _is_sent = end.say(rt, id, 1500);
    }
}

fn acts(rt: &impl Abort, pair: &mut Pair, all: &mut Vec<Opened>) {
    let what = pair.draw() % 9;
    let word = pair.draw() as usize;
    match what {
        0 => opens(rt, pair, true, all),
        1 => opens(rt, pair, false, all),
        2 => pair.passes(rt, word as u64 % 200),
        _ => {
            let count = all.len();
            if count == 0 {
                return;
            }
            let opened = &mut all[word % count];
            if what < 6 {
                says(rt, pair, opened, what % 2 == 0);
            } else {
                closes(rt, pair, opened, what % 2 == 0);
            }
        }
    }
}

// A channel that nobody has closed lasts.
fn is_still_there(rt: &impl Abort, pair: &Pair, opened: &Opened) {
    if opened.closed == (false, false) {
        let end = if opened.is_of_a { &pair.a } else { &pair.b };
        assert_eq!(rt; end.end_of(opened.id), None, "channel {}", opened.number);
    }
}

// It has ended at its opener. All that this has sent came, unless the acceptor has closed it.
fn is_over(rt: &impl Abort, opened: &Opened, end: &End, other: &End) {
    let known = end.came_on(opened.number).expect(rt, "it isn't known");
    assert!(rt; known.end.is_some(), "channel {} lasts", opened.number);
    if !opened.closed.1 {
        let came = match other.came_on(opened.number) {
            Some(known) => known.came,
            None => 0,
        };
        assert_eq!(rt; came, known.sent, "channel {}", opened.number);
    }
}

fn are_over(rt: &impl Abort, pair: &mut Pair, all: &mut Vec<Opened>) {
    pair.passes(rt, 100_000);
    for opened in all.iter_mut() {
        is_still_there(rt, pair, opened);
        closes(rt, pair, opened, true);
    }
    pair.passes(rt, 3_000_000);
    for opened in all.iter() {
        if opened.is_of_a {
            is_over(rt, opened, &pair.a, &pair.b);
        } else {
            is_over(rt, opened, &pair.b, &pair.a);
        }
    }
}

fn plays(rt: &impl Abort, alloc: Global, setting: &Setting) {
    let mut pair = Pair::new(rt, alloc, setting, (Role::Client, Role::Server));
    let mut all = Vec::new(alloc);
    pair.connects(rt);
    for _ in 0..ACTS {
        acts(rt, &mut pair, &mut all);
    }
    are_over(rt, &mut pair, &mut all);
    drop(all);
    drop(pair);
}

#[test]
fn whatever_users_do_all_arrives_and_ends(rt: HostRuntime) {
    for follow_rfc in [false, true] {
        for seed in 0..SEEDS {
            let setting = Setting {
                seed,
                follow_rfc,
                loss: 150,
                is_hostile: false,
            };
            plays(&rt, rt.alloc(), &setting);
        }
    }
}
