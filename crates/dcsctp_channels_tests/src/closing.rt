//! Streams are given again once both ends have reset them (RFC 8831, section 6.7), and the association ends.

use crate::end::{End, Setting};
use crate::pair::Pair;
use dcsctp_channels::channel_calls::ChannelId;
use dcsctp_channels::channel_calls::channel_messages::channel_spec::{ChannelEnd, Role};
use std::alloc::Global;
use std::process::Abort;

// How many seeds each setting has.
const SEEDS: u64 = 6;

const ROLES: (Role, Role) = (Role::Client, Role::Server);

fn says_ten(rt: &impl Abort, end: &mut End, id: ChannelId) {
    for _ in 0..10 {
        assert!(rt; end.say(rt, id, 2000), "not sent");
    }
}

// The client's least stream serves one channel after another, each with a name of its own.
fn opens_again(rt: &impl Abort, alloc: Global, setting: &Setting) {
    let mut pair = Pair::new(rt, alloc, setting, ROLES);
    pair.connects(rt);
    for _ in 0..5 {
        let number = pair.ordered_number();
        let id = pair.a.open(rt, number);
        assert_eq!(rt; pair.a.peer.stream_of(id), Some(0));
        says_ten(rt, &mut pair.a, id);
        pair.a.close(rt, id);
        pair.passes(rt, 600_000);
        let known = pair.b.came_on(number).expect(rt, "B doesn't know it");
        assert_eq!(rt; (known.came, known.end), (10, Some(ChannelEnd::Closed)));
        assert_eq!(rt; pair.a.end_of(id), Some(ChannelEnd::Closed));
    }
    drop(pair);
}

// Until the channel is over at A, which may be before it is at B.
fn passes_until_it_is_over(rt: &impl Abort, pair: &mut Pair, id: ChannelId) {
    for _ in 0..20_000 {
        if pair.a.end_of(id).is_some() {
            return;
        }
        pair.passes(rt, 5);
    }
    rt.panic("it never ends")
}

// Both close one channel at once, and it is opened again as soon as it is free at A.
fn both_close(rt: &impl Abort, alloc: Global, setting: &Setting) {
    let mut pair = Pair::new(rt, alloc, setting, ROLES);
    pair.connects(rt);
    for _ in 0..5 {
        let (_, id, other) = pair.opens(rt);
        assert!(rt; pair.b.say(rt, other, 100), "not sent");
        pair.a.close(rt, id);
        pair.b.close(rt, other);
        passes_until_it_is_over(rt, &mut pair, id);
        let number = pair.ordered_number();
        let again = pair.a.open(rt, number);
        assert_eq!(rt; pair.a.peer.stream_of(again), Some(0));
        assert!(rt; pair.a.say(rt, again, 100), "not sent");
        pair.a.close(rt, again);
        pair.passes(rt, 600_000);
        let ends = (pair.b.end_of(other), pair.a.end_of(again));
        assert_eq!(rt; ends, (Some(ChannelEnd::Closed), Some(ChannelEnd::Closed)));
        let known = pair.b.came_on(number).expect(rt, "B doesn't know it");
        assert_eq!(rt; known.came, 1);
    }
    drop(pair);
}

// What was sent before comes, each channel has one end, and none can be opened.
fn ends(rt: &impl Abort, alloc: Global, setting: &Setting) {
    let mut pair = Pair::new(rt, alloc, setting, ROLES);
    pair.connects(rt);
    let (number, x, y) = pair.opens(rt);
    assert!(rt; pair.a.say(rt, x, 10), "not sent");
    pair.passes(rt, 1000);
    pair.a.peer.abort().expect(rt, "the end");
    pair.passes(rt, 1000);
    let ends = (pair.a.end_of(x), pair.b.end_of(y));
    assert_eq!(rt; ends, (Some(ChannelEnd::Lost), Some(ChannelEnd::Lost)));
    let known = pair.b.came_on(number).expect(rt, "B doesn't know it");
    assert_eq!(rt; known.came, 1);
    assert!(rt;
        pair.a.ended && pair.b.ended,
        "the association hasn't ended"
    );
    drop(pair);
}

#[test]
fn a_stream_serves_one_channel_after_another(rt: HostRuntime) {
    for follow_rfc in [false, true] {
        for seed in 0..SEEDS {
            let setting = Setting {
                seed,
                follow_rfc,
                loss: 50,
                is_hostile: false,
            };
            opens_again(&rt, rt.alloc(), &setting);
        }
    }
}

#[test]
fn both_ends_close_a_channel_at_once(rt: HostRuntime) {
    for follow_rfc in [false, true] {
        for seed in 0..SEEDS {
            let setting = Setting {
                seed,
                follow_rfc,
                loss: 100,
                is_hostile: false,
            };
            both_close(&rt, rt.alloc(), &setting);
        }
    }
}

#[test]
fn all_channels_end_with_the_association(rt: HostRuntime) {
    for follow_rfc in [false, true] {
        for seed in 0..SEEDS {
            let setting = Setting {
                seed,
                follow_rfc,
                loss: 0,
                is_hostile: false,
            };
            ends(&rt, rt.alloc(), &setting);
        }
    }
}
