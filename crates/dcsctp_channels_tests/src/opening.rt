//! Channels are opened, carry messages and are closed (RFC 8831, sections 6.4 to 6.7).

use crate::end::{End, Setting};
use crate::pair::Pair;
use dcsctp_channels::channel_calls::ChannelState;
use dcsctp_channels::channel_calls::channel_messages::channel_spec::{ChannelEnd, Role};
use std::alloc::Global;
use std::process::Abort;

// How many seeds each setting has.
const SEEDS: u64 = 6;

const ROLES: (Role, Role) = (Role::Client, Role::Server);

// A channel that is opened before there is an association waits for its stream, and nothing can be sent on it.
fn waits_for_the_association(rt: &impl Abort, end: &mut End, number: u32) {
    let id = end.open(rt, number);
    assert_eq!(rt; end.peer.state(id), ChannelState::Connecting);
    assert!(rt; !end.say(rt, id, 10), "sent too early");
}

// Messages go at once; a close while they wait lets them go first, and ends no other channel.
fn sends_and_closes(rt: &impl Abort, alloc: Global, setting: &Setting) {
    let mut pair = Pair::new(rt, alloc, setting, ROLES);
    let number = pair.ordered_number();
    waits_for_the_association(rt, &mut pair.a, number);
    pair.connects(rt);
    let x = pair.a.named(number).expect(rt, "no channel");
    let other = pair.number();
    let y = pair.b.open(rt, other);
    assert!(rt; pair.a.is_open(x) && pair.b.is_open(y), "they aren't open");
    for _ in 0..100 {
        assert!(rt; pair.a.say(rt, x, 5000), "not sent");
    }
    pair.a.close(rt, x);
    assert!(rt; !pair.a.say(rt, x, 10), "sent after the close");
    assert_eq!(rt; pair.a.peer.state(x), ChannelState::Closing);
    pair.passes(rt, 600_000);
    let known = pair.b.came_on(number).expect(rt, "B doesn't know it");
    assert_eq!(rt; (known.came, known.end), (100, Some(ChannelEnd::Closed)));
    assert_eq!(rt; pair.a.end_of(x), Some(ChannelEnd::Closed));
    assert_eq!(rt; pair.a.peer.state(x), ChannelState::Closed);
    assert!(rt; pair.b.is_open(y), "the other is closed");
    drop(pair);
}

// Each OPEN of the other end's streams is refused, and both channels end.
fn is_refused(rt: &impl Abort, alloc: Global, setting: &Setting) {
    let mut pair = Pair::new(rt, alloc, setting, (Role::Client, Role::Client));
    pair.connects(rt);
    for _ in 0..2 {
        let (one, other) = (pair.number(), pair.number());
        let x = pair.a.open(rt, one);
        let y = pair.b.open(rt, other);
        pair.passes(rt, 600_000);
        let ends = (pair.a.end_of(x), pair.b.end_of(y));
        assert_eq!(rt;
            ends,
            (Some(ChannelEnd::Refused), Some(ChannelEnd::Refused))
        );
        assert_eq!(rt; (pair.a.incoming, pair.b.incoming), (0, 0));
    }
    drop(pair);
}

#[test]
fn channels_open_carry_messages_and_close(rt: HostRuntime) {
    for follow_rfc in [false, true] {
        for seed in 0..SEEDS {
            let setting = Setting {
                seed,
                follow_rfc,
                loss: 100,
                is_hostile: false,
            };
            sends_and_closes(&rt, rt.alloc(), &setting);
        }
    }
}

#[test]
fn two_ends_of_one_role_refuse_each_other(rt: HostRuntime) {
    for follow_rfc in [false, true] {
        for seed in 0..SEEDS {
            let setting = Setting {
                seed,
                follow_rfc,
                loss: 100,
                is_hostile: false,
            };
            is_refused(&rt, rt.alloc(), &setting);
        }
    }
}
