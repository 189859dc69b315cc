//! Users open, send, close and open again at random, while packets are lost, doubled and come out of order. A channel
//! that comes in was opened by the other, so, once; what is read on it was sent on it, once; on a reliable ordered one it
//! is a prefix, and all before an end that the other's close brought (RFC 8831, section 6; RFC 8832, section 6).

use crate::checks::holds_at;
use crate::play::Play;
use dcsctp_channel_world::{ChannelWorld, EndCall};
use dcsctp_channels::channel_calls::api::DcSctpSocket;
use dcsctp_channels::channel_calls::api::types::Side;
use std::alloc::Global;
use std::process::Abort;

// How many acts a schedule has.
const ACTS: u32 = 120;

// How many moments the end of a schedule may have.
const MOMENTS: u32 = 400;

fn acts<S: DcSctpSocket + Drop>(rt: &impl Abort, play: &mut Play<S>) {
    match play.draw() % 16 {
        0 => play.opens(rt),
        1 => play.closes(rt),
        2 => play.waits(rt, 50),
        3 => play.waits(rt, 2000),
        4 | 5 | 6 => play.says(rt),
        7 | 8 | 9 | 10 | 11 => play.delivers(rt, Side::A),
        _ => play.delivers(rt, Side::B),
    }
}

// Who connects, and when: A at once, B at once, later, or never.
fn connects<S: DcSctpSocket + Drop>(rt: &impl Abort, play: &mut Play<S>) {
    let _a = play.calls(rt, Side::A, EndCall::Connect);
    let word = play.draw();
    if word % 3 == 0 {
        return;
    }
    for _ in 0..word / 3 % 4 {
        play.delivers(rt, Side::B);
        play.delivers(rt, Side::A);
    }
    let _b = play.calls(rt, Side::B, EndCall::Connect);
}

// All that is under way arrives, and all that is due happens.
fn settles<S: DcSctpSocket + Drop>(rt: &impl Abort, play: &mut Play<S>) {
    play.calms();
    for _ in 0..MOMENTS {
        for _ in 0..200u32 {
            if !play.is_busy() {
                break;
            }
            play.delivers(rt, Side::A);
            play.delivers(rt, Side::B);
        }
        if play.is_over() {
            break;
        }
        play.waits(rt, 5000);
    }
}

/// Plays a schedule to its end with two ends that aren't connected. So many of a hundred packets are lost, as many
/// doubled, and as many out of order.
pub fn plays<S: DcSctpSocket + Drop>(
    rt: &impl Abort,
    alloc: Global,
    world: ChannelWorld<S>,
    seed: u64,
    rough: u32,
) {
    let mut play = Play::new(rt, alloc, world, seed, rough);
    connects(rt, &mut play);
    for _ in 0..ACTS {
        acts(rt, &mut play);
    }
    holds_at(rt, &play, Side::A);
    holds_at(rt, &play, Side::B);
    settles(rt, &mut play);
    holds_at(rt, &play, Side::A);
    holds_at(rt, &play, Side::B);
    drop(play);
}
