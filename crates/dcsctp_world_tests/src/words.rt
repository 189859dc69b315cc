//! The random words that a generator gave, and those that the sides of a world drew.

use crate::checks::{holds, same};
use crate::worlds::{HANDSHAKE, are_connected};
use dcsctp_testing::Counting;
use dcsctp_world::socket::{Options, Word};
use dcsctp_world::{Recorded, Side, World};
use rand_core::Rng;
use std::alloc::Global;
use std::process::Abort;

#[test]
fn each_word_that_was_given_is_kept(rt: HostRuntime) {
    // 2^32 + 5, whose low half is 5
    let counting = Counting {
        next: 0x1_0000_0005,
    };
    let mut recorded = Recorded::new(rt.alloc(), counting);
    same(&rt, "at first", recorded.words(), [].as_slice());
    same(&rt, "the low half", recorded.next_u32(), 5);
    same(&rt, "the whole word", recorded.next_u64(), 0x1_0000_0006);
    let given = [Word::U32(5), Word::U64(0x1_0000_0006)];
    same(&rt, "the words", recorded.words(), given.as_slice());
    holds(&rt, "all of them", recorded.is_whole());
    same(&rt, "the generator", recorded.inner().next, 0x1_0000_0007);
}

#[test]
fn no_word_is_kept_behind_bytes(rt: HostRuntime) {
    let mut recorded = Recorded::new(rt.alloc(), Counting { next: 7 });
    same(&rt, "a word", recorded.next_u32(), 7);
    let mut bytes = [1; 3];
    recorded.fill_bytes(&mut bytes);
    same(&rt, "the low bytes of 8", bytes, [8, 0, 0]);
    holds(&rt, "not all is kept", !recorded.is_whole());
    same(&rt, "a word behind them", recorded.next_u64(), 9);
    same(&rt, "words", recorded.words(), [Word::U32(7)].as_slice());
    holds(&rt, "nor later", !recorded.is_whole());
}

// The side must show these words, and so must its generator, whose next word is this.
fn drew(rt: &impl Abort, world: &World<Counting>, side: Side, words: &[Word], next: u64) {
    same(rt, "words", world.words(side), words);
    let generator = world.socket(side).generator();
    same(rt, "words of the generator", generator.words(), words);
    holds(rt, "all of them", generator.is_whole());
    same(rt, "the next word", generator.inner().next, next);
}

// Two sockets, of which A's generator counts from 100, and B's from 200.
fn counting_world(rt: &impl Abort, alloc: Global) -> World<Counting> {
    let options = Options::default();
    assert!(rt; options.is_valid(), "the options are not valid");
    let rng_a = Counting { next: 100 };
    let rng_b = Counting { next: 200 };
    World::new(alloc, &options, &options, rng_a, rng_b).expect(rt, "no world")
}

#[test]
fn a_side_draws_a_pair_and_a_tie_tag(rt: HostRuntime) {
    let mut world = counting_world(&rt, rt.alloc());
    drew(&rt, &world, Side::A, &[], 100);
    drew(&rt, &world, Side::B, &[], 200);
    world.run(&HANDSHAKE).expect(&rt, "the handshake failed");
    are_connected(&rt, &world, "the handshake");
    let of_a = [Word::U32(100), Word::U32(101), Word::U64(102)];
    let of_b = [Word::U32(200), Word::U32(201), Word::U64(202)];
    drew(&rt, &world, Side::A, &of_a, 103);
    drew(&rt, &world, Side::B, &of_b, 203);
    drop(world);
}
