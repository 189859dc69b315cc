//! The twin of a world: another one with the same options and generators, which went through the same acts before, with
//! enough memory. A table says what the twin shows, and what the world shows is compared with the twin.

use crate::deeds::Row;
use crate::taking::{stays_failed, takes};
use crate::views::{Lengths, VIEWS, answers, are_fronts, lengths, lengths_of, other};
use dcsctp_testing::{Counting, is_told};
use dcsctp_world::socket::{Pair, Phase, SocketEvent, SocketFault, Word};
use dcsctp_world::{Act, Side, World};
use std::alloc::Global;
use std::process::Abort;

// A new world shows that there is no association, and nothing else.
const NEW: Lengths = [[0, 0, 1, 0, 0, 0, 0, 0]; 2];

// What the sides draw in a handshake, and nothing else: a first TSN, a tag less 1, and a tie tag.
const WORDS_OF_A: [Word; 3] = [Word::U32(100), Word::U32(101), Word::U64(102)];

const WORDS_OF_B: [Word; 3] = [Word::U32(200), Word::U32(201), Word::U64(202)];

const PAIR_OF_A: Pair = Pair {
    tag: 102,
    first_tsn: 100,
};

const PAIR_OF_B: Pair = Pair {
    tag: 202,
    first_tsn: 200,
};

/// The twin, how many entries each of its views had before its first act and after each, and the table of its acts.
#[derive(Clone, Copy)]
pub struct Twin<'a> {
    pub world: &'a World<Counting>,
    pub noted: &'a [Lengths],
    pub rows: &'a [Row],
}

impl Twin<'_> {
    // How many entries each of its views had after so many acts.
    fn lengths_after(&self, rt: &impl Abort, acts: usize) -> Lengths {
        *self.noted.get(acts).expect(rt, "the table has no such act")
    }

    // Each view of this side of the world is the first part of the twin's, with that many entries at least and at most.
    fn has_front(
        &self,
        rt: &impl Abort,
        world: &World<Counting>,
        side: Side,
        (least, most): ([usize; 8], [usize; 8]),
    ) {
        let shown = lengths_of(world, side);
        let fronts = are_fronts(world, self.world, side);
        for place in 0..8 {
            let (view, found) = (VIEWS[place], shown[place]);
            let (least, most) = (least[place], most[place]);
            assert!(rt;
                least <= found && found <= most,
                "{view} of {side:?}: {found} in place of {least} to {most}"
            );
            assert!(rt; fronts[place], "{view} of {side:?}: another entry");
        }
    }

    /// The world shows what the twin showed after so many acts, and nothing else. If it failed in the next act, each
    /// view may have more: the first entries that this act brought the twin.
    pub fn is_followed(&self, rt: &impl Abort, world: &World<Counting>, acts: usize) {
        assert_eq!(rt; world.acts().len(), acts, "acts");
        let is_front = self.world.acts().starts_with(world.acts());
        assert!(rt; is_front, "one of {acts} acts is another");
        let next = acts.saturating_add(usize::from(world.has_failed()));
        let [least_of_a, least_of_b] = self.lengths_after(rt, acts);
        let [most_of_a, most_of_b] = self.lengths_after(rt, next);
        self.has_front(rt, world, Side::A, (least_of_a, most_of_a));
        self.has_front(rt, world, Side::B, (least_of_b, most_of_b));
    }

    /// The world has failed, and applies none of the twin's steps: it doesn't even copy one.
    pub fn is_not_followed(&self, rt: &impl Abort, world: &mut World<Counting>) {
        for act in self.world.acts() {
            if let Act::Step(step) = act {
                let fault = world.apply(step).err();
                assert_eq!(rt; fault, Some(SocketFault::Failed), "a step of the twin");
            }
        }
    }

    /// The sockets of the world have come as far as the twin's.
    pub fn is_reached(&self, rt: &impl Abort, world: &World<Counting>) {
        for side in [Side::A, Side::B] {
            let shown = answers(world, side);
            assert_eq!(rt; shown, answers(self.world, side), "the socket of {side:?}");
        }
    }
}

// The phase of a side's association after the last act.
fn phase(world: &World<Counting>, side: Side) -> Option<Phase> {
    let association = (*world.associations(side).last()?)?;
    Some(association.phase)
}

// The side's events, from this one on, are those of its row.
fn tells(rt: &impl Abort, row: &Row, events: &[SocketEvent]) {
    let (side, deed, told, _) = row;
    assert_eq!(rt; events.len(), told.len(), "{side:?} {deed:?}: {events:?}");
    for (event, told) in events.iter().zip(*told) {
        assert!(rt; is_told(event, told), "{side:?} {deed:?}: {event:?}");
    }
}

// Applies the act of a row to the twin, which must show what the row says. Returns whether no allocation failed.
fn takes_first(rt: &impl Abort, alloc: Global, twin: &mut World<Counting>, row: &Row) -> bool {
    let (side, deed, _, after) = row;
    let there = other(*side);
    let earlier = twin.events(*side).len();
    let rest = (twin.events(there).len(), phase(twin, there));
    if !takes(rt, alloc, twin, row) {
        if twin.has_failed() {
            stays_failed(rt, alloc, twin);
        }
        return false;
    }
    tells(rt, row, twin.events(*side).get(earlier..).unwrap_or(&[]));
    assert_eq!(rt; phase(twin, *side), *after, "{side:?} {deed:?}");
    let left = (twin.events(there).len(), phase(twin, there));
    assert_eq!(rt; left, rest, "{side:?} {deed:?}: the other side");
    true
}

// The packets of a side are those among its events, in order.
fn has_packets(rt: &impl Abort, twin: &World<Counting>, side: Side) {
    let mut rest = twin.packets(side).iter();
    for event in twin.events(side) {
        if let SocketEvent::SendPacket(told) = event {
            let packet = rest.next().expect(rt, "an event has no packet");
            assert_eq!(rt; packet.as_slice(), told.as_slice(), "{side:?}");
        }
    }
    assert!(rt; rest.next().is_none(), "a packet of {side:?} has no event");
}

// What the side drew, and what its generator kept.
fn drew(rt: &impl Abort, twin: &World<Counting>, side: Side, words: &[Word], pair: Pair) {
    let given = twin.socket(side).generator().words();
    assert_eq!(rt; twin.words(side), words, "words of {side:?}");
    assert_eq!(rt; given, words, "words of the generator of {side:?}");
    assert_eq!(rt; twin.pairs(side), [pair].as_slice(), "pairs of {side:?}");
}

/// Applies the acts of a table to the twin, and records how many entries each view has before each, and at the end.
/// Returns whether no allocation failed.
pub fn goes_first(
    rt: &impl Abort,
    alloc: Global,
    twin: &mut World<Counting>,
    noted: &mut Vec<Lengths>,
    rows: &[Row],
) -> bool {
    assert_eq!(rt; lengths(twin), NEW, "a new world");
    let phases = [phase(twin, Side::A), phase(twin, Side::B)];
    assert_eq!(rt; phases, [None, None], "a new world");
    for row in rows {
        if noted.push(lengths(twin)).is_err() || !takes_first(rt, alloc, twin, row) {
            return false;
        }
    }
    drew(rt, twin, Side::A, &WORDS_OF_A, PAIR_OF_A);
    drew(rt, twin, Side::B, &WORDS_OF_B, PAIR_OF_B);
    has_packets(rt, twin, Side::A);
    has_packets(rt, twin, Side::B);
    noted.push(lengths(twin)).is_ok()
}
