//! What a user reads is what the other user sent, by a plain comparison of what both have sent and read, act by act,
//! while each verification tag serves one association.

use crate::counter::Counter;
use crate::steps::{ORDERED, other};
use crate::view::{Kind, Schedule, View};
use dcsctp_world::socket::{Association, Message, Pair, StreamId};
use dcsctp_world::{Side, World};
use std::alloc::Global;
use std::process::Abort;

// The pairs of both ends of an association.
type Tags = (Pair, Pair);

// Those of an association with a peer.
fn tags_of(association: &Option<Association>) -> Option<Tags> {
    let association = (*association)?;
    Some((association.my, association.held?.peer))
}

// An association of a side, and the one that was there when it began.
#[derive(Clone, Copy)]
struct Begun {
    tags: Tags,
    before: Option<Tags>,
}

// All of a side, each as often as it began.
fn all_begun(rt: &impl Abort, alloc: Global, world: &World<Counter>, side: Side) -> Vec<Begun> {
    let mut all: Vec<Begun> = Vec::new(alloc);
    let mut before = None;
    for association in world.associations(side) {
        let tags = tags_of(association);
        if let Some(tags) = tags
            && before != Some(tags)
        {
            all.push(Begun { tags, before }).expect(rt, "no memory");
        }
        before = tags;
    }
    all
}

// Did the other side never have it?
fn is_unmatched((_, peer): Tags, others: &[Begun]) -> bool {
    others.iter().all(|other| other.tags.0.tag != peer.tag)
}

// Does it take the place of the old one, which the other side never had (RFC 9260, section 5.2.4, action B)?
fn takes_place(old: Tags, new: &Begun, others: &[Begun], by_rfc: bool) -> bool {
    by_rfc && old.0 == new.tags.0 && new.before == Some(old) && is_unmatched(old, others)
}

// Are its tags other than those of the old one, but for its own, if it takes its place?
fn has_new_tags(old: Tags, new: &Begun, others: &[Begun], by_rfc: bool) -> bool {
    let (my, peer) = new.tags;
    old.1.tag != peer.tag && (old.0.tag != my.tag || takes_place(old, new, others, by_rfc))
}

// Has none a tag of one before it, unless it takes its place?
fn are_new(all: &[Begun], others: &[Begun], by_rfc: bool) -> bool {
    for (at, new) in all.iter().enumerate() {
        let mut earlier = all.iter().take(at);
        if !earlier.all(|old| has_new_tags(old.tags, new, others, by_rfc)) {
            return false;
        }
    }
    true
}

// If these of two sides have a tag in common, do they match, or may the place of one be taken?
fn may_meet(one: Tags, other: Tags, (all, others): (&[Begun], &[Begun]), by_rfc: bool) -> bool {
    let (my, peer) = one;
    let (their, their_peer) = other;
    if my.tag != their_peer.tag && peer.tag != their.tag {
        return true;
    }
    let is_replaced = by_rfc && (is_unmatched(one, others) || is_unmatched(other, all));
    let shares_pair = (my.tag != their_peer.tag || my == their_peer)
        && (peer.tag != their.tag || peer == their);
    (my == their_peer && peer == their) || (shares_pair && is_replaced)
}

// Does each verification tag serve one association, or two of which one takes the place of the other?
fn tags_serve_once(rt: &impl Abort, alloc: Global, world: &World<Counter>, by_rfc: bool) -> bool {
    let a = all_begun(rt, alloc, world, Side::A);
    let b = all_begun(rt, alloc, world, Side::B);
    if !are_new(&a, &b, by_rfc) || !are_new(&b, &a, by_rfc) {
        return false;
    }
    for one in &a {
        if !b
            .iter()
            .all(|other| may_meet(one.tags, other.tags, (&a, &b), by_rfc))
        {
            return false;
        }
    }
    true
}

// How often is the message among these?
fn times(message: &Message, messages: &[Message]) -> usize {
    let mut count = 0_usize;
    for other in messages {
        if other == message {
            count = count.saturating_add(1);
        }
    }
    count
}

// Each message that this side's user read was sent once by the other's, and was read once. No two that are sent are
// alike.
fn is_delivered(rt: &impl Abort, view: &View<'_>) {
    let read = view.world.read(view.side);
    let sent = view.world.sent(other(view.side));
    for message in read {
        view.holds(rt, "it wasn't sent", times(message, sent) == 1);
        view.holds(rt, "it was read twice", times(message, read) == 1);
    }
}

// At which place was it sent?
fn place_of(message: &Message, sent: &[Message]) -> usize {
    sent.iter()
        .position(|one| one == message)
        .unwrap_or(usize::MAX)
}

// Was it sent after each of these that is on its stream, if both are ordered?
fn follows_all(message: &Message, earlier: &[Message], sent: &[Message]) -> bool {
    let place = place_of(message, sent);
    for before in earlier {
        let are_ordered = message.ppid == ORDERED && before.ppid == ORDERED;
        let is_behind = place_of(before, sent) < place;
        if are_ordered && before.stream_id == message.stream_id && !is_behind {
            return false;
        }
    }
    true
}

// The ordered messages of each stream were read in the order in which they were sent.
fn is_in_order(rt: &impl Abort, view: &View<'_>) {
    let read = view.world.read(view.side);
    let sent = view.world.sent(other(view.side));
    for (at, message) in read.iter().enumerate() {
        let earlier = read.get(..at).unwrap_or(&[]);
        let follows = follows_all(message, earlier, sent);
        view.holds(rt, "it comes out of order", follows);
    }
}

// How many ordered messages are for this stream?
fn ordered_on(stream: StreamId, messages: &[Message]) -> usize {
    let mut count = 0_usize;
    for one in messages {
        if one.ppid == ORDERED && one.stream_id == stream {
            count = count.saturating_add(1);
        }
    }
    count
}

// Nothing is missing on the streams that may have no gap: as many ordered messages were sent before one as were read
// before it.
fn is_without_gap(rt: &impl Abort, view: &View<'_>) {
    let read = view.world.read(view.side);
    let sent = view.world.sent(other(view.side));
    for (at, message) in read.iter().enumerate() {
        let earlier = read.get(..at).unwrap_or(&[]);
        let before = sent.get(..place_of(message, sent)).unwrap_or(&[]);
        let stream = message.stream_id;
        let is_next = ordered_on(stream, earlier) == ordered_on(stream, before);
        let may_miss = message.ppid != ORDERED || !view.schedule.is_gapless(stream);
        view.holds(rt, "one before it is missing", may_miss || is_next);
    }
}

// Has this side had one own tag at most?
fn has_one_tag(rt: &impl Abort, alloc: Global, world: &World<Counter>, side: Side) -> bool {
    let all = all_begun(rt, alloc, world, side);
    let Some(first) = all.first() else {
        return true;
    };
    all.iter().all(|one| one.tags.0.tag == first.tags.0.tag)
}

// Has each side?
fn is_only(rt: &impl Abort, alloc: Global, world: &World<Counter>) -> bool {
    has_one_tag(rt, alloc, world, Side::A) && has_one_tag(rt, alloc, world, Side::B)
}

/// Whether each verification tag has served one association so far in a schedule, how many messages were read while it
/// was so, how many of these were read once a reset of streams had been performed, and how many while each side had had
/// no other own tag: these come in order. They come without gaps in schedules without limits and resets, and, where
/// only other streams have these, on each stream that has none.
#[derive(Drop)]
pub struct Delivery {
    pub serves: bool,
    pub read: usize,
    pub read_after_reset: usize,
    pub in_order: usize,
    pub without_gap: usize,
    pub beside: usize,
}

impl Delivery {
    /// Nothing was read yet.
    pub fn new() -> Delivery {
        Delivery {
            serves: true,
            read: 0,
            read_after_reset: 0,
            in_order: 0,
            without_gap: 0,
            beside: 0,
        }
    }

    /// Looks at both sides after an act. Has a reset been performed before it?
    pub fn look_on(
        &mut self,
        rt: &impl Abort,
        alloc: Global,
        schedule: Schedule<'_>,
        world: &World<Counter>,
        was_reset: bool,
    ) {
        let by_rfc = schedule.both.a.follow_rfc && schedule.both.b.follow_rfc;
        self.serves = self.serves && tags_serve_once(rt, alloc, world, by_rfc);
        let read_by_a = world.read(Side::A).len();
        let read = read_by_a.saturating_add(world.read(Side::B).len());
        if !self.serves || read == self.read {
            return;
        }
        let mut view = View {
            schedule,
            world,
            side: Side::A,
        };
        let is_only = is_only(rt, alloc, world);
        let is_whole = is_only && schedule.kind() == Kind::Reliable;
        let is_beside = is_only && !is_whole && schedule.is_gapless(StreamId(0));
        for side in [Side::A, Side::B] {
            view.side = side;
            is_delivered(rt, &view);
            if is_only {
                is_in_order(rt, &view);
            }
            if is_whole || is_beside {
                is_without_gap(rt, &view);
            }
        }
        self.read = read;
        self.in_order = self.in_order.saturating_add(usize::from(is_only));
        self.without_gap = self.without_gap.saturating_add(usize::from(is_whole));
        self.beside = self.beside.saturating_add(usize::from(is_beside));
        self.read_after_reset = self.read_after_reset.saturating_add(usize::from(was_reset));
    }
}
