//! What a world shows, view by view, and whether it is the first part of what another one shows. Nothing here
//! allocates.

use dcsctp_testing::Counting;
use dcsctp_world::socket::{
    Association, Capabilities, DcSctpSocket, Held, Pair, Phase, ReconfigurationResponseResult,
    SocketEvent, SocketState, SocketTime,
};
use dcsctp_world::{Side, World};

/// The views of a side. The last one are the words that its generator gave.
pub const VIEWS: [&str; 8] = [
    "packets",
    "events",
    "associations",
    "words",
    "pairs",
    "sent",
    "read",
    "words of the generator",
];

/// How many entries each view of A has, and each of B.
pub type Lengths = [[usize; 8]; 2];

/// What a socket answers to queries: its state, the moment that it waits for, its tag, how many messages are ready,
/// and whether it has failed.
pub type Answers = (SocketState, SocketTime, u32, usize, bool);

// What an end knows of its peer, in parts that can be compared.
type HeldParts = (
    Pair,
    [u32; 6],
    u32,
    Option<u32>,
    u32,
    ReconfigurationResponseResult,
);

/// The other side.
pub fn other(side: Side) -> Side {
    match side {
        Side::A => Side::B,
        Side::B => Side::A,
    }
}

/// How many entries each view of a side has.
pub fn lengths_of(world: &World<Counting>, side: Side) -> [usize; 8] {
    [
        world.packets(side).len(),
        world.events(side).len(),
        world.associations(side).len(),
        world.words(side).len(),
        world.pairs(side).len(),
        world.sent(side).len(),
        world.read(side).len(),
        world.socket(side).generator().words().len(),
    ]
}

/// How many entries each view of both sides has.
pub fn lengths(world: &World<Counting>) -> Lengths {
    [lengths_of(world, Side::A), lengths_of(world, Side::B)]
}

/// What the socket of a side answers.
pub fn answers(world: &World<Counting>, side: Side) -> Answers {
    let socket = world.socket(side);
    (
        socket.state(),
        socket.poll_timeout(),
        socket.verification_tag(),
        socket.messages_ready_count(),
        socket.has_failed(),
    )
}

fn capability_numbers(capabilities: &Capabilities) -> [u32; 6] {
    [
        u32::from(capabilities.partial_reliability),
        u32::from(capabilities.message_interleaving),
        u32::from(capabilities.reconfig),
        capabilities.zero_checksum_method.0,
        u32::from(capabilities.negotiated_maximum_incoming_streams),
        u32::from(capabilities.negotiated_maximum_outgoing_streams),
    ]
}

fn held_parts(held: &Held) -> HeldParts {
    (
        held.peer,
        capability_numbers(&held.capabilities),
        held.own_next,
        held.own_outstanding,
        held.peer_last,
        held.peer_result,
    )
}

fn association_parts(association: &Association) -> (Phase, Pair, Option<HeldParts>) {
    let held = association.held.map(|held| held_parts(&held));
    (association.phase, association.my, held)
}

// Is it the same association, or none both times?
fn is_same_association(shown: &Option<Association>, expected: &Option<Association>) -> bool {
    match (shown, expected) {
        (None, None) => true,
        (Some(shown), Some(expected)) => association_parts(shown) == association_parts(expected),
        (None, Some(_)) | (Some(_), None) => false,
    }
}

// Is it the same event, with the same contents?
fn is_same_event(shown: &SocketEvent, expected: &SocketEvent) -> bool {
    use SocketEvent::*;
    match (shown, expected) {
        (SendPacket(bytes), SendPacket(others)) => bytes == others,
        (OnConnected(), OnConnected()) => true,
        (OnClosed(), OnClosed()) => true,
        (OnConnectionRestarted(), OnConnectionRestarted()) => true,
        (OnAborted(kind, text), OnAborted(another, words)) => kind == another && text == words,
        (OnError(kind, text), OnError(another, words)) => kind == another && text == words,
        (OnBufferedAmountLow(id), OnBufferedAmountLow(another)) => id == another,
        (OnTotalBufferedAmountLow(), OnTotalBufferedAmountLow()) => true,
        (OnStreamsResetFailed(ids), OnStreamsResetFailed(others)) => ids == others,
        (OnStreamsResetPerformed(ids), OnStreamsResetPerformed(others)) => ids == others,
        (OnIncomingStreamReset(ids), OnIncomingStreamReset(others)) => ids == others,
        (OnLifecycleMessageFullySent(id), OnLifecycleMessageFullySent(another)) => id == another,
        (OnLifecycleMessageMaybeExpired(id), OnLifecycleMessageMaybeExpired(another)) => {
            id == another
        }
        (OnLifecycleMessageExpired(id), OnLifecycleMessageExpired(another)) => id == another,
        (OnLifecycleMessageDelivered(id), OnLifecycleMessageDelivered(another)) => id == another,
        (OnLifecycleEnd(id), OnLifecycleEnd(another)) => id == another,
        _ => false,
    }
}

// Are the first of them these?
fn events_begin(all: &[SocketEvent], first: &[SocketEvent]) -> bool {
    for (event, expected) in first.iter().zip(all) {
        if !is_same_event(event, expected) {
            return false;
        }
    }
    first.len() <= all.len()
}

// The same of associations.
fn associations_begin(all: &[Option<Association>], first: &[Option<Association>]) -> bool {
    for (association, expected) in first.iter().zip(all) {
        if !is_same_association(association, expected) {
            return false;
        }
    }
    first.len() <= all.len()
}

/// Is each view of this side the first part of what the other world shows there, entry by entry?
pub fn are_fronts(world: &World<Counting>, of: &World<Counting>, side: Side) -> [bool; 8] {
    let given = world.socket(side).generator().words();
    [
        of.packets(side).starts_with(world.packets(side)),
        events_begin(of.events(side), world.events(side)),
        associations_begin(of.associations(side), world.associations(side)),
        of.words(side).starts_with(world.words(side)),
        of.pairs(side).starts_with(world.pairs(side)),
        of.sent(side).starts_with(world.sent(side)),
        of.read(side).starts_with(world.read(side)),
        of.socket(side).generator().words().starts_with(given),
    ]
}
