//! The messages that a world shows as sent and as read.

use crate::checks::same;
use crate::worlds::world_behind_handshake;
use dcsctp_testing::TwoWords;
use dcsctp_world::socket::{BatchSendError, Message, PpId, SendError, SendOptions, StreamId};
use dcsctp_world::{Call, Reply, Side, Step, World};
use std::alloc::Global;
use std::process::Abort;

// A message of these bytes on stream 1, under protocol 51.
fn message(rt: &impl Abort, alloc: Global, payload: &[u8]) -> Message {
    let payload = Vec::from_slice(alloc, payload).expect(rt, "no payload");
    Message::new(StreamId(1), PpId(51), payload)
}

// The user of a side makes this call.
fn calls(rt: &impl Abort, world: &mut World<TwoWords>, side: Side, call: Call) -> Reply {
    world.apply(&Step::Call(side, call)).expect(rt, "no call")
}

// It sends these bytes, with this answer.
fn sends(
    rt: &impl Abort,
    alloc: Global,
    (world, side): (&mut World<TwoWords>, Side),
    payload: &[u8],
    answer: Result<(), SendError>,
) {
    let call = Call::Send(message(rt, alloc, payload), SendOptions::default());
    let reply = calls(rt, world, side, call);
    same(rt, "the answer of `send`", reply, Reply::Sent(answer));
}

// It sends all these, of which those are refused.
fn sends_many(
    rt: &impl Abort,
    alloc: Global,
    (world, side): (&mut World<TwoWords>, Side),
    payloads: &[&[u8]],
    refused: &[(usize, SendError)],
) {
    let mut messages = Vec::new(alloc);
    for payload in payloads {
        messages
            .push(message(rt, alloc, payload))
            .expect(rt, "no list");
    }
    let answer = if refused.is_empty() {
        Ok(())
    } else {
        let errors = Vec::from_slice(alloc, refused).expect(rt, "no errors");
        Err(BatchSendError(errors))
    };
    let call = Call::SendMany(messages, SendOptions::default());
    let reply = calls(rt, world, side, call);
    same(
        rt,
        "the answer of `send_many`",
        reply,
        Reply::SentMany(answer),
    );
}

// It reads these bytes, or nothing.
fn reads(
    rt: &impl Abort,
    alloc: Global,
    (world, side): (&mut World<TwoWords>, Side),
    payload: Option<&[u8]>,
) {
    let expected = match payload {
        Some(payload) => Some(message(rt, alloc, payload)),
        None => None,
    };
    let reply = calls(rt, world, side, Call::GetNextMessage);
    same(rt, "what is read", reply, Reply::Taken(expected));
}

// These must be the messages, in order.
fn are(rt: &impl Abort, name: &str, messages: &[Message], payloads: &[&[u8]]) {
    same(rt, name, messages.len(), payloads.len());
    for (message, payload) in messages.iter().zip(payloads) {
        same(rt, name, message.stream_id, StreamId(1));
        same(rt, name, message.ppid, PpId(51));
        same(rt, name, message.payload.as_slice(), *payload);
    }
}

// A may send four bytes at most.
fn world_of_short_messages(rt: &impl Abort, alloc: Global) -> World<TwoWords> {
    let mut world = world_behind_handshake(rt, alloc);
    let reply = calls(rt, &mut world, Side::A, Call::SetMaxMessageSize(4));
    same(rt, "a limit", reply, Reply::Done);
    world
}

const TOO_LARGE: SendError = SendError::MessageTooLarge { len: 5, limit: 4 };

#[test]
fn a_world_shows_what_send_accepted(rt: HostRuntime) {
    let alloc = rt.alloc();
    let mut world = world_of_short_messages(&rt, alloc);
    are(&rt, "before", world.sent(Side::A), &[]);
    sends(&rt, alloc, (&mut world, Side::A), &[1, 2, 3], Ok(()));
    let empty = Err(SendError::EmptyPayload);
    sends(&rt, alloc, (&mut world, Side::A), &[], empty);
    let too_large = Err(TOO_LARGE);
    sends(
        &rt,
        alloc,
        (&mut world, Side::A),
        &[1, 2, 3, 4, 5],
        too_large,
    );
    sends(&rt, alloc, (&mut world, Side::A), &[4], Ok(()));
    are(&rt, "sent by A", world.sent(Side::A), &[&[1, 2, 3], &[4]]);
    are(&rt, "sent by B", world.sent(Side::B), &[]);
    are(&rt, "read by A", world.read(Side::A), &[]);
    drop(world);
}

#[test]
fn a_world_shows_what_send_many_accepted(rt: HostRuntime) {
    let alloc = rt.alloc();
    let mut world = world_of_short_messages(&rt, alloc);
    let payloads: [&[u8]; 5] = [&[], &[1], &[1, 2, 3, 4, 5], &[], &[2, 3]];
    let refused = [
        (0, SendError::EmptyPayload),
        (2, TOO_LARGE),
        (3, SendError::EmptyPayload),
    ];
    sends_many(&rt, alloc, (&mut world, Side::A), &payloads, &refused);
    are(&rt, "sent", world.sent(Side::A), &[&[1], &[2, 3]]);
    sends_many(&rt, alloc, (&mut world, Side::A), &[&[4], &[5]], &[]);
    are(
        &rt,
        "sent",
        world.sent(Side::A),
        &[&[1], &[2, 3], &[4], &[5]],
    );
    drop(world);
}

#[test]
fn a_world_shows_what_was_read_in_order(rt: HostRuntime) {
    let alloc = rt.alloc();
    let mut world = world_behind_handshake(&rt, alloc);
    reads(&rt, alloc, (&mut world, Side::B), None);
    sends(&rt, alloc, (&mut world, Side::A), &[1, 2], Ok(()));
    sends(&rt, alloc, (&mut world, Side::A), &[3], Ok(()));
    let arrivals = [Step::Deliver(Side::B, 3), Step::Deliver(Side::B, 4)];
    world.run(&arrivals).expect(&rt, "no arrivals");
    are(&rt, "before", world.read(Side::B), &[]);
    reads(&rt, alloc, (&mut world, Side::B), Some(&[1, 2]));
    are(&rt, "one", world.read(Side::B), &[&[1, 2]]);
    reads(&rt, alloc, (&mut world, Side::B), Some(&[3]));
    reads(&rt, alloc, (&mut world, Side::B), None);
    are(&rt, "read by B", world.read(Side::B), &[&[1, 2], &[3]]);
    are(&rt, "read by A", world.read(Side::A), &[]);
    are(&rt, "sent by B", world.sent(Side::B), &[]);
    drop(world);
}
