//! The steps of a schedule.

use crate::counter::Counter;
use crate::drawing::Drawing;
use crate::view::Kind;
use dcsctp_world::socket::{Message, PpId, SendOptions, StreamId};
use dcsctp_world::{Call, Side, Step, World};
use std::alloc::Global;
use std::process::Abort;
use std::time::Duration;

/// The other side.
pub fn other(side: Side) -> Side {
    match side {
        Side::A => Side::B,
        Side::B => Side::A,
    }
}

// How long messages on these streams are tried, and whether they are ordered.
fn options(drawing: &mut Drawing, streams: [StreamId; 2]) -> SendOptions {
    let mut options = SendOptions::default();
    options.unordered = drawing.below(3) == 0;
    let kind = drawing.kind();
    if !streams.iter().all(|stream| kind.may_limit(*stream)) {
        return options;
    }
    match drawing.below(6) {
        0 => options.lifetime = Some(Duration::from_millis(100)),
        1 => options.max_retransmissions = Some(0),
        _ => {}
    }
    options
}

// The bytes of a message: its number, then others that depend on where they are.
fn payload(rt: &impl Abort, alloc: Global, number: u32, len: u32) -> Vec<u8> {
    let mut bytes = Vec::from_slice(alloc, &number.to_be_bytes()).expect(rt, "no payload");
    for at in 4..len {
        let byte = (number.saturating_add(at) % 251) as u8;
        bytes.push(byte).expect(rt, "no payload");
    }
    bytes
}

// A message: one of eight fills several packets. No two are alike.
fn message(rt: &impl Abort, alloc: Global, drawing: &mut Drawing) -> Message {
    let most = if drawing.below(8) == 0 { 3000 } else { 100 };
    let len = drawing.below(most).saturating_add(4);
    let number = drawing.number();
    let bytes = payload(rt, alloc, number, len);
    Message::new(drawing.stream(), PpId(number), bytes)
}

/// The protocol identifier of the ordered messages.
pub const ORDERED: PpId = PpId(0);

// The one that says whether a message is ordered.
fn identifier(options: &SendOptions) -> PpId {
    if options.unordered { PpId(1) } else { ORDERED }
}

// One message.
fn sending_one(rt: &impl Abort, alloc: Global, drawing: &mut Drawing) -> Call {
    let mut one = message(rt, alloc, drawing);
    let options = options(drawing, [one.stream_id, one.stream_id]);
    one.ppid = identifier(&options);
    Call::Send(one, options)
}

// Two messages at once.
fn sending_two(rt: &impl Abort, alloc: Global, drawing: &mut Drawing) -> Call {
    let mut messages = Vec::new(alloc);
    let mut first = message(rt, alloc, drawing);
    let mut second = message(rt, alloc, drawing);
    let options = options(drawing, [first.stream_id, second.stream_id]);
    first.ppid = identifier(&options);
    second.ppid = identifier(&options);
    messages.push(first).expect(rt, "no list");
    messages.push(second).expect(rt, "no list");
    Call::SendMany(messages, options)
}

// Of three streams, those are reset that may be.
fn resetting(rt: &impl Abort, alloc: Global, drawing: &mut Drawing) -> Call {
    let kind = drawing.kind();
    let mut ids = Vec::new(alloc);
    for _ in 0..drawing.below(3).saturating_add(1) {
        let id = drawing.stream();
        if kind.may_reset(id) {
            ids.push(id).expect(rt, "no list");
        }
    }
    Call::ResetStreams(ids)
}

// A call of a user.
fn call(rt: &impl Abort, alloc: Global, drawing: &mut Drawing) -> Call {
    match drawing.below(40) {
        0..=6 => Call::Connect,
        7 => Call::Close,
        8 => Call::Shutdown,
        9..=15 if drawing.kind() != Kind::Reliable => resetting(rt, alloc, drawing),
        9..=25 => sending_one(rt, alloc, drawing),
        26 => sending_two(rt, alloc, drawing),
        27..=31 => Call::GetNextMessage,
        32..=38 => Call::AdvanceTime(drawing.later()),
        _ => Call::GetHandoverStateAndClose,
    }
}

/// The next step: three of five hand over a packet.
pub fn next_step(
    rt: &impl Abort,
    alloc: Global,
    drawing: &mut Drawing,
    world: &World<Counter>,
) -> Step {
    let side = drawing.side();
    if drawing.below(5) < 3 {
        let from = other(side);
        return Step::Deliver(side, drawing.packet(from, world.packets(from).len()));
    }
    Step::Call(side, call(rt, alloc, drawing))
}
