//! What happens to a world in a test, as a table of acts: where, what, that side's events then, and the phase of its
//! association after it.

use crate::snapshot::fill;
use dcsctp_testing::{Counting, ExpectedEvent, at, is_message, message};
use dcsctp_world::socket::api::handover::SocketHandoverState;
use dcsctp_world::socket::{Phase, SendOptions, SocketFault, StreamId};
use dcsctp_world::{Act, Call, Outside, Reply, Side, Step, World};
use std::alloc::{AllocError, Global};

/// What happens at a side.
#[derive(Clone, Copy, Debug)]
pub enum Deed {
    /// Its user begins an association.
    Connects,

    /// Its user ends the association at once.
    Closes,

    /// Its user shuts the association down.
    ShutsDown,

    /// Its user sends a message on this stream, of that many bytes.
    Sends(u16, u16),

    /// Its user reads a message, which was sent on this stream and has that many bytes.
    Reads(u16, u16),

    /// Its user resets this stream.
    Resets(u16),

    /// Its time is advanced to this moment, in milliseconds.
    Passes(u64),

    /// It is handed the other's packet of this number.
    Takes(usize),

    /// From outside it is handed these bytes.
    IsHanded(&'static [u8]),

    /// From outside it is handed a copy of the other's packet of this number.
    IsHandedCopy(usize),

    /// It is handed over, and restored from its own snapshot.
    IsHandedOver,

    /// It is restored from the snapshot that is written by hand.
    IsRestored,
}

/// An act, with the events of its side in it, and the phase of that side's association after it.
pub type Row = (Side, Deed, &'static [ExpectedEvent], Option<Phase>);

fn called(side: Side, call: Call) -> Act {
    Act::Step(Step::Call(side, call))
}

// The user sends a message.
fn sending(alloc: Global, side: Side, stream: u16, size: u16) -> Result<Act, AllocError> {
    let message = message(alloc, stream, size)?;
    Ok(called(side, Call::Send(message, SendOptions::default())))
}

// The user resets a stream.
fn resetting(alloc: Global, side: Side, stream: u16) -> Result<Act, AllocError> {
    let ids = Vec::from_slice(alloc, &[StreamId(stream)])?;
    Ok(called(side, Call::ResetStreams(ids)))
}

// Bytes come from outside.
fn handing(alloc: Global, side: Side, bytes: &[u8]) -> Result<Act, AllocError> {
    let bytes = Vec::from_slice(alloc, bytes)?;
    Ok(Act::Outside(Outside::Input(side, bytes)))
}

// The socket is restored from the snapshot that is written by hand.
fn restoring(alloc: Global, side: Side) -> Result<Act, AllocError> {
    let mut state = SocketHandoverState::empty(alloc);
    fill(alloc, &mut state)?;
    Ok(Act::Outside(Outside::Restore(side, state)))
}

// The bytes of the packet of this number, counted from 1.
fn bytes_of(packets: &[Vec<u8>], number: usize) -> &[u8] {
    match packets.get(number.wrapping_sub(1)) {
        Some(packet) => packet,
        None => &[],
    }
}

/// The act that does so, where the other side has emitted these packets.
pub fn act(alloc: Global, packets: &[Vec<u8>], side: Side, deed: Deed) -> Result<Act, AllocError> {
    match deed {
        Deed::Connects => Ok(called(side, Call::Connect)),
        Deed::Closes => Ok(called(side, Call::Close)),
        Deed::ShutsDown => Ok(called(side, Call::Shutdown)),
        Deed::Sends(stream, size) => sending(alloc, side, stream, size),
        Deed::Reads(_, _) => Ok(called(side, Call::GetNextMessage)),
        Deed::Resets(stream) => resetting(alloc, side, stream),
        Deed::Passes(millis) => Ok(called(side, Call::AdvanceTime(at(millis)))),
        Deed::Takes(number) => Ok(Act::Step(Step::Deliver(side, number))),
        Deed::IsHanded(bytes) => handing(alloc, side, bytes),
        Deed::IsHandedCopy(number) => handing(alloc, side, bytes_of(packets, number)),
        Deed::IsHandedOver => Ok(Act::Outside(Outside::Handover(side))),
        Deed::IsRestored => restoring(alloc, side),
    }
}

/// The steps of a table that has no acts from outside.
pub fn steps(alloc: Global, rows: &[Row]) -> Result<Vec<Step>, AllocError> {
    let mut steps = Vec::with_capacity(alloc, rows.len())?;
    for (side, deed, _, _) in rows {
        if let Act::Step(step) = act(alloc, &[], *side, *deed)? {
            steps.push(step)?;
        }
    }
    Ok(steps)
}

/// Is it what this deed answers?
pub fn is_answer(deed: Deed, reply: &Reply) -> bool {
    match deed {
        Deed::Connects | Deed::Closes | Deed::ShutsDown => *reply == Reply::Done,
        Deed::Passes(_) | Deed::Takes(_) => *reply == Reply::Done,
        Deed::IsHanded(_) | Deed::IsHandedCopy(_) => *reply == Reply::Done,
        Deed::Sends(_, _) => *reply == Reply::Sent(Ok(())),
        Deed::Reads(stream, size) => is_taken(reply, stream, size),
        Deed::Resets(_) => *reply == Reply::Reset(Ok(())),
        Deed::IsHandedOver | Deed::IsRestored => *reply == Reply::Restored(Ok(())),
    }
}

// Was the message of this stream and size read?
fn is_taken(reply: &Reply, stream: u16, size: u16) -> bool {
    match reply {
        Reply::Taken(Some(message)) => is_message(message, Some(&(stream, size))),
        _ => false,
    }
}

/// Applies an act.
pub fn apply(world: &mut World<Counting>, act: Act) -> Result<Reply, SocketFault> {
    match act {
        Act::Step(step) => world.apply(&step),
        Act::Outside(outside) => world.outside(outside),
    }
}
