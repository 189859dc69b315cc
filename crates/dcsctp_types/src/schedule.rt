//! What happens to two sockets: calls of their users, deliveries, and what comes from outside.

ghost use Rattle.std.specs.Prelude.{◌≡◌, IfOk};
ghost use Rattle.dcsctp_types.specs.Ids.{stream_numbers};
ghost use Rattle.dcsctp_types.specs.Schedule.{call_content, step_content};

use crate::ids::StreamId;
use crate::message::{Message, SendOptions, copied_messages};
use crate::snapshot::SocketHandoverState;
use crate::time::SocketTime;
use std::alloc::AllocError;

/// One of two sockets.
#[derive(Clone, Copy, Debug, PartialEq, Eq)]
pub enum Side {
    /// The first.
    A,

    /// The second.
    B,
}

/// A call of a socket's user.
#[derive(Debug, PartialEq, Eq, Drop)]
pub enum Call {
    /// It begins an association (RFC 9260, section 5.1).
    Connect,

    /// It closes its association at once (RFC 9260, section 9.1).
    Close,

    /// It shuts its association down (RFC 9260, section 9.2).
    Shutdown,

    /// It advances the time: this is the present moment.
    AdvanceTime(SocketTime),

    /// It gives a stream a priority.
    SetStreamPriority(StreamId, u16),

    /// It sets the low threshold of a stream's buffered amount, in bytes.
    SetBufferedAmountLowThreshold(StreamId, usize),

    /// It says how many bytes a message may have.
    SetMaxMessageSize(usize),

    /// It sends a message.
    Send(Message, SendOptions),

    /// It sends several messages, all in one way.
    SendMany(Vec<Message>, SendOptions),

    /// It resets these streams (RFC 6525, section 5.1.2).
    ResetStreams(Vec<StreamId>),

    /// It takes the message that became ready first.
    GetNextMessage,

    /// It hands its socket over to another process.
    GetHandoverStateAndClose,
}

// The same numbers.
fn copied_streams(ids: &Vec<StreamId>) -> Result<Vec<StreamId>, AllocError>
    ensures { IfOk result (λ copies. stream_numbers copies.items ≡ stream_numbers ids.now.items) }
{
    let mut copies = Vec::with_capacity(*ids.allocator(), ids.len())?;
    for id in ids {
        copies.push(*id)?;
    }
    Ok(copies)
}

/// A step of a schedule.
#[derive(Debug, PartialEq, Eq, Drop)]
pub enum Step {
    /// The user of this socket calls.
    Call(Side, Call),

    /// This socket is handed the other's packet of this number, counted from 1 over all that the other
    /// ever emitted. A number that names none changes no socket.
    Deliver(Side, usize),
}

impl Call {
    /// A call that says the same.
    pub fn copied(&self) -> Result<Call, AllocError>
        ensures { IfOk result (λ copy. call_content copy ≡ call_content self.now) }
    {
        match self {
            Call::Connect => Ok(Call::Connect),
            Call::Close => Ok(Call::Close),
            Call::Shutdown => Ok(Call::Shutdown),
            Call::AdvanceTime(now) => Ok(Call::AdvanceTime(*now)),
            Call::SetStreamPriority(id, priority) => Ok(Call::SetStreamPriority(*id, *priority)),
            Call::SetBufferedAmountLowThreshold(id, bytes) => {
                Ok(Call::SetBufferedAmountLowThreshold(*id, *bytes))
            }
            Call::SetMaxMessageSize(bytes) => Ok(Call::SetMaxMessageSize(*bytes)),
            Call::Send(message, options) => Ok(Call::Send(message.copied()?, *options)),
            Call::SendMany(messages, options) => {
                Ok(Call::SendMany(copied_messages(messages)?, *options))
            }
            Call::ResetStreams(ids) => Ok(Call::ResetStreams(copied_streams(ids)?)),
            Call::GetNextMessage => Ok(Call::GetNextMessage),
            Call::GetHandoverStateAndClose => Ok(Call::GetHandoverStateAndClose),
        }
    }
}

impl Step {
    /// A step that says the same.
    pub fn copied(&self) -> Result<Step, AllocError>
        ensures { IfOk result (λ copy. step_content copy ≡ step_content self.now) }
    {
        match self {
            Step::Call(side, call) => Ok(Step::Call(*side, call.copied()?)),
            Step::Deliver(side, number) => Ok(Step::Deliver(*side, *number)),
        }
    }
}

/// What happens to two sockets from outside, which no network between them does.
#[derive(Debug, PartialEq, Eq, Drop)]
pub enum Outside {
    /// This socket is handed these bytes, which no socket needs to have emitted.
    Input(Side, Vec<u8>),

    /// This socket is handed over, and restored from its own snapshot.
    Handover(Side),

    /// This socket is restored from this snapshot, which no socket needs to have given.
    Restore(Side, SocketHandoverState),
}

/// What was done to two sockets.
#[derive(Debug, PartialEq, Eq, Drop)]
pub enum Act {
    /// A step of a schedule.
    Step(Step),

    /// An act from outside.
    Outside(Outside),
}
