//! What may be done to two ends with channels, and what is answered.

ghost use Rattle.std.specs.Prelude.{◌≡◌};
ghost use Rattle.dcsctp_channel_world.specs.Steps.{side_of_step};

use dcsctp_channels::channel_calls::api::SocketTime;
use dcsctp_channels::channel_calls::api::types::Side;
use dcsctp_channels::channel_calls::channel_messages::channel_spec::Role;
use dcsctp_channels::channel_calls::{ChannelError, ChannelId, ChannelOptions};

/// A call of an end's user.
#[derive(Drop)]
pub enum EndCall {
    /// Sets the role.
    SetRole(Role),

    /// Begins the association.
    Connect,

    /// Sets the clock.
    AdvanceTime(SocketTime),

    /// Ends the association at once.
    Abort,

    /// Shuts the association down.
    Shutdown,

    /// Opens a channel.
    Open(ChannelOptions),

    /// Sends a message on a channel: is it text, and its bytes.
    Send(ChannelId, bool, Vec<u8>),

    /// Closes a channel.
    Close(ChannelId),

    /// Sets the low threshold of a channel, in bytes.
    SetThreshold(ChannelId, usize),
}

/// A step of a schedule.
#[derive(Drop)]
pub enum ChannelStep {
    /// The user of this end calls.
    Call(Side, EndCall),

    /// This end is handed the other's packet of this number, counted from 1.
    Deliver(Side, usize),

    /// The user of this end takes what happened first.
    Poll(Side),
}

/// What a step answers.
#[derive(Debug, PartialEq, Eq, Drop)]
pub enum EndReply {
    /// No call was made: the number of a delivery names no packet.
    NoCall,

    /// The call was made, and has nothing to answer.
    Done,

    /// What `open` answered.
    Opened(Result<ChannelId, ChannelError>),

    /// What `send` or a threshold answered.
    Answered(Result<(), ChannelError>),

    /// Was there something to take?
    Polled(bool),
}

/// The end at which a step happens.
pub(crate) fn side_of(step: &ChannelStep) -> Side
    ensures { result ≡ side_of_step step.now }
{
    match step {
        ChannelStep::Call(side, _) => *side,
        ChannelStep::Deliver(side, _) => *side,
        ChannelStep::Poll(side) => *side,
    }
}
