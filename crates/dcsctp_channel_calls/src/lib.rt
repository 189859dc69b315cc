//! The calls of a socket with data channels: their types, and what each does, in rows of the table of inputs and calls of
//! the socket below. And its handover: what a snapshot has, when it can be taken, and what a restore makes of it.
#![tactic(auto)]

mod channel;
mod handover;

pub use channel::{
    ChannelError, ChannelEvent, ChannelId, ChannelOptions, ChannelState, ChannelTraffic,
    HeldStream, Limits,
};
pub use handover::{
    CHANNELS_UNSETTLED, ChannelsHandoverState, EVENTS_NOT_TAKEN, HandoverChannel, HandoverChannels,
    RestoreChannelsError,
};

// The crates below, for those above.
pub use dcsctp_api as api;
pub use dcsctp_channel_messages as channel_messages;
