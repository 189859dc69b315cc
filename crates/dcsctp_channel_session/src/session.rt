//! A socket with channels, and what was taken from it last.

ghost use Rattle.dcsctp_channel_session.specs.Begin.{HasFreshChannels};

use dcsctp_channel_calls::{ChannelEvent, ChannelsHandoverState, Limits};
use dcsctp_channels::Channels;
use dcsctp_session::{Session, Socket};
use rand_chacha::ChaCha20Rng;
use std::alloc::Global;

/// A socket with channels, and what was taken from it last. That can be copied until the next of its kind is taken.
pub struct ChannelSession {
    pub alloc: Global,
    pub channels: Channels<Socket<ChaCha20Rng>>,
    pub event: Option<ChannelEvent>,

    /// The snapshot of the last handover.
    pub snapshot: Option<ChannelsHandoverState>,
}

// Written out, so that the drop is proved here once.
impl Drop for ChannelSession {
    fn drop(self) {
        let ChannelSession {
            alloc: _,
            channels: _,
            event: _,
            snapshot: _,
        } = self;
    }
}

impl ChannelSession {
    /// The socket of a session gets channels. What was taken from it is dropped.
    pub fn over(session: Session, limits: Limits) -> ChannelSession
        ensures { HasFreshChannels limits session result }
    {
        let alloc = session.alloc;
        ChannelSession {
            alloc,
            channels: Channels::new(alloc, session.into_socket(), limits),
            event: None,
            snapshot: None,
        }
    }
}
