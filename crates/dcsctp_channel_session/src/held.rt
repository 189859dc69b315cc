//! A socket alone, or one with channels.

ghost use Rattle.std.specs.Prelude.{◌≡◌};
ghost use Rattle.dcsctp_session.specs.Views.{view};
ghost use Rattle.dcsctp_channel_session.specs.Begin.{is_new, begin_refused, BeginsUnless, Begins, ChannelsBegin};

use crate::options::LimitsRecord;
use crate::session::ChannelSession;
use core::mem::replace_with;
use dcsctp_channel_calls::Limits;
use dcsctp_session::{Session, SocketState, Status};

/// What a handle has.
#[derive(Drop)]
pub enum Held {
    /// A socket alone.
    Socket(Session),

    /// One with channels.
    Channels(ChannelSession),
}

// Was nothing done with the socket of this session yet?
fn is_new(session: &Session) -> bool
    ensures { result ≡ is_new (view session.now) }
{
    let counts = session.counts();
    matches!(session.state(), SocketState::Closed)
        && counts.rx_packets_count == 0
        && counts.tx_packets_count == 0
        && counts.tx_messages_count == 0
}

// Why the session's socket gets no channels.
fn begin_refused(session: &Session) -> Option<Status>
    ensures { result ≡ begin_refused session.now }
{
    if session.has_failed() {
        return Some(Status::Failed);
    }
    if session.checksum_offload {
        return Some(Status::InvalidOptions);
    }
    if !is_new(session) {
        return Some(Status::NotClosed);
    }
    None
}

// The session's socket gets channels, if nothing was done with it yet and the library makes its checksums.
fn begun_on(session: Session, limits: Limits) -> (Held, Status)
    ensures { BeginsUnless (begin_refused session) limits session result.1 result.0 }
{
    match begin_refused(&session) {
        Some(status) => (Held::Socket(session), status),
        None => (
            Held::Channels(ChannelSession::over(session, limits)),
            Status::Done,
        ),
    }
}

// The same of what a handle has.
fn begun(held: Held, limits: Limits) -> (Held, Status)
    ensures { Begins limits held result.1 result.0 }
{
    match held {
        Held::Socket(session) => begun_on(session, limits),
        Held::Channels(channels) => (Held::Channels(channels), Status::HasChannels),
    }
}

impl Held {
    /// Gives a new socket channels. Allocates nothing.
    ///
    /// `Status::WrongSize`: the record has another size than that of this library. `Status::HasChannels`: it has
    /// channels. `Status::Failed`: an allocation failed in an earlier call. `Status::InvalidOptions`: its caller makes
    /// the checksums. `Status::NotClosed`: the socket isn't new. In these cases nothing has changed.
    pub fn begin(&mut self, limits: &LimitsRecord) -> Status
        ensures { ChannelsBegin limits.now self.old result self.new }
    {
        if !limits.is_sized() {
            return Status::WrongSize;
        }
        replace_with(self, limits.limits(), begun)
    }
}
