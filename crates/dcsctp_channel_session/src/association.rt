//! The calls of the association: inputs and commands, and queries.

ghost use Rattle.std.specs.Prelude.{◌≡◌, false, min};
ghost use Rattle.dcsctp_channel_calls.specs.Polls.{deadline_with};
ghost use Rattle.dcsctp_channel_calls.specs.api.Calls.{socket_state_of};
ghost use Rattle.dcsctp_channel_calls.specs.api.spec.endpoint.Endpoint.{own_tag};
ghost use Rattle.dcsctp_channel_calls.specs.api.spec.endpoint.TimeTurns.{next_moment};
ghost use Rattle.dcsctp_session.specs.Options.{ShowsOptions, never};
ghost use Rattle.dcsctp_session.specs.Calls.{ShowsMetricsRecord, ShowsCountsRecord};
ghost use Rattle.dcsctp_channel_session.specs.Views.{channels_view, channels_deadline};
ghost use Rattle.dcsctp_channel_session.specs.Calls.{ChannelsConnect, ChannelsShutDown, ChannelsAbort, ChannelsHandle, ChannelsAdvance, ChannelsLimit};

use crate::session::ChannelSession;
use dcsctp_session::{CountsRecord, MetricsRecord, OptionsRecord, SocketState, Status, moment};
use dcsctp_socket::DcSctpSocket;

impl ChannelSession {
    /// Begins the association.
    pub fn connect(&mut self) -> Status
        ensures { ChannelsConnect self.old result self.new }
    {
        Status::of_call(self.channels.connect())
    }

    /// Shuts the association down.
    pub fn shutdown(&mut self) -> Status
        ensures { ChannelsShutDown self.old result self.new }
    {
        Status::of_call(self.channels.shutdown())
    }

    /// Ends the association at once.
    pub fn close(&mut self) -> Status
        ensures { ChannelsAbort self.old result self.new }
    {
        Status::of_call(self.channels.abort())
    }

    /// Handles a packet from the peer.
    pub fn handle_input(&mut self, packet: &[u8]) -> Status
        ensures { ChannelsHandle packet.now self.old result self.new }
    {
        Status::of_call(self.channels.handle_input(packet))
    }

    /// Sets the clock to `now`, in nanoseconds, and handles what is due.
    pub fn advance_time(&mut self, now: u64) -> Status
        ensures { ChannelsAdvance now self.old result self.new }
    {
        Status::of_call(self.channels.advance_time(moment(now)))
    }

    /// The next deadline in nanoseconds; the greatest number if there is none.
    pub fn poll_timeout(&self) -> u64
        ensures { result ≡ min (channels_deadline (channels_view self.now)) never }
    {
        match u64::try_from(self.channels.poll_timeout().as_nanos()) {
            Ok(nanos) => nanos,
            Err(_) => 0xffff_ffff_ffff_ffff,
        }
    }

    /// Sets how many bytes a message may have from now on.
    pub fn set_max_message_size(&mut self, bytes: usize) -> Status
        ensures { ChannelsLimit bytes self.old result self.new }
    {
        self.channels.set_max_message_size(bytes);
        Status::Done
    }

    /// The state of the association.
    pub fn state(&self) -> SocketState
        ensures { result ≡ socket_state_of (channels_view self.now).below.endpoint.core }
    {
        self.channels.socket().state()
    }

    /// Did an allocation fail in an earlier call?
    pub fn has_failed(&self) -> bool
        ensures { result ≡ (channels_view self.now).layer.failed }
    {
        self.channels.has_failed()
    }

    /// Our own verification tag (RFC 9260, sections 3.1 and 5.3.1); 0 in the closed state.
    pub fn verification_tag(&self) -> u32
        ensures { result ≡ own_tag (channels_view self.now).below.endpoint.core }
    {
        self.channels.socket().verification_tag()
    }

    /// The options of the socket.
    pub fn options(&self) -> OptionsRecord
        ensures { ShowsOptions result (channels_view self.now).below.endpoint.options false }
    {
        OptionsRecord::of(&self.channels.socket().options(), false)
    }

    /// What the socket has counted in its life.
    pub fn counts(&self) -> CountsRecord
        ensures { ShowsCountsRecord (channels_view self.now).below result }
    {
        CountsRecord::of(&self.channels.socket().get_counts())
    }

    /// The metrics; none where the peer isn't known.
    pub fn metrics(&self) -> Option<MetricsRecord>
        ensures { ShowsMetricsRecord (channels_view self.now).below result }
    {
        let metrics = self.channels.metrics()?;
        Some(MetricsRecord::of(&metrics))
    }
}
