//! The calls of channels. A channel is a number that is never given twice, 0 is none.

ghost use Rattle.std.specs.Prelude.{◌≡◌, length, option_map};
ghost use Rattle.dcsctp_channel_session.specs.Views.{channels_view, name_of, state_named, channel_state_number, stream_of_named, amount_if_stream, traffic_named};
ghost use Rattle.dcsctp_channel_session.specs.Records.{traffic_record};
ghost use Rattle.dcsctp_channel_session.specs.Calls.{channel_error_status, channel_status, number_after, SetsRoleByNumber, OpensIfValid, SendsOnNumber, ClosesNumber, SetsNumberThreshold};

use crate::options::ChannelOptionsRecord;
use crate::records::{TrafficRecord, channel_number, channel_state_number, numbered};
use crate::session::ChannelSession;
use dcsctp_channel_calls::api::SocketFault;
use dcsctp_channel_calls::channel_messages::channel_spec::Role;
use dcsctp_channel_calls::{ChannelError, ChannelId, ChannelState};
use dcsctp_session::Status;

// Why a call on a channel is refused.
fn of_channel_error(error: ChannelError) -> Status
    ensures { result ≡ channel_error_status error }
{
    match error {
        ChannelError::NotOpen => Status::NoChannel,
        ChannelError::Ended => Status::Ended,
        ChannelError::TooLong => Status::MessageTooLarge,
        ChannelError::StreamInUse => Status::StreamInUse,
        ChannelError::Refused(error) => Status::of_send_error(error),
    }
}

// What a call on a channel returns.
fn of_channel_call(outcome: Result<Result<(), ChannelError>, SocketFault>) -> Status
    ensures { result ≡ channel_status outcome }
{
    match outcome {
        Ok(Ok(())) => Status::Done,
        Ok(Err(error)) => of_channel_error(error),
        Err(fault) => Status::of_fault(fault),
    }
}

// What the call returns that opens a channel; its number is written.
fn of_open(
    outcome: Result<Result<ChannelId, ChannelError>, SocketFault>,
    channel: &mut u64,
) -> Status
    ensures status { result ≡ channel_status outcome }
    ensures number { channel.new ≡ number_after channel.old outcome }
{
    match outcome {
        Ok(Ok(id)) => {
            *channel = channel_number(id);
            Status::Done
        }
        Ok(Err(error)) => of_channel_error(error),
        Err(fault) => Status::of_fault(fault),
    }
}

impl ChannelSession {
    /// Sets the role in DTLS.
    pub fn set_role(&mut self, is_dtls_client: i32) -> Status
        ensures { SetsRoleByNumber is_dtls_client self.old result self.new }
    {
        let role = if is_dtls_client == 0 {
            Role::Server
        } else {
            Role::Client
        };
        Status::of_call(self.channels.set_role(role))
    }

    /// Opens a channel, and writes its number.
    ///
    /// `Status::WrongSize`: the record has another size than that of this library, and nothing else of it was read.
    /// `Status::InvalidOptions`: the numbers encode no options. `Status::MessageTooLarge`: the label or the protocol is
    /// longer than 65,535 bytes. In these cases nothing has changed, on a socket that has failed as well.
    ///
    /// `Status::OutOfMemory` if the texts couldn't be copied, too: then nothing has changed.
    pub fn open(&mut self, options: &ChannelOptionsRecord, channel: &mut u64) -> Status
        ensures { OpensIfValid options.now self.old channel.old result channel.new self.new }
    {
        if !options.is_sized() {
            return Status::WrongSize;
        }
        if !options.is_valid() {
            return Status::InvalidOptions;
        }
        if options.is_too_long() {
            return Status::MessageTooLarge;
        }
        let Ok(options) = options.options(self.alloc) else {
            return Status::OutOfMemory;
        };
        of_open(self.channels.open(&options), channel)
    }

    /// Sends a message, which may be empty: text if the kind is 1, binary if it is 2.
    ///
    /// `Status::InvalidSendOptions`: it is another kind. Nothing has changed, and a socket that has failed returns
    /// this, too.
    pub fn send(&mut self, channel: u64, kind: u32, bytes: &[u8]) -> Status
        ensures { SendsOnNumber channel kind bytes.now self.old result self.new }
    {
        if kind != 1 && kind != 2 {
            return Status::InvalidSendOptions;
        }
        let Some(id) = numbered(channel) else {
            return Status::NoChannel;
        };
        of_channel_call(self.channels.send(id, kind == 1, bytes))
    }

    /// Closes a channel once all that was sent has left. On one that is closed it does nothing.
    pub fn close_channel(&mut self, channel: u64) -> Status
        ensures { ClosesNumber channel self.old result self.new }
    {
        let Some(id) = numbered(channel) else {
            return Status::Done;
        };
        Status::of_call(self.channels.close(id))
    }

    /// Sets the low threshold of a channel that has a stream, in bytes.
    pub fn set_buffered_amount_low_threshold(&mut self, channel: u64, bytes: usize) -> Status
        ensures { SetsNumberThreshold channel bytes self.old result self.new }
    {
        let Some(id) = numbered(channel) else {
            return Status::NoChannel;
        };
        of_channel_call(self.channels.set_buffered_amount_low_threshold(id, bytes))
    }

    /// The number of the state of a channel.
    pub fn channel_state(&self, channel: u64) -> i32
        ensures { result ≡ channel_state_number (state_named (channels_view self.now).layer
            (name_of channel)) }
    {
        match numbered(channel) {
            Some(id) => channel_state_number(self.channels.state(id)),
            None => channel_state_number(ChannelState::Closed),
        }
    }

    /// The stream of a channel, if it has one.
    pub fn stream(&self, channel: u64) -> Option<u16>
        ensures { result ≡ stream_of_named (channels_view self.now).layer (name_of channel) }
    {
        let id = numbered(channel)?;
        self.channels.stream_of(id)
    }

    /// How many bytes wait to be sent on a channel that has a stream.
    pub fn buffered_amount(&self, channel: u64) -> Option<usize>
        ensures { result ≡ amount_if_stream (channels_view self.now) (stream_of_named
            (channels_view self.now).layer (name_of channel)) }
    {
        let id = numbered(channel)?;
        match self.channels.stream_of(id) {
            Some(_) => Some(self.channels.buffered_amount(id)),
            None => None,
        }
    }

    /// What was counted of a channel that has a stream.
    pub fn traffic(&self, channel: u64) -> Option<TrafficRecord>
        ensures { result ≡ option_map traffic_record
            (traffic_named (channels_view self.now).layer (name_of channel)) }
    {
        let id = numbered(channel)?;
        let traffic = self.channels.traffic(id)?;
        Some(TrafficRecord::of(&traffic))
    }

    /// How many streams are in use.
    pub fn stream_use(&self) -> usize
        ensures { result ≡ length (channels_view self.now).layer.streams }
    {
        self.channels.stream_use()
    }
}
