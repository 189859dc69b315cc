//! One of two ends with channels, with all that its user did and was told.

ghost use Rattle.std.specs.Prelude.{◌≡◌, ◌++◌, map, option_map, IfOk, OnOk, OnErr};
ghost use Rattle.dcsctp_spec_runs.specs.Sockets.{packet_at_number};
ghost use Rattle.dcsctp_channel_laws.specs.Names.{opens_channel, sends_content, sets_threshold};
ghost use Rattle.dcsctp_channel_calls.specs.Notices.{opening_of, notice_of};
ghost use Rattle.dcsctp_channel_world.specs.declared.step.EndReply.TheVariants.{Opened, Answered};
ghost use Rattle.dcsctp_channel_world.specs.Shown.{bytes_of, named_channel, named_content, channels_opened, messages_sent, end_shown, fresh_end};
ghost use Rattle.dcsctp_channel_world.specs.Steps.{DoesCall, DoesCallOf, HandsInPacket, KeepsNotice, TakesNext, PerformsStep, KeepsLists};

use crate::step::{ChannelStep, EndCall, EndReply};
use dcsctp_channels::Channels;
use dcsctp_channels::channel_calls::api::{DcSctpSocket, SocketFault};
use dcsctp_channels::channel_calls::channel_messages::channel_spec::ChannelEnd;
use dcsctp_channels::channel_calls::{
    ChannelError, ChannelEvent, ChannelId, ChannelOptions, Limits,
};
use std::alloc::{AllocError, Global};

/// A channel by its name at one end, and what its OPEN says.
#[derive(Drop)]
pub struct NamedChannel {
    /// Its name at this end.
    pub id: ChannelId,

    /// Label, protocol, and how messages are sent.
    pub options: ChannelOptions,
}

/// A message on a channel.
#[derive(Drop)]
pub struct ChannelMessage {
    /// The channel, by its name at this end.
    pub id: ChannelId,

    /// Is it text?
    pub is_text: bool,

    /// Its bytes; they may be none.
    pub bytes: Vec<u8>,
}

/// A channel that is over.
#[derive(Clone, Copy, Debug, PartialEq, Eq)]
pub struct EndedChannel {
    /// Its name at this end.
    pub id: ChannelId,

    /// Why it is over.
    pub why: ChannelEnd,
}

/// An end, and what it showed from its making on, oldest first.
pub struct WatchedEnd<S> {
    /// Where its lists are.
    pub alloc: Global,

    /// The end.
    pub channels: Channels<S>,

    /// The packets that polls gave.
    pub packets: Vec<Vec<u8>>,

    /// The channels that its user opened with an OPEN.
    pub opened: Vec<NamedChannel>,

    /// The channels that the peer opened, as its user was told.
    pub incoming: Vec<NamedChannel>,

    /// The messages that its user sent: those that `send` accepted.
    pub sent: Vec<ChannelMessage>,

    /// The messages that its user read.
    pub read: Vec<ChannelMessage>,

    /// The channels that are over, as its user was told.
    pub ended: Vec<EndedChannel>,
}

// Written out: a derived one would be proved at each exit of each function that has one.
impl<S: Drop> Drop for WatchedEnd<S> {
    fn drop(self) {
        let WatchedEnd {
            alloc: _,
            channels: _,
            packets: _,
            opened: _,
            incoming: _,
            sent: _,
            read: _,
            ended: _,
        } = self;
    }
}

// The packet of this number, counted from 1.
fn packet_numbered(packets: &[Vec<u8>], number: usize) -> Option<&Vec<u8>>
    ensures { packet_at_number number (bytes_of packets.now)
        ≡ option_map (λ packet. packet.now.items) result }
{
    if number == 0 {
        return None;
    }
    packets.get(number - 1)
}

// Keeps a channel that was opened with an OPEN.
fn keep_opened(
    opened: &mut Vec<NamedChannel>,
    answer: Result<ChannelId, ChannelError>,
    options: &ChannelOptions,
) -> Result<(), AllocError>
    ensures done { OnOk result (map named_channel opened.new.items
        ≡ map named_channel opened.old.items
        ++ channels_opened (opening_of options.now) options.now.negotiated answer) }
    ensures keeps { OnErr result (opened.new.items ≡ opened.old.items) }
{
    match (answer, options.negotiated) {
        (Ok(id), None) => {
            let options = options.clone()?;
            opened.push(NamedChannel { id, options })?;
            Ok(())
        }
        _ => Ok(()),
    }
}

// Keeps a message that was accepted.
fn keep_sent(
    sent: &mut Vec<ChannelMessage>,
    answer: &Result<(), ChannelError>,
    message: ChannelMessage,
) -> Result<(), AllocError>
    ensures done { OnOk result (map named_content sent.new.items ≡ map named_content sent.old.items
        ++ messages_sent answer.now (named_content message)) }
    ensures keeps { OnErr result (sent.new.items ≡ sent.old.items) }
{
    if answer.is_ok() {
        sent.push(message)?;
    }
    Ok(())
}

impl<S: DcSctpSocket + Drop> WatchedEnd<S> {
    /// An end over a socket that was just made.
    pub fn new(alloc: Global, socket: S, limits: Limits) -> WatchedEnd<S>
        ensures { end_shown S.user_view result ≡ fresh_end (S.user_view socket) limits }
    {
        WatchedEnd {
            alloc,
            channels: Channels::new(alloc, socket, limits),
            packets: Vec::new(alloc),
            opened: Vec::new(alloc),
            incoming: Vec::new(alloc),
            sent: Vec::new(alloc),
            read: Vec::new(alloc),
            ended: Vec::new(alloc),
        }
    }

    // The user opens a channel. It is kept if it has an OPEN.
    fn open(&mut self, options: &ChannelOptions) -> Result<EndReply, SocketFault>
        ensures done { IfOk result (λ reply. (answer : _) × (reply ≡ Opened answer) × DoesCall
            (opens_channel (opening_of options.now) options.now.negotiated answer)
            (end_shown S.user_view self.old) (end_shown S.user_view self.new)) }
        ensures keeps { OnErr result (KeepsLists (end_shown S.user_view self.old)
            (end_shown S.user_view self.new)) }
    {
        let answer = self.channels.open(options)?;
        keep_opened(&mut self.opened, answer, options)?;
        Ok(EndReply::Opened(answer))
    }

    // The user sends a message, which is kept if it is accepted.
    fn send(&mut self, id: ChannelId, is_text: bool, bytes: &[u8]) -> Result<EndReply, SocketFault>
        ensures done { IfOk result (λ reply. (answer : _) × (reply ≡ Answered answer) × DoesCall
            (sends_content id.0 (record { is_text = is_text; bytes = bytes.now }) answer)
            (end_shown S.user_view self.old) (end_shown S.user_view self.new)) }
        ensures keeps { OnErr result (KeepsLists (end_shown S.user_view self.old)
            (end_shown S.user_view self.new)) }
    {
        let copy = Vec::from_slice(self.alloc, bytes)?;
        let message = ChannelMessage {
            id,
            is_text,
            bytes: copy,
        };
        let answer = self.channels.send(id, is_text, bytes)?;
        keep_sent(&mut self.sent, &answer, message)?;
        Ok(EndReply::Answered(answer))
    }

    // The user sets a threshold.
    fn set_threshold(&mut self, id: ChannelId, bytes: usize) -> Result<EndReply, SocketFault>
        ensures done { IfOk result (λ reply. (answer : _) × (reply ≡ Answered answer) × DoesCall
            (sets_threshold id.0 bytes answer) (end_shown S.user_view self.old)
            (end_shown S.user_view self.new)) }
        ensures keeps { OnErr result (KeepsLists (end_shown S.user_view self.old)
            (end_shown S.user_view self.new)) }
    {
        let answer = self.channels.set_buffered_amount_low_threshold(id, bytes)?;
        Ok(EndReply::Answered(answer))
    }

    // The user calls.
    fn call(&mut self, call: &EndCall) -> Result<EndReply, SocketFault>
        ensures done { IfOk result (λ reply. DoesCallOf call.now reply
            (end_shown S.user_view self.old) (end_shown S.user_view self.new)) }
        ensures keeps { OnErr result (KeepsLists (end_shown S.user_view self.old)
            (end_shown S.user_view self.new)) }
    {
        match call {
            EndCall::SetRole(role) => {
                self.channels.set_role(*role)?;
                Ok(EndReply::Done)
            }
            EndCall::Connect => {
                self.channels.connect()?;
                Ok(EndReply::Done)
            }
            EndCall::AdvanceTime(now) => {
                self.channels.advance_time(*now)?;
                Ok(EndReply::Done)
            }
            EndCall::Abort => {
                self.channels.abort()?;
                Ok(EndReply::Done)
            }
            EndCall::Shutdown => {
                self.channels.shutdown()?;
                Ok(EndReply::Done)
            }
            EndCall::Close(id) => {
                self.channels.close(*id)?;
                Ok(EndReply::Done)
            }
            EndCall::Open(options) => self.open(options),
            EndCall::Send(id, is_text, bytes) => self.send(*id, *is_text, bytes.as_slice()),
            EndCall::SetThreshold(id, bytes) => self.set_threshold(*id, *bytes),
        }
    }

    // Hands in the other end's packet of this number, if there is one.
    fn deliver(&mut self, packets: &[Vec<u8>], number: usize) -> Result<EndReply, SocketFault>
        ensures done { IfOk result (λ reply. HandsInPacket
            (packet_at_number number (bytes_of packets.now)) reply
            (end_shown S.user_view self.old) (end_shown S.user_view self.new)) }
        ensures keeps { OnErr result (KeepsLists (end_shown S.user_view self.old)
            (end_shown S.user_view self.new)) }
    {
        match packet_numbered(packets, number) {
            None => Ok(EndReply::NoCall),
            Some(packet) => {
                self.channels.handle_input(packet.as_slice())?;
                Ok(EndReply::Done)
            }
        }
    }

    // Keeps what the user was told.
    fn keep(&mut self, event: ChannelEvent) -> Result<(), AllocError>
        ensures done { OnOk result (KeepsNotice (notice_of event) (end_shown S.user_view self.old)
            (end_shown S.user_view self.new)) }
        ensures keeps { OnErr result (KeepsLists (end_shown S.user_view self.old)
            (end_shown S.user_view self.new)) }
    {
        match event {
            ChannelEvent::SendPacket(packet) => self.packets.push(packet)?,
            ChannelEvent::Incoming(id, options) => self
                .incoming
                .push(NamedChannel { id, options })?,
            ChannelEvent::Message(id, is_text, bytes) => self
                .read
                .push(ChannelMessage { id, is_text, bytes })?,
            ChannelEvent::Closed(id, why) => self.ended.push(EndedChannel { id, why })?,
            _ => {}
        }
        Ok(())
    }

    // The user takes what happened first, and it is kept.
    fn poll(&mut self) -> Result<EndReply, SocketFault>
        ensures done { IfOk result (λ reply. TakesNext reply (end_shown S.user_view self.old)
            (end_shown S.user_view self.new)) }
        ensures keeps { OnErr result (KeepsLists (end_shown S.user_view self.old)
            (end_shown S.user_view self.new)) }
    {
        if self.channels.has_failed() {
            return Err(SocketFault::Failed);
        }
        match self.channels.poll_event()? {
            None => Ok(EndReply::Polled(false)),
            Some(event) => {
                self.keep(event)?;
                Ok(EndReply::Polled(true))
            }
        }
    }

    /// Performs a step at this end, where polls of the other gave these packets. The errors are those of the calls, and
    /// `SocketFault::OutOfMemory` if what the step showed can't be kept.
    pub fn perform(
        &mut self,
        packets: &[Vec<u8>],
        step: &ChannelStep,
    ) -> Result<EndReply, SocketFault>
        ensures done { IfOk result (λ reply. PerformsStep (bytes_of packets.now) step.now reply
            (end_shown S.user_view self.old) (end_shown S.user_view self.new)) }
        ensures keeps { OnErr result (KeepsLists (end_shown S.user_view self.old)
            (end_shown S.user_view self.new)) }
    {
        match step {
            ChannelStep::Call(_, call) => self.call(call),
            ChannelStep::Deliver(_, number) => self.deliver(packets, *number),
            ChannelStep::Poll(_) => self.poll(),
        }
    }
}
