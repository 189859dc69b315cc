//! Taking events, and copying or showing what they hold.

ghost use Rattle.std.specs.Prelude.{◌≡◌};
ghost use Rattle.dcsctp_session.specs.Copying.{CopiesIfTaken, ShowsPlace};
ghost use Rattle.dcsctp_channel_session.specs.Records.{memory_of_taken, items_of_memory, options_of_taken};
ghost use Rattle.dcsctp_channel_session.specs.Taking.{PollsNextEvent};

use crate::records::{ChannelEventRecord, ShownOptions};
use crate::session::ChannelSession;
use dcsctp_channel_calls::ChannelEvent;
use dcsctp_session::{Status, copy_bytes, show_place};

impl ChannelSession {
    /// Takes what happened first, and writes it; a record of 0 if nothing has. The event that was taken before is
    /// dropped.
    pub fn poll(&mut self, told: &mut ChannelEventRecord) -> Status
        ensures { PollsNextEvent self.old result told.new self.new }
    {
        if let Some(ChannelEvent::SendPacket(packet)) = self.event.take() {
            self.channels.socket().take_back(packet);
        }
        *told = ChannelEventRecord::none();
        match self.channels.poll_event() {
            Ok(Some(event)) => {
                *told = ChannelEventRecord::of(&event);
                self.event = Some(event);
                Status::Taken
            }
            Ok(None) => Status::Done,
            Err(fault) => Status::of_fault(fault),
        }
    }

    /// Copies the packet or the message of the event that was taken last, and says how many bytes it has. A buffer
    /// that is too small is unchanged.
    pub fn event_bytes(&self, buffer: &mut [u8], length: &mut usize) -> Status
        ensures { CopiesIfTaken (items_of_memory (memory_of_taken self.now.event)) buffer.old result
            buffer.new length.new }
    {
        match &self.event {
            Some(ChannelEvent::SendPacket(packet)) => copy_bytes(packet.as_slice(), buffer, length),
            Some(ChannelEvent::Message(_, _, bytes)) => copy_bytes(
                bytes.as_slice(),
                buffer,
                length,
            ),
            _ => {
                *length = 0;
                Status::NothingToCopy
            }
        }
    }

    /// Says where the packet or the message of the event lies that was taken last, and how many bytes it has. It lies
    /// there until the next event is taken.
    pub fn event_view(&self, bytes: &mut *const u8, length: &mut usize) -> Status
        ensures { ShowsPlace (memory_of_taken self.now.event) bytes.old result bytes.new
            length.new }
    {
        match &self.event {
            Some(ChannelEvent::SendPacket(packet)) => show_place(packet, bytes, length),
            Some(ChannelEvent::Message(_, _, message)) => show_place(message, bytes, length),
            _ => {
                *length = 0;
                Status::NothingToCopy
            }
        }
    }

    /// What the peer opened the channel with, if the event that was taken last says so. Its texts lie there until the
    /// next event is taken.
    pub fn event_options(&self) -> Option<ShownOptions>
        ensures { result ≡ options_of_taken self.now.event }
    {
        match &self.event {
            Some(ChannelEvent::Incoming(_, options)) => Some(ShownOptions::of(options)),
            _ => None,
        }
    }
}
