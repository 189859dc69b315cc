//! Taking events, messages and metrics from a session, and copying what they hold.

ghost use Rattle.dcsctp_socket.specs.SocketView.{user_view_of};
ghost use Rattle.dcsctp_session.specs.Views.{view, words_ahead, bytes_of_polled, packet_in_event, streams_in_event, payload_of_taken, message_of_taken};
ghost use Rattle.dcsctp_session.specs.Calls.{PollsByOffload, GetsNextEvent, GetsNextMessage, ShowsMetricsRecord, ShowsCountsRecord};
ghost use Rattle.dcsctp_session.specs.Copying.{CopiesIfTaken, ShowsPlace};

use crate::copying::{copy_bytes, copy_streams, show_place};
use crate::records::{CountsRecord, EventRecord, MessageRecord, MetricsRecord};
use crate::session::Session;
use crate::status::Status;
use dcsctp_socket::{DcSctpSocket, Socket, SocketEvent};
use rand_chacha::ChaCha20Rng;

// Takes the event that was added first, by whether the caller makes checksums.
fn next_event(socket: &mut Socket<ChaCha20Rng>, checksum_offload: bool) -> Option<SocketEvent>
    ensures { PollsByOffload checksum_offload (user_view_of words_ahead socket.old) result
        (user_view_of words_ahead socket.new) }
{
    if checksum_offload {
        return socket.poll_event_without_checksum();
    }
    socket.poll_event()
}

impl Session {
    /// Takes the event that was added first; none if no event waits. The one that was taken before is
    /// dropped. A caller who makes checksums gets a packet with 0 in the place of its checksum.
    pub fn poll_event(&mut self) -> Option<EventRecord>
        ensures { GetsNextEvent self.old result self.new }
    {
        if let Some(SocketEvent::SendPacket(packet)) = self.taken.event.take() {
            self.socket.take_back(packet);
        }
        self.taken.event = next_event(&mut self.socket, self.checksum_offload);
        let event = self.taken.event.as_ref()?;
        Some(EventRecord::of(event))
    }

    /// Copies the packet or the text of the event that was taken last, and says how many bytes it has. A
    /// buffer that is too small is unchanged.
    pub fn event_bytes(&self, buffer: &mut [u8], length: &mut usize) -> Status
        ensures { CopiesIfTaken (bytes_of_polled self.now.taken.event) buffer.old result buffer.new
            length.new }
    {
        match &self.taken.event {
            Some(SocketEvent::SendPacket(packet)) => copy_bytes(packet.as_slice(), buffer, length),
            Some(SocketEvent::OnAborted(_, text)) => copy_bytes(text.as_bytes(), buffer, length),
            Some(SocketEvent::OnError(_, text)) => copy_bytes(text.as_bytes(), buffer, length),
            _ => {
                *length = 0;
                Status::NothingToCopy
            }
        }
    }

    /// Says where the packet of the event lies that was taken last, and how many bytes it has. It lies there until
    /// the next event is taken. `Status::NothingToCopy`: it has none.
    pub fn event_view(&self, bytes: &mut *const u8, length: &mut usize) -> Status
        ensures { ShowsPlace (packet_in_event self.now.taken.event) bytes.old result bytes.new
            length.new }
    {
        match &self.taken.event {
            Some(SocketEvent::SendPacket(packet)) => show_place(packet, bytes, length),
            _ => {
                *length = 0;
                Status::NothingToCopy
            }
        }
    }

    /// Copies the streams of the event that was taken last, and says how many there are. A buffer that is too
    /// small is unchanged.
    pub fn event_streams(&self, buffer: &mut [u16], count: &mut usize) -> Status
        ensures { CopiesIfTaken (streams_in_event self.now.taken.event) buffer.old result buffer.new
            count.new }
    {
        match &self.taken.event {
            Some(SocketEvent::OnStreamsResetFailed(ids)) => {
                copy_streams(ids.as_slice(), buffer, count)
            }
            Some(SocketEvent::OnStreamsResetPerformed(ids)) => {
                copy_streams(ids.as_slice(), buffer, count)
            }
            Some(SocketEvent::OnIncomingStreamReset(ids)) => {
                copy_streams(ids.as_slice(), buffer, count)
            }
            _ => {
                *count = 0;
                Status::NothingToCopy
            }
        }
    }

    /// Takes the message that became ready first; none if none is ready. The one that was taken before is
    /// dropped.
    pub fn get_next_message(&mut self) -> Option<MessageRecord>
        ensures { GetsNextMessage self.old result self.new }
    {
        self.taken.message = self.socket.get_next_message();
        let message = self.taken.message.as_ref()?;
        Some(MessageRecord::of(message))
    }

    /// Copies the payload of the message that was taken last, and says how many bytes it has. A buffer that
    /// is too small is unchanged.
    pub fn message_bytes(&self, buffer: &mut [u8], length: &mut usize) -> Status
        ensures { CopiesIfTaken (payload_of_taken self.now.taken.message) buffer.old result
            buffer.new length.new }
    {
        match &self.taken.message {
            Some(message) => copy_bytes(message.payload.as_slice(), buffer, length),
            None => {
                *length = 0;
                Status::NothingToCopy
            }
        }
    }

    /// Says where the payload of the message lies that was taken last, and how many bytes it has. It lies there
    /// until the next message is taken. `Status::NothingToCopy`: no message was taken.
    pub fn message_view(&self, bytes: &mut *const u8, length: &mut usize) -> Status
        ensures { ShowsPlace (message_of_taken self.now.taken.message) bytes.old result bytes.new
            length.new }
    {
        match &self.taken.message {
            Some(message) => show_place(&message.payload, bytes, length),
            None => {
                *length = 0;
                Status::NothingToCopy
            }
        }
    }

    /// What the socket has counted in its life.
    pub fn counts(&self) -> CountsRecord
        ensures { ShowsCountsRecord (view self.now) result }
    {
        CountsRecord::of(&self.socket.get_counts())
    }

    /// The metrics; none where the peer isn't known.
    pub fn metrics(&self) -> Option<MetricsRecord>
        ensures { ShowsMetricsRecord (view self.now) result }
    {
        let metrics = self.socket.get_metrics()?;
        Some(MetricsRecord::of(&metrics))
    }
}
