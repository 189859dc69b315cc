//! A session: a socket, and what was taken from it last.

ghost use Rattle.std.specs.Prelude.{◌≡◌, min, length, Some};
ghost use Rattle.dcsctp_core.specs.spec.endpoint.Endpoint.{own_tag};
ghost use Rattle.dcsctp_core.specs.spec.endpoint.TimeTurns.{next_moment};
ghost use Rattle.dcsctp_core.specs.spec.queues.SendQueue.{IsWellFormed};
ghost use Rattle.dcsctp_core.specs.types.Setting.{stream_priority, stream_low_threshold};
ghost use Rattle.dcsctp_core.specs.api.Calls.{stream_shown, socket_state_of};
ghost use Rattle.dcsctp_core.specs.api.Messages.{ready_messages};
ghost use Rattle.dcsctp_session.specs.Options.{ShowsOptions, never};
ghost use Rattle.dcsctp_session.specs.Views.{view};
ghost use Rattle.dcsctp_session.specs.Calls.{Creates, is_zero_seed, ConnectsSession, ShutDown, ClosesSession, HandlesPacket, AdvancesSession, MakesSetting, LimitsSize, SendsOneMessage, StreamsReset};

use crate::copying::{front, stream_ids};
use crate::options::{OptionsRecord, SendOptionsRecord};
use crate::status::Status;
use dcsctp_core::api::handover::SocketHandoverState;
use dcsctp_socket::{
    DcSctpSocket, Message, PpId, SendError, Socket, SocketEvent, SocketFault, SocketState,
    SocketTime, StreamId,
};
use rand_chacha::ChaCha20Rng;
use rand_core::SeedableRng;
use std::alloc::Global;
use std::time::Duration;

/// What was taken from a socket last. It can be copied until the next of its kind is taken.
#[derive(Drop)]
pub struct Taken {
    /// The last event.
    pub event: Option<SocketEvent>,

    /// The last message.
    pub message: Option<Message>,

    /// The snapshot of the last handover.
    pub snapshot: Option<SocketHandoverState>,
}

/// A socket, and what was taken from it last.
pub struct Session {
    pub alloc: Global,
    pub socket: Socket<ChaCha20Rng>,
    pub taken: Taken,

    /// Does the caller make and check the checksums of packets?
    pub checksum_offload: bool,
}

// Written out, so that the drop is proved here once.
impl Drop for Session {
    fn drop(self) {
        let Session {
            alloc: _,
            socket: _,
            taken: _,
            checksum_offload: _,
        } = self;
    }
}

/// The moment of so many nanoseconds.
pub fn moment(nanos: u64) -> SocketTime
    ensures { result ≡ nanos }
{
    SocketTime::zero() + Duration::from_nanos(nanos)
}

// Are all bytes of a seed 0, as before it is filled?
fn is_zero(seed: &[u8]) -> bool
    ensures { result ≡ is_zero_seed seed.now }
{
    seed.iter().all(|byte| *byte == 0)
}

impl Session {
    /// A closed socket, whose clock is at `now`, in nanoseconds. Its random words come from ChaCha20 with
    /// this seed.
    ///
    /// `Status::WrongSize`: the record has another size than that of this library, and nothing else of it was
    /// read. `Status::InvalidOptions`: no socket can be made with these options, or all bytes of the seed are
    /// 0: it was never filled, and whoever knows that can forge packets. `Status::OutOfMemory`: an allocation
    /// failed.
    pub fn new(
        alloc: Global,
        options: &OptionsRecord,
        seed: [u8; 32],
        now: u64,
    ) -> Result<Session, Status>
        ensures { Creates options.now seed now result }
    {
        if !options.is_sized() {
            return Err(Status::WrongSize);
        }
        if is_zero(&seed) {
            return Err(Status::InvalidOptions);
        }
        let checksum_offload = options.is_checksum_offload();
        let options = options.options();
        if !options.is_valid() {
            return Err(Status::InvalidOptions);
        }
        let rng = ChaCha20Rng::from_seed(seed);
        let Ok(mut socket) = Socket::new(alloc, "", &options, rng) else {
            return Err(Status::OutOfMemory);
        };
        if socket.advance_time(moment(now)).is_err() {
            return Err(Status::OutOfMemory);
        }
        Ok(Session {
            alloc,
            socket,
            taken: Taken {
                event: None,
                message: None,
                snapshot: None,
            },
            checksum_offload,
        })
    }

    /// Its socket. What was taken from it is dropped.
    pub fn into_socket(self) -> Socket<ChaCha20Rng>
        ensures { result ≡ self.socket }
    {
        let Session {
            alloc: _,
            socket,
            taken: _,
            checksum_offload: _,
        } = self;
        socket
    }

    /// Begins an association.
    pub fn connect(&mut self) -> Status
        ensures { ConnectsSession self.old result self.new }
    {
        Status::of_call(self.socket.connect())
    }

    /// Shuts the association down.
    pub fn shutdown(&mut self) -> Status
        ensures { ShutDown self.old result self.new }
    {
        Status::of_call(self.socket.shutdown())
    }

    /// Ends the association at once.
    pub fn close(&mut self) -> Status
        ensures { ClosesSession self.old result self.new }
    {
        Status::of_call(self.socket.close())
    }

    /// Handles a packet from the peer.
    pub fn handle_input(&mut self, packet: &[u8]) -> Status
        ensures { HandlesPacket packet.now self.old result self.new }
    {
        Status::of_call(self.socket.handle_input(packet))
    }

    /// Sets the clock to `now`, in nanoseconds, and handles what is due.
    pub fn advance_time(&mut self, now: u64) -> Status
        ensures { AdvancesSession now self.old result self.new }
    {
        Status::of_call(self.socket.advance_time(moment(now)))
    }

    /// The socket's next deadline in nanoseconds; the greatest number if there is none.
    pub fn poll_timeout(&self) -> u64
        ensures { result ≡ min (next_moment (view self.now).endpoint) never }
    {
        match u64::try_from(self.socket.poll_timeout().as_nanos()) {
            Ok(nanos) => nanos,
            Err(_) => 0xffff_ffff_ffff_ffff,
        }
    }

    /// Sends a message, whose payload is copied. One that is too long is refused by its length, so no more of
    /// it is copied than a message may have, and one byte.
    ///
    /// `Status::InvalidSendOptions`: a bit of the options is set that has no meaning. Nothing has changed, and
    /// a socket that has failed returns this, too.
    ///
    /// `Status::OutOfMemory` if the copy failed, too: then nothing has changed, on a socket that has failed as
    /// well.
    pub fn send(
        &mut self,
        stream_id: u16,
        ppid: u32,
        payload: &[u8],
        options: &SendOptionsRecord,
    ) -> Status
        ensures { SendsOneMessage (record {
          stream = stream_id;
          ppid = ppid;
          payload = payload.now;
        }) options.now self.old result self.new }
    {
        if !options.is_valid() {
            return Status::InvalidSendOptions;
        }
        let limit = self.socket.options().max_message_size;
        let Ok(payload) = Vec::from_slice(self.alloc, front(payload, limit)) else {
            return Status::OutOfMemory;
        };
        let message = Message::new(StreamId(stream_id), PpId(ppid), payload);
        Status::of_send(self.socket.send(message, &options.options()))
    }

    /// Resets streams.
    ///
    /// `Status::OutOfMemory` if the list couldn't be copied, too: then nothing has changed, on a socket that has
    /// failed as well.
    pub fn reset_streams(&mut self, numbers: &[u16]) -> Status
        ensures { StreamsReset numbers.now self.old result self.new }
    {
        let Ok(ids) = stream_ids(self.alloc, numbers) else {
            return Status::OutOfMemory;
        };
        Status::of_reset(self.socket.reset_streams(ids.as_slice()))
    }

    /// Sets the priority of a stream.
    pub fn set_stream_priority(&mut self, stream_id: u16, priority: u16) -> Status
        ensures { MakesSetting (stream_priority stream_id priority) self.old result self.new }
    {
        Status::of_call(
            self.socket
                .set_stream_priority(StreamId(stream_id), priority),
        )
    }

    /// Sets the low threshold of a stream, in bytes.
    pub fn set_buffered_amount_low_threshold(&mut self, stream_id: u16, bytes: usize) -> Status
        ensures { MakesSetting (stream_low_threshold stream_id bytes) self.old result self.new }
    {
        Status::of_call(
            self.socket
                .set_buffered_amount_low_threshold(StreamId(stream_id), bytes),
        )
    }

    /// Sets how many bytes a message may have from now on.
    pub fn set_max_message_size(&mut self, bytes: usize) -> Status
        ensures { LimitsSize bytes self.old result self.new }
    {
        self.socket.set_max_message_size(bytes);
        Status::Done
    }

    /// The state of the association.
    pub fn state(&self) -> SocketState
        ensures { result ≡ socket_state_of (view self.now).endpoint.core }
    {
        self.socket.state()
    }

    /// Did an allocation fail in an earlier call?
    pub fn has_failed(&self) -> bool
        ensures { result ≡ (view self.now).failed }
    {
        self.socket.has_failed()
    }

    /// Our own verification tag, which the peer's packets carry (RFC 9260, sections 3.1 and 5.3.1); 0 in the
    /// closed state.
    pub fn verification_tag(&self) -> u32
        ensures { result ≡ own_tag (view self.now).endpoint.core }
    {
        self.socket.verification_tag()
    }

    /// The options of the socket.
    pub fn options(&self) -> OptionsRecord
        ensures { ShowsOptions result (view self.now).endpoint.options self.now.checksum_offload }
    {
        OptionsRecord::of(&self.socket.options(), self.checksum_offload)
    }

    /// The payload bytes that wait to be sent on a stream.
    pub fn buffered_amount(&self, stream_id: u16) -> usize
        ensures amount { result ≡ (stream_shown (view self.now) stream_id).amount }
        ensures queue { IsWellFormed (view self.now).endpoint.queues.queue }
    {
        self.socket.buffered_amount(StreamId(stream_id))
    }

    /// The low threshold of a stream, in bytes.
    pub fn buffered_amount_low_threshold(&self, stream_id: u16) -> usize
        ensures { result ≡ (stream_shown (view self.now) stream_id).threshold }
    {
        self.socket
            .buffered_amount_low_threshold(StreamId(stream_id))
    }

    /// The priority of a stream.
    pub fn stream_priority(&self, stream_id: u16) -> u16
        ensures { result ≡ (stream_shown (view self.now) stream_id).priority }
    {
        self.socket.get_stream_priority(StreamId(stream_id))
    }

    /// How many messages are ready to be taken.
    pub fn messages_ready_count(&self) -> usize
        ensures { result ≡ length (ready_messages (view self.now).endpoint) }
    {
        self.socket.messages_ready_count()
    }
}
