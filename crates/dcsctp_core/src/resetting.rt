//! Our own reset of streams is begun (RFC 6525, section 5.1.2).

ghost use Rattle.std.specs.Prelude.{◌≡◌, ◌≤◌, ◌+◌, ◌-◌, ◌*◌, ◌/◌, ◌++◌, Some, true, length, map, IfOk, OnOk, OnErr, IsOk};
ghost use Rattle.std.specs.List.{flat_map, AllByRecursion};
ghost use Rattle.std.specs.Int.{w16, to_be_bytes};
ghost use Rattle.dcsctp_transfer.specs.wire.Spelling.{chunk_bytes};
ghost use Rattle.dcsctp_transfer.specs.wire_build.Building.{bytes_remaining};
ghost use Rattle.dcsctp_transfer.specs.spec.queues.OwnResets.{ready_streams};
ghost use Rattle.dcsctp_transfer.specs.spec.endpoint.Timers.{started_timer};
ghost use Rattle.dcsctp_transfer.specs.types.Ids.{stream_numbers};
ghost use Rattle.dcsctp_transfer.specs.spec.Reconfiguration.{number_answered};
ghost use Rattle.dcsctp_transfer.specs.spec.Packet.{chunk_out};
ghost use Rattle.dcsctp_transfer.specs.spec.queues.Transfer.{is_none_ready};
ghost use Rattle.dcsctp_transfer.specs.spec.association.FlushChanges.{reset_request};
ghost use Rattle.dcsctp_transfer.specs.spec.endpoint.BegunResets.{streams_within, reconfiguration_settings};
ghost use Rattle.dcsctp_core.specs.Resetting.{AddsRequest, HasRoomForRequest, IsStream, StartsReset, BeginsReset, reset_of};

use crate::transmission_control_block::{ResetRequest, TransmissionControlBlock};
use dcsctp_transfer::api::{SocketTime, StreamId};
use dcsctp_transfer::send_timer::{BackoffAlgorithm, Timer};
use dcsctp_transfer::wire::{Chunk, OutgoingSsnResetRequestParameter, Parameter, ReConfigChunk};
use dcsctp_transfer::wire_build::SctpPacketBuilder;
use dcsctp_transfer::{SendQueue, Transfer};
use std::alloc::{AllocError, Global};

// How many streams a request may name if its chunk has that much room. It has 20 bytes and 2 for each stream,
// padded to a multiple of 4 (RFC 6525, section 4.1).
fn streams_within(room: usize) -> usize
    ensures { result ≡ streams_within room }
{
    room.saturating_sub(20) / 4 * 2
}

// The number of a stream.
fn number_of(stream: StreamId) -> u16
    ensures { result ≡ stream.0 }
{
    stream.0
}

/// The streams as a request has them, two bytes each.
pub fn stream_bytes(alloc: Global, streams: &[StreamId]) -> Result<Vec<u8>, AllocError>
    ensures bytes { IfOk result
        (λ bytes. bytes.items ≡ flat_map (to_be_bytes w16) (stream_numbers streams.now)) }
    ensures fit { OnOk result (AllByRecursion IsStream (stream_numbers streams.now)) }
{
    let mut bytes = Vec::new(alloc);
    for stream in streams {
        let number = number_of(*stream);
        bytes.extend_from_slice(&number.to_be_bytes())?;
    }
    Ok(bytes)
}

/// The number that a request of this number has in the place of the one that it answers: it answers no request of
/// the peer. One that says that it is new has the number before its own there (RFC 6525, section 4.1).
pub fn number_answered(number: u32, is_new: bool) -> u32
    ensures { result ≡ number_answered number is_new }
{
    if is_new {
        number.wrapping_sub(1)
    } else {
        number
    }
}

// Puts the request into the packet, if it fits: a RE-CONFIG with one Outgoing SSN Reset Request. `Err`: an
// allocation failed; the packet is unchanged.
fn put_request(
    alloc: Global,
    request: &ResetRequest,
    packet: &mut SctpPacketBuilder,
) -> Result<(), AllocError>
    requires { length
        (chunk_bytes (chunk_out (reset_request request.now.number (reset_of request.now))))
        ≤ bytes_remaining packet.old }
    ensures fit { OnOk result (AllByRecursion IsStream (stream_numbers request.now.streams.items)) }
    ensures packet { OnOk result (packet.new ≡ record packet.old {
      body = packet.old.body
          ++ chunk_bytes
          (chunk_out (reset_request request.now.number (reset_of request.now)));
    }) }
{
    let streams = stream_bytes(alloc, &request.streams)?;
    let mut parameters = Vec::new(alloc);
    parameters.push(Parameter::OutgoingSsnResetRequest(OutgoingSsnResetRequestParameter {
        request_seq_nbr: request.number,
        response_seq_nbr: number_answered(request.number, request.is_new),
        sender_last_assigned_tsn: request.last_tsn,
        streams: &streams,
    }))?;
    packet.add(&Chunk::ReConfig(ReConfigChunk { parameters }));
    Ok(())
}

// The timer by which a request is sent again, started now with the present retransmission timeout. Each wait is
// twice the last one, and with `Options::follow_rfc` no longer than the retransmission timer's. It never stops by
// itself (RFC 6525, section 5.1.1).
pub(crate) fn reconfiguration_timer(transfer: &Transfer, now: SocketTime) -> Timer
    ensures { result.running ≡ started_timer now (reconfiguration_settings (Some transfer.now)) }
{
    let rto = transfer.rto();
    let mut timer = Timer::new(
        rto,
        BackoffAlgorithm::Exponential,
        None,
        transfer.longest_wait(),
    );
    timer.start(now);
    timer
}

/// When a request begins, and whether it says that it is new: with `Options::follow_rfc` it does.
#[derive(Clone, Copy)]
pub struct RequestStart {
    pub now: SocketTime,
    pub is_new: bool,
}

impl TransmissionControlBlock {
    /// Adds our outstanding request, if there is one, to a packet with room for it. It is a RE-CONFIG with
    /// one Outgoing SSN Reset Request (RFC 6525, section 4.1).
    ///
    /// `Err`: an allocation failed; the packet is unchanged.
    pub fn add_prepared_ssn_reset_request(
        &self,
        alloc: Global,
        packet: &mut SctpPacketBuilder,
    ) -> Result<(), AllocError>
        requires { HasRoomForRequest self.now.reset_request packet.old }
        ensures { OnOk result (AddsRequest self.now.reset_request packet.old packet.new) }
    {
        match &self.reset_request {
            None => Ok(()),
            Some(request) => put_request(alloc, request, packet),
        }
    }

    /// Begins a reset of these streams (RFC 6525, section 5.1.2). It takes the next number and is outstanding
    /// from now on; its request is added to a packet with room for it. At least one stream is named.
    ///
    /// `Err`: an allocation failed; the packet is unchanged.
    pub fn start_ssn_reset_request(
        &mut self,
        alloc: Global,
        start: RequestStart,
        streams: Vec<StreamId>,
        packet: &mut SctpPacketBuilder,
    ) -> Result<(), AllocError>
        requires { 20 + (length streams.items + 1) / 2 * 4 ≤ bytes_remaining packet.old }
        ensures { OnOk result
            (StartsReset start (stream_numbers streams.items) self.old packet.old self.new
            packet.new) }
    {
        let last_tsn = self.transfer.begin_reset_streams();
        let number = self.next_outgoing_reset_req_seq_nbr;
        let request = ResetRequest {
            number,
            last_tsn,
            streams,
            is_new: start.is_new,
            waits_for_retry: false,
            timer: reconfiguration_timer(&self.transfer, start.now),
        };
        self.next_outgoing_reset_req_seq_nbr = number.wrapping_add(1);
        self.reset_request = Some(request);
        self.add_prepared_ssn_reset_request(alloc, packet)
    }

    /// Begins a reset of streams that are ready for it, if no other is outstanding. Its request is added to
    /// the packet, and names as many streams as fit there, the first of them; the others stay ready. If none
    /// fits nothing changes. `Err`: an allocation failed.
    pub fn begin_reset(
        &mut self,
        alloc: Global,
        start: RequestStart,
        queue: &mut SendQueue,
        packet: &mut SctpPacketBuilder,
    ) -> Result<(), AllocError>
        ensures ok { OnOk result
            (BeginsReset start queue.old self.old packet.old queue.new self.new packet.new) }
        ensures idle { is_none_ready (ready_streams queue.old) ≡ true → IsOk result }
    {
        if self.reset_request.is_some() || !queue.has_streams_ready_to_be_reset() {
            return Ok(());
        }
        let room = packet.bytes_remaining();
        let streams = queue.get_streams_ready_to_reset(streams_within(room))?;
        if streams.is_empty() {
            return Ok(());
        }
        self.start_ssn_reset_request(alloc, start, streams, packet)
    }
}
