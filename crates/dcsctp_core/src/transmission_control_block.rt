//! An association with a peer (RFC 9260, section 14.2).

ghost use Rattle.std.specs.Prelude.{◌≡◌, ◌==◌, ◌+◌, ◌<◌, ◌^◌, Some, bit_or, is_some, length, IfOk};
ghost use Rattle.dcsctp_transfer.specs.types.Readiness.{reason_if_true, pending_stream_reset_request};
ghost use Rattle.dcsctp_transfer.specs.types.Settings.{IsValid};
ghost use Rattle.dcsctp_transfer.specs.spec.Soundness.{IsSoundTransfer};
ghost use Rattle.dcsctp_transfer.specs.spec.queues.Chunks.{chunk_said};
ghost use Rattle.dcsctp_transfer.specs.spec.queues.Outstanding.{header_of};
ghost use Rattle.dcsctp_transfer.specs.spec.queues.Readiness.{transfer_readiness};
ghost use Rattle.dcsctp_transfer.specs.wire.Content.{chunk_content};
ghost use Rattle.dcsctp_core.specs.View.{held_of, request_number, IsMade, IsNew};
ghost use Rattle.dcsctp_core.specs.Flushing.{empty_packet};

use dcsctp_transfer::api::{
    Association, Capabilities, Held, Options, Pair, Phase, ReconfigurationResponseResult, StreamId,
};
use dcsctp_transfer::send_timer::Timer;
use dcsctp_transfer::types::HandoverReadiness;
use dcsctp_transfer::wire::{Chunk, CommonHeader};
use dcsctp_transfer::wire_build::SctpPacketBuilder;
use dcsctp_transfer::{DataToSend, Transfer, make_data_chunk};
use std::alloc::{AllocError, Global};

/// What an INIT ACK or a cookie says about the peer.
#[derive(Clone, Copy, Debug)]
pub struct Peer {
    /// Its pair.
    pub pair: Pair,

    /// Its receive window in bytes.
    pub a_rwnd: u32,

    /// What both ends support.
    pub capabilities: Capabilities,
}

/// Our own request to reset streams that isn't answered yet (RFC 6525, section 4.1).
#[derive(Drop)]
pub struct ResetRequest {
    /// Its number.
    pub number: u32,

    /// The last TSN that was assigned when the reset was first requested.
    pub last_tsn: u32,

    /// The streams that it resets.
    pub streams: Vec<StreamId>,

    /// Does it say that it isn't the request before, once more? With `Options::follow_rfc` one does that is begun.
    pub is_new: bool,

    /// Was it answered 'in progress', so that it waits to be sent again?
    pub waits_for_retry: bool,

    /// When it is sent again (RFC 6525, section 5.1.1). It runs.
    pub timer: Timer,
}

/// A request of the peer that was performed after it was in progress (RFC 6525, section 5.2.7).
#[derive(Drop)]
pub struct PerformedReset {
    /// Its number.
    pub number: u32,

    /// The last TSN that the peer had assigned.
    pub last_tsn: u32,

    /// The numbers of the streams that were reset, in their order.
    pub streams: Vec<u16>,
}

/// An association, from the moment at which the peer is known.
#[derive(Drop)]
pub struct TransmissionControlBlock {
    /// Our own pair.
    pub my: Pair,

    /// The peer's pair.
    pub peer: Pair,

    /// What both ends support.
    pub capabilities: Capabilities,

    /// Is part of the cookies that are made while the association is open (RFC 9260, section 5.2.2).
    pub tie_tag: u64,

    /// What is in flight, and what was received.
    pub transfer: Transfer,

    /// The number of our next request to reset streams (RFC 6525, section 4.1).
    pub next_outgoing_reset_req_seq_nbr: u32,

    /// The one that is outstanding.
    pub reset_request: Option<ResetRequest>,

    /// The number of the last request of the peer that was accepted.
    pub last_processed_req_seq_nbr: u32,

    /// The answer to it.
    pub last_processed_req_result: ReconfigurationResponseResult,
}

impl TransmissionControlBlock {
    /// An association with this peer, with nothing sent and nothing received. Allocates nothing.
    #[inline(always)]
    pub fn new(
        alloc: Global,
        options: &Options,
        my: Pair,
        peer: &Peer,
        tie_tag: u64,
    ) -> TransmissionControlBlock
        ensures { IsNew options.now my peer.now tie_tag result }
    {
        let transfer = Transfer::new(
            alloc,
            options,
            my.first_tsn,
            peer.pair.first_tsn,
            peer.a_rwnd,
            &peer.capabilities,
        );
        TransmissionControlBlock::with_transfer(my, peer, tie_tag, transfer)
    }

    /// An association with this peer that goes on with what was sent. Allocates nothing.
    #[inline(always)]
    pub fn with_transfer(
        my: Pair,
        peer: &Peer,
        tie_tag: u64,
        transfer: Transfer,
    ) -> TransmissionControlBlock
        ensures { IsMade my peer.now tie_tag transfer result }
    {
        TransmissionControlBlock {
            my,
            peer: peer.pair,
            capabilities: peer.capabilities,
            tie_tag,
            transfer,
            next_outgoing_reset_req_seq_nbr: my.first_tsn,
            reset_request: None,
            last_processed_req_seq_nbr: peer.pair.first_tsn.wrapping_sub(1),
            last_processed_req_result: ReconfigurationResponseResult::SuccessNothingToDo,
        }
    }

    /// A packet to the peer with no chunks, with a checksum unless zero checksum was negotiated (RFC 9653,
    /// section 5.2).
    pub fn new_packet(
        &self,
        alloc: Global,
        options: &Options,
    ) -> Result<SctpPacketBuilder, AllocError>
        requires { IsValid options.now }
        ensures { IfOk result (λ builder. builder ≡ empty_packet options.now
            (self.now.capabilities.zero_checksum_method.0 == 0) self.now.peer.tag) }
    {
        self.new_packet_in(alloc, Vec::new(alloc), options)
    }

    /// The same, in the memory of an earlier packet if it has room.
    pub fn new_packet_in(
        &self,
        alloc: Global,
        block: Vec<u8>,
        options: &Options,
    ) -> Result<SctpPacketBuilder, AllocError>
        requires { IsValid options.now }
        ensures { IfOk result (λ builder. builder ≡ empty_packet options.now
            (self.now.capabilities.zero_checksum_method.0 == 0) self.now.peer.tag) }
    {
        let header = CommonHeader {
            source_port: options.local_port,
            destination_port: options.remote_port,
            verification_tag: self.peer.tag,
        };
        let builder = SctpPacketBuilder::new_in(alloc, block, header, options.mtu)?;
        Ok(builder.write_checksum(!self.capabilities.zero_checksum_enabled()))
    }

    /// The fragment under this TSN, as a chunk to the peer: I-DATA if interleaving was negotiated, else DATA (RFC 9260,
    /// section 3.3.1; RFC 8260, section 2.1). With its header it has less than 65,536 bytes, by contract. Allocates
    /// nothing.
    pub fn make_data_chunk<'a>(&self, tsn: u32, fragment: &'a DataToSend) -> Chunk<'a>
        requires { header_of self.now.capabilities.message_interleaving
            + length fragment.now.payload < 2 ^ 16 }
        ensures { chunk_content result
            ≡ chunk_said self.now.capabilities.message_interleaving tsn fragment.now }
    {
        make_data_chunk(tsn, fragment, self.capabilities.message_interleaving)
    }

    /// Why the association can't be handed over to another process. `with_outstanding_data`: what is in
    /// flight goes along.
    pub fn get_handover_readiness(&self, with_outstanding_data: bool) -> HandoverReadiness
        ensures reasons { result.0
            ≡ bit_or (reason_if_true (is_some self.now.reset_request) pending_stream_reset_request)
            (transfer_readiness with_outstanding_data self.now.transfer) }
        ensures sound { IsSoundTransfer self.now.transfer }
    {
        HandoverReadiness::PENDING_STREAM_RESET_REQUEST & self.reset_request.is_some()
            | self.transfer.get_handover_readiness(with_outstanding_data)
    }

    /// The number of our outstanding request, if there is one. Allocates nothing.
    pub fn outstanding_number(&self) -> Option<u32>
        ensures { result ≡ request_number self.now.reset_request }
    {
        match &self.reset_request {
            None => None,
            Some(request) => Some(request.number),
        }
    }

    /// The association as a user sees it, in this phase.
    pub(crate) fn association(&self, phase: Phase) -> Association
        ensures { result ≡ record {
          phase = phase;
          my = self.now.my;
          held = Some
              (held_of self.now);
        } }
    {
        let held = Held {
            peer: self.peer,
            capabilities: self.capabilities,
            own_next: self.next_outgoing_reset_req_seq_nbr,
            own_outstanding: self.outstanding_number(),
            peer_last: self.last_processed_req_seq_nbr,
            peer_result: self.last_processed_req_result,
        };
        Association {
            phase,
            my: self.my,
            held: Some(held),
        }
    }
}
