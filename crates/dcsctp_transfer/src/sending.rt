//! What goes into a packet: data, and what acknowledges data that was received (RFC 9260, sections 6.1 and
//! 6.2).

ghost use Rattle.std.specs.Prelude.{◌≡◌, ◌≤◌, ◌<◌, ◌+◌, ◌^◌, ◌||◌, nat_lt, length, false, true, IfOk, OnOk, OnErr, IsOk};
ghost use Rattle.std.specs.List.{AllByRecursion};
ghost use Rattle.dcsctp_send_retransmission.specs.wire.Content.{data_chunk, i_data_chunk, sack_chunk, chunk_content};
ghost use Rattle.dcsctp_send_retransmission.specs.wire.ReadsBack.{IsByte, FitsChunk};
ghost use Rattle.dcsctp_send_retransmission.specs.wire.Spelling.{chunk_bytes};
ghost use Rattle.dcsctp_wire_build.specs.Building.{bytes_remaining};
ghost use Rattle.dcsctp_send_retransmission.specs.spec.queues.SendQueue.{has_queued_data};
ghost use Rattle.dcsctp_send_retransmission.specs.spec.queues.Retransmission.{outstanding_count, has_fast_retransmit, can_send};
ghost use Rattle.dcsctp_send_retransmission.specs.spec.queues.Chunks.{flags_said, ppid_or_fsn, data_said, i_data_said, chunk_said};
ghost use Rattle.dcsctp_send_retransmission.specs.spec.queues.Outstanding.{header_of};
ghost use Rattle.dcsctp_send_retransmission.specs.Outstanding.{FindsPlaces};
ghost use Rattle.dcsctp_send_retransmission.specs.send_queue.Telling.{contents};
ghost use Rattle.dcsctp_send_retransmission.specs.spec.queues.Items.{chunk_size, is_first_abandoned};
ghost use Rattle.dcsctp_send_retransmission.specs.Sending.{HandsOut};
ghost use Rattle.dcsctp_transfer.specs.Filling.{AddsFirstOfFilling, FillsDataPacket, is_sack_wanted, with_chunk, FillsRequestedSack, packet_stage};
ghost use Rattle.dcsctp_send_retransmission.specs.spec.queues.Transfer.{may_give};
ghost use Rattle.dcsctp_transfer.specs.Sacks.{FillsAtOnce};
ghost use Rattle.dcsctp_transfer.specs.Adding.{HasChunkWithin, AddsChunkOf, AddsChunks, sack_said};

use crate::transfer::Transfer;
use dcsctp_receive_tracker::SelectiveAck;
use dcsctp_send_retransmission::RetransmissionQueue;
use dcsctp_send_retransmission::api::Events;
use dcsctp_send_retransmission::send_queue::{DataToSend, SendQueue};
use dcsctp_send_retransmission::types::SocketTime;
use dcsctp_send_retransmission::wire::{Chunk, DataChunk, DataFlags, IDataChunk, SackChunk};
use dcsctp_wire_build::SctpPacketBuilder;
use std::alloc::AllocError;

impl Transfer {
    /// Puts chunks with data into the packet, and returns whether there were any. First what is sent again,
    /// then what waits, as far as it fits and the windows allow (RFC 9260, section 6.1). Messages that may
    /// not be sent any more are abandoned (RFC 3758, section 3.5).
    ///
    /// `Err`: an allocation failed; the packet is unchanged. What was taken from messages is outstanding, and
    /// some of the events may already have been added.
    pub fn fill_packet(
        &mut self,
        events: &mut Events,
        queue: &mut SendQueue,
        now: SocketTime,
        packet: &mut SctpPacketBuilder,
    ) -> Result<bool, AllocError>
        ensures ok { IfOk result (λ any. FillsDataPacket now self.old
            (packet_stage queue.old (contents events.old) packet.old) self.new
            (packet_stage queue.new (contents events.new) packet.new) any) }
        ensures told { OnErr result (AddsFirstOfFilling now (bytes_remaining packet.old) self.old
            queue.old (contents events.old) (contents events.new)) }
        ensures kept { OnErr result (packet.new ≡ packet.old) }
        ensures idle { has_queued_data queue.old ≡ false
            → outstanding_count self.old.retransmission ≡ 0 → IsOk result }
    {
        if !self.may_have_data(queue) {
            return Ok(false);
        }
        let room = packet.bytes_remaining();
        let tsns = self
            .retransmission_queue
            .get_chunks_to_send(events, queue, now, room)?;
        add_chunks(&self.retransmission_queue, &tsns, packet);
        let has_some = !tsns.is_empty();
        self.retransmission_queue.take_back(tsns);
        Ok(has_some)
    }

    /// Do items wait that were found lost, and are to be sent at once (RFC 9260, section 7.2.4)?
    pub fn has_data_at_once(&self) -> bool
        ensures { result ≡ has_fast_retransmit self.now.retransmission }
    {
        self.retransmission_queue
            .has_data_to_be_fast_retransmitted()
    }

    /// Puts chunks that were lost into the packet, as many as fit, whatever the congestion window is (RFC 9260,
    /// section 7.2.4).
    ///
    /// `Err`: an allocation failed; the packet is unchanged.
    pub fn fill_at_once(
        &mut self,
        now: SocketTime,
        packet: &mut SctpPacketBuilder,
    ) -> Result<(), AllocError>
        ensures { OnOk result (FillsAtOnce now self.old packet.old self.new packet.new) }
    {
        let room = packet.bytes_remaining();
        let tsns = self
            .retransmission_queue
            .get_chunks_for_fast_retransmit(now, room)?;
        add_chunks(&self.retransmission_queue, &tsns, packet);
        Ok(())
    }

    /// Puts a SACK into the packet if one is due. A delayed one counts if `also_if_delayed`, since other
    /// chunks are sent with it (RFC 9260, sections 6.1 and 6.2). All that was received is acknowledged by it;
    /// it is left out if it doesn't fit. With `Options::follow_rfc` it is cut to what fits, from 16 bytes on.
    ///
    /// `Err`: an allocation failed; the packet is unchanged.
    pub fn acknowledge(
        &mut self,
        also_if_delayed: bool,
        packet: &mut SctpPacketBuilder,
    ) -> Result<(), AllocError>
        ensures ok { OnOk result
            (FillsRequestedSack (is_sack_wanted also_if_delayed self.old) self.old packet.old
            self.new packet.new) }
        ensures kept { OnErr result (packet.new ≡ packet.old) }
        ensures idle { is_sack_wanted also_if_delayed self.old ≡ false → IsOk result }
    {
        if !self.data_tracker.should_send_ack(also_if_delayed) {
            return Ok(());
        }
        let window = self.window_told() % 0x1_0000_0000;
        let room = packet.bytes_remaining();
        let sack = self.data_tracker.create_selective_ack(window as u32, room)?;
        add_sack(&sack, packet);
        Ok(())
    }

    /// May more be sent? That is so if less than both windows is in flight, or nothing (RFC 9260, section
    /// 6.1).
    pub fn can_send_data(&self) -> bool
        ensures { result ≡ can_send self.now.retransmission }
    {
        self.retransmission_queue.can_send_data()
    }

    /// May data be sent now: what waits to be sent again, or a message if the windows allow more?
    pub fn may_fill(&self, queue: &SendQueue) -> bool
        ensures { result ≡ may_give queue.now self.now.retransmission }
    {
        0 < self.retransmission_queue.marked_items()
            || (queue.has_data_to_send() && self.can_send_data())
    }

    /// May anything go into the first packet of a flush: a SACK, a FORWARD-TSN, or data? A delayed SACK
    /// counts if `also_if_delayed`.
    pub fn may_fill_first(&self, queue: &SendQueue, also_if_delayed: bool) -> bool
        ensures { result ≡ false
            → (is_sack_wanted also_if_delayed self.now ≡ false)
            × (is_first_abandoned self.now.retransmission.outstanding.items ≡ false)
            × (may_give queue.now self.now.retransmission ≡ false) }
    {
        self.data_tracker.is_acknowledgement_due()
            || (self.data_tracker.owes_acknowledgement() && also_if_delayed)
            || self.retransmission_queue.is_first_abandoned()
            || self.may_fill(queue)
    }

    // Does a message wait, or is something outstanding?
    fn may_have_data(&self, queue: &SendQueue) -> bool
        ensures { result
            ≡ (has_queued_data queue.now || nat_lt 0 (outstanding_count self.now.retransmission)) }
    {
        queue.has_data_to_send() || 0 < self.retransmission_queue.outstanding_items()
    }
}

// Puts the SACK into the packet, if it fits.
fn add_sack(sack: &SelectiveAck, packet: &mut SctpPacketBuilder)
    ensures added { packet.new ≡ with_chunk packet.old (sack_chunk (sack_said sack.now)) }
    ensures blocks { AllByRecursion IsByte sack.now.gap_ack_blocks.items }
    ensures duplicates { AllByRecursion IsByte sack.now.duplicate_tsns.items }
{
    let gap_ack_blocks = in_bytes(&sack.gap_ack_blocks);
    let duplicate_tsns = in_bytes(&sack.duplicate_tsns);
    let chunk = Chunk::Sack(SackChunk {
        cumulative_tsn_ack: sack.cumulative_tsn_ack,
        a_rwnd: sack.a_rwnd,
        gap_ack_blocks,
        duplicate_tsns,
    });
    if chunk.serialized_size() <= packet.bytes_remaining() {
        packet.add(&chunk);
    }
}

// Puts the chunks of these TSNs into the packet, which has room for them.
#[inline(always)]
fn add_chunks(queue: &RetransmissionQueue, tsns: &[u32], packet: &mut SctpPacketBuilder)
    requires small { packet.old.size ≤ 65535 }
    requires room { HandsOut (bytes_remaining packet.old) queue.now.outstanding tsns.now }
    ensures adds { AddsChunks queue.now.outstanding tsns.now packet.old packet.new }
    ensures places { 0 < length tsns.now → FindsPlaces queue.now.outstanding }
{
    for tsn in tsns {
        add_chunk(queue, *tsn, packet);
    }
}

// Puts the chunk of this TSN into the packet, which has room for it.
#[inline(always)]
fn add_chunk(queue: &RetransmissionQueue, tsn: u32, packet: &mut SctpPacketBuilder)
    requires small { packet.old.size ≤ 65535 }
    requires room { HasChunkWithin (bytes_remaining packet.old) queue.now.outstanding tsn }
    ensures adds { AddsChunkOf queue.now.outstanding tsn packet.old packet.new }
    ensures places { FindsPlaces queue.now.outstanding }
{
    if let Some(fragment) = queue.chunk(tsn) {
        packet.add(&make_data_chunk(tsn, fragment, queue.is_interleaving()));
    }
}

/// The fragment under this TSN, as I-DATA if interleaving was negotiated, else as DATA (RFC 9260, section
/// 3.3.1; RFC 8260, section 2.1). It isn't to be acknowledged at once. With its header it has less than 65,536
/// bytes, by contract. Allocates nothing.
#[inline(always)]
pub fn make_data_chunk<'a>(tsn: u32, fragment: &'a DataToSend, interleaving: bool) -> Chunk<'a>
    requires { header_of interleaving + length fragment.now.payload < 2 ^ 16 }
    ensures says { chunk_content result ≡ chunk_said interleaving tsn fragment.now }
    ensures fits { FitsChunk (chunk_content result) }
    ensures size { length (chunk_bytes (chunk_content result))
        ≡ chunk_size (header_of interleaving) (length fragment.now.payload) }
{
    let stream_id = fragment.stream_id.0;
    if interleaving {
        i_data_of(
            tsn,
            stream_id,
            fragment.mid,
            ppid_or_fsn(fragment),
            fragment,
        )
    } else {
        data_of(tsn, stream_id, fragment.ssn, fragment.ppid.0, fragment)
    }
}

// The fragment as DATA with these numbers.
#[inline(always)]
fn data_of<'a>(tsn: u32, stream_id: u16, ssn: u16, ppid: u32, fragment: &'a DataToSend) -> Chunk<'a>
    requires { 16 + length fragment.now.payload < 2 ^ 16 }
    ensures says { chunk_content result
        ≡ data_chunk
        (record (data_said tsn fragment.now) { stream_id = stream_id; ssn = ssn; ppid = ppid }) }
    ensures fits { FitsChunk (chunk_content result) }
    ensures size { length (chunk_bytes (chunk_content result))
        ≡ chunk_size 16 (length fragment.now.payload) }
{
    let flags = flags_of(fragment);
    Chunk::Data(DataChunk {
        flags,
        tsn,
        stream_id,
        ssn,
        ppid,
        payload: in_bytes(&fragment.payload),
    })
}

// The fragment as I-DATA with these numbers.
fn i_data_of<'a>(
    tsn: u32,
    stream_id: u16,
    mid: u32,
    ppid_or_fsn: u32,
    fragment: &'a DataToSend,
) -> Chunk<'a>
    requires { 20 + length fragment.now.payload < 2 ^ 16 }
    ensures says { chunk_content result
        ≡ i_data_chunk
        (record (i_data_said tsn fragment.now) {
          stream_id = stream_id;
          mid = mid;
          ppid_or_fsn = ppid_or_fsn;
        }) }
    ensures fits { FitsChunk (chunk_content result) }
    ensures size { length (chunk_bytes (chunk_content result))
        ≡ chunk_size 20 (length fragment.now.payload) }
{
    let flags = flags_of(fragment);
    Chunk::IData(IDataChunk {
        flags,
        tsn,
        stream_id,
        mid,
        ppid_or_fsn,
        payload: in_bytes(&fragment.payload),
    })
}

// The bytes, each of which fits one.
pub(crate) fn in_bytes(bytes: &[u8]) -> &[u8]
    ensures same { result.now ≡ bytes.now }
    ensures fit { AllByRecursion IsByte result.now }
{
    bytes
}

// The protocol of a first fragment, and the number of each other one (RFC 8260, section 2.1).
fn ppid_or_fsn(fragment: &DataToSend) -> u32
    ensures { result ≡ ppid_or_fsn fragment.now }
{
    if fragment.is_beginning {
        fragment.ppid.0
    } else {
        fragment.fsn
    }
}

// Its flags as it is sent. It isn't to be acknowledged at once.
fn flags_of(fragment: &DataToSend) -> DataFlags
    ensures { result ≡ flags_said fragment.now }
{
    DataFlags {
        is_end: fragment.is_end,
        is_beginning: fragment.is_beginning,
        is_unordered: fragment.is_unordered,
        immediate_ack: false,
    }
}
