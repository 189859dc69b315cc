//! FORWARD-TSN chunks: the peer needn't wait any more for messages that were abandoned (RFC 3758, section 3.5;
//! RFC 8260, section 2.3.1).

ghost use Rattle.std.specs.Prelude.{◌≡◌, ◌≤◌, ◌<◌, ◌^◌, min, IfOk, OnOk, OnErr, IsOk};
ghost use Rattle.std.specs.List.{AllByRecursion};
ghost use Rattle.dcsctp_send_retransmission.specs.wire.Content.{chunk_content};
ghost use Rattle.dcsctp_send_retransmission.specs.wire.ReadsBack.{IsByte};
ghost use Rattle.dcsctp_send_retransmission.specs.spec.endpoint.Timers.{moment_after};
ghost use Rattle.dcsctp_send_retransmission.specs.spec.queues.Retransmission.{outstanding_count};
ghost use Rattle.dcsctp_send_retransmission.specs.send_queue.Telling.{contents};
ghost use Rattle.dcsctp_send_retransmission.specs.SkippedBytes.{ReadsAs};
ghost use Rattle.dcsctp_transfer.specs.Filling.{with_chunk, packet_stage};
ghost use Rattle.dcsctp_transfer.specs.Forwarding.{forward_said, PutsForward, MakesForwardTsn, AddsFirstOfAbandoning};

use crate::sending::in_bytes;
use crate::transfer::Transfer;
use dcsctp_send_retransmission::api::Events;
use dcsctp_send_retransmission::send_queue::SendQueue;
use dcsctp_send_retransmission::send_timer::RetransmissionTimeout;
use dcsctp_send_retransmission::types::SocketTime;
use dcsctp_send_retransmission::wire::{Chunk, ForwardTsnChunk, IForwardTsnChunk};
use dcsctp_send_retransmission::{ForwardTsn, RetransmissionQueue, Skipped};
use dcsctp_wire_build::SctpPacketBuilder;
use std::alloc::{AllocError, Global};
use std::time::Duration;

impl Transfer {
    /// Abandons messages that may not be sent any more, if partial reliability was negotiated. Puts a
    /// FORWARD-TSN into the packet if the first outstanding item was abandoned (RFC 3758, section 3.5). With
    /// interleaving it is an I-FORWARD-TSN (RFC 8260, section 2.3.1). One that doesn't fit is left out.
    ///
    /// If one was made, returns the moment before which the next one may not be made. It is 200 milliseconds
    /// after this one, or a round trip, if that is less. If nothing is outstanding, nothing is allocated.
    ///
    /// `Err`: an allocation failed; the packet is unchanged. Some messages may have been abandoned, and some
    /// of the events may already have been added.
    pub fn forward_tsn(
        &mut self,
        events: &mut Events,
        queue: &mut SendQueue,
        now: SocketTime,
        packet: &mut SctpPacketBuilder,
    ) -> Result<Option<SocketTime>, AllocError>
        ensures ok { IfOk result (λ next. MakesForwardTsn now self.old
            (packet_stage queue.old (contents events.old) packet.old) self.new
            (packet_stage queue.new (contents events.new) packet.new) next) }
        ensures told { OnErr result (AddsFirstOfAbandoning now self.old queue.old
            (contents events.old) (contents events.new)) }
        ensures kept { OnErr result (packet.new ≡ packet.old) }
        ensures idle { outstanding_count self.old.retransmission ≡ 0 → IsOk result }
    {
        if self.retransmission_queue.outstanding_items() == 0 {
            return Ok(None);
        }
        if !self
            .retransmission_queue
            .should_send_forward_tsn(events, queue, now)?
        {
            return Ok(None);
        }
        put_forward_tsn(&self.retransmission_queue, self.alloc, packet)?;
        Ok(Some(next_forward_tsn(&self.rto, now)))
    }
}

// The moment before which no further FORWARD-TSN is to be made, after one at this moment (RFC 3758,
// section 3.5).
fn next_forward_tsn(rto: &RetransmissionTimeout, now: SocketTime) -> SocketTime
    ensures { result ≡ moment_after now (min 200000000 rto.now.srtt) }
{
    let wait = rto.srtt().as_nanos().min(200_000_000);
    now + Duration::from_nanos_u128(wait)
}

// Puts a FORWARD-TSN or I-FORWARD-TSN of what was abandoned into the packet, if it fits.
fn put_forward_tsn(
    queue: &RetransmissionQueue,
    alloc: Global,
    packet: &mut SctpPacketBuilder,
) -> Result<(), AllocError>
    ensures ok { OnOk result (PutsForward queue.now packet.old packet.new) }
    ensures kept { OnErr result (packet.new ≡ packet.old) }
{
    let forward = queue.create_forward_tsn()?;
    let entries = forward.skipped_bytes(alloc)?;
    add_forward_tsn(&forward, &entries, packet);
    Ok(())
}

// Puts the chunk with these entries into the packet, if it fits.
fn add_forward_tsn(forward: &ForwardTsn, entries: &[u8], packet: &mut SctpPacketBuilder)
    ensures added { packet.new
        ≡ with_chunk packet.old
        (forward_said forward.now.new_cumulative_tsn entries.now forward.now.skipped) }
    ensures tsn { forward.now.new_cumulative_tsn < 2 ^ 32 }
    ensures bytes { AllByRecursion IsByte entries.now }
    ensures small { packet.old.size ≤ 65535 }
{
    let chunk = forward_chunk(forward, in_bytes(entries));
    if chunk.serialized_size() <= packet.bytes_remaining() {
        packet.add(&chunk);
    }
}

// The chunk with these entries.
fn forward_chunk<'a>(forward: &ForwardTsn, entries: &'a [u8]) -> Chunk<'a>
    ensures { chunk_content result
        ≡ forward_said forward.now.new_cumulative_tsn entries.now forward.now.skipped }
{
    let new_cumulative_tsn = forward.new_cumulative_tsn;
    match &forward.skipped {
        Skipped::Streams(_) => Chunk::ForwardTsn(ForwardTsnChunk {
            new_cumulative_tsn,
            skipped_streams: entries,
        }),
        Skipped::Messages(_) => Chunk::IForwardTsn(IForwardTsnChunk {
            new_cumulative_tsn,
            skipped_streams: entries,
        }),
    }
}
