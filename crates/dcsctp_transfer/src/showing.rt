//! What a user is shown of an association's data, and why it can't be handed over.

ghost use Rattle.std.specs.Prelude.{◌≡◌, ◌<◌};
ghost use Rattle.dcsctp_send_retransmission.specs.spec.Soundness.{IsSoundTransfer};
ghost use Rattle.dcsctp_send_retransmission.specs.spec.queues.Readiness.{transfer_readiness};
ghost use Rattle.dcsctp_send_retransmission.specs.api.Metrics.{headers, ShowsTransfer};

use crate::transfer::Transfer;
use dcsctp_send_retransmission::api::{Metrics, SctpImplementation};
use dcsctp_send_retransmission::send_queue::SendQueue;
use dcsctp_send_retransmission::types::HandoverReadiness;

// A packet's header and one of DATA (RFC 9260, sections 3.1 and 3.3.1).
const HEADERS: usize = 28;

impl Transfer {
    /// What is shown of what is in flight, of the path and of the peer's window, with packets of `mtu` bytes.
    /// The caller sets the rest.
    pub fn metrics(&self, queue: &SendQueue, mtu: usize) -> Metrics
        requires { headers < mtu }
        ensures { ShowsTransfer mtu queue.now self.now result }
    {
        let waiting = queue.total_buffered_amount().div_ceil(mtu - HEADERS);
        Metrics {
            tx_packets_count: 0,
            tx_messages_count: 0,
            rtx_packets_count: self.retransmission_queue.rtx_packets_count(),
            rtx_bytes_count: self.retransmission_queue.rtx_bytes_count(),
            cwnd_bytes: self.retransmission_queue.cwnd(),
            srtt: self.rto.srtt(),
            unack_data_count: self
                .retransmission_queue
                .unacked_items()
                .saturating_add(waiting),
            rx_packets_count: 0,
            rx_messages_count: self.reassembly_queue.rx_messages_count() as usize,
            peer_rwnd_bytes: u32::try_from(self.retransmission_queue.rwnd()).unwrap_or(u32::MAX),
            peer_implementation: SctpImplementation::Unknown,
            uses_message_interleaving: false,
            uses_zero_checksum: false,
            negotiated_maximum_incoming_streams: 0,
            negotiated_maximum_outgoing_streams: 0,
        }
    }

    /// Why the association can't be handed over to another process. `with_outstanding_data`: what is in
    /// flight goes along.
    pub fn get_handover_readiness(&self, with_outstanding_data: bool) -> HandoverReadiness
        ensures reasons { result.0 ≡ transfer_readiness with_outstanding_data self.now }
        ensures sound { IsSoundTransfer self.now }
    {
        self.retransmission_queue
            .get_handover_readiness(with_outstanding_data)
            | (self.data_tracker.get_handover_readiness()
                | self.reassembly_queue.get_handover_readiness())
    }
}
