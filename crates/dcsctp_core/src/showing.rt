//! What a user is shown of a socket's work, and why it can't be handed over.

ghost use Rattle.std.specs.Prelude.{◌≡◌, Some};
ghost use Rattle.dcsctp_transfer.specs.types.declared.association.Held.{Held};
ghost use Rattle.dcsctp_transfer.specs.spec.endpoint.Endpoint.{established, held_by_core};
ghost use Rattle.dcsctp_transfer.specs.spec.Handover.{readiness_of, readiness_open};
ghost use Rattle.dcsctp_transfer.specs.spec.Soundness.{AreQueuesSound};
ghost use Rattle.dcsctp_transfer.specs.spec.queues.Incoming.{AreInOrder};
ghost use Rattle.dcsctp_transfer.specs.api.Messages.{incoming_streams};
ghost use Rattle.dcsctp_transfer.specs.api.Metrics.{counts_of, ShowsMetrics};
ghost use Rattle.dcsctp_core.specs.View.{endpoint_of};

use crate::context::Context;
use crate::state::{OpenPhase, State};
use dcsctp_transfer::api::{Counts, Metrics};
use dcsctp_transfer::types::HandoverReadiness;

impl<R> Context<R> {
    /// What was counted over the socket's life, and how its association is; `None` where the peer isn't known.
    pub fn metrics(&self) -> Option<Metrics>
        ensures { ShowsMetrics (endpoint_of self.now) result }
    {
        let tcb = self.state.tcb()?;
        let counts = self.counts();
        Some(Metrics {
            tx_packets_count: counts.tx_packets_count,
            tx_messages_count: counts.tx_messages_count,
            rx_packets_count: counts.rx_packets_count,
            peer_implementation: self.peer_implementation,
            uses_message_interleaving: tcb.capabilities.message_interleaving,
            uses_zero_checksum: tcb.capabilities.zero_checksum_enabled(),
            negotiated_maximum_incoming_streams: tcb
                .capabilities
                .negotiated_maximum_incoming_streams,
            negotiated_maximum_outgoing_streams: tcb
                .capabilities
                .negotiated_maximum_outgoing_streams,
            ..tcb.transfer.metrics(&self.send_queue, self.options.mtu)
        })
    }

    /// What was counted over the socket's life.
    pub fn counts(&self) -> Counts
        ensures { counts_of result ≡ (endpoint_of self.now).counts }
    {
        Counts {
            tx_packets_count: self.tx_packets_count,
            tx_messages_count: self.tx_messages_count,
            rx_packets_count: self.rx_packets_count,
        }
    }

    // Why its parts can't be handed over, whatever the phase of the association.
    fn readiness_of_parts(&self) -> HandoverReadiness
        ensures reasons { (held : Held) → held_by_core (endpoint_of self.now).core ≡ Some held
            → result.0 ≡ readiness_open (endpoint_of self.now) established held }
        ensures streams { AreInOrder (incoming_streams (endpoint_of self.now)) }
        ensures below { AreQueuesSound (endpoint_of self.now) }
    {
        let with_data = self.options.enable_handover_with_outstanding_data;
        let of_queue = self.send_queue.get_handover_readiness(with_data);
        match self.state.tcb() {
            None => HandoverReadiness::READY,
            Some(tcb) => of_queue | tcb.get_handover_readiness(with_data),
        }
    }

    /// Why the socket can't be handed over to another process.
    pub fn get_handover_readiness(&self) -> HandoverReadiness
        ensures reasons { result.0 ≡ readiness_of (endpoint_of self.now) }
        ensures streams { AreInOrder (incoming_streams (endpoint_of self.now)) }
        ensures below { AreQueuesSound (endpoint_of self.now) }
    {
        let of_parts = self.readiness_of_parts();
        match &self.state {
            State::Closed => HandoverReadiness::READY,
            State::CookieWait(_) | State::CookieEchoed(_) => {
                HandoverReadiness::WRONG_CONNECTION_STATE
            }
            State::Open(opened) => match opened.phase {
                OpenPhase::Established => of_parts,
                OpenPhase::ShutdownPending
                | OpenPhase::ShutdownSent(_)
                | OpenPhase::ShutdownReceived
                | OpenPhase::ShutdownAckSent(_) => HandoverReadiness::WRONG_CONNECTION_STATE,
            },
        }
    }
}
