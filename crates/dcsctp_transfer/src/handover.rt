//! What a snapshot has of what is sent and what was received, and how both continue from it.

ghost use Rattle.std.specs.Prelude.{◌≡◌, true, [], OnOk};
ghost use Rattle.std.specs.List.{list_all};
ghost use Rattle.dcsctp_send_retransmission.specs.types.Snapshot.{send_part, received_part, has_bytes_or_is_abandoned, is_valid_queued};
ghost use Rattle.dcsctp_send_retransmission.specs.spec.queues.OutstandingParts.{with_retransmission};
ghost use Rattle.dcsctp_send_retransmission.specs.spec.queues.QueuedParts.{part_with_queue, queue_restored};
ghost use Rattle.dcsctp_send_retransmission.specs.spec.queues.ReceivedParts.{part_with_tracker, with_reassembly};
ghost use Rattle.dcsctp_send_retransmission.specs.spec.endpoint.RestoreOutcomes.{RestoresTransfer};

use crate::transfer::Transfer;
use dcsctp_send_retransmission::api::SocketTime;
use dcsctp_send_retransmission::types::{HandoverReceive, HandoverTransmission};
use std::alloc::AllocError;

impl Transfer {
    /// Adds what a snapshot that is made at the moment `now` has of the association: the TSNs and the windows,
    /// what is in flight if it goes along, and what was received. `Err`: an allocation failed.
    pub fn add_to_handover_state(
        &self,
        now: SocketTime,
        with_outstanding_data: bool,
        tx: &mut HandoverTransmission,
        rx: &mut HandoverReceive,
    ) -> Result<(), AllocError>
        ensures sent { OnOk result
            (send_part tx.new
            ≡ with_retransmission now with_outstanding_data self.now.retransmission
            (send_part tx.old)) }
        ensures received { OnOk result
            (received_part rx.new
            ≡ with_reassembly self.now.reassembly
            (part_with_tracker self.now.tracker (received_part rx.old))) }
    {
        self.retransmission_queue
            .add_to_handover_state(now, with_outstanding_data, tx)?;
        self.data_tracker.add_to_handover_state(rx);
        self.reassembly_queue.add_to_handover_state(rx)
    }

    /// An association that was just made continues from the snapshot, restored at the moment `now`. `was_reset`:
    /// our streams were reset before. `Err`: an allocation failed, and only some of it is restored.
    pub fn restore_from_state(
        &mut self,
        now: SocketTime,
        was_reset: bool,
        tx: &HandoverTransmission,
        rx: &HandoverReceive,
    ) -> Result<(), AllocError>
        requires tsns { self.old.tracker.ranges ≡ [] }
        requires streams { self.old.reassembly.incoming.streams ≡ [] }
        requires items { list_all has_bytes_or_is_abandoned (send_part tx.now).outstanding_data
            ≡ true }
        ensures { OnOk result
            (RestoresTransfer now was_reset (send_part tx.now) (received_part rx.now) self.old
            self.new) }
    {
        self.retransmission_queue
            .restore_from_state(now, was_reset, tx)?;
        self.data_tracker.restore_from_state(rx);
        self.reassembly_queue.restore_from_state(rx)
    }
}
