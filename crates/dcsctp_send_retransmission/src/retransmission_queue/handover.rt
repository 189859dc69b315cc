//! What a snapshot has of what is in flight, with the windows, and what is in flight again once it is restored.

ghost use Rattle.std.specs.Prelude.{◌≡◌};
ghost use Rattle.dcsctp_api.specs.spec.queues.OutstandingParts.{in_32_bits};

use super::RetransmissionQueue;
use dcsctp_api::SocketTime;
use dcsctp_api::types::HandoverTransmission;
use std::alloc::AllocError;

// No more than the greatest number of 32 bits.
fn in_32_bits(size: usize) -> u32
    ensures { result ≡ in_32_bits size }
{
    size.min(0xffff_ffff) as u32
}

impl RetransmissionQueue {
    ghost use Rattle.std.specs.Prelude.{true, OnOk, OnErr};
    ghost use Rattle.std.specs.List.{list_all};
    ghost use Rattle.dcsctp_api.specs.types.Snapshot.{send_part, has_bytes_or_is_abandoned};
    ghost use Rattle.dcsctp_api.specs.spec.queues.OutstandingParts.{with_retransmission, retransmission_restored};

    /// Adds what a snapshot that is made at the moment `now` has of it: the next TSN, the last one that was
    /// acknowledged cumulatively, and the windows in bytes, which stop at the greatest `u32`. With
    /// `with_outstanding_data` it also adds what is outstanding, whose payloads are copied. `Err`: an
    /// allocation failed; the snapshot is unchanged.
    pub fn add_to_handover_state(
        &self,
        now: SocketTime,
        with_outstanding_data: bool,
        tx: &mut HandoverTransmission,
    ) -> Result<(), AllocError>
        ensures ok { OnOk result
            (send_part tx.new
            ≡ with_retransmission now with_outstanding_data self.now (send_part tx.old)) }
        ensures err { OnErr result (send_part tx.new ≡ send_part tx.old) }
    {
        let data = if with_outstanding_data {
            self.outstanding.handover_data(now)?
        } else {
            Vec::new(self.alloc)
        };
        tx.next_tsn = self.outstanding.next_tsn();
        tx.cwnd = in_32_bits(self.congestion.cwnd);
        tx.rwnd = in_32_bits(self.peer_window);
        tx.ssthresh = in_32_bits(self.congestion.ssthresh);
        tx.partial_bytes_acked = in_32_bits(self.congestion.partial_bytes_acked);
        tx.last_cumulative_tsn_ack = self.outstanding.tsn_at(0).wrapping_sub(1);
        tx.outstanding_data = data;
        Ok(())
    }

    /// Puts what the snapshot has, restored at the moment `now`, in the place of what is in flight. A lost item
    /// waits to be sent again. The retransmission timer is started if something is outstanding, unless it
    /// runs. `was_reset`: streams were reset before. Then no FORWARD-TSN reaches across an item, since which of
    /// them were sent before that isn't known. `Err`: an allocation failed, and only some of it is restored.
    pub fn restore_from_state(
        &mut self,
        now: SocketTime,
        was_reset: bool,
        tx: &HandoverTransmission,
    ) -> Result<(), AllocError>
        requires { list_all has_bytes_or_is_abandoned (send_part tx.now).outstanding_data ≡ true }
        ensures { OnOk result
            (self.new ≡ retransmission_restored now was_reset (send_part tx.now) self.old) }
    {
        let first_tsn = tx.last_cumulative_tsn_ack.wrapping_add(1);
        self.outstanding
            .restore(now, was_reset, first_tsn, tx.outstanding_data.as_slice())?;
        self.congestion.cwnd = tx.cwnd as usize;
        self.congestion.ssthresh = tx.ssthresh as usize;
        self.congestion.partial_bytes_acked = tx.partial_bytes_acked as usize;
        self.peer_window = tx.rwnd as usize;
        self.reset_begun = was_reset;
        self.keep_timer(now);
        Ok(())
    }
}
