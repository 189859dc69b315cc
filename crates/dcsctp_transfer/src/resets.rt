//! Streams that are reset: those of the peer (RFC 6525, section 5.2.2), and our own ones (section 5.1.2).

ghost use Rattle.dcsctp_send_retransmission.specs.spec.queues.Tracker.{cumulative_tsn};
ghost use Rattle.std.specs.Prelude.{◌≡◌, false, not, take, IfOk, OnOk, OnErr};
ghost use Rattle.std.specs.Duration.{as_nanos};
ghost use Rattle.dcsctp_send_retransmission.specs.types.Ids.{stream_numbers};
ghost use Rattle.dcsctp_send_retransmission.specs.spec.queues.OwnResets.{ready_streams, queue_handing_out, queue_committed, queue_rolled_back};
ghost use Rattle.dcsctp_send_retransmission.specs.spec.queues.Retransmission.{with_reset_begun};
ghost use Rattle.dcsctp_send_retransmission.specs.spec.queues.Transfer.{is_none_ready};
ghost use Rattle.dcsctp_send_retransmission.specs.spec.endpoint.BegunResets.{last_assigned_tsn};
ghost use Rattle.dcsctp_send_retransmission.specs.spec.endpoint.ResetOutcomes.{defers_reset, ResetsTransferStreams};
ghost use Rattle.dcsctp_send_retransmission.specs.spec.queues.Numbers.{is_tsn_beyond};
ghost use Rattle.dcsctp_send_retransmission.specs.send_queue.Telling.{contents};

use crate::transfer::Transfer;
use dcsctp_send_retransmission::api::{Events, StreamId};
use std::alloc::AllocError;
use std::time::Duration;

impl Transfer {
    /// Was everything received up to this TSN? Which of two TSNs is ahead is decided by serial number
    /// arithmetic (RFC 9260, section 1.6). Allocates nothing.
    pub fn has_received_up_to(&self, tsn: u32) -> bool
        ensures { result ≡ not (is_tsn_beyond tsn (cumulative_tsn self.now.tracker)) }
    {
        let ahead = tsn.wrapping_sub(self.data_tracker.last_cumulative_acked_tsn());
        ahead == 0 || 0x8000_0000 <= ahead
    }

    /// Defers a reset of these streams (an empty list: all). It was requested before everything was received
    /// up to this TSN, the last one that the peer had assigned then. What comes beyond that TSN on these
    /// streams waits from now on, until `reset_streams`. While one reset waits, another changes nothing.
    ///
    /// `Err`: an allocation failed, and nothing has changed.
    pub fn defer_reset(&mut self, last_tsn: u32, streams: &[StreamId]) -> Result<(), AllocError>
        ensures ok { OnOk result
            (self.new ≡ defers_reset
            (record { last_tsn = last_tsn; streams = stream_numbers streams.now; is_new = false })
            self.old) }
        ensures err { OnErr result (self.new ≡ self.old) }
    {
        self.reassembly_queue
            .enter_deferred_reset(last_tsn, streams)
    }

    /// Resets these streams (an empty list: all), so that the next message on each is the first one, and
    /// handles what waited for that. Messages that are ready are kept.
    ///
    /// `Err`: an allocation failed for something that waited. That and what came after it keep waiting, and
    /// the streams are reset.
    pub fn reset_streams(&mut self, streams: &[StreamId]) -> Result<(), AllocError>
        ensures ok { OnOk result
            (ResetsTransferStreams (stream_numbers streams.now) self.old self.new) }
        ensures rest { self.new ≡ record self.old { reassembly = self.new.reassembly } }
    {
        self.reassembly_queue
            .reset_streams_and_leave_deferred_reset(streams)
    }

    /// The retransmission timeout (RFC 9260, section 6.3.1).
    pub fn rto(&self) -> Duration
        ensures { as_nanos result ≡ self.now.timeout.rto }
    {
        self.rto.rto()
    }

    /// Our own streams are reset after what was sent so far. Returns the last TSN of that. No FORWARD-TSN
    /// goes beyond it any more, since message numbers start again after it. Allocates nothing.
    pub fn begin_reset_streams(&mut self) -> u32
        ensures answer { result ≡ last_assigned_tsn self.old.retransmission }
        ensures left { self.new
            ≡ record self.old { retransmission = with_reset_begun self.old.retransmission } }
    {
        self.retransmission_queue.begin_reset_streams();
        self.retransmission_queue.last_assigned_tsn()
    }
}
