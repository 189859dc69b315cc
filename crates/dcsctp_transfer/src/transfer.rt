//! What belongs to an association: what is in flight, and what was received.

use crate::windows::part_overhead;
use dcsctp_receive_reassembly::ReassemblyQueue;
use dcsctp_receive_tracker::DataTracker;
use dcsctp_send_retransmission::RetransmissionQueue;
use dcsctp_send_retransmission::send_timer::RetransmissionTimeout;
use dcsctp_send_retransmission::types::{Capabilities, Options, SocketTime};
use std::alloc::Global;
use std::marker::Model;
use std::time::Duration;

/// What an association has in flight and has received, and how long it awaits an acknowledgement.
pub struct Transfer {
    pub(crate) retransmission_queue: RetransmissionQueue,
    pub(crate) rto: RetransmissionTimeout,
    pub(crate) data_tracker: DataTracker,
    pub(crate) reassembly_queue: ReassemblyQueue,
    pub(crate) alloc: Global,
}

// Written out, so that the drops of all queued values are proved here once, and not in each crate that drops
// a state.
impl Drop for Transfer {
    fn drop(self) {
        let Transfer {
            retransmission_queue: _,
            rto: _,
            data_tracker: _,
            reassembly_queue: _,
            alloc: _,
        } = self;
    }
}

impl Model for Transfer {
    ghost use Rattle.dcsctp_send_retransmission.specs.spec.queues.Transfer.{Transfer};

    ghost Value = { Transfer };

    ghost view = { λ transfer. record {
      retransmission = transfer.retransmission_queue;
      timeout = transfer.rto;
      tracker = transfer.data_tracker;
      reassembly = transfer.reassembly_queue;
    } };
}

impl Transfer {
    ghost use Rattle.std.specs.Prelude.{◌≡◌, ◌==◌, ◌%◌, ◌^◌, not, Some};
    ghost use Rattle.std.specs.Duration.{as_nanos};
    ghost use Rattle.std.specs.Option.{option_map};
    ghost use Rattle.dcsctp_send_retransmission.specs.spec.endpoint.BegunResets.{longest_wait_of};
    ghost use Rattle.dcsctp_send_retransmission.specs.spec.queues.Items.{unacknowledged_items};
    ghost use Rattle.dcsctp_send_retransmission.specs.spec.queues.Outstanding.{next_tsn};
    ghost use Rattle.dcsctp_send_retransmission.specs.spec.queues.Retransmission.{outstanding_count};
    ghost use Rattle.dcsctp_send_retransmission.specs.spec.queues.Transfer.{new_transfer, outlasts_peer, transfer_kept};
    ghost use Rattle.dcsctp_send_retransmission.specs.spec.queues.Tracker.{cumulative_tsn};

    /// Nothing was sent or received yet. `first_tsn` is the first TSN that we send, and `peer_first_tsn` the
    /// first one of the peer. `a_rwnd` is the receive window that the peer announced, in bytes. Allocates
    /// nothing.
    #[inline(always)]
    pub fn new(
        alloc: Global,
        options: &Options,
        first_tsn: u32,
        peer_first_tsn: u32,
        a_rwnd: u32,
        capabilities: &Capabilities,
    ) -> Transfer
        ensures { result
            ≡ new_transfer options.now capabilities.now first_tsn peer_first_tsn a_rwnd }
    {
        Transfer {
            retransmission_queue: RetransmissionQueue::new(
                alloc,
                options,
                first_tsn,
                a_rwnd,
                capabilities.partial_reliability,
                capabilities.message_interleaving,
            ),
            rto: RetransmissionTimeout::new(options),
            data_tracker: DataTracker::new(alloc, options, peer_first_tsn),
            reassembly_queue: ReassemblyQueue::new(
                alloc,
                options.max_receiver_window_buffer_size,
                part_overhead(options),
            ),
            alloc,
        }
    }

    /// Can what was sent go on to another peer as it is? Yes if nothing was acknowledged, `first_tsn` is the first TSN,
    /// and its messages are numbered by these capabilities, and may be abandoned by them.
    pub fn outlasts_peer(&self, first_tsn: u32, capabilities: &Capabilities) -> bool
        ensures { result ≡ outlasts_peer first_tsn capabilities.now self.now }
    {
        let queue = &self.retransmission_queue;
        queue.is_untouched(first_tsn)
            && queue.is_interleaving() == capabilities.message_interleaving
            && queue.is_partially_reliable() == capabilities.partial_reliability
    }

    /// Keeps what was sent for another peer, to which all of it is sent again. Nothing was received from it yet.
    /// `peer_first_tsn` is its first TSN, and `a_rwnd` its receive window in bytes. Allocates nothing.
    pub fn keep_for_peer(
        &mut self,
        now: SocketTime,
        options: &Options,
        peer_first_tsn: u32,
        a_rwnd: u32,
    )
        ensures { self.new ≡ transfer_kept now options.now peer_first_tsn a_rwnd self.old }
    {
        let window = options.max_receiver_window_buffer_size;
        self.retransmission_queue
            .keep_for_peer(now, options, a_rwnd);
        self.data_tracker = DataTracker::new(self.alloc, options, peer_first_tsn);
        self.reassembly_queue = ReassemblyQueue::new(self.alloc, window, part_overhead(options));
    }

    /// The TSN that is sent next.
    pub fn next_tsn(&self) -> u32
        ensures { result ≡ next_tsn self.now.retransmission.outstanding }
    {
        self.retransmission_queue.next_tsn()
    }

    /// Was something sent that is neither acknowledged nor abandoned?
    pub fn has_unacknowledged_items(&self) -> bool
        ensures { result
            ≡ not (unacknowledged_items self.now.retransmission.outstanding.items == 0) }
    {
        self.retransmission_queue.unacked_items() != 0
    }

    /// The longest that the reconfiguration timer waits once it has expired; `None` is no limit. Allocates nothing.
    pub fn longest_wait(&self) -> Option<Duration>
        ensures { option_map as_nanos result ≡ longest_wait_of (Some self.now) }
    {
        self.rto.longest_wait()
    }

    /// Was something sent that the cumulative TSN ack hasn't passed, abandoned or not?
    pub fn has_outstanding_items(&self) -> bool
        ensures { result ≡ not (outstanding_count self.now.retransmission == 0) }
    {
        self.retransmission_queue.outstanding_items() != 0
    }

    /// The last TSN before the first that is missing (RFC 9260, section 3.3.8).
    pub fn last_cumulative_acked_tsn(&self) -> u32
        ensures { result ≡ cumulative_tsn self.now.tracker }
    {
        self.data_tracker.last_cumulative_acked_tsn()
    }
}
