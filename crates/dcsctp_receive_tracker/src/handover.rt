//! What a snapshot has of the tracker, and why none can be made.

ghost use Rattle.std.specs.Prelude.{◌≡◌, []};
ghost use Rattle.dcsctp_spec_lemmas.specs.types.Snapshot.{received_part};
ghost use Rattle.dcsctp_spec_lemmas.specs.spec.queues.Readiness.{tracker_readiness};
ghost use Rattle.dcsctp_spec_lemmas.specs.spec.queues.ReceivedParts.{part_with_tracker, tracker_restored};

use crate::data_tracker::DataTracker;
use dcsctp_spec_lemmas::types::{HandoverReadiness, HandoverReceive};

impl DataTracker {
    /// Why what was received can't be handed over to another process: a TSN is missing before others.
    pub fn get_handover_readiness(&self) -> HandoverReadiness
        ensures { result.0 ≡ tracker_readiness self.now }
    {
        HandoverReadiness::DATA_TRACKER_TSN_BLOCKS_PENDING & !self.received.ranges.is_empty()
    }

    /// Adds what a snapshot has of it: the last TSN before the first that is missing, and whether data was
    /// received at all.
    pub fn add_to_handover_state(&self, rx: &mut HandoverReceive)
        ensures { received_part rx.new ≡ part_with_tracker self.now (received_part rx.old) }
    {
        rx.seen_packet = self.has_seen_data;
        rx.last_cumulative_acked_tsn = self.last_cumulative_acked_tsn();
    }

    /// A tracker that was just made continues after the last TSN of the snapshot. Nothing is to be
    /// acknowledged.
    pub fn restore_from_state(&mut self, rx: &HandoverReceive)
        requires { self.old.ranges ≡ [] }
        ensures { self.new ≡ tracker_restored (received_part rx.now) self.old }
    {
        self.received.cumulative = u64::from(rx.last_cumulative_acked_tsn);
        self.has_seen_data = rx.seen_packet;
    }
}
