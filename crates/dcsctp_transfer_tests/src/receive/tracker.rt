//! A data tracker, as the tests of this crate use it. Each check records in the row what fails.

use dcsctp_api::types::{HandoverReceive, Options, SocketTime};
use dcsctp_receive_tracker::DataTracker;
use dcsctp_testing::Row;
use std::alloc::Global;
use std::time::Duration;

/// A tracker.
pub struct Tracker {
    alloc: Global,
    received: DataTracker,
}

// Written out: a derived one costs more to prove.
impl Drop for Tracker {
    fn drop(self) {
        let Tracker {
            alloc: _,
            received: _,
        } = self;
    }
}

// The moment that many nanoseconds after the first.
fn at(nanos: u64) -> SocketTime {
    SocketTime::zero() + Duration::from_nanos(nanos)
}

impl Tracker {
    /// A tracker whose first TSN is this one.
    pub fn new(alloc: Global, first: u32) -> Tracker {
        Tracker {
            alloc,
            received: DataTracker::new(alloc, &Options::default(), first),
        }
    }

    /// Replaces it with a new one.
    pub fn begin(&mut self, first: u32) {
        *self = Tracker::new(self.alloc, first);
    }

    /// The retransmission timeout is that many milliseconds.
    pub fn has_timeout(&mut self, millis: u64) {
        self.received.update_rto(Duration::from_millis(millis));
    }

    // Data of this TSN is received, which must be valid; returns whether it is new.
    fn takes(&mut self, row: &mut Row, tsn: u32, immediate_ack: bool) -> bool {
        if !self.received.is_tsn_valid(tsn) {
            row.same((tsn, "isn't valid"), (tsn, "is valid"));
            return false;
        }
        let is_new = self.received.observe(tsn, immediate_ack);
        row.done(is_new.is_ok());
        is_new.unwrap_or(false)
    }

    /// Data of this TSN is received, with the I flag or without it.
    pub fn observe(&mut self, row: &mut Row, tsn: u32, immediate_ack: bool) {
        let _ = self.takes(row, tsn, immediate_ack);
    }

    /// Packets with data of these TSNs are received at the first moment; asserts whether each is new.
    pub fn receives(&mut self, row: &mut Row, tsns: &[u32], is_new: bool) {
        for tsn in tsns {
            let found = self.takes(row, *tsn, false);
            self.received.observe_packet_end(SocketTime::zero());
            row.same((*tsn, found), (*tsn, is_new));
        }
    }

    /// Asserts whether a FORWARD-TSN moves the cumulative TSN.
    pub fn skips(&mut self, row: &mut Row, tsn: u32, moves: bool) {
        row.same(self.received.handle_forward_tsn(tsn), moves);
    }

    /// Asserts whether data of this TSN is taken.
    pub fn is_valid(&self, row: &mut Row, tsn: u32, is_valid: bool) {
        row.same(self.received.is_tsn_valid(tsn), is_valid);
    }

    /// Asserts the last TSN before the first that is missing.
    pub fn is_cumulative(&self, row: &mut Row, tsn: u32) {
        row.same(self.received.last_cumulative_acked_tsn(), tsn);
    }

    /// Asserts what the next SACK says: its cumulative TSN, its gap ack blocks, and how many duplicates.
    pub fn acknowledges(
        &mut self,
        row: &mut Row,
        cumulative: u32,
        blocks: &[u8],
        duplicates: usize,
    ) {
        match self.received.create_selective_ack(1000, 1179) {
            Err(_) => row.done(false),
            Ok(sack) => {
                row.same((sack.cumulative_tsn_ack, sack.a_rwnd), (cumulative, 1000));
                row.same(sack.gap_ack_blocks.as_slice(), blocks);
                row.same(sack.chunk().duplicate_tsn_count(), duplicates);
            }
        }
    }

    /// Asserts how long the next SACK is: the sizes in bytes of its gap ack blocks and its duplicates. Also
    /// the last byte of the second duplicate.
    pub fn has_sizes(&mut self, row: &mut Row, cumulative: u32, sizes: (usize, usize, Option<u8>)) {
        match self.received.create_selective_ack(0, 1179) {
            Err(_) => row.done(false),
            Ok(sack) => {
                let duplicates = sack.duplicate_tsns.as_slice();
                let last_byte = duplicates.get(7).copied();
                row.same(sack.cumulative_tsn_ack, cumulative);
                let found = (sack.gap_ack_blocks.len(), duplicates.len(), last_byte);
                row.same(found, sizes);
            }
        }
    }

    /// Asserts whether a SACK is sent now.
    pub fn is_due(&mut self, row: &mut Row, also_if_delayed: bool, is_due: bool) {
        let found = self.received.should_send_ack(also_if_delayed);
        row.same(found, is_due);
    }

    /// Asserts when the delay of an acknowledgement is over.
    pub fn expires(&self, row: &mut Row, nanos: u64) {
        row.same(self.received.next_timeout(), Some(at(nanos)));
    }

    /// Asserts that no acknowledgement is delayed.
    pub fn has_no_timer(&self, row: &mut Row) {
        row.same(self.received.next_timeout().is_none(), true);
    }

    /// Asserts whether the delay is over at this moment.
    pub fn times_out(&mut self, row: &mut Row, nanos: u64, is_over: bool) {
        row.same(self.received.handle_timeout(at(nanos)), is_over);
    }

    /// Asserts what a snapshot has of it: its last TSN, and whether data was received.
    pub fn shows(&self, row: &mut Row, last: u32, is_seen: bool) {
        let mut rx = HandoverReceive::empty(self.alloc);
        self.received.add_to_handover_state(&mut rx);
        row.same(
            (rx.last_cumulative_acked_tsn, rx.seen_packet),
            (last, is_seen),
        );
    }

    /// Replaces it with a new one, which continues from what a snapshot has.
    pub fn restore(&mut self, first: u32, last: u32, is_seen: bool) {
        let mut rx = HandoverReceive::empty(self.alloc);
        rx.last_cumulative_acked_tsn = last;
        rx.seen_packet = is_seen;
        let mut received = DataTracker::new(self.alloc, &Options::default(), first);
        received.restore_from_state(&rx);
        self.received = received;
    }
}
