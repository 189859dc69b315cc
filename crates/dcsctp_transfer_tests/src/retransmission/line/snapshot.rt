//! Snapshots: what one has of the queue, and the queue that continues from it.

use super::{Line, at};
use dcsctp_send_retransmission::RetransmissionQueue;
use dcsctp_send_retransmission::api::SocketTime;
use dcsctp_send_retransmission::types::{
    HandoverOutstandingData, HandoverSocketState, Options, SocketHandoverState,
};
use dcsctp_testing::Row;
use std::alloc::Global;

/// The snapshot of a connected socket of which nothing is known.
pub fn empty(alloc: Global) -> SocketHandoverState {
    let mut state = SocketHandoverState::empty(alloc);
    state.socket_state = HandoverSocketState::Connected;
    state.my_verification_tag = 1;
    state.peer_verification_tag = 1;
    state
}

// The queue continues from the snapshot at this moment. Is it done?
fn restore_into(
    state: &SocketHandoverState,
    sent: &mut RetransmissionQueue,
    now: SocketTime,
) -> bool {
    match state.socket_state {
        HandoverSocketState::Closed => false,
        HandoverSocketState::Connected => {
            state.is_valid(&Options::default())
                && sent.restore_from_state(now, false, &state.tx).is_ok()
        }
    }
}

// The names of the numbers of a snapshot, in the order in which a line has them.
static SNAPSHOT: &[&str] = &[
    "next-tsn",
    "cwnd",
    "rwnd",
    "ssthresh",
    "partial-bytes",
    "last-ack",
    "items",
];

// The names of the numbers of one of its items.
static PART: &[&str] = &[
    "stream",
    "ssn",
    "mid",
    "fsn",
    "ppid",
    "size",
    "begins",
    "ends",
    "is-unordered",
    "message",
    "name",
    "times",
    "again",
    "ago",
    "acked",
    "abandoned",
    "nacked",
    "lost",
];

// What a line expects of an item of a snapshot.
fn shows_part(row: &mut Row, part: &HandoverOutstandingData) {
    row.check_all(
        PART,
        &[
            part.stream_id as u128,
            part.ssn as u128,
            part.mid as u128,
            part.fsn as u128,
            part.ppid as u128,
            part.payload.len() as u128,
            part.is_beginning as u128,
            part.is_end as u128,
            part.is_unordered as u128,
            part.message_id as u128,
            part.lifecycle_id as u128,
            part.max_retransmissions as u128,
            part.retransmission_count as u128,
            part.time_since_sent_ms.unsigned_abs() as u128,
            part.acked as u128,
            part.is_abandoned as u128,
            part.is_nacked as u128,
            part.is_to_be_retransmitted as u128,
        ],
    );
}

impl Line {
    /// Makes a snapshot at the present moment, with what is outstanding or without it.
    pub fn hand_over(&mut self, row: &mut Row) {
        let with_data = row.number::<u8>() == 1;
        let moment = at(self.now);
        let made = self
            .sent
            .add_to_handover_state(moment, with_data, &mut self.snapshot.tx);
        row.done(made.is_ok());
    }

    /// What a line expects of the snapshot.
    pub fn shows_snapshot(&self, row: &mut Row) {
        row.check_all(
            SNAPSHOT,
            &[
                self.snapshot.tx.next_tsn as u128,
                self.snapshot.tx.cwnd as u128,
                self.snapshot.tx.rwnd as u128,
                self.snapshot.tx.ssthresh as u128,
                self.snapshot.tx.partial_bytes_acked as u128,
                self.snapshot.tx.last_cumulative_tsn_ack as u128,
                self.snapshot.tx.outstanding_data.len() as u128,
            ],
        );
    }

    /// What a line expects of the item at a place of the snapshot.
    pub fn part(&self, row: &mut Row) {
        match self.snapshot.tx.outstanding_data.get(row.number::<usize>()) {
            None => row.done(false),
            Some(part) => shows_part(row, part),
        }
    }

    /// After how many milliseconds the item at a place of the snapshot is abandoned, as `Debug` writes it.
    pub fn part_expires(&self, row: &mut Row) {
        match self.snapshot.tx.outstanding_data.get(row.number::<usize>()) {
            None => row.done(false),
            Some(part) => row.shows(&part.expires_in_ms),
        }
    }

    /// Replaces it with a new one at another moment, which continues from the snapshot.
    pub fn restore(&mut self, row: &mut Row) {
        let now = row.number();
        let negotiated = (row.number::<u8>() == 1, row.number::<u8>() == 1);
        let mut line = Line::new(self.alloc, 0, 0, negotiated);
        line.now = now;
        row.done(restore_into(&self.snapshot, &mut line.sent, at(now)));
        *self = line;
    }
}
