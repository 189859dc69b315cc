//! A retransmission queue with the send queue in front of it, and the lines that they take.

mod snapshot;

use dcsctp_send_retransmission::api::{
    Events, LifecycleId, Message, PpId, SendOptions, SocketTime, StreamId,
};
use dcsctp_send_retransmission::send_queue::{DataToSend, SendQueue};
use dcsctp_send_retransmission::types::{Options, SocketHandoverState};
use dcsctp_send_retransmission::wire::GapAckBlock;
use dcsctp_send_retransmission::{HandleSackResult, RetransmissionQueue};
use dcsctp_testing::{Row, Takes};
use std::alloc::Global;
use std::time::Duration;

/// The two queues, their events, the moment, how the next message is sent, what the latest SACK did, and the
/// latest snapshot.
pub struct Line {
    alloc: Global,
    queue: SendQueue,
    sent: RetransmissionQueue,
    events: Events,
    now: u32,
    how: SendOptions,
    rtt: Option<Duration>,
    is_new: bool,
    snapshot: SocketHandoverState,
}

// Written out: a derived one costs more to prove.
impl Drop for Line {
    fn drop(self) {
        let Line {
            alloc: _,
            queue: _,
            sent: _,
            events: _,
            now: _,
            how: _,
            rtt: _,
            is_new: _,
            snapshot: _,
        } = self;
    }
}

// The names of the numbers of the queue and of the latest SACK, in the order in which a line has them.
static STATE: &[&str] = &[
    "cwnd",
    "rwnd",
    "next-tsn",
    "last-tsn",
    "unacked",
    "rtx-packets",
    "rtx-bytes",
    "can-send",
    "has-fast",
    "has-timer",
    "expires",
    "is-new",
    "has-rtt",
    "rtt",
];

// The names of the numbers of a chunk.
static CHUNK: &[&str] = &["stream", "fsn", "size", "begins", "ends"];

// The moment that many milliseconds after the first.
fn at(millis: u32) -> SocketTime {
    SocketTime::zero() + Duration::from_millis(millis as u64)
}

// The milliseconds of a moment. One between two of them has a number that no line has.
fn millis(moment: SocketTime) -> u128 {
    let nanos = moment.as_nanos();
    if nanos % 1_000_000 == 0 {
        nanos / 1_000_000
    } else {
        u128::MAX
    }
}

// Options with packets of 1,000 bytes, four of them in flight at first, and 1 s as the timeout.
fn options() -> Options {
    let mut options = Options::default();
    options.mtu = 1000;
    options.cwnd_mtus_initial = 4;
    options.cwnd_mtus_min = 4;
    options.rto_initial = Duration::from_secs(1);
    options
}

// What a line expects of a chunk.
fn shows(row: &mut Row, data: &DataToSend) {
    row.check_all(
        CHUNK,
        &[
            data.stream_id.0 as u128,
            data.fsn as u128,
            data.payload.len() as u128,
            data.is_beginning as u128,
            data.is_end as u128,
        ],
    );
}

impl Line {
    /// Nothing waits, and the peer's window is this. The flags say what was negotiated: partial reliability,
    /// and interleaving.
    pub fn new(alloc: Global, first_tsn: u32, window: u32, negotiated: (bool, bool)) -> Line {
        let options = options();
        let (partial_reliability, interleaving) = negotiated;
        let mut queue = SendQueue::new(alloc, &options);
        queue.enable_message_interleaving(interleaving, window);
        let sent = RetransmissionQueue::new(
            alloc,
            &options,
            first_tsn,
            window,
            partial_reliability,
            interleaving,
        );
        Line {
            alloc,
            queue,
            sent,
            events: Events::new(alloc),
            now: 0,
            how: SendOptions::default(),
            rtt: None,
            is_new: false,
            snapshot: snapshot::empty(alloc),
        }
    }

    // Replaces it with a new one.
    fn begin(&mut self, row: &mut Row) {
        let first_tsn = row.number();
        let window = row.number();
        let negotiated = (row.number::<u8>() == 1, row.number::<u8>() == 1);
        *self = Line::new(self.alloc, first_tsn, window, negotiated);
    }

    // Adds a message of this many bytes, of one at least, in the way that was asked for.
    fn add(&mut self, row: &mut Row, stream: StreamId, size: u32) {
        let is_done = match vec![in self.alloc; 7u8; size as usize] {
            Err(_) => false,
            Ok(payload) => {
                if payload.is_empty() {
                    false
                } else {
                    let message = Message::new(stream, PpId(51), payload);
                    self.queue.add(at(0), message, &self.how).is_ok()
                }
            }
        };
        row.done(is_done);
        self.how = SendOptions::default();
    }

    // Adds this many messages of this many bytes to stream 1.
    fn add_many(&mut self, row: &mut Row) {
        let count = row.number();
        let size = row.number();
        for _ in 0..count {
            self.add(row, StreamId(1), size);
        }
    }

    // Which TSNs go into a packet of this many bytes.
    fn send(&mut self, row: &mut Row) {
        let bytes = row.number();
        let moment = at(self.now);
        match self
            .sent
            .get_chunks_to_send(&mut self.events, &mut self.queue, moment, bytes)
        {
            Err(_) => row.done(false),
            Ok(tsns) => row.shows(&tsns),
        }
    }

    // The same, as a fast retransmission.
    fn send_fast(&mut self, row: &mut Row) {
        let bytes = row.number();
        match self
            .sent
            .get_chunks_for_fast_retransmit(at(self.now), bytes)
        {
            Err(_) => row.done(false),
            Ok(tsns) => row.shows(&tsns),
        }
    }

    // Is a SACK with this cumulative TSN and window valid? What it measured is kept.
    fn sack(&mut self, row: &mut Row, blocks: &[GapAckBlock]) {
        let cumulative = row.number();
        let window = row.number();
        let moment = at(self.now);
        match self
            .sent
            .handle_sack(&mut self.events, moment, cumulative, window, blocks)
        {
            Err(_) => row.done(false),
            Ok(HandleSackResult::Invalid) => row.answers("valid", false),
            Ok(
                HandleSackResult::Valid {
                    rtt,
                    reset_error_counter,
                },
            ) => {
                self.rtt = rtt;
                self.is_new = reset_error_counter;
                row.answers("valid", true);
            }
        }
    }

    // Is a FORWARD-TSN due?
    fn forward(&mut self, row: &mut Row) {
        let moment = at(self.now);
        match self
            .sent
            .should_send_forward_tsn(&mut self.events, &mut self.queue, moment)
        {
            Err(_) => row.done(false),
            Ok(is_due) => row.answers("due", is_due),
        }
    }

    // What a FORWARD-TSN says, as `Debug` writes it.
    fn skip(&mut self, row: &mut Row) {
        match self.sent.create_forward_tsn() {
            Err(_) => row.done(false),
            Ok(chunk) => row.shows(&chunk),
        }
    }

    // How a FORWARD-TSN writes what it skips.
    fn skip_bytes(&mut self, row: &mut Row) {
        match self.sent.create_forward_tsn() {
            Err(_) => row.done(false),
            Ok(chunk) => match chunk.skipped_bytes(self.alloc) {
                Err(_) => row.done(false),
                Ok(bytes) => row.shows(&bytes),
            },
        }
    }

    // The next event, as `Debug` writes it, or nothing.
    fn tells(&mut self, row: &mut Row) {
        match self.events.next_event() {
            None => row.check_rest(""),
            Some(event) => row.shows(&event),
        }
    }

    // What a line expects of the chunk of a TSN; its size is 0 where there is none.
    fn chunk(&self, row: &mut Row) {
        match self.sent.chunk(row.number()) {
            None => row.check("size", 0),
            Some(data) => shows(row, data),
        }
    }

    // What a line expects of the queue and of the latest SACK.
    fn state(&self, row: &mut Row) {
        let deadline = self.sent.next_timeout();
        row.check_all(
            STATE,
            &[
                self.sent.cwnd() as u128,
                self.sent.rwnd() as u128,
                self.sent.next_tsn() as u128,
                self.sent.last_assigned_tsn() as u128,
                self.sent.unacked_items() as u128,
                self.sent.rtx_packets_count() as u128,
                self.sent.rtx_bytes_count() as u128,
                self.sent.can_send_data() as u128,
                self.sent.has_data_to_be_fast_retransmitted() as u128,
                deadline.is_some() as u128,
                millis(deadline.unwrap_or(SocketTime::zero())),
                self.is_new as u128,
                self.rtt.is_some() as u128,
                self.rtt.unwrap_or(Duration::ZERO).as_nanos(),
            ],
        );
    }

    // Takes a line that begins with a number.
    fn take_number(&mut self, row: &mut Row, keyword: &str) {
        match keyword {
            "now" => self.now = row.number(),
            "name" => self.how.lifecycle_id = LifecycleId::new(row.number()),
            "lifetime" => self.how.lifetime = Some(Duration::from_millis(row.number())),
            "times" => self.how.max_retransmissions = Some(row.number()),
            "add" => {
                let stream = StreamId(row.number());
                let size = row.number();
                self.add(row, stream, size);
            }
            "add-many" => self.add_many(row),
            "sack-block" => {
                let start = row.number();
                let end = row.number();
                self.sack(row, &[GapAckBlock { start, end }]);
            }
            "chunk" => self.chunk(row),
            _ => row.done(false),
        }
    }

    // Takes a line on a snapshot.
    fn take_snapshot(&mut self, row: &mut Row, keyword: &str) {
        match keyword {
            "hand-over" => self.hand_over(row),
            "snapshot" => self.shows_snapshot(row),
            "part" => self.part(row),
            "part-expires" => self.part_expires(row),
            "restore" => self.restore(row),
            _ => self.take_number(row, keyword),
        }
    }

    // Takes a line on what is abandoned, or on the timer.
    fn take_forward(&mut self, row: &mut Row, keyword: &str) {
        match keyword {
            "time-out" => {
                let is_over = self.sent.handle_timeout(at(self.now));
                row.answers("is-over", is_over);
            }
            "forward" => self.forward(row),
            "skip" => self.skip(row),
            "skip-bytes" => self.skip_bytes(row),
            "begin-reset" => self.sent.begin_reset_streams(),
            "unordered" => self.how.unordered = true,
            _ => self.take_snapshot(row, keyword),
        }
    }
}

impl Takes<&'static str> for Line {
    fn take(&mut self, row: &mut Row, keyword: &'static str) {
        match keyword {
            "begin" => self.begin(row),
            "send" => self.send(row),
            "send-fast" => self.send_fast(row),
            "sack" => self.sack(row, &[]),
            "state" => self.state(row),
            "tells" => self.tells(row),
            _ => self.take_forward(row, keyword),
        }
    }
}
