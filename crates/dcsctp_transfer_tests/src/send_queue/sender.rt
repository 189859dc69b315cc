//! A queue with the events that it adds, and the lines that it runs.

use crate::send_queue::snapshot::Snapshot;
use dcsctp_api::{Events, LifecycleId, Message, Options, PpId, SendOptions, SocketTime, StreamId};
use dcsctp_send_queue::{DataToSend, SendQueue};
use dcsctp_testing::{Row, Takes};
use std::alloc::{AllocError, Global};
use std::time::Duration;

// The receive window of the peer, in bytes.
const PEER_WINDOW: u32 = 1_000_000;

/// A queue, its events, the moment, how the next message is sent, and the last snapshot.
pub struct Sender {
    alloc: Global,
    queue: SendQueue,
    events: Events,
    now: SocketTime,
    how: SendOptions,
    snapshot: Snapshot,
}

// Written out: a derived one costs more to prove.
impl Drop for Sender {
    fn drop(self) {
        let Sender {
            alloc: _,
            queue: _,
            events: _,
            now: _,
            how: _,
            snapshot: _,
        } = self;
    }
}

// The moment that many milliseconds after the start.
fn at(millis: u64) -> SocketTime {
    SocketTime::zero() + Duration::from_millis(millis)
}

// The names of a fragment's numbers, in the order in which a line has them.
static FRAGMENT: &[&str] = &[
    "stream",
    "message",
    "ssn",
    "mid",
    "fsn",
    "size",
    "begins",
    "ends",
    "protocol",
    "unordered",
    "times",
    "expires-at-25",
    "has-limit",
    "name",
];

// The names of the numbers of a stream and of the whole queue.
static STATE: &[&str] = &[
    "amount",
    "total",
    "threshold",
    "priority",
    "has-data",
    "has-ready",
];

// What a line expects of a fragment.
fn shows(row: &mut Row, data: &DataToSend) {
    let expires_at = data.expires_at.unwrap_or(SocketTime::zero());
    row.check_all(
        FRAGMENT,
        &[
            data.stream_id.0 as u128,
            data.message_id as u128,
            data.ssn as u128,
            data.mid as u128,
            data.fsn as u128,
            data.payload.len() as u128,
            data.is_beginning as u128,
            data.is_end as u128,
            data.ppid.0 as u128,
            data.is_unordered as u128,
            data.max_retransmissions.unwrap_or(0) as u128,
            (expires_at == at(25)) as u128,
            data.max_retransmissions.is_some() as u128,
            data.lifecycle_id.map_or(0, |id| id.value()) as u128,
        ],
    );
    row.check_bytes(&data.payload);
}

// The options with the two thresholds of a line.
fn read_thresholds(row: &mut Row) -> Options {
    let mut options = Options::default();
    options.default_stream_buffered_amount_low_threshold = row.number();
    options.total_buffered_amount_low_threshold = row.number();
    options
}

// The RFCs are followed where a line ends in `by-rfc`, or in `mtu` with the size of a packet.
fn read_rules(row: &mut Row, options: &mut Options) {
    match row.next() {
        "" => {}
        "by-rfc" => options.follow_rfc = true,
        "mtu" => {
            options.follow_rfc = true;
            options.mtu = row.number();
        }
        _ => row.done(false),
    }
}

impl Sender {
    /// A sender with these options and no snapshot.
    pub fn new(alloc: Global, options: &Options) -> Sender {
        Sender {
            alloc,
            queue: SendQueue::new(alloc, options),
            events: Events::new(alloc),
            now: SocketTime::zero(),
            how: SendOptions::default(),
            snapshot: Snapshot::new(alloc),
        }
    }

    // Replaces it with a new one.
    fn begin(&mut self, row: &mut Row) {
        let mut options = read_thresholds(row);
        read_rules(row, &mut options);
        *self = Sender::new(self.alloc, &options);
    }

    // Takes a new queue on another clock. The snapshot stays.
    fn begin_another(&mut self, row: &mut Row) {
        let mut options = read_thresholds(row);
        options.default_stream_priority = row.number();
        read_rules(row, &mut options);
        self.queue = SendQueue::new(self.alloc, &options);
        self.events = Events::new(self.alloc);
        self.now = SocketTime::zero();
    }

    // Takes a snapshot, with messages or without.
    fn hand_over(&mut self, row: &mut Row) {
        let with_messages = row.number::<u64>() == 1;
        row.done(self.snapshot.take(&self.queue, self.now, with_messages));
    }

    // Restores the snapshot.
    fn restore(&mut self, row: &mut Row) {
        row.done(self.snapshot.restore_into(&mut self.queue, self.now));
    }

    // Adds a message of these bytes, in the way that was asked for.
    fn add(&mut self, row: &mut Row, stream: StreamId, bytes: &str) {
        let is_done = match Vec::from_slice(self.alloc, bytes.as_bytes()) {
            Err(_) => false,
            Ok(payload) => {
                if payload.is_empty() {
                    false
                } else {
                    let message = Message::new(stream, PpId(53), payload);
                    self.queue.add(self.now, message, &self.how).is_ok()
                }
            }
        };
        row.done(is_done);
        self.how = SendOptions::default();
    }

    // Takes a fragment of at most this many bytes, of one at least.
    fn fragment(&mut self, row: &mut Row, max: u64) {
        let max = max.max(1) as usize;
        match self.queue.produce(&mut self.events, self.now, max) {
            Err(_) => row.done(false),
            Ok(None) => row.check("size", 0),
            Ok(Some(data)) => shows(row, &data),
        }
    }

    // Adds a message of one byte to stream 1 and takes it, this many times.
    fn use_up(&mut self, row: &mut Row) {
        for _ in 0..row.number::<u64>() {
            self.add(row, StreamId(1), "x");
            self.fragment(row, 1);
        }
    }

    // The next event, as `Debug` writes it, or nothing.
    fn tells(&mut self, row: &mut Row) {
        match self.events.next_event() {
            None => row.check_rest(""),
            Some(event) => row.shows(&event),
        }
    }

    // The streams that are handed out, as `Debug` writes them.
    fn hand_out(&mut self, row: &mut Row) {
        let max = row.number();
        match self.queue.get_streams_ready_to_reset(max) {
            Err(_) => row.done(false),
            Ok(ids) => row.shows(&ids),
        }
    }

    // What a line expects of a stream and of the whole queue.
    fn state(&self, row: &mut Row, stream: StreamId) {
        row.check_all(
            STATE,
            &[
                self.queue.buffered_amount(stream) as u128,
                self.queue.total_buffered_amount() as u128,
                self.queue.buffered_amount_low_threshold(stream) as u128,
                self.queue.get_priority(stream) as u128,
                self.queue.has_data_to_send() as u128,
                self.queue.has_streams_ready_to_be_reset() as u128,
            ],
        );
    }

    // Is the message under way dropped, where it is this one?
    fn discard(&mut self, row: &mut Row, stream: StreamId) {
        match self.queue.discard(&mut self.events, stream, row.number()) {
            Err(_) => row.done(false),
            Ok(discarded) => row.answers("done", discarded),
        }
    }

    // Takes a line that prepares a stream to be reset, or gives it a priority or a threshold.
    fn change(&mut self, row: &mut Row, keyword: &str, stream: StreamId) {
        let changed = match keyword {
            "prepare" => self.queue.prepare_reset_stream(&mut self.events, stream),
            "priority" => self.queue.set_priority(stream, row.number()),
            "threshold" => self
                .queue
                .set_buffered_amount_low_threshold(stream, row.number()),
            _ => Err(AllocError),
        };
        row.done(changed.is_ok());
    }

    // Takes a line on a stream.
    fn take_on_stream(&mut self, row: &mut Row, keyword: &str) {
        let stream = StreamId(row.number());
        match keyword {
            "add" => {
                let bytes = row.next();
                self.add(row, stream, bytes);
            }
            "state" => self.state(row, stream),
            "discard" => self.discard(row, stream),
            _ => self.change(row, keyword, stream),
        }
    }

    // Takes a line that begins with a number.
    fn take_number(&mut self, row: &mut Row, keyword: &str) {
        match keyword {
            "now" => self.now = at(row.number()),
            "later" => self.now = self.now + Duration::from_nanos(row.number()),
            "name" => self.how.lifecycle_id = LifecycleId::new(row.number()),
            "lifetime" => self.how.lifetime = Some(Duration::from_millis(row.number())),
            "times" => self.how.max_retransmissions = Some(row.number()),
            "use-up" => self.use_up(row),
            "window" => self.queue.enable_message_interleaving(true, row.number()),
            "fragment" => {
                let max = row.number();
                self.fragment(row, max);
            }
            "hand-out" => self.hand_out(row),
            _ => self.take_on_stream(row, keyword),
        }
    }
}

impl Takes<&'static str> for Sender {
    fn take(&mut self, row: &mut Row, keyword: &'static str) {
        match keyword {
            "begin" => self.begin(row),
            "another" => self.begin_another(row),
            "hand-over" => self.hand_over(row),
            "snapshot" => self.snapshot.shows(row),
            "write" => self.snapshot.write(row),
            "restore" => self.restore(row),
            "unordered" => self.how.unordered = true,
            "commit" => self.queue.commit_reset_streams(),
            "roll-back" => self.queue.rollback_reset_streams(),
            "reset" => self.queue.reset(),
            "interleave" => self.queue.enable_message_interleaving(true, PEER_WINDOW),
            "interleave-no-more" => self.queue.enable_message_interleaving(false, PEER_WINDOW),
            "tells" => self.tells(row),
            _ => self.take_number(row, keyword),
        }
    }
}
