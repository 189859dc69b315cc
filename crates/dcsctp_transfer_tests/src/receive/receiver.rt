//! A reassembly queue, as the tests of this crate use it. Each check records in the row what fails.

use crate::receive::arrivals::Part;
use dcsctp_api::types::{HandoverOrderedStream, HandoverReceive};
use dcsctp_api::{Message, PpId, StreamId};
use dcsctp_receive_reassembly::{Data, Numbering, ReassemblyQueue, SkippedTo};
use dcsctp_testing::Row;
use std::alloc::{AllocError, Global};

/// A queue.
pub struct Receiver {
    alloc: Global,
    queue: ReassemblyQueue,
}

// Written out: a derived one costs more to prove.
impl Drop for Receiver {
    fn drop(self) {
        let Receiver { alloc: _, queue: _ } = self;
    }
}

// B and E.
fn flags(part: Part) -> (bool, bool) {
    match part {
        Part::First => (true, false),
        Part::Middle => (false, false),
        Part::Last => (false, true),
        Part::Whole => (true, true),
    }
}

// The bytes of a message, if there is one.
fn bytes_of(message: &Option<Message>) -> Option<&[u8]> {
    match message {
        None => None,
        Some(message) => Some(message.payload.as_slice()),
    }
}

impl Receiver {
    /// A queue with a receive window of that many bytes.
    pub fn new(alloc: Global, window: usize) -> Receiver {
        Receiver {
            alloc,
            queue: ReassemblyQueue::new(alloc, window, 0),
        }
    }

    /// Replaces it with a new one.
    pub fn begin(&mut self, window: usize) {
        *self = Receiver::new(self.alloc, window);
    }

    // A chunk with these bytes.
    fn chunk(
        &self,
        (stream, numbering): (u16, Numbering),
        part: Part,
        bytes: &str,
    ) -> Result<Data, AllocError> {
        let payload = Vec::from_slice(self.alloc, bytes.as_bytes())?;
        let (is_beginning, is_end) = flags(part);
        Ok(Data {
            stream_id: StreamId(stream),
            numbering,
            ppid: PpId(51),
            payload,
            is_beginning,
            is_end,
        })
    }

    /// A chunk is received.
    pub fn add(
        &mut self,
        row: &mut Row,
        tsn: u32,
        message: (u16, Numbering),
        part: Part,
        bytes: &str,
    ) {
        match self.chunk(message, part, bytes) {
            Err(_) => row.done(false),
            Ok(chunk) => row.done(self.queue.add(tsn, chunk).is_ok()),
        }
    }

    // Messages of a stream are skipped up to a number.
    fn skip_to(&mut self, row: &mut Row, tsn: u32, entry: SkippedTo) {
        row.done(self.queue.handle_forward_tsn(tsn, &[entry]).is_ok());
    }

    /// Ordered messages of stream 7 are skipped up to this number.
    pub fn skip(&mut self, row: &mut Row, tsn: u32, ssn: u16) {
        let stream_id = StreamId(7);
        self.skip_to(row, tsn, SkippedTo::Ssn { stream_id, ssn });
    }

    /// Messages of stream 7 are skipped up to this identifier.
    pub fn skip_messages(&mut self, row: &mut Row, tsn: u32, is_unordered: bool, mid: u32) {
        let entry = SkippedTo::Mid {
            stream_id: StreamId(7),
            is_unordered,
            mid,
        };
        self.skip_to(row, tsn, entry);
    }

    /// The reset of the streams waits for the data up to this TSN; none named: all.
    pub fn defer(&mut self, row: &mut Row, tsn: u32, streams: &[StreamId]) {
        row.done(self.queue.enter_deferred_reset(tsn, streams).is_ok());
    }

    /// The streams start again from 0; none named: all.
    pub fn reset(&mut self, row: &mut Row, streams: &[StreamId]) {
        let is_done = self.queue.reset_streams_and_leave_deferred_reset(streams);
        row.done(is_done.is_ok());
    }

    /// The next message has these bytes.
    pub fn gives(&mut self, row: &mut Row, bytes: &str) {
        let message = self.queue.get_next_message();
        row.same(bytes_of(&message), Some(bytes.as_bytes()));
    }

    /// No message is ready, and this many bytes are left of the window.
    pub fn rests(&self, row: &mut Row, remaining: usize) {
        row.same(self.queue.messages_ready_count(), 0);
        self.remains(row, remaining);
    }

    /// This many bytes are left of the window.
    pub fn remains(&self, row: &mut Row, remaining: usize) {
        row.same(self.queue.remaining_bytes(), remaining);
    }

    /// This many messages have become ready so far.
    pub fn counts(&self, row: &mut Row, messages: u64) {
        row.same(self.queue.rx_messages_count(), messages);
    }

    /// Is the window full, and are nine tenths of it in use?
    pub fn fills(&self, row: &mut Row, is_full: bool, is_above: bool) {
        row.same(self.queue.is_full(), is_full);
        row.same(self.queue.is_above_watermark(), is_above);
    }

    /// Asserts what a snapshot has of it: its last TSN, and the streams.
    pub fn shows(&self, row: &mut Row, last: u32, streams: &[HandoverOrderedStream]) {
        let mut rx = HandoverReceive::empty(self.alloc);
        row.done(self.queue.add_to_handover_state(&mut rx).is_ok());
        row.same(rx.last_assembled_tsn, last);
        row.same(rx.ordered_streams.as_slice(), streams);
    }

    /// Replaces it with a new one, which continues from what a snapshot has.
    pub fn restore(
        &mut self,
        row: &mut Row,
        window: usize,
        last: u32,
        streams: &[HandoverOrderedStream],
    ) {
        let mut rx = HandoverReceive::empty(self.alloc);
        rx.last_assembled_tsn = last;
        row.done(rx.ordered_streams.extend_from_slice(streams).is_ok());
        let mut queue = ReassemblyQueue::new(self.alloc, window, 0);
        row.done(queue.restore_from_state(&rx).is_ok());
        self.queue = queue;
    }
}
