//! What a test does to the reassembly queue, and what it expects, as a table of steps.

use crate::receive::receiver::Receiver;
use dcsctp_api::StreamId;
use dcsctp_api::types::HandoverOrderedStream;
use dcsctp_receive_reassembly::Numbering;
use dcsctp_testing::{Row, Takes, run_steps};
use std::alloc::AllocGlobal;
use std::process::Abort;

/// Which part of its message a chunk carries: its flags B and E.
#[derive(Clone, Copy)]
pub enum Part {
    /// B alone.
    First,

    /// Neither.
    Middle,

    /// E alone.
    Last,

    /// B and E.
    Whole,
}

/// One step. The first step of a table is `Begins`.
#[derive(Clone, Copy)]
pub enum Step {
    /// A new queue takes the place of the old one, with a receive window of that many bytes.
    Begins(usize),

    /// A chunk is received: its TSN and stream, which message it is of, which part of it, and its bytes.
    Add(u32, u16, Numbering, Part, &'static str),

    /// A FORWARD-TSN of this TSN skips the ordered messages of stream 7 up to this number.
    Skips(u32, u16),

    /// An I-FORWARD-TSN of this TSN skips messages of stream 7, unordered ones or not, up to this identifier.
    SkipsMessages(u32, bool, u32),

    /// The reset of these streams waits for the data up to this TSN. None named: all.
    Defers(u32, &'static [StreamId]),

    /// These streams start again. None named: all.
    Resets(&'static [StreamId]),

    /// The next message has these bytes.
    Gives(&'static str),

    /// No message is ready, and that much is left of the window.
    Rests(usize),

    /// This many bytes are left of the window.
    Remains(usize),

    /// This many messages have become ready so far.
    Counts(u64),

    /// Is the window full, and are nine tenths of it in use?
    Fills(bool, bool),

    /// A snapshot has this last TSN of it, and these streams.
    Shows(u32, &'static [HandoverOrderedStream]),

    /// A new queue with a window of that many bytes continues from a snapshot: the last TSN, and the streams.
    Restores(usize, u32, &'static [HandoverOrderedStream]),
}

/// Takes the steps one after the other. The test ends at the first that fails.
pub fn run<R: Abort + AllocGlobal>(rt: &R, steps: &[(&'static str, Step)]) {
    let mut receiver = Receiver::new(rt.alloc(), 0);
    if let Err(fault) = run_steps(rt.alloc(), &mut receiver, steps) {
        rt.panic(fault);
    }
}

// One match for all: each arm is one call.
impl Takes<Step> for Receiver {
    fn take(&mut self, row: &mut Row, step: Step) {
        match step {
            Step::Begins(window) => self.begin(window),
            Step::Add(tsn, stream, numbering, part, bytes) => {
                self.add(row, tsn, (stream, numbering), part, bytes)
            }
            Step::Skips(tsn, ssn) => self.skip(row, tsn, ssn),
            Step::SkipsMessages(tsn, is_unordered, mid) => {
                self.skip_messages(row, tsn, is_unordered, mid)
            }
            Step::Defers(tsn, streams) => self.defer(row, tsn, streams),
            Step::Resets(streams) => self.reset(row, streams),
            Step::Gives(bytes) => self.gives(row, bytes),
            Step::Rests(remaining) => self.rests(row, remaining),
            Step::Remains(remaining) => self.remains(row, remaining),
            Step::Counts(messages) => self.counts(row, messages),
            Step::Fills(is_full, is_above) => self.fills(row, is_full, is_above),
            Step::Shows(last, streams) => self.shows(row, last, streams),
            Step::Restores(window, last, streams) => self.restore(row, window, last, streams),
        }
    }
}
