//! What a test does to the data tracker and what it expects of it, as a table of steps.

use crate::receive::tracker::Tracker;
use dcsctp_testing::{Row, Takes, run_steps};
use std::alloc::AllocGlobal;
use std::process::Abort;

/// One step. Moments are in nanoseconds. The first step of a table is `Begins`.
#[derive(Clone, Copy)]
pub enum Step {
    /// A new tracker takes the place of the old one: its first TSN.
    Begins(u32),

    /// The retransmission timeout is that many milliseconds.
    HasTimeout(u64),

    /// Packets with data of these TSNs, each of which is valid, are received at the first moment: is each
    /// new?
    Receives(&'static [u32], bool),

    /// Data of this TSN, which is valid, is received, with the I flag or without it. More of its packet follows.
    Observes(u32, bool),

    /// A FORWARD-TSN of this TSN is received: does it move the cumulative TSN?
    Skips(u32, bool),

    /// Is data of this TSN taken?
    IsValid(u32, bool),

    /// The last TSN before the first that is missing.
    IsCumulative(u32),

    /// The next SACK, of a window of 1,000 bytes: its cumulative TSN, its gap ack blocks, and how many TSNs
    /// came again.
    Acknowledges(u32, &'static [u8], usize),

    /// The next SACK, of no window: its cumulative TSN, and the sizes in bytes of its gap ack blocks and of
    /// the TSNs that came again. Then the last byte of the second of these TSNs.
    HasSizes(u32, usize, usize, Option<u8>),

    /// Is a SACK sent now?
    IsDue(bool),

    /// Is a SACK sent along with other chunks now?
    GoesAlong(bool),

    /// When the delay of an acknowledgement is over.
    Expires(u64),

    /// No acknowledgement is delayed.
    HasNoTimer,

    /// Is the delay over at this moment?
    TimesOut(u64, bool),

    /// A snapshot has this last TSN of it, and whether data was received.
    Shows(u32, bool),

    /// A new tracker, whose first TSN is this one, continues from a snapshot: the last TSN, and whether data was
    /// received.
    Restores(u32, u32, bool),
}

/// Takes the steps one after the other. The test ends at the first that fails.
pub fn run<R: Abort + AllocGlobal>(rt: &R, steps: &[(&'static str, Step)]) {
    let mut tracker = Tracker::new(rt.alloc(), 0);
    if let Err(fault) = run_steps(rt.alloc(), &mut tracker, steps) {
        rt.panic(fault);
    }
}

// One match for all: each arm is one call.
impl Takes<Step> for Tracker {
    fn take(&mut self, row: &mut Row, step: Step) {
        match step {
            Step::Begins(first) => self.begin(first),
            Step::HasTimeout(millis) => self.has_timeout(millis),
            Step::Receives(tsns, is_new) => self.receives(row, tsns, is_new),
            Step::Observes(tsn, immediate_ack) => self.observe(row, tsn, immediate_ack),
            Step::Skips(tsn, moves) => self.skips(row, tsn, moves),
            Step::IsValid(tsn, is_valid) => self.is_valid(row, tsn, is_valid),
            Step::IsCumulative(tsn) => self.is_cumulative(row, tsn),
            Step::Acknowledges(cumulative, blocks, duplicates) => {
                self.acknowledges(row, cumulative, blocks, duplicates)
            }
            Step::HasSizes(cumulative, blocks, duplicates, byte) => {
                self.has_sizes(row, cumulative, (blocks, duplicates, byte))
            }
            Step::IsDue(is_due) => self.is_due(row, false, is_due),
            Step::GoesAlong(is_due) => self.is_due(row, true, is_due),
            Step::Expires(nanos) => self.expires(row, nanos),
            Step::HasNoTimer => self.has_no_timer(row),
            Step::TimesOut(nanos, is_over) => self.times_out(row, nanos, is_over),
            Step::Shows(last, is_seen) => self.shows(row, last, is_seen),
            Step::Restores(first, last, is_seen) => self.restore(first, last, is_seen),
        }
    }
}
