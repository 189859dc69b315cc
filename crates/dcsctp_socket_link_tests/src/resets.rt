//! The streams that an end resets, and the resets that are reported to it.

use crate::messages::Messages;
use crate::run::{Resetting, Run};
use dcsctp_socket::StreamId;
use std::alloc::Global;
use std::process::Abort;

/// The resets of one end, in the order of its calls and of its events.
#[derive(Drop)]
pub struct Resets {
    alloc: Global,
    plan: Resetting,

    // How many calls there were.
    calls: usize,

    // Its own streams that were to be reset, and those that were.
    asked: Vec<u16>,
    performed: Vec<u16>,

    /// How many requests were performed.
    pub requests: u32,

    // The streams of the other end that were reset, and how many of them were recorded.
    told: Vec<u16>,
    noted: usize,
}

// Puts the numbers of streams after those of a list.
fn put(rt: &impl Abort, list: &mut Vec<u16>, streams: &[StreamId]) {
    for stream in streams {
        list.push(stream.0).expect(rt, "no room for a stream");
    }
}

impl Resets {
    /// No stream was reset yet.
    pub fn new(alloc: Global, run: &Run) -> Resets {
        Resets {
            alloc,
            plan: run.resetting,
            calls: 0,
            asked: Vec::new(alloc),
            performed: Vec::new(alloc),
            requests: 0,
            told: Vec::new(alloc),
            noted: 0,
        }
    }

    /// Does the message of this number wait for a reset?
    pub fn are_due(&self, number: usize) -> bool {
        let is_for_messages = match self.plan {
            Resetting::BetweenMessages | Resetting::AmongMessages => true,
            Resetting::Never | Resetting::AtOnce(_) | Resetting::InTurn(_) => false,
        };
        is_for_messages && self.calls < number / 8
    }

    /// The stream that comes next, if no other needs to be empty for its reset.
    pub fn next_alone(&self) -> Option<StreamId> {
        if self.plan != Resetting::AmongMessages {
            return None;
        }
        Some(StreamId((self.calls % 4) as u16))
    }

    // The streams of the next call, if it is its turn: the first one, and how many. Four streams carry
    // messages.
    fn next(&self, number: usize, waiting: usize) -> Option<(u16, u16)> {
        if self.performed.len() < self.asked.len() {
            return None;
        }
        let is_first = self.calls == 0;
        match self.plan {
            Resetting::BetweenMessages if waiting == 0 && self.are_due(number) => {
                Some([(0, 1), (1, 3), (2, 1)][self.calls % 3])
            }
            Resetting::AmongMessages if waiting == 0 && self.are_due(number) => {
                Some(((self.calls % 4) as u16, 1))
            }
            Resetting::AtOnce(count) if is_first => Some((4, count)),
            Resetting::InTurn(count) if self.calls < count => {
                Some((4 + (self.calls % 1000) as u16, 1))
            }
            Resetting::Never
            | Resetting::BetweenMessages
            | Resetting::AmongMessages
            | Resetting::AtOnce(_)
            | Resetting::InTurn(_) => None,
        }
    }

    /// The streams that are to be reset before the message of this number, while that many bytes wait, if it
    /// is the turn of some.
    pub fn ask(&mut self, rt: &impl Abort, number: usize, waiting: usize) -> Option<Vec<StreamId>> {
        let (first, count) = self.next(number, waiting)?;
        let mut streams = Vec::new(self.alloc);
        for stream in first..first.saturating_add(count) {
            streams.push(StreamId(stream)).expect(rt, "no stream");
        }
        put(rt, &mut self.asked, &streams);
        self.calls = self.calls.saturating_add(1);
        Some(streams)
    }

    /// It reports that its own streams were reset.
    pub fn are_performed(&mut self, rt: &impl Abort, streams: &[StreamId]) {
        put(rt, &mut self.performed, streams);
        self.requests = self.requests.wrapping_add(1);
    }

    /// It reports that streams of the other end were reset.
    pub fn are_told(&mut self, rt: &impl Abort, streams: &[StreamId]) {
        put(rt, &mut self.told, streams);
    }

    /// Records the resets of the streams of the other end, which has sent these messages.
    pub fn note(&mut self, rt: &impl Abort, sent: &mut Messages) {
        for at in self.noted..self.told.len() {
            let stream = *self.told.get(at).expect(rt, "no such stream");
            sent.is_reset(rt, stream);
        }
        self.noted = self.told.len();
    }

    /// All streams that were to be reset were reset, and each was reported once at both ends, in order.
    pub fn are_over(&self, rt: &impl Abort, run: &Run, other: &Resets) {
        let asked = self.asked.as_slice();
        let (name, seed) = (run.name, run.seed);
        assert_eq!(rt;
            asked.is_empty(),
            run.resetting == Resetting::Never,
            "{name}, seed {seed}: no resets"
        );
        assert!(rt;
            self.performed.as_slice() == asked,
            "{name}, seed {seed}: performed"
        );
        assert!(rt; other.told.as_slice() == asked, "{name}, seed {seed}: told");
    }
}
