//! What an exchange of packets is: what each side does, step by step, and which events follow.

use crate::shown::Shown;
use dcsctp_socket::{HandoverReadiness, Options, ResetStreamsError, SocketEvent, StreamId};
use dcsctp_testing::{Counting, ExpectedEvent, How, is_told};

/// The two sides.
#[derive(Clone, Copy, Debug, PartialEq, Eq)]
pub enum Name {
    A,
    B,
}

/// What a side does. Moments are in milliseconds.
#[derive(Clone, Copy)]
pub enum Act {
    /// It begins an association.
    Connects,

    /// It ends the association at once.
    Closes,

    /// It shuts the association down.
    ShutsDown,

    /// It is handed the next packet of the other side.
    Takes,

    /// It is handed the packet again that it was handed last.
    TakesAgain,

    /// The next packet of the other side is lost.
    Loses,

    /// It is handed bytes that are no packet, that often.
    TakesNoPackets(u16),

    /// It sends a message on this stream, of that many bytes.
    Sends(u16, u16, How),

    /// It sends messages on these streams, of that many bytes each, by one call.
    SendsMany(&'static [(u16, u16)]),

    /// It resets these streams.
    Resets(&'static [StreamId]),

    /// It gives this stream this priority.
    SetsPriority(u16, u16),

    /// It gives this stream this threshold of bytes.
    SetsThreshold(u16, usize),

    /// Its time is advanced to this moment.
    Passes(u64),

    /// The same, and this is the moment for which it waits.
    Expires(u64),

    /// So many messages are taken of it.
    Reads(usize),

    /// It is handed over, and closes. Its snapshot is kept.
    HandsOver,

    /// It continues from the snapshot that was kept.
    Restores,

    /// It continues from a snapshot by which the peer can't reset streams.
    RestoresPlain,

    /// It takes no memory for this: in a marked run every allocation is refused meanwhile.
    WithoutMemory(Memoryless),
}

/// What a side does without taking memory.
#[derive(Clone, Copy)]
pub enum Memoryless {
    /// It is to begin an association, and isn't closed.
    Connects,

    /// It is to end its association, and has none.
    Closes,

    /// It is to shut down, and is closed or does so already.
    ShutsDown,

    /// Its time is advanced to this moment, at which nothing is due or which is over.
    Passes(u64),

    /// This is the moment for which it waits.
    WaitsFor(u64),

    /// It is to reset a stream, and refuses to.
    RefusesReset(ResetStreamsError),

    /// It is to be handed over, and isn't ready.
    RefusesHandover(HandoverReadiness),

    /// It is to continue from a snapshot, and isn't closed.
    RefusesRestore,

    /// It continues from the snapshot of a closed socket.
    RestoresNothing,

    /// A message may have so many bytes.
    SetsMessageSize(usize),

    /// Its events so far are taken.
    Tells,

    /// So many messages are taken of it.
    Reads(usize),

    /// It answers its queries.
    Shows(Shown),
}

/// One step: which side, what it does, and its events then.
pub type Step = (Name, Act, &'static [ExpectedEvent]);

/// An exchange.
pub struct Exchange {
    /// May a socket be handed over while data is outstanding? The other options are the default.
    pub hands_over_data: bool,

    /// The messages that A receives, in order: the stream and the bytes of each.
    pub messages_to_a: &'static [(u16, u16)],

    /// The same of B.
    pub messages_to_b: &'static [(u16, u16)],

    /// The steps. Both associations are over after the last one.
    pub steps: &'static [Step],
}

impl Exchange {
    /// The options of both sides.
    pub fn options(&self) -> Options {
        let mut options = Options::default();
        options.enable_handover_with_outstanding_data = self.hands_over_data;
        options
    }

    /// The messages that a side receives.
    pub fn messages_to(&self, name: Name) -> &'static [(u16, u16)] {
        match name {
            Name::A => self.messages_to_a,
            Name::B => self.messages_to_b,
        }
    }

    /// The events of a side in a step: none if it is the other side's.
    pub fn tells_at(&self, name: Name, index: usize) -> &'static [ExpectedEvent] {
        match self.steps.get(index) {
            Some((side, _, tells)) if *side == name => tells,
            Some(_) | None => &[],
        }
    }

    /// Is the event that of this place among the events of a side in a step?
    pub fn is_told_at(&self, name: Name, index: usize, place: usize, event: &SocketEvent) -> bool {
        match self.tells_at(name, index).get(place) {
            Some(told) => is_told(event, told),
            None => false,
        }
    }
}

/// The words that a side draws: A from 100 on, B from 200 on.
pub fn words(name: Name) -> Counting {
    match name {
        Name::A => Counting { next: 100 },
        Name::B => Counting { next: 200 },
    }
}
