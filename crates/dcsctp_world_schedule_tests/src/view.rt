//! What a side and its peer show after an act of a schedule.

use crate::agreed::{Agreed, agreed, shown};
use crate::counter::Counter;
use crate::pairs::Both;
use crate::steps::other;
use dcsctp_world::socket::{Association, Held, Pair, ReconfigurationResponseResult, StreamId};
use dcsctp_world::{Side, World};
use std::process::Abort;

/// By what a failure names a schedule: its options, and the seed that it is drawn from.
#[derive(Clone, Copy)]
pub struct Schedule<'a> {
    pub both: &'a Both,
    pub seed: u64,
}

/// What may happen in a schedule to streams and messages.
#[derive(Clone, Copy, PartialEq, Eq)]
pub enum Kind {
    /// No message has limits, and no stream is reset.
    Reliable,

    /// No message has limits, and streams are reset, but for the first two.
    WithResets,

    /// Messages have limits and streams are reset, but for the first two.
    WithLimits,

    /// Any message may have limits, and any stream may be reset.
    Any,
}

impl Kind {
    /// May a message on this stream have limits?
    pub fn may_limit(self, stream: StreamId) -> bool {
        match self {
            Kind::Reliable | Kind::WithResets => false,
            Kind::WithLimits => stream.0 >= 2,
            Kind::Any => true,
        }
    }

    /// May this stream be reset?
    pub fn may_reset(self, stream: StreamId) -> bool {
        match self {
            Kind::Reliable => false,
            Kind::WithResets | Kind::WithLimits => stream.0 >= 2,
            Kind::Any => true,
        }
    }
}

impl Schedule<'_> {
    /// Three of five schedules are of a kind of their own.
    pub fn kind(&self) -> Kind {
        match self.seed.checked_rem(5) {
            Some(0) => Kind::Reliable,
            Some(1) => Kind::WithResets,
            Some(2) => Kind::WithLimits,
            _ => Kind::Any,
        }
    }

    /// Is nothing missing on this stream, whatever happens on others? No schedule sends many messages.
    pub fn is_gapless(&self, stream: StreamId) -> bool {
        let kind = self.kind();
        !kind.may_reset(stream) && !kind.may_limit(stream)
    }
}

/// A side of a world.
#[derive(Clone, Copy)]
pub struct View<'a> {
    pub schedule: Schedule<'a>,
    pub world: &'a World<Counter>,
    pub side: Side,
}

/// Its own pair, and what it knows of its peer.
pub type Ends = (Pair, Held);

fn ends_of(association: &Option<Association>) -> Option<Ends> {
    let association = (*association)?;
    Some((association.my, association.held?))
}

/// Do the two have each other's pairs?
pub fn are_crossed((my, held): &Ends, (their, their_held): &Ends) -> bool {
    held.peer == *their && their_held.peer == *my
}

impl View<'_> {
    /// The test ends here.
    pub fn fails(&self, rt: &impl Abort, text: &str) -> ! {
        panic!(rt;
            "{}, seed {}, act {}, {:?}: {text}",
            self.schedule.both.name,
            self.schedule.seed,
            self.world.acts().len(),
            self.side
        )
    }

    /// This must hold.
    pub fn holds(&self, rt: &impl Abort, text: &str, it_holds: bool) {
        if !it_holds {
            self.fails(rt, text);
        }
    }

    // What the options of both sides say that they agree on, as this side and as its peer sees it.
    fn agreed(&self) -> (Agreed, Agreed) {
        let Both { a, b, .. } = self.schedule.both;
        match self.side {
            Side::A => (agreed(a, b), agreed(b, a)),
            Side::B => (agreed(b, a), agreed(a, b)),
        }
    }

    /// What it knew of its peer this many acts ago.
    pub fn ends(&self, acts_ago: usize) -> Option<Ends> {
        let noted = self.world.associations(self.side);
        let place = noted.len().checked_sub(acts_ago.saturating_add(1))?;
        ends_of(noted.get(place)?)
    }

    /// Has, or had, the other side the matching association? Each has what the options of both say.
    pub fn has_match(&self, ends: &Ends) -> bool {
        let (expected, expected_there) = self.agreed();
        if shown(&ends.1.capabilities) != expected {
            return false;
        }
        for noted in self.world.associations(other(self.side)) {
            if let Some(theirs) = ends_of(noted) {
                let are_agreed = shown(&theirs.1.capabilities) == expected_there;
                if are_agreed && are_crossed(ends, &theirs) {
                    return true;
                }
            }
        }
        false
    }

    /// Has the other side performed the request of this number, in an association whose peer has this pair?
    pub fn was_performed(&self, my: Pair, number: u32) -> bool {
        for noted in self.world.associations(other(self.side)) {
            if let Some((_, held)) = ends_of(noted) {
                let is_performed = held.peer_result
                    == ReconfigurationResponseResult::SuccessPerformed;
                if held.peer == my && held.peer_last == number && is_performed {
                    return true;
                }
            }
        }
        false
    }
}
