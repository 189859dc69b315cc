//! The running deadlines of a socket in one ordered list: `poll_timeout` answers from its first entry, and
//! `advance_time` handles no timer before it. The last call of a socket has made the list. No call allocates.

ghost use Rattle.std.specs.Prelude.{◌≡◌, ◌≤◌, ◌<◌, ◌+◌, nat_lt, length, take, drop};
ghost use Rattle.dcsctp_core.specs.Listing.{besides, entries_with_one, rank, AllBelow, BeginsAfter, EndsBefore, IsListing, ListsEachTimer};

use dcsctp_transfer::api::SocketTime;
use std::marker::Model;

/// The timer that a deadline belongs to. Of deadlines at the same moment the one of an earlier kind is first.
#[derive(Clone, Copy, Debug, PartialEq, Eq)]
pub enum DeadlineKind {
    /// An acknowledgement is delayed (RFC 9260, section 6.2).
    AcknowledgementDelay,

    /// What is in flight isn't acknowledged, T3-rtx (RFC 9260, section 6.3).
    Retransmission,

    /// The next HEARTBEAT is due (RFC 9260, section 8.3).
    HeartbeatInterval,

    /// A HEARTBEAT isn't answered (RFC 9260, section 8.3).
    HeartbeatTimeout,

    /// Our own request to reset streams isn't answered (RFC 6525, section 5.1.1).
    Reconfiguration,

    /// An INIT or COOKIE ECHO isn't answered (RFC 9260, section 5.1).
    T1,

    /// A SHUTDOWN or SHUTDOWN ACK isn't answered (RFC 9260, section 9.2).
    T2,
}

/// A deadline, and the timer that it belongs to.
#[derive(Clone, Copy, Debug)]
pub struct Entry {
    /// When the timer expires.
    pub moment: SocketTime,

    /// Which timer it is.
    pub kind: DeadlineKind,
}

fn is_earlier(moment: SocketTime, other: SocketTime) -> bool
    ensures { result ≡ nat_lt moment other }
{
    moment < other
}

// Makes room for an entry of a later kind than those in front: each that expires later goes one place back.
fn make_room(entries: &mut [Entry; 7], count: usize, new: &Entry) -> usize
    requires count { count < 7 }
    requires below { AllBelow (rank new.now.kind) (take count entries.old) }
    ensures place { result ≤ count }
    ensures others { besides result (count + 1) entries.new ≡ take count entries.old }
    ensures front { EndsBefore new.now (take result entries.new) }
    ensures back { BeginsAfter new.now (drop (result + 1) (take (count + 1) entries.new)) }
    ensures all { length entries.new ≡ 7 }
{
    let mut place = count;
    while 0 < place {
        if !is_earlier(new.moment, entries[place - 1].moment) {
            return place;
        }
        entries[place] = entries[place - 1];
        place -= 1;
    }
    0
}

// Puts an entry of a later kind than the first ones into its place among them.
fn put_later(entries: &mut [Entry; 7], count: usize, moment: SocketTime, kind: DeadlineKind)
    requires count { count < 7 }
    requires listing { IsListing (take count entries.old) }
    requires below { AllBelow (rank kind) (take count entries.old) }
    ensures placed { take (count + 1) entries.new
        ≡ entries_with_one (record { moment = moment; kind = kind }) (take count entries.old) }
    ensures all { length entries.new ≡ 7 }
{
    let new = Entry { moment, kind };
    let place = make_room(entries, count, &new);
    entries[place] = new;
}

/// The deadlines that run, at most one of each kind, the earliest first.
///
/// A contract sees the list of the entries.
#[derive(Debug, Drop)]
pub struct Deadlines {
    // Those after the first `count` mean nothing.
    entries: [Entry; 7],

    count: usize,
}

impl Model for Deadlines {
    ghost use Rattle.std.specs.Prelude.{◌≡◌, ◌≤◌, List, length, take};
    ghost use Rattle.dcsctp_core.specs.declared.deadlines.Entry.{Entry};
    ghost use Rattle.dcsctp_core.specs.Listing.{IsListing};

    ghost Value = { List Entry };

    ghost view = { λ deadlines. take deadlines.count deadlines.entries };

    ghost invariant = { λ deadlines. (deadlines.count ≤ 7) × (length deadlines.entries ≡ 7) × IsListing (take deadlines.count deadlines.entries) };
}

impl Deadlines {
    ghost use Rattle.std.specs.Prelude.{◌≡◌, ◌+◌, []};
    ghost use Rattle.dcsctp_core.specs.Listing.{first_moment, rank, with_entry, AllBelow, IsListing};

    /// No deadline runs.
    #[inline(always)]
    pub fn new() -> Deadlines
        ensures { result ≡ [] }
    {
        let none = Entry {
            moment: SocketTime::zero(),
            kind: DeadlineKind::AcknowledgementDelay,
        };
        Deadlines {
            entries: [none; 7],
            count: 0,
        }
    }

    /// The earliest deadline, if one runs.
    pub fn first(&self) -> Option<SocketTime>
        ensures first { result ≡ first_moment self.now }
        ensures listing { IsListing self.now }
    {
        if self.count == 0 {
            return None;
        }
        Some(self.entries[0].moment)
    }

    /// From now on no deadline runs.
    pub fn clear(&mut self)
        ensures { self.new ≡ [] }
    {
        self.count = 0;
    }

    /// Adds the deadline of a kind, if there is one, to those of earlier kinds.
    pub fn add(&mut self, kind: DeadlineKind, deadline: Option<SocketTime>)
        requires { AllBelow (rank kind) self.old }
        ensures added { self.new ≡ with_entry kind deadline self.old }
        ensures below { AllBelow (rank kind + 1) self.new }
    {
        if let Some(moment) = deadline {
            put_later(&mut self.entries, self.count, moment, kind);
            self.count += 1;
        }
    }
}

/// A law: a list that was made of what timers say has that of each timer, and nothing else.
pub fn relist_tells()
    ensures { ListsEachTimer }
{}
