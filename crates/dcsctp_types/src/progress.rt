//! How far an item is, and what changes that.

ghost use Rattle.std.specs.Prelude.{◌≡◌};
ghost use Rattle.dcsctp_types.specs.queues.Progress.{is_in_flight, is_marked, is_unacknowledged, is_abandoned, item_sent_again, has_come_to, tells_whether_missing, missed_progress, missed_if_told, marked_lost, acknowledged_progress, progress_changed, just_sent};

/// How far an item is.
#[derive(Clone, Copy, Debug, PartialEq, Eq)]
pub enum ItemState {
    /// It was sent, and may still arrive.
    InFlight,

    /// It was lost, and waits to be sent again.
    Marked,

    /// A gap ack block has reported it. It stays so, whatever later blocks say.
    Acknowledged,

    /// Its message was abandoned (RFC 3758, section 3.5).
    Abandoned,
}

/// How far an item is, and what led there.
#[derive(Clone, Copy, Debug)]
pub struct Progress {
    /// How far it is.
    pub state: ItemState,

    /// Has a SACK acknowledged it, before its message was abandoned or since?
    pub was_acknowledged: bool,

    /// How often it was sent again.
    pub times_sent_again: u16,

    /// The TSN that was sent next for the first time when it was sent again last; none if it was sent once.
    pub sent_before: Option<u32>,

    /// How often it was reported missing since it was sent last. At three it is marked for that.
    pub misses: u8,
}

/// What may happen to an item.
#[derive(Clone, Copy, Debug)]
pub enum Change {
    /// It is sent again, before this TSN is sent for the first time.
    SendAgain(u32),

    /// It is reported missing, while later ones have arrived, by a SACK. The TSN is the newest that this one
    /// acknowledges and none before did; there may be none.
    Miss(Option<u32>),

    /// The retransmission timer has expired.
    Mark,

    /// It is acknowledged.
    Acknowledge,

    /// Its message is abandoned.
    Abandon,
}

impl ItemState {
    /// Does it count as in flight?
    pub fn is_in_flight(self) -> bool
        ensures { result ≡ is_in_flight self }
    {
        match self {
            ItemState::InFlight => true,
            ItemState::Marked | ItemState::Acknowledged | ItemState::Abandoned => false,
        }
    }

    /// Does it wait to be sent again?
    pub fn is_marked(self) -> bool
        ensures { result ≡ is_marked self }
    {
        match self {
            ItemState::Marked => true,
            ItemState::InFlight | ItemState::Acknowledged | ItemState::Abandoned => false,
        }
    }

    /// Was its message abandoned?
    pub fn is_abandoned(self) -> bool
        ensures { result ≡ is_abandoned self }
    {
        match self {
            ItemState::Abandoned => true,
            ItemState::InFlight | ItemState::Marked | ItemState::Acknowledged => false,
        }
    }

    /// Was it neither acknowledged nor abandoned?
    pub fn is_unacknowledged(self) -> bool
        ensures { result ≡ is_unacknowledged self }
    {
        match self {
            ItemState::InFlight | ItemState::Marked => true,
            ItemState::Acknowledged | ItemState::Abandoned => false,
        }
    }
}

// Has the TSN come to the other one (RFC 9260, section 1.6)?
fn has_come_to(newest: u32, tsn: u32) -> bool
    ensures { result ≡ has_come_to newest tsn }
{
    newest.wrapping_sub(tsn) < 0x8000_0000
}

// Can a SACK show whether an item is missing? For one that was sent again, it can if it acknowledges a TSN
// that was sent after it. Unlike RFC 9260, section 7.2.4, such an item may be sent again fast once more
// (docs/design/decisions.md, Lost again).
fn tells_of(sent_before: Option<u32>, newest: Option<u32>) -> bool
    ensures { result ≡ tells_whether_missing sent_before newest }
{
    match (sent_before, newest) {
        (None, _) => true,
        (Some(_), None) => false,
        (Some(next), Some(newest)) => has_come_to(newest, next),
    }
}

impl Progress {
    /// That of an item that was just sent.
    pub fn new() -> Progress
        ensures { result ≡ just_sent }
    {
        Progress {
            state: ItemState::InFlight,
            was_acknowledged: false,
            times_sent_again: 0,
            sent_before: None,
            misses: 0,
        }
    }

    // Sent again, before this TSN is sent for the first time.
    fn sent_again(self, next: u32) -> Progress
        ensures { result ≡ item_sent_again next self }
    {
        Progress {
            state: ItemState::InFlight,
            was_acknowledged: self.was_acknowledged,
            times_sent_again: self.times_sent_again.saturating_add(1),
            sent_before: Some(next),
            misses: 0,
        }
    }

    // Reported missing.
    fn missed(self) -> Progress
        ensures { result ≡ missed_progress self.state self }
    {
        match self.state {
            ItemState::InFlight => {
                if self.misses == 2 {
                    Progress {
                        state: ItemState::Marked,
                        was_acknowledged: self.was_acknowledged,
                        times_sent_again: self.times_sent_again,
                        sent_before: self.sent_before,
                        misses: 3,
                    }
                } else if self.misses < 2 {
                    Progress {
                        state: self.state,
                        was_acknowledged: self.was_acknowledged,
                        times_sent_again: self.times_sent_again,
                        sent_before: self.sent_before,
                        misses: self.misses + 1,
                    }
                } else {
                    self
                }
            }
            ItemState::Marked | ItemState::Acknowledged | ItemState::Abandoned => self,
        }
    }

    // Reported missing by a SACK, if the SACK can show that.
    fn missed_where(self, is_told: bool) -> Progress
        ensures { result ≡ missed_if_told is_told self }
    {
        if is_told { self.missed() } else { self }
    }

    // In this state, with the same counts.
    fn in_state(self, state: ItemState) -> Progress
        ensures { result ≡ record self { state = state } }
    {
        Progress {
            state,
            was_acknowledged: self.was_acknowledged,
            times_sent_again: self.times_sent_again,
            sent_before: self.sent_before,
            misses: self.misses,
        }
    }

    // Lost, if it was in flight.
    fn marked(self) -> Progress
        ensures { result ≡ marked_lost self.state self }
    {
        match self.state {
            ItemState::InFlight => self.in_state(ItemState::Marked),
            ItemState::Marked | ItemState::Acknowledged | ItemState::Abandoned => self,
        }
    }

    // Acknowledged by a SACK. What was abandoned stays so.
    fn acknowledged(self) -> Progress
        ensures { result ≡ acknowledged_progress self.state self }
    {
        let state = match self.state {
            ItemState::InFlight | ItemState::Marked => ItemState::Acknowledged,
            ItemState::Acknowledged | ItemState::Abandoned => self.state,
        };
        Progress {
            state,
            was_acknowledged: true,
            times_sent_again: self.times_sent_again,
            sent_before: self.sent_before,
            misses: self.misses,
        }
    }

    /// How far it is after the change.
    pub fn changed(self, change: Change) -> Progress
        ensures { result ≡ progress_changed change self }
    {
        match change {
            Change::SendAgain(next) => self.sent_again(next),
            Change::Miss(newest) => self.missed_where(tells_of(self.sent_before, newest)),
            Change::Mark => self.marked(),
            Change::Acknowledge => self.acknowledged(),
            Change::Abandon => self.in_state(ItemState::Abandoned),
        }
    }
}
