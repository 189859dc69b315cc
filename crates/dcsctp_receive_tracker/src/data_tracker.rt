//! Which TSNs were received, and when that is acknowledged (RFC 9260, sections 6.2 and 6.7). The association
//! reports to it each DATA chunk, each FORWARD TSN chunk, each end of a packet and each moment.

ghost use Rattle.std.specs.Prelude.{◌≡◌, ◌<◌, ◌-◌, ◌^◌, ◌≤◌, true, false, take, length, IfOk, OnOk, OnErr};
ghost use Rattle.std.specs.List.{flat_map};
ghost use Rattle.std.specs.Duration.{as_nanos};
ghost use Rattle.std.specs.Int.{w32, to_be_bytes};
ghost use Rattle.dcsctp_receive_tracker.specs.Received.{ranges_of};
ghost use Rattle.dcsctp_spec_lemmas.specs.spec.queues.Ranges.{IsBeyond};
ghost use Rattle.dcsctp_receive_tracker.specs.Acknowledging.{IsWithinReach};
ghost use Rattle.dcsctp_spec_lemmas.specs.spec.queues.Tracker.{nearest_number, block_bytes, acknowledgement_delay, after_arrival, is_sack_due, with_duplicate};

use crate::received::{Received, advance};
use dcsctp_send_timer::Timer;
use dcsctp_spec_lemmas::types::{AckState, BackoffAlgorithm, Options, SocketTime};
use dcsctp_spec_lemmas::wire::SackChunk;
use std::alloc::{AllocError, Global};
use std::collections::BTreeMap;
use std::marker::Model;
use std::time::Duration;

// A TSN further ahead of the cumulative one is refused: a gap ack block couldn't name it
// (RFC 9260, section 3.3.4).
const MAX_TSN_DISTANCE: u64 = 65535;

// No SACK holds more gap ack blocks without `Options::follow_rfc`, or ever more duplicate TSNs.
const MAX_GAP_ACK_BLOCKS: usize = 20;

const MAX_DUPLICATE_TSNS: usize = 20;

// A SACK without gap ack blocks and duplicates (RFC 9260, section 3.3.4).
const SACK_HEADER_SIZE: usize = 16;

// What a SACK leaves free for a FORWARD-TSN behind it.
const FORWARD_TSN_ROOM: usize = 20;

// Past this number of TSNs no TSN is accepted any more. No association lives that long.
const LAST_CUMULATIVE: u64 = 0xffff_fffe_ffff_ffff;

// What a packet with new data or a FORWARD TSN leads to: every second one is acknowledged at once, and an
// urgent one, too (RFC 9260, section 6.2).
fn after_arrival(state: AckState, is_urgent: bool) -> AckState
    ensures { result ≡ after_arrival state is_urgent }
{
    if is_urgent {
        return AckState::Immediate;
    }
    match state {
        AckState::Idle | AckState::BecomingDelayed => AckState::BecomingDelayed,
        AckState::Delayed | AckState::Immediate => AckState::Immediate,
    }
}

// Keeps a TSN that came again for the next SACK, if there is room for it.
fn keep_duplicate(duplicates: &mut Vec<u32>, tsn: u32, is_new: bool) -> Result<(), AllocError>
    ensures ok { OnOk result
        (duplicates.new.items ≡ with_duplicate tsn is_new duplicates.old.items) }
    ensures err { OnErr result ((is_new ≡ false) × (duplicates.new.items ≡ duplicates.old.items)) }
{
    if !is_new && duplicates.len() < MAX_DUPLICATE_TSNS {
        duplicates.push(tsn)?;
    }
    Ok(())
}

// Is a SACK due in this state, or could one go along with other chunks?
fn is_due(state: AckState, also_if_delayed: bool) -> bool
    ensures { result ≡ is_sack_due state also_if_delayed }
{
    match state {
        AckState::Idle => false,
        AckState::BecomingDelayed | AckState::Delayed => also_if_delayed,
        AckState::Immediate => true,
    }
}

// The number of a TSN, which is within 2^31 of the cumulative one (RFC 9260, section 1.6).
fn number_of(cumulative: u64, tsn: u32) -> u64
    requires { cumulative < 2 ^ 64 - 2 ^ 32 }
    ensures { result ≡ nearest_number cumulative tsn }
{
    let ahead = u64::from(tsn.wrapping_sub((cumulative % 0x1_0000_0000) as u32));
    if ahead < 0x8000_0000 {
        cumulative + ahead
    } else {
        cumulative.saturating_sub(0x1_0000_0000 - ahead)
    }
}

// The shorter of half the retransmission timeout and the longest delay.
fn acknowledgement_delay(rto: Duration, longest: Duration) -> Duration
    ensures { as_nanos result ≡ acknowledgement_delay (as_nanos rto) (as_nanos longest) }
{
    let half = rto / 2;
    if longest < half { longest } else { half }
}

// The gap ack blocks of a SACK, four bytes each: that many first ranges, as distances from the cumulative TSN.
fn gap_ack_blocks(alloc: Global, received: &Received, most: usize) -> Result<Vec<u8>, AllocError>
    requires beyond { IsBeyond received.now.cumulative (ranges_of received.now.ranges) }
    requires near { IsWithinReach received.now.cumulative (ranges_of received.now.ranges) }
    requires few { most ≤ 2 ^ 16 }
    ensures { IfOk result
        (λ blocks. blocks.items
        ≡ flat_map (block_bytes received.now.cumulative)
        (take most (ranges_of received.now.ranges))) }
{
    let count = received.ranges.len().min(most);
    let mut blocks = Vec::with_capacity(alloc, 4 * count)?;
    for (first, last) in received.ranges.iter().take(most) {
        let start = (*first - received.cumulative) as u16;
        let end = (*last - received.cumulative) as u16;
        blocks.extend_from_slice(&start.to_be_bytes())?;
        blocks.extend_from_slice(&end.to_be_bytes())?;
    }
    Ok(blocks)
}

// The duplicate TSNs of a SACK, four bytes each: that many first ones.
fn tsn_bytes(alloc: Global, tsns: &[u32], most: usize) -> Result<Vec<u8>, AllocError>
    requires { length tsns.now ≤ 20 }
    ensures { IfOk result (λ bytes. bytes.items ≡ flat_map (to_be_bytes w32) (take most tsns.now)) }
{
    let listed = &tsns[..tsns.len().min(most)];
    let mut bytes = Vec::with_capacity(alloc, 4 * listed.len())?;
    for tsn in listed {
        bytes.extend_from_slice(&tsn.to_be_bytes())?;
    }
    Ok(bytes)
}

/// What a SACK says (RFC 9260, section 3.3.4). It owns the lists that the chunk borrows.
#[derive(Debug, Drop)]
pub struct SelectiveAck {
    /// The last TSN before the first that is missing.
    pub cumulative_tsn_ack: u32,

    /// The receive window in bytes.
    pub a_rwnd: u32,

    /// The gap ack blocks, ascending, four bytes each.
    pub gap_ack_blocks: Vec<u8>,

    /// The TSNs that came again, four bytes each.
    pub duplicate_tsns: Vec<u8>,
}

impl SelectiveAck {
    /// The chunk that says so.
    pub fn chunk(&self) -> SackChunk<'_>
        ensures cumulative { result.cumulative_tsn_ack ≡ self.now.cumulative_tsn_ack }
        ensures window { result.a_rwnd ≡ self.now.a_rwnd }
        ensures blocks { result.gap_ack_blocks.now ≡ self.now.gap_ack_blocks.items }
        ensures duplicates { result.duplicate_tsns.now ≡ self.now.duplicate_tsns.items }
    {
        SackChunk {
            cumulative_tsn_ack: self.cumulative_tsn_ack,
            a_rwnd: self.a_rwnd,
            gap_ack_blocks: self.gap_ack_blocks.as_slice(),
            duplicate_tsns: self.duplicate_tsns.as_slice(),
        }
    }
}

/// The TSNs that were received from the peer, and when they are acknowledged.
///
/// A contract numbers the TSNs without wrap: the number of a TSN modulo 2^32 is the TSN. The first TSN of the
/// association is its own number.
#[derive(Debug, Drop)]
pub struct DataTracker {
    alloc: Global,
    pub(crate) received: Received,

    // What came again since the last SACK.
    duplicates: Vec<u32>,

    // Was any data received?
    pub(crate) has_seen_data: bool,

    acknowledgement: AckState,
    delay: Timer,
    longest_delay: Duration,

    // Is the RFC followed where the port doesn't?
    follows_rfc: bool,
}

impl Model for DataTracker {
    ghost use Rattle.std.specs.Duration.{as_nanos};
    ghost use Rattle.dcsctp_receive_tracker.specs.Received.{ranges_of};
    ghost use Rattle.dcsctp_spec_lemmas.specs.spec.queues.Tracker.{TrackerState};

    ghost Value = { TrackerState };

    ghost use Rattle.dcsctp_receive_tracker.specs.TrackerFields.{IsTrackerKept};

    ghost view = { λ tracker. record {
      cumulative = tracker.received.cumulative;
      ranges = ranges_of tracker.received.ranges;
      duplicates = tracker.duplicates.items;
      has_seen_data = tracker.has_seen_data;
      acknowledgement = tracker.acknowledgement;
      delay = tracker.delay;
      longest_delay = as_nanos tracker.longest_delay;
      follows_rfc = tracker.follows_rfc;
    } };

    ghost invariant = { IsTrackerKept };
}

impl DataTracker {
    ghost use Rattle.std.specs.Prelude.{◌%◌, []};
    ghost use Rattle.dcsctp_receive_tracker.specs.Acknowledging.{RunsWhereDelayed};
    ghost use Rattle.dcsctp_spec_lemmas.specs.spec.queues.Tracker.{new_tracker, is_valid_tsn, is_new_tsn, tracker_after_data, is_below_highest, is_first_missing, delay_over, hastened_tracker, is_forward, after_forward, after_packet_end, is_acknowledgement_due, acknowledgement_asked, after_moment, stopped_timer, owes_acknowledgement, with_timeout, most_blocks, duplicates_left};
    ghost use Rattle.dcsctp_spec_lemmas.specs.spec.endpoint.Timers.{running_deadline, is_expired_timer};

    /// Nothing was received yet, and `peer_initial_tsn` is the TSN that is to come first. The one before it
    /// counts as received (RFC 9260, section 6.2), which is 2^32 - 1 if the first is 0. Allocates nothing.
    pub fn new(alloc: Global, options: &Options, peer_initial_tsn: u32) -> DataTracker
        ensures { result ≡ new_tracker options.now peer_initial_tsn }
    {
        let longest_delay = options.delayed_ack_max_timeout;
        DataTracker {
            alloc,
            received: Received {
                cumulative: u64::from(peer_initial_tsn.wrapping_sub(1)),
                ranges: BTreeMap::new(alloc),
            },
            duplicates: Vec::new(alloc),
            has_seen_data: false,
            acknowledgement: AckState::Idle,
            delay: Timer::new(
                acknowledgement_delay(options.rto_initial, longest_delay),
                BackoffAlgorithm::Fixed,
                Some(0),
                None,
            ),
            longest_delay,
            follows_rfc: options.follow_rfc,
        }
    }

    /// The last TSN before the first that is missing: a SACK acknowledges all up to it (RFC 9260, section 6.2).
    pub fn last_cumulative_acked_tsn(&self) -> u32
        ensures { result ≡ self.now.cumulative % 2 ^ 32 }
    {
        (self.received.cumulative % 0x1_0000_0000) as u32
    }

    /// Is data with this TSN accepted? Not if it is more than 65,535 ahead of the cumulative TSN, since no
    /// gap ack block could name it. An older TSN is, as a duplicate. Serial number arithmetic decides which
    /// of two TSNs is ahead (RFC 9260, section 1.6). After 2^64 - 2^32 TSNs none is accepted.
    pub fn is_tsn_valid(&self, tsn: u32) -> bool
        ensures { result ≡ is_valid_tsn self.now.cumulative tsn }
    {
        let cumulative = self.received.cumulative;
        cumulative <= LAST_CUMULATIVE && number_of(cumulative, tsn) <= cumulative + MAX_TSN_DISTANCE
    }

    /// Is the RFC followed where the port doesn't (`Options::follow_rfc`)?
    pub fn follows_rfc(&self) -> bool
        ensures { result ≡ self.now.follows_rfc }
    {
        self.follows_rfc
    }

    /// Was a later TSN received than this one?
    pub fn is_below_highest(&self, tsn: u32) -> bool
        requires { is_valid_tsn self.now.cumulative tsn ≡ true }
        ensures { result ≡ is_below_highest tsn self.now }
    {
        number_of(self.received.cumulative, tsn) < self.received.highest()
    }

    /// Is it the first TSN that is missing?
    pub fn is_first_missing(&self, tsn: u32) -> bool
        requires { is_valid_tsn self.now.cumulative tsn ≡ true }
        ensures { result ≡ is_first_missing tsn self.now }
    {
        number_of(self.received.cumulative, tsn) == self.received.cumulative + 1
    }

    /// An acknowledgement is due at once.
    pub fn demand_acknowledgement(&mut self)
        ensures { self.new ≡ delay_over self.old }
    {
        self.acknowledgement = AckState::Immediate;
        self.delay.stop();
    }

    /// An acknowledgement is due at the moment `now`: `handle_timeout` at that moment says so.
    pub fn hasten_acknowledgement(&mut self, now: SocketTime)
        ensures { self.new ≡ hastened_tracker now self.old }
    {
        self.acknowledgement = AckState::Delayed;
        self.delay.start_due(now);
    }

    /// Adds the TSN of a DATA chunk, and returns whether it is new (RFC 9260, section 6.2).
    ///
    /// It is acknowledged at once if it is the first of the association, has the I flag, comes again, or
    /// leaves a gap. So it is if another packet waits already, and with `Options::follow_rfc` if it closes a
    /// gap (RFC 9260, sections 5.1, 6.2 and 6.7). A TSN that comes again is reported in the next SACK, unless
    /// that has 20 already.
    ///
    /// `Err`: an allocation failed, and nothing has changed.
    pub fn observe(&mut self, tsn: u32, immediate_ack: bool) -> Result<bool, AllocError>
        requires { is_valid_tsn self.old.cumulative tsn ≡ true }
        ensures is_new { IfOk result (λ is_new. is_new ≡ is_new_tsn tsn self.old) }
        ensures ok { OnOk result (self.new ≡ tracker_after_data tsn immediate_ack self.old) }
        ensures err { OnErr result (self.new ≡ self.old) }
    {
        let number = number_of(self.received.cumulative, tsn);
        let comes_into_gap = self.follows_rfc & !self.received.ranges.is_empty();
        let is_new = self.received.receive(number)?;
        keep_duplicate(&mut self.duplicates, tsn, is_new)?;
        let is_urgent = !is_new
            | immediate_ack
            | !self.has_seen_data
            | !self.received.ranges.is_empty()
            | comes_into_gap;
        self.has_seen_data = true;
        self.acknowledgement = after_arrival(self.acknowledgement, is_urgent);
        self.delay.stop();
        Ok(is_new)
    }

    /// Call it once all of a packet was handled. Data that came with it and needn't be acknowledged at once
    /// is acknowledged after the delay (RFC 9260, section 6.2).
    pub fn observe_packet_end(&mut self, now: SocketTime)
        ensures left { self.new ≡ after_packet_end now self.old }
        ensures runs { RunsWhereDelayed self.new.acknowledgement self.new.delay.running }
    {
        if let AckState::BecomingDelayed = self.acknowledgement {
            self.acknowledgement = AckState::Delayed;
            self.delay.start(now);
        }
    }

    /// Is a SACK due, whatever else is sent?
    pub fn is_acknowledgement_due(&self) -> bool
        ensures { result ≡ is_acknowledgement_due self.now }
    {
        is_due(self.acknowledgement, false)
    }

    /// Is received data to be acknowledged? A SACK may go along with other chunks (RFC 9260, section 6.1).
    pub fn owes_acknowledgement(&self) -> bool
        ensures { result ≡ owes_acknowledgement self.now }
    {
        is_due(self.acknowledgement, true)
    }

    /// Is a SACK to be sent now? A delayed one counts if other chunks are sent that it can go along with. If
    /// the answer is yes, all counts as acknowledged.
    pub fn should_send_ack(&mut self, also_if_delayed: bool) -> bool
        ensures answer { result ≡ is_sack_due self.old.acknowledgement also_if_delayed }
        ensures left { self.new ≡ acknowledgement_asked also_if_delayed self.old }
    {
        let is_due = is_due(self.acknowledgement, also_if_delayed);
        if is_due {
            self.acknowledgement = AckState::Idle;
            self.delay.stop();
        }
        is_due
    }

    // How many gap ack blocks a SACK of that many bytes may have, and how many TSNs that came again: 20 each. With
    // `Options::follow_rfc` as many blocks as fit, and the duplicates that fit after those that there are.
    fn most_entries(&self, room: usize) -> (usize, usize)
        ensures blocks { result.0 ≡ most_blocks self.now.follows_rfc room }
        ensures duplicates { result.1 ≡ duplicates_left self.now room }
    {
        if !self.follows_rfc {
            return (MAX_GAP_ACK_BLOCKS, MAX_DUPLICATE_TSNS);
        }
        let blocks = room
            .min(65535)
            .saturating_sub(SACK_HEADER_SIZE + FORWARD_TSN_ROOM)
            / 4;
        let left = blocks.saturating_sub(self.received.ranges.len());
        (blocks, left.min(MAX_DUPLICATE_TSNS))
    }

    /// What a SACK of at most `room` bytes says now, with the receive window `a_rwnd`: at most 20 gap ack blocks, the
    /// lowest, and the TSNs that came again (RFC 9260, section 6.2). The latter are then forgotten. With
    /// `Options::follow_rfc` it has as many blocks as fit, and the duplicates that fit after them; else it may be
    /// longer. If there is neither, nothing is allocated.
    ///
    /// `Err`: an allocation failed, and nothing has changed.
    pub fn create_selective_ack(
        &mut self,
        a_rwnd: u32,
        room: usize,
    ) -> Result<SelectiveAck, AllocError>
        ensures cumulative { IfOk result
            (λ sack. sack.cumulative_tsn_ack ≡ self.old.cumulative % 2 ^ 32) }
        ensures window { IfOk result (λ sack. sack.a_rwnd ≡ a_rwnd) }
        ensures blocks { IfOk result
            (λ sack. sack.gap_ack_blocks.items
            ≡ flat_map (block_bytes self.old.cumulative)
            (take (most_blocks self.old.follows_rfc room) self.old.ranges)) }
        ensures duplicates { IfOk result
            (λ sack. sack.duplicate_tsns.items
            ≡ flat_map (to_be_bytes w32)
            (take (duplicates_left self.old room) self.old.duplicates)) }
        ensures few { length self.old.duplicates ≤ 20 }
        ensures ok { OnOk result (self.new ≡ record self.old { duplicates = [] }) }
        ensures err { OnErr result (self.new ≡ self.old) }
    {
        let (most, left) = self.most_entries(room);
        let blocks = gap_ack_blocks(self.alloc, &self.received, most)?;
        let duplicates = tsn_bytes(self.alloc, self.duplicates.as_slice(), left)?;
        self.duplicates.clear();
        Ok(SelectiveAck {
            cumulative_tsn_ack: (self.received.cumulative % 0x1_0000_0000) as u32,
            a_rwnd,
            gap_ack_blocks: blocks,
            duplicate_tsns: duplicates,
        })
    }

    /// Handles a FORWARD TSN chunk (RFC 3758, section 3.6): all up to `new_cumulative_tsn` count as received,
    /// and it is acknowledged as data is. If that isn't beyond the cumulative TSN, a SACK is due at once,
    /// nothing else changes, and the result is `false`.
    pub fn handle_forward_tsn(&mut self, new_cumulative_tsn: u32) -> bool
        ensures moves { result ≡ is_forward self.old.cumulative new_cumulative_tsn }
        ensures left { self.new ≡ after_forward new_cumulative_tsn self.old }
    {
        let cumulative = self.received.cumulative;
        if cumulative > LAST_CUMULATIVE || number_of(cumulative, new_cumulative_tsn) <= cumulative {
            self.demand_acknowledgement();
            return false;
        }
        let number = number_of(cumulative, new_cumulative_tsn);
        self.received.cumulative = advance(&mut self.received.ranges, number);
        self.acknowledgement = after_arrival(self.acknowledgement, false);
        self.delay.stop();
        true
    }

    /// Advances the delay to `now`, and returns whether it is over, so that a SACK is due. Before its
    /// deadline nothing changes.
    pub fn handle_timeout(&mut self, now: SocketTime) -> bool
        ensures answer { result ≡ is_expired_timer now self.old.delay.running }
        ensures left { self.new ≡ after_moment now self.old }
    {
        let is_over = self.delay.expire(now);
        if is_over {
            self.acknowledgement = AckState::Immediate;
        }
        is_over
    }

    /// When the delay is over; `None` if no acknowledgement is delayed.
    pub fn next_timeout(&self) -> Option<SocketTime>
        ensures { result ≡ running_deadline self.now.delay.running }
    {
        self.delay.next_expiry()
    }

    /// The retransmission timeout is `rto` from now on. The next delay is the shorter of its half and
    /// `delayed_ack_max_timeout` of the options.
    pub fn update_rto(&mut self, rto: Duration)
        ensures { self.new ≡ with_timeout (as_nanos rto) self.old }
    {
        self.delay
            .set_duration(acknowledgement_delay(rto, self.longest_delay));
    }
}
