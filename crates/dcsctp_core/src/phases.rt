//! The phases of an open association, and T2, which belongs to two of them (RFC 9260, section 9.2).

ghost use Rattle.std.specs.Prelude.{◌≡◌, not};
ghost use Rattle.std.specs.Duration.{as_nanos};
ghost use Rattle.std.specs.Option.{option_map};
ghost use Rattle.dcsctp_transfer.specs.spec.endpoint.BegunResets.{rto_of};
ghost use Rattle.dcsctp_transfer.specs.spec.endpoint.ShutdownOutcomes.{is_all_acknowledged, is_all_passed};
ghost use Rattle.dcsctp_transfer.specs.spec.endpoint.Timers.{running_deadline};
ghost use Rattle.dcsctp_core.specs.Phases.{pending_from, phase_set, state_after_t2, phase_with_t2_told, with_round_trip};
ghost use Rattle.dcsctp_core.specs.Timing.{expiry_of};
ghost use Rattle.dcsctp_core.specs.View.{t2_of_phase, t2_of, transfer_of};

use crate::expiry::{Expiry, expire};
use crate::state::{OpenPhase, OpenState, State};
use dcsctp_transfer::api::SocketTime;
use std::time::Duration;

impl OpenPhase {
    // When T2 expires next, in `ShutdownSent` and `ShutdownAckSent`; none elsewhere.
    pub(crate) fn t2_deadline(&self) -> Option<SocketTime>
        ensures { result ≡ running_deadline (t2_of_phase self.now) }
    {
        match self {
            OpenPhase::Established | OpenPhase::ShutdownPending | OpenPhase::ShutdownReceived => {
                None
            }
            OpenPhase::ShutdownSent(sent) => sent.t2_shutdown.next_expiry(),
            OpenPhase::ShutdownAckSent(sent) => sent.t2_shutdown.next_expiry(),
        }
    }

    // Advances T2 to this moment. In another phase nothing is due.
    fn expire_t2(&mut self, now: SocketTime) -> Expiry
        ensures answer { result ≡ expiry_of now (t2_of_phase self.old) }
        ensures left { self.new ≡ phase_with_t2_told now self.old }
    {
        match self {
            OpenPhase::Established | OpenPhase::ShutdownPending | OpenPhase::ShutdownReceived => {
                Expiry::NotDue
            }
            OpenPhase::ShutdownSent(sent) => expire(&mut sent.t2_shutdown, now),
            OpenPhase::ShutdownAckSent(sent) => expire(&mut sent.t2_shutdown, now),
        }
    }
}

impl State {
    /// Moves the open association to this phase. Any other state is unchanged. Allocates nothing.
    pub fn set_phase(&mut self, phase: OpenPhase)
        ensures { self.new ≡ phase_set phase self.old }
    {
        match self {
            State::Closed | State::CookieWait(_) | State::CookieEchoed(_) => {}
            State::Open(opened) => opened.phase = phase,
        }
    }

    /// Marks the association as shut down by its user. If its COOKIE ACK is awaited, this stops T1. Any other
    /// state is unchanged. Allocates nothing.
    pub fn pend_shutdown(&mut self)
        ensures { self.new ≡ pending_from self.old }
    {
        *self = match std::mem::replace(self, State::Closed) {
            State::CookieEchoed(echoed) => State::Open(OpenState {
                phase: OpenPhase::ShutdownPending,
                tcb: echoed.tcb,
            }),
            State::Open(opened) => State::Open(OpenState {
                phase: OpenPhase::ShutdownPending,
                tcb: opened.tcb,
            }),
            State::Closed => State::Closed,
            State::CookieWait(wait) => State::CookieWait(wait),
        };
    }

    /// Was something sent that is neither acknowledged nor abandoned? False without a peer. Allocates
    /// nothing.
    pub fn has_unacknowledged_items(&self) -> bool
        ensures { result ≡ not (is_all_acknowledged (transfer_of self.now)) }
    {
        match self.tcb() {
            None => false,
            Some(tcb) => tcb.transfer.has_unacknowledged_items(),
        }
    }

    /// Was something sent that the peer's cumulative TSN ack hasn't passed, abandoned or not? False without a
    /// peer. Allocates nothing.
    pub fn has_outstanding_items(&self) -> bool
        ensures { result ≡ not (is_all_passed (transfer_of self.now)) }
    {
        match self.tcb() {
            None => false,
            Some(tcb) => tcb.transfer.has_outstanding_items(),
        }
    }

    /// The retransmission timeout; zero without a peer. Allocates nothing.
    pub fn rto(&self) -> Duration
        ensures { as_nanos result ≡ rto_of (transfer_of self.now) }
    {
        match self.tcb() {
            None => Duration::ZERO,
            Some(tcb) => tcb.transfer.rto(),
        }
    }

    /// Takes a round trip into account, if one was measured and the peer is known (RFC 9260, section 6.3.1). Allocates
    /// nothing.
    pub fn observe_round_trip(&mut self, round_trip: Option<Duration>)
        ensures { self.new ≡ with_round_trip (option_map as_nanos round_trip) self.old }
    {
        match self {
            State::Closed | State::CookieWait(_) => {}
            State::CookieEchoed(echoed) => echoed.tcb.transfer.observe_round_trip(round_trip),
            State::Open(opened) => opened.tcb.transfer.observe_round_trip(round_trip),
        }
    }

    /// Advances T2 to this moment, in `ShutdownSent` and `ShutdownAckSent` (RFC 9260, section 9.2). In
    /// another phase nothing is due. Allocates nothing.
    pub fn expire_t2(&mut self, now: SocketTime) -> Expiry
        ensures answer { result ≡ expiry_of now (t2_of self.old) }
        ensures left { self.new ≡ state_after_t2 now self.old }
    {
        match self {
            State::Closed | State::CookieWait(_) | State::CookieEchoed(_) => Expiry::NotDue,
            State::Open(opened) => opened.phase.expire_t2(now),
        }
    }
}
