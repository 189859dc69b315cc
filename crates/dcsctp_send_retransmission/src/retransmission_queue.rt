//! What is in flight, and how much more may be sent. It is the sending side of RFC 9260, sections 6.1 to 6.3
//! and 7.2, and of RFC 3758, section 3.5.

ghost use Rattle.std.specs.Prelude.{◌≡◌};

mod abandoning;
mod acknowledging;
mod forwarding;
mod handover;
mod resending;
mod sending;

use crate::Outstanding;
use dcsctp_api::SocketTime;
use dcsctp_api::types::{BackoffAlgorithm, Change, CongestionControl, HandoverReadiness, Options};
use dcsctp_send_queue::DataToSend;
use dcsctp_send_timer::{Timer, longest_backoff};
use std::alloc::Global;
use std::marker::Model;
use std::time::Duration;

/// The data of an association that was sent and is not acknowledged yet, with the windows that bound it.
///
/// A contract sees the items, the windows and the timer.
#[derive(Drop)]
pub struct RetransmissionQueue {
    outstanding: Outstanding,
    congestion: CongestionControl,
    timer: Timer,

    // The receive window that the peer announced last.
    peer_window: usize,

    partial_reliability: bool,
    fast_retransmit_due: bool,

    // Were streams reset since the last item was sent?
    reset_begun: bool,

    // Is the RFC followed where the port doesn't (`Options::follow_rfc`)?
    follows_rfc: bool,

    // Was a round trip measured?
    has_measured: bool,

    packets_retransmitted: usize,
    bytes_retransmitted: u64,
    alloc: Global,

    // The list of the last packet's TSNs, whose room serves the next packet.
    spare: Vec<u32>,
}

impl Model for RetransmissionQueue {
    ghost use Rattle.dcsctp_api.specs.spec.queues.Retransmission.{RetransmissionState};

    ghost Value = { RetransmissionState };

    ghost view = { λ queue. record {
      outstanding = queue.outstanding;
      congestion = queue.congestion;
      timer = queue.timer;
      peer_window = queue.peer_window;
      partial_reliability = queue.partial_reliability;
      fast_retransmit_due = queue.fast_retransmit_due;
      reset_begun = queue.reset_begun;
      follows_rfc = queue.follows_rfc;
      has_measured = queue.has_measured;
      packets_retransmitted = queue.packets_retransmitted;
      bytes_retransmitted = queue.bytes_retransmitted;
    } };
}

impl RetransmissionQueue {
    ghost use Rattle.std.specs.Prelude.{true, ◌&&◌, IfNone, ◌+◌, ◌-◌, ◌/◌, ◌%◌, ◌^◌, ◌<◌, ◌≤◌, IfSome, length};
    ghost use Rattle.std.specs.List.{AllByRecursion};
    ghost use Rattle.std.specs.Duration.{as_nanos};
    ghost use Rattle.dcsctp_api.specs.spec.Soundness.{HasBytes};
    ghost use Rattle.dcsctp_api.specs.spec.queues.Retransmission.{new_retransmission, outstanding_count, window_left, retransmission_deadline, can_send, timer_with, is_window_closed, all_lost, with_duration, with_reset_begun, kept_for_peer, counted_again};
    ghost use Rattle.dcsctp_api.specs.spec.endpoint.Timers.{is_expired_timer};
    ghost use Rattle.dcsctp_api.specs.spec.queues.Readiness.{retransmission_readiness};
    ghost use Rattle.dcsctp_api.specs.spec.queues.Items.{unacknowledged_items, marked_items};
    ghost use Rattle.dcsctp_send_retransmission.specs.Outstanding.{FindsPlaces};
    ghost use Rattle.dcsctp_api.specs.spec.queues.Outstanding.{next_tsn, distance_to, is_untouched};
    ghost use Rattle.dcsctp_send_retransmission.specs.Queue.{queue_come_to};
    ghost use Rattle.dcsctp_send_retransmission.specs.Sending.{HasFragment};

    /// Nothing was sent yet: the first TSN is `my_initial_tsn`, the peer's receive window is `a_rwnd` bytes,
    /// as it announced. The congestion window is `cwnd_mtus_initial` MTUs of the options (RFC 9260, section
    /// 7.2.1). Allocates nothing.
    pub fn new(
        alloc: Global,
        options: &Options,
        my_initial_tsn: u32,
        a_rwnd: u32,
        partial_reliability: bool,
        interleaving: bool,
    ) -> RetransmissionQueue
        ensures { result
            ≡ new_retransmission options.now my_initial_tsn a_rwnd partial_reliability
            interleaving }
    {
        RetransmissionQueue {
            outstanding: Outstanding::new(alloc, my_initial_tsn, interleaving),
            congestion: CongestionControl::new(options, a_rwnd),
            timer: Timer::new(
                options.rto_initial,
                BackoffAlgorithm::Exponential,
                None,
                longest_backoff(options),
            ),
            peer_window: a_rwnd as usize,
            partial_reliability,
            fast_retransmit_due: false,
            reset_begun: false,
            follows_rfc: options.follow_rfc,
            has_measured: false,
            packets_retransmitted: 0,
            bytes_retransmitted: 0,
            alloc,
            spare: Vec::new(alloc),
        }
    }

    /// Takes back the list that `get_chunks_to_send` answered, whose room serves the next packet.
    pub fn take_back(&mut self, tsns: Vec<u32>)
        ensures { self.new ≡ self.old }
    {
        self.spare = tsns;
    }

    /// Frees the room that nothing uses.
    pub fn free_room(&mut self)
        ensures { self.new ≡ self.old }
    {
        self.outstanding.free_room();
        self.spare = Vec::new(self.alloc);
    }

    /// Are messages sent as I-DATA (RFC 8260, section 2.1)?
    pub fn is_interleaving(&self) -> bool
        ensures { result ≡ self.now.outstanding.is_interleaved }
    {
        self.outstanding.is_interleaving()
    }

    /// May messages be abandoned (RFC 3758)?
    pub fn is_partially_reliable(&self) -> bool
        ensures { result ≡ self.now.partial_reliability }
    {
        self.partial_reliability
    }

    /// Is this the first TSN, and was nothing acknowledged yet?
    pub fn is_untouched(&self, first_tsn: u32) -> bool
        ensures { result ≡ is_untouched first_tsn self.now.outstanding }
    {
        self.outstanding.is_untouched(first_tsn)
    }

    /// The TSN that is sent next.
    pub fn next_tsn(&self) -> u32
        ensures { result ≡ next_tsn self.now.outstanding }
    {
        self.outstanding.next_tsn()
    }

    /// The TSN that was assigned last, or the one before the first (RFC 6525, section 4.1).
    pub fn last_assigned_tsn(&self) -> u32
        ensures { result ≡ (next_tsn self.now.outstanding + (2 ^ 32 - 1)) % 2 ^ 32 }
    {
        self.outstanding.next_tsn().wrapping_sub(1)
    }

    /// The receive window that the peer reported last, in bytes.
    pub fn peer_window(&self) -> usize
        ensures { result ≡ self.now.peer_window }
    {
        self.peer_window
    }

    /// The peer's receive window less what is in flight, in bytes (RFC 9260, section 6.2.1).
    pub fn rwnd(&self) -> usize
        ensures { result ≡ window_left self.now }
    {
        self.peer_window
            .saturating_sub(self.outstanding.in_flight_bytes())
    }

    /// The congestion window, in bytes (RFC 9260, section 7.2).
    pub fn cwnd(&self) -> usize
        ensures { result ≡ self.now.congestion.cwnd }
    {
        self.congestion.cwnd
    }

    /// How many items were sent that the cumulative TSN ack hasn't passed.
    pub fn outstanding_items(&self) -> usize
        ensures value { result ≡ outstanding_count self.now }
        ensures few { result < 2 ^ 31 }
    {
        self.outstanding.len()
    }

    /// How many of them were found lost, and wait to be sent again.
    pub fn marked_items(&self) -> usize
        ensures { result ≡ marked_items self.now.outstanding.items }
    {
        self.outstanding.marked_items()
    }

    /// How many items were sent and neither acknowledged nor abandoned.
    pub fn unacked_items(&self) -> usize
        ensures { result ≡ unacknowledged_items self.now.outstanding.items }
    {
        self.outstanding.unacknowledged_items()
    }

    /// How many packets with chunks that were sent again there were; it stops at the greatest number.
    pub fn rtx_packets_count(&self) -> usize
        ensures { result ≡ self.now.packets_retransmitted }
    {
        self.packets_retransmitted
    }

    /// The bytes that were sent again, chunk headers and padding included; it stops at the greatest number.
    pub fn rtx_bytes_count(&self) -> u64
        ensures { result ≡ self.now.bytes_retransmitted }
    {
        self.bytes_retransmitted
    }

    /// Why what is in flight can't be handed over to another process. `with_outstanding_data`: it goes along.
    pub fn get_handover_readiness(&self, with_outstanding_data: bool) -> HandoverReadiness
        ensures value { result.0 ≡ retransmission_readiness with_outstanding_data self.now }
        ensures items { AllByRecursion HasBytes self.now.outstanding.items }
        ensures few { length self.now.outstanding.items < 2 ^ 31 }
    {
        let items = self.outstanding.len();
        let flies = !with_outstanding_data && items != 0;
        let lost = !with_outstanding_data && self.outstanding.marked_items() != 0;
        HandoverReadiness::RETRANSMISSION_QUEUE_OUTSTANDING_DATA & flies
            | HandoverReadiness::RETRANSMISSION_QUEUE_FAST_RECOVERY
                & self.congestion.recovery_exit.is_some()
            | HandoverReadiness::RETRANSMISSION_QUEUE_NOT_EMPTY & lost
    }

    /// When the retransmission timer expires next; none if it doesn't run.
    pub fn next_timeout(&self) -> Option<SocketTime>
        ensures { result ≡ retransmission_deadline self.now }
    {
        self.timer.next_expiry()
    }

    /// How long an acknowledgement is awaited when the timer is started next (RFC 9260, section 6.3.2), if a round
    /// trip was measured.
    pub fn update_rto(&mut self, rto: Duration, is_measured: bool)
        ensures { self.new ≡ with_duration (as_nanos rto) is_measured self.old }
    {
        if is_measured {
            self.timer.set_duration(rto);
            self.has_measured = true;
        }
    }

    /// May more be sent? Yes if less than the congestion window and less than the peer's window is in flight,
    /// or nothing (RFC 9260, section 6.1).
    pub fn can_send_data(&self) -> bool
        ensures { result ≡ can_send self.now }
    {
        let flying = self.outstanding.in_flight_bytes();
        flying == 0 || (flying < self.congestion.cwnd && flying < self.peer_window)
    }

    /// Records that outgoing streams are reset: no FORWARD-TSN goes beyond that, since message numbers start
    /// again after the last assigned TSN (RFC 6525, section 5.1.2).
    pub fn begin_reset_streams(&mut self)
        ensures { self.new ≡ with_reset_begun self.old }
    {
        self.reset_begun = true;
    }

    /// What the chunk of the TSN says; none if the TSN isn't outstanding.
    pub fn chunk(&self, tsn: u32) -> Option<&DataToSend>
        ensures found { IfSome result
            (λ fragment. HasFragment (distance_to self.now.outstanding tsn) fragment.now
            self.now.outstanding.items) }
        ensures none { IfNone result
            (length self.now.outstanding.items ≤ distance_to self.now.outstanding tsn) }
        ensures places { FindsPlaces self.now.outstanding }
    {
        let place = self.outstanding.distance_to(tsn);
        if place < self.outstanding.len() {
            Some(&self.outstanding.item(place).fragment)
        } else {
            None
        }
    }

    /// Advances the retransmission timer to `now`, and returns whether it expires. Before its deadline it
    /// doesn't, and nothing changes.
    ///
    /// Once it expires, all that was in flight is marked to be sent again, and the congestion window is one
    /// MTU (RFC 9260, section 6.3.3). The timer runs again, for twice as long as before and at most
    /// `max_timer_backoff_duration` of the options. With `Options::follow_rfc` that is at most `rto_max`, and the
    /// timeout stays doubled until the first round trip is measured, unless the peer's window is closed: a probe that
    /// finds no room isn't lost. Later on it starts again with what was measured (RFC 9260, section 6.3.3, would keep it
    /// doubled, which makes waits three times as long at 30 % loss).
    pub fn handle_timeout(&mut self, now: SocketTime) -> bool
        ensures answer { result ≡ is_expired_timer now self.old.timer.running }
        ensures left { self.new ≡ queue_come_to now self.old }
    {
        if !self.timer.expire(now) {
            return false;
        }
        self.lose_all();
        self.congestion.handle_timeout();
        if self.follows_rfc && !self.has_measured && !self.is_window_closed() {
            self.timer.back_off();
        }
        true
    }

    /// Keeps what was sent for another peer, whose receive window is `a_rwnd` bytes, as it announced. All of it is
    /// marked to be sent again, and nothing is known of the path. Allocates nothing.
    pub fn keep_for_peer(&mut self, now: SocketTime, options: &Options, a_rwnd: u32)
        ensures { self.new ≡ kept_for_peer now options.now a_rwnd self.old }
    {
        self.timer.stop();
        self.keep_timer(now);
        self.lose_all();
        self.congestion = CongestionControl::new(options, a_rwnd);
        self.peer_window = a_rwnd as usize;
        self.fast_retransmit_due = false;
    }

    // Marks all that is in flight as lost, to be sent again.
    fn lose_all(&mut self)
        ensures { self.new ≡ all_lost self.old }
    {
        let len = self.outstanding.len();
        self.outstanding.change_between(Change::Mark, 0, len);
    }

    // Is the peer's window smaller than a packet? Then what is sent is a probe of it (RFC 9260, section 6.1, rule A).
    fn is_window_closed(&self) -> bool
        ensures { result ≡ is_window_closed self.now }
    {
        self.peer_window < self.congestion.mtu - self.congestion.mtu % 4
    }

    // Runs the timer where something is outstanding, and only there (RFC 9260, section 6.3.2).
    fn keep_timer(&mut self, now: SocketTime)
        ensures { self.new
            ≡ record self.old { timer = timer_with now self.old.outstanding.items self.old.timer } }
    {
        if self.outstanding.len() == 0 {
            self.timer.stop();
        } else if !self.timer.is_running() {
            self.timer.start(now);
        }
    }

    // Counts a packet with that many bytes of chunks that were sent again, if there are any.
    fn count_sent_again(&mut self, size: usize)
        ensures { self.new ≡ counted_again size self.old }
    {
        if 0 < size {
            self.packets_retransmitted = self.packets_retransmitted.saturating_add(1);
            self.bytes_retransmitted = self.bytes_retransmitted.saturating_add(size as u64);
        }
    }
}
