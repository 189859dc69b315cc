//! How much may be in flight: slow start, congestion avoidance and fast recovery (RFC 9260, sections 7.2.1 to
//! 7.2.4). Pure arithmetic, in bytes.

ghost use Rattle.std.specs.Prelude.{◌≡◌};
ghost use Rattle.dcsctp_types.specs.queues.Congestion.{is_passed};

use crate::options::Options;

/// What a SACK says for the congestion window.
#[derive(Clone, Copy, Debug)]
pub struct Acknowledged {
    /// The bytes that it acknowledges and no SACK before did.
    pub bytes: usize,

    /// Did the cumulative TSN move?
    pub advances: bool,

    /// Was at least the congestion window in flight before it?
    pub was_full: bool,

    /// Is nothing left to be acknowledged?
    pub is_last: bool,
}

/// The congestion window of an association. Allocates nothing.
#[derive(Clone, Copy, Debug)]
pub struct CongestionControl {
    /// The congestion window.
    pub cwnd: usize,

    /// The slow start threshold.
    pub ssthresh: usize,

    /// What was acknowledged of the present window, in congestion avoidance.
    pub partial_bytes_acked: usize,

    /// In fast recovery the TSN that ends it; none outside.
    pub recovery_exit: Option<u32>,

    /// The size of a packet.
    pub mtu: usize,

    /// The least slow start threshold after a loss.
    pub least_ssthresh: usize,
}

// Is the TSN acknowledged by this cumulative one? (RFC 9260, section 1.6)
fn is_passed(cumulative: u32, tsn: u32) -> bool
    ensures { result ≡ is_passed cumulative tsn }
{
    cumulative.wrapping_sub(tsn) < 0x8000_0000
}

impl CongestionControl {
    ghost use Rattle.std.specs.Prelude.{is_some};
    ghost use Rattle.dcsctp_types.specs.queues.Congestion.{new_congestion, after_timeout, after_loss, exit_after, after_acknowledgement, ssthresh_after_loss, slow_start, avoidance};

    /// Nothing was sent yet. The threshold is at first the peer's window, `a_rwnd`.
    pub fn new(options: &Options, a_rwnd: u32) -> CongestionControl
        ensures { result ≡ new_congestion options.now a_rwnd }
    {
        CongestionControl {
            cwnd: options.cwnd_mtus_initial.saturating_mul(options.mtu),
            ssthresh: a_rwnd as usize,
            partial_bytes_acked: 0,
            recovery_exit: None,
            mtu: options.mtu,
            least_ssthresh: options.cwnd_mtus_min.saturating_mul(options.mtu),
        }
    }

    /// Is fast recovery under way?
    pub fn is_in_fast_recovery(&self) -> bool
        ensures { result ≡ is_some self.now.recovery_exit }
    {
        self.recovery_exit.is_some()
    }

    // The slow start threshold after a loss (RFC 9260, section 7.2.3).
    fn ssthresh_after_loss(&self) -> usize
        ensures { result ≡ ssthresh_after_loss self.now }
    {
        (self.cwnd / 2).max(self.least_ssthresh)
    }

    /// The retransmission timer has expired (RFC 9260, sections 6.3.3 and 7.2.3). Fast recovery ends too, since
    /// all that was outstanding is sent again.
    pub fn handle_timeout(&mut self)
        ensures { self.new ≡ after_timeout self.old }
    {
        self.ssthresh = self.ssthresh_after_loss();
        self.cwnd = self.mtu;
        self.partial_bytes_acked = 0;
        self.recovery_exit = None;
    }

    /// Some TSNs were found lost. Fast recovery begins, unless it is under way. It ends once `exit`, the
    /// highest outstanding TSN, is acknowledged (RFC 9260, section 7.2.4).
    pub fn handle_loss(&mut self, exit: u32)
        ensures { self.new ≡ after_loss self.old.recovery_exit exit self.old }
    {
        match self.recovery_exit {
            Some(_) => {}
            None => {
                self.ssthresh = self.ssthresh_after_loss();
                self.cwnd = self.ssthresh;
                self.partial_bytes_acked = 0;
                self.recovery_exit = Some(exit);
            }
        }
    }

    /// The cumulative TSN is this one: fast recovery ends if it has come to the exit point.
    pub fn leave_recovery(&mut self, cumulative_tsn_ack: u32)
        ensures { self.new
            ≡ record self.old {
              recovery_exit = exit_after cumulative_tsn_ack
                  self.old.recovery_exit;
            } }
    {
        match self.recovery_exit {
            None => {}
            Some(exit) => {
                if is_passed(cumulative_tsn_ack, exit) {
                    self.recovery_exit = None;
                }
            }
        }
    }

    /// Takes a SACK into account, after the losses that it shows. In fast recovery the window stays.
    pub fn handle_acknowledgement(&mut self, ack: Acknowledged)
        ensures { self.new ≡ after_acknowledgement ack self.old.recovery_exit self.old }
    {
        match self.recovery_exit {
            Some(_) => {}
            None => {
                if self.cwnd <= self.ssthresh {
                    self.slow_start(ack);
                } else {
                    self.avoid_congestion(ack);
                }
                if ack.is_last {
                    self.partial_bytes_acked = 0;
                }
            }
        }
    }

    // Slow start (RFC 9260, section 7.2.1).
    fn slow_start(&mut self, ack: Acknowledged)
        ensures { self.new ≡ slow_start ack self.old }
    {
        if ack.advances && ack.was_full {
            self.cwnd = self.cwnd.saturating_add(ack.bytes.min(self.mtu));
        }
    }

    // Congestion avoidance (RFC 9260, section 7.2.2).
    fn avoid_congestion(&mut self, ack: Acknowledged)
        ensures { self.new ≡ avoidance ack self.old }
    {
        let partial = self.partial_bytes_acked.saturating_add(ack.bytes);
        if partial < self.cwnd {
            self.partial_bytes_acked = partial;
        } else if ack.was_full {
            self.partial_bytes_acked = partial - self.cwnd;
            self.cwnd = self.cwnd.saturating_add(self.mtu);
        } else {
            self.partial_bytes_acked = self.cwnd;
        }
    }
}
