//! The retransmission timeout (RFC 9260, section 6.3.1), in whole nanoseconds.

ghost use Rattle.std.specs.Prelude.{◌≡◌, is_some, nat_lt};
ghost use Rattle.std.specs.Duration.{as_nanos};
ghost use Rattle.std.specs.Option.{option_map};
ghost use Rattle.dcsctp_spec.specs.queues.Timeout.{smoothed_round_trip, variance_with};

use crate::timer::longest_wait;
use dcsctp_spec::types::{Options, duration_of};
use std::marker::Model;
use std::time::Duration;

// The smoothed round trip with one more, where `variance` says whether one was measured before.
fn smoothed(variance: Option<Duration>, srtt: Duration, rtt: Duration) -> Duration
    ensures { as_nanos result
        ≡ smoothed_round_trip (option_map as_nanos variance) (as_nanos srtt) (as_nanos rtt) }
{
    match variance {
        None => rtt,
        Some(_) => duration_of((7 * srtt.as_nanos() + rtt.as_nanos()) / 8),
    }
}

// The variance with one more round trip. `srtt` is the smoothed one before it.
fn variance_with(variance: Option<Duration>, srtt: Duration, rtt: Duration) -> Duration
    ensures { as_nanos result
        ≡ variance_with (option_map as_nanos variance) (as_nanos srtt) (as_nanos rtt) }
{
    match variance {
        None => duration_of(rtt.as_nanos() / 2),
        Some(variance) => {
            let distance = srtt.abs_diff(rtt).as_nanos();
            duration_of((3 * variance.as_nanos() + distance) / 4)
        }
    }
}

fn is_longer(duration: Duration, other: Duration) -> bool
    ensures { result ≡ nat_lt (as_nanos other) (as_nanos duration) }
{
    other.as_nanos() < duration.as_nanos()
}

// What bounds the timeout.
#[derive(Clone, Copy, Debug)]
struct Bounds {
    rtt_max: Duration,
    rto_min: Duration,
    rto_max: Duration,

    // The least that counts for four variances.
    min_rtt_variance: Duration,
}

impl Bounds {
    ghost use Rattle.dcsctp_spec.specs.queues.Timeout.{timeout_for};

    // The timeout for this smoothed round trip and its variance.
    fn timeout_for(self, srtt: Duration, variance: Duration) -> Duration
        ensures { as_nanos result ≡ timeout_for record {
          rtt_max = as_nanos self.rtt_max;
          rto_min = as_nanos self.rto_min;
          rto_max = as_nanos self.rto_max;
          min_rtt_variance = as_nanos self.min_rtt_variance;
        } (as_nanos srtt) (as_nanos variance) }
    {
        let margin = (4 * variance.as_nanos()).max(self.min_rtt_variance.as_nanos());
        let wanted = (srtt.as_nanos() + margin).max(self.rto_min.as_nanos());
        duration_of(wanted.min(self.rto_max.as_nanos()))
    }
}

/// How long an acknowledgement is awaited before data is sent again, and the round trip that this is computed
/// from.
///
/// A contract sees it with its durations in nanoseconds.
#[derive(Debug, Drop)]
pub struct RetransmissionTimeout {
    rto: Duration,
    srtt: Duration,

    // None: no round trip was measured yet.
    variance: Option<Duration>,

    bounds: Bounds,

    // The longest that a timer which began with this timeout waits once it has expired, if it repeats a request.
    longest_wait: Option<Duration>,
}

impl Model for RetransmissionTimeout {
    ghost use Rattle.std.specs.Duration.{as_nanos};
    ghost use Rattle.std.specs.Option.{option_map};
    ghost use Rattle.dcsctp_spec.specs.queues.Timeout.{TimeoutState};

    ghost Value = { TimeoutState };

    ghost view = { λ timeout. record {
      rto = as_nanos timeout.rto;
      srtt = as_nanos timeout.srtt;
      variance = option_map as_nanos timeout.variance;
      bounds = record {
        rtt_max = as_nanos timeout.bounds.rtt_max;
        rto_min = as_nanos timeout.bounds.rto_min;
        rto_max = as_nanos timeout.bounds.rto_max;
        min_rtt_variance = as_nanos timeout.bounds.min_rtt_variance;
      };
      longest_wait = option_map as_nanos timeout.longest_wait;
    } };
}

impl RetransmissionTimeout {
    ghost use Rattle.dcsctp_spec.specs.queues.Timeout.{new_timeout, timeout_after};

    /// The timeout before any round trip was measured: `rto_initial` of the options, which is not cut to
    /// `rto_min` or `rto_max`.
    ///
    /// Unlike RFC 9260, section 6.3.1, the smoothed round trip time has a value from the beginning, the
    /// same duration.
    pub fn new(options: &Options) -> RetransmissionTimeout
        ensures { result ≡ new_timeout options.now }
    {
        RetransmissionTimeout {
            rto: options.rto_initial,
            srtt: options.rto_initial,
            variance: None,
            bounds: Bounds {
                rtt_max: options.rtt_max,
                rto_min: options.rto_min,
                rto_max: options.rto_max,
                min_rtt_variance: options.min_rtt_variance,
            },
            longest_wait: longest_wait(options),
        }
    }

    /// Takes one more round trip into account (RFC 9260, section 6.3.1, with 1/8 for alpha and 1/4 for
    /// beta). Each division drops the fraction of a nanosecond.
    ///
    /// One longer than `rtt_max` of the options changes nothing. Four variances count as `min_rtt_variance`
    /// if they are less; the timeout is raised to `rto_min` and then cut to `rto_max`.
    pub fn observe_rto(&mut self, rtt: Duration)
        ensures { self.new ≡ timeout_after (as_nanos rtt) self.old }
    {
        if is_longer(rtt, self.bounds.rtt_max) {
            return;
        }
        let variance = variance_with(self.variance, self.srtt, rtt);
        self.srtt = smoothed(self.variance, self.srtt, rtt);
        self.variance = Some(variance);
        self.rto = self.bounds.timeout_for(self.srtt, variance);
    }

    /// The retransmission timeout (RFC 9260, section 6.3.1).
    pub fn rto(&self) -> Duration
        ensures { as_nanos result ≡ self.now.rto }
    {
        self.rto
    }

    /// Was a round trip measured?
    pub fn is_measured(&self) -> bool
        ensures { result ≡ is_some self.now.variance }
    {
        self.variance.is_some()
    }

    /// The longest that a timer which begins with this timeout waits once it has expired, if it repeats a request.
    pub fn longest_wait(&self) -> Option<Duration>
        ensures { option_map as_nanos result ≡ self.now.longest_wait }
    {
        self.longest_wait
    }

    /// The smoothed round trip time.
    pub fn srtt(&self) -> Duration
        ensures { as_nanos result ≡ self.now.srtt }
    {
        self.srtt
    }
}
